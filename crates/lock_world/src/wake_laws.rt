//! Why nobody who sleeps for a lightweight lock is forgotten, why no call is lost, and why nobody waits
//! without a reason. Each function here is a law: its clause is proved, and its body is empty. Most of them
//! speak of every run whose turns keep to what their sessions have to do for those who wait (`RunKeeps` in
//! specs/Wakes), and, where that is said, to the order of lightweight locks (`RunKeepsInOrder`).

ghost use Rattle.std.specs.Prelude.{◌≡◌, ◌⊎◌, ℕ, List, true, Some, None};
ghost use Rattle.modes_core.specs.Tag.{partition_of};
ghost use Rattle.lock_table.specs.OwnWait.{OwnWait};
ghost use Rattle.lock_world.specs.WaitWord.{wait_state};
ghost use Rattle.lock_world.specs.World.{World, MakesSteps};
ghost use Rattle.lock_world.specs.SafeWorld.{SafeWorld};
ghost use Rattle.lock_world.specs.Wakes.Waking.{NobodyIsForgotten, IsAsleep, OrderIsKept};
ghost use Rattle.lock_world.specs.Wakes.Owing.{waking};
ghost use Rattle.lock_world.specs.Wakes.Reasons.{HasReason};
ghost use Rattle.lock_world.specs.Wakes.{Beside, Turn, Keeps, beside_after, RunKeeps, RunKeepsInOrder};
ghost use Rattle.lock_world.specs.Wakes.{IsParkedWaiting, IsParkedAsleep, ParkedHaveNothingToDo, NotAllSleep};
ghost use Rattle.lock_world.specs.Wakes.{OnlyLiveOwe, IsLookedAfter, NoCallIsLost, SleepAndWakeup};

/// No sleeper is forgotten, between any two turns of a run that keeps to what is owed. Where the wait list of
/// a lightweight lock has a waiter, somebody has the lock or has something to do for it. A session that
/// sleeps is in the wait list of a lock, and a session that makes steps has that lock or something to do for
/// it; or the sleeper was taken off, and a session that makes steps has it to wake. Only sessions that make
/// steps have a lightweight lock, or something to do. One turn that keeps to what is owed forgets nobody, in
/// a safe World where nobody is forgotten.
pub fn no_sleeper_is_forgotten()
    ensures each_turn { (w v : World) (b : Beside) (turn : Turn) → SafeWorld w →
        NobodyIsForgotten (waking w b.duties) → Keeps w b turn v →
        NobodyIsForgotten (waking v (beside_after w b turn).duties) }
    ensures nobody { (limit groups : ℕ) (turns : List Turn) (v : World) (d : Beside) →
        RunKeeps limit groups turns v d → NobodyIsForgotten (waking v d.duties) }
    ensures owed { (limit groups : ℕ) (turns : List Turn) (v : World) (d : Beside) → RunKeeps limit groups turns v d →
        (session lock : ℕ) → IsAsleep (waking v d.duties) session lock → IsLookedAfter v d session lock }
    ensures only_live { (limit groups : ℕ) (turns : List Turn) (v : World) (d : Beside) →
        RunKeeps limit groups turns v d → OnlyLiveOwe v d }
{}

/// No call is lost, of wait words and of sleep words alike, in a run that keeps to what is owed. A session
/// parks on its wait word where that shows that it waits, and on its sleep word where that doesn't show that
/// it was told. One that is parked on what its word no more shows is owed a call, by a session that makes
/// steps and is not parked itself, on neither word.
pub fn no_call_is_lost()
    ensures waits { (limit groups : ℕ) (turns : List Turn) (v : World) (d : Beside) → RunKeeps limit groups turns v d →
        NoCallIsLost v d (IsParkedWaiting d) v.words.wait d.waits }
    ensures sleeps { (limit groups : ℕ) (turns : List Turn) (v : World) (d : Beside) → RunKeeps limit groups turns v d →
        NoCallIsLost v d (IsParkedAsleep d) v.words.sleep d.sleeps }
{}

/// A session parks once it has nothing left to do that others may wait for, in a run that keeps to what is
/// owed. One that is parked on its wait word, for an object, has no lightweight lock, nothing to do for those
/// who wait for one, nobody to tell and nobody to call. One that is parked on its sleep word is in the list
/// of a lightweight lock, and has nothing to do for others and nobody to call.
pub fn whoever_parks_has_nothing_left_to_do()
    ensures { (limit groups : ℕ) (turns : List Turn) (v : World) (d : Beside) →
        RunKeeps limit groups turns v d → ParkedHaveNothingToDo v d }
{}

/// No circle of sleepers comes, in a run that takes lightweight locks in their order as well. No session is
/// in the wait list of a lock while it has a lock that is later in that order. So not all of those are
/// parked, on a wait word or a sleep word, who have a lightweight lock, something to do for one, somebody to
/// tell or a call to make, where there are any, or where anybody is parked for a lightweight lock: a chain of
/// waiting ends at a session that runs.
pub fn no_circle_of_sleepers()
    ensures in_order { (limit groups : ℕ) (turns : List Turn) (v : World) (d : Beside) →
        RunKeepsInOrder limit groups turns v d → OrderIsKept (waking v d.duties) }
    ensures somebody_runs { (limit groups : ℕ) (turns : List Turn) (v : World) (d : Beside) →
        RunKeepsInOrder limit groups turns v d → NotAllSleep v d }
{}

/// Every session that waits for an object has a reason, in a safe World with the object's partition at home.
/// Another session holds the object in a mode that conflicts with the one awaited, or a session that waits
/// before it awaits such a mode; otherwise the wait word of the session that waits shows the grant. In a run
/// that keeps to what is owed a session whose wait was granted runs, or is owed a call: where it is parked on
/// a word that showed it waiting, a session that makes steps has it to call.
pub fn every_waiter_has_a_reason()
    ensures reason { (w : World) → SafeWorld w → (session : ℕ) (wait : OwnWait) →
        w.sessions.awaited session ≡ Some wait → w.contents.hand (partition_of wait.tag) ≡ None →
        HasReason (w.contents.now (partition_of wait.tag)) session wait ⊎ (wait_state (w.words.wait session) ≡ 2) }
    ensures called { (limit groups : ℕ) (turns : List Turn) (v : World) (d : Beside) → RunKeeps limit groups turns v d →
        (session shown : ℕ) → IsParkedWaiting d session shown →
        wait_state (v.words.wait session) ≡ 2 →
        (other : ℕ) × (d.waits.owed other session ≡ true) × MakesSteps v.numbers other }
{}

/// What the laws on sleeping and waking ask of a run can be met: there is a run in which a session falls
/// asleep for the lock of another's slots, and goes on, called by the session that puts that lock, until it
/// has the lock.
pub fn a_run_puts_a_session_to_sleep_and_wakes_it()
    ensures { SleepAndWakeup }
{}
