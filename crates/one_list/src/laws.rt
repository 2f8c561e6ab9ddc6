//! Whatever the threads do, the lock manager is one plain list of holds and waits. Each function is a law:
//! its clauses are proved, and its body is empty.

ghost use Rattle.std.specs.Prelude.{◌≡◌, ◌<◌, ◌^◌, ℕ, List, ◌∷◌, true, false, Option, Some, None, slice_get};
ghost use Rattle.modes_core.specs.declared.modes.Mode.{Mode};
ghost use Rattle.modes_core.specs.declared.tags.Tag.{Tag};
ghost use Rattle.modes_core.specs.Tag.{partition_of};
ghost use Rattle.lock_table.specs.Content.{Wait, Content, empty_content};
ghost use Rattle.lock_table.specs.declared.moves.Move.{Move};
ghost use Rattle.lock_table.specs.Queue.{joining_wait};
ghost use Rattle.lock_world.specs.declared.events.Event.{Event};
ghost use Rattle.lock_world.specs.World.{World, opening};
ghost use Rattle.lock_world.specs.Happens.{Happens, RunsThrough, last_of};
ghost use Rattle.lock_world.specs.Headline.{stands_with};
ghost use Rattle.lock_world.specs.SafeWorld.{SafeWorld, slots_of};
ghost use Rattle.one_list.specs.OneList.{list_of, MovesList, JoinsQueue, DoesItsMove, IsStepOfList, IsRunOfList};
ghost use Rattle.one_list.specs.Moments.{ListIsSafe, IsNoJoin, AtSomeMoment, Coming, Going};
ghost use Rattle.one_list.specs.Requests.{AnswersAlike, RefusalsAreTheLists, AnswersAreTheLists};

/// Each lawful step of a safe World does to the one list that the World shows just the move that the step
/// makes, with the waits that the move grants, or nothing. Six kinds of steps make a move: a slot set (a
/// grant) or cleared (a release), a partition put, a wait word set (a join), the first mark of a wakeup (a
/// release or a leave, with all that the wakeup grants), and a wait word cleared by a leave. All others
/// change nothing, a hold that goes from a slot to the table among them.
pub fn each_step_is_one_move_or_none()
    ensures { (w v : World) (event : Event) → SafeWorld w → Happens w event v →
        DoesItsMove w event.session event.step v }
{}

/// Every run is a run of one list, from the empty one on. What each World on the way shows follows from what
/// the World before showed by nothing, or by one move of the session whose event it was.
pub fn every_run_is_a_run_of_one_list()
    ensures opening { (limit groups : ℕ) → list_of (opening limit groups) ≡ empty_content }
    ensures run { (limit groups : ℕ) (events : List Event) (worlds : List World) → limit < 2 ^ 24 →
        RunsThrough (opening limit groups) events worlds → IsRunOfList empty_content events worlds }
{}

/// In a safe World the list answers each request as the content of the object's partition does, where the
/// mode is weak, or its session has counted it past each session. So is what the request clashes with, by
/// name. Nothing that slots show is in the way of such a request.
pub fn a_partition_answers_for_the_list()
    ensures { (w : World) → SafeWorld w → (session : ℕ) (tag : Tag) (mode : Mode) →
        AnswersAlike w session tag mode (w.contents.now (partition_of tag)) }
{}

/// The list keeps the promise of the lock manager by its moves alone. The empty list is safe, and each step
/// leaves a safe list safe: no two sessions' holds conflict, and nobody who waits is free to go. A move leads
/// to one list, and a join to one for what its wait remembers.
pub fn the_list_keeps_the_promise()
    ensures empty { ListIsSafe empty_content }
    ensures step { (session : ℕ) (before after : Content) → ListIsSafe before → IsStepOfList session before after →
        ListIsSafe after }
    ensures run { (events : List Event) (worlds : List World) → IsRunOfList empty_content events worlds →
        (place : ℕ) (w : World) → slice_get worlds place ≡ Some w → ListIsSafe (list_of w) }
    ensures one_list { (before : Content) (session : ℕ) (done : Move) (granted its : List Wait)
        (after other : Content) → IsNoJoin done → MovesList before session done granted after →
        MovesList before session done its other →
        (granted ≡ its) × (after ≡ other) }
    ensures one_join { (before : Content) (session : ℕ) (tag : Tag) (mode : Mode) (after other : Content)
        (one : JoinsQueue before session tag mode after) (two : JoinsQueue before session tag mode other) →
        one.held ≡ two.held → after ≡ other }
{}

/// Each hold has its moments. Where a session has not a mode on an object in a World of a run, and has it in
/// a later one, in a slot or in a content, there is an event between them at which the list comes to have it:
/// by a grant of the session's own, where nothing is in its way in the list, or by a wakeup that anybody's
/// release or leave makes. Where it has the mode and later not, there is an event at which the mode goes, by
/// the session's own release. And where a session that waits for nothing comes to own a mode by its own
/// account, the list came to have it at a moment between.
pub fn each_hold_has_its_moments()
    ensures comes { (w : World) (events : List Event) (worlds : List World) (session : ℕ) (tag : Tag) (mode : Mode) →
        SafeWorld w → RunsThrough w events worlds → stands_with w session tag mode ≡ false →
        stands_with (last_of w worlds) session tag mode ≡ true →
        AtSomeMoment w events worlds (Coming session tag mode) }
    ensures goes { (w : World) (events : List Event) (worlds : List World) (session : ℕ) (tag : Tag) (mode : Mode) →
        SafeWorld w → RunsThrough w events worlds → stands_with w session tag mode ≡ true →
        stands_with (last_of w worlds) session tag mode ≡ false →
        AtSomeMoment w events worlds (Going session tag mode) }
    ensures own { (w : World) (events : List Event) (worlds : List World) (session : ℕ) (tag : Tag) (mode : Mode) →
        SafeWorld w → RunsThrough w events worlds → w.sessions.awaited session ≡ None →
        w.sessions.own session tag mode ≡ false → (last_of w worlds).sessions.own session tag mode ≡ true →
        AtSomeMoment w events worlds (Coming session tag mode) }
{}

/// A refusal is the list's. Where a conditional request of a session clashes with something in the content
/// that the session took, the list refuses the request in a World on the way of the run, the one in which the
/// session took that content, and what the refusal names is in the way in the list.
pub fn a_refusal_is_the_lists()
    ensures { (limit groups : ℕ) (events : List Event) (worlds : List World) → limit < 2 ^ 24 →
        RunsThrough (opening limit groups) events worlds →
        RefusalsAreTheLists (opening limit groups ∷ worlds) (last_of (opening limit groups) worlds) }
{}

/// Each answer is the list's. What the content that a session took answers to a request of the session, the
/// list answers in a World on the way of the run, the one in which the session took that content, if the mode
/// is weak, or counted then past each session.
pub fn an_answer_is_the_lists()
    ensures { (limit groups : ℕ) (events : List Event) (worlds : List World) → limit < 2 ^ 24 →
        RunsThrough (opening limit groups) events worlds →
        AnswersAreTheLists (opening limit groups ∷ worlds) (last_of (opening limit groups) worlds) }
{}

/// A wait remembers what stands in the table. A mode that a slot shows as its session joins a queue is in the
/// list, and the wait does not remember it. So a wait need not remember each mode that its session has.
pub fn a_wait_remembers_what_stands_in_the_table()
    ensures { (w : World) → SafeWorld w → (session : ℕ) (tag : Tag) (mode its : Mode) →
        slots_of w.words.database w.words.slot session tag its ≡ true →
        ((list_of w).holds session tag its ≡ true)
        × ((joining_wait (w.contents.now (partition_of tag)) session tag mode).held its ≡ false) }
{}
