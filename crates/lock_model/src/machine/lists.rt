//! The plain machine's steps on wait lists and sleep words.

ghost use Rattle.std.specs.Prelude.{◌≡◌, not, filter};
ghost use Rattle.lock_model.specs.SleeperLists.{is_at};

use super::state::{Machine, Sleeper};
use lock_table::NoMemory;
use lw_word::{LwMode, LwWaiter};
use modes_core::{SessionId, USUAL_SESSIONS};

impl Sleeper {
    /// Whether this sleeper is `session`, waiting for `lock`.
    fn is_at(&self, lock: u16, session: SessionId) -> bool
        ensures { result ≡ is_at lock session self.now }
    {
        self.lock == lock && session == self.waiter.session
    }
}

/// Takes `session` out of the wait list of `lock` in `sleepers`.
fn take_out(sleepers: &mut Vec<Sleeper>, lock: u16, session: SessionId)
    ensures { sleepers.new.items ≡ filter (λ sleeper. not (is_at lock session sleeper)) sleepers.old.items }
{
    sleepers.retain(|sleeper| !sleeper.is_at(lock, session));
}

impl Machine {
    ghost use Rattle.std.specs.Prelude.{◌≡◌, ◌<◌, ◌≤◌, OnOk, OnErr, vec_len};
    ghost use Rattle.modes_core.specs.Sessions.{usual_sessions};
    ghost use Rattle.std.specs.List.{list_any};
    ghost use Rattle.std.specs.Vec.{vec_capacity};
    ghost use Rattle.lock_world.specs.declared.events.Step.{Step};
    ghost use Rattle.lock_world.specs.World.{World};
    ghost use Rattle.lock_model.specs.Shows.{Shows, ShowsSafe, Follows};
    ghost use Rattle.lock_model.specs.SleeperLists.{list_to_change, waits_at, may_tell, may_load_sleep, sees_no_sleep};

    /// Puts `session` at the end of the wait list that it has locked, as one that wants `mode`
    /// (`LWLockQueueSelf` in lwlock.c). After `NoMemory`, which comes only where the list of sleepers was
    /// full, the machine shows what it showed before.
    pub fn join_list(&mut self, session: SessionId, mode: LwMode) -> Result<(), NoMemory>
        requires within { session < usual_sessions }
        requires shown { ShowsSafe self.old }
        ensures followed { OnOk result (Follows self.old session (Step.JoinList mode) self.new) }
        ensures refused { OnErr result ((w : World) → Shows self.old w → Shows self.new w) }
        ensures full { OnErr result (vec_capacity self.old.lists.sleepers ≤ vec_len self.old.lists.sleepers) }
    {
        let Some(lock) = self.list_to_change(session) else {
            return Ok(());
        };
        let index = usize::from(session.number());
        if self.lists.sleep[index] == 0 {
            self.lists.sleepers.push(Sleeper {
                lock,
                waiter: LwWaiter { session, mode },
            })?;
            self.lists.sleep[index] = 1;
            self.lists.stands[index] = Some(lock);
        }
        Ok(())
    }

    /// Takes `session` out of the wait list that it has locked, where the session is in that list
    /// (`LWLockDequeueSelf` in lwlock.c).
    pub fn leave_list(&mut self, session: SessionId)
        requires within { session < usual_sessions }
        requires shown { ShowsSafe self.old }
        ensures { Follows self.old session Step.LeaveList self.new }
    {
        let Some(lock) = self.list_to_change(session) else {
            return;
        };
        let index = usize::from(session.number());
        if self.waits_at(lock, session) {
            take_out(&mut self.lists.sleepers, lock, session);
            self.lists.sleep[index] = 0;
            self.lists.stands[index] = None;
        }
    }

    /// Takes `other` off the wait list that `session` has locked, to be woken later (the first loop of
    /// `LWLockWakeup` in lwlock.c).
    pub fn take_off(&mut self, session: SessionId, other: SessionId)
        requires within { session < usual_sessions }
        requires shown { ShowsSafe self.old }
        ensures { Follows self.old session (Step.TakeOff other) self.new }
    {
        if other.number() >= USUAL_SESSIONS {
            return;
        }
        if other == session {
            return;
        }
        let Some(lock) = self.list_to_change(session) else {
            return;
        };
        let index = usize::from(session.number());
        let whose = usize::from(other.number());
        if self.waits_at(lock, other) {
            take_out(&mut self.lists.sleepers, lock, other);
            self.lists.sleep[whose] = 2;
            self.lists.off[index][whose] = true;
        }
    }

    /// Clears the sleep word of `other`, which `session` took off a wait list (the second loop of
    /// `LWLockWakeup` in lwlock.c).
    pub fn tell(&mut self, session: SessionId, other: SessionId)
        requires within { session < usual_sessions }
        requires shown { ShowsSafe self.old }
        ensures { Follows self.old session (Step.Tell other) self.new }
    {
        if other.number() >= USUAL_SESSIONS {
            return;
        }
        let index = usize::from(session.number());
        let whose = usize::from(other.number());
        if self.may_tell(session, other) {
            self.lists.sleep[whose] = 0;
            self.lists.off[index][whose] = false;
        }
    }

    /// Loads the sleep word of `session`, which must show `shown`: where `shown` is 0, the session is in no
    /// wait list (the sleep in `LWLockAcquire` in lwlock.c).
    pub fn load_sleep(&mut self, session: SessionId, shown: u8)
        requires within { session < usual_sessions }
        requires shown { ShowsSafe self.old }
        ensures { Follows self.old session (Step.LoadSleep shown) self.new }
    {
        let index = usize::from(session.number());
        if self.sees_no_sleep(session, shown) {
            self.lists.stands[index] = None;
        }
    }

    /// The lock whose wait list `session` has locked, or `None` where there is no such lock or the session
    /// makes no steps.
    fn list_to_change(&self, session: SessionId) -> Option<u16>
        requires within { session < usual_sessions }
        ensures { result ≡ list_to_change self.now session }
    {
        if self.makes_steps(session) {
            self.lists.has_list[usize::from(session.number())]
        } else {
            None
        }
    }

    /// Whether `session` is in the wait list of `lock`, and its sleep word shows waiting.
    fn waits_at(&self, lock: u16, session: SessionId) -> bool
        requires within { session < usual_sessions }
        ensures { result ≡ waits_at self.now lock session }
    {
        self.stands_at(lock, session) && self.lists.sleep[usize::from(session.number())] == 1
    }

    /// Whether `session` is in the wait list of `lock`.
    fn stands_at(&self, lock: u16, session: SessionId) -> bool
        ensures { result ≡ list_any (is_at lock session) self.now.lists.sleepers.items }
    {
        self.lists
            .sleepers
            .iter()
            .any(|sleeper| sleeper.is_at(lock, session))
    }

    /// Whether `session` makes steps, and has taken `other` off a wait list and not woken it yet.
    fn may_tell(&self, session: SessionId, other: SessionId) -> bool
        requires within { session < usual_sessions }
        requires exists { other < usual_sessions }
        ensures { result ≡ may_tell self.now session other }
    {
        let whose = usize::from(other.number());
        self.makes_steps(session)
            && self.lists.off[usize::from(session.number())][whose]
            && self.lists.sleep[whose] == 2
    }

    /// Whether `session` may load its sleep word, and the word shows `shown`.
    fn may_load_sleep(&self, session: SessionId, shown: u8) -> bool
        requires within { session < usual_sessions }
        ensures { result ≡ may_load_sleep self.now session shown }
    {
        self.makes_steps(session) && shown == self.lists.sleep[usize::from(session.number())]
    }

    /// Whether `session` may load its sleep word, which shows `shown`, and sees by `shown` that it is in no
    /// wait list.
    fn sees_no_sleep(&self, session: SessionId, shown: u8) -> bool
        requires within { session < usual_sessions }
        ensures { result ≡ sees_no_sleep self.now session shown }
    {
        self.may_load_sleep(session, shown) && shown == 0
    }
}
