//! The plain machine's steps on the bits of lightweight words that guard wait lists, and on their flags.

use super::lw_words::unlocked;
use super::state::Machine;
use lock_world::Word;
use modes_core::{SessionId, USUAL_SESSIONS};

impl Machine {
    ghost use Rattle.std.specs.Prelude.{◌≡◌, ◌<◌};
    ghost use Rattle.modes_core.specs.Sessions.{usual_sessions};
    ghost use Rattle.lock_world.specs.declared.events.Step.{Step};
    ghost use Rattle.lock_world.specs.declared.events.Word.{Word};
    ghost use Rattle.lock_model.specs.Shows.{Follows};
    ghost use Rattle.lock_model.specs.ListWords.{may_lock_list, has_list};

    /// Locks the wait list of the lightweight lock `word` for `session`, where nobody has locked that list
    /// and `session` has locked no other one (`LWLockWaitListLock` in lwlock.c).
    pub fn lock_list(&mut self, session: SessionId, word: Word)
        requires within { session < usual_sessions }
        ensures { Follows self.old session (Step.LockList word) self.new }
    {
        match word {
            Word::Partition(partition) => self.lock_partition_list(session, partition),
            Word::Fast(owner) => self.lock_fast_list(session, owner),
            Word::Database(_) | Word::Slot(..) | Word::Wait(_) | Word::Strong(_) | Word::Sleep(_) =>
                {}
        }
    }

    /// Unlocks the wait list of the lightweight lock `word`, which `session` has locked; has-waiters and
    /// release-ok remain set where `has_waiters` and `release_ok` say so (`LWLockWaitListUnlock` in
    /// lwlock.c).
    pub fn unlock_list(
        &mut self,
        session: SessionId,
        word: Word,
        has_waiters: bool,
        release_ok: bool,
    )
        requires within { session < usual_sessions }
        ensures { Follows self.old session (Step.UnlockList word has_waiters release_ok) self.new }
    {
        match word {
            Word::Partition(partition) => {
                self.unlock_partition_list(session, partition, has_waiters, release_ok)
            }
            Word::Fast(owner) => self.unlock_fast_list(session, owner, has_waiters, release_ok),
            Word::Database(_) | Word::Slot(..) | Word::Wait(_) | Word::Strong(_) | Word::Sleep(_) =>
                {}
        }
    }

    /// Sets release-ok in `word`, which showed `shown` before, for `session` (`LWLockAcquire` in lwlock.c,
    /// once the session was woken).
    pub fn set_release_ok(&mut self, session: SessionId, word: Word, shown: u64)
        requires within { session < usual_sessions }
        ensures { Follows self.old session (Step.SetReleaseOk word shown) self.new }
    {
        match word {
            Word::Partition(partition) => self.set_partition_release_ok(session, partition, shown),
            Word::Fast(owner) => self.set_fast_release_ok(session, owner, shown),
            Word::Database(_) | Word::Slot(..) | Word::Wait(_) | Word::Strong(_) | Word::Sleep(_) =>
                {}
        }
    }

    /// Sets has-waiters in `word`, which showed `shown` before: the word of the lock whose wait list
    /// `session` has locked (`LWLockQueueSelf` in lwlock.c).
    pub fn set_has_waiters(&mut self, session: SessionId, word: Word, shown: u64)
        requires within { session < usual_sessions }
        ensures { Follows self.old session (Step.SetHasWaiters word shown) self.new }
    {
        match word {
            Word::Partition(partition) => self.set_partition_has_waiters(session, partition, shown),
            Word::Fast(owner) => self.set_fast_has_waiters(session, owner, shown),
            Word::Database(_) | Word::Slot(..) | Word::Wait(_) | Word::Strong(_) | Word::Sleep(_) =>
                {}
        }
    }

    /// Whether `session` makes steps and has locked no wait list, so that it may lock one.
    fn may_lock_list(&self, session: SessionId) -> bool
        requires within { session < usual_sessions }
        ensures { result ≡ may_lock_list self.now session }
    {
        self.makes_steps(session) && self.lists.has_list[usize::from(session.number())].is_none()
    }

    /// Whether `session` makes steps, and has locked the wait list of `lock`.
    fn has_list(&self, session: SessionId, lock: u16) -> bool
        requires within { session < usual_sessions }
        ensures { result ≡ has_list self.now session lock }
    {
        self.makes_steps(session)
            && self.lists.has_list[usize::from(session.number())].is_some_and(|its| its == lock)
    }

    /// Locks the wait list of the lock of `partition`, for `session`.
    fn lock_partition_list(&mut self, session: SessionId, partition: u8)
        requires within { session < usual_sessions }
        ensures { Follows self.old session (Step.LockList (Word.Partition partition)) self.new }
    {
        let index = usize::from(partition);
        if index < 16 && self.may_lock_list(session) {
            if let Some(word) = self.words.partitions[index].lock_list() {
                self.words.partitions[index] = word;
                self.lists.has_list[usize::from(session.number())] = Some(2 * partition as u16);
            }
        }
    }

    /// Locks the wait list of the lock of the fast-path slots of `owner`, for `session`.
    fn lock_fast_list(&mut self, session: SessionId, owner: SessionId)
        requires within { session < usual_sessions }
        ensures { Follows self.old session (Step.LockList (Word.Fast owner)) self.new }
    {
        if owner.number() >= USUAL_SESSIONS {
            return;
        }
        let index = usize::from(owner.number());
        if self.may_lock_list(session) {
            if let Some(word) = self.words.fast[index].lock_list() {
                self.words.fast[index] = word;
                self.lists.has_list[usize::from(session.number())] = Some(2 * owner.number() + 1);
            }
        }
    }

    /// Unlocks the wait list of the lock of `partition`, which `session` has locked; has-waiters and
    /// release-ok remain set where `has_waiters` and `release_ok` say so.
    fn unlock_partition_list(
        &mut self,
        session: SessionId,
        partition: u8,
        has_waiters: bool,
        release_ok: bool,
    )
        requires within { session < usual_sessions }
        ensures { Follows self.old session (Step.UnlockList (Word.Partition partition) has_waiters release_ok)
            self.new }
    {
        let index = usize::from(partition);
        if index < 16 && self.has_list(session, 2 * partition as u16) {
            let word = self.words.partitions[index];
            self.words.partitions[index] = unlocked(word, has_waiters, release_ok);
            self.lists.has_list[usize::from(session.number())] = None;
        }
    }

    /// Unlocks the wait list of the lock of the fast-path slots of `owner`, which `session` has locked;
    /// has-waiters and release-ok remain set where `has_waiters` and `release_ok` say so.
    fn unlock_fast_list(
        &mut self,
        session: SessionId,
        owner: SessionId,
        has_waiters: bool,
        release_ok: bool,
    )
        requires within { session < usual_sessions }
        ensures { Follows self.old session (Step.UnlockList (Word.Fast owner) has_waiters release_ok) self.new }
    {
        if owner.number() >= USUAL_SESSIONS {
            return;
        }
        let index = usize::from(owner.number());
        if self.has_list(session, 2 * owner.number() + 1) {
            let word = self.words.fast[index];
            self.words.fast[index] = unlocked(word, has_waiters, release_ok);
            self.lists.has_list[usize::from(session.number())] = None;
        }
    }

    /// Sets release-ok in the word of the lock of `partition`, which showed `shown` before, for `session`.
    fn set_partition_release_ok(&mut self, session: SessionId, partition: u8, shown: u64)
        requires within { session < usual_sessions }
        ensures { Follows self.old session (Step.SetReleaseOk (Word.Partition partition) shown) self.new }
    {
        let index = usize::from(partition);
        if index < 16
            && self.makes_steps(session)
            && shown == self.words.partitions[index].number()
        {
            self.words.partitions[index] = self.words.partitions[index].set_release_ok();
        }
    }

    /// Sets release-ok in the word of the lock of the fast-path slots of `owner`, which showed `shown`
    /// before, for `session`.
    fn set_fast_release_ok(&mut self, session: SessionId, owner: SessionId, shown: u64)
        requires within { session < usual_sessions }
        ensures { Follows self.old session (Step.SetReleaseOk (Word.Fast owner) shown) self.new }
    {
        if owner.number() >= USUAL_SESSIONS {
            return;
        }
        let index = usize::from(owner.number());
        if self.makes_steps(session) && shown == self.words.fast[index].number() {
            self.words.fast[index] = self.words.fast[index].set_release_ok();
        }
    }

    /// Sets has-waiters in the word of the lock of `partition`, which showed `shown` before and whose wait
    /// list `session` has locked.
    fn set_partition_has_waiters(&mut self, session: SessionId, partition: u8, shown: u64)
        requires within { session < usual_sessions }
        ensures { Follows self.old session (Step.SetHasWaiters (Word.Partition partition) shown) self.new }
    {
        let index = usize::from(partition);
        if index < 16
            && self.has_list(session, 2 * partition as u16)
            && shown == self.words.partitions[index].number()
        {
            self.words.partitions[index] = self.words.partitions[index].set_has_waiters();
        }
    }

    /// Sets has-waiters in the word of the lock of the fast-path slots of `owner`, which showed `shown`
    /// before and whose wait list `session` has locked.
    fn set_fast_has_waiters(&mut self, session: SessionId, owner: SessionId, shown: u64)
        requires within { session < usual_sessions }
        ensures { Follows self.old session (Step.SetHasWaiters (Word.Fast owner) shown) self.new }
    {
        if owner.number() >= USUAL_SESSIONS {
            return;
        }
        let index = usize::from(owner.number());
        if self.has_list(session, 2 * owner.number() + 1)
            && shown == self.words.fast[index].number()
        {
            self.words.fast[index] = self.words.fast[index].set_has_waiters();
        }
    }
}
