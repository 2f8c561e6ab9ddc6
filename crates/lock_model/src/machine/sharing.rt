//! The plain machine's steps of sharing a lightweight lock: that of a partition, whose content does not come
//! with it, and that of a session's fast-path slots.

use super::lw_words::{put, share};
use super::state::{Machine, has_a_mark};
use lock_world::Word;
use lw_word::LwMode;
use modes_core::{SessionId, USUAL_SESSIONS};

impl Machine {
    ghost use Rattle.std.specs.Prelude.{◌≡◌, ◌<◌, ◌||◌};
    ghost use Rattle.modes_core.specs.Sessions.{usual_sessions};
    ghost use Rattle.lock_world.specs.declared.events.Step.{Step};
    ghost use Rattle.lock_world.specs.declared.events.Word.{Word};
    ghost use Rattle.lock_model.specs.Shows.{Follows, has_a_mark};

    /// Shares `word`, where nobody holds it exclusively and `session` does not share it yet (`LWLockAcquire`
    /// with `LW_SHARED` in lwlock.c).
    pub fn take_shared(&mut self, session: SessionId, word: Word)
        requires within { session < usual_sessions }
        ensures { Follows self.old session (Step.TakeShared word) self.new }
    {
        match word {
            Word::Partition(partition) => self.share_partition(session, partition),
            Word::Fast(owner) => self.share_fast(session, owner),
            Word::Database(_) | Word::Slot(..) | Word::Wait(_) | Word::Strong(_) | Word::Sleep(_) =>
                {}
        }
    }

    /// Releases `word` by `session`, which shares it (`LWLockRelease` in lwlock.c).
    pub fn put_shared(&mut self, session: SessionId, word: Word)
        requires within { session < usual_sessions }
        ensures { Follows self.old session (Step.PutShared word) self.new }
    {
        match word {
            Word::Partition(partition) => self.unshare_partition(session, partition),
            Word::Fast(owner) => self.unshare_fast(session, owner),
            Word::Database(_) | Word::Slot(..) | Word::Wait(_) | Word::Strong(_) | Word::Sleep(_) =>
                {}
        }
    }

    /// Shares the word of `partition`, for `session`.
    fn share_partition(&mut self, session: SessionId, partition: u8)
        requires within { session < usual_sessions }
        ensures { Follows self.old session (Step.TakeShared (Word.Partition partition)) self.new }
    {
        let index = usize::from(partition);
        let whose = usize::from(session.number());
        if index < 16 && self.makes_steps(session) && !self.locks.partition_sharers[index][whose] {
            if let Some(word) = share(self.words.partitions[index]) {
                self.words.partitions[index] = word;
                self.locks.partition_sharers[index][whose] = true;
            }
        }
    }

    /// Gives the word of `partition`, which `session` shares, back.
    fn unshare_partition(&mut self, session: SessionId, partition: u8)
        requires within { session < usual_sessions }
        ensures { Follows self.old session (Step.PutShared (Word.Partition partition)) self.new }
    {
        let index = usize::from(partition);
        let whose = usize::from(session.number());
        if index < 16 && self.makes_steps(session) && self.locks.partition_sharers[index][whose] {
            self.words.partitions[index] = put(self.words.partitions[index], LwMode::Shared);
            self.locks.partition_sharers[index][whose] = false;
        }
    }

    /// Shares the word of the fast-path slots of `owner`, for `session`.
    fn share_fast(&mut self, session: SessionId, owner: SessionId)
        requires within { session < usual_sessions }
        ensures { Follows self.old session (Step.TakeShared (Word.Fast owner)) self.new }
    {
        if owner.number() >= USUAL_SESSIONS {
            return;
        }
        let index = usize::from(owner.number());
        let whose = usize::from(session.number());
        if self.makes_steps(session) && !self.locks.fast_sharers[index][whose] {
            if let Some(word) = share(self.words.fast[index]) {
                self.words.fast[index] = word;
                self.locks.fast_sharers[index][whose] = true;
            }
        }
    }

    /// Gives the word of the fast-path slots of `owner`, which `session` shares, back.
    fn unshare_fast(&mut self, session: SessionId, owner: SessionId)
        requires within { session < usual_sessions }
        ensures { Follows self.old session (Step.PutShared (Word.Fast owner)) self.new }
    {
        if owner.number() >= USUAL_SESSIONS {
            return;
        }
        let index = usize::from(owner.number());
        let whose = usize::from(session.number());
        if self.makes_steps(session) && self.locks.fast_sharers[index][whose] {
            self.words.fast[index] = put(self.words.fast[index], LwMode::Shared);
            self.locks.fast_sharers[index][whose] = false;
        }
    }

    /// Whether `session` shares any word.
    pub fn shares_a_word(&self, session: SessionId) -> bool
        requires within { session < usual_sessions }
        ensures { result ≡ (has_a_mark session self.now.locks.fast_sharers
            || has_a_mark session self.now.locks.partition_sharers) }
    {
        has_a_mark(self.locks.fast_sharers.as_slice(), session)
            || has_a_mark(self.locks.partition_sharers.as_slice(), session)
    }
}
