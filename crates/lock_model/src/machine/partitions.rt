//! The plain machine's steps on lightweight locks: a partition is taken, and put back after a move.

use super::state::Machine;
use lock_table::{Answer, Move, NoMemory, PartTable, waiting_answer};
use lock_world::Word;
use lw_word::LwMode;
use modes_core::{Mode, SessionId, Tag};

impl Machine {
    ghost use Rattle.std.specs.Prelude.{◌≡◌, ◌<◌, OnOk, slice_index_or, None};
    ghost use Rattle.modes_core.specs.Sessions.{usual_sessions};
    ghost use Rattle.lock_world.specs.declared.events.Step.{Step};
    ghost use Rattle.lock_world.specs.declared.events.Word.{Word};
    ghost use Rattle.lock_table.specs.declared.moves.Move.{Move};
    ghost use Rattle.lock_model.specs.Shows.{ShowsSafe, Follows, HasUnmoved, is_over};

    /// Takes `word` exclusively for `session`, where nobody has it: that of a partition, with the partition's
    /// content, or that of any session's fast-path slots (`LWLockAcquire` with `LW_EXCLUSIVE` in lwlock.c).
    pub fn take_exclusive(&mut self, session: SessionId, word: Word)
        requires within { session < usual_sessions }
        ensures { Follows self.old session (Step.TakeExclusive word) self.new }
    {
        match word {
            Word::Partition(partition) => self.take_partition(session, partition),
            Word::Fast(owner) => self.take_fast(session, owner),
            Word::Database(_) | Word::Slot(..) | Word::Wait(_) | Word::Strong(_) | Word::Sleep(_) =>
                {}
        }
    }

    /// Puts back `word`, which `session` holds exclusively, with the move `done` that `session` makes on the
    /// content of the partition; `done` is no move where `word` is that of fast-path slots (`LWLockRelease`
    /// in lwlock.c).
    pub fn put_exclusive(
        &mut self,
        session: SessionId,
        word: Word,
        done: Move,
    ) -> Result<(), NoMemory>
        requires within { session < usual_sessions }
        requires shown { ShowsSafe self.old }
        ensures { OnOk result (Follows self.old session (Step.PutExclusive word done) self.new) }
    {
        match word {
            Word::Partition(partition) => self.put_partition(session, partition, done),
            Word::Fast(owner) => {
                self.put_fast(session, owner, done);
                Ok(())
            }
            Word::Database(_) => Ok(()),
            Word::Slot(_, _) => Ok(()),
            Word::Wait(_) => Ok(()),
            Word::Strong(_) => Ok(()),
            Word::Sleep(_) => Ok(()),
        }
    }

    /// Takes `partition` into the hand of `session`, where nobody holds its word.
    fn take_partition(&mut self, session: SessionId, partition: u8)
        requires within { session < usual_sessions }
        ensures { Follows self.old session (Step.TakeExclusive (Word.Partition partition)) self.new }
    {
        let index = usize::from(partition);
        if index < 16 && self.makes_steps(session) {
            if let Some(word) = self.words.partitions[index].attempt(LwMode::Exclusive) {
                self.set_held(session, partition, word);
            }
        }
    }

    /// Puts back `partition`, which `session` has in hand, with the move `done`, which is recorded in the
    /// hand or made as the partition is put.
    fn put_partition(
        &mut self,
        session: SessionId,
        partition: u8,
        done: Move,
    ) -> Result<(), NoMemory>
        requires within { session < usual_sessions }
        requires shown { ShowsSafe self.old }
        ensures { OnOk result (Follows self.old session (Step.PutExclusive (Word.Partition partition) done) self.new) }
    {
        let Some(hand) = self.hand_of(session, partition) else {
            return Ok(());
        };
        if hand.recorded.is_none() {
            return self.put_made(session, partition, done);
        }
        if hand.has_made(&done) && hand.none_unmarked() && self.is_over(session, partition, done) {
            self.set_free(partition);
        }
        Ok(())
    }

    /// Whether `session` has no wait on an object of `partition` that the move `done` should have ended.
    fn is_over(&self, session: SessionId, partition: u8, done: Move) -> bool
        requires within { session < usual_sessions }
        ensures { result ≡ is_over (slice_index_or self.now.waits.awaited session None) partition done }
    {
        if !done.is_leave() {
            return true;
        }
        match self.waits.awaited[usize::from(session.number())] {
            Some(wait) => wait.tag.partition() != partition,
            None => true,
        }
    }

    /// Puts back `partition`, which `session` has in hand with no move recorded, with the move `done`, which
    /// is made as the partition is put.
    fn put_made(&mut self, session: SessionId, partition: u8, done: Move) -> Result<(), NoMemory>
        requires within { session < usual_sessions }
        requires shown { ShowsSafe self.old }
        requires in_hand { HasUnmoved self.old session partition }
        ensures { OnOk result (Follows self.old session (Step.PutExclusive (Word.Partition partition) done) self.new) }
    {
        match done {
            Move::Keep => {
                self.set_free(partition);
                Ok(())
            }
            Move::Grant { tag, mode } => self.put_granting(session, partition, tag, mode),
            Move::Join { tag: _, mode: _ } => Ok(()),
            Move::Release { tag, mode } => self.put_releasing(session, partition, tag, mode),
            Move::Leave { tag: _ } => Ok(()),
            Move::Adopt { owner: _, slot: _ } => Ok(()),
        }
    }

    /// Puts `partition` back with one hold of `session` more, on `tag` in `mode`, where the request for it is
    /// granted.
    fn put_granting(
        &mut self,
        session: SessionId,
        partition: u8,
        tag: Tag,
        mode: Mode,
    ) -> Result<(), NoMemory>
        requires within { session < usual_sessions }
        requires shown { ShowsSafe self.old }
        requires in_hand { HasUnmoved self.old session partition }
        ensures { OnOk result
            (Follows self.old session (Step.PutExclusive (Word.Partition partition) (Move.Grant tag mode)) self.new) }
    {
        if tag.partition() != partition || !self.may_ask(session, tag, mode) {
            return Ok(());
        }
        if !self.is_counted_for(session, tag, mode) {
            return Ok(());
        }
        let index = usize::from(partition);
        let Answer::Granted = waiting_answer(&self.contents.parts[index], session, &tag, mode)
        else {
            return Ok(());
        };
        let part = &mut self.contents.parts[index];
        part.begin(session, &tag, mode)?;
        part.grant(session, &tag, mode);
        self.set_free(partition);
        Ok(())
    }

    /// Puts `partition` back with one hold of `session` less, on `tag` in `mode`, where that wakes nobody.
    fn put_releasing(
        &mut self,
        session: SessionId,
        partition: u8,
        tag: Tag,
        mode: Mode,
    ) -> Result<(), NoMemory>
        requires within { session < usual_sessions }
        requires shown { ShowsSafe self.old }
        requires in_hand { HasUnmoved self.old session partition }
        ensures { OnOk result
            (Follows self.old session (Step.PutExclusive (Word.Partition partition) (Move.Release tag mode)) self.new) }
    {
        if tag.partition() != partition {
            return Ok(());
        }
        let done = Move::Release { tag, mode };
        let Some(moved) = self.after_move(session, partition, &done)? else {
            return Ok(());
        };
        if moved.woken().is_empty() {
            self.contents.parts[usize::from(partition)] = moved.part;
            self.set_free(partition);
        }
        Ok(())
    }
}
