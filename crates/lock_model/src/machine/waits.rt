//! The plain machine's steps on wait words.

use super::hands::{InHand, is_among, unmarked_of};
use super::state::Machine;
use lock_table::{Answer, Move, NoMemory, PartTable, waiting_answer};
use modes_core::{Mode, SessionId, Tag};
use wait_queue::remove_waiter;

impl Machine {
    ghost use Rattle.std.specs.Prelude.{◌≡◌, ◌≢◌, ◌<◌, ◌+◌, ◌&&◌, true, false, not, length, is_some, is_none, OnOk, IfOk, IfSome, slice_set, slice_index_or, Some, None};
    ghost use Rattle.modes_core.specs.Sessions.{usual_sessions};
    ghost use Rattle.modes_core.specs.Tag.{partition_of};
    ghost use Rattle.lock_world.specs.declared.events.Step.{Step};
    ghost use Rattle.lock_model.specs.declared.machine.own_waits.Awaited.{Awaited};
    ghost use Rattle.lock_table.specs.Queue.{WaitingAnswer, waits_there};
    ghost use Rattle.lock_table.specs.declared.answering.Answer.TheVariants.{Queued};
    ghost use Rattle.lock_table.specs.Moves.{IsInPartition};
    ghost use Rattle.lock_model.specs.MovedPart.{IsMoved};
    ghost use Rattle.lock_table.specs.Parts.{part_at, contents_in};
    ghost use Rattle.lock_world.specs.WaitWord.{wait_state};
    ghost use Rattle.lock_model.specs.SlotLooks.{slots_hold};
    ghost use Rattle.lock_model.specs.CountedLists.{counted_for};
    ghost use Rattle.lock_model.specs.Shows.{ShowsSafe, Follows, FollowsMarking, IsWaking, IsOwnFor, CannotMake, makes_steps, hand_of};

    /// Asks `other`, which may be any session, on behalf of `session` to cancel its wait: bit 2 of its wait
    /// word is set.
    pub fn ask_cancel(&mut self, session: SessionId, other: SessionId)
        requires within { session < usual_sessions }
        ensures { Follows self.old session (Step.AskCancel other) self.new }
    {
        let index = usize::from(other.number());
        if self.makes_steps(session) {
            self.words.waits[index] |= 4;
        }
    }

    /// Loads the wait word of `session`, which must show `shown`: where `shown` says that the wait was
    /// granted, the session has seen its grant.
    pub fn load_wait(&mut self, session: SessionId, shown: u8)
        requires within { session < usual_sessions }
        ensures { Follows self.old session (Step.LoadWait shown) self.new }
    {
        let index = usize::from(session.number());
        if self.makes_steps(session) && shown == self.words.waits[index] && shown % 4 == 2 {
            self.waits.seen[index] = true;
        }
    }

    /// Puts `session` into the queue of `tag` as a wait for `mode`, and sets its wait word to waiting.
    pub fn set_waiting(&mut self, session: SessionId, tag: Tag, mode: Mode) -> Result<(), NoMemory>
        requires within { session < usual_sessions }
        requires shown { ShowsSafe self.old }
        ensures { OnOk result (Follows self.old session (Step.SetWaiting tag mode) self.new) }
    {
        let partition = tag.partition();
        let Some(hand) = self.hand_of(session, partition) else {
            return Ok(());
        };
        if hand.recorded.is_some()
            || !self.may_ask(session, tag, mode)
            || !self.is_counted_for(session, tag, mode)
        {
            return Ok(());
        }
        let part = &self.contents.parts[usize::from(partition)];
        let Answer::Queued(place) = waiting_answer(part, session, &tag, mode) else {
            return Ok(());
        };
        self.join_now(session, tag, mode, hand, place)
    }

    /// Marks the wait of `other` granted, by `done`, a release or a leave that `session` makes.
    pub fn mark_granted(
        &mut self,
        session: SessionId,
        other: SessionId,
        done: Move,
    ) -> Result<(), NoMemory>
        requires within { session < usual_sessions }
        requires shown { ShowsSafe self.old }
        ensures { OnOk result (Follows self.old session (Step.MarkGranted other done) self.new) }
    {
        if other == session || self.words.waits[usize::from(other.number())] % 4 != 1 {
            return Ok(());
        }
        match done {
            Move::Keep => Ok(()),
            Move::Grant { tag: _, mode: _ } => Ok(()),
            Move::Join { tag: _, mode: _ } => Ok(()),
            Move::Release { tag, mode: _ } => self.mark_in(session, other, tag.partition(), done),
            Move::Leave { tag } => self.mark_in(session, other, tag.partition(), done),
            Move::Adopt { owner: _, slot: _ } => Ok(()),
        }
    }

    /// Clears the wait word of `session`, where the session has seen its grant, or has the partition in hand
    /// and its wait is in the queue no more. With `leaving`, the session has the partition in hand, and its
    /// wait is taken out of the queue unless that leave is recorded already.
    pub fn clear_wait(&mut self, session: SessionId, leaving: bool)
        requires within { session < usual_sessions }
        requires shown { ShowsSafe self.old }
        ensures { Follows self.old session (Step.ClearWait leaving) self.new }
    {
        if !self.makes_steps(session) {
            return;
        }
        let Some(wait) = self.waits.awaited[usize::from(session.number())] else {
            return;
        };
        if leaving {
            self.leave_queue(session, wait.tag);
        } else if self.waits.seen[usize::from(session.number())]
            || self.is_gone(session, wait.tag)
        {
            self.end_wait(session);
        }
    }

    /// Makes the join in `hand`: the wait of `session` for `mode` goes into the queue of `tag`, at `place`.
    fn join_now(
        &mut self,
        session: SessionId,
        tag: Tag,
        mode: Mode,
        hand: InHand,
        place: usize,
    ) -> Result<(), NoMemory>
        requires within { session < usual_sessions }
        requires shown { ShowsSafe self.old }
        requires in_hand { hand_of self.old session (partition_of tag) ≡ Some hand }
        requires unmoved { hand.recorded ≡ None }
        requires no_wait { is_none (slice_index_or self.old.waits.awaited session None) ≡ true }
        requires not_held { (contents_in self.old.contents.parts.items (partition_of tag)).holds session tag mode
            ≡ false }
        requires in_no_slot { slots_hold self.old session tag mode ≡ false }
        requires counted { counted_for self.old session tag mode ≡ true }
        requires answer { WaitingAnswer (contents_in self.old.contents.parts.items (partition_of tag))
            session tag mode (Queued place) }
        ensures { OnOk result (Follows self.old session (Step.SetWaiting tag mode) self.new) }
    {
        let partition = tag.partition();
        let part = &mut self.contents.parts[usize::from(partition)];
        part.begin(session, &tag, mode)?;
        part.join(session, &tag, mode, place);
        self.record(partition, hand, Move::Join { tag, mode }, [false; 1024]);
        self.begin_wait(session, tag, mode);
        Ok(())
    }

    /// Marks the wait of `other` granted, by the move `done` that `session` makes in `partition`.
    fn mark_in(
        &mut self,
        session: SessionId,
        other: SessionId,
        partition: u8,
        done: Move,
    ) -> Result<(), NoMemory>
        requires within { session < usual_sessions }
        requires shown { ShowsSafe self.old }
        requires another { other ≢ session }
        requires waiting { wait_state (slice_index_or self.old.words.waits other 0) ≡ 1 }
        requires object { IsInPartition partition done }
        requires wakes { IsWaking done }
        ensures { OnOk result (FollowsMarking self.old session other partition done self.new) }
    {
        let Some(hand) = self.hand_of(session, partition) else {
            return Ok(());
        };
        if hand.recorded.is_none() {
            return self.mark_first(session, other, partition, hand, done);
        }
        if hand.has_made(&done) && hand.is_unmarked(other) {
            self.mark(partition, hand, other, done, hand.unmarked);
        }
        Ok(())
    }

    /// Makes the move `done` of `session` in `hand`, which has `partition`, where `done` grants the wait of
    /// `other`, and marks that wait granted.
    fn mark_first(
        &mut self,
        session: SessionId,
        other: SessionId,
        partition: u8,
        hand: InHand,
        done: Move,
    ) -> Result<(), NoMemory>
        requires within { session < usual_sessions }
        requires shown { ShowsSafe self.old }
        requires another { other ≢ session }
        requires waiting { wait_state (slice_index_or self.old.words.waits other 0) ≡ 1 }
        requires in_hand { hand_of self.old session partition ≡ Some hand }
        requires unmoved { hand.recorded ≡ None }
        requires object { IsInPartition partition done }
        requires wakes { IsWaking done }
        ensures { OnOk result (FollowsMarking self.old session other partition done self.new) }
    {
        let Some(moved) = self.after_move(session, partition, &done)? else {
            return Ok(());
        };
        if is_among(moved.woken(), other) {
            let unmarked = unmarked_of(moved.woken());
            self.contents.parts[usize::from(partition)] = moved.part;
            self.mark(partition, hand, other, done, unmarked);
        }
        Ok(())
    }

    /// Whether `session` has the partition of `tag` in hand, and no wait in the object's queue.
    fn is_gone(&self, session: SessionId, tag: Tag) -> bool
        requires within { session < usual_sessions }
        requires shown { ShowsSafe self.now }
        ensures { result ≡ (is_some (hand_of self.now session (partition_of tag))
            && not (waits_there ((contents_in self.now.contents.parts.items (partition_of tag)).waits tag) session)) }
    {
        let partition = tag.partition();
        match self.hand_of(session, partition) {
            Some(_) => !self.contents.parts[usize::from(partition)].has_wait_of(session, &tag),
            None => false,
        }
    }

    /// Takes the wait of `session` out of the queue of `tag`, and clears its wait word. Where that leave is
    /// recorded already, only the word is cleared.
    fn leave_queue(&mut self, session: SessionId, tag: Tag)
        requires within { session < usual_sessions }
        requires shown { ShowsSafe self.old }
        requires steps { makes_steps self.old session ≡ true }
        requires awaited { (wait : Awaited)
            × (slice_index_or self.old.waits.awaited session None ≡ Some wait) × (wait.tag ≡ tag) }
        ensures { Follows self.old session (Step.ClearWait true) self.new }
    {
        let partition = tag.partition();
        let Some(hand) = self.hand_of(session, partition) else {
            return;
        };
        let waits = self.contents.parts[usize::from(partition)].has_wait_of(session, &tag);
        if hand.recorded.is_none() {
            if waits {
                self.leave_now(session, tag, hand);
            }
            return;
        }
        let leave = Move::Leave { tag };
        if hand.has_made(&leave) && !waits {
            self.end_wait(session);
        }
    }

    /// Makes the leave in `hand`: takes the wait of `session` out of the queue of `tag`, and clears its wait
    /// word.
    fn leave_now(&mut self, session: SessionId, tag: Tag, hand: InHand)
        requires within { session < usual_sessions }
        requires shown { ShowsSafe self.old }
        requires awaited { (wait : Awaited)
            × (slice_index_or self.old.waits.awaited session None ≡ Some wait) × (wait.tag ≡ tag) }
        requires in_hand { hand_of self.old session (partition_of tag) ≡ Some hand }
        requires unmoved { hand.recorded ≡ None }
        requires in_queue { waits_there
            ((contents_in self.old.contents.parts.items (partition_of tag)).waits tag) session ≡ true }
        ensures { Follows self.old session (Step.ClearWait true) self.new }
    {
        let partition = tag.partition();
        let part = &mut self.contents.parts[usize::from(partition)];
        remove_waiter(part, session, &tag);
        let unmarked = unmarked_of(part.woken());
        self.record(partition, hand, Move::Leave { tag }, unmarked);
        self.end_wait(session);
    }
}
