//! The plain machine's step that moves a mode from a session's slot to the lock table.

use super::state::Machine;
use lock_table::{Move, NoMemory, PartTable};
use modes_core::{Mode, SessionId, Tag, USUAL_SESSIONS, is_eligible};

impl Machine {
    ghost use Rattle.std.specs.Prelude.{◌≡◌, ◌<◌, OnOk, OnErr};
    ghost use Rattle.modes_core.specs.Sessions.{usual_sessions};
    ghost use Rattle.lock_world.specs.declared.events.Step.{Step};
    ghost use Rattle.lock_world.specs.World.{World};
    ghost use Rattle.lock_model.specs.Shows.{Shows, ShowsSafe, Follows};
    ghost use Rattle.lock_model.specs.Transfers.{is_in_slot, may_transfer};

    /// Moves `mode`, which the slot `slot` of `owner` has, to the content of `tag` in the hand of `session`,
    /// where `owner` is the next session that the strong lock of `session` has to pass and the lock of the
    /// slots of `owner` is held (the inner loop of `FastPathTransferRelationLocks` in lock.c). After
    /// `NoMemory` the machine shows what it showed before.
    pub fn transfer_slot(
        &mut self,
        session: SessionId,
        owner: SessionId,
        slot: u8,
        tag: Tag,
        mode: Mode,
        strong: Mode,
    ) -> Result<(), NoMemory>
        requires within { session < usual_sessions }
        requires shown { ShowsSafe self.old }
        ensures followed { OnOk result
            (Follows self.old session (Step.TransferSlot owner slot tag mode strong) self.new) }
        ensures refused { OnErr result ((w : World) → Shows self.old w → Shows self.new w) }
    {
        let partition = tag.partition();
        let number = owner.number();
        if number >= USUAL_SESSIONS {
            return Ok(());
        }
        let index = usize::from(number);
        let place = usize::from(slot);
        let Some(hand) = self.hand_of(session, partition) else {
            return Ok(());
        };
        if !hand.may_adopt(number, slot)
            || !self.may_transfer(session, owner, place, tag, mode, strong)
        {
            return Ok(());
        }
        let part = &mut self.contents.parts[usize::from(partition)];
        part.begin(owner, &tag, mode)?;
        part.grant(owner, &tag, mode);
        self.record(
            partition,
            hand,
            Move::Adopt {
                owner: number,
                slot,
            },
            hand.unmarked,
        );
        let word = self.fast_path.slots[index][place];
        self.fast_path.slots[index][place] = word.without(mode);
        Ok(())
    }

    /// Whether `session` may move `mode` on `tag` out of the slot of `owner` at `place` for its lock in the
    /// mode `strong`, where it has the partition in hand.
    fn may_transfer(
        &self,
        session: SessionId,
        owner: SessionId,
        place: usize,
        tag: Tag,
        mode: Mode,
        strong: Mode,
    ) -> bool
        requires within { session < usual_sessions }
        requires exists { owner < usual_sessions }
        ensures { result ≡ may_transfer self.now session owner place tag mode strong }
    {
        self.holds_fast(session, owner)
            && self.is_counted_at(session, owner.number(), tag, strong)
            && self.is_in_slot(owner, place, tag, mode)
    }

    /// Whether the slot of `owner` at `place` shows that it holds `mode` on `tag`.
    fn is_in_slot(&self, owner: SessionId, place: usize, tag: Tag, mode: Mode) -> bool
        requires exists { owner < usual_sessions }
        ensures { result ≡ is_in_slot self.now owner place tag mode }
    {
        let index = usize::from(owner.number());
        place < 128
            && is_eligible(self.fast_path.databases[index], tag, mode)
            && self.fast_path.slots[index][place].shows(tag.relation_number(), mode)
    }
}
