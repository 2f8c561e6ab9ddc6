//! What a move that can grant waits makes of a partition, worked out on a copy: whether an event is lawful
//! may depend on whom the move would grant.

ghost use Rattle.std.specs.Prelude.{◌≡◌, true, false, List, [], map, None, IfOk, IfSome};
ghost use Rattle.lock_table.specs.Content.{Wait};
ghost use Rattle.lock_table.specs.Queue.{waits_there};
ghost use Rattle.lock_table.specs.Moves.{Moves};
ghost use Rattle.lock_table.specs.PartView.{PartView, content_of};
ghost use Rattle.lock_table.specs.Waiter.{whose_and_mode};
ghost use Rattle.lock_table.specs.declared.moves.Move.{Move};
ghost use Rattle.lock_table.specs.declared.moves.Move.TheVariants.{Release, Leave};
ghost use Rattle.lock_model.specs.MovedPart.{IsMoved, woken_by};

use super::state::Machine;
use lock_table::{Move, NoMemory, PartTable, PlainPart};
use modes_core::{Mode, SessionId, Tag};
use wait_queue::{remove_waiter, take_hold_out};

/// The content of a partition after a move, and those whose waits the move granted.
#[derive(Drop)]
pub struct MovedPart {
    /// The partition's content after the move.
    pub part: PlainPart,
    /// Whether the move ended by a wakeup, which granted the waits of the sessions that `part` names as
    /// woken.
    pub wakes: bool,
}

impl MovedPart {
    /// The part `part` after a move that granted nobody.
    fn alone(part: PlainPart) -> Self
        ensures part { result.part ≡ part }
        ensures nobody { woken_by result ≡ [] }
    {
        MovedPart { part, wakes: false }
    }

    /// The sessions whose waits the move granted, with their modes.
    pub fn woken(&self) -> &[(SessionId, Mode)]
        ensures { result.now ≡ woken_by self.now }
    {
        if self.wakes {
            return self.part.woken();
        }
        &[]
    }
}

/// `part` once the hold of `session` on `tag` in `mode` is released and the waits are granted that this lets
/// go on. `None` where `session` has no such hold.
pub fn after_release(
    part: &PlainPart,
    session: SessionId,
    tag: Tag,
    mode: Mode,
) -> Result<Option<MovedPart>, NoMemory>
    ensures moved { IfOk result (λ found. IfSome found (IsMoved part.now session (Release tag mode))) }
    ensures no_hold { IfOk result (λ found. found ≡ None → (content_of part.now).holds session tag mode ≡ false) }
{
    if !part.held(session, &tag).has(mode) {
        return Ok(None);
    }
    let mut after = part.clone()?;
    if !take_hold_out(&mut after, session, &tag, mode) {
        return Ok(Some(MovedPart::alone(after)));
    }
    after.wake(&tag);
    Ok(Some(MovedPart {
        part: after,
        wakes: true,
    }))
}

/// `part` once the wait of `session` has left the queue of `tag` and the waits are granted that this lets go
/// on. `None` where `session` has no wait in that queue.
pub fn after_leaving(
    part: &PlainPart,
    session: SessionId,
    tag: Tag,
) -> Result<Option<MovedPart>, NoMemory>
    ensures moved { IfOk result (λ found. IfSome found (IsMoved part.now session (Leave tag))) }
    ensures no_wait { IfOk result (λ found. found ≡ None →
        waits_there ((content_of part.now).waits tag) session ≡ false) }
{
    let mut after = part.clone()?;
    if remove_waiter(&mut after, session, &tag) {
        return Ok(None);
    }
    Ok(Some(MovedPart {
        part: after,
        wakes: true,
    }))
}

impl Machine {
    ghost use Rattle.std.specs.Prelude.{◌≡◌, ◌<◌, length, IfOk, IfSome, slice_index_or, None};
    ghost use Rattle.modes_core.specs.Sessions.{usual_sessions};
    ghost use Rattle.lock_table.specs.Parts.{part_at, contents_in};
    ghost use Rattle.lock_model.specs.MovedPart.{IsMoved};
    ghost use Rattle.lock_model.specs.Shows.{IsOwnFor, CannotMake};

    /// What the release or the leave `done` of `session` makes of `partition`. `None` where `session` may not
    /// make that move.
    pub fn after_move(
        &self,
        session: SessionId,
        partition: u8,
        done: &Move,
    ) -> Result<Option<MovedPart>, NoMemory>
        requires within { session < usual_sessions }
        requires exists { partition < 16 }
        requires sixteen { length self.now.contents.parts.items ≡ 16 }
        ensures moved { IfOk result (λ found.
            IfSome found (IsMoved (part_at self.now.contents.parts.items partition) session done.now)) }
        ensures own { IfOk result (λ found.
            IfSome found (λ _. IsOwnFor (slice_index_or self.now.waits.awaited session None) done.now)) }
        ensures cannot { IfOk result (λ found. found ≡ None →
            CannotMake (slice_index_or self.now.waits.awaited session None)
            (contents_in self.now.contents.parts.items partition) session done.now) }
    {
        let part = &self.contents.parts[usize::from(partition)];
        match *done {
            Move::Keep | Move::Grant { .. } | Move::Join { .. } | Move::Adopt { .. } => Ok(None),
            Move::Release { tag, mode } => {
                if self.awaits(session, tag, mode) {
                    Ok(None)
                } else {
                    after_release(part, session, tag, mode)
                }
            }
            Move::Leave { tag } => after_leaving(part, session, tag),
        }
    }
}
