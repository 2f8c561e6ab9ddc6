ghost use Rattle.std.specs.Prelude.{◌≡◌, true, false, List, []};
ghost use Rattle.lock_table.specs.Content.{Wait, Content};
ghost use Rattle.lock_table.specs.declared.moves.Move.TheVariants.{Release};
ghost use Rattle.lock_table.specs.Moves.{Moves};
ghost use Rattle.lock_table.specs.Queue.{some_awaits_conflict, Wakes};

use lock_table::{PartTable, first_against};
use modes_core::{Mode, SessionId, Tag};

/// Whether somebody awaits `tag` in a mode that conflicts with `mode`, in the content of `part`
/// (`LockHasWaiters` in lock.c).
pub fn awaited_in_conflict<P: PartTable>(part: &P, tag: &Tag, mode: Mode) -> bool
    ensures { result ≡ some_awaits_conflict ((P.content part.now).waits tag.now) mode }
{
    first_against(part, tag, mode).is_some()
}

/// Takes the hold of `session` on `tag` in `mode` out of `part` (`UnGrantLock` in lock.c), and answers
/// whether somebody awaits `tag` in a mode in conflict with `mode`. Where nobody does, the release is over;
/// otherwise it is over after a wakeup of the queue (`PartTable::wake`).
#[inline(always)]
pub fn take_hold_out<P: PartTable>(part: &mut P, session: SessionId, tag: &Tag, mode: Mode) -> bool
    requires { (P.content part.old).holds session tag.now mode ≡ true }
    ensures over { result ≡ false →
        Moves (P.content part.old) session (Release tag.now mode) [] (P.content part.new) }
    ensures to_wake { result ≡ true → (granted : List Wait) (after : Content) →
        Wakes (P.content part.new) tag.now granted after →
        Moves (P.content part.old) session (Release tag.now mode) granted after }
    ensures begun { P.begun part.new ≡ P.begun part.old }
    ensures capacity { P.capacity part.new ≡ P.capacity part.old }
{
    part.ungrant(session, tag, mode)
}
