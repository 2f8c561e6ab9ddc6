ghost use Rattle.std.specs.Prelude.{◌≡◌, not, List, map};
ghost use Rattle.std.specs.Bool.{OnTrue, OnFalse};
ghost use Rattle.lock_table.specs.Content.{Wait};
ghost use Rattle.lock_table.specs.Capacity.{IsNotAbove};
ghost use Rattle.lock_table.specs.Queue.{waits_there, remove_wait, Wakes};
ghost use Rattle.lock_table.specs.Waiter.{whose_and_mode};

use lock_table::PartTable;
use modes_core::{SessionId, Tag};

/// Takes the wait of `session` out of the queue of `tag` in `part`, if `session` still waits there, and
/// grants the waits that are then free to go (`RemoveFromWaitQueue` in lock.c, for `LockErrorCleanup` in
/// proc.c): `PartTable::woken` has whose waits these are. The answer is whether the wait of `session` had
/// been granted already, so that there was no wait to take out.
pub fn remove_waiter<P: PartTable>(part: &mut P, session: SessionId, tag: &Tag) -> bool
    ensures found { result ≡ not (waits_there ((P.content part.old).waits tag.now) session) }
    ensures removed { OnFalse result ((granted : List Wait)
        × Wakes (remove_wait (P.content part.old) session tag.now) tag.now granted (P.content part.new)
        × (P.woken part.new ≡ map whose_and_mode granted)) }
    ensures unchanged { OnTrue result (P.content part.new ≡ P.content part.old) }
    ensures begun { P.begun part.new ≡ P.begun part.old }
    ensures no_memory_taken { IsNotAbove (P.capacity part.old) (P.capacity part.new) }
{
    match part.leave(session, tag) {
        None => true,
        Some(_) => {
            part.wake(tag);
            false
        }
    }
}
