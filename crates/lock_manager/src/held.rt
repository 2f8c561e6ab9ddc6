//! What a session has by its local lock table.

ghost use Rattle.std.specs.Prelude.{◌≡◌};
ghost use Rattle.modes_core.specs.ModeSet.{set_has};
ghost use Rattle.local_locks.specs.Owned.{has_entry};

use local_locks::LocalTable;
use modes_core::{Mode, ModeSet, Tag};

/// The modes in which the session of the local lock table `locals` has `tag` (`holdMask` of `PROCLOCK` in
/// lock.h).
pub fn modes_held(locals: &LocalTable, tag: Tag) -> ModeSet
    ensures { set_has result ≡ has_entry locals.now.entries tag }
{
    let mut held = ModeSet::empty();
    for number in 1..9 {
        if let Some(mode) = Mode::from_number(number) {
            if locals.total(tag, mode) != 0 {
                held = held.with(mode);
            }
        }
    }
    held
}
