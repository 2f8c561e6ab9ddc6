//! The steps of a session on strong lock counters.

ghost use Rattle.std.specs.Prelude.{◌≡◌, ◌<◌};
ghost use Rattle.lock_world.specs.AccountLaw.{MayCountBy, MayUncountBy};
ghost use Rattle.shared_rule.specs.Marks.{Counted, Uncounted, LoadedStrong};
ghost use Rattle.shared_rule.specs.History.{noting};
ghost use Rattle.shared_rule.specs.Plays.{side_of, account_at, FitsTable, HasSession, IsSameSeat};

use crate::layout::strong_word;
use crate::plays::Marking;
use crate::rule::{Seat, SharedWords};
use crate::words::{fetch_add_as, fetch_sub_as, load_as};
use lock_table::PartTable;
use modes_core::{Mode, Tag};

/// Counts a strong lock of `mode` on `tag` in the strong lock counter of `tag`; the strong lock has gone past
/// no session yet (`BeginStrongLockAcquire` in lock.c).
pub(crate) fn add_strong<T: PartTable, M: Marking<T>>(
    words: &SharedWords<T>,
    seat: &mut Seat<T>,
    tag: &Tag,
    mode: Mode,
)
    requires table { FitsTable seat.old words.now.key words.now.table_id }
    requires session { HasSession (side_of seat.old).0 }
    requires lawful { MayCountBy (account_at T.content seat.old) tag.now mode }
    requires mark { M.mark ≡ (λ _. Counted tag.now mode) }
    ensures same_seat { IsSameSeat seat.old seat.new }
    ensures side { side_of seat.new ≡ (noting (side_of seat.old).0 (Counted tag.now mode), (side_of seat.old).1) }
{
    fetch_add_as::<T, M>(words, seat, strong_word(tag.strong_index()), 1);
}

/// Takes the count of the strong lock of `mode` on `tag` back (`AbortStrongLockAcquire`, and
/// `RemoveLocalLock` in lock.c).
pub(crate) fn sub_strong<T: PartTable, M: Marking<T>>(
    words: &SharedWords<T>,
    seat: &mut Seat<T>,
    tag: &Tag,
    mode: Mode,
)
    requires table { FitsTable seat.old words.now.key words.now.table_id }
    requires session { HasSession (side_of seat.old).0 }
    requires lawful { MayUncountBy (account_at T.content seat.old) tag.now mode }
    requires mark { M.mark ≡ (λ _. Uncounted tag.now mode) }
    ensures same_seat { IsSameSeat seat.old seat.new }
    ensures side { side_of seat.new ≡ (noting (side_of seat.old).0 (Uncounted tag.now mode), (side_of seat.old).1) }
{
    fetch_sub_as::<T, M>(words, seat, strong_word(tag.strong_index()), 1);
}

/// Loads the strong lock counter at `index` (`FastPathStrongRelationLocks->count` in `LockAcquireExtended` of
/// lock.c).
pub(crate) fn load_strong<T: PartTable, M: Marking<T>>(
    words: &SharedWords<T>,
    seat: &mut Seat<T>,
    index: u16,
) -> u64
    requires table { FitsTable seat.old words.now.key words.now.table_id }
    requires session { HasSession (side_of seat.old).0 }
    requires within { index < 1024 }
    requires mark { M.mark ≡ LoadedStrong index }
    ensures same_seat { IsSameSeat seat.old seat.new }
    ensures side { side_of seat.new ≡ (noting (side_of seat.old).0 (LoadedStrong index result), (side_of seat.old).1) }
{
    load_as::<T, M>(words, seat, strong_word(index))
}
