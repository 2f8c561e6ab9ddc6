ghost use Rattle.std.specs.Prelude.{◌≡◌, ◌+◌, ◌==◌, not, slice_index};
ghost use Rattle.modes_core.specs.declared.modes.Mode.{Mode};
ghost use Rattle.modes_core.specs.Mode.{number_of};
ghost use Rattle.modes_core.specs.ModeSet.{set_has};
ghost use Rattle.lock_records.specs.Tally.{counts_in};
ghost use Rattle.lock_records.specs.Counting.{total_of};

use crate::locks::LockRecord;
use modes_core::ModeSet;

/// How often an object is held and requested (`nGranted`, `granted`, `nRequested` and `requested` of `LOCK`
/// in lock.h): in each lock mode, by the mode's number, and in all modes together; and the masks of the modes
/// with a hold and with a wait. Place 0 of the lists is unused.
#[derive(Clone, Copy)]
pub struct Counts {
    pub requested: [u16; 9],
    pub granted: [u16; 9],
    pub requested_total: u16,
    pub granted_total: u16,
    pub grant_mask: ModeSet,
    pub wait_mask: ModeSet,
}

/// The counts of holds and requests of the object of `lock`, by its tallies.
pub(crate) fn counts_of(lock: &LockRecord) -> Counts
    ensures granted { (mode : Mode) → slice_index result.granted (number_of mode) ≡ counts_in lock.now.granted mode }
    ensures requested { (mode : Mode) → slice_index result.requested (number_of mode)
        ≡ counts_in lock.now.granted mode + counts_in lock.now.awaited mode }
    ensures granted_total { result.granted_total ≡ total_of (counts_in lock.now.granted) }
    ensures requested_total { result.requested_total
        ≡ total_of (counts_in lock.now.granted) + total_of (counts_in lock.now.awaited) }
    ensures grant_mask { (mode : Mode) → set_has result.grant_mask mode ≡ not (counts_in lock.now.granted mode == 0) }
    ensures wait_mask { (mode : Mode) → set_has result.wait_mask mode ≡ not (counts_in lock.now.awaited mode == 0) }
{
    let granted = lock.granted.by_mode();
    let awaited = lock.awaited.by_mode();
    let mut requested = [0u16; 9];
    for number in 0..9 {
        requested[number] = granted[number] + awaited[number];
    }
    Counts {
        requested,
        granted,
        requested_total: lock.granted.total() + lock.awaited.total(),
        granted_total: lock.granted.total(),
        grant_mask: lock.granted.mask(),
        wait_mask: lock.awaited.mask(),
    }
}
