ghost use Rattle.std.specs.Prelude.{◌≡◌, option_map};
ghost use Rattle.modes_core.specs.ModeSet.{set_has};
ghost use Rattle.lock_table.specs.Clash.{first_waiter};
ghost use Rattle.lock_table.specs.Queue.{conflicts_with_some};
ghost use Rattle.lock_table.specs.Waiter.{shown_wait};
ghost use Rattle.lock_table.specs.Walk.{WalksUntil};

use crate::part_table::PartTable;
use crate::waits::Waiter;
use modes_core::{Mode, ModeSet, Tag, conflicts};

/// How far a walk along an object's wait queue came.
#[derive(Clone, Copy)]
pub struct Walk {
    /// The waiter that ended the walk along the wait queue, or none where the walk passed the whole queue.
    pub met: Option<Waiter>,
    /// How many waiters the walk along the wait queue passed.
    pub place: usize,
    /// The awaited modes of the waiters that the walk along the wait queue passed.
    pub ahead: ModeSet,
}

/// Whether `mode` conflicts with one of `modes`.
pub fn is_against(mode: Mode, modes: ModeSet) -> bool
    ensures { result ≡ conflicts_with_some mode (set_has modes) }
{
    modes.meets(conflicts(mode))
}

/// Walks along the wait queue of `tag` in `part`, from the front up to the first waiter whose mode conflicts
/// with one of `modes` (the loop over `waitProcs` of `ProcSleep` in proc.c).
#[inline(always)]
pub fn walk_until<P: PartTable>(part: &P, tag: &Tag, modes: ModeSet) -> Walk
    ensures { WalksUntil (set_has modes) ((P.content part.now).waits tag.now) result }
{
    let mut place = 0;
    let mut ahead = ModeSet::empty();
    while let Some(waiter) = part.waiter(tag, place) {
        if is_against(waiter.mode, modes) {
            return Walk {
                met: Some(waiter),
                place,
                ahead,
            };
        }
        ahead = ahead.with(waiter.mode);
        place += 1;
    }
    Walk {
        met: None,
        place,
        ahead,
    }
}

/// The first waiter in the queue of `tag` in `part` that awaits a mode in conflict with `mode`.
#[inline(always)]
pub fn first_against<P: PartTable>(part: &P, tag: &Tag, mode: Mode) -> Option<Waiter>
    ensures { option_map shown_wait result ≡ first_waiter ((P.content part.now).waits tag.now) mode }
{
    walk_until(part, tag, ModeSet::empty().with(mode)).met
}
