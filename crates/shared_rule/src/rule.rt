//! The rule of the table: between any two steps its words, its contents and all histories show a World that
//! is safe.

use crate::history::PlacedView;
use crate::kept::Kept;
use atomic_table::{Shared, TableRule};
use lock_table::PartTable;

/// The sizes that a shared table is made with: how many sessions there can be, and how many groups of
/// fast-path slots each has (`MaxBackends` and, in version 18, `FastPathLockGroupsPerBackend`).
#[derive(Clone, Copy)]
pub struct TableSizes {
    /// How many sessions there can be.
    pub sessions: u16,
    /// How many groups of fast-path slots each session has.
    pub groups: u8,
}

/// The rule of the shared table, which holds between any two steps of all sessions: words, contents and the
/// sessions' histories agree, and show a safe World, and the last step of each session is in its place among
/// the steps of all.
pub struct LockTableRule;

/// Each partition's content, and each lightweight lock's wait list, has a shelf of its own, and lies on that
/// shelf while nobody has it in hand. The shelves between stay unused.
impl<T: PartTable> TableRule<Kept<T>, PlacedView<T>, TableSizes> for LockTableRule {
    ghost use Rattle.shared_rule.specs.Places.{RuledInOrder, opening_in_place};

    ghost holds = { λ sizes state. RuledInOrder T.content T.begun sizes state };

    ghost first = { λ sizes. opening_in_place };
}

/// The table as sessions share it: its words, with the shelves for contents and wait lists.
pub type SharedWords<T> = Shared<Kept<T>, PlacedView<T>, TableSizes, LockTableRule>;

/// A seat at the shared table: one session's, or the opener's.
pub type Seat<T> = atomic_table::Seat<Kept<T>, PlacedView<T>>;
