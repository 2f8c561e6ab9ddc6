ghost use Rattle.std.specs.Prelude.{◌≡◌, ℕ, ◌<◌, ◌≤◌, ◌+◌, ◌*◌, ◌==◌, not, length, slice_index, false, true};
ghost use Rattle.modes_core.specs.ModeSet.{set_has};
ghost use Rattle.lock_records.specs.Tally.{counts_in, most_tallied, one_more, one_less};
ghost use Rattle.lock_records.specs.Counting.{total_of};

use crate::sets::has_some;
use modes_core::{Mode, ModeSet};
use std::marker::Model;

/// How many holds or waits there are of each lock mode, with their total and the mask of the modes of which
/// there is one: what lock.h keeps for a lock in `granted`, `nGranted` and `grantMask`, and in `requested`,
/// `nRequested` and `waitMask`. Contracts see the list of numbers, by the mode's number; place 0 is unused.
#[derive(Drop)]
pub struct Tally {
    by_mode: [u16; 9],
    total: u16,
    mask: ModeSet,
}

impl Model for Tally {
    ghost use Rattle.std.specs.Prelude.{List, ℕ};
    ghost use Rattle.lock_records.specs.Tally.{IsTally};

    ghost Value = { List ℕ };

    ghost view = { λ tally. tally.by_mode };

    ghost invariant = { λ tally. IsTally tally.by_mode tally.total tally.mask };
}

impl Tally {
    /// A tally in which each mode's number is 0.
    pub fn new() -> Self
        ensures { (mode : _) → counts_in result mode ≡ 0 }
    {
        Tally {
            by_mode: [0; 9],
            total: 0,
            mask: ModeSet::empty(),
        }
    }

    /// How many of `mode` the tally has counted.
    pub fn count(&self, mode: Mode) -> u16
        ensures { result ≡ counts_in self.now mode }
    {
        self.by_mode[usize::from(mode.number())]
    }

    /// How many of each lock mode the tally has counted, at the number of the mode; 9 numbers, of which the
    /// first is unused.
    pub fn by_mode(&self) -> [u16; 9]
        ensures value { result ≡ self.now }
        ensures nine { length result ≡ 9 }
        ensures few { (number : ℕ) → slice_index result number ≤ most_tallied }
    {
        self.by_mode
    }

    /// How many of all lock modes together the tally has counted.
    pub fn total(&self) -> u16
        ensures value { result ≡ total_of (counts_in self.now) }
        ensures few { result ≤ 9 * most_tallied }
    {
        self.total
    }

    /// The lock modes of which the tally has counted at least one.
    #[inline(always)]
    pub fn mask(&self) -> ModeSet
        ensures { (mode : _) → set_has result mode ≡ not (counts_in self.now mode == 0) }
    {
        self.mask
    }

    /// Whether the tally has counted at least one of `modes`.
    #[inline(always)]
    pub fn meets(&self, modes: ModeSet) -> bool
        ensures some { result ≡ true → (mode : _) × (set_has modes mode ≡ true) × (0 < counts_in self.now mode) }
        ensures none { result ≡ false → (mode : _) → set_has modes mode ≡ true → counts_in self.now mode ≡ 0 }
    {
        self.mask.meets(modes)
    }

    /// Whether the tally has counted none of any lock mode.
    #[inline(always)]
    pub fn is_empty(&self) -> bool
        ensures nothing { result ≡ true → (mode : _) → counts_in self.now mode ≡ 0 }
        ensures something { result ≡ false → (mode : _) × (0 < counts_in self.now mode) }
    {
        !has_some(self.mask)
    }

    /// Counts one more of `mode`.
    #[inline(always)]
    pub fn raise(&mut self, mode: Mode)
        requires { counts_in self.old mode < most_tallied }
        ensures { counts_in self.new ≡ one_more (counts_in self.old) mode }
    {
        let number = usize::from(mode.number());
        self.by_mode[number] += 1;
        self.total += 1;
        self.mask = self.mask.with(mode);
    }

    /// Counts one less of `mode`.
    #[inline(always)]
    pub fn lower(&mut self, mode: Mode)
        requires { 0 < counts_in self.old mode }
        ensures { counts_in self.new ≡ one_less (counts_in self.old) mode }
    {
        let number = usize::from(mode.number());
        let left = self.by_mode[number] - 1;
        self.by_mode[number] = left;
        self.total -= 1;
        if left == 0 {
            self.mask = self.mask.without(mode);
        }
    }
}
