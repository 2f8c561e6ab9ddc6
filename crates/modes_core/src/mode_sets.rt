ghost use Rattle.std.specs.Prelude.{◌≡◌, ◌<◌, ◌≤◌, ◌||◌, ◌&&◌, not, ℕ, true, false, IfSome, IfNone};
ghost use Rattle.std.specs.List.{list_any};
ghost use Rattle.modes_core.specs.Mode.{mode_eq, number_of};
ghost use Rattle.modes_core.specs.Conflict.{conflict};
ghost use Rattle.modes_core.specs.ModeSet.{set_has, all_modes, IsModeMask};

use crate::Mode;
use std::marker::Model;

/// A set of lock modes (`LOCKMASK` in lockdefs.h): each mode has the bit `1 << number`. Contracts see
/// the mask, and read it by `set_has`.
#[derive(Clone, Copy, Debug, PartialEq, Eq)]
pub struct ModeSet {
    mask: u16,
}

impl Model for ModeSet {
    ghost Value = { ℕ };

    ghost view = { λ set. set.mask };

    ghost invariant = { λ set. IsModeMask set.mask };

    ghost inverse = { λ mask. record { mask = mask } };
}

impl ModeSet {
    /// The set that has no mode.
    pub fn empty() -> Self
        ensures { set_has result ≡ λ _. false }
    {
        ModeSet { mask: 0 }
    }

    /// This set with `mode` in it as well.
    pub fn with(self, mode: Mode) -> Self
        ensures { set_has result ≡ λ other. mode_eq other mode || set_has self other }
    {
        ModeSet {
            mask: self.mask | 1 << mode.number(),
        }
    }

    /// The modes of this set without `mode`.
    pub fn without(self, mode: Mode) -> Self
        ensures { set_has result ≡ λ other. not (mode_eq other mode) && set_has self other }
    {
        ModeSet {
            mask: self.mask & !(1 << mode.number()),
        }
    }

    /// Whether `mode` is in the set.
    pub fn has(self, mode: Mode) -> bool
        ensures { result ≡ set_has self mode }
    {
        self.mask & (1 << mode.number()) != 0
    }

    /// Whether some mode is in this set and in `other`.
    pub fn meets(self, other: Self) -> bool
        ensures { result ≡ list_any (λ mode. set_has self mode && set_has other mode) all_modes }
    {
        self.mask & other.mask != 0
    }

    /// The mode with the lowest number that is in this set and in `other`, or `None` where no mode is in
    /// both.
    pub fn lowest_in_both(self, other: Self) -> Option<Mode>
        ensures in_both { IfSome result (λ mode. (set_has self mode ≡ true) × (set_has other mode ≡ true)) }
        ensures lowest { IfSome result (λ mode. (lower : _) → number_of lower < number_of mode →
            (set_has self lower && set_has other lower) ≡ false) }
        ensures none { IfNone result ((mode : _) → (set_has self mode && set_has other mode) ≡ false) }
    {
        Mode::from_number((self.mask & other.mask).trailing_zeros() as u8)
    }

    /// The mask, in which bit `1 << number` is set for each mode of the set.
    pub fn mask(self) -> u16
        ensures value { result ≡ self }
        ensures modes_alone { IsModeMask result }
    {
        self.mask
    }
}

/// The law that conflict goes both ways.
pub fn conflict_is_symmetric()
    ensures { (mode other : _) → conflict mode other ≡ conflict other mode }
{}

/// The law on which the fast path depends: the modes 1 to 3, which fast-path slots may have, conflict with
/// none but the modes from 5 on, which strong lock counters count.
pub fn slot_modes_conflict_with_counted_ones()
    ensures { (mode other : _) → number_of mode ≤ 3 → conflict mode other ≡ true → 5 ≤ number_of other }
{}

/// The modes that conflict with `mode` (`LockConflicts` in lock.c).
pub fn conflicts(mode: Mode) -> ModeSet
    ensures { set_has result ≡ conflict mode }
{
    ModeSet {
        mask: match mode {
            Mode::AccessShare => 0x100,
            Mode::RowShare => 0x180,
            Mode::RowExclusive => 0x1E0,
            Mode::ShareUpdateExclusive => 0x1F0,
            Mode::Share => 0x1D8,
            Mode::ShareRowExclusive => 0x1F8,
            Mode::Exclusive => 0x1FC,
            Mode::AccessExclusive => 0x1FE,
        },
    }
}
