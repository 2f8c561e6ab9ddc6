ghost use Rattle.std.specs.Prelude.{◌≡◌, ◌<◌, ◌≤◌, ◌^◌, ◌==◌, ◌&&◌, ◌||◌, ℕ, not, true, false};
ghost use Rattle.modes_core.specs.Mode.{number_of, mode_eq};
ghost use Rattle.lw_word.specs.SlotWord.{relation_in, mode_bits, mode_bit, in_use, has_mode, shows, slot_word, word_with, word_without};

use modes_core::Mode;
use std::marker::Model;

/// The word of a fast-path slot: the relation in bits 0 to 31, and bits 32, 33 and 34 for `AccessShareLock`,
/// `RowShareLock` and `RowExclusiveLock` (`fpRelId` and `fpLockBits` of a `PGPROC` in proc.h). A slot with no
/// mode bit is empty. Contracts see the number, and read it by `shows`.
#[derive(Clone, Copy, Default)]
pub struct SlotWord {
    number: u64,
}

impl Model for SlotWord {
    ghost Value = { ℕ };

    ghost view = { λ word. word.number };

    ghost inverse = { λ number. record { number = number } };
}

impl SlotWord {
    const ALL_MODES: u64 = 7;

    /// The slot word whose number is `number`.
    pub fn from_number(number: u64) -> Self
        ensures { result ≡ number }
    {
        SlotWord { number }
    }

    /// The slot word's number, as the shared table has it.
    pub fn number(self) -> u64
        ensures { result ≡ self }
    {
        self.number
    }

    /// Whether the slot shows any mode (`FAST_PATH_GET_BITS` in lock.c is not 0).
    pub fn in_use(self) -> bool
        ensures { result ≡ in_use self }
    {
        self.mode_bits() != 0
    }

    /// The relation that the slot has, where the slot is in use.
    pub fn relation(self) -> u32
        ensures { result ≡ relation_in self }
    {
        (self.number & 0xFFFF_FFFF) as u32
    }

    /// Whether the slot shows `mode`, of any relation (`FAST_PATH_CHECK_LOCKMODE` in lock.c). No slot shows a
    /// mode from `ShareUpdateExclusiveLock` on.
    pub fn has(self, mode: Mode) -> bool
        ensures { result ≡ has_mode self mode }
    {
        (self.mode_bits() >> (mode.number() - 1)) & 1 == 1
    }

    /// Whether the slot shows that its session holds `relation` in `mode`.
    pub fn shows(self, relation: u32, mode: Mode) -> bool
        ensures { result ≡ shows self relation mode }
    {
        self.has(mode) && self.relation() == relation
    }

    /// The slot word with `mode` set for `relation`, where the slot is empty or has `relation` already
    /// (`FAST_PATH_SET_LOCKMODE` in `FastPathGrantRelationLock` of lock.c). The other modes of the slot stay.
    pub fn with(self, relation: u32, mode: Mode) -> Self
        requires slot_mode { number_of mode ≤ 3 }
        requires its_slot { in_use self ≡ true → relation_in self ≡ relation }
        ensures number { result ≡ word_with self relation mode }
        ensures shown { shows result ≡ λ other its. mode_eq its mode && relation == other || shows self other its }
        ensures of_relation { relation_in result ≡ relation }
    {
        Self::packed(relation, self.mode_bits() | Self::mode_bit(mode))
    }

    /// The slot word with `mode` cleared, whether `mode` was set or not (`FAST_PATH_CLEAR_LOCKMODE` in
    /// `FastPathUnGrantRelationLock` of lock.c). The other modes of the slot stay; the word of a slot that is
    /// left with no mode is 0.
    pub fn without(self, mode: Mode) -> Self
        requires { number_of mode ≤ 3 }
        ensures number { result ≡ word_without self mode }
        ensures shown { shows result ≡ λ other its. not (mode_eq its mode) && shows self other its }
        ensures emptied { in_use result ≡ false → result ≡ 0 }
        ensures of_relation { in_use result ≡ true → relation_in result ≡ relation_in self }
    {
        let modes = self.mode_bits() & (Self::ALL_MODES - Self::mode_bit(mode));
        if modes == 0 {
            SlotWord { number: 0 }
        } else {
            Self::packed(self.relation(), modes)
        }
    }

    /// The three mode bits of the slot word, moved down to bits 0 to 2.
    fn mode_bits(self) -> u64
        ensures value { result ≡ mode_bits self }
        ensures within { result < 2 ^ 3 }
    {
        (self.number >> 32) & Self::ALL_MODES
    }

    /// The bit of `mode` among the three mode bits.
    fn mode_bit(mode: Mode) -> u64
        requires { number_of mode ≤ 3 }
        ensures value { result ≡ mode_bit mode }
        ensures within { result < 2 ^ 3 }
    {
        1 << (mode.number() - 1)
    }

    /// The slot word of `relation` with the mode bits `modes`.
    fn packed(relation: u32, modes: u64) -> Self
        requires { modes < 2 ^ 3 }
        ensures { result ≡ slot_word relation modes }
    {
        SlotWord {
            number: modes << 32 | u64::from(relation),
        }
    }
}
