ghost use Rattle.std.specs.Prelude.{◌≡◌, ◌<◌, ◌^◌, ◌+◌, ◌-◌, ◌↔◌, true, false, IsSome, IfSome};
ghost use Rattle.std.specs.Option.{SomeIff};
ghost use Rattle.lw_word.specs.LightweightWord.{IsLightweightWord, free_word, flag_bits, kept_bits, list_locked_word, flagged_and_unlocked_word, release_ok_word, has_waiters_word};
ghost use Rattle.lw_word.specs.LockState.{opening_state, word_of, is_shared, amount_of, IsFreeFor, HasRoomFor, IsHeldIn, taken_in, put_in};

use crate::numbers::{has_locked_list, shared, taken};
use std::marker::Model;

/// How a lightweight lock is taken (`LWLockMode` in lwlock.h): by one session, or by many at a time. The
/// default, `Exclusive`, is what unused places of bounded lists have.
#[derive(Clone, Copy, Default, PartialEq, Eq)]
pub enum LwMode {
    /// By one session alone (`LW_EXCLUSIVE`).
    #[default]
    Exclusive,
    /// By any number of sessions (`LW_SHARED`).
    Shared,
}

impl LwMode {
    /// Whether this is the shared mode, in which many hold the lock at a time.
    pub fn is_shared(self) -> bool
        ensures { result ≡ is_shared self }
    {
        match self {
            LwMode::Exclusive => false,
            LwMode::Shared => true,
        }
    }

    /// What a holder in this mode adds to the lightweight lock's word (`LW_VAL_EXCLUSIVE` and `LW_VAL_SHARED`
    /// in lwlock.c): the operand of the fetch-and-subtract that releases the lock.
    pub fn amount(self) -> u64
        ensures { result ≡ amount_of self }
    {
        match self {
            LwMode::Exclusive => 1 << 24,
            LwMode::Shared => 1,
        }
    }
}

/// A lightweight lock's word (`state` of an `LWLock` in lwlock.h), as it is in the shared table: bits 0 to 23
/// count those who hold it shared, bit 24 is set where somebody holds it exclusively, bit 28 where its wait
/// list is locked, bit 29 is release-ok and bit 30 has-waiters. Contracts see what the word says.
///
/// The calls make a new word of an old one and change nothing. The contract of each call says what the call
/// means, and also what it does to the number, which is what the atomic operation of the shared table does.
#[derive(Clone, Copy)]
pub struct LwWord {
    number: u64,
}

impl Model for LwWord {
    ghost use Rattle.lw_word.specs.LockState.{LockState, state_of, word_of};
    ghost use Rattle.lw_word.specs.LightweightWord.{IsLightweightWord};
    ghost use Rattle.lw_word.specs.Packing.{word_of-state_of};

    ghost Value = { LockState };

    ghost view = { λ word. state_of word.number };

    ghost invariant = { λ word. IsLightweightWord word.number };

    ghost inverse = { λ state. record { number = word_of state } };

    ghost inverse_ok = { λ word is i. record { number = word_of-state_of word.number is i } };
}

impl LwWord {
    /// The bit that says that the wait list is locked (`LW_FLAG_LOCKED`).
    pub const LIST_LOCKED: u64 = 1 << 28;

    /// The bit that says that a release may wake waiters (`LW_FLAG_RELEASE_OK`).
    pub const RELEASE_OK: u64 = 1 << 29;

    /// The bit that says that somebody may be in the wait list (`LW_FLAG_HAS_WAITERS`).
    pub const HAS_WAITERS: u64 = 1 << 30;

    const EXCLUSIVE: u64 = 1 << 24;

    /// The word of a lightweight lock that nobody has taken yet (`LWLockInitialize`).
    pub fn opening() -> Self
        ensures says { result ≡ opening_state }
        ensures number { word_of result ≡ free_word }
    {
        LwWord {
            number: Self::RELEASE_OK,
        }
    }

    /// The lightweight lock's word whose number is `number`, or `None` where `number` has a bit that no such
    /// word has.
    pub fn from_number(number: u64) -> Option<Self>
        ensures valid { IsSome result ↔ IsLightweightWord number }
        ensures value { IfSome result (λ word. word_of word ≡ number) }
    {
        if number < 1 << 31 && (number >> 25) & 7 == 0 {
            Some(LwWord { number })
        } else {
            None
        }
    }

    /// The word's number, as the shared table has it.
    pub fn number(self) -> u64
        ensures value { result ≡ word_of self }
        ensures valid { IsLightweightWord result }
        ensures count { self.shared < 2 ^ 24 }
    {
        self.number
    }

    /// The word after the lock was taken in `mode`, or `None` where the lock can't be taken in `mode` now
    /// (`LWLockAttemptLock` in lwlock.c).
    pub fn attempt(self, mode: LwMode) -> Option<Self>
        requires { HasRoomFor mode self }
        ensures answer { SomeIff result (IsFreeFor mode self) (taken_in mode self) }
        ensures number { IfSome result (λ after. word_of after ≡ word_of self + amount_of mode) }
    {
        let after = match mode {
            LwMode::Exclusive => taken(self.number),
            LwMode::Shared => shared(self.number),
        };
        match after {
            Some(number) => Some(LwWord { number }),
            None => None,
        }
    }

    /// The word after a session that held the lock in `mode` released it (`LWLockReleaseInternal` in
    /// lwlock.c).
    pub fn release(self, mode: LwMode) -> Self
        requires { IsHeldIn mode self }
        ensures after { result ≡ put_in mode self }
        ensures number { word_of result + amount_of mode ≡ word_of self }
    {
        LwWord {
            number: self.number - mode.amount(),
        }
    }

    /// How many sessions hold the lock shared.
    pub fn shared(self) -> u64
        ensures { result ≡ self.shared }
    {
        self.number & (Self::EXCLUSIVE - 1)
    }

    /// Whether somebody holds the lock exclusively.
    pub fn is_exclusive(self) -> bool
        ensures { result ≡ self.exclusive }
    {
        self.number & Self::EXCLUSIVE != 0
    }

    /// Whether a release may wake waiters.
    pub fn is_release_ok(self) -> bool
        ensures { result ≡ self.release_ok }
    {
        self.number & Self::RELEASE_OK != 0
    }

    /// Whether somebody may be in the wait list.
    pub fn has_waiters(self) -> bool
        ensures { result ≡ self.has_waiters }
    {
        self.number & Self::HAS_WAITERS != 0
    }

    /// The word after its wait list was locked, or `None` where the list is locked already
    /// (`LWLockWaitListLock` in lwlock.c).
    pub fn lock_list(self) -> Option<Self>
        ensures answer { SomeIff result (self.list_locked ≡ false) (record self { list_locked = true }) }
        ensures number { IfSome result (λ after. word_of after ≡ list_locked_word (word_of self)) }
    {
        if has_locked_list(self.number) {
            Some(LwWord {
                number: self.number | Self::LIST_LOCKED,
            })
        } else {
            None
        }
    }

    /// The word after its wait list was unlocked, with has-waiters set where `has_waiters`, and release-ok
    /// where `release_ok` (`LWLockWaitListUnlock`, and the end of `LWLockWakeup`, in lwlock.c). In the shared
    /// table the flags to be set are set first, and then one fetch-and clears the other flags and unlocks the
    /// list.
    pub fn unlock_list(self, has_waiters: bool, release_ok: bool) -> Self
        ensures after { result
            ≡ record self { list_locked = false; has_waiters = has_waiters; release_ok = release_ok } }
        ensures number { word_of result ≡ flagged_and_unlocked_word (word_of self) has_waiters release_ok }
    {
        LwWord {
            number: (self.number | Self::flag_bits(has_waiters, release_ok))
                & Self::kept_bits(has_waiters, release_ok),
        }
    }

    /// The bits of the flags to be set before a wait list is unlocked: has-waiters where `has_waiters`,
    /// release-ok where `release_ok`.
    pub fn flag_bits(has_waiters: bool, release_ok: bool) -> u64
        ensures { result ≡ flag_bits has_waiters release_ok }
    {
        let waiters = if has_waiters { Self::HAS_WAITERS } else { 0 };
        let release = if release_ok { Self::RELEASE_OK } else { 0 };
        waiters | release
    }

    /// The operand of the fetch-and that unlocks a wait list: all bits but the list's own, without
    /// has-waiters unless `has_waiters`, and without release-ok unless `release_ok`.
    pub fn kept_bits(has_waiters: bool, release_ok: bool) -> u64
        ensures { result ≡ kept_bits has_waiters release_ok }
    {
        !(Self::LIST_LOCKED | Self::flag_bits(!has_waiters, !release_ok))
    }

    /// The word after release-ok was set, whether it was set or not: a session that was taken off a wait list
    /// sets release-ok when it goes on (the end of the loop in `LWLockAcquire`).
    pub fn set_release_ok(self) -> Self
        ensures after { result ≡ record self { release_ok = true } }
        ensures number { word_of result ≡ release_ok_word (word_of self) }
    {
        LwWord {
            number: self.number | Self::RELEASE_OK,
        }
    }

    /// The word after has-waiters was set, whether it was set or not (`LWLockQueueSelf`).
    pub fn set_has_waiters(self) -> Self
        ensures after { result ≡ record self { has_waiters = true } }
        ensures number { word_of result ≡ has_waiters_word (word_of self) }
    {
        LwWord {
            number: self.number | Self::HAS_WAITERS,
        }
    }
}
