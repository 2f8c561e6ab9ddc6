//! What a step on the number of a lightweight lock's word goes by: the atomic operations of the shared table
//! find and store numbers, and a word of the plain machine is one number.

ghost use Rattle.std.specs.Prelude.{◌≡◌, ◌/◌, ◌%◌, ◌^◌, ◌↔◌, IsTrue};
ghost use Rattle.std.specs.Option.{SomeIff};
ghost use Rattle.lw_word.specs.LightweightWord.{IsHeldByNobody, IsFreeToShare, taken_word, shared_word};
ghost use Rattle.lw_word.specs.LockState.{state_of, put_in, must_wake};

use crate::{LwMode, LwWord};

/// What a session that takes a lightweight lock exclusively makes of the lock's word, which shows `shown`, or
/// `None` where bits 0 to 24 say that somebody holds the lock (`LWLockAttemptLock` in lwlock.c).
#[inline]
pub fn taken(shown: u64) -> Option<u64>
    ensures { SomeIff result (IsHeldByNobody shown) (taken_word shown) }
{
    let amount = LwMode::Exclusive.amount();
    if shown % (2 * amount) == 0 {
        Some(shown + amount)
    } else {
        None
    }
}

/// What a session that takes a lightweight lock shared makes of the lock's word, which shows `shown`, or
/// `None` where bit 24 says that another session holds the lock exclusively (`LWLockAttemptLock` in
/// lwlock.c).
#[inline]
pub fn shared(shown: u64) -> Option<u64>
    ensures { SomeIff result (IsFreeToShare shown) (shared_word shown) }
{
    if shown / LwMode::Exclusive.amount() % 2 == 0 {
        Some(shown + LwMode::Shared.amount())
    } else {
        None
    }
}

/// Whether a session that held a lightweight lock in `mode` has to wake waiters, by `found`, the number that
/// its fetch-and-subtract found in the lock's word: nobody else holds the lock, and has-waiters and
/// release-ok are set (`check_waiters` in `LWLockReleaseInternal` of lwlock.c).
#[inline]
pub fn must_wake_after(found: u64, mode: LwMode) -> bool
    ensures { result ≡ must_wake (put_in mode (state_of found)) }
{
    let nobody_else = match mode {
        LwMode::Exclusive => found % LwMode::Exclusive.amount() == 0,
        LwMode::Shared => {
            found % LwMode::Exclusive.amount() <= 1 && found / LwMode::Exclusive.amount() % 2 == 0
        }
    };
    nobody_else && found / LwWord::HAS_WAITERS % 2 == 1 && found / LwWord::RELEASE_OK % 2 == 1
}

/// Whether a session that set the bit of a wait list has locked it, by `found`, the number that its
/// fetch-and-or found in the lightweight lock's word: it has where nobody had the list locked
/// (`LWLockWaitListLock` in lwlock.c).
#[inline]
pub fn has_locked_list(found: u64) -> bool
    ensures { IsTrue result ↔ (found / 2 ^ 28 % 2 ≡ 0) }
{
    found / LwWord::LIST_LOCKED % 2 == 0
}
