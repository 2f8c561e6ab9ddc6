//! What steps of the machine make of the word of a lightweight lock, where `LwWord` has no call of its own
//! for it.

ghost use Rattle.std.specs.Prelude.{◌≡◌, ◌↔◌, ◌≤◌, IsTrue};
ghost use Rattle.std.specs.Option.{SomeIff};
ghost use Rattle.lw_word.specs.declared.words.LwMode.TheVariants.{Shared};
ghost use Rattle.lw_word.specs.LockState.{IsFreeFor, IsHeldIn, taken_in, put_in};
ghost use Rattle.lock_model.specs.ListWords.{unlocked_in};

use lw_word::{LwMode, LwWord};
use modes_core::USUAL_SESSIONS;

/// `word` with one more sharer, or `None` where somebody holds the lock exclusively. No word shows more
/// sharers than there are sessions, so that the count has room.
pub fn share(word: LwWord) -> Option<LwWord>
    ensures { SomeIff result (IsFreeFor Shared word × (word.shared ≤ 64)) (taken_in Shared word) }
{
    if word.shared() <= u64::from(USUAL_SESSIONS) {
        word.attempt(LwMode::Shared)
    } else {
        None
    }
}

/// Whether `word` shows that somebody holds the lock in `mode`.
fn is_held_in(word: LwWord, mode: LwMode) -> bool
    ensures { IsTrue result ↔ IsHeldIn mode word }
{
    match mode {
        LwMode::Exclusive => word.is_exclusive(),
        LwMode::Shared => word.shared() > 0,
    }
}

/// `word` with one holder less in `mode`, or as it is where nobody holds the lock in `mode`.
pub fn put(word: LwWord, mode: LwMode) -> LwWord
    ensures { result ≡ put_in mode word }
{
    if is_held_in(word, mode) {
        word.release(mode)
    } else {
        word
    }
}

/// `word` with its wait list unlocked: has-waiters and release-ok remain set where `has_waiters` and
/// `release_ok` say so.
pub fn unlocked(word: LwWord, has_waiters: bool, release_ok: bool) -> LwWord
    ensures { result ≡ unlocked_in word has_waiters release_ok }
{
    word.unlock_list(
        has_waiters && word.has_waiters(),
        release_ok && word.is_release_ok(),
    )
}
