//! Laws of the words and of the wait list, each a clause over all numbers and lists. What the words' calls do
//! is said of what a word says; here it is said of the number, which is what the shared table has.

ghost use Rattle.std.specs.Prelude.{◌≡◌, ◌+◌, ◌/◌, ◌%◌, ◌^◌, ◌<◌, ◌≤◌, ◌↔◌, ℕ, Bool, [], ◌∷◌, ◌++◌, filter, length, not, true, false};
ghost use Rattle.std.specs.List.Sorted.{IsPermutation};
ghost use Rattle.modes_core.specs.declared.modes.Mode.{Mode};
ghost use Rattle.modes_core.specs.Mode.{number_of};
ghost use Rattle.lw_word.specs.LightweightWord.{IsLightweightWord, IsHeldByNobody, IsHeldExclusively, IsFreeToShare, IsListLocked, IsReleaseOk, HasWaiters, shared_count, taken_word, put_word, shared_word, unshared_word, list_locked_word, release_ok_word, has_waiters_word, list_unlocked_word, FlagsStay, HoldersStay};
ghost use Rattle.lw_word.specs.LockState.{LockState, IsFreeFor, IsHeldIn, word_of, state_of};
ghost use Rattle.lw_word.specs.declared.words.LwMode.TheVariants.{Exclusive, Shared};
ghost use Rattle.lw_word.specs.WaitList.{wants_to_share, taken_off, left_waiting};
ghost use Rattle.lw_word.specs.declared.wait_lists.LwWaiter.{LwWaiter};
ghost use Rattle.lw_word.specs.declared.wait_lists.TheConstants.{MOST_TAKEN_OFF};
ghost use Rattle.lw_word.specs.SlotWord.{relation_in, mode_bits, in_use, shows, slot_word};

/// A lightweight lock's word and what the word says (`LockState`) determine each other, both ways.
pub fn a_word_and_what_it_says_are_one()
    ensures number { (word : ℕ) → IsLightweightWord word → word_of (state_of word) ≡ word }
    ensures said { (state : LockState) → state.shared < 2 ^ 24 → state_of (word_of state) ≡ state }
    ensures valid { (state : LockState) → state.shared < 2 ^ 24 → IsLightweightWord (word_of state) }
{}

/// The record `LockState` and the bits of a lightweight lock's word say one thing: when the lock is free for
/// a mode, when it is held, and which flags are set.
pub fn the_record_says_what_the_bits_say()
    ensures free { (word : ℕ) → IsFreeFor Exclusive (state_of word) ↔ IsHeldByNobody word }
    ensures free_to_share { (word : ℕ) → IsFreeFor Shared (state_of word) ↔ IsFreeToShare word }
    ensures held { (word : ℕ) → IsHeldIn Exclusive (state_of word) ↔ IsHeldExclusively word }
    ensures list_locked { (word : ℕ) → ((state_of word).list_locked ≡ true) ↔ IsListLocked word }
    ensures release_ok { (word : ℕ) → ((state_of word).release_ok ≡ true) ↔ IsReleaseOk word }
    ensures has_waiters { (word : ℕ) → ((state_of word).has_waiters ≡ true) ↔ HasWaiters word }
{}

/// Taking a free lightweight lock exclusively and putting the lock change only the exclusive bit of the
/// lock's word.
pub fn taking_turns_one_bit()
    ensures taken { (word : ℕ) → IsHeldByNobody word → IsHeldExclusively (taken_word word) }
    ensures taken_count { (word : ℕ) → IsHeldByNobody word → shared_count (taken_word word) ≡ 0 }
    ensures taken_flags { (word : ℕ) → IsHeldByNobody word → FlagsStay word (taken_word word) }
    ensures put { (word : ℕ) → IsHeldExclusively word → IsFreeToShare (put_word word) }
    ensures put_count { (word : ℕ) → IsHeldExclusively word → shared_count (put_word word) ≡ shared_count word }
    ensures put_flags { (word : ℕ) → IsHeldExclusively word → FlagsStay word (put_word word) }
{}

/// Sharing a lightweight lock and giving the share back change the count in the lock's word by one, and
/// nothing else.
pub fn sharing_counts_alone()
    ensures shared { (word : ℕ) → shared_count word + 1 < 2 ^ 24 →
        shared_count (shared_word word) ≡ shared_count word + 1 }
    ensures shared_rest { (word : ℕ) → shared_count word + 1 < 2 ^ 24 → shared_word word / 2 ^ 24 ≡ word / 2 ^ 24 }
    ensures unshared { (word : ℕ) → 0 < shared_count word → shared_count (unshared_word word) + 1 ≡ shared_count word }
    ensures unshared_rest { (word : ℕ) → 0 < shared_count word → unshared_word word / 2 ^ 24 ≡ word / 2 ^ 24 }
{}

/// Setting a flag in a lightweight lock's word sets that flag, and leaves the other flags and the holders.
pub fn setting_a_flag_sets_it_alone()
    ensures list_locked { (word : ℕ) → IsListLocked (list_locked_word word) × HoldersStay word (list_locked_word word) }
    ensures list_locked_release { (word : ℕ) → list_locked_word word / 2 ^ 29 % 2 ≡ word / 2 ^ 29 % 2 }
    ensures list_locked_waiters { (word : ℕ) → list_locked_word word / 2 ^ 30 % 2 ≡ word / 2 ^ 30 % 2 }
    ensures release_ok { (word : ℕ) → IsReleaseOk (release_ok_word word) × HoldersStay word (release_ok_word word) }
    ensures release_ok_list { (word : ℕ) → release_ok_word word / 2 ^ 28 % 2 ≡ word / 2 ^ 28 % 2 }
    ensures release_ok_waiters { (word : ℕ) → release_ok_word word / 2 ^ 30 % 2 ≡ word / 2 ^ 30 % 2 }
    ensures has_waiters { (word : ℕ) → HasWaiters (has_waiters_word word) × HoldersStay word (has_waiters_word word) }
    ensures has_waiters_list { (word : ℕ) → has_waiters_word word / 2 ^ 28 % 2 ≡ word / 2 ^ 28 % 2 }
    ensures has_waiters_release { (word : ℕ) → has_waiters_word word / 2 ^ 29 % 2 ≡ word / 2 ^ 29 % 2 }
{}

/// Unlocking a wait list clears the list's bit in the lightweight lock's word and the flags that are not to
/// stay, and leaves the other flags and the holders.
pub fn unlocking_clears_what_is_told()
    ensures list { (word : ℕ) (waiters release : Bool) → list_unlocked_word word waiters release / 2 ^ 28 % 2 ≡ 0 }
    ensures holders { (word : ℕ) (waiters release : Bool) → HoldersStay word (list_unlocked_word word waiters release) }
    ensures release_stays { (word : ℕ) (waiters : Bool) →
        list_unlocked_word word waiters true / 2 ^ 29 % 2 ≡ word / 2 ^ 29 % 2 }
    ensures release_goes { (word : ℕ) (waiters : Bool) → list_unlocked_word word waiters false / 2 ^ 29 % 2 ≡ 0 }
    ensures waiters_stay { (word : ℕ) (release : Bool) →
        list_unlocked_word word true release / 2 ^ 30 % 2 ≡ word / 2 ^ 30 % 2 }
    ensures waiters_go { (word : ℕ) (release : Bool) → list_unlocked_word word false release / 2 ^ 30 % 2 ≡ 0 }
{}

/// A wakeup takes somebody off a lightweight lock's wait list wherever anybody waits, and each waiter that it
/// doesn't take off remains in the list. Where the first waiter wants to share the lock, and no more than
/// `MOST_TAKEN_OFF` waiters want to, the wakeup takes off all who want to share.
pub fn a_wakeup_splits_the_list()
    ensures split { (waiters : _) → IsPermutation waiters (taken_off waiters ++ left_waiting waiters) }
    ensures somebody { (waiters : _) → taken_off waiters ≡ [] → waiters ≡ [] }
    ensures all_taken { (first : LwWaiter) (others : _) → wants_to_share first ≡ true
        → length (filter wants_to_share (first ∷ others)) ≤ MOST_TAKEN_OFF
        → taken_off (first ∷ others) ≡ filter wants_to_share (first ∷ others) }
    ensures none_left { (first : LwWaiter) (others : _) → wants_to_share first ≡ true
        → length (filter wants_to_share (first ∷ others)) ≤ MOST_TAKEN_OFF
        → left_waiting (first ∷ others) ≡ filter (λ waiter. not (wants_to_share waiter)) (first ∷ others) }
{}

/// The fast-path slot word of a relation and mode bits has just that relation and those bits; a slot in use
/// shows a mode of its relation, and a slot that is not in use shows nothing.
pub fn a_slot_shows_one_relation()
    ensures relation { (relation bits : ℕ) → relation < 2 ^ 32 → bits < 2 ^ 3 →
        relation_in (slot_word relation bits) ≡ relation }
    ensures modes { (relation bits : ℕ) → relation < 2 ^ 32 → bits < 2 ^ 3 →
        mode_bits (slot_word relation bits) ≡ bits }
    ensures used { (word : ℕ) → in_use word ≡ true →
        (mode : Mode) × (number_of mode ≤ 3) × (shows word (relation_in word) mode ≡ true) }
    ensures shown { (word relation : ℕ) (mode : Mode) → shows word relation mode ≡ true → relation_in word ≡ relation }
    ensures shown_used { (word relation : ℕ) (mode : Mode) → shows word relation mode ≡ true → in_use word ≡ true }
    ensures empty { (word relation : ℕ) (mode : Mode) → in_use word ≡ false → shows word relation mode ≡ false }
{}
