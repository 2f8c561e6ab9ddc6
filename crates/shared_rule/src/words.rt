//! The eight operations on one word of the table that all steps are made of. Each is one atomic operation,
//! made by a seat that has the session's history first in its view, and leaves a mark there; what the mark
//! does to the session's account is in `noted` of specs/History.

ghost use Rattle.std.specs.Prelude.{ℕ, false, ◌≡◌, ◌<◌, ◌+◌, ◌-◌, ◌^◌, ◌%◌, Some, bit_and, bit_or};
ghost use mathlib.Core.Option.{none};
ghost use Rattle.atomic_table.specs.Table.{step, rest};
ghost use Rattle.shared_rule.specs.History.{noting};
ghost use Rattle.shared_rule.specs.Allowed.{AllowsStep};
ghost use Rattle.shared_rule.specs.Plays.{side_of, account_at, number_at, FitsTable, IsSameSeat, Marked, WentHome, Looked};
ghost use Rattle.lock_world.specs.declared.events.Word.{Word};
ghost use Rattle.shared_rule.specs.Looks.{word_looked_at, is_call};
ghost use Rattle.shared_rule.specs.Slots.{KnowsWord};

use crate::plays::{Looks, Marking, Marks, PutsHome};
use crate::rule::{Seat, SharedWords};
use lock_table::PartTable;
use lw_word::LwMode;

pub(crate) fn load_as<T: PartTable, M: Marking<T>>(
    words: &SharedWords<T>,
    seat: &mut Seat<T>,
    word: usize,
) -> u64
    requires table { FitsTable seat.old words.now.key words.now.table_id × (word < words.now.table_id.words) }
    requires allowed { AllowsStep T.content T.begun words.now.key words.now.table_id.slots
        seat.old.id (side_of seat.old) word (λ n. n)
        (Marked M.mark (step words.now.table_id.slots word 0 0 none) (side_of seat.old)) }
    requires no_call { (n : ℕ) → is_call (M.mark n) ≡ false }
    ensures same_seat { IsSameSeat seat.old seat.new }
    ensures side { side_of seat.new ≡ (noting (side_of seat.old).0 (M.mark result), (side_of seat.old).1) }
{
    words.load::<Marks<M>>(seat, word)
}

pub(crate) fn fetch_add_as<T: PartTable, M: Marking<T>>(
    words: &SharedWords<T>,
    seat: &mut Seat<T>,
    word: usize,
    amount: u64,
) -> u64
    requires table { FitsTable seat.old words.now.key words.now.table_id × (word < words.now.table_id.words) }
    requires allowed { AllowsStep T.content T.begun words.now.key words.now.table_id.slots
        seat.old.id (side_of seat.old) word
        (λ n. (n + amount) % 2 ^ 64) (Marked M.mark (step words.now.table_id.slots word amount 0 none) (side_of seat.old)) }
    ensures same_seat { IsSameSeat seat.old seat.new }
    ensures side { side_of seat.new ≡ (noting (side_of seat.old).0 (M.mark result), (side_of seat.old).1) }
{
    words.fetch_add::<Marks<M>>(seat, word, amount)
}

pub(crate) fn fetch_sub_as<T: PartTable, M: Marking<T>>(
    words: &SharedWords<T>,
    seat: &mut Seat<T>,
    word: usize,
    amount: u64,
) -> u64
    requires table { FitsTable seat.old words.now.key words.now.table_id × (word < words.now.table_id.words) }
    requires allowed { AllowsStep T.content T.begun words.now.key words.now.table_id.slots
        seat.old.id (side_of seat.old) word
        (λ n. (n + (2 ^ 64 - amount)) % 2 ^ 64)
        (Marked M.mark (step words.now.table_id.slots word amount 0 none) (side_of seat.old)) }
    ensures same_seat { IsSameSeat seat.old seat.new }
    ensures side { side_of seat.new ≡ (noting (side_of seat.old).0 (M.mark result), (side_of seat.old).1) }
{
    words.fetch_sub::<Marks<M>>(seat, word, amount)
}

pub(crate) fn put_home_as<T: PartTable, M: Marking<T>>(
    words: &SharedWords<T>,
    seat: &mut Seat<T>,
    word: usize,
) -> u64
    requires table { FitsTable seat.old words.now.key words.now.table_id × (word < words.now.table_id.words) }
    requires allowed { AllowsStep T.content T.begun words.now.key words.now.table_id.slots
        seat.old.id (side_of seat.old) word
        (λ n. (n + (2 ^ 64 - 16777216)) % 2 ^ 64)
        (WentHome M.mark (step words.now.table_id.slots word 16777216 0 none) (side_of seat.old)) }
    ensures same_seat { IsSameSeat seat.old seat.new }
    ensures side { side_of seat.new ≡ (noting (side_of seat.old).0 (M.mark result), rest (side_of seat.old).1) }
{
    words.fetch_sub::<PutsHome<M>>(seat, word, LwMode::Exclusive.amount())
}

pub(crate) fn store_as<T: PartTable, M: Marking<T>>(
    words: &SharedWords<T>,
    seat: &mut Seat<T>,
    word: usize,
    new: u64,
)
    requires table { FitsTable seat.old words.now.key words.now.table_id × (word < words.now.table_id.words) }
    requires allowed { AllowsStep T.content T.begun words.now.key words.now.table_id.slots
        seat.old.id (side_of seat.old) word
        (λ _. new) (λ _. Marked M.mark (step words.now.table_id.slots word new 0 none) (side_of seat.old) new) }
    ensures same_seat { IsSameSeat seat.old seat.new }
    ensures side { side_of seat.new ≡ (noting (side_of seat.old).0 (M.mark new), (side_of seat.old).1) }
{
    words.store::<Marks<M>>(seat, word, new);
}

pub(crate) fn fetch_or_as<T: PartTable, M: Marking<T>>(
    words: &SharedWords<T>,
    seat: &mut Seat<T>,
    word: usize,
    bits: u64,
) -> u64
    requires table { FitsTable seat.old words.now.key words.now.table_id × (word < words.now.table_id.words) }
    requires allowed { AllowsStep T.content T.begun words.now.key words.now.table_id.slots
        seat.old.id (side_of seat.old) word
        (λ n. bit_or n bits) (Looked T.content M.mark (step words.now.table_id.slots word bits 0 none) (side_of seat.old)) }
    ensures same_seat { IsSameSeat seat.old seat.new }
    ensures side { side_of seat.new ≡ (noting (side_of seat.old).0 (M.mark result), (side_of seat.old).1) }
    ensures knows { (which : Word) → word_looked_at (M.mark result) ≡ Some which
        → KnowsWord (number_at seat.old) (account_at T.content seat.old) which result }
{
    words.fetch_or::<Looks<M>>(seat, word, bits)
}

pub(crate) fn look_as<T: PartTable, M: Marking<T>>(
    words: &SharedWords<T>,
    seat: &mut Seat<T>,
    word: usize,
) -> u64
    requires table { FitsTable seat.old words.now.key words.now.table_id × (word < words.now.table_id.words) }
    requires allowed { AllowsStep T.content T.begun words.now.key words.now.table_id.slots
        seat.old.id (side_of seat.old) word (λ n. n)
        (Looked T.content M.mark (step words.now.table_id.slots word 0 0 none) (side_of seat.old)) }
    ensures same_seat { IsSameSeat seat.old seat.new }
    ensures side { side_of seat.new ≡ (noting (side_of seat.old).0 (M.mark result), (side_of seat.old).1) }
    ensures knows { (which : Word) → word_looked_at (M.mark result) ≡ Some which
        → KnowsWord (number_at seat.old) (account_at T.content seat.old) which result }
{
    words.load::<Looks<M>>(seat, word)
}

pub(crate) fn unlock_as<T: PartTable, M: Marking<T>>(
    words: &SharedWords<T>,
    seat: &mut Seat<T>,
    word: usize,
    mask: u64,
)
    requires table { FitsTable seat.old words.now.key words.now.table_id × (word < words.now.table_id.words) }
    requires allowed { AllowsStep T.content T.begun words.now.key words.now.table_id.slots
        seat.old.id (side_of seat.old) word
        (λ n. bit_and n mask) (WentHome M.mark (step words.now.table_id.slots word mask 0 none) (side_of seat.old)) }
    ensures same_seat { IsSameSeat seat.old seat.new }
    ensures side { (n : ℕ) × (side_of seat.new ≡ (noting (side_of seat.old).0 (M.mark n), rest (side_of seat.old).1)) }
{
    words.fetch_and::<PutsHome<M>>(seat, word, mask);
}
