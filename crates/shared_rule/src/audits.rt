//! What stands in the table, counted by a seat at which all sessions are gathered.

ghost use Rattle.std.specs.Prelude.{◌≡◌, ◌<◌, ◌≤◌, ◌+◌, ◌*◌, List, [], ◌∷◌, length, count_by, ℕ, None};
ghost use mathlib.Core.Option.{none};
ghost use Rattle.atomic_table.specs.Table.{step, rest};
ghost use Rattle.lock_table.specs.declared.rows.TableRow.{TableRow};
ghost use Rattle.lock_table.specs.declared.moves.Move.TheVariants.{Keep};
ghost use Rattle.lock_world.specs.Account.{InHand};
ghost use Rattle.lock_world.specs.declared.events.Word.{Word};
ghost use Rattle.lock_world.specs.declared.events.Word.TheVariants.{Slot, Strong};
ghost use Rattle.lock_world.specs.SlotHolds.{group_size};
ghost use Rattle.lock_world.specs.Tallies.{modes_shown};
ghost use Rattle.shared_rule.specs.Marks.{LoadedSlot, LoadedStrong};
ghost use Rattle.shared_rule.specs.Acquires.{TakesPartition};
ghost use Rattle.shared_rule.specs.Led.{Led};
ghost use Rattle.shared_rule.specs.LwLocks.{no_lists};
ghost use Rattle.shared_rule.specs.Todos.{nothing_to_do};
ghost use Rattle.lock_world.specs.AccountSteps.{account_putting};
ghost use Rattle.shared_rule.specs.declared.kept.Kept.TheVariants.{Nothing};
ghost use Rattle.shared_rule.specs.Audits.{CountersSeen, CountsAll, CountsFrom, SeesSlots, SeesAllSlots};
ghost use Rattle.shared_rule.specs.Gatherings.{AreAll, KnowsAll, KnowsOfAll, LookedOver, NoneWaits, gathered_in};
ghost use Rattle.shared_rule.specs.declared.history.History.{History};
ghost use Rattle.shared_rule.specs.History.{noting, first_account, taken_of};
ghost use Rattle.shared_rule.specs.Layout.{content_shelf_of};
ghost use Rattle.shared_rule.specs.Looks.{word_looked_at};
ghost use Rattle.shared_rule.specs.Lawful.{IsAboveHand, MayPutPart};
ghost use Rattle.shared_rule.specs.Plays.{side_of, account_at, number_at, todo_at, FitsTable, HasSession, IsSameSeat};
ghost use Rattle.shared_rule.specs.Allowed.{AllowsStep};
ghost use Rattle.shared_rule.specs.Seats.{MayBeKeptApartBy};
ghost use Rattle.modes_core.specs.Sessions.{most_sessions};

use crate::layout::{SLOTS_PER_GROUP, slot_word, strong_word};
use crate::opener::SeatOpener;
use crate::partitions::{put_part, take_part_alone};
use crate::plays::{LooksOver, Marking, Sizing, TellsAll};
use crate::rule::{Seat, SharedWords, TableSizes};
use lock_table::{Move, NoMemory, PartTable, TableRow};
use lw_word::SlotWord;
use modes_core::{Mode, PARTITIONS, STRONG_COUNTERS, SessionId};
use std::marker::Brand;
use std::sync::Wait;

/// What an audit counted: modes that fast-path slots show, granted rows of the lock table, and the sum of the
/// strong lock counters.
#[derive(Clone, Copy, Debug, PartialEq, Eq)]
pub struct Audit {
    /// How many modes fast-path slots show.
    pub fast: u64,
    /// How many rows of the lock table are granted.
    pub table: u64,
    /// The sum of the strong lock counters.
    pub strong: u64,
}

// A load that tells what a seat at which all sessions are knows of the number found.
fn look_over_as<T: PartTable, M: Marking<T>>(
    words: &SharedWords<T>,
    seat: &mut Seat<T>,
    word: usize,
) -> u64
    requires table { FitsTable seat.old words.now.key words.now.table_id × (word < words.now.table_id.words) }
    requires allowed { AllowsStep T.content T.begun words.now.key words.now.table_id.slots
        seat.old.id (side_of seat.old) word (λ n. n)
        (LookedOver T.content M.mark (step words.now.table_id.slots word 0 0 none) (side_of seat.old)) }
    ensures same_seat { IsSameSeat seat.old seat.new }
    ensures side { side_of seat.new ≡ (noting (side_of seat.old).0 (M.mark result), (side_of seat.old).1) }
    ensures knows { (which : Word) (issued : ℕ) → word_looked_at (M.mark result) ≡ Some which
        → AreAll issued (side_of seat.old).0 → KnowsOfAll T.content (side_of seat.old).0 which result }
{
    words.load::<LooksOver<M>>(seat, word)
}

// Loads a slot of a session.
fn look_over_slot<T: PartTable, M: Marking<T>>(
    words: &SharedWords<T>,
    seat: &mut Seat<T>,
    sessions: u16,
    owner: SessionId,
    slot: u8,
) -> SlotWord
    requires table { FitsTable seat.old words.now.key words.now.table_id }
    requires sessions { sessions ≡ words.now.key.sessions }
    requires exists { owner < words.now.key.sessions }
    requires session { HasSession (side_of seat.old).0 }
    requires within { slot < group_size * words.now.key.groups }
    requires mark { M.mark ≡ LoadedSlot owner slot }
    ensures same_seat { IsSameSeat seat.old seat.new }
    ensures side { side_of seat.new ≡ (noting (side_of seat.old).0 (LoadedSlot owner slot result), (side_of seat.old).1) }
    ensures knows { (issued : ℕ) → AreAll issued (side_of seat.old).0
        → KnowsOfAll T.content (side_of seat.old).0 (Slot owner slot) result }
{
    SlotWord::from_number(look_over_as::<T, M>(words, seat, slot_word(sessions, owner, slot)))
}

// Loads a strong lock counter.
fn look_over_strong<T: PartTable, M: Marking<T>>(
    words: &SharedWords<T>,
    seat: &mut Seat<T>,
    index: u16,
) -> u64
    requires table { FitsTable seat.old words.now.key words.now.table_id }
    requires session { HasSession (side_of seat.old).0 }
    requires within { index < 1024 }
    requires mark { M.mark ≡ LoadedStrong index }
    ensures same_seat { IsSameSeat seat.old seat.new }
    ensures side { side_of seat.new ≡ (noting (side_of seat.old).0 (LoadedStrong index result), (side_of seat.old).1) }
    ensures knows { (issued : ℕ) → AreAll issued (side_of seat.old).0
        → KnowsOfAll T.content (side_of seat.old).0 (Strong index) result }
{
    look_over_as::<T, M>(words, seat, strong_word(index))
}

// Has clauses learn which sessions are at `seat`, each with as many groups of slots as `G` says, and where
// each one's own holds are. Loads a word of `words`, and ignores what it finds.
fn tell_all_as<T: PartTable, G: Sizing>(words: &SharedWords<T>, seat: &mut Seat<T>)
    requires table { FitsTable seat.old words.now.key words.now.table_id }
    requires session { HasSession (side_of seat.old).0 }
    requires sizes { G.sizes ≡ words.now.key }
    ensures same_seat { IsSameSeat seat.old seat.new }
    ensures side { side_of seat.new ≡ (side_of seat.old) }
    ensures knows { (issued : ℕ) → AreAll issued (side_of seat.old).0
        → KnowsAll T.content words.now.key.groups issued (side_of seat.old).0 }
{
    words.load::<TellsAll<G>>(seat, 0);
}

// Has clauses learn what `tell_all_as` does, with as many groups of slots as the table has.
fn tell_all<T: PartTable>(words: &SharedWords<T>, seat: &mut Seat<T>)
    requires table { FitsTable seat.old words.now.key words.now.table_id }
    requires session { HasSession (side_of seat.old).0 }
    ensures same_seat { IsSameSeat seat.old seat.new }
    ensures side { side_of seat.new ≡ (side_of seat.old) }
    ensures knows { (issued : ℕ) → AreAll issued (side_of seat.old).0
        → KnowsAll T.content words.now.key.groups issued (side_of seat.old).0 }
{
    tell_all_as::<T, Brand>(words, seat);
}

// How many modes a slot's word shows.
fn modes_in(word: SlotWord) -> u64
    ensures modes { result ≡ modes_shown word }
    ensures few { result ≤ 3 }
{
    let higher = u64::from(word.has(Mode::RowShare)) + u64::from(word.has(Mode::RowExclusive));
    u64::from(word.has(Mode::AccessShare)) + higher
}

/// The sum of all strong lock counters of `words`, each loaded once by `seat`.
pub(crate) fn count_counters<T: PartTable>(words: &SharedWords<T>, seat: &mut Seat<T>) -> u64
    requires table { FitsTable seat.old words.now.key words.now.table_id }
    requires session { HasSession (side_of seat.old).0 }
    requires all { (issued : ℕ) × AreAll issued (side_of seat.old).0 }
    requires no_slots { (account_at T.content seat.old).fast.slots (number_at seat.old) ≡ None }
    ensures same_seat { IsSameSeat seat.old seat.new }
    ensures shelves { (side_of seat.new).1 ≡ (side_of seat.old).1 }
    ensures seen { CountersSeen T.content 1024 (side_of seat.old).0 (side_of seat.new).0 result }
{
    let mut sum = 0;
    for index in 0..STRONG_COUNTERS as u16 {
        sum += look_over_strong::<T, Brand>(words, seat, index);
    }
    sum
}

// How many modes a session's slots show, each of whose groups is loaded once.
fn count_slots_of<T: PartTable>(
    words: &SharedWords<T>,
    seat: &mut Seat<T>,
    owner: SessionId,
    sizes: &TableSizes,
) -> u64
    requires table { FitsTable seat.old words.now.key words.now.table_id }
    requires session { HasSession (side_of seat.old).0 }
    requires sizes { sizes.now ≡ words.now.key }
    requires exists { owner < words.now.key.sessions }
    ensures same_seat { IsSameSeat seat.old seat.new }
    ensures shelves { (side_of seat.new).1 ≡ (side_of seat.old).1 }
    ensures sees { SeesSlots T.content owner (group_size * sizes.now.groups) (side_of seat.old).0 (side_of seat.new).0 result }
    ensures few { result ≤ 384 }
{
    let mut sum = 0;
    for slot in 0..SLOTS_PER_GROUP * sizes.groups {
        sum += modes_in(look_over_slot::<T, Brand>(words, seat, sizes.sessions, owner, slot));
    }
    sum
}

// How many modes all slots show, of the sessions that there can be.
fn count_slots<T: PartTable>(words: &SharedWords<T>, seat: &mut Seat<T>, sizes: &TableSizes) -> u64
    requires table { FitsTable seat.old words.now.key words.now.table_id }
    requires session { HasSession (side_of seat.old).0 }
    requires sizes { sizes.now ≡ words.now.key }
    requires few { sizes.now.sessions ≤ most_sessions }
    ensures same_seat { IsSameSeat seat.old seat.new }
    ensures shelves { (side_of seat.new).1 ≡ (side_of seat.old).1 }
    ensures sees { SeesAllSlots T.content sizes.now.groups sizes.now.sessions (side_of seat.old).0 (side_of seat.new).0 result }
{
    let mut sum = 0;
    for number in 0..sizes.sessions {
        let owner = SessionId::new(number).unwrap();
        sum += count_slots_of(words, seat, owner, sizes);
    }
    sum
}

// Takes the next partition in rising order, whose content comes in hand.
fn take_next<T: PartTable, R: Wait>(
    rt: &R,
    words: &SharedWords<T>,
    seat: &mut Seat<T>,
    part: u8,
) -> T
    requires table { FitsTable seat.old words.now.key words.now.table_id }
    requires session { HasSession (side_of seat.old).0 }
    requires exists { part < 16 }
    requires none_in_hand { IsAboveHand (account_at T.content seat.old) part }
    requires idle { (account_at T.content seat.old).lists ≡ no_lists }
    requires todo { todo_at seat.old ≡ nothing_to_do }
    ensures same_seat { IsSameSeat seat.old seat.new }
    ensures takes { TakesPartition T.content T.begun words.now.key.sessions part seat.old seat.new result }
    ensures shelves { (side_of seat.new).1 ≡ (content_shelf_of part, Nothing) ∷ (side_of seat.old).1 }
    ensures none_begun { T.begun result ≡ None }
    ensures session_there { HasSession (side_of seat.new).0 }
    ensures lists { (account_at T.content seat.new).lists ≡ (account_at T.content seat.old).lists }
    ensures above { IsAboveHand (account_at T.content seat.new) (part + 1) }
    ensures todo { todo_at seat.new ≡ nothing_to_do }
{
    take_part_alone(rt, words, seat, part)
}

// Puts a partition back as it was taken. A session that waits for its lock is woken, though all sessions are
// gathered.
fn put_back<T: PartTable>(words: &SharedWords<T>, seat: &mut Seat<T>, part: u8, content: T)
    requires table { FitsTable seat.old words.now.key words.now.table_id }
    requires exists { part < 16 }
    requires session { HasSession (side_of seat.old).0 }
    requires in_hand { (side_of seat.old).1 ≡ (content_shelf_of part, Nothing) ∷ rest (side_of seat.old).1 }
    requires none_begun { T.begun content ≡ None }
    requires lawful { (mine : InHand) × MayPutPart words.now.key.sessions (number_at seat.old)
        (account_at T.content seat.old) part mine Keep (T.content content) }
    requires idle { (account_at T.content seat.old).lists ≡ no_lists }
    requires todo { todo_at seat.old ≡ nothing_to_do }
    ensures led { Led T.content seat.old seat.new (account_putting (account_at T.content seat.old) part
        (taken_of ((account_at T.content seat.old).hand part)) (T.content content) Keep) }
    ensures shelves { (side_of seat.new).1 ≡ rest (side_of seat.old).1 }
{
    put_part::<T, Brand>(words, seat, part, &Move::Keep, content);
}

/// Adds to `fast` how many modes fast-path slots show, loaded while all partitions from `part` on are in
/// hand, and appends the rows of these partitions to `rows`. The partitions are taken in rising order, and
/// put back unchanged in the opposite one. Where memory for the rows runs out the call is refused, and the
/// partitions are put back in that case too.
pub(crate) fn count_from<T: PartTable, R: Wait>(
    rt: &R,
    words: &SharedWords<T>,
    seat: &mut Seat<T>,
    sizes: &TableSizes,
    part: u8,
    fast: &mut u64,
    rows: &mut Vec<TableRow>,
) -> Result<(), NoMemory>
    requires table { FitsTable seat.old words.now.key words.now.table_id }
    requires session { HasSession (side_of seat.old).0 }
    requires sizes { sizes.now ≡ words.now.key }
    requires few { sizes.now.sessions ≤ most_sessions }
    requires exists { part ≤ 16 }
    requires none_in_hand { IsAboveHand (account_at T.content seat.old) part }
    requires idle { (account_at T.content seat.old).lists ≡ no_lists }
    requires todo { todo_at seat.old ≡ nothing_to_do }
    ensures same_seat { IsSameSeat seat.old seat.new }
    ensures shelves { (side_of seat.new).1 ≡ (side_of seat.old).1 }
    ensures counts { CountsFrom T.content sizes.now.groups part sizes.now.sessions (side_of seat.old).0 rows.old.items result
        fast.new (side_of seat.new).0 rows.new.items }
{
    if u32::from(part) == PARTITIONS {
        tell_all(words, seat);
        *fast = count_slots(words, seat, sizes);
        return Ok(());
    }
    let content = take_next(rt, words, seat, part);
    let mut counted = count_from(rt, words, seat, sizes, part + 1, fast, rows);
    if counted.is_ok() {
        counted = content.rows(rows);
    }
    put_back(words, seat, part, content);
    counted
}

// How many of the rows are of holds.
fn granted_in(rows: &[TableRow]) -> u64
    ensures { result ≡ count_by (λ (row : TableRow). row.granted) rows.now }
{
    rows.iter().filter(|row| row.granted).count() as u64
}

impl<T: PartTable> SeatOpener<T> {
    /// Counts what is in `table`, with all open sessions gathered at the opener's seat and nobody waiting:
    /// the strong lock counters, each by a load; the modes that fast-path slots show, each slot loaded with
    /// all partitions in hand; and the rows of the partitions, which are appended to `rows`, an empty list.
    /// The first gathered session makes the steps. Where memory for the rows runs out the call is refused,
    /// and sessions and table are as before in that case too.
    pub fn count<R: Wait>(
        &mut self,
        rt: &R,
        table: &SharedWords<T>,
        rows: &mut Vec<TableRow>,
    ) -> Result<Audit, NoMemory>
        requires table { (self.old.table ≡ table.now.table_id) × (self.old.limit ≡ table.now.key.sessions)
            × (self.old.groups ≡ table.now.key.groups) }
        requires some { (first : History T) × (others : List (History T)) × (self.old.gathered ≡ first ∷ others) }
        requires all { length self.old.gathered + length self.old.closed ≡ self.old.issued }
        requires nobody_waits { NoneWaits (gathered_in T.content self.old.gathered) }
        requires nothing_in_hand { MayBeKeptApartBy (first_account T.content self.old.gathered) }
        requires empty { rows.old.items ≡ [] }
        ensures { CountsAll T.content self.old self.new result }
    {
        let strong = count_counters(table, &mut self.seat);
        let mut fast = 0;
        let sizes = self.sizes;
        count_from(rt, table, &mut self.seat, &sizes, 0, &mut fast, rows)?;
        Ok(Audit {
            fast,
            table: granted_in(rows.as_slice()),
            strong,
        })
    }
}
