//! The table with its memory, before the first step.

ghost use Rattle.std.specs.Prelude.{◌≡◌, ◌<◌, ◌≤◌, ◌+◌, ◌/◌, ◌%◌, [], length, Some, IfOk, IfErr};
ghost use Rattle.lock_world.specs.SlotHolds.{most_groups};
ghost use Rattle.lock_world.specs.World.{opening};
ghost use Rattle.shared_rule.specs.Shown.{WordsAreShown};
ghost use Rattle.lock_table.specs.Parts.{AreEmptyParts};
ghost use Rattle.shared_rule.specs.Opening.{IsNew, IsEmptyList, AreNew};
ghost use Rattle.modes_core.specs.Sessions.{most_sessions};

use crate::history::PlacedView;
use crate::kept::Kept;
use crate::layout::{
    BLOCK, CONTENT_GAP, CONTENT_SHELVES, GAP, SESSIONS_START, table_shelves, table_words,
};
use crate::opener::SeatOpener;
use crate::rule::{LockTableRule, TableSizes};
use atomic_table::{Refused, Table};
use lock_table::{NoMemory, PartTable};
use lw_word::{LwWord, WaitList};
use modes_core::PARTITIONS;
use std::alloc::Global;

/// The table that all sessions share, with its memory. Threads share its field `shared`.
pub type SharedTable<T> = Table<Kept<T>, PlacedView<T>, TableSizes, LockTableRule, Global>;

// All words of the table of `sizes`, before the first step: those of lightweight locks are free, and all
// others 0.
fn first_words(alloc: Global, sizes: TableSizes) -> Result<Vec<u64>, NoMemory>
    requires some { 0 < sizes.groups }
    ensures shown { IfOk result (λ words. WordsAreShown sizes words.items (opening 0 0).words) }
{
    let free = LwWord::opening().number();
    let mut words = vec![in alloc; 0; table_words(sizes)]?;
    for partition in 0..PARTITIONS as usize {
        words[GAP * partition] = free;
    }
    for session in 0..sizes.sessions as usize {
        words[SESSIONS_START + BLOCK * session] = free;
    }
    Ok(words)
}

// What a shelf for contents has, by its index: the next part where it is a partition's.
fn next_part<T: PartTable>(parts: &mut Vec<T>, index: usize) -> Kept<T>
    requires empty { AreEmptyParts T.content T.begun parts.old.items }
    requires some { index % 8 ≡ 0 → 0 < length parts.old.items }
    ensures empty { AreEmptyParts T.content T.begun parts.new.items }
    ensures part { index % 8 ≡ 0 → IsNew T.content T.begun (Some result) }
    ensures left { length parts.new.items + (index + 8) / 8 ≡ length parts.old.items + (index + 7) / 8 }
{
    if index % CONTENT_GAP == 0 {
        match parts.pop() {
            Some(part) => Kept::Part(part),
            None => unreachable!(),
        }
    } else {
        Kept::Nothing
    }
}

// What a shelf for wait lists has, by its index: an empty one where it is a lock's, with room for `sessions`.
fn next_list<T: PartTable>(alloc: Global, index: usize, sessions: u16) -> Result<Kept<T>, NoMemory>
    ensures { IfOk result (λ kept. index % 8 ≡ 0 → IsEmptyList sessions (Some kept)) }
{
    if index % CONTENT_GAP == 0 {
        let list = WaitList::new(alloc, sessions)?;
        Ok(Kept::List(Box::new(alloc, list)?))
    } else {
        Ok(Kept::Nothing)
    }
}

/// The shelves of the table with `parts`, the sixteen partitions, each on its own (`content_shelf`), and with
/// the wait lists of the lightweight locks of `sessions` sessions, each list with room for all sessions.
/// Where memory, by `alloc`, runs out `parts` are let go.
pub fn in_shelves<T: PartTable + Drop>(
    alloc: Global,
    mut parts: Vec<T>,
    sessions: u16,
) -> Result<Vec<Kept<T>>, NoMemory>
    requires sixteen { length parts.items ≡ 16 }
    requires new { AreEmptyParts T.content T.begun parts.items }
    ensures { IfOk result (λ shelves. AreNew T.content T.begun sessions shelves.items) }
{
    let count = table_shelves(sessions);
    let mut shelves = Vec::with_capacity(alloc, count)?;
    for index in 0..CONTENT_SHELVES {
        shelves.push_reserved(next_part(&mut parts, index));
    }
    for index in CONTENT_SHELVES..count {
        shelves.push_reserved(next_list(alloc, index, sessions)?);
    }
    Ok(shelves)
}

/// Makes the table of `sizes`, and the opener at it (`InitProcGlobal` in proc.c, `InitLocks` in lock.c).
/// `parts` come each on its shelf of the table, as `in_shelves` puts them. Where memory, by `alloc`, runs out
/// `parts` come back.
pub fn open<T: PartTable>(
    alloc: Global,
    sizes: &TableSizes,
    parts: Vec<Kept<T>>,
) -> Result<(SharedTable<T>, SeatOpener<T>), Refused<Kept<T>, Global>>
    requires few { sizes.now.sessions ≤ most_sessions }
    requires some_groups { 0 < sizes.now.groups }
    requires few_groups { sizes.now.groups ≤ most_groups }
    requires parts { AreNew T.content T.begun sizes.now.sessions parts.items }
    ensures key { IfOk result (λ opened. opened.0.shared.key ≡ sizes.now) }
    ensures opener { IfOk result (λ opened.
        opened.1 ≡ record {
          table = opened.0.shared.table_id;
          issued = 0;
          limit = sizes.now.sessions;
          groups = sizes.now.groups;
          closed = [];
          gathered = [];
        }) }
    ensures refused { IfErr result (λ refused. refused.slots.items ≡ parts.items) }
{
    let words = match first_words(alloc, *sizes) {
        Ok(words) => words,
        Err(NoMemory) => return Err(Refused { slots: parts }),
    };
    let (table, seat) = Table::new(alloc, words.as_slice(), parts, sizes)?;
    Ok((table, SeatOpener::at(seat, sizes)))
}
