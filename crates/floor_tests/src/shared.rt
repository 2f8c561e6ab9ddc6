//! The places of words and contents in the shared table, and steps on boards.

ghost use Rattle.std.specs.Prelude.{◌≡◌, IfOk};
ghost use Rattle.shared_rule.specs.Boards.{nothing_due};
ghost use Rattle.shared_rule.specs.History.{blank_account};
ghost use Rattle.shared_rule.specs.Opening.{AreNew};

use lock_table::{PartTable, PlainPart, empty_parts};
use modes_core::SessionId;
use shared_rule::{
    Board, CONTENT_SHELVES, Kept, OneThread, TableSizes, content_shelf, database_word, fast_word,
    in_shelves, partition_word, sleep_word, slot_word, strong_word, table_shelves, table_words,
    wait_word,
};
use std::alloc::Global;
use std::process::Abort;
use std::test::Fail;

mod boards;
mod latecomers;
mod slots;

// The indexes in these tests are worked by hand: 16 times 16 words for partitions, 1,024 for counters, 16
// unused, and 37 for each session, and again for each group of slots after the first. Most are of a table for
// 64 sessions.

/// The number of words of a table for `sessions` sessions with `groups` groups of slots each.
fn words_of(sessions: u16, groups: u8) -> usize {
    table_words(TableSizes { sessions, groups })
}

/// The session with the number `number`.
fn session(number: u16) -> Result<SessionId, Fail> {
    Ok(SessionId::new(number).ok_or("no session")?)
}

#[test]
fn partitions_come_first_and_counters_after_them(rt: HostRuntime) -> Result<(), Fail> {
    assert_eq!(rt; partition_word(0), 0);
    assert_eq!(rt; partition_word(1), 16);
    assert_eq!(rt; partition_word(15), 240);
    assert_eq!(rt; strong_word(0), 256);
    assert_eq!(rt; strong_word(1), 257);
    assert_eq!(rt; strong_word(1023), 1279);
    Ok(())
}

#[test]
fn a_session_has_twenty_words_in_a_row(rt: HostRuntime) -> Result<(), Fail> {
    let third = session(2)?;
    assert_eq!(rt; fast_word(third), 1370);
    assert_eq!(rt; database_word(third), 1371);
    assert_eq!(rt; slot_word(64, third, 0), 1372);
    assert_eq!(rt; slot_word(64, third, 15), 1387);
    assert_eq!(rt; wait_word(third), 1388);
    assert_eq!(rt; sleep_word(third), 1389);
    Ok(())
}

#[test]
fn the_table_ends_with_the_gap_after_the_last_session(rt: HostRuntime) -> Result<(), Fail> {
    assert_eq!(rt; sleep_word(session(63)?), 3646);
    assert_eq!(rt; words_of(64, 1), 3664);
    assert_eq!(rt; sleep_word(session(7)?), 1574);
    assert_eq!(rt; words_of(8, 1), 1592);
    assert_eq!(rt; words_of(1, 1), 1333);
    Ok(())
}

#[test]
fn each_further_group_of_slots_has_a_block_for_each_session(rt: HostRuntime) -> Result<(), Fail> {
    let third = session(2)?;
    assert_eq!(rt; slot_word(64, third, 16), 3740);
    assert_eq!(rt; slot_word(64, third, 31), 3755);
    assert_eq!(rt; slot_word(64, third, 32), 6108);
    assert_eq!(rt; slot_word(64, session(63)?, 127), 20220);
    assert_eq!(rt; words_of(64, 2), 6032);
    assert_eq!(rt; words_of(64, 8), 20240);
    assert_eq!(rt; slot_word(8, third, 15), 1387);
    assert_eq!(rt; slot_word(8, third, 16), 1668);
    assert_eq!(rt; slot_word(8, session(7)?, 127), 3644);
    assert_eq!(rt; words_of(8, 8), 3664);
    Ok(())
}

/// Whether the word at `later` is at least 128 bytes after the word at `earlier`: 16 words of 8 bytes.
fn is_apart(earlier: usize, later: usize) -> bool {
    later.saturating_sub(earlier) >= 16
}

#[test]
fn neighbours_are_128_bytes_apart(rt: HostRuntime) -> Result<(), Fail> {
    assert!(rt; is_apart(sleep_word(session(0)?), fast_word(session(1)?)));
    assert!(rt; is_apart(sleep_word(session(62)?), fast_word(session(63)?)));
    assert!(rt; is_apart(sleep_word(session(63)?), slot_word(64, session(0)?, 16)));
    assert!(rt;
        is_apart(
            slot_word(64, session(0)?, 31),
            slot_word(64, session(1)?, 16)
        )
    );
    assert!(rt;
        is_apart(
            slot_word(64, session(63)?, 31),
            slot_word(64, session(0)?, 32)
        )
    );
    assert!(rt; is_apart(strong_word(1023), fast_word(session(0)?)));
    assert!(rt; is_apart(partition_word(15), strong_word(0)));
    Ok(())
}

#[test]
fn each_content_has_eight_shelves_to_itself(rt: HostRuntime) -> Result<(), Fail> {
    assert_eq!(rt; content_shelf(0), 0);
    assert_eq!(rt; content_shelf(1), 8);
    assert_eq!(rt; content_shelf(15), 120);
    assert_eq!(rt; CONTENT_SHELVES, 128);
    assert_eq!(rt; table_shelves(64), 1152);
    assert_eq!(rt; table_shelves(17), 400);
    assert_eq!(rt; table_shelves(16), 384);
    assert_eq!(rt; table_shelves(1), 384);
    Ok(())
}

/// The sizes of a table for two sessions with one group of slots each.
const SIZES: TableSizes = TableSizes {
    sessions: 2,
    groups: 1,
};

/// Sixteen empty partitions, which grow by `alloc`, each on its shelf of a table for two sessions, and the
/// wait lists of the partitions' locks.
fn empty_shelves(alloc: Global) -> Result<Vec<Kept<PlainPart>>, Fail>
    ensures new { let T = ⟦<PlainPart as PartTable>⟧ in IfOk result (λ shelves. AreNew T.content T.begun 2 shelves.items) }
{
    Ok(in_shelves(alloc, empty_parts(alloc, PlainPart::new)?, SIZES.sessions)?)
}

/// A board for tests, of a table for two sessions that grows by `alloc`.
fn one_thread(alloc: Global) -> Result<OneThread<PlainPart>, Fail>
    ensures blank { let B = ⟦<OneThread<PlainPart> as Board<PlainPart>>⟧ in
        IfOk result (λ board. B.view board ≡ blank_account) }
    ensures stack { let B = ⟦<OneThread<PlainPart> as Board<PlainPart>>⟧ in
        IfOk result (λ board. B.stack board ≡ nothing_due) }
    ensures number { let B = ⟦<OneThread<PlainPart> as Board<PlainPart>>⟧ in
        IfOk result (λ board. (B.seat board).number ≡ 0) }
    ensures limit { let B = ⟦<OneThread<PlainPart> as Board<PlainPart>>⟧ in
        IfOk result (λ board. (B.seat board).limit ≡ 2) }
    ensures groups { let B = ⟦<OneThread<PlainPart> as Board<PlainPart>>⟧ in
        IfOk result (λ board. (B.seat board).groups ≡ 1) }
{
    match OneThread::new(alloc, &SIZES, empty_shelves(alloc)?) {
        Ok(board) => Ok(board),
        Err(_) => Err("out of memory".into()),
    }
}
