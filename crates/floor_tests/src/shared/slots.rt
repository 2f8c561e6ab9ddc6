//! Slots, strong lock counters and the lock of its own slots, on a board for tests.

ghost use Rattle.std.specs.Prelude.{◌≡◌, ◌<◌, None};
ghost use Rattle.shared_rule.specs.Boards.{nothing_due};
ghost use Rattle.shared_rule.specs.History.{blank_account};

use super::one_thread;
use lock_table::PartTable;
use modes_core::{Mode, Tag};
use shared_rule::Board;
use std::process::Abort;
use std::sync::Wait;
use std::test::Fail;

/// Sets two modes of a relation in the first slot by `board`, that of a session that has nothing, one after
/// the other, and answers the number that the slot shows after that; `None` where somebody has counted a
/// strong lock of the relation's index.
fn set_twice<T: PartTable, B: Board<T>, R: Wait>(rt: &R, board: &mut B) -> Option<u64>
    requires blank { B.view board.old ≡ blank_account }
    requires stack { B.stack board.old ≡ nothing_due }
    requires exists { (B.seat board.old).number < (B.seat board.old).limit }
    requires groups { (B.seat board.old).groups ≡ 1 }
{
    let own = board.number();
    let tag = Tag::Relation {
        database: 5,
        relation: 16384,
    };
    board.store_database(5);
    board.take_fast(rt, own);
    let counted = board.load_strong(tag.strong_index());
    if counted != 0 {
        return None;
    }
    let empty = board.load_slot(own, 0);
    board.set_slot(0, empty, &tag, Mode::AccessShare);
    let shown = board.load_slot(own, 0);
    board.set_slot(0, shown, &tag, Mode::RowExclusive);
    Some(board.load_slot(own, 0).number())
}

/// Shares the lock of a session's own slots by `board`, that of a session that has nothing, and answers what
/// the session sees meanwhile: its database, and the number of its last slot. The lock is given back.
fn read_shared<T: PartTable, B: Board<T>, R: Wait>(rt: &R, board: &mut B) -> (u64, u64)
    requires blank { B.view board.old ≡ blank_account }
    requires stack { B.stack board.old ≡ nothing_due }
    requires exists { (B.seat board.old).number < (B.seat board.old).limit }
    requires groups { (B.seat board.old).groups ≡ 1 }
    ensures none_in_hand { (B.view board.new).fast.slots ≡ (λ _. None) }
    ensures none_shared { (B.view board.new).fast.shared_slots ≡ (λ _. None) }
    ensures stack { B.stack board.new ≡ nothing_due }
{
    let own = board.number();
    board.store_database(5);
    board.share_fast(rt, own);
    let database = board.load_database(own);
    let shown = board.load_slot(own, 15);
    board.unshare_fast(own);
    (database, shown.number())
}

/// Counts a strong lock on a relation by `board`, that of a session that has nothing, and answers what the
/// relation's strong lock counter shows after that.
fn count_once<T: PartTable, B: Board<T>>(board: &mut B) -> u64
    requires blank { B.view board.old ≡ blank_account }
{
    let tag = Tag::Relation {
        database: 5,
        relation: 16384,
    };
    board.add_strong(&tag, Mode::AccessExclusive);
    board.load_strong(tag.strong_index())
}

// 16384 + 2^32 * (1 + 4): the bits of AccessShareLock and RowExclusiveLock are the first and the third.
#[test]
fn two_modes_of_a_relation_stand_in_one_slot(rt: HostRuntime) -> Result<(), Fail> {
    let mut board = one_thread(rt.alloc())?;
    let shown = set_twice(&rt, &mut board);
    assert_eq!(rt; shown, Some(21_474_852_864));
    Ok(())
}

#[test]
fn a_counter_shows_what_is_counted(rt: HostRuntime) -> Result<(), Fail> {
    let mut board = one_thread(rt.alloc())?;
    let shown = count_once(&mut board);
    assert_eq!(rt; shown, 1);
    Ok(())
}

// After a lock is shared no more it can be taken exclusively: its word shows nobody.
#[test]
fn a_lock_that_was_shared_is_free_again(rt: HostRuntime) -> Result<(), Fail> {
    let mut board = one_thread(rt.alloc())?;
    let read = read_shared(&rt, &mut board);
    assert_eq!(rt; read, (5, 0));
    assert!(rt; board.try_take_fast().is_ok());
    Ok(())
}

// A second try with the lock in hand is against the order of locks. That a try of a lock that another session
// holds is busy is tested above, where two sessions meet at the slots of one.
#[test]
fn a_lock_that_nobody_holds_is_taken_at_the_first_try(rt: HostRuntime) -> Result<(), Fail> {
    let mut board = one_thread(rt.alloc())?;
    assert!(rt; board.try_take_fast().is_ok());
    Ok(())
}
