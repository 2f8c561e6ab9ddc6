//! Steps on boards, by one thread and by two.

ghost use Rattle.std.specs.Prelude.{◌≡◌, ◌<◌, []};
ghost use Rattle.shared_rule.specs.Boards.{nothing_due};
ghost use Rattle.shared_rule.specs.History.{blank_account};
ghost use Rattle.shared_rule.specs.Seats.{MayCloseBy};
ghost use Rattle.floor_tests.specs.Rests.{Rests, RestsAgain};

use super::latecomers::race;
use super::{SIZES, empty_shelves, one_thread};
use lock_table::{Move, PartTable, PlainPart};
use modes_core::SessionId;
use shared_rule::{Board, open};
use std::alloc::Global;
use std::process::Abort;
use std::sync::Wait;
use std::test::Fail;
use std::thread::{Threads, join_mut};
use std::time::Clock;

const ROUNDS: u32 = 10_000;

/// Takes partition `part` by `board`, and puts it back as it was.
fn keep_once<T: PartTable, B: Board<T>, R: Wait>(rt: &R, board: &mut B, part: u8)
    requires exists { part < 16 }
    requires idle { MayCloseBy (B.view board.old) }
    requires none_owed { (B.stack board.old).owed ≡ [] }
    ensures idle { MayCloseBy (B.view board.new) }
    ensures seat { B.seat board.new ≡ B.seat board.old }
    ensures stack { B.stack board.new ≡ B.stack board.old }
{
    let content = board.take_part(rt, part);
    board.put_part(part, &Move::Keep, content);
}

/// Takes partition 3 by `board` and puts it back as it was, over and over.
fn keep_often<T: PartTable, B: Board<T>, R: Wait>(rt: &R, board: &mut B)
    requires rests { Rests B.view B.stack board.old }
    ensures rests { RestsAgain B.view B.stack B.seat board.old board.new }
{
    'rounds: for _ in 0..ROUNDS {
        keep_once(rt, board, 3);
    }
}

/// Has `first` and `second` take a partition and put it back over and over, each in a thread of its own.
fn in_two_threads<B: Board<PlainPart> + Send, R: Threads + Wait + Sync>(
    rt: &R,
    first: &mut B,
    second: &mut B,
)
    requires first { Rests B.view B.stack first.old }
    requires second { Rests B.view B.stack second.old }
    ensures first { RestsAgain B.view B.stack B.seat first.old first.new }
    ensures second { RestsAgain B.view B.stack B.seat second.old second.new }
{
    join_mut(
        rt,
        &mut || keep_often(rt, first),
        &mut || keep_often(rt, second),
    );
}

/// What two sessions do side by side.
#[derive(Clone, Copy)]
enum SideBySide {
    /// The two sessions take one partition over and over.
    Together,
    /// One session comes for a lightweight lock as the other session puts it back.
    Latecomer,
}

/// Has `first` and `second` do side by side what `what` says; `owner` is the session whose slots' lock they
/// race for.
fn run_both<B: Board<PlainPart> + Send, R: Abort + Clock + Threads + Wait + Sync>(
    rt: &R,
    first: &mut B,
    second: &mut B,
    owner: SessionId,
    what: SideBySide,
)
    requires exists { (owner < (B.seat first.old).limit) × (owner < (B.seat second.old).limit) }
    requires first { Rests B.view B.stack first.old }
    requires second { Rests B.view B.stack second.old }
    ensures first { RestsAgain B.view B.stack B.seat first.old first.new }
    ensures second { RestsAgain B.view B.stack B.seat second.old second.new }
{
    match what {
        SideBySide::Together => in_two_threads(rt, first, second),
        SideBySide::Latecomer => race(rt, first, second, owner),
    }
}

/// Opens two sessions, has them do what `what` says, and closes them.
fn of_two<R: Abort + Clock + Threads + Wait + Sync>(
    rt: &R,
    alloc: Global,
    what: SideBySide,
) -> Result<(), Fail> {
    let Ok((table, mut opener)) = open(alloc, &SIZES, empty_shelves(alloc)?) else {
        return Err("out of memory".into());
    };
    let Some(mut first) = opener.session(&table.shared) else {
        return Err("no first session".into());
    };
    let Some(mut second) = opener.session(&table.shared) else {
        opener.close(first);
        return Err("no second session".into());
    };
    let owner = first.number();
    run_both(rt, &mut first, &mut second, owner, what);
    let second = first.meet(second);
    opener.close(second);
    opener.close(first);
    Ok(())
}

#[test]
fn two_threads_take_one_partition(rt: HostRuntime) -> Result<(), Fail> {
    of_two(&rt, rt.alloc(), SideBySide::Together)
}

#[test]
fn who_comes_for_a_lock_as_it_is_put_is_not_left_asleep(rt: HostRuntime) -> Result<(), Fail> {
    of_two(&rt, rt.alloc(), SideBySide::Latecomer)
}

/// Takes partition 3 by `board`, that of a session that has nothing, and puts it back, twice. Answers what
/// the session's wait word shows after that.
fn keep_twice<T: PartTable, B: Board<T>, R: Wait>(rt: &R, board: &mut B) -> u64
    requires blank { B.view board.old ≡ blank_account }
    requires stack { B.stack board.old ≡ nothing_due }
    ensures idle { MayCloseBy (B.view board.new) }
{
    keep_once(rt, board, 3);
    keep_once(rt, board, 3);
    board.load_wait()
}

#[test]
fn a_partition_is_taken_and_put_on_a_board_for_tests(rt: HostRuntime) -> Result<(), Fail> {
    let mut board = one_thread(rt.alloc())?;
    let shown = keep_twice(&rt, &mut board);
    assert_eq!(rt; shown, 0);
    Ok(())
}
