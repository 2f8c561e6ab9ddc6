//! What makes no step on shared state: a board that counts all that is done on it shows that no shared word
//! is loaded or written.

ghost use Rattle.std.specs.Prelude.{◌≡◌, ◌<◌, ◌≤◌, IfOk};
ghost use Rattle.shared_rule.specs.Boards.{nothing_due};
ghost use Rattle.shared_rule.specs.History.{blank_account};
ghost use Rattle.shared_rule.specs.Opening.{AreNew};

use super::calls::{Expected, make_often};
use super::watched::{Watch, WatchedBoard};
use lock_manager::Call::{Acquire, Commit, Held, OwnerCount, TryFast, TryLock, Unlock};
use lock_manager::Mode::{AccessExclusive, AccessShare, Share};
use lock_manager::Owner::{Session, Transaction};
use lock_manager::{Acquired, Call, OwnSession, Unlocked};
use lock_table::{PartTable, PlainPart, empty_parts};
use modes_core::Tag;
use shared_rule::{Board, Kept, OneThread, TableSizes, in_shelves};
use std::alloc::Global;
use std::process::Abort;
use std::sync::Wait;
use std::sync::atomic::{AtomicU64, Ordering};
use std::test::Fail;

/// How many calls were made on a board.
#[derive(Drop)]
struct Steps {
    made: AtomicU64,
}

impl Steps {
    fn none() -> Self {
        Steps {
            made: AtomicU64::new(0),
        }
    }

    /// Counts one call more on the board.
    fn count(&self) {
        self.made.fetch_add(1, Ordering::SeqCst);
    }

    /// How many calls on the board were counted.
    fn made(&self) -> u64 {
        self.made.load(Ordering::SeqCst)
    }
}

impl<'a> Watch for &'a Steps {
    fn before(&self) {
        self.count();
    }

    fn after(&self) {}
}

const DATABASE: u32 = 5;

/// How many entries the counted session may have.
const MAX_LOCAL: u32 = 2;

const TABLE: Tag = Tag::Relation {
    database: DATABASE,
    relation: 16_384,
};

const ANOTHER_TABLE: Tag = Tag::Relation {
    database: DATABASE,
    relation: 16_385,
};

const OBJECT: Tag = Tag::Object {
    database: DATABASE,
    class: 1_259,
    object: 16_384,
    sub_object: 0,
};

// What calls are to be answered. Refusals have their numbers.

const GRANTED: Expected = Expected::Acquired(Acquired::Granted);

const ALREADY_HELD: Expected = Expected::Acquired(Acquired::AlreadyHeld);

const RELEASED: Expected = Expected::Unlocked(Unlocked::Released);

const STILL_HELD: Expected = Expected::Unlocked(Unlocked::StillHeld);

const LOCAL_FULL: Expected = Expected::Refused(3);

const COUNT_FULL: Expected = Expected::Refused(4);

const NOT_HELD: Expected = Expected::Refused(7);

const NOT_ELIGIBLE: Expected = Expected::Refused(11);

/// A counted call: how many times it is made, the call, what each is answered, and whether each does
/// something on the board.
type CountedCall = (u32, Call, Expected, bool);

const CALLS: [CountedCall; 25] = [
    // What is new is asked for on the board: by a slot, and in the table.
    (1, TryLock(TABLE, AccessShare, Transaction), GRANTED, true),
    (1, TryLock(TABLE, AccessExclusive, Session), GRANTED, true),
    // What is held already isn't.
    (1, TryLock(TABLE, AccessShare, Session), ALREADY_HELD, false),
    (
        1,
        TryLock(TABLE, AccessExclusive, Transaction),
        ALREADY_HELD,
        false,
    ),
    (
        1,
        TryFast(TABLE, AccessShare, Transaction),
        ALREADY_HELD,
        false,
    ),
    (
        1,
        Acquire(TABLE, AccessExclusive, Session),
        ALREADY_HELD,
        false,
    ),
    // Nor is what the session's own limits refuse.
    (1, TryLock(OBJECT, Share, Transaction), LOCAL_FULL, false),
    (1, Acquire(OBJECT, Share, Transaction), LOCAL_FULL, false),
    (
        1,
        TryFast(ANOTHER_TABLE, AccessShare, Transaction),
        LOCAL_FULL,
        false,
    ),
    (
        1,
        TryFast(OBJECT, AccessShare, Transaction),
        NOT_ELIGIBLE,
        false,
    ),
    (
        65_533,
        TryLock(TABLE, AccessShare, Transaction),
        ALREADY_HELD,
        false,
    ),
    (
        1,
        TryLock(TABLE, AccessShare, Transaction),
        COUNT_FULL,
        false,
    ),
    (
        1,
        Acquire(TABLE, AccessShare, Transaction),
        COUNT_FULL,
        false,
    ),
    (
        1,
        TryFast(TABLE, AccessShare, Transaction),
        COUNT_FULL,
        false,
    ),
    // A release that keeps a count of one of the two owners does nothing there.
    (
        65_535,
        Unlock(TABLE, AccessShare, Transaction),
        STILL_HELD,
        false,
    ),
    (1, Unlock(TABLE, AccessShare, Transaction), NOT_HELD, false),
    (1, Unlock(OBJECT, Share, Transaction), NOT_HELD, false),
    (
        1,
        Unlock(TABLE, AccessExclusive, Session),
        STILL_HELD,
        false,
    ),
    // What the session has it knows itself.
    (1, Held(TABLE), Expected::Held(0b1_0000_0010), false),
    (
        1,
        OwnerCount(TABLE, AccessExclusive, Session),
        Expected::Times(1),
        false,
    ),
    // The last count goes with the hold.
    (1, Unlock(TABLE, AccessShare, Session), RELEASED, true),
    (
        1,
        Unlock(TABLE, AccessExclusive, Session),
        STILL_HELD,
        false,
    ),
    (1, Commit, Expected::Ended, true),
    (1, Commit, Expected::Ended, false),
    (1, Held(TABLE), Expected::Held(0), false),
];

/// Makes the call at `place` of the list of counted calls with `session`, and counts its steps.
fn make_counted<T: PartTable, B: Board<T>, R: Abort + Wait>(
    rt: &R,
    session: &mut OwnSession<T, B>,
    steps: &Steps,
    place: usize,
)
    requires { place < 25 }
{
    let (times, call, expected, is_step) = CALLS[place];
    let before = steps.made();
    make_often(rt, session, times, &call, expected, place);
    assert_eq!(rt; steps.made() != before, is_step, "call {place}");
}

/// Makes all counted calls with `session`, and counts their steps.
fn make_all<T: PartTable, B: Board<T>, R: Abort + Wait>(
    rt: &R,
    session: &mut OwnSession<T, B>,
    steps: &Steps,
) {
    for place in 0..25 {
        make_counted(rt, session, steps, place);
    }
    let before = steps.made();
    assert_eq!(rt; session.database(), DATABASE);
    assert_eq!(rt; steps.made(), before);
}

/// Sixteen empty partitions, each on its shelf of a table for one session.
fn empty_shelves(alloc: Global) -> Result<Vec<Kept<PlainPart>>, Fail>
    ensures new { let T = ⟦<PlainPart as PartTable>⟧ in IfOk result (λ shelves. AreNew T.content T.begun 1 shelves.items) }
{
    Ok(in_shelves(alloc, empty_parts(alloc, PlainPart::new)?, 1)?)
}

/// A board for tests, of a table for one session.
fn one_thread(alloc: Global) -> Result<OneThread<PlainPart>, Fail>
    ensures blank { let B = ⟦<OneThread<PlainPart> as Board<PlainPart>>⟧ in
        IfOk result (λ board. B.view board ≡ blank_account) }
    ensures stack { let B = ⟦<OneThread<PlainPart> as Board<PlainPart>>⟧ in
        IfOk result (λ board. B.stack board ≡ nothing_due) }
    ensures limit { let B = ⟦<OneThread<PlainPart> as Board<PlainPart>>⟧ in
        IfOk result (λ board. (B.seat board).limit ≡ 1) }
{
    let sizes = TableSizes {
        sessions: 1,
        groups: 1,
    };
    match OneThread::new(alloc, &sizes, empty_shelves(alloc)?) {
        Ok(board) => Ok(board),
        Err(_) => Err("out of memory".into()),
    }
}

/// Makes all counted calls in a session over `board`, on which nothing was done yet, and counts what each
/// does on the board.
fn make_all_over<T: PartTable, B: Board<T> + Drop, R: Abort + Wait>(
    rt: &R,
    alloc: Global,
    board: B,
) -> Result<(), Fail>
    requires limit { (B.seat board).limit ≤ 64 }
    requires blank { B.view board ≡ blank_account }
    requires stack { B.stack board ≡ nothing_due }
{
    let steps = Steps::none();
    let board = WatchedBoard::over(board, &steps);
    let mut session: OwnSession<T, WatchedBoard<B, &Steps>> = match OwnSession::over(
        alloc, board, DATABASE, MAX_LOCAL,
    ) {
        Ok(session) => session,
        Err(_) => return Err("out of memory".into()),
    };
    make_all(rt, &mut session, &steps);
    session.into_board(rt);
    Ok(())
}

/// Makes all counted calls over a board for one thread.
pub fn make_all_on_one_thread<R: Abort + Wait>(rt: &R, alloc: Global) -> Result<(), Fail> {
    make_all_over::<PlainPart, OneThread<PlainPart>, R>(rt, alloc, one_thread(alloc)?)
}
