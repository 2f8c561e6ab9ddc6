//! Lists of what is done to a plain part, each with what that leads to, worked by hand; and what a part
//! lists, a copy of it, and the parts of a new table.

ghost use Rattle.std.specs.Prelude.{◌≡◌, None};

mod steps;

use crate::fixtures::{ANOTHER_OBJECT, OBJECT, new_part, session};
use lock_table::{NoMemory, PartTable, PlainPart, TableRow, empty_parts};
use modes_core::Mode::{AccessShare, Exclusive, RowExclusive, RowShare, Share};
use modes_core::{Mode, SessionId};
use std::alloc::Global;
use std::process::Abort;
use std::test::Fail;
use steps::{Step, Told, part_after, play, queue_is, waits};

const THE_MIDDLE_ONE_OF_THREE_GOES_FIRST: [Step; 17] = [
    Step::Holds(0, OBJECT, Share),
    Step::Waits(1, OBJECT, RowExclusive, 0),
    Step::Waits(2, OBJECT, AccessShare, 1),
    Step::Waits(3, OBJECT, Share, 2),
    // RowExclusiveLock conflicts with the hold, and the ShareLock after it with the RowExclusiveLock.
    Step::Wakes(OBJECT, &[(2, AccessShare)]),
    Step::Has(2, OBJECT, 0b10),
    Step::Queue(OBJECT, &[1, 3]),
    // Nothing has changed since.
    Step::Wakes(OBJECT, &[]),
    Step::Queue(OBJECT, &[1, 3]),
    // The one granted first is a holder when the next is judged.
    Step::Releases(0, OBJECT, Share),
    Step::Wakes(OBJECT, &[(1, RowExclusive)]),
    Step::Queue(OBJECT, &[3]),
    Step::Meets(3, OBJECT, Share, 1, RowExclusive),
    Step::Releases(1, OBJECT, RowExclusive),
    Step::Wakes(OBJECT, &[(3, Share)]),
    Step::Has(3, OBJECT, 0b10_0000),
    Step::Queue(OBJECT, &[]),
];

const WAITS_STAND_AT_THEIR_PLACES: [Step; 8] = [
    Step::Waits(1, OBJECT, Share, 0),
    Step::Waits(5, ANOTHER_OBJECT, Share, 0),
    Step::Waits(2, OBJECT, Exclusive, 1),
    Step::Waits(3, OBJECT, RowShare, 0),
    Step::Waits(4, OBJECT, RowShare, 1),
    Step::Waits(3, ANOTHER_OBJECT, RowShare, 1),
    Step::Queue(OBJECT, &[3, 4, 1, 2]),
    Step::Queue(ANOTHER_OBJECT, &[5, 3]),
];

const WHO_LEAVES_IS_OUT_OF_ONE_QUEUE: [Step; 8] = [
    Step::Waits(1, OBJECT, Share, 0),
    Step::Waits(2, OBJECT, Exclusive, 1),
    Step::Waits(2, ANOTHER_OBJECT, RowShare, 0),
    Step::Waits(3, OBJECT, RowExclusive, 2),
    Step::Leaves(2, OBJECT, Some(Exclusive)),
    Step::Leaves(2, OBJECT, None),
    Step::Queue(OBJECT, &[1, 3]),
    Step::Queue(ANOTHER_OBJECT, &[2]),
];

const A_WAITER_HAS_THE_MODES_OF_ITS_JOINING: [Step; 5] = [
    Step::Holds(0, OBJECT, AccessShare),
    Step::Holds(0, ANOTHER_OBJECT, RowShare),
    Step::Waits(0, OBJECT, Exclusive, 0),
    Step::Releases(0, OBJECT, AccessShare),
    Step::First(OBJECT, Exclusive, 0b10),
];

const A_REQUEST_IS_TOLD_WHERE_IT_STANDS: [Step; 10] = [
    Step::Asks(0, OBJECT, Share, Told::Granted),
    Step::Holds(0, OBJECT, Share),
    // After the holder, and then after the one that waits.
    Step::Asks(1, OBJECT, RowExclusive, Told::Queued(0)),
    Step::Waits(1, OBJECT, RowExclusive, 0),
    Step::Asks(2, OBJECT, Share, Told::Queued(1)),
    // The holder goes before the one that it keeps waiting, and nothing else is in its way.
    Step::Asks(0, OBJECT, Exclusive, Told::Granted),
    Step::Holds(0, ANOTHER_OBJECT, Share),
    Step::Holds(1, ANOTHER_OBJECT, Share),
    Step::Waits(0, ANOTHER_OBJECT, Exclusive, 0),
    Step::Asks(1, ANOTHER_OBJECT, Exclusive, Told::Deadlock(0)),
];

#[test]
fn the_middle_one_of_three_goes_first(rt: HostRuntime) -> Result<(), Fail> {
    part_after(
        &rt,
        rt.alloc(),
        THE_MIDDLE_ONE_OF_THREE_GOES_FIRST.as_slice(),
    )?;
    Ok(())
}

#[test]
fn waits_stand_at_their_places(rt: HostRuntime) -> Result<(), Fail> {
    part_after(&rt, rt.alloc(), WAITS_STAND_AT_THEIR_PLACES.as_slice())?;
    Ok(())
}

#[test]
fn who_leaves_is_out_of_one_queue(rt: HostRuntime) -> Result<(), Fail> {
    part_after(&rt, rt.alloc(), WHO_LEAVES_IS_OUT_OF_ONE_QUEUE.as_slice())?;
    Ok(())
}

#[test]
fn a_waiter_has_the_modes_of_its_joining(rt: HostRuntime) -> Result<(), Fail> {
    part_after(
        &rt,
        rt.alloc(),
        A_WAITER_HAS_THE_MODES_OF_ITS_JOINING.as_slice(),
    )?;
    Ok(())
}

#[test]
fn a_request_is_told_where_it_stands(rt: HostRuntime) -> Result<(), Fail> {
    part_after(
        &rt,
        rt.alloc(),
        A_REQUEST_IS_TOLD_WHERE_IT_STANDS.as_slice(),
    )?;
    Ok(())
}

/// Has `many` sessions wait in `part` for what nobody holds, each after those with lower numbers, and wakes
/// the queue.
fn wake_many<P: PartTable>(rt: &impl Abort, part: &mut P, many: u16) -> Result<(), NoMemory>
    requires none_begun { P.begun part.old ≡ None }
{
    'waits: for number in 0..many {
        let place = usize::from(number);
        waits(rt, part, session(rt, number), &OBJECT, Share, place)?;
    }
    part.wake(&OBJECT);
    Ok(())
}

/// Whether each session in `woken` is at the place of its number, granted ShareLock.
fn are_in_order(woken: &[(SessionId, Mode)]) -> bool {
    for place in 0..woken.len() {
        let (session, mode) = woken[place];
        if usize::from(session.number()) != place || mode != Share {
            return false;
        }
    }
    true
}

#[test]
fn several_go_in_the_queues_order(rt: HostRuntime) -> Result<(), Fail> {
    let mut part = new_part(rt.alloc())?;
    wake_many(&rt, &mut part, 40)?;
    assert!(rt; part.woken().len() == 40 && are_in_order(part.woken()));
    assert!(rt; queue_is(&part, &OBJECT, &[]));
    Ok(())
}

const HOLDERS_WHO_WAIT: [Step; 4] = [
    Step::Holds(1, OBJECT, Share),
    Step::Holds(0, OBJECT, RowShare),
    Step::Waits(0, OBJECT, AccessShare, 0),
    Step::Waits(1, OBJECT, AccessShare, 0),
];

/// The rows of `part`. Where memory is refused, no row is listed and a second attempt is made.
fn rows_of<P: PartTable>(
    rt: &impl Abort,
    alloc: Global,
    part: &P,
) -> Result<Vec<TableRow>, NoMemory> {
    let mut rows = Vec::new(alloc);
    if part.rows(&mut rows).is_err() {
        assert!(rt; rows.is_empty());
        part.rows(&mut rows)?;
    }
    Ok(rows)
}

/// Whether `rows` are those of the `expected` sessions, in this order, on `OBJECT`, in these modes, granted
/// (`true`) or awaited.
fn are_rows(rows: &[TableRow], expected: &[(u16, Mode, bool)]) -> bool {
    if rows.len() != expected.len() {
        return false;
    }
    for place in 0..expected.len() {
        let row = rows[place];
        let its = (row.session.number(), row.mode, row.granted);
        if its != expected[place] || row.tag != OBJECT {
            return false;
        }
    }
    true
}

const ROWS_OF_HOLDERS_WHO_WAIT: [(u16, Mode, bool); 4] = [
    (0, RowShare, true),
    (0, AccessShare, false),
    (1, Share, true),
    (1, AccessShare, false),
];

#[test]
fn waits_are_listed_behind_holds(rt: HostRuntime) -> Result<(), Fail> {
    let part = part_after(&rt, rt.alloc(), HOLDERS_WHO_WAIT.as_slice())?;
    let rows = rows_of(&rt, rt.alloc(), &part)?;
    assert!(rt; are_rows(rows.as_slice(), ROWS_OF_HOLDERS_WHO_WAIT.as_slice()));
    Ok(())
}

const ONE_WAITS_FOR_ANOTHER: [Step; 2] = [
    Step::Holds(0, OBJECT, Share),
    Step::Waits(1, OBJECT, Exclusive, 0),
];

// There is room in a copy for the hold that its wait becomes.
const THE_OTHER_GOES: [Step; 5] = [
    Step::Releases(0, OBJECT, Share),
    Step::Has(0, OBJECT, 0),
    Step::Wakes(OBJECT, &[(1, Exclusive)]),
    Step::Has(1, OBJECT, 0b1000_0000),
    Step::Queue(OBJECT, &[]),
];

/// Whether `part` and `other` have the same lists.
fn are_alike(part: &PlainPart, other: &PlainPart) -> bool {
    part.holds() == other.holds() && part.waits() == other.waits()
}

/// A copy of `part`, once `steps` were played on the copy. The test ends by `rt` where the copy isn't like
/// `part` at first.
fn copy_after(rt: &impl Abort, part: &PlainPart, steps: &[Step]) -> Result<PlainPart, Fail>
    requires { part.now.begun ≡ None }
{
    let mut copy = part.clone()?;
    assert!(rt; are_alike(&copy, part));
    play(rt, &mut copy, steps)?;
    Ok(copy)
}

/// Whether session 0 holds anything in `part`, and whether session 1 does.
fn holders(rt: &impl Abort, part: &PlainPart) -> (bool, bool) {
    let (a, b) = (session(rt, 0), session(rt, 1));
    (part.has_hold_of(a), part.has_hold_of(b))
}

#[test]
fn a_copy_is_a_part_of_its_own(rt: HostRuntime) -> Result<(), Fail> {
    let part = part_after(&rt, rt.alloc(), ONE_WAITS_FOR_ANOTHER.as_slice())?;
    let copy = copy_after(&rt, &part, THE_OTHER_GOES.as_slice())?;
    assert!(rt; holders(&rt, &copy) == (false, true));
    assert!(rt; holders(&rt, &part) == (true, false));
    assert!(rt; queue_is(&part, &OBJECT, &[1]));
    Ok(())
}

/// Whether `part` has nothing in it.
fn is_empty(part: &PlainPart) -> bool {
    part.holds().is_empty() && part.waits().is_empty()
}

#[test]
fn a_new_table_has_sixteen_empty_parts(rt: HostRuntime) -> Result<(), Fail> {
    let parts = empty_parts(rt.alloc(), PlainPart::new)?;
    assert!(rt; parts.len() == 16);
    for part in &parts {
        assert!(rt; is_empty(part));
    }
    Ok(())
}
