//! One list of random calls over both keepers of a partition.

ghost use Rattle.std.specs.Prelude.{◌≡◌, None};

use super::calls::{Outcome, are_same, ask, release};
use lock_records::RecordPart;
use lock_table::{NoMemory, PartTable, PlainPart, TableRow};
use modes_core::{Mode, SessionId, Tag};
use rand_core::{Rng, SeedableRng};
use rand_xoshiro::Xoshiro256PlusPlus;
use std::alloc::Global;
use std::process::Abort;
use std::test::Fail;

/// How many calls are made with both keepers.
const CALLS: u32 = 100_000;

/// The tag numbered `number` of twelve.
fn object(number: u32) -> Tag {
    if number % 3 == 0 {
        Tag::relation(5, 16384 + number % 4)
    } else {
        Tag::object(5, 1259, 16384 + number % 4, 0)
    }
}

/// A lock mode chosen by `number`: equal numbers choose equal modes.
fn mode_of(rt: &impl Abort, number: u32) -> Mode {
    Mode::from_number((number % 8) as u8 + 1).expect(rt, "a mode")
}

/// A session chosen by `number`, one of sixteen: equal numbers choose equal sessions.
fn session_of(rt: &impl Abort, number: u32) -> SessionId {
    SessionId::new((number % 16) as u16).expect(rt, "a session")
}

/// Makes the call that `random` chooses on both keepers, `plain` and `records`, and ends the test unless
/// their answers are alike.
fn call_both(
    rt: &impl Abort,
    plain: &mut PlainPart,
    records: &mut RecordPart,
    random: u32,
) -> Result<(), NoMemory>
    requires plain { plain.old.begun ≡ None }
    requires records { records.old.begun ≡ None }
    ensures plain { plain.new.begun ≡ None }
    ensures records { records.new.begun ≡ None }
{
    let tag = object(random >> 8);
    let session = session_of(rt, random >> 16);
    let mode = mode_of(rt, random >> 24);
    let place = (random % 5) as usize;
    match random % 16 {
        0..=4 => {
            let one = ask(plain, session, &tag, mode, Outcome::HoldsBeside)?;
            let other = ask(records, session, &tag, mode, Outcome::HoldsBeside)?;
            assert!(rt; one == other, "a request");
        }
        5 => {
            let one = ask(plain, session, &tag, mode, Outcome::Holds)?;
            let other = ask(records, session, &tag, mode, Outcome::Holds)?;
            assert!(rt; one == other, "a hold");
        }
        6..=8 => {
            let one = release(plain, session, &tag, mode);
            let other = release(records, session, &tag, mode);
            assert!(rt; one == other, "a release");
        }
        9..=11 => {
            let one = ask(plain, session, &tag, mode, Outcome::Waits(place))?;
            let other = ask(records, session, &tag, mode, Outcome::Waits(place))?;
            assert!(rt; one == other, "a wait");
        }
        12 => {
            let one = plain.leave(session, &tag);
            let other = records.leave(session, &tag);
            assert!(rt; one == other, "who leaves");
        }
        13 => {
            plain.wake(&tag);
            records.wake(&tag);
            let same = are_same(plain.woken(), records.woken());
            assert!(rt; same, "a wakeup");
        }
        14 => {
            let one = plain.waiter(&tag, place);
            let other = records.waiter(&tag, place);
            assert!(rt; one == other, "a waiter");
        }
        _ => {
            let one = plain.held(session, &tag);
            let other = records.held(session, &tag);
            assert!(rt; one == other, "the modes held");
        }
    }
    let one = plain.conflict_of(session, &tag, mode);
    let other = records.conflict_of(session, &tag, mode);
    assert!(rt; one == other, "a conflict");
    Ok(())
}

/// Ends the test unless `plain` and `records` list the same rows.
fn list_both(
    rt: &impl Abort,
    alloc: Global,
    plain: &PlainPart,
    records: &RecordPart,
) -> Result<(), NoMemory> {
    let mut one: Vec<TableRow> = Vec::new(alloc);
    let mut other: Vec<TableRow> = Vec::new(alloc);
    plain.rows(&mut one)?;
    records.rows(&mut other)?;
    let same = one == other;
    assert!(rt; same, "the rows");
    Ok(())
}

/// Makes all calls of the test on both keepers, `plain` and `records`, and compares their rows after each
/// hundredth call.
fn call_in_turn(
    rt: &impl Abort,
    alloc: Global,
    plain: &mut PlainPart,
    records: &mut RecordPart,
) -> Result<(), NoMemory>
    requires plain { plain.old.begun ≡ None }
    requires records { records.old.begun ≡ None }
{
    let mut generator = Xoshiro256PlusPlus::seed_from_u64(20_261_126);
    'calls: for number in 0..CALLS {
        call_both(rt, plain, records, generator.next_u32())?;
        if number % 100 == 99 {
            list_both(rt, alloc, plain, records)?;
        }
    }
    Ok(())
}

#[test]
fn both_keepers_answer_the_same(rt: HostRuntime) -> Result<(), Fail> {
    let mut plain = PlainPart::new(rt.alloc())?;
    let mut records = RecordPart::new(rt.alloc())?;
    call_in_turn(&rt, rt.alloc(), &mut plain, &mut records)?;
    Ok(())
}
