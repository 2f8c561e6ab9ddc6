//! Two holders and one who waits, and what the records count of them; many sessions, and many objects.

ghost use Rattle.std.specs.Prelude.{◌≡◌, None, IfOk};

use super::calls::Outcome::{Holds, Waits};
use super::calls::{ask, release};
use crate::fixtures::{OBJECT, session};
use lock_records::{Counts, RecordPart};
use lock_table::{NoMemory, PartTable};
use modes_core::Mode::{AccessExclusive, AccessShare};
use modes_core::{Mode, Tag};
use std::process::Abort;
use std::test::Fail;

/// What `part` counts of the object of most tests, `OBJECT`.
fn counted(rt: &impl Abort, part: &RecordPart) -> Counts {
    part.counts(&OBJECT).expect(rt, "a lock record")
}

/// The entry of `numbers` for `mode`: its place is the number of `mode`.
fn at(numbers: [u16; 9], mode: Mode) -> u16 {
    numbers[usize::from(mode.number())]
}

#[test]
fn two_hold_and_one_waits(rt: HostRuntime) -> Result<(), Fail> {
    let mut part = RecordPart::new(rt.alloc())?;
    let (first, second, third) = (session(&rt, 0), session(&rt, 1), session(&rt, 2));
    ask(&mut part, first, &OBJECT, AccessShare, Holds)?;
    ask(&mut part, second, &OBJECT, AccessShare, Holds)?;
    ask(&mut part, third, &OBJECT, AccessExclusive, Waits(0))?;
    let counts = counted(&rt, &part);
    assert_eq!(&rt; at(counts.granted, AccessShare), 2);
    assert_eq!(&rt; at(counts.requested, AccessShare), 2);
    assert_eq!(&rt; at(counts.requested, AccessExclusive), 1);
    assert_eq!(&rt; counts.granted_total, 2);
    assert_eq!(&rt; counts.requested_total, 3);
    assert_eq!(&rt; counts.grant_mask.mask(), 0x2);
    assert_eq!(&rt; counts.wait_mask.mask(), 0x100);
    release(&mut part, first, &OBJECT, AccessShare);
    release(&mut part, second, &OBJECT, AccessShare);
    part.wake(&OBJECT);
    let counts = counted(&rt, &part);
    assert_eq!(&rt; at(counts.granted, AccessExclusive), 1);
    assert_eq!(&rt; at(counts.requested, AccessExclusive), 1);
    assert_eq!(&rt; at(counts.granted, AccessShare), 0);
    assert_eq!(&rt; counts.grant_mask.mask(), 0x100);
    assert_eq!(&rt; counts.wait_mask.mask(), 0);
    release(&mut part, third, &OBJECT, AccessExclusive);
    assert!(&rt; part.counts(&OBJECT).is_none());
    Ok(())
}

/// Has all sessions hold `OBJECT` in `part`, and all but the first session wait for it.
fn crowd(rt: &impl Abort, part: &mut RecordPart) -> Result<(), NoMemory>
    requires none_begun { part.old.begun ≡ None }
    ensures none_begun { part.new.begun ≡ None }
{
    'sessions: for number in 0..64u16 {
        let its = session(rt, number);
        ask(part, its, &OBJECT, AccessShare, Holds)?;
        if number > 0 {
            let place = usize::from(number) - 1;
            ask(part, its, &OBJECT, AccessExclusive, Waits(place))?;
        }
    }
    Ok(())
}

#[test]
fn all_sessions_hold_and_all_but_one_wait(rt: HostRuntime) -> Result<(), Fail> {
    let mut part = RecordPart::new(rt.alloc())?;
    crowd(&rt, &mut part)?;
    let counts = counted(&rt, &part);
    assert_eq!(&rt; counts.granted_total, 64);
    assert_eq!(&rt; counts.requested_total, 127);
    for number in 0..64u16 {
        release(&mut part, session(&rt, number), &OBJECT, AccessShare);
    }
    part.wake(&OBJECT);
    let counts = counted(&rt, &part);
    assert_eq!(&rt; counts.granted_total, 1);
    assert_eq!(&rt; counts.requested_total, 63);
    assert_eq!(&rt; part.held(session(&rt, 1), &OBJECT).mask(), 0x100);
    Ok(())
}

/// How many objects are held at once.
const OBJECTS: u32 = 10_000;

/// The tag of the object numbered `number`. All of them lie in one partition.
fn object(number: u32) -> Tag {
    Tag::object(5, 1259, number.wrapping_mul(16), 0)
}

/// Has the first session hold each object in `part`.
fn hold_all(rt: &impl Abort, part: &mut RecordPart) -> Result<(), NoMemory>
    requires none_begun { part.old.begun ≡ None }
    ensures none_begun { part.new.begun ≡ None }
{
    'objects: for number in 0..OBJECTS {
        let held = ask(
            part,
            session(rt, 0),
            &object(number),
            AccessExclusive,
            Holds,
        )?;
        assert!(rt; held, "{number}");
    }
    Ok(())
}

#[test]
fn ten_thousand_objects_lie_in_one_partition(rt: HostRuntime) -> Result<(), Fail> {
    let mut part = RecordPart::new(rt.alloc())?;
    hold_all(&rt, &mut part)?;
    let mut rows = Vec::new(rt.alloc());
    part.rows(&mut rows)?;
    assert_eq!(&rt; rows.len(), OBJECTS as usize);
    for number in 0..OBJECTS {
        let left = release(&mut part, session(&rt, 0), &object(number), AccessExclusive);
        assert!(&rt; left, "{number}");
    }
    rows.clear();
    part.rows(&mut rows)?;
    assert!(&rt; rows.is_empty());
    Ok(())
}
