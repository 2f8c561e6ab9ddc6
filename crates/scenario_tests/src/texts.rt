//! Every text that a script can print, by variant.
use lock_manager::{
    Acquired, How, Listing, Mode, Refusal, SessionId, SlotRow, TableRow, Tag, Unlocked,
};
use lock_script::{Fault, Name, Names};
use scenario::{Answer, Listener, Output, Row, Said, tell_answer};
use std::process::Abort;
use std::test::Fail;

fn name(rt: &impl Abort, text: &str) -> Name {
    Name::from(text).expect(rt, "a name")
}

#[test]
fn a_refusal_has_its_number_and_text(rt: HostRuntime) -> Result<(), Fail> {
    let mut names = Names::new(rt.alloc());
    names.sessions.push(name(&rt, "a"));
    names.sessions.push(name(&rt, "b"));
    let second = SessionId::new(1).expect(&rt, "a session number");
    for (refusal, text) in [
        (
            Refusal::Conflict {
                session: second,
                mode: Mode::RowShare,
                how: How::Held,
            },
            "a: refused 1 conflict b RowShareLock held\n",
        ),
        (
            Refusal::Conflict {
                session: second,
                mode: Mode::Exclusive,
                how: How::Awaited,
            },
            "a: refused 1 conflict b ExclusiveLock awaited\n",
        ),
        (Refusal::NoMemory, "a: refused 2 no memory\n"),
        (Refusal::LocalFull, "a: refused 3 local table full\n"),
        (Refusal::CountFull, "a: refused 4 count full\n"),
        (
            Refusal::SimpleDeadlock { session: second },
            "a: refused 5 simple deadlock b\n",
        ),
        (Refusal::Cancelled, "a: refused 6 cancelled\n"),
        (Refusal::NotHeld, "a: refused 7 not held\n"),
        (Refusal::Busy, "a: refused 8 busy\n"),
        (Refusal::SlotsFull, "a: refused 9 slots full\n"),
        (
            Refusal::StrongCounted,
            "a: refused 10 strong lock counted\n",
        ),
        (Refusal::NotEligible, "a: refused 11 not eligible\n"),
        (Refusal::NoMoreSessions, "a: refused 12 no more sessions\n"),
        (Refusal::BadConfig, "a: refused 13 bad config\n"),
        (Refusal::TooDeep, "a: refused 15 too deep\n"),
        (Refusal::NoNested, "a: refused 16 no nested transaction\n"),
    ] {
        let mut printed = Vec::new(rt.alloc());
        let mut output = Output::new(&mut printed);
        let written = output.said(&names, name(&rt, "a"), Said::Refused(refusal));
        assert!(rt; written == Ok(()));
        drop(output);
        assert_eq!(rt; printed.as_slice(), text.as_bytes());
    }
    Ok(())
}

/// Prints on `output` answers to a session, one of each variant.
fn print_said<H: AllocGlobal + Abort>(
    rt: &H,
    output: &mut Output<&mut Vec<u8>>,
) -> Result<(), Fault> {
    let names = Names::new(rt.alloc());
    let b = name(rt, "b");
    for said in [
        Said::Acquired(Acquired::Granted),
        Said::Acquired(Acquired::AlreadyHeld),
        Said::Waits,
        Said::GrantedAfterWaiting,
        Said::Cancelled,
        Said::Asked(name(rt, "c")),
        Said::Waiters(true),
        Said::Waiters(false),
        Said::Unlocked(Unlocked::Released),
        Said::Unlocked(Unlocked::StillHeld),
        Said::Committed,
        Said::Aborted,
        Said::Closed,
        Said::Level(16),
        Said::Owned {
            of_transaction: 12,
            of_session: 65_535,
        },
        Said::NotOwned(Mode::ShareRowExclusive),
    ] {
        output.said(&names, b, said)?;
    }
    Ok(())
}

/// Prints on `output` rows that name no session by its number.
fn print_rows<H: AllocGlobal + Abort>(
    rt: &H,
    output: &mut Output<&mut Vec<u8>>,
) -> Result<(), Fault> {
    let names = Names::new(rt.alloc());
    for row in [
        Row::NotWaiting(name(rt, "b")),
        Row::Rows(3),
        Row::Waits(2),
        Row::Counter { index: 0, shown: 0 },
        Row::Counter {
            index: 1_023,
            shown: u64::MAX,
        },
    ] {
        output.row(&names, row)?;
    }
    output.end_line()
}

#[test]
fn an_answer_has_its_text(rt: HostRuntime) -> Result<(), Fail> {
    let mut printed = Vec::new(rt.alloc());
    let mut output = Output::new(&mut printed);
    assert!(rt; print_said(&rt, &mut output) == Ok(()));
    assert!(rt; print_rows(&rt, &mut output) == Ok(()));
    drop(output);
    let text = "b: granted\nb: already held\nb: waits\n\
                b: granted after waiting\nb: cancelled\nb: asked c\n\
                b: waiters yes\nb: waiters no\nb: released\nb: still held\nb: committed\nb: aborted\n\
                b: closed\nb: level 16\nb: transaction 12 session 65535\n\
                b: you don't own a lock of type ShareRowExclusiveLock\n\
                b isn't waiting\nrows 3\nwaits 2\n\
                strong 0 0\nstrong 1023 18446744073709551615\n";
    assert_eq!(rt; printed.as_slice(), text.as_bytes());
    Ok(())
}

#[test]
fn a_row_has_its_text(rt: HostRuntime) -> Result<(), Fail> {
    let alloc = rt.alloc();
    let mut names = Names::new(alloc);
    names.sessions.push(name(&rt, "a"));
    let session = SessionId::new(0).expect(&rt, "a session number");
    let mut listing = Listing {
        fast: Vec::new(alloc),
        table: Vec::new(alloc),
    };
    listing.fast.push(SlotRow {
        session,
        slot: 15,
        tag: Tag::relation(5, 16384),
        mode: Mode::RowExclusive,
    })?;
    for granted in [true, false] {
        listing.table.push(TableRow {
            session,
            tag: Tag::object(5, 1259, 16384, 3),
            mode: Mode::ShareUpdateExclusive,
            granted,
        })?;
    }
    let mut printed = Vec::new(alloc);
    let mut output = Output::new(&mut printed);
    let answer = Answer::Listing(listing);
    assert!(rt; tell_answer(&mut output, &names, &answer) == Ok(()));
    drop(output);
    let text = "fast a 15 5/16384 RowExclusiveLock\n\
                table a 5/1259/16384/3 ShareUpdateExclusiveLock granted\n\
                table a 5/1259/16384/3 ShareUpdateExclusiveLock awaited\nrows 3\n";
    assert_eq!(rt; printed.as_slice(), text.as_bytes());
    Ok(())
}
