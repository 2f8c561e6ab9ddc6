//! Each fault with its text and the status that a program ends with.

use lock_script::{Defect, Fault};
use std::alloc::{AllocError, Global};
use std::test::Fail;

/// Each defect, and the text of the fault that line 7 has the defect.
const DEFECTS: [(Defect, &str); 15] = [
    (Defect::TooManyLines, "line 7: too many lines"),
    (Defect::LineTooLong, "line 7: line too long"),
    (Defect::NotAsciiText, "line 7: not ASCII text"),
    (Defect::UnknownCommand, "line 7: unknown command"),
    (Defect::WrongNumberOfWords, "line 7: wrong number of words"),
    (Defect::BadName, "line 7: bad name"),
    (Defect::SessionExists, "line 7: session exists"),
    (Defect::NoSuchSession, "line 7: no such session"),
    (Defect::SessionWaits, "line 7: session waits"),
    (Defect::BadNumber, "line 7: bad number"),
    (Defect::BadObject, "line 7: bad object"),
    (Defect::BadMode, "line 7: bad mode"),
    (Defect::NameExists, "line 7: name exists"),
    (Defect::ObjectNamed, "line 7: object has a name"),
    (Defect::BadOwner, "line 7: bad owner"),
];

/// Each fault that is not of a line, and its text.
const FAULTS: [(Fault, &str); 4] = [
    (Fault::ReadFailed, "read failed"),
    (Fault::WriteFailed, "write failed"),
    (Fault::NoMemory, "no memory"),
    (Fault::GateHeld, "gate held"),
];

/// Whether `fault` prints as `text`, and the status for it.
fn printed(alloc: Global, fault: Fault, text: &str) -> Result<(bool, u8), AllocError> {
    let printed = fault.to_string(alloc)?;
    Ok((printed.as_str() == text, fault.status()))
}

#[test]
fn a_bad_line_has_its_text_and_status(rt: HostRuntime) -> Result<(), Fail> {
    for (what, text) in DEFECTS {
        let fault = Fault::BadLine { line: 7, what };
        assert!(rt; printed(rt.alloc(), fault, text)? == (true, 3), "{text}");
    }
    Ok(())
}

#[test]
fn a_fault_has_its_text_and_status(rt: HostRuntime) -> Result<(), Fail> {
    for (fault, text) in FAULTS {
        assert!(rt; printed(rt.alloc(), fault, text)? == (true, 1), "{text}");
    }
    Ok(())
}
