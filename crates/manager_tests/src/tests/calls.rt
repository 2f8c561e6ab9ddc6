//! Calls of a session, with what they are to be answered.

use lock_manager::{Acquired, Answer, Call, OwnSession, Unlocked};
use lock_table::PartTable;
use shared_rule::Board;
use std::process::Abort;
use std::sync::Wait;

/// What a call is to be answered.
#[derive(Clone, Copy, PartialEq, Eq)]
pub enum Expected {
    Acquired(Acquired),
    Unlocked(Unlocked),
    /// The refusal of this number.
    Refused(u8),
    Ended,
    /// The modes that the session has, as a mask.
    Held(u16),
    Times(u16),
}

/// What `answer` is, if it is one that is expected of some call.
fn shown(answer: &Answer) -> Option<Expected> {
    match answer {
        Answer::Acquired(Ok(acquired)) => Some(Expected::Acquired(*acquired)),
        Answer::Acquired(Err(refusal)) => Some(Expected::Refused(refusal.number())),
        Answer::Unlocked(Ok(unlocked)) => Some(Expected::Unlocked(*unlocked)),
        Answer::Unlocked(Err(refusal)) => Some(Expected::Refused(refusal.number())),
        Answer::Ended => Some(Expected::Ended),
        Answer::Held(modes) => Some(Expected::Held(modes.mask())),
        Answer::OwnerCount(times) => Some(Expected::Times(*times)),
        _ => None,
    }
}

/// Makes the call at `place` of a list with `session`: `call`, `times` times, which is to be answered
/// `expected`.
pub fn make_often<T: PartTable, B: Board<T>, R: Abort + Wait>(
    rt: &R,
    session: &mut OwnSession<T, B>,
    times: u32,
    call: &Call,
    expected: Expected,
    place: usize,
) {
    for time in 0..times {
        let answer = session.make(rt, *call);
        let is_right = shown(&answer) == Some(expected);
        assert!(rt; is_right, "call {place}, for the time {time}");
    }
}
