//! What calls are answered, beside what they are to be. These functions have no session: where one lives a
//! comparison is dearer to prove.

use lock_manager::{Acquired, Asked, Listing, Mode, Refusal, Tag, Unlocked};
use std::process::Abort;

/// What a request for a mode is answered.
pub type Answer = Result<Acquired, Refusal>;

/// Ends the test where `answer`, to a request, isn't `expected`.
pub fn expect_answer<R: Abort>(rt: &R, answer: Answer, expected: Answer) {
    assert_eq!(rt; answer, expected);
}

/// Ends the test where `answer`, to a request that may be given up, isn't `expected`.
pub fn expect_within<R: Abort>(
    rt: &R,
    answer: Result<Option<Acquired>, Refusal>,
    expected: Result<Option<Acquired>, Refusal>,
) {
    assert_eq!(rt; answer, expected);
}

/// Ends the test unless a session made a request that was answered `expected`, as `answer` says.
pub fn expect_acted<R: Abort>(rt: &R, answer: Option<Answer>, expected: Answer) {
    match answer {
        Some(answer) => expect_answer(rt, answer, expected),
        None => panic!(rt; "no request"),
    }
}

/// Ends the test where a look for waiters didn't see `expected`.
pub fn expect_seen<R: Abort>(
    rt: &R,
    answer: Result<bool, Refusal>,
    expected: Result<bool, Refusal>,
) {
    assert!(rt; answer == expected);
}

/// Ends the test where a request to cancel wasn't answered `expected`.
pub fn expect_asked<R: Abort>(rt: &R, answer: Asked, expected: Asked) {
    assert!(rt; answer == expected);
}

/// Ends the test unless `is_right`, and names `what` was wrong with `mode` on `tag`.
fn expect_with<R: Abort>(rt: &R, is_right: bool, tag: Tag, mode: Mode, what: &str) {
    assert!(rt; is_right, "{mode} of {tag} is {what}");
}

/// Ends the test where `answer`, to a request for `mode` on `tag`, isn't a grant.
pub fn expect_granted<R: Abort>(rt: &R, answer: Answer, tag: Tag, mode: Mode) {
    let is_granted = answer == Ok(Acquired::Granted);
    expect_with(rt, is_granted, tag, mode, "taken");
}

/// Ends the test where `answer`, to a release of `mode` on `tag`, isn't that of the last release of the mode.
pub fn expect_released<R: Abort>(rt: &R, answer: Result<Unlocked, Refusal>, tag: Tag, mode: Mode) {
    let is_released = answer == Ok(Unlocked::Released);
    expect_with(rt, is_released, tag, mode, "given back");
}

/// Ends the test where `listing` hasn't `fast` rows of slots and `table` rows of the table.
pub fn expect_rows<R: Abort>(rt: &R, listing: &Listing, fast: usize, table: usize) {
    assert_eq!(rt; listing.fast.len(), fast);
    assert_eq!(rt; listing.table.len(), table);
}
