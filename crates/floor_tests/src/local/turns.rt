//! Calls of a local table, and what they are answered: a test is a list of turns.

use super::acquires::{acquire, next};
use local_locks::{Acquired, AtOnce, End, LocalTable, Unlocked};
use modes_core::{Mode, Owner, Refusal, Tag};
use std::process::Abort;

/// A call of a local table.
#[derive(Clone, Copy)]
pub enum Call {
    /// An acquire by `reserve` and `add`.
    Acquire(Tag, Mode, Owner),
    AddHeld(Tag, Mode, Owner),
    AddAtOnce(Tag, Mode, Owner),
    /// Whether one more local entry can be made with neither a refusal nor a growth.
    CanAdd,
    Drop(Tag, Mode, Owner),
    DropAtOnce(Tag, Mode, Owner),
    /// How often the owner has the mode on the object.
    Count(Tag, Mode, Owner),
    /// How often both owners together have the mode on the object.
    Total(Tag, Mode),
    /// The next local entry that the end takes away.
    Next(End),
    /// How many local entries the table has.
    Entries,
}

/// What a call of a local table is answered.
#[derive(Clone, Copy, PartialEq, Eq)]
pub enum Answer {
    Granted,
    AlreadyHeld,
    NotHeld,
    Unknown,
    Can(bool),
    Released,
    StillHeld,
    Refused(Refusal),
    Number(u32),
    Ends(Tag, Mode),
    IsOver,
}

/// How often a call is made, the call, and what it is answered each time.
pub type Turn = (u32, Call, Answer);

/// The `Answer` that `answer`, to an acquire, is in a list of turns.
fn acquired(answer: Result<Acquired, Refusal>) -> Answer {
    match answer {
        Ok(Acquired::Granted) => Answer::Granted,
        Ok(Acquired::AlreadyHeld) => Answer::AlreadyHeld,
        Err(refusal) => Answer::Refused(refusal),
    }
}

/// The `Answer` that `answer`, to `add_held`, is in a list of turns.
fn counted(answer: Result<bool, Refusal>) -> Answer {
    match answer {
        Ok(true) => Answer::AlreadyHeld,
        Ok(false) => Answer::NotHeld,
        Err(refusal) => Answer::Refused(refusal),
    }
}

/// The `Answer` that `answer`, to `add_at_once`, is in a list of turns.
fn known(answer: AtOnce) -> Answer {
    match answer {
        AtOnce::AlreadyHeld => Answer::AlreadyHeld,
        AtOnce::NotHeld => Answer::NotHeld,
        AtOnce::Unknown => Answer::Unknown,
    }
}

/// The `Answer` that `answer`, to a release, is in a list of turns.
fn released(answer: Result<Unlocked, Refusal>) -> Answer {
    match answer {
        Ok(Unlocked::Released) => Answer::Released,
        Ok(Unlocked::StillHeld) => Answer::StillHeld,
        Err(refusal) => Answer::Refused(refusal),
    }
}

/// The `Answer` that `answer`, to `drop_at_once`, is in a list of turns: `Unknown` where one look at a slot
/// doesn't decide it.
fn released_at_once(answer: Option<Unlocked>) -> Answer {
    match answer {
        Some(answer) => released(Ok(answer)),
        None => Answer::Unknown,
    }
}

/// The `Answer` that `answer`, to the next step of an end, is in a list of turns.
fn ended(answer: Option<(Tag, Mode)>) -> Answer {
    match answer {
        Some((tag, mode)) => Answer::Ends(tag, mode),
        None => Answer::IsOver,
    }
}

/// How many entries `table` has.
pub fn entries_of(table: &LocalTable) -> u32 {
    let mut number = 0u32;
    for _ in table.entries() {
        number = number.wrapping_add(1);
    }
    number
}

/// Makes `call` on `table`, and answers what `table` answered, as a list of turns has it.
fn make(rt: &impl Abort, table: &mut LocalTable, call: Call) -> Answer {
    match call {
        Call::Acquire(tag, mode, owner) => acquired(acquire(rt, table, tag, mode, owner)),
        Call::AddHeld(tag, mode, owner) => counted(table.add_held(&tag, mode, owner)),
        Call::AddAtOnce(tag, mode, owner) => known(table.add_at_once(&tag, mode, owner)),
        Call::CanAdd => Answer::Can(table.can_add()),
        Call::DropAtOnce(tag, mode, owner) => {
            released_at_once(table.drop_at_once(&tag, mode, owner))
        }
        Call::Drop(tag, mode, owner) => released(table.drop_one(tag, mode, owner)),
        Call::Count(tag, mode, owner) => {
            Answer::Number(u32::from(table.owner_count(tag, mode, owner)))
        }
        Call::Total(tag, mode) => Answer::Number(table.total(tag, mode)),
        Call::Next(end) => ended(next(rt, table, end)),
        Call::Entries => Answer::Number(entries_of(table)),
    }
}

/// Makes the call of `turn` in `table` as often as `turn` says, and answers whether each answer is the one
/// that `turn` says.
fn take(rt: &impl Abort, table: &mut LocalTable, turn: Turn) -> bool {
    let (times, call, answer) = turn;
    for _ in 0..times {
        if make(rt, table, call) != answer {
            return false;
        }
    }
    true
}

/// Plays all `turns` in `table`, in order.
pub fn play(rt: &impl Abort, table: &mut LocalTable, turns: &[Turn]) {
    for place in 0..turns.len() {
        let is_right = take(rt, table, turns[place]);
        assert!(rt; is_right, "turn {place}");
    }
}
