//! Lists of turns.

ghost use Rattle.std.specs.Prelude.{◌≤◌};

use super::acquires::new_table;
use super::turns::Answer::{
    AlreadyHeld, Can, Ends, Granted, IsOver, NotHeld, Number, Refused, Released, StillHeld, Unknown,
};
use super::turns::Call::{
    Acquire, AddAtOnce, AddHeld, CanAdd, Count, DropAtOnce, Entries, Next, Total,
};
use super::turns::{Call, Turn, play};
use crate::fixtures::{ADVISORY, ANOTHER_OBJECT, OBJECT};
use local_locks::End;
use modes_core::Mode::{AccessShare, Exclusive, RowExclusive, RowShare, Share};
use modes_core::Owner::{Session, Transaction};
use modes_core::Refusal::{CountFull, LocalFull};
use modes_core::{Refusal, Tag};
use std::alloc::Global;
use std::process::Abort;

/// The relation numbered one above `OBJECT`.
const NEXT_OBJECT: Tag = Tag::Relation {
    database: 5,
    relation: 16385,
};

const ABORT_KEEPS_THE_SESSIONS_ADVISORY_LOCKS: [Turn; 13] = [
    (1, Acquire(ADVISORY, Exclusive, Session), Granted),
    (1, Acquire(OBJECT, AccessShare, Session), Granted),
    (1, Acquire(ADVISORY, Exclusive, Transaction), AlreadyHeld),
    (1, Acquire(ADVISORY, Share, Transaction), Granted),
    (1, Next(End::Abort), Ends(OBJECT, AccessShare)),
    (1, Next(End::Abort), Ends(ADVISORY, Share)),
    (1, Next(End::Abort), IsOver),
    (1, Entries, Number(1)),
    (1, Count(ADVISORY, Exclusive, Transaction), Number(0)),
    (1, Count(ADVISORY, Exclusive, Session), Number(1)),
    (1, Next(End::Commit), IsOver),
    (1, Next(End::Close), Ends(ADVISORY, Exclusive)),
    (1, Next(End::Close), IsOver),
];

const COMMIT_KEEPS_WHAT_THE_SESSION_OWNS: [Turn; 13] = [
    (1, Acquire(OBJECT, AccessShare, Transaction), Granted),
    (1, Acquire(NEXT_OBJECT, RowExclusive, Transaction), Granted),
    (1, Acquire(NEXT_OBJECT, RowExclusive, Session), AlreadyHeld),
    (1, Acquire(OBJECT, RowShare, Transaction), Granted),
    (1, Next(End::Commit), Ends(OBJECT, AccessShare)),
    (1, Next(End::Commit), Ends(OBJECT, RowShare)),
    (1, Next(End::Commit), IsOver),
    (1, Entries, Number(1)),
    (1, Count(NEXT_OBJECT, RowExclusive, Transaction), Number(0)),
    (1, Count(NEXT_OBJECT, RowExclusive, Session), Number(1)),
    (1, Next(End::Abort), Ends(NEXT_OBJECT, RowExclusive)),
    (1, Next(End::Abort), IsOver),
    (1, Next(End::Close), IsOver),
];

const ONE_LOOK_SHOWS_WHAT_A_RELATION_IS_HELD_IN: [Turn; 14] = [
    (1, CanAdd, Can(true)),
    (1, AddAtOnce(OBJECT, AccessShare, Transaction), NotHeld),
    (1, Acquire(OBJECT, AccessShare, Transaction), Granted),
    (1, AddAtOnce(OBJECT, AccessShare, Transaction), AlreadyHeld),
    (1, AddAtOnce(OBJECT, AccessShare, Session), Unknown),
    (1, AddHeld(OBJECT, AccessShare, Session), AlreadyHeld),
    (1, Total(OBJECT, AccessShare), Number(3)),
    (1, DropAtOnce(OBJECT, AccessShare, Transaction), StillHeld),
    // Both owners have it once now.
    (1, DropAtOnce(OBJECT, AccessShare, Transaction), Unknown),
    (1, Call::Drop(OBJECT, AccessShare, Session), StillHeld),
    (1, DropAtOnce(OBJECT, AccessShare, Session), Unknown),
    (1, DropAtOnce(OBJECT, AccessShare, Transaction), Released),
    (1, DropAtOnce(OBJECT, AccessShare, Transaction), Unknown),
    (1, Entries, Number(0)),
];

/// Turns that reach both limits: an owner counts to 65,535, and the table of these turns has two entries at
/// most.
const THE_LIMITS_ARE_KEPT: [Turn; 15] = [
    (1, Acquire(ANOTHER_OBJECT, Share, Transaction), Granted),
    (
        65_534,
        Acquire(ANOTHER_OBJECT, Share, Transaction),
        AlreadyHeld,
    ),
    (
        1,
        Acquire(ANOTHER_OBJECT, Share, Transaction),
        Refused(CountFull),
    ),
    (
        1,
        AddHeld(ANOTHER_OBJECT, Share, Transaction),
        Refused(CountFull),
    ),
    (1, AddHeld(ANOTHER_OBJECT, Share, Session), AlreadyHeld),
    (1, Total(ANOTHER_OBJECT, Share), Number(65_536)),
    (1, Acquire(ANOTHER_OBJECT, Exclusive, Session), Granted),
    (1, CanAdd, Can(false)),
    (
        1,
        Acquire(ANOTHER_OBJECT, AccessShare, Session),
        Refused(LocalFull),
    ),
    (
        1,
        Call::Drop(ANOTHER_OBJECT, AccessShare, Session),
        Refused(Refusal::NotHeld),
    ),
    (
        1,
        Call::Drop(ANOTHER_OBJECT, Exclusive, Transaction),
        Refused(Refusal::NotHeld),
    ),
    (1, Call::Drop(ANOTHER_OBJECT, Share, Session), StillHeld),
    (1, Call::Drop(ANOTHER_OBJECT, Exclusive, Session), Released),
    (1, CanAdd, Can(true)),
    (1, Acquire(ANOTHER_OBJECT, AccessShare, Session), Granted),
];

/// Ends the test unless a new table of `max_local` entries answers the calls of `turns` as these say.
fn run(rt: &impl Abort, alloc: Global, max_local: u32, turns: &[Turn])
    requires from { 1 ≤ max_local }
    requires to { max_local ≤ 65536 }
{
    let mut table = new_table(rt, alloc, max_local);
    play(rt, &mut table, turns);
}

#[test]
fn commit_keeps_what_the_session_owns(rt: HostRuntime) {
    run(
        &rt,
        rt.alloc(),
        1024,
        COMMIT_KEEPS_WHAT_THE_SESSION_OWNS.as_slice(),
    );
}

#[test]
fn abort_keeps_the_sessions_advisory_locks(rt: HostRuntime) {
    run(
        &rt,
        rt.alloc(),
        1024,
        ABORT_KEEPS_THE_SESSIONS_ADVISORY_LOCKS.as_slice(),
    );
}

#[test]
fn one_look_shows_what_a_relation_is_held_in(rt: HostRuntime) {
    run(
        &rt,
        rt.alloc(),
        1024,
        ONE_LOOK_SHOWS_WHAT_A_RELATION_IS_HELD_IN.as_slice(),
    );
}

#[test]
fn the_limits_are_kept(rt: HostRuntime) {
    run(&rt, rt.alloc(), 2, THE_LIMITS_ARE_KEPT.as_slice());
}
