//! As many local entries as there may be, of one session and of all: granted, counted, listed and given back.

use super::answers::expect_rows;
use super::audits::{NOTHING, Numbers, count, end_each};
use super::desk::{Beginning, open_many};
use super::sessions::{list, take_tag, try_lock};
use connections::{Connection, DeskOf, ManagerName};
use lock_manager::{Board, Desk, Mode, OwnSession, Owner, Part, Refusal, Tag};
use std::alloc::Global;
use std::process::Abort;
use std::sync::Wait;

/// How many local entries each session has in its fast-path slots.
const BY_SLOT: u32 = 16;

/// How many sessions a manager has, and how many entries each of them has. Each takes more modes than it has
/// room for in slots.
#[derive(Clone, Copy)]
pub struct Limits {
    pub sessions: u32,
    pub entries: u32,
}

impl Limits {
    /// How many modes are in slots and in the table, where each session has all that it may have.
    fn held(self) -> Numbers {
        let (sessions, by_slot) = (u64::from(self.sessions), u64::from(BY_SLOT));
        let in_table = u64::from(self.entries).saturating_sub(by_slot);
        (sessions * by_slot, sessions * in_table, 0)
    }
}

/// What the entry numbered `number` of `session` locks: the first ones go by slots, and the others, which no
/// other session has, are in the table.
fn entry(session: u16, number: u32) -> (Tag, Mode) {
    if number < BY_SLOT {
        (Tag::relation(5, number), Mode::AccessShare)
    } else {
        (Tag::object(5, 1_259, number, session), Mode::Exclusive)
    }
}

/// Takes `entries` modes with `connection`, and is refused one more.
pub fn fill<B: Board<Part>, M: ManagerName, R: Abort + Wait>(
    rt: &R,
    connection: &mut Connection<B, M>,
    entries: u32,
) {
    let number = connection.session.id().number();
    for at in 0..entries {
        let (tag, mode) = entry(number, at);
        take_tag(rt, connection, tag, mode, Owner::Transaction);
    }
    let (tag, mode) = entry(number, entries);
    let answer = try_lock(rt, connection, tag, mode, Owner::Transaction);
    assert_eq!(rt; answer, Err(Refusal::LocalFull), "{entries} entries");
}

/// Lists with the last of `connections` what all have, which is to be `expected`.
pub fn list_all<B: Board<Part>, M: ManagerName, R: Abort + Wait>(
    rt: &R,
    connections: &mut Vec<Connection<B, M>>,
    expected: Numbers,
) {
    let (fast, table, _) = expected;
    if let Some(connection) = connections.last_mut() {
        let listing = list(rt, connection).expect(rt, "a listing");
        expect_rows(rt, &listing, fast as usize, table as usize);
    }
}

/// Has all sessions of `desk` take all that they may have by `limits`, which is counted and listed, and give
/// it back.
pub fn hold_all<B: Board<Part>, D: Desk<OwnSession<Part, B>>, M: ManagerName, R: Abort + Wait>(
    rt: &R,
    alloc: Global,
    desk: &mut DeskOf<B, D, M>,
    limits: Limits,
) {
    let begins = Beginning::Fills(limits.entries);
    let mut connections = open_many(rt, alloc, desk, limits.sessions, begins);
    let held = limits.held();
    count(rt, alloc, desk, &mut connections, held);
    list_all(rt, &mut connections, held);
    end_each(rt, connections.as_mut_slice(), true);
    count(rt, alloc, desk, &mut connections, NOTHING);
    desk.close_all(rt, connections);
}
