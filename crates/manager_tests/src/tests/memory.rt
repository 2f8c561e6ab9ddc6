//! Want of memory is an answer, after which nothing is lost.

use super::answers::{Answer, expect_answer, expect_granted};
use super::desk::open;
use super::pair::Pair;
use super::sessions::{give_tag_back, list, try_lock};
use connections::{Connection, DeskOf, ManagerName};
use lock_manager::{
    Board, Desk, How, Listing, Mode, OwnSession, Owner, Part, Refusal, SessionId, SlotRow,
    TableRow, Tag,
};
use std::process::Abort;
use std::sync::Wait;

/// How many modes the one session takes.
pub const MANY: u32 = 300;

/// The tag of the object numbered `number`, which has a mode of its own, none of which is in the way of
/// another.
fn object(number: u32) -> (Tag, Mode) {
    let mode = Mode::ALL[(number % 8) as usize];
    (Tag::object(5, 1_259, number, 0), mode)
}

/// Whether `answer` says that there was no memory.
fn is_out_of_memory(answer: &Answer) -> bool {
    *answer == Err(Refusal::NoMemory)
}

/// Asks with `connection` for `tag` in `mode` for `owner`, and again where there was no memory. A refusal for
/// that leaves what `connection` had.
fn try_at_last<B: Board<Part>, M: ManagerName, R: Abort + Wait>(
    rt: &R,
    connection: &mut Connection<B, M>,
    tag: Tag,
    mode: Mode,
    owner: Owner,
) -> Answer {
    let held = connection.session.held(tag).mask();
    let answer = try_lock(rt, connection, tag, mode, owner);
    if !is_out_of_memory(&answer) {
        return answer;
    }
    assert_eq!(rt; connection.session.held(tag).mask(), held);
    try_lock(rt, connection, tag, mode, owner)
}

/// Takes `tag` in `mode` for `owner` with `connection`, at the second attempt where there was no memory.
pub fn take_at_last<B: Board<Part>, M: ManagerName, R: Abort + Wait>(
    rt: &R,
    connection: &mut Connection<B, M>,
    tag: Tag,
    mode: Mode,
    owner: Owner,
) {
    let answer = try_at_last(rt, connection, tag, mode, owner);
    expect_granted(rt, answer, tag, mode);
}

/// Takes as many modes with `connection` as `MANY` says, each at the second attempt where there was no
/// memory.
fn take_many<B: Board<Part>, M: ManagerName, R: Abort + Wait>(
    rt: &R,
    connection: &mut Connection<B, M>,
) {
    for number in 0..MANY {
        let (tag, mode) = object(number);
        take_at_last(rt, connection, tag, mode, Owner::Session);
    }
}

/// A listing by `connection`, at the second attempt where there was no memory.
pub fn list_at_last<B: Board<Part>, M: ManagerName, R: Abort + Wait>(
    rt: &R,
    connection: &mut Connection<B, M>,
) -> Listing {
    let mut listing = list(rt, connection);
    if listing.is_err() {
        listing = list(rt, connection);
    }
    listing.expect(rt, "one want of memory at most")
}

/// Sees that all that `connection` took are held and listed, and gives each back.
fn give_many_back<B: Board<Part>, M: ManagerName, R: Abort + Wait>(
    rt: &R,
    connection: &mut Connection<B, M>,
) {
    let rows = list_at_last(rt, connection).table.len();
    assert_eq!(rt; rows, MANY as usize);
    for number in 0..MANY {
        let (tag, mode) = object(number);
        give_tag_back(rt, connection, tag, mode, Owner::Session);
    }
}

/// Has a session of `desk` take many modes and give them back.
pub fn go_on<B: Board<Part>, D: Desk<OwnSession<Part, B>>, M: ManagerName, R: Abort + Wait>(
    rt: &R,
    desk: &mut DeskOf<B, D, M>,
) {
    let mut connection = open(rt, desk);
    take_many(rt, &mut connection);
    give_many_back(rt, &mut connection);
    desk.close(rt, connection);
}

const TABLE: Tag = Tag::Relation {
    database: 5,
    relation: 16_384,
};

/// How many times a strong mode is asked for.
const TRANSFERS: u32 = 6;

/// How many locks more the second session has in the partition of the table at each transfer. So the list of
/// holds grows now for the first mode that is moved, now for the second one, now for the strong mode.
const BESIDE: u32 = 3;

/// How many entries the second session has at the end.
pub const MOVED: u32 = TRANSFERS * BESIDE + 1;

/// How many of `rows`, those of slots, show the table in `mode`.
fn count_in_slots(rows: &[SlotRow], mode: Mode) -> u32 {
    let mut shown = 0u32;
    for row in rows {
        if row.tag == TABLE && row.mode == mode {
            shown = shown.saturating_add(1);
        }
    }
    shown
}

/// How many of the table's `rows` show the table in `mode`.
fn count_in_table(rows: &[TableRow], mode: Mode) -> u32 {
    let mut shown = 0u32;
    for row in rows {
        if row.tag == TABLE && row.mode == mode {
            shown = shown.saturating_add(1);
        }
    }
    shown
}

/// Ends the test unless `listing` has the weak `mode` of the table once, in a slot or in the table.
fn expect_once<R: Abort>(rt: &R, listing: &Listing, mode: Mode) {
    let in_slots = count_in_slots(listing.fast.as_slice(), mode);
    let in_table = count_in_table(listing.table.as_slice(), mode);
    assert_eq!(rt; in_slots.saturating_add(in_table), 1, "{mode}");
}

/// Sees with `connection` that nothing of a strong mode is left that was refused, and that the weak ones are
/// where they may be.
fn see_no_trace<B: Board<Part>, M: ManagerName, R: Abort + Wait>(
    rt: &R,
    connection: &mut Connection<B, M>,
) {
    assert_eq!(rt; connection.session.strong_count(TABLE.strong_index()), 0);
    let listing = list_at_last(rt, connection);
    expect_once(rt, &listing, Mode::AccessShare);
    expect_once(rt, &listing, Mode::RowExclusive);
}

/// Asks for the strong mode with `connection`, and again where there was no memory.
fn try_strong_at_last<B: Board<Part>, M: ManagerName, R: Abort + Wait>(
    rt: &R,
    connection: &mut Connection<B, M>,
) -> Answer {
    let answer = try_lock(rt, connection, TABLE, Mode::AccessExclusive, Owner::Session);
    if !is_out_of_memory(&answer) {
        return answer;
    }
    see_no_trace(rt, connection);
    try_lock(rt, connection, TABLE, Mode::AccessExclusive, Owner::Session)
}

/// Asks for the strong mode with `connection`, which the weak ones of `other` are in the way of.
fn ask_for_strong<B: Board<Part>, M: ManagerName, R: Abort + Wait>(
    rt: &R,
    connection: &mut Connection<B, M>,
    other: SessionId,
) {
    let answer = try_strong_at_last(rt, connection);
    let conflict = Refusal::Conflict {
        session: other,
        mode: Mode::AccessShare,
        how: How::Held,
    };
    expect_answer(rt, answer, Err(conflict));
    see_no_trace(rt, connection);
}

/// Has the first session of `pair` take two weak modes in a slot, the second one ask for a strong one, and
/// the first one give back.
fn move_once<B: Board<Part>, M: ManagerName, R: Abort + Wait>(rt: &R, pair: &mut Pair<B, M>) {
    let Pair { first, second } = pair;
    take_at_last(rt, first, TABLE, Mode::AccessShare, Owner::Session);
    take_at_last(rt, first, TABLE, Mode::RowExclusive, Owner::Session);
    assert_eq!(rt; list_at_last(rt, first).fast.len(), 2);
    ask_for_strong(rt, second, first.session.id());
    give_tag_back(rt, first, TABLE, Mode::AccessShare, Owner::Session);
    give_tag_back(rt, first, TABLE, Mode::RowExclusive, Owner::Session);
}

/// Takes further locks in the partition of the table with `connection`, others for each `transfer`.
fn take_beside<B: Board<Part>, M: ManagerName, R: Abort + Wait>(
    rt: &R,
    connection: &mut Connection<B, M>,
    transfer: u32,
) {
    for place in 0..BESIDE {
        let tag = Tag::relation(5, 32_768 | transfer << 6 | place << 4);
        assert_eq!(rt; tag.partition(), TABLE.partition());
        take_at_last(
            rt,
            connection,
            tag,
            Mode::ShareUpdateExclusive,
            Owner::Session,
        );
    }
}

/// Moves modes of `pair` out of their slots again and again, while the table's partition fills. At the end
/// nobody has the table, and the second one takes it.
pub fn move_often<B: Board<Part>, M: ManagerName, R: Abort + Wait>(rt: &R, pair: &mut Pair<B, M>) {
    for transfer in 0..TRANSFERS {
        move_once(rt, pair);
        take_beside(rt, &mut pair.second, transfer);
    }
    take_at_last(
        rt,
        &mut pair.second,
        TABLE,
        Mode::AccessExclusive,
        Owner::Session,
    );
}
