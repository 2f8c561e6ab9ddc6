//! Listings beside sessions that lock and unlock. Whatever a row says was so at some time during the listing,
//! and a hold that was there all the while has a row. Strong requests move holds from slots to the table
//! meanwhile.

ghost use Rattle.std.specs.Prelude.{◌<◌};

use super::answers::expect_granted;
use super::sessions::{acquire, give_tag_back, list, try_lock};
use super::side_by_side::{Play, play_side_by_side};
use connections::{Connection, ManagerName};
use lock_manager::{Board, Listing, Mode, Owner, Part, SessionId, Tag};
use std::process::Abort;
use std::sync::Wait;
use std::sync::atomic::{AtomicBool, AtomicU64, Ordering};
use std::thread::Threads;
use std::time::Clock;

/// How many sessions there are, of which the first one lists.
pub const SESSIONS: u32 = 4;

const LISTINGS: u32 = 1_000;

/// How often a session disturbs the next one while it has its own hold, so that the hold lasts longer than a
/// listing takes.
const DISTURBANCES: u32 = 8;

/// What each session shows of the hold on its own relation, by numbers that rise.
#[derive(Drop)]
struct Words {
    /// For each session a number that is odd from before the session asks for its hold until it has given
    /// that back, or was refused.
    may_hold: [AtomicU64; 4],
    /// For each session a number that is odd from when the session has its hold until before it gives that
    /// back.
    holds: [AtomicU64; 4],
    /// Whether the first session has listed for the last time.
    is_over: AtomicBool,
}

impl Words {
    fn new() -> Words {
        Words {
            may_hold: [
                AtomicU64::new(0),
                AtomicU64::new(0),
                AtomicU64::new(0),
                AtomicU64::new(0),
            ],
            holds: [
                AtomicU64::new(0),
                AtomicU64::new(0),
                AtomicU64::new(0),
                AtomicU64::new(0),
            ],
            is_over: AtomicBool::new(false),
        }
    }
}

/// Whether a word stayed as it was between two looks that showed `before` and `after`, at an odd number where
/// `odd`, otherwise at an even one.
fn stayed(before: u64, after: u64, odd: bool) -> bool {
    before == after && (before % 2 == 1) == odd
}

/// The place of the session numbered `number`: sessions have their numbers from 0 on.
fn place_of(number: SessionId) -> usize
    ensures { result < 4 }
{
    usize::from(number.number() % 4)
}

/// The tag of the relation of the session at `place`.
fn relation(place: usize) -> Tag
    requires place { place < 4 }
{
    Tag::relation(5, 20_000 | (place as u32))
}

/// Asks with `connection` for the strongest mode on the relation of the session at `next`, so that its hold
/// is moved to the table, and gives back what it got.
fn disturb<B: Board<Part>, M: ManagerName, R: Abort + Wait>(
    rt: &R,
    connection: &mut Connection<B, M>,
    next: usize,
)
    requires next { next < 4 }
{
    let tag = relation(next);
    let mode = Mode::AccessExclusive;
    if try_lock(rt, connection, tag, mode, Owner::Transaction).is_ok() {
        give_tag_back(rt, connection, tag, mode, Owner::Transaction);
    }
}

/// Disturbs the session at `next` with `connection`, over and over.
fn disturb_often<B: Board<Part>, M: ManagerName, R: Abort + Wait>(
    rt: &R,
    connection: &mut Connection<B, M>,
    next: usize,
)
    requires next { next < 4 }
{
    for _ in 0..DISTURBANCES {
        disturb(rt, connection, next);
    }
}

/// Holds the relation of `connection` for a while, if nobody is in the way, and disturbs the next session
/// meanwhile.
fn hold_once<B: Board<Part>, M: ManagerName, R: Abort + Wait>(
    rt: &R,
    words: &Words,
    connection: &mut Connection<B, M>,
) {
    let place = place_of(connection.session.id());
    let tag = relation(place);
    let mode = Mode::AccessShare;
    words.may_hold[place].fetch_add(1, Ordering::SeqCst);
    if try_lock(rt, connection, tag, mode, Owner::Transaction).is_ok() {
        words.holds[place].fetch_add(1, Ordering::SeqCst);
        disturb_often(rt, connection, (place + 1) % 4);
        words.holds[place].fetch_add(1, Ordering::SeqCst);
        give_tag_back(rt, connection, tag, mode, Owner::Transaction);
    }
    words.may_hold[place].fetch_add(1, Ordering::SeqCst);
}

/// How many rows of `listing` are of the hold of the session at `place`.
fn rows_of(listing: &Listing, place: usize) -> u32
    requires place { place < 4 }
{
    let mut rows: u32 = 0;
    for row in listing.fast.as_slice() {
        if place_of(row.session) == place
            && row.tag == relation(place)
            && row.mode == Mode::AccessShare
        {
            rows = rows.saturating_add(1);
        }
    }
    for row in listing.table.as_slice() {
        if place_of(row.session) == place
            && row.tag == relation(place)
            && row.mode == Mode::AccessShare
        {
            rows = rows.saturating_add(1);
        }
    }
    rows
}

/// Ends the test unless `rows` is how many rows there can be of a hold that was `never` there meanwhile, or
/// was there `throughout`.
fn expect_rows_of<R: Abort>(rt: &R, rows: u32, never: bool, throughout: bool) {
    assert!(rt; rows <= 2, "{rows} rows of one hold");
    assert!(rt; !never || rows == 0, "a row of a hold that nobody had");
    assert!(rt;
        !throughout || rows > 0,
        "no row of a hold that was there all the while"
    );
}

/// What all of `words` show.
fn look(words: &[AtomicU64; 4]) -> [u64; 4] {
    [
        words[0].load(Ordering::SeqCst),
        words[1].load(Ordering::SeqCst),
        words[2].load(Ordering::SeqCst),
        words[3].load(Ordering::SeqCst),
    ]
}

/// Lists once with `connection`, and checks the rows by what `words` showed before and after.
fn list_once<B: Board<Part>, M: ManagerName, R: Abort + Wait>(
    rt: &R,
    words: &Words,
    connection: &mut Connection<B, M>,
) {
    let may_hold = look(&words.may_hold);
    let holds = look(&words.holds);
    let listing = list(rt, connection).expect(rt, "a listing");
    let held = look(&words.holds);
    let might_hold = look(&words.may_hold);
    for place in 1..4usize {
        let never = stayed(may_hold[place], might_hold[place], false);
        let throughout = stayed(holds[place], held[place], true);
        expect_rows_of(rt, rows_of(&listing, place), never, throughout);
    }
    let own = rows_of(&listing, 0);
    assert!(rt; own == 1 || own == 2, "{own} rows of the own hold");
}

/// Has `connection`, the first one, have its relation all the while, and list over and over.
fn list_often<B: Board<Part>, M: ManagerName, R: Abort + Wait>(
    rt: &R,
    words: &Words,
    connection: &mut Connection<B, M>,
) {
    for _ in 0..LISTINGS {
        list_once(rt, words, connection);
    }
    words.is_over.store(true, Ordering::SeqCst);
}

/// Has `connection` hold its own relation over and over, until the listings are over.
fn hold_often<B: Board<Part>, M: ManagerName, R: Abort + Wait>(
    rt: &R,
    words: &Words,
    connection: &mut Connection<B, M>,
) {
    for _ in rt.forever() {
        if words.is_over.load(Ordering::SeqCst) {
            return;
        }
        hold_once(rt, words, connection);
    }
}

impl Play for Words {
    /// Has `connection`, where it is the first one, list while it has its relation, and any other hold its
    /// relation over and over.
    fn play<B: Board<Part>, M: ManagerName, R: Abort + Clock + Wait>(
        &self,
        rt: &R,
        connection: &mut Connection<B, M>,
    ) {
        if place_of(connection.session.id()) != 0 {
            hold_often(rt, self, connection);
            return;
        }
        let tag = relation(0);
        let mode = Mode::AccessShare;
        let answer = acquire(rt, connection, tag, mode, Owner::Session);
        expect_granted(rt, answer, tag, mode);
        list_often(rt, self, connection);
        give_tag_back(rt, connection, tag, mode, Owner::Session);
    }
}

/// Has one of `connections` list while three others lock and unlock.
pub fn list_beside<
    B: Board<Part> + Send,
    M: ManagerName + Send,
    R: Abort + Clock + Threads + Wait + Sync,
>(rt: &R, connections: &mut [Connection<B, M>]) {
    let words = Words::new();
    play_side_by_side(rt, &words, connections);
}
