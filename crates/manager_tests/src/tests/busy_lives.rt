//! Connections that come and go in one thread, each with the number that the one before it had, while another
//! thread lists, and a third one takes strong modes on what they hold: under a watchdog.

use super::answers::{Answer, expect_asked};
use super::crowds::{Watch, guard};
use super::desk::{Lending, open};
use super::gates::{Gate, Wins};
use super::sessions::{commit, list, try_lock};
use super::waits::{OWNER, TABLE, find_still, give_back, leave, queue, take};
use connections::{Connection, DeskOf, ManagerName};
use lock_manager::{
    Asked, Board, Desk, How, Listing, Mode, OwnSession, Part, Refusal, SessionId, SessionLife,
    SessionPool, Tag,
};
use std::alloc::Global;
use std::process::Abort;
use std::sync::Wait;
use std::sync::atomic::{AtomicU32, Ordering};
use std::thread;
use std::thread::{Threads, join};
use std::time::Clock;

/// How many sessions there are: one that asks others to cancel, one that lists, one that takes strong modes,
/// and the one that is lent.
pub const SESSIONS: u32 = 4;

/// The session number that connections are lent, one after another.
const LENT: u16 = 3;

/// Of how many connections one waits, and is asked to cancel.
const WAITS: u32 = 16;

/// The relation before that of connection 1: connection `life` takes the relation numbered `FIRST + life`.
const FIRST: u32 = 20_000;

/// What the threads show each other.
#[derive(Drop)]
struct Shown {
    /// Where the three threads begin.
    start: Gate,
    /// Which connection comes, or is there. What earlier connections held is released.
    life: AtomicU32,
    /// How often a strong mode met what a connection held, and how often nothing.
    wins: Wins,
    watch: Watch,
}

impl Shown {
    /// Which connection comes, or is there.
    fn life(&self) -> u32 {
        self.life.load(Ordering::SeqCst)
    }

    /// Whether all connections have come and gone.
    fn is_over(&self) -> bool {
        self.watch.is_over.load(Ordering::SeqCst)
    }
}

/// The database of the connection numbered `life`: connections that follow each other are to different
/// databases.
fn database_of(life: u32) -> u32 {
    if life % 2 == 0 { 5 } else { 6 }
}

/// The table of the connection numbered `life`.
fn table_of(life: u32) -> Tag {
    Tag::relation(database_of(life), FIRST.saturating_add(life))
}

/// Whether a listed hold or wait of `session` on `tag` is one of another session than the lent one, or of a
/// connection from that numbered `first` to that numbered `last`.
fn is_of_those(session: SessionId, tag: Tag, first: u32, last: u32) -> bool {
    if session.number() != LENT || tag == TABLE {
        return true;
    }
    match tag {
        Tag::Relation { relation, .. } => {
            let life = relation.saturating_sub(FIRST);
            first <= life && life <= last && tag == table_of(life)
        }
        _ => false,
    }
}

/// Whether each row of `listing` is another session's, or of a connection from that numbered `first` to that
/// numbered `last`.
fn are_of_those(listing: &Listing, first: u32, last: u32) -> bool {
    let mut are = true;
    for row in &listing.fast {
        are &= is_of_those(row.session, row.tag, first, last);
    }
    for row in &listing.table {
        are &= is_of_those(row.session, row.tag, first, last);
    }
    are
}

/// Ends the test unless `refusal`, of a strong mode, names what a connection held.
fn expect_held<R: Abort>(rt: &R, refusal: Refusal) {
    let Refusal::Conflict { session, mode, how } = refusal else {
        panic!(rt; "refused otherwise: {refusal}")
    };
    assert!(rt; session.number() == LENT);
    assert!(rt; mode == Mode::AccessShare && how == How::Held);
}

/// Notes in `wins` whether a strong mode met what a connection held, by `answer`. Ends the test where it was
/// refused for something else.
fn note<R: Abort>(rt: &R, wins: &Wins, answer: Answer) {
    match answer {
        Ok(_) => wins.second(),
        Err(refusal) => {
            expect_held(rt, refusal);
            wins.first();
        }
    }
}

/// Has `connection` wait, be asked to cancel in the life that is over, which does nothing, and then in its
/// own.
fn wait_and_be_asked<B: Board<Part>, M: ManagerName, R: Abort + Wait>(
    rt: &R,
    lending: &Lending<B, M>,
    asker: &mut Connection<B, M>,
    connection: Connection<B, M>,
) -> Connection<B, M> {
    let now = connection.life();
    let last = SessionLife {
        number: now.number,
        life: now.life.wrapping_sub(1),
    };
    let waiting = queue(rt, connection, Mode::AccessShare);
    let asked_before = lending.pool.ask_cancel(&mut asker.session, last);
    let waiting = find_still(rt, waiting, false);
    let asked = lending.pool.ask_cancel(&mut asker.session, now);
    expect_asked(rt, asked_before, Asked::NotWaiting);
    expect_asked(rt, asked, Asked::Waiting);
    leave(rt, find_still(rt, waiting, true))
}

/// Does with `connection` what the connection numbered `life` does: it holds its table, unless a strong mode
/// is in the way, and may wait.
fn live<B: Board<Part>, M: ManagerName, R: Abort + Wait>(
    rt: &R,
    lending: &Lending<B, M>,
    asker: &mut Connection<B, M>,
    mut connection: Connection<B, M>,
    life: u32,
) -> Connection<B, M> {
    let _answer = try_lock(
        rt,
        &mut connection,
        table_of(life),
        Mode::AccessShare,
        OWNER,
    );
    thread::yield_now();
    if life % WAITS == 0 {
        return wait_and_be_asked(rt, lending, asker, connection);
    }
    connection
}

/// Has the connection numbered `life` come and go, with the session that `lending` lends.
fn live_once<B: Board<Part>, D: Desk<OwnSession<Part, B>>, M: ManagerName, R: Abort + Wait>(
    rt: &R,
    shown: &Shown,
    desk: &mut DeskOf<B, D, M>,
    lending: &mut Lending<B, M>,
    asker: &mut Connection<B, M>,
    life: u32,
) {
    shown.life.store(life, Ordering::SeqCst);
    let connection = lending
        .open(rt, desk, database_of(life))
        .expect(rt, "a session");
    let connection = live(rt, lending, asker, connection, life);
    lending.close(rt, desk, connection);
    shown.watch.rounds.fetch_add(1, Ordering::SeqCst);
}

/// Has `lives` connections come and go, one after another, and then shows the other threads that all is over.
fn serve<B: Board<Part>, D: Desk<OwnSession<Part, B>>, M: ManagerName, R: Abort + Wait>(
    rt: &R,
    shown: &Shown,
    desk: &mut DeskOf<B, D, M>,
    lending: &mut Lending<B, M>,
    asker: &mut Connection<B, M>,
    lives: u32,
) {
    take(rt, asker, Mode::AccessExclusive);
    shown.start.come(rt, 3);
    for life in 0..lives {
        live_once(rt, shown, desk, lending, asker, life);
    }
    give_back(rt, asker, Mode::AccessExclusive);
    shown.watch.is_over.store(true, Ordering::SeqCst);
}

/// Lists with `connection` until all is over. What is listed of the lent session is of a connection that was
/// there meanwhile, in its own database, and of none before it.
fn list_often<B: Board<Part>, M: ManagerName, R: Abort + Wait>(
    rt: &R,
    shown: &Shown,
    connection: &mut Connection<B, M>,
) {
    shown.start.come(rt, 3);
    for _ in rt.forever() {
        if shown.is_over() {
            return;
        }
        let first = shown.life();
        let listing = list(rt, connection).expect(rt, "a listing");
        let are_right = are_of_those(&listing, first, shown.life());
        assert!(rt; are_right, "a row of a life that was over");
    }
}

/// Takes the strongest mode with `connection` on the table of each connection that is there, until all is
/// over: what the connection holds by a slot is moved to the table, and is in the way.
fn disturb_often<B: Board<Part>, M: ManagerName, R: Abort + Wait>(
    rt: &R,
    shown: &Shown,
    connection: &mut Connection<B, M>,
) {
    shown.start.come(rt, 3);
    for _ in rt.forever() {
        if shown.is_over() {
            return;
        }
        let answer = try_lock(
            rt,
            connection,
            table_of(shown.life()),
            Mode::AccessExclusive,
            OWNER,
        );
        note(rt, &shown.wins, answer);
        commit(rt, connection);
    }
}

/// Has `lister` list, and `strong` take strong modes, each in a thread of its own.
fn look_on<B: Board<Part> + Send, M: ManagerName + Send, R: Abort + Threads + Wait + Sync>(
    rt: &R,
    shown: &Shown,
    lister: &mut Connection<B, M>,
    strong: &mut Connection<B, M>,
) {
    join(
        rt,
        || list_often(rt, shown, lister),
        || disturb_often(rt, shown, strong),
    );
}

/// Has `lister` list, and `strong` take strong modes, under the watchdog.
fn look_on_watched<
    B: Board<Part> + Send,
    M: ManagerName + Send,
    R: Abort + Clock + Threads + Wait + Sync,
>(rt: &R, shown: &Shown, lister: &mut Connection<B, M>, strong: &mut Connection<B, M>) {
    join(
        rt,
        || look_on(rt, shown, lister, strong),
        || guard(rt, &shown.watch),
    );
}

/// Has `lives` connections come and go with sessions of `lending`, while `lister` and `strong` do their part.
fn act_side_by_side<
    B: Board<Part> + Send,
    D: Desk<OwnSession<Part, B>> + Send,
    M: ManagerName + Send,
    R: Abort + Clock + Threads + Wait + Sync,
>(
    rt: &R,
    shown: &Shown,
    desk: &mut DeskOf<B, D, M>,
    lending: &mut Lending<B, M>,
    asker: &mut Connection<B, M>,
    lister: &mut Connection<B, M>,
    strong: &mut Connection<B, M>,
    lives: u32,
) {
    join(
        rt,
        || serve(rt, shown, desk, lending, asker, lives),
        || look_on_watched(rt, shown, lister, strong),
    );
}

/// Has `lives` connections come and go at `desk`, one after another, each with the session that a pool lends,
/// while others list and take strong modes.
pub fn come_and_go_beside<
    B: Board<Part> + Send,
    D: Desk<OwnSession<Part, B>> + Send,
    M: ManagerName + Send,
    R: Abort + Clock + Threads + Wait + Sync + Print,
>(rt: &R, alloc: Global, desk: &mut DeskOf<B, D, M>, lives: u32) {
    let shown = Shown {
        start: Gate::new(),
        life: AtomicU32::new(0),
        wins: Wins::none(),
        watch: Watch::new(),
    };
    let mut asker = open(rt, desk);
    let mut lister = open(rt, desk);
    let mut strong = open(rt, desk);
    let pool = SessionPool::new(alloc).expect(rt, "a pool");
    let mut lending = Lending::new(pool);
    act_side_by_side(
        rt,
        &shown,
        desk,
        &mut lending,
        &mut asker,
        &mut lister,
        &mut strong,
        lives,
    );
    shown
        .wins
        .expect_both(rt, "what a life holds against a strong mode");
    lending.end(rt, desk);
    desk.close(rt, strong);
    desk.close(rt, lister);
    desk.close(rt, asker);
}
