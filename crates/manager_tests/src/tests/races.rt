//! Two sessions in threads of their own, which begin each round at a gate, each after a pause of its own, and
//! what each is answered. A race has to be won by each side, or it shows nothing.

use super::answers::{Answer, expect_acted, expect_granted, expect_rows};
use super::gates::{Gate, Wins};
use super::pair::Pair;
use super::sessions::{commit, list, try_fast};
use super::tasks::{Task, act_side_by_side};
use super::waits::{OWNER, TABLE, expect_gone, give_back, queue, take};
use connections::{Connection, ManagerName, WaitingConnection};
use lock_manager::{Acquired, Board, Call, How, Mode, Part, Refusal, SessionId};
use std::process::Abort;
use std::sync::Wait;
use std::thread::{Threads, join};

/// What two sessions race for.
#[derive(Clone, Copy)]
pub enum Race {
    /// The first one takes a weak mode by a slot, the second one a strong mode.
    WeakAgainstStrong(Mode, Mode),
    /// The two sessions have a mode in a slot each, and ask for a strong mode. The mode of the one is in the
    /// way of the other.
    StrongOverWeak(Mode, Mode),
    /// The second one cancels its wait for a mode while the first one gives back what is in the way.
    CancelAgainstRelease(Mode, Mode),
    /// The second one goes to sleep while the first one asks it to cancel.
    AskAgainstSleep,
}

impl Race {
    /// The name of the race, as it is printed with how often each side won.
    fn name(self) -> &'static str {
        match self {
            Race::WeakAgainstStrong(_, _) => "a weak mode against a strong one",
            Race::StrongOverWeak(_, _) =>
                "two strong modes over weak ones, by who is answered first",
            Race::CancelAgainstRelease(_, _) => "a release against a cancel",
            Race::AskAgainstSleep => "a request to cancel against the way to sleep",
        }
    }

    /// Whether the race has two sides that may win.
    fn has_sides(self) -> bool {
        !matches!(self, Race::AskAgainstSleep)
    }
}

/// A round of a race: its number, where the two threads begin it, and how often each side has won.
#[derive(Drop)]
struct Round<'a> {
    number: u32,
    gate: Gate,
    wins: &'a Wins,
}

/// Ends the test unless a strong mode was refused since `session` holds `mode`.
fn expect_in_the_way<R: Abort>(rt: &R, answer: Option<Answer>, session: SessionId, mode: Mode) {
    let how = How::Held;
    expect_acted(rt, answer, Err(Refusal::Conflict { session, mode, how }));
}

/// Whether `answer` says that a weak mode was granted. Otherwise a strong one was counted, or the slots were
/// busy.
fn is_granted<R: Abort>(rt: &R, answer: Option<Answer>) -> bool {
    match answer {
        Some(Ok(Acquired::Granted)) => true,
        Some(Err(Refusal::StrongCounted | Refusal::Busy)) => false,
        _ => panic!(rt; "answered otherwise"),
    }
}

/// Ends the test unless one of the two answers, `weak` and `strong`, is a grant and the other one a refusal,
/// since only what is granted is in another's way. Notes in `wins` which.
fn expect_one<R: Abort>(
    rt: &R,
    weak: Option<Answer>,
    strong: Option<Answer>,
    session: SessionId,
    mode: Mode,
    wins: &Wins,
) {
    if is_granted(rt, weak) {
        expect_in_the_way(rt, strong, session, mode);
        wins.first();
    } else {
        expect_acted(rt, strong, Ok(Acquired::Granted));
        wins.second();
    }
}

/// Has one session of `pair` try `weak` by a slot, and the other one `strong`.
fn try_weak_against_strong<
    B: Board<Part> + Send,
    M: ManagerName + Send,
    R: Abort + Threads + Wait + Sync,
>(rt: &R, pair: &mut Pair<B, M>, weak: Mode, strong: Mode, round: &Round<'_>) {
    let tries_fast = Task::Makes(Call::TryFast(TABLE, weak, OWNER));
    let tries = Task::Makes(Call::TryLock(TABLE, strong, OWNER));
    let ended = act_side_by_side(rt, pair, tries_fast, tries, round.number);
    let holder = pair.first.session.id();
    let (weak_one, strong_one) = (ended.of_first, ended.of_second);
    expect_one(rt, weak_one, strong_one, holder, weak, round.wins);
    commit(rt, &mut pair.second);
    commit(rt, &mut pair.first);
    try_beside_release(rt, pair, weak, strong, round);
}

/// Has the first session of `pair` take `weak` by a slot, and give it back from there while the second one
/// asks for `strong`.
fn try_beside_release<
    B: Board<Part> + Send,
    M: ManagerName + Send,
    R: Abort + Threads + Wait + Sync,
>(rt: &R, pair: &mut Pair<B, M>, weak: Mode, strong: Mode, round: &Round<'_>) {
    take_fast(rt, &mut pair.first, weak);
    let commits = Task::Makes(Call::Commit);
    let tries = Task::Makes(Call::TryLock(TABLE, strong, OWNER));
    let answer = act_side_by_side(rt, pair, commits, tries, round.number).of_second;
    if answer != Some(Ok(Acquired::Granted)) {
        expect_in_the_way(rt, answer, pair.first.session.id(), weak);
    }
    commit(rt, &mut pair.second);
}

/// Takes the weak `mode` by a slot with `connection`.
fn take_fast<B: Board<Part>, M: ManagerName, R: Abort>(
    rt: &R,
    connection: &mut Connection<B, M>,
    mode: Mode,
) {
    let answer = try_fast(connection, TABLE, mode, OWNER);
    expect_granted(rt, answer, TABLE, mode);
}

/// Has both sessions of `pair` take `weak`, and ask for `strong`.
fn try_strong_over_weak<
    B: Board<Part> + Send,
    M: ManagerName + Send,
    R: Abort + Threads + Wait + Sync,
>(rt: &R, pair: &mut Pair<B, M>, weak: Mode, strong: Mode, round: &Round<'_>) {
    take_fast(rt, &mut pair.first, weak);
    take_fast(rt, &mut pair.second, weak);
    let one = Task::Makes(Call::TryLock(TABLE, strong, OWNER));
    let other = Task::Makes(Call::TryLock(TABLE, strong, OWNER));
    let ended = act_side_by_side(rt, pair, one, other, round.number);
    expect_in_the_way(rt, ended.of_first, pair.second.session.id(), weak);
    expect_in_the_way(rt, ended.of_second, pair.first.session.id(), weak);
    round.wins.count(ended.is_first_ahead);
    give_back(rt, &mut pair.first, weak);
    give_back(rt, &mut pair.second, weak);
}

/// Gives `mode` back with `connection`, if it `was_granted`.
fn give_back_if<B: Board<Part>, M: ManagerName, R: Abort + Wait>(
    rt: &R,
    connection: &mut Connection<B, M>,
    mode: Mode,
    was_granted: bool,
) {
    if was_granted {
        give_back(rt, connection, mode);
    }
}

/// Cancels `waiting`. Where it was granted `mode` is given back.
fn cancel<B: Board<Part>, M: ManagerName, R: Abort + Wait>(
    rt: &R,
    round: &Round<'_>,
    waiting: WaitingConnection<B, M>,
    mode: Mode,
) -> Connection<B, M> {
    round.gate.pass(rt, round.number, 1);
    let (mut connection, answer) = waiting.cancel(rt).into_parts();
    round.wins.count(answer.is_ok());
    give_back_if(rt, &mut connection, mode, answer.is_ok());
    connection
}

/// Cancels `waiting`, which is lent.
fn cancel_lent<B: Board<Part>, M: ManagerName, R: Abort + Wait>(
    rt: &R,
    round: &Round<'_>,
    waiting: &mut Option<WaitingConnection<B, M>>,
    mode: Mode,
) -> Connection<B, M> {
    match waiting.take() {
        Some(waiting) => cancel(rt, round, waiting, mode),
        None => panic!(rt; "no wait"),
    }
}

/// Gives `mode` back with `connection`.
fn release<B: Board<Part>, M: ManagerName, R: Abort + Wait>(
    rt: &R,
    round: &Round<'_>,
    connection: &mut Connection<B, M>,
    mode: Mode,
) {
    round.gate.pass(rt, round.number, 0);
    give_back(rt, connection, mode);
}

/// Ends the test where `connection` has the table.
fn expect_none<B: Board<Part>, M: ManagerName, R: Abort>(rt: &R, connection: &Connection<B, M>) {
    assert_eq!(rt; connection.session.held(TABLE).mask(), 0);
}

/// Has the session that waits cancel its wait for the first of `modes` while `connection` gives back the
/// second one.
fn cancel_on_loan<B: Board<Part> + Send, M: ManagerName + Send, R: Abort + Threads + Wait + Sync>(
    rt: &R,
    round: &Round<'_>,
    waiting: &mut Option<WaitingConnection<B, M>>,
    connection: &mut Connection<B, M>,
    modes: &(Mode, Mode),
) -> Connection<B, M> {
    let (cancelled, ()) = join(
        rt,
        || cancel_lent(rt, round, waiting, modes.0),
        || release(rt, round, connection, modes.1),
    );
    cancelled
}

/// Has the second session of `pair` wait for `awaited`, which `held` of the first one is in the way of, and
/// cancel as that is given back.
fn cancel_as_released<
    B: Board<Part> + Send,
    M: ManagerName + Send,
    R: Abort + Threads + Wait + Sync,
>(rt: &R, pair: Pair<B, M>, held: Mode, awaited: Mode, round: &Round<'_>) -> Pair<B, M> {
    let Pair { mut first, second } = pair;
    take(rt, &mut first, held);
    let mut waiting = Some(queue(rt, second, awaited));
    let second = cancel_on_loan(rt, round, &mut waiting, &mut first, &(awaited, held));
    expect_gone(rt, waiting);
    expect_none(rt, &first);
    expect_none(rt, &second);
    Pair { first, second }
}

/// Has the second session of `pair` wait, and the first one ask it to cancel as soon as it does.
fn ask_before_sleep<B: Board<Part> + Send, M: ManagerName + Send, R: Abort + Threads + Wait + Sync>(
    rt: &R,
    pair: &mut Pair<B, M>,
) {
    let asks = Task::AskUntilHeard(pair.second.session.id());
    take(rt, &mut pair.first, Mode::AccessExclusive);
    let waits = Task::Makes(Call::Acquire(TABLE, Mode::AccessShare, OWNER));
    let ended = act_side_by_side(rt, pair, asks, waits, 0);
    expect_acted(rt, ended.of_second, Err(Refusal::Cancelled));
    give_back(rt, &mut pair.first, Mode::AccessExclusive);
}

/// Plays one round of `race` with `pair`, after which both hold what they held before.
fn race_once<B: Board<Part> + Send, M: ManagerName + Send, R: Abort + Threads + Wait + Sync>(
    rt: &R,
    mut pair: Pair<B, M>,
    race: Race,
    round: &Round<'_>,
) -> Pair<B, M> {
    match race {
        Race::WeakAgainstStrong(weak, strong) => {
            try_weak_against_strong(rt, &mut pair, weak, strong, round);
            pair
        }
        Race::StrongOverWeak(weak, strong) => {
            try_strong_over_weak(rt, &mut pair, weak, strong, round);
            pair
        }
        Race::CancelAgainstRelease(held, awaited) => {
            cancel_as_released(rt, pair, held, awaited, round)
        }
        Race::AskAgainstSleep => {
            ask_before_sleep(rt, &mut pair);
            pair
        }
    }
}

/// Sees with `connection` that nothing is held or awaited, and no strong mode counted.
pub fn see_nothing<B: Board<Part>, M: ManagerName, R: Abort + Wait>(
    rt: &R,
    connection: &mut Connection<B, M>,
) {
    let listing = list(rt, connection).expect(rt, "a listing");
    expect_rows(rt, &listing, 0, 0);
    assert_eq!(rt; connection.session.strong_count(TABLE.strong_index()), 0);
}

/// Plays `rounds` rounds of `race` with `pair`, at the end of which nothing is held, and each side has won.
pub fn race_often<
    B: Board<Part> + Send,
    M: ManagerName + Send,
    R: Abort + Threads + Wait + Sync + Print,
>(rt: &R, pair: Pair<B, M>, race: Race, rounds: u32) -> Pair<B, M> {
    let mut pair = pair;
    let wins = Wins::none();
    for number in 0..rounds {
        let round = Round {
            number,
            gate: Gate::new(),
            wins: &wins,
        };
        pair = race_once(rt, pair, race, &round);
    }
    see_nothing(rt, &mut pair.first);
    if race.has_sides() {
        wins.expect_both(rt, race.name());
    }
    pair
}
