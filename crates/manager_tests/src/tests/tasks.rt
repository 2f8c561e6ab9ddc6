//! What a session does in a thread of its own, while another one does something in another thread.

use super::answers::Answer;
use super::busy::{take_until_seen, try_until_busy};
use super::gates::Gate;
use super::pair::Pair;
use super::sessions::make;
use super::waits::{ask, ask_until_heard, give_back, see_wait};
use connections::{Connection, ManagerName};
use lock_manager::{Asked, Board, Call, Mode, Part, SessionId};
use std::process::Abort;
use std::sync::Wait;
use std::sync::atomic::{AtomicBool, AtomicU64, Ordering};
use std::thread::{Threads, join};

/// What a session does.
#[derive(Clone, Copy)]
pub enum Task {
    /// Makes this call.
    Makes(Call),
    /// Asks this session to cancel until it is heard, which is once that one waits.
    AskUntilHeard(SessionId),
    /// Asks this session to cancel once its wait shows.
    AskOnceAwaited(SessionId),
    /// Gives this mode back once the wait of this session shows.
    GiveBackOnceAwaited(SessionId, Mode),
    /// Tries a weak mode by a slot until the slots are found busy, and says so.
    TryUntilBusy,
    /// Takes a strong mode over and over until another session says that it found the slots busy.
    TakeUntilSeen,
}

/// What the two threads do, and what they show each other.
#[derive(Drop)]
struct Shown {
    tasks: (Task, Task),
    /// In which round of a race the two threads are.
    round: u32,
    gate: Gate,
    /// How many of the two threads have ended.
    ended: AtomicU64,
    /// Whether the first thread was the first to end.
    is_first_ahead: AtomicBool,
    /// Whether the slots were found busy.
    is_busy: AtomicBool,
}

impl Shown {
    /// What two sides show in round `round`, of which nothing is done yet: `of_first` and `of_second` are to
    /// be.
    fn of(of_first: Task, of_second: Task, round: u32) -> Shown {
        Shown {
            tasks: (of_first, of_second),
            round,
            gate: Gate::new(),
            ended: AtomicU64::new(0),
            is_first_ahead: AtomicBool::new(false),
            is_busy: AtomicBool::new(false),
        }
    }

    /// What the session on `side` is to do.
    fn task(&self, side: u32) -> Task {
        if side == 0 {
            self.tasks.0
        } else {
            self.tasks.1
        }
    }

    /// Notes that the session on `side` has ended.
    fn end(&self, side: u32) {
        if self.ended.fetch_add(1, Ordering::SeqCst) == 0 {
            self.is_first_ahead.store(side == 0, Ordering::SeqCst);
        }
    }
}

/// How two that did something side by side have ended.
#[derive(Clone, Copy)]
pub struct Ended {
    /// What each of the two was answered, if it was a request.
    pub of_first: Option<Answer>,
    pub of_second: Option<Answer>,
    /// Whether the first of the two was the first to end.
    pub is_first_ahead: bool,
}

/// Does with `connection` what the session on `side` is to do, once both sides have begun. If that is a
/// request, answers what it was answered.
fn act<B: Board<Part>, M: ManagerName, R: Abort + Wait>(
    rt: &R,
    shown: &Shown,
    connection: &mut Connection<B, M>,
    side: u32,
) -> Option<Answer> {
    shown.gate.pass(rt, shown.round, side);
    let answer = do_task(rt, shown, connection, shown.task(side));
    shown.end(side);
    answer
}

/// Does `task` with `connection`. If it is a request, answers what that was answered.
fn do_task<B: Board<Part>, M: ManagerName, R: Abort + Wait>(
    rt: &R,
    shown: &Shown,
    connection: &mut Connection<B, M>,
    task: Task,
) -> Option<Answer> {
    match task {
        Task::Makes(call) => make(rt, connection, call),
        Task::AskUntilHeard(number) => {
            ask_until_heard(rt, connection, number);
            None
        }
        Task::AskOnceAwaited(number) => {
            see_wait(rt, connection, number);
            ask(rt, connection, number, Asked::Waiting);
            None
        }
        Task::GiveBackOnceAwaited(number, mode) => {
            see_wait(rt, connection, number);
            give_back(rt, connection, mode);
            None
        }
        Task::TryUntilBusy => {
            try_until_busy(rt, connection, &shown.is_busy);
            None
        }
        Task::TakeUntilSeen => {
            take_until_seen(rt, connection, &shown.is_busy);
            None
        }
    }
}

/// Has `first` and `second`, which are lent, do their tasks, the one beside the other.
fn act_on_loan<B: Board<Part> + Send, M: ManagerName + Send, R: Abort + Threads + Wait + Sync>(
    rt: &R,
    shown: &Shown,
    first: &mut Connection<B, M>,
    second: &mut Connection<B, M>,
) -> Ended {
    let (of_first, of_second) = join(
        rt,
        || act(rt, shown, first, 0),
        || act(rt, shown, second, 1),
    );
    Ended {
        of_first,
        of_second,
        is_first_ahead: shown.is_first_ahead.load(Ordering::SeqCst),
    }
}

/// Has each of the two sessions of `pair` do its task, the one beside the other, in round `round` of a race.
pub fn act_side_by_side<
    B: Board<Part> + Send,
    M: ManagerName + Send,
    R: Abort + Threads + Wait + Sync,
>(rt: &R, pair: &mut Pair<B, M>, of_first: Task, of_second: Task, round: u32) -> Ended {
    let Pair { first, second } = pair;
    let shown = Shown::of(of_first, of_second, round);
    act_on_loan(rt, &shown, first, second)
}
