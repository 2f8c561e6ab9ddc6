//! What more than two sessions do side by side, each in a thread of its own: at a manager's desk here, and on
//! boards that pause in `unsteady`.

use super::audits::close_counted;
use super::crowds::Crowd;
use super::desk::{Beginning, open_many};
use super::threads::Plan;
use super::{asked, crowds, queues, threads, watches};
use connections::{Connection, DeskOf, ManagerName};
use lock_manager::{Board, Desk, Mode, OwnSession, Part};
use std::alloc::Global;
use std::process::Abort;
use std::sync::Wait;
use std::thread::Threads;
use std::time::Clock;

/// What more than two sessions do.
#[derive(Clone, Copy)]
pub enum Crew {
    /// This number of sessions ask for the objects of this plan.
    Asks(u32, Plan),
    /// All sessions but one sleep in one queue for this mode.
    Queue(Mode),
    /// This number of times, one session waits for what another one gives back while a third one asks the
    /// first to cancel.
    Asked(u32),
    /// One session lists while three lock and unlock.
    Watch,
    /// Sessions lock and unlock on one partition, or one object, as the `Crowd` says.
    Crowd(Crowd),
}

impl Crew {
    /// How many sessions the crew has.
    pub fn sessions(self) -> u32 {
        match self {
            Crew::Asks(number, _) => number,
            Crew::Queue(_) => queues::MANY + 1,
            Crew::Asked(_) => asked::SESSIONS,
            Crew::Watch => watches::SESSIONS,
            Crew::Crowd(crowd) => crowd.sessions,
        }
    }
}

/// Has the sessions of `connections` do what `crew` does.
pub fn act<
    B: Board<Part> + Send,
    M: ManagerName + Send,
    R: Abort + Clock + Threads + Wait + Sync + Print,
>(rt: &R, connections: &mut [Connection<B, M>], crew: Crew) {
    match crew {
        Crew::Asks(_, plan) => threads::ask_all(rt, connections, plan),
        Crew::Queue(mode) => queues::wake_sleepers(rt, connections, mode),
        Crew::Asked(rounds) => asked::race_three(rt, connections, rounds),
        Crew::Watch => watches::list_beside(rt, connections),
        Crew::Crowd(crowd) => crowds::act(rt, connections, crowd),
    }
}

/// Has as many sessions of `desk` as `crew` has do what it does.
pub fn act_at<
    B: Board<Part> + Send,
    D: Desk<OwnSession<Part, B>>,
    M: ManagerName + Send,
    R: Abort + Clock + Threads + Wait + Sync + Print,
>(rt: &R, alloc: Global, desk: &mut DeskOf<B, D, M>, crew: Crew) {
    let mut connections = open_many(rt, alloc, desk, crew.sessions(), Beginning::Nothing);
    act(rt, connections.as_mut_slice(), crew);
    close_counted(rt, alloc, desk, connections);
}
