//! What is printed of a day of the bank.

use crate::day::{SESSIONS, live_through};
use crate::rush::{CONNECTIONS, THREADS};
use connections::{ManagerName, Pool};
use lock_manager::{Audit, Board, Desk, OwnSession, Part, Refusal, SessionId};
use std::alloc::Global;
use std::io;
use std::sync::{Mutex, Wait};
use std::thread::Threads;
use std::time::Clock;

/// What the bank's accounts had, and what the connections met.
#[derive(Drop)]
pub struct Report {
    /// What all accounts had together when the bank opened. `sum` is what they had at the end.
    pub opened_with: u64,
    pub sum: u64,
    /// How many of the connections that came and went were turned away.
    pub unserved: u32,
    /// How the connection was refused that came when all sessions were lent. `handed_on` is the session that
    /// it had at last.
    pub turned_away: Option<Refusal>,
    pub handed_on: SessionId,
    /// How many threads still worked when the bank shut down, and have stopped since.
    pub stopped: u64,
    /// What an audit counted at the end, when no connection had a session.
    pub audit: Option<Audit>,
}

/// Plays a day of the bank with sessions of `pool`, and prints how it went.
pub fn show<
    B: Board<Part> + Send,
    D: Desk<OwnSession<Part, B>> + Send,
    M: ManagerName + Send,
    R: Threads + Wait + Clock + Sync + Print,
>(rt: &R, alloc: Global, pool: &Mutex<Pool<B, D, M>>) -> anyhow::Result<()> {
    let report = live_through(rt, alloc, pool)?;
    print_report(rt, &report)?;
    Ok(())
}

fn print_report<R: Print>(rt: &R, report: &Report) -> io::Result<()> {
    let one_too_many = SESSIONS + 1;
    println!(rt;
        "bank: {} in all at first, {} at the end",
        report.opened_with, report.sum
    )?;
    println!(rt;
        "{CONNECTIONS} connections came and went in {THREADS} threads, of which {} were turned away",
        report.unserved
    )?;
    match report.turned_away {
        Some(refusal) => println!(rt; "connection {one_too_many}: refused, {refusal}")?,
        None => println!(rt; "connection {one_too_many}: has a session")?,
    }
    println!(rt;
        "one ends, and connection {one_too_many} has session {}",
        report.handed_on
    )?;
    println!(rt;
        "bank: shut down in the middle of its work, which {} stop",
        report.stopped
    )?;
    match report.audit {
        Some(audit) => println!(rt; "bank: audited, with {} holds left", audit.table),
        None => println!(rt; "bank: not audited, since a connection is open"),
    }
}
