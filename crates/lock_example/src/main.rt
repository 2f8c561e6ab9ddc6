//! What a server does with the lock manager: two sessions in turns, a day of a small bank, and a monitor.
#![tactic(auto)]

mod bank;
mod day;
mod deadlocks;
mod limits;
mod monitor;
mod report;
mod rush;
mod server;
mod shifts;
mod shut_down;
mod tellers;
mod turns;
mod watch;

use crate::server::{Play, run};

fn main(rt: HostRuntime) -> anyhow::Result<()> {
    turns::show(&rt, rt.alloc())?;
    let live = run(&rt, rt.alloc(), day::SESSIONS, Play::Bank)?;
    println!(rt; "bank: closed, with {live} sessions open")?;
    run(&rt, rt.alloc(), monitor::SESSIONS, Play::Monitor)?;
    Ok(())
}
