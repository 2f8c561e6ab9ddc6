//! Tells what calls do for which memory is refused: each growth of a call in turn, and every growth of
//! sessions that go on as they did before. `.ci/refused_memory` runs it with an allocator that refuses
//! growths as it is asked to. Any other one refuses none, and then each call is made once.
#![tactic(auto)]

mod allocator;
mod audits;
mod calls;
mod cases;
mod desk_cases;
mod desks;
mod events;
mod lives;
mod managers;
mod parts;
mod pools;
mod steady;
mod telling;
mod told;
mod trials;

use allocator::{refuse, was_refused};
use anyhow::bail;
use cases::{CASES, Case, tell};
use desk_cases::{DeskCase, PoolCase};
use std::alloc::Global;
use std::sync::Wait;
use told::Told;
use trials::TRIALS;

/// How many growths of a call are tried at most.
const MOST: u16 = 400;

/// How many growths of `case` were refused, one in each run, until a run had none left to refuse. `None` if a
/// run went otherwise than it is to.
fn refused_in_turn<R: Wait>(rt: &R, alloc: Global, case: Case<'_>) -> Option<u16> {
    for growth in 1..MOST {
        match tell(rt, alloc, case, growth) {
            Told::Answered => return Some(growth - 1),
            Told::Refused => {}
            Told::Otherwise => return None,
        }
    }
    None
}

/// Runs `case`, called `name`, with each of its `growths` growths refused in turn. Where the allocator
/// doesn't listen, as `listens` says, the case runs once, and none is refused.
fn tell_in_turn<R: Wait + Print>(
    rt: &R,
    alloc: Global,
    listens: bool,
    name: &str,
    case: Case<'_>,
    growths: u16,
) -> anyhow::Result<()> {
    let Some(refused) = refused_in_turn(rt, alloc, case) else {
        bail!("{name}: it went otherwise");
    };
    if !listens && refused == 0 {
        println!(rt; "{name}: answered")?;
        return Ok(());
    }
    if refused != growths {
        bail!("{name}: {refused} growths refused, and not {growths}");
    }
    println!(rt; "{name}: {refused} refused")?;
    Ok(())
}

/// Runs all cases, with growths refused where the allocator `listens`.
fn tell_all<R: Wait + Print>(rt: &R, alloc: Global, listens: bool) -> anyhow::Result<()> {
    for (name, case, growths) in &CASES {
        tell_in_turn(rt, alloc, listens, name, *case, *growths)?;
    }
    for trial in &TRIALS {
        let case = Case::AtDesk(DeskCase::WithPool(PoolCase::Tells(trial)));
        tell_in_turn(rt, alloc, listens, trial.name, case, trial.growths)?;
    }
    Ok(())
}

/// Runs all cases by `rt`, and then sessions at work with every growth refused. The error says what went
/// otherwise.
fn main(rt: HostRuntime) -> anyhow::Result<()> {
    let listens = refuse(rt.alloc(), 1);
    was_refused(rt.alloc());
    if listens {
        println!(rt; "growths that were refused, one after another")?;
    } else {
        println!(rt; "no growth is refused by this allocator")?;
    }
    tell_all(&rt, rt.alloc(), listens)?;
    let goes_on = DeskCase::WithPool(PoolCase::GoesOn);
    if managers::perform(&rt, rt.alloc(), goes_on, 0) != Told::Answered {
        bail!("sessions that go on: it went otherwise");
    }
    println!(rt;
        "sessions that go on: nothing grew in {} further rounds",
        steady::ROUNDS
    )?;
    let comes_and_goes = DeskCase::WithPool(PoolCase::ComesAndGoes);
    if managers::perform(&rt, rt.alloc(), comes_and_goes, 0) != Told::Answered {
        bail!("connections that come and go: it went otherwise");
    }
    println!(rt;
        "connections that come and go: nothing grew with {} further ones",
        lives::LIVES
    )?;
    Ok(())
}
