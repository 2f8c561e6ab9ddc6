//! The page of managers of more and more sessions: their memory, what it takes to make one, and what is done
//! with them by one thread, and by as many threads as there can be sessions.

use crate::acts::Act;
use crate::figures::print_rows_heading;
use crate::job::{Asked, Plan};
use crate::progress::Progress;
use crate::threads_page::print_crowd;
use crate::times::{ROUNDS, Times, used};
use crate::workloads_page::print_row;
use anyhow::Result;
use lock_manager::{Config, MOST_SESSIONS, Manager};
use shared_rule::{TableSizes, table_shelves, table_words};
use std::io;
use std::sync::Wait;
use std::thread::Threads;
use std::time::{Clock, CpuClock};

/// How many sessions the managers of the page have.
static SESSIONS: [u32; 4] = [8, 64, 256, MOST_SESSIONS];

/// The rows of the page for a manager of each size.
static ACTS: [Act; 8] = [
    Act::Weak,
    Act::Ten,
    Act::Strong,
    Act::Object,
    Act::Held,
    Act::RefusedRelation,
    Act::List,
    Act::Blockers,
];

/// How many managers are made in a round.
const MADE: u32 = 50;

/// How many bytes a word of the shared lock table has. A shelf has `SHELF`, and a wait in a wait list `WAIT`.
const WORD: usize = 8;

const SHELF: usize = 16;

const WAIT: usize = 4;

/// How many shelves of the shared lock table come first, for contents. On those after them the wait lists lie
/// `LIST_GAP` apart.
const CONTENT_SHELVES: usize = 128;

const LIST_GAP: usize = 8;

/// Prints how many words and shelves the shared lock table of a manager of `sessions` has, how many wait
/// lists are on the shelves, each with room for all sessions, and how many bytes all these have.
fn print_memory<R: Print>(rt: &R, sessions: u32) -> io::Result<()> {
    let number = sessions.min(MOST_SESSIONS) as u16;
    let words = table_words(TableSizes {
        sessions: number,
        groups: 1,
    });
    let shelves = table_shelves(number);
    let lists = shelves.saturating_sub(CONTENT_SHELVES) / LIST_GAP;
    let waits = lists.saturating_mul(usize::from(number));
    let bytes = words
        .saturating_mul(WORD)
        .saturating_add(shelves.saturating_mul(SHELF))
        .saturating_add(waits.saturating_mul(WAIT));
    println!(rt;
        "{sessions} sessions: {words} words, {shelves} shelves and {lists} wait lists, {bytes} bytes"
    )
}

/// Makes a manager of `sessions` and ends it, over and over, as `asked` for, and prints what one takes.
fn print_making<R: CpuClock + AllocGlobal + Print>(
    rt: &R,
    asked: Asked,
    sessions: u32,
) -> Result<()> {
    let config = Config {
        sessions,
        max_local: 1_024,
        slot_groups: 1,
    };
    let mut times = Times::new();
    for _ in 0..asked.rounds(ROUNDS as u32) {
        let from = used(rt);
        for _ in 0..MADE {
            let (manager, opener) = Manager::for_server(rt.alloc(), config)?;
            manager.finish(opener);
        }
        times.note(used(rt).saturating_sub(from), u64::from(MADE));
    }
    if !asked.check {
        let time = times.spread();
        println!(rt;
            "    {:<38} {sessions:>4}          {time}",
            "a manager made and finished"
        )?;
    }
    Ok(())
}

/// Prints the tables of times, or where `asked` is for a check what fewer of the same steps count; meanwhile
/// `progress` is shown.
pub fn print<R: Threads + Wait + Clock + CpuClock + AllocGlobal + Print + Eprint + Sync>(
    rt: &R,
    asked: Asked,
    progress: Progress,
) -> Result<()> {
    print_rows_heading(rt, "managers of more and more sessions", asked.check)?;
    for sessions in &SESSIONS {
        progress.note(rt, "managers of up to 1024 sessions");
        print_memory(rt, *sessions)?;
        print_making(rt, asked, *sessions)?;
        for act in &ACTS {
            print_row(rt, Plan::of(*act, *sessions, 1, 0), asked, None)?;
        }
    }
    progress.note(rt, "1024 threads");
    print_crowd(rt, asked, MOST_SESSIONS)
}
