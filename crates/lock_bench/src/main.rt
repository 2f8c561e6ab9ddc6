//! Times the lock manager's parts, a page for each, and ends by itself. With `--check` it makes a small fixed
//! run instead, whose output does not depend on time.
#![tactic(auto)]

mod acts;
mod arguments;
mod crew;
mod doors;
mod figures;
mod files;
mod floors;
mod job;
mod keys;
mod line;
mod local;
mod plain;
mod progress;
mod round;
mod sessions_page;
mod shared_map;
mod steps;
mod threads_page;
mod times;
mod workloads_page;

use crate::arguments::{Page, Wanted, parse};
use crate::files::{Counts, open_file, write_file};
use crate::job::Asked;
use crate::progress::Progress;
use crate::times::see_clocks;
use modes_core::Owner;
use std::env;
use std::fs::Files;
use std::io::{self, IsTerminal, Write};
use std::process::ExitCode;
use std::sync::Wait;
use std::thread::Threads;
use std::time::{Clock, CpuClock};

/// The status of pages that were printed, and of a text that was asked for.
const SUCCESS: u8 = 0;

/// The status of a fault of input, output or memory.
const FAULT: u8 = 1;

/// The status where the program's own words are refused.
const REFUSED_WORDS: u8 = 2;

/// Prints the pages by `rt`. The status is 0, 2 for refused words, and 1 for any other fault.
fn main(rt: HostRuntime) -> ExitCode {
    let mut errors = rt.stderr();
    let is_terminal = errors.is_terminal();
    match run(&rt, read_words(&rt), &mut errors, is_terminal) {
        Ok(status) => ExitCode::from(status),
        Err(error) => {
            // Where the errors can't be written, the status says it alone.
            let _ = writeln!(errors, "error: {error}");
            ExitCode::from(FAULT)
        }
    }
}

/// The words of the command line that `rt` has. The error is want of memory, or a word that is not UTF-8.
fn read_words(rt: &HostRuntime) -> io::Result<Vec<String>> {
    Ok(env::args(rt)?.collect(rt.alloc())?)
}

/// Prints what `words` ask for, and answers the status. What is wrong with `words` is written to `errors`.
/// The progress is shown where `is_terminal`.
fn run<
    R: Threads + Wait + Clock + CpuClock + AllocGlobal + Print + Eprint + Files + Sync,
    E: Write,
>(rt: &R, words: io::Result<Vec<String>>, errors: &mut E, is_terminal: bool) -> anyhow::Result<u8> {
    let words = words?;
    match parse(rt.alloc(), words.as_slice()) {
        Ok(wanted) => {
            let asked = asked_of(words.is_empty(), wanted.check);
            print_pages(rt, &wanted, asked, Progress::new(is_terminal))?;
            Ok(SUCCESS)
        }
        Err(error) if error.use_stderr() => {
            write!(errors, "{error}")?;
            Ok(REFUSED_WORDS)
        }
        Err(error) => {
            print!(rt; "{error}")?;
            Ok(SUCCESS)
        }
    }
}

/// How the pages are asked for: for a check with `check`. Database and owner depend on the command line,
/// which `has_no_words` or has some, so that no call is specialised to them.
fn asked_of(has_no_words: bool, check: bool) -> Asked {
    let (database, owner) = if has_no_words {
        (1, Owner::Session)
    } else {
        (5, Owner::Transaction)
    };
    Asked {
        database,
        owner,
        check,
    }
}

/// Prints the pages that are `wanted`, as `asked` for, with `progress`, and writes the files of figures that
/// are `wanted`.
fn print_pages<R: Threads + Wait + Clock + CpuClock + AllocGlobal + Print + Eprint + Files + Sync>(
    rt: &R,
    wanted: &Wanted<'_>,
    asked: Asked,
    progress: Progress,
) -> anyhow::Result<()> {
    see_clocks(rt)?;
    if let Some(alone) = wanted.alone {
        return workloads_page::make_alone(rt, asked, alone.workload, alone.steps);
    }
    let counts = match wanted.counts {
        Some(name) => Some(Counts::read(rt, name)?),
        None => None,
    };
    workloads_page::see_counts(counts.as_ref())?;
    if let Some(name) = wanted.csv {
        open_file(rt, name)?;
    }
    if wanted.has(Page::Workloads) {
        let figures = workloads_page::print(rt, asked, progress, counts.as_ref())?;
        if let Some(name) = wanted.csv {
            write_file(rt, name, figures.as_slice())?;
        }
    }
    if wanted.has(Page::Threads) {
        threads_page::print(rt, asked, progress)?;
    }
    if wanted.has(Page::Sessions) {
        sessions_page::print(rt, asked, progress)?;
    }
    Ok(())
}
