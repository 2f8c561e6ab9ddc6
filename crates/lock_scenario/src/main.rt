//! `lock_scenario`: runs scripts against the lock manager, and says what SQL statements lock.
#![tactic(auto)]

use scenario_program::{Errors, Source, run_program};
use std::io::IsTerminal;
use std::process::ExitCode;
use std::{env, io};

/// Does with standard input what the words of the command line ask for. The status is that of `run_program`.
fn main(rt: HostRuntime) -> ExitCode {
    let reader = rt.stdin();
    let input = Source {
        is_terminal: reader.is_terminal(),
        reader,
    };
    let mut writer = rt.stderr();
    let mut errors = Errors {
        is_terminal: writer.is_terminal(),
        writer: &mut writer,
    };
    let status = run_program(&rt, read_words(&rt), input, rt.stdout(), &mut errors);
    ExitCode::from(status)
}

/// The words of the command line. The error is being out of memory, or a word that is not UTF-8.
fn read_words(rt: &HostRuntime) -> io::Result<Vec<String>> {
    Ok(env::args(rt)?.collect(rt.alloc())?)
}
