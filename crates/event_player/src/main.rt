//! Runs scripts of events on the plain machine, and compares what it shows with what they say. The words of
//! the command line name the scripts.
#![tactic(auto)]

mod long_run;
mod looks;
mod one_list;
mod play;
mod steps;
mod words;

use anyhow::Result;
use play::play_script;
use std::process::ExitCode;
use std::{env, fs};

/// Plays by `rt` the scripts that the command line names, and the long run. The status is that of a failure
/// where a script or the long run shows something else than it should.
fn main(rt: HostRuntime) -> Result<ExitCode> {
    let names: Vec<String> = env::args(&rt)?.collect(rt.alloc())?;
    let mut is_right = true;
    for name in names.iter().skip(1) {
        println!(rt; "{name}")?;
        let script = fs::read_to_string(&rt, name.as_str())?;
        if !play_script(&rt, script.as_str())? {
            is_right = false;
        }
    }
    println!(rt; "a long run")?;
    if !long_run::is_right(rt.alloc())? {
        println!(rt; "WRONG")?;
        is_right = false;
    }
    Ok(if is_right {
        ExitCode::SUCCESS
    } else {
        ExitCode::FAILURE
    })
}
