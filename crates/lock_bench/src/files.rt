//! The file that the figures of the workloads are written to, and the file with the instructions of a step of
//! each, as `.ci/instructions` writes it: each workload has a line there with its word and its count, and
//! other lines are passed over.

use crate::figures::{Figures, csv};
use anyhow::{Result, anyhow};
use std::fs::{self, File, Files, OpenOptions};
use std::io::Write;

/// The text of a file with the instructions of each workload, and the file's name.
#[derive(Drop)]
pub struct Counts<'a> {
    name: &'a str,
    text: String,
}

impl<'a> Counts<'a> {
    /// Reads the file `name`. The error says that it can't be read.
    pub fn read<R: Files + AllocGlobal>(rt: &R, name: &'a str) -> Result<Counts<'a>> {
        match fs::read_to_string(rt, name) {
            Ok(text) => Ok(Counts { name, text }),
            Err(error) => Err(anyhow!("the file {name} can't be read: {error}")),
        }
    }

    /// The instructions of a step of the workload that `word` names. The error says that the file has no
    /// number for it.
    pub fn of(&self, word: &str) -> Result<u64> {
        for line in self.text.lines() {
            if let Some((name, count)) = line.split_once(' ') {
                if name == word {
                    if let Ok(count) = count.parse::<u64>() {
                        return Ok(count);
                    }
                }
            }
        }
        let name = self.name;
        Err(anyhow!("the file {name} has no count of {word}"))
    }
}

/// Opens the file `name` and closes it, so that nothing is timed in vain; makes it where it isn't there. What
/// is in it stays. The error says that it can't be written.
pub fn open_file<R: Files>(rt: &R, name: &str) -> Result<()> {
    let mut options = OpenOptions::new();
    options.write(true).create(true);
    match options.open(rt, name) {
        Ok(_) => Ok(()),
        Err(error) => Err(anyhow!("the file {name} can't be written: {error}")),
    }
}

/// Writes `figures` to the file `name` in place of the file's content. An error says whether that content is
/// lost.
pub fn write_file<R: AllocGlobal + Files>(rt: &R, name: &str, figures: &[Figures]) -> Result<()> {
    let text = csv(rt.alloc(), figures)?;
    let mut file = match File::create(rt, name) {
        Ok(file) => file,
        Err(error) => return Err(anyhow!(
            "the file {name} can't be written, and is as before: {error}"
        )),
    };
    match file.write_all(text.as_bytes()) {
        Ok(()) => Ok(()),
        Err(error) => Err(anyhow!(
            "the file {name} is written in part, and what it had is lost: {error}"
        )),
    }
}
