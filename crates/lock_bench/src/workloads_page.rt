//! The page of workloads: what one thread does, each row beside its own floor and the same work on a map. And
//! one workload alone, with nothing timed, so that its instructions can be counted.

use crate::acts::Act;
use crate::crew::play;
use crate::figures::{Figures, print_rows_heading};
use crate::files::Counts;
use crate::job::{Asked, Plan};
use crate::line::Line;
use crate::local::Local;
use crate::plain::Plain;
use crate::progress::Progress;
use anyhow::{Result, bail};
use std::sync::Wait;
use std::thread::Threads;
use std::time::{Clock, CpuClock};

/// A row: the word that names it where it is made alone, what is done, how many sessions there can be, with
/// how many groups of slots each, and how many objects of its partition another session has.
struct Row(&'static str, Act, u32, u32, u32);

/// The rows of the page. The first ten are the workloads, whose instructions are counted.
static ROWS: [Row; 20] = [
    Row("weak", Act::Weak, 8, 1, 0),
    Row("ten", Act::Ten, 8, 1, 0),
    Row("strong", Act::Strong, 64, 1, 0),
    Row("strong-of-8", Act::Strong, 8, 1, 0),
    Row("object", Act::Object, 8, 1, 10),
    Row("object-crowded", Act::Object, 8, 1, 10_000),
    Row("held", Act::Held, 8, 1, 0),
    Row("refused-relation", Act::RefusedRelation, 8, 1, 0),
    Row("refused-object", Act::RefusedObject, 8, 1, 10),
    Row("refused-object-crowded", Act::RefusedObject, 8, 1, 10_000),
    Row("", Act::Strong, 2, 1, 0),
    Row("", Act::Object, 64, 1, 100),
    Row("", Act::RefusedObject, 64, 1, 100),
    Row("", Act::BySlot, 8, 1, 0),
    Row("", Act::Commit, 8, 1, 0),
    Row("", Act::Ten, 64, 8, 0),
    Row("", Act::Hundred, 64, 1, 0),
    Row("", Act::Hundred, 64, 8, 0),
    Row("", Act::AllSlots, 64, 1, 0),
    Row("", Act::AllSlots, 64, 8, 0),
];

/// The rows of the local table alone, for each of `ENTRIES`, how many entries it has from the start.
static LOCAL: [Local; 8] = [
    Local::HeldPair,
    Local::NewPair,
    Local::ObjectPair,
    Local::Commit,
    Local::InLevel,
    Local::HandUp,
    Local::DropLevel,
    Local::DropLevelOfHeld,
];

static ENTRIES: [u32; 4] = [10, 100, 1_000, 10_000];

impl Row {
    /// The row as it is to be made.
    fn plan(&self) -> Plan {
        let Row(_, act, sessions, groups, beside) = *self;
        Plan::of(act, sessions, groups, beside)
    }

    /// How many instructions a step of the row takes by `counts`, if a file of counts is named and the row is
    /// a workload.
    fn instructions(&self, counts: Option<&Counts<'_>>) -> Result<Option<u64>> {
        match counts {
            Some(counts) if !self.0.is_empty() => Ok(Some(counts.of(self.0)?)),
            _ => Ok(None),
        }
    }
}

/// Refuses `counts` where a workload has no instructions in that file, so that nothing is timed in vain.
pub fn see_counts(counts: Option<&Counts<'_>>) -> Result<()> {
    for row in &ROWS {
        row.instructions(counts)?;
    }
    Ok(())
}

/// Makes all rounds of `plan`, as `asked` for, and prints what they took, or for a check what they counted.
/// Answers the figures, with the number `instructions` that a step takes.
pub fn print_row<R: Threads + Wait + Clock + CpuClock + AllocGlobal + Print + Sync>(
    rt: &R,
    plan: Plan,
    asked: Asked,
    instructions: Option<u64>,
) -> Result<Figures> {
    let mut line = Line::new(rt, plan, asked)?;
    play(rt, &mut line, asked.database)?;
    let figures = line.figures(instructions);
    if asked.check {
        line.print_checked(rt)?;
    } else {
        figures.print(rt)?;
    }
    Ok(figures)
}

/// Prints all rows, as `asked` for, with the instructions of `counts`, and answers their figures; meanwhile
/// `progress` is shown.
pub fn print<R: Threads + Wait + Clock + CpuClock + AllocGlobal + Print + Eprint + Sync>(
    rt: &R,
    asked: Asked,
    progress: Progress,
    counts: Option<&Counts<'_>>,
) -> Result<Vec<Figures>> {
    print_rows_heading(rt, "workloads", asked.check)?;
    let mut all = Vec::new(rt.alloc());
    for row in &ROWS {
        let plan = row.plan();
        progress.note(rt, plan.name);
        let instructions = row.instructions(counts)?;
        all.push(print_row(rt, plan, asked, instructions)?)?;
    }
    for entries in &ENTRIES {
        progress.note(rt, "the local table");
        for local in &LOCAL {
            let plan = Plan::of_local(*local, *entries);
            all.push(print_row(rt, plan, asked, None)?)?;
        }
    }
    Ok(all)
}

/// The workload that `word` names, as it is to be made.
fn plan_of(word: &str) -> Result<Plan> {
    for row in &ROWS {
        if row.0 == word {
            return Ok(row.plan());
        }
    }
    bail!("no workload has the word {word}")
}

/// Makes about `steps` steps of the workload that `word` names, at the database and for the owner that
/// `asked` has, with a manager of its own and without timing them, and prints what they counted. Fewer steps
/// than it has keys become one for each key.
pub fn make_alone<R: Threads + Wait + Clock + CpuClock + AllocGlobal + Print + Sync>(
    rt: &R,
    asked: Asked,
    word: &str,
    steps: u32,
) -> Result<()> {
    let alone = Plan {
        steps,
        rounds: 1,
        compared: [Plain::Nothing, Plain::Nothing, Plain::Nothing],
        ..plan_of(word)?
    };
    let mut line = Line::new(rt, alone, asked)?;
    play(rt, &mut line, asked.database)?;
    line.print_checked(rt)?;
    Ok(())
}
