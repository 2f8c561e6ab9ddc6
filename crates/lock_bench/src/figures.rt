//! The figures of rows of one thread: lines of a table, and the same for a spreadsheet.

use crate::times::{Spread, Tenths};
use std::alloc::{AllocError, Global};
use std::{fmt, io};

/// A nanosecond, in the tenths that times are kept in.
const NANOSECOND: u64 = 10;

/// What is written above the rows of one thread.
const HEADING: &str =
    "nanoseconds of the thread's processor time with the empty loop taken off, median of 15 rounds (smallest to largest);
    before that, how many sessions there can be, with how many groups of slots, and how many other holds there are;
    then the medians of the bare atomic steps and of a map, and how many times these the row takes";

/// What a row took, with what its bare atomic steps took, and what its work took on a map.
#[derive(Clone, Copy)]
pub struct Figures {
    pub name: &'static str,
    pub sessions: u32,
    pub groups: u32,
    /// How many other objects are held.
    pub beside: u32,
    pub time: Spread,
    pub floor: Spread,
    pub map: Spread,
    /// How many instructions a step takes, where a file of counts was named that has them.
    pub instructions: Option<u64>,
}

/// How many times `whole` the time `part` is; a dash is written where `whole` is less than a nanosecond.
#[derive(Clone, Copy)]
struct Ratio {
    part: Tenths,
    whole: Tenths,
}

impl fmt::Display for Ratio {
    fn fmt<W: fmt::Write>(&self, f: &mut fmt::Formatter<W>) -> fmt::Result {
        if self.whole.0 < NANOSECOND {
            return write!(f, "-");
        }
        let part = self.part.0.saturating_mul(100);
        let ratio = part.checked_div(self.whole.0).unwrap_or(0);
        write!(f, "{}.{:02}", ratio / 100, ratio % 100)
    }
}

impl Figures {
    /// How many times the time of its floor the row took, by the medians.
    fn to_floor(&self) -> Ratio {
        Ratio {
            part: self.time.median,
            whole: self.floor.median,
        }
    }

    /// How many times the time of the map the row took, by the medians.
    fn to_map(&self) -> Ratio {
        Ratio {
            part: self.time.median,
            whole: self.map.median,
        }
    }

    /// Prints the line of the row.
    pub fn print<R: Print>(&self, rt: &R) -> io::Result<()> {
        let Figures {
            name,
            sessions,
            groups,
            beside,
            time,
            ..
        } = *self;
        let (to_floor, to_map) = (self.to_floor(), self.to_map());
        let (floor, map) = (self.floor.median, self.map.median);
        print!(rt;
            "    {name:<38} {sessions:>4} {groups} {beside:>5}  {time}, floor {floor} {to_floor}, map {map} {to_map}"
        )?;
        match self.instructions {
            Some(count) => println!(rt; ", {count} instructions"),
            None => println!(rt; ""),
        }
    }
}

/// Prints the heading of the page `name`: for a `check` the name alone.
pub fn print_rows_heading<R: Print>(rt: &R, name: &str, check: bool) -> io::Result<()> {
    println!(rt; "{name}")?;
    if !check {
        println!(rt; "    {HEADING}")?;
    }
    Ok(())
}

/// Writes `figures` as lines of values with commas between them. The first line names the values. Where
/// something isn't known its value is empty, or a dash.
pub fn csv(alloc: Global, figures: &[Figures]) -> Result<String, AllocError> {
    let mut text = String::new(alloc);
    text.push_str(
        "workload,sessions,groups,held beside it,median ns,smallest ns,largest ns,floor ns,map ns,to the floor,to the map,instructions\n",
    )?;
    for it in figures {
        let line = values_of(alloc, it)?;
        text.push_str(line.as_str())?;
    }
    Ok(text)
}

/// A line with the values of the row `it`. The row's name is in quotation marks, since it may have commas.
fn values_of(alloc: Global, it: &Figures) -> Result<String, AllocError> {
    let mut values = format!(in alloc;
        "\"{}\",{},{},{},{},{},{},{},{},{},{},",
        it.name,
        it.sessions,
        it.groups,
        it.beside,
        it.time.median,
        it.time.least,
        it.time.most,
        it.floor.median,
        it.map.median,
        it.to_floor(),
        it.to_map()
    )?;
    if let Some(count) = it.instructions {
        let last = format!(in alloc; "{count}")?;
        values.push_str(last.as_str())?;
    }
    values.push_str("\n")?;
    Ok(values)
}
