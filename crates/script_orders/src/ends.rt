//! How orders end: what is written of each way, and how many orders lead there.
ghost use Rattle.std.specs.Prelude.{◌≡◌, ◌<◌, ◌+◌, ◌-◌, ◌^◌, ◌≤◌, OnOk, OnErr, length};
ghost use Rattle.std.specs.List.{sum_by};
ghost use Rattle.indexmap.specs.IndexSet.{index_set_len};
ghost use Rattle.script_orders.specs.declared.ends.Way.{Way};

use crate::totals::Total;
use indexmap::IndexSet;
use std::alloc::{AllocError, Global};
use std::fmt;
use std::io::{self, Write};

/// What is written after the ways to end, where all orders were run.
const ALL_RUN: &str = "
# all were run, but for those that differ from one of these only in neighbouring
# lines of different sessions that have nothing to do with one another";

/// A way in which orders end: how many orders end in this way, and the first of these orders as a script.
#[derive(Drop)]
pub struct Way {
    pub orders: u32,
    pub script: String,
}

/// A number of orders, which is written with the word for them.
#[derive(Clone, Copy)]
struct Orders(u64);

impl fmt::Display for Orders {
    fn fmt<W: fmt::Write>(&self, f: &mut fmt::Formatter<W>) -> fmt::Result {
        match self.0 {
            1 => write!(f, "1 order"),
            many => write!(f, "{many} orders"),
        }
    }
}

/// Ways in which orders end, the one that came first at the front. Each order that is counted ends in one of
/// these ways.
#[derive(Drop)]
pub struct Ways {
    /// For each way, the text that says how its orders end.
    tellings: IndexSet<String>,
    ways: Vec<Way>,
    /// How many orders are counted: the sum over all of `ways`.
    pub orders: u32,
    ghost each: { index_set_len tellings ≤ length ways.items },
    ghost all: { sum_by (λ (way : Way). way.orders) ways.items ≡ orders },
}

impl Ways {
    /// No ways to end yet, in lists that grow by `alloc`.
    pub fn new(alloc: Global) -> Self
        ensures { result.orders ≡ 0 }
    {
        Ways {
            tellings: IndexSet::new(alloc),
            ways: Vec::new(alloc),
            orders: 0,
        }
    }

    /// Counts an order whose end is described by `told`, and of which `script` is the script. Where there is
    /// no memory nothing is counted.
    pub fn count(&mut self, told: String, script: String) -> Result<(), AllocError>
        requires { self.old.orders < 2 ^ 32 - 1 }
        ensures counted { OnOk result (self.new.orders ≡ self.old.orders + 1) }
        ensures refused { OnErr result (self.new.orders ≡ self.old.orders) }
    {
        match self.tellings.get_index_of(&told) {
            Some(place) => {
                self.ways[place].orders += 1;
            }
            None => {
                self.ways.push(Way { orders: 1, script })?;
                if let Err(refused) = self.tellings.insert(told) {
                    let _ = self.ways.pop();
                    return Err(AllocError::from(refused));
                }
            }
        }
        self.orders += 1;
        Ok(())
    }
}

impl Ways {
    /// Writes the ways to `output`, numbered from `before` plus one on, and with `words` after the head of
    /// each way.
    fn write<W: Write>(&self, output: &mut W, before: usize, words: &str) -> io::Result<()> {
        for (place, (told, way)) in self.tellings.iter().zip(&self.ways).enumerate() {
            let number = before.saturating_add(place).saturating_add(1);
            writeln!(
                output,
                "\n# way {number}: {}{words}",
                Orders(u64::from(way.orders))
            )?;
            write!(output, "{told}{}", way.script)?;
        }
        Ok(())
    }
}

/// How those orders of a script ended that were begun.
#[derive(Drop)]
pub struct Endings {
    /// The ways in which the orders ended that ran to their end.
    ended: Ways,
    /// The ways in which the orders were stuck: no session that has lines left can go on.
    stuck: Ways,
    /// How many orders were given up: others are run in their place.
    given_up: u32,
}

/// Which orders of a script were run.
#[derive(Clone, Copy)]
pub enum Extent {
    /// All orders, but for those that differ only in neighbouring lines that have nothing to do with one
    /// another.
    All,
    /// The first `first` orders, and others that were drawn by `seed`.
    Drawn { first: u64, seed: u32 },
}

impl Endings {
    ghost use Rattle.script_orders.specs.Ends.{begun_of, run_of};

    /// How orders ended, of which none was begun yet, in lists that grow by `alloc`.
    pub fn new(alloc: Global) -> Self
        ensures { begun_of result ≡ 0 }
    {
        Endings {
            ended: Ways::new(alloc),
            stuck: Ways::new(alloc),
            given_up: 0,
        }
    }

    /// How many orders were run to their end, or until they were stuck.
    pub fn run(&self) -> u64
        ensures sum { result ≡ run_of self.now }
        ensures small { result < 2 ^ 33 }
    {
        u64::from(self.ended.orders) + u64::from(self.stuck.orders)
    }

    /// How many orders were begun: those that were run, and those that were given up.
    pub fn begun(&self) -> u64
        ensures { result ≡ begun_of self.now }
    {
        self.run() + u64::from(self.given_up)
    }

    /// Counts an order that was run, whose end is described by `told`, and of which `script` is the script.
    /// `is_stuck` says whether lines are left. Where there is no memory nothing is counted.
    pub fn count(&mut self, told: String, script: String, is_stuck: bool) -> Result<(), AllocError>
        requires { run_of self.old < 2 ^ 32 - 1 }
        ensures counted { OnOk result (run_of self.new ≡ run_of self.old + 1) }
        ensures refused { OnErr result (run_of self.new ≡ run_of self.old) }
        ensures given_up { self.new.given_up ≡ self.old.given_up }
    {
        if is_stuck {
            self.stuck.count(told, script)
        } else {
            self.ended.count(told, script)
        }
    }

    /// Counts an order that was given up.
    pub fn give_up(&mut self)
        requires { self.old.given_up < 2 ^ 32 - 1 }
        ensures given_up { self.new.given_up ≡ self.old.given_up + 1 }
        ensures run { run_of self.new ≡ run_of self.old }
    {
        self.given_up += 1;
    }

    /// Writes to `output` how all orders ended that were run, as a script with comments, and by `extent`
    /// which orders were run. `total` is in how many ways the sessions' lines can be merged.
    pub fn write<W: Write>(&self, output: &mut W, total: Total, extent: Extent) -> io::Result<()> {
        let run = self.run();
        let (ended, stuck) = (self.ended.orders, self.stuck.orders);
        writeln!(
            output,
            "# {} run, of at most {total}: {ended} ended, {stuck} stuck",
            Orders(run)
        )?;
        self.ended.write(output, 0, "")?;
        self.stuck.write(output, self.ended.ways.len(), ", stuck")?;
        match extent {
            Extent::All => writeln!(output, "{ALL_RUN}")?,
            Extent::Drawn { first, seed } => {
                let drawn = run.saturating_sub(first);
                writeln!(
                    output,
                    "\n# not all were run: {first} of the first ones, and {drawn} drawn by seed {seed}"
                )?;
                writeln!(output, "# --limit runs more, --seed draws others")?;
            }
        }
        output.flush()
    }
}
