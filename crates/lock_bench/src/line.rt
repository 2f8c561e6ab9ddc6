//! A row with the times of all its rounds, and of what is done beside it.

use crate::figures::Figures;
use crate::job::{Asked, Job, Plan};
use crate::plain::{Bed, Plain};
use crate::round::Taken;
use crate::times::Times;
use anyhow::{Result, bail};
use std::io;
use std::sync::Wait;
use std::thread::Threads;
use std::time::{Clock, CpuClock};

/// A row with its job and its times.
#[derive(Drop)]
pub struct Line {
    pub plan: Plan,
    pub job: Job,
    bed: Bed,
    /// How many rounds are made.
    pub rounds: u32,
    /// For a step: the time by the clock on the wall and of the processors, of all threads together, and the
    /// longest wait of a round.
    wall: Times,
    processor: Times,
    longest: Times,
    /// For a step: what the empty loop takes, the bare atomic steps, and the same work on the map.
    empty: Times,
    floor: Times,
    map: Times,
    /// How many steps of the last round were granted, or of the first one in which these were more or fewer
    /// than it is of the row; and how many of those on the map.
    granted: u64,
    counted: u64,
}

impl Line {
    /// The line of `plan`, as `asked` for, of which no round was made.
    pub fn new<R: Wait + AllocGlobal>(rt: &R, plan: Plan, asked: Asked) -> Result<Self> {
        let new = Times::new();
        let job = Job::new(rt.alloc(), &plan, asked)?;
        let wanted = job.granted();
        Ok(Line {
            job,
            bed: Bed::new(rt, &plan, asked.database)?,
            rounds: asked.rounds(plan.rounds),
            plan,
            wall: new,
            processor: new,
            longest: new,
            empty: new,
            floor: new,
            map: new,
            granted: wanted,
            counted: 0,
        })
    }

    /// Has one thread, or as many as the job has, do `plain`, once.
    fn play<R: Threads + Wait + Clock + CpuClock + Sync>(&self, rt: &R, plain: Plain) -> Taken {
        match plain {
            Plain::Nothing => Taken::none(),
            _ => self.bed.play_round(rt, plain, &self.job),
        }
    }

    /// Makes all rounds of a row that needs no session, since its threads do `plain`.
    pub fn play_rounds<R: Threads + Wait + Clock + CpuClock + Sync>(
        &mut self,
        rt: &R,
        plain: Plain,
    ) {
        for _ in 0..self.rounds {
            let taken = self.play(rt, plain);
            self.note(rt, taken);
        }
    }

    /// Notes what was `taken` in the next round, and times what is compared with it.
    pub fn note<R: Threads + Wait + Clock + CpuClock + Sync>(&mut self, rt: &R, taken: Taken) {
        let steps = self.job.steps();
        if self.granted == self.job.granted() {
            self.granted = taken.counted;
        }
        self.wall.note(taken.wall(), steps);
        self.processor.note(taken.processor, steps);
        self.longest.note(taken.longest, 1);
        self.compare(rt, steps);
    }

    /// Refuses the row where more or fewer of its steps were granted in a round than it is of the row: the
    /// figures would be of something else.
    pub fn see_granted(&self) -> Result<()> {
        let (granted, wanted) = (self.granted, self.job.granted());
        if granted != wanted {
            let (name, steps) = (self.plan.name, self.job.steps());
            bail!("{name}: of {steps} steps {granted} were granted, in place of {wanted}");
        }
        Ok(())
    }

    /// Times once what the row is compared with, of which each has `steps` steps.
    fn compare<R: Threads + Wait + Clock + CpuClock + Sync>(&mut self, rt: &R, steps: u64) {
        let [empty, floor, map] = self.plan.compared;
        let of_empty = self.play(rt, empty).processor;
        self.empty.note(of_empty, steps);
        let of_floor = self.play(rt, floor).processor;
        self.floor.note(of_floor, steps);
        let of_map = self.play(rt, map);
        self.map.note(of_map.processor, steps);
        self.counted = of_map.counted;
    }

    /// The figures of a row of one thread, with the empty loop taken off, and with the number `instructions`
    /// that a step takes.
    pub fn figures(&self, instructions: Option<u64>) -> Figures {
        let empty = self.empty.spread();
        Figures {
            name: self.plan.name,
            sessions: self.plan.sessions,
            groups: self.plan.groups,
            beside: self.plan.beside,
            time: self.processor.spread().above(empty),
            floor: self.floor.spread().above(empty),
            map: self.map.spread().above(empty),
            instructions,
        }
    }

    /// Prints what the last round counted, which depends on no time.
    pub fn print_checked<R: Print>(&self, rt: &R) -> io::Result<()> {
        let Plan {
            name,
            sessions,
            threads,
            ..
        } = self.plan;
        let (steps, granted, counted) = (self.job.steps(), self.granted, self.counted);
        println!(rt;
            "    {name}, sessions {sessions}, threads {threads}: {steps} steps, granted {granted}, of the map {counted}"
        )
    }

    /// Prints the time of a step by the clock and of the processors, and the longest wait in microseconds; or
    /// for a `check` what was counted.
    pub fn print_in_threads<R: Print>(&self, rt: &R, check: bool) -> io::Result<()> {
        if check {
            return self.print_checked(rt);
        }
        println!(rt;
            "    {:<36} {:>3} us   by the clock {}, of processors {}, longest wait {}",
            self.plan.name,
            self.plan.work / 1_000,
            self.wall.spread(),
            self.processor.spread().median,
            self.longest.spread().median.0 / 10_000
        )
    }
}
