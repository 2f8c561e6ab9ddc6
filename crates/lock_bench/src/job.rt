//! A row that is made: what its sessions or threads have and do in a round.

use crate::acts::Act;
use crate::keys::{Key, Keys, NONE};
use crate::local::Local;
use crate::plain::Plain;
use crate::times::ROUNDS;
use modes_core::{Mode, Owner};
use std::alloc::{AllocError, Global};

/// By what the number of steps of a round is divided where nothing is timed.
const STEPS_FOR_CHECKED: u32 = 100;

/// How a page is asked for: with which database and owner, and whether for a check.
#[derive(Clone, Copy)]
pub struct Asked {
    pub database: u32,
    pub owner: Owner,
    /// Whether only one round of fewer steps is made, whose output has no times.
    pub check: bool,
}

impl Asked {
    /// How many of about `steps` steps a round has.
    pub fn steps(self, steps: u32) -> u32 {
        if self.check {
            steps / STEPS_FOR_CHECKED
        } else {
            steps
        }
    }

    /// How many of `rounds` rounds are made.
    pub fn rounds(self, rounds: u32) -> u32 {
        if self.check { 1 } else { rounds }
    }
}

/// A row as it is to be made.
#[derive(Clone, Copy)]
pub struct Plan {
    pub name: &'static str,
    /// What sessions do; or, where there is something `plain` to do, what threads do with the same keys and
    /// without any.
    pub act: Act,
    pub plain: Plain,
    pub keys: Keys,
    pub threads: u32,
    /// How many sessions there can be, with how many groups of slots each.
    pub sessions: u32,
    pub groups: u32,
    /// How many objects of one partition another session has, or how many entries the local table has that is
    /// timed alone.
    pub beside: u32,
    /// For how many nanoseconds each thread works with what it has.
    pub work: u64,
    /// How many steps a thread makes in a round, about.
    pub steps: u32,
    pub rounds: u32,
    /// What is timed beside it, by one thread: the empty loop, the bare atomic steps, and the same work on a
    /// map.
    pub compared: [Plain; 3],
}

impl Plan {
    /// The plan to time `act`, which one session does, or two, in a manager of `sessions` with `groups`
    /// groups of slots each, where another session has `beside` objects.
    pub fn of(act: Act, sessions: u32, groups: u32, beside: u32) -> Self {
        Plan {
            name: act.name(),
            act,
            plain: Plain::Nothing,
            keys: act.keys(),
            threads: act.threads(),
            sessions,
            groups,
            beside,
            work: 0,
            steps: act.steps(),
            rounds: ROUNDS as u32,
            compared: act.compared(),
        }
    }

    /// The plan to time `local` on a local lock table that holds `held` entries, alone.
    pub fn of_local(local: Local, held: u32) -> Self {
        Plan {
            name: local.name(),
            plain: Plain::Local(local),
            keys: local.keys(held),
            compared: local.compared(),
            ..Plan::of(Act::OneRelation, 1, 1, held)
        }
    }
}

/// What one session has and does in a round.
#[derive(Drop)]
struct Share {
    held: Vec<Key>,
    keys: Vec<Key>,
}

/// What all sessions or threads of a round have and do.
#[derive(Drop)]
pub struct Job {
    pub act: Act,
    pub owner: Owner,
    /// How often each goes through its keys.
    pub laps: u32,
    /// How many of them act beside each other, and for how many nanoseconds each works with what it has.
    pub threads: u32,
    pub work: u64,
    shares: Vec<Share>,
}

impl Job {
    /// The job of `plan`, as `asked` for, with lists that grow by `alloc`.
    pub fn new(alloc: Global, plan: &Plan, asked: Asked) -> Result<Self, AllocError> {
        let mut job = Job {
            act: plan.act,
            owner: asked.owner,
            laps: asked
                .steps(plan.steps)
                .checked_div(plan.keys.count)
                .unwrap_or(0)
                .max(1),
            threads: plan.threads,
            work: plan.work,
            shares: Vec::new(alloc),
        };
        for thread in 0..plan.threads {
            let held = if thread == 0 { plan.act.held() } else { NONE };
            let keys = plan.keys.after(plan.act.shift().wrapping_mul(thread));
            job.add(alloc, asked.database, held, keys)?;
        }
        if plan.threads == 1 {
            let crowd = plan.act.held_by_other(plan.beside);
            job.add(
                alloc,
                asked.database,
                crowd.in_mode(Mode::AccessExclusive),
                NONE,
            )?;
        }
        Ok(job)
    }

    /// Adds a session that holds `held` and does the job with `keys`, both in `database`.
    fn add(
        &mut self,
        alloc: Global,
        database: u32,
        held: Keys,
        keys: Keys,
    ) -> Result<(), AllocError> {
        let share = Share {
            held: held.list(alloc, database)?,
            keys: keys.list(alloc, database)?,
        };
        self.shares.push(share)?;
        Ok(())
    }

    /// How many sessions have a part in the job.
    pub fn sessions(&self) -> u32 {
        u32::try_from(self.shares.len()).unwrap_or(u32::MAX)
    }

    /// The keys of the session or thread with the number `number`: none, where it only holds something for
    /// others.
    pub fn keys_of(&self, number: usize) -> &[Key] {
        match self.shares.get(number) {
            Some(share) => share.keys.as_slice(),
            None => &[],
        }
    }

    /// What the session with the number `number` holds in a round.
    pub fn held_by(&self, number: usize) -> &[Key] {
        match self.shares.get(number) {
            Some(share) => share.held.as_slice(),
            None => &[],
        }
    }

    /// How many steps the thread with the number `number` makes in a round.
    pub fn steps_of(&self, number: usize) -> u64 {
        (self.keys_of(number).len() as u64).saturating_mul(u64::from(self.laps))
    }

    /// How many steps all threads make together in a round.
    pub fn steps(&self) -> u64 {
        match self.act {
            // The other one is waited for.
            Act::Blockers => self.steps_of(0),
            _ => self.steps_of(0).saturating_mul(u64::from(self.threads)),
        }
    }

    /// How many of these steps are to be granted.
    pub fn granted(&self) -> u64 {
        self.act.granted(self.steps())
    }

    /// How many holds there are beside those of the job's own steps.
    pub fn held(&self) -> usize {
        self.held_by(0).len().saturating_add(self.held_by(1).len())
    }
}
