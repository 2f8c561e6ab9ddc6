//! What the sessions of a script were answered, kept as bars.
ghost use Rattle.std.specs.Prelude.{◌≡◌, ◌==◌};
ghost use Rattle.std.specs.List.{list_any};

mod waits;

use crate::bars::{Arrow, Bar};
use crate::labels::Labels;
use crate::lanes::{Lane, Name};
use modes_core::{LockMethod, Mode, Owner, Tag};
use std::alloc::{AllocError, Global};

/// How many steps a timeline shows at most. Later lines of the script are left out, and the picture says from
/// which on.
pub const MOST_STEPS: usize = 2000;

/// How often an owner has a lock. The owner is the session itself, or its transaction at one level.
#[derive(Clone, Copy)]
struct Claim {
    lane: u32,
    /// The number of the bar of the claimed lock.
    bar: u32,
    /// The level of the transaction that has the lock, or 0 where the session itself is the owner.
    level: u32,
    count: u32,
}

/// What the sessions of a script were answered so far, to be drawn as a picture. A step is a line of the
/// script with a command.
#[derive(Drop)]
pub struct Timeline {
    pub(crate) alloc: Global,
    /// The number of the script's line of each step of the timeline.
    pub(crate) steps: Vec<u32>,
    pub(crate) lanes: Vec<Lane>,
    pub(crate) bars: Vec<Bar>,
    pub(crate) arrows: Vec<Arrow>,
    /// The number of the script's first line that the timeline leaves out, if there is one.
    pub(crate) left_out: Option<u32>,
    labels: Labels,
    claims: Vec<Claim>,
    /// The numbers of the bars whose sessions wait; those of each object are in the order of the object's
    /// wait queue.
    queue: Vec<u32>,
}

/// The number of the next step, lane or bar where there are `length` so far: they are numbered from 0.
fn next_of(length: usize) -> u32 {
    u32::try_from(length).unwrap_or(u32::MAX)
}

impl Timeline {
    /// A timeline with no step and no session, which grows by `alloc`.
    pub fn new(alloc: Global) -> Self {
        Timeline {
            alloc,
            steps: Vec::new(alloc),
            lanes: Vec::new(alloc),
            bars: Vec::new(alloc),
            arrows: Vec::new(alloc),
            left_out: None,
            labels: Labels::new(alloc),
            claims: Vec::new(alloc),
            queue: Vec::new(alloc),
        }
    }

    /// Begins the step of the script's line `number`: what is noted next is of this step. After `MOST_STEPS`
    /// steps, only the number of the first line that is left out is kept. Refused only where memory ran out.
    pub fn begin_line(&mut self, number: u32) -> Result<(), AllocError> {
        if self.steps.len() < MOST_STEPS {
            self.steps.push(number)?;
        } else if self.left_out.is_none() {
            self.left_out = Some(number);
        }
        Ok(())
    }

    /// Adds a lane for the session `name`, which was opened. Refused only where memory ran out.
    pub fn open(&mut self, name: Name) -> Result<(), AllocError> {
        if self.left_out.is_some() {
            return Ok(());
        }
        let lane = Lane::new(self.alloc, name);
        self.lanes.push(lane)?;
        Ok(())
    }

    /// Notes that the object `tag` was given the name `name`, which later labels show in place of the tag.
    /// Refused only where memory ran out.
    pub fn name_object(&mut self, tag: Tag, name: &str) -> Result<(), AllocError> {
        self.labels.push(tag, name)
    }

    /// Notes that the session `name` was granted `mode` on `tag` for `owner`, once more if the session had
    /// the lock already. Refused only where memory ran out.
    pub fn grant(
        &mut self,
        name: &Name,
        tag: Tag,
        mode: Mode,
        owner: Owner,
    ) -> Result<(), AllocError> {
        let Some(lane) = self.lane_of(name) else {
            return Ok(());
        };
        let bar = match self.held_bar(lane, tag, mode) {
            Some(bar) => bar,
            None => {
                let got = Some(self.step());
                self.add_bar(lane, tag, mode, got)?
            }
        };
        self.claim(lane, bar, owner)
    }

    /// Notes that the session `name` waits for `mode` on `tag`, for `owner`. Refused only where memory ran
    /// out.
    pub fn wait(
        &mut self,
        name: &Name,
        tag: Tag,
        mode: Mode,
        owner: Owner,
    ) -> Result<(), AllocError> {
        let Some(lane) = self.lane_of(name) else {
            return Ok(());
        };
        let bar = self.add_bar(lane, tag, mode, None)?;
        self.claim(lane, bar, owner)?;
        self.add_holders(lane, bar, tag, mode)?;
        self.join_queue(lane, bar, tag, mode)
    }

    /// Notes that the session `name`, which waited for a lock, got it.
    pub fn go_on(&mut self, name: &Name) {
        let step = self.step();
        if let Some(bar) = self.leave_queue(name) {
            if let Some(it) = self.bars.get_mut(bar as usize) {
                it.got = Some(step);
            }
        }
    }

    /// Notes that the session `name`, which waited for a lock, gave up its wait.
    pub fn give_up(&mut self, name: &Name) {
        if let Some(bar) = self.leave_queue(name) {
            self.claims.retain(|claim| claim.bar != bar);
            self.end_unclaimed();
        }
    }

    /// Notes that the session `name` gave back one count of `mode` on `tag` for `owner`.
    pub fn release(&mut self, name: &Name, tag: Tag, mode: Mode, owner: Owner) {
        let Some(lane) = self.lane_of(name) else {
            return;
        };
        let Some(bar) = self.held_bar(lane, tag, mode) else {
            return;
        };
        let level = self.level_of(lane, owner);
        for claim in &mut self.claims {
            if claim.bar == bar && claim.level == level {
                claim.count = claim.count.saturating_sub(1);
            }
        }
        self.claims.retain(|claim| claim.count > 0);
        self.end_unclaimed();
    }

    /// Notes that the session `name` began a level of its transaction.
    pub fn begin_level(&mut self, name: &Name) {
        let Some(lane) = self.lane_of(name) else {
            return;
        };
        if let Some(it) = self.lanes.get_mut(lane as usize) {
            it.level = it.level.saturating_add(1);
        }
    }

    /// Notes that the session `name` ended the innermost level of its transaction. If `keeps`, the level's
    /// locks go to the level outside it; otherwise they are dropped.
    pub fn end_level(&mut self, name: &Name, keeps: bool) {
        let Some(lane) = self.lane_of(name) else {
            return;
        };
        let level = self.level_of(lane, Owner::Transaction);
        if keeps {
            for claim in &mut self.claims {
                if claim.lane == lane && claim.level == level {
                    claim.level = level.saturating_sub(1);
                }
            }
        } else {
            self.claims
                .retain(|claim| claim.lane != lane || claim.level != level);
        }
        if let Some(it) = self.lanes.get_mut(lane as usize) {
            it.level = level.saturating_sub(1);
        }
        self.end_unclaimed();
    }

    /// Notes that the session `name` committed: the locks of its transaction are dropped.
    pub fn commit(&mut self, name: &Name) {
        let Some(lane) = self.lane_of(name) else {
            return;
        };
        self.claims
            .retain(|claim| claim.lane != lane || claim.level == 0);
        self.end_transaction(lane);
    }

    /// Notes that the session `name` aborted: its locks are dropped, but for the session's own advisory
    /// locks.
    pub fn abort(&mut self, name: &Name) {
        let Some(lane) = self.lane_of(name) else {
            return;
        };
        let bars = &self.bars;
        self.claims.retain(|claim| {
            claim.lane != lane || claim.level == 0 && is_advisory(bars.as_slice(), claim.bar)
        });
        self.end_transaction(lane);
    }

    /// Notes that the session `name` gave all advisory locks back that it owned itself.
    pub fn unlock_all(&mut self, name: &Name) {
        let Some(lane) = self.lane_of(name) else {
            return;
        };
        let bars = &self.bars;
        self.claims.retain(|claim| {
            claim.lane != lane || claim.level != 0 || !is_advisory(bars.as_slice(), claim.bar)
        });
        self.end_unclaimed();
    }

    /// Notes that the session `name` was closed.
    pub fn close(&mut self, name: &Name) {
        let Some(lane) = self.lane_of(name) else {
            return;
        };
        self.claims.retain(|claim| claim.lane != lane);
        self.end_transaction(lane);
        if let Some(it) = self.lanes.get_mut(lane as usize) {
            it.is_closed = true;
        }
    }

    /// The number of the step that was begun last.
    fn step(&self) -> u32 {
        next_of(self.steps.len()).saturating_sub(1)
    }

    /// The number of the lane of the open session `name`, if there is one. Once lines of the script are left
    /// out the answer is `None`.
    fn lane_of(&self, name: &Name) -> Option<u32> {
        if self.left_out.is_some() {
            return None;
        }
        let mut number = 0_u32;
        for lane in &self.lanes {
            if !lane.is_closed && lane.name == *name {
                return Some(number);
            }
            number = number.saturating_add(1);
        }
        None
    }

    /// The level at which `owner` claims a lock for the session of `lane`: 0 for the session itself, or the
    /// level of its transaction.
    fn level_of(&self, lane: u32, owner: Owner) -> u32 {
        match (owner, self.lanes.get(lane as usize)) {
            (Owner::Transaction, Some(it)) => it.level,
            _ => 0,
        }
    }

    /// The number of the bar of the lock in `mode` on `tag` that the session of `lane` has, if it has one.
    fn held_bar(&self, lane: u32, tag: Tag, mode: Mode) -> Option<u32> {
        let mut number = 0_u32;
        for bar in &self.bars {
            if bar.lane == lane && bar.tag == tag && bar.mode == mode && bar.is_held() {
                return Some(number);
            }
            number = number.saturating_add(1);
        }
        None
    }

    /// Adds a bar of `mode` on `tag` that begins in the step begun last, in the first free row of `lane`, and
    /// answers the bar's number. The lock is held from the step `got` on, or awaited where that is `None`.
    fn add_bar(
        &mut self,
        lane: u32,
        tag: Tag,
        mode: Mode,
        got: Option<u32>,
    ) -> Result<u32, AllocError> {
        let asked = self.step();
        let row = match self.lanes.get_mut(lane as usize) {
            Some(it) => it.take_row(asked)?,
            None => 0,
        };
        let number = next_of(self.bars.len());
        let label = self.labels.of(tag, mode)?;
        self.bars.push(Bar {
            lane,
            row,
            tag,
            mode,
            label,
            asked,
            got,
            ended: None,
        })?;
        Ok(number)
    }

    /// Counts the lock of the bar numbered `bar`, in the lane numbered `lane`, once more for `owner`.
    fn claim(&mut self, lane: u32, bar: u32, owner: Owner) -> Result<(), AllocError> {
        let level = self.level_of(lane, owner);
        for claim in &mut self.claims {
            if claim.bar == bar && claim.level == level {
                claim.count = claim.count.saturating_add(1);
                return Ok(());
            }
        }
        self.claims.push(Claim {
            lane,
            bar,
            level,
            count: 1,
        })?;
        Ok(())
    }

    /// Ends all levels of the transaction of the session of `lane`, and the bars of locks that no owner has
    /// any more.
    fn end_transaction(&mut self, lane: u32) {
        if let Some(it) = self.lanes.get_mut(lane as usize) {
            it.level = 1;
        }
        self.end_unclaimed();
    }

    /// Ends the bars of locks that no owner claims any more.
    fn end_unclaimed(&mut self) {
        let step = self.step();
        let mut number = 0_u32;
        for bar in &mut self.bars {
            if bar.ended.is_none() && !is_claimed(self.claims.as_slice(), number) {
                bar.ended = Some(step);
                if let Some(lane) = self.lanes.get_mut(bar.lane as usize) {
                    lane.free_row(bar.row, step.max(bar.label_end()));
                }
            }
            number = number.saturating_add(1);
        }
    }
}

/// Whether one of `claims` is to the lock of the bar numbered `bar`.
fn is_claimed(claims: &[Claim], bar: u32) -> bool
    ensures { result ≡ list_any (λ claim. claim.bar == bar) claims.now }
{
    claims.iter().any(|claim| claim.bar == bar)
}

/// Whether the lock of the bar numbered `number` of `bars` is an advisory one.
fn is_advisory(bars: &[Bar], number: u32) -> bool {
    match bars.get(number as usize) {
        Some(bar) => bar.tag.method() == LockMethod::User,
        None => false,
    }
}
