//! Who is in the way of a session that begins to wait, and the queue that it joins.

use super::Timeline;
use crate::bars::{Arrow, Way, held_on, is_in_the_way};
use crate::lanes::Name;
use modes_core::{Mode, Tag, conflicts};
use std::alloc::AllocError;

impl Timeline {
    /// Adds an arrow from the bar numbered `from` to the bar of each held lock that is in the way of `mode`
    /// on `tag` for the session of `lane`.
    pub(super) fn add_holders(
        &mut self,
        lane: u32,
        from: u32,
        tag: Tag,
        mode: Mode,
    ) -> Result<(), AllocError> {
        let mut to = 0_u32;
        for bar in &self.bars {
            if bar.is_held() && is_in_the_way(bar, lane, tag, mode) {
                let way = Way::Holds;
                self.arrows.push(Arrow { from, to, way })?;
            }
            to = to.saturating_add(1);
        }
        Ok(())
    }

    /// Has the bar numbered `from` join the wait queue of `tag`: at the end, or before the first bar that
    /// waits for what the session of `lane` holds (`ProcSleep` in proc.c). Adds an arrow from the bar to each
    /// bar before it in the wait queue that is in the way of `mode`.
    pub(super) fn join_queue(
        &mut self,
        lane: u32,
        from: u32,
        tag: Tag,
        mode: Mode,
    ) -> Result<(), AllocError> {
        let held = held_on(self.bars.as_slice(), lane, tag);
        let mut joined = Vec::new(self.alloc);
        let mut is_in = false;
        for to in &self.queue {
            if let Some(bar) = self.bars.get(*to as usize) {
                if !is_in && bar.tag == tag && conflicts(bar.mode).meets(held) {
                    joined.push(from)?;
                    is_in = true;
                }
                if !is_in && is_in_the_way(bar, lane, tag, mode) {
                    let (to, way) = (*to, Way::StandsBefore);
                    self.arrows.push(Arrow { from, to, way })?;
                }
            }
            joined.push(*to)?;
        }
        if !is_in {
            joined.push(from)?;
        }
        self.queue = joined;
        Ok(())
    }

    /// Takes the wait of the session `name` out of the wait queue, if the session waits, and answers the
    /// number of the bar of the wait.
    pub(super) fn leave_queue(&mut self, name: &Name) -> Option<u32> {
        let lane = self.lane_of(name)?;
        let mut number = 0_u32;
        for bar in &self.bars {
            if bar.lane == lane && bar.is_awaited() {
                self.queue.retain(|waiting| *waiting != number);
                return Some(number);
            }
            number = number.saturating_add(1);
        }
        None
    }
}
