//! Whose line comes next in an order: in the script's own, in the next of all, and in one that is drawn.
ghost use Rattle.std.specs.Prelude.{◌≡◌};

use super::{Orders, Phase};
use rand_core::Rng;
use std::alloc::AllocError;

/// Whose line comes next in an order.
pub(super) enum Choice {
    /// The next line is this session's.
    Of(usize),
    /// The order has ended: no session that has lines left can go on.
    Ended,
    /// The order is given up: another one that ends alike is run in its place.
    GivenUp,
}

impl Orders<'_> {
    ghost use Rattle.script_orders.specs.Turns.{KeepsOrder};

    /// Answers whose line comes next in the order that is run now.
    pub(super) fn choose(&mut self) -> Result<Choice, AllocError>
        ensures { KeepsOrder self.old self.new }
    {
        match self.phase {
            Phase::Own => Ok(self.choose_own()),
            Phase::All => self.choose_untried(),
            Phase::Drawn => Ok(self.draw()),
            Phase::Over => Ok(Choice::GivenUp),
        }
    }

    /// Whose line comes next in the script's own order. The lines of a session that waits are put off.
    fn choose_own(&mut self) -> Choice
        ensures { KeepsOrder self.old self.new }
    {
        for (session, lines) in self.put_off.iter_mut().enumerate() {
            if *lines > 0 && !self.played.waits(session) {
                *lines = (*lines).saturating_sub(1);
                return Choice::Of(session);
            }
        }
        for _ in self.looked_at..self.script_lines.own_merge.len() {
            let Some(session) = self.script_lines.own_merge.get(self.looked_at).copied() else {
                return Choice::Ended;
            };
            self.looked_at = self.looked_at.saturating_add(1);
            if !self.played.waits(session) {
                return Choice::Of(session);
            }
            if let Some(lines) = self.put_off.get_mut(session) {
                *lines = (*lines).saturating_add(1);
            }
        }
        Choice::Ended
    }

    /// Whose line comes next where all orders are run, one after another.
    fn choose_untried(&mut self) -> Result<Choice, AllocError>
        ensures { KeepsOrder self.old self.new }
    {
        if let Some(session) = self.search.session_at(self.order.steps.len()) {
            return Ok(Choice::Of(session));
        }
        let mut sessions = Vec::new(self.alloc);
        let mut is_any = false;
        for session in (0..self.order.taken.len()).rev() {
            if self.can_go_on(session) {
                is_any = true;
                if !self.comes_late(session) && !self.passes_one_over(session) {
                    sessions.push(session)?;
                }
            }
        }
        if !is_any {
            return Ok(Choice::Ended);
        }
        match self.search.add(sessions)? {
            Some(session) => Ok(Choice::Of(session)),
            None => Ok(Choice::GivenUp),
        }
    }

    /// Whose line comes next in an order that is drawn: a session that can go on is the more likely the more
    /// lines it has left.
    fn draw(&mut self) -> Choice
        ensures { KeepsOrder self.old self.new }
    {
        let mut left = 0usize;
        for session in 0..self.order.taken.len() {
            left = left.saturating_add(self.lines_to_draw(session));
        }
        if left == 0 {
            return Choice::Ended;
        }
        let mut drawn = (self.generator.next_u64() % (left as u64)) as usize;
        for session in 0..self.order.taken.len() {
            let lines = self.lines_to_draw(session);
            if drawn < lines {
                return Choice::Of(session);
            }
            drawn = drawn.saturating_sub(lines);
        }
        Choice::Ended
    }

    /// How many lines `session` has left if it can go on, and else none.
    fn lines_to_draw(&self, session: usize) -> usize {
        if !self.can_go_on(session) {
            return 0;
        }
        let lines = self
            .script_lines
            .actors
            .get(session)
            .map_or(0, |actor| actor.lines.len());
        let taken = self.order.taken.get(session).copied().unwrap_or(0);
        lines.saturating_sub(taken)
    }

    /// Whether `session` has a line left, doesn't wait, and names in that line no session that is closed.
    fn can_go_on(&self, session: usize) -> bool {
        let Some(line) = self.next_line_of(session) else {
            return false;
        };
        if self.played.waits(session) {
            return false;
        }
        match line
            .named()
            .and_then(|name| self.script_lines.place_of(name))
        {
            Some(other) => other == session || self.played.is_open(other),
            None => true,
        }
    }

    /// Whether the next line of `session` could have come before a line of a later session, with no line from
    /// that one on that it has to do with. If so, the order in which it comes before ends alike, and is run
    /// earlier.
    fn comes_late(&self, session: usize) -> bool {
        let Some(line) = self.order.taken.get(session).copied() else {
            return false;
        };
        let told_at = self.played.told_at(session);
        for place in (told_at..self.order.steps.len()).rev() {
            if let Some(step) = self.order.steps.get(place) {
                if step.session == session
                    || self.ties.meet(session, line, step.session, step.line)
                {
                    return false;
                }
                if step.session > session {
                    return true;
                }
            }
        }
        false
    }

    /// Whether the next line of `session`, if it comes now, has the next line of an earlier session come late
    /// for good: no line is left that the earlier session's line has to do with.
    fn passes_one_over(&self, session: usize) -> bool {
        let Some(own) = self.order.taken.get(session).copied() else {
            return false;
        };
        for other in 0..session {
            if self.can_go_on(other) {
                if let Some(line) = self.order.taken.get(other).copied() {
                    if !self.ties.meet(other, line, session, own)
                        && !self
                            .ties
                            .meets_one_left(other, line, self.order.taken.as_slice())
                    {
                        return true;
                    }
                }
            }
        }
        false
    }
}
