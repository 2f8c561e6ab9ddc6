//! A timeline as a Gantt chart of Mermaid's, which code hosts draw.

use crate::bars::{Bar, Span};
use crate::timeline::Timeline;
use std::alloc::AllocError;
use std::fmt::Write;

impl Timeline {
    /// Draws the timeline as a Gantt chart of Mermaid, whose time counts the steps from 1: a section for each
    /// session that has a lock or waits for one, with a task for each lock and for each wait. The task of a
    /// wait names the sessions in its way. Refused only where memory ran out.
    pub fn gantt(&self) -> Result<String, AllocError> {
        let mut text = String::new(self.alloc);
        writeln!(text, "gantt")?;
        writeln!(text, "  dateFormat X")?;
        writeln!(text, "  axisFormat %s")?;
        if let Some(line) = self.left_out {
            writeln!(text, "  title Left out is line {line} and what comes later")?;
        }
        let mut number = 0_u32;
        for lane in &self.lanes {
            if lane.has_bars {
                let name = lane.name.as_str();
                writeln!(text, "  section {name}")?;
                self.write_tasks(number, &mut text)?;
            }
            number = number.saturating_add(1);
        }
        Ok(text)
    }

    /// Writes the tasks of the lane numbered `lane` to `text`.
    fn write_tasks(&self, lane: u32, text: &mut String) -> Result<(), AllocError> {
        let mut number = 0_u32;
        for bar in &self.bars {
            if bar.lane == lane {
                self.write_wait(number, bar, text)?;
                self.write_hold(bar, text)?;
            }
            number = number.saturating_add(1);
        }
        Ok(())
    }

    /// Writes to `text` the task for the wait with which `bar`, numbered `number`, begins, if there is one.
    fn write_wait(&self, number: u32, bar: &Bar, text: &mut String) -> Result<(), AllocError> {
        let wait = bar.wait(self.last_step());
        if wait.is_empty() && bar.got.is_some() {
            return Ok(());
        }
        let label = bar.label.as_str();
        write!(text, "  waits for {label}")?;
        let mut word = " behind ";
        for arrow in &self.arrows {
            if arrow.from == number {
                text.push_str(word)?;
                text.push_str(self.name_of(arrow.to))?;
                word = " and ";
            }
        }
        write_time(text, "crit", wait)
    }

    /// Writes to `text` the task for the time in which the session of `bar` held the lock, if the session got
    /// it.
    fn write_hold(&self, bar: &Bar, text: &mut String) -> Result<(), AllocError> {
        let Some(hold) = bar.hold(self.last_step()) else {
            return Ok(());
        };
        write!(text, "  {}", bar.label)?;
        write_time(text, "done", hold)
    }

    /// The name of the session of the bar numbered `number`.
    fn name_of(&self, number: u32) -> &str {
        let lane = match self.bars.get(number as usize) {
            Some(bar) => bar.lane,
            None => return "",
        };
        match self.lanes.get(lane as usize) {
            Some(it) => it.name.as_str(),
            None => "",
        }
    }
}

/// Ends a task's line of `text`: how the task looks, by `kind`, and its steps `span`.
fn write_time(text: &mut String, kind: &str, span: Span) -> Result<(), AllocError> {
    let (from, to) = (span.from.saturating_add(1), span.to.saturating_add(1));
    writeln!(text, " :{kind}, {from}, {to}")
}
