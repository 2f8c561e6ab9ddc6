//! The lanes of a timeline, one for each session.
ghost use Rattle.std.specs.Prelude.{◌≡◌, ◌≤◌, false};

use arrayvec::ArrayString;
use std::alloc::{AllocError, Global};

/// The name of a session, of up to 16 bytes.
pub type Name = ArrayString<16>;

/// What a lane keeps for a row that a bar is in, in place of the step from which on the row is free.
const BUSY: u32 = u32::MAX;

/// The lane of a session of a script, with the rows for the session's bars.
#[derive(Drop)]
pub struct Lane {
    pub name: Name,
    /// Whether the lane's session was closed, so that a later session may have its name.
    pub is_closed: bool,
    /// The level of the transaction of the lane's session: 1, and one more for each level begun within.
    pub level: u32,
    /// Whether the lane has a bar.
    pub has_bars: bool,
    /// For each row of the lane, the step from which on the row is free, or `BUSY`.
    rows: Vec<u32>,
}

impl Lane {
    /// The lane of a session that was opened under `name`.
    pub fn new(alloc: Global, name: Name) -> Self
        ensures name { result.name ≡ name }
        ensures open { result.is_closed ≡ false }
        ensures level { result.level ≡ 1 }
    {
        Lane {
            name,
            is_closed: false,
            level: 1,
            has_bars: false,
            rows: Vec::new(alloc),
        }
    }

    /// How many rows the lane's bars need, and no less than one.
    pub fn rows(&self) -> u32
        ensures { 1 ≤ result }
    {
        match u32::try_from(self.rows.len()) {
            Ok(rows) => rows.max(1),
            Err(_) => u32::MAX,
        }
    }

    /// Takes the first row of the lane that is free at the step `step`, or a new one, for a bar, and answers
    /// the row's number. Refused only where memory ran out.
    pub fn take_row(&mut self, step: u32) -> Result<u32, AllocError> {
        self.has_bars = true;
        let mut row = 0_u32;
        for free in &mut self.rows {
            if *free <= step {
                *free = BUSY;
                return Ok(row);
            }
            row = row.saturating_add(1);
        }
        self.rows.push(BUSY)?;
        Ok(row)
    }

    /// Frees the lane's row numbered `row` from the step `step` on.
    pub fn free_row(&mut self, row: u32, step: u32) {
        if let Some(free) = self.rows.get_mut(row as usize) {
            *free = step.min(BUSY - 1);
        }
    }
}
