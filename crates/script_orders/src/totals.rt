//! How many orders a script has.

use crate::script_lines::ScriptLines;
use std::fmt;

/// The largest number that is written with all its digits.
const LARGEST_SHOWN: u64 = 1_000_000_000_000_000;

/// A number, or where it is large its leading digits and how many zeros follow them.
#[derive(Clone, Copy)]
pub struct Total {
    leading: u64,
    zeros: u32,
}

impl Total {
    /// In how many ways the lines of the sessions of `script_lines` can be merged. A session that waits
    /// leaves some of these ways out.
    pub fn of_merges(script_lines: &ScriptLines) -> Self {
        let mut total = Total {
            leading: 1,
            zeros: 0,
        };
        let mut lines: u64 = 0;
        for actor in &script_lines.actors {
            for place in 0..actor.lines.len() {
                lines = lines.saturating_add(1);
                let own = (place as u64).saturating_add(1);
                total = total.times(lines).over(own);
            }
        }
        total
    }

    /// This number times `factor`. What is beyond the leading digits is cut off.
    fn times(self, factor: u64) -> Self {
        let mut total = self;
        for _ in 0..64 {
            match total.leading.checked_mul(factor) {
                Some(leading) => return Total { leading, ..total },
                None => {
                    total.leading /= 10;
                    total.zeros = total.zeros.saturating_add(1);
                }
            }
        }
        total
    }

    /// This number divided by `divisor`, which leaves no remainder but for digits that were cut off.
    fn over(self, divisor: u64) -> Self {
        Total {
            leading: self.leading.checked_div(divisor).unwrap_or(self.leading),
            ..self
        }
    }

    /// Whether the number is at most `limit`.
    pub fn is_at_most(self, limit: u64) -> bool {
        self.zeros == 0 && self.leading <= limit
    }
}

impl fmt::Display for Total {
    fn fmt<W: fmt::Write>(&self, f: &mut fmt::Formatter<W>) -> fmt::Result {
        let mut leading = self.leading;
        let mut zeros = self.zeros;
        if zeros == 0 && leading <= LARGEST_SHOWN {
            return write!(f, "{leading}");
        }
        // Two digits are left of it.
        for _ in 0..20 {
            if leading >= 100 {
                leading /= 10;
                zeros = zeros.saturating_add(1);
            }
        }
        let first = leading / 10;
        let second = leading % 10;
        let exponent = zeros.saturating_add(1);
        write!(f, "{first}.{second} * 10^{exponent}")
    }
}
