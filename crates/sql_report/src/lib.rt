//! What each SQL statement of a text locks, whom that keeps waiting, for how long, and until when: the
//! subcommand `sql` as a function of its words and its streams.
#![tactic(auto)]

mod effects;
mod options;
mod outcome;
mod report;
mod run;
mod texts;

pub use options::{FailOn, SQL, SqlOptions, SqlTask, parse_options, sql_command};
pub use outcome::{Effort, Outcome, are_known, locks_of_acts, modes_on, outcome_of, stopped_by};
pub use report::{Answer, Refused, Report, is_open_after, make_report};
pub use run::{run_sql, status_of};
pub use texts::{fault_text, word_at};
