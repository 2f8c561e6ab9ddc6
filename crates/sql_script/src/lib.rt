//! SQL in scripts: the tables that a script's `schema` makes, and what a session plays for the statements of
//! `do` and `work` lines.
#![tactic(auto)]

mod advisory;
mod asked;
mod awaited;
mod faults;
mod kept;
mod known;
mod levels;
mod lines;
mod manners;
mod script;
mod sessions;
mod steps;
mod turns;
mod verbs;
mod works;

pub use asked::Asking;
pub use awaited::Course;
pub use faults::{ScriptDefect, ScriptFault};
pub use lines::{Heard, Statements, Unplayed};
pub use script::SqlScript;
pub use steps::{Step, line_of, lines_of};
pub use turns::{Manner, Table, Turn};
