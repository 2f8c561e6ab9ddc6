//! The orders of a small script: the lines of its sessions merged in each way that keeps every session's own
//! order, and how often each way to end comes. Of orders that differ only in neighbouring lines that have
//! nothing to do with one another one is run.
#![tactic(auto)]

mod ends;
mod faults;
mod merges;
mod options;
mod orders;
mod played;
mod progress;
mod reaches;
mod runs;
mod script_lines;
mod search;
mod steps;
mod totals;

pub use faults::{BadLine, OrdersFault, RefusedSession};
pub use merges::next_merge;
pub use options::OrdersOptions;
pub use orders::{Instruction, Orders};
pub use played::News;
pub use progress::OrdersLine;
pub use runs::{Player, run_orders};
pub use steps::{Order, Step};
