//! The wait queue of an object: what a lock request is answered, what a release wakes, and what becomes
//! of the queue when a waiter leaves it. All of it works on any keeper of a partition's content.
#![tactic(auto)]

mod queues;
mod releases;
mod removals;
mod requests;

pub use queues::{Blocker, blockers_of, queue_of};
pub use releases::{awaited_in_conflict, take_hold_out};
pub use removals::remove_waiter;
pub use requests::{Decision, Kind, decide};
