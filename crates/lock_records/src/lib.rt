//! A partition of the lock table as lock.c keeps it: a lock record for each object that is held or awaited,
//! with counts and masks, and a holder record for each session that holds something of it.
#![tactic(auto)]

mod counts;
mod holders;
mod listing;
mod locks;
mod objects;
mod part;
mod pending;
mod records;
mod sets;
mod tally;
mod wait_queues;

pub use counts::Counts;
pub use part::RecordPart;
pub use tally::Tally;
