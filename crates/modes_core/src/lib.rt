//! The words that every crate of the lock manager shares: lock modes with their conflict table, lock
//! tags with their hash, session numbers, owners and refusals.
#![tactic(auto)]

mod mode_sets;
mod modes;
mod refusals;
mod sessions;
mod tags;

pub use mode_sets::{
    ModeSet, conflict_is_symmetric, conflicts, slot_modes_conflict_with_counted_ones,
};
pub use modes::Mode;
pub use refusals::{How, Refusal};
pub use sessions::{MOST_SESSIONS, Owner, SessionId, USUAL_SESSIONS};
pub use tags::{LockMethod, PARTITIONS, STRONG_COUNTERS, Tag, is_eligible, is_strong};
