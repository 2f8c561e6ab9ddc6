//! What a session holds, how often and for which owner: the local lock table (`LOCALLOCK` with its
//! `LOCALLOCKOWNER` array in lock.h), which answers a second acquire of a held mode and the release of
//! one of several counts with no look at shared state.
#![tactic(auto)]

mod answers;
mod ends;
mod entries;
mod levels;
mod looks;
mod records;
mod slots;
mod tables;

pub use answers::{Acquired, AtOnce, Unlocked};
pub use ends::End;
pub use entries::Entries;
pub use levels::MOST_LEVELS;
pub use records::Entry;
pub use tables::{LocalTable, MOST_LOCAL};
