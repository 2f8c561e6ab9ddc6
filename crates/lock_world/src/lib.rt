//! The World of a lock manager's atomic steps: where each step is lawful, what is there after it, and what
//! is safe between any two of them.
#![tactic(auto)]

mod events;
pub mod laws;
pub mod trace_laws;
pub mod wake_laws;

pub use events::{Event, Step, Word};
