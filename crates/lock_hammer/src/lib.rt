//! A hammer on the lock manager: sessions that lock and unlock in threads of their own, and what is counted
//! when they have ended.
#![tactic(auto)]

mod hammer;
mod progress;
mod size;
mod workers;

pub use hammer::{run_hammer, run_watched_hammer};
pub use progress::{Progress, ProgressLine, Unwatched};
pub use size::Hammer;
pub use workers::{Gate, OpenGate};
