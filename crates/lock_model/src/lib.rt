//! The plain machine: it runs any list of events on a World, slowly, and shows what they lead to. Beside it
//! stand the names of the lock table and of the World.
#![tactic(auto)]

mod machine;

pub use lock_table::{Clash, Move, NoMemory, PartTable, PlainPart, Request, TableRow, Waiter};
pub use lock_world::{Event, Step, Word};
pub use machine::{Hold, Plain, QueuedWait, Sleeper, Spot, run_events};
