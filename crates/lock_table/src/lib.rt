//! The lock table: the content of a partition and what each call makes of it, the keeper of a partition
//! that does so, what a content answers a lock request, and the moves that sessions make on contents.
#![tactic(auto)]

mod answering;
mod moves;
mod no_memory;
mod part_lists;
mod part_table;
mod part_waits;
mod parts;
mod plain_part;
pub mod queue_laws;
mod request;
mod rows;
mod waits;

pub use answering::{
    Answer, Clash, answer_by_place, clash_with, clash_with_begun, first_against, is_against,
    waiting_answer,
};
pub use moves::Move;
pub use no_memory::NoMemory;
pub use part_table::PartTable;
pub use parts::empty_parts;
pub use plain_part::PlainPart;
pub use request::Request;
pub use rows::{SlotRow, TableRow, sort_rows};
pub use waits::Waiter;
