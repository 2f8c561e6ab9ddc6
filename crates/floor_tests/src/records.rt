//! The keeper of a partition with lock records and holder records.

mod calls;
mod keepers;
mod rows;
