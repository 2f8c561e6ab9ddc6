//! The shared table of atomic words under one rule: where each word stands, what each session's seat knows,
//! and what holds between any two steps.
#![tactic(auto)]

mod audits;
mod board;
mod busy;
mod counters;
mod gatherings;
mod history;
mod kept;
pub mod laws;
mod layout;
mod lists;
mod locks;
mod lw_locks;
mod one_thread;
mod opener;
pub mod order_laws;
mod parks;
mod part_locks;
mod partitions;
mod plays;
mod queues;
mod rule;
mod seat_board;
mod seats;
mod sharing;
mod slot_locks;
mod slots;
mod table;
pub mod table_laws;
mod waits;
mod wakeups;
mod words;

pub use audits::Audit;
pub use board::Board;
pub use busy::Busy;
pub use gatherings::Absent;
pub use history::{History, Mark, View, WordMark};
pub use kept::Kept;
pub use layout::{
    CONTENT_SHELVES, content_shelf, database_word, fast_word, partition_word, sleep_word,
    slot_word, strong_word, table_shelves, table_words, wait_word,
};
pub use one_thread::OneThread;
pub use opener::SeatOpener;
pub use rule::{LockTableRule, Seat, SharedWords, TableSizes};
pub use seat_board::SeatBoard;
pub use table::{SharedTable, in_shelves, open};
