//! The packed words of the shared table: lightweight locks' words with their wait lists, the words of
//! fast-path slots, and sessions' wait words.
#![tactic(auto)]

pub mod laws;
mod numbers;
mod slot_words;
mod wait_lists;
mod wait_words;
mod words;

pub use numbers::{has_locked_list, must_wake_after, shared, taken};
pub use slot_words::SlotWord;
pub use wait_lists::{LwWaiter, MOST_TAKEN_OFF, TakenOff, WaitList, Wakeup};
pub use wait_words::{CANCEL_ASKED, SleepState, WaitState, is_asked, wait_state};
pub use words::{LwMode, LwWord};
