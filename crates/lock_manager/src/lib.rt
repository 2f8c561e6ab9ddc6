//! The lock manager: sessions that live in their callers' threads, over one shared table.
#![tactic(auto)]

mod any_board;
mod audit;
mod blocked;
mod calls;
mod config;
mod crews;
mod desk;
mod held;
mod keeper;
pub mod laws;
pub mod list_laws;
mod listing;
mod manager;
mod parts;
mod patience;
mod pool;
mod queues;
mod releases;
mod requests;
mod reuse;
mod sessions;
mod shut_down;
mod unlock_all;
mod waiting;
mod waiting_sessions;

// What an embedder calls, and what it is answered.
pub use blocked::Blocked;
pub use calls::{Answer, Call};
pub use config::{Config, MOST_GROUPS, MOST_SESSIONS, USUAL_SESSIONS};
pub use listing::Listing;
pub use local_locks::{Acquired, MOST_LEVELS, MOST_LOCAL, Unlocked};
pub use lock_table::{SlotRow, TableRow};
pub use manager::{Final, Manager, Opener};
pub use modes_core::{How, Mode, ModeSet, Owner, Refusal, SessionId, Tag};
pub use pool::{SessionLife, SessionPool};
pub use queues::QueueRow;
pub use sessions::Session;
pub use shared_rule::Audit;
pub use wait_queue::Blocker;
pub use waiting::Asked;
pub use waiting_sessions::{Cancelled, Locked, Polled, Started, Waited, Waiting};

// What a program, a proof or a test over any board names.
pub use crews::close_sessions;
pub use desk::{Desk, ManagerDesk};
pub use keeper::Part;
pub use lock_table::PartTable;
pub use sessions::OwnSession;
pub use shared_rule::Board;
pub use waiting_sessions::OwnWaiting;
