//! The fast path: weak locks on relations in a session's own slots, the counters by which strong locks
//! announce themselves, and the transfer that moves slots out of a strong lock's way into the lock table. All
//! of it works over any board.
#![tactic(auto)]

mod grants;
mod listing;
mod releases;
mod slot_words;
mod transfers;
mod use_counts;

pub use grants::{grant, try_grant};
pub use listing::slot_rows;
pub use releases::ungrant;
pub use slot_words::SLOTS;
pub use transfers::transfer;
pub use use_counts::UseCounts;
