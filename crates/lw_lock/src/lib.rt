//! A lightweight lock (`LWLock` in lwlock.c): how a session acquires it, tries it, and releases it, whatever
//! it guards.
#![tactic(auto)]

mod acquires;
mod guarded;
mod held;
mod pauses;
mod releases;

pub use acquires::{acquire, acquire_changed, acquire_held};
pub use guarded::{Acquirable, Guarded, Lost};
pub use held::Held;
pub use pauses::MOST_LOST;
pub use releases::release;
