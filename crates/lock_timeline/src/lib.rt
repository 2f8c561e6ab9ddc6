//! Timelines: what the sessions of a script held and awaited, from line to line, and pictures of it.
#![tactic(auto)]

mod bars;
mod gantt;
mod labels;
mod lanes;
mod svg;
mod timeline;

pub use bars::{Arrow, Bar, Way};
pub use lanes::Name;
pub use timeline::{MOST_STEPS, Timeline};
