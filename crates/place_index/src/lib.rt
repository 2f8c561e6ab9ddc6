//! Chains of places in somebody else's list, which keeps the keys: a table from a 32-bit hash to such places.
#![tactic(auto)]

mod chains;
mod index;
mod links;

pub use index::PlaceIndex;
