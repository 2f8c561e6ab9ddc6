//! Whatever sessions in threads do, their lock manager is one plain list of holds and waits: definitions, and
//! laws of every run.
#![tactic(auto)]

pub mod laws;
