//! Tests of the crates up to the shared table and of the language of scripts, in a crate of their own: those
//! crates have none, so that each is proved once. Apart from its tests there is nothing here.
#![tactic(auto)]

#[cfg(test)]
mod fixtures;
#[cfg(test)]
mod local;
#[cfg(test)]
mod modes;
#[cfg(test)]
mod queues;
#[cfg(test)]
mod records;
#[cfg(test)]
mod script;
#[cfg(test)]
mod shared;
#[cfg(test)]
mod slot_words;
#[cfg(test)]
mod tables;
#[cfg(test)]
mod words;
