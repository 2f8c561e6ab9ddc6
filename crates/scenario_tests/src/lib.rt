//! Tests of what scripts do to a lock manager and print, of each text, and of what the program does with its
//! words and streams, in a crate of their own: `scenario` has none, so that it is proved once. Apart from its
//! tests there is nothing here.
#![tactic(auto)]

#[cfg(test)]
mod commands;
#[cfg(test)]
mod hammers;
#[cfg(test)]
mod pipes;
#[cfg(test)]
mod printed;
#[cfg(test)]
mod programs;
#[cfg(test)]
mod requests;
#[cfg(test)]
mod scenes;
#[cfg(test)]
mod scripts;
#[cfg(test)]
mod streams;
#[cfg(test)]
mod texts;
#[cfg(test)]
mod ways;
