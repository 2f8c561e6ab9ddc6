//! Tests of what is said of SQL statements, in a crate of their own. Apart from its tests there is nothing
//! here.
#![tactic(auto)]

#[cfg(test)]
mod command_examples;
#[cfg(test)]
mod commands;
#[cfg(test)]
mod named_modes;
#[cfg(test)]
mod page_forms;
#[cfg(test)]
mod page_rows;
#[cfg(test)]
mod pages;
#[cfg(test)]
mod reports;
#[cfg(test)]
mod scripts;
#[cfg(test)]
mod words;
