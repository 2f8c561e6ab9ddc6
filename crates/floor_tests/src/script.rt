//! The language of scripts. The tests are texts, and each part of the language once, since no clause says
//! that memory and bytes are there.

mod commands;
mod faults;
mod lines;
mod sessions;
