//! The program over scripts: the words of its command line, a shell, orders, pictures of a whole script, help
//! and the man page.
#![tactic(auto)]

mod arguments;
mod failures;
mod forms;
mod helps;
mod hints;
mod man;
mod mode_help;
mod modes;
mod options;
mod orders;
mod outcome;
mod program;
mod run_words;
mod shell;
mod statement_rows;
mod statements;
mod statuses;
mod timelines;
mod topics;

pub use arguments::{NoRun, Task, parse_arguments};
pub use modes::print_modes;
pub use options::{FailOn, RunOptions};
pub use program::{Errors, Source, run_program};
pub use script_orders::OrdersOptions;
pub use shell::{ShellOptions, run_shell};
pub use timelines::draw_script;
