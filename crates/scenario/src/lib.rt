//! Scripts on the lock manager: what each command of a script does to its sessions, and what it prints.
#![tactic(auto)]

mod answers;
mod calls;
mod desks;
mod driver;
mod json;
mod kept;
mod listener;
mod output;
mod picture;
mod run;
mod runs;
mod sessions;
mod sql_runs;
mod style;
mod summary;
mod text;
mod waits;
mod written;

pub use answers::{Answer, Row, Said};
pub use desks::{OnceDesk, ReusingDesk, ScriptDesk};
pub use driver::{Act, drive};
pub use json::picture_line;
pub use listener::{Listener, tell_answer};
pub use output::Output;
pub use picture::Picture;
pub use run::Scene;
pub use runs::{Keeping, Manner, Script, Turns, run_in_turn, run_script, run_styled_script};
pub use sessions::{Action, ScriptState};
pub use style::{DRAWINGS, Drawing, Form, Pen, Style};
pub use summary::{Obstacle, Summary, WaitEnd, WaitRow};
pub use text::{RowText, SaidText, refusal_text};
pub use written::what_is_heard_is_written;
