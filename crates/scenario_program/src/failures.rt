//! What ends the program before its work is done, and what it says of that.
ghost use Rattle.std.specs.Prelude.{◌≡◌, ◌≤◌, IfSome, None, OnOk, false, string_bytes};
ghost use Rattle.std.specs.Io.KnownBytes.{Appends};
ghost use Rattle.lock_script.specs.Fault.{status_of};
ghost use Rattle.scenario_program.specs.Failures.{failure_text};

use crate::orders::{bad_line_hint, refused_session_text};
use crate::outcome::Outcome;
use lock_manager::Config;
use lock_script::{Defect, Fault};
use script_orders::OrdersFault;
use std::alloc::Global;
use std::io::{self, Write};

/// What ends the program before its work is done.
#[derive(Drop)]
pub struct Failure {
    pub fault: Fault,
    /// The line that is said in place of the fault's own: why SQL can't be played, or which option opens more
    /// sessions.
    pub told: Option<String>,
    /// What may help a person, in lines of its own.
    pub hint: Option<String>,
}

impl From<Fault> for Failure {
    fn from(fault: Fault) -> Self {
        Failure {
            fault,
            told: None,
            hint: None,
        }
    }
}

impl Failure {
    /// What ended a run by `fault`, as `outcome` heard of it. There is a hint only where `hints`.
    pub fn of_run(fault: Fault, outcome: &Outcome, hints: bool) -> Self
        ensures fault { result.fault ≡ fault }
        ensures told { IfSome result.told (λ told. string_bytes told ≡ string_bytes outcome.now.text) }
        ensures plain { hints ≡ false → result.hint ≡ None }
    {
        Failure {
            fault,
            told: outcome.told(&fault),
            hint: if hints { outcome.hint(&fault) } else { None },
        }
    }

    /// What `ended` the orders of a script, which were run against lock managers of the size `config`. There
    /// is a hint only where `hints`.
    pub fn of_orders(alloc: Global, ended: OrdersFault, config: Config, hints: bool) -> Self
        ensures { hints ≡ false → result.hint ≡ None }
    {
        match ended {
            OrdersFault::Other(fault) => Failure {
                fault,
                told: None,
                hint: None,
            },
            OrdersFault::Session(refused) => Failure {
                fault: Fault::BadLine {
                    line: refused.number,
                    what: Defect::NoSuchSession,
                },
                told: refused_session_text(alloc, refused, config).ok(),
                hint: None,
            },
            OrdersFault::Line(bad) => Failure {
                fault: Fault::BadLine {
                    line: bad.number,
                    what: bad.what,
                },
                told: None,
                hint: where_wanted(hints, bad_line_hint(alloc, &bad).ok()),
            },
        }
    }
}

/// The hint `hint`, where hints are wanted by `hints`.
fn where_wanted(hints: bool, hint: Option<String>) -> Option<String>
    ensures { hints ≡ false → result ≡ None }
{
    if hints { hint } else { None }
}

/// Says by `errors` what ended the program, `failure`, and answers the status for that.
pub fn fail<E: Write>(errors: &mut E, failure: &Failure) -> u8
    ensures status { result ≡ status_of failure.now.fault }
    ensures at_most { result ≤ 4 }
{
    // Where the errors can't be written, the status says it alone.
    let _ = write_failure(errors, failure);
    failure.fault.status()
}

/// Writes to `errors` what `failure` says: first the line of its fault, to the letter, or the one that is
/// told in its place; behind that the hint.
fn write_failure<E: Write>(errors: &mut E, failure: &Failure) -> io::Result<()>
    ensures { OnOk result (Appends (E.contents errors.old) (E.contents errors.new) (failure_text failure.now)) }
{
    match &failure.told {
        Some(text) => write!(errors, "{text}")?,
        None => writeln!(errors, "{}", failure.fault)?,
    }
    match &failure.hint {
        Some(text) => write!(errors, "{text}"),
        None => Ok(()),
    }
}
