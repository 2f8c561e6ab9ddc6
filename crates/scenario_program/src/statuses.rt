//! What a help and the man page say of how the program ends, and of what is printed where a call is refused.

use crate::forms::Wrapped;
use lock_manager::{How, Mode, Refusal, SessionId};
use scenario::refusal_text;
use std::alloc::{AllocError, Global};

/// A status of the program.
struct Status {
    number: u8,
    /// What the status says of a run.
    of_run: &'static str,
    /// What the status says of each way to call the program.
    of_program: &'static str,
}

/// All statuses of the program.
static STATUSES: [Status; 5] = [
    Status {
        number: 0,
        of_run: "the script ended,",
        of_program: "the script, its orders, the SQL, the shell or the hammer ran to their end, or a text was asked for",
    },
    Status {
        number: 1,
        of_run: "input, output or memory failed,",
        of_program: "a fault of input, output or memory",
    },
    Status {
        number: 2,
        of_run: "these words were refused,",
        of_program: "the program's own words were refused",
    },
    Status {
        number: 3,
        of_run: "a bad line,",
        of_program: "a bad line of a script, where what the lines before it printed stays; or a bad SQL statement",
    },
    Status {
        number: 4,
        of_run: "what --fail-on names: a session waits, a call is refused, or a session is left waiting.",
        of_program: "what --fail-on names: of run a wait, a refused call, or somebody left waiting; of sql a statement",
    },
];

/// Adds to `text` what each status says of a run, in lines of a help.
pub fn push_statuses_of_run(alloc: Global, text: &mut String) -> Result<(), AllocError> {
    let mut wrapped = Wrapped::new(alloc, "Status:")?;
    for status in &STATUSES {
        let words = format!(in alloc; "{} {}", status.number, status.of_run)?;
        wrapped.push(words.as_str())?;
    }
    let wrapped = wrapped.finish();
    text.push_str(wrapped.as_str())
}

/// Adds to `text` a line for each status.
pub fn push_statuses(text: &mut String) -> Result<(), AllocError> {
    for status in &STATUSES {
        write!(text, "{}  {}\n", status.number, status.of_program)?;
    }
    Ok(())
}

/// Adds to `text` a line for each refusal that a script can print after the session's name.
pub fn push_refusals(text: &mut String) -> Result<(), AllocError> {
    let session = SessionId::default();
    let mode = Mode::AccessShare;
    for (how, names, why) in [
        (
            How::Held,
            " OTHER MODE held",
            "another session holds a conflicting mode",
        ),
        (
            How::Awaited,
            " OTHER MODE awaited",
            "another session awaits one",
        ),
    ] {
        let refusal = Refusal::Conflict { session, mode, how };
        push_refusal(text, &refusal, names, why)?;
    }
    for (refusal, names, why) in [
        (Refusal::NoMemory, "", "a growth of memory was refused"),
        (
            Refusal::LocalFull,
            "",
            "it has as many locks as it may have",
        ),
        (
            Refusal::CountFull,
            "",
            "the owner took the lock 65535 times",
        ),
        (
            Refusal::SimpleDeadlock { session },
            " OTHER",
            "the two would wait for one another",
        ),
        (Refusal::Busy, "", "of fast: another is at its slots"),
        (
            Refusal::SlotsFull,
            "",
            "of fast: the relation's group is full",
        ),
        (
            Refusal::StrongCounted,
            "",
            "of fast: at the relation's counter",
        ),
        (
            Refusal::NotEligible,
            "",
            "of fast: no weak mode on a relation of\n                                          \
             the session's own database",
        ),
        (
            Refusal::NoMoreSessions,
            "",
            "no number is left for the session",
        ),
        (Refusal::TooDeep, "", "of begin: 16 levels are the most"),
        (
            Refusal::NoNested,
            "",
            "of subcommit, subabort: there is none",
        ),
    ] {
        push_refusal(text, &refusal, names, why)?;
    }
    text.push_str(
        "you don't own a lock of type MODE         of unlock, waiters: the lock isn't owned\n",
    )
}

/// Adds to `text` the line of `refusal`, with what the refusal names by `names` and `why` it comes.
fn push_refusal(
    text: &mut String,
    refusal: &Refusal,
    names: &str,
    why: &str,
) -> Result<(), AllocError> {
    let begin = text.len();
    let number = refusal.number();
    let words = refusal_text(*refusal);
    write!(text, "refused {number} {words}{names}")?;
    let written = text.len().saturating_sub(begin);
    for _ in written..42 {
        text.push(' ')?;
    }
    write!(text, "{why}\n")
}
