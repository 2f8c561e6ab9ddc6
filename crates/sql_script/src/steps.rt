//! What a session plays of its statements, and the lines of a script that say it.
ghost use Rattle.std.specs.Prelude.{◌≡◌, ◌++◌, map, string_bytes, IfOk};
ghost use Rattle.std.specs.List.{flat_map};
ghost use Rattle.sql_script.specs.Steps.{line_text, text_of, steps_in};

use crate::turns::Turn;
use modes_core::{Mode, Owner, Tag};
use std::alloc::{AllocError, Global};

/// One thing that a session does for a statement.
#[derive(Clone, Copy, PartialEq, Eq)]
pub enum Step {
    /// The session takes a lock, and waits for it if need be.
    Lock { tag: Tag, mode: Mode, owner: Owner },
    /// The session takes a lock, if nothing is in the way.
    Try { tag: Tag, mode: Mode, owner: Owner },
    /// The session gives one count of a lock of its own back.
    Unlock { tag: Tag, mode: Mode, owner: Owner },
    /// The session gives back all advisory locks that it owns itself.
    UnlockAll,
    /// The transaction ends with what it did.
    Commit,
    /// The transaction ends without what it did.
    Abort,
    /// A level of the transaction begins, as a savepoint does.
    Begin,
    /// The innermost level ends with what it did.
    SubCommit,
    /// The innermost level ends without what it did.
    SubAbort,
}

/// The line of a script by which the session named `session` does `step`.
pub fn line_of(alloc: Global, session: &str, step: Step) -> Result<String, AllocError>
    ensures { IfOk result (λ line. string_bytes line ≡ line_text session.now step) }
{
    match step {
        Step::Lock { tag, mode, owner } => {
            let whose = whose(owner);
            format!(in alloc; "lock {session} {tag} {mode}{whose}")
        }
        Step::Try { tag, mode, owner } => {
            let whose = whose(owner);
            format!(in alloc; "try {session} {tag} {mode}{whose}")
        }
        Step::Unlock { tag, mode, owner } => {
            let whose = whose(owner);
            format!(in alloc; "unlock {session} {tag} {mode}{whose}")
        }
        Step::UnlockAll => format!(in alloc; "unlock_all {session}"),
        Step::Commit => format!(in alloc; "commit {session}"),
        Step::Abort => format!(in alloc; "abort {session}"),
        Step::Begin => format!(in alloc; "begin {session}"),
        Step::SubCommit => format!(in alloc; "subcommit {session}"),
        Step::SubAbort => format!(in alloc; "subabort {session}"),
    }
}

/// The word by which a line names the owner of a lock, `owner`, with a space before the word: none where the
/// transaction owns the lock.
fn whose(owner: Owner) -> &'static str
    ensures { result.now ≡ text_of owner }
{
    match owner {
        Owner::Transaction => "",
        Owner::Session => " session",
    }
}

/// The lines of a script by which the session named `session` plays `turns`: one for each of their steps, in
/// order.
pub fn lines_of(alloc: Global, session: &str, turns: &[Turn]) -> Result<Vec<String>, AllocError>
    ensures { IfOk result (λ lines. map string_bytes lines.items ≡ map (line_text session.now) (steps_in turns.now)) }
{
    let mut lines = Vec::new(alloc);
    for turn in turns {
        push_lines(&mut lines, alloc, session, &turn.steps)?;
    }
    Ok(lines)
}

/// Adds to `lines` the lines by which the session named `session` does `steps`.
fn push_lines(
    lines: &mut Vec<String>,
    alloc: Global,
    session: &str,
    steps: &Vec<Step>,
) -> Result<(), AllocError>
    ensures { IfOk result (λ done. map string_bytes lines.new.items ≡
        map string_bytes lines.old.items ++ map (line_text session.now) steps.now.items) }
{
    for step in steps {
        let line = line_of(alloc, session, *step)?;
        if lines.push(line).is_err() {
            return Err(AllocError);
        }
    }
    Ok(())
}
