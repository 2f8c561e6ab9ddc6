//! The levels that savepoints begin and end.

use crate::faults::{ScriptDefect, ScriptFault};
use crate::sessions::{Savepoint, ScriptSession};
use crate::steps::Step;
use sql_statements::SqlWord;
use std::alloc::{AllocError, Global};

/// What `session` plays for the statement of `words`, which sets a savepoint, releases one or goes back to
/// one. Releasing or going back to a savepoint ends those set after it too, and a savepoint that is gone back
/// to begins anew.
pub fn level_steps(
    alloc: Global,
    session: &mut ScriptSession,
    words: &[SqlWord],
) -> Result<Vec<Step>, ScriptFault> {
    let (Some(first), Some(last)) = (words.first(), words.last()) else {
        return Ok(Vec::new(alloc));
    };
    if !session.is_open {
        return Err(bad_word(first, ScriptDefect::NoTransaction));
    }
    let name = savepoint_name(alloc, last)?;
    let mut steps = Vec::new(alloc);
    if first.is_key_word("savepoint") {
        push_savepoint(session, name)?;
        steps.push(Step::Begin)?;
        return Ok(steps);
    }
    let goes_back = !first.is_key_word("release");
    let end = if goes_back {
        Step::SubAbort
    } else {
        Step::SubCommit
    };
    let Some(place) = place_of(&session.savepoints, name.as_str()) else {
        return Err(bad_word(last, ScriptDefect::NoSavepoint));
    };
    for _ in place..session.savepoints.len() {
        steps.push(end)?;
    }
    if goes_back {
        give_back_to(session, place);
    }
    session.savepoints.truncate(place);
    if goes_back {
        push_savepoint(session, name)?;
        steps.push(Step::Begin)?;
    }
    Ok(steps)
}

/// Adds a savepoint `name` to those of `session`.
fn push_savepoint(session: &mut ScriptSession, name: String) -> Result<(), AllocError> {
    let used = session.used.len();
    match session.savepoints.push(Savepoint { name, used }) {
        Ok(()) => Ok(()),
        Err(_) => Err(AllocError),
    }
}

/// Takes from `session` the locks that it got after its savepoint at `place` was set.
fn give_back_to(session: &mut ScriptSession, place: usize) {
    if let Some(savepoint) = session.savepoints.get(place) {
        session.used.truncate(savepoint.used);
    }
}

/// The place of the last one of `savepoints` whose name is `name`.
fn place_of(savepoints: &Vec<Savepoint>, name: &str) -> Option<usize> {
    let mut found = None;
    for (place, other) in savepoints.iter().enumerate() {
        if other.name.as_str() == name {
            found = Some(place);
        }
    }
    found
}

/// The name of a savepoint that is `word`, in the form in which names are compared.
fn savepoint_name(alloc: Global, word: &SqlWord) -> Result<String, AllocError> {
    let mut name = String::from_str(alloc, word.text.as_str())?;
    if !name.as_str().starts_with('"') {
        name.make_ascii_lowercase();
    }
    Ok(name)
}

/// The fault of `word` that has the defect `what`.
pub fn bad_word(word: &SqlWord, what: ScriptDefect) -> ScriptFault {
    ScriptFault::Word {
        line: word.line,
        what,
        from: word.from,
    }
}
