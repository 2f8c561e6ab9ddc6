//! The advisory locks that a statement takes and gives back.

use crate::faults::{ScriptDefect, ScriptFault};
use crate::steps::Step;
use modes_core::{Mode, Owner, Tag};
use sql_statements::{Advisory, SqlWord, has_part};
use std::alloc::Global;

/// The steps by which a session of `database` takes the advisory locks `taken` or gives them back. Their
/// functions and keys are among `words`.
pub fn advisory_steps(
    alloc: Global,
    database: u32,
    words: &[SqlWord],
    taken: &[Advisory],
) -> Result<Vec<Step>, ScriptFault> {
    let mut steps = Vec::new(alloc);
    for lock in taken {
        steps.push(advisory_step(database, words, lock)?)?;
    }
    Ok(steps)
}

/// The step by which a session of `database` takes the advisory lock `taken` or gives it back, whose function
/// and keys are among `words`. The lock tag of one key has the two halves of its 64 bits and a 1 after them,
/// that of two keys has both and a 2 after them (`SET_LOCKTAG_INT64` and `SET_LOCKTAG_INT32` in lockfuncs.c).
fn advisory_step(database: u32, words: &[SqlWord], taken: &Advisory) -> Result<Step, ScriptFault> {
    let function = match words.get(taken.function) {
        Some(word) => word.text.as_str(),
        None => "",
    };
    if has_part(function, "all") {
        return Ok(Step::UnlockAll);
    }
    let tag = advisory_tag(database, words, taken)?;
    let mode = if has_part(function, "shared") {
        Mode::Share
    } else {
        Mode::Exclusive
    };
    let owner = if has_part(function, "xact") {
        Owner::Transaction
    } else {
        Owner::Session
    };
    if has_part(function, "unlock") {
        Ok(Step::Unlock { tag, mode, owner })
    } else if has_part(function, "try") {
        Ok(Step::Try { tag, mode, owner })
    } else {
        Ok(Step::Lock { tag, mode, owner })
    }
}

/// The lock tag of the advisory lock in `database` that the keys of `taken` name, which are among `words`.
fn advisory_tag(database: u32, words: &[SqlWord], taken: &Advisory) -> Result<Tag, ScriptFault> {
    match taken.second {
        None => {
            let key = key_at(words, taken.first, u64::MAX)?;
            let (high, low) = ((key >> 32) as u32, (key & 0xFFFF_FFFF) as u32);
            Ok(Tag::advisory(database, high, low, 1))
        }
        Some(second) => {
            let first = key_at(words, taken.first, u64::from(u32::MAX))?;
            let second = key_at(words, second, u64::from(u32::MAX))?;
            let (first, second) = ((first & 0xFFFF_FFFF) as u32, (second & 0xFFFF_FFFF) as u32);
            Ok(Tag::advisory(database, first, second, 2))
        }
    }
}

/// The number at `place` among `words`, at most `most`, as a key of an advisory lock.
fn key_at(words: &[SqlWord], place: usize, most: u64) -> Result<u64, ScriptFault> {
    let Some(word) = words.get(place) else {
        return Err(bad_key(words.last()));
    };
    match word.text.as_str().parse::<u64>() {
        Ok(key) if key <= most => Ok(key),
        _ => Err(bad_key(Some(word))),
    }
}

/// The fault of an advisory lock's key that is no number, which `word` is if there is one.
fn bad_key(word: Option<&SqlWord>) -> ScriptFault {
    let (line, from) = match word {
        Some(word) => (word.line, word.from),
        None => (1, 0),
    };
    ScriptFault::Word {
        line,
        what: ScriptDefect::BadKey,
        from,
    }
}
