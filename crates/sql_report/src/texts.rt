//! What is said of faults, of how long work takes, and of statements.

use sql_locks::{Awaits, Defect, SqlFault, Until, Work, all_rows};
use std::alloc::{AllocError, Global};
use strsim::jaro_winkler;

/// How many bytes of a statement or a word are shown at most.
const MOST_SHOWN: usize = 72;

/// What is shown of the part of `text` between `from` and `to`: no more than its first line, and at most
/// `MOST_SHOWN` bytes.
pub fn shown(alloc: Global, text: &[u8], from: usize, to: usize) -> Result<String, AllocError> {
    let all = text.get(from..to).unwrap_or(b"");
    let mut end = 0usize;
    for byte in all {
        if *byte == b'\n' || *byte == b'\r' || end >= MOST_SHOWN {
            break;
        }
        end = end.saturating_add(1);
    }
    String::from_utf8_lossy(alloc, all.get(..end).unwrap_or(b""))
}

/// The word at the place `from` of `text`, as it is shown.
pub fn word_at(alloc: Global, text: &[u8], from: usize) -> Result<String, AllocError> {
    let all = text.get(from..).unwrap_or(b"").trim_ascii_start();
    let mut end = 0usize;
    for byte in all {
        let is_end = byte.is_ascii_whitespace() || matches!(*byte, b';' | b',' | b'(' | b')');
        if (is_end && end > 0) || end >= MOST_SHOWN {
            break;
        }
        end = end.saturating_add(1);
    }
    String::from_utf8_lossy(alloc, all.get(..end).unwrap_or(b""))
}

/// What is said of `fault`, which is a fault of `text`.
pub fn fault_text(alloc: Global, text: &[u8], fault: SqlFault) -> Result<String, AllocError> {
    match fault {
        SqlFault::NoMemory => String::from_str(alloc, "no memory\n"),
        SqlFault::BadWord { line, what, from } if what == Defect::UnknownStatement => {
            let statement = two_words(alloc, text, from)?;
            let nearest = nearest_form(alloc, statement.as_str())?;
            format!(in alloc;
                "line {line}: locks of {statement} are not known; the nearest known form is {nearest}\n"
            )
        }
        SqlFault::BadWord { line, what, from } => {
            let word = word_at(alloc, text, from)?;
            format!(in alloc; "line {line}: {what}: {word}\n")
        }
    }
}

/// The first two words of the statement at `from` in `text`, in capital letters.
fn two_words(alloc: Global, text: &[u8], from: usize) -> Result<String, AllocError> {
    let line = shown(alloc, text, from, text.len())?;
    let mut words = String::new(alloc);
    for word in line.as_str().split_whitespace().take(2) {
        if words.len() > 0 {
            words.push(' ')?;
        }
        words.push_str(word.strip_suffix(";").unwrap_or(word))?;
    }
    words.make_ascii_uppercase();
    Ok(words)
}

/// The known form that is most like `words`.
fn nearest_form(alloc: Global, words: &str) -> Result<&'static str, AllocError> {
    let mut nearest = "SELECT";
    let mut most = 0.0;
    for row in all_rows() {
        let like = jaro_winkler(alloc, words, row.sql)?;
        if like > most {
            nearest = row.sql;
            most = like;
        }
    }
    Ok(nearest)
}

/// How long `work` takes, as a report says it after `for`.
pub fn work_text(work: Work) -> &'static str {
    match work {
        Work::Moment => "a moment",
        Work::Rows => "as many rows as it reads or changes",
        Work::Scan => "a scan of the table",
        Work::Build => "the build of an index",
        Work::Rewrite => "a rewrite of the table",
    }
}

/// Which of `work` and `other` takes longer.
pub fn longer(work: Work, other: Work) -> Work {
    if rank(other) > rank(work) {
        other
    } else {
        work
    }
}

/// The place of `work` among all kinds of work, from 0, the shortest work first.
fn rank(work: Work) -> u8 {
    match work {
        Work::Moment => 0,
        Work::Rows => 1,
        Work::Scan => 2,
        Work::Build => 3,
        Work::Rewrite => 4,
    }
}

/// Until when locks are held by `until`, in words, where `is_in_transaction` says whether a transaction is
/// open.
pub fn until_text(until: Until, is_in_transaction: bool) -> &'static str {
    match until {
        Until::Commit if is_in_transaction => "COMMIT",
        _ => "its own end",
    }
}

/// For whom a statement waits beside its waits for locks, by `awaits`, in words.
pub fn awaits_text(awaits: Awaits) -> &'static str {
    match awaits {
        Awaits::Nobody => "",
        Awaits::Writers => "each transaction that has written the table, and older snapshots",
        Awaits::Users => "each transaction that has used the table, and be it to read",
        Awaits::UsersAndSnapshots => {
            "each transaction that has used the table, and be it to read, and older snapshots"
        }
    }
}
