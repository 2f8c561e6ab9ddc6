//! The modes that a text names, and those of forms.

use modes_core::{Mode, ModeSet};
use sql_locks::{Form, Part, Work, row_of};

/// The modes that `text` names.
pub fn named_in(text: &str) -> ModeSet {
    let mut modes = ModeSet::empty();
    for word in text.split_whitespace() {
        if let Some(mode) = mode_named(word) {
            modes = modes.with(mode);
        }
    }
    modes
}

/// The mode that `word` names, with or without a punctuation mark after the name.
fn mode_named(word: &str) -> Option<Mode> {
    let word = word.strip_suffix(',').unwrap_or(word);
    let word = word.strip_suffix(';').unwrap_or(word);
    let word = word.strip_suffix('.').unwrap_or(word);
    for mode in Mode::ALL {
        if mode.name() == word {
            return Some(mode);
        }
    }
    None
}

/// The modes of the rows of `forms`.
pub fn modes_of(forms: &[Form]) -> ModeSet {
    let mut modes = ModeSet::empty();
    for form in forms {
        if let Some(row) = row_of(*form) {
            modes = with_parts(modes, row.parts);
        }
    }
    modes
}

/// The set `modes` with the mode of each of `parts`.
fn with_parts(modes: ModeSet, parts: &[Part]) -> ModeSet {
    let mut all = modes;
    for part in parts {
        all = all.with(part.mode);
    }
    all
}

/// The word by which docs/POSTGRESQL.md says the longest work of `forms`.
pub fn longest_work(forms: &[Form]) -> &'static str {
    if has_work(forms, Work::Rewrite) {
        "rewrite"
    } else if has_work(forms, Work::Build) {
        "build"
    } else if has_work(forms, Work::Scan) {
        "scan"
    } else if has_work(forms, Work::Rows) {
        "rows"
    } else if has_work(forms, Work::Moment) {
        "a moment"
    } else {
        ""
    }
}

/// Whether the work of one of `forms` is `work`.
fn has_work(forms: &[Form], work: Work) -> bool {
    for form in forms {
        if let Some(row) = row_of(*form) {
            if row.work == work {
                return true;
            }
        }
    }
    false
}
