//! Names of relations, in one form for each.

use crate::cursor::SqlWord;
use sql_locks::WordKind;
use std::alloc::{AllocError, Global};

/// The schema that is left out of names.
const USUAL_SCHEMA: &str = "public";

/// The name that `parts` are, names with points between, as `sales.orders`, in the form in which every name
/// is kept: without `public`, in small letters, and in double quotes only where those are needed.
pub fn name_of(alloc: Global, parts: &[SqlWord]) -> Result<String, AllocError> {
    let mut name = String::new(alloc);
    for (place, part) in parts.iter().enumerate() {
        if part.kind == WordKind::Mark {
            continue;
        }
        let text = part_of(alloc, part.kind, part.text.as_str())?;
        if place + 1 < parts.len() && text.as_str() == USUAL_SCHEMA {
            continue;
        }
        if name.len() > 0 {
            name.push('.')?;
        }
        name.push_str(text.as_str())?;
    }
    Ok(name)
}

/// The part of a name that is written as `text`, a word of `kind`, in the form in which every name is kept.
pub fn part_of(alloc: Global, kind: WordKind, text: &str) -> Result<String, AllocError> {
    if kind == WordKind::Name {
        let mut part = String::from_str(alloc, text)?;
        part.make_ascii_lowercase();
        return Ok(part);
    }
    match within_quotes(text) {
        Some(inner) if is_plain(inner) => String::from_str(alloc, inner),
        _ => String::from_str(alloc, text),
    }
}

/// What is between the double quotes of `text`.
fn within_quotes(text: &str) -> Option<&str> {
    match text.strip_prefix("\"") {
        Some(rest) => rest.strip_suffix("\""),
        None => None,
    }
}

/// Whether `name` needs no quotes.
fn is_plain(name: &str) -> bool {
    match name.as_bytes() {
        [] => false,
        [b'0'..=b'9' | b'$', ..] => false,
        bytes => bytes.iter().all(|byte| matches!(*byte, b'a'..=b'z' | b'0'..=b'9' | b'_' | b'$')),
    }
}

/// The name that the server makes for an index, a sequence or a constraint of `table`, `columns` and
/// `suffix`.
pub fn made_name(
    alloc: Global,
    table: &str,
    columns: &str,
    suffix: &str,
) -> Result<String, AllocError> {
    if columns.is_empty() {
        format!(in alloc; "{table}_{suffix}")
    } else {
        format!(in alloc; "{table}_{columns}_{suffix}")
    }
}

/// The name that the relation `name` has in `schema`.
pub fn name_in_schema(alloc: Global, name: &str, schema: &str) -> Result<String, AllocError> {
    let own = match name.rsplit_once('.') {
        Some((_, own)) if !name.contains('"') => own,
        _ => name,
    };
    if schema == USUAL_SCHEMA {
        return String::from_str(alloc, own);
    }
    format!(in alloc; "{schema}.{own}")
}
