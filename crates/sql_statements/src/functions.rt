//! Functions that take locks or give them back: those of sequences, and those of advisory locks.

use crate::belongings::AttachedKind;
use crate::names::part_of;
use crate::reader::{Advisory, StatementReader};
use sql_locks::{Defect, Form, SqlFault, WordKind};
use std::alloc::AllocError;

/// Reads in `reader` a call of a function that takes locks, of a sequence or of an advisory lock, or passes
/// another word.
pub fn read_function(reader: &mut StatementReader) -> Result<(), SqlFault> {
    if reader.cursor.is_mark_ahead(1, "(") {
        if reader.cursor.is_at_one(&["nextval", "setval"]) && !reader.is_planned {
            read_sequence(reader)?;
        }
        if reader.cursor.is_at_one(&ADVISORY) && !reader.is_planned {
            read_advisory(reader)?;
        }
    }
    reader.cursor.advance();
    Ok(())
}

/// The functions that take an advisory lock, or give one back.
static ADVISORY: [&str; 11] = [
    "pg_advisory_lock",
    "pg_advisory_lock_shared",
    "pg_advisory_xact_lock",
    "pg_advisory_xact_lock_shared",
    "pg_try_advisory_lock",
    "pg_try_advisory_lock_shared",
    "pg_try_advisory_xact_lock",
    "pg_try_advisory_xact_lock_shared",
    "pg_advisory_unlock",
    "pg_advisory_unlock_shared",
    "pg_advisory_unlock_all",
];

/// Whether one of the parts of the name of the function `function`, between underscores, is `part`, in
/// letters of either case.
pub fn has_part(function: &str, part: &str) -> bool {
    function
        .split('_')
        .any(|one| one.eq_ignore_ascii_case(part))
}

/// Reads in `reader` the sequence of a `nextval` or `setval`, where it is a text.
fn read_sequence(reader: &mut StatementReader) -> Result<(), SqlFault> {
    let Some(name) = sequence_name(reader)? else {
        return Ok(());
    };
    match find_sequence(reader, name.as_str()) {
        Some(number) => {
            reader.act(Form::Nextval, number)?;
            Ok(())
        }
        None => Err(reader.fault_at(
            reader.cursor.place.saturating_add(2),
            Defect::UnknownRelation,
        )),
    }
}

/// The number of the sequence that `reader` knows as `name`, with the usual schema or without.
fn find_sequence(reader: &StatementReader, name: &str) -> Option<usize> {
    match name.strip_prefix("public.") {
        Some(plain) => reader.catalog.find(plain),
        None => reader.catalog.find(name),
    }
}

/// The name of a sequence in the text that comes two words after the next one of `reader`.
fn sequence_name(reader: &StatementReader) -> Result<Option<String>, AllocError> {
    let Some(word) = reader.cursor.ahead(2) else {
        return Ok(None);
    };
    let Some(rest) = word.text.as_str().strip_prefix("'") else {
        return Ok(None);
    };
    let Some(inner) = rest.strip_suffix("'") else {
        return Ok(None);
    };
    let kind = if inner.starts_with("\"") {
        WordKind::QuotedName
    } else {
        WordKind::Name
    };
    Ok(Some(part_of(reader.alloc, kind, inner)?))
}

/// Reads in `reader` a call of a function that takes an advisory lock or gives one back, with the places of
/// the lock's keys.
fn read_advisory(reader: &mut StatementReader) -> Result<(), AllocError> {
    let function = reader.cursor.place;
    let second = if reader.cursor.is_mark_ahead(3, ",") {
        Some(function.saturating_add(4))
    } else {
        None
    };
    reader.advisory.push(Advisory {
        function,
        first: function.saturating_add(2),
        second,
    })?;
    Ok(())
}

impl StatementReader {
    /// Keeps that a column of `table` has its default from a sequence, where a `nextval` comes next. The
    /// statement itself locks no sequence: the server looks the sequence's name up without a lock, and locks
    /// the sequence once a row takes a number.
    pub fn note_default(&mut self, table: usize) -> Result<(), SqlFault> {
        if !self.cursor.is_at("nextval") {
            return Ok(());
        }
        if let Some(name) = sequence_name(self)? {
            let name = match name.as_str().strip_prefix("public.") {
                Some(plain) => String::from_str(self.alloc, plain)?,
                None => name,
            };
            self.belongings.attach(AttachedKind::Default, name, table)?;
        }
        Ok(())
    }

    /// Has the statement reach the tables of which `table` is a partition: where a row comes straight to
    /// `table`, the server reads what these are partitioned by.
    pub fn add_parents(&mut self, table: usize) -> Result<(), SqlFault> {
        let mut next = table;
        for _ in 0..self.catalog.relations.len() {
            let Some(parent) = self.partitioned_table(next) else {
                break;
            };
            self.act(Form::ReadDefinition, parent)?;
            next = parent;
        }
        Ok(())
    }
}
