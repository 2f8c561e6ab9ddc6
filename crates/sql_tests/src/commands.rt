//! The SQL commands whose locks a help tells, each compared with statements of it.

use crate::command_examples::{EXAMPLES, SCHEMA};
use crate::named_modes::{modes_of, named_in};
use crate::pages::has_form;
use modes_core::{Mode, ModeSet};
use sql_locks::{Form, SqlCommand, SqlFault, sql_commands};
use sql_statements::{StatementReader, split_statements};
use std::alloc::Global;
use std::process::Abort;
use std::test::Fail;

/// The forms in which the statements of `text` reach relations, where those of the schema come first.
fn forms_of(alloc: Global, text: &str) -> Result<Vec<Form>, SqlFault> {
    let mut reader = StatementReader::new(alloc);
    read_forms(&mut reader, alloc, SCHEMA)?;
    read_forms(&mut reader, alloc, text)
}

/// The forms in which the statements of `text` reach relations that `reader` knows.
fn read_forms(
    reader: &mut StatementReader,
    alloc: Global,
    text: &str,
) -> Result<Vec<Form>, SqlFault> {
    let mut forms = Vec::new(alloc);
    for statement in split_statements(alloc, text.as_bytes())? {
        reader.read_statement(statement.words)?;
        for act in &reader.acts {
            forms.push(act.form)?;
        }
        reader.settle(true)?;
    }
    Ok(forms)
}

/// Whether all modes of `named` are among `modes`.
fn are_among(named: ModeSet, modes: ModeSet) -> bool {
    for mode in Mode::ALL {
        if named.has(mode) && !modes.has(mode) {
            return false;
        }
    }
    true
}

/// Whether statements of `forms` have the form of `command`, and the modes that the command's note names.
fn is_of(command: &SqlCommand, forms: &[Form]) -> bool {
    has_form(forms, command.form)
        && command.mode().is_some()
        && are_among(named_in(command.note), modes_of(forms))
}

#[test]
fn each_command_is_of_its_statements(rt: HostRuntime) -> Result<(), Fail> {
    for (place, command) in sql_commands().iter().enumerate() {
        let (sql, text) = EXAMPLES.get(place).copied().unwrap_or(("", ""));
        let is_well = match forms_of(rt.alloc(), text) {
            Ok(forms) => is_of(command, forms.as_slice()) && sql == command.sql,
            Err(_fault) => false,
        };
        assert!(rt; is_well, "{}: {text}", command.sql);
    }
    Ok(())
}
