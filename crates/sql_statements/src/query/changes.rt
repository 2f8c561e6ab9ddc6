//! The first word of a query, and the relation that an `INSERT`, an `UPDATE`, a `DELETE` or a `MERGE`
//! changes.

use super::{Query, Reading};
use crate::belongings::AttachedKind;
use crate::reader::StatementReader;
use sql_locks::{Defect, Form, SqlFault};
use std::alloc::AllocError;

impl Query {
    /// Reads in `reader` the first word of a statement or a query, with the relation that the statement
    /// changes, and answers whether the next word was such a first word.
    pub(super) fn read_verb(&mut self, reader: &mut StatementReader) -> Result<bool, SqlFault> {
        if reader.cursor.eat("select") {
            self.level.is_query = true;
            self.level.is_in_from = false;
            self.level.expects_relation = false;
        } else if reader.cursor.eat("values") {
            self.level.expects_relation = false;
            self.level.is_in_from = false;
        } else if reader.cursor.eat("table") {
            self.level.expects_relation = true;
        } else if reader.cursor.eat("insert") {
            reader.cursor.eat("into");
            self.read_target(reader, Form::Insert)?;
            self.level.is_query = true;
            // What is inserted may begin with `WITH` or `TABLE`.
            self.level.is_fresh = true;
        } else if reader.cursor.eat("update") {
            self.read_target(reader, Form::Update)?;
            self.level.is_query = true;
        } else if reader.cursor.eat("delete") {
            reader.cursor.eat("from");
            self.read_target(reader, Form::Delete)?;
            self.level.uses = true;
        } else if reader.cursor.eat("merge") {
            reader.cursor.eat("into");
            self.read_target(reader, Form::Merge)?;
            self.level.uses = true;
        } else {
            return Ok(false);
        }
        Ok(true)
    }

    /// Reads in `reader` the relation that a statement changes in `form`.
    fn read_target(&mut self, reader: &mut StatementReader, form: Form) -> Result<(), SqlFault> {
        self.is_only = reader.cursor.eat("only");
        let begin = reader.cursor.place;
        let before = self.readings.len();
        let is_defined = self.reads == Form::ReadDefinition;
        self.read_relation(reader, if is_defined { Form::DefineChange } else { form })?;
        let Some(reading) = self.readings.get(before).copied() else {
            return Ok(());
        };
        if is_defined {
            return Ok(());
        }
        if has_rule(reader, form, reading.target) {
            return Err(reader.fault_at(begin, Defect::RuledRelation));
        }
        if form == Form::Insert {
            self.read_conflict(reader, reading)?;
            reader.add_parents(reading.target)?;
        }
        reader.add_checks(form, reading.target)
    }

    /// Has the query reach the indexes of the table of `reading`, into which an `INSERT` of `reader` puts
    /// rows, where its `ON CONFLICT` names columns or a constraint.
    fn read_conflict(
        &mut self,
        reader: &StatementReader,
        reading: Reading,
    ) -> Result<(), AllocError> {
        for ahead in 0..reader.cursor.words.len() {
            let names_index = reader.cursor.is_mark_ahead(ahead.saturating_add(1), "(")
                || reader.cursor.is_ahead(ahead.saturating_add(1), "on");
            if names_index && reader.cursor.is_ahead(ahead, "conflict") {
                self.readings.push(Reading {
                    form: Form::InsertOnConflict,
                    target: reading.target,
                    alias: reading.alias,
                    is_only: false,
                })?;
                break;
            }
        }
        Ok(())
    }
}

/// Whether `target` has a rule for the change of rows that `form` is, among the rules that `reader` knows.
fn has_rule(reader: &StatementReader, form: Form, target: usize) -> bool {
    let kind = match form {
        Form::Insert => AttachedKind::InsertRule,
        Form::Update => AttachedKind::UpdateRule,
        Form::Delete => AttachedKind::DeleteRule,
        _ => return false,
    };
    reader.belongings.has(kind, target)
}
