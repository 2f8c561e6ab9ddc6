//! The first words of a statement, and the statements that are short.

use crate::attached::{POLICIES, RULES, TRIGGERS};
use crate::create::LOCKLESS_OBJECTS;
use crate::reader::{Change, Control, StatementReader};
use sql_locks::{Defect, Form, SqlFault};

/// Statements that lock no relation of their own.
static LOCK_NOTHING: [&str; 17] = [
    "set",
    "reset",
    "show",
    "do",
    "call",
    "listen",
    "notify",
    "unlisten",
    "checkpoint",
    "discard",
    "load",
    "deallocate",
    "fetch",
    "move",
    "close",
    "grant",
    "revoke",
];

impl StatementReader {
    /// Reads the statement that the cursor is at.
    pub fn read(&mut self) -> Result<(), SqlFault> {
        if self.is_query() {
            return self.read_query(Form::Select);
        }
        if self.read_control() || self.cursor.is_at_end() {
            return Ok(());
        }
        if self.cursor.eat("create") {
            return self.read_create();
        }
        if self.cursor.eat("alter") {
            return self.read_alter();
        }
        if self.cursor.eat("drop") {
            return self.read_drop_of();
        }
        if self.read_maintenance()? || self.cursor.is_at_one(&LOCK_NOTHING) {
            return Ok(());
        }
        Err(self.fault_at(0, Defect::UnknownStatement))
    }

    /// Whether a query or a change of rows comes next.
    pub fn is_query(&self) -> bool {
        let cursor = &self.cursor;
        cursor.is_at("select")
            || cursor.is_at("with")
            || cursor.is_at("insert")
            || cursor.is_at("update")
            || cursor.is_at("delete")
            || cursor.is_at("merge")
            || cursor.is_at("table")
            || cursor.is_at("values")
            || cursor.is_mark_ahead(0, "(")
    }

    /// Reads a statement that begins or ends a transaction or a part of one, and answers whether such a
    /// statement comes next.
    fn read_control(&mut self) -> bool {
        let cursor = &self.cursor;
        let control = if cursor.is_at_one(&["begin", "start"]) {
            Control::Begin
        } else if cursor.is_at_one(&["commit", "end"]) {
            Control::Commit
        } else if cursor.is_at_one(&["rollback", "abort"]) {
            if cursor.has("to") {
                Control::Savepoint
            } else {
                Control::Rollback
            }
        } else if cursor.is_at_one(&["savepoint", "release"]) {
            Control::Savepoint
        } else {
            return false;
        };
        if !cursor.is_ahead(1, "prepared") {
            self.control = control;
        }
        true
    }

    /// Reads what comes after `ALTER`.
    fn read_alter(&mut self) -> Result<(), SqlFault> {
        self.cursor.eat("foreign");
        if self.cursor.eat("table") {
            return self.read_alter_table();
        }
        if self.cursor.eat("index") {
            return self.read_alter_index();
        }
        if self.cursor.eat("sequence") {
            return self.read_alter_sequence();
        }
        if self.cursor.eat_all(&["materialized", "view"]) {
            return self.read_alter_table();
        }
        if self.cursor.eat("view") {
            return self.read_named(Form::AlterView);
        }
        if self.cursor.eat("publication") {
            return self.read_publication();
        }
        if self.cursor.eat("trigger") {
            return self.read_alter_trigger();
        }
        if self.cursor.eat("rule") {
            return self.read_alter_attached(Form::AlterRule, &RULES);
        }
        if self.cursor.eat("policy") {
            return self.read_alter_attached(Form::AlterPolicy, &POLICIES);
        }
        // A domain's constraint is checked in all tables that have it, and a type's attribute goes by CASCADE
        // to tables of the type.
        let is_known = self.cursor.is_at_one(&LOCKLESS_OBJECTS)
            || self.cursor.is_at_one(&["default", "statistics", "system"]);
        if is_known && !self.cursor.is_at("domain") && !self.cursor.has("cascade") {
            return Ok(());
        }
        Err(self.fault_at(0, Defect::UnknownStatement))
    }

    /// Reads what comes after `ALTER TRIGGER`. Where a statement says on which extension a trigger depends,
    /// its locks are those of a comment on the trigger.
    fn read_alter_trigger(&mut self) -> Result<(), SqlFault> {
        if self.cursor.has("depends") {
            return self.read_on_table(Form::CommentOnConstraint);
        }
        self.read_alter_attached(Form::AlterTrigger, &TRIGGERS)
    }

    /// Reads a relation that `form` is about.
    pub fn read_named(&mut self, form: Form) -> Result<(), SqlFault> {
        let may_miss = self.eat_if_exists();
        if let Some(number) = self.relation_or_none(may_miss)? {
            self.act(form, number)?;
        }
        Ok(())
    }

    /// Reads the table after `ON`, which `form` is about.
    pub fn read_on_table(&mut self, form: Form) -> Result<(), SqlFault> {
        if !self.cursor.skip_to("on") {
            return Err(self.fault(Defect::NoName));
        }
        if let Some(number) = self.relation()? {
            self.act(form, number)?;
        }
        Ok(())
    }

    /// Reads what comes after `ALTER INDEX`.
    fn read_alter_index(&mut self) -> Result<(), SqlFault> {
        let may_miss = self.eat_if_exists();
        let Some(index) = self.relation_or_none(may_miss)? else {
            return Ok(());
        };
        if self.cursor.eat_all(&["attach", "partition"]) {
            return self.read_attached_index(index);
        }
        if self.cursor.is_at("set") && self.cursor.is_ahead(1, "tablespace") {
            self.act(Form::AlterIndexTablespace, index)?;
            return Ok(());
        }
        if self.cursor.has("depends") {
            self.act(Form::AlterView, index)?;
            return Ok(());
        }
        self.act(Form::AlterIndex, index)?;
        if self.cursor.eat_all(&["rename", "to"]) {
            let name = self.name()?;
            self.change(Change::Rename(index, name))?;
        }
        Ok(())
    }

    /// Reads what comes after `ALTER SEQUENCE`.
    fn read_alter_sequence(&mut self) -> Result<(), SqlFault> {
        let may_miss = self.eat_if_exists();
        let Some(sequence) = self.relation_or_none(may_miss)? else {
            return Ok(());
        };
        if self.cursor.eat_all(&["rename", "to"]) {
            let name = self.name()?;
            self.act(Form::AlterSequenceName, sequence)?;
            self.change(Change::Rename(sequence, name))?;
            return Ok(());
        }
        if self.cursor.is_at("owner")
            || self.cursor.has("schema")
            || self.cursor.has("logged")
            || self.cursor.has("unlogged")
        {
            self.act(Form::AlterSequenceName, sequence)?;
            return Ok(());
        }
        self.act(Form::AlterSequence, sequence)?;
        self.read_owned_by(sequence)
    }
}
