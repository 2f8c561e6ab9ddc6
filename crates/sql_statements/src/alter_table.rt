//! `ALTER TABLE`, with one form or several.

use crate::names::name_in_schema;
use crate::reader::{Change, StatementReader};
use sql_locks::{Defect, Form, LinkKind, RelationKind, SqlFault};

impl StatementReader {
    /// Reads what comes after `ALTER TABLE`.
    pub fn read_alter_table(&mut self) -> Result<(), SqlFault> {
        if self.cursor.is_at("all") && self.cursor.is_ahead(1, "in") {
            return Err(self.fault_at(0, Defect::UnknownStatement));
        }
        let may_miss = self.eat_if_exists();
        let is_only = self.cursor.eat("only");
        let Some(table) = self.relation_or_none(may_miss)? else {
            return Ok(());
        };
        for _ in 0..self.cursor.words.len() {
            if self.cursor.is_at_end() {
                break;
            }
            self.read_alteration(table, is_only)?;
            self.skip_alteration();
            self.cursor.eat_mark(",");
        }
        Ok(())
    }

    /// Passes the rest of one form of an `ALTER TABLE`, up to the comma after the form or to the statement's
    /// end.
    fn skip_alteration(&mut self) {
        for _ in 0..self.cursor.words.len() {
            if self.cursor.is_at_end() || self.cursor.is_mark(",") {
                break;
            }
            self.cursor.skip();
        }
    }

    /// Reads one form of an `ALTER TABLE` of `table`, and of its children unless `is_only`.
    fn read_alteration(&mut self, table: usize, is_only: bool) -> Result<(), SqlFault> {
        let fault = self.fault(Defect::UnknownAlteration);
        if self.cursor.eat("add") {
            return self.read_add(table, is_only);
        }
        if self.cursor.eat("drop") {
            return self.read_drop(table, is_only);
        }
        if self.cursor.eat("alter") {
            return self.read_alter_column(table, is_only);
        }
        if self.cursor.eat("rename") {
            return self.read_rename(table, is_only);
        }
        if self.cursor.eat_all(&["validate", "constraint"]) {
            return self.read_validate(table, is_only);
        }
        if self.read_partitions(table)? || self.read_parent(table)? {
            return Ok(());
        }
        match self.other_alteration(table)? {
            Some(form) => {
                self.act_on(form, table, None, is_only)?;
                Ok(())
            }
            None => Err(fault),
        }
    }

    /// Reads a form that alters a column of `table`, and of its children unless `is_only`.
    fn read_alter_column(&mut self, table: usize, is_only: bool) -> Result<(), SqlFault> {
        if self.cursor.eat("constraint") {
            self.act_on(Form::DropConstraint, table, None, is_only)?;
            return Ok(());
        }
        self.cursor.eat("column");
        let column = self.name()?;
        let cursor = &mut self.cursor;
        let form = if cursor.eat("type") || cursor.eat_all(&["set", "data", "type"]) {
            Form::AlterType
        } else if cursor.eat_all(&["set", "not", "null"]) {
            Form::SetNotNull
        } else if cursor.eat_all(&["set", "statistics"])
            || (cursor.is_at("set") && cursor.is_mark_ahead(1, "("))
            || (cursor.is_at("reset") && cursor.is_mark_ahead(1, "("))
        {
            Form::SetStatistics
        } else {
            Form::AlterColumn
        };
        self.act_on(form, table, None, is_only)?;
        if form == Form::AlterType {
            self.alter_foreign_keys(table, column.as_str())?;
        }
        if self.cursor.eat_all(&["set", "default"]) {
            self.note_default(table)?;
        }
        if self.cursor.is_at("add") && self.cursor.has("identity") {
            let sequence = self.make_sequence(table, column.as_str())?;
            self.act_with(Form::NewSequence, table, sequence)?;
        }
        Ok(())
    }

    /// Has the statement reach the other tables of the foreign keys that `column` of `table` is in.
    fn alter_foreign_keys(&mut self, table: usize, column: &str) -> Result<(), SqlFault> {
        let mut others = Vec::new(self.alloc);
        for key in &self.catalog.foreign_keys {
            if key.table == table && key.columns.iter().any(|name| name.as_str() == column) {
                others.push(key.referred)?;
            }
            if key.referred == table
                && key
                    .referred_columns
                    .iter()
                    .any(|name| name.as_str() == column)
            {
                others.push(key.table)?;
            }
        }
        for other in &others {
            self.act_with(Form::AlterTypeOfKey, table, *other)?;
        }
        Ok(())
    }

    /// Reads a form that renames `table`, one of its columns or one of its constraints, and those of its
    /// children unless `is_only`.
    fn read_rename(&mut self, table: usize, is_only: bool) -> Result<(), SqlFault> {
        if self.cursor.eat("to") {
            let name = self.name()?;
            self.act(Form::RenameTable, table)?;
            self.change(Change::Rename(table, name))?;
            return Ok(());
        }
        if self.cursor.eat("constraint") {
            return self.read_renamed_constraint(table, is_only);
        }
        self.act_on(Form::RenameColumn, table, None, is_only)?;
        self.cursor.eat("column");
        let old = self.name()?;
        self.cursor.eat("to");
        let new = self.name()?;
        self.change(Change::RenameColumn(table, old, new))?;
        Ok(())
    }

    /// Reads the old and the new name of a constraint of `table`, and of its children unless `is_only`.
    fn read_renamed_constraint(&mut self, table: usize, is_only: bool) -> Result<(), SqlFault> {
        let old = self.name()?;
        self.cursor.eat("to");
        let new = self.name()?;
        match self.catalog.find(old.as_str()) {
            Some(index) if self.kind(index) == RelationKind::Index => {
                self.act_with(Form::RenameKey, table, index)?;
                self.change(Change::Rename(index, new))?;
            }
            _ => {
                self.act_on(Form::RenameColumn, table, None, is_only)?;
                self.change(Change::RenameForeignKey(table, old, new))?;
            }
        }
        Ok(())
    }

    /// Reads the name of the constraint of `table` that is validated, and those of its children unless
    /// `is_only`.
    fn read_validate(&mut self, table: usize, is_only: bool) -> Result<(), SqlFault> {
        let name = self.name()?;
        let key = self
            .catalog
            .foreign_keys
            .iter()
            .find(|key| key.table == table && key.name.as_str() == name.as_str())
            .map(|key| (key.referred, key.is_valid));
        match key {
            Some((_, true)) => self.act_on(Form::ValidateConstraint, table, None, true)?,
            Some((referred, false)) => {
                self.act_with(Form::ValidateForeignKey, table, referred)?;
                self.change(Change::ValidateForeignKey(table, name))?;
            }
            None => self.act_on(Form::ValidateConstraint, table, None, is_only)?,
        }
        Ok(())
    }

    /// Reads one of the rarer forms of an `ALTER TABLE` of `table`, and answers which form it is, or none
    /// where it is not known.
    fn other_alteration(&mut self, table: usize) -> Result<Option<Form>, SqlFault> {
        if self.cursor.eat_all(&["cluster", "on"]) {
            if let Some(index) = self.relation()? {
                self.act_with(Form::ClusterOn, table, index)?;
            }
            return Ok(Some(Form::SetParameters));
        }
        if self.cursor.eat_all(&["replica", "identity"]) {
            if self.cursor.eat_all(&["using", "index"]) {
                if let Some(index) = self.relation()? {
                    self.act_with(Form::ReplicaIdentityIndex, table, index)?;
                }
            }
            return Ok(Some(Form::ReplicaIdentity));
        }
        if self.cursor.eat_all(&["set", "schema"]) {
            let schema = self.name()?;
            self.move_to_schema(table, schema.as_str())?;
            return Ok(Some(Form::SetSchema));
        }
        if self.cursor.eat_all(&["set", "logged"]) {
            return Ok(Some(self.set_logged(table, true)?));
        }
        if self.cursor.eat_all(&["set", "unlogged"]) {
            return Ok(Some(self.set_logged(table, false)?));
        }
        Ok(self.plain_alteration())
    }

    /// Makes `table` a logged table or an unlogged one, by `is_logged`, and answers the form in which this is
    /// done.
    fn set_logged(&mut self, table: usize, is_logged: bool) -> Result<Form, SqlFault> {
        if self.belongings.is_unlogged(table) != is_logged {
            return Ok(Form::SetLoggedAlready);
        }
        self.belongings.set_logged(table, is_logged)?;
        Ok(Form::SetLogged)
    }

    /// Gives `table`, its indexes and its sequences the names that they have in `schema`.
    fn move_to_schema(&mut self, table: usize, schema: &str) -> Result<(), SqlFault> {
        let mut moved = Vec::new(self.alloc);
        moved.push(table)?;
        for link in &self.catalog.links {
            let goes = link.kind == LinkKind::Index || link.kind == LinkKind::Owns;
            if goes && link.from == table {
                moved.push(link.to)?;
            }
        }
        for number in &moved {
            let name = self.name_of_relation(*number)?;
            let name = name_in_schema(self.alloc, name.as_str(), schema)?;
            self.change(Change::Rename(*number, name))?;
        }
        Ok(())
    }

    /// Reads the form of `ALTER TABLE` that comes next, if it is one that names no other relation.
    fn plain_alteration(&mut self) -> Option<Form> {
        let cursor = &mut self.cursor;
        if cursor.eat_all(&["owner", "to"]) {
            Some(Form::OwnerTo)
        } else if cursor.eat_all(&["set", "access", "method"]) {
            if cursor.is_at("heap") {
                Some(Form::SetLoggedAlready)
            } else {
                Some(Form::SetLogged)
            }
        } else if cursor.eat_all(&["set", "tablespace"]) {
            Some(Form::SetTablespace)
        } else if cursor.eat_all(&["set", "without", "cluster"]) {
            Some(Form::SetParameters)
        } else if cursor.is_mark_ahead(1, "(") && (cursor.is_at("set") || cursor.is_at("reset")) {
            if cursor.has("user_catalog_table") {
                Some(Form::SetUserCatalogTable)
            } else {
                Some(Form::SetParameters)
            }
        } else {
            self.switch()
        }
    }

    /// Reads the form of `ALTER TABLE` that comes next, if it is one that switches triggers, rules or row
    /// level security on or off.
    fn switch(&mut self) -> Option<Form> {
        let cursor = &mut self.cursor;
        if cursor.eat_all(&["no", "force"]) || cursor.eat("force") {
            return Some(Form::RowLevelSecurity);
        }
        if cursor.eat_all(&["not", "of"]) || cursor.eat("of") {
            return Some(Form::EnableRule);
        }
        if cursor.eat_all(&["set", "without", "oids"]) {
            return Some(Form::EnableRule);
        }
        if !cursor.eat("enable") && !cursor.eat("disable") {
            return None;
        }
        cursor.eat("always");
        cursor.eat("replica");
        if cursor.eat("trigger") {
            Some(Form::EnableTrigger)
        } else if cursor.eat("rule") {
            Some(Form::EnableRule)
        } else if cursor.eat("row") {
            Some(Form::RowLevelSecurity)
        } else {
            None
        }
    }
}
