//! What belongs to tables and is no relation: triggers, rules, policies, statistics and publications.

use crate::belongings::AttachedKind;
use crate::reader::StatementReader;
use sql_locks::{Defect, Form, SqlFault};

/// The kinds of what `DROP TRIGGER` and `ALTER TRIGGER` name.
pub static TRIGGERS: [AttachedKind; 2] = [AttachedKind::RowTrigger, AttachedKind::Trigger];

/// The kinds of what `DROP RULE` and `ALTER RULE` name.
pub static RULES: [AttachedKind; 3] = [
    AttachedKind::InsertRule,
    AttachedKind::UpdateRule,
    AttachedKind::DeleteRule,
];

/// The kind of what `DROP POLICY` and `ALTER POLICY` name.
pub static POLICIES: [AttachedKind; 1] = [AttachedKind::Policy];

impl StatementReader {
    /// Reads what comes after a `CREATE` of something that belongs to a table.
    pub fn read_create_on_table(&mut self) -> Result<(), SqlFault> {
        if self.cursor.eat("trigger") {
            return self.read_create_trigger();
        }
        if self.cursor.eat("rule") {
            return self.read_create_rule();
        }
        if self.cursor.eat("policy") {
            return self.read_create_policy();
        }
        if self.cursor.eat("statistics") {
            return self.read_create_statistics();
        }
        if self.cursor.eat("publication") {
            return self.read_publication();
        }
        Err(self.fault_at(0, Defect::UnknownStatement))
    }

    /// The table that comes after the word `key_word`.
    fn table_behind(&mut self, key_word: &str) -> Result<Option<usize>, SqlFault> {
        if !self.cursor.skip_to(key_word) {
            return Err(self.fault(Defect::NoName));
        }
        self.relation()
    }

    /// Reads what comes after `CREATE TRIGGER`.
    fn read_create_trigger(&mut self) -> Result<(), SqlFault> {
        let name = self.name()?;
        let Some(table) = self.table_behind("on")? else {
            return Ok(());
        };
        let is_for_rows = self.cursor.has_outside(&["each", "row"])
            || self.cursor.has_outside(&["for", "row"]);
        self.act_on(Form::CreateTrigger, table, None, !is_for_rows)?;
        let kind = if is_for_rows {
            AttachedKind::RowTrigger
        } else {
            AttachedKind::Trigger
        };
        self.belongings.attach(kind, name, table)?;
        if self.cursor.eat("from") {
            if let Some(other) = self.relation()? {
                self.act(Form::ReadDefinition, other)?;
            }
        }
        Ok(())
    }

    /// Reads what comes after `CREATE RULE`. The locks of a rule whose condition has a query are not known. A
    /// rule for a `SELECT` is the query of a view.
    fn read_create_rule(&mut self) -> Result<(), SqlFault> {
        let name = self.name()?;
        self.cursor.skip_to("on");
        let kind = if self.cursor.is_at("insert") {
            AttachedKind::InsertRule
        } else if self.cursor.is_at("update") {
            AttachedKind::UpdateRule
        } else if self.cursor.is_at("delete") {
            AttachedKind::DeleteRule
        } else {
            return Err(self.fault_at(0, Defect::UnknownStatement));
        };
        let Some(table) = self.table_behind("to")? else {
            return Ok(());
        };
        self.act(Form::CreateRule, table)?;
        self.belongings.attach(kind, name, table)?;
        for _ in 0..self.cursor.words.len() {
            if self.cursor.is_at("select") {
                return Err(self.fault_at(0, Defect::UnknownStatement));
            }
            if self.cursor.is_at_end() || self.cursor.eat("do") {
                break;
            }
            self.cursor.advance();
        }
        self.cursor.eat("also");
        self.cursor.eat("instead");
        if self.cursor.is_at("nothing") {
            return Ok(());
        }
        self.read_query(Form::ReadDefinition)
    }

    /// Reads what comes after `CREATE POLICY`.
    fn read_create_policy(&mut self) -> Result<(), SqlFault> {
        let name = self.name()?;
        let Some(table) = self.table_behind("on")? else {
            return Ok(());
        };
        self.act(Form::CreatePolicy, table)?;
        self.belongings.attach(AttachedKind::Policy, name, table)?;
        self.read_query(Form::ReadDefinition)
    }

    /// Reads what comes after `CREATE STATISTICS`.
    fn read_create_statistics(&mut self) -> Result<(), SqlFault> {
        self.eat_if_exists();
        let mut name = String::new(self.alloc);
        if !self.cursor.is_at("on") {
            name = self.name()?;
        }
        let Some(table) = self.table_behind("from")? else {
            return Ok(());
        };
        self.act(Form::CreateStatistics, table)?;
        self.belongings
            .attach(AttachedKind::Statistics, name, table)?;
        Ok(())
    }

    /// Reads what comes after `DROP STATISTICS`.
    pub fn read_drop_statistics(&mut self) -> Result<(), SqlFault> {
        let may_miss = self.eat_if_exists();
        for _ in 0..self.cursor.words.len() {
            let begin = self.cursor.place;
            let name = self.name()?;
            let tables = self
                .belongings
                .tables_of(self.alloc, AttachedKind::Statistics, name.as_str())?;
            if tables.is_empty() && !may_miss {
                return Err(self.fault_at(begin, Defect::UnknownRelation));
            }
            for table in &tables {
                self.act(Form::DropStatistics, *table)?;
                self.belongings
                    .detach(AttachedKind::Statistics, name.as_str(), *table);
            }
            if !self.cursor.eat_mark(",") {
                break;
            }
        }
        Ok(())
    }

    /// Whether something that is of one of `kinds` and called `name` belongs to `table`.
    fn has_one(&self, kinds: &[AttachedKind], name: &str, table: usize) -> bool {
        kinds
            .iter()
            .any(|kind| self.belongings.has_named(*kind, name, table))
    }

    /// Whether the trigger `name` of `table` is for each statement, so that partitions don't have it.
    fn is_trigger_of_statements(&self, name: &str, table: usize) -> bool {
        self.belongings
            .has_named(AttachedKind::Trigger, name, table)
    }

    /// Reads the rest of a `DROP` of something of one of `kinds`, which is done in `form`.
    pub fn read_drop_attached(
        &mut self,
        form: Form,
        kinds: &'static [AttachedKind],
    ) -> Result<(), SqlFault> {
        let may_miss = self.eat_if_exists();
        let name = self.name()?;
        if !self.cursor.skip_to("on") {
            return Err(self.fault(Defect::NoName));
        }
        let Some(table) = self.relation_or_none(may_miss)? else {
            return Ok(());
        };
        if may_miss && !self.has_one(kinds, name.as_str(), table) {
            return Ok(());
        }
        let is_only = self.is_trigger_of_statements(name.as_str(), table);
        self.act_on(form, table, None, is_only)?;
        for kind in kinds {
            self.belongings.detach(*kind, name.as_str(), table);
        }
        Ok(())
    }

    /// Reads the rest of an `ALTER` of something of one of `kinds`, which is done in `form`.
    pub fn read_alter_attached(
        &mut self,
        form: Form,
        kinds: &'static [AttachedKind],
    ) -> Result<(), SqlFault> {
        let may_miss = self.eat_if_exists();
        let name = self.name()?;
        if !self.cursor.skip_to("on") {
            return Err(self.fault(Defect::NoName));
        }
        let Some(table) = self.relation_or_none(may_miss)? else {
            return Ok(());
        };
        let is_only = self.is_trigger_of_statements(name.as_str(), table);
        self.act_on(form, table, None, is_only)?;
        if self.cursor.eat_all(&["rename", "to"]) {
            return self.rename_attached(kinds, name.as_str(), table);
        }
        if form == Form::AlterPolicy {
            return self.read_query(Form::ReadDefinition);
        }
        Ok(())
    }

    /// Reads the new name of what is called `old` and is of one of `kinds`, at `table`.
    fn rename_attached(
        &mut self,
        kinds: &'static [AttachedKind],
        old: &str,
        table: usize,
    ) -> Result<(), SqlFault> {
        let new = self.name()?;
        for kind in kinds {
            if self.belongings.has_named(*kind, old, table) {
                self.belongings.detach(*kind, old, table);
                let name = String::from_str(self.alloc, new.as_str())?;
                self.belongings.attach(*kind, name, table)?;
            }
        }
        Ok(())
    }

    /// Reads the name of a publication and the tables that the publication has, gets or loses.
    pub fn read_publication(&mut self) -> Result<(), SqlFault> {
        let name = self.name()?;
        if self.cursor.is_at("set") && self.cursor.is_ahead(1, "table") {
            let tables = self
                .belongings
                .tables_of(self.alloc, AttachedKind::Publication, name.as_str())?;
            for table in &tables {
                self.act_on(Form::PublishTable, *table, None, true)?;
                self.belongings
                    .detach(AttachedKind::Publication, name.as_str(), *table);
            }
        }
        let loses = self.cursor.is_at("drop");
        for _ in 0..self.cursor.words.len() {
            if self.cursor.is_at_end() || self.cursor.eat("table") {
                break;
            }
            self.cursor.advance();
        }
        self.read_published(name.as_str(), loses)
    }

    /// Reads the tables that the publication `name` gets, or loses where `loses` is true.
    fn read_published(&mut self, name: &str, loses: bool) -> Result<(), SqlFault> {
        for _ in 0..self.cursor.words.len() {
            if self.cursor.is_at_end() {
                break;
            }
            let is_only = self.cursor.eat("only");
            if self.cursor.is_at("with") || self.cursor.is_at("tables") {
                break;
            }
            if let Some(table) = self.relation()? {
                self.act_on(Form::PublishTable, table, None, is_only)?;
                self.publish(name, table, is_only, loses)?;
            }
            for _ in 0..self.cursor.words.len() {
                if self.cursor.is_at_end() || self.cursor.eat_mark(",") {
                    break;
                }
                self.cursor.skip();
            }
            self.cursor.eat("table");
        }
        Ok(())
    }

    /// Gives the publication `name` the table `table`, with its children unless `is_only`, or takes these
    /// from the publication where `loses` is true.
    fn publish(
        &mut self,
        name: &str,
        table: usize,
        is_only: bool,
        loses: bool,
    ) -> Result<(), SqlFault> {
        let mut tables = Vec::new(self.alloc);
        tables.push(table)?;
        if !is_only && !self.belongings.is_partitioned(table) {
            for child in &self.children_of(table)? {
                tables.push(*child)?;
            }
        }
        for table in &tables {
            self.belongings
                .detach(AttachedKind::Publication, name, *table);
            if !loses {
                let name = String::from_str(self.alloc, name)?;
                self.belongings
                    .attach(AttachedKind::Publication, name, *table)?;
            }
        }
        Ok(())
    }
}
