//! `DROP`, and what goes with what is dropped.

use crate::attached::{POLICIES, RULES, TRIGGERS};
use crate::belongings::AttachedKind;
use crate::create::LOCKLESS_OBJECTS;
use crate::reader::{Change, StatementReader};
use sql_locks::{Defect, Form, Link, LinkKind, RelationKind, SqlFault};

/// What goes with the relation `number` by `link`, if something does: the partitions of a table, and where
/// `cascades` is true its children and the views that read it.
fn dependent(link: &Link, number: usize, cascades: bool) -> Option<usize> {
    match link.kind {
        LinkKind::Partition if link.from == number => Some(link.to),
        LinkKind::Child if cascades && link.from == number => Some(link.to),
        LinkKind::Reads if cascades && link.to == number => Some(link.from),
        LinkKind::Stores if cascades && link.to == number => Some(link.from),
        _ => None,
    }
}

/// The form in which a relation of `kind` is dropped.
fn drop_form(kind: RelationKind) -> Form {
    match kind {
        RelationKind::Table => Form::DropTable,
        RelationKind::View => Form::DropView,
        RelationKind::MaterializedView => Form::DropMaterializedView,
        RelationKind::Index => Form::DropIndex,
        RelationKind::Sequence => Form::DropSequence,
    }
}

impl StatementReader {
    /// Reads what comes after `DROP`.
    pub fn read_drop_of(&mut self) -> Result<(), SqlFault> {
        self.cursor.eat("foreign");
        let form = if self.cursor.eat("table") {
            Form::DropTable
        } else if self.cursor.eat_all(&["materialized", "view"]) {
            Form::DropMaterializedView
        } else if self.cursor.eat("view") {
            Form::DropView
        } else if self.cursor.eat("sequence") {
            Form::DropSequence
        } else if self.cursor.eat("index") {
            if self.cursor.eat("concurrently") {
                Form::DropIndexConcurrently
            } else {
                Form::DropIndex
            }
        } else {
            return self.read_drop_of_other();
        };
        self.read_dropped(form)
    }

    /// Reads what comes after the `DROP` of something that is no relation.
    fn read_drop_of_other(&mut self) -> Result<(), SqlFault> {
        if self.cursor.eat("trigger") {
            return self.read_drop_attached(Form::DropTrigger, &TRIGGERS);
        }
        if self.cursor.eat("rule") {
            return self.read_drop_attached(Form::DropRule, &RULES);
        }
        if self.cursor.eat("policy") {
            return self.read_drop_attached(Form::DropPolicy, &POLICIES);
        }
        if self.cursor.eat("statistics") {
            return self.read_drop_statistics();
        }
        let is_known = self.cursor.is_at_one(&LOCKLESS_OBJECTS) || self.cursor.is_at("publication");
        if is_known && !self.cursor.has("cascade") {
            return Ok(());
        }
        Err(self.fault_at(0, Defect::UnknownStatement))
    }

    /// Reads the names of relations that are dropped in `form`.
    fn read_dropped(&mut self, form: Form) -> Result<(), SqlFault> {
        let may_miss = self.eat_if_exists();
        let cascades = self.cursor.has("cascade");
        for _ in 0..self.cursor.words.len() {
            let begin = self.cursor.place;
            let name = self.name()?;
            match self.catalog.find(name.as_str()) {
                Some(number) => {
                    if let Some(parent) = self.partitioned_table(number) {
                        self.act_with(Form::DropPartition, number, parent)?;
                    }
                    self.drop_one(form, number, cascades)?;
                }
                None if may_miss => {}
                None => return Err(self.fault_at(begin, Defect::UnknownRelation)),
            }
            if !self.cursor.eat_mark(",") {
                break;
            }
        }
        Ok(())
    }

    /// Has the statement drop the relation `number` in `form`, and what goes with that relation, by `CASCADE`
    /// too where `cascades` is true.
    fn drop_one(&mut self, form: Form, number: usize, cascades: bool) -> Result<(), SqlFault> {
        match self.kind(number) {
            RelationKind::Index => {
                self.drop_index(form, number)?;
                return self.drop_parts(number);
            }
            RelationKind::Sequence if cascades => self.drop_defaults(number)?,
            _ => {}
        }
        self.act(form, number)?;
        self.change(Change::Drop(number))?;
        self.drop_dependents(number, cascades)
    }

    /// Has the statement drop `index` in `form`.
    fn drop_index(&mut self, form: Form, index: usize) -> Result<(), SqlFault> {
        match self.table_of_index(index) {
            Some(table) if self.belongings.is_partitioned(table) => {
                self.act_with(Form::DropPartitionedIndex, index, table)?;
            }
            _ => self.act(form, index)?,
        }
        self.change(Change::Drop(index))?;
        Ok(())
    }

    /// Has the statement reach the tables whose columns have their defaults from `sequence`.
    fn drop_defaults(&mut self, sequence: usize) -> Result<(), SqlFault> {
        let name = self.name_of_relation(sequence)?;
        let tables = self
            .belongings
            .tables_of(self.alloc, AttachedKind::Default, name.as_str())?;
        for table in &tables {
            self.act_on(Form::AlterColumn, *table, None, true)?;
        }
        Ok(())
    }

    /// Has the statement drop what goes with the relation `number`, by `CASCADE` too where `cascades` is
    /// true.
    pub fn drop_dependents(&mut self, number: usize, cascades: bool) -> Result<(), SqlFault> {
        let mut gone = Vec::new(self.alloc);
        gone.push(number)?;
        for place in 0..self.catalog.relations.len() {
            let Some(number) = gone.get(place).copied() else {
                break;
            };
            if place > 0 {
                self.act(drop_form(self.kind(number)), number)?;
                self.change(Change::Drop(number))?;
            }
            self.drop_indexes_of(number)?;
            for link in &self.catalog.links {
                if let Some(other) = dependent(link, number, cascades) {
                    if !gone.contains(&other) {
                        gone.push(other)?;
                    }
                }
            }
        }
        Ok(())
    }

    /// Has the statement drop all indexes of `table`, and reach them where the table is partitioned.
    fn drop_indexes_of(&mut self, table: usize) -> Result<(), SqlFault> {
        let mut indexes = Vec::new(self.alloc);
        for of in &self.belongings.indexes {
            if of.table == table && self.is_live(of.index) {
                indexes.push(of.index)?;
            }
        }
        for index in &indexes {
            if self.belongings.is_partitioned(table) {
                self.act_with(Form::DropPartitionedIndex, *index, table)?;
            }
            self.change(Change::Drop(*index))?;
        }
        Ok(())
    }

    /// Has the statement drop the views of `table` that name `column`, and what goes with these views.
    pub fn drop_views_with(&mut self, table: usize, column: &str) -> Result<(), SqlFault> {
        let mut views = Vec::new(self.alloc);
        for link in &self.catalog.links {
            let is_read = link.kind == LinkKind::Reads || link.kind == LinkKind::Stores;
            if is_read && link.to == table && self.belongings.view_names(link.from, column) {
                views.push(link.from)?;
            }
        }
        for view in &views {
            self.act(drop_form(self.kind(*view)), *view)?;
            self.change(Change::Drop(*view))?;
            self.drop_dependents(*view, true)?;
        }
        Ok(())
    }
}
