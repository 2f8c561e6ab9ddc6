//! `CREATE TABLE`.

use crate::belongings::AttachedKind;
use crate::constraints::{Constraint, ConstraintKind};
use crate::names::made_name;
use crate::reader::{Change, StatementReader};
use sql_locks::{Form, LinkKind, RelationKind, SqlFault};

impl StatementReader {
    /// Reads the rest of a `CREATE TABLE`, of a table that is logged or not by `is_logged`.
    pub fn read_create_table(&mut self, is_logged: bool) -> Result<(), SqlFault> {
        let may_exist = self.eat_if_exists();
        let name = self.name()?;
        if may_exist && self.catalog.find(name.as_str()).is_some() {
            if self.cursor.skip_to("as") {
                return self.read_query(Form::ReadDefinition);
            }
            return Ok(());
        }
        let table = self
            .catalog
            .add(self.alloc, name.as_str(), RelationKind::Table)?;
        self.belongings.set_logged(table, is_logged)?;
        if self.cursor.has_outside(&["partition", "by"]) {
            self.belongings.partitioned.push(table)?;
        }
        if self.cursor.eat_all(&["partition", "of"]) {
            self.read_partition_of(table)?;
        } else if self.cursor.eat("of") {
            self.cursor.name();
        }
        if self.cursor.is_mark("(") {
            self.read_elements(table)?;
        }
        self.read_table_options(table)
    }

    /// Reads the parent of the partition `table`, and for which rows the partition is.
    fn read_partition_of(&mut self, table: usize) -> Result<(), SqlFault> {
        let Some(parent) = self.relation()? else {
            return Ok(());
        };
        self.act_with(Form::CreateTablePartitionOf, table, parent)?;
        self.act(Form::CreateTable, table)?;
        self.change(Change::Link(LinkKind::Child, parent, table))?;
        self.change(Change::Link(LinkKind::Partition, parent, table))?;
        if self.cursor.has("default") && !self.cursor.has("values") {
            self.change(Change::Link(LinkKind::Default, parent, table))?;
        }
        self.make_indexes_of_parent(parent, table)
    }

    /// Reads the columns and constraints of `table`.
    fn read_elements(&mut self, table: usize) -> Result<(), SqlFault> {
        self.cursor.advance();
        for _ in 0..self.cursor.words.len() {
            if self.cursor.is_at_end() || self.cursor.eat_mark(")") {
                break;
            }
            if !self.cursor.eat_mark(",") {
                self.read_element(table)?;
            }
        }
        Ok(())
    }

    /// Reads a column or a constraint of `table`.
    fn read_element(&mut self, table: usize) -> Result<(), SqlFault> {
        if self.cursor.eat("like") {
            return self.read_like(table);
        }
        if let Some(constraint) = self.constraint("")? {
            self.add_to_new_table(table, constraint)?;
            self.cursor.skip_element();
            return Ok(());
        }
        let column = self.name()?;
        if self.is_serial() {
            let sequence = self.make_sequence(table, column.as_str())?;
            self.act(Form::CreateSequence, sequence)?;
        }
        self.read_column(table, column.as_str())
    }

    /// Reads the table after `LIKE`, which the new table `table` is like.
    fn read_like(&mut self, table: usize) -> Result<(), SqlFault> {
        let Some(other) = self.relation()? else {
            self.cursor.skip_element();
            return Ok(());
        };
        self.act_with(Form::CreateTableLike, table, other)?;
        let mut has_indexes = false;
        for _ in 0..self.cursor.words.len() {
            if self.cursor.is_at_element_end() {
                break;
            }
            let includes = self.cursor.eat("including");
            if self.cursor.is_at_one(&["all", "indexes"]) {
                has_indexes = includes;
            }
            self.cursor.advance();
        }
        if has_indexes {
            self.make_indexes_like(table, other)?;
        }
        Ok(())
    }

    /// Whether the type of a column that comes next has a sequence, as `serial`, or an identity comes after
    /// the type.
    pub fn is_serial(&mut self) -> bool {
        if self
            .cursor
            .is_at_one(&["serial", "bigserial", "smallserial"])
        {
            return true;
        }
        let begin = self.cursor.place;
        let mut found = false;
        for _ in 0..self.cursor.words.len() {
            if self.cursor.is_at_element_end() {
                break;
            }
            if self.cursor.is_at("identity") {
                found = true;
            }
            self.cursor.skip();
        }
        self.cursor.place = begin;
        found
    }

    /// Makes the sequence of `column` of `table`.
    pub fn make_sequence(&mut self, table: usize, column: &str) -> Result<usize, SqlFault> {
        let owner = self.name_of_relation(table)?;
        let name = made_name(self.alloc, owner.as_str(), column, "seq")?;
        let sequence = self.make(name.as_str(), RelationKind::Sequence)?;
        self.change(Change::Link(LinkKind::Owns, table, sequence))?;
        self.belongings.attach(AttachedKind::Default, name, table)?;
        Ok(sequence)
    }

    /// Reads what comes after the name `column` of a column of the new table `table`.
    fn read_column(&mut self, table: usize, column: &str) -> Result<(), SqlFault> {
        for _ in 0..self.cursor.words.len() {
            if self.cursor.is_at_element_end() {
                break;
            }
            self.note_default(table)?;
            match self.constraint(column)? {
                Some(constraint) => self.add_to_new_table(table, constraint)?,
                None => self.cursor.skip(),
            }
        }
        Ok(())
    }

    /// Gives the new table `table` the constraint `constraint`.
    fn add_to_new_table(&mut self, table: usize, constraint: Constraint) -> Result<(), SqlFault> {
        match constraint.kind {
            ConstraintKind::Key => {
                let index = self.make_key_index(table, &constraint)?;
                self.act_with(Form::CreateTableKey, table, index)?;
            }
            ConstraintKind::ForeignKey => {
                if let Some(referred) = constraint.other {
                    self.act_with(Form::CreateTableReferences, table, referred)?;
                    self.refer_to_partitions(referred)?;
                    self.make_foreign_key(table, referred, constraint)?;
                }
            }
            _ => {}
        }
        Ok(())
    }

    /// Reads what comes after the columns of `table`: its parents, and the query that fills it.
    fn read_table_options(&mut self, table: usize) -> Result<(), SqlFault> {
        for _ in 0..self.cursor.words.len() {
            if self.cursor.is_at_end() {
                break;
            }
            if self.cursor.eat("inherits") {
                self.read_parents(table)?;
            } else if self.cursor.eat("as") {
                self.act(Form::CreateTableAs, table)?;
                return self.read_filling_query();
            } else {
                self.cursor.skip();
            }
        }
        self.act(Form::CreateTable, table)?;
        Ok(())
    }

    /// Reads the parents of `table`.
    fn read_parents(&mut self, table: usize) -> Result<(), SqlFault> {
        self.cursor.eat_mark("(");
        for _ in 0..self.cursor.words.len() {
            if let Some(parent) = self.relation()? {
                self.act_with(Form::CreateTableInherits, table, parent)?;
                self.change(Change::Link(LinkKind::Child, parent, table))?;
            }
            if !self.cursor.eat_mark(",") {
                break;
            }
        }
        self.cursor.eat_mark(")");
        Ok(())
    }
}
