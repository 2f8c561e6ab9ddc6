//! What `ALTER TABLE .. ADD` adds: columns and constraints.

use crate::constraints::{Constraint, ConstraintKind};
use crate::reader::StatementReader;
use sql_locks::{Form, SqlFault};

impl StatementReader {
    /// Reads a form of `ALTER TABLE` that adds a column or a constraint to `table`, and to its children
    /// unless `is_only`.
    pub fn read_add(&mut self, table: usize, is_only: bool) -> Result<(), SqlFault> {
        if let Some(constraint) = self.constraint("")? {
            return self.add_constraint(table, constraint, is_only);
        }
        self.cursor.eat("column");
        self.eat_if_exists();
        let column = self.name()?;
        if self.is_serial() {
            let sequence = self.make_sequence(table, column.as_str())?;
            self.act_with(Form::NewSequence, table, sequence)?;
            self.act_on(Form::AddColumnRewrite, table, None, is_only)?;
        }
        self.act_on(Form::AddColumn, table, None, is_only)?;
        self.read_new_column(table, column.as_str(), is_only)
    }

    /// Reads what comes after the name `column` of a column that is added to `table`, and to its children
    /// unless `is_only`.
    fn read_new_column(
        &mut self,
        table: usize,
        column: &str,
        is_only: bool,
    ) -> Result<(), SqlFault> {
        for _ in 0..self.cursor.words.len() {
            if self.cursor.is_at_end() || self.cursor.is_mark(",") {
                break;
            }
            if let Some(constraint) = self.constraint(column)? {
                self.add_column_constraint(table, constraint, is_only)?;
            } else if self.cursor.eat("default") {
                self.note_default(table)?;
                if self.is_volatile() {
                    self.act_on(Form::AddColumnRewrite, table, None, is_only)?;
                }
            } else if self.cursor.eat("stored") {
                self.act_on(Form::AddColumnRewrite, table, None, is_only)?;
            } else {
                self.cursor.skip();
            }
        }
        Ok(())
    }

    /// Whether the default of a column that comes next calls a function that gives another value each time.
    fn is_volatile(&self) -> bool {
        self.cursor.is_mark_ahead(1, "(")
            && !self.cursor.is_at("now")
            && !self.cursor.is_at("lower")
            && !self.cursor.is_at("upper")
            && !self.cursor.is_at("coalesce")
            && !self.cursor.is_at("numeric")
            && !self.cursor.is_at("varchar")
    }

    /// Has the statement reach what `constraint` reaches, a constraint of a column that is added to `table`,
    /// and to its children unless `is_only`.
    fn add_column_constraint(
        &mut self,
        table: usize,
        constraint: Constraint,
        is_only: bool,
    ) -> Result<(), SqlFault> {
        match constraint.kind {
            ConstraintKind::Key | ConstraintKind::KeyUsingIndex => {
                let index = self.make_key_index(table, &constraint)?;
                self.act_with(Form::NewIndex, table, index)?;
            }
            ConstraintKind::ForeignKey => {
                if let Some(referred) = constraint.other {
                    self.act_with(Form::AddColumnReferences, table, referred)?;
                    self.refer_to_partitions(referred)?;
                    self.make_foreign_key(table, referred, constraint)?;
                }
            }
            ConstraintKind::Check => {
                if constraint.suffix == "check" {
                    self.act_on(Form::AddColumnCheck, table, None, is_only)?;
                }
            }
        }
        Ok(())
    }

    /// Has the statement reach what `constraint` reaches, a constraint that is added to `table`, and to its
    /// children unless `is_only`.
    fn add_constraint(
        &mut self,
        table: usize,
        constraint: Constraint,
        is_only: bool,
    ) -> Result<(), SqlFault> {
        match constraint.kind {
            ConstraintKind::Key => {
                let index = self.make_key_index(table, &constraint)?;
                self.act_with(Form::AddUnique, table, index)?;
                if !is_only {
                    self.make_parts(Form::AddUnique, table, index)?;
                }
            }
            ConstraintKind::KeyUsingIndex => {
                let form = if self.is_renamed(&constraint)? {
                    Form::AddRenamedIndex
                } else {
                    Form::AddUsingIndex
                };
                self.act_on(form, table, constraint.other, is_only)?;
            }
            ConstraintKind::ForeignKey => {
                if let Some(referred) = constraint.other {
                    self.add_foreign_key(table, referred, constraint)?;
                }
            }
            ConstraintKind::Check => {
                let form = if constraint.is_not_valid {
                    Form::AddCheckNotValid
                } else {
                    Form::AddCheck
                };
                self.act_on(form, table, None, is_only || constraint.is_not_inherited)?;
            }
        }
        Ok(())
    }

    /// Has the statement reach what the foreign key `constraint` reaches, by which `table` and each of its
    /// partitions refer to `referred`.
    fn add_foreign_key(
        &mut self,
        table: usize,
        referred: usize,
        constraint: Constraint,
    ) -> Result<(), SqlFault> {
        let form = if constraint.is_not_valid {
            Form::AddForeignKeyNotValid
        } else {
            Form::AddForeignKey
        };
        self.act_with(form, table, referred)?;
        for partition in self.partitions_of(table)? {
            self.act_with(form, partition, referred)?;
        }
        self.refer_to_partitions(referred)?;
        self.make_foreign_key(table, referred, constraint)
    }

    /// Whether the index that the key `constraint` uses gets the name of the constraint.
    fn is_renamed(&self, constraint: &Constraint) -> Result<bool, SqlFault> {
        let Some(index) = constraint.other else {
            return Ok(false);
        };
        let name = self.name_of_relation(index)?;
        Ok(constraint.name.len() > 0 && constraint.name.as_str() != name.as_str())
    }
}
