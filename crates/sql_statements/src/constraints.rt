//! Constraints, as they stand in a `CREATE TABLE` and behind `ADD` in an `ALTER TABLE`.

use crate::belongings::copy_names;
use crate::indexes::IndexWords;
use crate::reader::{Change, StatementReader};
use sql_locks::{ForeignKey, Form, LinkKind, RelationKind, SqlFault};

/// The kind of a constraint: what the constraint demands.
#[derive(Clone, Copy, PartialEq, Eq)]
pub enum ConstraintKind {
    /// A primary key, a unique key or an exclusion, which has an index.
    Key,
    /// A key over an index that exists.
    KeyUsingIndex,
    ForeignKey,
    /// A check, or a `NOT NULL`.
    Check,
}

/// A constraint of a table, as a statement says it.
#[derive(Drop)]
pub struct Constraint {
    pub kind: ConstraintKind,
    /// The name of the constraint, where the statement says one.
    pub name: String,
    /// The end of the name that the server makes for the constraint where the statement gives none, as
    /// `fkey`.
    pub suffix: &'static str,
    pub columns: Vec<String>,
    /// The table that a foreign key refers to, or the index that a key uses.
    pub other: Option<usize>,
    pub other_columns: Vec<String>,
    pub changes_on_delete: bool,
    pub changes_on_update: bool,
    pub is_not_valid: bool,
    /// Whether children of the table don't have the constraint.
    pub is_not_inherited: bool,
}

/// The key words with which a constraint or a default begins.
static BEGINNINGS: [&str; 7] = [
    "constraint",
    "primary",
    "unique",
    "references",
    "check",
    "default",
    "generated",
];

impl StatementReader {
    /// Reads the constraint that comes next: one of the column `column`, or one of a table where `column` is
    /// empty. None where no constraint comes.
    pub fn constraint(&mut self, column: &str) -> Result<Option<Constraint>, SqlFault> {
        let alloc = self.alloc;
        let mut name = String::new(alloc);
        if self.cursor.eat("constraint") {
            name = self.name()?;
        }
        let Some((kind, suffix)) = self.constraint_kind() else {
            return Ok(None);
        };
        let mut constraint = Constraint {
            kind,
            name,
            suffix,
            columns: self.columns()?,
            other: None,
            other_columns: Vec::new(alloc),
            changes_on_delete: false,
            changes_on_update: false,
            is_not_valid: false,
            is_not_inherited: false,
        };
        if constraint.columns.is_empty() && !column.is_empty() {
            constraint.columns.push(String::from_str(alloc, column)?)?;
        }
        if kind == ConstraintKind::Key && self.cursor.eat_all(&["using", "index"]) {
            constraint.kind = ConstraintKind::KeyUsingIndex;
            constraint.other = self.relation()?;
        }
        if kind == ConstraintKind::ForeignKey {
            self.cursor.eat("references");
            constraint.other = self.relation()?;
            constraint.other_columns = self.columns()?;
        }
        self.read_options(&mut constraint);
        Ok(Some(constraint))
    }

    /// Reads the kind of the constraint that comes next, and answers it with the end of the name that the
    /// server makes for such a constraint.
    fn constraint_kind(&mut self) -> Option<(ConstraintKind, &'static str)> {
        let cursor = &mut self.cursor;
        if cursor.eat_all(&["primary", "key"]) {
            Some((ConstraintKind::Key, "pkey"))
        } else if cursor.eat("unique") {
            cursor.eat_all(&["nulls", "not", "distinct"]);
            Some((ConstraintKind::Key, "key"))
        } else if cursor.eat("exclude") {
            if cursor.eat("using") {
                cursor.advance();
            }
            Some((ConstraintKind::Key, "excl"))
        } else if cursor.eat_all(&["foreign", "key"]) || cursor.is_at("references") {
            Some((ConstraintKind::ForeignKey, "fkey"))
        } else if cursor.eat("check") || cursor.eat_all(&["not", "null"]) {
            Some((ConstraintKind::Check, "check"))
        } else {
            None
        }
    }

    /// The columns in the parentheses that come next, if any do.
    pub fn columns(&mut self) -> Result<Vec<String>, SqlFault> {
        let mut columns = Vec::new(self.alloc);
        if !self.cursor.eat_mark("(") {
            return Ok(columns);
        }
        for _ in 0..self.cursor.words.len() {
            if self.cursor.is_at_end() || self.cursor.eat_mark(")") {
                break;
            }
            if let Some(place) = self.cursor.name() {
                columns.push(self.name_at(place)?)?;
            }
            self.cursor.skip_element();
            self.cursor.eat_mark(",");
        }
        Ok(columns)
    }

    /// Reads the options of `constraint`, up to the comma, the parenthesis or the constraint that comes next.
    fn read_options(&mut self, constraint: &mut Constraint) {
        for _ in 0..self.cursor.words.len() {
            if self.cursor.is_at_element_end() || self.begins_constraint() {
                break;
            }
            if self.cursor.eat_all(&["on", "delete"]) {
                constraint.changes_on_delete = self.eat_change();
            } else if self.cursor.eat_all(&["on", "update"]) {
                constraint.changes_on_update = self.eat_change();
            } else if self.cursor.eat_all(&["not", "valid"]) {
                constraint.is_not_valid = true;
            } else if self.cursor.eat_all(&["no", "inherit"]) {
                constraint.is_not_inherited = true;
            } else if !self.cursor.is_at_end() {
                self.cursor.skip();
            }
        }
    }

    /// Passes what a foreign key does with its rows, as `CASCADE`, and answers whether that changes the rows.
    fn eat_change(&mut self) -> bool {
        self.cursor.eat("cascade")
            || self.cursor.eat_all(&["set", "null"])
            || self.cursor.eat_all(&["set", "default"])
    }

    /// Whether a constraint or a default comes next.
    fn begins_constraint(&self) -> bool {
        self.cursor.is_at_one(&BEGINNINGS)
            || (self.cursor.is_at("not") && self.cursor.is_ahead(1, "null"))
    }

    /// Makes the index of the key `constraint` of `table`.
    pub fn make_key_index(
        &mut self,
        table: usize,
        constraint: &Constraint,
    ) -> Result<usize, SqlFault> {
        let name = self.constraint_name(table, constraint)?;
        let number = self.make(name.as_str(), RelationKind::Index)?;
        self.link_index(number, table, constraint.suffix)?;
        let words = IndexWords {
            columns: copy_names(self.alloc, &constraint.columns)?,
            names: copy_names(self.alloc, &constraint.columns)?,
            suffix: constraint.suffix,
            whole: None,
        };
        self.know_index(number, table, words)?;
        Ok(number)
    }

    /// Has the statement reach the partitions of `referred`, to which a foreign key refers, and the indexes
    /// of their keys.
    pub fn refer_to_partitions(&mut self, referred: usize) -> Result<(), SqlFault> {
        if !self.belongings.is_partitioned(referred) {
            return Ok(());
        }
        if let Some(index) = self.key_of(referred) {
            self.act(Form::ReadDefinition, index)?;
        }
        for partition in self.partitions_of(referred)? {
            self.act(Form::ReferToPartition, partition)?;
            if let Some(index) = self.key_of(partition) {
                self.act(Form::ReadDefinition, index)?;
            }
        }
        Ok(())
    }

    /// Gives `table` the foreign key `constraint`, which refers to `referred`.
    pub fn make_foreign_key(
        &mut self,
        table: usize,
        referred: usize,
        constraint: Constraint,
    ) -> Result<(), SqlFault> {
        let name = self.constraint_name(table, &constraint)?;
        let mut referred_columns = constraint.other_columns;
        if referred_columns.is_empty() {
            referred_columns = self.columns_of_key(referred)?;
        }
        self.change(Change::Link(LinkKind::Refers, table, referred))?;
        self.change(Change::AddForeignKey(ForeignKey {
            name,
            table,
            referred,
            columns: constraint.columns,
            referred_columns,
            changes_on_delete: constraint.changes_on_delete,
            changes_on_update: constraint.changes_on_update,
            is_valid: !constraint.is_not_valid,
        }))?;
        Ok(())
    }

    /// The name of `constraint` of `table`: its own, or the one that the server makes.
    fn constraint_name(&self, table: usize, constraint: &Constraint) -> Result<String, SqlFault> {
        if constraint.name.len() > 0 {
            return Ok(String::from_str(self.alloc, constraint.name.as_str())?);
        }
        Ok(self.name_of_index(table, &constraint.columns, constraint.suffix)?)
    }
}
