//! A statement as it is read: the relations that it names, with the form in which it reaches each, and what
//! it changes.

use crate::belongings::{AttachedKind, Belongings, rename_in};
use crate::cursor::{Cursor, NamePlace, SqlWord};
use crate::names::name_of;
use sql_locks::{Act, Catalog, Defect, ForeignKey, Form, LinkKind, RelationKind, SqlFault};
use std::alloc::{AllocError, Global};

/// What a statement changes in the catalog once its locks are held.
#[derive(Drop)]
pub enum Change {
    /// The relation of this number is dropped.
    Drop(usize),
    /// The relation of this number gets this name.
    Rename(usize, String),
    /// The first of two relations, given by their numbers, is linked to the second one by a link of this
    /// kind.
    Link(LinkKind, usize, usize),
    /// The link of this kind from the first to the second of two relations, given by their numbers, is taken
    /// away.
    Unlink(LinkKind, usize, usize),
    /// The foreign key of this name is taken away from the table of this number.
    DropForeignKey(usize, String),
    /// A foreign key of the table of this number gets another name: the old name comes first, and the new one
    /// after it.
    RenameForeignKey(usize, String, String),
    /// All rows of the table of this number are known to keep the foreign key of this name.
    ValidateForeignKey(usize, String),
    /// A column of the table of this number gets another name: the old name comes first, and the new one
    /// after it.
    RenameColumn(usize, String, String),
    /// A table gets this foreign key.
    AddForeignKey(ForeignKey),
}

/// What a statement does to the transaction.
#[derive(Clone, Copy, PartialEq, Eq)]
pub enum Control {
    /// The statement leaves the transaction as it is.
    Stay,
    Begin,
    Commit,
    Rollback,
    /// A savepoint is set, released or gone back to.
    Savepoint,
}

/// An advisory lock that a statement takes or gives back: the places, among the words of the statement, of
/// the function and of the keys. Of a function that gives back all advisory locks `first` is the place after
/// the opening parenthesis.
#[derive(Clone, Copy)]
pub struct Advisory {
    pub function: usize,
    pub first: usize,
    pub second: Option<usize>,
}

/// A reader of statements, which keeps the catalog that they made, and the last statement that was read.
#[derive(Drop)]
pub struct StatementReader {
    pub alloc: Global,
    pub catalog: Catalog,
    pub cursor: Cursor,
    pub acts: Vec<Act>,
    pub changes: Vec<Change>,
    pub advisory: Vec<Advisory>,
    pub control: Control,
    /// What statements said of relations, beside what the catalog has.
    pub belongings: Belongings,
    /// Whether the statement is planned and not run, as by an `EXPLAIN`.
    pub is_planned: bool,
}

impl StatementReader {
    /// A reader that has read nothing.
    pub fn new(alloc: Global) -> Self {
        StatementReader {
            alloc,
            catalog: Catalog::new(alloc),
            cursor: Cursor {
                words: Vec::new(alloc),
                place: 0,
            },
            acts: Vec::new(alloc),
            changes: Vec::new(alloc),
            advisory: Vec::new(alloc),
            control: Control::Stay,
            belongings: Belongings::new(alloc),
            is_planned: false,
        }
    }

    /// Reads the statement of `words`, of which blanks, comments and the semicolon are left out. The changes
    /// of the statement before this one must be settled first.
    pub fn read_statement(&mut self, words: Vec<SqlWord>) -> Result<(), SqlFault> {
        self.cursor = Cursor { words, place: 0 };
        self.acts = Vec::new(self.alloc);
        self.changes = Vec::new(self.alloc);
        self.advisory = Vec::new(self.alloc);
        self.control = Control::Stay;
        self.is_planned = false;
        self.read()
    }

    /// The fault `what` of the word at `place`, or of the last word, after which a name can be missing.
    pub fn fault_at(&self, place: usize, what: Defect) -> SqlFault {
        if let Some(word) = self.cursor.words.get(place) {
            return word.fault(what);
        }
        let what = if what == Defect::NoName {
            Defect::NoNameBehind
        } else {
            what
        };
        match self.cursor.words.last() {
            Some(word) => word.fault(what),
            None => SqlFault::BadWord {
                line: 1,
                what,
                from: 0,
            },
        }
    }

    /// The fault `what` of the next word.
    pub fn fault(&self, what: Defect) -> SqlFault {
        self.fault_at(self.cursor.place, what)
    }

    /// The name that is at `place`.
    pub fn name_at(&self, place: NamePlace) -> Result<String, AllocError> {
        match self.cursor.words.get(place.begin..place.end) {
            Some(parts) => name_of(self.alloc, parts),
            None => Ok(String::new(self.alloc)),
        }
    }

    /// The name that comes next.
    pub fn name(&mut self) -> Result<String, SqlFault> {
        match self.cursor.name() {
            Some(place) => Ok(self.name_at(place)?),
            None => Err(self.fault(Defect::NoName)),
        }
    }

    /// The number of the relation whose name comes next, or none where it is one of the server's own
    /// catalogs.
    pub fn relation(&mut self) -> Result<Option<usize>, SqlFault> {
        let begin = self.cursor.place;
        let name = self.name()?;
        if let Some(number) = self.catalog.find(name.as_str()) {
            return Ok(Some(number));
        }
        if is_of_server(name.as_str()) {
            return Ok(None);
        }
        Err(self.fault_at(begin, Defect::UnknownRelation))
    }

    /// The number of the relation whose name comes next, or none where there is none and `may_miss`.
    pub fn relation_or_none(&mut self, may_miss: bool) -> Result<Option<usize>, SqlFault> {
        match self.relation() {
            Err(SqlFault::BadWord { what, .. }) if may_miss && what == Defect::UnknownRelation => {
                Ok(None)
            }
            found => found,
        }
    }

    /// The number of the relation of the column whose name comes next.
    pub fn relation_of_column(&mut self) -> Result<Option<usize>, SqlFault> {
        let begin = self.cursor.place;
        let Some(column) = self.cursor.name() else {
            return Err(self.fault(Defect::NoName));
        };
        let name = self.name_at(NamePlace {
            begin: column.begin,
            end: column.end.saturating_sub(2),
        })?;
        if let Some(number) = self.catalog.find(name.as_str()) {
            return Ok(Some(number));
        }
        if is_of_server(name.as_str()) {
            return Ok(None);
        }
        Err(self.fault_at(begin, Defect::UnknownRelation))
    }

    /// Has the statement reach `target` in `form`.
    pub fn act(&mut self, form: Form, target: usize) -> Result<(), AllocError> {
        self.act_on(form, target, None, false)
    }

    /// Has the statement reach `target` and `other` in `form`.
    pub fn act_with(&mut self, form: Form, target: usize, other: usize) -> Result<(), AllocError> {
        self.act_on(form, target, Some(other), false)
    }

    /// Has the statement reach `target` and `other` in `form`, and their children unless `is_only`.
    pub fn act_on(
        &mut self,
        form: Form,
        target: usize,
        other: Option<usize>,
        is_only: bool,
    ) -> Result<(), AllocError> {
        let is_only = is_only || self.stays_at(form, target);
        self.acts.push(Act {
            form,
            target,
            other,
            is_only,
        })?;
        Ok(())
    }

    /// Whether `form` reaches no children of `target`, as a form that reaches partitions alone, or all
    /// children but partitions.
    fn stays_at(&self, form: Form, target: usize) -> bool {
        let is_partitioned = self.belongings.is_partitioned(target);
        match form {
            Form::CreateIndex
            | Form::CreateTrigger
            | Form::AlterTrigger
            | Form::DropTrigger
            | Form::CopyFrom
            | Form::ReindexTable
            | Form::ReindexTableConcurrently
            | Form::Vacuum
            | Form::VacuumFull => !is_partitioned,
            Form::Insert => !is_partitioned && self.kind(target) == RelationKind::Table,
            Form::EnableTrigger => {
                !is_partitioned || !self.belongings.has(AttachedKind::RowTrigger, target)
            }
            Form::PublishTable => is_partitioned,
            _ => false,
        }
    }

    /// Adds `change` to the changes that the statement makes in the catalog.
    pub fn change(&mut self, change: Change) -> Result<(), AllocError> {
        match self.changes.push(change) {
            Ok(()) => Ok(()),
            Err(_) => Err(AllocError),
        }
    }

    /// Makes a relation of `kind` that is called `name`, unless there is a relation of that name, and answers
    /// the relation's number.
    pub fn make(&mut self, name: &str, kind: RelationKind) -> Result<usize, AllocError> {
        match self.catalog.find(name) {
            Some(number) => Ok(number),
            None => self.catalog.add(self.alloc, name, kind),
        }
    }

    /// The kind of the relation `number`.
    pub fn kind(&self, number: usize) -> RelationKind {
        match self.catalog.relations.get(number) {
            Some(relation) => relation.kind,
            None => RelationKind::Table,
        }
    }

    /// The table of which the relation `number` is a partition.
    pub fn partitioned_table(&self, number: usize) -> Option<usize> {
        for link in &self.catalog.links {
            if link.kind == LinkKind::Partition && link.to == number {
                return Some(link.from);
            }
        }
        None
    }

    /// The partitions of `table`, and all partitions of these.
    pub fn partitions_of(&self, table: usize) -> Result<Vec<usize>, AllocError> {
        self.followed(LinkKind::Partition, table)
    }

    /// The children and partitions of `table`, and all children and partitions of these.
    pub fn children_of(&self, table: usize) -> Result<Vec<usize>, AllocError> {
        self.followed(LinkKind::Child, table)
    }

    /// The relations to which links of `kind` lead from the relation `from` on, without `from` itself.
    pub fn followed(&self, kind: LinkKind, from: usize) -> Result<Vec<usize>, AllocError> {
        let mut found = Vec::new(self.alloc);
        let mut next = from;
        for place in 0..self.catalog.relations.len() {
            for link in &self.catalog.links {
                if link.kind == kind && link.from == next && !found.contains(&link.to) {
                    found.push(link.to)?;
                }
            }
            match found.get(place) {
                Some(number) => next = *number,
                None => break,
            }
        }
        Ok(found)
    }

    /// Whether the relation `number` was not dropped.
    pub fn is_live(&self, number: usize) -> bool {
        match self.catalog.relations.get(number) {
            Some(relation) => self.catalog.find(relation.name.as_str()) == Some(number),
            None => false,
        }
    }

    /// A copy of the name of the relation `number`.
    pub fn name_of_relation(&self, number: usize) -> Result<String, AllocError> {
        match self.catalog.relations.get(number) {
            Some(relation) => String::from_str(self.alloc, relation.name.as_str()),
            None => Ok(String::new(self.alloc)),
        }
    }

    /// Passes `IF EXISTS` or `IF NOT EXISTS` where one of the two comes next, and answers whether one does.
    pub fn eat_if_exists(&mut self) -> bool {
        self.cursor.eat_all(&["if", "exists"]) || self.cursor.eat_all(&["if", "not", "exists"])
    }

    /// Makes the changes of the statement in the catalog. Where `is_ended` says that the transaction has
    /// ended, the relations that it made are known to others.
    pub fn settle(&mut self, is_ended: bool) -> Result<(), AllocError> {
        let mut changes = Vec::new(self.alloc);
        std::mem::swap(&mut changes, &mut self.changes);
        for change in changes {
            self.settle_change(change)?;
        }
        if is_ended {
            for relation in self.catalog.relations.iter_mut() {
                relation.is_own = false;
            }
        }
        Ok(())
    }

    /// Makes `change` in the catalog and in what is kept beside the catalog.
    fn settle_change(&mut self, change: Change) -> Result<(), AllocError> {
        match change {
            Change::Drop(number) => {
                let name = self.name_of_relation(number)?;
                self.catalog.drop_relation(name.as_str(), number);
            }
            Change::Rename(number, name) => {
                self.catalog.rename(self.alloc, number, name.as_str())?;
            }
            Change::Link(kind, from, to) => self.catalog.link(kind, from, to)?,
            Change::Unlink(kind, from, to) => self.catalog.unlink(kind, from, to),
            Change::DropForeignKey(table, name) => {
                self.catalog.drop_foreign_key(table, name.as_str());
            }
            Change::AddForeignKey(key) => self.catalog.add_foreign_key(key)?,
            Change::RenameForeignKey(table, old, new) => {
                self.rename_foreign_key(table, old.as_str(), new.as_str())?;
            }
            Change::ValidateForeignKey(table, name) => self.validate_key(table, name.as_str()),
            Change::RenameColumn(table, old, new) => {
                self.rename_column(table, old.as_str(), new.as_str())?;
            }
        }
        Ok(())
    }

    /// Gives the foreign key `old` of `table` the name `new`.
    fn rename_foreign_key(&mut self, table: usize, old: &str, new: &str) -> Result<(), AllocError> {
        for key in self.catalog.foreign_keys.iter_mut() {
            if key.table == table && key.name.as_str() == old {
                key.name = String::from_str(self.alloc, new)?;
            }
        }
        Ok(())
    }

    /// Keeps that all rows of `table` keep the foreign key `name`.
    fn validate_key(&mut self, table: usize, name: &str) {
        for key in self.catalog.foreign_keys.iter_mut() {
            if key.table == table && key.name.as_str() == name {
                key.is_valid = true;
            }
        }
    }

    /// Gives the column `old` of `table` the name `new`, where foreign keys and indexes name the column.
    fn rename_column(&mut self, table: usize, old: &str, new: &str) -> Result<(), AllocError> {
        for key in self.catalog.foreign_keys.iter_mut() {
            if key.table == table {
                rename_in(self.alloc, &mut key.columns, old, new)?;
            }
            if key.referred == table {
                rename_in(self.alloc, &mut key.referred_columns, old, new)?;
            }
        }
        self.belongings.rename_column(self.alloc, table, old, new)
    }
}

/// Whether `name` is that of one of the server's own catalogs.
fn is_of_server(name: &str) -> bool {
    name.starts_with("pg_") || name.starts_with("information_schema.")
}
