//! What statements said of relations beside the catalog: what belongs to tables, what indexes are made of,
//! and what views name.

use std::alloc::{AllocError, Global};

/// What belongs to a table under a name of its own, and is no relation.
#[derive(Clone, Copy, PartialEq, Eq)]
pub enum AttachedKind {
    /// A trigger for each row, which the partitions of a table have too.
    RowTrigger,
    /// A trigger for each statement.
    Trigger,
    /// A rule for an `INSERT`, one for an `UPDATE`, and one for a `DELETE`.
    InsertRule,
    UpdateRule,
    DeleteRule,
    Policy,
    Statistics,
    /// A publication that has the table.
    Publication,
    /// The default of a column of the table, whose value comes from the sequence that the `Attached` has as
    /// its `name`.
    Default,
}

/// Something that belongs to a table, as a trigger or a policy.
#[derive(Drop)]
pub struct Attached {
    pub kind: AttachedKind,
    pub name: String,
    /// The number of the table to which the thing belongs.
    pub table: usize,
}

/// An index, and what it is made of.
#[derive(Drop)]
pub struct IndexOf {
    /// The numbers of the index and of its table.
    pub index: usize,
    pub table: usize,
    /// The columns of the index, and all names in the definition of the index.
    pub columns: Vec<String>,
    pub names: Vec<String>,
    /// The end of the name that the server makes for the index where the statement gives none, as `pkey`.
    pub suffix: &'static str,
    /// The index of a partitioned table that this index is a part of, if it is one.
    pub whole: Option<usize>,
}

/// A view, and the names that its query has.
#[derive(Drop)]
pub struct ViewNames {
    pub view: usize,
    pub names: Vec<String>,
}

/// What statements said of relations, beside what the catalog has. What was said of a relation that was
/// dropped stays, and is not asked for any more.
#[derive(Drop)]
pub struct Belongings {
    pub attached: Vec<Attached>,
    pub indexes: Vec<IndexOf>,
    pub views: Vec<ViewNames>,
    /// The numbers of the tables with `PARTITION BY`, and of those that are not logged.
    pub partitioned: Vec<usize>,
    pub unlogged: Vec<usize>,
}

impl Belongings {
    /// The belongings where no statement was read yet. What is added takes memory by `alloc`.
    pub fn new(alloc: Global) -> Self {
        Belongings {
            attached: Vec::new(alloc),
            indexes: Vec::new(alloc),
            views: Vec::new(alloc),
            partitioned: Vec::new(alloc),
            unlogged: Vec::new(alloc),
        }
    }

    /// Has `name`, which is of `kind`, belong to `table`.
    pub fn attach(
        &mut self,
        kind: AttachedKind,
        name: String,
        table: usize,
    ) -> Result<(), AllocError> {
        match self.attached.push(Attached { kind, name, table }) {
            Ok(()) => Ok(()),
            Err(_) => Err(AllocError),
        }
    }

    /// Takes away what belongs to `table` and is of `kind` and called `name`.
    pub fn detach(&mut self, kind: AttachedKind, name: &str, table: usize) {
        self.attached.retain(|attached| {
            attached.kind != kind || attached.table != table || attached.name.as_str() != name
        });
    }

    /// Whether something of `kind` belongs to `table`.
    pub fn has(&self, kind: AttachedKind, table: usize) -> bool {
        self.attached.iter().any(|attached| attached.kind == kind && attached.table == table)
    }

    /// Whether something of `kind` that is called `name` belongs to `table`.
    pub fn has_named(&self, kind: AttachedKind, name: &str, table: usize) -> bool {
        self.attached.iter().any(|attached| {
            attached.kind == kind && attached.table == table && attached.name.as_str() == name
        })
    }

    /// The tables to which something of `kind` that is called `name` belongs.
    pub fn tables_of(
        &self,
        alloc: Global,
        kind: AttachedKind,
        name: &str,
    ) -> Result<Vec<usize>, AllocError> {
        let mut tables = Vec::new(alloc);
        for attached in &self.attached {
            if attached.kind == kind && attached.name.as_str() == name {
                tables.push(attached.table)?;
            }
        }
        Ok(tables)
    }

    /// Whether `table` has `PARTITION BY`.
    pub fn is_partitioned(&self, table: usize) -> bool {
        self.partitioned.iter().any(|other| *other == table)
    }

    /// Whether `table` is not logged.
    pub fn is_unlogged(&self, table: usize) -> bool {
        self.unlogged.iter().any(|other| *other == table)
    }

    /// Makes `table` a logged table or an unlogged one, by `is_logged`.
    pub fn set_logged(&mut self, table: usize, is_logged: bool) -> Result<(), AllocError> {
        self.unlogged.retain(|other| *other != table);
        if !is_logged {
            self.unlogged.push(table)?;
        }
        Ok(())
    }

    /// Whether the query of `view` names `column`, or all columns by a star.
    pub fn view_names(&self, view: usize, column: &str) -> bool {
        self.views.iter().any(|names| {
            names.view == view
                && names
                    .names
                    .iter()
                    .any(|name| name.as_str() == column || name.as_str() == "*")
        })
    }

    /// Gives the column `old` of `table` the name `new` in what is kept of the table's indexes.
    pub fn rename_column(
        &mut self,
        alloc: Global,
        table: usize,
        old: &str,
        new: &str,
    ) -> Result<(), AllocError> {
        for index in self.indexes.iter_mut() {
            if index.table == table {
                rename_in(alloc, &mut index.columns, old, new)?;
                rename_in(alloc, &mut index.names, old, new)?;
            }
        }
        Ok(())
    }
}

/// Whether the names `names` and `others` are the same, in the same order.
pub fn are_same(names: &Vec<String>, others: &Vec<String>) -> bool {
    if names.len() != others.len() {
        return false;
    }
    for (name, other) in names.iter().zip(others.iter()) {
        if name.as_str() != other.as_str() {
            return false;
        }
    }
    true
}

/// A copy of the list `names`, which takes memory by `alloc`.
pub fn copy_names(alloc: Global, names: &Vec<String>) -> Result<Vec<String>, AllocError> {
    let mut copied = Vec::new(alloc);
    for name in names {
        copied.push(String::from_str(alloc, name.as_str())?)?;
    }
    Ok(copied)
}

/// Puts `new` in the place of `old` in `names`.
pub fn rename_in(
    alloc: Global,
    names: &mut Vec<String>,
    old: &str,
    new: &str,
) -> Result<(), AllocError> {
    for name in names.iter_mut() {
        if name.as_str() == old {
            *name = String::from_str(alloc, new)?;
        }
    }
    Ok(())
}
