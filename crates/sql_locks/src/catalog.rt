//! The relations that statements made, and how they hang together.
ghost use Rattle.std.specs.Prelude.{◌≡◌, ℕ, ◌∷◌, ◌++◌, [], List, IfOk, OnOk, Some, None, filter, false, vec_len, ◌<◌};
ghost use Rattle.std.specs.Str.{bytes_eq};
ghost use Rattle.std.specs.BTreeMap.{get_by_text};
ghost use Rattle.sql_locks.specs.Catalog.{SameNames, is_other_link, is_apart};

use std::alloc::{AllocError, Global};
use std::collections::BTreeMap;

/// The kind of a relation.
#[derive(Clone, Copy, PartialEq, Eq)]
pub enum RelationKind {
    Table,
    Index,
    Sequence,
    View,
    MaterializedView,
}

/// A relation that a statement made, with its name and its kind.
#[derive(Drop)]
pub struct Relation {
    pub name: String,
    pub kind: RelationKind,
    /// Whether the transaction that has not ended made this relation, so that no other transaction knows it.
    pub is_own: bool,
}

/// The kind of a link from one relation to another.
#[derive(Clone, Copy, PartialEq, Eq)]
pub enum LinkKind {
    /// Links a parent to a child or a partition.
    Child,
    /// Links a partitioned table to a partition, which is a child too.
    Partition,
    /// Links a partitioned table to its default partition.
    Default,
    /// Links a table to an index.
    Index,
    /// Links a table to the index of its primary key, which is linked as an index too.
    Key,
    /// Links a table with a foreign key to the table that the key refers to.
    Refers,
    /// Links a view to a relation that the view reads.
    Reads,
    /// Links a materialized view to a relation that the view is made of.
    Stores,
    /// Links a table to a sequence of one of its columns.
    Owns,
}

/// A link from one relation to another.
#[derive(Clone, Copy, PartialEq, Eq)]
pub struct Link {
    pub kind: LinkKind,
    pub from: usize,
    pub to: usize,
}

impl Link {
    /// Whether this is another link than the one of `kind` from `from` to `to`.
    fn is_other(&self, kind: LinkKind, from: usize, to: usize) -> bool
        ensures { result ≡ is_other_link kind from to self.now }
    {
        self.kind != kind || self.from != from || self.to != to
    }

    /// Whether this link neither begins nor ends at the relation `number`.
    fn is_apart(&self, number: usize) -> bool
        ensures { result ≡ is_apart number self.now }
    {
        self.from != number && self.to != number
    }
}

/// A foreign key of a table.
#[derive(Drop)]
pub struct ForeignKey {
    pub name: String,
    /// The table that has the foreign key, and the table that the key refers to.
    pub table: usize,
    pub referred: usize,
    /// The columns of the foreign key, and the columns of the other table that the key refers to, where a
    /// statement named them.
    pub columns: Vec<String>,
    pub referred_columns: Vec<String>,
    /// Whether a `DELETE` from the table that the foreign key refers to, or an `UPDATE` of the columns that
    /// the key refers to, changes rows of the table that has the key: by `CASCADE`, `SET NULL` or `SET
    /// DEFAULT`.
    pub changes_on_delete: bool,
    pub changes_on_update: bool,
    /// Whether all rows of the table are known to keep the foreign key.
    pub is_valid: bool,
}

/// The relations that statements made, by their numbers, with their names, links and foreign keys. A relation
/// that was dropped has no name any more, and its number is given to no other.
#[derive(Drop)]
pub struct Catalog {
    pub relations: Vec<Relation>,
    pub names: BTreeMap<String, usize>,
    pub links: Vec<Link>,
    pub foreign_keys: Vec<ForeignKey>,
}

impl Catalog {
    /// A catalog without relations. What is added takes memory by `alloc`.
    pub fn new(alloc: Global) -> Self
        ensures names { (name : List ℕ) → get_by_text result.names name ≡ None }
        ensures links { result.links.items ≡ [] }
    {
        Catalog {
            relations: Vec::new(alloc),
            names: BTreeMap::new(alloc),
            links: Vec::new(alloc),
            foreign_keys: Vec::new(alloc),
        }
    }

    /// The number of the relation that is called `name`.
    pub fn find(&self, name: &str) -> Option<usize>
        ensures { result ≡ get_by_text self.now.names name.now }
    {
        self.names.get(name).copied()
    }

    /// Adds a relation of `kind`, which takes `name` from another one that has it, and answers the new
    /// number.
    pub fn add(
        &mut self,
        alloc: Global,
        name: &str,
        kind: RelationKind,
    ) -> Result<usize, AllocError>
        ensures named { IfOk result (λ number. get_by_text self.new.names name.now ≡ Some number) }
        ensures number { IfOk result (λ number. number ≡ vec_len self.old.relations) }
        ensures others { OnOk result ((other : List ℕ) → bytes_eq other name.now ≡ false →
            get_by_text self.new.names other ≡ get_by_text self.old.names other) }
        ensures links { self.new.links.items ≡ self.old.links.items }
    {
        let number = self.relations.len();
        let own = String::from_str(alloc, name)?;
        let key = String::from_str(alloc, name)?;
        self.relations.push(Relation {
            name: own,
            kind,
            is_own: true,
        })?;
        match self.names.insert(key, number) {
            Ok(_) => Ok(number),
            Err(_) => Err(AllocError),
        }
    }

    /// Adds the link of `kind` from `from` to `to`.
    pub fn link(&mut self, kind: LinkKind, from: usize, to: usize) -> Result<(), AllocError>
        ensures added { OnOk result (self.new.links.items ≡
            self.old.links.items ++ record { kind = kind; from = from; to = to } ∷ []) }
        ensures names { SameNames self.old.names self.new.names }
    {
        self.links.push(Link { kind, from, to })?;
        Ok(())
    }

    /// Takes away the link of `kind` from `from` to `to`.
    pub fn unlink(&mut self, kind: LinkKind, from: usize, to: usize)
        ensures links { self.new.links.items ≡ filter (is_other_link kind from to) self.old.links.items }
        ensures names { SameNames self.old.names self.new.names }
    {
        self.links.retain(|link| link.is_other(kind, from, to));
    }

    /// Gives the relation `number` the name `name`.
    pub fn rename(&mut self, alloc: Global, number: usize, name: &str) -> Result<(), AllocError>
        ensures links { self.new.links.items ≡ self.old.links.items }
        ensures named { OnOk result (number < vec_len self.old.relations →
            get_by_text self.new.names name.now ≡ Some number) }
    {
        let Some(relation) = self.relations.get_mut(number) else {
            return Ok(());
        };
        let kept = String::from_str(alloc, name)?;
        let key = String::from_str(alloc, name)?;
        let _ = self.names.remove(relation.name.as_str());
        relation.name = kept;
        match self.names.insert(key, number) {
            Ok(_) => Ok(()),
            Err(_) => Err(AllocError),
        }
    }

    /// Adds the foreign key `key`.
    pub fn add_foreign_key(&mut self, key: ForeignKey) -> Result<(), AllocError>
        ensures added { OnOk result (self.new.foreign_keys.items ≡ self.old.foreign_keys.items ++ key ∷ []) }
        ensures names { SameNames self.old.names self.new.names }
        ensures links { self.new.links.items ≡ self.old.links.items }
    {
        match self.foreign_keys.push(key) {
            Ok(()) => Ok(()),
            Err(_) => Err(AllocError),
        }
    }

    /// Takes away the foreign key of `table` that is called `name`.
    pub fn drop_foreign_key(&mut self, table: usize, name: &str)
        ensures names { SameNames self.old.names self.new.names }
        ensures links { self.new.links.items ≡ self.old.links.items }
    {
        self.foreign_keys
            .retain(|key| key.table != table || key.name.as_str() != name);
    }

    /// Takes away the relation `number`, which is called `name`, and its links.
    pub fn drop_relation(&mut self, name: &str, number: usize)
        ensures gone { get_by_text self.new.names name.now ≡ None }
        ensures others { (other : List ℕ) → bytes_eq other name.now ≡ false →
            get_by_text self.new.names other ≡ get_by_text self.old.names other }
        ensures links { self.new.links.items ≡ filter (is_apart number) self.old.links.items }
    {
        let _ = self.names.remove(name);
        self.links.retain(|link| link.is_apart(number));
    }
}
