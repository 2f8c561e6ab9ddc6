//! Indexes: those that statements make, those that each partition gets with them, and those that go with a
//! column or a key.

use crate::belongings::{IndexOf, are_same, copy_names};
use crate::names::made_name;
use crate::reader::{Change, StatementReader};
use sql_locks::{Form, LinkKind, RelationKind, SqlFault};
use std::alloc::AllocError;

/// What an index that is to be made is made of.
#[derive(Drop)]
pub struct IndexWords {
    pub columns: Vec<String>,
    /// All names that the definition of the index has.
    pub names: Vec<String>,
    /// The end of the name that the server makes for the index where the statement gives none, as `pkey`.
    pub suffix: &'static str,
    /// The index of a partitioned table that the index is to be a part of, if it is to be one.
    pub whole: Option<usize>,
}

impl StatementReader {
    /// A copy of what the index `of` is made of, as a part of the index `whole`.
    fn words_of(&self, of: &IndexOf, whole: Option<usize>) -> Result<IndexWords, AllocError> {
        Ok(IndexWords {
            columns: copy_names(self.alloc, &of.columns)?,
            names: copy_names(self.alloc, &of.names)?,
            suffix: of.suffix,
            whole,
        })
    }

    /// Copies of what the indexes of `table` are made of, with the number of each.
    fn words_of_table(&self, table: usize) -> Result<Vec<(usize, IndexWords)>, AllocError> {
        let mut all = Vec::new(self.alloc);
        for of in &self.belongings.indexes {
            if of.table == table && self.is_live(of.index) {
                let words = self.words_of(of, Some(of.index))?;
                if all.push((of.index, words)).is_err() {
                    return Err(AllocError);
                }
            }
        }
        Ok(all)
    }

    /// Keeps that `index` is an index of `table`, and is made of `words`.
    pub fn know_index(
        &mut self,
        index: usize,
        table: usize,
        words: IndexWords,
    ) -> Result<(), AllocError> {
        match self.belongings.indexes.push(IndexOf {
            index,
            table,
            columns: words.columns,
            names: words.names,
            suffix: words.suffix,
            whole: words.whole,
        }) {
            Ok(()) => Ok(()),
            Err(_) => Err(AllocError),
        }
    }

    /// Links `table` to `index`, unless the table is partitioned: an index of such a table has no rows. The
    /// index's name ends in `suffix`, which is `pkey` for a primary key.
    pub fn link_index(
        &mut self,
        index: usize,
        table: usize,
        suffix: &str,
    ) -> Result<(), AllocError> {
        if self.belongings.is_partitioned(table) {
            return Ok(());
        }
        self.catalog.link(LinkKind::Index, table, index)?;
        if suffix == "pkey" {
            self.catalog.link(LinkKind::Key, table, index)?;
        }
        Ok(())
    }

    /// Makes an index of `table` from `words`, with the name that the server makes for it.
    pub fn make_index(&mut self, table: usize, words: IndexWords) -> Result<usize, AllocError> {
        let name = self.name_of_index(table, &words.columns, words.suffix)?;
        let index = self
            .catalog
            .add(self.alloc, name.as_str(), RelationKind::Index)?;
        self.link_index(index, table, words.suffix)?;
        self.know_index(index, table, words)?;
        Ok(index)
    }

    /// The name that the server makes for an index of `columns` of `table` with `suffix`, a name that no
    /// relation has.
    pub fn name_of_index(
        &self,
        table: usize,
        columns: &Vec<String>,
        suffix: &str,
    ) -> Result<String, AllocError> {
        let mut joined = String::new(self.alloc);
        if suffix != "pkey" {
            for column in columns {
                if joined.len() > 0 {
                    joined.push('_')?;
                }
                joined.push_str(column.as_str())?;
            }
        }
        let table = self.name_of_relation(table)?;
        self.free_name(table.as_str(), joined.as_str(), suffix)
    }

    /// The name that the server makes of `table`, `columns` and `suffix`, with a number at its end where
    /// another relation has the name without one.
    pub fn free_name(
        &self,
        table: &str,
        columns: &str,
        suffix: &str,
    ) -> Result<String, AllocError> {
        let name = made_name(self.alloc, table, columns, suffix)?;
        if self.catalog.find(name.as_str()).is_none() {
            return Ok(name);
        }
        for number in 1..=self.catalog.relations.len() {
            let numbered = format!(in self.alloc; "{name}{number}")?;
            if self.catalog.find(numbered.as_str()).is_none() {
                return Ok(numbered);
            }
        }
        Ok(name)
    }

    /// Gives each partition of `table`, and each partition of these, an index like `whole`, in `form`.
    pub fn make_parts(&mut self, form: Form, table: usize, whole: usize) -> Result<(), SqlFault> {
        let mut parts = Vec::new(self.alloc);
        for partition in &self.partitions_of(table)? {
            parts.push(*partition)?;
        }
        for partition in &parts {
            let Some(words) = self.words_of_index(whole)? else {
                return Ok(());
            };
            let index = self.make_index(*partition, words)?;
            self.act_with(form, *partition, index)?;
        }
        Ok(())
    }

    /// A copy of what `index` is made of, for an index that is to be a part of `index`.
    fn words_of_index(&self, index: usize) -> Result<Option<IndexWords>, AllocError> {
        for of in &self.belongings.indexes {
            if of.index == index {
                return Ok(Some(self.words_of(of, Some(index))?));
            }
        }
        Ok(None)
    }

    /// Gives `partition`, which is new or attached, an index for each of the indexes of `parent` that it has
    /// none like.
    pub fn make_indexes_of_parent(
        &mut self,
        parent: usize,
        partition: usize,
    ) -> Result<(), SqlFault> {
        for (whole, words) in self.words_of_table(parent)? {
            if self.take_index(partition, &words, whole) {
                self.act(Form::AttachIndex, whole)?;
                continue;
            }
            let index = self.make_index(partition, words)?;
            self.act_with(Form::AttachIndex, whole, index)?;
        }
        Ok(())
    }

    /// Makes an index of `partition` that is like `words` a part of the index `whole`, and answers whether
    /// there is such an index.
    fn take_index(&mut self, partition: usize, words: &IndexWords, whole: usize) -> bool {
        for of in self.belongings.indexes.iter_mut() {
            if of.table == partition
                && of.whole.is_none()
                && (of.suffix == "idx") == (words.suffix == "idx")
                && are_same(&of.columns, &words.columns)
            {
                of.whole = Some(whole);
                return true;
            }
        }
        false
    }

    /// Gives the new table `table` an index like each one of `other`, as `LIKE .. INCLUDING INDEXES` does.
    pub fn make_indexes_like(&mut self, table: usize, other: usize) -> Result<(), SqlFault> {
        for (_, mut words) in self.words_of_table(other)? {
            words.whole = None;
            let index = self.make_index(table, words)?;
            self.act_with(Form::CreateTableKey, table, index)?;
        }
        Ok(())
    }

    /// The indexes that are parts of `whole`.
    pub fn parts_of(&self, whole: usize) -> Result<Vec<usize>, AllocError> {
        let mut parts = Vec::new(self.alloc);
        for of in &self.belongings.indexes {
            if of.whole == Some(whole) && self.is_live(of.index) {
                parts.push(of.index)?;
            }
        }
        Ok(parts)
    }

    /// The number of the table of `index`, if that is known as an index.
    pub fn table_of_index(&self, index: usize) -> Option<usize> {
        for of in &self.belongings.indexes {
            if of.index == index {
                return Some(of.table);
            }
        }
        None
    }

    /// The names of the columns of `index`.
    pub fn columns_of_index(&self, index: usize) -> Result<Vec<String>, AllocError> {
        for of in &self.belongings.indexes {
            if of.index == index {
                return copy_names(self.alloc, &of.columns);
            }
        }
        Ok(Vec::new(self.alloc))
    }

    /// The number of the index of the primary key of `table`.
    pub fn key_of(&self, table: usize) -> Option<usize> {
        for of in &self.belongings.indexes {
            if of.table == table && of.suffix == "pkey" && self.is_live(of.index) {
                return Some(of.index);
            }
        }
        None
    }

    /// The columns of the primary key of `table`.
    pub fn columns_of_key(&self, table: usize) -> Result<Vec<String>, AllocError> {
        match self.key_of(table) {
            Some(index) => self.columns_of_index(index),
            None => Ok(Vec::new(self.alloc)),
        }
    }

    /// Has the statement drop the parts of `whole`, an index of a partitioned table that is dropped.
    pub fn drop_parts(&mut self, whole: usize) -> Result<(), SqlFault> {
        let mut gone = self.parts_of(whole)?;
        for place in 0..self.belongings.indexes.len() {
            let Some(part) = gone.get(place).copied() else {
                break;
            };
            for other in &self.parts_of(part)? {
                gone.push(*other)?;
            }
        }
        for part in &gone {
            if let Some(table) = self.table_of_index(*part) {
                self.act_with(Form::DropPartitionedIndex, *part, table)?;
            }
            self.change(Change::Drop(*part))?;
        }
        Ok(())
    }

    /// Has the statement drop the indexes of `tables` that have `column`, which is dropped.
    pub fn drop_indexes_with(&mut self, tables: &Vec<usize>, column: &str) -> Result<(), SqlFault> {
        let mut gone = Vec::new(self.alloc);
        for of in &self.belongings.indexes {
            let has_column = of.names.iter().any(|name| name.as_str() == column);
            if has_column && self.is_live(of.index) && tables.contains(&of.table) {
                gone.push((of.index, of.table))?;
            }
        }
        for (index, table) in &gone {
            self.act_with(Form::DropUnique, *table, *index)?;
            self.change(Change::Drop(*index))?;
        }
        Ok(())
    }
}
