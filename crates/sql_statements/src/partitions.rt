//! Partitions and children: how `ALTER TABLE` and `ALTER INDEX` attach and detach them.

use crate::reader::{Change, StatementReader};
use sql_locks::{Form, LinkKind, SqlFault};

impl StatementReader {
    /// Reads a form of `ALTER TABLE` that attaches a partition to `table` or detaches one, and answers
    /// whether such a form comes next.
    pub fn read_partitions(&mut self, table: usize) -> Result<bool, SqlFault> {
        if self.cursor.eat_all(&["attach", "partition"]) {
            if let Some(partition) = self.relation()? {
                self.act_with(Form::AttachPartition, table, partition)?;
                self.change(Change::Link(LinkKind::Child, table, partition))?;
                self.change(Change::Link(LinkKind::Partition, table, partition))?;
                if self.cursor.is_at("default") {
                    self.change(Change::Link(LinkKind::Default, table, partition))?;
                }
                self.make_indexes_of_parent(table, partition)?;
            }
            return Ok(true);
        }
        if self.cursor.eat_all(&["detach", "partition"]) {
            if let Some(partition) = self.relation()? {
                let form = if self.cursor.is_at("concurrently") {
                    Form::DetachConcurrently
                } else {
                    Form::DetachPartition
                };
                self.act_with(form, table, partition)?;
                self.change(Change::Unlink(LinkKind::Child, table, partition))?;
                self.change(Change::Unlink(LinkKind::Partition, table, partition))?;
                self.change(Change::Unlink(LinkKind::Default, table, partition))?;
                self.detach_indexes(partition)?;
            }
            return Ok(true);
        }
        Ok(false)
    }

    /// Makes the indexes of `partition` no longer parts of the indexes of its parent.
    fn detach_indexes(&mut self, partition: usize) -> Result<(), SqlFault> {
        let mut detached = Vec::new(self.alloc);
        for of in self.belongings.indexes.iter_mut() {
            if of.table == partition && of.whole.is_some() {
                of.whole = None;
                detached.push(of.index)?;
            }
        }
        for index in &detached {
            if self.is_live(*index) {
                self.act(Form::DetachIndex, *index)?;
            }
        }
        Ok(())
    }

    /// Reads a form of `ALTER TABLE` that gives `table` a parent or takes one away, and answers whether such
    /// a form comes next.
    pub fn read_parent(&mut self, table: usize) -> Result<bool, SqlFault> {
        if self.cursor.eat("inherit") {
            if let Some(parent) = self.relation()? {
                self.act_with(Form::Inherit, table, parent)?;
                self.change(Change::Link(LinkKind::Child, parent, table))?;
            }
            return Ok(true);
        }
        if self.cursor.eat_all(&["no", "inherit"]) {
            if let Some(parent) = self.relation()? {
                self.act_with(Form::NoInherit, table, parent)?;
                self.change(Change::Unlink(LinkKind::Child, parent, table))?;
            }
            return Ok(true);
        }
        Ok(false)
    }

    /// Reads the index after `ATTACH PARTITION`, which is to be a part of the index `whole`.
    pub fn read_attached_index(&mut self, whole: usize) -> Result<(), SqlFault> {
        let Some(part) = self.relation()? else {
            return Ok(());
        };
        self.act_with(Form::AttachIndex, whole, part)?;
        for index in [whole, part] {
            if let Some(table) = self.table_of_index(index) {
                self.act(Form::ReadDefinition, table)?;
            }
        }
        for of in self.belongings.indexes.iter_mut() {
            if of.index == part {
                of.whole = Some(whole);
            }
        }
        Ok(())
    }
}
