//! What `ALTER TABLE .. DROP` takes away: columns and constraints, with what goes with them.

use crate::names::made_name;
use crate::reader::{Change, StatementReader};
use sql_locks::{Form, LinkKind, RelationKind, SqlFault};

impl StatementReader {
    /// Reads a form that drops a column or a constraint of `table`, and of its children unless `is_only`.
    pub fn read_drop(&mut self, table: usize, is_only: bool) -> Result<(), SqlFault> {
        let is_constraint = self.cursor.eat("constraint");
        if !is_constraint {
            self.cursor.eat("column");
        }
        self.eat_if_exists();
        let name = self.name()?;
        let form = if is_constraint {
            Form::DropConstraint
        } else {
            Form::DropColumn
        };
        self.act_on(form, table, None, is_only)?;
        let cascades = self.cursor.is_at("cascade");
        if is_constraint {
            self.drop_index_of(table, name.as_str(), cascades)?;
        } else {
            self.drop_with_column(table, name.as_str(), is_only, cascades)?;
        }
        self.drop_foreign_keys(table, name.as_str(), is_constraint)
    }

    /// Has the statement drop what goes with `column` of `table`: its indexes, those of its children unless
    /// `is_only`, and where `cascades` is true the foreign keys and views that name the column.
    fn drop_with_column(
        &mut self,
        table: usize,
        column: &str,
        is_only: bool,
        cascades: bool,
    ) -> Result<(), SqlFault> {
        let mut tables = Vec::new(self.alloc);
        if !is_only {
            tables = self.children_of(table)?;
        }
        tables.push(table)?;
        self.drop_indexes_with(&tables, column)?;
        self.drop_sequence_of(table, column)?;
        if cascades {
            self.drop_keys_on(table, column)?;
            self.drop_views_with(table, column)?;
        }
        Ok(())
    }

    /// Has the statement drop the sequence that was made with `column` of `table`.
    fn drop_sequence_of(&mut self, table: usize, column: &str) -> Result<(), SqlFault> {
        let owner = self.name_of_relation(table)?;
        let name = made_name(self.alloc, owner.as_str(), column, "seq")?;
        let Some(sequence) = self.catalog.find(name.as_str()) else {
            return Ok(());
        };
        if self.followed(LinkKind::Owns, table)?.contains(&sequence) {
            self.act_with(Form::DropUnique, table, sequence)?;
            self.change(Change::Drop(sequence))?;
        }
        Ok(())
    }

    /// Has the statement drop the foreign keys that refer to `column` of `table`, and reach their tables.
    fn drop_keys_on(&mut self, table: usize, column: &str) -> Result<(), SqlFault> {
        let mut referring = Vec::new(self.alloc);
        for key in &self.catalog.foreign_keys {
            if key.referred == table
                && key
                    .referred_columns
                    .iter()
                    .any(|name| name.as_str() == column)
            {
                referring.push(key.table)?;
            }
        }
        for other in &referring {
            self.act_with(Form::DropForeignKey, table, *other)?;
            self.change(Change::Unlink(LinkKind::Refers, *other, table))?;
        }
        Ok(())
    }

    /// Has the statement drop the index of the key `name` of `table`, and where `cascades` is true the
    /// foreign keys that refer to the columns of the index.
    fn drop_index_of(&mut self, table: usize, name: &str, cascades: bool) -> Result<(), SqlFault> {
        let Some(index) = self.catalog.find(name) else {
            return Ok(());
        };
        if self.kind(index) != RelationKind::Index {
            return Ok(());
        }
        self.act_with(Form::DropUnique, table, index)?;
        self.change(Change::Drop(index))?;
        self.drop_parts(index)?;
        if cascades {
            for column in self.columns_of_index(index)? {
                self.drop_keys_on(table, column.as_str())?;
            }
        }
        Ok(())
    }

    /// Has the statement drop the foreign keys of `table` that go with `name`, and reach the tables that
    /// these refer to. Whether `name` is a constraint or a column, `is_constraint` says.
    fn drop_foreign_keys(
        &mut self,
        table: usize,
        name: &str,
        is_constraint: bool,
    ) -> Result<(), SqlFault> {
        let mut gone = Vec::new(self.alloc);
        for key in &self.catalog.foreign_keys {
            let is_gone = if is_constraint {
                key.name.as_str() == name
            } else {
                key.columns.iter().any(|column| column.as_str() == name)
            };
            if key.table == table && is_gone {
                gone.push((
                    key.referred,
                    String::from_str(self.alloc, key.name.as_str())?,
                ))?;
            }
        }
        for (referred, name) in gone {
            self.act_with(Form::DropForeignKey, table, referred)?;
            self.change(Change::Unlink(LinkKind::Refers, table, referred))?;
            self.change(Change::DropForeignKey(table, name))?;
        }
        Ok(())
    }
}
