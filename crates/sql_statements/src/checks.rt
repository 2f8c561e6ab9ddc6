//! The tables that the checks of foreign keys reach.

use crate::reader::StatementReader;
use sql_locks::{Form, SqlFault};

impl StatementReader {
    /// Has the statement reach the tables that checks of foreign keys read or change where `form` changes
    /// rows of `table`.
    pub fn add_checks(&mut self, form: Form, table: usize) -> Result<(), SqlFault> {
        if self.is_planned {
            return Ok(());
        }
        let columns = self.columns_set()?;
        let inserts = match form {
            Form::Insert | Form::CopyFrom => true,
            Form::Merge => self.cursor.has("insert"),
            _ => false,
        };
        let deletes = match form {
            Form::Delete => true,
            Form::Merge => self.cursor.has("delete"),
            _ => false,
        };
        let mut checks = Vec::new(self.alloc);
        for key in &self.catalog.foreign_keys {
            if key.table == table && (inserts || share_one(&key.columns, &columns)) {
                checks.push((Form::CheckReferred, key.referred))?;
            }
            let updates = share_one(&key.referred_columns, &columns);
            if key.referred == table && (deletes || updates) {
                let changes = (deletes && key.changes_on_delete)
                    || (updates && key.changes_on_update);
                let form = if changes {
                    Form::CascadeToReferring
                } else {
                    Form::CheckReferring
                };
                checks.push((form, key.table))?;
            }
        }
        for (form, number) in &checks {
            self.act(*form, *number)?;
        }
        Ok(())
    }

    /// The columns after `SET` among the words that are left.
    fn columns_set(&mut self) -> Result<Vec<String>, SqlFault> {
        let begin = self.cursor.place;
        let mut columns = Vec::new(self.alloc);
        let mut is_in_set = false;
        let mut is_column = false;
        for _ in 0..self.cursor.words.len() {
            if self.cursor.is_at_end() {
                break;
            }
            if self.cursor.eat("set") {
                is_in_set = true;
                is_column = true;
                continue;
            }
            if self
                .cursor
                .is_at_one(&["where", "from", "when", "returning"])
            {
                is_in_set = false;
            }
            if is_in_set && is_column && self.cursor.is_mark("(") {
                for column in self.columns()? {
                    columns.push(column)?;
                }
            } else if is_in_set && is_column && self.cursor.is_name_ahead(0) {
                columns.push(self.name()?)?;
            } else {
                is_column = self.cursor.is_mark(",");
                self.cursor.skip();
            }
        }
        self.cursor.place = begin;
        Ok(columns)
    }
}

/// Whether one of `columns` is one of `others`.
fn share_one(columns: &Vec<String>, others: &Vec<String>) -> bool {
    columns.iter().any(|column| others.iter().any(|other| other.as_str() == column.as_str()))
}
