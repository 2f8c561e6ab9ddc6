//! Statements that lock, empty, copy and maintain tables, and those that run a query.

use crate::reader::StatementReader;
use sql_locks::{Defect, Form, RelationKind, SqlFault};

impl StatementReader {
    /// Reads a statement of maintenance, or one that locks or empties tables, and answers whether such a
    /// statement comes next.
    pub fn read_maintenance(&mut self) -> Result<bool, SqlFault> {
        if self.cursor.eat("truncate") {
            self.read_truncate()?;
        } else if self.cursor.eat("lock") {
            self.read_lock()?;
        } else if self.cursor.eat("copy") {
            self.read_copy()?;
        } else if self.cursor.eat("explain") {
            self.read_explained()?;
        } else if self.cursor.eat("declare") {
            self.cursor.skip_to("for");
            self.read_query(Form::Select)?;
        } else if self.cursor.eat("prepare") {
            self.cursor.skip_to("as");
            self.read_definition()?;
        } else if self.cursor.eat("vacuum") {
            self.read_vacuum()?;
        } else if self.cursor.eat("analyze") || self.cursor.eat("analyse") {
            self.read_tables(Form::Analyze)?;
        } else if self.cursor.eat("cluster") {
            self.read_cluster()?;
        } else if self.cursor.eat("reindex") {
            self.read_reindex()?;
        } else if self.cursor.eat("refresh") {
            self.read_refresh()?;
        } else if self.cursor.eat("comment") {
            self.read_comment()?;
        } else {
            return Ok(false);
        }
        Ok(true)
    }

    /// Reads what comes after `TRUNCATE`.
    fn read_truncate(&mut self) -> Result<(), SqlFault> {
        self.cursor.eat("table");
        let form = if self.cursor.has("cascade") {
            Form::TruncateCascade
        } else {
            Form::Truncate
        };
        let restarts = self.cursor.has("restart");
        for _ in 0..self.cursor.words.len() {
            let is_only = self.cursor.eat("only");
            if let Some(table) = self.relation()? {
                self.act_on(form, table, None, is_only)?;
                if restarts {
                    self.act(Form::RestartIdentity, table)?;
                }
            }
            if !self.goes_on() {
                break;
            }
        }
        Ok(())
    }

    /// Passes the star after a table's name and a comma, and answers whether a comma came.
    fn goes_on(&mut self) -> bool {
        self.cursor.eat_star();
        self.cursor.eat_mark(",")
    }

    /// Reads what comes after `LOCK`.
    fn read_lock(&mut self) -> Result<(), SqlFault> {
        self.cursor.eat("table");
        let form = self.lock_form()?;
        for _ in 0..self.cursor.words.len() {
            let is_only = self.cursor.eat("only");
            if let Some(table) = self.relation()? {
                self.act_on(form, table, None, is_only)?;
            }
            if !self.goes_on() {
                break;
            }
        }
        Ok(())
    }

    /// The form of a `LOCK TABLE` in the mode that comes after `IN`, or in `ACCESS EXCLUSIVE` mode where no
    /// `IN` comes.
    fn lock_form(&mut self) -> Result<Form, SqlFault> {
        let begin = self.cursor.place;
        if !self.cursor.skip_to("in") {
            self.cursor.place = begin;
            return Ok(Form::LockAccessExclusive);
        }
        let form = self.lock_mode();
        match form {
            Some(form) => {
                self.cursor.place = begin;
                Ok(form)
            }
            None => Err(self.fault(Defect::BadMode)),
        }
    }

    /// Reads the lock mode that comes next, and answers the form of a `LOCK TABLE` in that mode, or none
    /// where no lock mode comes.
    fn lock_mode(&mut self) -> Option<Form> {
        let cursor = &mut self.cursor;
        if cursor.eat_all(&["access", "share"]) {
            Some(Form::LockAccessShare)
        } else if cursor.eat_all(&["access", "exclusive"]) {
            Some(Form::LockAccessExclusive)
        } else if cursor.eat_all(&["row", "share"]) {
            Some(Form::LockRowShare)
        } else if cursor.eat_all(&["row", "exclusive"]) {
            Some(Form::LockRowExclusive)
        } else if cursor.eat_all(&["share", "update", "exclusive"]) {
            Some(Form::LockShareUpdateExclusive)
        } else if cursor.eat_all(&["share", "row", "exclusive"]) {
            Some(Form::LockShareRowExclusive)
        } else if cursor.eat("share") {
            Some(Form::LockShare)
        } else if cursor.eat("exclusive") {
            Some(Form::LockExclusive)
        } else {
            None
        }
    }

    /// Reads what comes after `COPY`.
    fn read_copy(&mut self) -> Result<(), SqlFault> {
        if self.cursor.eat_mark("(") {
            return self.read_query(Form::Select);
        }
        let Some(table) = self.relation()? else {
            return Ok(());
        };
        self.columns()?;
        if self.cursor.is_at("from") {
            self.act(Form::CopyFrom, table)?;
            self.add_parents(table)?;
            return self.add_checks(Form::CopyFrom, table);
        }
        self.act(Form::CopyTo, table)?;
        Ok(())
    }

    /// Reads the statement after `EXPLAIN`.
    fn read_explained(&mut self) -> Result<(), SqlFault> {
        self.is_planned = !self.eat_explain_options();
        if self.is_query() {
            return self.read_query(Form::Select);
        }
        if self.cursor.eat("declare") {
            self.cursor.skip_to("for");
            return self.read_query(Form::Select);
        }
        if self.is_planned && self.cursor.eat("create") && self.cursor.skip_to("as") {
            return self.read_query(Form::Select);
        }
        Err(self.fault_at(0, Defect::UnknownStatement))
    }

    /// Passes the options of `EXPLAIN`, and answers whether the explained statement is run.
    fn eat_explain_options(&mut self) -> bool {
        let mut runs = false;
        if self.cursor.is_mark("(") && !self.cursor.is_ahead(1, "select") {
            for _ in 0..self.cursor.words.len() {
                if self.cursor.is_at_end() || self.cursor.eat_mark(")") {
                    break;
                }
                if self.cursor.eat("analyze") || self.cursor.eat("analyse") {
                    runs = !self.cursor.is_at_one(&["false", "off"]);
                } else {
                    self.cursor.advance();
                }
            }
        }
        if self.cursor.eat("analyze") || self.cursor.eat("analyse") {
            runs = true;
        }
        self.cursor.eat("verbose");
        runs
    }

    /// Reads what comes after `VACUUM`.
    fn read_vacuum(&mut self) -> Result<(), SqlFault> {
        let mut is_full = false;
        if self.cursor.eat_mark("(") {
            for _ in 0..self.cursor.words.len() {
                if self.cursor.is_at_end() || self.cursor.eat_mark(")") {
                    break;
                }
                if self.cursor.eat("full") {
                    is_full = !self.cursor.is_at_one(&["false", "off"]);
                } else {
                    self.cursor.advance();
                }
            }
        }
        for _ in 0..self.cursor.words.len() {
            if self.cursor.eat("full") {
                is_full = true;
            } else if !self.cursor.eat("freeze")
                && !self.cursor.eat("verbose")
                && !self.cursor.eat("analyze")
            {
                break;
            }
        }
        self.read_tables(if is_full {
            Form::VacuumFull
        } else {
            Form::Vacuum
        })
    }

    /// Reads the tables that `form` is about, or takes every table where none is named.
    fn read_tables(&mut self, form: Form) -> Result<(), SqlFault> {
        if self.cursor.is_mark("(") {
            self.cursor.skip();
        }
        self.cursor.eat("verbose");
        if self.cursor.is_at_end() {
            return self.act_on_all(form);
        }
        for _ in 0..self.cursor.words.len() {
            if let Some(table) = self.relation()? {
                self.maintain(form, table)?;
            }
            self.columns()?;
            if !self.cursor.eat_mark(",") {
                break;
            }
        }
        Ok(())
    }

    /// Has `form` be about `table`. An `ANALYZE` reads the table's children, and analyzes its partitions.
    fn maintain(&mut self, form: Form, table: usize) -> Result<(), SqlFault> {
        self.act(form, table)?;
        if form != Form::Analyze {
            return Ok(());
        }
        if self.belongings.is_partitioned(table) {
            self.act(Form::AnalyzePartitions, table)?;
        } else {
            self.act(Form::AnalyzeChildren, table)?;
        }
        Ok(())
    }

    /// Has `form` be about every table and materialized view.
    fn act_on_all(&mut self, form: Form) -> Result<(), SqlFault> {
        for number in 0..self.catalog.relations.len() {
            let kind = self.kind(number);
            let has_rows = kind == RelationKind::Table || kind == RelationKind::MaterializedView;
            if has_rows && self.is_live(number) {
                self.act(form, number)?;
            }
        }
        Ok(())
    }

    /// Reads what comes after `CLUSTER`. Which tables were clustered before is not known.
    fn read_cluster(&mut self) -> Result<(), SqlFault> {
        if self.cursor.is_mark("(") {
            self.cursor.skip();
        }
        self.cursor.eat("verbose");
        if self.cursor.is_at_end() {
            return Err(self.fault_at(0, Defect::UnknownStatement));
        }
        self.read_tables(Form::Cluster)
    }

    /// Reads what comes after `REINDEX`.
    fn read_reindex(&mut self) -> Result<(), SqlFault> {
        if self.cursor.is_mark("(") {
            self.cursor.skip();
        }
        if self.cursor.eat("system") {
            return Ok(());
        }
        let is_index = self.cursor.eat("index");
        if !is_index && !self.cursor.eat("table") {
            return self.read_reindex_of_all();
        }
        let is_concurrent = self.cursor.eat("concurrently");
        let form = match (is_index, is_concurrent) {
            (true, true) => Form::ReindexIndexConcurrently,
            (true, false) => Form::ReindexIndex,
            (false, true) => Form::ReindexTableConcurrently,
            (false, false) => Form::ReindexTable,
        };
        self.read_named(form)
    }

    /// Reads what comes after `REINDEX` of more than a table. The tables of a schema alone are not known.
    fn read_reindex_of_all(&mut self) -> Result<(), SqlFault> {
        if !self.cursor.eat("database") {
            return Err(self.fault_at(0, Defect::UnknownStatement));
        }
        if self.cursor.eat("concurrently") {
            return self.act_on_all(Form::ReindexTableConcurrently);
        }
        self.act_on_all(Form::ReindexTable)
    }

    /// Reads what comes after `REFRESH`.
    fn read_refresh(&mut self) -> Result<(), SqlFault> {
        self.cursor.eat_all(&["materialized", "view"]);
        let form = if self.cursor.eat("concurrently") {
            Form::RefreshConcurrently
        } else if self.cursor.has_outside(&["no", "data"]) {
            Form::RefreshWithNoData
        } else {
            Form::RefreshMaterializedView
        };
        self.read_named(form)
    }

    /// Reads what comes after `COMMENT`.
    fn read_comment(&mut self) -> Result<(), SqlFault> {
        self.cursor.eat("on");
        self.cursor.eat("materialized");
        self.cursor.eat("foreign");
        if self.cursor.eat("table")
            || self.cursor.eat("view")
            || self.cursor.eat("index")
            || self.cursor.eat("sequence")
        {
            return self.read_named(Form::CommentOnTable);
        }
        if self.cursor.eat("column") {
            return self.read_commented_column();
        }
        if self.cursor.eat("constraint")
            || self.cursor.eat("trigger")
            || self.cursor.eat("rule")
            || self.cursor.eat("policy")
        {
            if self.cursor.is_ahead(2, "domain") {
                return Ok(());
            }
            return self.read_on_table(Form::CommentOnConstraint);
        }
        Ok(())
    }

    /// Reads the table of a column that gets a comment.
    fn read_commented_column(&mut self) -> Result<(), SqlFault> {
        if let Some(number) = self.relation_of_column()? {
            self.act(Form::CommentOnTable, number)?;
        }
        Ok(())
    }
}
