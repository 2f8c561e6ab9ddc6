//! `CREATE` of all but tables.

use crate::belongings::ViewNames;
use crate::cursor::NamePlace;
use crate::indexes::IndexWords;
use crate::reader::{Change, StatementReader};
use sql_locks::{Defect, Form, LinkKind, RelationKind, SqlFault};
use std::alloc::AllocError;

/// The kinds of objects that are made, altered and dropped without a lock on a relation.
pub static LOCKLESS_OBJECTS: [&str; 23] = [
    "function",
    "procedure",
    "type",
    "domain",
    "schema",
    "role",
    "user",
    "group",
    "extension",
    "collation",
    "aggregate",
    "operator",
    "cast",
    "language",
    "database",
    "tablespace",
    "event",
    "access",
    "conversion",
    "server",
    "data",
    "text",
    "transform",
];

impl StatementReader {
    /// Reads what comes after `CREATE`.
    pub fn read_create(&mut self) -> Result<(), SqlFault> {
        let replaces = self.cursor.eat_all(&["or", "replace"]);
        self.cursor.eat("global");
        self.cursor.eat("local");
        self.cursor.eat("temporary");
        self.cursor.eat("temp");
        let is_logged = !self.cursor.eat("unlogged");
        self.cursor.eat("foreign");
        let is_recursive = self.cursor.eat("recursive");
        self.cursor.eat("constraint");
        if self.cursor.eat("table") {
            return self.read_create_table(is_logged);
        }
        if self.cursor.eat("view") {
            return self.read_create_view(replaces, is_recursive);
        }
        if self.cursor.eat_all(&["materialized", "view"]) {
            return self.read_create_materialized_view();
        }
        if self.cursor.eat("sequence") {
            return self.read_create_sequence();
        }
        if self.cursor.eat("index") || self.cursor.eat_all(&["unique", "index"]) {
            return self.read_create_index();
        }
        if self.cursor.is_at("schema") && (self.cursor.has("create") || self.cursor.has("grant")) {
            return Err(self.fault_at(0, Defect::UnknownStatement));
        }
        if self.cursor.is_at_one(&LOCKLESS_OBJECTS) {
            return Ok(());
        }
        self.read_create_on_table()
    }

    /// Reads the rest of a `CREATE VIEW`, with `OR REPLACE` where `replaces` is true and with `RECURSIVE`
    /// where `is_recursive` is.
    fn read_create_view(&mut self, replaces: bool, is_recursive: bool) -> Result<(), SqlFault> {
        let begin = self.cursor.place;
        let name = self.name()?;
        let own = if is_recursive {
            Some(self.cursor.place.saturating_sub(1))
        } else {
            None
        };
        let before = self.catalog.find(name.as_str());
        if !self.cursor.skip_to("as") {
            return Err(self.fault(Defect::NoName));
        }
        let first = self.acts.len();
        let names = self.names_left()?;
        self.read_query_with(Form::ReadDefinition, own)?;
        let view = match before {
            Some(view) if replaces => view,
            _ => self
                .catalog
                .add(self.alloc, name.as_str(), RelationKind::View)?,
        };
        if !self.link_readings(LinkKind::Reads, view, first)? {
            return Err(self.fault_at(begin, Defect::ViewCycle));
        }
        self.act(Form::CreateView, view)?;
        self.know_view(view, names)
    }

    /// Keeps that the query of `view` names `names`.
    fn know_view(&mut self, view: usize, names: Vec<String>) -> Result<(), SqlFault> {
        self.belongings.views.push(ViewNames { view, names })?;
        Ok(())
    }

    /// The names and stars among the words of the statement that are left.
    fn names_left(&mut self) -> Result<Vec<String>, SqlFault> {
        let begin = self.cursor.place;
        let mut names = Vec::new(self.alloc);
        for _ in begin..self.cursor.words.len() {
            if self.cursor.is_name_ahead(0) {
                names.push(self.part()?)?;
            } else {
                if self.cursor.is_star() {
                    names.push(String::from_str(self.alloc, "*")?)?;
                }
                self.cursor.advance();
            }
        }
        self.cursor.place = begin;
        Ok(names)
    }

    /// The next word, as one part of a name.
    fn part(&mut self) -> Result<String, SqlFault> {
        let begin = self.cursor.place;
        self.cursor.advance();
        Ok(self.name_at(NamePlace {
            begin,
            end: self.cursor.place,
        })?)
    }

    /// Reads what comes after `CREATE MATERIALIZED VIEW`.
    fn read_create_materialized_view(&mut self) -> Result<(), SqlFault> {
        let may_exist = self.eat_if_exists();
        let name = self.name()?;
        if !self.cursor.skip_to("as") {
            return Err(self.fault(Defect::NoName));
        }
        if may_exist && self.catalog.find(name.as_str()).is_some() {
            return self.read_query(Form::ReadDefinition);
        }
        let names = self.names_left()?;
        let view = self
            .catalog
            .add(self.alloc, name.as_str(), RelationKind::MaterializedView)?;
        self.act(Form::CreateTableAs, view)?;
        let first = self.acts.len();
        self.read_filling_query()?;
        self.link_readings(LinkKind::Stores, view, first)?;
        self.know_view(view, names)
    }

    /// Links `view`, by links of `kind`, to the targets of the forms that the statement has from the place
    /// `first` on, and answers whether none of these targets is the view or reads it.
    fn link_readings(
        &mut self,
        kind: LinkKind,
        view: usize,
        first: usize,
    ) -> Result<bool, SqlFault> {
        for place in first..self.acts.len() {
            let Some(act) = self.acts.get(place) else {
                break;
            };
            let read = act.target;
            if read == view || self.reads(read, view)? {
                return Ok(false);
            }
            self.change(Change::Link(kind, view, read))?;
        }
        Ok(true)
    }

    /// Whether the view `reader` reads the relation `read`, or a view that does.
    fn reads(&self, reader: usize, read: usize) -> Result<bool, AllocError> {
        Ok(self.followed(LinkKind::Reads, reader)?.contains(&read))
    }

    /// Reads what comes after `CREATE SEQUENCE`.
    fn read_create_sequence(&mut self) -> Result<(), SqlFault> {
        let may_exist = self.eat_if_exists();
        let name = self.name()?;
        if may_exist && self.catalog.find(name.as_str()).is_some() {
            return Ok(());
        }
        let sequence = self.make(name.as_str(), RelationKind::Sequence)?;
        self.act(Form::CreateSequence, sequence)?;
        self.read_owned_by(sequence)
    }

    /// Reads the table of the column that owns `sequence`, if one is named.
    pub fn read_owned_by(&mut self, sequence: usize) -> Result<(), SqlFault> {
        for _ in 0..self.cursor.words.len() {
            if self.cursor.is_at_end() || self.cursor.eat_all(&["owned", "by"]) {
                break;
            }
            self.cursor.advance();
        }
        if self.cursor.is_at_end() || self.cursor.is_at("none") {
            return Ok(());
        }
        if let Some(table) = self.relation_of_column()? {
            self.act_with(Form::SequenceOwnedBy, sequence, table)?;
            self.change(Change::Link(LinkKind::Owns, table, sequence))?;
        }
        Ok(())
    }

    /// Reads what comes after `CREATE INDEX`.
    fn read_create_index(&mut self) -> Result<(), SqlFault> {
        let is_concurrent = self.cursor.eat("concurrently");
        let may_exist = self.eat_if_exists();
        let mut name = String::new(self.alloc);
        if !self.cursor.is_at("on") {
            name = self.name()?;
        }
        self.cursor.eat("on");
        let is_only = self.cursor.eat("only");
        let Some(table) = self.relation()? else {
            return Ok(());
        };
        let begin = self.cursor.place;
        let names = self.names_left()?;
        self.cursor.place = begin;
        let words = IndexWords {
            columns: self.index_columns()?,
            names,
            suffix: "idx",
            whole: None,
        };
        if name.len() == 0 {
            name = self.name_of_index(table, &words.columns, "idx")?;
        }
        if may_exist && self.catalog.find(name.as_str()).is_some() {
            self.act(Form::CreateIndexThatExists, table)?;
            return Ok(());
        }
        let index = self
            .catalog
            .add(self.alloc, name.as_str(), RelationKind::Index)?;
        self.know_index(index, table, words)?;
        if !self.belongings.is_partitioned(table) {
            self.change(Change::Link(LinkKind::Index, table, index))?;
        }
        let form = if is_concurrent {
            Form::CreateIndexConcurrently
        } else {
            Form::CreateIndex
        };
        self.act_on(form, table, Some(index), is_only)?;
        if !is_only {
            self.make_parts(form, table, index)?;
        }
        Ok(())
    }

    /// Reads the columns of an index, by which the server names the index.
    fn index_columns(&mut self) -> Result<Vec<String>, SqlFault> {
        if self.cursor.eat("using") {
            self.cursor.advance();
        }
        let mut columns = Vec::new(self.alloc);
        self.cursor.eat_mark("(");
        for _ in 0..self.cursor.words.len() {
            if self.cursor.is_name_ahead(0) {
                columns.push(self.part()?)?;
            } else {
                columns.push(String::from_str(self.alloc, "expr")?)?;
            }
            self.cursor.skip_element();
            if !self.cursor.eat_mark(",") {
                break;
            }
        }
        Ok(columns)
    }
}
