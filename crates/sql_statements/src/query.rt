//! The relations that a query, an `INSERT`, an `UPDATE`, a `DELETE` or a `MERGE` reaches.

mod changes;

use crate::functions::read_function;
use crate::query_levels::{ENDS_OF_FROM, JOINS_OF_QUERIES, Level, NO_ALIASES};
use crate::reader::StatementReader;
use sql_locks::{Defect, Form, LinkKind, RelationKind, SqlFault};
use std::alloc::AllocError;

/// A relation that a query reads, with the place of the name by which the query knows the relation.
#[derive(Clone, Copy)]
struct Reading {
    form: Form,
    target: usize,
    alias: usize,
    is_only: bool,
}

/// A query that is being read, and how far it was read.
#[derive(Drop)]
struct Query {
    /// The form in which the query reaches the relations that it reads.
    reads: Form,
    outer: Vec<Level>,
    level: Level,
    readings: Vec<Reading>,
    /// The places, among the words of the statement, of the names of common table expressions.
    expressions: Vec<usize>,
    /// Whether the relation that comes next is named after `ONLY`.
    is_only: bool,
}

impl StatementReader {
    /// Reads the query that comes next, up to its end or the parenthesis that ends it, and has the statement
    /// reach its relations: those that the query reads in the form `reads`.
    pub fn read_query(&mut self, reads: Form) -> Result<(), SqlFault> {
        self.read_query_with(reads, None)
    }

    /// Reads the query of a definition, which the server does not plan, nor does it plan the views that the
    /// query names: what is read and written is locked, but no indexes and no children.
    pub fn read_definition(&mut self) -> Result<(), SqlFault> {
        let first = self.acts.len();
        self.read_query(Form::ReadDefinition)?;
        for place in first..self.acts.len() {
            let Some(act) = self.acts.get(place).copied() else {
                break;
            };
            if self.kind(act.target) == RelationKind::View {
                for read in &self.read_by(act.target)? {
                    self.act(Form::ReadDefinition, *read)?;
                }
            }
        }
        Ok(())
    }

    /// The relations that `view` reads, and all that the views among these read.
    fn read_by(&self, view: usize) -> Result<Vec<usize>, AllocError> {
        self.followed(LinkKind::Reads, view)
    }

    /// Reads the query that fills a new table, or that is not run where the statement ends in `WITH NO DATA`.
    pub fn read_filling_query(&mut self) -> Result<(), SqlFault> {
        if self.cursor.has_outside(&["with", "no", "data"]) {
            return self.read_query(Form::ReadDefinition);
        }
        self.read_query(Form::Select)
    }

    /// Reads the query that comes next, which reads relations in the form `reads`. The name at the place
    /// `own`, if one is given, is no relation but the query itself.
    pub fn read_query_with(&mut self, reads: Form, own: Option<usize>) -> Result<(), SqlFault> {
        let mut query = Query {
            reads,
            outer: Vec::new(self.alloc),
            level: Level::new(0),
            readings: Vec::new(self.alloc),
            expressions: Vec::new(self.alloc),
            is_only: false,
        };
        if let Some(own) = own {
            query.expressions.push(own)?;
        }
        let first = self.acts.len();
        for _ in 0..self.cursor.words.len() {
            if self.cursor.is_at_end() || (self.cursor.is_mark(")") && query.outer.is_empty()) {
                break;
            }
            query.read_word(self)?;
        }
        if query.level.expects_relation {
            return Err(self.fault(Defect::NoName));
        }
        self.add_readings(&query.readings, first)?;
        Ok(())
    }

    /// Puts the forms of `readings`, the relations that a query names, before the forms that were added after
    /// the first `before` ones: the server locks what a query names before it runs the query, and calls
    /// functions, checks foreign keys and makes tables as it runs.
    fn add_readings(&mut self, readings: &Vec<Reading>, before: usize) -> Result<(), AllocError> {
        let mut behind = Vec::new(self.alloc);
        for place in before..self.acts.len() {
            if let Some(act) = self.acts.get(place).copied() {
                behind.push(act)?;
            }
        }
        self.acts.truncate(before);
        for reading in readings {
            self.act_on(reading.form, reading.target, None, reading.is_only)?;
        }
        for act in &behind {
            self.acts.push(*act)?;
        }
        Ok(())
    }
}

impl Query {
    /// Reads in `reader` what begins with the next word.
    fn read_word(&mut self, reader: &mut StatementReader) -> Result<(), SqlFault> {
        if reader.cursor.eat_mark("(") {
            self.open()?;
            return Ok(());
        }
        if reader.cursor.eat_mark(")") {
            self.close();
            return Ok(());
        }
        if reader.cursor.eat_mark(",") {
            self.level.expects_relation = self.level.is_in_from;
            self.level.expects_expression = self.level.is_in_with;
            return Ok(());
        }
        if !reader.cursor.is_name_ahead(0) {
            // The commands of a rule stand one after another.
            if reader.cursor.is_semicolon() {
                self.level = Level::new(self.readings.len());
            }
            reader.cursor.advance();
            return Ok(());
        }
        if self.level.expects_expression {
            return self.read_expression(reader);
        }
        if self.level.expects_relation && !reader.cursor.is_at_one(&["select", "with", "values"]) {
            return self.read_reading(reader);
        }
        self.read_key_word(reader)
    }

    /// Goes into parentheses: what is in them is read on a level of its own.
    fn open(&mut self) -> Result<(), AllocError> {
        let inner = self.level.within(self.readings.len());
        self.level.expects_relation = false;
        self.outer.push(self.level)?;
        self.level = inner;
        Ok(())
    }

    /// Goes out of parentheses: what comes next is read on the level outside them.
    fn close(&mut self) {
        if let Some(outer) = self.outer.pop() {
            self.level = outer;
        }
    }

    /// Reads in `reader` the name of a common table expression, up to what is in its parentheses.
    fn read_expression(&mut self, reader: &mut StatementReader) -> Result<(), SqlFault> {
        if reader.cursor.eat("recursive") {
            return Ok(());
        }
        self.level.expects_expression = false;
        self.expressions.push(reader.cursor.place)?;
        reader.cursor.advance();
        if reader.cursor.is_mark("(") {
            reader.cursor.skip();
        }
        reader.cursor.eat("as");
        reader.cursor.eat("not");
        reader.cursor.eat("materialized");
        Ok(())
    }

    /// Reads in `reader` a relation that the query reads, or passes the name of a function or a common table
    /// expression in place of one.
    fn read_reading(&mut self, reader: &mut StatementReader) -> Result<(), SqlFault> {
        if reader.cursor.eat("only") {
            self.is_only = true;
            return Ok(());
        }
        if reader.cursor.eat("lateral") {
            return Ok(());
        }
        if reader.cursor.eat_all(&["rows", "from"]) {
            self.level.expects_relation = false;
            return Ok(());
        }
        self.level.expects_relation = false;
        self.level.is_fresh = false;
        let begin = reader.cursor.place;
        reader.cursor.name();
        let is_function = reader.cursor.is_mark("(");
        let is_alone = reader.cursor.place <= begin.saturating_add(1);
        if is_function || (is_alone && self.is_expression(reader, begin)) {
            return Ok(());
        }
        reader.cursor.place = begin;
        self.read_relation(reader, self.reads)
    }

    /// Whether a common table expression of the query has the name that is at `place` among the words of
    /// `reader`.
    fn is_expression(&self, reader: &StatementReader, place: usize) -> bool {
        for expression in &self.expressions {
            if reader.cursor.is_same_name(*expression, place) {
                return true;
            }
        }
        false
    }

    /// Reads in `reader` a relation, which the query reaches in `form`, and its alias.
    fn read_relation(&mut self, reader: &mut StatementReader, form: Form) -> Result<(), SqlFault> {
        let number = reader.relation()?;
        let own = reader.cursor.place.saturating_sub(1);
        reader.cursor.eat_star();
        let alias = read_alias(reader).unwrap_or(own);
        if let Some(target) = number {
            self.readings.push(Reading {
                form,
                target,
                alias,
                is_only: self.is_only,
            })?;
        }
        self.is_only = false;
        Ok(())
    }

    /// Reads in `reader` the part of a query that begins with a key word, or passes a name.
    fn read_key_word(&mut self, reader: &mut StatementReader) -> Result<(), SqlFault> {
        if self.level.is_fresh && reader.cursor.eat("with") {
            self.level.is_in_with = true;
            self.level.expects_expression = true;
            self.level.is_in_from = false;
            self.level.expects_relation = false;
            return Ok(());
        }
        let is_fresh = self.level.is_fresh;
        self.level.is_fresh = false;
        if is_fresh && self.read_verb(reader)? {
            self.level.is_in_with = false;
            return Ok(());
        }
        if reader.cursor.eat("select") {
            self.level.is_query = true;
            self.level.is_in_from = false;
            self.level.expects_relation = false;
            return Ok(());
        }
        self.read_clause(reader)
    }

    /// Reads in `reader` a clause of a query.
    fn read_clause(&mut self, reader: &mut StatementReader) -> Result<(), SqlFault> {
        if reader.cursor.is_at_one(&ENDS_OF_FROM) {
            self.level.is_in_from = false;
            self.level.expects_relation = false;
            self.pass_end_of_from(reader);
        } else if reader.cursor.is_at("from") {
            if self.level.is_query && !reader.cursor.is_behind("distinct") {
                self.level.is_in_from = true;
                self.level.expects_relation = true;
            }
            reader.cursor.advance();
        } else if reader.cursor.eat("join") {
            self.level.expects_relation = self.level.is_in_from;
        } else if reader.cursor.eat("using") {
            if self.level.uses && !self.level.is_in_from {
                self.level.is_in_from = true;
                self.level.expects_relation = true;
            }
        } else if reader.cursor.eat("for") {
            self.read_row_locks(reader);
        } else if self.level.is_query && self.outer.is_empty() && reader.cursor.eat("into") {
            read_new_table(reader)?;
        } else {
            read_function(reader)?;
        }
        Ok(())
    }

    /// Passes in `reader` the key word that ends a list after `FROM`. After a key word that joins two queries
    /// `TABLE` may name a relation.
    fn pass_end_of_from(&mut self, reader: &mut StatementReader) {
        let joins = reader.cursor.is_at_one(&JOINS_OF_QUERIES);
        reader.cursor.advance();
        if joins {
            reader.cursor.eat("all");
            reader.cursor.eat("distinct");
            self.level.expects_relation = reader.cursor.eat("table");
        }
    }

    /// Reads in `reader` what comes after `FOR` where rows are locked: `UPDATE`, `NO KEY UPDATE`, `SHARE` or
    /// `KEY SHARE`, and the names of the relations after `OF`.
    fn read_row_locks(&mut self, reader: &mut StatementReader) {
        let is_lock = reader.cursor.eat("update")
            || reader.cursor.eat("share")
            || reader.cursor.eat_all(&["no", "key", "update"])
            || reader.cursor.eat_all(&["key", "share"]);
        if !is_lock {
            return;
        }
        self.level.is_in_from = false;
        if !reader.cursor.eat("of") {
            self.lock_rows(reader, None);
            return;
        }
        for _ in 0..reader.cursor.words.len() {
            let Some(name) = reader.cursor.name() else {
                break;
            };
            self.lock_rows(reader, Some(name.end.saturating_sub(1)));
            if !reader.cursor.eat_mark(",") {
                break;
            }
        }
    }

    /// Has the query lock rows of the relations of its level: of the one whose name `reader` has at the place
    /// `name`, or of all where `name` is none.
    fn lock_rows(&mut self, reader: &StatementReader, name: Option<usize>) {
        let before = self.level.before;
        for place in before..self.readings.len() {
            let reading = self.readings[place];
            let is_named = match name {
                Some(name) => reader.cursor.is_same_name(reading.alias, name),
                None => true,
            };
            if is_named && reading.form == Form::Select {
                self.readings[place].form = Form::SelectForUpdate;
            }
        }
    }
}

/// Reads in `reader` the alias of a relation, if the relation has one, and answers the place of the alias.
fn read_alias(reader: &mut StatementReader) -> Option<usize> {
    let is_said = reader.cursor.eat("as");
    if !reader.cursor.is_name_ahead(0) {
        return None;
    }
    if !is_said
        && (reader.cursor.is_at_one(&ENDS_OF_FROM) || reader.cursor.is_at_one(&NO_ALIASES))
    {
        return None;
    }
    let place = reader.cursor.place;
    reader.cursor.advance();
    Some(place)
}

/// Reads in `reader` the table that a `SELECT INTO` makes.
fn read_new_table(reader: &mut StatementReader) -> Result<(), SqlFault> {
    reader.cursor.eat("unlogged");
    reader.cursor.eat("temp");
    reader.cursor.eat("temporary");
    reader.cursor.eat("table");
    let name = reader.name()?;
    let number = reader.make(name.as_str(), RelationKind::Table)?;
    reader.act(Form::CreateTableAs, number)?;
    Ok(())
}
