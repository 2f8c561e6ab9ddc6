//! The SQL of a script: its schema, and the statements of its `do` and `work` lines.
ghost use Rattle.std.specs.Prelude.{◌≡◌, true, false, map, All, IfOk};
ghost use Rattle.sql_script.specs.Lines.{database_called};
ghost use Rattle.sql_report.specs.Report.{line_of_statement};
ghost use Rattle.sql_script.specs.Turns.{line_of_turn, AreTurnsOf, IsTurn};

use crate::asked::tag_of;
use crate::awaited::Course;
use crate::faults::{ScriptDefect, ScriptFault};
use crate::lines::Schema;
use crate::sessions::ScriptSession;
use crate::turns::{Manner, Table, Turn, end_of, work_of};
use modes_core::Tag;
use sql_locks::{Lock, SqlFault};
use sql_statements::{SqlStatement, SqlWord, StatementReader, split_statements};
use std::alloc::{AllocError, Global};
use std::marker::Model;

/// What the SQL of a script made: tables, and the transactions of its sessions. Contracts see its sessions,
/// and whether a schema is read.
#[derive(Drop)]
pub struct SqlScript {
    pub(crate) alloc: Global,
    pub(crate) reader: StatementReader,
    pub(crate) sessions: Vec<ScriptSession>,
    /// How many transactions have begun that have a lock of their own. It is none unless the schema says that
    /// each transaction that a `BEGIN` opens has one.
    pub(crate) begun: Option<u32>,
    /// The schema whose lines are read now, if there is one.
    pub(crate) schema: Option<Schema>,
}

impl Model for SqlScript {
    ghost use Rattle.std.specs.Prelude.{is_some};
    ghost use Rattle.sql_script.specs.Known.{Known};

    ghost Value = { Known };

    ghost view = { λ script. record { in_schema = is_some script.schema; sessions = script.sessions.items } };
}

impl SqlScript {
    /// The SQL of a script of which nothing was read: no table was made, and no session opened.
    pub fn new(alloc: Global) -> Self {
        SqlScript {
            alloc,
            reader: StatementReader::new(alloc),
            sessions: Vec::new(alloc),
            begun: None,
            schema: None,
        }
    }

    /// Runs the statements `text` of a schema. All sessions know the tables that these statements make.
    pub fn read_schema(&mut self, text: &[u8]) -> Result<(), ScriptFault> {
        for statement in split_statements(self.alloc, text)? {
            self.reader.read_statement(statement.words)?;
            if is_of_transactions(self.reader.cursor.words.as_slice()) {
                self.begun = Some(0);
            }
            self.reader.settle(true)?;
        }
        Ok(())
    }

    /// Opens the session named `name` in `database`, with no transaction open.
    pub fn open(&mut self, name: &str, database: u32) -> Result<(), AllocError> {
        self.close(name);
        let session = ScriptSession::new(self.alloc, name, database)?;
        match self.sessions.push(session) {
            Ok(()) => Ok(()),
            Err(_) => Err(AllocError),
        }
    }

    /// Takes away the session named `name`, if there is one.
    pub fn close(&mut self, name: &str) {
        self.sessions
            .retain(|session| session.name.as_str() != name);
    }

    /// The database of the session named `name`, if there is one.
    pub fn database_of(&self, name: &str) -> Option<u32>
        ensures { result ≡ database_called self.now.sessions name.now }
    {
        self.sessions
            .iter()
            .find(|session| session.name.as_str() == name)
            .map(|session| session.database)
    }

    /// The place of the session named `name` among the script's sessions.
    pub(crate) fn place_of(&self, name: &str) -> Option<usize> {
        self.sessions
            .iter()
            .position(|session| session.name.as_str() == name)
    }

    /// What the session named `name`, one of `database`, plays for the statements `text`, a turn for each.
    /// Where one statement is bad nothing is to be played.
    pub fn turns_of(
        &mut self,
        name: &str,
        database: u32,
        text: &[u8],
    ) -> Result<Vec<Turn>, ScriptFault>
        ensures { IfOk result (λ turns. AreTurnsOf database false text.now turns.items) }
    {
        let statements = split_statements(self.alloc, text)?;
        self.all_turns(name, database, statements, false)
    }

    /// What the session named `name`, one of `database`, plays for the statement `text`, at which it works
    /// until a later line. What the session plays at the statement's end is not played yet, but left. Refused
    /// where `text` is not one statement.
    pub fn turns_at_work(
        &mut self,
        name: &str,
        database: u32,
        text: &[u8],
    ) -> Result<Vec<Turn>, ScriptFault>
        ensures { IfOk result (λ turns. AreTurnsOf database true text.now turns.items) }
    {
        let statements = split_statements(self.alloc, text)?;
        if statements.len() != 1 {
            return Err(ScriptFault::Word {
                line: 1,
                what: ScriptDefect::NoWork,
                from: 0,
            });
        }
        self.all_turns(name, database, statements, true)
    }

    /// What the session named `name`, one of `database`, plays for `statements`, a turn for each. Where
    /// `works`, the session works at each until a later line.
    fn all_turns(
        &mut self,
        name: &str,
        database: u32,
        statements: Vec<SqlStatement>,
        works: bool,
    ) -> Result<Vec<Turn>, ScriptFault>
        ensures lines { IfOk result (λ turns. map line_of_turn turns.items ≡ map line_of_statement statements.items) }
        ensures turns { IfOk result (λ turns. All (IsTurn database works) turns.items) }
    {
        let mut turns = Vec::new(self.alloc);
        for statement in statements {
            let turn = self.turn(name, database, statement, works)?;
            turns.push(turn)?;
        }
        Ok(turns)
    }

    /// What the session named `name`, one of `database`, plays for `statement`. Where `works`, the session
    /// works at it until a later line.
    fn turn(
        &mut self,
        name: &str,
        database: u32,
        statement: SqlStatement,
        works: bool,
    ) -> Result<Turn, ScriptFault>
        ensures line { IfOk result (λ turn. turn.line ≡ statement.line) }
        ensures turn { IfOk result (IsTurn database works) }
    {
        let line = statement.line;
        let known = self.reader.catalog.relations.len();
        self.reader.read_statement(statement.words)?;
        let locks = self.locks(name)?;
        let others = self.others(name, database)?;
        let manner = self.manner(name, database, locks.as_slice(), &others, works)?;
        let awaited = self.awaited(database, locks.as_slice())?;
        let mut steps = work_of(
            self.alloc,
            database,
            manner,
            locks.as_slice(),
            &others,
            &awaited,
        )?;
        let mut left = end_of(self.alloc, database, manner, locks.as_slice())?;
        if !works {
            steps.append(&mut left)?;
        }
        let named = self.named(database, locks.as_slice(), manner.begins)?;
        self.settle(name, manner, locks.as_slice())?;
        self.note_made(name, manner, works, known)?;
        if works {
            self.begin_work(name, locks.as_slice(), &left)?;
        }
        Ok(Turn {
            line,
            manner,
            locks,
            others,
            awaited,
            steps,
            left,
            named,
        })
    }

    /// What a statement in `database` locks, with names: first the transaction's lock `begins`, if there is
    /// one, and then each relation of `locks` once.
    fn named(
        &self,
        database: u32,
        locks: &[Lock],
        begins: Option<Tag>,
    ) -> Result<Vec<Table>, ScriptFault> {
        let mut named = Vec::new(self.alloc);
        if let Some(table) = self.named_transaction(begins)? {
            if named.push(table).is_err() {
                return Err(ScriptFault::Sql(SqlFault::NoMemory));
            }
        }
        for (place, lock) in locks.iter().enumerate() {
            let before = locks.get(..place).unwrap_or(&[]);
            if before.iter().any(|other| other.relation == lock.relation) {
                continue;
            }
            let table = Table {
                tag: tag_of(database, lock.relation)?,
                name: self.reader.name_of_relation(lock.relation)?,
            };
            if named.push(table).is_err() {
                return Err(ScriptFault::Sql(SqlFault::NoMemory));
            }
        }
        Ok(named)
    }

    /// The lock `begins` of a transaction with its name, if there is one.
    fn named_transaction(&self, begins: Option<Tag>) -> Result<Option<Table>, AllocError> {
        let (Some(tag), Some(number)) = (begins, self.begun) else {
            return Ok(None);
        };
        let name = format!(in self.alloc; "transaction_{number}")?;
        Ok(Some(Table { tag, name }))
    }

    /// Has the tables, and the transaction of the session named `name`, be as the statement that was read
    /// leaves them, which has the locks `locks` and is played in `manner`.
    fn settle(&mut self, name: &str, manner: Manner, locks: &[Lock]) -> Result<(), ScriptFault> {
        let alloc = self.alloc;
        if let Some(place) = self.place_of(name) {
            let words = self.reader.cursor.words.as_slice();
            if let Some(session) = self.sessions.get_mut(place) {
                session.follow(alloc, manner.control, words, locks, manner.begins)?;
            }
        }
        self.reader.settle(true)?;
        Ok(())
    }

    /// Notes the relations that the open transaction of the session named `name` made by the statement that
    /// was read, which is played in `manner`: all but the first `known` ones. Where `works`, a transaction of
    /// the statement's own is open too, until a later line.
    fn note_made(
        &mut self,
        name: &str,
        manner: Manner,
        works: bool,
        known: usize,
    ) -> Result<(), AllocError> {
        let count = self.reader.catalog.relations.len();
        if let Some(place) = self.place_of(name) {
            if let Some(session) = self.sessions.get_mut(place) {
                if session.is_open || (works && manner.course == Course::Within) {
                    for number in known..count {
                        session.made.push(number)?;
                    }
                }
            }
        }
        Ok(())
    }
}

/// Whether `words` are the setting by which transactions have locks of their own.
fn is_of_transactions(words: &[SqlWord]) -> bool {
    let mut said = words.iter().map(|word| word.text.as_str());
    let mut is_same = true;
    for want in ["set", "lock_scenario", ".", "transactions"] {
        match said.next() {
            Some(text) if text.eq_ignore_ascii_case(want) => {}
            _ => is_same = false,
        }
    }
    is_same && words.last().is_some_and(|word| word.is_key_word("on"))
}
