//! The lines of a script that say SQL: those of a schema, and `do`, `work` and `done` lines.
ghost use Rattle.std.specs.Prelude.{◌≡◌, Some, IfOk, OnOk, true};
ghost use Rattle.sql_script.specs.Lines.{DropsNoText, IsHeardOf, IsPlayedAtEnd, IsToPlay, database_called, work_called};
ghost use Rattle.sql_script.specs.Words.{is_blank};
ghost use Rattle.sql_script.specs.Turns.{AreTurnsOf};

use crate::faults::{ScriptDefect, ScriptFault};
use crate::script::SqlScript;
use crate::turns::Turn;
use crate::verbs::{Verb, cut_at_semicolon, cut_word, is_blank, verb_of};
use std::alloc::{AllocError, Global};

/// What a line of a script is.
#[derive(Drop)]
pub enum Heard {
    /// The line says no SQL, and is played as it is.
    Plain,
    /// The line is one of a schema, for which nothing is played.
    Schema,
    /// A session plays what the line's statements come to.
    Statements(Statements),
}

/// What a session plays for the statements of a line.
#[derive(Drop)]
pub struct Statements {
    pub session: String,
    /// What the session plays: a turn for each statement of the line, in order.
    pub turns: Vec<Turn>,
}

/// Why the SQL of a line can't be played.
#[derive(Drop)]
pub enum Unplayed {
    /// The line is bad. The text says which word of which line is, with a line feed at its end.
    Told(String),
    /// Something stands behind the last word that the line may have.
    WrongNumberOfWords,
    NoMemory,
}

impl From<AllocError> for Unplayed {
    fn from(_: AllocError) -> Self {
        Unplayed::NoMemory
    }
}

impl Unplayed {
    /// Why the SQL `text`, whose first line has the number `first` in its script, can't be played: it has the
    /// fault `fault`.
    fn of(alloc: Global, first: u32, text: &[u8], fault: ScriptFault) -> Self {
        match fault.told(alloc, first as usize, text) {
            Ok(told) => Unplayed::Told(told),
            Err(_) => Unplayed::NoMemory,
        }
    }
}

/// A schema of a script, while its lines are read.
#[derive(Drop)]
pub struct Schema {
    /// The number of the line that begins the schema.
    line: u32,
    /// The lines of the schema that were read, each with a line feed.
    text: String,
}

impl SqlScript {
    /// Takes in the line `line` of the number `number` of a script, and says what it is: of a `do` or `work`
    /// line what its own statements come to, and of a `done` line what is left of the statement at which its
    /// session works. Lines that open and close sessions are plain ones.
    pub fn hear(&mut self, number: u32, line: &str) -> Result<Heard, Unplayed>
        ensures heard { IfOk result (IsHeardOf self.old line.now) }
        ensures whole { OnOk result (DropsNoText self.old line.now) }
    {
        let (word, behind) = cut_word(line);
        let (name, text) = cut_word(behind);
        if self.schema.is_some() {
            let is_end = word == "end";
            ends_there(if is_end { behind } else { "" })?;
            self.hear_schema(line, is_end)?;
            return Ok(Heard::Schema);
        }
        match verb_of(word) {
            Verb::Schema => {
                ends_there(behind)?;
                self.begin_schema(number);
                Ok(Heard::Schema)
            }
            Verb::Do => self.hear_statements(number, name, text, false),
            Verb::Work => self.hear_statements(number, name, text, true),
            Verb::Done => {
                let (called, more) = cut_at_semicolon(name);
                ends_there(more)?;
                ends_there(text)?;
                self.hear_end(number, called)
            }
            Verb::Session => {
                self.hear_opening(name, text)?;
                Ok(Heard::Plain)
            }
            Verb::Close => {
                self.close(name);
                Ok(Heard::Plain)
            }
            Verb::Ends => {
                self.drop_transaction(name);
                Ok(Heard::Plain)
            }
            Verb::Other => Ok(Heard::Plain),
        }
    }

    /// Checks, where the script ends, that no schema is without its end. The error says what is wrong.
    pub fn finish(&self) -> Result<(), Unplayed> {
        match &self.schema {
            Some(schema) => {
                let fault = whole(ScriptDefect::UnendedSchema);
                Err(Unplayed::of(self.alloc, schema.line, b"schema", fault))
            }
            None => Ok(()),
        }
    }

    /// Begins a schema, as the line of the number `number` says: the lines after that line make tables.
    fn begin_schema(&mut self, number: u32) {
        self.schema = Some(Schema {
            line: number,
            text: String::new(self.alloc),
        });
    }

    /// Takes in `line`, one of a schema. Where `is_end`, the line ends the schema, and the schema's
    /// statements are run.
    fn hear_schema(&mut self, line: &str, is_end: bool) -> Result<(), Unplayed> {
        let Some(mut schema) = self.schema.take() else {
            return Ok(());
        };
        if !is_end {
            schema.text.push_str(line)?;
            schema.text.push('\n')?;
            self.schema = Some(schema);
            return Ok(());
        }
        let alloc = self.alloc;
        let text = schema.text.as_bytes();
        match self.read_schema(text) {
            Ok(()) => Ok(()),
            Err(fault) => Err(Unplayed::of(alloc, schema.line.saturating_add(1), text, fault)),
        }
    }

    /// Opens the session `name` in the database that the first word of `text` says, if that word is a number:
    /// else the line is a bad one, and nothing is opened.
    fn hear_opening(&mut self, name: &str, text: &str) -> Result<(), AllocError> {
        match cut_word(text).0.parse::<u32>() {
            Ok(database) => self.open(name, database),
            Err(_) => Ok(()),
        }
    }

    /// What the session named `name` plays for the statements `text` of the line of the number `number`.
    /// Where `works`, `text` is one statement, at which the session works until a later line.
    fn hear_statements(
        &mut self,
        number: u32,
        name: &str,
        text: &str,
        works: bool,
    ) -> Result<Heard, Unplayed>
        ensures { IfOk result (IsToPlay self.old.sessions name.now (λ database. AreTurnsOf database works text.now)) }
    {
        let alloc = self.alloc;
        let database = self.worker(number, name, false)?;
        if text.trim().is_empty() {
            let fault = whole(ScriptDefect::NoStatement);
            let verb = if works { "work" } else { "do" };
            return Err(Unplayed::of(alloc, number, verb.as_bytes(), fault));
        }
        let session = String::from_str(alloc, name)?;
        match self.turns_for(name, database, text.as_bytes(), works) {
            Ok(turns) => Ok(Heard::Statements(Statements { session, turns })),
            Err(fault) => Err(Unplayed::of(alloc, number, text.as_bytes(), fault)),
        }
    }

    /// What the session named `name`, one of `database`, plays for the statements `text`. Where `works`,
    /// `text` is one statement, at which the session works until a later line.
    fn turns_for(
        &mut self,
        name: &str,
        database: u32,
        text: &[u8],
        works: bool,
    ) -> Result<Vec<Turn>, ScriptFault>
        ensures { IfOk result (λ turns. AreTurnsOf database works text.now turns.items) }
    {
        if works {
            self.turns_at_work(name, database, text)
        } else {
            self.turns_of(name, database, text)
        }
    }

    /// What the session named `name` plays where the line of the number `number` says that the work of its
    /// statement is done.
    fn hear_end(&mut self, number: u32, name: &str) -> Result<Heard, Unplayed>
        ensures { IfOk result (IsToPlay self.old.sessions name.now
            (λ database. IsPlayedAtEnd database self.old.sessions (work_called self.old.sessions name.now))) }
    {
        let alloc = self.alloc;
        let database = self.worker(number, name, true)?;
        let session = String::from_str(alloc, name)?;
        match self.done(name, database) {
            Ok(turns) => Ok(Heard::Statements(Statements { session, turns })),
            Err(fault) => Err(Unplayed::of(alloc, number, name.as_bytes(), fault)),
        }
    }

    /// The database of the session named `name`, which the line of the number `number` names. Refused where
    /// there is no such session, and where whether the session works at a statement is not as `is_at_work`
    /// says.
    fn worker(&self, number: u32, name: &str, is_at_work: bool) -> Result<u32, Unplayed>
        ensures { IfOk result (λ database. database_called self.now.sessions name.now ≡ Some database) }
    {
        let what = match self.database_of(name) {
            Some(database) if self.is_at_work(name) == is_at_work => return Ok(database),
            Some(_) if is_at_work => ScriptDefect::NotAtWork,
            Some(_) => ScriptDefect::AtWork,
            None => ScriptDefect::NoSession,
        };
        Err(Unplayed::of(self.alloc, number, name.as_bytes(), whole(what)))
    }
}

/// Checks that nothing stands in `text`, which is behind the last word that a line may have.
fn ends_there(text: &str) -> Result<(), Unplayed>
    ensures { OnOk result (is_blank text.now ≡ true) }
{
    if is_blank(text) {
        Ok(())
    } else {
        Err(Unplayed::WrongNumberOfWords)
    }
}

/// The fault of a text's first word that has the defect `what`.
fn whole(what: ScriptDefect) -> ScriptFault {
    ScriptFault::Word {
        line: 1,
        what,
        from: 0,
    }
}
