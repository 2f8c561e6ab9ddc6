//! Runs of scripts that speak SQL: a schema makes tables, and a session plays what the statements of its `do`
//! lines lock.
ghost use Rattle.std.specs.Prelude.{◌≡◌, [], ◌∷◌, IfErr, IfOk, IsOk, None, Ok, OnOk, false, map, string_bytes};
ghost use Rattle.scenario.specs.Heard.{Done, Hears, HearsAll, Line};
ghost use Rattle.scenario.specs.InTurn.{DoesLine, FailsPlain, IsBad, NamesTable, NamesTables, PlaysStatements, TakesInEach, lines_at, may_be_named, name_line, tables_in};
ghost use Rattle.scenario.specs.Scripts.{PlaysLine};
ghost use Rattle.scenario.specs.Spoken.{IsHeardBy};
ghost use Rattle.scenario.specs.Staged.{play_of, stage_of};

use crate::desks::ScriptDesk;
use crate::kept::ReadLine;
use crate::listener::Listener;
use crate::run::Scene;
use crate::runs::Keeping;
use lock_manager::OwnSession;
use lock_script::{Defect, Fault, KeptLines, ObjectNames, parse_name, parse_object_name};
use lock_table::PartTable;
use shared_rule::Board;
use sql_script::{Heard, SqlScript, Statements, Table, Turn, Unplayed, lines_of};
use std::alloc::Global;
use std::sync::Wait;

/// What the lines of a script have said in SQL so far, if the script speaks SQL.
#[derive(Drop)]
pub(crate) struct Spoken {
    script: Option<SqlScript>,
}

impl Spoken {
    /// A script of which no line was heard yet, and which speaks SQL where `keeping` says so.
    pub fn new(keeping: Keeping) -> Self
        ensures { keeping.speaks ≡ false → result.script ≡ None }
    {
        let script = if keeping.speaks {
            Some(SqlScript::new(keeping.alloc))
        } else {
            None
        };
        Spoken { script }
    }

    /// What `line` says in SQL. In a script that doesn't speak SQL no line says any.
    pub fn hear(&mut self, line: ReadLine<'_>) -> Result<Heard, Unplayed>
        ensures heard { IfOk result (IsHeardBy self.old.script line.entry.text.now) }
        ensures plain { self.old.script ≡ None → result ≡ Ok Heard.Plain }
        ensures silent { self.old.script ≡ None → self.new.script ≡ None }
    {
        match &mut self.script {
            Some(script) => script.hear(line.number, line.text),
            None => Ok(Heard::Plain),
        }
    }

    /// Ends the script. Refused where it ends within a schema.
    pub fn finish(self) -> Result<(), Unplayed>
        ensures { self.script ≡ None → IsOk result }
    {
        match self.script {
            Some(script) => script.finish(),
            None => Ok(()),
        }
    }
}

impl<T: PartTable, B: Board<T>, D: ScriptDesk<OwnSession<T, B>>, L: Listener> Scene<T, B, D, L> {
    /// Runs `line`, which says what `heard` has. What `keeping` has kept of the line while its session waits
    /// goes to `kept`.
    pub(crate) fn run_heard<H: Wait>(
        &mut self,
        rt: &H,
        keeping: Keeping,
        kept: &mut KeptLines,
        line: ReadLine<'_>,
        heard: &Heard,
    ) -> Result<(), Fault>
        ensures done { OnOk result (DoesLine (play_of B.seat B.view B.stack D.again D.database_of D.entries L.hears) keeping.keeps
            (stage_of self.old.state.sessions self.old.state.names self.old.listener) kept.old
            (record { number = line.entry.number; text = line.entry.text.now }) heard.now
            (stage_of self.new.state.sessions self.new.state.names self.new.listener) kept.new) }
        ensures bad { heard.now ≡ Heard.Plain → IfErr result (IsBad (FailsPlain
            (play_of B.seat B.view B.stack D.again D.database_of D.entries L.hears) keeping.keeps
            (stage_of self.old.state.sessions self.old.state.names self.old.listener) kept.old
            (record { number = line.entry.number; text = line.entry.text.now }))
            (stage_of self.new.state.sessions self.new.state.names self.new.listener)) }
    {
        match heard {
            Heard::Plain => self.run_plain(rt, keeping, kept, line),
            Heard::Schema => self.show_line(line),
            Heard::Statements(statements) => {
                self.show_line(line)?;
                self.play_statements(rt, keeping.alloc, kept, line, statements)
            }
        }
    }

    /// Runs `line`, which says no SQL. Where `keeping` says so the line is kept in `kept` while its session
    /// waits.
    fn run_plain<H: Wait>(
        &mut self,
        rt: &H,
        keeping: Keeping,
        kept: &mut KeptLines,
        line: ReadLine<'_>,
    ) -> Result<(), Fault>
        ensures done { OnOk result (DoesLine (play_of B.seat B.view B.stack D.again D.database_of D.entries L.hears) keeping.keeps
            (stage_of self.old.state.sessions self.old.state.names self.old.listener) kept.old
            (record { number = line.entry.number; text = line.entry.text.now }) Heard.Plain
            (stage_of self.new.state.sessions self.new.state.names self.new.listener) kept.new) }
        ensures bad { IfErr result (IsBad (FailsPlain
            (play_of B.seat B.view B.stack D.again D.database_of D.entries L.hears) keeping.keeps
            (stage_of self.old.state.sessions self.old.state.names self.old.listener) kept.old
            (record { number = line.entry.number; text = line.entry.text.now }))
            (stage_of self.new.state.sessions self.new.state.names self.new.listener)) }
    {
        if keeping.keeps {
            return self.take_in(rt, keeping.alloc, kept, line);
        }
        self.run_line(rt, line.number, line.text, line.more)?;
        self.run_ready(rt, kept, line.more)
    }

    /// Tells the listener `line`, which asks for nothing by itself.
    fn show_line(&mut self, line: ReadLine<'_>) -> Result<(), Fault>
        ensures shown { OnOk result (HearsAll L.hears self.old.listener
            (Line line.entry.number line.entry.text.now ∷ Done ∷ []) self.new.listener) }
        ensures state { self.new.state ≡ self.old.state }
    {
        self.listener.begin_line(line.number, line.text, line.more)?;
        self.listener.end_line()
    }

    /// Whether the session `name` is open, or will be once lines of it were run that are in `kept`.
    fn is_known(&self, kept: &KeptLines, name: &str) -> bool {
        match parse_name(name) {
            Some(name) => {
                self.state.sessions.place_called(&name).is_some() || kept.has_lines_of(&name)
            }
            None => false,
        }
    }

    /// Plays `statements` of `line`: each of their lines is run, or kept while the session waits. Nothing is
    /// played for a session that was refused.
    fn play_statements<H: Wait>(
        &mut self,
        rt: &H,
        alloc: Global,
        kept: &mut KeptLines,
        line: ReadLine<'_>,
        statements: &Statements,
    ) -> Result<(), Fault>
        ensures played { OnOk result (PlaysStatements (play_of B.seat B.view B.stack D.again D.database_of D.entries L.hears)
            (stage_of self.old.state.sessions self.old.state.names self.old.listener) kept.old line.entry.number
            (string_bytes statements.now.session) statements.now.turns.items
            (stage_of self.new.state.sessions self.new.state.names self.new.listener) kept.new) }
    {
        let session = statements.session.as_str();
        if !self.is_known(kept, session) {
            return Err(Fault::BadLine {
                line: line.number,
                what: Defect::NoSuchSession,
            });
        }
        self.name_tables(rt, alloc, line, &statements.turns)?;
        let Ok(played) = lines_of(alloc, session, statements.turns.as_slice()) else {
            return Err(Fault::NoMemory);
        };
        self.take_in_each(rt, alloc, kept, line, &played)
    }

    /// Runs each of `texts`, as a line of the number of `line`, or keeps it in `kept` while its session
    /// waits.
    fn take_in_each<H: Wait>(
        &mut self,
        rt: &H,
        alloc: Global,
        kept: &mut KeptLines,
        line: ReadLine<'_>,
        texts: &Vec<String>,
    ) -> Result<(), Fault>
        ensures taken { OnOk result (TakesInEach (play_of B.seat B.view B.stack D.again D.database_of D.entries L.hears)
            (stage_of self.old.state.sessions self.old.state.names self.old.listener) kept.old
            (lines_at line.entry.number (map string_bytes texts.now.items))
            (stage_of self.new.state.sessions self.new.state.names self.new.listener) kept.new) }
    {
        'texts: for text in texts {
            let next = ReadLine {
                number: line.number,
                text: text.as_str(),
                more: line.more,
            };
            self.take_in(rt, alloc, kept, next)?;
        }
        Ok(())
    }

    /// Gives the tables of `turns` their names, by lines in place of `line`, as far as they may have them.
    fn name_tables<H: Wait>(
        &mut self,
        rt: &H,
        alloc: Global,
        line: ReadLine<'_>,
        turns: &Vec<Turn>,
    ) -> Result<(), Fault>
        ensures named { OnOk result (NamesTables (play_of B.seat B.view B.stack D.again D.database_of D.entries L.hears)
            (stage_of self.old.state.sessions self.old.state.names self.old.listener) line.entry.number (tables_in turns.now.items)
            (stage_of self.new.state.sessions self.new.state.names self.new.listener)) }
    {
        'turns: for turn in turns {
            self.name_each(rt, alloc, line, &turn.named)?;
        }
        Ok(())
    }

    /// Gives `tables` their names, by lines in place of `line`, as far as they may have them.
    fn name_each<H: Wait>(
        &mut self,
        rt: &H,
        alloc: Global,
        line: ReadLine<'_>,
        tables: &Vec<Table>,
    ) -> Result<(), Fault>
        ensures named { OnOk result (NamesTables (play_of B.seat B.view B.stack D.again D.database_of D.entries L.hears)
            (stage_of self.old.state.sessions self.old.state.names self.old.listener) line.entry.number tables.now.items
            (stage_of self.new.state.sessions self.new.state.names self.new.listener)) }
    {
        'tables: for table in tables {
            self.name_table(rt, alloc, line, table)?;
        }
        Ok(())
    }

    /// Gives `table` its name by a line in place of `line`, where the table may have that name, and else does
    /// nothing.
    fn name_table<H: Wait>(
        &mut self,
        rt: &H,
        alloc: Global,
        line: ReadLine<'_>,
        table: &Table,
    ) -> Result<(), Fault>
        ensures named { OnOk result (NamesTable (play_of B.seat B.view B.stack D.again D.database_of D.entries L.hears)
            (stage_of self.old.state.sessions self.old.state.names self.old.listener) line.entry.number table.now
            (stage_of self.new.state.sessions self.new.state.names self.new.listener)) }
    {
        if may_be_named(&self.state.names.objects, table) {
            self.run_naming(rt, alloc, line, table)
        } else {
            Ok(())
        }
    }

    /// Runs the line that gives `table` its name, in place of `line`.
    fn run_naming<H: Wait>(
        &mut self,
        rt: &H,
        alloc: Global,
        line: ReadLine<'_>,
        table: &Table,
    ) -> Result<(), Fault>
        ensures ran { OnOk result (Hears L.hears self.old.listener self.new.listener (λ heard.
            PlaysLine B.seat B.view B.stack D.again D.database_of D.entries line.entry.number
            (record { sessions = self.old.state.sessions; names = self.old.state.names }) (name_line table.now) heard
            (record { sessions = self.new.state.sessions; names = self.new.state.names }))) }
    {
        let name = table.name.as_str();
        let tag = table.tag;
        match format!(in alloc; "name {name} {tag}") {
            Ok(text) => self.run_line(rt, line.number, text.as_str(), line.more),
            Err(_) => Err(Fault::NoMemory),
        }
    }

    /// The fault of the line of the number `number`, whose SQL can't be played. The listener hears why,
    /// `unplayed`, in place of the line.
    pub(crate) fn refuse(&mut self, number: u32, unplayed: Unplayed) -> Fault {
        let why = match unplayed {
            Unplayed::Told(why) => why,
            Unplayed::WrongNumberOfWords => {
                return Fault::BadLine {
                    line: number,
                    what: Defect::WrongNumberOfWords,
                };
            }
            Unplayed::NoMemory => return Fault::NoMemory,
        };
        match self.listener.keep_line(number, why.as_str(), false) {
            Ok(()) => Fault::BadLine {
                line: number,
                what: Defect::UnknownCommand,
            },
            Err(fault) => fault,
        }
    }
}

/// Whether `table` may have its name: none of `objects` has that name, the table has no other one, and an
/// object may have such a name.
fn may_be_named(objects: &ObjectNames, table: &Table) -> bool
    ensures { result ≡ may_be_named objects.now table.now }
{
    let name = table.name.as_str();
    if objects.tag_called(name).is_some() {
        return false;
    }
    if objects.name_of(table.tag).is_some() {
        return false;
    }
    parse_object_name(name).is_some()
}
