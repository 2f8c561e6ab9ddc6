//! Statements that work until a later line says that their work is done.
ghost use Rattle.std.specs.Prelude.{◌≡◌, IfOk};
ghost use Rattle.std.specs.Option.{option_copied};
ghost use Rattle.sql_script.specs.Lines.{IsPlayedAtEnd, awaited_at_end, session_called, work_called};

use crate::asked::Asking;
use crate::awaited::{Course, awaited_of};
use crate::faults::{ScriptDefect, ScriptFault};
use crate::script::SqlScript;
use crate::sessions::{ScriptSession, Work};
use crate::steps::Step;
use crate::turns::{Manner, Turn, resumed};
use modes_core::Tag;
use sql_locks::{Awaits, Lock, row_of};
use sql_statements::Control;
use std::alloc::AllocError;

impl SqlScript {
    /// Whether the session named `name` works at a statement.
    pub fn is_at_work(&self, name: &str) -> bool {
        match self.place_of(name) {
            Some(place) => match self.sessions.get(place) {
                Some(session) => session.work.is_some(),
                None => false,
            },
            None => false,
        }
    }

    /// Has the session named `name` work at the statement that was read, which has the locks `locks`, and at
    /// whose end `left` is played. Refused where the statement begins or ends transactions or their levels.
    pub(crate) fn begin_work(
        &mut self,
        name: &str,
        locks: &[Lock],
        left: &Vec<Step>,
    ) -> Result<(), ScriptFault> {
        if self.reader.control != Control::Stay {
            return Err(self.bad_statement(ScriptDefect::NoWork));
        }
        let mut kept = Vec::new(self.alloc);
        kept.extend_from_slice(left.as_slice())?;
        let awaits = self.awaits_snapshots();
        if let Some(place) = self.place_of(name) {
            let words = self.reader.cursor.words.as_slice();
            if let Some(session) = self.sessions.get_mut(place) {
                session.begin_work(words, locks, kept, awaits)?;
            }
        }
        Ok(())
    }

    /// Whether the statement that was read waits at last for the transactions that have a snapshot.
    fn awaits_snapshots(&self) -> bool {
        self.reader.acts.iter().any(|act| match row_of(act.form) {
            Some(row) => row.awaits == Awaits::Writers || row.awaits == Awaits::UsersAndSnapshots,
            None => false,
        })
    }

    /// What the session named `name`, one of `database`, plays now that the work of its statement is done:
    /// nothing where it works at no statement, and else one turn. Where the statement waits for transactions
    /// that have a snapshot, the session works on, and the end comes by another `done` line.
    pub fn done(&mut self, name: &str, database: u32) -> Result<Vec<Turn>, ScriptFault>
        ensures { IfOk result (λ turns.
            IsPlayedAtEnd database self.old.sessions (work_called self.old.sessions name.now) turns.items) }
    {
        let mut turns = Vec::new(self.alloc);
        let Some(work) = self.work_of(name) else {
            return Ok(turns);
        };
        let awaited = self.awaited_at_end(database, work)?;
        let steps = resumed(self.alloc, &work.left, &awaited)?;
        let is_done = awaited.is_empty();
        turns.push(self.turn_of_end(awaited, steps))?;
        self.leave_work(name, is_done);
        Ok(turns)
    }

    /// The statement at which the session named `name` works.
    fn work_of(&self, name: &str) -> Option<&Work>
        ensures { option_copied result ≡ work_called self.now.sessions name.now }
    {
        match self.session_of(name) {
            Some(session) => session.work.as_ref(),
            None => None,
        }
    }

    /// The session named `name`.
    fn session_of(&self, name: &str) -> Option<&ScriptSession>
        ensures { option_copied result ≡ session_called self.now.sessions name.now }
    {
        self.sessions
            .iter()
            .find(|session| session.name.as_str() == name)
    }

    /// The locks of the transactions for whose ends a statement of `database` waits that has done its `work`:
    /// those that have a snapshot, if `work` awaits them.
    fn awaited_at_end(&self, database: u32, work: &Work) -> Result<Vec<Tag>, AllocError>
        ensures { IfOk result (λ tags. tags.items ≡ awaited_at_end database self.now.sessions work.now) }
    {
        if !work.awaits_snapshots {
            return Ok(Vec::new(self.alloc));
        }
        let sessions = self.sessions.as_slice();
        awaited_of(self.alloc, sessions, database, Awaits::Writers, &[])
    }

    /// Where `is_done`, has the session named `name` work at nothing. Where not, the statement at which the
    /// session works waits for no snapshot any more.
    fn leave_work(&mut self, name: &str, is_done: bool) {
        let alloc = self.alloc;
        let Some(place) = self.place_of(name) else {
            return;
        };
        if let Some(session) = self.sessions.get_mut(place) {
            session.leave_work(alloc, is_done);
        }
    }

    /// The turn of the end of a statement, which plays `steps` and waits for the transactions whose locks are
    /// `awaited`.
    fn turn_of_end(&self, awaited: Vec<Tag>, steps: Vec<Step>) -> Turn
        ensures { result.steps ≡ steps }
    {
        Turn {
            line: 1,
            manner: Manner {
                control: Control::Stay,
                asking: Asking::Wait,
                is_alone: false,
                course: Course::Within,
                begins: None,
            },
            locks: Vec::new(self.alloc),
            others: Vec::new(self.alloc),
            awaited,
            steps,
            left: Vec::new(self.alloc),
            named: Vec::new(self.alloc),
        }
    }

    /// Has the session named `name` have no transaction and work at nothing, since a line that says no SQL
    /// ended its transaction.
    pub(crate) fn drop_transaction(&mut self, name: &str) {
        let alloc = self.alloc;
        if let Some(place) = self.place_of(name) {
            if let Some(session) = self.sessions.get_mut(place) {
                session.end_transaction(alloc);
            }
        }
    }
}
