//! How the statement that was read is played.
ghost use Rattle.std.specs.Prelude.{IfOk, IfSome};
ghost use Rattle.sql_script.specs.Turns.{HasForms, IsOwnLock};

use crate::advisory::advisory_steps;
use crate::asked::Asking;
use crate::awaited::{Course, awaited_of};
use crate::faults::{ScriptDefect, ScriptFault};
use crate::known::known_links;
use crate::levels::{bad_word, level_steps};
use crate::script::SqlScript;
use crate::sessions::is_chained;
use crate::steps::Step;
use crate::turns::Manner;
use modes_core::{Owner, Tag};
use sql_locks::{Awaits, Defect, Form, Lock, SqlFault, Until, row_of};
use sql_report::locks_of_acts;
use sql_statements::{Control, SqlWord};
use std::alloc::AllocError;

impl SqlScript {
    /// The locks of the statement that was read, said by the session named `name`, in the order of the
    /// server.
    pub(crate) fn locks(&self, name: &str) -> Result<Vec<Lock>, ScriptFault>
        ensures { IfOk result (λ locks. HasForms locks.items) }
    {
        let unknown = self.reader.fault_at(0, Defect::UnknownStatement);
        let links = self.reader.catalog.links.as_slice();
        let acts = self.reader.acts.as_slice();
        let all = locks_of_acts(self.alloc, links, acts, unknown)?;
        let known = known_links(
            self.alloc,
            links,
            self.sessions.as_slice(),
            name,
            all.as_slice(),
        )?;
        Ok(locks_of_acts(self.alloc, known.as_slice(), acts, unknown)?)
    }

    /// How the statement that was read goes through transactions, where the session named `name` says it. A
    /// fault where that session has a transaction open and the statement may have none around it, and where
    /// the statement waits for the ends of transactions and these have no locks.
    fn course(&self, name: &str) -> Result<Course, ScriptFault> {
        let mut course = Course::Within;
        for act in &self.reader.acts {
            let Some(row) = row_of(act.form) else {
                continue;
            };
            if row.until == Until::OwnEnd && self.is_open(name) {
                return Err(self.bad_statement(ScriptDefect::InTransaction));
            }
            if row.awaits != Awaits::Nobody && self.begun.is_none() {
                return Err(self.bad_statement(ScriptDefect::AwaitsEnds));
            }
            course = match act.form {
                Form::DetachConcurrently => Course::Parted,
                Form::Vacuum if !self.skips_locked() => Course::Kept,
                _ if row.awaits != Awaits::Nobody => Course::Owned,
                _ => course,
            };
        }
        Ok(course)
    }

    /// The locks of the transactions for whose end the statement that was read waits, which is in `database`
    /// and has the locks `locks`. Transactions that have used a partition alone are in nobody's way while
    /// that partition is detached.
    pub(crate) fn awaited(&self, database: u32, locks: &[Lock]) -> Result<Vec<Tag>, AllocError> {
        let mut awaits = Awaits::Nobody;
        let mut tables = locks;
        for act in &self.reader.acts {
            if let Some(row) = row_of(act.form) {
                if row.awaits != Awaits::Nobody {
                    awaits = row.awaits;
                }
                if row.form == Form::DetachConcurrently {
                    tables = locks.get(..1).unwrap_or(&[]);
                }
            }
        }
        awaited_of(
            self.alloc,
            self.sessions.as_slice(),
            database,
            awaits,
            tables,
        )
    }

    /// The fault of the first word of the statement that was read, which has the defect `what`.
    pub(crate) fn bad_statement(&self, what: ScriptDefect) -> ScriptFault {
        match self.reader.cursor.words.first() {
            Some(word) => bad_word(word, what),
            None => ScriptFault::Sql(SqlFault::NoMemory),
        }
    }

    /// What the session named `name`, one of `database`, plays beside the locks of the statement that was
    /// read.
    pub(crate) fn others(&mut self, name: &str, database: u32) -> Result<Vec<Step>, ScriptFault> {
        if self.reader.control == Control::Savepoint {
            return self.levels(name);
        }
        self.advisory(database)
    }

    /// The steps by which a session of `database` takes the advisory locks of the statement that was read.
    fn advisory(&self, database: u32) -> Result<Vec<Step>, ScriptFault> {
        let words = self.reader.cursor.words.as_slice();
        advisory_steps(self.alloc, database, words, self.reader.advisory.as_slice())
    }

    /// The levels that the session named `name` begins and ends by the statement that was read.
    fn levels(&mut self, name: &str) -> Result<Vec<Step>, ScriptFault> {
        let alloc = self.alloc;
        if let Some(place) = self.place_of(name) {
            let words = self.reader.cursor.words.as_slice();
            if let Some(session) = self.sessions.get_mut(place) {
                return level_steps(alloc, session, words);
            }
        }
        Ok(Vec::new(alloc))
    }

    /// How the statement that was read is played by the session named `name`, one of `database`. The
    /// statement has the locks `locks` and plays `others` beside them. Where `works`, the session works at
    /// the statement until a later line.
    pub(crate) fn manner(
        &mut self,
        name: &str,
        database: u32,
        locks: &[Lock],
        others: &Vec<Step>,
        works: bool,
    ) -> Result<Manner, ScriptFault>
        ensures begins { IfOk result (λ manner. IfSome manner.begins (IsOwnLock database)) }
    {
        let course = self.course(name)?;
        let begins = self.begins(name, database, works && course == Course::Within);
        let takes = !locks.is_empty() || has_own(others) || begins.is_some();
        let asking = if self.skips_locked() || is_nowait(self.reader.cursor.words.as_slice()) {
            Asking::Try
        } else {
            Asking::Wait
        };
        Ok(Manner {
            control: self.reader.control,
            asking,
            is_alone: takes && !self.is_open(name),
            course,
            begins,
        })
    }

    /// The lock of the transaction that the statement that was read begins, said by the session named `name`
    /// of `database`, where transactions have one: an advisory lock whose last number no function of the
    /// server gives. Where `begins_own`, a statement that is no `BEGIN` begins a transaction of its own.
    fn begins(&mut self, name: &str, database: u32, begins_own: bool) -> Option<Tag>
        ensures { IfSome result (IsOwnLock database) }
    {
        let begins = match self.reader.control {
            Control::Begin => !self.is_open(name),
            Control::Commit | Control::Rollback => {
                is_chained(self.reader.cursor.words.as_slice())
            }
            Control::Stay => begins_own && !self.is_open(name),
            Control::Savepoint => false,
        };
        let begun = self.begun?;
        if !begins {
            return None;
        }
        let next = begun.saturating_add(1);
        self.begun = Some(next);
        Some(Tag::advisory(database, 0, next, 3))
    }

    /// Whether the session named `name` has its transaction open.
    fn is_open(&self, name: &str) -> bool {
        match self.place_of(name) {
            Some(place) => match self.sessions.get(place) {
                Some(session) => session.is_open,
                None => false,
            },
            None => false,
        }
    }

    /// Whether the statement that was read passes over tables that are locked: by `SKIP_LOCKED` of a `VACUUM`
    /// or an `ANALYZE`.
    fn skips_locked(&self) -> bool {
        let words = &self.reader.cursor.words;
        let Some(first) = words.first() else {
            return false;
        };
        (first.is_key_word("vacuum") || first.is_key_word("analyze"))
            && words.iter().any(|word| word.is_key_word("skip_locked"))
    }
}

/// Whether one of `steps` takes a lock that the transaction owns.
fn has_own(steps: &Vec<Step>) -> bool {
    for step in steps {
        match step {
            Step::Lock { owner, .. } | Step::Try { owner, .. } if *owner == Owner::Transaction => {
                return true;
            }
            _ => {}
        }
    }
    false
}

/// Whether `words` are a `LOCK TABLE` that says `NOWAIT`.
fn is_nowait(words: &[SqlWord]) -> bool {
    match (words.first(), words.last()) {
        (Some(first), Some(last)) => first.is_key_word("lock") && last.is_key_word("nowait"),
        _ => false,
    }
}
