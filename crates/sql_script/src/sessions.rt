//! What is known of a script's sessions: the database of each, and its transaction.

use crate::steps::Step;
use modes_core::Tag;
use sql_locks::Lock;
use sql_statements::{Control, SqlWord};
use std::alloc::{AllocError, Global};

/// A session of a script, as its statements leave it.
#[derive(Drop)]
pub struct ScriptSession {
    pub name: String,
    pub database: u32,
    /// Whether the session's transaction is open, since a `BEGIN`.
    pub is_open: bool,
    /// The savepoints that the session's transaction has, the innermost last.
    pub savepoints: Vec<Savepoint>,
    /// The lock of the session's open transaction, where transactions have one.
    pub transaction: Option<Tag>,
    /// The locks on relations that the session's open transaction has.
    pub used: Vec<Lock>,
    /// Whether the session's open transaction reads all by one snapshot, as `REPEATABLE READ` does.
    pub repeats: bool,
    /// Whether the session's open transaction has the one snapshot by which it reads all, or the statement at
    /// which the session works has a snapshot of its own.
    pub has_snapshot: bool,
    /// The numbers of the relations that the session's open transaction made.
    pub made: Vec<usize>,
    /// The statement at which the session works, while it does.
    pub work: Option<Work>,
}

/// A statement at which a session works until a line says that the work is done.
#[derive(Drop)]
pub struct Work {
    /// What the session plays at the end of the statement.
    pub left: Vec<Step>,
    /// Whether the session waits before the end of the statement for the transactions that have a snapshot by
    /// then.
    pub awaits_snapshots: bool,
    /// Whether the session's transaction had a snapshot before the statement began.
    pub had_snapshot: bool,
}

/// A savepoint of a transaction.
#[derive(Drop)]
pub struct Savepoint {
    pub name: String,
    /// How many locks on relations the transaction had before the savepoint.
    pub used: usize,
}

impl ScriptSession {
    /// The session named `name`, one of `database`, with no transaction open.
    pub fn new(alloc: Global, name: &str, database: u32) -> Result<Self, AllocError> {
        Ok(ScriptSession {
            name: String::from_str(alloc, name)?,
            database,
            is_open: false,
            savepoints: Vec::new(alloc),
            transaction: None,
            used: Vec::new(alloc),
            repeats: false,
            has_snapshot: false,
            made: Vec::new(alloc),
            work: None,
        })
    }

    /// Has the session's transaction be as a statement of `words` leaves it, which has the locks `locks` and
    /// does `control` to the transaction. The lock of a transaction that the statement begins is `begins`, if
    /// any.
    pub fn follow(
        &mut self,
        alloc: Global,
        control: Control,
        words: &[SqlWord],
        locks: &[Lock],
        begins: Option<Tag>,
    ) -> Result<(), AllocError> {
        match control {
            Control::Begin => {
                self.is_open = true;
                self.repeats = says_repeatable(words);
                if begins.is_some() {
                    self.transaction = begins;
                }
            }
            Control::Commit | Control::Rollback => {
                self.end_transaction(alloc);
                self.is_open = is_chained(words);
                self.transaction = begins;
            }
            Control::Stay if self.is_open => {
                self.used.extend_from_slice(locks)?;
                self.note_snapshot(words);
            }
            Control::Stay => {
                if begins.is_some() {
                    self.transaction = begins;
                }
            }
            Control::Savepoint => {}
        }
        Ok(())
    }

    /// Ends the session's transaction, and its work at a statement.
    pub fn end_transaction(&mut self, alloc: Global) {
        self.is_open = false;
        self.savepoints = Vec::new(alloc);
        self.used = Vec::new(alloc);
        self.transaction = None;
        self.has_snapshot = false;
        self.made = Vec::new(alloc);
        self.work = None;
    }

    /// Has the session work at the statement of `words`, which has the locks `locks`, and at whose end `left`
    /// is played. Where `awaits_snapshots`, the session waits before that end for the transactions that have
    /// a snapshot by then.
    pub fn begin_work(
        &mut self,
        words: &[SqlWord],
        locks: &[Lock],
        left: Vec<Step>,
        awaits_snapshots: bool,
    ) -> Result<(), AllocError> {
        if !self.is_open {
            self.used.extend_from_slice(locks)?;
        }
        let had_snapshot = self.has_snapshot;
        if has_own_snapshot(words) && !awaits_snapshots {
            self.has_snapshot = true;
        }
        self.work = Some(Work {
            left,
            awaits_snapshots,
            had_snapshot,
        });
        Ok(())
    }

    /// Where `is_done`, has the session work at nothing. If the statement had a transaction of its own, that
    /// has ended, and else the session's transaction has the snapshot that it had before. Where not
    /// `is_done`, the statement waits for no snapshot any more.
    pub fn leave_work(&mut self, alloc: Global, is_done: bool) {
        let Some(mut work) = self.work.take() else {
            return;
        };
        if !is_done {
            work.awaits_snapshots = false;
            self.work = Some(work);
        } else if self.is_open {
            self.has_snapshot = work.had_snapshot;
        } else {
            self.end_transaction(alloc);
        }
    }

    /// Notes whether the statement of `words` has the session's transaction read all by one snapshot, and
    /// whether it takes that snapshot.
    fn note_snapshot(&mut self, words: &[SqlWord]) {
        let Some(first) = words.first() else {
            return;
        };
        if first.is_key_word("set") {
            if says_repeatable(words) {
                self.repeats = true;
            }
        } else if self.repeats && !first.is_key_word("lock") && !first.is_key_word("show") {
            self.has_snapshot = true;
        }
    }
}

/// Whether a statement of `words` has a snapshot while it runs, for which index builds wait.
fn has_own_snapshot(words: &[SqlWord]) -> bool {
    match words.first() {
        Some(first) => {
            !first.is_key_word("lock")
                && !first.is_key_word("set")
                && !first.is_key_word("show")
                && !first.is_key_word("vacuum")
        }
        None => false,
    }
}

/// Whether `words`, which begin a transaction or set how it reads, have it read all by one snapshot.
fn says_repeatable(words: &[SqlWord]) -> bool {
    let mut is_level = false;
    for word in words {
        if is_level && (word.is_key_word("repeatable") || word.is_key_word("serializable")) {
            return true;
        }
        if word.is_key_word("level") {
            is_level = true;
        }
    }
    false
}

/// Whether the end of a transaction, said by `words`, begins the next one: by `AND CHAIN`.
pub fn is_chained(words: &[SqlWord]) -> bool {
    let mut is_chained = false;
    let mut is_negated = false;
    for word in words {
        if word.is_key_word("chain") {
            is_chained = true;
        }
        if word.is_key_word("no") {
            is_negated = true;
        }
    }
    is_chained && !is_negated
}
