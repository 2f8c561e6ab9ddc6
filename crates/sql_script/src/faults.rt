//! Why the SQL of a script can't be played.

use sql_locks::SqlFault;
use sql_report::{fault_text, word_at};
use std::alloc::{AllocError, AllocFailed, Global};
use thiserror::Error;

/// What is wrong with a word of a script's SQL, beside what is wrong with SQL itself.
#[derive(Clone, Copy, Debug, PartialEq, Eq, Drop, Error)]
pub enum ScriptDefect {
    #[error("a savepoint outside of a transaction")]
    NoTransaction,
    #[error("no such savepoint")]
    NoSavepoint,
    #[error("a key of an advisory lock that is no number")]
    BadKey,
    #[error("it waits for the ends of transactions, which are played where the schema says SET lock_scenario.transactions = on")]
    AwaitsEnds,
    #[error("a statement that can't run inside a transaction")]
    InTransaction,
    #[error("a schema that does not end")]
    UnendedSchema,
    #[error("no such session")]
    NoSession,
    #[error("no statement")]
    NoStatement,
    #[error("the session works at a statement, until its done line")]
    AtWork,
    #[error("the session works at no statement")]
    NotAtWork,
    #[error("work is one statement, and none that begins or ends a transaction")]
    NoWork,
}

/// What ends the reading of a script's SQL early.
#[derive(Clone, Copy, PartialEq, Eq, Drop)]
pub enum ScriptFault {
    /// The SQL is bad, or its locks are not known, or there was no memory.
    Sql(SqlFault),
    /// A word of the SQL is wrong.
    Word {
        /// The line of the text on which the wrong word is, from 1.
        line: usize,
        what: ScriptDefect,
        /// How many bytes of the text come before the wrong word.
        from: usize,
    },
}

impl From<SqlFault> for ScriptFault {
    fn from(fault: SqlFault) -> Self {
        ScriptFault::Sql(fault)
    }
}

impl From<AllocError> for ScriptFault {
    fn from(_: AllocError) -> Self {
        ScriptFault::Sql(SqlFault::NoMemory)
    }
}

impl<T: Drop> From<AllocFailed<T>> for ScriptFault {
    fn from(_: AllocFailed<T>) -> Self {
        ScriptFault::Sql(SqlFault::NoMemory)
    }
}

impl ScriptFault {
    /// Whether the fault is that there was no memory.
    pub fn is_of_memory(&self) -> bool {
        match self {
            ScriptFault::Sql(fault) => *fault == SqlFault::NoMemory,
            ScriptFault::Word { .. } => false,
        }
    }

    /// The message that says this fault of `text`, whose first line has the number `first` in its script.
    pub fn told(self, alloc: Global, first: usize, text: &[u8]) -> Result<String, AllocError> {
        let above = first.saturating_sub(1);
        match self {
            ScriptFault::Sql(SqlFault::BadWord { line, what, from }) => {
                let line = line.saturating_add(above);
                fault_text(alloc, text, SqlFault::BadWord { line, what, from })
            }
            ScriptFault::Sql(SqlFault::NoMemory) => Err(AllocError),
            ScriptFault::Word { line, what, from } => {
                let line = line.saturating_add(above);
                let word = word_at(alloc, text, from)?;
                format!(in alloc; "line {line}: {what}: {word}\n")
            }
        }
    }
}
