//! Why a text of SQL statements can't be read.

use std::alloc::{AllocError, AllocFailed};
use thiserror::Error;

/// What is wrong with a word of a text of SQL statements.
#[derive(Clone, Copy, Debug, PartialEq, Eq, Drop, Error)]
pub enum Defect {
    #[error("not UTF-8 text")]
    NotUtf8,
    #[error("a text in quotes does not end")]
    UnendedText,
    #[error("a name in quotes does not end")]
    UnendedName,
    #[error("a text in dollar quotes does not end")]
    UnendedDollarText,
    #[error("a comment does not end")]
    UnendedComment,
    #[error("the rows of COPY FROM stdin do not end with \\.")]
    UnendedRows,
    #[error("a command of psql, not of SQL")]
    BackslashCommand,
    #[error("a character that begins no word of SQL")]
    StrayCharacter,
    #[error("a name is missing before this word")]
    NoName,
    #[error("a name is missing behind this word")]
    NoNameBehind,
    #[error("a parenthesis does not end")]
    UnendedParenthesis,
    #[error("a parenthesis that ends none")]
    StrayParenthesis,
    #[error("a body that begins with BEGIN ATOMIC does not end")]
    UnendedBody,
    #[error("no such relation")]
    UnknownRelation,
    #[error("a view that reads itself")]
    ViewCycle,
    #[error("a statement whose locks are not known")]
    UnknownStatement,
    #[error("a form of ALTER TABLE whose locks are not known")]
    UnknownAlteration,
    #[error("no lock mode")]
    BadMode,
    #[error("a change of rows of a relation with a rule, whose locks are not known")]
    RuledRelation,
}

/// What ends the reading of a text of SQL statements early.
#[derive(Clone, Copy, PartialEq, Eq, Drop)]
pub enum SqlFault {
    /// A word of the text is wrong. Lines are counted from 1.
    BadWord {
        /// The line on which the word begins.
        line: usize,
        what: Defect,
        /// How many bytes of the text come before the word.
        from: usize,
    },
    /// Memory ran out for what is read.
    NoMemory,
}

impl From<AllocError> for SqlFault {
    fn from(_: AllocError) -> Self {
        SqlFault::NoMemory
    }
}

impl<T: Drop> From<AllocFailed<T>> for SqlFault {
    fn from(_: AllocFailed<T>) -> Self {
        SqlFault::NoMemory
    }
}
