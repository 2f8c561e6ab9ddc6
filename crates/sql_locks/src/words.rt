//! The words of a text of SQL statements.
ghost use Rattle.std.specs.Prelude.{◌≡◌, ◌≤◌, ◌<◌, IfOk, IfErr, All, count_by, length, take};
ghost use Rattle.std.specs.List.{flat_map};
ghost use Rattle.sql_locks.specs.Faults.{HasDefect, IsFaultOf};
ghost use Rattle.sql_locks.specs.Text.{is_line_feed};
ghost use Rattle.sql_locks.specs.Words.{text_of, AreNumbered, IsWord};

use crate::faults::{Defect, SqlFault};
use crate::word_lengths::{first_word, rows_length};
use std::alloc::Global;

/// The kind of a word of a text of SQL statements.
#[derive(Clone, Copy, PartialEq, Eq)]
pub enum WordKind {
    /// Spaces, tabs and ends of lines.
    Blank,
    /// A comment, from `--` to the line's end, or between `/*` and `*/`.
    Comment,
    /// A name without quotes, or a key word.
    Name,
    /// A name in double quotes.
    QuotedName,
    /// A text in single quotes or between two dollar tags, with its prefix, as `E'..'`.
    Text,
    /// A number, as `12` or `1.5e3`.
    Number,
    /// A parameter of a statement, as `$1`.
    Parameter,
    /// A word that is an operator, as `>=`.
    Operator,
    /// A parenthesis, a bracket, a comma, a point or a colon.
    Mark,
    /// The semicolon that ends a statement.
    Semicolon,
    /// The rows after `COPY .. FROM stdin`, up to the line `\.`.
    Rows,
}

/// A word of a text of SQL statements.
#[derive(Clone, Copy)]
pub struct Word<'a> {
    pub kind: WordKind,
    /// The word as it is written.
    pub text: &'a [u8],
    /// The line on which the word begins, from 1.
    pub line: usize,
}

/// How much of a `COPY .. FROM stdin` was read.
#[derive(Clone, Copy)]
enum CopyProgress {
    /// A statement is to begin.
    Start,
    /// The statement is no `COPY`.
    Other,
    /// `COPY`, and after it words that are not `FROM`.
    Copy,
    /// `COPY .. FROM`, and nothing after that yet.
    From,
    /// `COPY .. FROM STDIN`, and what comes after it.
    Stdin,
    /// The statement `COPY .. FROM stdin` has ended, and its rows are to come.
    Rows,
}

impl CopyProgress {
    /// The word at the front of `rest`, which begins on `line`.
    fn next_word(self, rest: &[u8], line: usize) -> Result<Word<'_>, Defect>
        requires { 0 < length rest.now }
        ensures word { IfOk result IsWord }
        ensures front { IfOk result (λ word. text_of word ≡ take (length (text_of word)) rest.now) }
        ensures within { IfOk result (λ word. length (text_of word) ≤ length rest.now) }
        ensures line { IfOk result (λ word. word.line ≡ line) }
        ensures defect { IfErr result (λ what. HasDefect what rest.now) }
    {
        let found = match self {
            CopyProgress::Rows => rows_length(rest),
            _ => first_word(rest),
        };
        let (kind, length) = found?;
        Ok(Word {
            kind,
            text: &rest[..length],
            line,
        })
    }

    /// How much of a `COPY .. FROM stdin` was read after one more word, `text`, which is of `kind`.
    fn after(self, kind: WordKind, text: &[u8]) -> Self {
        match kind {
            WordKind::Blank | WordKind::Comment => self,
            WordKind::Semicolon => self.after_end(),
            WordKind::Name => self.after_name(text),
            WordKind::Rows => CopyProgress::Start,
            _ => self.after_other(),
        }
    }

    /// How much of a `COPY .. FROM stdin` was read after the end of the statement.
    fn after_end(self) -> Self {
        match self {
            CopyProgress::Stdin => CopyProgress::Rows,
            _ => CopyProgress::Start,
        }
    }

    /// How much of a `COPY .. FROM stdin` was read after one more name, `text`.
    fn after_name(self, text: &[u8]) -> Self {
        match self {
            CopyProgress::Start if text.eq_ignore_ascii_case(b"copy") => CopyProgress::Copy,
            CopyProgress::Copy if text.eq_ignore_ascii_case(b"from") => CopyProgress::From,
            CopyProgress::From if text.eq_ignore_ascii_case(b"stdin") => CopyProgress::Stdin,
            _ => self.after_other(),
        }
    }

    /// How much of a `COPY .. FROM stdin` was read after one more word that is nothing to a `COPY`.
    fn after_other(self) -> Self {
        match self {
            CopyProgress::Start => CopyProgress::Other,
            CopyProgress::From => CopyProgress::Copy,
            _ => self,
        }
    }
}

/// The words of `text`, blanks and comments too: joined they are the text. A word that doesn't end, a command
/// of psql and a character that begins no word of SQL are faults, which name the line and the place.
pub fn split_words(alloc: Global, text: &[u8]) -> Result<Vec<Word<'_>>, SqlFault>
    ensures nothing_lost { IfOk result (λ words. flat_map text_of words.items ≡ text.now) }
    ensures lines { IfOk result (λ words. AreNumbered 1 words.items) }
    ensures each { IfOk result (λ words. All IsWord words.items) }
    ensures fault { IfErr result (IsFaultOf text.now) }
{
    let mut words = Vec::new(alloc);
    let mut rest = text;
    let mut line = 1;
    let mut copy = CopyProgress::Start;
    while !rest.is_empty() {
        let word = match copy.next_word(rest, line) {
            Ok(word) => word,
            Err(what) => {
                let from = text.len() - rest.len();
                return Err(SqlFault::BadWord { line, what, from });
            }
        };
        let (_, after) = rest.split_at(word.text.len());
        copy = copy.after(word.kind, word.text);
        line += line_feeds(word.text);
        rest = after;
        if words.push(word).is_err() {
            return Err(SqlFault::NoMemory);
        }
    }
    Ok(words)
}

/// How many line feeds `text` has.
fn line_feeds(text: &[u8]) -> usize
    ensures count { result ≡ count_by is_line_feed text.now }
    ensures within { result ≤ length text.now }
{
    text.iter().filter(|byte| **byte == b'\n').count()
}
