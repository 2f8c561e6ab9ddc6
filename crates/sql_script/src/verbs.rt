//! The words of a script's lines that say SQL: what the first one asks for, and where each ends.
ghost use Rattle.std.specs.Prelude.{◌≡◌, position};
ghost use Rattle.std.specs.Char.{is_ascii_whitespace};
ghost use Rattle.std.specs.Str.{IsCharBoundary};
ghost use Rattle.sql_script.specs.Lines.{verb_of};
ghost use Rattle.sql_script.specs.Words.{before_semicolon, behind_semicolon, behind_word, first_word, is_blank, word_end};

/// What the first word of a line asks for.
#[derive(Clone, Copy, PartialEq, Eq)]
pub enum Verb {
    /// A schema begins: the lines up to `end` make tables.
    Schema,
    /// A session plays what some statements come to.
    Do,
    /// A session plays what a statement comes to, and works at it from then on.
    Work,
    /// The work of a session's statement is done.
    Done,
    /// A session is opened.
    Session,
    /// A session is closed.
    Close,
    /// A session's transaction ends.
    Ends,
    /// The word begins a plain line.
    Other,
}

/// What `word`, the first one of a line, asks for.
pub fn verb_of(word: &str) -> Verb
    ensures { result ≡ verb_of word.now }
{
    if word == "schema" {
        Verb::Schema
    } else if word == "do" {
        Verb::Do
    } else if word == "work" {
        Verb::Work
    } else if word == "done" {
        Verb::Done
    } else if word == "session" {
        Verb::Session
    } else if word == "close" {
        Verb::Close
    } else if word == "commit" {
        Verb::Ends
    } else if word == "abort" {
        Verb::Ends
    } else {
        Verb::Other
    }
}

/// The first word of `text`, and what comes after that word.
pub fn cut_word(text: &str) -> (&str, &str)
    ensures word { result.0.now ≡ first_word text.now }
    ensures behind { result.1.now ≡ behind_word text.now }
{
    let begun = text.trim_start();
    let end = word_end(begun);
    (&begun[..end], &begun[end..])
}

/// Where the first word of `text` ends, if `text` begins with that word.
fn word_end(text: &str) -> usize
    ensures end { result ≡ word_end text.now }
    ensures boundary { IsCharBoundary text.now result }
{
    match first_space(text) {
        Some(end) => end,
        None => text.len(),
    }
}

/// Where the first white space of `text` is.
fn first_space(text: &str) -> Option<usize>
    ensures { result ≡ position is_ascii_whitespace text.now }
{
    text.as_bytes()
        .iter()
        .position(|byte| byte.is_ascii_whitespace())
}

/// What comes before and what comes behind the first semicolon of `word`. Where there is none all of `word`
/// comes before it.
pub fn cut_at_semicolon(word: &str) -> (&str, &str)
    ensures before { result.0.now ≡ before_semicolon word.now }
    ensures behind { result.1.now ≡ behind_semicolon word.now }
{
    match word.split_once(';') {
        Some(parts) => parts,
        None => (word, ""),
    }
}

/// Whether no word stands in `text`.
pub fn is_blank(text: &str) -> bool
    ensures { result ≡ is_blank text.now }
{
    cut_word(text).0.is_empty()
}
