//! The lock that an SQL command takes on its table, for the help of a shell.

use crate::statement_rows::OTHERS;
use modes_core::Mode;
use sql_locks::{SqlCommand, sql_commands};
use std::alloc::AllocError;
use std::str::Split;

/// The word of an SQL command that may be left out.
const MAY_BE_MISSING: &str = "COLUMN";

/// Adds to `text` a line for each SQL command that begins with `words`. Where none does, as with
/// `alter table t add column c`, the lines are for the commands of which the most words are among `words`.
/// Where these are only the first words of `words`, the lines are for the commands that begin as the longest
/// command does with which `words` begin.
pub fn push_statements(text: &mut String, words: &str) -> Result<(), AllocError> {
    let before = text.len();
    push_beginning(text, words)?;
    if text.len() != before {
        return Ok(());
    }
    let longest = longest_within(words);
    let beginning = match longest {
        Some(name) => count_of(name),
        None => 0,
    };
    match (fullest_within(words, beginning), longest) {
        (Some(name), _) => push_called(text, name),
        (None, Some(name)) => push_beginning(text, name),
        (None, None) => Ok(()),
    }
}

/// How many words the SQL command `name` has, without those that may be missing.
fn count_of(name: &str) -> usize {
    name.split(' ')
        .filter(|word| *word != MAY_BE_MISSING)
        .count()
}

/// Adds to `text` a line for each SQL command that is called `called`.
fn push_called(text: &mut String, called: &str) -> Result<(), AllocError> {
    for command in sql_commands() {
        if command.sql == called {
            push_command(text, command)?;
        }
    }
    Ok(())
}

/// Adds to `text` the line of `command`: the mode that the table of forms has for the command, and what else
/// is to be said of it.
fn push_command(text: &mut String, command: &SqlCommand) -> Result<(), AllocError> {
    if let Some(mode) = command.mode() {
        let (name, note) = (command.sql, command.note);
        write!(text, "  {name} takes {mode}{note}\n")?;
    }
    Ok(())
}

/// The SQL command that has the most words of those commands whose words are all among `words`, if it has
/// more than `beginning` words.
fn fullest_within(words: &str, beginning: usize) -> Option<&'static str> {
    let mut fullest = None;
    let mut most = beginning;
    for command in sql_commands() {
        let name = command.sql;
        if most < count_of(name) && stands_within(name, words) {
            fullest = Some(name);
            most = count_of(name);
        }
    }
    fullest
}

/// Whether the words of the SQL command `name` are among `words` in their order, the first one first.
fn stands_within(name: &str, words: &str) -> bool {
    let mut left = words.split(' ');
    let mut is_first = true;
    for word in name.split(' ') {
        if word == MAY_BE_MISSING {
            continue;
        }
        if !is_word_in(word, &mut left, is_first) {
            return false;
        }
        is_first = false;
    }
    true
}

/// Adds to `text` a line for each SQL command that begins with `words`.
fn push_beginning(text: &mut String, words: &str) -> Result<(), AllocError> {
    for command in sql_commands() {
        if begins_with(command.sql, words) {
            push_command(text, command)?;
        }
    }
    for (name, line) in &OTHERS {
        if begins_with(name, words) {
            write!(text, "  {name} is {line}\n")?;
        }
    }
    Ok(())
}

/// Whether `word` is among the words that are `left`, or is the next of them where `is_next`. The words up to
/// it are taken out of `left`.
fn is_word_in<'a>(word: &str, left: &mut Split<'a, char>, is_next: bool) -> bool {
    while let Some(other) = left.next() {
        if is_same_word(word, other) {
            return true;
        }
        if is_next {
            return false;
        }
    }
    false
}

/// Whether `word` and `other` are one word in letters of either case. The word `(..)` means any that begins
/// with a parenthesis.
fn is_same_word(word: &str, other: &str) -> bool {
    if word == "(..)" {
        return other.starts_with('(');
    }
    let word = word.strip_suffix(')').unwrap_or(word);
    let other = other.strip_suffix(')').unwrap_or(other);
    word.eq_ignore_ascii_case(other)
}

/// The longest SQL command with which `words` begin.
fn longest_within(words: &str) -> Option<&'static str> {
    let mut longest = None;
    let mut length = 0;
    for command in sql_commands() {
        let name = command.sql;
        if begins_with(words, name) && length < name.len() {
            longest = Some(name);
            length = name.len();
        }
    }
    for (name, _) in &OTHERS {
        if begins_with(words, name) && length < name.len() {
            longest = Some(*name);
            length = name.len();
        }
    }
    longest
}

/// Adds to `text` a line for each SQL command that takes `mode`.
pub fn push_statements_with(text: &mut String, mode: Mode) -> Result<(), AllocError> {
    for command in sql_commands() {
        if command.mode().is_some_and(|its| its.is_same(mode)) {
            push_command(text, command)?;
        }
    }
    Ok(())
}

/// Whether an SQL command begins with `word`.
pub fn begins_statement(word: &str) -> bool {
    sql_commands()
        .iter()
        .any(|command| begins_with(command.sql, word))
}

/// Whether `text` begins with `words`, in letters of either case.
fn begins_with(text: &str, words: &str) -> bool {
    let (text, words) = (text.as_bytes(), words.as_bytes());
    match text.get(..words.len()) {
        Some(front) => front.eq_ignore_ascii_case(words) && is_word_end(text.get(words.len())),
        None => false,
    }
}

/// Whether a word ends before the byte `next`.
fn is_word_end(next: Option<&u8>) -> bool {
    match next {
        Some(byte) => *byte == b' ',
        None => true,
    }
}
