//! What is said of a bad line at a shell, and behind the line's fault where hints are wanted.

use crate::forms::{SHELL_LINES, push_forms};
use crate::mode_help::mode_called;
use crate::statements::begins_statement;
use crate::topics::topic_of;
use lock_script::{
    CommandRow, Defect, Name, NamedObject, WordKind, command_row, command_rows, parse_name,
    parse_tag, split_words,
};
use modes_core::Mode;
use std::alloc::{AllocError, Global};
use strsim::jaro_winkler;

/// How like a wrong word a good one has to be, from 0 to 1, to be offered as a guess.
const LIKE: f64 = 0.8;

/// What somebody may type who is used to SQL, and the word with which such a line begins in a script.
static SQL_WORDS: [(&str, &str); 7] = [
    ("acquire", "lock"),
    ("connect", "session"),
    ("open", "session"),
    ("disconnect", "close"),
    ("rollback", "abort"),
    ("savepoint", "begin"),
    ("release", "unlock"),
];

/// What somebody may type who is used to other shells, and the word with which such a line begins in this
/// shell.
static SHELL_WORDS: [(&str, &str); 5] = [
    ("quit", "end"),
    ("exit", "end"),
    ("?", "help"),
    ("\\?", "help"),
    ("\\h", "help"),
];

/// What is known of the script, or of the shell, in which a line is wrong.
#[derive(Clone, Copy)]
pub struct Reader<'a> {
    /// The names of the sessions that are open.
    pub names: &'a [Name],
    /// The objects that have names.
    pub objects: &'a [NamedObject],
    /// Whether the wrong line is one of a shell, which has lines of its own.
    pub is_in_shell: bool,
}

/// What may help with `line`, which has the defect `what`, in lines of its own: what a shell would say of it
/// to `reader`.
pub fn hint_text(
    alloc: Global,
    line: &str,
    what: Defect,
    reader: Reader,
) -> Result<String, AllocError> {
    let mut text = String::from_str(alloc, "hint: ")?;
    push_correction(alloc, &mut text, line, what, reader)?;
    Ok(text)
}

/// Adds to `text` what is wrong with `line`: the defect `what`, the word that has it, and the nearest good
/// word for `reader`, or what the word may be.
pub fn push_correction(
    alloc: Global,
    text: &mut String,
    line: &str,
    what: Defect,
    reader: Reader,
) -> Result<(), AllocError> {
    let words = split_words(line);
    write!(text, "{what}")?;
    if let Some(word) = word_meant(what, words.as_slice(), reader.names) {
        write!(text, " {word:?}")?;
        if what == Defect::BadMode {
            if let Some(mode) = mode_meant(alloc, words.as_slice())? {
                return write!(text, ", perhaps {:?}\n", mode.name());
            }
        }
        if let Some(nearest) = nearest_to(alloc, what, word, reader)? {
            return write!(text, ", perhaps {nearest:?}\n");
        }
    }
    if what == Defect::WrongNumberOfWords {
        if let Some(mode) = mode_meant(alloc, words.as_slice())? {
            return write!(text, ", perhaps {:?} as one word\n", mode.name());
        }
    }
    push_rule(text, what, words.as_slice(), reader)
}

/// The mode that SQL calls by those of `words` that begin where a script has a mode, as `ACCESS EXCLUSIVE`,
/// if they name one. The word `session` at the end is left out.
fn mode_meant(alloc: Global, words: &[&str]) -> Result<Option<Mode>, AllocError> {
    let Some(place) = words.first().and_then(|verb| mode_place(*verb)) else {
        return Ok(None);
    };
    let Some(words) = words.get(place..) else {
        return Ok(None);
    };
    let words = match words.split_last() {
        Some((last, others)) if *last == "session" => others,
        _ => words,
    };
    let topic = topic_of(alloc, words)?;
    Ok(mode_called(topic.as_str()))
}

/// The place of the mode among the words of a line of the command `verb`, if the command has a mode.
fn mode_place(verb: &str) -> Option<usize> {
    command_row(verb)?.place_of(WordKind::ModeName)
}

/// Which of `words` has the defect `what`, if the defect is that of a single word, where the open sessions
/// are called `names`.
fn word_meant<'a>(what: Defect, words: &[&'a str], names: &[Name]) -> Option<&'a str> {
    let verb = words.first().copied()?;
    if what == Defect::UnknownCommand {
        return Some(verb);
    }
    let place = place_meant(what, command_row(verb)?, words, names)?;
    words.get(place).copied()
}

/// The place among `words`, a line of the command `row`, of the word that has the defect `what`, if the
/// defect is that of a single word, where the open sessions are called `names`.
fn place_meant(what: Defect, row: &CommandRow, words: &[&str], names: &[Name]) -> Option<usize> {
    match what {
        Defect::SessionExists => row.place_of(WordKind::FreeName),
        Defect::SessionWaits => row.place_of(WordKind::CallerName),
        Defect::NameExists => row.place_of(WordKind::FreeObjectName),
        Defect::ObjectNamed => row.place_of(WordKind::FreeTag),
        Defect::BadObject => match row.place_of(WordKind::TagWord) {
            Some(place) => Some(place),
            None => row.place_of(WordKind::FreeTag),
        },
        Defect::BadMode => row.place_of(WordKind::ModeName),
        Defect::BadOwner => row.place_of(WordKind::OwnerWord),
        Defect::BadNumber => match row.place_of(WordKind::Number) {
            Some(place) => Some(place),
            None => row.place_of(WordKind::CounterIndex),
        },
        Defect::BadName if is_named(words) && !names_object(row) => {
            row.place_of(WordKind::OpenName)
        }
        Defect::NoSuchSession if is_open(words, names) => row.place_of(WordKind::OpenName),
        Defect::BadName | Defect::NoSuchSession => Some(1),
        Defect::TooManyLines
        | Defect::LineTooLong
        | Defect::NotAsciiText
        | Defect::UnknownCommand
        | Defect::WrongNumberOfWords => None,
    }
}

/// Whether the command `row` gives an object a name.
fn names_object(row: &CommandRow) -> bool {
    row.place_of(WordKind::FreeObjectName).is_some()
}

/// Whether the second one of `words` is a name.
fn is_named(words: &[&str]) -> bool {
    match words.get(1) {
        Some(word) => parse_name(*word).is_some(),
        None => false,
    }
}

/// Whether the second of `words` is one of `names`, those of the open sessions.
fn is_open(words: &[&str], names: &[Name]) -> bool {
    match words.get(1) {
        Some(word) => names.iter().any(|name| name.as_str() == *word),
        None => false,
    }
}

/// The word that is good for `reader` in place of `word`, which has the defect `what`: the most like it,
/// where the good words can be listed and one is like it.
fn nearest_to(
    alloc: Global,
    what: Defect,
    word: &str,
    reader: Reader,
) -> Result<Option<String>, AllocError> {
    let mut nearest = Nearest::to(alloc, word)?;
    match what {
        Defect::UnknownCommand => nearest.look_at_verbs(alloc, reader.is_in_shell)?,
        Defect::BadMode => {
            for mode in &Mode::ALL {
                nearest.look_at(alloc, mode.name(), mode.name())?;
            }
        }
        Defect::NoSuchSession => {
            for name in reader.names {
                nearest.look_at(alloc, name.as_str(), name.as_str())?;
            }
        }
        Defect::BadObject => {
            for object in reader.objects {
                nearest.look_at(alloc, object.name.as_str(), object.name.as_str())?;
            }
        }
        Defect::BadOwner => nearest.look_at(alloc, "session", "session")?,
        _ => {}
    }
    Ok(nearest.found)
}

/// A search for the word most like a given one, in letters of either case, with what was found so far.
#[derive(Drop)]
struct Nearest {
    word: String,
    found: Option<String>,
    /// How like `word` the word found is, or how like it a word has to be where none was found.
    likeness: f64,
}

impl Nearest {
    /// A search for the word most like `word`, which has looked at nothing.
    fn to(alloc: Global, word: &str) -> Result<Self, AllocError> {
        let word = word.to_ascii_lowercase(alloc)?;
        Ok(Nearest {
            word,
            found: None,
            likeness: LIKE,
        })
    }

    /// Looks at the words with which lines begin, those of a shell too where `is_in_shell`, and at the words
    /// that SQL and other shells have for these.
    fn look_at_verbs(&mut self, alloc: Global, is_in_shell: bool) -> Result<(), AllocError> {
        for row in command_rows() {
            self.look_at(alloc, row.verb, row.verb)?;
        }
        self.look_at_pairs(alloc, SQL_WORDS.as_slice())?;
        if is_in_shell {
            for line in &SHELL_LINES {
                self.look_at(alloc, line.verb, line.verb)?;
            }
            self.look_at_pairs(alloc, SHELL_WORDS.as_slice())?;
        }
        Ok(())
    }

    /// Looks at the first word of each of `pairs`, what others type, whose second one is the good word for
    /// it.
    fn look_at_pairs(
        &mut self,
        alloc: Global,
        pairs: &[(&'static str, &'static str)],
    ) -> Result<(), AllocError> {
        for (other, verb) in pairs {
            self.look_at(alloc, *other, *verb)?;
        }
        Ok(())
    }

    /// Looks at `other`, which means the good word `good`. Of two words that are equally like the wanted one,
    /// the one seen first is kept.
    fn look_at(&mut self, alloc: Global, other: &str, good: &str) -> Result<(), AllocError> {
        let lower = other.to_ascii_lowercase(alloc)?;
        let likeness = jaro_winkler(alloc, self.word.as_str(), lower.as_str())?;
        if self.likeness < likeness {
            self.found = Some(String::from_str(alloc, good)?);
            self.likeness = likeness;
        }
        Ok(())
    }
}

/// Ends the line of `text` with what a word with the defect `what` may be for `reader`, or with the form of
/// the command that `words` begin with.
fn push_rule(
    text: &mut String,
    what: Defect,
    words: &[&str],
    reader: Reader,
) -> Result<(), AllocError> {
    match (what, words.first()) {
        (Defect::WrongNumberOfWords, Some(verb)) => {
            text.push_str("; the form is\n")?;
            push_forms(text, *verb)
        }
        (Defect::UnknownCommand, Some(verb)) => push_where_to_look(text, *verb, reader),
        (Defect::NoSuchSession, _) => push_open(text, reader.names),
        (Defect::NameExists | Defect::ObjectNamed, _) => push_named(text, words, reader.objects),
        (Defect::BadMode, _) if reader.is_in_shell => text.push_str("; help modes lists them\n"),
        _ => text.push_str(rule_of(what, words)),
    }
}

/// Ends the line of `text` with where `reader` finds the commands, or with which lock the SQL command `verb`
/// takes.
fn push_where_to_look(text: &mut String, verb: &str, reader: Reader) -> Result<(), AllocError> {
    if !reader.is_in_shell {
        return text.push_str("; lock_scenario run --help lists the commands\n");
    }
    if begins_statement(verb) {
        return write!(text, "; help {verb} says which lock it takes\n");
    }
    text.push_str("; help lists the commands\n")
}

/// Ends the line of `text` with `names`, those of the open sessions.
fn push_open(text: &mut String, names: &[Name]) -> Result<(), AllocError> {
    if names.is_empty() {
        return text.push_str("; no session is open\n");
    }
    text.push_str("; open sessions:")?;
    for name in names {
        write!(text, " {}", name.as_str())?;
    }
    text.push('\n')
}

/// Ends the line of `text` with the object that has the name, or with the name of the object, for `words`, a
/// line that gives a name again. `objects` are those that have names.
fn push_named(
    text: &mut String,
    words: &[&str],
    objects: &[NamedObject],
) -> Result<(), AllocError> {
    let (name, tag) = (words.get(1), words.get(2));
    for object in objects {
        if name.is_some_and(|name| object.name.as_str() == *name) {
            return write!(text, "; it is {}\n", object.tag);
        }
    }
    let tag = tag.and_then(|word| parse_tag(*word));
    for object in objects {
        if Some(object.tag) == tag {
            return write!(text, "; its name is {}\n", object.name);
        }
    }
    text.push('\n')
}

/// What comes at the end of the line of text that says that a line of `words` has the defect `what`.
fn rule_of(what: Defect, words: &[&str]) -> &'static str {
    match what {
        Defect::BadName if is_naming(words) => {
            "; an object's name is a letter or _, and up to 62 letters, digits, _, $ and . behind it\n"
        }
        Defect::BadName => "; a name is 1 to 16 of a to z, 0 to 9 and _\n",
        Defect::BadNumber if is_count(words) => "; an INDEX is 0 to 1023\n",
        Defect::BadNumber => "; a number is 0 to 4294967295, of 10 digits at most\n",
        Defect::BadObject => {
            "; an object is DB/REL, DB/CLASS/OBJ/SUB or adv/DB/K1/K2/SUB,\n\
             of numbers to 4294967295, SUB to 65535: a table is 5/16384, say\n"
        }
        Defect::BadMode => "; lock_scenario modes lists them\n",
        Defect::BadOwner => "; the session's lock has the word session, the transaction's none\n",
        Defect::SessionWaits =>
            "; it goes on once it is granted, or another session cancels its wait\n",
        _ => "\n",
    }
}

/// Whether a line of `words` gives an object a name.
fn is_naming(words: &[&str]) -> bool {
    match words.first() {
        Some(verb) => match command_row(*verb) {
            Some(row) => names_object(row),
            None => false,
        },
        None => false,
    }
}

/// Whether a line of `words` asks for a counter.
fn is_count(words: &[&str]) -> bool {
    match words.first() {
        Some(verb) => match command_row(*verb) {
            Some(row) => row.place_of(WordKind::CounterIndex).is_some(),
            None => false,
        },
        None => false,
    }
}
