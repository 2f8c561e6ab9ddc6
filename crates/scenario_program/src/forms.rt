//! The lines of a script and of a shell, as every help shows them: from the table of commands.
ghost use Rattle.std.specs.Prelude.{◌≡◌};
ghost use Rattle.scenario_program.specs.Typed.{is_leaving};

use lock_script::{CommandRow, command_row, command_rows};
use std::alloc::{AllocError, Global};

/// How wide the words of a line are in a help, before what they do.
const WIDTH: usize = 32;

/// How wide a line of a help is at most.
const LINE: usize = 80;

/// The form of a line that is no command: the word with which the line begins, the words after that, and what
/// the line does.
pub struct OtherLine {
    pub verb: &'static str,
    pub form: &'static str,
    pub help: &'static str,
}

/// The line that a script may have beside its commands: a comment.
static COMMENT: OtherLine = OtherLine {
    verb: "#",
    form: "TEXT",
    help: "a comment",
};

/// The lines that a script which speaks SQL may have beside the lines of any script.
static SQL_LINES: [OtherLine; 3] = [
    OtherLine {
        verb: "schema",
        form: "",
        help: "SQL statements follow, which make tables",
    },
    OtherLine {
        verb: "end",
        form: "",
        help: "the schema ends",
    },
    OtherLine {
        verb: "do",
        form: "NAME SQL;",
        help: "lock what SQL statements lock, in their order",
    },
];

/// The word that ends a shell, of those that do the one that the help names.
const LEAVING: &str = "end";

/// The lines that a shell has beside the lines of a script.
pub static SHELL_LINES: [OtherLine; 6] = [
    OtherLine {
        verb: "help",
        form: "",
        help: "this",
    },
    OtherLine {
        verb: "help",
        form: "COMMAND",
        help: "the form of a command",
    },
    OtherLine {
        verb: "help",
        form: "STATEMENT",
        help: "the locks of an SQL command, as help alter table",
    },
    OtherLine {
        verb: "help",
        form: "MODE",
        help: "what a mode conflicts with, and what takes it",
    },
    OtherLine {
        verb: "help",
        form: "modes",
        help: "which modes conflict",
    },
    OtherLine {
        verb: "end",
        form: "",
        help: "close all sessions, and leave",
    },
];

/// What the words of a script's line may be.
const WORDS: &str =
    "NAME is 1 to 16 of a to z, 0 to 9 and _. DB is a number to 4294967295, INDEX one
  to 1023.
OBJECT is a letter or _, and up to 62 letters, digits, _, $ and . behind it.
TAG is DB/REL for a relation, DB/CLASS/OBJ/SUB for another object, and
  adv/DB/K1/K2/SUB for an advisory lock, of numbers to 4294967295, SUB to 65535;
  or the name of an object.
MODE is AccessShareLock, RowShareLock, RowExclusiveLock,
  ShareUpdateExclusiveLock, ShareLock, ShareRowExclusiveLock, ExclusiveLock or
  AccessExclusiveLock.
A lock is the transaction's, and with the word session at the end of its line
  the session's.
";

/// Adds to `text` the forms of a script's lines, and what their words may be.
pub fn push_script_lines(text: &mut String) -> Result<(), AllocError> {
    for row in command_rows() {
        push_row(text, row)?;
    }
    push_line(text, &COMMENT)?;
    text.push('\n')?;
    text.push_str(WORDS)
}

/// Adds to `text` the forms of the lines that a script which speaks SQL has beside the lines of any script.
pub fn push_sql_lines(text: &mut String) -> Result<(), AllocError> {
    text.push_str("With --sql a script has these lines too:\n")?;
    for line in &SQL_LINES {
        push_line(text, line)?;
    }
    Ok(())
}

/// Adds to `text` the forms of the lines that a shell has beside the lines of a script.
pub fn push_shell_lines(text: &mut String) -> Result<(), AllocError> {
    for line in &SHELL_LINES {
        push_line(text, line)?;
    }
    text.push_str("\nInstead of end, quit, exit and \\q leave too.\n")
}

/// Whether a line that begins with `verb` ends a shell.
pub fn ends_shell(verb: &str) -> bool
    ensures { result ≡ is_leaving verb.now }
{
    matches!(verb, LEAVING | "quit" | "exit" | "\\q")
}

/// Adds to `text` the forms of the lines that begin with `verb`, of a script and of a shell.
pub fn push_forms(text: &mut String, verb: &str) -> Result<(), AllocError> {
    let verb = if ends_shell(verb) { LEAVING } else { verb };
    if let Some(row) = command_row(verb) {
        push_row(text, row)?;
    }
    if COMMENT.verb == verb {
        push_line(text, &COMMENT)?;
    }
    for line in &SHELL_LINES {
        if line.verb == verb {
            push_line(text, line)?;
        }
    }
    Ok(())
}

/// Adds to `text` the form of the command `row`, with what the command does.
fn push_row(text: &mut String, row: &CommandRow) -> Result<(), AllocError> {
    push_form(text, row.verb, row.form, row.help)?;
    if row.help_below != "" {
        push_blanks(text, 2 + WIDTH)?;
        write!(text, "{}\n", row.help_below)?;
    }
    Ok(())
}

/// Adds to `text` the form of `line`, which is no command, with what the line does.
fn push_line(text: &mut String, line: &OtherLine) -> Result<(), AllocError> {
    push_form(text, line.verb, line.form, line.help)
}

/// Adds to `text` the words `verb` and `form` of a line, and `help`, which says what the line does.
fn push_form(text: &mut String, verb: &str, form: &str, help: &str) -> Result<(), AllocError> {
    let begin = text.len();
    write!(text, "  {verb} {form}")?;
    let written = text.len().saturating_sub(begin);
    push_blanks(text, (2 + WIDTH).saturating_sub(written))?;
    write!(text, "{help}\n")
}

/// Adds `many` blanks to `text`.
fn push_blanks(text: &mut String, many: usize) -> Result<(), AllocError> {
    for _ in 0..many {
        text.push(' ')?;
    }
    Ok(())
}

/// Words that are laid out in lines, of which those after the first begin with two blanks.
#[derive(Drop)]
pub struct Wrapped {
    text: String,
    /// How wide the last line of the text is so far.
    width: usize,
}

impl Wrapped {
    /// Words in lines, which begin with the words `begin`.
    pub fn new(alloc: Global, begin: &str) -> Result<Self, AllocError> {
        Ok(Wrapped {
            text: String::from_str(alloc, begin)?,
            width: begin.len(),
        })
    }

    /// Adds `words` at the end, each of which may begin a line.
    pub fn push(&mut self, words: &str) -> Result<(), AllocError> {
        for word in words.split(' ') {
            let with_word = self.width.saturating_add(1).saturating_add(word.len());
            if with_word > LINE {
                write!(self.text, "\n  {word}")?;
                self.width = word.len().saturating_add(2);
            } else {
                write!(self.text, " {word}")?;
                self.width = with_word;
            }
        }
        Ok(())
    }

    /// The text of the lines, for which the words are given up.
    pub fn finish(self) -> String {
        self.text
    }
}

/// Adds to `text` the words with which a script's lines begin.
pub fn push_verbs(alloc: Global, text: &mut String) -> Result<(), AllocError> {
    let mut verbs = Wrapped::new(alloc, " ")?;
    let last = command_rows().len().saturating_sub(1);
    for (place, row) in command_rows().iter().enumerate() {
        if place == last {
            verbs.push(row.verb)?;
        } else {
            let word = format!(in alloc; "{},", row.verb)?;
            verbs.push(word.as_str())?;
        }
    }
    let verbs = verbs.finish();
    text.push_str(verbs.as_str())
}
