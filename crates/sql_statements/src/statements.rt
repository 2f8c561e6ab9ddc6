//! A text of statements, parted into them.

ghost use Rattle.std.specs.Prelude.{◌≡◌, ◌++◌, [], ◌∷◌, All, IfOk, OnOk};
ghost use Rattle.sql_statements.specs.Statements.{kept_of, kept_of_all, said_of, AreStatementsOf, IsPlaced};
ghost use Rattle.sql_statements.specs.Parting.{gathered};

use crate::cursor::SqlWord;
use sql_locks::{Defect, SqlFault, Word, WordKind, split_words};
use std::alloc::{AllocError, Global};
use std::str;

/// A statement of a text: its words without blanks and comments, and where it is in the text.
#[derive(Drop)]
pub struct SqlStatement {
    pub words: Vec<SqlWord>,
    /// The line on which the statement begins, from 1.
    pub line: usize,
    /// How many bytes of the text come before the statement, and before its end.
    pub from: usize,
    pub to: usize,
}

/// The statements of `text`, without those that have no word. The rows after `COPY .. FROM stdin` are left
/// out.
pub fn split_statements(alloc: Global, text: &[u8]) -> Result<Vec<SqlStatement>, SqlFault>
    ensures nothing_lost { IfOk result (λ statements. AreStatementsOf text.now statements.items) }
    ensures lines { IfOk result (λ statements. All IsPlaced statements.items) }
{
    if str::from_utf8(text).is_err() {
        return Err(utf8_fault(text));
    }
    let words = split_words(alloc, text)?;
    let mut parted = Parted::new(alloc);
    for word in &words {
        parted.take(alloc, word)?;
    }
    parted.finish(alloc)?;
    Ok(parted.statements)
}

/// The fault of `text`, which is no UTF-8: the line and the word that have the first byte that is no UTF-8.
fn utf8_fault(text: &[u8]) -> SqlFault {
    let mut line = 1usize;
    let mut from = 0usize;
    for (place, part) in text.split(|byte| *byte == b'\n').enumerate() {
        if str::from_utf8(part).is_err() {
            line = place.saturating_add(1);
            from = from.saturating_add(place_of_bad_word(part));
            break;
        }
        from = from.saturating_add(part.len()).saturating_add(1);
    }
    SqlFault::BadWord {
        line,
        what: Defect::NotUtf8,
        from,
    }
}

/// How many bytes of `line` come before its first word that is no UTF-8. Words end at spaces.
fn place_of_bad_word(line: &[u8]) -> usize {
    let mut from = 0usize;
    for word in line.split(|byte| *byte == b' ') {
        if str::from_utf8(word).is_err() {
            break;
        }
        from = from.saturating_add(word.len()).saturating_add(1);
    }
    from
}

/// The statements of a text that is being read, and the words of the statement that is being gathered.
#[derive(Drop)]
struct Parted {
    statements: Vec<SqlStatement>,
    words: Vec<SqlWord>,
    /// How many bytes of the text were read.
    read: usize,
    /// How many parentheses are open, and how many blocks of a function's body.
    depth: usize,
    blocks: usize,
    /// The fault of an outermost parenthesis that does not end, and that of a function's body that does not
    /// end, each while it is open.
    parenthesis: Option<SqlFault>,
    body: Option<SqlFault>,
}

impl Parted {
    /// The state before anything of the text was read, with no statements.
    fn new(alloc: Global) -> Self
        ensures words { result.words.items ≡ [] }
        ensures statements { result.statements.items ≡ [] }
    {
        Parted {
            statements: Vec::new(alloc),
            words: Vec::new(alloc),
            read: 0,
            depth: 0,
            blocks: 0,
            parenthesis: None,
            body: None,
        }
    }

    /// Reads `word`, the next word of the text.
    fn take(&mut self, alloc: Global, word: &Word<'_>) -> Result<(), SqlFault>
        ensures said { OnOk result (gathered self.new ≡ gathered self.old ++ said_of (word.now ∷ [])) }
        ensures lines { OnOk result (All IsPlaced self.old.statements.items → All IsPlaced self.new.statements.items) }
    {
        let from = self.read;
        self.read = self.read.saturating_add(word.text.len());
        match word.kind {
            WordKind::Blank | WordKind::Comment | WordKind::Rows => Ok(()),
            WordKind::Semicolon if self.depth == 0 && self.blocks == 0 => {
                self.end(alloc)?;
                Ok(())
            }
            _ => self.gather(alloc, word, from),
        }
    }

    /// Adds `word`, which begins at the place `from` of the text, to the statement that is being gathered.
    fn gather(&mut self, alloc: Global, word: &Word<'_>, from: usize) -> Result<(), SqlFault>
        ensures said { OnOk result (kept_of self.new.words.items ≡ kept_of self.old.words.items ++ said_of (word.now ∷ [])) }
        ensures statements { self.new.statements.items ≡ self.old.statements.items }
    {
        let Ok(text) = str::from_utf8(word.text) else {
            return Err(SqlFault::BadWord {
                line: word.line,
                what: Defect::NotUtf8,
                from,
            });
        };
        let added = SqlWord {
            kind: word.kind,
            text: String::from_str(alloc, text)?,
            line: word.line,
            from,
        };
        self.nest(&added)?;
        self.words.push(added)?;
        Ok(())
    }

    /// Counts the parenthesis or the block that `word` opens or ends.
    fn nest(&mut self, word: &SqlWord) -> Result<(), SqlFault>
        ensures words { self.new.words.items ≡ self.old.words.items }
        ensures statements { self.new.statements.items ≡ self.old.statements.items }
    {
        if word.is_mark("(") {
            if self.depth == 0 {
                self.parenthesis = Some(word.fault(Defect::UnendedParenthesis));
            }
            self.depth = self.depth.saturating_add(1);
        } else if word.is_mark(")") {
            if self.depth == 0 {
                return Err(word.fault(Defect::StrayParenthesis));
            }
            self.depth = self.depth.saturating_sub(1);
            if self.depth == 0 {
                self.parenthesis = None;
            }
        } else if self.opens_block(word) {
            if self.blocks == 0 {
                self.body = Some(word.fault(Defect::UnendedBody));
            }
            self.blocks = self.blocks.saturating_add(1);
        } else if self.blocks > 0 && word.is_key_word("end") {
            self.blocks = self.blocks.saturating_sub(1);
            if self.blocks == 0 {
                self.body = None;
            }
        }
        Ok(())
    }

    /// Whether `word` opens a block of a function's body: the `ATOMIC` of `BEGIN ATOMIC`, or a `CASE` in such
    /// a block.
    fn opens_block(&self, word: &SqlWord) -> bool {
        match self.words.last() {
            Some(before) => {
                (word.is_key_word("atomic") && before.is_key_word("begin"))
                    || (self.blocks > 0 && word.is_key_word("case"))
            }
            None => false,
        }
    }

    /// Ends the last statement of the text, which may have no semicolon after it.
    fn finish(&mut self, alloc: Global) -> Result<(), SqlFault>
        ensures said { OnOk result (kept_of_all self.new.statements.items ≡ gathered self.old) }
        ensures lines { OnOk result (All IsPlaced self.old.statements.items → All IsPlaced self.new.statements.items) }
    {
        match (self.parenthesis, self.body) {
            (Some(fault), _) => Err(fault),
            (None, Some(fault)) => Err(fault),
            (None, None) => {
                self.end(alloc)?;
                Ok(())
            }
        }
    }

    /// Ends the statement that is being gathered: it is added to the statements, if it has a word.
    fn end(&mut self, alloc: Global) -> Result<(), AllocError>
        ensures said { OnOk result (kept_of_all self.new.statements.items ≡ gathered self.old) }
        ensures words { self.new.words.items ≡ [] }
        ensures lines { OnOk result (All IsPlaced self.old.statements.items → All IsPlaced self.new.statements.items) }
    {
        let mut words = Vec::new(alloc);
        std::mem::swap(&mut words, &mut self.words);
        self.depth = 0;
        self.blocks = 0;
        let Some(first) = words.first() else {
            return Ok(());
        };
        let (line, from) = (first.line, first.from);
        let statement = SqlStatement {
            words,
            line,
            from,
            to: self.read,
        };
        match self.statements.push(statement) {
            Ok(()) => Ok(()),
            Err(_) => Err(AllocError),
        }
    }
}
