//! The words of one statement, read from left to right.

use sql_locks::{Defect, SqlFault, WordKind};

/// A word of a statement.
#[derive(Drop)]
pub struct SqlWord {
    pub kind: WordKind,
    /// The word as it is written.
    pub text: String,
    /// The line on which the word begins, from 1.
    pub line: usize,
    /// How many bytes of the text come before the word.
    pub from: usize,
}

impl SqlWord {
    /// Whether the word is `key_word`, and no name in quotes.
    pub fn is_key_word(&self, key_word: &str) -> bool {
        self.kind == WordKind::Name
            && self
                .text
                .as_bytes()
                .eq_ignore_ascii_case(key_word.as_bytes())
    }

    /// Whether the word is `mark`.
    pub fn is_mark(&self, mark: &str) -> bool {
        self.kind == WordKind::Mark && self.text.as_str() == mark
    }

    /// The fault of this word that has the defect `what`.
    pub fn fault(&self, what: Defect) -> SqlFault {
        SqlFault::BadWord {
            line: self.line,
            what,
            from: self.from,
        }
    }

    /// Whether the word can be a name.
    pub fn is_name(&self) -> bool {
        self.kind == WordKind::Name || self.kind == WordKind::QuotedName
    }
}

/// The place of a name among the words of a statement: from the word at `begin` on, to before the word at
/// `end`.
#[derive(Clone, Copy, PartialEq, Eq)]
pub struct NamePlace {
    pub begin: usize,
    pub end: usize,
}

/// A place among the words of a statement, of which blanks and comments are left out.
#[derive(Drop)]
pub struct Cursor {
    pub words: Vec<SqlWord>,
    pub place: usize,
}

impl Cursor {
    /// The word that comes `ahead` words after the next one.
    pub fn ahead(&self, ahead: usize) -> Option<&SqlWord> {
        self.words.get(self.place.saturating_add(ahead))
    }

    /// Whether the cursor is after the last word of the statement.
    pub fn is_at_end(&self) -> bool {
        self.place >= self.words.len()
    }

    /// Passes the next word.
    pub fn advance(&mut self) {
        self.place = self.place.saturating_add(1);
    }

    /// Whether the word that comes `ahead` words after the next one is `key_word`.
    pub fn is_ahead(&self, ahead: usize, key_word: &str) -> bool {
        match self.ahead(ahead) {
            Some(word) => word.is_key_word(key_word),
            None => false,
        }
    }

    /// Whether the next word is `key_word`.
    pub fn is_at(&self, key_word: &str) -> bool {
        self.is_ahead(0, key_word)
    }

    /// Whether the next word is one of `key_words`.
    pub fn is_at_one(&self, key_words: &[&str]) -> bool {
        for key_word in key_words {
            if self.is_at(key_word) {
                return true;
            }
        }
        false
    }

    /// Whether the word before the next one is `key_word`.
    pub fn is_behind(&self, key_word: &str) -> bool {
        match self.words.get(self.place.saturating_sub(1)) {
            Some(word) => self.place > 0 && word.is_key_word(key_word),
            None => false,
        }
    }

    /// Passes the next word where it is `key_word`, and answers whether it is.
    pub fn eat(&mut self, key_word: &str) -> bool {
        let found = self.is_at(key_word);
        if found {
            self.advance();
        }
        found
    }

    /// Passes `key_words` where they come next, and answers whether they do.
    pub fn eat_all(&mut self, key_words: &[&str]) -> bool {
        let found = self.are_ahead(0, key_words);
        if found {
            self.place = self.place.saturating_add(key_words.len());
        }
        found
    }

    /// Whether the word that comes `ahead` words after the next one is `mark`.
    pub fn is_mark_ahead(&self, ahead: usize, mark: &str) -> bool {
        match self.ahead(ahead) {
            Some(word) => word.is_mark(mark),
            None => false,
        }
    }

    /// Whether the next word is `mark`.
    pub fn is_mark(&self, mark: &str) -> bool {
        self.is_mark_ahead(0, mark)
    }

    /// Passes the next word where it is `mark`, and answers whether it is.
    pub fn eat_mark(&mut self, mark: &str) -> bool {
        let found = self.is_mark(mark);
        if found {
            self.advance();
        }
        found
    }

    /// Passes the next word where it is a star.
    pub fn eat_star(&mut self) {
        if self.is_star() {
            self.advance();
        }
    }

    /// Whether the next word is a semicolon, as between two commands of a rule.
    pub fn is_semicolon(&self) -> bool {
        match self.ahead(0) {
            Some(word) => word.kind == WordKind::Semicolon,
            None => false,
        }
    }

    /// Whether the next word is a star.
    pub fn is_star(&self) -> bool {
        match self.ahead(0) {
            Some(word) => word.text.as_str() == "*",
            None => false,
        }
    }

    /// Passes what is left of the list element at the cursor.
    pub fn skip_element(&mut self) {
        for _ in 0..self.words.len() {
            if self.is_at_element_end() {
                break;
            }
            self.skip();
        }
    }

    /// Whether the list element at the cursor ends before the next word: by a comma, a parenthesis, or the
    /// statement's end.
    pub fn is_at_element_end(&self) -> bool {
        self.is_at_end() || self.is_mark(",") || self.is_mark(")")
    }

    /// Goes on after the next `key_word` outside all parentheses, and answers whether there is one. Where
    /// there is none, the cursor goes on to the statement's end.
    pub fn skip_to(&mut self, key_word: &str) -> bool {
        for _ in 0..self.words.len() {
            if self.eat(key_word) {
                return true;
            }
            if self.is_at_end() {
                return false;
            }
            self.skip();
        }
        self.eat(key_word)
    }

    /// Passes the next word, or all that is in parentheses where the next word opens some.
    pub fn skip(&mut self) {
        let mut depth = 0usize;
        for _ in 0..self.words.len() {
            if self.is_mark("(") {
                depth = depth.saturating_add(1);
            } else if self.is_mark(")") {
                depth = depth.saturating_sub(1);
            }
            self.advance();
            if depth == 0 {
                return;
            }
        }
    }

    /// Whether one of the words that are left is `key_word`.
    pub fn has(&self, key_word: &str) -> bool {
        for place in self.place..self.words.len() {
            if self.words[place].is_key_word(key_word) {
                return true;
            }
        }
        false
    }

    /// Whether `key_words` come one after another among the words that are left, outside all parentheses.
    pub fn has_outside(&self, key_words: &[&str]) -> bool {
        let mut depth = 0usize;
        for ahead in 0..self.words.len() {
            if self.is_mark_ahead(ahead, "(") {
                depth = depth.saturating_add(1);
            } else if self.is_mark_ahead(ahead, ")") {
                depth = depth.saturating_sub(1);
            } else if depth == 0 && self.are_ahead(ahead, key_words) {
                return true;
            }
        }
        false
    }

    /// Whether `key_words` come one after another, from the word on that comes `ahead` words after the next
    /// one.
    fn are_ahead(&self, ahead: usize, key_words: &[&str]) -> bool {
        for (place, key_word) in key_words.iter().enumerate() {
            if !self.is_ahead(ahead.saturating_add(place), key_word) {
                return false;
            }
        }
        true
    }

    /// Passes the name that comes next, which is names joined by points, and answers its place. None where no
    /// name comes.
    pub fn name(&mut self) -> Option<NamePlace> {
        let begin = self.place;
        if !self.is_name_ahead(0) {
            return None;
        }
        self.advance();
        for _ in 0..self.words.len() {
            if !self.is_mark(".") || !self.is_name_ahead(1) {
                break;
            }
            self.advance();
            self.advance();
        }
        Some(NamePlace {
            begin,
            end: self.place,
        })
    }

    /// Whether the word that comes `ahead` words after the next one can be a name.
    pub fn is_name_ahead(&self, ahead: usize) -> bool {
        match self.ahead(ahead) {
            Some(word) => word.is_name(),
            None => false,
        }
    }

    /// Whether the words at `place` and `other` are the same name, where letters may be of either case.
    pub fn is_same_name(&self, place: usize, other: usize) -> bool {
        match (self.words.get(place), self.words.get(other)) {
            (Some(word), Some(other)) => word
                .text
                .as_bytes()
                .eq_ignore_ascii_case(other.text.as_bytes()),
            _ => false,
        }
    }
}
