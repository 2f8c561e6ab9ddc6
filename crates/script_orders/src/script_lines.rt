//! A script taken apart: the lines that come before all orders, and each session's own.

ghost use Rattle.std.specs.Prelude.{◌≡◌, ◌<◌, ◌-◌, ◌^◌, IfSome, IsSome};
ghost use Rattle.script_orders.specs.Turns.{IsLineAt};

use crate::steps::Step;
use lock_script::{Fault, LineReader, WordKind, command_row, parse_tag, split_words};
use modes_core::Tag;
use std::alloc::{AllocError, Global};
use std::io::Read;

/// A line of a script, with its number in the script.
#[derive(Drop)]
pub struct ScriptLine {
    pub number: u32,
    pub text: String,
}

/// A session of a script: its name, and its lines in their order, but for the one that opens it.
#[derive(Drop)]
pub struct Actor {
    pub name: String,
    pub lines: Vec<ScriptLine>,
}

/// A script taken apart. Lines with no word and comments are left out.
#[derive(Drop)]
pub struct ScriptLines {
    /// The lines that come before all orders: those that open sessions, and those that address none.
    pub opening: Vec<ScriptLine>,
    /// The sessions, in the order of their first lines.
    pub actors: Vec<Actor>,
    /// The sessions of the lines in the script's own order: for each line, whose it is.
    pub own_merge: Vec<usize>,
}

/// What a line of a script is to the orders: whether it is played, and whose it is.
#[derive(Clone, Copy)]
enum LineKind<'a> {
    /// The line has no word, or is a comment.
    Silent,
    /// The line addresses no session.
    Free,
    /// The line opens the session of this name.
    Opens(&'a str),
    /// The line is of the session of this name.
    Of(&'a str),
}

/// Which kind of line `line` is to the orders.
fn kind_of(line: &str) -> LineKind<'_> {
    let words = split_words(line);
    let Some((verb, words)) = words.as_slice().split_first() else {
        return LineKind::Silent;
    };
    if verb.starts_with('#') {
        return LineKind::Silent;
    }
    let Some(name) = words.first() else {
        return LineKind::Free;
    };
    match command_row(*verb) {
        Some(row) => match row.kinds.first() {
            Some(WordKind::FreeName) => LineKind::Opens(*name),
            Some(WordKind::CallerName) => LineKind::Of(*name),
            _ => LineKind::Free,
        },
        None => LineKind::Of(*name),
    }
}

/// The word among the `words` of a line that names another session than the one that acts, if the line's
/// command has such a word.
fn named_word<'a>(words: &[&'a str]) -> Option<&'a str> {
    let verb = words.first()?;
    let place = command_row(*verb)?.place_of(WordKind::OpenName)?;
    words.get(place).copied()
}

/// Whether `line` opens a session.
fn opens(line: &str) -> bool {
    matches!(kind_of(line), LineKind::Opens(_))
}

impl ScriptLine {
    /// The name of another session in the line, beside that of the session that acts, if there is one.
    pub fn named(&self) -> Option<&str> {
        let words = split_words(self.text.as_str());
        named_word(words.as_slice())
    }

    /// Whether the line only looks at locks.
    pub fn looks(&self) -> bool {
        let words = split_words(self.text.as_str());
        match words.as_slice().first() {
            Some(verb) => match command_row(*verb) {
                Some(row) => row.looks,
                None => false,
            },
            None => false,
        }
    }
}

impl ScriptLines {
    /// Reads the script of `reader`, and takes it apart. Refused where it can't be read, and where memory ran
    /// out.
    pub fn read<R: Read + Drop>(alloc: Global, reader: R) -> Result<ScriptLines, Fault> {
        let mut script_lines = ScriptLines {
            opening: Vec::new(alloc),
            actors: Vec::new(alloc),
            own_merge: Vec::new(alloc),
        };
        let mut lines = LineReader::new(reader);
        for _ in 0..u64::MAX {
            let Some(line) = lines.next_line()? else {
                break;
            };
            script_lines
                .add(alloc, lines.number, line.as_str())
                .map_err(|_| Fault::NoMemory)?;
        }
        Ok(script_lines)
    }

    /// Adds `line`, numbered `number` in the script. A line that opens a session of a new name comes before
    /// all orders. Where the name is that of a session that was closed before, the line is one of that
    /// session.
    fn add(&mut self, alloc: Global, number: u32, line: &str) -> Result<(), AllocError> {
        let text = String::from_str(alloc, line)?;
        let added = ScriptLine { number, text };
        match kind_of(line) {
            LineKind::Silent => {}
            LineKind::Free => self.opening.push(added)?,
            LineKind::Opens(name) => match self.place_of(name) {
                Some(place) => self.add_line(place, added)?,
                None => {
                    self.opening.push(added)?;
                    self.place_or_add(alloc, name)?;
                }
            },
            LineKind::Of(name) => {
                let place = self.place_or_add(alloc, name)?;
                self.add_line(place, added)?;
            }
        }
        Ok(())
    }

    /// The place of the session `name` among the script's sessions.
    pub fn place_of(&self, name: &str) -> Option<usize> {
        self.actors
            .iter()
            .position(|actor| actor.name.as_str() == name)
    }

    /// The place of the session `name`, which is added where it is new.
    fn place_or_add(&mut self, alloc: Global, name: &str) -> Result<usize, AllocError> {
        if let Some(place) = self.place_of(name) {
            return Ok(place);
        }
        let place = self.actors.len();
        let name = String::from_str(alloc, name)?;
        let lines = Vec::new(alloc);
        self.actors.push(Actor { name, lines })?;
        Ok(place)
    }

    /// Adds `line` to the lines of the session at `place`.
    fn add_line(&mut self, place: usize, line: ScriptLine) -> Result<(), AllocError> {
        if let Some(actor) = self.actors.get_mut(place) {
            actor.lines.push(line)?;
            self.own_merge.push(place)?;
        }
        Ok(())
    }

    /// The object to which a line that comes before all orders gives `name`, if one does.
    pub fn object_named(&self, name: &str) -> Option<Tag> {
        for line in &self.opening {
            let words = split_words(line.text.as_str());
            if let ["name", other, tag] = words.as_slice() {
                if *other == name {
                    return parse_tag(*tag);
                }
            }
        }
        None
    }

    /// The line of a session that `step` names, if there is one.
    pub fn line(&self, step: Step) -> Option<&ScriptLine>
        ensures found { IfSome result (λ line. IsLineAt self.now step line.now) }
        ensures fits { IsSome result → step.line < 2 ^ 64 - 1 }
    {
        let lines = &self.actors.get(step.session)?.lines;
        if step.line < lines.len() {
            lines.get(step.line)
        } else {
            None
        }
    }

    /// How many lines open a session.
    pub fn sessions_wanted(&self) -> usize {
        let mut wanted = 0usize;
        for line in &self.opening {
            if opens(line.text.as_str()) {
                wanted = wanted.saturating_add(1);
            }
        }
        for actor in &self.actors {
            for line in &actor.lines {
                if opens(line.text.as_str()) {
                    wanted = wanted.saturating_add(1);
                }
            }
        }
        wanted
    }

    /// Whether an order leaves nothing once each of its sessions has aborted: no session opens or closes
    /// within the orders, and none has a lock of its own that an abort leaves it.
    pub fn is_undone_by_aborts(&self) -> bool {
        for actor in &self.actors {
            for line in &actor.lines {
                let words = split_words(line.text.as_str());
                match words.as_slice() {
                    ["session" | "close", ..] | [_, _, _, _, _, ..] => return false,
                    _ => {}
                }
            }
        }
        true
    }

    /// The script in which the lines of `steps` follow those that come before all orders.
    pub fn script(&self, alloc: Global, steps: &[Step]) -> Result<String, AllocError> {
        let mut script = String::new(alloc);
        for line in &self.opening {
            add_text(&mut script, line)?;
        }
        for step in steps {
            if let Some(line) = self.line(*step) {
                add_text(&mut script, line)?;
            }
        }
        Ok(script)
    }
}

/// Adds the text of `line` to `script`, with a line feed.
fn add_text(script: &mut String, line: &ScriptLine) -> Result<(), AllocError> {
    script.push_str(line.text.as_str())?;
    script.push('\n')
}
