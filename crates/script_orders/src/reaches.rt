//! Which lines of different sessions have to do with one another.
//!
//! Two that have not can change places where they are side by side: each session is answered alike, and all
//! is as it was. A line has to do with the objects that it names, and where it ends a transaction or closes
//! its session with all that the session asked for before. Objects of one strong lock counter count as one. A
//! strong lock moves other sessions' fast-path slots, so it has to do with each line that asks for a lock, of
//! a session that asked for a lock on its object before. A line that lists all locks or names another session
//! has to do with every line.

use crate::script_lines::{Actor, ScriptLines};
use lock_script::{parse_strong_index, parse_tag, split_words};
use modes_core::{Mode, Tag, is_strong};
use std::alloc::{AllocError, Global};

/// How many lines a script has at most if `Ties` notes, for each line, how far the lines go that have to do
/// with that line.
const MOST_LINES: usize = 1000;

/// Objects, by their strong lock counters: bit `i % 64` of word `i / 64` is counter `i`.
#[derive(Clone, Copy)]
struct Objects([u64; 16]);

impl Objects {
    const NONE: Objects = Objects([0; 16]);

    /// The objects of the strong lock counter at `index`.
    fn of_counter(index: u16) -> Self {
        let mut words = [0; 16];
        if let Some(word) = words.get_mut((index / 64) as usize) {
            *word = 1u64 << u32::from(index % 64);
        }
        Objects(words)
    }

    /// The objects of this set and of `other`.
    fn and(self, other: Objects) -> Self {
        let mut words = self.0;
        for (word, more) in words.iter_mut().zip(&other.0) {
            *word |= *more;
        }
        Objects(words)
    }

    /// Whether an object is both in this set and in `other`.
    fn meet(&self, other: &Objects) -> bool {
        for (word, its) in self.0.iter().zip(&other.0) {
            if *word & *its != 0 {
                return true;
            }
        }
        false
    }
}

/// What a line has to do with.
#[derive(Clone, Copy)]
struct Reach {
    /// Whether the line has to do with every line.
    is_all: bool,
    /// Whether the line opens a session. The session's number depends on which ones were opened before.
    opens: bool,
    /// The objects that the line asks for, looks at or lets go.
    objects: Objects,
    /// The objects that the line asks for in a strong mode.
    strong: Objects,
    /// The objects that the line's session asked for before, where the line asks for a lock: fast-path slots
    /// of these objects may have been moved.
    in_slots: Objects,
}

impl Reach {
    /// What a line reaches that has to do with no other line.
    const NONE: Reach = Reach {
        is_all: false,
        opens: false,
        objects: Objects::NONE,
        strong: Objects::NONE,
        in_slots: Objects::NONE,
    };

    /// What a line reaches that has to do with every line.
    const ALL: Reach = Reach {
        is_all: true,
        ..Reach::NONE
    };

    /// What a line reaches that has to do with `objects` alone.
    const fn of(objects: Objects) -> Self {
        Reach {
            objects,
            ..Reach::NONE
        }
    }

    /// Whether the line of this reach has to do with that of `other`, which is another session's.
    fn meets(&self, other: &Reach) -> bool {
        self.is_all
            || other.is_all
            || (self.opens && other.opens)
            || self.objects.meet(&other.objects)
            || self.strong.meet(&other.in_slots)
            || other.strong.meet(&self.in_slots)
    }
}

/// What `line` of `script_lines` has to do with, where its session asked for the objects `asked` before. With
/// `ends` the answers to looks at locks are left out, so that most looks have to do with no line.
fn reach_of(script_lines: &ScriptLines, line: &str, asked: Objects, ends: bool) -> Reach {
    let words = split_words(line);
    let Some((verb, words)) = words.as_slice().split_first() else {
        return Reach::NONE;
    };
    match *verb {
        "begin" | "subcommit" | "owned" => Reach::NONE,
        "list" | "queue" | "waiters" | "count" if ends => Reach::NONE,
        "session" => Reach {
            opens: true,
            ..Reach::NONE
        },
        "commit" | "abort" | "subabort" | "unlock_all" | "close" => Reach::of(asked),
        "count" => match counter_of(words) {
            Some(index) => Reach::of(Objects::of_counter(index)),
            None => Reach::ALL,
        },
        "queue" | "waiters" | "unlock" => match object_of(script_lines, words) {
            Some(tag) => Reach::of(Objects::of_counter(tag.strong_index())),
            None => Reach::ALL,
        },
        "lock" | "try" | "fast" => reach_of_request(script_lines, words, asked),
        _ => Reach::ALL,
    }
}

/// The object that the second of `words` names in `script_lines`.
fn object_of(script_lines: &ScriptLines, words: &[&str]) -> Option<Tag> {
    let word = words.get(1)?;
    match parse_tag(*word) {
        Some(tag) => Some(tag),
        None => script_lines.object_named(*word),
    }
}

/// The strong lock counter that the second of `words` names.
fn counter_of(words: &[&str]) -> Option<u16> {
    parse_strong_index(*words.get(1)?)
}

/// What a request for a lock has to do with, whose line in `script_lines` has `words`, where its session
/// asked for the objects `asked` before.
fn reach_of_request(script_lines: &ScriptLines, words: &[&str], asked: Objects) -> Reach {
    let Some(tag) = object_of(script_lines, words) else {
        return Reach::ALL;
    };
    let Some(mode) = words.get(2).copied().and_then(Mode::from_name) else {
        return Reach::ALL;
    };
    let objects = Objects::of_counter(tag.strong_index());
    let strong = if is_strong(tag, mode) {
        objects
    } else {
        Objects::NONE
    };
    Reach {
        objects,
        strong,
        in_slots: asked,
        ..Reach::NONE
    }
}

/// What each line of `actor` in `script_lines` has to do with. With `ends` the answers to looks at locks are
/// left out.
fn reaches_of(
    alloc: Global,
    script_lines: &ScriptLines,
    actor: &Actor,
    ends: bool,
) -> Result<Vec<Reach>, AllocError> {
    let mut reaches = Vec::new(alloc);
    let mut asked = Objects::NONE;
    for line in &actor.lines {
        let reach = reach_of(script_lines, line.text.as_str(), asked, ends);
        asked = asked.and(reach.objects);
        reaches.push(reach)?;
    }
    Ok(reaches)
}

/// Which lines of a script have to do with one another.
#[derive(Drop)]
pub struct Ties {
    /// What each line of each session has to do with.
    reaches: Vec<Vec<Reach>>,
    /// For each line of each session: how many lines each session has up to the last one that has to do with
    /// that line. Empty where the script is large.
    last: Vec<Vec<Vec<usize>>>,
}

impl Ties {
    /// Which lines of `script_lines` have to do with one another. With `ends` the answers to looks at locks
    /// are left out. Refused only where memory, by `alloc`, ran out.
    pub fn new(alloc: Global, script_lines: &ScriptLines, ends: bool) -> Result<Self, AllocError> {
        let mut reaches = Vec::new(alloc);
        for actor in &script_lines.actors {
            reaches.push(reaches_of(alloc, script_lines, actor, ends)?)?;
        }
        let mut ties = Ties {
            reaches,
            last: Vec::new(alloc),
        };
        if script_lines.own_merge.len() <= MOST_LINES {
            for session in 0..ties.reaches.len() {
                let last = ties.last_of_session(alloc, session)?;
                ties.last.push(last)?;
            }
        }
        Ok(ties)
    }

    /// For each line of `session`: how many lines each other session has up to the last one that has to do
    /// with that line.
    fn last_of_session(
        &self,
        alloc: Global,
        session: usize,
    ) -> Result<Vec<Vec<usize>>, AllocError> {
        let mut lines = Vec::new(alloc);
        if let Some(reaches) = self.reaches.get(session) {
            for reach in reaches {
                lines.push(self.last_of(alloc, session, reach)?)?;
            }
        }
        Ok(lines)
    }

    /// How many lines of each session but `session` there are up to the last one that has to do with `reach`.
    fn last_of(
        &self,
        alloc: Global,
        session: usize,
        reach: &Reach,
    ) -> Result<Vec<usize>, AllocError> {
        let mut last = Vec::new(alloc);
        for (other, reaches) in self.reaches.iter().enumerate() {
            let mut lines = 0;
            if other != session {
                for (line, its) in reaches.iter().enumerate() {
                    if its.meets(reach) {
                        lines = line.saturating_add(1);
                    }
                }
            }
            last.push(lines)?;
        }
        Ok(last)
    }

    /// Whether the line numbered `line` of `session` has to do with the line numbered `other_line` of the
    /// session `other`.
    pub fn meet(&self, session: usize, line: usize, other: usize, other_line: usize) -> bool {
        let reach = self.reaches.get(session).and_then(|lines| lines.get(line));
        let its = self
            .reaches
            .get(other)
            .and_then(|lines| lines.get(other_line));
        match (reach, its) {
            (Some(reach), Some(its)) => reach.meets(its),
            _ => true,
        }
    }

    /// Whether a line is left, of another session than `session`, that has to do with the line numbered
    /// `line` of `session`, where of each session the first lines were run, as many as `taken` says. Answers
    /// yes where the script is large.
    pub fn meets_one_left(&self, session: usize, line: usize, taken: &[usize]) -> bool {
        let last = self.last.get(session).and_then(|lines| lines.get(line));
        let Some(last) = last else {
            return true;
        };
        for (lines, run) in last.iter().zip(taken) {
            if run < lines {
                return true;
            }
        }
        false
    }
}
