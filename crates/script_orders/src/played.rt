//! What an order showed so far: each session's answers, who waits, and who is open.

use crate::script_lines::ScriptLines;
use lock_script::Name;
use std::alloc::{AllocError, Global};
use std::fmt::Display;

/// What an answer says of the session that is answered.
#[derive(Clone, Copy)]
pub enum News {
    /// The session was opened, and is open.
    Opened,
    /// No session was opened: all that may be were.
    NotOpened,
    /// The session waits for a lock.
    Waits,
    /// The session was closed, and is not open.
    Closed,
    /// The session is open, and doesn't wait.
    Rests,
}

/// Where a session has got to in an order that is played, and what it was answered.
#[derive(Drop)]
struct Standing {
    /// The session's name, once the session was answered something.
    name: Option<Name>,
    is_open: bool,
    waits: bool,
    /// What the session was answered, one answer after the other.
    answers: String,
    /// How many lines of the order were run when the session was answered something last, with the line that
    /// was answered.
    told_at: usize,
}

/// What was seen so far of an order that is played: its sessions, and what each was answered.
#[derive(Drop)]
pub struct Played {
    standings: Vec<Standing>,
    /// Whether a line that opens a session was refused, since all that may be were opened.
    pub was_refused: bool,
}

impl Played {
    /// What was seen of an order of `sessions` sessions, of which nothing was played yet.
    pub fn new(alloc: Global, sessions: usize) -> Result<Self, AllocError> {
        let mut standings = Vec::new(alloc);
        for _ in 0..sessions {
            standings.push(Standing {
                name: None,
                is_open: false,
                waits: false,
                answers: String::new(alloc),
                told_at: 0,
            })?;
        }
        Ok(Played {
            standings,
            was_refused: false,
        })
    }

    /// Begins another order. The sessions that are open stay open.
    pub fn begin_order(&mut self) {
        for standing in &mut self.standings {
            standing.waits = false;
            standing.answers.clear();
            standing.told_at = 0;
        }
    }

    /// Whether the session at the place `session` of the script waits.
    pub fn waits(&self, session: usize) -> bool {
        self.standings
            .get(session)
            .is_some_and(|standing| standing.waits)
    }

    /// Whether the session at the place `session` of the script is open.
    pub fn is_open(&self, session: usize) -> bool {
        self.standings
            .get(session)
            .is_some_and(|standing| standing.is_open)
    }

    /// How many lines of the order were run when the session at the place `session` was answered something
    /// last, with the line that was answered.
    pub fn told_at(&self, session: usize) -> usize {
        self.standings
            .get(session)
            .map_or(0, |standing| standing.told_at)
    }

    /// Notes what the session at the place `session`, called `name`, was answered: `news` says what has
    /// become of it, and `lines` how many lines were run by then.
    pub fn hear(&mut self, session: usize, name: Name, news: News, lines: usize) {
        if news == News::NotOpened {
            self.was_refused = true;
        }
        if let Some(standing) = self.standings.get_mut(session) {
            standing.name = Some(name);
            standing.told_at = lines;
            standing.waits = news == News::Waits;
            match news {
                News::Opened => standing.is_open = true,
                News::Closed | News::NotOpened => standing.is_open = false,
                News::Waits | News::Rests => {}
            }
        }
    }

    /// Adds `text` to the answers of the session at the place `session`.
    pub fn add_answer<D: Display + Drop>(
        &mut self,
        session: usize,
        text: D,
    ) -> Result<(), AllocError> {
        if let Some(standing) = self.standings.get_mut(session) {
            if standing.answers.len() > 0 {
                standing.answers.push_str("; ")?;
            }
            write!(standing.answers, "{text}")?;
        }
        Ok(())
    }

    /// The names of the sessions that are open, in a list that grows by `alloc`.
    pub fn open_names(&self, alloc: Global) -> Result<Vec<Name>, AllocError> {
        let mut names = Vec::new(alloc);
        for standing in &self.standings {
            if standing.is_open {
                if let Some(name) = standing.name {
                    names.push(name)?;
                }
            }
        }
        Ok(names)
    }

    /// Describes an order in which the first lines of each session of `script_lines` were run, as many as
    /// `taken` says: the answers of each session, who waits, and the lines that were not reached.
    pub fn tell(
        &self,
        alloc: Global,
        script_lines: &ScriptLines,
        taken: &[usize],
    ) -> Result<String, AllocError> {
        let mut told = String::new(alloc);
        if script_lines.actors.is_empty() {
            told.push_str("#   no line addresses a session\n")?;
        }
        for (actor, standing) in script_lines.actors.iter().zip(&self.standings) {
            let answers = or_nothing(standing.answers.as_str());
            write!(told, "#   {}: {}\n", actor.name, answers)?;
        }
        self.tell_who_waits(&mut told, script_lines)?;
        tell_what_is_left(&mut told, script_lines, taken)?;
        Ok(told)
    }

    /// Adds to `told` which sessions of `script_lines` wait, if one does.
    fn tell_who_waits(
        &self,
        told: &mut String,
        script_lines: &ScriptLines,
    ) -> Result<(), AllocError> {
        let mut is_any = false;
        for (actor, standing) in script_lines.actors.iter().zip(&self.standings) {
            if standing.waits {
                told.push_str(if is_any { ", " } else { "#   left waiting: " })?;
                told.push_str(actor.name.as_str())?;
                is_any = true;
            }
        }
        end_line(told, is_any)
    }
}

/// Adds to `told` the lines of `script_lines` that were not reached, session by session, if there are any. Of
/// each session the first lines were run, as many as `taken` says.
fn tell_what_is_left(
    told: &mut String,
    script_lines: &ScriptLines,
    taken: &[usize],
) -> Result<(), AllocError> {
    let mut is_any = false;
    for (actor, lines) in script_lines.actors.iter().zip(taken) {
        for line in actor.lines.iter().skip(*lines) {
            told.push_str(if is_any { "; " } else { "#   not reached: " })?;
            told.push_str(line.text.as_str().trim())?;
            is_any = true;
        }
    }
    end_line(told, is_any)
}

/// The `answers` of a session, or a word that says that there are none.
fn or_nothing(answers: &str) -> &str {
    if answers.is_empty() {
        "nothing"
    } else {
        answers
    }
}

/// Ends the last line of `told` with a line feed, if `is_any` says that this line has something.
fn end_line(told: &mut String, is_any: bool) -> Result<(), AllocError> {
    if is_any { told.push('\n') } else { Ok(()) }
}
