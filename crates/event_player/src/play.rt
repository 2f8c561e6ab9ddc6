//! The play of a script, line by line.
//!
//! `test NAME` begins a test, with one group of slots a session, or as many as `groups N` says.
//! `given EVENTS` adds events that all of its cases begin with, `case EVENTS` begins a case, `then EVENTS`
//! adds events to it, and `see LOOKS` runs its events and looks at what the machine shows. `tell EVENTS` adds
//! events, and prints the list of holds and waits after each of them. Events and looks are parted by
//! semicolons, their words by blanks; a line that begins with `#` is a comment.

use crate::looks::look;
use crate::one_list::tell;
use crate::steps::parse_step;
use crate::words::{Words, index, mode, session, small_number, tag};
use anyhow::Result;
use lock_model::run_events;
use lock_world::{Event, Step, Word};
use modes_core::{Mode, SessionId, Tag};
use std::alloc::Global;

/// The events of a test.
#[derive(Drop)]
struct Test {
    /// How many groups of slots each session has.
    groups: u8,
    /// The events that all cases begin with.
    given: Vec<Event>,
    /// The events of the case that is played, after those that all cases begin with.
    events: Vec<Event>,
}

/// What playing a line of a script of events came to.
enum Played {
    Well,
    /// The machine shows something else than the line says.
    Wrong,
    /// The line could not be read: a script has no such line.
    Unread,
}

/// Plays `script`, and prints the names of its tests, and the lines that are wrong or cannot be read. The
/// answer is whether there are no such lines.
pub fn play_script(rt: &(impl AllocGlobal + Print), script: &str) -> Result<bool> {
    let alloc = rt.alloc();
    let mut test = Test {
        groups: 1,
        given: Vec::new(alloc),
        events: Vec::new(alloc),
    };
    let mut is_right = true;
    for line in script.lines() {
        if let Some(name) = line.strip_prefix("test ") {
            println!(rt; "  {name}")?;
        }
        let played = match line.strip_prefix("tell ") {
            Some(text) => told(tell(rt, test.groups, &mut test.events, text)?),
            None => play_line(alloc, &mut test, line)?,
        };
        match played {
            Played::Well => {}
            Played::Wrong => {
                println!(rt; "WRONG: {line}")?;
                is_right = false;
            }
            Played::Unread => {
                println!(rt; "UNREAD: {line}")?;
                is_right = false;
            }
        }
    }
    Ok(is_right)
}

/// What a line came to whose events could be read, or could not: `is_read` says which.
fn told(is_read: bool) -> Played {
    if is_read {
        Played::Well
    } else {
        Played::Unread
    }
}

/// Plays `line` of a script: a step or a look of `test`, or the beginning of another test.
fn play_line(alloc: Global, test: &mut Test, line: &str) -> Result<Played> {
    let (verb, rest) = line.split_once(' ').unwrap_or((line, ""));
    match verb {
        "" | "#" => Ok(Played::Well),
        "test" => {
            test.groups = 1;
            test.given.clear();
            test.events.clear();
            Ok(Played::Well)
        }
        "groups" => set_groups(test, rest),
        "given" => add_events(&mut test.given, rest),
        "case" => {
            test.events.clear();
            test.events.extend_from_slice(test.given.as_slice())?;
            add_events(&mut test.events, rest)
        }
        "then" => add_events(&mut test.events, rest),
        "see" => see(alloc, test.groups, test.events.as_slice(), rest),
        _ => Ok(Played::Unread),
    }
}

/// Sets how many groups of slots each session of `test` has, by `text`.
fn set_groups(test: &mut Test, text: &str) -> Result<Played> {
    match small_number(&mut text.split_whitespace()) {
        Some(groups) => {
            test.groups = groups;
            Ok(Played::Well)
        }
        None => Ok(Played::Unread),
    }
}

/// Adds the events that `text` names to `events`.
fn add_events(events: &mut Vec<Event>, text: &str) -> Result<Played> {
    for part in text.split(';') {
        if part.trim().is_empty() {
            continue;
        }
        let mut words = part.split_whitespace();
        if !add_event(events, &mut words)? || words.next().is_some() {
            return Ok(Played::Unread);
        }
    }
    Ok(Played::Well)
}

/// Adds the event that `words` name to `events`, or the events of a walk, and answers whether `words` name an
/// event or a walk.
pub fn add_event(events: &mut Vec<Event>, words: &mut Words) -> Result<bool> {
    let (Some(session), Some(verb)) = (session(words), words.next()) else {
        return Ok(false);
    };
    if verb == "walks" {
        return add_walk(events, session, words);
    }
    let Some(step) = parse_step(verb, words) else {
        return Ok(false);
    };
    add(events, session, step)?;
    Ok(true)
}

/// Adds the event of `session` and `step` to `events`.
pub fn add(events: &mut Vec<Event>, session: SessionId, step: Step) -> Result<()> {
    events.push(Event { session, step })?;
    Ok(())
}

/// Adds to `events` those by which the session `whose` goes past the others that `words` name: for each of
/// these sessions, `whose` takes the lock of its slots, and puts it passing.
fn add_walk(events: &mut Vec<Event>, whose: SessionId, words: &mut Words) -> Result<bool> {
    let Some((first, last, tag, mode)) = parse_walk(words) else {
        return Ok(false);
    };
    for number in first..=last {
        let Some(owner) = SessionId::new(number) else {
            return Ok(false);
        };
        let word = Word::Fast(owner);
        add(events, whose, Step::TakeExclusive { word })?;
        add(events, whose, Step::PutPassing { owner, tag, mode })?;
    }
    Ok(true)
}

/// The first and the last session that a walk goes past, and the strong lock that it is for, by `words`.
fn parse_walk(words: &mut Words) -> Option<(u16, u16, Tag, Mode)> {
    let first = index(words)?;
    let last = index(words)?;
    let tag = tag(words)?;
    let mode = mode(words)?;
    Some((first, last, tag, mode))
}

/// Runs `events` with `groups` groups of slots, and looks whether what they lead to is as `text` says.
fn see(alloc: Global, groups: u8, events: &[Event], text: &str) -> Result<Played> {
    if !(1..=8).contains(&groups) {
        return Ok(Played::Unread);
    }
    let plain = run_events(alloc, groups, events)?;
    for part in text.split(';') {
        let mut words = part.split_whitespace();
        match look(&plain, &mut words) {
            Some(true) => {}
            Some(false) => return Ok(Played::Wrong),
            None => return Ok(Played::Unread),
        }
        if words.next().is_some() {
            return Ok(Played::Unread);
        }
    }
    Ok(Played::Well)
}
