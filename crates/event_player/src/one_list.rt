//! The one list of holds and waits, told event by event.

ghost use Rattle.std.specs.Prelude.{◌≤◌};

use crate::play::add_event;
use anyhow::Result;
use lock_model::{Plain, run_events};
use lock_world::Event;
use std::alloc::Global;

/// Adds the events that `text` names to `events`, one after another, and prints by `rt` what each of them
/// makes of the list that the machine shows, with `groups` groups of slots a session: the list after it, or
/// that it makes no move. The answer is whether `text` names events, and the machine has that many groups.
pub fn tell(
    rt: &(impl AllocGlobal + Print),
    groups: u8,
    events: &mut Vec<Event>,
    text: &str,
) -> Result<bool> {
    if !(1..=8).contains(&groups) {
        return Ok(false);
    }
    let alloc = rt.alloc();
    let mut before = shown(alloc, groups, events.as_slice())?;
    for part in text.split(';') {
        let mut words = part.split_whitespace();
        if !add_event(events, &mut words)? || words.next().is_some() {
            return Ok(false);
        }
        let after = shown(alloc, groups, events.as_slice())?;
        let event = part.trim();
        if after.as_str() == before.as_str() {
            println!(rt; "    {event}: no move")?;
        } else {
            println!(rt; "    {event}: {after}")?;
        }
        before = after;
    }
    Ok(true)
}

/// The list that the machine shows after `events`, with `groups` groups of slots a session.
fn shown(alloc: Global, groups: u8, events: &[Event]) -> Result<String>
    requires from { 1 ≤ groups }
    requires to { groups ≤ 8 }
{
    let plain = run_events(alloc, groups, events)?;
    list_text(alloc, &plain)
}

/// The list that `plain` shows as a text: each hold, wherever it is recorded, and then the waits, those of
/// one object in the order of its queue; or that it is empty.
fn list_text(alloc: Global, plain: &Plain) -> Result<String> {
    let mut text = String::new(alloc);
    if plain.holds().is_empty() && plain.waits().is_empty() {
        text.push_str("empty")?;
    }
    for hold in plain.holds() {
        let session = hold.session.number();
        let tag = hold.tag;
        let mode = hold.mode;
        let row = format!(in alloc; "[{session} has {tag} {mode}]")?;
        text.push_str(row.as_str())?;
    }
    for wait in plain.waits() {
        let session = wait.session.number();
        let tag = wait.tag;
        let mode = wait.mode;
        let row = format!(in alloc; "[{session} awaits {tag} {mode}]")?;
        text.push_str(row.as_str())?;
    }
    Ok(text)
}
