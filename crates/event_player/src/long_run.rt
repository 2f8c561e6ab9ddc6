//! A run of more than 8,000 events, made by a loop.

use crate::play::add;
use anyhow::Result;
use lock_model::{Plain, run_events};
use lock_table::Move;
use lock_world::{Event, Step, Word};
use modes_core::{Mode, SessionId, Tag};
use std::alloc::Global;

/// Whether 2,000 rounds of 64 sessions, played with room from `alloc`, lead to the holds and the words that
/// they should lead to.
pub fn is_right(alloc: Global) -> Result<bool> {
    let mut events = Vec::new(alloc);
    for number in 0..64u16 {
        let Some(session) = SessionId::new(number) else {
            return Ok(false);
        };
        add(&mut events, session, Step::SplitSeat)?;
    }
    for round in 0..2000u32 {
        if !add_round(&mut events, round)? {
            return Ok(false);
        }
    }
    let plain = run_events(alloc, 1, events.as_slice())?;
    Ok(holds_are_right(&plain) && words_are_right(&plain))
}

/// Adds the events of round `round` to `events`. The answer is no where the round's session has no number
/// that a session can have.
fn add_round(events: &mut Vec<Event>, round: u32) -> Result<bool> {
    let number = (round % 64) as u16;
    let Some(session) = SessionId::new(number) else {
        return Ok(false);
    };
    // Sessions 1, 6, 11 and so on ask the one before them.
    if number % 5 == 1 {
        let Some(other) = SessionId::new(number - 1) else {
            return Ok(false);
        };
        add(events, session, Step::AskCancel { other })?;
    }
    // Of no database, so that no mode has to be counted.
    let tag = Tag::relation(0, 16384 + round % 4);
    let partition = tag.partition();
    let shown = (round % 6) as u8;
    add(events, session, Step::LoadWait { shown })?;
    add(events, session, take(partition))?;
    add(events, session, put(partition, done_in(round % 3, tag)))?;
    add(events, session, put(partition, Move::Keep))?;
    Ok(true)
}

/// The step that takes `partition`.
fn take(partition: u8) -> Step {
    Step::TakeExclusive {
        word: Word::Partition(partition),
    }
}

/// The step that puts `partition` back, with the move `done`.
fn put(partition: u8, done: Move) -> Step {
    Step::PutExclusive {
        word: Word::Partition(partition),
        done,
    }
}

/// The move on `tag` that a round makes: a grant where `kind` is 0 or 1, otherwise a release.
fn done_in(kind: u32, tag: Tag) -> Move {
    match kind {
        0 => Move::Grant {
            tag,
            mode: Mode::RowShare,
        },
        1 => Move::Grant {
            tag,
            mode: Mode::Share,
        },
        _ => Move::Release {
            tag,
            mode: Mode::RowShare,
        },
    }
}

/// Whether `plain` has 64 holds at least, in order. Session k meets relation k modulo 4 alone, in all three
/// kinds of rounds, over and over; the last round of each session decides whether its `RowShareLock` is
/// there, and no other session's holds are in the way.
fn holds_are_right(plain: &Plain) -> bool {
    let holds = plain.holds();
    for place in 1..holds.len() {
        if holds[place - 1] >= holds[place] {
            return false;
        }
    }
    holds.len() >= 64
}

/// Whether all partitions of `plain` are free, and just the sessions that were asked to cancel have that in
/// their wait words.
fn words_are_right(plain: &Plain) -> bool {
    for partition in 0..16u8 {
        if plain.word(Word::Partition(partition)) != 0x2000_0000 {
            return false;
        }
    }
    for number in 0..64u16 {
        let Some(session) = SessionId::new(number) else {
            return false;
        };
        let word = if number % 5 == 0 && number < 61 { 4 } else { 0 };
        if plain.word(Word::Wait(session)) != word {
            return false;
        }
    }
    true
}
