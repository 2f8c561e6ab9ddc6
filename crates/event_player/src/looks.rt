//! The looks of a script: what the machine is to show.

use crate::steps::list_mode;
use crate::words::{Words, index, mode, number, session, shown, small_number, tag, word};
use lock_model::{Hold, Plain, Spot};
use lock_world::Word;
use lw_word::LwWaiter;
use modes_core::SessionId;

/// Whether `plain` is as the look in `words` says, or `None` where `words` are no look.
pub fn look(plain: &Plain, words: &mut Words) -> Option<bool> {
    match words.next()? {
        "word" => {
            let word = word(words)?;
            Some(plain.word(word) == shown(words)?)
        }
        "words" => words_show(plain, words),
        "count" => {
            let index = index(words)?;
            Some(plain.counter(index) == number(words)?)
        }
        "counts" => counters_show(plain, words),
        "holds" => Some(plain.holds().len() as u64 == number(words)?),
        "table_holds" => Some(holds_in_table(plain) == number(words)?),
        "hold" => hold_is(plain, words),
        "waits" => Some(plain.waits().len() as u64 == number(words)?),
        "wait" => wait_is(plain, words),
        "wait_held" => wait_held_is(plain, words),
        "sleepers" => Some(plain.sleepers().len() as u64 == number(words)?),
        "sleeper" => sleeper_is(plain, words),
        _ => None,
    }
}

/// Whether in `plain` the words of one kind, from a first number to a last one, all show one value: `words`
/// name the kind, both numbers and the value.
fn words_show(plain: &Plain, words: &mut Words) -> Option<bool> {
    let kind = words.next()?;
    let first = index(words)?;
    let last = index(words)?;
    let shown = shown(words)?;
    for number in first..=last {
        if plain.word(numbered_word(kind, number)?) != shown {
            return Some(false);
        }
    }
    Some(true)
}

/// The word of the shared table of this `kind` with the number `number`.
fn numbered_word(kind: &str, number: u16) -> Option<Word> {
    match kind {
        "partition" => Some(Word::Partition(u8::try_from(number).ok()?)),
        "fast" => Some(Word::Fast(SessionId::new(number)?)),
        "wait" => Some(Word::Wait(SessionId::new(number)?)),
        "sleep" => Some(Word::Sleep(SessionId::new(number)?)),
        _ => None,
    }
}

/// Whether in `plain` the strong lock counters, from a first index to a last one, all show one value: `words`
/// name both indexes and the value.
fn counters_show(plain: &Plain, words: &mut Words) -> Option<bool> {
    let first = index(words)?;
    let last = index(words)?;
    let shown = number(words)?;
    for index in first..=last {
        if plain.counter(index) != shown {
            return Some(false);
        }
    }
    Some(true)
}

/// How many of the holds of `plain` are in the lock table.
fn holds_in_table(plain: &Plain) -> u64 {
    plain
        .holds()
        .iter()
        .filter(|hold| hold.spot == Spot::Table)
        .count() as u64
}

/// Whether the hold of `plain` at a place is the one that `words` say: they name the place and the hold.
fn hold_is(plain: &Plain, words: &mut Words) -> Option<bool> {
    let place = usize::from(small_number(words)?);
    let expected = Hold {
        session: session(words)?,
        tag: tag(words)?,
        mode: mode(words)?,
        spot: spot(words)?,
    };
    Some(plain.holds().get(place) == Some(&expected))
}

/// Where a hold is recorded, by the next of `words`: in the table, or in the slot of a number.
fn spot(words: &mut Words) -> Option<Spot> {
    match words.next()? {
        "table" => Some(Spot::Table),
        "slot" => Some(Spot::Slot(small_number(words)?)),
        _ => None,
    }
}

/// Whether the wait of `plain` at a place is the one that `words` say: they name the place and the wait.
fn wait_is(plain: &Plain, words: &mut Words) -> Option<bool> {
    let place = usize::from(small_number(words)?);
    let session = session(words)?;
    let tag = tag(words)?;
    let mode = mode(words)?;
    match plain.waits().get(place) {
        Some(wait) => Some(wait.session == session && wait.tag == tag && wait.mode == mode),
        None => Some(false),
    }
}

/// Whether in `plain` the wait at a place has the mask that `words` say, of the modes that its session held
/// when it joined the queue.
fn wait_held_is(plain: &Plain, words: &mut Words) -> Option<bool> {
    let place = usize::from(small_number(words)?);
    let mask = index(words)?;
    match plain.waits().get(place) {
        Some(wait) => Some(wait.held.mask() == mask),
        None => Some(false),
    }
}

/// Whether the sleeper of `plain` at a place is the one that `words` say: they name the place and the
/// sleeper.
fn sleeper_is(plain: &Plain, words: &mut Words) -> Option<bool> {
    let place = usize::from(small_number(words)?);
    let lock = index(words)?;
    let session = session(words)?;
    let mode = list_mode(words)?;
    match plain.sleepers().get(place) {
        Some(sleeper) => {
            let waiter = LwWaiter { session, mode };
            Some(sleeper.lock == lock && sleeper.waiter == waiter)
        }
        None => Some(false),
    }
}
