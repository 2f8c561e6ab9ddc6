//! The words of a script for numbers, sessions, tags, modes, words of the shared table and moves. Each
//! function takes the words that it needs, and answers `None` where they are others.

use lock_table::Move;
use lock_world::Word;
use modes_core::{Mode, SessionId, Tag};
use std::str::SplitWhitespace;

/// The words of a script's line that are not yet read.
pub type Words<'a> = SplitWhitespace<'a>;

/// A number up to 255, by the next of `words`.
pub fn small_number(words: &mut Words) -> Option<u8> {
    words.next()?.parse::<u8>().ok()
}

/// A number up to 65,535, by the next of `words`.
pub fn index(words: &mut Words) -> Option<u16> {
    words.next()?.parse::<u16>().ok()
}

/// A number, by the next of `words`.
pub fn number(words: &mut Words) -> Option<u64> {
    words.next()?.parse::<u64>().ok()
}

/// A session, by its number in the next of `words`.
pub fn session(words: &mut Words) -> Option<SessionId> {
    SessionId::new(index(words)?)
}

/// A database, by the next of `words`.
pub fn database(words: &mut Words) -> Option<u32> {
    words.next()?.parse::<u32>().ok()
}

/// What a word shows, by the next of `words`: numbers, and names of bits, joined by `+`.
pub fn shown(words: &mut Words) -> Option<u64> {
    let mut sum = 0u64;
    for part in words.next()?.split('+') {
        sum = sum.checked_add(part_of_shown(part)?)?;
    }
    Some(sum)
}

/// What `part` adds to the value that a word shows: a number, or a name of bits.
fn part_of_shown(part: &str) -> Option<u64> {
    match part {
        "free" => Some(0x2000_0000),
        "held" => Some(0x2100_0000),
        "exclusive" => Some(0x0100_0000),
        "list_locked" => Some(0x1000_0000),
        "has_waiters" => Some(0x4000_0000),
        "access_share" => Some(0x1_0000_0000),
        "row_share" => Some(0x2_0000_0000),
        "row_exclusive" => Some(0x4_0000_0000),
        _ => part.parse::<u64>().ok(),
    }
}

/// Whether the next of `words` is `yes`; `None` where it is neither `yes` nor `no`.
pub fn answer(words: &mut Words) -> Option<bool> {
    match words.next()? {
        "yes" => Some(true),
        "no" => Some(false),
        _ => None,
    }
}

/// A mode, by its name in the next of `words`.
pub fn mode(words: &mut Words) -> Option<Mode> {
    Mode::from_name(words.next()?)
}

/// A tag, by the next of `words`: `DB/REL` is a relation, `DB/CLASS/OBJ/SUB` an object and `adv/DB/K1/K2/SUB`
/// what an advisory lock is on.
pub fn tag(words: &mut Words) -> Option<Tag> {
    let word = words.next()?;
    if let Some(numbers) = word.strip_prefix("adv/") {
        return advisory_tag(numbers);
    }
    let mut numbers = word.split('/');
    let database = numbers.next()?.parse::<u32>().ok()?;
    let class = numbers.next()?.parse::<u32>().ok()?;
    let Some(object) = numbers.next() else {
        return Some(Tag::relation(database, class));
    };
    let object = object.parse::<u32>().ok()?;
    let sub_object = numbers.next()?.parse::<u16>().ok()?;
    Some(Tag::object(database, class, object, sub_object))
}

/// What an advisory lock is on, by its four `numbers`.
fn advisory_tag(numbers: &str) -> Option<Tag> {
    let mut numbers = numbers.split('/');
    let database = numbers.next()?.parse::<u32>().ok()?;
    let key1 = numbers.next()?.parse::<u32>().ok()?;
    let key2 = numbers.next()?.parse::<u32>().ok()?;
    let sub = numbers.next()?.parse::<u16>().ok()?;
    Some(Tag::advisory(database, key1, key2, sub))
}

/// A word of the shared table, by the next of `words`.
pub fn word(words: &mut Words) -> Option<Word> {
    match words.next()? {
        "partition" => Some(Word::Partition(small_number(words)?)),
        "fast" => Some(Word::Fast(session(words)?)),
        "database" => Some(Word::Database(session(words)?)),
        "slot" => {
            let owner = session(words)?;
            Some(Word::Slot(owner, small_number(words)?))
        }
        "wait" => Some(Word::Wait(session(words)?)),
        "counter" => Some(Word::Strong(index(words)?)),
        "sleep" => Some(Word::Sleep(session(words)?)),
        _ => None,
    }
}

/// A move of a partition's content, by the next of `words`.
pub fn done(words: &mut Words) -> Option<Move> {
    match words.next()? {
        "keep" => Some(Move::Keep),
        "grant" => {
            let tag = tag(words)?;
            let mode = mode(words)?;
            Some(Move::Grant { tag, mode })
        }
        "join" => {
            let tag = tag(words)?;
            let mode = mode(words)?;
            Some(Move::Join { tag, mode })
        }
        "release" => {
            let tag = tag(words)?;
            let mode = mode(words)?;
            Some(Move::Release { tag, mode })
        }
        "leave" => Some(Move::Leave { tag: tag(words)? }),
        "adopt" => {
            let owner = index(words)?;
            let slot = small_number(words)?;
            Some(Move::Adopt { owner, slot })
        }
        _ => None,
    }
}
