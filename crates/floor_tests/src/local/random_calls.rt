//! Random calls on a local table, beside a plain list of what a session holds.

use super::acquires::{acquire, acquire_in_one_look, new_table, next};
use super::turns::entries_of;
use local_locks::{Acquired, End, LocalTable, MOST_LEVELS, Unlocked};
use modes_core::{LockMethod, Mode, Owner, Refusal, Tag};
use rand_core::{Rng, SeedableRng};
use rand_xoshiro::Xoshiro256PlusPlus;
use std::alloc::Global;
use std::process::Abort;

/// One count of an object and mode, which the session owns (level 0), or a level of its transaction.
#[derive(Clone, Copy, PartialEq)]
struct Count {
    tag: Tag,
    mode: Mode,
    level: u8,
}

/// What a session holds, and the number of its transaction's innermost level.
#[derive(Drop)]
struct Plain {
    counts: Vec<Count>,
    level: u8,
}

impl Plain {
    /// The count that `owner` has of `tag` in `mode`, if any.
    fn count_of(&self, tag: Tag, mode: Mode, owner: Owner) -> Count {
        let level = match owner {
            Owner::Session => 0,
            Owner::Transaction => self.level,
        };
        Count { tag, mode, level }
    }

    /// Whether anybody has `tag` in `mode`.
    fn has(&self, tag: Tag, mode: Mode) -> bool {
        self.counts
            .iter()
            .any(|count| count.tag == tag && count.mode == mode)
    }

    /// How often `wanted` is there.
    fn times(&self, wanted: Count) -> u16 {
        let mut times = 0u16;
        for count in &self.counts {
            if *count == wanted {
                times = times.saturating_add(1);
            }
        }
        times
    }

    /// Takes `wanted` away once, and answers whether it was there.
    fn take(&mut self, wanted: Count) -> bool {
        match self.counts.iter().position(|count| *count == wanted) {
            Some(place) if place < self.counts.len() => {
                self.counts.remove(place);
                true
            }
            _ => false,
        }
    }
}

/// A list with nothing in it, at the second attempt where there was no memory.
fn new_plain(rt: &impl Abort, alloc: Global) -> Plain {
    let counts = match Vec::with_capacity(alloc, 4096) {
        Ok(counts) => counts,
        Err(_) => Vec::with_capacity(alloc, 4096).expect(rt, "memory"),
    };
    Plain { counts, level: 1 }
}

const MODES: [Mode; 4] = [
    Mode::AccessShare,
    Mode::RowShare,
    Mode::RowExclusive,
    Mode::AccessExclusive,
];

/// One of 32 tags, one of four modes and an owner, in a quarter of the cases the session, by some bits of
/// `random`.
fn asked(random: u32) -> (Tag, Mode, Owner) {
    let number = random >> 20 & 15;
    let tag = if random >> 19 & 1 == 0 {
        Tag::relation(5, number)
    } else if number < 8 {
        Tag::object(5, 1259, number, 0)
    } else {
        Tag::advisory(5, 1259, number, 0)
    };
    let owner = if random >> 15 & 3 == 0 {
        Owner::Session
    } else {
        Owner::Transaction
    };
    (tag, MODES[(random >> 17 & 3) as usize], owner)
}

/// Acquires `tag` in `mode` for `owner` in `table` and `plain`, in one look or in two, and answers whether
/// `table` answers rightly.
fn acquire_both(
    rt: &impl Abort,
    table: &mut LocalTable,
    plain: &mut Plain,
    (tag, mode, owner): (Tag, Mode, Owner),
    in_one_look: bool,
) -> bool {
    let wanted = if plain.has(tag, mode) {
        Acquired::AlreadyHeld
    } else {
        Acquired::Granted
    };
    let count = plain.count_of(tag, mode, owner);
    assert!(rt; plain.counts.push(count).is_ok());
    if in_one_look {
        acquire_in_one_look(table, tag, mode, owner) == Ok(wanted)
    } else {
        acquire(rt, table, tag, mode, owner) == Ok(wanted)
    }
}

/// Releases `tag` in `mode` for `owner` in `table` and `plain`, and answers whether `table` answers rightly.
fn release_both(
    table: &mut LocalTable,
    plain: &mut Plain,
    (tag, mode, owner): (Tag, Mode, Owner),
) -> bool {
    let answer = table.drop_one(tag, mode, owner);
    if !plain.take(plain.count_of(tag, mode, owner)) {
        return answer == Err(Refusal::NotHeld);
    }
    let wanted = if plain.has(tag, mode) {
        Unlocked::StillHeld
    } else {
        Unlocked::Released
    };
    answer == Ok(wanted)
}

/// Begins a level in `table` and `plain`, and answers whether `table` answers rightly.
fn begin_both(table: &mut LocalTable, plain: &mut Plain) -> bool {
    if usize::from(plain.level) >= usize::from(MOST_LEVELS) {
        return table.begin_nested() == Err(Refusal::TooDeep);
    }
    plain.level = plain.level.saturating_add(1);
    table.begin_nested() == Ok(plain.level)
}

/// Hands the innermost level up in `table` and `plain`, and answers whether `table` answers rightly.
fn hand_up_both(table: &mut LocalTable, plain: &mut Plain) -> bool {
    if plain.level <= 1 {
        return table.hand_up() == Err(Refusal::NoNested);
    }
    let outer = plain.level.saturating_sub(1);
    for count in &mut plain.counts {
        if count.level > outer {
            count.level = outer;
        }
    }
    plain.level = outer;
    table.hand_up() == Ok(outer)
}

/// Whether `end` keeps `count`, where `inner` is the innermost level.
fn keeps(end: End, count: Count, inner: u8) -> bool {
    match end {
        End::Inner => count.level != inner,
        End::Commit => count.level == 0,
        End::Abort => count.level == 0 && count.tag.method() == LockMethod::User,
        End::Close => false,
    }
}

/// Ends `table` and `plain` by `end`, and answers whether `table` gives as many entries as it loses, each of
/// them one that `plain` loses.
fn end_both(rt: &impl Abort, table: &mut LocalTable, plain: &mut Plain, end: End) -> bool {
    let inner = plain.level;
    plain.level = if end == End::Inner {
        inner.saturating_sub(1)
    } else {
        1
    };
    let mut left = entries_of(table);
    plain.counts.retain(|count| keeps(end, *count, inner));
    for _ in 0..200u32 {
        let Some((tag, mode)) = next(rt, table, end) else {
            return entries_of(table) == left;
        };
        if plain.has(tag, mode) {
            return false;
        }
        left = left.saturating_sub(1);
    }
    false
}

/// Makes a call on `table` and `plain`, by some bits of `random`, and answers whether `table` answers
/// rightly.
fn call_both(rt: &impl Abort, table: &mut LocalTable, plain: &mut Plain, random: u32) -> bool {
    let what = asked(random);
    match random >> 24 {
        0..=115 => acquire_both(rt, table, plain, what, random >> 14 & 1 == 0),
        116..=219 => release_both(table, plain, what),
        220..=235 => begin_both(table, plain),
        236..=243 => hand_up_both(table, plain),
        244..=252 if plain.level > 1 => end_both(rt, table, plain, End::Inner),
        253 => end_both(rt, table, plain, End::Commit),
        254 => end_both(rt, table, plain, End::Close),
        _ => end_both(rt, table, plain, End::Abort),
    }
}

/// Whether `table` has the counts of `plain`, and no other.
fn is_same(rt: &impl Abort, table: &LocalTable, plain: &Plain) -> bool {
    let mut counts = 0usize;
    for entry in table.entries() {
        let (tag, mode) = (entry.tag, entry.mode);
        let mut transaction = 0u16;
        for level in 1..=plain.level {
            assert!(rt; level >= 1 && level <= table.level());
            let times = plain.times(Count { tag, mode, level });
            if table.level_count(tag, mode, level) != times {
                return false;
            }
            transaction = transaction.saturating_add(times);
        }
        let session = plain.times(Count {
            tag,
            mode,
            level: 0,
        });
        if (entry.session, entry.transaction) != (session, transaction) {
            return false;
        }
        counts = counts.saturating_add(usize::from(session) + usize::from(transaction));
    }
    counts == plain.counts.len()
}

#[test]
fn random_calls_are_as_on_a_plain_list(rt: HostRuntime) {
    let mut table = new_table(&rt, rt.alloc(), 1024);
    let mut plain = new_plain(&rt, rt.alloc());
    let mut generator = Xoshiro256PlusPlus::seed_from_u64(11);
    for step in 0..100_000u32 {
        let is_right = call_both(&rt, &mut table, &mut plain, generator.next_u32());
        assert!(rt; is_right, "call {step}");
        if step % 50 == 0 {
            assert!(rt; is_same(&rt, &table, &plain), "after {step}");
        }
    }
}
