//! The local lock table alone, beside a hash map: what is done with it, its doors, and the loops over them
//! that are timed.

ghost use Rattle.std.specs.Prelude.{◌≡◌, ◌≢◌, false};
ghost use Rattle.local_locks.specs.Owned.{has_entry};

use crate::keys::{FEW, Key, Keys, LISTED, WEAK};
use crate::plain::{Plain, pass};
use crate::round::Taken;
use crate::times::used;
use anyhow::Result;
use local_locks::{AtOnce, End, LocalTable};
use modes_core::{Mode, Owner, Tag};
use std::alloc::{AllocError, Global};
use std::collections::HashMap;
use std::time::CpuClock;

/// How many entries a local lock table may have.
const MAX_LOCAL: u32 = 65_536;

/// What is done with each key of a list on a local lock table, or on a map that holds the same keys.
#[derive(Clone, Copy)]
pub enum Local {
    /// The key is acquired and released: one that the table holds, a new one, or one of an object.
    HeldPair,
    NewPair,
    ObjectPair,
    /// A table that holds the keys is made anew, and a commit in it is timed.
    Commit,
    /// The key is acquired, and after all keys released, in the first level.
    InLevel,
    /// The key is acquired in a level that is handed up, and after all keys released.
    HandUp,
    /// The key is acquired in a level that is dropped: one of ten, or one that the table holds already.
    DropLevel,
    DropLevelOfHeld,
    /// The key is looked up in the map.
    LookUp,
    /// The key is inserted into the map and removed.
    MapPair,
}

impl Local {
    /// What it is called in a table.
    pub fn name(self) -> &'static str {
        match self {
            Local::HeldPair => "local table: held pair",
            Local::NewPair => "local table: new pair",
            Local::ObjectPair => "local table: new pair of an object",
            Local::Commit => "local table: commit, for each",
            Local::InLevel => "ten in the first level, for each",
            Local::HandUp => "level of ten, handed up, for each",
            Local::DropLevel => "level of ten, dropped, for each",
            Local::DropLevelOfHeld => "level of all held, dropped, for each",
            _ => "map",
        }
    }

    /// The keys that are worked with, where the table holds `held` entries.
    pub fn keys(self, held: u32) -> Keys {
        match self {
            Local::NewPair => WEAK.after(held),
            Local::ObjectPair => LISTED.first(1_000),
            Local::InLevel | Local::HandUp | Local::DropLevel => FEW,
            _ => WEAK.first(held),
        }
    }

    /// What is timed beside it: what is taken off, and the same keys on the map.
    pub fn compared(self) -> [Plain; 3] {
        let (empty, map) = match self {
            Local::HeldPair => (Plain::TwoCalls, Local::LookUp),
            Local::Commit => (Plain::Readings, Local::MapPair),
            _ => (Plain::TwoCalls, Local::MapPair),
        };
        [empty, Plain::Nothing, Plain::Local(map)]
    }
}

/// What a local lock table was indexed by before, with which it is compared: the library's hash map with the
/// derived key.
pub type KeyMap = HashMap<(Tag, Mode), u32>;

/// A local lock table and a map, both of which hold the same keys.
#[derive(Drop)]
pub struct LocalBed {
    table: LocalTable,
    map: KeyMap,
    alloc: Global,
}

/// A local lock table that holds `keys`, as many of them as it could be given.
fn table_with(alloc: Global, keys: &[Key]) -> Result<LocalTable> {
    let mut table = LocalTable::new(alloc, MAX_LOCAL)?;
    acquire_all(&mut table, keys, Owner::Transaction);
    Ok(table)
}

impl LocalBed {
    /// A bed whose table and map hold `keys`.
    pub fn new(alloc: Global, keys: &[Key]) -> Result<Self> {
        let mut map = HashMap::new(alloc);
        for (tag, mode) in keys {
            insert(&mut map, tag, *mode, 0)?;
        }
        Ok(LocalBed {
            table: table_with(alloc, keys)?,
            map,
            alloc,
        })
    }

    /// Does once what `local` says with each of `keys` for `owner`. Answers whether all was done.
    fn make_lap(&mut self, local: Local, keys: &[Key], owner: Owner) -> bool {
        let table = &mut self.table;
        match local {
            Local::LookUp => look_up_all(&self.map, keys, owner),
            Local::MapPair => map_pairs(&mut self.map, keys),
            Local::InLevel => acquire_all(table, keys, owner) && release_all(table, keys, owner),
            Local::HandUp => hand_up(table, keys, owner),
            Local::DropLevel | Local::DropLevelOfHeld => drop_level(table, keys, owner),
            _ => pairs(table, keys, owner),
        }
    }

    /// Does what `local` says with `keys` for `owner`, `laps` times. A step counts for each key, while all is
    /// done.
    pub fn make<R: CpuClock>(
        &mut self,
        rt: &R,
        local: Local,
        keys: &[Key],
        owner: Owner,
        laps: u32,
    ) -> Taken {
        if let Local::Commit = local {
            return commits(rt, self.alloc, keys, laps);
        }
        let mut done = 0u64;
        for _ in 0..laps {
            if !self.make_lap(local, keys, owner) {
                break;
            }
            done = done.wrapping_add(keys.len() as u64);
        }
        Taken::none().counting(done)
    }
}

/// Commits in a table that holds `keys`, `laps` times, each time in a new one. The commits alone are timed.
fn commits<R: CpuClock>(rt: &R, alloc: Global, keys: &[Key], laps: u32) -> Taken {
    let mut taken = Taken::none();
    for _ in 0..laps {
        if let Ok(mut table) = table_with(alloc, keys) {
            let from = used(rt);
            let ended = commit(&mut table);
            let to = used(rt);
            taken = taken.using(to.saturating_sub(from)).counting(ended);
        }
    }
    taken
}

/// Acquires `tag` in `mode` for `owner` in `table`, and answers whether that was done. The answer is in a
/// register, as are those of the functions for the map.
#[inline(never)]
fn acquire(table: &mut LocalTable, tag: &Tag, mode: Mode, owner: Owner) -> bool {
    let known = table.add_at_once(tag, mode, owner);
    known == AtOnce::AlreadyHeld || acquire_further(table, tag, mode, owner, known)
}

/// Acquires `tag` in `mode` for `owner` in `table` where `known`, the answer of a first look, is that the
/// lock isn't held, or leaves open whether it is. A call of its own, so that `acquire` goes without what this
/// function needs.
#[inline(never)]
fn acquire_further(
    table: &mut LocalTable,
    tag: &Tag,
    mode: Mode,
    owner: Owner,
    known: AtOnce,
) -> bool
    requires { known ≡ AtOnce.NotHeld → has_entry table.old.entries tag.now mode ≡ false }
{
    if known != AtOnce::NotHeld {
        return acquire_looked_up(table, tag, mode, owner);
    }
    if !table.can_add() {
        return acquire_grown(table, tag, mode, owner);
    }
    table.add_new(tag, mode, owner);
    true
}

/// Acquires `tag` in `mode` for `owner` in `table` where only a whole look-up shows whether the lock is held.
#[cold]
#[inline(never)]
fn acquire_looked_up(table: &mut LocalTable, tag: &Tag, mode: Mode, owner: Owner) -> bool {
    match table.add_held(tag, mode, owner) {
        Ok(true) => true,
        Ok(false) => acquire_grown(table, tag, mode, owner),
        Err(_) => false,
    }
}

/// Acquires `tag` in `mode`, which isn't held, for `owner`, where `table` may be full or has to grow.
#[cold]
#[inline(never)]
fn acquire_grown(table: &mut LocalTable, tag: &Tag, mode: Mode, owner: Owner) -> bool
    requires { has_entry table.old.entries tag.now mode ≡ false }
{
    if table.reserve_new().is_err() {
        return false;
    }
    table.add_new(tag, mode, owner);
    true
}

/// Releases `tag` in `mode` for `owner` in `table`, and answers whether that was done.
#[inline(never)]
fn release(table: &mut LocalTable, tag: &Tag, mode: Mode, owner: Owner) -> bool {
    table.drop_at_once(tag, mode, owner).is_some() || release_looked_up(table, tag, mode, owner)
}

/// Releases `tag` in `mode` for `owner` in `table` where only a look-up shows whether the lock is held.
#[cold]
#[inline(never)]
fn release_looked_up(table: &mut LocalTable, tag: &Tag, mode: Mode, owner: Owner) -> bool {
    table.drop_held(tag, mode, owner).is_ok()
}

/// `LocalTable::end_next` of `end` on `table`, not inlined.
#[inline(never)]
fn end_next(table: &mut LocalTable, end: End) -> Option<(Tag, Mode)>
    requires { end ≢ End.Inner }
{
    table.end_next(end)
}

/// Whether `map` has `tag` in `mode`, not inlined.
#[inline(never)]
fn look_up(map: &KeyMap, tag: &Tag, mode: Mode) -> bool {
    map.contains_key(&(*tag, mode))
}

/// Inserts `tag` in `mode` with `place` into `map`, not inlined. Refused only where memory ran out.
#[inline(never)]
fn insert(map: &mut KeyMap, tag: &Tag, mode: Mode, place: u32) -> Result<(), AllocError> {
    map.insert((*tag, mode), place)?;
    Ok(())
}

/// Removes `tag` in `mode` from `map`, not inlined, and answers whether `map` had the key.
#[inline(never)]
fn remove(map: &mut KeyMap, tag: &Tag, mode: Mode) -> bool {
    map.remove(&(*tag, mode)).is_some()
}

/// Acquires each of `keys` for `owner` in `table`, and answers whether all was done.
fn acquire_all(table: &mut LocalTable, keys: &[Key], owner: Owner) -> bool {
    for (tag, mode) in keys {
        if !acquire(table, tag, *mode, owner) {
            return false;
        }
    }
    true
}

/// Releases each of `keys` for `owner` in `table`, the last one first, and answers whether all was done.
fn release_all(table: &mut LocalTable, keys: &[Key], owner: Owner) -> bool {
    for (tag, mode) in keys.iter().rev() {
        if !release(table, tag, *mode, owner) {
            return false;
        }
    }
    true
}

/// Acquires each of `keys` for `owner` in `table` and releases it at once, and answers whether all was done.
fn pairs(table: &mut LocalTable, keys: &[Key], owner: Owner) -> bool {
    for (tag, mode) in keys {
        if !acquire(table, tag, *mode, owner) || !release(table, tag, *mode, owner) {
            return false;
        }
    }
    true
}

/// Acquires all `keys` for `owner` in a level of `table` that is handed up, and releases them. Answers
/// whether all was done.
fn hand_up(table: &mut LocalTable, keys: &[Key], owner: Owner) -> bool {
    if table.begin_nested().is_err() || !acquire_all(table, keys, owner) {
        return false;
    }
    table.hand_up().is_ok() && release_all(table, keys, owner)
}

/// Acquires all `keys` for `owner` in a level of `table` that is dropped, entry by entry. Answers whether all
/// was done.
fn drop_level(table: &mut LocalTable, keys: &[Key], owner: Owner) -> bool {
    if table.begin_nested().is_err() || !acquire_all(table, keys, owner) {
        return false;
    }
    for _ in 0..u32::MAX {
        if table.level() == 1 {
            return true;
        }
        table.end_next(End::Inner);
    }
    false
}

/// Commits in `table`, entry by entry, and answers how many entries that took away.
fn commit(table: &mut LocalTable) -> u64 {
    for taken in 0..u64::MAX {
        if end_next(table, End::Commit).is_none() {
            return taken;
        }
    }
    u64::MAX
}

/// Whether each of `keys` is found in `map`. With each look-up goes a call for `owner` that does nothing,
/// since two such calls are taken off.
fn look_up_all(map: &KeyMap, keys: &[Key], owner: Owner) -> bool {
    let mut found = 0u64;
    let mut passed = 0u64;
    for (tag, mode) in keys {
        passed = pass(passed, tag, *mode, owner);
        found = found.wrapping_add(u64::from(look_up(map, tag, *mode)));
    }
    found == passed
}

/// Inserts each of `keys` into `map` and removes it at once. Answers whether all was done.
fn map_pairs(map: &mut KeyMap, keys: &[Key]) -> bool {
    for (tag, mode) in keys {
        if insert(map, tag, *mode, 0).is_err() || !remove(map, tag, *mode) {
            return false;
        }
    }
    true
}
