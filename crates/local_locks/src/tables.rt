//! The local lock table of a session. Its calls that add, drop and end are each in a file of their own.

ghost use Rattle.std.specs.Prelude.{◌≡◌, ◌<◌, ◌≤◌, ◌↔◌, ◌∷◌, ◌++◌, [], IsErrOf, IsOkUnless, IfOk, OnOk, OnErr};
ghost use Rattle.local_locks.specs.declared.ends.End.{End};
ghost use Rattle.local_locks.specs.Owned.{max_level, level_of, of_transaction, level_count_of, own_count_of, outer_after, total_of, IsWellOwned};

mod adding;
mod dropping;
mod ending;

use crate::ends::Progress;
use crate::levels::{
    MOST_INNER, OuterCounts, cut_all, lengthen, level_count, most_at_once, own_count,
};
use crate::looks::look;
use crate::{Entries, Entry};
use modes_core::{Mode, Owner, Refusal, Tag};
use place_index::PlaceIndex;
use std::alloc::Global;
use std::marker::Model;

/// For how many slots a local table has room at first, as `LockMethodLocalHash` in lock.c has. With fewer the
/// tables of two sessions could share a cache line, which both sessions would write in every call.
const FIRST_SLOTS: usize = 16;

/// How many entries a local table may have at most.
pub const MOST_LOCAL: u32 = 65_536;

/// How many slots a local table may have at most, so that the place of each can be noted in the index.
const MAX_SLOTS: usize = u32::MAX as usize - 1;

/// The local lock table of a session: what the session holds, how often and for which owner (the hash table
/// `LockMethodLocalHash` in lock.c). Contracts see the entries in the order of making, what the outer levels
/// of the transaction have, how many more entries can be made with no growth, for how many there are slots,
/// and how many there may be.
#[derive(Drop)]
pub struct LocalTable {
    slots: Vec<Entry>,
    index: PlaceIndex,
    len: u32,
    max_local: u32,
    progress: Progress,
    // Where an entry is looked for first. In an inner level it is no place.
    hint: usize,
    // Up to which count an acquire is counted at once: in an inner level none is.
    at_once: u16,
    // How many levels of the transaction have begun within the first.
    depth: u8,
    // Before that slot the innermost of them has counted nothing.
    touched: usize,
    // What the transaction had of the entry beside each slot when each of them began.
    outer: Vec<OuterCounts>,
}

impl Model for LocalTable {
    ghost use Rattle.std.specs.Prelude.{◌-◌, min, length, vec_capacity};
    ghost use Rattle.place_index.specs.Notes.{no_place};
    ghost use Rattle.local_locks.specs.Owned.{Owned};
    ghost use Rattle.local_locks.specs.Slots.{opened, present};
    ghost use Rattle.local_locks.specs.Levels.{outer_of, row_at, IsLeveledTable, IsPaced};

    ghost Value = { Owned };

    ghost view = { λ t. record {
      entries = present (opened t.slots.items);
      outer = outer_of t.depth (opened t.slots.items) (row_at t.outer.items);
      room = min (min (vec_capacity t.slots) no_place) t.index.places - length t.slots.items;
      slots = min (min (vec_capacity t.slots) no_place) t.index.places;
      max_local = t.max_local;
    } };

    ghost invariant = { λ t. IsLeveledTable t.slots.items (vec_capacity t.slots) t.index t.len t.max_local t.progress
        t.outer.items t.depth t.touched
        × IsPaced t.depth t.at_once t.hint };
}

impl LocalTable {
    /// An empty local table with room for its first entries, which takes `max_local` entries at most and
    /// grows by `alloc`. Refused only where memory ran out.
    pub fn new(alloc: Global, max_local: u32) -> Result<Self, Refusal>
        requires from { 1 ≤ max_local }
        requires to { max_local ≤ 65536 }
        ensures empty { IfOk result (λ table. table.entries ≡ []) }
        ensures first_level { IfOk result (λ table. table.outer ≡ []) }
        ensures room { IfOk result (λ table. 0 < table.room) }
        ensures slots { IfOk result (λ table. 0 < table.slots) }
        ensures max_local { IfOk result (λ table. table.max_local ≡ max_local) }
        ensures well_owned { IfOk result (λ table. IsWellOwned table) }
        ensures no_memory { IsOkUnless result Refusal.NoMemory }
    {
        let Ok(slots) = Vec::with_capacity(alloc, FIRST_SLOTS) else {
            return Err(Refusal::NoMemory);
        };
        let Ok(index) = PlaceIndex::new(alloc) else {
            return Err(Refusal::NoMemory);
        };
        let mut outer = Vec::new(alloc);
        if lengthen(&mut outer, FIRST_SLOTS).is_err() {
            return Err(Refusal::NoMemory);
        }
        Ok(LocalTable {
            slots,
            index,
            len: 0,
            max_local,
            progress: Progress::start(),
            hint: 0,
            at_once: u16::MAX,
            depth: 0,
            touched: 0,
            outer,
        })
    }

    /// How often both owners together have `tag` in `mode`.
    pub fn total(&self, tag: Tag, mode: Mode) -> u32
        ensures total { result ≡ total_of self.now.entries tag mode }
        ensures well_owned { IsWellOwned self.now }
    {
        match look(&self.slots, &self.index, self.hint, &tag, mode) {
            Some(place) => self.slots[place].total(),
            None => 0,
        }
    }

    /// How often `owner` has `tag` in `mode` and can give it back: for the transaction, how often its
    /// innermost level has it.
    pub fn owner_count(&self, tag: Tag, mode: Mode, owner: Owner) -> u16
        ensures count { result ≡ own_count_of self.now tag mode owner }
        ensures well_owned { IsWellOwned self.now }
    {
        match look(&self.slots, &self.index, self.hint, &tag, mode) {
            Some(place) => own_count(&self.slots[place], &self.outer, place, self.depth, owner),
            None => 0,
        }
    }

    /// The entries of the local table, in the order of making.
    pub fn entries(&self) -> Entries<'_>
        ensures entries { result ≡ self.now.entries }
        ensures well_owned { IsWellOwned self.now }
    {
        Entries::of(&self.slots)
    }

    /// The innermost level of the transaction: 1, and one more for each level that was begun within another
    /// and has not ended.
    pub fn level(&self) -> u8
        ensures level { result ≡ level_of self.now }
        ensures well_owned { IsWellOwned self.now }
    {
        self.depth + 1
    }

    /// How often the level `level` of the transaction has `tag` in `mode`.
    pub fn level_count(&self, tag: Tag, mode: Mode, level: u8) -> u16
        requires from { 1 ≤ level }
        requires to { level ≤ level_of self.now }
        ensures count { result ≡ level_count_of self.now tag mode level }
        ensures well_owned { IsWellOwned self.now }
    {
        match look(&self.slots, &self.index, self.hint, &tag, mode) {
            Some(place) => level_count(&self.slots[place], &self.outer[place], level),
            None => 0,
        }
    }

    /// Begins a level of the transaction within the innermost one and answers its number (`PushTransaction`
    /// in xact.c). The new level has nothing yet. This takes no memory, and looks at no entry.
    pub fn begin_nested(&mut self) -> Result<u8, Refusal>
        ensures too_deep { IsErrOf result Refusal.TooDeep ↔ (level_of self.old ≡ max_level) }
        ensures no_other { IsOkUnless result Refusal.TooDeep }
        ensures level { IfOk result (λ level. level ≡ level_of self.new) }
        ensures outer { OnOk result
            (self.new.outer ≡ self.old.outer ++ of_transaction self.old.entries ∷ []) }
        ensures entries { self.new.entries ≡ self.old.entries }
        ensures refused { OnErr result (self.new ≡ self.old) }
        ensures room { self.new.room ≡ self.old.room }
        ensures slots { self.new.slots ≡ self.old.slots }
        ensures max_local { self.new.max_local ≡ self.old.max_local }
        ensures well_owned { IsWellOwned self.new }
    {
        if self.depth == MOST_INNER {
            return Err(Refusal::TooDeep);
        }
        self.depth += 1;
        self.at_once = 0;
        self.hint = usize::MAX;
        self.touched = self.slots.len();
        Ok(self.depth + 1)
    }

    /// Ends the innermost level of the transaction, gives what this level has to the level in which it was
    /// begun, and answers the number of that one (`LockReassignCurrentOwner` in lock.c). This takes no
    /// memory.
    pub fn hand_up(&mut self) -> Result<u8, Refusal>
        ensures no_nested { IsErrOf result Refusal.NoNested ↔ (level_of self.old ≡ 1) }
        ensures no_other { IsOkUnless result Refusal.NoNested }
        ensures level { IfOk result (λ level. level ≡ level_of self.new) }
        ensures outer { OnOk result (self.new.outer ≡ outer_after End.Inner self.old.outer) }
        ensures entries { self.new.entries ≡ self.old.entries }
        ensures refused { OnErr result (self.new ≡ self.old) }
        ensures room { self.new.room ≡ self.old.room }
        ensures slots { self.new.slots ≡ self.old.slots }
        ensures max_local { self.new.max_local ≡ self.old.max_local }
        ensures well_owned { IsWellOwned self.new }
    {
        if self.depth == 0 {
            return Err(Refusal::NoNested);
        }
        self.depth -= 1;
        self.at_once = most_at_once(self.depth);
        cut_all(&mut self.outer, self.touched, self.slots.len(), self.depth);
        self.touched = 0;
        Ok(self.depth + 1)
    }
}
