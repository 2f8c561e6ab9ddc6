//! What a local table has more: an acquire that is counted once more, or entered, and the room for it.

ghost use Rattle.std.specs.Prelude.{◌≡◌, ◌≢◌, ◌+◌, ◌<◌, ◌≤◌, ◌↔◌, ◌⊎◌, true, false, IsErrOf, IsOkUnless, IfErr, OnOk, OnErr, IsTrue, length};
ghost use Rattle.local_locks.specs.Slots.{key_hash};
ghost use Rattle.local_locks.specs.Owned.{max_count, has_entry, owner_count_of, with_one_more, acquired_as, IsWellOwned, IsReserved, IsCrowded, IsOutOfRoom};

use super::{LocalTable, MAX_SLOTS};
use crate::ends::Progress;
use crate::levels::{keep, lengthen, set_hint};
use crate::looks::{Glance, glance_at, hash_of, key_hash, look, look_up, pair_bits};
use crate::slots::{compact, push_entry, raise, raise_held};
use crate::{Acquired, AtOnce, Entry};
use modes_core::{Mode, Owner, Refusal, Tag};

impl LocalTable {
    /// Counts `tag` in `mode` once more for `owner`, if the session has it already, and answers whether the
    /// session has it, in one look (`LockAcquireExtended` in lock.c where it finds a local lock with `nLocks`
    /// above 0). Refused where the count of `owner` is full; nothing has changed then.
    #[inline(always)]
    pub fn add_held(&mut self, tag: &Tag, mode: Mode, owner: Owner) -> Result<bool, Refusal>
        ensures held { (result ≡ Ok true) ↔ ((has_entry self.old.entries tag.now mode ≡ true)
            × (owner_count_of self.old.entries tag.now mode owner < max_count)) }
        ensures not_held { (result ≡ Ok false) ↔ (has_entry self.old.entries tag.now mode ≡ false) }
        ensures count_full { IsErrOf result Refusal.CountFull
            ↔ (owner_count_of self.old.entries tag.now mode owner ≡ max_count) }
        ensures no_other { IsOkUnless result Refusal.CountFull }
        ensures entries { result ≡ Ok true → self.new.entries ≡ with_one_more self.old.entries tag.now mode owner }
        ensures same { result ≢ Ok true → self.new ≡ self.old }
        ensures outer { self.new.outer ≡ self.old.outer }
        ensures room { self.old.room ≤ self.new.room }
        ensures slots { self.new.slots ≡ self.old.slots }
        ensures max_local { self.new.max_local ≡ self.old.max_local }
        ensures well_owned { IsWellOwned self.new }
    {
        match self.add_at_once(tag, mode, owner) {
            AtOnce::AlreadyHeld => Ok(true),
            AtOnce::NotHeld => Ok(false),
            AtOnce::Unknown => self.add_looked_up(tag, mode, owner),
        }
    }

    /// Does the work of `add_held` for `tag`, `mode` and `owner` as far as the first place of the index shows
    /// whether `tag` is held in `mode`, as it mostly does. `AtOnce::Unknown` says nothing of that and leaves
    /// all as it is. With neither a loop nor a call, this is short enough to be inlined into each caller.
    #[inline(always)]
    pub fn add_at_once(&mut self, tag: &Tag, mode: Mode, owner: Owner) -> AtOnce
        ensures held { result ≡ AtOnce.AlreadyHeld → (has_entry self.old.entries tag.now mode ≡ true)
            × (owner_count_of self.old.entries tag.now mode owner < max_count) }
        ensures not_held { result ≡ AtOnce.NotHeld → has_entry self.old.entries tag.now mode ≡ false }
        ensures entries { result ≡ AtOnce.AlreadyHeld →
            self.new.entries ≡ with_one_more self.old.entries tag.now mode owner }
        ensures same { result ≢ AtOnce.AlreadyHeld → self.new ≡ self.old }
        ensures outer { self.new.outer ≡ self.old.outer }
        ensures room { self.old.room ≤ self.new.room }
        ensures slots { self.new.slots ≡ self.old.slots }
        ensures max_local { self.new.max_local ≡ self.old.max_local }
        ensures well_owned { IsWellOwned self.new }
    {
        match glance_at(&self.slots, &self.index, tag, mode) {
            Glance::Nothing => AtOnce::NotHeld,
            Glance::Place(place) => {
                let place = place as usize;
                if !raise_held(&mut self.slots, place, owner, self.at_once) {
                    return AtOnce::Unknown;
                }
                // An end that is past the slot leaves this count alone, so it need not come back.
                self.hint = place;
                AtOnce::AlreadyHeld
            }
            Glance::Unknown => AtOnce::Unknown,
        }
    }

    /// Does the work of `add_held` for `tag`, `mode` and `owner` by a whole look. To the compiler it is cold,
    /// so that what goes on without it runs straight on.
    #[cold]
    #[inline(never)]
    fn add_looked_up(&mut self, tag: &Tag, mode: Mode, owner: Owner) -> Result<bool, Refusal>
        ensures held { (result ≡ Ok true) ↔ ((has_entry self.old.entries tag.now mode ≡ true)
            × (owner_count_of self.old.entries tag.now mode owner < max_count)) }
        ensures not_held { (result ≡ Ok false) ↔ (has_entry self.old.entries tag.now mode ≡ false) }
        ensures count_full { IsErrOf result Refusal.CountFull
            ↔ (owner_count_of self.old.entries tag.now mode owner ≡ max_count) }
        ensures no_other { IsOkUnless result Refusal.CountFull }
        ensures entries { result ≡ Ok true → self.new.entries ≡ with_one_more self.old.entries tag.now mode owner }
        ensures same { result ≢ Ok true → self.new ≡ self.old }
        ensures outer { self.new.outer ≡ self.old.outer }
        ensures room { self.old.room ≤ self.new.room }
        ensures slots { self.new.slots ≡ self.old.slots }
        ensures max_local { self.new.max_local ≡ self.old.max_local }
        ensures well_owned { IsWellOwned self.new }
    {
        let Some(place) = look_up(&self.slots, &self.index, tag, mode) else {
            return Ok(false);
        };
        if self.slots[place].count(owner) == u16::MAX {
            return Err(Refusal::CountFull);
        }
        set_hint(&mut self.hint, self.depth, place);
        let now = self.slots[place].transaction;
        keep(&mut self.outer, &mut self.touched, self.depth, place, now);
        raise(&mut self.slots, place, owner);
        self.progress.go_back_to(place);
        Ok(true)
    }

    /// Makes room for one more acquire of `tag` in `mode` by `owner`, for `add` to enter. Refused where the
    /// count of `owner` or the table is full, or memory ran out. The entries don't change.
    pub fn reserve(&mut self, tag: Tag, mode: Mode, owner: Owner) -> Result<(), Refusal>
        ensures ok { OnOk result (IsReserved self.new tag mode owner) }

        // The refusals, in this order.
        ensures count_full { IsErrOf result Refusal.CountFull
            ↔ (owner_count_of self.old.entries tag mode owner ≡ max_count) }
        ensures local_full { IsErrOf result Refusal.LocalFull
            ↔ ((has_entry self.old.entries tag mode ≡ false) × (length self.old.entries ≡ self.old.max_local)) }
        ensures no_memory { IsErrOf result Refusal.NoMemory →
            (has_entry self.old.entries tag mode ≡ false) × IsOutOfRoom self.old }
        ensures no_other { IfErr result (λ refusal.
            (refusal ≡ Refusal.CountFull) ⊎ ((refusal ≡ Refusal.LocalFull) ⊎ (refusal ≡ Refusal.NoMemory))) }

        // What holds after the call, whatever the answer.
        ensures grows { self.new.slots ≢ self.old.slots → IsOutOfRoom self.old }
        ensures entries { self.new.entries ≡ self.old.entries }
        ensures outer { self.new.outer ≡ self.old.outer }
        ensures room { self.old.room ≤ self.new.room }
        ensures max_local { self.new.max_local ≡ self.old.max_local }
        ensures well_owned { IsWellOwned self.new }
    {
        match look(&self.slots, &self.index, self.hint, &tag, mode) {
            Some(place) => {
                set_hint(&mut self.hint, self.depth, place);
                if self.slots[place].count(owner) == u16::MAX {
                    Err(Refusal::CountFull)
                } else {
                    Ok(())
                }
            }
            None => self.reserve_new(),
        }
    }

    /// Makes room for one more entry, for `add_new` to enter. Does what `reserve` does, without a look, for
    /// an object and mode of which `add_held` answered that the session hasn't them.
    #[inline(always)]
    pub fn reserve_new(&mut self) -> Result<(), Refusal>
        ensures allowed { OnOk result (length self.new.entries < self.new.max_local) }
        ensures roomy { OnOk result (0 < self.new.room) }

        // The refusals, in this order.
        ensures local_full { IsErrOf result Refusal.LocalFull ↔ (length self.old.entries ≡ self.old.max_local) }
        ensures no_memory { IsErrOf result Refusal.NoMemory → IsOutOfRoom self.old }
        ensures no_other { IfErr result (λ refusal. (refusal ≡ Refusal.LocalFull) ⊎ (refusal ≡ Refusal.NoMemory)) }

        // What holds after the call, whatever the answer.
        ensures grows { self.new.slots ≢ self.old.slots → IsOutOfRoom self.old }
        ensures entries { self.new.entries ≡ self.old.entries }
        ensures outer { self.new.outer ≡ self.old.outer }
        ensures room { self.old.room ≤ self.new.room }
        ensures max_local { self.new.max_local ≡ self.old.max_local }
        ensures well_owned { IsWellOwned self.new }
    {
        if self.len == self.max_local {
            return Err(Refusal::LocalFull);
        }
        if self.has_room() {
            return Ok(());
        }
        self.make_room()
    }

    /// Whether one more entry is allowed and there is room for it, so that `reserve_new` would neither refuse
    /// nor grow.
    #[inline(always)]
    pub fn can_add(&self) -> bool
        ensures can { IsTrue result ↔ ((length self.now.entries < self.now.max_local) × (0 < self.now.room)) }
        ensures well_owned { IsWellOwned self.now }
    {
        self.len < self.max_local && self.has_room()
    }

    /// Whether one more entry can be made with no growth.
    #[inline(always)]
    fn has_room(&self) -> bool
        ensures { IsTrue result ↔ (0 < self.now.room) }
    {
        let used = self.slots.len();
        used < self.slots.capacity() && used < self.index.places()
    }

    /// Makes room for one more entry: uses slots again whose entries are gone, and lets the table grow only
    /// where more than half of all slots have entries.
    #[cold]
    #[inline(never)]
    fn make_room(&mut self) -> Result<(), Refusal>
        ensures ok { OnOk result (0 < self.new.room) }
        ensures err { OnErr result (IsOutOfRoom self.old) }
        ensures no_memory { IsOkUnless result Refusal.NoMemory }
        ensures grows { self.new.slots ≢ self.old.slots → IsOutOfRoom self.old }
        ensures entries { self.new.entries ≡ self.old.entries }
        ensures outer { self.new.outer ≡ self.old.outer }
        ensures room { self.old.room ≤ self.new.room }
        ensures max_local { self.new.max_local ≡ self.old.max_local }
        ensures well_owned { IsWellOwned self.new }
    {
        self.use_slots_again();
        if self.has_room() {
            return Ok(());
        }
        self.grow()
    }

    /// Takes memory for one more entry, for which there is no room.
    fn grow(&mut self) -> Result<(), Refusal>
        requires full { self.old.room ≡ 0 }
        ensures ok { OnOk result (0 < self.new.room) }
        ensures err { OnErr result (self.old.room ≡ 0) }
        ensures no_memory { IsOkUnless result Refusal.NoMemory }
        ensures entries { self.new.entries ≡ self.old.entries }
        ensures outer { self.new.outer ≡ self.old.outer }
        ensures room { self.old.room ≤ self.new.room }
        ensures max_local { self.new.max_local ≡ self.old.max_local }
        ensures well_owned { IsWellOwned self.new }
    {
        if self.slots.len() == MAX_SLOTS {
            return Err(Refusal::NoMemory);
        }
        // There is a list for each slot that can be used, whichever of the two grows last.
        if lengthen(&mut self.outer, self.index.places()).is_err() {
            return Err(Refusal::NoMemory);
        }
        if self.slots.reserve(1).is_err() {
            return Err(Refusal::NoMemory);
        }
        if lengthen(&mut self.outer, self.slots.capacity()).is_err() {
            return Err(Refusal::NoMemory);
        }
        if self.index.reserve(self.slots.len() as u32).is_err() {
            return Err(Refusal::NoMemory);
        }
        Ok(())
    }

    /// Moves the entries down over the empty slots, so that these can be used again, where no more than half
    /// of the slots used so far have entries.
    fn use_slots_again(&mut self)
        ensures used { self.new.room ≡ 0 → IsCrowded self.old.slots self.old.entries }
        ensures slots { self.new.slots ≡ self.old.slots }
        ensures entries { self.new.entries ≡ self.old.entries }
        ensures outer { self.new.outer ≡ self.old.outer }
        ensures room { self.old.room ≤ self.new.room }
        ensures max_local { self.new.max_local ≡ self.old.max_local }
        ensures well_owned { IsWellOwned self.new }
    {
        let slots = self.slots.len();
        if slots == MAX_SLOTS || self.len as usize <= slots / 2 {
            compact(&mut self.slots, &mut self.index, &mut self.outer);
            self.progress = Progress::start();
            self.touched = 0;
        }
    }

    /// Enters the acquire of `tag` in `mode` by `owner`, for which room was reserved (`GrantLockLocal` in
    /// lock.c).
    pub fn add(&mut self, tag: Tag, mode: Mode, owner: Owner) -> Acquired
        requires { IsReserved self.old tag mode owner }
        ensures answer { result ≡ acquired_as self.old.entries tag mode }
        ensures entries { self.new.entries ≡ with_one_more self.old.entries tag mode owner }
        ensures outer { self.new.outer ≡ self.old.outer }
        ensures room { self.old.room ≤ self.new.room + 1 }
        ensures slots { self.new.slots ≡ self.old.slots }
        ensures max_local { self.new.max_local ≡ self.old.max_local }
        ensures well_owned { IsWellOwned self.new }
    {
        match self.add_held(&tag, mode, owner) {
            Ok(true) => Acquired::AlreadyHeld,
            Ok(false) => {
                self.add_new(&tag, mode, owner);
                Acquired::Granted
            }
            Err(_) => unreachable!(),
        }
    }

    /// Enters the first acquire of `tag` in `mode` by `owner`, for which room was reserved, with no look for
    /// an entry (`GrantLockLocal` in lock.c after `LockAcquireExtended` made the entry).
    #[inline(always)]
    pub fn add_new(&mut self, tag: &Tag, mode: Mode, owner: Owner)
        requires new { has_entry self.old.entries tag.now mode ≡ false }
        requires allowed { length self.old.entries < self.old.max_local }
        requires roomy { 0 < self.old.room }
        ensures entries { self.new.entries ≡ with_one_more self.old.entries tag.now mode owner }
        ensures outer { self.new.outer ≡ self.old.outer }
        ensures room { self.old.room ≤ self.new.room + 1 }
        ensures slots { self.new.slots ≡ self.old.slots }
        ensures max_local { self.new.max_local ≡ self.old.max_local }
        ensures well_owned { IsWellOwned self.new }
    {
        match *tag {
            Tag::Relation { database, relation } => {
                let hash = hash_of(pair_bits(database, relation), mode);
                self.enter(Tag::Relation { database, relation }, hash, mode, owner);
            }
            Tag::Object { .. } | Tag::Advisory { .. } => self.add_new_object(tag, mode, owner),
        }
    }

    /// Does the work of `add_new` for any `tag`, `mode` and `owner`: a call of its own, so that where `tag`
    /// is a relation `add_new` copies only its two numbers.
    #[inline(never)]
    fn add_new_object(&mut self, tag: &Tag, mode: Mode, owner: Owner)
        requires new { has_entry self.old.entries tag.now mode ≡ false }
        requires allowed { length self.old.entries < self.old.max_local }
        requires roomy { 0 < self.old.room }
        ensures entries { self.new.entries ≡ with_one_more self.old.entries tag.now mode owner }
        ensures outer { self.new.outer ≡ self.old.outer }
        ensures room { self.old.room ≤ self.new.room + 1 }
        ensures slots { self.new.slots ≡ self.old.slots }
        ensures max_local { self.new.max_local ≡ self.old.max_local }
        ensures well_owned { IsWellOwned self.new }
    {
        self.enter(*tag, key_hash(tag, mode), mode, owner);
    }

    /// Does the work of `add_new` for `tag`, `mode` and `owner` where `hash`, the hash of `tag` and `mode`,
    /// is known.
    #[inline(always)]
    fn enter(&mut self, tag: Tag, hash: u32, mode: Mode, owner: Owner)
        requires hashed { hash ≡ key_hash tag mode }
        requires new { has_entry self.old.entries tag mode ≡ false }
        requires allowed { length self.old.entries < self.old.max_local }
        requires roomy { 0 < self.old.room }
        ensures entries { self.new.entries ≡ with_one_more self.old.entries tag mode owner }
        ensures outer { self.new.outer ≡ self.old.outer }
        ensures room { self.old.room ≤ self.new.room + 1 }
        ensures slots { self.new.slots ≡ self.old.slots }
        ensures max_local { self.new.max_local ≡ self.old.max_local }
        ensures well_owned { IsWellOwned self.new }
    {
        let place = self.slots.len();
        let entry = Entry::new(tag, mode, owner);
        self.len += 1;
        self.progress.go_back_to(place);
        push_entry(&mut self.slots, &mut self.index, hash, entry);
        set_hint(&mut self.hint, self.depth, place);
        keep(&mut self.outer, &mut self.touched, self.depth, place, 0);
    }
}
