//! What a local table has less: one count of an owner that is taken back.

ghost use Rattle.std.specs.Prelude.{◌≡◌, ◌<◌, ◌≤◌, ◌↔◌, IsErrOf, IsOkUnless, IfOk, OnOk, OnErr, IfSome, IsSome, IsNone};
ghost use Rattle.local_locks.specs.Owned.{own_count_of, total_of, with_one_less, IsWellOwned};

use super::LocalTable;
use crate::Unlocked;
use crate::levels::{forget, own_count, set_hint};
use crate::looks::{key_hash, look};
use crate::slots::{lower, lower_held, take_last, take_out};
use modes_core::{Mode, Owner, Refusal, Tag};

impl LocalTable {
    /// Takes one count of `owner` on `tag` in `mode` back (the part of `LockRelease` in lock.c that touches
    /// the local lock alone) and answers whether the session still has the mode. Refused where `owner` has no
    /// count that it can give back; nothing has changed then.
    pub fn drop_one(&mut self, tag: Tag, mode: Mode, owner: Owner) -> Result<Unlocked, Refusal>
        ensures not_held { IsErrOf result Refusal.NotHeld ↔ (own_count_of self.old tag mode owner ≡ 0) }
        ensures no_other { IsOkUnless result Refusal.NotHeld }
        ensures answer { IfOk result (λ answer.
            (answer ≡ Unlocked.StillHeld) ↔ (0 < total_of self.new.entries tag mode)) }
        ensures entries { OnOk result (self.new.entries ≡ with_one_less self.old.entries tag mode owner) }
        ensures refused { OnErr result (self.new ≡ self.old) }
        ensures outer { self.new.outer ≡ self.old.outer }
        ensures room { self.old.room ≤ self.new.room }
        ensures slots { self.new.slots ≡ self.old.slots }
        ensures max_local { self.new.max_local ≡ self.old.max_local }
        ensures well_owned { IsWellOwned self.new }
    {
        self.drop_held(&tag, mode, owner)
    }

    /// Takes one count of `owner` on `tag` in `mode` back and answers whether the session still has the mode:
    /// `drop_one` for a `tag` that the caller keeps.
    #[inline(always)]
    pub fn drop_held(&mut self, tag: &Tag, mode: Mode, owner: Owner) -> Result<Unlocked, Refusal>
        ensures not_held { IsErrOf result Refusal.NotHeld ↔ (own_count_of self.old tag.now mode owner ≡ 0) }
        ensures no_other { IsOkUnless result Refusal.NotHeld }
        ensures answer { IfOk result (λ answer.
            (answer ≡ Unlocked.StillHeld) ↔ (0 < total_of self.new.entries tag.now mode)) }
        ensures entries { OnOk result (self.new.entries ≡ with_one_less self.old.entries tag.now mode owner) }
        ensures refused { OnErr result (self.new ≡ self.old) }
        ensures outer { self.new.outer ≡ self.old.outer }
        ensures room { self.old.room ≤ self.new.room }
        ensures slots { self.new.slots ≡ self.old.slots }
        ensures max_local { self.new.max_local ≡ self.old.max_local }
        ensures well_owned { IsWellOwned self.new }
    {
        match self.drop_at_once(tag, mode, owner) {
            Some(answer) => Ok(answer),
            None => self.drop_elsewhere(tag, mode, owner),
        }
    }

    /// Does the work of `drop_held` for `tag`, `mode` and `owner` where the slot that is looked at first has
    /// their entry, as it mostly has. `None` says nothing of the entry and leaves all as it is. With neither
    /// a loop nor a call, this is short enough to be inlined into each caller.
    #[inline(always)]
    pub fn drop_at_once(&mut self, tag: &Tag, mode: Mode, owner: Owner) -> Option<Unlocked>
        ensures held { IsSome result → 0 < own_count_of self.old tag.now mode owner }
        ensures answer { IfSome result (λ answer.
            (answer ≡ Unlocked.StillHeld) ↔ (0 < total_of self.new.entries tag.now mode)) }
        ensures entries { IsSome result → self.new.entries ≡ with_one_less self.old.entries tag.now mode owner }
        ensures same { IsNone result → self.new ≡ self.old }
        ensures outer { self.new.outer ≡ self.old.outer }
        ensures room { self.old.room ≤ self.new.room }
        ensures slots { self.new.slots ≡ self.old.slots }
        ensures max_local { self.new.max_local ≡ self.old.max_local }
        ensures well_owned { IsWellOwned self.new }
    {
        let hint = self.hint;
        if hint >= self.slots.len() {
            return None;
        }
        if !self.slots[hint].is_of(tag, mode) {
            return None;
        }
        if lower_held(&mut self.slots, hint, owner) {
            return Some(Unlocked::StillHeld);
        }
        if !self.slots[hint].is_only(owner) || hint + 1 != self.slots.len() {
            return None;
        }
        take_last(&mut self.slots, &mut self.index, hint);
        self.len -= 1;
        self.hint = hint.wrapping_sub(1);
        Some(Unlocked::Released)
    }

    /// Does the work of `drop_held` for `tag`, `mode` and `owner`, wherever their entry is and whatever its
    /// counts are. To the compiler it is cold, so that what goes on without it runs straight on.
    #[cold]
    #[inline(never)]
    fn drop_elsewhere(&mut self, tag: &Tag, mode: Mode, owner: Owner) -> Result<Unlocked, Refusal>
        ensures not_held { IsErrOf result Refusal.NotHeld ↔ (own_count_of self.old tag.now mode owner ≡ 0) }
        ensures no_other { IsOkUnless result Refusal.NotHeld }
        ensures answer { IfOk result (λ answer.
            (answer ≡ Unlocked.StillHeld) ↔ (0 < total_of self.new.entries tag.now mode)) }
        ensures entries { OnOk result (self.new.entries ≡ with_one_less self.old.entries tag.now mode owner) }
        ensures refused { OnErr result (self.new ≡ self.old) }
        ensures outer { self.new.outer ≡ self.old.outer }
        ensures room { self.old.room ≤ self.new.room }
        ensures slots { self.new.slots ≡ self.old.slots }
        ensures max_local { self.new.max_local ≡ self.old.max_local }
        ensures well_owned { IsWellOwned self.new }
    {
        let Some(place) = look(&self.slots, &self.index, self.hint, tag, mode) else {
            return Err(Refusal::NotHeld);
        };
        let entry = &self.slots[place];
        if own_count(entry, &self.outer, place, self.depth, owner) == 0 {
            return Err(Refusal::NotHeld);
        }
        let total = entry.total();
        if total == 1 {
            let hash = key_hash(tag, mode);
            take_out(&mut self.slots, &mut self.index, place, hash);
            forget(&mut self.outer, self.depth, place, place + 1);
            self.len -= 1;
            // Locks are mostly released in the opposite order of their acquires.
            set_hint(&mut self.hint, self.depth, place.wrapping_sub(1));
            Ok(Unlocked::Released)
        } else {
            lower(&mut self.slots, place, owner);
            Ok(Unlocked::StillHeld)
        }
    }
}
