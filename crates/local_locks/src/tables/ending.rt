//! The ends of a level, of the transaction and of the session: what each takes away, one object and mode at a
//! time.

ghost use Rattle.std.specs.Prelude.{◌≡◌, ◌≢◌, ◌<◌, ◌≤◌, ◌∷◌, [], IfSome, IfNone, IsSome};
ghost use Rattle.local_locks.specs.Owned.{level_of, without_innermost, found_by, outer_after, ended_by, left_by, with_next_ended, IsWellOwned};

use super::LocalTable;
use crate::End;
use crate::ends::Progress;
use crate::levels::{forget, most_at_once};
use crate::slots::{settle, settle_inner, take_ended, tidy};
use modes_core::{Mode, Tag};

impl LocalTable {
    /// Goes on with `end`: answers the next object and mode, in the order of making, that `end` takes away
    /// from the session, or `None` once there is no other (the loop of `LockReleaseAll` in lock.c). The step
    /// that answers `None` ends the innermost level of the transaction, or all levels where `end` is not
    /// `End::Inner`.
    #[inline(always)]
    pub fn end_next(&mut self, end: End) -> Option<(Tag, Mode)>
        requires nested { end ≡ End.Inner → 1 < level_of self.old }
        ensures entries { IsSome result → found_by end self.new ≡ with_next_ended end (found_by end self.old) }

        // Called until `None`, it gives just what the end takes away, and leaves what outlives it.
        ensures next { IfSome result (λ key.
            ended_by end (found_by end self.old) ≡ key ∷ ended_by end (found_by end self.new)) }
        ensures last { IfNone result (ended_by end (found_by end self.old) ≡ []) }
        ensures left { IfNone result (self.new.entries ≡ left_by end (found_by end self.old)) }
        ensures outlives { IsSome result → left_by end (found_by end self.new) ≡ left_by end (found_by end self.old) }

        // The outer levels have what they had where only the innermost ends. Each has ended whose end it was
        // once it gives `None`.
        ensures inner { IsSome result → end ≡ End.Inner → self.new.outer ≡ self.old.outer }
        ensures level { IsSome result → level_of self.new ≡ level_of self.old }
        ensures ended { IfNone result (self.new.outer ≡ outer_after end self.old.outer) }

        ensures room { self.old.room ≤ self.new.room }
        ensures slots { self.new.slots ≡ self.old.slots }
        ensures max_local { self.new.max_local ≡ self.old.max_local }
        ensures well_owned { IsWellOwned self.new }
    {
        match end {
            End::Inner => self.end_innermost(),
            End::Commit | End::Abort | End::Close => self.end_transaction(end),
        }
    }

    /// Goes on with `end`, of the transaction or of the session: answers the next object and mode that `end`
    /// takes away, or `None` once there is no other.
    #[inline(always)]
    fn end_transaction(&mut self, end: End) -> Option<(Tag, Mode)>
        requires whole { end ≢ End.Inner }
        ensures entries { self.new.entries ≡ with_next_ended end self.old.entries }
        ensures next { IfSome result (λ key. ended_by end self.old.entries ≡ key ∷ ended_by end self.new.entries) }
        ensures last { IfNone result (ended_by end self.old.entries ≡ []) }
        ensures left { IfNone result (self.new.entries ≡ left_by end self.old.entries) }
        ensures outlives { left_by end self.new.entries ≡ left_by end self.old.entries }
        ensures level { IsSome result → level_of self.new ≡ level_of self.old }
        ensures ended { IfNone result (self.new.outer ≡ []) }
        ensures room { self.old.room ≤ self.new.room }
        ensures slots { self.new.slots ≡ self.old.slots }
        ensures max_local { self.new.max_local ≡ self.old.max_local }
        ensures well_owned { IsWellOwned self.new }
    {
        let from = self.progress.reached(end).min(self.slots.len());
        let place = settle(&mut self.slots, end, from);
        if place == self.slots.len() {
            forget(&mut self.outer, self.depth, 0, place);
            self.depth = 0;
            self.at_once = u16::MAX;
            tidy(
                &mut self.slots,
                &mut self.index,
                &mut self.outer,
                self.len as usize,
            );
            self.progress.come_to(end, self.slots.len());
            return None;
        }
        self.progress.come_to(end, place + 1);
        let entry = &self.slots[place];
        let key = (entry.tag, entry.mode);
        let len = self.len as usize;
        forget(&mut self.outer, self.depth, from, place + 1);
        take_ended(&mut self.slots, &mut self.index, len, place);
        self.len -= 1;
        Some(key)
    }

    /// Goes on with the end of the innermost level of the transaction (`LockReleaseCurrentOwner` in lock.c):
    /// answers the next object and mode that this end takes away, or `None` once there is no other.
    #[cold]
    #[inline(never)]
    fn end_innermost(&mut self) -> Option<(Tag, Mode)>
        requires nested { 1 < level_of self.old }
        ensures entries { IsSome result →
            without_innermost self.new ≡ with_next_ended End.Inner (without_innermost self.old) }
        ensures next { IfSome result (λ key.
            ended_by End.Inner (without_innermost self.old) ≡ key ∷ ended_by End.Inner (without_innermost self.new)) }
        ensures last { IfNone result (ended_by End.Inner (without_innermost self.old) ≡ []) }
        ensures left { IfNone result (self.new.entries ≡ left_by End.Inner (without_innermost self.old)) }
        ensures outlives { IsSome result →
            left_by End.Inner (without_innermost self.new) ≡ left_by End.Inner (without_innermost self.old) }
        ensures outer { IsSome result → self.new.outer ≡ self.old.outer }
        ensures ended { IfNone result (self.new.outer ≡ outer_after End.Inner self.old.outer) }
        ensures room { self.old.room ≤ self.new.room }
        ensures slots { self.new.slots ≡ self.old.slots }
        ensures max_local { self.new.max_local ≡ self.old.max_local }
        ensures well_owned { IsWellOwned self.new }
    {
        let place = settle_inner(&mut self.slots, &mut self.outer, self.depth, self.touched);
        self.progress = Progress::start();
        if place == self.slots.len() {
            self.depth -= 1;
            self.at_once = most_at_once(self.depth);
            self.touched = 0;
            tidy(
                &mut self.slots,
                &mut self.index,
                &mut self.outer,
                self.len as usize,
            );
            return None;
        }
        self.touched = place + 1;
        let entry = &self.slots[place];
        let key = (entry.tag, entry.mode);
        let len = self.len as usize;
        forget(&mut self.outer, self.depth, place, place + 1);
        take_ended(&mut self.slots, &mut self.index, len, place);
        self.len -= 1;
        Some(key)
    }
}
