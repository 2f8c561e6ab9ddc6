//! What the calls of a partition with records are made of: looks at its records, a wait that becomes a hold,
//! and the list of those whom a wakeup granted.

ghost use Rattle.std.specs.Prelude.{◌≡◌, ◌<◌, ◌≤◌, false, true};

use super::Records;
use crate::listing::push_holds;
use crate::locks::find_lock;
use crate::objects::{add_hold, lower_awaited, queue_place};
use lock_table::{NoMemory, PartTable, TableRow, Waiter, is_against};
use modes_core::{Mode, ModeSet, SessionId, Tag};

impl Records {
    ghost use Rattle.std.specs.Prelude.{ℕ, ◌+◌, [], ◌∷◌, ◌++◌, length, option_map, slice_get, OnOk, OnErr, IfSome, IfNone, if◌then◌else◌};
    ghost use Rattle.lock_table.specs.Waiter.{shown_wait};
    ghost use Rattle.lock_table.specs.Listing.{has_row};
    ghost use Rattle.lock_records.specs.Queues.{IsQueueAt, waiting_in};
    ghost use Rattle.lock_records.specs.Rows.{AppendsRows, HasMoreRows};
    ghost use Rattle.modes_core.specs.declared.modes.Mode.{Mode};
    ghost use Rattle.modes_core.specs.ModeSet.{set_has};
    ghost use Rattle.lock_table.specs.Content.{add_hold};
    ghost use Rattle.lock_table.specs.Capacity.{IsNotAbove};
    ghost use Rattle.lock_table.specs.Clash.{NoConflictingHolder, HolderInTheWay};
    ghost use Rattle.lock_table.specs.Queue.{awaits_mode, remove_wait, conflicts_with_some};
    ghost use Rattle.lock_records.specs.View.{content_of};

    /// Whether `session` can be granted `mode` on `tag` behind waits for the modes `ahead`: `mode` conflicts
    /// with none of `ahead`, and with no hold of another session.
    pub(super) fn is_free(&self, session: SessionId, tag: &Tag, mode: Mode, ahead: ModeSet) -> bool
        ensures free { result ≡ true →
            (conflicts_with_some mode (set_has ahead) ≡ false)
            × NoConflictingHolder (content_of self.now).holds session tag.now mode }
        ensures taken { result ≡ false → conflicts_with_some mode (set_has ahead) ≡ false →
            NoConflictingHolder (content_of self.now).holds session tag.now mode → ⊥ }
    {
        if is_against(mode, ahead) {
            return false;
        }
        self.conflict_of(session, tag, mode).is_none()
    }

    /// The answer of `conflict_of` for `session`, `tag` and `mode`: a function of its own, called seldom.
    #[cold]
    #[inline(never)]
    pub(super) fn conflict_by_look(
        &self,
        session: SessionId,
        tag: &Tag,
        mode: Mode,
    ) -> Option<(SessionId, Mode)>
        ensures { HolderInTheWay (content_of self.now).holds session tag.now mode result }
    {
        self.conflict_of(session, tag, mode)
    }

    /// The place of the queue record of `tag`, or `None` where nobody awaits the object.
    pub(super) fn queue_of(&self, tag: &Tag) -> Option<usize>
        ensures found { IfSome result (IsQueueAt self.now.queues tag.now) }
        ensures absent { IfNone result ((content_of self.now).waits tag.now ≡ []) }
    {
        match find_lock(&self.locks, &self.index, self.hint, tag) {
            Some(place) => queue_place(&self.locks[place], &self.queues, tag),
            None => None,
        }
    }

    /// The wait at `place` of the wait queue of `tag`, counted from 0 at the front, if there is one.
    pub(super) fn waiter_of(&self, tag: &Tag, place: usize) -> Option<Waiter>
        ensures wait { option_map shown_wait result ≡ slice_get ((content_of self.now).waits tag.now) place }
        ensures countable { length ((content_of self.now).waits tag.now) ≤ usize.MAX }
    {
        match self.queue_of(tag) {
            Some(at) => {
                let waiters = self.queues.waiters(at, tag);
                // No list is longer than a number of its length can say.
                let _len = waiters.len();
                waiters.get(place).copied()
            }
            None => None,
        }
    }

    /// Makes the wait of `session` for `tag` in `mode` a hold.
    pub(super) fn grant_wait(&mut self, session: SessionId, tag: &Tag, mode: Mode)
        requires { awaits_mode ((content_of self.old).waits tag.now) session mode ≡ true }
        ensures content { content_of self.new
            ≡ add_hold (remove_wait (content_of self.old) session tag.now) session tag.now mode }
        ensures begun { self.new.begun ≡ self.old.begun }
        ensures one_less { waiting_in self.new.queues + 1 ≡ waiting_in self.old.queues }
        ensures woken { self.new.woken ≡ self.old.woken }
        ensures woken_room { self.new.capacity.woken ≡ self.old.capacity.woken }
        ensures no_memory_taken { IsNotAbove self.old.capacity self.new.capacity }
    {
        let Some(at) = self.queue_of(tag) else {
            unreachable!()
        };
        let Some(place) = find_lock(&self.locks, &self.index, self.hint, tag) else {
            unreachable!()
        };
        self.absent = false;
        self.known = false;
        self.queues.leave(at, tag, session);
        lower_awaited(&mut self.locks, place, tag, mode);
        add_hold(
            &mut self.locks,
            &mut self.holders,
            place,
            tag,
            session,
            mode,
        );
    }

    /// Forgets which waits the last wakeup granted.
    pub(super) fn forget_woken(&mut self)
        ensures { self.new ≡ record self.old { woken = [] } }
    {
        self.woken.clear();
    }

    /// Adds to the list of granted waits, at its end, that of `session` for `mode`.
    pub(super) fn note_woken(&mut self, session: SessionId, mode: Mode)
        requires { length self.old.woken < self.old.capacity.woken }
        ensures { self.new ≡ record self.old { woken = self.old.woken ++ (session, mode) ∷ [] } }
    {
        self.woken.push_reserved((session, mode));
    }

    /// Appends to `rows` a row for each hold and each wait of the partition, in no order. After a refusal
    /// some rows may have been added.
    pub(super) fn push_rows(&self, rows: &mut Vec<TableRow>) -> Result<(), NoMemory>
        ensures ok { OnOk result (AppendsRows rows.old.items rows.new.items
            (λ row. if has_row (content_of self.now) row then 1 else 0)) }
        ensures err { OnErr result (HasMoreRows rows.old.items rows.new.items) }
    {
        if push_holds(&self.holders, rows).is_err() {
            return Err(NoMemory);
        }
        self.queues.push_rows(rows)
    }
}
