ghost use Rattle.std.specs.Prelude.{◌≡◌, ◌<◌, ◌≤◌, ℕ, false, true, List, length, map, slice_get, Option, Some, None, option_map, OnOk, OnErr};
ghost use Rattle.modes_core.specs.declared.modes.Mode.{Mode};
ghost use Rattle.modes_core.specs.ModeSet.{set_has};
ghost use Rattle.modes_core.specs.Sessions.{most_sessions};
ghost use Rattle.lock_table.specs.Content.{Wait, Content, add_hold, remove_hold};
ghost use Rattle.lock_table.specs.Capacity.{Capacity, IsNotAbove};
ghost use Rattle.lock_table.specs.Clash.{NoConflictingHolder, HolderInTheWay};
ghost use Rattle.lock_table.specs.Listing.{AppendsListing};
ghost use Rattle.lock_table.specs.Queue.{Wakes, some_awaits_conflict, awaits_mode, waits_there, wait_in, add_wait, remove_wait};
ghost use Rattle.lock_table.specs.Waiter.{shown_wait, whose_and_mode};
ghost use Rattle.lock_table.specs.declared.request.Request.{Request};

use crate::no_memory::NoMemory;
use crate::request::Request;
use crate::rows::TableRow;
use crate::waits::Waiter;
use modes_core::{Mode, ModeSet, SessionId, Tag};

/// One partition of the lock table, however it keeps its holds and wait queues. Contracts see its `content`,
/// the request that is `begun` in it, the request for which `begin` made room last, `prepared`, whose waits
/// its last wakeup granted, `woken`, and for how many entries it has memory, its `capacity`.
///
/// A request is made in two steps: `begin` takes all the memory that the request can need, as a wait, as the
/// hold that the wait becomes, and to name it among those woken; `grant`, `join` or `withdraw`, one of which
/// ends the request, takes no memory, nor does what ends a hold or a wait: the capacity stays, or is less
/// where an emptied queue's memory is given back.
pub trait PartTable {
    ghost content: { Self → Content };

    ghost begun: { Self → Option Request };

    ghost prepared: { Self → Option Request };

    ghost woken: { Self → List (ℕ × Mode) };

    ghost capacity: { Self → Capacity };

    /// Makes room and records for the request of `session` for `tag` in `mode` (`SetupLockInTable` in
    /// lock.c). After `NoMemory` the partition is as before.
    fn begin(&mut self, session: SessionId, tag: &Tag, mode: Mode) -> Result<(), NoMemory>
        requires new { (content self.old).holds session tag.now mode ≡ false }
        requires not_awaited { awaits_mode ((content self.old).waits tag.now) session mode ≡ false }
        requires none_begun { begun self.old ≡ None }
        ensures content { content self.new ≡ content self.old }
        ensures ok { OnOk result (begun self.new ≡ Some (record { session = session; tag = tag.now; mode = mode })) }
        ensures prepared { OnOk result
            (prepared self.new ≡ Some (record { session = session; tag = tag.now; mode = mode })) }
        ensures err { OnErr result (begun self.new ≡ None) };

    /// Gives up the begun request of `session` for `tag` in `mode` (`CleanUpLock` in lock.c).
    fn withdraw(&mut self, session: SessionId, tag: &Tag, mode: Mode)
        requires begun { begun self.old ≡ Some (record { session = session; tag = tag.now; mode = mode }) }
        ensures content { content self.new ≡ content self.old }
        ensures prepared { prepared self.new ≡ prepared self.old }
        ensures ended { begun self.new ≡ None }
        ensures capacity { capacity self.new ≡ capacity self.old };

    /// Makes the begun request of `session` for `tag` in `mode` a hold (`GrantLock` in lock.c).
    fn grant(&mut self, session: SessionId, tag: &Tag, mode: Mode)
        requires begun { begun self.old ≡ Some (record { session = session; tag = tag.now; mode = mode }) }
        ensures content { content self.new ≡ add_hold (content self.old) session tag.now mode }
        ensures ended { begun self.new ≡ None }
        ensures capacity { capacity self.new ≡ capacity self.old };

    /// Takes the hold of `session` on `tag` in `mode` out of the partition, and answers whether somebody
    /// awaits the object in a mode in conflict with `mode` (`UnGrantLock` in lock.c, whose answer is whether
    /// a wakeup is needed).
    fn ungrant(&mut self, session: SessionId, tag: &Tag, mode: Mode) -> bool
        requires held { (content self.old).holds session tag.now mode ≡ true }
        ensures awaited { result ≡ some_awaits_conflict ((content self.old).waits tag.now) mode }
        ensures content { content self.new ≡ remove_hold (content self.old) session tag.now mode }
        ensures begun { begun self.new ≡ begun self.old }
        ensures capacity { capacity self.new ≡ capacity self.old };

    /// The modes in which `session` holds `tag` (`holdMask` of `PROCLOCK` in lock.h).
    fn held(&self, session: SessionId, tag: &Tag) -> ModeSet
        ensures { set_has result ≡ (content self.now).holds session tag.now };

    /// A number above those of all sessions that hold `tag`, so that a search for holders by number can end
    /// before it. `MOST_SESSIONS` says nothing: it is the answer of a keeper that would have to search
    /// itself.
    fn above_holders(&self, tag: &Tag) -> u16
        ensures within { result ≤ most_sessions }
        ensures above { result < most_sessions → (session : ℕ) (mode : Mode) → result ≤ session →
            (content self.now).holds session tag.now mode ≡ false };

    /// Whether a hold or a wait on `tag` may be in conflict with `mode` (the looks at `grantMask` and
    /// `waitMask` in lock.c). `false` says that none is, not even one of the session that makes the request;
    /// `true` says nothing, and a keeper with no masks always answers `true`.
    fn may_conflict(&self, tag: &Tag, mode: Mode) -> bool
        ensures awaited { result ≡ false → some_awaits_conflict ((content self.now).waits tag.now) mode ≡ false }
        ensures held { result ≡ false → (session : ℕ) →
            NoConflictingHolder (content self.now).holds session tag.now mode };

    /// The lowest-numbered session other than `session` that holds `tag` in a mode in conflict with `mode`,
    /// with its lowest such mode (`LockCheckConflicts` in lock.c).
    fn conflict_of(&self, session: SessionId, tag: &Tag, mode: Mode) -> Option<(SessionId, Mode)>
        ensures { HolderInTheWay (content self.now).holds session tag.now mode result };

    /// What `conflict_of` answers for the begun request of `session` for `tag` in `mode`. A keeper that
    /// remembers where the object's records are need not search for them.
    fn conflict_of_begun(
        &self,
        session: SessionId,
        tag: &Tag,
        mode: Mode,
    ) -> Option<(SessionId, Mode)>
        requires begun { begun self.now ≡ Some (record { session = session; tag = tag.now; mode = mode }) }
        ensures { HolderInTheWay (content self.now).holds session tag.now mode result };

    /// The wait at `place` of the queue of `tag`, counted from the front, or `None` after the last one.
    fn waiter(&self, tag: &Tag, place: usize) -> Option<Waiter>
        ensures wait { option_map shown_wait result ≡ slice_get ((content self.now).waits tag.now) place }
        ensures countable { length ((content self.now).waits tag.now) ≤ usize.MAX };

    /// Makes the begun request of `session` for `tag` in `mode` a wait before the one at `place` of the queue
    /// of `tag`, with the modes in which `session` holds `tag` now (`JoinWaitQueue`, in version 16 a part of
    /// `ProcSleep` in proc.c).
    fn join(&mut self, session: SessionId, tag: &Tag, mode: Mode, place: usize)
        requires begun { begun self.old ≡ Some (record { session = session; tag = tag.now; mode = mode }) }
        requires no_wait { waits_there ((content self.old).waits tag.now) session ≡ false }
        requires place { place ≤ length ((content self.old).waits tag.now) }
        ensures content { content self.new ≡ add_wait (content self.old) session tag.now mode place }
        ensures ended { begun self.new ≡ None }
        ensures capacity { capacity self.new ≡ capacity self.old };

    /// Takes the wait of `session` out of the queue of `tag` (`RemoveFromWaitQueue` in lock.c), and answers
    /// for which mode that wait was, or `None` where there was no wait.
    fn leave(&mut self, session: SessionId, tag: &Tag) -> Option<Mode>
        ensures mode { result ≡ option_map (λ wait. wait.mode) (wait_in ((content self.old).waits tag.now) session) }
        ensures content { content self.new ≡ remove_wait (content self.old) session tag.now }
        ensures begun { begun self.new ≡ begun self.old }
        ensures no_memory_taken { IsNotAbove (capacity self.old) (capacity self.new) };

    /// Grants each wait of the queue of `tag` that is free to go, and notes for `woken` whose waits these are
    /// (`ProcLockWakeup` in proc.c). No memory is taken.
    fn wake(&mut self, tag: &Tag)
        ensures woken { (granted : List Wait)
            × Wakes (content self.old) tag.now granted (content self.new)
            × (woken self.new ≡ map whose_and_mode granted) }
        ensures begun { begun self.new ≡ begun self.old }
        ensures no_memory_taken { IsNotAbove (capacity self.old) (capacity self.new) };

    /// Whose waits the last `wake` granted, with the modes that they awaited, in the order of granting.
    /// Another call on the partition may change this list.
    fn woken(&self) -> &[(SessionId, Mode)]
        ensures { result.now ≡ woken self.now };

    /// Appends a row for each hold and each wait of the partition to `rows`, in the listing's order
    /// (`GetLockStatusData` in lock.c). After `NoMemory` the list is as before.
    fn rows(&self, rows: &mut Vec<TableRow>) -> Result<(), NoMemory>
        ensures ok { OnOk result (AppendsListing (content self.now) rows.old.items rows.new.items) }
        ensures err { OnErr result (rows.new.items ≡ rows.old.items) };
}
