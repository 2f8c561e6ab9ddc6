ghost use Rattle.std.specs.Prelude.{◌≡◌, ◌<◌, ◌≤◌, false, true, None, IfOk};

mod steps;

use crate::counts::{Counts, counts_of};
use crate::holders::{HolderRecord, above_holders, find_holder};
use crate::locks::{LockRecord, drop_empty, find_lock, find_or_make_lock, hinted_lock};
use crate::objects::{
    add_hold, holder_in_the_way, lower_awaited, make_room, make_room_to_wait, queue_place,
    raise_awaited, remove_hold,
};
use crate::pending::Pending;
use crate::wait_queues::{WaitQueues, queue_up};
use lock_table::{NoMemory, PartTable, Request, TableRow, Waiter, is_against, sort_rows};
use modes_core::{Mode, ModeSet, SessionId, Tag};
use place_index::PlaceIndex;
use slab::Slab;
use std::alloc::Global;
use std::marker::Model;

/// One partition of the lock table as lock.c keeps it: lock records, found through an index by the hash of
/// the tag, holder records, queue records of the objects that somebody awaits, and the list of those whom the
/// last wakeup granted.
#[derive(Drop)]
pub struct Records {
    locks: Slab<LockRecord>,
    holders: Slab<HolderRecord>,
    queues: WaitQueues,
    index: PlaceIndex,
    /// The request that is begun in the partition, if one is.
    begun: Pending,
    /// The request for which the partition made room last.
    prepared: Pending,
    /// The place where a lock record was found last: the next call mostly wants the same record.
    hint: usize,
    /// Whether the object of the begun request is known to have no lock record. Nobody makes one before the
    /// request is granted or joins the wait queue.
    absent: bool,
    /// Whether the lock record of the begun request's object is known to be at `hint`.
    known: bool,
    /// The sessions whose waits the last wakeup granted, each with the mode. There is room for all sessions
    /// that wait in the partition.
    woken: Vec<(SessionId, Mode)>,
}

impl Model for Records {
    ghost use Rattle.lock_records.specs.View.{RecordView};

    ghost Value = { RecordView };

    ghost use Rattle.lock_records.specs.Records.{view_of, AreRecords};

    ghost view = { view_of };

    ghost invariant = { AreRecords };
}

impl Records {
    ghost use Rattle.std.specs.Prelude.{IfSome, IfNone};
    ghost use Rattle.lock_table.specs.Content.{empty_content};
    ghost use Rattle.lock_records.specs.View.{content_of};
    ghost use Rattle.lock_records.specs.Counts.{AreCountsOf, IsUntouched};

    /// The records of a partition with no record in it, which grow by `alloc`.
    pub fn new(alloc: Global) -> Result<Self, NoMemory>
        ensures content { IfOk result (λ part. content_of part ≡ empty_content) }
        ensures begun { IfOk result (λ part. part.begun ≡ None) }
    {
        let index = PlaceIndex::new(alloc)?;
        Ok(Records {
            locks: Slab::new(alloc),
            holders: Slab::new(alloc),
            queues: WaitQueues::new(alloc),
            index,
            begun: Pending::nothing(),
            prepared: Pending::nothing(),
            hint: 0,
            absent: false,
            known: false,
            woken: Vec::new(alloc),
        })
    }

    /// The counts of `tag`, or `None` where nobody holds or awaits the object: no lock record is kept of it
    /// then, so that counts are never all 0.
    pub fn counts(&self, tag: &Tag) -> Option<Counts>
        ensures found { IfSome result (AreCountsOf (content_of self.now) tag.now) }
        ensures used { IfSome result (λ counts. 0 < counts.requested_total) }
        ensures absent { IfNone result (IsUntouched (content_of self.now) tag.now) }
    {
        match find_lock(&self.locks, &self.index, self.hint, tag) {
            Some(place) => Some(counts_of(&self.locks[place])),
            None => None,
        }
    }
}

impl PartTable for Records {
    ghost use Rattle.std.specs.Prelude.{◌≡◌, false, Some, None, OnOk, OnErr};
    ghost use Rattle.lock_table.specs.Queue.{awaits_mode};
    ghost use Rattle.lock_records.specs.View.{content_of, GrowsWhereFull};

    ghost content = { content_of };

    ghost begun = { λ part. part.begun };

    ghost prepared = { λ part. part.prepared };

    ghost woken = { λ part. part.woken };

    ghost capacity = { λ part. part.capacity };

    #[inline(always)]
    fn begin(&mut self, session: SessionId, tag: &Tag, mode: Mode) -> Result<(), NoMemory>
        requires new { (content_of self.old).holds session tag.now mode ≡ false }
        requires not_awaited { awaits_mode ((content_of self.old).waits tag.now) session mode ≡ false }
        requires none_begun { self.old.begun ≡ None }
        ensures content { content_of self.new ≡ content_of self.old }
        ensures ok { OnOk result (self.new.begun ≡ Some (record { session = session; tag = tag.now; mode = mode })) }
        ensures prepared { OnOk result
            (self.new.prepared ≡ Some (record { session = session; tag = tag.now; mode = mode })) }
        ensures err { OnErr result (self.new.begun ≡ None) }
        ensures grows { GrowsWhereFull self.old self.new }
    {
        make_room(
            &mut self.locks,
            &mut self.holders,
            &mut self.queues,
            &mut self.index,
            &mut self.woken,
        )?;
        let found = find_lock(&self.locks, &self.index, self.hint, tag);
        make_room_to_wait(&self.locks, &mut self.queues, found, tag)?;
        self.absent = found.is_none();
        self.known = found.is_some();
        self.hint = found.unwrap_or(self.hint);
        let request = Request {
            session,
            tag: *tag,
            mode,
        };
        self.begun = Pending::of(&request);
        self.prepared = Pending::of(&request);
        Ok(())
    }

    #[inline(always)]
    fn withdraw(&mut self, _session: SessionId, _tag: &Tag, _mode: Mode) {
        self.begun = Pending::nothing();
    }

    #[inline(always)]
    fn grant(&mut self, session: SessionId, tag: &Tag, mode: Mode) {
        self.begun = Pending::nothing();
        let absent = self.absent;
        self.absent = false;
        self.known = false;
        let place = find_or_make_lock(&mut self.locks, &mut self.index, self.hint, absent, tag);
        self.hint = place;
        add_hold(
            &mut self.locks,
            &mut self.holders,
            place,
            tag,
            session,
            mode,
        );
    }

    #[inline(always)]
    fn ungrant(&mut self, session: SessionId, tag: &Tag, mode: Mode) -> bool {
        self.absent = false;
        self.known = false;
        let Some(place) = find_lock(&self.locks, &self.index, self.hint, tag) else {
            unreachable!()
        };
        self.hint = place;
        let awaited = self.locks[place].is_awaited(mode);
        remove_hold(
            &mut self.locks,
            &mut self.holders,
            place,
            tag,
            session,
            mode,
        );
        drop_empty(&mut self.locks, &mut self.index, tag, place);
        awaited
    }

    #[inline(always)]
    fn held(&self, session: SessionId, tag: &Tag) -> ModeSet {
        let Some(place) = find_lock(&self.locks, &self.index, self.hint, tag) else {
            return ModeSet::empty();
        };
        match find_holder(&self.holders, self.locks[place].holders, tag, session) {
            Some(holder) => self.holders[holder].modes,
            None => ModeSet::empty(),
        }
    }

    fn above_holders(&self, tag: &Tag) -> u16 {
        match find_lock(&self.locks, &self.index, self.hint, tag) {
            Some(place) => above_holders(&self.holders, self.locks[place].holders, tag),
            None => 0,
        }
    }

    #[inline(always)]
    fn may_conflict(&self, tag: &Tag, mode: Mode) -> bool {
        match hinted_lock(&self.locks, &self.index, self.hint, tag) {
            Some(lock) => lock.may_conflict(mode),
            None => false,
        }
    }

    #[inline(always)]
    fn conflict_of(&self, session: SessionId, tag: &Tag, mode: Mode) -> Option<(SessionId, Mode)> {
        match hinted_lock(&self.locks, &self.index, self.hint, tag) {
            Some(lock) => holder_in_the_way(lock, &self.holders, tag, session, mode),
            None => None,
        }
    }

    #[inline(always)]
    fn conflict_of_begun(
        &self,
        session: SessionId,
        tag: &Tag,
        mode: Mode,
    ) -> Option<(SessionId, Mode)> {
        if self.absent {
            return None;
        }
        if !self.known {
            return self.conflict_by_look(session, tag, mode);
        }
        holder_in_the_way(&self.locks[self.hint], &self.holders, tag, session, mode)
    }

    #[inline(always)]
    fn waiter(&self, tag: &Tag, place: usize) -> Option<Waiter> {
        // Mostly nobody waits in a partition.
        if self.queues.waiting() == 0 {
            return None;
        }
        self.waiter_of(tag, place)
    }

    fn join(&mut self, session: SessionId, tag: &Tag, mode: Mode, place: usize) {
        let _number = session.number();
        let held = self.held(session, tag);
        let queue = self.queue_of(tag);
        let _most = self.holders.capacity();
        self.begun = Pending::nothing();
        let absent = self.absent;
        self.absent = false;
        self.known = false;
        let at = find_or_make_lock(&mut self.locks, &mut self.index, self.hint, absent, tag);
        self.hint = at;
        let waiter = Waiter {
            session,
            mode,
            held,
        };
        let queue = queue_up(&mut self.queues, queue, tag, place, waiter);
        raise_awaited(&mut self.locks, at, tag, mode, queue);
    }

    fn leave(&mut self, session: SessionId, tag: &Tag) -> Option<Mode> {
        let at = self.queue_of(tag)?;
        let mode = self.queues.awaited_mode(at, tag, session)?;
        let Some(place) = find_lock(&self.locks, &self.index, self.hint, tag) else {
            unreachable!()
        };
        self.absent = false;
        self.known = false;
        self.hint = place;
        self.queues.leave(at, tag, session);
        lower_awaited(&mut self.locks, place, tag, mode);
        drop_empty(&mut self.locks, &mut self.index, tag, place);
        Some(mode)
    }

    fn wake(&mut self, tag: &Tag) {
        let _waiting = self.queues.waiting();
        self.forget_woken();
        let mut ahead = ModeSet::empty();
        let mut place = 0;
        while let Some(waiter) = self.waiter(tag, place) {
            let Waiter { session, mode, .. } = waiter;
            if self.is_free(session, tag, mode, ahead) {
                self.grant_wait(session, tag, mode);
                self.note_woken(session, mode);
            } else {
                ahead = ahead.with(mode);
                place += 1;
            }
        }
    }

    fn woken(&self) -> &[(SessionId, Mode)] {
        self.woken.as_slice()
    }

    fn rows(&self, rows: &mut Vec<TableRow>) -> Result<(), NoMemory> {
        let before = rows.len();
        match self.push_rows(rows) {
            Ok(()) => {
                sort_rows(&mut rows[before..]);
                Ok(())
            }
            Err(error) => {
                rows.truncate(before);
                Err(error)
            }
        }
    }
}
