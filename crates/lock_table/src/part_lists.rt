//! What a `PlainPart` has on the heap. A function that looks through a list copies the tag first, so that it
//! is not read again at each place.

ghost use Rattle.std.specs.Prelude.{◌≡◌, ◌<◌, true, length, IfOk, vec_len, vec_capacity};
ghost use Rattle.std.specs.List.{list_any, HoldsAt};
ghost use Rattle.lock_table.specs.Clash.{lower_holder_of};
ghost use Rattle.lock_table.specs.Request.{is_request_of};

use crate::no_memory::NoMemory;
use crate::part_table::PartTable;
use crate::part_waits::{
    PartWait, awaited_mode, index_of_place, is_awaited, take_wait_out, waiter_at, wake_queue,
};
use crate::request::Request;
use crate::rows::{TableRow, sort_rows};
use crate::waits::Waiter;
use modes_core::{MOST_SESSIONS, Mode, ModeSet, SessionId, Tag, conflicts};
use std::alloc::{AllocError, Global};
use std::marker::Model;

/// Three lists of one partition: its holds, in no order, the waits on all its objects, and the waits that the
/// last wakeup granted. Most calls look through a whole list.
#[derive(Drop)]
pub struct PartLists {
    holds: Vec<Request>,
    waits: Vec<PartWait>,
    woken: Vec<(SessionId, Mode)>,
    begun: Option<Request>,
    prepared: Option<Request>,
}

impl Model for PartLists {
    ghost use Rattle.lock_table.specs.PartView.{PartView};

    ghost Value = { PartView };

    ghost use Rattle.lock_table.specs.PartLists.{view_of, ArePartLists};

    ghost view = { view_of };

    ghost invariant = { ArePartLists };
}

impl PartLists {
    ghost use Rattle.lock_table.specs.PartWaits.{EachOnce};
    ghost use Rattle.lock_table.specs.PartView.{capacity_of_lists};
    ghost use Rattle.std.specs.Prelude.{◌≡◌, [], None};

    /// A partition's lists with nothing in them, which grow by `alloc`.
    pub fn new(alloc: Global) -> Self
        ensures { result ≡ record {
          holds = [];
          waits = [];
          woken = [];
          begun = None;
          prepared = None;
          capacity = capacity_of_lists 0 0 0;
        } }
    {
        PartLists {
            holds: Vec::new(alloc),
            waits: Vec::new(alloc),
            woken: Vec::new(alloc),
            begun: None,
            prepared: None,
        }
    }

    /// The holds of the partition. Each request is held or awaited once at most.
    pub fn holds(&self) -> &[Request]
        ensures value { result.now ≡ self.now.holds }
        ensures each_once { EachOnce self.now.holds self.now.waits }
    {
        self.holds.as_slice()
    }

    /// The waits on all objects of the partition, those on one object in the order of the object's queue.
    pub fn waits(&self) -> &[PartWait]
        ensures { result.now ≡ self.now.waits }
    {
        self.waits.as_slice()
    }
}

/// A copy of a partition's lists in memory of its own, with room for as much as the lists have room for.
impl Clone for PartLists {
    ghost is_clone = { λ lists theirs. theirs ≡ lists };

    fn clone(&self) -> Result<Self, AllocError> {
        Ok(PartLists {
            holds: copy_of(&self.holds)?,
            waits: copy_of(&self.waits)?,
            woken: copy_of(&self.woken)?,
            begun: self.begun,
            prepared: self.prepared,
        })
    }
}

impl PartTable for PartLists {
    ghost use Rattle.lock_table.specs.PartView.{content_of};

    ghost content = { content_of };

    ghost begun = { λ lists. lists.begun };

    ghost prepared = { λ lists. lists.prepared };

    ghost woken = { λ lists. lists.woken };

    ghost capacity = { λ lists. lists.capacity };

    fn begin(&mut self, session: SessionId, tag: &Tag, mode: Mode) -> Result<(), NoMemory> {
        self.holds.reserve(self.waits.len() + 1)?;
        self.waits.reserve(1)?;
        self.woken.clear();
        self.woken.reserve(self.waits.len() + 1)?;
        let tag = *tag;
        self.begun = Some(Request { session, tag, mode });
        self.prepared = Some(Request { session, tag, mode });
        Ok(())
    }

    fn withdraw(&mut self, _session: SessionId, _tag: &Tag, _mode: Mode) {
        self.begun = None;
    }

    fn grant(&mut self, session: SessionId, tag: &Tag, mode: Mode) {
        self.begun = None;
        let tag = *tag;
        self.holds.push_reserved(Request { session, tag, mode });
    }

    fn ungrant(&mut self, session: SessionId, tag: &Tag, mode: Mode) -> bool {
        let index = index_of_hold(self.holds.as_slice(), session, tag, mode);
        self.holds.swap_remove(index);
        is_awaited(self.waits.as_slice(), tag, conflicts(mode))
    }

    fn above_holders(&self, _tag: &Tag) -> u16 {
        MOST_SESSIONS
    }

    fn held(&self, session: SessionId, tag: &Tag) -> ModeSet {
        let tag = *tag;
        let mut modes = ModeSet::empty();
        for hold in &self.holds {
            if hold.is_on(session, &tag) {
                modes = modes.with(hold.mode);
            }
        }
        modes
    }

    // Lists have no masks.
    fn may_conflict(&self, _tag: &Tag, _mode: Mode) -> bool {
        true
    }

    fn conflict_of(&self, session: SessionId, tag: &Tag, mode: Mode) -> Option<(SessionId, Mode)> {
        let tag = *tag;
        let conflicting = conflicts(mode);
        let mut lowest = None;
        for hold in &self.holds {
            if hold.is_in_the_way(session, &tag, conflicting) {
                lowest = Some(lower_holder(lowest, hold.session, hold.mode));
            }
        }
        lowest
    }

    fn conflict_of_begun(
        &self,
        session: SessionId,
        tag: &Tag,
        mode: Mode,
    ) -> Option<(SessionId, Mode)> {
        self.conflict_of(session, tag, mode)
    }

    fn waiter(&self, tag: &Tag, place: usize) -> Option<Waiter> {
        // No list is longer than a number of its length can say.
        let _len = self.waits.len();
        waiter_at(self.waits.as_slice(), tag, place)
    }

    fn join(&mut self, session: SessionId, tag: &Tag, mode: Mode, place: usize) {
        let held = self.held(session, tag);
        let index = index_of_place(self.waits.as_slice(), tag, place);
        self.begun = None;
        let waiter = Waiter {
            session,
            mode,
            held,
        };
        match self.waits.insert(index, PartWait { tag: *tag, waiter }) {
            Ok(()) => {}
            Err(_) => unreachable!(),
        }
    }

    fn leave(&mut self, session: SessionId, tag: &Tag) -> Option<Mode> {
        let mode = awaited_mode(self.waits.as_slice(), session, tag);
        take_wait_out(&mut self.waits, session, tag);
        mode
    }

    fn wake(&mut self, tag: &Tag) {
        wake_queue(&mut self.holds, &mut self.waits, &mut self.woken, tag);
    }

    fn woken(&self) -> &[(SessionId, Mode)] {
        self.woken.as_slice()
    }

    fn rows(&self, rows: &mut Vec<TableRow>) -> Result<(), NoMemory> {
        let before = rows.len();
        rows.reserve(self.holds.len() + self.waits.len())?;
        for hold in &self.holds {
            rows.push_reserved(TableRow {
                session: hold.session,
                tag: hold.tag,
                mode: hold.mode,
                granted: true,
            });
        }
        for wait in &self.waits {
            rows.push_reserved(wait.row());
        }
        sort_rows(&mut rows[before..]);
        Ok(())
    }
}

/// A copy of `list` in memory of its own, with room for as many entries as `list` has room for.
fn copy_of<T: Copy>(list: &Vec<T>) -> Result<Vec<T>, AllocError>
    ensures items { IfOk result (λ copy. copy.items ≡ list.now.items) }
    ensures len { IfOk result (λ copy. vec_len copy ≡ vec_len list.now) }
    ensures capacity { IfOk result (λ copy. vec_capacity copy ≡ vec_capacity list.now) }
{
    let mut copy = Vec::with_capacity(*list.allocator(), list.capacity())?;
    for entry in list {
        copy.push_reserved(*entry);
    }
    Ok(copy)
}

/// The index in `holds` of the hold of `session` on `tag` in `mode`. The latest holds are at the end, so the
/// search begins at the end.
fn index_of_hold(holds: &[Request], session: SessionId, tag: &Tag, mode: Mode) -> usize
    requires { list_any (λ hold. is_request_of hold session tag.now mode) holds.now ≡ true }
    ensures within { result < length holds.now }
    ensures its { HoldsAt (λ hold. is_request_of hold session tag.now mode ≡ true) holds.now result }
{
    let tag = *tag;
    let mut left = holds.len();
    while left > 0 {
        if holds[left - 1].is_of(session, &tag, mode) {
            return left - 1;
        }
        left -= 1;
    }
    unreachable!()
}

/// The lower of the holder `lowest`, if there is one, and the holder `session` with `mode`: lower by the
/// session's number, and then by the mode's.
fn lower_holder(
    lowest: Option<(SessionId, Mode)>,
    session: SessionId,
    mode: Mode,
) -> (SessionId, Mode)
    ensures { result ≡ lower_holder_of lowest session mode }
{
    if let Some((other, its)) = lowest {
        if other < session {
            return (other, its);
        }
        if other == session && its.number() <= mode.number() {
            return (other, its);
        }
    }
    (session, mode)
}
