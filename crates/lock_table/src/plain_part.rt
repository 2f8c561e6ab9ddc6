use crate::no_memory::NoMemory;
use crate::part_lists::PartLists;
use crate::part_table::PartTable;
use crate::part_waits::{PartWait, awaited_mode};
use crate::request::Request;
use crate::rows::TableRow;
use crate::waits::Waiter;
use crossbeam_utils::CachePadded;
use modes_core::{Mode, ModeSet, SessionId, Tag};
use std::alloc::{AllocError, Global};
use std::marker::Model;

/// The plain keeper of a partition: a list of its holds, a list of the waits on all its objects, and a list
/// of the waits that its last wakeup granted. Most calls look through a whole list. The lists are on the
/// heap, so that the part is one pointer wide: a session that takes a partition gets the part by value, and
/// puts it back by value. The boxes of two parts share no cache line.
#[derive(Drop)]
pub struct PlainPart {
    lists: Box<CachePadded<PartLists>>,
}

impl Model for PlainPart {
    ghost use Rattle.lock_table.specs.PartView.{PartView};

    ghost Value = { PartView };

    ghost use Rattle.crossbeam_utils.specs.Padded.{padded_value};

    ghost view = { λ part. padded_value part.lists.value };
}

impl PlainPart {
    ghost use Rattle.lock_table.specs.PartView.{content_of};
    ghost use Rattle.lock_table.specs.PartWaits.{EachOnce};
    ghost use Rattle.lock_table.specs.Queue.{waits_there};
    ghost use Rattle.std.specs.Prelude.{◌≡◌, ◌==◌, IfOk, None};
    ghost use Rattle.std.specs.List.{list_any};
    ghost use Rattle.lock_table.specs.Content.{empty_content};

    /// A partition with nothing in it, which grows by `alloc`. `NoMemory` where there is no memory for it.
    pub fn new(alloc: Global) -> Result<Self, NoMemory>
        ensures content { IfOk result (λ part. content_of part ≡ empty_content) }
        ensures begun { IfOk result (λ part. part.begun ≡ None) }
    {
        let lists = Box::new(alloc, CachePadded::new(PartLists::new(alloc)))?;
        Ok(PlainPart { lists })
    }

    /// Whether `session` has a hold in the partition's content.
    pub fn has_hold_of(&self, session: SessionId) -> bool
        ensures { result ≡ list_any (λ hold. hold.session == session) self.now.holds }
    {
        self.holds().iter().any(|hold| hold.session == session)
    }

    /// Whether `session` waits in the queue of `tag`.
    pub fn has_wait_of(&self, session: SessionId, tag: &Tag) -> bool
        ensures { result ≡ waits_there ((content_of self.now).waits tag.now) session }
    {
        awaited_mode(self.waits(), session, tag).is_some()
    }

    /// The holds of the partition. Each request is held or awaited once at most.
    pub fn holds(&self) -> &[Request]
        ensures value { result.now ≡ self.now.holds }
        ensures each_once { EachOnce self.now.holds self.now.waits }
    {
        self.lists.holds()
    }

    /// The waits on all objects of the partition, those on one object in the order of the object's queue.
    pub fn waits(&self) -> &[PartWait]
        ensures { result.now ≡ self.now.waits }
    {
        self.lists.waits()
    }
}

/// A copy of the partition in memory of its own, with room for as much as the partition has room for.
impl Clone for PlainPart {
    ghost use Rattle.std.specs.Prelude.{◌≡◌};

    ghost is_clone = { λ part its. its ≡ part };

    fn clone(&self) -> Result<Self, AllocError> {
        let alloc = *Box::allocator(&self.lists);
        let lists: PartLists = (**self.lists).clone()?;
        let lists = Box::new(alloc, CachePadded::new(lists))?;
        Ok(PlainPart { lists })
    }
}

impl PartTable for PlainPart {
    ghost use Rattle.lock_table.specs.PartView.{content_of};

    ghost content = { content_of };

    ghost begun = { λ part. part.begun };

    ghost prepared = { λ part. part.prepared };

    ghost woken = { λ part. part.woken };

    ghost capacity = { λ part. part.capacity };

    fn begin(&mut self, session: SessionId, tag: &Tag, mode: Mode) -> Result<(), NoMemory> {
        self.lists.begin(session, tag, mode)
    }

    fn withdraw(&mut self, session: SessionId, tag: &Tag, mode: Mode) {
        self.lists.withdraw(session, tag, mode);
    }

    fn grant(&mut self, session: SessionId, tag: &Tag, mode: Mode) {
        self.lists.grant(session, tag, mode);
    }

    fn ungrant(&mut self, session: SessionId, tag: &Tag, mode: Mode) -> bool {
        self.lists.ungrant(session, tag, mode)
    }

    fn held(&self, session: SessionId, tag: &Tag) -> ModeSet {
        self.lists.held(session, tag)
    }

    fn above_holders(&self, tag: &Tag) -> u16 {
        self.lists.above_holders(tag)
    }

    fn may_conflict(&self, tag: &Tag, mode: Mode) -> bool {
        self.lists.may_conflict(tag, mode)
    }

    fn conflict_of(&self, session: SessionId, tag: &Tag, mode: Mode) -> Option<(SessionId, Mode)> {
        self.lists.conflict_of(session, tag, mode)
    }

    fn conflict_of_begun(
        &self,
        session: SessionId,
        tag: &Tag,
        mode: Mode,
    ) -> Option<(SessionId, Mode)> {
        self.lists.conflict_of(session, tag, mode)
    }

    fn waiter(&self, tag: &Tag, place: usize) -> Option<Waiter> {
        self.lists.waiter(tag, place)
    }

    fn join(&mut self, session: SessionId, tag: &Tag, mode: Mode, place: usize) {
        self.lists.join(session, tag, mode, place);
    }

    fn leave(&mut self, session: SessionId, tag: &Tag) -> Option<Mode> {
        self.lists.leave(session, tag)
    }

    fn wake(&mut self, tag: &Tag) {
        self.lists.wake(tag);
    }

    fn woken(&self) -> &[(SessionId, Mode)] {
        self.lists.woken()
    }

    fn rows(&self, rows: &mut Vec<TableRow>) -> Result<(), NoMemory> {
        self.lists.rows(rows)
    }
}
