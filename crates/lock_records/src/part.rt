use crate::counts::Counts;
use crate::records::Records;
use crossbeam_utils::CachePadded;
use lock_table::{NoMemory, PartTable, TableRow, Waiter};
use modes_core::{Mode, ModeSet, SessionId, Tag};
use std::alloc::Global;
use std::marker::Model;

/// One partition of the lock table as lock.c keeps it, with lock and holder records. The records are on the
/// heap, so that the part is one pointer wide: a caller that takes a partition gets its part by value, and
/// puts it back by value. The boxes of two parts share no cache line.
#[derive(Drop)]
pub struct RecordPart {
    records: Box<CachePadded<Records>>,
}

impl Model for RecordPart {
    ghost use Rattle.lock_records.specs.View.{RecordView};

    ghost Value = { RecordView };

    ghost use Rattle.crossbeam_utils.specs.Padded.{padded_value};

    ghost view = { λ part. padded_value part.records.value };
}

impl RecordPart {
    ghost use Rattle.std.specs.Prelude.{◌≡◌, ◌<◌, None, IfOk, IfSome, IfNone};
    ghost use Rattle.lock_table.specs.Content.{empty_content};
    ghost use Rattle.lock_records.specs.View.{content_of};
    ghost use Rattle.lock_records.specs.Counts.{AreCountsOf, IsUntouched};

    /// A part with no record in it, which grows by `alloc`. After `NoMemory` no part was made.
    pub fn new(alloc: Global) -> Result<Self, NoMemory>
        ensures content { IfOk result (λ part. content_of part ≡ empty_content) }
        ensures begun { IfOk result (λ part. part.begun ≡ None) }
    {
        let records = Box::new(alloc, CachePadded::new(Records::new(alloc)?))?;
        Ok(RecordPart { records })
    }

    /// The counts of `tag`, or `None` where nobody holds or awaits the object: no lock record is kept of it
    /// then, so that counts are never all 0.
    pub fn counts(&self, tag: &Tag) -> Option<Counts>
        ensures found { IfSome result (AreCountsOf (content_of self.now) tag.now) }
        ensures used { IfSome result (λ counts. 0 < counts.requested_total) }
        ensures absent { IfNone result (IsUntouched (content_of self.now) tag.now) }
    {
        self.records.counts(tag)
    }
}

impl PartTable for RecordPart {
    ghost use Rattle.std.specs.Prelude.{◌≡◌, false, Some, None, OnOk, OnErr};
    ghost use Rattle.lock_table.specs.Queue.{awaits_mode};
    ghost use Rattle.lock_records.specs.View.{content_of, GrowsWhereFull};

    ghost content = { content_of };

    ghost begun = { λ part. part.begun };

    ghost prepared = { λ part. part.prepared };

    ghost woken = { λ part. part.woken };

    ghost capacity = { λ part. part.capacity };

    #[inline(always)]
    fn begin(&mut self, session: SessionId, tag: &Tag, mode: Mode) -> Result<(), NoMemory>
        requires new { (content_of self.old).holds session tag.now mode ≡ false }
        requires not_awaited { awaits_mode ((content_of self.old).waits tag.now) session mode ≡ false }
        requires none_begun { self.old.begun ≡ None }
        ensures content { content_of self.new ≡ content_of self.old }
        ensures ok { OnOk result (self.new.begun ≡ Some (record { session = session; tag = tag.now; mode = mode })) }
        ensures prepared { OnOk result
            (self.new.prepared ≡ Some (record { session = session; tag = tag.now; mode = mode })) }
        ensures err { OnErr result (self.new.begun ≡ None) }
        ensures grows { GrowsWhereFull self.old self.new }
    {
        self.records.begin(session, tag, mode)
    }

    #[inline(always)]
    fn withdraw(&mut self, session: SessionId, tag: &Tag, mode: Mode) {
        self.records.withdraw(session, tag, mode);
    }

    #[inline(always)]
    fn grant(&mut self, session: SessionId, tag: &Tag, mode: Mode) {
        self.records.grant(session, tag, mode);
    }

    #[inline(always)]
    fn ungrant(&mut self, session: SessionId, tag: &Tag, mode: Mode) -> bool {
        self.records.ungrant(session, tag, mode)
    }

    #[inline(always)]
    fn held(&self, session: SessionId, tag: &Tag) -> ModeSet {
        self.records.held(session, tag)
    }

    fn above_holders(&self, tag: &Tag) -> u16 {
        self.records.above_holders(tag)
    }

    #[inline(always)]
    fn may_conflict(&self, tag: &Tag, mode: Mode) -> bool {
        self.records.may_conflict(tag, mode)
    }

    #[inline(always)]
    fn conflict_of(&self, session: SessionId, tag: &Tag, mode: Mode) -> Option<(SessionId, Mode)> {
        self.records.conflict_of(session, tag, mode)
    }

    #[inline(always)]
    fn conflict_of_begun(
        &self,
        session: SessionId,
        tag: &Tag,
        mode: Mode,
    ) -> Option<(SessionId, Mode)> {
        self.records.conflict_of_begun(session, tag, mode)
    }

    #[inline(always)]
    fn waiter(&self, tag: &Tag, place: usize) -> Option<Waiter> {
        self.records.waiter(tag, place)
    }

    fn join(&mut self, session: SessionId, tag: &Tag, mode: Mode, place: usize) {
        self.records.join(session, tag, mode, place);
    }

    fn leave(&mut self, session: SessionId, tag: &Tag) -> Option<Mode> {
        self.records.leave(session, tag)
    }

    fn wake(&mut self, tag: &Tag) {
        self.records.wake(tag);
    }

    fn woken(&self) -> &[(SessionId, Mode)] {
        self.records.woken()
    }

    fn rows(&self, rows: &mut Vec<TableRow>) -> Result<(), NoMemory> {
        self.records.rows(rows)
    }
}
