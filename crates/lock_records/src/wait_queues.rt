//! The queues of the objects that somebody awaits.

ghost use Rattle.std.specs.Prelude.{◌≡◌, ◌<◌, ◌≤◌, ◌+◌, ◌==◌, [], ◌∷◌, true, length, map, find, option_map, count_by, is_some, IfSome, IfNone, OnOk, OnErr, vec_capacity};
ghost use Rattle.std.specs.List.{list_any, HoldsAt};
ghost use Rattle.std.specs.Option.{ForSome, ForNone};
ghost use Rattle.modes_core.specs.declared.tags.Tag.{Tag};
ghost use Rattle.modes_core.specs.Tag.{tag_eq};
ghost use Rattle.lock_table.specs.Put.{put};
ghost use Rattle.lock_table.specs.Queue.{joined, waits_there, wait_in, queue_without};
ghost use Rattle.lock_table.specs.Waiter.{shown_wait};
ghost use Rattle.lock_records.specs.Queues.{queue_at, is_queue_of, queue_on, waiting_in, IsQueueAt, HasSameRoom, HasNoMoreRoom, HasRoomForQueue, HasRoomInQueue, HasSameQueues};
ghost use Rattle.lock_records.specs.Rows.{AppendsRows, HasMoreRows, awaited_below};

use crate::listing::push_waits;
use lock_table::{NoMemory, TableRow, Waiter};
use modes_core::{Mode, SessionId, Tag};
use slab::Slab;
use std::alloc::Global;
use std::marker::Model;
use std::mem::replace;

/// The wait queue of an object (`waitProcs` of `LOCK` in lock.h), the first wait first. Each session waits
/// for the object once at most.
#[derive(Drop)]
pub struct QueueRecord {
    pub tag: Tag,
    pub waiters: Vec<Waiter>,
}

/// The queue records of a partition, and how many waits they have together. An object has a queue record only
/// while somebody awaits the object. To add a wait takes no memory: room is made before.
#[derive(Drop)]
pub struct WaitQueues {
    slots: Slab<QueueRecord>,
    waiting: usize,
    /// The empty wait queue that the next new queue record takes, mostly with room for some waits.
    spare: Vec<Waiter>,
}

impl Model for WaitQueues {
    ghost use Rattle.std.specs.Prelude.{◌≡◌, [], vec_capacity};
    ghost use Rattle.lock_records.specs.Queues.{QueuesView, AreQueues, waiting_in};

    ghost Value = { QueuesView };

    ghost view = { λ queues. record {
      slots = queues.slots.slots;
      capacity = queues.slots.capacity;
      spare = vec_capacity queues.spare;
    } };

    ghost invariant = { λ queues. AreQueues queues.slots.slots × (queues.waiting ≡ waiting_in queues.slots.slots)
        × (queues.spare.items ≡ []) };
}

impl WaitQueues {
    /// The queue records of a partition in which nobody waits: none. Later records take memory by `alloc`.
    pub fn new(alloc: Global) -> Self
        ensures { result.slots ≡ [] }
    {
        WaitQueues {
            slots: Slab::new(alloc),
            waiting: 0,
            spare: Vec::new(alloc),
        }
    }

    /// Makes room for one more queue record, and for a wait in it.
    #[inline(always)]
    pub(crate) fn reserve(&mut self) -> Result<(), NoMemory>
        ensures room { OnOk result (HasRoomForQueue self.new) }
        ensures same { self.new.slots ≡ self.old.slots }
        ensures grows { count_by is_some self.old.slots < self.old.capacity → self.new.capacity ≡ self.old.capacity }
        ensures spare_grows { 0 < self.old.spare → self.new.spare ≡ self.old.spare }
    {
        self.slots.reserve(1)?;
        if self.spare.capacity() == 0 {
            grow_spare(&mut self.spare)?;
        }
        Ok(())
    }

    /// Makes room for one more wait in the wait queue of `tag`, whose queue record is at `at`.
    pub(crate) fn reserve_in(&mut self, at: usize, tag: &Tag) -> Result<(), NoMemory>
        requires { IsQueueAt self.old.slots tag.now at }
        ensures room { OnOk result (HasRoomInQueue self.new.slots tag.now) }
        ensures same { HasSameQueues self.old self.new }
    {
        self.slots[at].waiters.reserve(1)?;
        Ok(())
    }

    /// How many waits all queues of the partition have together.
    #[inline(always)]
    pub(crate) fn waiting(&self) -> usize
        ensures { result ≡ waiting_in self.now.slots }
    {
        self.waiting
    }

    /// Whether the queue record of `tag` is at `place`.
    #[inline(always)]
    fn is_at(&self, place: usize, tag: &Tag) -> bool
        ensures { result ≡ is_queue_of tag.now (queue_at self.now.slots place) }
    {
        match self.slots.get(place) {
            Some(queue) => tag.is_same(queue.tag),
            None => false,
        }
    }

    /// The place of the queue record of `tag`, if it has one. `noted`, the place that the lock record of
    /// `tag` notes, is looked at first, and other places only where the record isn't at `noted`.
    pub(crate) fn find(&self, noted: usize, tag: &Tag) -> Option<usize>
        ensures found { IfSome result (IsQueueAt self.now.slots tag.now) }
        ensures absent { IfNone result (queue_on self.now.slots tag.now ≡ []) }
    {
        if self.is_at(noted, tag) {
            return Some(noted);
        }
        for place in 0..self.slots.capacity() {
            if self.is_at(place, tag) {
                return Some(place);
            }
        }
        None
    }

    /// The waits for `tag`, whose queue record is at `at`, the first one first.
    pub(crate) fn waiters(&self, at: usize, tag: &Tag) -> &[Waiter]
        requires { IsQueueAt self.now.slots tag.now at }
        ensures { map shown_wait result.now ≡ queue_on self.now.slots tag.now }
    {
        self.slots[at].waiters.as_slice()
    }

    /// The mode that `session` awaits on `tag`, whose queue record is at `at`, or `None` where `session`
    /// doesn't wait for `tag`.
    pub(crate) fn awaited_mode(&self, at: usize, tag: &Tag, session: SessionId) -> Option<Mode>
        requires { IsQueueAt self.now.slots tag.now at }
        ensures { result ≡ option_map (λ wait. wait.mode) (wait_in (queue_on self.now.slots tag.now) session) }
    {
        mode_of(self.waiters(at, tag), session)
    }

    /// Puts `waiter` into the wait queue of `tag`, whose queue record is at `at`, before the wait at `place`,
    /// or at the end where `place` is the length of the queue.
    pub(crate) fn insert(&mut self, at: usize, tag: &Tag, place: usize, waiter: Waiter)
        requires there { IsQueueAt self.old.slots tag.now at }
        requires room { HasRoomInQueue self.old.slots tag.now }
        requires countable { waiting_in self.old.slots < usize.MAX }
        requires place { place ≤ length (queue_on self.old.slots tag.now) }
        ensures waits { queue_on self.new.slots ≡ put tag_eq (queue_on self.old.slots) tag.now
            (joined place (shown_wait waiter) (queue_on self.old.slots tag.now)) }
        ensures one_more { waiting_in self.new.slots ≡ waiting_in self.old.slots + 1 }
        ensures capacity { HasSameRoom self.old self.new }
    {
        match self.slots[at].waiters.insert(place, waiter) {
            Ok(()) => {}
            Err(_) => unreachable!(),
        }
        self.waiting += 1;
    }

    /// Makes the queue record of `tag`, which nobody awaits yet, with `waiter` in its wait queue, and answers
    /// the record's place.
    #[inline(never)]
    pub(crate) fn start(&mut self, tag: &Tag, waiter: Waiter) -> usize
        requires none { queue_on self.old.slots tag.now ≡ [] }
        requires room { HasRoomForQueue self.old }
        requires countable { waiting_in self.old.slots < usize.MAX }
        ensures waits { queue_on self.new.slots
            ≡ put tag_eq (queue_on self.old.slots) tag.now (shown_wait waiter ∷ []) }
        ensures one_more { waiting_in self.new.slots ≡ waiting_in self.old.slots + 1 }
        ensures capacity { HasSameRoom self.old self.new }
    {
        let alloc = *self.spare.allocator();
        let mut waiters = replace(&mut self.spare, Vec::new(alloc));
        waiters.push_reserved(waiter);
        self.waiting += 1;
        self.slots
            .insert_reserved(QueueRecord { tag: *tag, waiters })
    }

    /// Takes the wait of `session` out of the wait queue of `tag`, whose queue record is at `at`. With its
    /// last wait the record is taken out, and the larger one of its queue and the spare one is kept as the
    /// spare one.
    pub(crate) fn leave(&mut self, at: usize, tag: &Tag, session: SessionId)
        requires there { IsQueueAt self.old.slots tag.now at }
        requires waits { waits_there (queue_on self.old.slots tag.now) session ≡ true }
        requires once { count_by (λ wait. wait.session == session) (queue_on self.old.slots tag.now) ≤ 1 }
        ensures waits { queue_on self.new.slots
            ≡ put tag_eq (queue_on self.old.slots) tag.now (queue_without (queue_on self.old.slots tag.now) session) }
        ensures one_less { waiting_in self.new.slots + 1 ≡ waiting_in self.old.slots }
        ensures room { HasRoomForQueue self.old → HasRoomForQueue self.new }
        ensures in_queue { (other : Tag) → HasRoomInQueue self.old.slots other → HasRoomInQueue self.new.slots other }
        ensures no_memory_taken { HasNoMoreRoom self.old self.new }
    {
        let place = place_of(self.slots[at].waiters.as_slice(), session);
        self.slots[at].waiters.remove(place);
        self.waiting -= 1;
        if self.slots[at].waiters.is_empty() {
            let gone = self.slots.remove(at);
            keep_larger(&mut self.spare, gone.waiters);
        }
    }

    /// Appends to `rows` a row for each wait of the partition. After a refusal some rows may have been added.
    pub(crate) fn push_rows(&self, rows: &mut Vec<TableRow>) -> Result<(), NoMemory>
        ensures ok { OnOk result (AppendsRows rows.old.items rows.new.items
            (awaited_below self.now.slots (length self.now.slots))) }
        ensures err { OnErr result (HasMoreRows rows.old.items rows.new.items) }
    {
        for place in 0..self.slots.capacity() {
            if let Some(queue) = self.slots.get(place) {
                if push_waits(&queue.tag, queue.waiters.as_slice(), rows).is_err() {
                    return Err(NoMemory);
                }
            }
        }
        Ok(())
    }
}

/// Makes room for some waits in `spare`, which has none.
#[cold]
#[inline(never)]
fn grow_spare(spare: &mut Vec<Waiter>) -> Result<(), NoMemory>
    ensures room { OnOk result (0 < vec_capacity spare.new) }
    ensures items { spare.new.items ≡ spare.old.items }
{
    spare.reserve(4)?;
    Ok(())
}

/// Keeps in `spare` the one of `spare` and `gone` that has room for more waits, and drops the other. Both are
/// empty.
fn keep_larger(spare: &mut Vec<Waiter>, gone: Vec<Waiter>)
    requires spare { spare.old.items ≡ [] }
    requires gone { gone.items ≡ [] }
    ensures empty { spare.new.items ≡ [] }
    ensures capacity { vec_capacity spare.old ≤ vec_capacity spare.new }
    ensures no_memory_taken { vec_capacity spare.new ≤ vec_capacity spare.old + vec_capacity gone }
{
    if gone.capacity() > spare.capacity() {
        *spare = gone;
    }
}

/// Puts `waiter` into the wait queue of `tag` before the wait at `place`, or at the end where `place` is the
/// length of the queue, and answers the place of the queue record: `at`, or a new one where nobody awaits
/// `tag` yet.
pub(crate) fn queue_up(
    queues: &mut WaitQueues,
    at: Option<usize>,
    tag: &Tag,
    place: usize,
    waiter: Waiter,
) -> usize
    requires there { ForSome at (IsQueueAt queues.old.slots tag.now) }
    requires none { ForNone at (queue_on queues.old.slots tag.now ≡ []) }
    requires room { HasRoomForQueue queues.old }
    requires in_queue { HasRoomInQueue queues.old.slots tag.now }
    requires countable { waiting_in queues.old.slots < usize.MAX }
    requires place { place ≤ length (queue_on queues.old.slots tag.now) }
    ensures waits { queue_on queues.new.slots ≡ put tag_eq (queue_on queues.old.slots) tag.now
        (joined place (shown_wait waiter) (queue_on queues.old.slots tag.now)) }
    ensures one_more { waiting_in queues.new.slots ≡ waiting_in queues.old.slots + 1 }
    ensures capacity { HasSameRoom queues.old queues.new }
{
    match at {
        Some(at) => {
            queues.insert(at, tag, place, waiter);
            at
        }
        None => queues.start(tag, waiter),
    }
}

/// The mode for which `session` waits in the wait queue `waiters`, or `None` where `session` doesn't wait in
/// it.
fn mode_of(waiters: &[Waiter], session: SessionId) -> Option<Mode>
    ensures { result ≡ option_map (λ waiter. waiter.mode) (find (λ waiter. waiter.session == session) waiters.now) }
{
    waiters
        .iter()
        .find(|waiter| waiter.session == session)
        .map(|waiter| waiter.mode)
}

/// The index of the wait of `session` in the wait queue `waiters`, which has one.
fn place_of(waiters: &[Waiter], session: SessionId) -> usize
    requires { list_any (λ waiter. waiter.session == session) waiters.now ≡ true }
    ensures within { result < length waiters.now }
    ensures its { HoldsAt (λ waiter. (waiter.session == session) ≡ true) waiters.now result }
{
    let mut left = waiters.len();
    while left > 0 {
        if waiters[left - 1].session == session {
            return left - 1;
        }
        left -= 1;
    }
    unreachable!()
}
