//! What a call does to the records of one object, whose lock record stands at a known place.

ghost use Rattle.std.specs.Prelude.{◌≡◌, ◌<◌, ◌≤◌, ◌+◌, [], false, true, Some, OnOk, IfSome, IfNone, is_some, count_by, option_map, vec_capacity};
ghost use Rattle.std.specs.Option.{ForSome, ForNone};
ghost use Rattle.modes_core.specs.declared.modes.Mode.{Mode};
ghost use Rattle.slab.specs.Slab.{slab_len, HasRoomFor};
ghost use Rattle.place_index.specs.Notes.{HasSameNotes};
ghost use Rattle.lock_table.specs.Clash.{HolderInTheWay};
ghost use Rattle.lock_records.specs.Tally.{counts_in, most_tallied, one_more, one_less};
ghost use Rattle.lock_records.specs.Counting.{awaited_of};
ghost use Rattle.lock_records.specs.Holders.{holds_in, AreHolders, SetsHold};
ghost use Rattle.lock_records.specs.Queues.{queue_on, waiting_in, IsQueueAt, HasRoomInQueue, HasSameQueues};
ghost use Rattle.lock_records.specs.Locks.{IsLockAt, IsRelocked, lock_at};
ghost use Rattle.lock_records.specs.Objects.{IsHeldLock, CountsWaitsAt, HasRoom};

use crate::holders::{HolderRecord, lower_holder, lowest_holder, lowest_mode, raise_holder};
use crate::locks::LockRecord;
use crate::wait_queues::WaitQueues;
use lock_table::NoMemory;
use modes_core::{Mode, SessionId, Tag, conflicts};
use place_index::PlaceIndex;
use slab::Slab;

/// Makes room for a request: in `index` and `locks` for one more lock record, in `holders` for the holds that
/// the request and each wait become, in `queues` for one more queue record with a wait in it, and in `woken`
/// for one entry more than there are waits. No record changes.
#[inline(always)]
pub(crate) fn make_room(
    locks: &mut Slab<LockRecord>,
    holders: &mut Slab<HolderRecord>,
    queues: &mut WaitQueues,
    index: &mut PlaceIndex,
    woken: &mut Vec<(SessionId, Mode)>,
) -> Result<(), NoMemory>
    ensures room { OnOk result (HasRoom locks.new holders.new queues.new index.new) }
    ensures locks { locks.new ≡ record locks.old { capacity = locks.new.capacity } }
    ensures holders { holders.new ≡ record holders.old { capacity = holders.new.capacity } }
    ensures capacity { holders.old.capacity ≤ holders.new.capacity }
    ensures queues { queues.new.slots ≡ queues.old.slots }
    ensures notes { HasSameNotes index.old index.new }
    ensures places { index.old.places ≤ index.new.places }
    ensures woken_room { OnOk result (waiting_in queues.new.slots < vec_capacity woken.new) }
    ensures woken_capacity { vec_capacity woken.old ≤ vec_capacity woken.new }

    // Each grows only where it is full.
    ensures locks_grow { HasRoomFor locks.old 1 → locks.new.capacity ≡ locks.old.capacity }
    ensures holders_grow { HasRoomFor holders.old (waiting_in queues.old.slots + 1) →
        holders.new.capacity ≡ holders.old.capacity }
    ensures queues_grow { count_by is_some queues.old.slots < queues.old.capacity →
        queues.new.capacity ≡ queues.old.capacity }
    ensures spare_grows { 0 < queues.old.spare → queues.new.spare ≡ queues.old.spare }
    ensures woken_grows { waiting_in queues.old.slots < vec_capacity woken.old →
        vec_capacity woken.new ≡ vec_capacity woken.old }
    ensures index_grows { locks.old.vacant_key < index.old.places → index.new.places ≡ index.old.places }
{
    let Ok(place) = u32::try_from(locks.vacant_key()) else {
        return Err(NoMemory);
    };
    let Some(holds) = queues.waiting().checked_add(1) else {
        return Err(NoMemory);
    };
    index.reserve(place)?;
    locks.reserve(1)?;
    holders.reserve(holds)?;
    queues.reserve()?;
    if woken.capacity() < holds {
        grow_woken(woken, holds)?;
    }
    Ok(())
}

/// Makes room for one more wait in the wait queue of `tag`, whose lock record is at `found`, if somebody
/// awaits the object. Mostly nobody waits in the whole partition, and nothing is done.
#[inline(always)]
pub(crate) fn make_room_to_wait(
    locks: &Slab<LockRecord>,
    queues: &mut WaitQueues,
    found: Option<usize>,
    tag: &Tag,
) -> Result<(), NoMemory>
    requires counted { ForSome found (CountsWaitsAt locks.now.slots (queue_on queues.old.slots tag.now) tag.now) }
    requires absent { ForNone found (queue_on queues.old.slots tag.now ≡ []) }
    ensures room { OnOk result (HasRoomInQueue queues.new.slots tag.now) }
    ensures same { HasSameQueues queues.old queues.new }
{
    if queues.waiting() == 0 {
        return Ok(());
    }
    make_room_in_queue(locks, queues, found, tag)
}

/// Makes room for one more wait in the wait queue of `tag`, whose lock record is at `found`, if somebody
/// awaits the object: the seldom part of `make_room_to_wait`.
#[cold]
#[inline(never)]
fn make_room_in_queue(
    locks: &Slab<LockRecord>,
    queues: &mut WaitQueues,
    found: Option<usize>,
    tag: &Tag,
) -> Result<(), NoMemory>
    requires counted { ForSome found (CountsWaitsAt locks.now.slots (queue_on queues.old.slots tag.now) tag.now) }
    requires absent { ForNone found (queue_on queues.old.slots tag.now ≡ []) }
    ensures room { OnOk result (HasRoomInQueue queues.new.slots tag.now) }
    ensures same { HasSameQueues queues.old queues.new }
{
    let Some(place) = found else {
        return Ok(());
    };
    match queue_place(&locks[place], queues, tag) {
        Some(at) => queues.reserve_in(at, tag),
        None => Ok(()),
    }
}

/// Makes room in `woken`, which has too little, for `most` sessions with their modes. Those that `woken` has
/// are forgotten.
#[cold]
#[inline(never)]
fn grow_woken(woken: &mut Vec<(SessionId, Mode)>, most: usize) -> Result<(), NoMemory>
    ensures room { OnOk result (most ≤ vec_capacity woken.new) }
    ensures capacity { vec_capacity woken.old ≤ vec_capacity woken.new }
{
    woken.clear();
    woken.reserve(most)?;
    Ok(())
}

/// Adds the hold of `session` on `tag` in `mode`, which `session` hasn't yet, to `holders` and to the lock
/// record at `place` of `locks`.
#[inline(always)]
pub(crate) fn add_hold(
    locks: &mut Slab<LockRecord>,
    holders: &mut Slab<HolderRecord>,
    place: usize,
    tag: &Tag,
    session: SessionId,
    mode: Mode,
)
    requires there { IsLockAt locks.old.slots tag.now place }
    requires held { (i : IsLockAt locks.old.slots tag.now place) → IsHeldLock holders.old.slots tag.now i.lock }
    requires are { AreHolders holders.old.slots tag.now }
    requires room { HasRoomFor holders.old 1 }
    requires new { holds_in holders.old.slots session tag.now mode ≡ false }
    ensures set { SetsHold holders.old.slots holders.new.slots session tag.now mode true }
    ensures lock { (r : IsRelocked locks.old.slots locks.new.slots tag.now place)
        × IsHeldLock holders.new.slots tag.now r.is.lock
        × ((m : Mode) → counts_in r.is.lock.awaited m ≡ counts_in r.was.lock.awaited m) }
    ensures len { slab_len holders.new ≤ slab_len holders.old + 1 }
    ensures capacity { holders.new.capacity ≡ holders.old.capacity }
    ensures room { HasRoomFor locks.old 1 → HasRoomFor locks.new 1 }
    ensures key { locks.new.vacant_key ≡ locks.old.vacant_key }
    ensures locks_capacity { locks.new.capacity ≡ locks.old.capacity }
{
    let _number = session.number();
    let lock = &mut locks[place];
    raise_holder(holders, &mut lock.holders, tag, session, mode);
    lock.granted.raise(mode);
}

/// Takes the hold of `session` on `tag` in `mode` out of `holders` and of the lock record at `place` of
/// `locks`.
#[inline(always)]
pub(crate) fn remove_hold(
    locks: &mut Slab<LockRecord>,
    holders: &mut Slab<HolderRecord>,
    place: usize,
    tag: &Tag,
    session: SessionId,
    mode: Mode,
)
    requires there { IsLockAt locks.old.slots tag.now place }
    requires held { (i : IsLockAt locks.old.slots tag.now place) → IsHeldLock holders.old.slots tag.now i.lock }
    requires are { AreHolders holders.old.slots tag.now }
    requires there_is { holds_in holders.old.slots session tag.now mode ≡ true }
    ensures set { SetsHold holders.old.slots holders.new.slots session tag.now mode false }
    ensures lock { (r : IsRelocked locks.old.slots locks.new.slots tag.now place)
        × IsHeldLock holders.new.slots tag.now r.is.lock
        × ((m : Mode) → counts_in r.is.lock.awaited m ≡ counts_in r.was.lock.awaited m) }
    ensures len { slab_len holders.new ≤ slab_len holders.old }
    ensures capacity { holders.new.capacity ≡ holders.old.capacity }
    ensures room { HasRoomFor locks.old 1 → HasRoomFor locks.new 1 }
    ensures key { locks.new.vacant_key ≡ locks.old.vacant_key }
    ensures locks_capacity { locks.new.capacity ≡ locks.old.capacity }
{
    let _number = session.number();
    let lock = &mut locks[place];
    lower_holder(holders, &mut lock.holders, tag, session, mode);
    lock.granted.lower(mode);
}

/// The lowest-numbered session other than `session` that holds `tag`, the object of `lock`, in a mode in
/// conflict with `mode`, with its lowest such mode. Where nobody holds such a mode, the mask of `lock` shows
/// that, and no holder record is read.
#[inline(always)]
pub(crate) fn holder_in_the_way(
    lock: &LockRecord,
    holders: &Slab<HolderRecord>,
    tag: &Tag,
    session: SessionId,
    mode: Mode,
) -> Option<(SessionId, Mode)>
    requires held { IsHeldLock holders.now.slots tag.now lock.now }
    requires are { AreHolders holders.now.slots tag.now }
    ensures { HolderInTheWay (holds_in holders.now.slots) session tag.now mode result }
{
    let conflicting = conflicts(mode);
    if !lock.granted.meets(conflicting) {
        return None;
    }
    match lowest_holder(holders, lock.holders, tag, session, conflicting) {
        Some(found) => Some((found.0, lowest_mode(found.1, conflicting))),
        None => None,
    }
}

/// The place in `queues` of the queue record of `tag`, looked for first where `lock` notes it. `None` where
/// nobody awaits the object.
#[inline(always)]
pub(crate) fn queue_place(lock: &LockRecord, queues: &WaitQueues, tag: &Tag) -> Option<usize>
    requires { (mode : Mode) → counts_in lock.now.awaited mode ≡ awaited_of (queue_on queues.now.slots tag.now) mode }
    ensures found { IfSome result (IsQueueAt queues.now.slots tag.now) }
    ensures absent { IfNone result (queue_on queues.now.slots tag.now ≡ []) }
{
    if lock.awaited.is_empty() {
        return None;
    }
    queues.find(lock.queue, tag)
}

/// Counts one more wait for `mode` in the lock record of `tag` at `place`, and notes that the object's queue
/// record is at `queue`.
pub(crate) fn raise_awaited(
    locks: &mut Slab<LockRecord>,
    place: usize,
    tag: &Tag,
    mode: Mode,
    queue: usize,
)
    requires there { IsLockAt locks.old.slots tag.now place }
    requires few { (i : IsLockAt locks.old.slots tag.now place) → counts_in i.lock.awaited mode < most_tallied }
    ensures lock { (r : IsRelocked locks.old.slots locks.new.slots tag.now place)
        × (r.is.lock.holders ≡ r.was.lock.holders) × (r.is.lock.granted ≡ r.was.lock.granted)
        × (counts_in r.is.lock.awaited ≡ one_more (counts_in r.was.lock.awaited) mode) }
    ensures noted { option_map (λ lock. lock.queue) (lock_at locks.new.slots place) ≡ Some queue }
    ensures room { HasRoomFor locks.old 1 → HasRoomFor locks.new 1 }
    ensures key { locks.new.vacant_key ≡ locks.old.vacant_key }
    ensures locks_capacity { locks.new.capacity ≡ locks.old.capacity }
{
    let lock = &mut locks[place];
    lock.queue = queue;
    lock.awaited.raise(mode);
}

/// Counts one wait less for `mode` in the lock record of `tag` at `place`.
pub(crate) fn lower_awaited(locks: &mut Slab<LockRecord>, place: usize, tag: &Tag, mode: Mode)
    requires there { IsLockAt locks.old.slots tag.now place }
    requires some { (i : IsLockAt locks.old.slots tag.now place) → 0 < counts_in i.lock.awaited mode }
    ensures lock { (r : IsRelocked locks.old.slots locks.new.slots tag.now place)
        × (r.is.lock.holders ≡ r.was.lock.holders) × (r.is.lock.granted ≡ r.was.lock.granted)
        × (counts_in r.is.lock.awaited ≡ one_less (counts_in r.was.lock.awaited) mode) }
    ensures room { HasRoomFor locks.old 1 → HasRoomFor locks.new 1 }
    ensures key { locks.new.vacant_key ≡ locks.old.vacant_key }
    ensures locks_capacity { locks.new.capacity ≡ locks.old.capacity }
{
    locks[place].awaited.lower(mode);
}
