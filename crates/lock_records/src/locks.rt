ghost use Rattle.std.specs.Prelude.{◌≡◌, ◌<◌, ◌≤◌, false, true, IfSome, IfNone, Some, None};
ghost use Rattle.modes_core.specs.declared.modes.Mode.{Mode};
ghost use Rattle.modes_core.specs.Conflict.{conflict};
ghost use Rattle.modes_core.specs.Tag.{tag_eq};
ghost use Rattle.slab.specs.Slab.{slab_len, HasRoomFor};
ghost use Rattle.lock_records.specs.Tally.{counts_in};
ghost use Rattle.lock_records.specs.Locks.{lock_at, is_on, key_of, IsLockAt, HasNoLock, IsLockOf, AreNoted, HasSameLocks, HasMadeLock, IsNewLock, IsIdle, IsCounting, IsDropped};

use crate::holders::Holders;
use crate::tally::Tally;
use modes_core::{Mode, Tag, conflicts};
use place_index::PlaceIndex;
use slab::Slab;

/// What a partition keeps of an object that is held or awaited (`LOCK` in lock.h): the chain of its holder
/// records, how many holds there are in each lock mode, and how many waits for each.
#[derive(Drop)]
pub struct LockRecord {
    pub tag: Tag,
    pub holders: Holders,
    pub granted: Tally,
    pub awaited: Tally,
    /// The place of the lock record's queue record, while somebody awaits the object.
    pub queue: usize,
}

impl LockRecord {
    /// A new lock record of `tag`, which nobody holds or awaits.
    fn new(tag: Tag) -> Self
        ensures { IsNewLock result tag }
    {
        LockRecord {
            tag,
            holders: Holders { first: 0, count: 0 },
            granted: Tally::new(),
            awaited: Tally::new(),
            queue: 0,
        }
    }
}

impl LockRecord {
    /// Whether a mode in conflict with `mode` is held or awaited, by any session.
    #[inline(always)]
    pub(crate) fn may_conflict(&self, mode: Mode) -> bool
        ensures granted { result ≡ false →
            (its : Mode) → conflict mode its ≡ true → counts_in self.now.granted its ≡ 0 }
        ensures awaited { result ≡ false →
            (its : Mode) → conflict mode its ≡ true → counts_in self.now.awaited its ≡ 0 }
    {
        let conflicting = conflicts(mode);
        self.awaited.meets(conflicting) || self.granted.meets(conflicting)
    }

    /// Whether a mode in conflict with `mode` is awaited.
    #[inline(always)]
    pub(crate) fn is_awaited(&self, mode: Mode) -> bool
        ensures some { result ≡ true →
            (its : Mode) × (conflict mode its ≡ true) × (0 < counts_in self.now.awaited its) }
        ensures none { result ≡ false →
            (its : Mode) → conflict mode its ≡ true → counts_in self.now.awaited its ≡ 0 }
    {
        self.awaited.meets(conflicts(mode))
    }

    /// Whether nobody holds or awaits the object.
    #[inline(always)]
    pub(crate) fn is_empty(&self) -> bool
        ensures nothing { result ≡ true → IsIdle self.now }
        ensures something { result ≡ false → IsCounting self.now }
    {
        self.holders.count == 0 && self.awaited.is_empty()
    }
}

/// The key under which the index of lock records has `tag`. The lowest bits of a tag's hash are those of its
/// partition, and the index picks chains by the highest bits of the key: the multiplication mixes the bits.
#[inline(always)]
fn key_of(tag: &Tag) -> u32
    ensures { result ≡ key_of tag.now }
{
    tag.hash().wrapping_mul(2_654_435_761)
}

/// Whether `tag` is `other`. Neither is copied: a copy is stored field by field, and the comparison would
/// wait for that.
#[inline(always)]
fn is_same_tag(tag: &Tag, other: &Tag) -> bool
    ensures { result ≡ tag_eq tag.now other.now }
{
    *tag == *other
}

/// Whether `locks` has a lock record of `tag` at `place`.
#[inline(always)]
fn is_lock_on(locks: &Slab<LockRecord>, place: usize, tag: &Tag) -> bool
    ensures { result ≡ is_on tag.now (lock_at locks.now.slots place) }
{
    match locks.get(place) {
        Some(lock) => is_same_tag(tag, &lock.tag),
        None => false,
    }
}

/// The place of the lock record of `tag` in `locks`, if there is one: `hint`, where a record was found last,
/// is looked at before `index` is asked.
#[inline(always)]
pub(crate) fn find_lock(
    locks: &Slab<LockRecord>,
    index: &PlaceIndex,
    hint: usize,
    tag: &Tag,
) -> Option<usize>
    requires { AreNoted locks.now.slots index.now }
    ensures found { IfSome result (IsLockAt locks.now.slots tag.now) }
    ensures absent { IfNone result (HasNoLock locks.now.slots tag.now) }
{
    if is_lock_on(locks, hint, tag) {
        return Some(hint);
    }
    find_lock_by_index(locks, index, tag)
}

/// The place of the lock record of `tag` in `locks`, if there is one, for a call that mostly follows one on
/// the same object: the look through `index`, where the record is not at `hint`, is a function of its own, so
/// that this one remains short.
#[inline(always)]
pub(crate) fn find_hinted_lock(
    locks: &Slab<LockRecord>,
    index: &PlaceIndex,
    hint: usize,
    tag: &Tag,
) -> Option<usize>
    requires { AreNoted locks.now.slots index.now }
    ensures found { IfSome result (IsLockAt locks.now.slots tag.now) }
    ensures absent { IfNone result (HasNoLock locks.now.slots tag.now) }
{
    if !is_lock_on(locks, hint, tag) {
        return find_lock_cold(locks, index, tag);
    }
    Some(hint)
}

/// The lock record of `tag` in `locks`, if there is one, for a call that mostly follows one on the same
/// object: `hint` is looked at before `index` is asked.
#[inline(always)]
pub(crate) fn hinted_lock<'a>(
    locks: &'a Slab<LockRecord>,
    index: &PlaceIndex,
    hint: usize,
    tag: &Tag,
) -> Option<&'a LockRecord>
    requires { AreNoted locks.now.slots index.now }
    ensures found { IfSome result (λ lock. IsLockOf locks.now.slots tag.now lock.now) }
    ensures absent { IfNone result (HasNoLock locks.now.slots tag.now) }
{
    if let Some(lock) = locks.get(hint) {
        if is_same_tag(tag, &lock.tag) {
            return Some(lock);
        }
    }
    match find_lock_cold(locks, index, tag) {
        Some(place) => Some(&locks[place]),
        None => None,
    }
}

/// The place of the lock record of `tag` in `locks`, looked for through `index`: a function of its own,
/// called seldom.
#[cold]
#[inline(never)]
fn find_lock_cold(locks: &Slab<LockRecord>, index: &PlaceIndex, tag: &Tag) -> Option<usize>
    requires { AreNoted locks.now.slots index.now }
    ensures found { IfSome result (IsLockAt locks.now.slots tag.now) }
    ensures absent { IfNone result (HasNoLock locks.now.slots tag.now) }
{
    find_lock_by_index(locks, index, tag)
}

/// The place of the lock record of `tag` in `locks`, looked for through `index` alone, if there is one.
#[inline(always)]
fn find_lock_by_index(locks: &Slab<LockRecord>, index: &PlaceIndex, tag: &Tag) -> Option<usize>
    requires { AreNoted locks.now.slots index.now }
    ensures found { IfSome result (IsLockAt locks.now.slots tag.now) }
    ensures absent { IfNone result (HasNoLock locks.now.slots tag.now) }
{
    let is_it = |place: u32| -> bool
        ensures { result ≡ is_on tag.entry.now (lock_at locks.entry.now.slots place) }
    { is_lock_on(locks, place as usize, tag) };
    match index.find(key_of(tag), is_it) {
        Some(place) => Some(place as usize),
        None => None,
    }
}

/// The place of the lock record of `tag` in `locks`, which is made where there is none. `absent` says that
/// the caller knows that there is none; otherwise `hint` is looked at before `index` is asked.
#[inline(always)]
pub(crate) fn find_or_make_lock(
    locks: &mut Slab<LockRecord>,
    index: &mut PlaceIndex,
    hint: usize,
    absent: bool,
    tag: &Tag,
) -> usize
    requires noted { AreNoted locks.old.slots index.old }
    requires absent { absent ≡ true → HasNoLock locks.old.slots tag.now }
    requires room { HasRoomFor locks.old 1 }
    requires places { locks.old.vacant_key < index.old.places }
    ensures noted { AreNoted locks.new.slots index.new }
    ensures made { HasMadeLock locks.old.slots locks.new.slots tag.now result }
    ensures capacity { (locks.new.capacity ≡ locks.old.capacity) × (index.new.places ≡ index.old.places) }
{
    if absent {
        return make_lock(locks, index, tag);
    }
    match find_hinted_lock(locks, index, hint, tag) {
        Some(place) => place,
        None => make_lock(locks, index, tag),
    }
}

/// Makes a lock record of `tag`, which has none, in `locks` and `index`, and answers its place.
#[inline(always)]
fn make_lock(locks: &mut Slab<LockRecord>, index: &mut PlaceIndex, tag: &Tag) -> usize
    requires noted { AreNoted locks.old.slots index.old }
    requires room { HasRoomFor locks.old 1 }
    requires places { locks.old.vacant_key < index.old.places }
    requires absent { HasNoLock locks.old.slots tag.now }
    ensures noted { AreNoted locks.new.slots index.new }
    ensures made { HasMadeLock locks.old.slots locks.new.slots tag.now result }
    ensures capacity { (locks.new.capacity ≡ locks.old.capacity) × (index.new.places ≡ index.old.places) }
{
    let _places = index.places();
    let place = locks.insert_reserved(LockRecord::new(*tag));
    index.insert(key_of(tag), place as u32);
    place
}

/// Takes the lock record of `tag`, at `place`, out of `locks` and `index` where nobody holds or awaits the
/// object any more.
#[inline(always)]
pub(crate) fn drop_empty(
    locks: &mut Slab<LockRecord>,
    index: &mut PlaceIndex,
    tag: &Tag,
    place: usize,
)
    requires noted { AreNoted locks.old.slots index.old }
    requires there { IsLockAt locks.old.slots tag.now place }
    ensures noted { AreNoted locks.new.slots index.new }
    ensures dropped { IsDropped locks.old.slots locks.new.slots tag.now place }
    ensures room { HasRoomFor locks.old 1 → HasRoomFor locks.new 1 }
    ensures places { locks.old.vacant_key < index.old.places → locks.new.vacant_key < index.new.places }
    ensures capacity { (locks.new.capacity ≡ locks.old.capacity) × (index.new.places ≡ index.old.places) }
{
    if locks[place].is_empty() {
        drop_lock(locks, index, tag, place);
    }
}

/// Takes the lock record of `tag`, at `place`, out of `locks` and `index`.
fn drop_lock(locks: &mut Slab<LockRecord>, index: &mut PlaceIndex, tag: &Tag, place: usize)
    requires noted { AreNoted locks.old.slots index.old }
    requires there { IsLockAt locks.old.slots tag.now place }
    ensures noted { AreNoted locks.new.slots index.new }
    ensures gone { HasNoLock locks.new.slots tag.now }
    ensures same { HasSameLocks locks.old.slots locks.new.slots tag.now }
    ensures room { HasRoomFor locks.new 1 }
    ensures places { locks.new.vacant_key < index.new.places }
    ensures capacity { (locks.new.capacity ≡ locks.old.capacity) × (index.new.places ≡ index.old.places) }
{
    let _places = index.places();
    locks.remove(place);
    index.remove(key_of(tag), place as u32);
}
