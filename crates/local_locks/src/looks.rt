ghost use Rattle.std.specs.Prelude.{◌≡◌, ◌<◌, ◌==◌, ◌&&◌, length};
ghost use Rattle.modes_core.specs.declared.tags.Tag.TheVariants.{Relation};
ghost use Rattle.local_locks.specs.Slots.{hash_of, key_hash, pair_bits, object_bits, opened, entry_at, is_held_as, IsIndexed, IsGlance, IsSpot};

use crate::Entry;
use modes_core::{Mode, Tag};
use place_index::PlaceIndex;

/// The number by which an object and mode in 64 bits are multiplied for their hash. Its lower half is 2^32
/// divided by the golden ratio, so that the hashes of relations numbered in equal steps lie apart as evenly
/// as can be. Its upper half is 2^32 times the square root of two less one, so that the hashes of modes lie
/// apart, too, and away from those of relations.
const MULTIPLIER: u64 = 0x6A09_E667_9E37_79B9;

/// What the first place that an index has for an object and mode shows of them.
pub(crate) enum Glance {
    /// The index has no entry for the object and mode.
    Nothing,
    /// The slot of the object and mode is at this place. The slot may be empty.
    Place(u32),
    /// Only a whole look through the index can say whether there is an entry for the object and mode.
    Unknown,
}

/// `database` in the lower half and `number` in the upper half of one number. A tag has them in this order,
/// so that both are read and compared at once.
#[inline(always)]
pub(crate) fn pair_bits(database: u32, number: u32) -> u64
    ensures { result ≡ pair_bits database number }
{
    (u64::from(number) << 32) + u64::from(database)
}

/// Whether `database` is `other_database`, and `number` is `other_number`.
#[inline(always)]
pub(crate) fn is_same_pair(
    database: u32,
    number: u32,
    other_database: u32,
    other_number: u32,
) -> bool
    ensures { result ≡ (database == other_database) && (number == other_number) }
{
    pair_bits(database, number) == pair_bits(other_database, other_number)
}

/// The object of `tag` in 64 bits, for a hash.
#[inline(always)]
fn object_bits(tag: &Tag) -> u64
    ensures { result ≡ object_bits tag.now }
{
    match *tag {
        Tag::Relation { database, relation } => pair_bits(database, relation),
        Tag::Object {
            database,
            class,
            object,
            sub_object,
        } => {
            let part = (u64::from(class) << 16) + u64::from(sub_object);
            part.wrapping_mul(MULTIPLIER)
                .wrapping_add(pair_bits(database, object))
        }
        Tag::Advisory {
            database,
            key1,
            key2,
            sub,
        } => {
            let part = (u64::from(key1) << 16) + u64::from(sub);
            part.wrapping_mul(MULTIPLIER)
                .wrapping_add(pair_bits(database, key2))
        }
    }
}

/// The hash of `object`, an object in 64 bits, and of `mode`: the upper half of a product, whose highest bits
/// depend on all bits of both.
#[inline(always)]
pub(crate) fn hash_of(object: u64, mode: Mode) -> u32
    ensures { result ≡ hash_of object mode }
{
    let key = object.wrapping_add(u64::from(mode.number() - 1));
    (key.wrapping_mul(MULTIPLIER) >> 32) as u32
}

/// The hash of `tag` and `mode`. A relation takes one multiplication, another object two.
#[inline(always)]
pub(crate) fn key_hash(tag: &Tag, mode: Mode) -> u32
    ensures { result ≡ key_hash tag.now mode }
{
    hash_of(object_bits(tag), mode)
}

/// What the first place that `index` has for `tag` and `mode` shows: that they have no entry, or the place of
/// their slot in `slots`, which may be empty.
#[inline(always)]
pub(crate) fn glance_at(slots: &[Entry], index: &PlaceIndex, tag: &Tag, mode: Mode) -> Glance
    requires { IsIndexed (opened slots.now) index.now }
    ensures { IsGlance slots.now tag.now mode result }
{
    match index.first(key_hash(tag, mode)) {
        None => Glance::Nothing,
        Some(place) => {
            if slots[place as usize].is_of(tag, mode) {
                Glance::Place(place)
            } else {
                Glance::Unknown
            }
        }
    }
}

/// The place in `slots` of the entry of `tag` and `mode`, looked for through `index`.
#[inline(always)]
pub(crate) fn look_up(slots: &[Entry], index: &PlaceIndex, tag: &Tag, mode: Mode) -> Option<usize>
    requires { IsIndexed (opened slots.now) index.now }
    ensures { IsSpot slots.now tag.now mode result }
{
    match *tag {
        Tag::Relation { database, relation } => {
            look_up_relation(slots, index, database, relation, mode)
        }
        Tag::Object { .. } | Tag::Advisory { .. } => look_up_object(slots, index, tag, mode),
    }
}

/// The place in `slots` of the entry of the relation `relation` of `database` and of `mode`, looked for
/// through `index`: most objects are relations.
#[inline(always)]
fn look_up_relation(
    slots: &[Entry],
    index: &PlaceIndex,
    database: u32,
    relation: u32,
    mode: Mode,
) -> Option<usize>
    requires { IsIndexed (opened slots.now) index.now }
    ensures { IsSpot slots.now (Relation database relation) mode result }
{
    let hash = hash_of(pair_bits(database, relation), mode);
    let is_it = |place: u32| -> bool
        requires { place < length slots.now }
        ensures { result ≡ is_held_as (Relation database relation) mode (entry_at slots.entry.now place) }
    {
        let entry = &slots[place as usize];
        entry.is_of_relation(database, relation, mode) && entry.is_held()
    };
    match index.find(hash, is_it) {
        Some(place) => Some(place as usize),
        None => None,
    }
}

/// The place in `slots` of the entry of any `tag` and `mode`, looked for through `index`: a call of its own,
/// so that a look for a relation remains short.
#[inline(never)]
fn look_up_object(slots: &[Entry], index: &PlaceIndex, tag: &Tag, mode: Mode) -> Option<usize>
    requires { IsIndexed (opened slots.now) index.now }
    ensures { IsSpot slots.now tag.now mode result }
{
    let hash = key_hash(tag, mode);
    let is_it = |place: u32| -> bool
        requires { place < length slots.now }
        ensures { result ≡ is_held_as tag.entry.now mode (entry_at slots.entry.now place) }
    { slots[place as usize].is_held_as(tag, mode) };
    match index.find(hash, is_it) {
        Some(place) => Some(place as usize),
        None => None,
    }
}

/// The place in `slots` of the entry of `tag` and `mode`, looked for at `first` before `index` is asked.
#[inline(always)]
pub(crate) fn look(
    slots: &[Entry],
    index: &PlaceIndex,
    first: usize,
    tag: &Tag,
    mode: Mode,
) -> Option<usize>
    requires { IsIndexed (opened slots.now) index.now }
    ensures { IsSpot slots.now tag.now mode result }
{
    if first < slots.len() && slots[first].is_of(tag, mode) && slots[first].is_held() {
        return Some(first);
    }
    look_elsewhere(slots, index, tag, mode)
}

/// The place in `slots` of the entry of `tag` and `mode`, looked for through `index`: a call of its own, so
/// that `look` remains short where it finds the entry without `index`.
#[inline(never)]
fn look_elsewhere(slots: &[Entry], index: &PlaceIndex, tag: &Tag, mode: Mode) -> Option<usize>
    requires { IsIndexed (opened slots.now) index.now }
    ensures { IsSpot slots.now tag.now mode result }
{
    look_up(slots, index, tag, mode)
}
