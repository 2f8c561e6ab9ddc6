ghost use Rattle.std.specs.Prelude.{◌≡◌, ◌≢◌, ◌↔◌, ◌+◌, ◌-◌, ◌<◌, ◌≤◌, ℕ, IsTrue, true, false, Some, None, IfSome, IsSomeAnd, [], ◌∷◌, ◌++◌, List, length, slice_set, vec_capacity};
ghost use Rattle.std.specs.Option.{option_map};
ghost use Rattle.place_index.specs.Notes.{times, no_place};
ghost use Rattle.local_locks.specs.Owned.{count_for, raised, lowered, max_count, count_in_all, is_ended, after_end};
ghost use Rattle.local_locks.specs.Levels.{row_at, had, without_level, AreEmpty, AreMoved, AreSettled};
ghost use Rattle.local_locks.specs.Slots.{opened, entry_at, slot_at, present, key_at, key_hash, IsCut, IsFull, IsIndexed, IsOnce, IsPast, IsTakenOut};

use crate::levels::{OuterCounts, move_row};
use crate::looks::key_hash;
use crate::{End, Entry};
use modes_core::Owner;
use place_index::PlaceIndex;

/// Raises the count of `owner` in the entry at `place` of `slots`.
#[inline(always)]
pub(crate) fn raise(slots: &mut Vec<Entry>, place: usize, owner: Owner)
    requires within { place < length slots.old.items }
    requires below { count_for owner (entry_at slots.old.items place) < max_count }
    ensures slots { opened slots.new.items
        ≡ slice_set (opened slots.old.items) place (Some (raised owner (entry_at slots.old.items place))) }
    ensures room { vec_capacity slots.new - length slots.new.items ≡ vec_capacity slots.old - length slots.old.items }
    ensures capacity { vec_capacity slots.new ≡ vec_capacity slots.old }
    ensures number { length slots.new.items ≡ length slots.old.items }
{
    slots[place].raise(owner);
}

/// Lowers the count of `owner` in the entry at `place` of `slots`. A count of the entry is left.
#[inline(always)]
pub(crate) fn lower(slots: &mut Vec<Entry>, place: usize, owner: Owner)
    requires within { place < length slots.old.items }
    requires some { 0 < count_for owner (entry_at slots.old.items place) }
    requires more { count_in_all (entry_at slots.old.items place) ≢ 1 }
    ensures slots { opened slots.new.items
        ≡ slice_set (opened slots.old.items) place (Some (lowered owner (entry_at slots.old.items place))) }
    ensures room { vec_capacity slots.new - length slots.new.items ≡ vec_capacity slots.old - length slots.old.items }
    ensures capacity { vec_capacity slots.new ≡ vec_capacity slots.old }
    ensures number { length slots.new.items ≡ length slots.old.items }
{
    slots[place].lower(owner);
}

/// Raises the count of `owner` in the entry at `place` of `slots` where the count is above 0 and below
/// `most`, and answers whether the count was raised. There is code for each owner, so that `owner` is looked
/// at only once.
#[inline(always)]
pub(crate) fn raise_held(slots: &mut Vec<Entry>, place: usize, owner: Owner, most: u16) -> bool
    requires { place < length slots.old.items }
    ensures raised { let count = count_for owner (entry_at slots.old.items place) in
        IsTrue result ↔ ((0 < count) × (count < most)) }
    ensures slots { result ≡ true → opened slots.new.items
        ≡ slice_set (opened slots.old.items) place (Some (raised owner (entry_at slots.old.items place))) }
    ensures same { result ≡ false → slots.new ≡ slots.old }
    ensures room { vec_capacity slots.new - length slots.new.items ≡ vec_capacity slots.old - length slots.old.items }
    ensures capacity { vec_capacity slots.new ≡ vec_capacity slots.old }
    ensures number { length slots.new.items ≡ length slots.old.items }
{
    match owner {
        Owner::Session => raise_if_held(slots, place, Owner::Session, most),
        Owner::Transaction => raise_if_held(slots, place, Owner::Transaction, most),
    }
}

/// Does the work of `raise_held` at `place` of `slots`, up to `most`, for an `owner` that the caller knows as
/// it is compiled.
#[inline(always)]
fn raise_if_held(slots: &mut Vec<Entry>, place: usize, owner: Owner, most: u16) -> bool
    requires { place < length slots.old.items }
    ensures raised { let count = count_for owner (entry_at slots.old.items place) in
        IsTrue result ↔ ((0 < count) × (count < most)) }
    ensures slots { result ≡ true → opened slots.new.items
        ≡ slice_set (opened slots.old.items) place (Some (raised owner (entry_at slots.old.items place))) }
    ensures same { result ≡ false → slots.new ≡ slots.old }
    ensures room { vec_capacity slots.new - length slots.new.items ≡ vec_capacity slots.old - length slots.old.items }
    ensures capacity { vec_capacity slots.new ≡ vec_capacity slots.old }
    ensures number { length slots.new.items ≡ length slots.old.items }
{
    if !slots[place].can_raise(owner, most) {
        return false;
    }
    raise(slots, place, owner);
    true
}

/// Lowers the count of `owner` in the entry at `place` of `slots` where the count is above 1, and answers
/// whether the count was lowered. There is code for each owner, so that `owner` is looked at only once.
#[inline(always)]
pub(crate) fn lower_held(slots: &mut Vec<Entry>, place: usize, owner: Owner) -> bool
    requires { place < length slots.old.items }
    ensures lowered { IsTrue result ↔ (1 < count_for owner (entry_at slots.old.items place)) }
    ensures slots { result ≡ true → opened slots.new.items
        ≡ slice_set (opened slots.old.items) place (Some (lowered owner (entry_at slots.old.items place))) }
    ensures same { result ≡ false → slots.new ≡ slots.old }
    ensures room { vec_capacity slots.new - length slots.new.items ≡ vec_capacity slots.old - length slots.old.items }
    ensures capacity { vec_capacity slots.new ≡ vec_capacity slots.old }
    ensures number { length slots.new.items ≡ length slots.old.items }
{
    match owner {
        Owner::Session => lower_if_held(slots, place, Owner::Session),
        Owner::Transaction => lower_if_held(slots, place, Owner::Transaction),
    }
}

/// Does the work of `lower_held` at `place` of `slots` for an `owner` that the caller knows as it is
/// compiled.
#[inline(always)]
fn lower_if_held(slots: &mut Vec<Entry>, place: usize, owner: Owner) -> bool
    requires { place < length slots.old.items }
    ensures lowered { IsTrue result ↔ (1 < count_for owner (entry_at slots.old.items place)) }
    ensures slots { result ≡ true → opened slots.new.items
        ≡ slice_set (opened slots.old.items) place (Some (lowered owner (entry_at slots.old.items place))) }
    ensures same { result ≡ false → slots.new ≡ slots.old }
    ensures room { vec_capacity slots.new - length slots.new.items ≡ vec_capacity slots.old - length slots.old.items }
    ensures capacity { vec_capacity slots.new ≡ vec_capacity slots.old }
    ensures number { length slots.new.items ≡ length slots.old.items }
{
    if !slots[place].can_lower(owner) {
        return false;
    }
    lower(slots, place, owner);
    true
}

/// Adds `entry` in a new last slot of `slots`, for which there is room, and notes its place in `index` under
/// `hash`.
#[inline(always)]
pub(crate) fn push_entry(slots: &mut Vec<Entry>, index: &mut PlaceIndex, hash: u32, entry: Entry)
    requires indexed { IsIndexed (opened slots.old.items) index.old }
    requires hashed { hash ≡ key_hash entry.tag entry.mode }
    requires held { count_in_all entry ≢ 0 }
    requires absent { (k : ℕ) → key_at (opened slots.old.items) k ≢ Some (entry.tag, entry.mode) }
    requires slot_room { length slots.old.items < vec_capacity slots.old }
    requires few { length slots.old.items < no_place }
    requires index_room { length slots.old.items < index.old.places }
    ensures slots { opened slots.new.items ≡ opened slots.old.items ++ Some entry ∷ [] }
    ensures indexed { IsIndexed (opened slots.new.items) index.new }
    ensures number { length slots.new.items ≡ length slots.old.items + 1 }
    ensures slot_room { vec_capacity slots.new ≡ vec_capacity slots.old }
    ensures index_room { index.new.places ≡ index.old.places }
{
    let place = slots.len();
    slots.push_reserved(entry);
    index.insert_last(hash, place as u32);
}

/// How many of `slots` slots are kept where the entry at `place` goes and `notes` notes are left in the
/// index: none where no note is left, otherwise all but the last slot if that is the one at `place`, or all.
#[inline(always)]
fn slots_left(slots: usize, notes: usize, place: usize) -> usize
    requires { place < slots }
    ensures { IsCut slots notes place result }
{
    if notes == 0 {
        return 0;
    }
    if place + 1 == slots {
        return place;
    }
    slots
}

/// Takes the entry at `place` out of its slot in `slots` and `place` out of `index`. The slot itself goes if
/// it is the last one, and all slots go with the last note of `index`. `hash` is that of the entry's object
/// and mode.
#[inline(never)]
pub(crate) fn take_out(slots: &mut Vec<Entry>, index: &mut PlaceIndex, place: usize, hash: u32)
    requires indexed { IsIndexed (opened slots.old.items) index.old }
    requires there { slot_at (opened slots.old.items) place ≡ Some (entry_at slots.old.items place) }
    requires hashed { hash ≡ key_hash (entry_at slots.old.items place).tag (entry_at slots.old.items place).mode }
    requires few { length slots.old.items ≤ no_place }
    ensures taken { IsTakenOut slots.old.items slots.new.items place }
    ensures indexed { IsIndexed (opened slots.new.items) index.new }
    ensures slot_room { vec_capacity slots.old - length slots.old.items
        ≤ vec_capacity slots.new - length slots.new.items }
    ensures capacity { vec_capacity slots.new ≡ vec_capacity slots.old }
    ensures index_room { index.new.places ≡ index.old.places }
{
    index.remove(hash, place as u32);
    slots[place].clear();
    let used = slots_left(slots.len(), index.len(), place);
    slots.truncate(used);
}

/// Takes the last slot, at `place`, with its entry out of `slots` and `index`, with neither a loop nor a
/// call. Empty slots before it are kept until the entries are moved together, or until `take_out` takes the
/// last entry.
#[inline(always)]
pub(crate) fn take_last(slots: &mut Vec<Entry>, index: &mut PlaceIndex, place: usize)
    requires indexed { IsIndexed (opened slots.old.items) index.old }
    requires there { slot_at (opened slots.old.items) place ≡ Some (entry_at slots.old.items place) }
    requires last { place + 1 ≡ length slots.old.items }
    requires few { length slots.old.items ≤ no_place }
    ensures taken { IsTakenOut slots.old.items slots.new.items place }
    ensures indexed { IsIndexed (opened slots.new.items) index.new }
    ensures slot_room { vec_capacity slots.old - length slots.old.items
        ≤ vec_capacity slots.new - length slots.new.items }
    ensures capacity { vec_capacity slots.new ≡ vec_capacity slots.old }
    ensures index_room { index.new.places ≡ index.old.places }
{
    // The slots first: so their number, which the caller has just read, need not be read again.
    slots.truncate(place);
    index.remove_last(place as u32);
}

/// Takes the entry at `place`, which an end takes away, out of its slot in `slots`, where there are `len`
/// entries. `index` keeps `place` where it has places of empty slots already, or where the end is still to go
/// through half of the slots and `index` is not much larger than the number of its notes. `tidy` takes such
/// places out all together, in time in proportion to the slots that the end goes through.
#[inline(always)]
pub(crate) fn take_ended(slots: &mut Vec<Entry>, index: &mut PlaceIndex, len: usize, place: usize)
    requires indexed { IsIndexed (opened slots.old.items) index.old }
    requires there { slot_at (opened slots.old.items) place ≡ Some (entry_at slots.old.items place) }
    requires few { length slots.old.items ≤ no_place }
    ensures taken { IsTakenOut slots.old.items slots.new.items place }
    ensures indexed { IsIndexed (opened slots.new.items) index.new }
    ensures slot_room { vec_capacity slots.old - length slots.old.items
        ≤ vec_capacity slots.new - length slots.new.items }
    ensures capacity { vec_capacity slots.new ≡ vec_capacity slots.old }
    ensures index_room { index.new.places ≡ index.old.places }
{
    let notes = index.len();
    if notes > len || place <= slots.len() / 2 && index.places() / 8 < notes {
        slots[place].clear();
        return;
    }
    let slot = &slots[place];
    let hash = key_hash(&slot.tag, slot.mode);
    take_out(slots, index, place, hash);
}

/// Goes on with `end` from the slot at `from` of `slots`: leaves each entry the counts that outlive `end`, up
/// to the first entry of which no count does, and answers the place of that entry, or the number of slots.
pub(crate) fn settle(slots: &mut [Entry], end: End, from: usize) -> usize
    requires within { from ≤ length slots.old }
    requires past { IsPast end (opened slots.old) from }
    ensures within { result ≤ length slots.old }
    ensures on { from ≤ result }
    ensures kept { (k : ℕ) → k < result → IfSome (slot_at (opened slots.old) k) (λ entry. is_ended end entry ≡ false) }
    ensures settled { (k : ℕ) → k < result →
        slot_at (opened slots.new) k ≡ option_map (after_end end) (slot_at (opened slots.old) k) }
    ensures others { (k : ℕ) → result ≤ k → slot_at (opened slots.new) k ≡ slot_at (opened slots.old) k }
    ensures ended { result < length slots.old →
        IsSomeAnd (slot_at (opened slots.old) result) (λ entry. is_ended end entry ≡ true) }
{
    for place in from..slots.len() {
        let entry = slots[place];
        if entry.is_held() {
            let left = end.counts_left(entry);
            if left.total() == 0 {
                return place;
            }
            slots[place] = left;
        }
    }
    slots.len()
}

/// Goes on with the end of the innermost of `depth` inner levels from the slot at `from` of `slots`: takes
/// the level's count, by the entry's list in `outer`, from each entry, up to the first entry that has no
/// other count, and answers the place of that entry, or the number of slots. Before the answered place the
/// end has nothing left to do.
pub(crate) fn settle_inner(
    slots: &mut Vec<Entry>,
    outer: &mut Vec<OuterCounts>,
    depth: u8,
    from: usize,
) -> usize
    requires begun { 0 < depth }
    requires lists { length slots.old.items ≤ length outer.old.items }
    requires empty { AreEmpty (opened slots.old.items) outer.old.items }
    requires past { (k : ℕ) → k < from → length (row_at outer.old.items k) ≤ depth - 1 }
    ensures within { result ≤ length slots.old.items }
    ensures settled { AreSettled (depth - 1) (opened slots.old.items) outer.old.items
        (opened slots.new.items) outer.new.items result }
    ensures stay { (k : ℕ) → k < result → IfSome (slot_at (opened slots.old.items) k)
        (λ entry. count_in_all (without_level (depth - 1) (row_at outer.old.items k) entry) ≢ 0) }
    ensures ended { result < length slots.old.items → IsSomeAnd (slot_at (opened slots.old.items) result)
        (λ entry. count_in_all (without_level (depth - 1) (row_at outer.old.items result) entry) ≡ 0) }
    ensures number { length slots.new.items ≡ length slots.old.items }
    ensures capacity { vec_capacity slots.new ≡ vec_capacity slots.old }
{
    for place in from..slots.len() {
        let entry = slots[place];
        let left = entry.with_transaction(outer[place].at(depth - 1, entry.transaction));
        if entry.is_held() && left.total() == 0 {
            return place;
        }
        slots[place] = left;
        outer[place].cut(depth - 1);
    }
    slots.len()
}

/// Moves `entry` from the slot at `place` of `slots` down to the slot at `to`, over empty slots.
fn move_down(slots: &mut Vec<Entry>, place: usize, to: usize, entry: Entry)
    requires there { slot_at (opened slots.old.items) place ≡ Some entry }
    requires down { to ≤ place }
    requires empty { (k : ℕ) → to ≤ k → k < place → slot_at (opened slots.old.items) k ≡ None }
    ensures entries { present (opened slots.new.items) ≡ present (opened slots.old.items) }
    ensures here { slot_at (opened slots.new.items) to ≡ Some entry }
    ensures empty { (k : ℕ) → to < k → k ≤ place → slot_at (opened slots.new.items) k ≡ None }
    ensures before { (k : ℕ) → k < to → slot_at (opened slots.new.items) k ≡ slot_at (opened slots.old.items) k }
    ensures behind { (k : ℕ) → place < k → slot_at (opened slots.new.items) k ≡ slot_at (opened slots.old.items) k }
    ensures told { (level : ℕ) (lists left : ℕ → List ℕ) →
        left to ≡ lists place → ((k : ℕ) → k ≢ to → k ≢ place → left k ≡ lists k) →
        had level (opened slots.new.items) left ≡ had level (opened slots.old.items) lists }
    ensures number { length slots.new.items ≡ length slots.old.items }
    ensures capacity { vec_capacity slots.new ≡ vec_capacity slots.old }
{
    slots[place].clear();
    slots[to] = entry;
}

/// Moves the entries of `slots` together, so that no slot is empty, and each entry's list in `outer` with the
/// entry.
fn gather(slots: &mut Vec<Entry>, outer: &mut Vec<OuterCounts>)
    requires few { length slots.old.items ≤ no_place }
    requires lists { length slots.old.items ≤ length outer.old.items }
    requires empty { AreEmpty (opened slots.old.items) outer.old.items }
    ensures entries { present (opened slots.new.items) ≡ present (opened slots.old.items) }
    ensures full { IsFull slots.new.items }
    ensures number { length slots.new.items ≡ length (present (opened slots.old.items)) }
    ensures slot_room { vec_capacity slots.new ≡ vec_capacity slots.old }
    ensures moved { AreMoved (opened slots.old.items) outer.old.items (opened slots.new.items) outer.new.items }
    ensures told { (level : ℕ) → had level (opened slots.new.items) (row_at outer.new.items)
        ≡ had level (opened slots.old.items) (row_at outer.old.items) }
{
    let mut kept = 0;
    for place in 0..slots.len() {
        let entry = slots[place];
        if entry.is_held() {
            move_down(slots, place, kept, entry);
            move_row(outer, place, kept);
            kept += 1;
        }
    }
    slots.truncate(kept);
}

/// Notes the place of each entry of `slots` in `index`, which has no note.
fn note_all(slots: &[Entry], index: &mut PlaceIndex)
    requires full { IsFull slots.now }
    requires once { IsOnce (opened slots.now) }
    requires empty { (hash place : ℕ) → times index.old hash place ≡ 0 }
    requires room { length slots.now ≤ index.old.places }
    ensures indexed { IsIndexed (opened slots.now) index.new }
    ensures room { index.new.places ≡ index.old.places }
{
    for place in 0..slots.len() {
        let entry = &slots[place];
        index.insert_last(key_hash(&entry.tag, entry.mode), place as u32);
    }
}

/// Moves the entries of `slots` down over the empty slots, so that no slot is empty, and their lists in
/// `outer` with them. `index` has the entries' new places then, and no others.
#[cold]
#[inline(never)]
pub(crate) fn compact(slots: &mut Vec<Entry>, index: &mut PlaceIndex, outer: &mut Vec<OuterCounts>)
    requires indexed { IsIndexed (opened slots.old.items) index.old }
    requires few { length slots.old.items ≤ no_place }
    requires lists { length slots.old.items ≤ length outer.old.items }
    requires empty { AreEmpty (opened slots.old.items) outer.old.items }
    ensures entries { present (opened slots.new.items) ≡ present (opened slots.old.items) }
    ensures full { length slots.new.items ≡ length (present (opened slots.old.items)) }
    ensures indexed { IsIndexed (opened slots.new.items) index.new }
    ensures slot_room { vec_capacity slots.new ≡ vec_capacity slots.old }
    ensures index_room { index.new.places ≡ index.old.places }
    ensures moved { AreMoved (opened slots.old.items) outer.old.items (opened slots.new.items) outer.new.items }
    ensures told { (level : ℕ) → had level (opened slots.new.items) (row_at outer.new.items)
        ≡ had level (opened slots.old.items) (row_at outer.old.items) }
{
    gather(slots, outer);
    index.clear();
    note_all(slots.as_slice(), index);
}

/// Takes the places of empty slots out of `index` that an end may have left beside the places of the `len`
/// entries: if there are some, the entries of `slots` are moved down over the empty slots, with their lists
/// in `outer`, and no slot is empty. Otherwise nothing is done.
#[inline(always)]
pub(crate) fn tidy(
    slots: &mut Vec<Entry>,
    index: &mut PlaceIndex,
    outer: &mut Vec<OuterCounts>,
    len: usize,
)
    requires indexed { IsIndexed (opened slots.old.items) index.old }
    requires few { length slots.old.items ≤ no_place }
    requires lists { length slots.old.items ≤ length outer.old.items }
    requires empty { AreEmpty (opened slots.old.items) outer.old.items }
    ensures entries { present (opened slots.new.items) ≡ present (opened slots.old.items) }
    ensures full { len < length index.old.notes →
        length slots.new.items ≡ length (present (opened slots.old.items)) }
    ensures untouched { length index.old.notes ≤ len → (slots.new ≡ slots.old) × (index.new ≡ index.old) }
    ensures shorter { length slots.new.items ≤ length slots.old.items }
    ensures indexed { IsIndexed (opened slots.new.items) index.new }
    ensures capacity { vec_capacity slots.new ≡ vec_capacity slots.old }
    ensures index_room { index.new.places ≡ index.old.places }
    ensures moved { AreMoved (opened slots.old.items) outer.old.items (opened slots.new.items) outer.new.items }
    ensures told { (level : ℕ) → had level (opened slots.new.items) (row_at outer.new.items)
        ≡ had level (opened slots.old.items) (row_at outer.old.items) }
{
    if index.len() > len {
        compact(slots, index, outer);
    }
}
