//! The index of places: a list of calls, and random calls against a plain list.

use place_index::PlaceIndex;
use rand_core::{Rng, SeedableRng};
use rand_xoshiro::Xoshiro256PlusPlus;
use std::alloc::Global;
use std::process::Abort;

/// An index that grows by `alloc`, at the second attempt where there was no memory.
fn new_index(rt: &impl Abort, alloc: Global) -> PlaceIndex {
    match PlaceIndex::new(alloc) {
        Ok(index) => index,
        Err(_) => PlaceIndex::new(alloc).expect(rt, "memory"),
    }
}

/// Whether `index` has `place` under `hash`.
fn is_noted(index: &PlaceIndex, hash: u32, place: u16) -> bool {
    index
        .find(hash, |found| found == u32::from(place))
        .is_some()
}

/// Notes `place`, which is not noted yet, under `hash` in `index`. Where memory is refused, a second attempt
/// is made.
fn note(rt: &impl Abort, index: &mut PlaceIndex, hash: u32, place: u16) {
    let place = u32::from(place);
    if index.reserve(place).is_err() {
        assert!(rt; index.reserve(place).is_ok());
    }
    let room = index.places();
    assert!(rt; (place as usize) < room);
    if index.has(place) {
        assert!(rt; false, "{place} is noted");
    } else {
        index.insert(hash, place);
    }
}

/// Forgets `place`, if `index` has it under `hash`, and answers whether it was noted.
fn forget(index: &mut PlaceIndex, hash: u32, place: u16) -> bool {
    let found = index.find(hash, |other| other == u32::from(place));
    match found {
        Some(place) => {
            index.remove(hash, place);
            true
        }
        None => false,
    }
}

/// Forgets all places of `index`, and answers whether the room for them stays.
fn clear(index: &mut PlaceIndex) -> bool {
    let room = index.places();
    index.clear();
    room == index.places()
}

/// What is done to an index, or seen in it.
#[derive(Clone, Copy)]
enum Step {
    Note(u32, u16),
    /// Forget a place under a hash, and say whether the place was noted under that hash.
    Forget(u32, u16, bool),
    /// Find a place under a hash, and say whether the place is noted under that hash.
    Find(u32, u16, bool),
    /// The place that a look for the hash comes to first.
    First(u32, Option<u32>),
    /// Whether a place is noted under some hash.
    Has(u32, bool),
    /// How many places are noted in the index.
    Count(usize),
    Clear,
}

const NOTED_UNTIL_FORGOTTEN_OR_CLEARED: [Step; 25] = [
    Step::Find(0, 0, false),
    Step::Find(u32::MAX, 7, false),
    Step::First(5, None),
    Step::Note(5, 0),
    Step::First(5, Some(0)),
    Step::First(u32::MAX, None),
    Step::Note(5, 1),
    Step::Has(1, true),
    Step::Has(2, false),
    Step::Has(u32::MAX, false),
    Step::Forget(5, 2, false),
    Step::Forget(4, 1, false),
    Step::Forget(5, 0, true),
    Step::Forget(5, 0, false),
    Step::Note(6, 0),
    Step::Count(2),
    Step::Find(5, 0, false),
    Step::Find(5, 1, true),
    Step::Find(6, 0, true),
    Step::Find(6, 1, false),
    Step::Clear,
    Step::Count(0),
    Step::Find(5, 1, false),
    Step::Find(6, 0, false),
    Step::First(5, None),
];

/// Does with `index` what `step` says, or looks at `index`, and answers whether that comes out as `step`
/// says.
fn make(rt: &impl Abort, index: &mut PlaceIndex, step: Step) -> bool {
    match step {
        Step::Note(hash, place) => {
            note(rt, index, hash, place);
            true
        }
        Step::Forget(hash, place, was) => forget(index, hash, place) == was,
        Step::Find(hash, place, is) => is_noted(index, hash, place) == is,
        Step::First(hash, place) => index.first(hash) == place,
        Step::Has(place, is) => index.has(place) == is,
        Step::Count(count) => index.len() == count,
        Step::Clear => clear(index),
    }
}

/// Plays all `steps` with `index`, in order.
fn play(rt: &impl Abort, index: &mut PlaceIndex, steps: &[Step]) {
    for place in 0..steps.len() {
        let is_right = make(rt, index, steps[place]);
        assert!(rt; is_right, "step {place}");
    }
}

#[test]
fn a_place_is_noted_until_it_is_forgotten_or_all_are_cleared(rt: HostRuntime) {
    let mut index = new_index(&rt, rt.alloc());
    play(&rt, &mut index, NOTED_UNTIL_FORGOTTEN_OR_CLEARED.as_slice());
}

/// For each place the hash that it is noted under, or `None` where it is not noted.
type Plain = [Option<u32>; 256];

/// A hash by `random`: half of the time `its`, the hash that a place is noted under, if there is one, and
/// otherwise any.
fn hash_by(random: u32, its: Option<u32>) -> u32 {
    let other = (random >> 24) % 40;
    if random >> 20 & 1 == 0 {
        return other;
    }
    its.unwrap_or(other)
}

/// Makes a call on `index` and `list`, by some bits of `random`, and answers whether the answers are alike.
fn call_both(rt: &impl Abort, index: &mut PlaceIndex, list: &mut Plain, random: u32) -> bool {
    let place = random >> 12 & 0xFF;
    let its = list[place as usize];
    let hash = hash_by(random, its);
    let place = place as u16;
    match random >> 10 & 3 {
        0 if its.is_none() => {
            note(rt, index, hash, place);
            list[usize::from(place)] = Some(hash);
            true
        }
        1 => {
            let was = forget(index, hash, place);
            if was {
                list[usize::from(place)] = None;
            }
            was == (its == Some(hash))
        }
        _ => is_noted(index, hash, place) == (its == Some(hash)),
    }
}

#[test]
fn random_calls_are_as_on_a_list(rt: HostRuntime) {
    let mut index = new_index(&rt, rt.alloc());
    let mut list: Plain = [None; 256];
    let mut generator = Xoshiro256PlusPlus::seed_from_u64(1);
    for step in 0..20_000u32 {
        let is_right = call_both(&rt, &mut index, &mut list, generator.next_u32());
        assert!(rt; is_right, "call {step}");
    }
}
