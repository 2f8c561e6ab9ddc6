ghost use Rattle.std.specs.Prelude.{◌≡◌, ◌+◌, ◌*◌, ◌<◌, ◌≤◌, ◌↔◌, ℕ, max, length, true, false, IsTrue, OnOk, OnErr, IfOk, IfSome, IfNone};
ghost use Rattle.place_index.specs.Notes.{no_place, times, IsFirst, IsFree, IsNoted, IsOneMore, HasSameNotes};

use crate::chains::{
    find, free_all, link_all, link_first, link_in, start_of, unlink, unlink_first,
};
use crate::links::{END, Link};
use std::alloc::{AllocError, Global};
use std::marker::Model;

/// How many places a new index has room for.
const FIRST_PLACES: usize = 16;

/// How many starts of chains an index has beside two for each place, so that in a small table too most chains
/// have one place or none.
const MORE_STARTS: usize = 96;

/// How many places an index has room for at most.
const MOST_PLACES: usize = 1 << 30;

/// An index of places in somebody else's list: each place is noted under one 32-bit hash or not at all.
/// Contracts see how often a place is noted under a hash, and how many places the index has room for.
#[derive(Drop)]
pub struct PlaceIndex {
    heads: Vec<u32>,
    links: Vec<Link>,
    len: usize,
}

impl Model for PlaceIndex {
    ghost use Rattle.std.specs.Prelude.{length};
    ghost use Rattle.place_index.specs.Notes.{Notes};
    ghost use Rattle.place_index.specs.Chains.{notes_in, IsSound};

    ghost Value = { Notes };

    ghost view = { λ t. record { notes = notes_in t.links.items; places = length t.links.items } };

    ghost invariant = { λ t. IsSound t.heads.items t.links.items t.len };
}

/// How many starts of chains an index has that has room for `places` places.
fn starts_for(places: usize) -> usize
    requires { places ≤ 1073741824 }
    ensures some { 0 < result }
    ensures few { result ≤ 4294967296 }
{
    2 * places + MORE_STARTS
}

impl PlaceIndex {
    /// An index with no note, and with room for a few places. Refused only where memory, by `alloc`, ran out.
    pub fn new(alloc: Global) -> Result<Self, AllocError>
        ensures empty { IfOk result (λ index. (h p : ℕ) → times index h p ≡ 0) }
        ensures room { IfOk result (λ index. 0 < index.places) }
    {
        let mut heads = Vec::new(alloc);
        heads.resize(starts_for(FIRST_PLACES), END)?;
        let mut links = Vec::new(alloc);
        links.resize(FIRST_PLACES, Link::free())?;
        Ok(PlaceIndex {
            heads,
            links,
            len: 0,
        })
    }

    /// A place noted under `hash` of which `is_it` says that it is the one looked for, or `None`. `is_it` is
    /// asked only about places that are noted under `hash`.
    #[inline(always)]
    pub fn find<F: Fn(u32) -> bool>(&self, hash: u32, is_it: F) -> Option<u32>
        requires { (p : ℕ) → 0 < times self.now hash p → F.pre is_it p }
        ensures found { IfSome result (λ p. (0 < times self.now hash p) × F.post is_it p true) }
        ensures absent { IfNone result ((p : ℕ) → 0 < times self.now hash p → F.post is_it p false) }
    {
        find(self.heads.as_slice(), self.links.as_slice(), hash, is_it)
    }

    /// The place that a `find` for `hash` comes to first, which may be noted under another hash, or `None`. A
    /// caller that goes on with `find` where that place isn't the one looked for has no loop in its own code.
    #[inline(always)]
    pub fn first(&self, hash: u32) -> Option<u32>
        ensures { IsFirst self.now hash result }
    {
        let head = self.heads[start_of(self.heads.len(), hash)];
        // The number for an end is above all places.
        if (head as usize) < self.links.len() {
            Some(head)
        } else {
            None
        }
    }

    /// How many places the index has room for: each place below this number can be noted.
    #[inline(always)]
    pub fn places(&self) -> usize
        ensures is { result ≡ self.now.places }
        ensures few { result ≤ no_place }
    {
        self.links.len()
    }

    /// How many places are noted in the index.
    #[inline(always)]
    pub fn len(&self) -> usize
        ensures { result ≡ length self.now.notes }
    {
        self.len
    }

    /// Whether `place` is noted in the index, under any hash.
    pub fn has(&self, place: u32) -> bool
        ensures noted { result ≡ true → IsNoted self.now place }
        ensures free { result ≡ false → IsFree self.now place }
    {
        let place = place as usize;
        place < self.links.len() && self.links[place].is_noted()
    }

    /// Makes room for `place`. Only this call and `new` take memory. Refused where memory ran out, or where
    /// `place` is 2^30 or above; after a refusal the notes are as before.
    #[inline(always)]
    pub fn reserve(&mut self, place: u32) -> Result<(), AllocError>
        ensures ok { OnOk result (place < self.new.places) }
        ensures full { OnErr result (self.old.places ≤ place) }
        ensures grows { place < self.old.places → self.new.places ≡ self.old.places }
        ensures doubles_at_most { self.new.places ≤ max (2 * self.old.places) (place + 1) }
        ensures room { self.old.places ≤ self.new.places }
        ensures notes { HasSameNotes self.old self.new }
    {
        let place = place as usize;
        if place < self.links.len() {
            Ok(())
        } else {
            self.grow(place)
        }
    }

    /// Makes room for twice as many places as before, or for `place` where that takes more, and puts all
    /// notes into new chains.
    #[cold]
    #[inline(never)]
    fn grow(&mut self, place: usize) -> Result<(), AllocError>
        requires beyond { self.old.places ≤ place }
        requires few { place < 4294967296 }
        ensures ok { OnOk result (place < self.new.places) }
        ensures doubles_at_most { self.new.places ≤ max (2 * self.old.places) (place + 1) }
        ensures room { self.old.places ≤ self.new.places }
        ensures notes { HasSameNotes self.old self.new }
    {
        if place >= MOST_PLACES {
            return Err(AllocError);
        }
        let places = (2 * self.links.len()).min(MOST_PLACES).max(place + 1);
        let mut heads = Vec::new(*self.heads.allocator());
        heads.resize(starts_for(places), END)?;
        self.links.resize(places, Link::free())?;
        link_all(heads.as_mut_slice(), self.links.as_mut_slice());
        self.heads = heads;
        Ok(())
    }

    /// Notes `place`, which isn't noted yet and has room, under `hash`.
    #[inline(always)]
    pub fn insert(&mut self, hash: u32, place: u32)
        requires room { place < self.old.places }
        requires free { IsFree self.old place }
        ensures notes { IsOneMore self.old self.new hash place }
        ensures room { self.new.places ≡ self.old.places }
    {
        self.len += 1;
        link_in(
            self.heads.as_mut_slice(),
            self.links.as_mut_slice(),
            hash,
            place,
        );
    }

    /// Notes `place`, which is higher than all that are noted and has room, under `hash`, with neither a loop
    /// nor a call.
    #[inline(always)]
    pub fn insert_last(&mut self, hash: u32, place: u32)
        requires room { place < self.old.places }
        requires last { (h p : ℕ) → 0 < times self.old h p → p < place }
        ensures notes { IsOneMore self.old self.new hash place }
        ensures room { self.new.places ≡ self.old.places }
    {
        link_first(
            self.heads.as_mut_slice(),
            self.links.as_mut_slice(),
            hash,
            place,
        );
        self.len += 1;
    }

    /// Takes away the note of `place` under `hash`.
    pub fn remove(&mut self, hash: u32, place: u32)
        requires { 0 < times self.old hash place }
        ensures notes { IsOneMore self.new self.old hash place }
        ensures room { self.new.places ≡ self.old.places }
    {
        unlink(
            self.heads.as_mut_slice(),
            self.links.as_mut_slice(),
            hash,
            place,
        );
        self.len -= 1;
    }

    /// Takes away the note of `place`, the last one of all that are noted, with neither a loop nor a call.
    /// The index knows the hash of `place`.
    #[inline(always)]
    pub fn remove_last(&mut self, place: u32)
        requires noted { IsNoted self.old place }
        requires last { (h p : ℕ) → 0 < times self.old h p → p ≤ place }
        ensures notes { (hash : ℕ) → 0 < times self.old hash place → IsOneMore self.new self.old hash place }
        ensures number { length self.new.notes + 1 ≡ length self.old.notes }
        ensures room { self.new.places ≡ self.old.places }
    {
        let hash = self.links[place as usize].hash();
        unlink_first(
            self.heads.as_mut_slice(),
            self.links.as_mut_slice(),
            hash,
            place,
        );
        self.len -= 1;
    }

    /// Takes all notes out of the index, and keeps the room for them.
    pub fn clear(&mut self)
        ensures empty { (h p : ℕ) → times self.new h p ≡ 0 }
        ensures room { self.new.places ≡ self.old.places }
        ensures fits { length self.old.notes ≤ self.new.places }
    {
        free_all(self.heads.as_mut_slice(), self.links.as_mut_slice());
        self.len = 0;
    }
}
