ghost use Rattle.std.specs.Prelude.{◌≡◌, ◌≢◌, ℕ, ◌+◌, ◌^◌, ◌<◌, ◌≤◌, true, false, length, replicate, count_by, Some, None, IfSome, IfNone, IsTrue};
ghost use Rattle.place_index.specs.Notes.{no_place};
ghost use Rattle.place_index.specs.Chains.{end_of_chain, free_link, link_at, is_noted, note_at, next_at, head_at, is_under, is_in, chain, start_of, HasNexts, HasStarts, IsLinked, NotesMore, NotesLess};

use crate::links::{END, Link};

/// The number of the start, one of `starts`, where the chain of `hash` begins: a multiplication spreads the
/// hashes over the starts in the order of the hashes, so the highest bits of a hash decide.
#[inline(always)]
pub(crate) fn start_of(starts: usize, hash: u32) -> usize
    requires { starts ≤ 2 ^ 32 }
    ensures is { result ≡ start_of starts hash }
    ensures within { 0 < starts → result < starts }
{
    ((u64::from(hash) * starts as u64) >> 32) as usize
}

/// The place noted under `hash` in the chains of `heads` and `links` of which `is_it` says that it is the one
/// looked for, or `None`.
#[inline(always)]
pub(crate) fn find<F: Fn(u32) -> bool>(
    heads: &[u32],
    links: &[Link],
    hash: u32,
    is_it: F,
) -> Option<u32>
    requires linked { IsLinked heads.now links.now }
    requires starts { HasStarts heads.now }
    requires callable { (p : ℕ) → is_under hash (note_at links.now p) ≡ true → F.pre is_it p }
    ensures found { IfSome result (λ p. (is_under hash (note_at links.now p) ≡ true) × F.post is_it p true) }
    ensures absent { IfNone result ((p : ℕ) → is_under hash (note_at links.now p) ≡ true → F.post is_it p false) }
{
    let mut at = heads[start_of(heads.len(), hash)];
    while at != END {
        let link = links[at as usize];
        if link.hash() == hash && is_it(at) {
            return Some(at);
        }
        at = link.next();
    }
    None
}

/// Notes `place`, which isn't noted, under `hash` in the chains of `heads` and `links`.
#[inline(always)]
pub(crate) fn link_in(heads: &mut [u32], links: &mut [Link], hash: u32, place: u32)
    requires linked { IsLinked heads.old links.old }
    requires starts { HasStarts heads.old }
    requires few { length links.old ≤ no_place }
    requires within { place < length links.old }
    requires free { note_at links.old place ≡ None }
    ensures linked { IsLinked heads.new links.new }
    ensures notes { NotesMore links.old links.new hash place }
    ensures counted { count_by is_noted links.new ≡ count_by is_noted links.old + 1 }
{
    let head = heads[start_of(heads.len(), hash)];
    if head == END || head < place {
        link_first(heads, links, hash, place);
        return;
    }
    link_behind(heads, links, head, hash, place);
}

/// Notes `place` under `hash` where `place` comes first in its chain of `heads` and `links`.
#[inline(always)]
pub(crate) fn link_first(heads: &mut [u32], links: &mut [Link], hash: u32, place: u32)
    requires linked { IsLinked heads.old links.old }
    requires starts { HasStarts heads.old }
    requires few { length links.old ≤ no_place }
    requires within { place < length links.old }
    requires free { note_at links.old place ≡ None }
    requires first { let head = head_at heads.old (start_of (length heads.old) hash) in
        head ≢ end_of_chain → head < place }
    ensures linked { IsLinked heads.new links.new }
    ensures notes { NotesMore links.old links.new hash place }
    ensures counted { count_by is_noted links.new ≡ count_by is_noted links.old + 1 }
{
    let start = start_of(heads.len(), hash);
    links[place as usize] = Link::noted(hash, heads[start]);
    heads[start] = place;
}

/// Notes `place` under `hash` in `links` at its position after `head`, the first place of its chain in
/// `heads`. Mostly a chain has one place only, and this is not called.
#[cold]
#[inline(never)]
fn link_behind(heads: &[u32], links: &mut [Link], head: u32, hash: u32, place: u32)
    requires linked { IsLinked heads.now links.old }
    requires few { length links.old ≤ no_place }
    requires within { head < length links.old }
    requires there { is_in (length heads.now) (start_of (length heads.now) hash) (note_at links.old head) ≡ true }
    requires behind { place < head }
    requires free { note_at links.old place ≡ None }
    ensures linked { IsLinked heads.now links.new }
    ensures notes { NotesMore links.old links.new hash place }
    ensures counted { count_by is_noted links.new ≡ count_by is_noted links.old + 1 }
{
    let mut before = head;
    let mut next = links[before as usize].next();
    while next != END && next > place {
        before = next;
        next = links[before as usize].next();
    }
    links[place as usize] = Link::noted(hash, next);
    links[before as usize].set_next(place);
}

/// Takes the note of `place` under `hash` out of the chains of `heads` and `links`.
pub(crate) fn unlink(heads: &mut [u32], links: &mut [Link], hash: u32, place: u32)
    requires linked { IsLinked heads.old links.old }
    requires starts { HasStarts heads.old }
    requires few { length links.old ≤ no_place }
    requires there { is_under hash (note_at links.old place) ≡ true }
    ensures linked { IsLinked heads.new links.new }
    ensures notes { NotesLess links.old links.new place }
    ensures counted { count_by is_noted links.new + 1 ≡ count_by is_noted links.old }
{
    if heads[start_of(heads.len(), hash)] == place {
        unlink_first(heads, links, hash, place);
    } else {
        unlink_behind(heads, links, hash, place);
    }
}

/// Takes the note of `place` under `hash` out of its chain of `heads` and `links`, in which `place` comes
/// first.
#[inline(always)]
pub(crate) fn unlink_first(heads: &mut [u32], links: &mut [Link], hash: u32, place: u32)
    requires linked { IsLinked heads.old links.old }
    requires starts { HasStarts heads.old }
    requires few { length links.old ≤ no_place }
    requires there { is_under hash (note_at links.old place) ≡ true }
    requires first { head_at heads.old (start_of (length heads.old) hash) ≡ place }
    ensures linked { IsLinked heads.new links.new }
    ensures notes { NotesLess links.old links.new place }
    ensures counted { count_by is_noted links.new + 1 ≡ count_by is_noted links.old }
{
    let start = start_of(heads.len(), hash);
    heads[start] = links[place as usize].next();
    links[place as usize] = Link::free();
}

/// Takes the note of `place` under `hash` out of `links` where another place comes first in its chain of
/// `heads`.
fn unlink_behind(heads: &[u32], links: &mut [Link], hash: u32, place: u32)
    requires linked { IsLinked heads.now links.old }
    requires starts { HasStarts heads.now }
    requires few { length links.old ≤ no_place }
    requires there { is_under hash (note_at links.old place) ≡ true }
    requires behind { place < head_at heads.now (start_of (length heads.now) hash) }
    ensures linked { IsLinked heads.now links.new }
    ensures notes { NotesLess links.old links.new place }
    ensures counted { count_by is_noted links.new + 1 ≡ count_by is_noted links.old }
{
    let mut before = heads[start_of(heads.len(), hash)];
    let mut next = links[before as usize].next();
    while next != place {
        before = next;
        next = links[before as usize].next();
    }
    let behind = links[place as usize].next();
    links[place as usize] = Link::free();
    links[before as usize].set_next(behind);
}

/// Takes all notes out of the chains of `heads` and `links`.
pub(crate) fn free_all(heads: &mut [u32], links: &mut [Link])
    ensures heads { heads.new ≡ replicate (length heads.old) end_of_chain }
    ensures links { links.new ≡ replicate (length links.old) free_link }
{
    heads.fill(END);
    links.fill(Link::free());
}

/// Puts the places that `links` have as noted into the chains of `heads`, which have no place yet.
pub(crate) fn link_all(heads: &mut [u32], links: &mut [Link])
    requires empty { heads.old ≡ replicate (length heads.old) end_of_chain }
    requires starts { HasStarts heads.old }
    requires few { length links.old ≤ no_place }
    ensures linked { IsLinked heads.new links.new }
    ensures notes { (k : ℕ) → note_at links.new k ≡ note_at links.old k }
    ensures counted { count_by is_noted links.new ≡ count_by is_noted links.old }
{
    for place in 0..links.len() {
        let link = links[place];
        if link.is_noted() {
            let start = start_of(heads.len(), link.hash());
            links[place] = Link::noted(link.hash(), heads[start]);
            heads[start] = place as u32;
        }
    }
}
