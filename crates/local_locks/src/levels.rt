//! What tells the levels of a transaction apart: beside each slot a list of what the transaction had of its
//! entry when each inner level began. In a transaction with one level all of these lists are empty, and
//! nobody reads or writes them.

ghost use Rattle.std.specs.Prelude.{◌≡◌, ◌≢◌, ◌⊎◌, ◌<◌, ◌≤◌, ◌-◌, ℕ, [], length, take, OnOk};
ghost use Rattle.local_locks.specs.Owned.{max_count};
ghost use Rattle.local_locks.specs.Levels.{had_in, row_at, own_count_in, level_count_in};

use crate::Entry;
use modes_core::Owner;
use std::alloc::AllocError;
use std::marker::Model;
use std::mem::replace;

/// How many levels a transaction may have at most: the first one and those that are begun within it.
pub const MOST_LEVELS: u8 = 16;

/// How many levels of a transaction may be within the first one.
pub(crate) const MOST_INNER: u8 = MOST_LEVELS - 1;

/// The transaction's count of an entry when each inner level began, for the first inner level first, up to
/// the last one that has counted the entry. Contracts see the list of counts.
#[derive(Drop)]
pub(crate) struct OuterCounts {
    len: u8,
    counts: [u16; 15],
}

impl Model for OuterCounts {
    ghost use Rattle.std.specs.Prelude.{List, ℕ, take, length, ◌≡◌, ◌≤◌};

    ghost Value = { List ℕ };

    ghost view = { λ row. take row.len row.counts };

    ghost invariant = { λ row. (row.len ≤ 15) × (length row.counts ≡ 15) };
}

impl OuterCounts {
    /// The empty list, of an entry that no inner level has counted.
    pub(crate) fn none() -> Self
        ensures { result ≡ [] }
    {
        OuterCounts {
            len: 0,
            counts: [0; 15],
        }
    }

    /// The transaction's count of the entry when the inner level `level` began, counted from 0. `now` is its
    /// count now, and the answer where no inner level from `level` on has counted the entry.
    pub(crate) fn at(&self, level: u8, now: u16) -> u16
        ensures { result ≡ had_in self.now level now }
    {
        if level < self.len {
            self.counts[usize::from(level)]
        } else {
            now
        }
    }

    /// Adds `now`, the transaction's count of the entry, for each of the first `depth` inner levels that is
    /// not yet in the list.
    pub(crate) fn fill(&mut self, depth: u8, now: u16)
        requires fits { depth ≤ 15 }
        requires within { length self.old ≤ depth }
        ensures number { length self.new ≡ depth }
        ensures same { (level : ℕ) → had_in self.new level now ≡ had_in self.old level now }
    {
        for level in self.len..depth {
            self.counts[usize::from(level)] = now;
        }
        self.len = depth;
    }

    /// Forgets the counts of all inner levels but the first `depth`.
    pub(crate) fn cut(&mut self, depth: u8)
        ensures { self.new ≡ take depth self.old }
    {
        self.len = self.len.min(depth);
    }
}

/// How often `owner` can give `entry` back, where `depth` inner levels have begun: for the transaction, how
/// often the innermost level has `entry`. The entry's list of counts is at `place` in `outer`, which is not
/// read in a transaction with one level.
#[inline(always)]
pub(crate) fn own_count(
    entry: &Entry,
    outer: &[OuterCounts],
    place: usize,
    depth: u8,
    owner: Owner,
) -> u16
    requires { place < length outer.now }
    ensures { result ≡ own_count_in depth (row_at outer.now place) owner entry.now }
{
    if depth == 0 || owner == Owner::Session {
        return entry.count(owner);
    }
    let now = entry.count(Owner::Transaction);
    now.saturating_sub(outer[place].at(depth - 1, now))
}

/// Prepares the list of `outer` at `place` for a change by the innermost of `depth` inner levels: adds `now`,
/// the transaction's count of the entry, for each inner level that has not counted the entry yet. `touched`
/// becomes `place` where `touched` was later.
#[inline(always)]
pub(crate) fn keep(
    outer: &mut Vec<OuterCounts>,
    touched: &mut usize,
    depth: u8,
    place: usize,
    now: u16,
)
    requires exists { place < length outer.old.items }
    requires fits { depth ≤ 15 }
    requires within { length (row_at outer.old.items place) ≤ depth }
    ensures number { length outer.new.items ≡ length outer.old.items }
    ensures filled { length (row_at outer.new.items place) ≡ depth }
    ensures same { (level : ℕ) →
        had_in (row_at outer.new.items place) level now ≡ had_in (row_at outer.old.items place) level now }
    ensures others { (k : ℕ) → k ≢ place → row_at outer.new.items k ≡ row_at outer.old.items k }
    ensures touched { depth ≢ 0 → touched.new ≤ place }
    ensures no_more { touched.new ≤ touched.old }
{
    if depth != 0 {
        keep_inner(outer, touched, depth, place, now);
    }
}

/// Does the work of `keep` for `outer`, `touched`, `depth`, `place` and `now` in a level that is not the
/// first: a call of its own, so that an acquire in the first level remains short.
#[cold]
#[inline(never)]
fn keep_inner(outer: &mut Vec<OuterCounts>, touched: &mut usize, depth: u8, place: usize, now: u16)
    requires exists { place < length outer.old.items }
    requires fits { depth ≤ 15 }
    requires within { length (row_at outer.old.items place) ≤ depth }
    ensures number { length outer.new.items ≡ length outer.old.items }
    ensures filled { length (row_at outer.new.items place) ≡ depth }
    ensures same { (level : ℕ) →
        had_in (row_at outer.new.items place) level now ≡ had_in (row_at outer.old.items place) level now }
    ensures others { (k : ℕ) → k ≢ place → row_at outer.new.items k ≡ row_at outer.old.items k }
    ensures touched { touched.new ≤ place }
    ensures no_more { touched.new ≤ touched.old }
{
    outer[place].fill(depth, now);
    if *touched > place {
        *touched = place;
    }
}

/// Empties the lists of `outer` from `from` up to `to`, which is left out, where `depth` inner levels have
/// begun: with none, all lists are empty already.
#[inline(always)]
pub(crate) fn forget(outer: &mut Vec<OuterCounts>, depth: u8, from: usize, to: usize)
    requires exists { to ≤ length outer.old.items }
    requires within { (k : ℕ) → length (row_at outer.old.items k) ≤ depth }
    ensures number { length outer.new.items ≡ length outer.old.items }
    ensures empty { (k : ℕ) → from ≤ k → k < to → row_at outer.new.items k ≡ [] }
    ensures before { (k : ℕ) → k < from → row_at outer.new.items k ≡ row_at outer.old.items k }
    ensures behind { (k : ℕ) → to ≤ k → row_at outer.new.items k ≡ row_at outer.old.items k }
{
    if depth != 0 {
        cut_all(outer, from, to, 0);
    }
}

/// Forgets the counts of all inner levels but the first `depth` in the lists of `outer` from `from` up to
/// `to`, which is left out.
#[cold]
#[inline(never)]
pub(crate) fn cut_all(outer: &mut Vec<OuterCounts>, from: usize, to: usize, depth: u8)
    requires { to ≤ length outer.old.items }
    ensures number { length outer.new.items ≡ length outer.old.items }
    ensures cut { (k : ℕ) → from ≤ k → k < to → row_at outer.new.items k ≡ take depth (row_at outer.old.items k) }
    ensures before { (k : ℕ) → k < from → row_at outer.new.items k ≡ row_at outer.old.items k }
    ensures behind { (k : ℕ) → to ≤ k → row_at outer.new.items k ≡ row_at outer.old.items k }
{
    for place in from..to {
        outer[place].cut(depth);
    }
}

/// Moves the list at `place` of `outer` down to `to`, as the entry is moved that the list belongs to, and
/// leaves an empty list at `place`.
pub(crate) fn move_row(outer: &mut Vec<OuterCounts>, place: usize, to: usize)
    requires exists { place < length outer.old.items }
    requires down { to ≤ place }
    ensures number { length outer.new.items ≡ length outer.old.items }
    ensures here { row_at outer.new.items to ≡ row_at outer.old.items place }
    ensures empty { to ≢ place → row_at outer.new.items place ≡ [] }
    ensures others { (k : ℕ) → k ≢ to → k ≢ place → row_at outer.new.items k ≡ row_at outer.old.items k }
{
    let row = replace(&mut outer[place], OuterCounts::none());
    outer[to] = row;
}

/// How often the level `level` of the transaction, counted from 1, has `entry`. `row` is the entry's list of
/// counts.
pub(crate) fn level_count(entry: &Entry, row: &OuterCounts, level: u8) -> u16
    requires { 1 ≤ level }
    ensures { result ≡ level_count_in row.now level entry.now }
{
    let now = entry.count(Owner::Transaction);
    let up_to = row.at(level - 1, now);
    if level == 1 {
        return up_to;
    }
    up_to.saturating_sub(row.at(level - 2, now))
}

/// Adds empty lists to `outer` until there are `number`, if there are fewer.
pub(crate) fn lengthen(outer: &mut Vec<OuterCounts>, number: usize) -> Result<(), AllocError>
    ensures ok { OnOk result (number ≤ length outer.new.items) }
    ensures longer { length outer.old.items ≤ length outer.new.items }
    ensures same { (k : ℕ) → row_at outer.new.items k ≡ row_at outer.old.items k }
{
    for _ in outer.len()..number {
        outer.push(OuterCounts::none())?;
    }
    Ok(())
}

/// Keeps `place` in `hint`, the place where an entry is looked for first. In an inner level (`depth` above 0)
/// `hint` is not set: it is no place there, so that the usual way in the first level needs no check of the
/// level.
#[inline(always)]
pub(crate) fn set_hint(hint: &mut usize, depth: u8, place: usize)
    ensures first { depth ≡ 0 → hint.new ≡ place }
    ensures inner { depth ≢ 0 → hint.new ≡ hint.old }
{
    if depth == 0 {
        *hint = place;
    }
}

/// The count below which an owner's count is raised at once, without a look at the levels, where `depth`
/// inner levels have begun: the largest count in the first level, and 0 in an inner one.
pub(crate) fn most_at_once(depth: u8) -> u16
    ensures { ((depth ≡ 0) × (result ≡ max_count)) ⊎ ((depth ≢ 0) × (result ≡ 0)) }
{
    if depth == 0 { u16::MAX } else { 0 }
}
