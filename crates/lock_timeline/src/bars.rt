//! What a timeline shows: bars of locks, and arrows between them.
ghost use Rattle.std.specs.Prelude.{◌≡◌, ◌==◌, ◌<◌, ◌≤◌, max};
ghost use Rattle.lock_timeline.specs.Bars.{bars_the_way, is_awaited, is_held};

use modes_core::{Mode, ModeSet, Tag, conflicts};

/// How many letters of a bar's label fit between a step and the next one.
const LETTERS_OF_A_STEP: usize = 6;

/// A bar of the timeline: a session's lock, from the step in which the session asked for it to the step in
/// which the lock or its wait ended.
#[derive(Drop)]
pub struct Bar {
    /// The number of the lane of the bar's session.
    pub lane: u32,
    /// The row of the session's lane in which the bar is drawn.
    pub row: u32,
    pub tag: Tag,
    pub mode: Mode,
    /// The lock's object and mode as text.
    pub label: String,
    /// The step in which the session asked for the lock.
    pub asked: u32,
    /// The step in which the session got the lock, if it did.
    pub got: Option<u32>,
    /// The step in which the session gave the lock back, or gave up its wait for the lock, if it did.
    pub ended: Option<u32>,
}

impl Bar {
    /// The step up to which the bar's label reaches.
    pub fn label_end(&self) -> u32 {
        let steps = u32::try_from(self.label.len() / LETTERS_OF_A_STEP).unwrap_or(u32::MAX);
        self.asked.saturating_add(steps).saturating_add(1)
    }

    /// The steps in which the bar's session waited for the lock. It waits up to `last` where it waits still.
    pub fn wait(&self, last: u32) -> Span {
        Span::new(self.asked, self.got.or(self.ended).unwrap_or(last))
    }

    /// The steps in which the bar's session had the lock, if it got it. It has it up to `last` where it has
    /// it still.
    pub fn hold(&self, last: u32) -> Option<Span> {
        let got = self.got?;
        Some(Span::new(got, self.ended.unwrap_or(last)))
    }

    /// Whether the bar's session waits for the lock: it has neither got the lock nor given up.
    pub fn is_awaited(&self) -> bool
        ensures { result ≡ is_awaited self.now }
    {
        self.got.is_none() && self.ended.is_none()
    }

    /// Whether the bar's session has the lock: it got the lock and has not given it back.
    pub fn is_held(&self) -> bool
        ensures { result ≡ is_held self.now }
    {
        self.got.is_some() && self.ended.is_none()
    }
}

/// Steps of a timeline, from one to another that is none before it.
#[derive(Clone, Copy, Debug, PartialEq, Eq)]
pub struct Span {
    pub from: u32,
    pub to: u32,
    ghost ordered: { from ≤ to },
}

impl Span {
    /// The steps from `from` to `to`, or `from` alone where `to` is before it.
    pub fn new(from: u32, to: u32) -> Self
        ensures from { result.from ≡ from }
        ensures to { result.to ≡ max from to }
    {
        Span {
            from,
            to: to.max(from),
        }
    }

    /// Whether the steps are one and the same.
    pub fn is_empty(self) -> bool
        ensures { result ≡ (self.from == self.to) }
    {
        self.from == self.to
    }
}

/// How another bar is in the way of a bar whose session waits.
#[derive(Clone, Copy)]
pub enum Way {
    /// The session of the other bar holds a conflicting mode.
    Holds,
    /// The session of the other bar awaits a conflicting mode, and is before the session that waits in the
    /// wait queue.
    StandsBefore,
}

/// An arrow from a bar whose session waits to a bar that was in the session's way when the wait began.
#[derive(Clone, Copy)]
pub struct Arrow {
    /// The number of the bar whose session waits.
    pub from: u32,
    /// The number of the bar that is in the way of the session that waits.
    pub to: u32,
    pub way: Way,
}

/// The modes that the session of `lane` holds on `tag`, by `bars`.
pub fn held_on(bars: &[Bar], lane: u32, tag: Tag) -> ModeSet {
    let mut modes = ModeSet::empty();
    for bar in bars {
        if bar.lane == lane && bar.tag == tag && bar.is_held() {
            modes = modes.with(bar.mode);
        }
    }
    modes
}

/// Whether `bar`, held or awaited, is in the way of `mode` on `tag` for the session of `lane`: `bar` is
/// another session's, on `tag`, in a mode that conflicts with `mode`.
pub fn is_in_the_way(bar: &Bar, lane: u32, tag: Tag, mode: Mode) -> bool
    ensures { result ≡ bars_the_way bar.now lane tag mode }
{
    if bar.lane == lane {
        return false;
    }
    if bar.tag.is_same(tag) {
        conflicts(mode).has(bar.mode)
    } else {
        false
    }
}
