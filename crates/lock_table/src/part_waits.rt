//! The waits of a partition, in one list. The queue of an object is the sub-list of its own. A function that
//! compares the tag at each place of a list copies it first, so that it is not read again there.

ghost use Rattle.std.specs.Prelude.{◌≡◌, ◌≤◌, ◌<◌, ◌+◌, ℕ, List, not, length, take, map, filter, find, option_map, slice_get, vec_len, vec_capacity};
ghost use Rattle.std.specs.List.{list_any};
ghost use Rattle.modes_core.specs.declared.modes.Mode.{Mode};
ghost use Rattle.modes_core.specs.declared.tags.Tag.{Tag};
ghost use Rattle.modes_core.specs.ModeSet.{set_has};
ghost use Rattle.lock_table.specs.Content.{Wait};
ghost use Rattle.lock_table.specs.Queue.{Wakes};
ghost use Rattle.lock_table.specs.Waiter.{shown_wait, whose_and_mode};
ghost use Rattle.lock_table.specs.Request.{is_request_on, is_in_the_way_of};
ghost use Rattle.lock_table.specs.PartView.{content_in};
ghost use Rattle.lock_table.specs.PartWaits.{request_of, awaited_row_of, queues_in, times_in, OneWaitEach, awaits_one_of, goes_now};

use crate::request::Request;
use crate::rows::TableRow;
use crate::waits::Waiter;
use modes_core::{Mode, ModeSet, SessionId, Tag, conflicts};

/// A wait in a partition: on which object, and what the object's queue has of the wait.
#[derive(Clone, Copy, PartialEq, Eq)]
pub struct PartWait {
    /// The object that the wait is for.
    pub tag: Tag,
    /// What the object's queue has of the wait.
    pub waiter: Waiter,
}

impl PartWait {
    /// The request that waits, which becomes a hold once this wait is granted.
    pub fn request(&self) -> Request
        ensures { result ≡ request_of self.now }
    {
        Request {
            session: self.waiter.session,
            tag: self.tag,
            mode: self.waiter.mode,
        }
    }

    /// What a wakeup that grants this wait notes of it: the session and the mode.
    pub fn whose(&self) -> (SessionId, Mode)
        ensures { result ≡ whose_and_mode (shown_wait self.now.waiter) }
    {
        (self.waiter.session, self.waiter.mode)
    }

    /// The row of the wait in a listing.
    pub fn row(&self) -> TableRow
        ensures { result ≡ awaited_row_of self.now }
    {
        let Request { session, tag, mode } = self.request();
        TableRow {
            session,
            tag,
            mode,
            granted: false,
        }
    }

    /// Whether this is the wait of `session` on `tag`.
    pub fn is_on(&self, session: SessionId, tag: &Tag) -> bool
        ensures { result ≡ is_request_on (request_of self.now) session tag.now }
    {
        if self.waiter.session != session {
            return false;
        }
        tag.is_same(self.tag)
    }

    /// Whether this is a wait on `tag` for one of `modes`.
    pub fn awaits_one(&self, tag: &Tag, modes: ModeSet) -> bool
        ensures { result ≡ awaits_one_of self.now tag.now (set_has modes) }
    {
        if !tag.is_same(self.tag) {
            return false;
        }
        modes.has(self.waiter.mode)
    }
}

/// The wait at `place` of the queue of `tag`, counted from the front, in the list `waits` of a partition's
/// waits.
pub fn waiter_at(waits: &[PartWait], tag: &Tag, place: usize) -> Option<Waiter>
    ensures { option_map shown_wait result ≡ slice_get (queues_in waits.now tag.now) place }
{
    let tag = *tag;
    let mut before = place;
    for wait in waits {
        if tag.is_same(wait.tag) {
            if before == 0 {
                return Some(wait.waiter);
            }
            before -= 1;
        }
    }
    None
}

/// The mode that `session` awaits on `tag`, if `session` waits on `tag`, by the list `waits`.
pub fn awaited_mode(waits: &[PartWait], session: SessionId, tag: &Tag) -> Option<Mode>
    ensures { result ≡ option_map (λ wait. wait.waiter.mode)
        (find (λ wait. is_request_on (request_of wait) session tag.now) waits.now) }
{
    waits
        .iter()
        .find(|wait| wait.is_on(session, tag))
        .map(|wait| wait.waiter.mode)
}

/// Takes the wait of `session` on `tag` out of `waits`.
pub fn take_wait_out(waits: &mut Vec<PartWait>, session: SessionId, tag: &Tag)
    ensures items { waits.new.items
        ≡ filter (λ wait. not (is_request_on (request_of wait) session tag.now)) waits.old.items }
    ensures len { vec_len waits.new ≤ vec_len waits.old }
    ensures capacity { vec_capacity waits.new ≡ vec_capacity waits.old }
{
    waits.retain(|wait| !wait.is_on(session, tag));
}

/// The index in `waits` before which a new wait is at `place` of the queue of `tag`.
pub fn index_of_place(waits: &[PartWait], tag: &Tag, place: usize) -> usize
    requires { place ≤ length (queues_in waits.now tag.now) }
    ensures within { result ≤ length waits.now }
    ensures before { length (queues_in (take result waits.now) tag.now) ≡ place }
{
    let tag = *tag;
    let mut before = place;
    for (index, wait) in waits.iter().enumerate() {
        if before == 0 {
            return index;
        }
        if tag.is_same(wait.tag) {
            before -= 1;
        }
    }
    waits.len()
}

/// Whether a session other than `session` holds `tag` in one of `modes`, by the list `holds`.
fn is_held_by_another(holds: &[Request], session: SessionId, tag: &Tag, modes: ModeSet) -> bool
    ensures { result ≡ list_any (λ hold. is_in_the_way_of hold session tag.now (set_has modes)) holds.now }
{
    let tag = *tag;
    holds
        .iter()
        .any(|hold| hold.is_in_the_way(session, &tag, modes))
}

/// Whether `tag` is awaited in one of `modes`, by the list `waits`.
pub(crate) fn is_awaited(waits: &[PartWait], tag: &Tag, modes: ModeSet) -> bool
    ensures { result ≡ list_any (λ wait. awaits_one_of wait tag.now (set_has modes)) waits.now }
{
    let tag = *tag;
    waits.iter().any(|wait| wait.awaits_one(&tag, modes))
}

/// Whether `wait` is on `tag` and free to go, beside `holds` and behind the waits `ahead` in the queue.
fn goes(holds: &[Request], ahead: &[PartWait], wait: PartWait, tag: &Tag) -> bool
    ensures { result ≡ goes_now holds.now ahead.now wait tag.now }
{
    if !tag.is_same(wait.tag) {
        return false;
    }
    let conflicting = conflicts(wait.waiter.mode);
    if is_held_by_another(holds, wait.waiter.session, tag, conflicting) {
        return false;
    }
    !is_awaited(ahead, tag, conflicting)
}

/// Makes holds of the waits on `tag` that are free to go, from the front, each beside those granted before it
/// and behind those left before it, and writes into `woken` whose waits these were. `holds` and `waits`
/// together keep their length, and no list grows.
pub fn wake_queue(
    holds: &mut Vec<Request>,
    waits: &mut Vec<PartWait>,
    woken: &mut Vec<(SessionId, Mode)>,
    tag: &Tag,
)
    requires one_wait_each { OneWaitEach waits.old.items }
    requires room { vec_len holds.old + vec_len waits.old ≤ vec_capacity holds.old }
    requires room_to_name { vec_len waits.old ≤ vec_capacity woken.old }
    ensures woken { (granted : List Wait)
        × Wakes (content_in holds.old.items waits.old.items) tag.now granted
        (content_in holds.new.items waits.new.items)
        × (woken.new.items ≡ map whose_and_mode granted) }
    ensures same_requests { (session : ℕ) (tag : Tag) (mode : Mode) →
        times_in holds.new.items waits.new.items session tag mode
        ≡ times_in holds.old.items waits.old.items session tag mode }
    ensures one_wait_each { OneWaitEach waits.new.items }
    ensures len { vec_len holds.new + vec_len waits.new ≡ vec_len holds.old + vec_len waits.old }
    ensures fewer { vec_len waits.new ≤ vec_len waits.old }
    ensures capacity { (vec_capacity holds.new ≡ vec_capacity holds.old)
        × (vec_capacity waits.new ≡ vec_capacity waits.old)
        × (vec_capacity woken.new ≡ vec_capacity woken.old) }
{
    woken.clear();
    let mut place = 0;
    while place < waits.len() {
        let wait = waits[place];
        if goes(holds.as_slice(), &waits[..place], wait, tag) {
            waits.remove(place);
            holds.push_reserved(wait.request());
            woken.push_reserved(wait.whose());
        } else {
            place += 1;
        }
    }
}
