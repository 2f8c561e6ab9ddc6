ghost use Rattle.std.specs.Prelude.{◌≡◌, ℕ, ◌<◌, ◌+◌, ◌≤◌, ◌⊎◌, length, false, true, IfSome, IfNone, Some};
ghost use Rattle.modes_core.specs.ModeSet.{set_has};
ghost use Rattle.slab.specs.Slab.{slab_len, HasRoomFor};
ghost use Rattle.lock_records.specs.Holders.{holder_at, holds_in, IsHolderAt, HasNoHolder, AreHolders, IsHolderChain, SetsHold, IsTaken};
ghost use Rattle.lock_records.specs.Lowest.{IsLowestHolder, considered_of};
ghost use Rattle.modes_core.specs.Mode.{number_of};
ghost use Rattle.modes_core.specs.Sessions.{most_sessions};
ghost use Rattle.modes_core.specs.declared.modes.Mode.{Mode};

use crate::sets::has_some;
use modes_core::{Mode, ModeSet, SessionId, Tag};
use slab::Slab;

/// The lock modes in which a session holds an object (`PROCLOCK` in lock.h, with its `holdMask`), and the
/// place of the object's next holder record.
#[derive(Clone, Copy)]
pub struct HolderRecord {
    pub tag: Tag,
    pub next: usize,
    pub modes: ModeSet,
    pub session: SessionId,
}

/// The chain of an object's holder records: how many there are, and the place of the first one (`procLocks`
/// of `LOCK` in lock.h).
#[derive(Clone, Copy)]
pub struct Holders {
    pub first: usize,
    pub count: u16,
}

/// The place in `slots` of the holder record of `session` on `tag`, looked for in the chain `holders`, if
/// there is one.
#[inline(always)]
pub(crate) fn find_holder(
    slots: &Slab<HolderRecord>,
    holders: Holders,
    tag: &Tag,
    session: SessionId,
) -> Option<usize>
    requires { IsHolderChain slots.now.slots tag.now holders.first holders.count }
    ensures found { IfSome result (IsHolderAt slots.now.slots session tag.now) }
    ensures absent { IfNone result (HasNoHolder slots.now.slots session tag.now) }
{
    let mut at = holders.first;
    for _step in 0..holders.count {
        let holder = &slots[at];
        if holder.session == session {
            return Some(at);
        }
        at = holder.next;
    }
    None
}

/// A number above those of all sessions that have a holder record of `tag` in `slots`, in the chain
/// `holders`.
pub(crate) fn above_holders(slots: &Slab<HolderRecord>, holders: Holders, tag: &Tag) -> u16
    requires chain { IsHolderChain slots.now.slots tag.now holders.first holders.count }
    requires are { AreHolders slots.now.slots tag.now }
    ensures within { result ≤ most_sessions }
    ensures above { (session : ℕ) (mode : Mode) → result ≤ session →
        holds_in slots.now.slots session tag.now mode ≡ false }
{
    let mut above = 0;
    let mut at = holders.first;
    for _step in 0..holders.count {
        let holder = &slots[at];
        above = above.max(holder.session.number() + 1);
        at = holder.next;
    }
    above
}

/// Adds `mode`, in which `session` doesn't hold `tag`, to the session's holder record of `tag` in `slots`.
/// Where there is none, one is made, at the head of the chain `holders`.
#[inline(always)]
pub(crate) fn raise_holder(
    slots: &mut Slab<HolderRecord>,
    holders: &mut Holders,
    tag: &Tag,
    session: SessionId,
    mode: Mode,
)
    requires chain { IsHolderChain slots.old.slots tag.now holders.old.first holders.old.count }
    requires are { AreHolders slots.old.slots tag.now }
    requires room { HasRoomFor slots.old 1 }
    requires new { holds_in slots.old.slots session tag.now mode ≡ false }
    ensures set { SetsHold slots.old.slots slots.new.slots session tag.now mode true }
    ensures chain { IsHolderChain slots.new.slots tag.now holders.new.first holders.new.count }
    ensures len { slab_len slots.new ≤ slab_len slots.old + 1 }
    ensures capacity { slots.new.capacity ≡ slots.old.capacity }
{
    match find_holder(slots, *holders, tag, session) {
        Some(place) => {
            let holder = &mut slots[place];
            holder.modes = holder.modes.with(mode);
        }
        None => put_holder(slots, holders, tag, session, mode),
    }
}

/// Makes the holder record of `session` on `tag`, which has none, with `mode`, at the head of the chain
/// `holders` in `slots`.
#[inline(always)]
fn put_holder(
    slots: &mut Slab<HolderRecord>,
    holders: &mut Holders,
    tag: &Tag,
    session: SessionId,
    mode: Mode,
)
    requires chain { IsHolderChain slots.old.slots tag.now holders.old.first holders.old.count }
    requires are { AreHolders slots.old.slots tag.now }
    requires room { HasRoomFor slots.old 1 }
    requires new { HasNoHolder slots.old.slots session tag.now }
    ensures set { SetsHold slots.old.slots slots.new.slots session tag.now mode true }
    ensures chain { IsHolderChain slots.new.slots tag.now holders.new.first holders.new.count }
    ensures len { slab_len slots.new ≡ slab_len slots.old + 1 }
    ensures capacity { slots.new.capacity ≡ slots.old.capacity }
{
    let _number = session.number();
    let record = HolderRecord {
        tag: *tag,
        next: holders.first,
        modes: ModeSet::empty().with(mode),
        session,
    };
    holders.first = slots.insert_reserved(record);
    holders.count += 1;
}

/// Takes `mode` out of the holder record of `session` on `tag` in `slots`; with its last mode the record goes
/// out of the chain `holders`.
#[inline(always)]
pub(crate) fn lower_holder(
    slots: &mut Slab<HolderRecord>,
    holders: &mut Holders,
    tag: &Tag,
    session: SessionId,
    mode: Mode,
)
    requires chain { IsHolderChain slots.old.slots tag.now holders.old.first holders.old.count }
    requires are { AreHolders slots.old.slots tag.now }
    requires held { holds_in slots.old.slots session tag.now mode ≡ true }
    ensures set { SetsHold slots.old.slots slots.new.slots session tag.now mode false }
    ensures chain { IsHolderChain slots.new.slots tag.now holders.new.first holders.new.count }
    ensures len { slab_len slots.new ≤ slab_len slots.old }
    ensures capacity { slots.new.capacity ≡ slots.old.capacity }
{
    let Some(place) = find_holder(slots, *holders, tag, session) else {
        unreachable!()
    };
    let left = slots[place].modes.without(mode);
    if has_some(left) {
        slots[place].modes = left;
    } else {
        take_holder(slots, holders, tag, session, place);
    }
}

/// Takes the holder record of `session` on `tag`, at `place` of `slots`, out of the chain `holders`: the slot
/// at the head of the chain becomes empty, and its session and modes are moved to `place`.
#[inline(always)]
fn take_holder(
    slots: &mut Slab<HolderRecord>,
    holders: &mut Holders,
    tag: &Tag,
    session: SessionId,
    place: usize,
)
    requires chain { IsHolderChain slots.old.slots tag.now holders.old.first holders.old.count }
    requires are { AreHolders slots.old.slots tag.now }
    requires its { IsHolderAt slots.old.slots session tag.now place }
    ensures taken { IsTaken slots.old.slots slots.new.slots session tag.now }
    ensures chain { IsHolderChain slots.new.slots tag.now holders.new.first holders.new.count }
    ensures len { slab_len slots.new ≤ slab_len slots.old }
    ensures capacity { slots.new.capacity ≡ slots.old.capacity }
{
    let first = holders.first;
    let head = slots.remove(first);
    holders.first = head.next;
    holders.count -= 1;
    if place == first {
        return;
    }
    let gap = &mut slots[place];
    gap.session = head.session;
    gap.modes = head.modes;
}

/// The session with the lowest number, other than `session`, that holds `tag` in one of the modes of `set`,
/// with all the modes in which that session holds `tag`. Its holder record in `slots` is looked for in the
/// chain `holders`.
#[inline(always)]
pub(crate) fn lowest_holder(
    slots: &Slab<HolderRecord>,
    holders: Holders,
    tag: &Tag,
    session: SessionId,
    set: ModeSet,
) -> Option<(SessionId, ModeSet)>
    requires chain { IsHolderChain slots.now.slots tag.now holders.first holders.count }
    requires are { AreHolders slots.now.slots tag.now }
    ensures { IsLowestHolder (holds_in slots.now.slots) session tag.now (set_has set) result }
{
    let mut lowest = None;
    let mut at = holders.first;
    for _step in 0..holders.count {
        let holder = &slots[at];
        lowest = considered(lowest, holder, session, set);
        at = holder.next;
    }
    lowest
}

/// The session with the lower number: that of `lowest`, found so far, or that of `holder`, where this is
/// another one than `session` and holds a mode of `set`; with its modes.
#[inline(always)]
fn considered(
    lowest: Option<(SessionId, ModeSet)>,
    holder: &HolderRecord,
    session: SessionId,
    set: ModeSet,
) -> Option<(SessionId, ModeSet)>
    ensures { result ≡ considered_of lowest holder.now session set }
{
    if holder.session == session {
        return lowest;
    }
    if !holder.modes.meets(set) {
        return lowest;
    }
    if let Some((other, modes)) = lowest {
        if other < holder.session {
            return Some((other, modes));
        }
    }
    Some((holder.session, holder.modes))
}

/// The lowest mode that is in `modes` and in `set`.
#[inline(never)]
pub(crate) fn lowest_mode(modes: ModeSet, set: ModeSet) -> Mode
    requires { (mode : _) × (set_has modes mode ≡ true) × (set_has set mode ≡ true) }
    ensures held { set_has modes result ≡ true }
    ensures met { set_has set result ≡ true }
    ensures lowest { (mode : _) → number_of mode < number_of result →
        set_has modes mode ≡ true → set_has set mode ≡ false }
{
    modes.lowest_in_both(set).unwrap()
}
