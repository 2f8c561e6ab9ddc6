//! What an object's queue has in it, and who is in the way of one that waits there. Each function here only
//! reads.

ghost use Rattle.std.specs.Prelude.{◌≡◌, ◌≤◌, ◌&&◌, ◌∷◌, ◌++◌, [], true, if◌then◌else◌, length, map, take, option_map, Some, None, IfOk, IfSome, IfNone, OnOk};
ghost use Rattle.modes_core.specs.ModeSet.{set_has};
ghost use Rattle.modes_core.specs.declared.refusals.How.TheVariants.{Held};
ghost use Rattle.lock_table.specs.Queue.{wait_in};
ghost use Rattle.lock_table.specs.Waiter.{shown_wait};
ghost use Rattle.wait_queue.specs.Queues.{ahead_of, by_modes, holding, holding_of, standing, standing_of, blockers_in};

use lock_table::{NoMemory, PartTable, Waiter};
use modes_core::{How, Mode, ModeSet, SessionId, Tag, conflicts};
use std::alloc::Global;

/// A session in the way of another session that waits for an object, with a mode that is the reason.
#[derive(Clone, Copy, Debug, PartialEq, Eq)]
pub struct Blocker {
    /// The session that is in the way of a waiting session.
    pub session: SessionId,
    /// The mode that the session in the way holds or awaits, in conflict with the one that the waiting
    /// session awaits.
    pub mode: Mode,
    /// Whether the session in the way holds the conflicting mode, or awaits it before the waiting session in
    /// the queue.
    pub how: How,
}

/// The waits on `tag` in the content of `part`, in the order of the object's queue. Refused only where memory
/// for the list, by `alloc`, ran out.
pub fn queue_of<P: PartTable>(alloc: Global, part: &P, tag: &Tag) -> Result<Vec<Waiter>, NoMemory>
    ensures whole { IfOk result (λ rows. map shown_wait rows.items ≡ (P.content part.now).waits tag.now) }
{
    let mut rows = Vec::new(alloc);
    while let Some(waiter) = part.waiter(tag, rows.len()) {
        rows.push(waiter)?;
    }
    Ok(rows)
}

/// The sessions in the way of the wait of `session` on `tag` in the content of `part` (`GetBlockerStatusData`
/// in lock.c, for `pg_blocking_pids`): sessions that hold a mode in conflict with the awaited one, by session
/// and mode, and then those that await such a mode before `session` in the queue. Nobody where `session`
/// doesn't wait on `tag`. Refused only where memory ran out.
pub fn blockers_of<P: PartTable>(
    alloc: Global,
    part: &P,
    tag: &Tag,
    session: SessionId,
) -> Result<Vec<Blocker>, NoMemory>
    ensures exactly { IfOk result (λ found. found.items ≡ blockers_in (P.content part.now) tag.now session) }
{
    let mut found = Vec::new(alloc);
    let Some((place, mode)) = wait_of(part, tag, session) else {
        return Ok(found);
    };
    append_holding(part, tag, session, mode, &mut found)?;
    append_standing(part, tag, place, mode, &mut found)?;
    Ok(found)
}

/// The place of `session` in the queue of `tag` in `part`, counted from the front, and the mode that
/// `session` awaits on `tag`, or `None` where it doesn't wait there.
fn wait_of<P: PartTable>(part: &P, tag: &Tag, session: SessionId) -> Option<(usize, Mode)>
    ensures none { IfNone result (wait_in ((P.content part.now).waits tag.now) session ≡ None) }
    ensures mode { IfSome result (λ found.
        option_map (λ wait. wait.mode) (wait_in ((P.content part.now).waits tag.now) session) ≡ Some found.1) }
    ensures place { IfSome result (λ found. take found.0 ((P.content part.now).waits tag.now)
        ≡ ahead_of ((P.content part.now).waits tag.now) session) }
    ensures within { IfSome result (λ found. found.0 ≤ length ((P.content part.now).waits tag.now)) }
{
    let mut place = 0;
    while let Some(waiter) = part.waiter(tag, place) {
        if waiter.session.number() == session.number() {
            return Some((place, waiter.mode));
        }
        place += 1;
    }
    None
}

/// Appends to `found` the sessions other than `session` that hold `tag` in `part` in a mode in conflict with
/// `mode`, which `session` awaits.
fn append_holding<P: PartTable>(
    part: &P,
    tag: &Tag,
    session: SessionId,
    mode: Mode,
    found: &mut Vec<Blocker>,
) -> Result<(), NoMemory>
    ensures { OnOk result (found.new.items ≡ found.old.items ++ holding (P.content part.now) tag.now session mode) }
{
    let above = part.above_holders(tag);
    for number in 0..above {
        let other = SessionId::new(number).unwrap();
        append_holding_of(part, tag, session, mode, other, found)?;
    }
    Ok(())
}

/// Appends `other` to `found` once for each mode in which it holds `tag` in `part` in conflict with `mode`,
/// unless `other` is `session`.
fn append_holding_of<P: PartTable>(
    part: &P,
    tag: &Tag,
    session: SessionId,
    mode: Mode,
    other: SessionId,
    found: &mut Vec<Blocker>,
) -> Result<(), NoMemory>
    ensures { OnOk result (found.new.items
        ≡ found.old.items ++ holding_of (P.content part.now) tag.now session mode other) }
{
    if other.number() == session.number() {
        return Ok(());
    }
    append_modes(other, part.held(other, tag), conflicts(mode), found)
}

/// Appends `other` to `found` as a holder, once for each mode that is in `held` and in `against`, in the
/// order of the modes' numbers.
fn append_modes(
    other: SessionId,
    held: ModeSet,
    against: ModeSet,
    found: &mut Vec<Blocker>,
) -> Result<(), NoMemory>
    ensures { OnOk result (found.new.items ≡ found.old.items ++ by_modes other (set_has held) (set_has against)) }
{
    append_mode(other, held, against, Mode::AccessShare, found)?;
    append_mode(other, held, against, Mode::RowShare, found)?;
    append_mode(other, held, against, Mode::RowExclusive, found)?;
    append_mode(other, held, against, Mode::ShareUpdateExclusive, found)?;
    append_mode(other, held, against, Mode::Share, found)?;
    append_mode(other, held, against, Mode::ShareRowExclusive, found)?;
    append_mode(other, held, against, Mode::Exclusive, found)?;
    append_mode(other, held, against, Mode::AccessExclusive, found)
}

/// Appends `other` to `found` as a holder of `mode`, if `mode` is in `held` and in `against`.
fn append_mode(
    other: SessionId,
    held: ModeSet,
    against: ModeSet,
    mode: Mode,
    found: &mut Vec<Blocker>,
) -> Result<(), NoMemory>
    ensures { OnOk result (found.new.items ≡ found.old.items
        ++ (if set_has held mode && set_has against mode
        then record { session = other; mode = mode; how = Held } ∷ [] else [])) }
{
    if held.has(mode) && against.has(mode) {
        found.push(Blocker {
            session: other,
            mode,
            how: How::Held,
        })?;
    }
    Ok(())
}

/// Appends to `found` the waiters before `place` in the queue of `tag` in `part` that await a mode in
/// conflict with `mode`.
fn append_standing<P: PartTable>(
    part: &P,
    tag: &Tag,
    place: usize,
    mode: Mode,
    found: &mut Vec<Blocker>,
) -> Result<(), NoMemory>
    requires { place ≤ length ((P.content part.now).waits tag.now) }
    ensures { OnOk result (found.new.items ≡ found.old.items
        ++ standing (take place ((P.content part.now).waits tag.now)) mode) }
{
    for at in 0..place {
        let waiter = part.waiter(tag, at).unwrap();
        append_waiter(waiter, mode, found)?;
    }
    Ok(())
}

/// Appends `waiter` to `found`, if it awaits a mode in conflict with `mode`.
fn append_waiter(waiter: Waiter, mode: Mode, found: &mut Vec<Blocker>) -> Result<(), NoMemory>
    ensures { OnOk result (found.new.items ≡ found.old.items ++ standing_of mode (shown_wait waiter)) }
{
    if conflicts(mode).has(waiter.mode) {
        found.push(Blocker {
            session: waiter.session,
            mode: waiter.mode,
            how: How::Awaited,
        })?;
    }
    Ok(())
}
