//! What a statement comes to: its locks, and whom these keep waiting.
ghost use Rattle.std.specs.Prelude.{◌≡◌, ◌==◌, ◌||◌, ◌&&◌, IfOk};
ghost use Rattle.modes_core.specs.Conflict.{conflict};
ghost use Rattle.modes_core.specs.Mode.{mode_eq};
ghost use Rattle.modes_core.specs.ModeSet.{set_has};
ghost use Rattle.sql_report.specs.Outcome.{has_on, keep_waiting, others_know, AreLocksOfActs};

use crate::texts::longer;
use modes_core::{Mode, ModeSet, conflicts};
use sql_locks::{Act, Awaits, Link, Lock, Relation, SqlFault, Until, Work, locks_of, row_of};
use std::alloc::Global;

/// What a statement comes to: what it locks, how long it works, and what it keeps waiting.
#[derive(Drop)]
pub struct Outcome {
    /// The locks of the statement, in the order in which they are taken.
    pub locks: Vec<Lock>,
    pub effort: Effort,
    /// The modes that the statement's locks on relations that others know keep waiting.
    pub stopped: ModeSet,
}

/// How long a statement works, until when it holds its locks, and for whom it waits beside its waits for
/// locks.
#[derive(Clone, Copy)]
pub struct Effort {
    pub work: Work,
    pub until: Until,
    pub awaits: Awaits,
}

/// What the forms `acts` of a statement come to, with these `relations` and their `links`. Where a form has
/// no row in the table the error is `unknown`.
pub fn outcome_of(
    alloc: Global,
    relations: &[Relation],
    links: &[Link],
    acts: &[Act],
    unknown: SqlFault,
) -> Result<Outcome, SqlFault>
    ensures locks { IfOk result (λ outcome. AreLocksOfActs links.now acts.now outcome.locks.items) }
    ensures stopped { IfOk result (λ outcome. (mode : _) →
        set_has outcome.stopped mode ≡ keep_waiting relations.now outcome.locks.items mode) }
{
    let locks = locks_of_acts(alloc, links, acts, unknown)?;
    let stopped = stopped_by(relations, locks.as_slice());
    Ok(Outcome {
        locks,
        effort: effort_of(acts),
        stopped,
    })
}

/// The locks of the forms `acts` over these `links`, one form after another, or `unknown` where a form has no
/// row in the table.
pub fn locks_of_acts(
    alloc: Global,
    links: &[Link],
    acts: &[Act],
    unknown: SqlFault,
) -> Result<Vec<Lock>, SqlFault>
    ensures { IfOk result (λ locks. AreLocksOfActs links.now acts.now locks.items) }
{
    let mut locks = Vec::new(alloc);
    for act in acts {
        let Some(row) = row_of(act.form) else {
            return Err(unknown);
        };
        let more = locks_of(alloc, links, act, row.parts)?;
        locks.extend_from_slice(more.as_slice())?;
    }
    Ok(locks)
}

/// The modes that `locks` keep waiting: those that conflict with one of them on a relation of `relations`
/// that others know.
pub fn stopped_by(relations: &[Relation], locks: &[Lock]) -> ModeSet
    ensures { (mode : _) → set_has result mode ≡ keep_waiting relations.now locks.now mode }
{
    let mut stopped = ModeSet::empty();
    for lock in locks {
        stopped = with_stopped(stopped, relations, lock);
    }
    stopped
}

/// The modes `stopped`, and those that `lock` keeps waiting where others know the relation of the lock.
fn with_stopped(stopped: ModeSet, relations: &[Relation], lock: &Lock) -> ModeSet
    ensures { (mode : _) → set_has result mode ≡
        (others_know relations.now lock.now.relation && conflict lock.now.mode mode) || set_has stopped mode }
{
    if are_known(relations, lock.relation) {
        with_all(stopped, conflicts(lock.mode))
    } else {
        stopped
    }
}

/// Whether others know the relation `number` of `relations`: a relation that the open transaction made itself
/// is known to that transaction alone.
pub fn are_known(relations: &[Relation], number: usize) -> bool
    ensures { result ≡ others_know relations.now number }
{
    match relations.get(number) {
        Some(relation) => !relation.is_own,
        None => true,
    }
}

/// The modes of those of `locks` that are on `relation`.
pub fn modes_on(locks: &[Lock], relation: usize) -> ModeSet
    ensures { (mode : _) → set_has result mode ≡ has_on relation locks.now mode }
{
    let mut modes = ModeSet::empty();
    for lock in locks {
        modes = with_lock(modes, lock, relation);
    }
    modes
}

/// The modes `modes`, and that of `lock` where it is on `relation`.
fn with_lock(modes: ModeSet, lock: &Lock, relation: usize) -> ModeSet
    ensures { (mode : _) → set_has result mode ≡
        ((lock.now.relation == relation) && mode_eq mode lock.now.mode) || set_has modes mode }
{
    if lock.relation == relation {
        modes.with(lock.mode)
    } else {
        modes
    }
}

/// All modes of the sets `modes` and `others`.
fn with_all(modes: ModeSet, others: ModeSet) -> ModeSet
    ensures { (mode : _) → set_has result mode ≡ set_has others mode || set_has modes mode }
{
    let all = with_shared(modes, others, Mode::AccessShare);
    let all = with_shared(all, others, Mode::RowShare);
    let all = with_shared(all, others, Mode::RowExclusive);
    let all = with_shared(all, others, Mode::ShareUpdateExclusive);
    let all = with_shared(all, others, Mode::Share);
    let all = with_shared(all, others, Mode::ShareRowExclusive);
    let all = with_shared(all, others, Mode::Exclusive);
    with_shared(all, others, Mode::AccessExclusive)
}

/// The set `all`, and `mode` where `others` has `mode`.
fn with_shared(all: ModeSet, others: ModeSet, mode: Mode) -> ModeSet
    ensures { (other : _) → set_has result other ≡ (mode_eq other mode && set_has others mode) || set_has all other }
{
    if others.has(mode) {
        all.with(mode)
    } else {
        all
    }
}

/// How long a statement of the forms `acts` works, until when it holds its locks, and for whom it waits.
fn effort_of(acts: &[Act]) -> Effort {
    let mut effort = Effort {
        work: Work::Moment,
        until: Until::Commit,
        awaits: Awaits::Nobody,
    };
    for act in acts {
        let Some(row) = row_of(act.form) else {
            continue;
        };
        effort.work = longer(effort.work, row.work);
        if row.until == Until::OwnEnd {
            effort.until = Until::OwnEnd;
        }
        if row.awaits != Awaits::Nobody {
            effort.awaits = row.awaits;
        }
    }
    effort
}
