//! The locks of a statement that its session asks for: all but those that say no more than earlier ones.
ghost use Rattle.std.specs.Prelude.{◌≡◌, ◌+◌, [], map, IfOk};
ghost use Rattle.modes_core.specs.Conflict.{conflict};
ghost use Rattle.sql_script.specs.Asked.{asked_behind, asking_step, is_covered, step_of, stops};

use crate::steps::Step;
use modes_core::{Mode, Owner, Tag, conflicts};
use sql_locks::{Lock, SqlFault};
use std::alloc::{AllocError, Global};

/// The number of the first relation that statements make, as a new database of a server has it.
pub const FIRST_RELATION: usize = 16384;

/// The locks among `locks` that no earlier ones of the list cover, in the order of `locks`.
pub fn asked_of(alloc: Global, locks: &[Lock]) -> Result<Vec<Lock>, AllocError>
    ensures { IfOk result (λ asked. asked.items ≡ asked_behind [] locks.now) }
{
    let mut asked = Vec::new(alloc);
    for (place, lock) in locks.iter().enumerate() {
        if !is_covered(&locks[..place], lock) {
            asked.push(*lock)?;
        }
    }
    Ok(asked)
}

/// Whether the locks `before` on the relation of `lock` keep all waiting whom `lock` keeps waiting.
fn is_covered(before: &[Lock], lock: &Lock) -> bool
    ensures { result ≡ is_covered before.now lock.now }
{
    let (relation, mode) = (lock.relation, lock.mode);
    Mode::ALL.iter().all(|other| !clash(mode, *other) || stops(before, relation, *other))
}

/// Whether one of `locks` is on the relation of the number `relation` and keeps `mode` waiting.
fn stops(locks: &[Lock], relation: usize, mode: Mode) -> bool
    ensures { result ≡ stops locks.now relation mode }
{
    locks
        .iter()
        .any(|lock| lock.relation == relation && clash(lock.mode, mode))
}

/// Whether `mode` keeps `other` waiting.
pub fn clash(mode: Mode, other: Mode) -> bool
    ensures { result ≡ conflict mode other }
{
    conflicts(mode).has(other)
}

/// How a session asks for the locks of a statement, or gives them back.
#[derive(Clone, Copy, PartialEq, Eq)]
pub enum Asking {
    /// The session's transaction takes each lock, and waits for it if need be.
    Wait,
    /// The session's transaction takes each lock, if nothing is in the way: as by `NOWAIT`.
    Try,
    /// The session itself takes each lock, and waits for it if need be.
    Own,
    /// The session gives each lock back that it owns itself.
    GiveBack,
}

/// The steps by which a session of `database` asks for `locks` as `asking` says, one for each.
pub fn steps_of(
    alloc: Global,
    database: u32,
    locks: &Vec<Lock>,
    asking: Asking,
) -> Result<Vec<Step>, SqlFault>
    ensures { IfOk result (λ steps. steps.items ≡ map (step_of database asking) locks.now.items) }
{
    let mut steps = Vec::new(alloc);
    for lock in locks {
        let tag = tag_of(database, lock.relation)?;
        steps.push(asking_step(tag, lock.mode, asking))?;
    }
    Ok(steps)
}

/// The step by which a session asks for the lock `tag` in `mode` as `asking` says.
pub fn asking_step(tag: Tag, mode: Mode, asking: Asking) -> Step
    ensures { result ≡ asking_step asking tag mode }
{
    let (transaction, session) = (Owner::Transaction, Owner::Session);
    match asking {
        Asking::Wait => Step::Lock {
            tag,
            mode,
            owner: transaction,
        },
        Asking::Try => Step::Try {
            tag,
            mode,
            owner: transaction,
        },
        Asking::Own => Step::Lock {
            tag,
            mode,
            owner: session,
        },
        Asking::GiveBack => Step::Unlock {
            tag,
            mode,
            owner: session,
        },
    }
}

/// The lock tag of the relation of the number `relation` in `database`. Where `relation` is beyond the number
/// of any lock tag, the error is being out of memory: there are more relations than memory holds.
pub fn tag_of(database: u32, relation: usize) -> Result<Tag, SqlFault>
    ensures { IfOk result (λ tag. tag ≡ Tag.Relation database (16384 + relation)) }
{
    let Some(number) = FIRST_RELATION.checked_add(relation) else {
        return Err(SqlFault::NoMemory);
    };
    match u32::try_from(number) {
        Ok(number) => Ok(Tag::relation(database, number)),
        Err(_) => Err(SqlFault::NoMemory),
    }
}
