//! Locks that a session owns beside its transaction, so that they outlive that.
ghost use Rattle.std.specs.Prelude.{◌≡◌, [], filter, IfOk};
ghost use Rattle.std.specs.List.{flat_map};
ghost use Rattle.sql_script.specs.Asked.{asked_behind};
ghost use Rattle.sql_script.specs.Kept.{is_kept, keeping_steps};

use crate::asked::{Asking, asked_of, asking_step, clash, tag_of};
use crate::steps::Step;
use sql_locks::{Lock, SqlFault};
use std::alloc::{AllocError, Global};

/// The steps by which a session of `database` takes those of `locks` that no earlier ones cover: its
/// transaction takes each, and the session itself those that it keeps (`vacuum_rel` in vacuum.c).
pub fn kept_steps_of(alloc: Global, database: u32, locks: &[Lock]) -> Result<Vec<Step>, SqlFault>
    ensures { IfOk result (λ steps. steps.items ≡ flat_map (keeping_steps database) (asked_behind [] locks.now)) }
{
    let asked = asked_of(alloc, locks)?;
    let mut steps = Vec::new(alloc);
    for lock in &asked {
        let more = keeping_steps(alloc, database, lock)?;
        steps.extend_from_slice(more.as_slice())?;
    }
    Ok(steps)
}

/// The steps by which a session of `database` takes `lock`.
fn keeping_steps(alloc: Global, database: u32, lock: &Lock) -> Result<Vec<Step>, SqlFault>
    ensures { IfOk result (λ steps. steps.items ≡ keeping_steps database lock.now) }
{
    let tag = tag_of(database, lock.relation)?;
    let mut steps = Vec::new(alloc);
    steps.push(asking_step(tag, lock.mode, Asking::Wait))?;
    if is_kept(lock) {
        steps.push(asking_step(tag, lock.mode, Asking::Own))?;
    }
    Ok(steps)
}

/// The locks among `locks` that no earlier ones of the list cover, and that the session keeps beside its
/// transaction.
pub fn kept_of(alloc: Global, locks: &[Lock]) -> Result<Vec<Lock>, AllocError>
    ensures { IfOk result (λ kept. kept.items ≡ filter is_kept (asked_behind [] locks.now)) }
{
    let asked = asked_of(alloc, locks)?;
    let mut kept = Vec::new(alloc);
    for lock in &asked {
        if is_kept(lock) {
            kept.push(*lock)?;
        }
    }
    Ok(kept)
}

/// Whether the session keeps `lock` beside its transaction: whether the lock's mode keeps itself waiting, as
/// that on a table does and that on an index doesn't.
fn is_kept(lock: &Lock) -> bool
    ensures { result ≡ is_kept lock.now }
{
    clash(lock.mode, lock.mode)
}
