//! For whose end a statement waits beside its locks, and how it plays these waits.
ghost use Rattle.std.specs.Prelude.{◌≡◌, map, IfOk};
ghost use Rattle.std.specs.List.{flat_map};
ghost use Rattle.sql_script.specs.Awaited.{await_step, awaited_by, awaited_in, has_used, has_written, is_awaited, is_on_one, pass_steps};

use crate::asked::clash;
use crate::sessions::ScriptSession;
use crate::steps::Step;
use modes_core::{Mode, Owner, Tag};
use sql_locks::{Awaits, Lock, SqlFault};
use std::alloc::{AllocError, Global};

/// How a statement goes through transactions.
#[derive(Clone, Copy, PartialEq, Eq)]
pub enum Course {
    /// The statement runs within one transaction.
    Within,
    /// The statement runs within one transaction, and the session owns locks beside that transaction: as for
    /// `VACUUM`.
    Kept,
    /// The session owns the statement's locks, and its transaction waits for the ends of other transactions:
    /// as for `CREATE INDEX CONCURRENTLY`.
    Owned,
    /// The statement runs in two transactions, and waits between them for the ends of others: as `DETACH
    /// PARTITION CONCURRENTLY`.
    Parted,
}

/// The locks of the open transactions of `sessions` in `database` for whose end a statement waits that awaits
/// `awaits` and has the locks `locks`.
pub fn awaited_of(
    alloc: Global,
    sessions: &[ScriptSession],
    database: u32,
    awaits: Awaits,
    locks: &[Lock],
) -> Result<Vec<Tag>, AllocError>
    ensures { IfOk result (λ tags. tags.items ≡ awaited_by database awaits locks.now sessions.now) }
{
    let mut tags = Vec::new(alloc);
    for session in sessions {
        if let Some(tag) = awaited_in(session, database, awaits, locks) {
            tags.push(tag)?;
        }
    }
    Ok(tags)
}

/// The lock of the open transaction of `session`, if a statement in `database` that awaits `awaits` and has
/// the locks `locks` waits for the end of that transaction.
fn awaited_in(session: &ScriptSession, database: u32, awaits: Awaits, locks: &[Lock]) -> Option<Tag>
    ensures { result ≡ awaited_in database awaits locks.now session.now }
{
    if session.database == database && is_awaited(session, awaits, locks) {
        session.transaction
    } else {
        None
    }
}

/// Whether a statement that awaits `awaits` and has these `locks` waits for the transaction of `session`.
fn is_awaited(session: &ScriptSession, awaits: Awaits, locks: &[Lock]) -> bool
    ensures { result ≡ is_awaited awaits locks.now session.now }
{
    match awaits {
        Awaits::Nobody => false,
        Awaits::Writers => session.has_snapshot || has_written(session, locks),
        Awaits::Users => has_used(session, locks),
        Awaits::UsersAndSnapshots => session.has_snapshot || has_used(session, locks),
    }
}

/// Whether the open transaction of `session` has a lock on a relation of `locks`.
fn has_used(session: &ScriptSession, locks: &[Lock]) -> bool
    ensures { result ≡ has_used locks.now session.now }
{
    session
        .used
        .iter()
        .any(|used| is_on_one(locks, used.relation))
}

/// Whether the open transaction of `session` has a lock on a relation of `locks` that keeps an index build
/// waiting, as a writer has.
fn has_written(session: &ScriptSession, locks: &[Lock]) -> bool
    ensures { result ≡ has_written locks.now session.now }
{
    session.used.iter().any(|used| clash(Mode::Share, used.mode) && is_on_one(locks, used.relation))
}

/// Whether one of `locks` is on the relation of the number `relation`.
fn is_on_one(locks: &[Lock], relation: usize) -> bool
    ensures { result ≡ is_on_one locks.now relation }
{
    locks.iter().any(|lock| lock.relation == relation)
}

/// The steps by which a transaction waits for the ends of the transactions whose locks are `tags`: it takes
/// each of these locks, and keeps it.
pub fn waits_of(alloc: Global, tags: &Vec<Tag>) -> Result<Vec<Step>, SqlFault>
    ensures { IfOk result (λ steps. steps.items ≡ map await_step tags.now.items) }
{
    let mut steps = Vec::new(alloc);
    for tag in tags {
        steps.push(await_step(*tag))?;
    }
    Ok(steps)
}

/// The steps by which a transaction waits for the ends of the transactions whose locks are `tags`, and keeps
/// none of these locks.
pub fn passes_of(alloc: Global, tags: &Vec<Tag>) -> Result<Vec<Step>, SqlFault>
    ensures { IfOk result (λ steps. steps.items ≡ flat_map pass_steps tags.now.items) }
{
    let mut steps = Vec::new(alloc);
    for tag in tags {
        let pass = [await_step(*tag), give_back_step(*tag)];
        steps.extend_from_slice(&pass)?;
    }
    Ok(steps)
}

/// The step by which a session waits for the end of the transaction whose lock is `tag`, as the server does
/// for a virtual transaction (`VirtualXactLock` in lock.c).
fn await_step(tag: Tag) -> Step
    ensures { result ≡ await_step tag }
{
    Step::Lock {
        tag,
        mode: Mode::Share,
        owner: Owner::Transaction,
    }
}

/// The step by which a session gives the lock `tag` back, which it took to wait for the end of a transaction.
fn give_back_step(tag: Tag) -> Step
    ensures { result ≡ Step.Unlock tag Mode.Share Owner.Transaction }
{
    Step::Unlock {
        tag,
        mode: Mode::Share,
        owner: Owner::Transaction,
    }
}
