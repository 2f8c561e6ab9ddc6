//! Which links between relations a statement knows: not those of what a transaction made that is open still.

use crate::asked::clash;
use crate::sessions::ScriptSession;
use sql_locks::{Link, Lock};
use std::alloc::{AllocError, Global};

/// The links among `links` that a statement of the session named `name` knows, where `locks` are those that
/// it has if it knows all links. What the open transaction of another one of `sessions` made is known to the
/// statement only where it waits for the end of that transaction.
pub fn known_links(
    alloc: Global,
    links: &[Link],
    sessions: &[ScriptSession],
    name: &str,
    locks: &[Lock],
) -> Result<Vec<Link>, AllocError> {
    let mut known = Vec::new(alloc);
    known.extend_from_slice(links)?;
    for session in sessions {
        if session.name.as_str() != name && !waits_for(session, locks) {
            known.retain(|link| !has_made(session, link.from) && !has_made(session, link.to));
        }
    }
    Ok(known)
}

/// Whether one of `locks` has to wait for a lock of the open transaction of `session`, on a relation that
/// this transaction did not make.
fn waits_for(session: &ScriptSession, locks: &[Lock]) -> bool {
    for used in &session.used {
        if !has_made(session, used.relation) && is_stopped(used, locks) {
            return true;
        }
    }
    false
}

/// Whether one of `locks` is on the relation of the lock `used` and has to wait for `used`.
fn is_stopped(used: &Lock, locks: &[Lock]) -> bool {
    locks.iter().any(|lock| lock.relation == used.relation && clash(used.mode, lock.mode))
}

/// Whether the open transaction of `session` made the relation of the number `relation`.
fn has_made(session: &ScriptSession, relation: usize) -> bool {
    session.made.iter().any(|made| *made == relation)
}
