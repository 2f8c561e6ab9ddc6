//! A table to begin with, the two ways to acquire, and the steps of an end.

ghost use Rattle.std.specs.Prelude.{◌≤◌};

use local_locks::{Acquired, End, LocalTable};
use modes_core::{Mode, Owner, Refusal, Tag};
use std::alloc::Global;
use std::process::Abort;

/// A table for `max_local` entries, at the second attempt where there was no memory.
pub fn new_table(rt: &impl Abort, alloc: Global, max_local: u32) -> LocalTable
    requires from { 1 ≤ max_local }
    requires to { max_local ≤ 65536 }
{
    match LocalTable::new(alloc, max_local) {
        Ok(table) => table,
        Err(_) => LocalTable::new(alloc, max_local).expect(rt, "memory"),
    }
}

/// Acquires `tag` in `mode` for `owner` in `table`, by `reserve` and `add`.
fn acquire_once(
    table: &mut LocalTable,
    tag: Tag,
    mode: Mode,
    owner: Owner,
) -> Result<Acquired, Refusal> {
    table.reserve(tag, mode, owner)?;
    Ok(table.add(tag, mode, owner))
}

/// Acquires `tag` in `mode` for `owner` in `table`, by `reserve` and `add`. Where memory is refused, no count
/// changes and a second attempt is made.
pub fn acquire(
    rt: &impl Abort,
    table: &mut LocalTable,
    tag: Tag,
    mode: Mode,
    owner: Owner,
) -> Result<Acquired, Refusal> {
    let total = table.total(tag, mode);
    match acquire_once(table, tag, mode, owner) {
        Err(Refusal::NoMemory) => {
            assert!(rt; table.total(tag, mode) == total);
            acquire_once(table, tag, mode, owner)
        }
        answer => answer,
    }
}

/// Acquires `tag` in `mode` for `owner` by `add_held` or, where `table` has no entry of `tag` in `mode`, by
/// `reserve_new` and `add_new`.
fn acquire_once_in_one_look(
    table: &mut LocalTable,
    tag: Tag,
    mode: Mode,
    owner: Owner,
) -> Result<Acquired, Refusal> {
    if table.add_held(&tag, mode, owner)? {
        return Ok(Acquired::AlreadyHeld);
    }
    table.reserve_new()?;
    table.add_new(&tag, mode, owner);
    Ok(Acquired::Granted)
}

/// Acquires `tag` in `mode` for `owner` in `table` with one look, by `add_held` or, where `table` has no
/// entry of `tag` in `mode`, by `reserve_new` and `add_new`. Where memory is refused, a second attempt is
/// made.
pub fn acquire_in_one_look(
    table: &mut LocalTable,
    tag: Tag,
    mode: Mode,
    owner: Owner,
) -> Result<Acquired, Refusal> {
    match acquire_once_in_one_look(table, tag, mode, owner) {
        Err(Refusal::NoMemory) => acquire_once_in_one_look(table, tag, mode, owner),
        answer => answer,
    }
}

/// The next entry that `end` takes out of `table`.
pub fn next(rt: &impl Abort, table: &mut LocalTable, end: End) -> Option<(Tag, Mode)> {
    if end == End::Inner {
        assert!(rt; table.level() > 1);
    }
    table.end_next(end)
}
