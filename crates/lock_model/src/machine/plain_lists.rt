//! What all parts of the lock table have, in two plain lists.

ghost use Rattle.std.specs.Prelude.{◌≡◌, ℕ, ◌<◌, ◌++◌, length, map, filter, IfOk, OnOk};
ghost use Rattle.std.specs.List.{flat_map};
ghost use Rattle.std.specs.List.Sorted.{IsSorted, IsPermutation, IsSortedByKey};
ghost use Rattle.std.specs.Ordering.{nat_cmp, on};
ghost use Rattle.std.specs.Cmp.Lexicographic.{slice_cmp};
ghost use Rattle.modes_core.specs.declared.tags.Tag.{Tag};
ghost use Rattle.modes_core.specs.Tag.{tag_eq, numbers_of, partition_of};
ghost use Rattle.lock_table.specs.PartWaits.{EachOnce};
ghost use Rattle.lock_model.specs.Plain.{hold_cmp, as_wait};
ghost use Rattle.lock_table.specs.Parts.{AreAtHome, part_at, contents_in};
ghost use Rattle.lock_model.specs.PlainLists.{table_hold_of, table_holds_of, queued_of};
ghost use Rattle.lock_model.specs.SlotRows.{fast_path_rows};

use super::plain::{Hold, QueuedWait, Spot};
use super::slot_rows::append_slot_holds;
use super::state::FastPath;
use lock_table::{NoMemory, PlainPart};
use std::alloc::Global;

/// The holds of all `parts` and those that sessions' slots show by `fast_path`, in the order of holds. Each
/// request is held once at most in a part.
pub fn gather_holds(
    alloc: Global,
    fast_path: &FastPath,
    parts: &[PlainPart],
) -> Result<Vec<Hold>, NoMemory>
    ensures all { IfOk result (λ list. IsPermutation
        (flat_map table_holds_of parts.now ++ fast_path_rows fast_path.now.databases fast_path.now.slots) list.items) }
    ensures each_once { IfOk result (λ list. (p : ℕ) → p < length parts.now →
        EachOnce (part_at parts.now p).holds (part_at parts.now p).waits) }
    ensures in_order { IfOk result (λ list. IsSorted hold_cmp list.items) }
{
    let mut holds = Vec::new(alloc);
    for part in parts {
        append_holds(part, &mut holds)?;
    }
    append_slot_holds(fast_path, &mut holds)?;
    holds.sort_unstable();
    Ok(holds)
}

/// The waits of all `parts`, by tag. Where each object's waits are in the object's own partition, those on
/// one object are its queue, in its order.
pub fn gather_waits(alloc: Global, parts: &[PlainPart]) -> Result<Vec<QueuedWait>, NoMemory>
    ensures all { IfOk result (λ list. AreAtHome parts.now → (tag : Tag) →
        map as_wait (filter (λ queued. tag_eq queued.tag tag) list.items)
        ≡ (contents_in parts.now (partition_of tag)).waits tag) }
    ensures by_tag { IfOk result (λ list.
        IsSortedByKey (λ queued. queued.tag) (on numbers_of (slice_cmp nat_cmp)) list.items) }
{
    let mut waits = Vec::new(alloc);
    for part in parts {
        append_waits(part, &mut waits)?;
    }
    waits.sort_by_key(|wait| wait.tag)?;
    Ok(waits)
}

/// Appends the holds of `part` to `list`. Each request is held once at most in `part`.
fn append_holds(part: &PlainPart, list: &mut Vec<Hold>) -> Result<(), NoMemory>
    ensures added { OnOk result (list.new.items ≡ list.old.items ++ map table_hold_of part.now.holds) }
    ensures each_once { EachOnce part.now.holds part.now.waits }
{
    for hold in part.holds() {
        list.push(Hold {
            session: hold.session,
            tag: hold.tag,
            mode: hold.mode,
            spot: Spot::Table,
        })?;
    }
    Ok(())
}

/// Appends the waits of `part` to `list`.
fn append_waits(part: &PlainPart, list: &mut Vec<QueuedWait>) -> Result<(), NoMemory>
    ensures { OnOk result (list.new.items ≡ list.old.items ++ map queued_of part.now.waits) }
{
    for wait in part.waits() {
        list.push(QueuedWait {
            session: wait.waiter.session,
            tag: wait.tag,
            mode: wait.waiter.mode,
            held: wait.waiter.held,
        })?;
    }
    Ok(())
}
