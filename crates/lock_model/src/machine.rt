//! The plain machine: events on a World, and the laws of every run.

ghost use Rattle.std.specs.Prelude.{◌≤◌, IfOk};
ghost use Rattle.std.specs.List.Sorted.{IsSorted};
ghost use Rattle.lock_world.specs.SlotHolds.{most_groups};
ghost use Rattle.lock_world.specs.World.{World, opening};
ghost use Rattle.lock_world.specs.Happens.{Runs};
ghost use Rattle.lock_world.specs.SafeWorld.{SafeWorld};
ghost use Rattle.lock_model.specs.Plain.{IsPlainOf, hold_cmp, holds_of};

mod counters;
mod hands;
mod list_words;
mod lists;
mod lw_words;
mod moved_part;
mod own_waits;
mod partitions;
mod plain;
mod plain_lists;
mod seats;
mod sharing;
mod slot_looks;
mod slot_rows;
mod slots;
mod state;
mod transfers;
mod waits;

use lock_table::NoMemory;
use lock_world::Event;
pub use plain::{Hold, Plain, QueuedWait, Spot};
use state::Machine;
pub use state::Sleeper;
use std::alloc::Global;

/// Runs the events `events` from the opening World of 64 sessions, one after another. Each session has
/// `groups` groups of fast-path slots, 1 to 8. An event that is not lawful where it comes is skipped: so is
/// each of a session numbered 64 or above, and each on such a session's lock, slots, seat or sleep word. The
/// World after them, and each one on the way, is safe.
pub fn run_events(alloc: Global, groups: u8, events: &[Event]) -> Result<Plain, NoMemory>
    requires some { 1 ≤ groups }
    requires few { groups ≤ most_groups }
    ensures ran { IfOk result (λ plain.
        (w : World) × Runs (opening 64 groups) events.now w × SafeWorld w × IsPlainOf plain w) }
    ensures in_order { IfOk result (λ plain. IsSorted hold_cmp (holds_of plain)) }
{
    let mut machine = Machine::new(alloc, groups)?;
    for event in events {
        machine.step(*event)?;
    }
    machine.into_plain(alloc)
}
