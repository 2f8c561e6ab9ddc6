//! The partitions of a lock table, as a list of parts.

ghost use Rattle.std.specs.Prelude.{◌≡◌, length, IfOk};
ghost use Rattle.lock_table.specs.Parts.{IsBlank, AreEmptyParts};

use crate::no_memory::NoMemory;
use crate::part_table::PartTable;
use modes_core::PARTITIONS;
use std::alloc::Global;

/// The partitions of a lock table in which nothing is held or awaited (`InitLocks` in lock.c): sixteen parts,
/// the partition with number 0 first, each made by `new` with `alloc`. `NoMemory` where memory ran out.
pub fn empty_parts<T: PartTable + Drop, F: Fn(Global) -> Result<T, NoMemory>>(
    alloc: Global,
    new: F,
) -> Result<Vec<T>, NoMemory>
    requires callable { F.IsAlwaysCallable new }
    requires makes { (made : _) → F.post new alloc made → IfOk made (IsBlank T.content T.begun) }
    ensures sixteen { IfOk result (λ parts. length parts.items ≡ 16) }
    ensures empty { IfOk result (λ parts. AreEmptyParts T.content T.begun parts.items) }
{
    let mut parts = Vec::with_capacity(alloc, PARTITIONS as usize)?;
    for _part in 0..PARTITIONS as usize {
        parts.push_reserved(new(alloc)?);
    }
    Ok(parts)
}
