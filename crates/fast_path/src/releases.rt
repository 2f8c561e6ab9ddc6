//! Releases by the fast path (`FastPathUnGrantRelationLock` in lock.c).

ghost use Rattle.std.specs.Prelude.{◌≡◌, false, true};
ghost use Rattle.modes_core.specs.Tag.{is_eligible_for};
ghost use Rattle.lock_world.specs.SlotHolds.{slot_holds};
ghost use Rattle.shared_rule.specs.Boards.{nothing_due};
ghost use Rattle.fast_path.specs.Slots.{IsReady, count_in, group_of_tag};
ghost use Rattle.fast_path.specs.Quiet.{quiet_ungranting};
ghost use Rattle.fast_path.specs.Releases.{IsUnused, Ungrants};

use crate::slot_words::{Sighting, look_through};
use crate::use_counts::{UseCounts, group_of};
use lock_table::PartTable;
use modes_core::{Mode, Tag};
use shared_rule::Board;
use std::sync::Wait;

/// Releases `mode` on `tag`, a relation of the session's database, where one of the session's fast-path slots
/// has that mode, and answers whether one had it (`FastPathUnGrantRelationLock` in lock.c). No slot is looked
/// at where the use count of the relation's group is 0; otherwise the use count is afterwards the number of
/// that group's slots in use. A mode that the session holds and no slot has is in the lock table.
#[inline(always)]
pub fn ungrant<T: PartTable, B: Board<T>, R: Wait>(
    rt: &R,
    board: &mut B,
    uses: &mut UseCounts,
    tag: &Tag,
    mode: Mode,
) -> bool
    requires ready { IsReady (B.seat board.old).groups (B.view board.old) uses.old }
    requires nothing_due { B.stack board.old ≡ nothing_due }
    requires eligible { is_eligible_for (B.view board.old).fast.database tag.now mode ≡ true }
    ensures ungranted { Ungrants (B.seat board.old).groups (B.seat board.old).number (B.view board.old) uses.old
        tag.now mode result (B.view board.new) uses.new }
    ensures untouched { IsUnused (B.seat board.old).groups uses.old tag.now → board.new ≡ board.old }
    ensures in_no_slot { result ≡ false →
        slot_holds (B.view board.new).fast.database (B.view board.new).fast.remembered tag.now mode ≡ false }
    ensures ready { IsReady (B.seat board.old).groups (B.view board.new) uses.new }
    ensures seat { B.seat board.new ≡ B.seat board.old }
    ensures stack { B.stack board.new ≡ B.stack board.old }
    ensures quiet { B.quiet board.new ≡ quiet_ungranting (B.seat board.old).number
        (count_in uses.old (group_of_tag (B.seat board.old).groups tag.now)) (B.quiet board.old) }
{
    let relation = tag.relation_number();
    let group = group_of(relation, board.groups());
    if uses.of(group) == 0 {
        return false;
    }
    let own = board.number();
    board.take_fast(rt, own);
    let Sighting {
        of_relation,
        used_count,
    } = look_through(board, own, group, relation);
    if let Some(slot) = of_relation {
        if slot.word.has(mode) {
            board.clear_slot(slot.number, slot.word, tag, mode);
            board.put_fast(own);
            let left = if slot.word.without(mode).in_use() {
                used_count
            } else {
                used_count - 1
            };
            uses.set(group, left);
            return true;
        }
    }
    board.put_fast(own);
    uses.set(group, used_count);
    false
}
