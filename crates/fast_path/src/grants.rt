//! Grants by the fast path (`FastPathGrantRelationLock` in lock.c).

ghost use Rattle.std.specs.Prelude.{◌≡◌, ◌<◌, ◌≤◌, ◌∷◌, ℕ, List, Some, Err};
ghost use Rattle.modes_core.specs.declared.refusals.Refusal.TheVariants.{SlotsFull};
ghost use Rattle.lock_world.specs.SlotHolds.{most_groups};
ghost use Rattle.shared_rule.specs.Boards.{nothing_due};
ghost use Rattle.shared_rule.specs.Quiet.{Quiet, TakesSlots};
ghost use Rattle.fast_path.specs.Quiet.{quiet_granting};
ghost use Rattle.fast_path.specs.Slots.{group_of_tag, IsReady, MayTry};
ghost use Rattle.fast_path.specs.Grants.{HasRoom, Grants, TriesGrant, GrantsHeld, HasOwnSlots};

use crate::slot_words::{SLOTS, SightingForGrant, look_for_grant};
use crate::use_counts::{UseCounts, group_of};
use lock_table::PartTable;
use modes_core::{Mode, Refusal, Tag};
use shared_rule::Board;
use std::sync::Wait;

/// Grants `mode`, which the session hasn't, on `tag`, a relation of the session's database, in one of the
/// session's fast-path slots (`FastPathGrantRelationLock` in lock.c, and the look at
/// `FastPathStrongRelationLocks` before it in `LockAcquireExtended`). The call waits until the lock of the
/// session's own slots is free. Refused with `SlotsFull` where the use count of the relation's group is
/// sixteen, which costs no step, and with `StrongCounted` where a strong lock is counted at the strong lock
/// counter of `tag`.
#[inline(always)]
pub fn grant<T: PartTable, B: Board<T>, R: Wait>(
    rt: &R,
    board: &mut B,
    uses: &mut UseCounts,
    tag: &Tag,
    mode: Mode,
) -> Result<(), Refusal>
    requires ready { IsReady (B.seat board.old).groups (B.view board.old) uses.old }
    requires nothing_due { B.stack board.old ≡ nothing_due }
    requires may_try { MayTry (B.view board.old) tag.now mode }
    ensures granted { Grants (B.seat board.old).groups (B.seat board.old).number (B.view board.old) uses.old
        tag.now mode result (B.view board.new) uses.new }
    ensures untouched { result ≡ Err SlotsFull → board.new ≡ board.old }
    ensures ready { IsReady (B.seat board.old).groups (B.view board.new) uses.new }
    ensures seat { B.seat board.new ≡ B.seat board.old }
    ensures stack { B.stack board.new ≡ B.stack board.old }
    ensures quiet { B.quiet board.new ≡
        quiet_granting (B.seat board.old).number tag.now mode result (B.quiet board.old) }
{
    let group = group_of(tag.relation_number(), board.groups());
    if uses.of(group) == SLOTS {
        return Err(Refusal::SlotsFull);
    }
    let own = board.number();
    board.take_fast(rt, own);
    grant_with_slots(board, uses, group, tag, mode)
}

/// Grants `mode` on `tag` as `grant` does, without waiting: one attempt to take the lock of the session's own
/// fast-path slots, and `Busy` where that fails (`LWLockConditionalAcquire` instead of `LWLockAcquire`).
pub fn try_grant<T: PartTable, B: Board<T>>(
    board: &mut B,
    uses: &mut UseCounts,
    tag: &Tag,
    mode: Mode,
) -> Result<(), Refusal>
    requires ready { IsReady (B.seat board.old).groups (B.view board.old) uses.old }
    requires nothing_due { B.stack board.old ≡ nothing_due }
    requires may_try { MayTry (B.view board.old) tag.now mode }
    ensures granted { TriesGrant (B.seat board.old).groups (B.seat board.old).number (B.view board.old) uses.old
        tag.now mode result (B.view board.new) uses.new }
    ensures untouched { result ≡ Err SlotsFull → board.new ≡ board.old }
    ensures ready { IsReady (B.seat board.old).groups (B.view board.new) uses.new }
    ensures seat { B.seat board.new ≡ B.seat board.old }
    ensures stack { B.stack board.new ≡ B.stack board.old }
    ensures quiet { B.quiet board.new ≡
        quiet_granting (B.seat board.old).number tag.now mode result (B.quiet board.old) }
{
    let group = group_of(tag.relation_number(), board.groups());
    if uses.of(group) == SLOTS {
        return Err(Refusal::SlotsFull);
    }
    match board.try_take_fast() {
        Ok(()) => grant_with_slots(board, uses, group, tag, mode),
        Err(_) => Err(Refusal::Busy),
    }
}

/// Finishes the grant of `mode` on `tag`, where the session has the lock of its own fast-path slots, and
/// releases that lock.
#[inline(always)]
fn grant_with_slots<T: PartTable, B: Board<T>>(
    board: &mut B,
    uses: &mut UseCounts,
    group: u8,
    tag: &Tag,
    mode: Mode,
) -> Result<(), Refusal>
    requires few { (B.seat board.old).groups ≤ most_groups }
    requires there { group < (B.seat board.old).groups }
    requires its_group { group ≡ group_of_tag (B.seat board.old).groups tag.now }
    requires has_room { HasRoom (B.seat board.old).groups uses.old tag.now }
    requires may_try { MayTry (B.view board.old) tag.now mode }
    requires in_hand { HasOwnSlots (B.seat board.old).groups (B.seat board.old).number (B.view board.old) uses.old }
    ensures granted { GrantsHeld (B.seat board.old).groups (B.seat board.old).number (B.view board.old) uses.old
        tag.now mode result (B.view board.new) uses.new }
    ensures ready { IsReady (B.seat board.old).groups (B.view board.new) uses.new }
    ensures seat { B.seat board.new ≡ B.seat board.old }
    ensures stack { B.stack board.new ≡ B.stack board.old }
    ensures quiet { (number : ℕ) (before : List Quiet) → B.quiet board.old ≡ TakesSlots number ∷ before
        → B.quiet board.new ≡ quiet_granting number tag.now mode result before }
{
    let own = board.number();
    if board.load_strong(tag.strong_index()) != 0 {
        board.put_fast(own);
        return Err(Refusal::StrongCounted);
    }
    let use_count = uses.of(group);
    let SightingForGrant {
        of_relation,
        highest_unused,
    } = look_for_grant(board, own, group, tag.relation_number(), use_count);
    if let Some(slot) = of_relation {
        board.set_slot(slot.number, slot.word, tag, mode);
        board.put_fast(own);
        return Ok(());
    }
    let slot = highest_unused.unwrap();
    board.set_slot(slot.number, slot.word, tag, mode);
    uses.set(group, use_count + 1);
    board.put_fast(own);
    Ok(())
}
