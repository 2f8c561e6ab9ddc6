//! The words of a session's slots, as one who has their lock in hand loads them.

ghost use Rattle.std.specs.Prelude.{◌≡◌, ℕ, ◌<◌, ◌≤◌, Some};
ghost use Rattle.lock_world.specs.SlotHolds.{group_size, most_groups, place_in_group, used_in};
ghost use Rattle.lock_world.specs.Account.{SlotsInHand};
ghost use Rattle.shared_rule.specs.History.{slots_here};
ghost use Rattle.fast_path.specs.Slots.{slot_from_top, account_loading, Sights, SightsForGrant};

use lock_table::PartTable;
use lw_word::SlotWord;
use modes_core::SessionId;
use shared_rule::Board;

/// How many fast-path slots a group has (`FP_LOCK_SLOTS_PER_BACKEND` in proc.h, in version 18
/// `FP_LOCK_SLOTS_PER_GROUP`).
pub const SLOTS: u8 = 16;

/// A fast-path slot that was loaded: its number, and the word that it showed.
#[derive(Clone, Copy)]
pub(crate) struct SeenSlot {
    pub(crate) number: u8,
    pub(crate) word: SlotWord,
}

/// What one look through all fast-path slots of a group finds for a relation.
#[derive(Clone, Copy)]
pub(crate) struct Sighting {
    /// The fast-path slot that is in use for the relation looked for, if one is.
    pub(crate) of_relation: Option<SeenSlot>,
    /// How many fast-path slots of the group are in use.
    pub(crate) used_count: u8,
}

/// Loads the words of the fast-path slots of `owner` in `group`, whose lock the session has, and answers what
/// a release or a transfer of a lock on `relation` asks for. Where sessions have one group of slots each the
/// call makes a separate walk, in which the compiler knows the index of each slot, whatever the number of
/// sessions.
#[inline(always)]
pub(crate) fn look_through<T: PartTable, B: Board<T>>(
    board: &mut B,
    owner: SessionId,
    group: u8,
    relation: u32,
) -> Sighting
    requires few { group < most_groups }
    requires there { group < (B.seat board.old).groups }
    requires exists { owner < (B.seat board.old).limit }
    requires in_hand { (slots : SlotsInHand) × ((B.view board.old).fast.slots owner ≡ Some slots) }
    ensures loaded { B.view board.new ≡
        account_loading (B.view board.old) owner (place_in_group group)
        (slots_here ((B.view board.old).fast.slots owner)).word group_size }
    ensures sighted { Sights group (slots_here ((B.view board.old).fast.slots owner)).word relation result }
    ensures seat { B.seat board.new ≡ B.seat board.old }
    ensures stack { B.stack board.new ≡ B.stack board.old }
    ensures quiet { B.quiet board.new ≡ B.quiet board.old }
{
    if group == 0 {
        return look_at_each(board, owner, 0, relation);
    }
    look_at_each(board, owner, group, relation)
}

/// Loads the words of the slots of `owner` in `group`, one after another, as `look_through` does.
#[inline(always)]
fn look_at_each<T: PartTable, B: Board<T>>(
    board: &mut B,
    owner: SessionId,
    group: u8,
    relation: u32,
) -> Sighting
    requires few { group < most_groups }
    requires there { group < (B.seat board.old).groups }
    requires exists { owner < (B.seat board.old).limit }
    requires in_hand { (slots : SlotsInHand) × ((B.view board.old).fast.slots owner ≡ Some slots) }
    ensures loaded { B.view board.new ≡
        account_loading (B.view board.old) owner (place_in_group group)
        (slots_here ((B.view board.old).fast.slots owner)).word group_size }
    ensures sighted { Sights group (slots_here ((B.view board.old).fast.slots owner)).word relation result }
    ensures seat { B.seat board.new ≡ B.seat board.old }
    ensures stack { B.stack board.new ≡ B.stack board.old }
    ensures quiet { B.quiet board.new ≡ B.quiet board.old }
{
    let mut of_relation = None;
    let mut used_count = 0;
    for index in 0..SLOTS {
        let slot = SLOTS * group + index;
        let word = board.load_slot(owner, slot);
        if word.in_use() {
            used_count += 1;
            if word.relation() == relation {
                of_relation = Some(SeenSlot { number: slot, word });
            }
        }
    }
    Sighting {
        of_relation,
        used_count,
    }
}

/// What the look of a grant through the fast-path slots of a group finds for a relation.
#[derive(Clone, Copy)]
pub(crate) struct SightingForGrant {
    /// The fast-path slot that is in use for the relation looked for, if one is.
    pub(crate) of_relation: Option<SeenSlot>,
    /// The highest-numbered fast-path slot of the group that is not in use, if one was seen.
    pub(crate) highest_unused: Option<SeenSlot>,
}

/// What a grant on `relation` looks for in the fast-path slots of `owner` in `group`, found by
/// `look_from_top`. Where sessions have one group of slots each the call makes a separate walk, in which the
/// compiler knows the index of each slot.
#[inline(always)]
pub(crate) fn look_for_grant<T: PartTable, B: Board<T>>(
    board: &mut B,
    owner: SessionId,
    group: u8,
    relation: u32,
    use_count: u8,
) -> SightingForGrant
    requires few { group < most_groups }
    requires there { group < (B.seat board.old).groups }
    requires exists { owner < (B.seat board.old).limit }
    requires in_hand { (slots : SlotsInHand) × ((B.view board.old).fast.slots owner ≡ Some slots) }
    requires enough { used_in group (slots_here ((B.view board.old).fast.slots owner)).word ≤ use_count }
    ensures loaded { (seen : ℕ) × (seen ≤ group_size) × (B.view board.new ≡
        account_loading (B.view board.old) owner (slot_from_top group)
        (slots_here ((B.view board.old).fast.slots owner)).word seen) }
    ensures sighted { SightsForGrant group (slots_here ((B.view board.old).fast.slots owner)).word relation result }
    ensures seat { B.seat board.new ≡ B.seat board.old }
    ensures stack { B.stack board.new ≡ B.stack board.old }
    ensures quiet { B.quiet board.new ≡ B.quiet board.old }
{
    if group == 0 {
        return look_from_top(board, owner, 0, relation, use_count);
    }
    look_from_top(board, owner, group, relation, use_count)
}

/// Loads the words of the fast-path slots of `owner` in `group`, whose lock the session has, from the
/// highest-numbered slot down, as far as a grant asks for: down to the slot in use for `relation` (where the
/// loop of `FastPathGrantRelationLock` in lock.c stops too), or to a slot not in use above which `use_count`
/// slots are in use, since no slot below that one is in use then.
#[inline(always)]
fn look_from_top<T: PartTable, B: Board<T>>(
    board: &mut B,
    owner: SessionId,
    group: u8,
    relation: u32,
    use_count: u8,
) -> SightingForGrant
    requires few { group < most_groups }
    requires there { group < (B.seat board.old).groups }
    requires exists { owner < (B.seat board.old).limit }
    requires in_hand { (slots : SlotsInHand) × ((B.view board.old).fast.slots owner ≡ Some slots) }
    requires enough { used_in group (slots_here ((B.view board.old).fast.slots owner)).word ≤ use_count }
    ensures loaded { (seen : ℕ) × (seen ≤ group_size) × (B.view board.new ≡
        account_loading (B.view board.old) owner (slot_from_top group)
        (slots_here ((B.view board.old).fast.slots owner)).word seen) }
    ensures sighted { SightsForGrant group (slots_here ((B.view board.old).fast.slots owner)).word relation result }
    ensures seat { B.seat board.new ≡ B.seat board.old }
    ensures stack { B.stack board.new ≡ B.stack board.old }
    ensures quiet { B.quiet board.new ≡ B.quiet board.old }
{
    let mut highest_unused = None;
    let mut used_count = 0;
    for step in 0..SLOTS {
        let slot = SLOTS * group + (SLOTS - 1 - step);
        let word = board.load_slot(owner, slot);
        if word.in_use() {
            if word.relation() == relation {
                return SightingForGrant {
                    of_relation: Some(SeenSlot { number: slot, word }),
                    highest_unused,
                };
            }
            used_count += 1;
        } else {
            if highest_unused.is_none() {
                highest_unused = Some(SeenSlot { number: slot, word });
            }
            if used_count == use_count {
                return SightingForGrant {
                    of_relation: None,
                    highest_unused,
                };
            }
        }
    }
    SightingForGrant {
        of_relation: None,
        highest_unused,
    }
}
