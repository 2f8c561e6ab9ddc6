//! The transfer of fast-path locks that are in a strong lock's way (`FastPathTransferRelationLocks` in
//! lock.c).

ghost use Rattle.std.specs.Prelude.{◌≡◌, ◌<◌, ◌≤◌, ◌*◌, ◌∷◌, false, true, None, length};
ghost use Rattle.modes_core.specs.Tag.{is_strong_on};
ghost use Rattle.lock_world.specs.SlotHolds.{group_size};
ghost use Rattle.lock_world.specs.Account.{Account};
ghost use Rattle.lock_world.specs.Counted.{is_counted, is_at};
ghost use Rattle.lock_world.specs.Happens.Counters.{most_counted};
ghost use Rattle.shared_rule.specs.Boards.{nothing_due};
ghost use Rattle.fast_path.specs.Turns.{IsUnlocked, BeginsTurn, HasSlots, HasSlotsAndPart, MovesOrNot, AdoptsOrNot};
ghost use Rattle.fast_path.specs.Transfers.{TransfersOrNot, PassesOrNot};
ghost use Rattle.shared_rule.specs.Quiet.{TakesSlots};
ghost use Rattle.fast_path.specs.Quiet.{QuietOfTransfer};
ghost use Rattle.modes_core.specs.Sessions.{most_sessions};

use crate::slot_words::{Sighting, look_through};
use crate::use_counts::group_of;
use lock_table::{Move, NoMemory, PartTable};
use lw_word::SlotWord;
use modes_core::{Mode, SessionId, Tag};
use shared_rule::Board;
use std::sync::Wait;

/// Counts a strong lock, `mode` on `tag`, and goes past every session that there can be, whether its number
/// is issued or not, the caller's too: past each one once that session's locks on `tag` are out of its
/// fast-path slots and in the lock table (`BeginStrongLockAcquire` and `FastPathTransferRelationLocks` in
/// lock.c). Where memory for the lock table runs out the strong lock is counted no more; what was moved until
/// then stays moved. The cost is two atomic steps and a load for each session, and sixteen loads more, of the
/// slots of the relation's group, for each session of the database of `tag`.
pub fn transfer<T: PartTable, B: Board<T>, R: Wait>(
    rt: &R,
    board: &mut B,
    tag: &Tag,
    mode: Mode,
) -> Result<(), NoMemory>
    requires few { (B.seat board.old).limit ≤ most_sessions }
    requires strong { is_strong_on tag.now mode ≡ true }
    requires unlocked { IsUnlocked (B.view board.old) }
    requires nothing_due { B.stack board.old ≡ nothing_due }
    requires not_counted { is_counted (B.view board.old).fast.counted tag.now mode ≡ false }
    requires no_wait { (B.view board.old).awaited ≡ None }
    requires not_own { (B.view board.old).own tag.now mode ≡ false }
    requires countable { length (B.view board.old).fast.counted < most_counted }
    ensures transferred { TransfersOrNot (B.seat board.old).groups (B.seat board.old).limit (B.view board.old) tag.now
        mode result (B.view board.new) }
    ensures stack { B.stack board.new ≡ B.stack board.old }
    ensures quiet { QuietOfTransfer (B.seat board.old).limit tag.now mode result (B.quiet board.old) (B.quiet board.new) }
    ensures seat { B.seat board.new ≡ B.seat board.old }
{
    board.add_strong(tag, mode);
    for number in 0..board.sessions() {
        let owner = SessionId::new(number).unwrap();
        match pass(rt, board, owner, tag, mode) {
            Ok(()) => {}
            Err(NoMemory) => {
                board.sub_strong(tag, mode);
                return Err(NoMemory);
            }
        }
    }
    Ok(())
}

/// Goes past the session `owner` with the strong lock of `mode` on `tag` (a turn of the loop of
/// `FastPathTransferRelationLocks` in lock.c). Where `owner` is a session of another database, or not issued,
/// its fast-path slots are not looked at.
fn pass<T: PartTable, B: Board<T>, R: Wait>(
    rt: &R,
    board: &mut B,
    owner: SessionId,
    tag: &Tag,
    mode: Mode,
) -> Result<(), NoMemory>
    requires exists { owner < (B.seat board.old).limit }
    requires strong { is_strong_on tag.now mode ≡ true }
    requires unlocked { IsUnlocked (B.view board.old) }
    requires nothing_due { B.stack board.old ≡ nothing_due }
    requires next { is_at owner (B.view board.old).fast.counted tag.now mode ≡ true }
    ensures passed { PassesOrNot (B.seat board.old).groups (B.view board.old) owner tag.now mode result (B.view board.new) }
    ensures stack { B.stack board.new ≡ B.stack board.old }
    ensures quiet { B.quiet board.new ≡ TakesSlots owner ∷ B.quiet board.old }
    ensures seat { B.seat board.new ≡ B.seat board.old }
{
    board.take_fast(rt, owner);
    if board.load_database(owner) != u64::from(tag.database()) {
        board.pass_fast(owner, tag, mode);
        return Ok(());
    }
    pass_in_database(rt, board, owner, tag, mode)
}

/// Goes past `owner`, a session of the tag's database, whose slot lock the caller has, once the modes of
/// `owner` on `tag` are out of its fast-path slot. This is a separate function, so that going past sessions
/// of other databases takes no stack for it.
#[inline(never)]
fn pass_in_database<T: PartTable, B: Board<T>, R: Wait>(
    rt: &R,
    board: &mut B,
    owner: SessionId,
    tag: &Tag,
    mode: Mode,
) -> Result<(), NoMemory>
    requires exists { owner < (B.seat board.old).limit }
    requires strong { is_strong_on tag.now mode ≡ true }
    requires next { is_at owner (B.view board.old).fast.counted tag.now mode ≡ true }
    requires begun { (before : Account) × BeginsTurn (B.seat board.old).groups before owner tag.now (B.view board.old) }
    requires nothing_due { B.stack board.old ≡ nothing_due }
    ensures passed { (before : Account) → BeginsTurn (B.seat board.old).groups before owner tag.now (B.view board.old)
        → PassesOrNot (B.seat board.old).groups before owner tag.now mode result (B.view board.new) }
    ensures stack { B.stack board.new ≡ B.stack board.old }
    ensures quiet { B.quiet board.new ≡ B.quiet board.old }
    ensures seat { B.seat board.new ≡ B.seat board.old }
{
    let relation = tag.relation_number();
    let group = group_of(relation, board.groups());
    let Sighting { of_relation, .. } = look_through(board, owner, group, relation);
    let Some(slot) = of_relation else {
        board.pass_fast(owner, tag, mode);
        return Ok(());
    };
    let turn = Turn {
        owner,
        slot: slot.number,
        word: slot.word,
        tag,
        strong: mode,
    };
    match adopt(rt, board, &turn) {
        Ok(()) => {
            board.pass_fast(owner, tag, mode);
            Ok(())
        }
        Err(NoMemory) => {
            board.put_fast(owner);
            Err(NoMemory)
        }
    }
}

/// What a turn of a transfer found: a fast-path slot, of the session that it goes past, that is in use for
/// the relation of the strong lock.
#[derive(Clone, Copy)]
struct Turn<'a> {
    /// The session whose fast-path slot the turn found.
    owner: SessionId,
    /// The number of the fast-path slot among those of `owner`.
    slot: u8,
    /// The word that the fast-path slot shows.
    word: SlotWord,
    /// The object of the strong lock: the relation for which the fast-path slot is in use.
    tag: &'a Tag,
    /// The mode of the strong lock on `tag` that the transferring session counted.
    strong: Mode,
}

/// Moves the modes that `turn` found, one after another in rising order, from the fast-path slot into the
/// partition of the slot's relation (the inner loop of `FastPathTransferRelationLocks` in lock.c).
fn adopt<T: PartTable, B: Board<T>, R: Wait>(
    rt: &R,
    board: &mut B,
    turn: &Turn,
) -> Result<(), NoMemory>
    requires exists { turn.now.owner < (B.seat board.old).limit }
    requires there { turn.now.slot < group_size * (B.seat board.old).groups }
    requires strong { is_strong_on turn.now.tag.now turn.now.strong ≡ true }
    requires next { is_at turn.now.owner (B.view board.old).fast.counted turn.now.tag.now turn.now.strong ≡ true }
    requires in_hand { HasSlots (B.view board.old) turn.now.owner turn.now.slot turn.now.word turn.now.tag.now }
    requires nothing_due { B.stack board.old ≡ nothing_due }
    ensures adopted { AdoptsOrNot (B.view board.old) turn.now.owner turn.now.word turn.now.tag.now result (B.view board.new) }
    ensures stack { B.stack board.new ≡ B.stack board.old }
    ensures quiet { B.quiet board.new ≡ B.quiet board.old }
    ensures seat { B.seat board.new ≡ B.seat board.old }
{
    let part = turn.tag.partition();
    let mut content = board.take_part(rt, part);
    let moved = move_modes(board, &mut content, turn);
    board.put_part(part, &Move::Keep, content);
    moved
}

/// Moves the modes that `turn` found, one per step, to `content`, that of the partition of the slot's
/// relation, which is in hand.
fn move_modes<T: PartTable, B: Board<T>>(
    board: &mut B,
    content: &mut T,
    turn: &Turn,
) -> Result<(), NoMemory>
    requires exists { turn.now.owner < (B.seat board.old).limit }
    requires there { turn.now.slot < group_size * (B.seat board.old).groups }
    requires strong { is_strong_on turn.now.tag.now turn.now.strong ≡ true }
    requires next { is_at turn.now.owner (B.view board.old).fast.counted turn.now.tag.now turn.now.strong ≡ true }
    requires none_begun { T.begun content.old ≡ None }
    requires in_hand { HasSlotsAndPart (B.view board.old) turn.now.owner turn.now.slot turn.now.word turn.now.tag.now (T.content content.old) }
    ensures moved { MovesOrNot (B.view board.old) turn.now.owner turn.now.slot turn.now.word turn.now.tag.now (T.content content.old) result
        (T.content content.new) (B.view board.new) }
    ensures none_begun { T.begun content.new ≡ None }
    ensures stack { B.stack board.new ≡ B.stack board.old }
    ensures quiet { B.quiet board.new ≡ B.quiet board.old }
    ensures seat { B.seat board.new ≡ B.seat board.old }
{
    let Turn {
        owner,
        slot,
        tag,
        ..
    } = *turn;
    let mut left = turn.word;
    for number in 1..4u8 {
        let mode = Mode::from_number(number).unwrap();
        if left.has(mode) {
            if content.begin(owner, tag, mode).is_err() {
                return Err(NoMemory);
            }
            content.grant(owner, tag, mode);
            board.transfer_slot(owner, slot, left, tag, mode, turn.strong, content);
            left = left.without(mode);
        }
    }
    Ok(())
}
