//! Listings of all that is held and awaited, over any board.

ghost use Rattle.std.specs.Prelude.{◌≡◌, ◌≤◌, ℕ, [], None, IsOkUnless};
ghost use Rattle.shared_rule.specs.Lawful.{IsAboveHand};
ghost use Rattle.fast_path.specs.Quiet.{QuietOfListing};
ghost use Rattle.lock_manager.specs.Rest.{IsAtRest};
ghost use Rattle.lock_manager.specs.Sessions.{IsSame};
ghost use Rattle.lock_manager.specs.Listings.{Lists, ListsTable, ListsFrom};
ghost use Rattle.modes_core.specs.Sessions.{most_sessions};

use crate::sessions::{Own, OwnSession};
use fast_path::slot_rows;
use lock_table::{Move, NoMemory, PartTable, SlotRow, TableRow, sort_rows};
use modes_core::{PARTITIONS, Refusal};
use shared_rule::Board;
use std::sync::Wait;

/// What a listing shows of all that is held and awaited: the rows of the sessions' fast-path slots, and those
/// of the lock table.
#[derive(Debug, Drop)]
pub struct Listing {
    pub fast: Vec<SlotRow>,
    pub table: Vec<TableRow>,
}

/// All that is held and awaited (`GetLockStatusData` in lock.c), as the session on `board`, which owns `own`,
/// sees it: first what the slots show, read session by session with the lock of each one's slots shared, and
/// then the lock table at one moment, at which the session has all partitions in hand. So a hold that is
/// moved from a slot to the table meanwhile may be listed in both, and no hold that lasts throughout is
/// missed. Only the lists of the answer take memory.
pub fn list<T: PartTable, B: Board<T>, R: Wait>(
    rt: &R,
    board: &mut B,
    own: &Own,
) -> Result<Listing, Refusal>
    requires few { (B.seat board.old).limit ≤ most_sessions }
    requires rest { IsAtRest (B.seat board.old).groups (B.seat board.old).limit own.now.database own.now.uses
        (B.view board.old) (B.stack board.old) own.now.locals.entries }
    ensures listed { Lists (B.seat board.old).groups (B.seat board.old).limit (B.seat board.old).number
        (B.view board.old) result
        (B.view board.new) }
    ensures quiet { QuietOfListing (B.seat board.old).limit result (B.quiet board.old) (B.quiet board.new) }
    ensures no_memory { IsOkUnless result Refusal.NoMemory }
    ensures rest { IsAtRest (B.seat board.old).groups (B.seat board.old).limit own.now.database own.now.uses
        (B.view board.new) (B.stack board.new) own.now.locals.entries }
    ensures seat { B.seat board.new ≡ B.seat board.old }
{
    // Its own slots are among those that are read, and a row has room for its own database.
    let is_among = board.number().number() < board.sessions();
    let has_room = own.database <= u32::MAX;
    prove!(is_among && has_room);
    let mut fast = Vec::new(own.alloc);
    if slot_rows(rt, board, &mut fast).is_err() {
        return Err(Refusal::NoMemory);
    }
    let mut table = Vec::new(own.alloc);
    match list_table(rt, board, &mut table) {
        Ok(()) => Ok(Listing { fast, table }),
        Err(NoMemory) => Err(Refusal::NoMemory),
    }
}

/// Appends to `rows` the rows of the lock table at one moment, at which the session has all partitions in
/// hand.
fn list_table<T: PartTable, B: Board<T>, R: Wait>(
    rt: &R,
    board: &mut B,
    rows: &mut Vec<TableRow>,
) -> Result<(), NoMemory>
    requires none_in_hand { (partition : ℕ) → (B.view board.old).hand partition ≡ None }
    requires none_owed { (B.stack board.old).owed ≡ [] }
    requires empty { rows.old.items ≡ [] }
    ensures listed { ListsTable (B.seat board.old).number (B.view board.old) result rows.new.items (B.view board.new) }
    ensures quiet { B.quiet board.new ≡ B.quiet board.old }
    ensures account { B.view board.new ≡ record (B.view board.old) { trace = (B.view board.new).trace } }
    ensures stack { B.stack board.new ≡ B.stack board.old }
    ensures seat { B.seat board.new ≡ B.seat board.old }
{
    if list_from(rt, board, 0, rows).is_err() {
        return Err(NoMemory);
    }
    sort_rows(rows);
    Ok(())
}

/// Appends to `rows` the rows of the partitions from `part` on, all of which are taken before the first one
/// is put back.
fn list_from<T: PartTable, B: Board<T>, R: Wait>(
    rt: &R,
    board: &mut B,
    part: u8,
    rows: &mut Vec<TableRow>,
) -> Result<(), NoMemory>
    requires exists { part ≤ 16 }
    requires none_in_hand { IsAboveHand (B.view board.old) part }
    requires none_owed { (B.stack board.old).owed ≡ [] }
    ensures listed { ListsFrom (B.seat board.old).number part (B.view board.old) rows.old.items result
        (B.view board.new) rows.new.items }
    ensures quiet { B.quiet board.new ≡ B.quiet board.old }
    ensures stack { B.stack board.new ≡ B.stack board.old }
    ensures seat { B.seat board.new ≡ B.seat board.old }
{
    if u32::from(part) == PARTITIONS {
        return Ok(());
    }
    let content = board.take_part(rt, part);
    let mut listed = list_from(rt, board, part + 1, rows);
    if listed.is_ok() {
        listed = content.rows(rows);
    }
    board.put_part(part, &Move::Keep, content);
    listed
}

impl<T: PartTable, B: Board<T>> OwnSession<T, B> {
    /// All that is held and awaited (`GetLockStatusData` in lock.c): first what the slots show, session by
    /// session, then the lock table at one moment, at which the session has all partitions in hand. A hold
    /// that is moved from a slot to the table meanwhile may be in both parts of the answer; one that lasts
    /// throughout is in one of the two at least. Only the lists of the answer take memory; the call is
    /// refused where that runs out.
    pub fn list<R: Wait>(&mut self, rt: &R) -> Result<Listing, Refusal>
        ensures listed { Lists (B.seat self.old.board).groups (B.seat self.old.board).limit
            (B.seat self.old.board).number (B.view self.old.board) result (B.view self.new.board) }
        ensures quiet { QuietOfListing (B.seat self.old.board).limit result
            (B.quiet self.old.board) (B.quiet self.new.board) }
        ensures no_memory { IsOkUnless result Refusal.NoMemory }
        ensures owned { self.new.owned ≡ self.old.owned }
        ensures uses { self.new.uses ≡ self.old.uses }
        ensures same { IsSame B.seat B.view B.stack self.old self.new }
    {
        list(rt, &mut self.board, &self.own)
    }
}
