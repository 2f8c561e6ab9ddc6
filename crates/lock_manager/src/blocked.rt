//! All waits at one moment, each with all who are in its way, over any board.

ghost use Rattle.std.specs.Prelude.{◌≡◌, ◌≤◌, ◌++◌, [], IfOk, IsOkUnless, OnOk};
ghost use Rattle.shared_rule.specs.Lawful.{IsAboveHand};
ghost use Rattle.lock_manager.specs.Rest.{IsAtRest};
ghost use Rattle.lock_manager.specs.Sessions.{IsSame};
ghost use Rattle.lock_manager.specs.Blocked.{ListsBlocked, AppendsBlocked, ListsBlockedFrom};

use crate::sessions::{Own, OwnSession};
use lock_table::{Move, NoMemory, PartTable};
use modes_core::{Mode, PARTITIONS, Refusal, SessionId, Tag};
use shared_rule::Board;
use std::alloc::Global;
use std::sync::Wait;
use wait_queue::{Blocker, blockers_of};

/// A session that waits, with all sessions that are in its way.
#[derive(Debug, Drop)]
pub struct Blocked {
    /// The session that waits.
    pub session: SessionId,
    /// The object that `session` waits for.
    pub tag: Tag,
    /// The mode that `session` waits for.
    pub mode: Mode,
    /// The sessions in the way of the wait of `session`, as `OwnSession::blockers` has them.
    pub blockers: Vec<Blocker>,
}

/// Appends to `found` the waits in `content`, each with the sessions in its way. Refused only where memory,
/// by `alloc`, runs out.
fn append_blocked<T: PartTable>(
    alloc: Global,
    content: &T,
    found: &mut Vec<Blocked>,
) -> Result<(), NoMemory>
    ensures { OnOk result (AppendsBlocked (T.content content.now) found.old.items found.new.items) }
{
    let mut rows = Vec::new(alloc);
    content.rows(&mut rows)?;
    for row in &rows {
        if !row.granted {
            let blockers = blockers_of(alloc, content, &row.tag, row.session)?;
            found.push(Blocked {
                session: row.session,
                tag: row.tag,
                mode: row.mode,
                blockers,
            })?;
        }
    }
    Ok(())
}

/// Appends to `found` the waits in the partitions from `part` on, each with the sessions in its way. All
/// these partitions are taken before the first one is put back, and all are put back, also where memory, by
/// `alloc`, runs out.
fn blocked_from<T: PartTable, B: Board<T>, R: Wait>(
    rt: &R,
    board: &mut B,
    alloc: Global,
    part: u8,
    found: &mut Vec<Blocked>,
) -> Result<(), NoMemory>
    requires exists { part ≤ 16 }
    requires none_in_hand { IsAboveHand (B.view board.old) part }
    requires none_owed { (B.stack board.old).owed ≡ [] }
    ensures listed { ListsBlockedFrom (B.seat board.old).number part (B.view board.old) found.old.items result
        (B.view board.new) found.new.items }
    ensures quiet { B.quiet board.new ≡ B.quiet board.old }
    ensures stack { B.stack board.new ≡ B.stack board.old }
    ensures seat { B.seat board.new ≡ B.seat board.old }
{
    if u32::from(part) == PARTITIONS {
        return Ok(());
    }
    let content = board.take_part(rt, part);
    let appended = append_blocked(alloc, &content, found);
    let others = blocked_from(rt, board, alloc, part + 1, found);
    board.put_part(part, &Move::Keep, content);
    if appended.is_err() {
        return Err(NoMemory);
    }
    others
}

/// All waits at one moment, as the session on `board`, which owns `own`, sees them: each with the sessions in
/// its way.
fn list_blocked<T: PartTable, B: Board<T>, R: Wait>(
    rt: &R,
    board: &mut B,
    own: &Own,
) -> Result<Vec<Blocked>, Refusal>
    requires rest { IsAtRest (B.seat board.old).groups (B.seat board.old).limit own.now.database own.now.uses
        (B.view board.old) (B.stack board.old) own.now.locals.entries }
    ensures listed { ListsBlocked (B.seat board.old).number (B.view board.old) result
        (B.view board.new) }
    ensures quiet { B.quiet board.new ≡ B.quiet board.old }
    ensures no_memory { IsOkUnless result Refusal.NoMemory }
    ensures rest { IsAtRest (B.seat board.old).groups (B.seat board.old).limit own.now.database own.now.uses
        (B.view board.new) (B.stack board.new) own.now.locals.entries }
    ensures seat { B.seat board.new ≡ B.seat board.old }
{
    let mut found = Vec::new(own.alloc);
    match blocked_from(rt, board, own.alloc, 0, &mut found) {
        Ok(()) => Ok(found),
        Err(NoMemory) => Err(Refusal::NoMemory),
    }
}

impl<T: PartTable, B: Board<T>> OwnSession<T, B> {
    /// All sessions that wait, at one moment, at which the session has all partitions in hand, each with all
    /// sessions that are in its way (`GetLockStatusData` and `GetBlockerStatusData` in lock.c in one): by
    /// partition, and within a partition in the order of a listing. The answer shows who waits for whom, over
    /// all objects; a cycle in it is a deadlock. Only the lists of the answer take memory; refused where that
    /// runs out.
    pub fn waits<R: Wait>(&mut self, rt: &R) -> Result<Vec<Blocked>, Refusal>
        // What the call answers.
        ensures listed { ListsBlocked (B.seat self.old.board).number (B.view self.old.board)
            result (B.view self.new.board) }
        ensures quiet { B.quiet self.new.board ≡ B.quiet self.old.board }
        ensures no_memory { IsOkUnless result Refusal.NoMemory }

        // What holds after the call.
        ensures owned { self.new.owned ≡ self.old.owned }
        ensures uses { self.new.uses ≡ self.old.uses }
        ensures same { IsSame B.seat B.view B.stack self.old self.new }
    {
        list_blocked(rt, &mut self.board, &self.own)
    }
}
