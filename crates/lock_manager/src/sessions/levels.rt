//! The levels of a session's transaction: its savepoints.

ghost use Rattle.std.specs.Prelude.{◌≡◌, ◌≤◌, ◌↔◌, [], ◌∷◌, ◌++◌};
ghost use Rattle.std.specs.Prelude.{IsErrOf, IsOkUnless, IfOk, OnOk, OnErr};
ghost use Rattle.local_locks.specs.Owned.{max_level, level_of, of_transaction, level_count_of, without_innermost, outer_after, ended_by, left_by};
ghost use Rattle.lock_manager.specs.Sessions.{IsSame};
ghost use Rattle.lock_manager.specs.Quiet.{QuietOfReleases};
ghost use Rattle.lock_manager.specs.Releases.{ReleasesAll};

use super::OwnSession;
use crate::releases::end_all;
use local_locks::End;
use lock_table::PartTable;
use modes_core::{Mode, Refusal, Tag};
use shared_rule::Board;
use std::sync::Wait;

impl<T: PartTable, B: Board<T>> OwnSession<T, B> {
    /// Begins a level of the transaction within the innermost one, and answers the new level (a savepoint:
    /// `PushTransaction` in xact.c, with a resource owner of its own in resowner.c). What is acquired for the
    /// transaction from then on belongs to the new level, until that ends. A transaction begins at level 1,
    /// and has at most 16 levels. The call makes no step, and takes no memory.
    pub fn begin_nested(&mut self) -> Result<u8, Refusal>
        ensures too_deep { IsErrOf result Refusal.TooDeep ↔ (level_of self.old.owned ≡ max_level) }
        ensures no_other { IsOkUnless result Refusal.TooDeep }
        ensures level { IfOk result (λ level. level ≡ level_of self.new.owned) }
        ensures begun { OnOk result
            (self.new.owned.outer ≡ self.old.owned.outer ++ of_transaction self.old.owned.entries ∷ []) }
        ensures entries { self.new.owned.entries ≡ self.old.owned.entries }
        ensures refused { OnErr result (self.new.owned ≡ self.old.owned) }
        ensures untouched { self.new.board ≡ self.old.board }
        ensures uses { self.new.uses ≡ self.old.uses }
        ensures same { IsSame B.seat B.view B.stack self.old self.new }
    {
        self.own.locals.begin_nested()
    }

    /// Ends the innermost level, which succeeded, and answers the level in which it was begun: that level has
    /// from then on what the ended one had (`LockReassignCurrentOwner` in lock.c). Refused at level 1;
    /// nothing has changed after a refusal. The call makes no step, and takes no memory.
    pub fn commit_nested(&mut self) -> Result<u8, Refusal>
        ensures no_nested { IsErrOf result Refusal.NoNested ↔ (level_of self.old.owned ≡ 1) }
        ensures no_other { IsOkUnless result Refusal.NoNested }
        ensures level { IfOk result (λ level. level ≡ level_of self.new.owned) }
        ensures handed_up { OnOk result (self.new.owned.outer ≡ outer_after End.Inner self.old.owned.outer) }
        ensures entries { self.new.owned.entries ≡ self.old.owned.entries }
        ensures refused { OnErr result (self.new.owned ≡ self.old.owned) }
        ensures untouched { self.new.board ≡ self.old.board }
        ensures uses { self.new.uses ≡ self.old.uses }
        ensures same { IsSame B.seat B.view B.stack self.old self.new }
    {
        self.own.locals.hand_up()
    }

    /// Ends the innermost level, which failed, and answers the level in which it was begun: what the ended
    /// level had goes, and what the outer levels and the session have stays (`LockReleaseCurrentOwner` in
    /// lock.c). Holds that neither an outer level nor the session has are released, in the order of making,
    /// whatever their lock method. Refused at level 1; nothing has changed after a refusal.
    pub fn abort_nested<R: Wait>(&mut self, rt: &R) -> Result<u8, Refusal>
        ensures no_nested { IsErrOf result Refusal.NoNested ↔ (level_of self.old.owned ≡ 1) }
        ensures no_other { IsOkUnless result Refusal.NoNested }
        ensures level { IfOk result (λ level. level ≡ level_of self.new.owned) }
        ensures entries { OnOk result
            (self.new.owned.entries ≡ left_by End.Inner (without_innermost self.old.owned)) }
        ensures released { OnOk result (ReleasesAll (B.seat self.old.board).groups (B.seat self.old.board).number
            (B.view self.old.board) self.old.uses (ended_by End.Inner (without_innermost self.old.owned)) (B.view self.new.board) self.new.uses) }
        ensures quiet { OnOk result (QuietOfReleases (B.seat self.old.board).groups (B.seat self.old.board).number (B.view self.old.board)
            self.old.uses (ended_by End.Inner (without_innermost self.old.owned)) (B.view self.new.board) self.new.uses
            (B.quiet self.old.board) (B.quiet self.new.board)) }
        ensures levels { OnOk result (self.new.owned.outer ≡ outer_after End.Inner self.old.owned.outer) }
        ensures refused { OnErr result (self.new.owned ≡ self.old.owned) }
        ensures untouched { OnErr result (self.new.board ≡ self.old.board) }
        ensures none_ended { ended_by End.Inner (without_innermost self.old.owned) ≡ [] →
            self.new.board ≡ self.old.board }
        ensures same_uses { OnErr result (self.new.uses ≡ self.old.uses) }
        ensures same { IsSame B.seat B.view B.stack self.old self.new }
    {
        if self.own.locals.level() == 1 {
            return Err(Refusal::NoNested);
        }
        end_all(rt, &mut self.board, &mut self.own, End::Inner);
        Ok(self.own.locals.level())
    }

    /// The innermost level of the session's transaction: 1, and one more for each level that was begun and
    /// has not ended (`GetCurrentTransactionNestLevel` in xact.c).
    pub fn level(&self) -> u8
        ensures { result ≡ level_of self.now.owned }
    {
        self.own.locals.level()
    }

    /// How often `level` of the transaction has `tag` in `mode`.
    pub fn level_count(&self, tag: Tag, mode: Mode, level: u8) -> u16
        requires from { 1 ≤ level }
        requires to { level ≤ level_of self.now.owned }
        ensures { result ≡ level_count_of self.now.owned tag mode level }
    {
        self.own.locals.level_count(tag, mode, level)
    }
}
