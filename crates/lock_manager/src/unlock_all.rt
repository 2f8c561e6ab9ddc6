//! All advisory locks of a session are given back, over any board.

ghost use Rattle.std.specs.Prelude.{◌≡◌, ◌≤◌, [], None, Some, find, length, IfNone, IfSome};
ghost use Rattle.local_locks.specs.declared.records.Entry as records;
ghost use Rattle.local_locks.specs.Owned.{IsWellOwned};
ghost use Rattle.lock_manager.specs.Rest.{IsAtRest};
ghost use Rattle.lock_manager.specs.Sessions.{IsSame, KeepsOwn};
ghost use Rattle.lock_manager.specs.Releases.{ReleasesAll};
ghost use Rattle.lock_manager.specs.Quiet.{QuietOfReleases};
ghost use Rattle.lock_manager.specs.Advisory.{is_owned_advisory, unlocked_by_all, left_by_unlock_all};

use crate::releases::release_hold;
use crate::sessions::{Own, OwnSession};
use local_locks::{Entry, LocalTable, Unlocked};
use lock_table::PartTable;
use modes_core::{LockMethod, Mode, Owner, Tag};
use shared_rule::Board;
use std::sync::Wait;

/// Whether `entry` is of an advisory lock that the session owns.
fn is_owned_advisory(entry: &Entry) -> bool
    ensures { result ≡ is_owned_advisory entry.now }
{
    match entry.tag.method() {
        LockMethod::Default => false,
        LockMethod::User => entry.session != 0,
    }
}

/// The object and the mode of the first of the advisory locks that the session owns, by its local lock table
/// `locals`, in the order of making.
fn first_advisory(locals: &LocalTable) -> Option<(Tag, Mode)>
    ensures none { IfNone result (find is_owned_advisory locals.now.entries ≡ None) }
    ensures first { IfSome result (λ key. (entry : records.Entry)
        × (find is_owned_advisory locals.now.entries ≡ Some entry) × (key ≡ (entry.tag, entry.mode))) }
{
    let mut left = locals.entries();
    'looks: while let Some(entry) = left.next() {
        if is_owned_advisory(&entry) {
            return Some((entry.tag, entry.mode));
        }
    }
    None
}

/// Gives back, by `board`, all advisory locks that the session owns by its `own`, each as often as the
/// session has it, in the order of making (`LockReleaseSession` in lock.c). The hold of a lock of which no
/// count is left is released; the answer is how many holds were released.
fn unlock_all<T: PartTable, B: Board<T>, R: Wait>(rt: &R, board: &mut B, own: &mut Own) -> u32
    requires few_entries { own.old.locals.max_local ≤ 65536 }
    requires rest { IsAtRest (B.seat board.old).groups (B.seat board.old).limit own.old.database own.old.uses
        (B.view board.old) (B.stack board.old) own.old.locals.entries }
    requires well_owned { IsWellOwned own.old.locals }
    ensures rest { IsAtRest (B.seat board.old).groups (B.seat board.old).limit own.old.database own.new.uses
        (B.view board.new) (B.stack board.new) own.new.locals.entries }
    ensures steps { ReleasesAll (B.seat board.old).groups (B.seat board.old).number (B.view board.old) own.old.uses
        (unlocked_by_all own.old.locals.entries) (B.view board.new) own.new.uses }
    ensures quiet { QuietOfReleases (B.seat board.old).groups (B.seat board.old).number (B.view board.old) own.old.uses
        (unlocked_by_all own.old.locals.entries) (B.view board.new) own.new.uses
        (B.quiet board.old) (B.quiet board.new) }
    ensures released { result ≡ length (unlocked_by_all own.old.locals.entries) }
    ensures none_unlocked { unlocked_by_all own.old.locals.entries ≡ [] → board.new ≡ board.old }
    ensures entries { own.new.locals.entries ≡ left_by_unlock_all own.old.locals.entries }
    ensures levels { own.new.locals.outer ≡ own.old.locals.outer }
    ensures kept { KeepsOwn (B.seat board.old) own.old (B.seat board.new) own.new }
{
    let mut released = 0u32;
    'locks: while let Some((tag, mode)) = first_advisory(&own.locals) {
        match own.locals.drop_held(&tag, mode, Owner::Session) {
            Ok(Unlocked::Released) => {
                release_hold(rt, board, own.database, &mut own.uses, &tag, mode);
                released += 1;
            }
            Ok(Unlocked::StillHeld) => {}
            Err(_) => unreachable!(),
        }
    }
    released
}

impl<T: PartTable, B: Board<T>> OwnSession<T, B> {
    /// Gives back all advisory locks that the session owns, each as often as the session has it
    /// (`pg_advisory_unlock_all` in lockfuncs.c, by `LockReleaseSession` in lock.c). What its transaction has
    /// of these locks stays, and so does every other lock. Holds are released in the order of making, and the
    /// answer is how many were released.
    pub fn unlock_all<R: Wait>(&mut self, rt: &R) -> u32
        ensures count { result ≡ length (unlocked_by_all self.old.owned.entries) }
        ensures entries { self.new.owned.entries ≡ left_by_unlock_all self.old.owned.entries }
        ensures none_unlocked { unlocked_by_all self.old.owned.entries ≡ [] → self.new.board ≡ self.old.board }
        ensures released { ReleasesAll (B.seat self.old.board).groups (B.seat self.old.board).number
            (B.view self.old.board) self.old.uses (unlocked_by_all self.old.owned.entries)
            (B.view self.new.board) self.new.uses }
        ensures quiet { QuietOfReleases (B.seat self.old.board).groups (B.seat self.old.board).number
            (B.view self.old.board) self.old.uses (unlocked_by_all self.old.owned.entries)
            (B.view self.new.board) self.new.uses (B.quiet self.old.board) (B.quiet self.new.board) }
        ensures levels { self.new.owned.outer ≡ self.old.owned.outer }
        ensures same { IsSame B.seat B.view B.stack self.old self.new }
    {
        unlock_all(rt, &mut self.board, &mut self.own)
    }
}
