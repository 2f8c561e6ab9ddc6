//! Sessions: the calls that a server's thread makes.

ghost use Rattle.std.specs.Prelude.{ℕ, ◌≡◌, ◌≢◌, ◌<◌, ◌≤◌, ◌↔◌, List, [], ◌∷◌, ◌++◌, true, false};
ghost use Rattle.std.specs.Prelude.{IsErrOf, IsOkUnless, IfOk, IfErr, OnOk, OnErr};
ghost use Rattle.modes_core.specs.ModeSet.{set_has};
ghost use Rattle.modes_core.specs.Tag.{is_eligible_for};
ghost use Rattle.local_locks.specs.Owned.{own_count_of, has_entry, total_of, with_one_more, with_one_less, ended_by, left_by, IsWellOwned};
ghost use Rattle.lock_world.specs.declared.events.Word.TheVariants.{Strong};
ghost use Rattle.lock_world.specs.AccountSteps.{account_storing};
ghost use Rattle.lock_world.specs.World.{Loaded};
ghost use Rattle.lock_world.specs.Account.{Account};
ghost use Rattle.shared_rule.specs.declared.history.History.{History};
ghost use Rattle.shared_rule.specs.Quiet.{quiet_told};
ghost use Rattle.fast_path.specs.declared.use_counts.UseCounts.{UseCounts};
ghost use Rattle.lock_manager.specs.Keeper.{PartView};
ghost use Rattle.shared_rule.specs.History.{blank_account};
ghost use Rattle.shared_rule.specs.Boards.{nothing_due};
ghost use Rattle.fast_path.specs.Slots.{count_in};
ghost use Rattle.lock_manager.specs.Sessions.{IsSame, IsUnchanged, DontConflict};
ghost use Rattle.lock_manager.specs.Promises.{HasAsked};
ghost use Rattle.lock_manager.specs.Quiet.{QuietOfAcquireBySlot, QuietOfReleases, quiet_releasing};
ghost use Rattle.lock_manager.specs.Managers.{HasClosed};
ghost use Rattle.wait_queue.specs.Decide.{IsAfterRoom};
ghost use Rattle.lock_manager.specs.Requests.{HadRoom};
ghost use Rattle.lock_manager.specs.Acquires.{AnswersByOwned, HasEntryRoom, IsOwnAnswerBySlot, Acquires, AcquiresBySlot};
ghost use Rattle.lock_manager.specs.Releases.{Releases, ReleasesAll};
ghost use Rattle.shared_rule.specs.Seats.{MayCloseBy};
ghost use Rattle.modes_core.specs.Sessions.{most_sessions};

mod levels;

use crate::held::modes_held;
use crate::keeper::Part;
use crate::manager::Opener;
use crate::releases::{end_all, release_hold};
use crate::requests::{Begun, acquire, acquire_by_slot};
use crossbeam_utils::CachePadded;
use fast_path::UseCounts;
use local_locks::{Acquired, End, LocalTable, Unlocked};
use lock_table::PartTable;
use modes_core::{Mode, ModeSet, Owner, Refusal, SessionId, Tag};
use shared_rule::{Board, SeatBoard};
use std::alloc::Global;
use std::marker::{Model, PhantomData};
use std::sync::Wait;
use wait_queue::Kind;

/// A session of a manager.
pub type Session<'a> = OwnSession<Part, SeatBoard<'a, Part>>;

// What a session has of its own, which no other session sees. It is written in each call, so it has padding
// round it, which keeps it off the cache lines of what the allocator puts beside it: that may be another
// thread's session.
#[derive(Drop)]
#[repr(C)]
pub struct Own {
    pub(crate) before: CachePadded<()>,
    pub(crate) locals: LocalTable,
    // Its database (`MyDatabaseId` in globals.c).
    pub(crate) database: u32,
    // No less than how many of its fast-path slots are in use, by group (`FastPathLocalUseCount` in lock.c,
    // in version 18 `FastPathLocalUseCounts`).
    pub(crate) uses: UseCounts,
    pub(crate) alloc: Global,
    pub(crate) after: CachePadded<()>,
}

impl Own {
    // What a session of this database has of its own at first: nothing, with room for its first local
    // entries.
    pub(crate) fn new(alloc: Global, database: u32, max_local: u32) -> Result<Box<Own>, Refusal>
        requires from { 1 ≤ max_local }
        requires to { max_local ≤ 65536 }
        ensures database { IfOk result (λ own. own.value.database ≡ database) }
        ensures no_slot { IfOk result (λ own. (group : ℕ) → count_in own.value.uses group ≡ 0) }
        ensures nothing { IfOk result (λ own. own.value.locals.entries ≡ []) }
        ensures first_level { IfOk result (λ own. own.value.locals.outer ≡ []) }
        ensures room { IfOk result (λ own. 0 < own.value.locals.room) }
        ensures max_local { IfOk result (λ own. own.value.locals.max_local ≡ max_local) }
        ensures well_owned { IfOk result (λ own. IsWellOwned own.value.locals) }
        ensures no_memory { IsOkUnless result Refusal.NoMemory }
    {
        let locals = LocalTable::new(alloc, max_local)?;
        let own = Own {
            before: CachePadded::new(()),
            locals,
            database,
            uses: UseCounts::new(),
            alloc,
            after: CachePadded::new(()),
        };
        match Box::new(alloc, own) {
            Ok(own) => Ok(own),
            Err(_) => Err(Refusal::NoMemory),
        }
    }
}

/// A session, over any board and any keeper of the partitions. Contracts see its board, its database, its use
/// counts of its fast-path slots, and what it owns. A session ends by `close` alone: the compiler refuses
/// code that drops one, which would leave its holds and its number taken for ever.
pub struct OwnSession<T: PartTable, B: Board<T>> {
    pub(crate) board: B,
    pub(crate) own: Box<Own>,
    pub(crate) parts: PhantomData<T>,
}

impl<T: PartTable, B: Board<T>> Model for OwnSession<T, B> {
    ghost use Rattle.std.specs.Prelude.{◌≤◌};
    ghost use Rattle.local_locks.specs.Owned.{IsWellOwned};
    ghost use Rattle.lock_manager.specs.Rest.{IsAtRest};
    ghost use Rattle.lock_manager.specs.Sessions.{SessionView};
    ghost use Rattle.modes_core.specs.Sessions.{most_sessions};

    ghost Value = { SessionView B };

    ghost view = { λ session. record {
      board = session.board;
      database = session.own.value.database;
      uses = session.own.value.uses;
      owned = session.own.value.locals;
    } };

    ghost invariant = { λ session.
        IsAtRest (B.seat session.board).groups (B.seat session.board).limit session.own.value.database session.own.value.uses
        (B.view session.board) (B.stack session.board) session.own.value.locals.entries
        × ((B.seat session.board).limit ≤ most_sessions) × (session.own.value.locals.max_local ≤ 65536)
        × IsWellOwned session.own.value.locals };
}

impl<T: PartTable, B: Board<T>> OwnSession<T, B> {
    // A session of a board that has nothing in it yet, with what it has of its own.
    pub(crate) fn of(board: B, own: Box<Own>) -> Self
        requires limit { (B.seat board).limit ≤ most_sessions }
        requires blank { B.view board ≡ account_storing blank_account own.value.database }
        requires stack { B.stack board ≡ nothing_due }
        requires no_slot { (group : ℕ) → count_in own.value.uses group ≡ 0 }
        requires nothing { own.value.locals.entries ≡ [] }
        requires max_local { own.value.locals.max_local ≤ 65536 }
        requires well_owned { IsWellOwned own.value.locals }
        ensures { result ≡ record {
          board = board;
          database = own.value.database;
          uses = own.value.uses;
          owned = own.value.locals;
        } }
    {
        OwnSession {
            board,
            own,
            parts: PhantomData,
        }
    }

    // Ends the session: all that it holds is released, in the order of making, and its board comes back,
    // which may be closed.
    pub(crate) fn end<R: Wait>(self, rt: &R) -> B
        ensures released { (left : UseCounts) × ReleasesAll (B.seat self.board).groups (B.seat self.board).number
            (B.view self.board) self.uses (ended_by End.Close self.owned.entries) (B.view result) left }
        ensures quiet { (left : UseCounts) × QuietOfReleases (B.seat self.board).groups (B.seat self.board).number
            (B.view self.board) self.uses (ended_by End.Close self.owned.entries) (B.view result) left
            (B.quiet self.board) (B.quiet result) }
        ensures closable { MayCloseBy (B.view result) }
        ensures stack { B.stack result ≡ nothing_due }
        ensures seat { B.seat result ≡ B.seat self.board }
    {
        let OwnSession {
            mut board,
            mut own,
            parts: _,
        } = self;
        end_all(rt, &mut board, &mut own, End::Close);
        board
    }

    /// The number of the session.
    pub fn id(&self) -> SessionId
        ensures { result ≡ (B.seat self.now.board).number }
    {
        self.board.number()
    }

    /// The database that the session was opened for.
    pub fn database(&self) -> u32
        ensures { result ≡ self.now.database }
    {
        self.own.database
    }

    /// The modes in which the session has `tag` (`holdMask` of `PROCLOCK` in lock.h).
    pub fn held(&self, tag: Tag) -> ModeSet
        ensures { set_has result ≡ has_entry self.now.owned.entries tag }
    {
        modes_held(&self.own.locals, tag)
    }

    /// How often `owner`, which is the session or the innermost level of its transaction, has `tag` in `mode`
    /// and can give it back (`LOCALLOCKOWNER` in lock.h).
    pub fn owner_count(&self, tag: Tag, mode: Mode, owner: Owner) -> u16
        ensures { result ≡ own_count_of self.now.owned tag mode owner }
    {
        self.own.locals.owner_count(tag, mode, owner)
    }

    /// Takes `tag` in `mode` for `owner`, or refuses at once where the request conflicts (`LockAcquire` in
    /// lock.c with `dontWait`). What the session has already is counted once more, with no step on shared
    /// state. A weak mode on a relation of the session's database is granted in one of its fast-path slots,
    /// unless all slots of the relation's group are in use or a strong lock is counted. Refused, in this
    /// order, where the owner's count is full, the local table is full, memory runs out, or the request
    /// conflicts with a hold or wait of another session. After a refusal the session holds what it held.
    #[inline(always)]
    pub fn try_lock<R: Wait>(
        &mut self,
        rt: &R,
        tag: Tag,
        mode: Mode,
        owner: Owner,
    ) -> Result<Acquired, Refusal>
        ensures asked { HasAsked B.seat B.view B.stack B.quiet Kind.Conditional self.old tag mode owner
            Acquired.AlreadyHeld result self.new.board self.new.uses self.new.owned }
        ensures room_first { IfErr result (IsAfterRoom (HadRoom T.content T.prepared (B.seat self.old.board).number
            tag mode (B.view self.new.board).trace)) }
        ensures steps { Acquires (B.seat self.old.board) self.old.owned (B.view self.old.board) self.old.uses tag mode
            result (B.view self.new.board) self.new.uses }
        ensures entries { OnOk result (self.new.owned.entries
            ≡ with_one_more self.old.owned.entries tag mode owner) }
        ensures same { IsSame B.seat B.view B.stack self.old self.new }
    {
        match acquire(
            rt,
            &mut self.board,
            &mut self.own,
            tag,
            mode,
            owner,
            Kind::Conditional,
        ) {
            Ok(Begun::AlreadyHeld) => Ok(Acquired::AlreadyHeld),
            Ok(Begun::Granted) => Ok(Acquired::Granted),
            Ok(Begun::Queued) => unreachable!(),
            Err(refusal) => Err(refusal),
        }
    }

    /// Takes `tag` in `mode` for `owner` in one of the session's fast-path slots, or refuses, and waits for
    /// nobody (`FastPathGrantRelationLock` in lock.c, where the lock of the session's own slots is free).
    /// What the session has already is counted once more, in a slot or in the table, unless the owner's count
    /// is full. Refused, in this order, where the mode on the object may not go by a slot, the local table is
    /// full, memory runs out, all sixteen slots of the relation's group are in use, somebody has the lock of
    /// the session's own slots, or a strong lock is counted. After a refusal the session holds what it held.
    pub fn try_fast(&mut self, tag: Tag, mode: Mode, owner: Owner) -> Result<Acquired, Refusal>
        // What the call answers.
        ensures answers { AnswersByOwned self.old.owned tag mode owner Acquired.AlreadyHeld
            (is_eligible_for self.old.database tag mode) result }
        ensures entry_room_first { IfErr result (HasEntryRoom self.new.owned) }
        ensures not_eligible { IsErrOf result Refusal.NotEligible ↔ ((has_entry self.old.owned.entries tag mode ≡ false)
            × (is_eligible_for self.old.database tag mode ≡ false)) }
        ensures steps { AcquiresBySlot (B.seat self.old.board).groups (B.seat self.old.board).number
            self.old.owned (B.view self.old.board) self.old.uses tag mode result (B.view self.new.board) self.new.uses }
        ensures quiet { QuietOfAcquireBySlot (B.seat self.old.board).number tag mode
            (B.quiet self.old.board) (B.quiet self.new.board) }
        ensures untouched { IsOwnAnswerBySlot result → self.new.board ≡ self.old.board }

        // What holds after the call.
        ensures entries { OnOk result (self.new.owned.entries
            ≡ with_one_more self.old.owned.entries tag mode owner) }
        ensures same_entries { OnErr result (self.new.owned.entries ≡ self.old.owned.entries) }
        ensures levels { self.new.owned.outer ≡ self.old.owned.outer }
        ensures same { IsSame B.seat B.view B.stack self.old self.new }
    {
        acquire_by_slot(&mut self.board, &mut self.own, tag, mode, owner)
    }

    /// Gives one count of `owner` on `tag` in `mode` back, and with the session's last count the hold
    /// (`LockRelease` in lock.c). Refused where `owner` has no count; nothing has changed after a refusal.
    #[inline(always)]
    pub fn unlock<R: Wait>(
        &mut self,
        rt: &R,
        tag: Tag,
        mode: Mode,
        owner: Owner,
    ) -> Result<Unlocked, Refusal>
        // What the call answers.
        ensures not_held { IsErrOf result Refusal.NotHeld
            ↔ (own_count_of self.old.owned tag mode owner ≡ 0) }
        ensures no_other { IsOkUnless result Refusal.NotHeld }
        ensures still_held { (result ≡ Ok Unlocked.StillHeld)
            ↔ ((0 < own_count_of self.old.owned tag mode owner)
            × (0 < total_of self.new.owned.entries tag mode)) }
        ensures released { result ≡ Ok Unlocked.Released →
            Releases (B.seat self.old.board).groups (B.seat self.old.board).number (B.view self.old.board) self.old.uses tag mode (B.view self.new.board) self.new.uses }
        ensures quiet { result ≡ Ok Unlocked.Released → B.quiet self.new.board ≡
            quiet_releasing (B.seat self.old.board).groups (B.seat self.old.board).number (B.view self.old.board)
            self.old.uses tag mode (B.quiet self.old.board) }
        ensures untouched { result ≢ Ok Unlocked.Released → self.new.board ≡ self.old.board }
        ensures same_uses { result ≢ Ok Unlocked.Released → self.new.uses ≡ self.old.uses }

        // What holds after the call.
        ensures entries { OnOk result (self.new.owned.entries
            ≡ with_one_less self.old.owned.entries tag mode owner) }
        ensures same_entries { OnErr result (self.new.owned.entries ≡ self.old.owned.entries) }
        ensures levels { self.new.owned.outer ≡ self.old.owned.outer }
        ensures same { IsSame B.seat B.view B.stack self.old self.new }
    {
        let own: &mut Own = &mut self.own;
        match own.locals.drop_held(&tag, mode, owner)? {
            Unlocked::StillHeld => Ok(Unlocked::StillHeld),
            Unlocked::Released => {
                release_hold(rt, &mut self.board, own.database, &mut own.uses, &tag, mode);
                Ok(Unlocked::Released)
            }
        }
    }

    /// Ends a transaction that succeeded, with all its levels: what the transaction owns goes, and what the
    /// session owns stays (`LockReleaseAll` in lock.c without `allLocks`). Holds are released in the order of
    /// making.
    pub fn commit<R: Wait>(&mut self, rt: &R)
        ensures entries { self.new.owned.entries ≡ left_by End.Commit self.old.owned.entries }
        ensures none_ended { ended_by End.Commit self.old.owned.entries ≡ [] → self.new.board ≡ self.old.board }
        ensures released { ReleasesAll (B.seat self.old.board).groups (B.seat self.old.board).number
            (B.view self.old.board) self.old.uses (ended_by End.Commit self.old.owned.entries) (B.view self.new.board) self.new.uses }
        ensures quiet { QuietOfReleases (B.seat self.old.board).groups (B.seat self.old.board).number (B.view self.old.board)
            self.old.uses (ended_by End.Commit self.old.owned.entries) (B.view self.new.board) self.new.uses
            (B.quiet self.old.board) (B.quiet self.new.board) }
        ensures first_level { self.new.owned.outer ≡ [] }
        ensures same { IsSame B.seat B.view B.stack self.old self.new }
    {
        end_all(rt, &mut self.board, &mut self.own, End::Commit);
    }

    /// Ends a transaction that failed, with all its levels: all that the transaction and the session own
    /// goes, but for the session's advisory locks, which stay (`LockReleaseAll` in lock.c, with `allLocks`
    /// for the default lock method and without for the user method).
    pub fn abort<R: Wait>(&mut self, rt: &R)
        ensures entries { self.new.owned.entries ≡ left_by End.Abort self.old.owned.entries }
        ensures none_ended { ended_by End.Abort self.old.owned.entries ≡ [] → self.new.board ≡ self.old.board }
        ensures released { ReleasesAll (B.seat self.old.board).groups (B.seat self.old.board).number
            (B.view self.old.board) self.old.uses (ended_by End.Abort self.old.owned.entries) (B.view self.new.board) self.new.uses }
        ensures quiet { QuietOfReleases (B.seat self.old.board).groups (B.seat self.old.board).number (B.view self.old.board)
            self.old.uses (ended_by End.Abort self.old.owned.entries) (B.view self.new.board) self.new.uses
            (B.quiet self.old.board) (B.quiet self.new.board) }
        ensures first_level { self.new.owned.outer ≡ [] }
        ensures same { IsSame B.seat B.view B.stack self.old self.new }
    {
        end_all(rt, &mut self.board, &mut self.own, End::Abort);
    }

    /// What the strong lock counter at `index` shows, by one load: how many strong locks are counted at that
    /// index (`FastPathStrongRelationLocks` in lock.c).
    pub fn strong_count(&mut self, index: u16) -> u64
        requires exists { index < 1024 }
        ensures loaded { (B.view self.new.board).trace
            ≡ (B.view self.old.board).trace ++ Loaded (Strong index) result ∷ [] }
        ensures quiet { B.quiet self.new.board ≡ B.quiet self.old.board }
        ensures owned { self.new.owned ≡ self.old.owned }
        ensures uses { self.new.uses ≡ self.old.uses }
        ensures same { IsSame B.seat B.view B.stack self.old self.new }
    {
        self.board.load_strong(index)
    }
}

impl<'a> OwnSession<Part, SeatBoard<'a, Part>> {
    /// Has the session meet `other`, a session of the same manager, which comes back: they have different
    /// numbers, and no hold of the one conflicts with a hold of the other on an object. Both sessions are as
    /// before.
    pub fn meet(&mut self, other: Session<'a>) -> Session<'a>
        requires same_manager { let B = ⟦<SeatBoard<'a, Part> as Board<Part>>⟧ in
            (B.seat other.board).table ≡ (B.seat self.old.board).table }
        ensures apart { let B = ⟦<SeatBoard<'a, Part> as Board<Part>>⟧ in
            (B.seat self.old.board).number ≢ (B.seat other.entry.board).number }
        ensures told { DontConflict self.old.owned.entries other.entry.owned.entries }
        ensures unchanged { let B = ⟦<SeatBoard<'a, Part> as Board<Part>>⟧ in
            IsUnchanged B.seat B.view B.stack B.quiet self.old self.new }
        ensures its_unchanged { let B = ⟦<SeatBoard<'a, Part> as Board<Part>>⟧ in
            IsUnchanged B.seat B.view B.stack B.quiet other.entry result }
    {
        let OwnSession { board, own, parts } = other;
        let board = self.board.meet(board);
        OwnSession { board, own, parts }
    }

    /// Ends the session: all that it holds is released, in the order of making, and its number is that of a
    /// closed session from then on, which is not given out again (`ProcKill` in proc.c). Its trace goes to
    /// `opener`.
    pub fn close<R: Wait>(self, rt: &R, opener: &mut Opener)
        requires own_opener { (⟦<SeatBoard<'a, Part> as Board<Part>>⟧.seat self.board).table ≡ opener.old.table }
        ensures closed { let B = ⟦<SeatBoard<'a, Part> as Board<Part>>⟧ in
            HasClosed B.seat B.view B.stack self.entry opener.old opener.new }
        ensures quiet { let B = ⟦<SeatBoard<'a, Part> as Board<Part>>⟧ in
            (history : History PartView) (others : List (History PartView)) → opener.new.closed ≡ history ∷ others →
            (last : Account) × (left : UseCounts) × QuietOfReleases (B.seat self.entry.board).groups
            (B.seat self.entry.board).number (B.view self.entry.board) self.entry.uses
            (ended_by End.Close self.entry.owned.entries) last left (B.quiet self.entry.board) (quiet_told history.marks) }
    {
        let board = self.end(rt);
        opener.take_back(board);
    }
}
