//! Desks, which open, count and close the sessions of a manager for a program that is written over any board.

ghost use Rattle.std.specs.Prelude.{◌≡◌, ◌≢◌, ◌⊎◌, ◌↔◌, ◌<◌, ◌+◌, ◌-◌, List, [], ◌∷◌, All, length, map, IsErrOf, IsOkUnless, IfOk, IfErr, OnOk, OnErr};
ghost use Rattle.shared_rule.specs.Plays.{side_of};
ghost use Rattle.local_locks.specs.Owned.{ended_by};
ghost use Rattle.lock_world.specs.Account.{Account};
ghost use Rattle.fast_path.specs.declared.use_counts.UseCounts.{UseCounts};
ghost use Rattle.lock_manager.specs.Audits.{Audits, entries_owned, strong_owned};
ghost use Rattle.shared_rule.specs.Boards.{parts_in_hand};
ghost use Rattle.shared_rule.specs.declared.history.History.{History};
ghost use Rattle.shared_rule.specs.History.{first_account};
ghost use Rattle.shared_rule.specs.Owed.{first_owed};
ghost use Rattle.shared_rule.specs.Quiet.{StoresDatabase, first_quiet, quiet_told};
ghost use Rattle.lock_manager.specs.Desks.{opener_at, session_at, shown};
ghost use Rattle.lock_manager.specs.Keeper.{PartView, content_of};
ghost use Rattle.lock_manager.specs.Managers.{IsOpenerOf, IsOpened, HasClosed};
ghost use Rattle.lock_manager.specs.Quiet.{QuietOfReleases};
ghost use Rattle.lock_manager.specs.Sessions.{DontConflict, IsUnchanged};
ghost use Rattle.modes_core.specs.Sessions.{most_sessions};

use crate::keeper::Part;
use crate::manager::{Manager, Opener};
use crate::sessions::Session;
use local_locks::End;
use modes_core::Refusal;
use shared_rule::{Audit, Board, SeatBoard};
use std::sync::Wait;

/// Opens and closes the sessions of one manager, and counts what they have. A program that is written against
/// this trait works over any board, which makes its proofs cheap, and names the board of the shared table
/// only in the one call to which it lends a `ManagerDesk`.
pub trait Desk<S> {
    ghost use Rattle.std.specs.Prelude.{ℕ, List};
    ghost use Rattle.local_locks.specs.declared.records.Entry.{Entry};
    ghost use Rattle.local_locks.specs.Owned.{Owned};
    ghost use Rattle.lock_world.specs.Account.{Account};
    ghost use Rattle.shared_rule.specs.Boards.{Seated, Stack};
    ghost use Rattle.shared_rule.specs.declared.history.History.{History};
    ghost use Rattle.shared_rule.specs.Quiet.{Quiet};
    ghost use Rattle.fast_path.specs.declared.use_counts.UseCounts.{UseCounts};
    ghost use Rattle.lock_manager.specs.Keeper.{PartView};
    ghost use Rattle.lock_manager.specs.Managers.{ManagerView};

    // The manager whose sessions the desk opens and closes.
    ghost manager: { Self → ManagerView };

    // How many of the manager's sessions were opened, how many are open, and the histories of those that have
    // closed.
    ghost issued: { Self → ℕ };

    ghost live: { Self → ℕ };

    ghost closed: { Self → List (History PartView) };

    // At which table a session is, and under which number.
    ghost seat: { S → Seated };

    // What a session has and awaits by its own account, with its trace; what it has to do yet; and its quiet
    // steps.
    ghost account: { S → Account };

    ghost stack: { S → Stack };

    ghost quiet: { S → List Quiet };

    // The database of a session, its local entries, the use counts of its slots, and what it owns.
    ghost database_of: { S → ℕ };

    ghost entries: { S → List Entry };

    ghost uses: { S → UseCounts };

    ghost owned: { S → Owned };

    /// Opens a session of `database` (`Opener::session`), which has the next number, holds nothing and has
    /// made no step. Refused where all session numbers are given out, and otherwise where memory runs out;
    /// after a refusal nothing has changed.
    fn open(&mut self, database: u32) -> Result<S, Refusal>
        ensures manager { manager self.new ≡ manager self.old }
        ensures own { IfOk result (λ session. (seat session).table ≡ (manager self.old).table) }
        ensures database { IfOk result (λ session. database_of session ≡ database) }
        ensures nothing { IfOk result (λ session. entries session ≡ []) }
        ensures live { OnOk result (live self.new ≡ live self.old + 1) }
        ensures no_more { IsErrOf result Refusal.NoMoreSessions ↔ (issued self.old ≡ (manager self.old).limit) }
        ensures no_other { IfErr result (λ refusal. (refusal ≡ Refusal.NoMoreSessions) ⊎ (refusal ≡ Refusal.NoMemory)) }
        ensures refused { OnErr result (live self.new ≡ live self.old) }
        ensures few { OnOk result (issued self.old < most_sessions) }
        ensures issued { OnOk result (issued self.new ≡ issued self.old + 1) }
        ensures none_issued { OnErr result (issued self.new ≡ issued self.old) }
        ensures opened { IfOk result (λ session. IsOpened seat account stack
            (opener_at (manager self.old) (issued self.old) (live self.old) (closed self.old)) (manager self.old)
            database (session_at database_of uses owned session)) }
        ensures quiet { IfOk result (λ session. quiet session ≡ StoresDatabase database ∷ []) }
        ensures none_closed { closed self.new ≡ closed self.old };

    /// How many sessions of the manager are open.
    fn live(&self) -> u32
        ensures { result ≡ live self.now };

    /// Has `session` and `other` meet (`Session::meet`), which shows that their numbers differ, and that no
    /// hold of the one conflicts with a hold of the other. Both sessions keep what they have, and make no
    /// step; `other` comes back.
    fn meet(&self, session: &mut S, other: S) -> S
        requires same_manager { (seat other).table ≡ (seat session.old).table }
        ensures apart { (seat session.old).number ≢ (seat other).number }
        ensures told { DontConflict (entries session.old) (entries other) }
        ensures kept { seat session.new ≡ seat session.old }
        ensures its_kept { seat result ≡ seat other }
        ensures no_step { account session.new ≡ account session.old }
        ensures its_no_step { account result ≡ account other }
        ensures same_entries { entries session.new ≡ entries session.old }
        ensures its_entries { entries result ≡ entries other }
        ensures unchanged { IsUnchanged seat account stack quiet
            (session_at database_of uses owned session.old) (session_at database_of uses owned session.new) }
        ensures its_unchanged { IsUnchanged seat account stack quiet
            (session_at database_of uses owned other) (session_at database_of uses owned result) };

    /// Counts what is in the manager, all of whose open `sessions` are lent (`Manager::audit`): fast-path
    /// slots and lock table have together as many holds as the sessions have local entries, and the strong
    /// lock counters count the strong ones among these. The first session makes the steps; all else of the
    /// sessions is as before. Refused where memory runs out; the sessions are as before in that case too.
    fn audit<R: Wait>(&mut self, rt: &R, sessions: &mut Vec<S>) -> Result<Audit, Refusal>
        requires own { All (λ session. (seat session).table ≡ (manager self.old).table) sessions.old.items }
        requires all { length sessions.old.items ≡ live self.old }
        ensures manager { manager self.new ≡ manager self.old }
        ensures live { live self.new ≡ live self.old }
        ensures issued { issued self.new ≡ issued self.old }
        ensures holds { IfOk result (λ audit. audit.fast + audit.table ≡ entries_owned entries sessions.old.items) }
        ensures strong { IfOk result (λ audit. audit.strong ≡ strong_owned entries sessions.old.items) }
        ensures kept { map entries sessions.new.items ≡ map entries sessions.old.items }
        ensures own { All (λ session. (seat session).table ≡ (manager self.old).table) sessions.new.items }
        ensures as_many { length sessions.new.items ≡ length sessions.old.items }
        ensures counted { Audits seat account stack quiet (manager self.old).limit (manager self.old).groups
            (map (session_at database_of uses owned) sessions.old.items)
            (map (session_at database_of uses owned) sessions.new.items) result }
        ensures none_closed { closed self.new ≡ closed self.old }
        ensures no_memory { IsOkUnless result Refusal.NoMemory };

    /// Closes `session`, one of the desk's own (`Session::close`): all that it holds is released, in the
    /// order of making, and its history is among those of the closed sessions.
    fn close<R: Wait>(&mut self, rt: &R, session: S)
        requires own { (seat session).table ≡ (manager self.old).table }
        ensures manager { manager self.new ≡ manager self.old }
        ensures live { live self.new ≡ live self.old - 1 }
        ensures issued { issued self.new ≡ issued self.old }
        ensures closed { HasClosed seat account stack (session_at database_of uses owned session)
            (opener_at (manager self.old) (issued self.old) (live self.old) (closed self.old))
            (opener_at (manager self.new) (issued self.new) (live self.new) (closed self.new)) }
        ensures quiet { (history : History PartView) (others : List (History PartView)) → closed self.new ≡ history ∷ others
            → (last : Account) × (left : UseCounts) × QuietOfReleases (seat session).groups (seat session).number
            (account session) (uses session) (ended_by End.Close (owned session).entries) last left
            (quiet session) (quiet_told history.marks) };
}

/// The desk of a manager: the manager with its opener.
#[derive(Drop)]
pub struct ManagerDesk<'a> {
    manager: &'a Manager,
    opener: Opener,
    ghost own: { opener.table ≡ manager.now.table },
    ghost size: { opener.limit ≡ manager.now.limit },
    ghost groups: { opener.groups ≡ manager.now.groups },
}

impl<'a> ManagerDesk<'a> {
    /// The desk of `manager`, with its `opener`.
    pub fn new(manager: &'a Manager, opener: Opener) -> Self
        requires own { IsOpenerOf opener manager.now }
        ensures manager { result.manager.now ≡ manager.now }
        ensures opener { result.opener ≡ opener }
    {
        ManagerDesk { manager, opener }
    }

    /// The opener of the desk's manager, for which the desk is given up.
    pub fn into_opener(self) -> Opener
        ensures opener { result ≡ self.entry.opener }
        ensures own { IsOpenerOf result self.entry.manager.now }
    {
        self.opener
    }
}

impl<'a> Desk<Session<'a>> for ManagerDesk<'a> {
    ghost manager = { λ desk. desk.manager.now };

    ghost issued = { λ desk. desk.opener.issued };

    ghost live = { λ desk. desk.opener.live };

    ghost closed = { λ desk. desk.opener.closed };

    ghost seat = { λ session. record {
      number = session.board.number;
      limit = session.board.sizes.sessions;
      groups = session.board.sizes.groups;
      table = session.board.table.now.table_id;
    } };

    ghost account = { λ session. first_account content_of (side_of session.board.seat).0.sessions };

    ghost stack = { λ session.
        record { parts = parts_in_hand (side_of session.board.seat).1; owed = first_owed (side_of session.board.seat).0.sessions } };

    ghost quiet = { λ session. first_quiet (side_of session.board.seat).0.sessions };

    ghost database_of = { λ session. session.database };

    ghost entries = { λ session. session.owned.entries };

    ghost uses = { λ session. session.uses };

    ghost owned = { λ session. session.owned };

    fn open(&mut self, database: u32) -> Result<Session<'a>, Refusal> {
        self.opener.session(self.manager, database)
    }

    fn live(&self) -> u32 {
        self.opener.live()
    }

    fn meet(&self, session: &mut Session<'a>, other: Session<'a>) -> Session<'a>
        requires same_manager { let B = ⟦<SeatBoard<'a, Part> as Board<Part>>⟧ in
            (B.seat other.board).table ≡ (B.seat session.old.board).table }
        ensures apart { let B = ⟦<SeatBoard<'a, Part> as Board<Part>>⟧ in
            (B.seat session.old.board).number ≢ (B.seat other.entry.board).number }
        ensures told { DontConflict session.old.owned.entries other.entry.owned.entries }
        ensures kept { let B = ⟦<SeatBoard<'a, Part> as Board<Part>>⟧ in
            B.seat session.new.board ≡ B.seat session.old.board }
        ensures its_kept { let B = ⟦<SeatBoard<'a, Part> as Board<Part>>⟧ in
            B.seat result.board ≡ B.seat other.entry.board }
        ensures no_step { let B = ⟦<SeatBoard<'a, Part> as Board<Part>>⟧ in
            B.view session.new.board ≡ B.view session.old.board }
        ensures its_no_step { let B = ⟦<SeatBoard<'a, Part> as Board<Part>>⟧ in
            B.view result.board ≡ B.view other.entry.board }
        ensures same_entries { session.new.owned.entries ≡ session.old.owned.entries }
        ensures its_entries { result.owned.entries ≡ other.entry.owned.entries }
        ensures unchanged { let B = ⟦<SeatBoard<'a, Part> as Board<Part>>⟧ in
            IsUnchanged (λ session. B.seat session.board) (λ session. B.view session.board)
            (λ session. B.stack session.board) (λ session. B.quiet session.board)
            (shown session.old) (shown session.new) }
        ensures its_unchanged { let B = ⟦<SeatBoard<'a, Part> as Board<Part>>⟧ in
            IsUnchanged (λ session. B.seat session.board) (λ session. B.view session.board)
            (λ session. B.stack session.board) (λ session. B.quiet session.board)
            (shown other.entry) (shown result) }
    {
        session.meet(other)
    }

    fn audit<R: Wait>(&mut self, rt: &R, sessions: &mut Vec<Session<'a>>) -> Result<Audit, Refusal>
        requires own { let B = ⟦<SeatBoard<'a, Part> as Board<Part>>⟧ in
            All (λ session. (B.seat session.board).table ≡ self.old.manager.now.table) sessions.old.items }
        requires all { length sessions.old.items ≡ self.old.opener.live }
        ensures manager { self.new.manager.now ≡ self.old.manager.now }
        ensures live { self.new.opener.live ≡ self.old.opener.live }
        ensures issued { self.new.opener.issued ≡ self.old.opener.issued }
        ensures holds { IfOk result (λ audit.
            audit.fast + audit.table ≡ entries_owned (λ session. session.owned.entries) sessions.old.items) }
        ensures strong { IfOk result (λ audit. audit.strong ≡ strong_owned (λ session. session.owned.entries) sessions.old.items) }
        ensures kept { map (λ session. session.owned.entries) sessions.new.items
            ≡ map (λ session. session.owned.entries) sessions.old.items }
        ensures own { let B = ⟦<SeatBoard<'a, Part> as Board<Part>>⟧ in
            All (λ session. (B.seat session.board).table ≡ self.old.manager.now.table) sessions.new.items }
        ensures as_many { length sessions.new.items ≡ length sessions.old.items }
        ensures counted { let B = ⟦<SeatBoard<'a, Part> as Board<Part>>⟧ in
            Audits (λ session. B.seat session.board) (λ session. B.view session.board) (λ session. B.stack session.board)
            (λ session. B.quiet session.board) self.old.manager.now.limit self.old.manager.now.groups
            (map shown sessions.old.items) (map shown sessions.new.items) result }
        ensures none_closed { self.new.opener.closed ≡ self.old.opener.closed }
        ensures no_memory { IsOkUnless result Refusal.NoMemory }
    {
        self.manager.audit(rt, &mut self.opener, sessions)
    }

    fn close<R: Wait>(&mut self, rt: &R, session: Session<'a>)
        requires own { (⟦<SeatBoard<'a, Part> as Board<Part>>⟧.seat session.board).table
            ≡ self.old.manager.now.table }
        ensures manager { self.new.manager.now ≡ self.old.manager.now }
        ensures live { self.new.opener.live ≡ self.old.opener.live - 1 }
        ensures issued { self.new.opener.issued ≡ self.old.opener.issued }
        ensures closed { let B = ⟦<SeatBoard<'a, Part> as Board<Part>>⟧ in
            HasClosed (λ session. B.seat session.board) (λ session. B.view session.board) (λ session. B.stack session.board)
            (shown session.entry)
            (opener_at self.old.manager.now self.old.opener.issued self.old.opener.live self.old.opener.closed)
            (opener_at self.new.manager.now self.new.opener.issued self.new.opener.live self.new.opener.closed) }
        ensures quiet { let B = ⟦<SeatBoard<'a, Part> as Board<Part>>⟧ in
            (history : History PartView) (others : List (History PartView)) → self.new.opener.closed ≡ history ∷ others →
            (last : Account) × (left : UseCounts) × QuietOfReleases (B.seat session.entry.board).groups
            (B.seat session.entry.board).number (B.view session.entry.board) session.entry.uses
            (ended_by End.Close session.entry.owned.entries) last left (B.quiet session.entry.board) (quiet_told history.marks) }
    {
        session.close(rt, &mut self.opener);
    }
}
