//! The manager, which has the shared table, and the opener, who gives sessions out and takes them back.

ghost use Rattle.std.specs.Prelude.{◌≡◌, ◌<◌, ◌+◌, ◌-◌, ◌↔◌, ◌⊎◌, List, [], ◌∷◌, length, true, false, IfOk, IfErr, IsErrOf, IsOkUnless, OnOk, OnErr};
ghost use Rattle.shared_rule.specs.Seats.{MayCloseBy};
ghost use Rattle.shared_rule.specs.Boards.{nothing_due};
ghost use Rattle.shared_rule.specs.declared.history.History.{History};
ghost use Rattle.shared_rule.specs.Quiet.{StoresDatabase, quiet_told};
ghost use Rattle.lock_manager.specs.Keeper.{PartView};
ghost use Rattle.lock_manager.specs.Managers.{IsNew, IsOpenerOf, IsOpened, TakesBack, is_in_range, is_in_server_range};

use crate::config::Config;
use crate::keeper::Part;
use crate::sessions::{Own, OwnSession, Session};
use lock_table::empty_parts;
use modes_core::Refusal;
use shared_rule::{Board, SeatBoard, SeatOpener, SharedTable, TableSizes, in_shelves, open};
use std::alloc::Global;
use std::marker::Model;

/// What was in the lock manager as it was finished: the numbers of holds in fast-path slots and in the lock
/// table, and the sum of the strong lock counters.
#[derive(Clone, Copy, Debug, PartialEq, Eq)]
pub struct Final {
    pub fast: u32,
    pub table: u32,
    pub strong: u32,
}

/// The lock manager: what all sessions share (the shared memory that `InitLocks` in lock.c sets up). Its
/// sessions borrow the manager. Contracts see its table, how many sessions it may open, and how many groups
/// of fast-path slots and how many local entries each may have.
#[derive(Drop)]
pub struct Manager {
    pub(crate) table: SharedTable<Part>,
    max_local: u32,
    pub(crate) alloc: Global,
}

impl Model for Manager {
    ghost use Rattle.std.specs.Prelude.{◌≤◌};
    ghost use Rattle.lock_manager.specs.Managers.{ManagerView};
    ghost use Rattle.modes_core.specs.Sessions.{most_sessions};

    ghost Value = { ManagerView };

    ghost view = { λ manager. record {
      table = manager.table.shared.table_id;
      limit = manager.table.shared.key.sessions;
      groups = manager.table.shared.key.groups;
      max_local = manager.max_local;
    } };

    ghost invariant = { λ manager. (manager.table.shared.key.sessions ≤ most_sessions) × (1 ≤ manager.max_local)
        × (manager.max_local ≤ 65536) };
}

/// Gives the sessions of a manager out and takes them back. Contracts see at which table the opener is, how
/// many sessions it has given out and may give out, how many of these are open, and the histories of those
/// that have closed.
#[derive(Drop)]
pub struct Opener {
    pub(crate) numbers: SeatOpener<Part>,
    issued: u16,
    sessions: u16,
    live: u16,
}

impl Model for Opener {
    ghost use Rattle.std.specs.Prelude.{◌≡◌, []};
    ghost use Rattle.lock_manager.specs.Managers.{OpenerView, IsCounted};

    ghost Value = { OpenerView };

    ghost view = { λ opener. record {
      table = opener.numbers.table;
      limit = opener.sessions;
      groups = opener.numbers.groups;
      issued = opener.issued;
      live = opener.live;
      closed = opener.numbers.closed;
    } };

    ghost invariant = { λ opener. (opener.numbers.issued ≡ opener.issued) × (opener.numbers.limit ≡ opener.sessions)
        × IsCounted opener.issued opener.sessions opener.live opener.numbers.closed
        × (opener.numbers.gathered ≡ []) };
}

impl Manager {
    /// A manager as `config` says, with no session yet, and its opener (`InitLocks` in lock.c with
    /// `InitProcGlobal` in proc.c). Refused where a number of the configuration is out of its range, which is
    /// 1 to 64 for the sessions, and otherwise where memory, by `alloc`, runs out.
    pub fn new(alloc: Global, config: Config) -> Result<(Manager, Opener), Refusal>
        ensures ok { IfOk result (λ made. IsNew made.0 made.1 config) }
        ensures bad_config { IsErrOf result Refusal.BadConfig ↔ (is_in_range config ≡ false) }
        ensures no_other { is_in_range config ≡ true → IsOkUnless result Refusal.NoMemory }
    {
        if !config.is_in_range() {
            return Err(Refusal::BadConfig);
        }
        Manager::of_size(alloc, config)
    }

    /// A server's manager as `config` says, which may have up to 1,024 sessions, with no session yet, and its
    /// opener. The memory of the table, and the steps of a strong lock of a relation and of a listing, grow
    /// with the number of sessions that `config` asks for. Refused where a number of the configuration is out
    /// of its range, and otherwise where memory, by `alloc`, runs out.
    pub fn for_server(alloc: Global, config: Config) -> Result<(Manager, Opener), Refusal>
        ensures ok { IfOk result (λ made. IsNew made.0 made.1 config) }
        ensures bad_config { IsErrOf result Refusal.BadConfig ↔ (is_in_server_range config ≡ false) }
        ensures no_other { is_in_server_range config ≡ true → IsOkUnless result Refusal.NoMemory }
    {
        if !config.is_in_server_range() {
            return Err(Refusal::BadConfig);
        }
        Manager::of_size(alloc, config)
    }

    /// A manager as `config` says, whose numbers are in the ranges of a server's manager, with no session
    /// yet, and its opener. Refused where memory, by `alloc`, runs out.
    fn of_size(alloc: Global, config: Config) -> Result<(Manager, Opener), Refusal>
        requires within { is_in_server_range config ≡ true }
        ensures ok { IfOk result (λ made. IsNew made.0 made.1 config) }
        ensures no_memory { IsOkUnless result Refusal.NoMemory }
    {
        let Ok(parts) = empty_parts(alloc, Part::new) else {
            return Err(Refusal::NoMemory);
        };
        let sizes = TableSizes {
            sessions: config.sessions as u16,
            groups: config.slot_groups as u8,
        };
        let Ok(shelves) = in_shelves(alloc, parts, sizes.sessions) else {
            return Err(Refusal::NoMemory);
        };
        let Ok((table, numbers)) = open(alloc, &sizes, shelves) else {
            return Err(Refusal::NoMemory);
        };
        let manager = Manager {
            table,
            max_local: config.max_local,
            alloc,
        };
        let opener = Opener {
            numbers,
            issued: 0,
            sessions: sizes.sessions,
            live: 0,
        };
        Ok((manager, opener))
    }

    /// Ends the manager, all of whose sessions are closed, with its `opener`. Nothing is held any more, since
    /// each session showed so as it was closed: the three numbers of the answer are 0 without a count.
    pub fn finish(self, opener: Opener) -> Final
        requires own { IsOpenerOf opener self }
        requires none_live { opener.live ≡ 0 }
        ensures { result ≡ record { fast = 0; table = 0; strong = 0 } }
    {
        Final {
            fast: 0,
            table: 0,
            strong: 0,
        }
    }
}

impl Opener {
    /// How many sessions of the opener are open: given out and not closed.
    pub fn live(&self) -> u32
        ensures live { result ≡ self.now.live }
        ensures open { result + length self.now.closed ≡ self.now.issued }
    {
        u32::from(self.live)
    }

    /// A new session of `manager` for `database`, with room for its first local entries (`InitProcess` in
    /// proc.c, with `databaseId` stored as `InitPostgres` in postinit.c does). Session numbers are given out
    /// in rising order, each once. Refused where all are given out, and otherwise where memory runs out;
    /// after a refusal the opener is as before.
    pub fn session<'a>(
        &mut self,
        manager: &'a Manager,
        database: u32,
    ) -> Result<Session<'a>, Refusal>
        requires own { IsOpenerOf self.old manager.now }
        ensures ok { let B = ⟦<SeatBoard<'a, Part> as Board<Part>>⟧ in
            IfOk result (λ session. IsOpened B.seat B.view B.stack self.old manager.now database session) }
        ensures quiet { let B = ⟦<SeatBoard<'a, Part> as Board<Part>>⟧ in
            IfOk result (λ session. B.quiet session.board ≡ StoresDatabase database ∷ []) }
        ensures counted { OnOk result (self.new ≡
            record (self.old) { issued = self.old.issued + 1; live = self.old.live + 1 }) }
        ensures no_more { IsErrOf result Refusal.NoMoreSessions ↔ (self.old.issued ≡ self.old.limit) }
        ensures no_other { self.old.issued < self.old.limit → IsOkUnless result Refusal.NoMemory }
        ensures two { IfErr result (λ refusal. (refusal ≡ Refusal.NoMoreSessions) ⊎ (refusal ≡ Refusal.NoMemory)) }
        ensures unchanged { OnErr result (self.new ≡ self.old) }
    {
        if self.issued == self.sessions {
            return Err(Refusal::NoMoreSessions);
        }
        let own = Own::new(manager.alloc, database, manager.max_local)?;
        let mut board = self.numbers.session(&manager.table.shared).unwrap();
        board.store_database(database);
        self.issued += 1;
        self.live += 1;
        Ok(OwnSession::of(board, own))
    }

    // Takes the board of a session back that has nothing any more, with all that it did.
    pub(crate) fn take_back<'a>(&mut self, board: SeatBoard<'a, Part>)
        requires table { (⟦<SeatBoard<'a, Part> as Board<Part>>⟧.seat board).table ≡ self.old.table }
        requires stack { ⟦<SeatBoard<'a, Part> as Board<Part>>⟧.stack board ≡ nothing_due }
        requires lawful { MayCloseBy (⟦<SeatBoard<'a, Part> as Board<Part>>⟧.view board) }
        ensures closed { let B = ⟦<SeatBoard<'a, Part> as Board<Part>>⟧ in
            TakesBack (B.seat board.entry).number (B.view board.entry).trace self.old self.new }
        ensures quiet { let B = ⟦<SeatBoard<'a, Part> as Board<Part>>⟧ in
            (history : History PartView) (others : List (History PartView)) → self.new.closed ≡ history ∷ others →
            quiet_told history.marks ≡ B.quiet board.entry }
    {
        self.numbers.close(board);
        self.live = self.live.saturating_sub(1);
    }
}
