//! Calls that may wait: a session that has begun to wait is a value of its own, which has the calls of a
//! waiting one.

ghost use Rattle.std.specs.Prelude.{◌≤◌, ◌≡◌, ◌↔◌, false, true, IsErrOf, IsOkUnless, IfOk, IfErr, OnOk, OnErr};
ghost use Rattle.local_locks.specs.Owned.{has_entry, with_one_more};
ghost use Rattle.lock_manager.specs.declared.requests.Begun.TheVariants as begun;
ghost use Rattle.lock_manager.specs.Sessions.{IsSame};
ghost use Rattle.wait_queue.specs.Decide.{IsAfterRoom};
ghost use Rattle.lock_manager.specs.Requests.{HadRoom};
ghost use Rattle.lock_manager.specs.Acquires.{entries_begun, Begins};
ghost use Rattle.lock_manager.specs.Promises.{HasAsked};
ghost use Rattle.lock_manager.specs.Waiting.{AsksOneOf, LooksForWaiters, Polls, Cancels, Waits};
ghost use Rattle.lock_manager.specs.WaitingSessions.{answer_started, board_started, uses_started, owned_started};
ghost use Rattle.lock_manager.specs.WaitingSessions.{UnlessQueued, IfQueued};
ghost use Rattle.lock_manager.specs.WaitingSessions.{answer_polled, board_polled, IfGranted, UnlessGranted};
ghost use Rattle.lock_manager.specs.WaitingSessions.{was_granted, session_cancelled};
ghost use Rattle.lock_manager.specs.WaitingSessions.{answer_waited, session_waited};
ghost use Rattle.lock_manager.specs.WaitingSessions.{answer_locked, session_locked, Locks, HasBegun, WaitsOn, HasEnded};

mod looks;

use crate::keeper::Part;
use crate::requests::{Begun, acquire};
use crate::sessions::{Own, OwnSession};
use crate::waiting::{self, Asked, Looked};
use local_locks::Acquired;
use lock_table::PartTable;
use modes_core::{Mode, Owner, Refusal, SessionId, Tag};
use shared_rule::{Board, SeatBoard};
use std::marker::{Model, PhantomData};
use std::sync::Wait;
use wait_queue::Kind;

/// A session of a manager that waits.
pub type Waiting<'a> = OwnWaiting<Part, SeatBoard<'a, Part>>;

/// A session that waits, over any board and any keeper of the partitions: it can make no call but those of
/// its wait. Such a session is given up only to one of these calls: the compiler refuses code that drops one,
/// which would be in the wait queue for ever. Contracts see its board, its database, what it owns, and what
/// it waits for.
pub struct OwnWaiting<T: PartTable, B: Board<T>> {
    board: B,
    own: Box<Own>,
    tag: Tag,
    mode: Mode,
    owner: Owner,
    parts: PhantomData<T>,
}

impl<T: PartTable, B: Board<T>> Model for OwnWaiting<T, B> {
    ghost use Rattle.std.specs.Prelude.{◌≤◌};
    ghost use Rattle.local_locks.specs.Owned.{IsWellOwned, IsReserved};
    ghost use Rattle.lock_manager.specs.Waiting.{IsWaiting};
    ghost use Rattle.lock_manager.specs.WaitingSessions.{WaitingView};
    ghost use Rattle.modes_core.specs.Sessions.{most_sessions};

    ghost Value = { WaitingView B };

    ghost view = { λ waiting. record {
      board = waiting.board;
      database = waiting.own.value.database;
      uses = waiting.own.value.uses;
      owned = waiting.own.value.locals;
      tag = waiting.tag;
      mode = waiting.mode;
      owner = waiting.owner;
    } };

    ghost invariant = { λ waiting.
        IsWaiting (B.seat waiting.board).groups (B.seat waiting.board).limit waiting.own.value.database waiting.own.value.uses
        (B.view waiting.board) (B.stack waiting.board) waiting.own.value.locals.entries waiting.tag waiting.mode
        × ((B.seat waiting.board).limit ≤ most_sessions) × (waiting.own.value.locals.max_local ≤ 65536)
        × IsWellOwned waiting.own.value.locals
        × IsReserved waiting.own.value.locals waiting.tag waiting.mode waiting.owner };
}

/// How an acquire that may wait began, with the session.
#[derive(Drop)]
pub enum Started<S, W> {
    /// The session has the mode newly.
    Granted(S),
    /// The session had the mode before, and has it once more.
    AlreadyHeld(S),
    /// The session waits for the mode.
    Queued(W),
    /// The session holds what it held before.
    Refused(S, Refusal),
}

/// What an acquire that waits is answered, with the session.
#[derive(Drop)]
pub enum Locked<S> {
    /// The session has the mode newly.
    Granted(S),
    /// The session had the mode before, and has it once more.
    AlreadyHeld(S),
    /// The session holds what it held before.
    Refused(S, Refusal),
}

/// What a session that waits finds when it looks, with the session.
#[derive(Drop)]
pub enum Polled<S, W> {
    /// The session's wait was granted, and has ended.
    Granted(S),
    /// The session waits still, and nobody asked it to cancel.
    Still(W),
    /// The session waits still, and was asked to cancel.
    CancelAsked(W),
}

/// How a wait ended that its session cancelled, with the session.
#[derive(Drop)]
pub enum Cancelled<S> {
    /// The session is out of the wait queue, and holds what it held before.
    Removed(S),
    /// The session had been granted what it waited for, and has the mode.
    WasGranted(S),
}

/// How a wait ended, with the session.
#[derive(Drop)]
pub enum Waited<S> {
    /// The session has the mode that it waited for.
    Granted(S),
    /// The session is out of the wait queue, and holds what it held before.
    Refused(S, Refusal),
}

impl<T: PartTable, B: Board<T>> OwnSession<T, B> {
    /// Takes `tag` in `mode` for `owner`, or begins to wait for it (`LockAcquire` in lock.c without
    /// `dontWait`, up to where `ProcSleep` in proc.c has joined the queue). What the session has already is
    /// counted once more, with no step on shared state. Refused, in this order, where the owner's count is
    /// full, the local table is full, memory runs out, or the wait would close a simple deadlock. After a
    /// refusal the session holds what it held. There is no timeout: a time limit is this call, then `poll`,
    /// and an `ask_cancel` of another session or `cancel` when it is over.
    pub fn start<R: Wait>(
        self,
        rt: &R,
        tag: Tag,
        mode: Mode,
        owner: Owner,
    ) -> Started<Self, OwnWaiting<T, B>>
        ensures asked { HasAsked B.seat B.view B.stack B.quiet Kind.Waiting self tag mode owner
            begun.AlreadyHeld (answer_started result) (board_started result) (uses_started result)
            (owned_started result) }
        ensures room_first { IfErr (answer_started result)
            (IsAfterRoom (HadRoom T.content T.prepared (B.seat self.board).number tag mode
            (B.view (board_started result)).trace)) }
        ensures steps { Begins Kind.Waiting (B.seat self.board) self.owned (B.view self.board) self.uses tag mode
            (answer_started result) (B.view (board_started result)) (uses_started result) }
        ensures entries { IfOk (answer_started result) (λ answer. (owned_started result).entries
            ≡ entries_begun answer self.owned.entries tag mode owner) }
        ensures same { UnlessQueued result (λ session. IsSame B.seat B.view B.stack self session) }
        ensures waiting { IfQueued result (λ waiting.
            HasBegun B.seat B.view B.stack self tag mode owner waiting) }
    {
        let OwnSession {
            mut board,
            mut own,
            parts,
        } = self;
        match acquire(rt, &mut board, &mut own, tag, mode, owner, Kind::Waiting) {
            Ok(Begun::Granted) => Started::Granted(OwnSession { board, own, parts }),
            Ok(Begun::AlreadyHeld) => Started::AlreadyHeld(OwnSession { board, own, parts }),
            Ok(Begun::Queued) => Started::Queued(OwnWaiting {
                board,
                own,
                tag,
                mode,
                owner,
                parts,
            }),
            Err(refusal) => Started::Refused(OwnSession { board, own, parts }, refusal),
        }
    }

    /// Takes `tag` in `mode` for `owner`, and waits for it where it must (`LockAcquire` in lock.c without
    /// `dontWait`): `start`, and `wait` where that queued the request. Refused where one of these two is;
    /// after a refusal the wait is over, and the session holds what it held.
    pub fn lock<R: Wait>(self, rt: &R, tag: Tag, mode: Mode, owner: Owner) -> Locked<Self>
        ensures asked { HasAsked B.seat B.view B.stack B.quiet Kind.Waiting self tag mode owner
            Acquired.AlreadyHeld (answer_locked result) (session_locked result).board
            (session_locked result).uses (session_locked result).owned }
        ensures room_first { IfErr (answer_locked result)
            (IsAfterRoom (HadRoom T.content T.prepared (B.seat self.board).number tag mode
            (B.view (session_locked result).board).trace)) }
        ensures steps { Locks (B.seat self.board) self.owned (B.view self.board) self.uses tag mode
            (answer_locked result) (B.view (session_locked result).board) (session_locked result).uses }
        ensures entries { OnOk (answer_locked result) ((session_locked result).owned.entries
            ≡ with_one_more self.owned.entries tag mode owner) }
        ensures same { IsSame B.seat B.view B.stack self (session_locked result) }
    {
        match self.start(rt, tag, mode, owner) {
            Started::Granted(session) => Locked::Granted(session),
            Started::AlreadyHeld(session) => Locked::AlreadyHeld(session),
            Started::Refused(session, refusal) => Locked::Refused(session, refusal),
            Started::Queued(waiting) => match waiting.wait(rt) {
                Waited::Granted(session) => Locked::Granted(session),
                Waited::Refused(session, refusal) => Locked::Refused(session, refusal),
            },
        }
    }

    /// Takes `tag` in `mode` for `owner` as `lock` does, on a session that is lent, so that `?` works at its
    /// answer (`LockAcquire` in lock.c without `dontWait`). The session waits where it must, and can make no
    /// other call meanwhile.
    pub fn acquire<R: Wait>(
        &mut self,
        rt: &R,
        tag: Tag,
        mode: Mode,
        owner: Owner,
    ) -> Result<Acquired, Refusal>
        ensures asked { HasAsked B.seat B.view B.stack B.quiet Kind.Waiting self.old tag mode owner
            Acquired.AlreadyHeld result self.new.board self.new.uses self.new.owned }
        ensures room_first { IfErr result (IsAfterRoom (HadRoom T.content T.prepared (B.seat self.old.board).number
            tag mode (B.view self.new.board).trace)) }
        ensures steps { Locks (B.seat self.old.board) self.old.owned (B.view self.old.board) self.old.uses tag mode
            result (B.view self.new.board) self.new.uses }
        ensures entries { OnOk result (self.new.owned.entries
            ≡ with_one_more self.old.owned.entries tag mode owner) }
        ensures same { IsSame B.seat B.view B.stack self.old self.new }
    {
        waiting::lock(rt, &mut self.board, &mut self.own, tag, mode, owner)
    }

    /// Whether somebody awaits `tag` in a mode that conflicts with `mode` (`LockHasWaiters` in lock.c).
    /// Refused where the session hasn't `mode` on `tag`; nothing has changed after a refusal.
    pub fn has_waiters<R: Wait>(&mut self, rt: &R, tag: Tag, mode: Mode) -> Result<bool, Refusal>
        // What the call answers.
        ensures not_held { IsErrOf result Refusal.NotHeld ↔ (has_entry self.old.owned.entries tag mode ≡ false) }
        ensures no_other { IsOkUnless result Refusal.NotHeld }
        ensures looked { IfOk result (λ is_awaited. LooksForWaiters (B.view self.old.board).trace tag mode is_awaited
            (B.view self.new.board).trace) }
        ensures quiet { B.quiet self.new.board ≡ B.quiet self.old.board }

        // What holds after the call.
        ensures untouched { OnErr result (self.new.board ≡ self.old.board) }
        ensures owned { self.new.owned ≡ self.old.owned }
        ensures uses { self.new.uses ≡ self.old.uses }
        ensures same { IsSame B.seat B.view B.stack self.old self.new }
    {
        waiting::has_waiters(rt, &mut self.board, &self.own, tag, mode)
    }

    /// Asks `other` to cancel its wait, and wakes it where it waits (`pg_cancel_backend` in signalfuncs.c).
    /// Where `other` doesn't wait the request leaves nothing behind; a session that asks itself doesn't wait.
    /// An asked session that is granted first keeps the grant. Where no session of the manager can have the
    /// number `other` the answer is `NotWaiting`, and the call makes no step.
    pub fn ask_cancel(&mut self, other: SessionId) -> Asked
        ensures asked { AsksOneOf (B.seat self.old.board).limit (B.view self.old.board) other result
            (B.view self.new.board) }
        ensures untouched { (B.seat self.old.board).limit ≤ other → self.new.board ≡ self.old.board }
        ensures quiet { B.quiet self.new.board ≡ B.quiet self.old.board }
        ensures oneself { other ≡ (B.seat self.old.board).number → result ≡ Asked.NotWaiting }
        ensures owned { self.new.owned ≡ self.old.owned }
        ensures uses { self.new.uses ≡ self.old.uses }
        ensures same { IsSame B.seat B.view B.stack self.old self.new }
    {
        waiting::ask_cancel(&mut self.board, other)
    }
}

impl<T: PartTable, B: Board<T>> OwnWaiting<T, B> {
    /// Looks at the session's wait once (`ProcSleep` in proc.c where it reads `waitStatus`): the wait was
    /// granted, and has ended, or it goes on, and another session may have asked to cancel it.
    pub fn poll(self) -> Polled<OwnSession<T, B>, Self>
        // What the call answers.
        ensures polled { Polls (B.seat self.board).number (B.view self.board).trace (answer_polled result)
            (B.view (board_polled result)).trace }
        ensures quiet { B.quiet (board_polled result) ≡ B.quiet self.board }

        // What holds after the call.
        ensures entries { IfGranted result (λ session. session.owned.entries
            ≡ with_one_more self.owned.entries self.tag self.mode self.owner) }
        ensures same { IfGranted result (λ session. HasEnded B.seat B.view B.stack self session) }
        ensures waiting { UnlessGranted result (λ waiting. WaitsOn B.seat B.view B.stack self waiting) }
    {
        let OwnWaiting {
            mut board,
            mut own,
            tag,
            mode,
            owner,
            parts,
        } = self;
        match waiting::poll(&mut board, &mut own, tag, mode, owner) {
            Looked::Granted => Polled::Granted(OwnSession { board, own, parts }),
            Looked::Still => Polled::Still(OwnWaiting {
                board,
                own,
                tag,
                mode,
                owner,
                parts,
            }),
            Looked::CancelAsked => Polled::CancelAsked(OwnWaiting {
                board,
                own,
                tag,
                mode,
                owner,
                parts,
            }),
        }
    }

    /// Ends the session's wait (`LockErrorCleanup` in proc.c): the wait is taken out of the wait queue, and
    /// the waits that may go on after that are granted; or it turns out that it was granted before, and the
    /// session has the mode.
    pub fn cancel<R: Wait>(self, rt: &R) -> Cancelled<OwnSession<T, B>>
        // What the call answers.
        ensures steps { Cancels (B.seat self.board).number (B.view self.board).trace self.tag self.mode
            (was_granted result) (B.view (session_cancelled result).board).trace }
        ensures quiet { B.quiet (session_cancelled result).board ≡ B.quiet self.board }

        // What holds after the call.
        ensures entries { was_granted result ≡ true → (session_cancelled result).owned.entries
            ≡ with_one_more self.owned.entries self.tag self.mode self.owner }
        ensures same_owned { was_granted result ≡ false →
            (session_cancelled result).owned ≡ self.owned }
        ensures same { HasEnded B.seat B.view B.stack self (session_cancelled result) }
    {
        let OwnWaiting {
            mut board,
            mut own,
            tag,
            mode,
            owner,
            parts,
        } = self;
        if waiting::cancel(rt, &mut board, &mut own, tag, mode, owner) {
            return Cancelled::WasGranted(OwnSession { board, own, parts });
        }
        Cancelled::Removed(OwnSession { board, own, parts })
    }

    /// Waits until the session's wait is granted, or another session asks to cancel it (`ProcSleep` in
    /// proc.c, with `LockErrorCleanup` where it is interrupted). The only refusal is `Cancelled`: the session
    /// is out of the wait queue after it, and holds what it held. Where the session was asked to cancel, but
    /// the grant was first, it has the mode.
    pub fn wait<R: Wait>(self, rt: &R) -> Waited<OwnSession<T, B>>
        // What the call answers.
        ensures cancelled { IsOkUnless (answer_waited result) Refusal.Cancelled }
        ensures steps { Waits (B.seat self.board).number (B.view self.board).trace self.tag self.mode
            (answer_waited result) (B.view (session_waited result).board).trace }
        ensures quiet { B.quiet (session_waited result).board ≡ B.quiet self.board }

        // What holds after the call.
        ensures entries { OnOk (answer_waited result) ((session_waited result).owned.entries
            ≡ with_one_more self.owned.entries self.tag self.mode self.owner) }
        ensures same_owned { OnErr (answer_waited result) ((session_waited result).owned ≡ self.owned) }
        ensures same { HasEnded B.seat B.view B.stack self (session_waited result) }
    {
        let OwnWaiting {
            mut board,
            mut own,
            tag,
            mode,
            owner,
            parts,
        } = self;
        match waiting::wait(rt, &mut board, &mut own, tag, mode, owner) {
            Ok(()) => Waited::Granted(OwnSession { board, own, parts }),
            Err(refusal) => Waited::Refused(OwnSession { board, own, parts }, refusal),
        }
    }
}
