//! A connection that waits for a lock.

ghost use Rattle.std.specs.Prelude.{◌≡◌, true, false, IfOk, OnOk, OnErr, IsOkUnless};
ghost use Rattle.local_locks.specs.Owned.{with_one_more};
ghost use Rattle.wait_queue.specs.declared.requests.Kind.TheVariants as kind;
ghost use Rattle.lock_manager.specs.declared.requests.Begun.TheVariants as begun;
ghost use Rattle.lock_manager.specs.Acquires.{AnswersByOwned, Begins, entries_begun};
ghost use Rattle.lock_manager.specs.Sessions.{IsSame};
ghost use Rattle.lock_manager.specs.Waiting.{Cancels, Polls, Waits};
ghost use Rattle.lock_manager.specs.WaitingSessions.{answer_started, board_started, owned_started, uses_started, UnlessQueued, IfQueued};
ghost use Rattle.lock_manager.specs.WaitingSessions.{answer_polled, board_polled, IfGranted, UnlessGranted};
ghost use Rattle.lock_manager.specs.WaitingSessions.{answer_waited, session_waited, was_granted, session_cancelled};
ghost use Rattle.lock_manager.specs.WaitingSessions.{HasBegun, HasEnded, WaitsOn};
ghost use Rattle.connections.specs.Waits.{polled_with, started_with};

use crate::connection::Connection;
use crate::names::ManagerName;
use lock_manager::{
    Board, Cancelled, Mode, OwnWaiting, Owner, Part, Polled, Refusal, SessionLife, Started, Tag,
    Waited,
};
use std::marker::PhantomData;
use std::sync::Wait;

/// A session that waits, of the manager that `M` names, with the life that its connection has. It is given up
/// only to one of these calls.
pub struct WaitingConnection<B: Board<Part>, M: ManagerName> {
    pub waiting: OwnWaiting<Part, B>,
    life: u64,
    of: PhantomData<M>,
    ghost is: { (B.seat waiting.board).table ≡ M.manager.table },
}

impl<B: Board<Part>, M: ManagerName> Connection<B, M> {
    /// Takes `tag` in `mode` for `owner`, or begins to wait for it (`OwnSession::start`).
    pub fn start<R: Wait>(
        self,
        rt: &R,
        tag: Tag,
        mode: Mode,
        owner: Owner,
    ) -> Started<Self, WaitingConnection<B, M>>
        // What the call answers.
        ensures answers { AnswersByOwned self.session.owned tag mode owner begun.AlreadyHeld true (answer_started result) }
        ensures steps { let plain = started_with (λ its. its.session) (λ its. its.waiting) result in
            Begins kind.Waiting (B.seat self.session.board) self.session.owned (B.view self.session.board) self.session.uses
            tag mode (answer_started plain) (B.view (board_started plain)) (uses_started plain) }

        // What holds after the call.
        ensures entries { let plain = started_with (λ its. its.session) (λ its. its.waiting) result in
            IfOk (answer_started plain) (λ answer. (owned_started plain).entries
            ≡ entries_begun answer self.session.owned.entries tag mode owner) }
        ensures same_entries { let plain = started_with (λ its. its.session) (λ its. its.waiting) result in
            OnErr (answer_started plain) ((owned_started plain).entries ≡ self.session.owned.entries) }
        ensures same { UnlessQueued result (λ its. IsSame B.seat B.view B.stack self.session its.session) }
        ensures waiting { IfQueued result (λ its.
            HasBegun B.seat B.view B.stack self.session tag mode owner its.waiting) }
        ensures life { UnlessQueued result (λ its. its.life ≡ self.life) }
        ensures waiting_life { IfQueued result (λ its. its.life ≡ self.life) }
    {
        let life = self.life().life;
        match self.into_session().start(rt, tag, mode, owner) {
            Started::Granted(session) => Started::Granted(Connection::new(session, life)),
            Started::AlreadyHeld(session) => Started::AlreadyHeld(Connection::new(session, life)),
            Started::Refused(session, refusal) => {
                Started::Refused(Connection::new(session, life), refusal)
            }
            Started::Queued(waiting) => Started::Queued(WaitingConnection::new(waiting, life)),
        }
    }
}

impl<B: Board<Part>, M: ManagerName> WaitingConnection<B, M> {
    /// A connection whose session waits, as `waiting`, in its life `life`.
    fn new(waiting: OwnWaiting<Part, B>, life: u64) -> Self
        requires own { (B.seat waiting.board).table ≡ M.manager.table }
        ensures waiting { result.waiting ≡ waiting }
        ensures life { result.life ≡ life }
    {
        WaitingConnection {
            waiting,
            life,
            of: PhantomData,
        }
    }

    /// The number of the session, with the life that this connection has.
    pub fn life(&self) -> SessionLife
        ensures number { result.number ≡ (B.seat self.now.waiting.board).number }
        ensures life { result.life ≡ self.now.life }
    {
        SessionLife {
            number: self.waiting.id(),
            life: self.life,
        }
    }

    /// Looks at the wait once (`OwnWaiting::poll`).
    pub fn poll(self) -> Polled<Connection<B, M>, Self>
        // What the call answers.
        ensures polled { let plain = polled_with (λ its. its.session) (λ its. its.waiting) result in
            Polls (B.seat self.waiting.board).number (B.view self.waiting.board).trace (answer_polled plain)
            (B.view (board_polled plain)).trace }

        // What holds after the call.
        ensures entries { IfGranted result (λ its. its.session.owned.entries
            ≡ with_one_more self.waiting.owned.entries self.waiting.tag self.waiting.mode self.waiting.owner) }
        ensures same { IfGranted result (λ its. HasEnded B.seat B.view B.stack self.waiting its.session) }
        ensures waiting { UnlessGranted result (λ its. WaitsOn B.seat B.view B.stack self.waiting its.waiting) }
        ensures life { IfGranted result (λ its. its.life ≡ self.life) }
        ensures waiting_life { UnlessGranted result (λ its. its.life ≡ self.life) }
    {
        let WaitingConnection {
            waiting,
            life,
            of: _,
        } = self;
        match waiting.poll() {
            Polled::Granted(session) => Polled::Granted(Connection::new(session, life)),
            Polled::Still(waiting) => Polled::Still(WaitingConnection::new(waiting, life)),
            Polled::CancelAsked(waiting) => {
                Polled::CancelAsked(WaitingConnection::new(waiting, life))
            }
        }
    }

    /// Waits until the wait is granted, or another session asks to cancel it (`OwnWaiting::wait`).
    pub fn wait<R: Wait>(self, rt: &R) -> Waited<Connection<B, M>>
        // What the call answers.
        ensures cancelled { IsOkUnless (answer_waited result) Refusal.Cancelled }
        ensures steps { Waits (B.seat self.waiting.board).number (B.view self.waiting.board).trace self.waiting.tag
            self.waiting.mode (answer_waited result) (B.view (session_waited result).session.board).trace }

        // What holds after the call.
        ensures entries { OnOk (answer_waited result) ((session_waited result).session.owned.entries
            ≡ with_one_more self.waiting.owned.entries self.waiting.tag self.waiting.mode self.waiting.owner) }
        ensures same_owned { OnErr (answer_waited result)
            ((session_waited result).session.owned ≡ self.waiting.owned) }
        ensures same { HasEnded B.seat B.view B.stack self.waiting (session_waited result).session }
        ensures life { (session_waited result).life ≡ self.life }
    {
        let WaitingConnection {
            waiting,
            life,
            of: _,
        } = self;
        match waiting.wait(rt) {
            Waited::Granted(session) => Waited::Granted(Connection::new(session, life)),
            Waited::Refused(session, refusal) => {
                Waited::Refused(Connection::new(session, life), refusal)
            }
        }
    }

    /// Ends the wait (`OwnWaiting::cancel`).
    pub fn cancel<R: Wait>(self, rt: &R) -> Cancelled<Connection<B, M>>
        // What the call answers.
        ensures steps { Cancels (B.seat self.waiting.board).number (B.view self.waiting.board).trace self.waiting.tag
            self.waiting.mode (was_granted result) (B.view (session_cancelled result).session.board).trace }

        // What holds after the call.
        ensures entries { was_granted result ≡ true → (session_cancelled result).session.owned.entries
            ≡ with_one_more self.waiting.owned.entries self.waiting.tag self.waiting.mode self.waiting.owner }
        ensures same_owned { was_granted result ≡ false →
            (session_cancelled result).session.owned ≡ self.waiting.owned }
        ensures same { HasEnded B.seat B.view B.stack self.waiting (session_cancelled result).session }
        ensures life { (session_cancelled result).life ≡ self.life }
    {
        let WaitingConnection {
            waiting,
            life,
            of: _,
        } = self;
        match waiting.cancel(rt) {
            Cancelled::Removed(session) => Cancelled::Removed(Connection::new(session, life)),
            Cancelled::WasGranted(session) => Cancelled::WasGranted(Connection::new(session, life)),
        }
    }
}
