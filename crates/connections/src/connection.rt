//! A session of the manager that its type names.

ghost use Rattle.std.specs.Prelude.{◌≡◌};
ghost use Rattle.lock_manager.specs.Crews.{IsOf};

use crate::names::ManagerName;
use lock_manager::{Board, OwnSession, Part, SessionLife};
use std::marker::PhantomData;

/// A session of the manager that `M` names, which a connection has from its `Pool`. The calls are those of
/// `session`. A function that borrows, takes or lends a connection has nothing to say of whose session it is:
/// the type says it. The compiler refuses code that lets a connection go: it goes back to its pool, or is
/// given up for its session.
pub struct Connection<B: Board<Part>, M: ManagerName> {
    pub session: OwnSession<Part, B>,
    life: u64,
    of: PhantomData<M>,
    ghost is: { IsOf B.seat M.manager session },
}

impl<B: Board<Part>, M: ManagerName> Connection<B, M> {
    /// A connection that has `session`, of the manager that `M` names, in its life `life`: for a pool, and
    /// for a program that opens its sessions itself.
    pub fn new(session: OwnSession<Part, B>, life: u64) -> Self
        requires own { IsOf B.seat M.manager session }
        ensures session { result.session ≡ session }
        ensures life { result.life ≡ life }
    {
        Connection {
            session,
            life,
            of: PhantomData,
        }
    }

    /// The session of the connection, for which the connection is given up. It is closed at its desk.
    pub fn into_session(self) -> OwnSession<Part, B>
        ensures own { IsOf B.seat M.manager result }
        ensures session { result ≡ self.session }
    {
        let Connection {
            session,
            life: _,
            of: _,
        } = self;
        session
    }

    /// The number of the session, with the life that this connection has: what others cancel its waits by.
    pub fn life(&self) -> SessionLife
        ensures number { result.number ≡ (B.seat self.now.session.board).number }
        ensures life { result.life ≡ self.now.life }
    {
        SessionLife {
            number: self.session.id(),
            life: self.life,
        }
    }
}
