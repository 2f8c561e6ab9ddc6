//! Two sessions of one manager.

use super::audits::close_counted;
use super::desk::{append, open};
use connections::{Connection, DeskOf, ManagerName};
use lock_manager::{Board, Desk, OwnSession, Part};
use std::alloc::Global;
use std::process::Abort;
use std::sync::Wait;

pub struct Pair<B: Board<Part>, M: ManagerName> {
    pub first: Connection<B, M>,
    pub second: Connection<B, M>,
}

impl<B: Board<Part>, M: ManagerName> Pair<B, M> {
    /// Opens two sessions at `desk`.
    pub fn open<D: Desk<OwnSession<Part, B>>, R: Abort>(
        rt: &R,
        desk: &mut DeskOf<B, D, M>,
    ) -> Self {
        let first = open(rt, desk);
        let second = open(rt, desk);
        Pair { first, second }
    }

    /// Has the two sessions meet at `desk`: none of their holds conflict.
    pub fn meet<D: Desk<OwnSession<Part, B>>>(self, desk: &DeskOf<B, D, M>) -> Self {
        let Pair { mut first, second } = self;
        let second = desk.meet(&mut first, second);
        Pair { first, second }
    }

    /// Closes both sessions at `desk`, after an audit that counts what they have. No other session is open.
    pub fn close<D: Desk<OwnSession<Part, B>>, R: Abort + Wait>(
        self,
        rt: &R,
        alloc: Global,
        desk: &mut DeskOf<B, D, M>,
    ) {
        let connections = self.into_list(rt, alloc);
        close_counted(rt, alloc, desk, connections);
    }

    /// The two sessions as a list.
    pub fn into_list<R: Abort>(self, rt: &R, alloc: Global) -> Vec<Connection<B, M>> {
        let Pair { first, second } = self;
        let mut connections = Vec::new(alloc);
        append(rt, &mut connections, first);
        append(rt, &mut connections, second);
        connections
    }
}
