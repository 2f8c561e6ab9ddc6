//! Sessions that play side by side, each in a thread of its own.

use connections::{Connection, ManagerName};
use lock_manager::{Board, Part};
use std::process::Abort;
use std::sync::Wait;
use std::thread::{Threads, for_each_mut};
use std::time::Clock;

/// What threads with a session each have together, and what each of them does with its session.
pub trait Play {
    /// Plays the part of `connection`.
    fn play<B: Board<Part>, M: ManagerName, R: Abort + Clock + Wait>(
        &self,
        rt: &R,
        connection: &mut Connection<B, M>,
    );
}

/// Has each of `connections` play its part of `play`, in a thread of its own.
pub fn play_side_by_side<
    P: Play + Sync,
    B: Board<Part> + Send,
    M: ManagerName + Send,
    R: Abort + Clock + Threads + Wait + Sync,
>(rt: &R, play: &P, connections: &mut [Connection<B, M>]) {
    let threads = connections.len().max(1);
    for_each_mut(
        rt,
        connections,
        threads,
        &|_, connection| play.play(rt, connection),
    );
}
