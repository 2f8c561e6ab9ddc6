//! The shut-down of the bank, in the middle of its work.

use crate::watch::Watch;
use connections::{Connection, ManagerName};
use lock_manager::{Board, Part};
use std::sync::Wait;
use std::thread;
use std::time::{Clock, Duration};

/// How many milliseconds a shut-down sleeps between two times that it asks all who wait to cancel.
const PAUSE: u64 = 1;

/// Shuts down as a server does, with `connection`: by `watch` nobody begins another transaction from then on,
/// and all who wait are asked to cancel, again and again, until nobody works any more. So each wait ends that
/// is going on or begins yet: it is granted, or cancelled, and its transaction aborts. Who doesn't wait ends
/// its transaction as ever.
pub fn shut_down<B: Board<Part>, M: ManagerName, R: Wait + Clock>(
    rt: &R,
    watch: &Watch,
    connection: &mut Connection<B, M>,
) {
    watch.close();
    'asks: for _ in rt.forever() {
        let _waited = connection.session.ask_all_to_cancel();
        if watch.is_over() {
            return;
        }
        thread::sleep(rt, Duration::from_millis(PAUSE));
    }
}
