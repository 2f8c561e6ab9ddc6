//! Waits with a limit of time, as the server has with `lock_timeout`.

use connections::{Connection, ManagerName};
use lock_manager::{Acquired, Board, Mode, Owner, Part, Refusal, Tag};
use std::sync::Wait;
use std::time::{Clock, Duration, Instant};
use std::{io, thread};

/// How many milliseconds a wait with a limit of time sleeps between two looks.
const PAUSE: u64 = 1;

/// Takes `mode` on `tag` for the transaction of `connection`, and waits for it until `timeout` is over. Then
/// the wait is given up, and the answer is `None`. Where the grant came first after all, the connection has
/// the mode, and the answer says so.
pub fn take_in_time<B: Board<Part>, M: ManagerName, R: Wait + Clock>(
    rt: &R,
    connection: &mut Connection<B, M>,
    tag: Tag,
    mode: Mode,
    timeout: Duration,
) -> Result<Option<Acquired>, Refusal> {
    let begun = Instant::now(rt);
    connection
        .session
        .acquire_while(rt, tag, mode, Owner::Transaction, || {
            thread::sleep(rt, Duration::from_millis(PAUSE));
            is_within(rt, &begun, timeout)
        })
}

/// Whether less than `timeout` has gone by since `begun`, by the clock of `rt`. Where the clock failed, no
/// time is left.
fn is_within<R: Clock>(rt: &R, begun: &io::Result<Instant>, timeout: Duration) -> bool {
    let Ok(begun) = begun else {
        return false;
    };
    match begun.elapsed(rt) {
        Ok(waited) => waited < timeout,
        Err(_) => false,
    }
}
