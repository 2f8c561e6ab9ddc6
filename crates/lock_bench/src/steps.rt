//! The loops over a session's calls that are timed.

use crate::acts::Act;
use crate::doors::{
    acquire, commit, count_blockers, finds_counted, is_awaited, lists, try_lock, unlock,
};
use crate::keys::Key;
use crate::plain::work;
use crate::round::{Round, Taken};
use crate::times::{now, used};
use connections::{Connection, ManagerName};
use crossbeam_utils::Backoff;
use lock_manager::{Board, Part};
use modes_core::{Mode, Owner, SessionId, Tag};
use std::sync::Wait;
use std::time::{Clock, CpuClock};

/// How often a session looks at most whether the other one awaits what it has.
const LOOKS: u32 = 10_000_000;

/// Goes `laps` times over `keys`: asks for each by `connection` for `owner`, and unlocks what was granted.
/// Answers how much that was.
fn lock_pairs<B: Board<Part>, M: ManagerName, R: Wait>(
    rt: &R,
    connection: &mut Connection<B, M>,
    keys: &[Key],
    owner: Owner,
    laps: u32,
) -> u64 {
    let mut granted = 0u64;
    'laps: for _ in 0..laps {
        'keys: for (tag, mode) in keys {
            if try_lock(rt, connection, *tag, *mode, owner).is_ok() {
                let unlocked = unlock(rt, connection, *tag, *mode, owner);
                granted = granted.wrapping_add(u64::from(unlocked.is_ok()));
            }
        }
    }
    granted
}

/// Locks each of `keys` by `connection` until the next commit. Answers how many were granted.
pub fn lock_all<B: Board<Part>, M: ManagerName, R: Wait>(
    rt: &R,
    connection: &mut Connection<B, M>,
    keys: &[Key],
) -> u64 {
    let mut granted = 0u64;
    'keys: for (tag, mode) in keys {
        let answer = try_lock(rt, connection, *tag, *mode, Owner::Transaction);
        granted = granted.wrapping_add(u64::from(answer.is_ok()));
    }
    granted
}

/// Goes `laps` times over `keys`, and asks for each by a fast-path slot of `connection` alone, for `owner`.
/// Answers how often a strong lock was counted.
fn count_refused_slots<B: Board<Part>, M: ManagerName>(
    connection: &mut Connection<B, M>,
    keys: &[Key],
    owner: Owner,
    laps: u32,
) -> u64 {
    let mut counted = 0u64;
    'laps: for _ in 0..laps {
        'keys: for (tag, mode) in keys {
            let is_counted = finds_counted(connection, *tag, *mode, owner);
            counted = counted.wrapping_add(u64::from(is_counted));
        }
    }
    counted
}

/// Locks all of `keys` by `connection` and commits, `laps` times. Of the processor's time the commits
/// alone are taken, where `is_alone`.
fn lock_and_commit<B: Board<Part>, M: ManagerName, R: Wait + CpuClock>(
    rt: &R,
    connection: &mut Connection<B, M>,
    keys: &[Key],
    laps: u32,
    is_alone: bool,
) -> Taken {
    let mut taken = Taken::none();
    'laps: for _ in 0..laps {
        taken = taken.counting(lock_all(rt, connection, keys));
        if is_alone {
            let from = used(rt);
            commit(rt, connection);
            taken = taken.using(used(rt).saturating_sub(from));
        } else {
            commit(rt, connection);
        }
    }
    taken
}

/// Lists all holds by `connection`, `laps` times for each of `keys`. A listing counts that finds no fewer
/// than `held` in the table.
fn list_holds<B: Board<Part>, M: ManagerName, R: Wait + Clock>(
    rt: &R,
    connection: &mut Connection<B, M>,
    keys: &[Key],
    laps: u32,
    held: usize,
) -> Taken {
    let mut taken = Taken::none();
    'laps: for _ in 0..laps {
        'keys: for _ in keys {
            let from = now(rt);
            let is_listed = lists(rt, connection, held);
            let waited = now(rt).saturating_sub(from);
            taken = taken.after(waited, is_listed);
        }
    }
    taken
}

/// Goes `laps` times over `keys`: takes each by `connection` for `owner`, waiting where it must, works for
/// `nanos` nanoseconds, and unlocks it.
fn hold_each<B: Board<Part>, M: ManagerName, R: Wait + Clock>(
    rt: &R,
    connection: &mut Connection<B, M>,
    keys: &[Key],
    owner: Owner,
    laps: u32,
    nanos: u64,
) -> Taken {
    let mut taken = Taken::none();
    'laps: for _ in 0..laps {
        'keys: for (tag, mode) in keys {
            let from = now(rt);
            let is_granted = acquire(rt, connection, *tag, *mode, owner);
            taken = taken.after(now(rt).saturating_sub(from), is_granted);
            work(rt, nanos);
            let _ = unlock(rt, connection, *tag, *mode, owner);
        }
    }
    taken
}

/// Looks by `connection`, which has `mode` on `tag`, whether the other session awaits it, until it does
/// or has ended its part of `round`.
fn see_awaited<B: Board<Part>, M: ManagerName, R: Wait>(
    rt: &R,
    connection: &mut Connection<B, M>,
    tag: Tag,
    mode: Mode,
    round: &Round<'_>,
) {
    let backoff = Backoff::new();
    'looks: for _ in 0..LOOKS {
        if is_awaited(rt, connection, tag, mode) || round.has_ended() {
            return;
        }
        backoff.snooze();
    }
}

/// Takes `tag` in `mode` by `connection` in `round`, over and over, and unlocks it as soon as the other
/// session awaits it. Answers how often it was granted.
fn take_turns<B: Board<Part>, M: ManagerName, R: Wait>(
    rt: &R,
    connection: &mut Connection<B, M>,
    tag: Tag,
    mode: Mode,
    round: &Round<'_>,
) -> u64 {
    let (owner, turns) = (round.job.owner, round.job.laps);
    let mut granted = 0u64;
    'turns: for _ in 0..turns {
        if acquire(rt, connection, tag, mode, owner) {
            granted = granted.wrapping_add(1);
            see_awaited(rt, connection, tag, mode, round);
            let _ = unlock(rt, connection, tag, mode, owner);
        }
    }
    granted
}

/// Asks by `connection`, over and over, who is in the way of the second session, which waits on `tag`. A look
/// counts that finds one.
fn look_at_blockers<B: Board<Part>, M: ManagerName, R: Wait + CpuClock>(
    rt: &R,
    connection: &mut Connection<B, M>,
    tag: Tag,
    laps: u32,
) -> Taken {
    let other = SessionId::new(1).unwrap_or_default();
    let mut found = 0u64;
    let from = used(rt);
    'laps: for _ in 0..laps {
        let count = count_blockers(rt, connection, tag, other);
        found = found.wrapping_add(u64::from(count == 1));
    }
    let nanos = used(rt).saturating_sub(from);
    Taken::none().counting(found).using(nanos)
}

/// Makes by `connection`, which has the number `number` in `round`, the steps of two sessions that wait
/// for each other: turns at what they share, or looks of the first one at who is in the way of the
/// second.
fn wait_for_each_other<B: Board<Part>, M: ManagerName, R: Wait + CpuClock>(
    rt: &R,
    connection: &mut Connection<B, M>,
    number: usize,
    round: &Round<'_>,
) -> Taken {
    let Some((tag, mode)) = round.job.keys_of(number).first() else {
        return Taken::none();
    };
    if let Act::Turns = round.job.act {
        return Taken::none().counting(take_turns(rt, connection, *tag, *mode, round));
    }
    if number > 0 {
        let _ = acquire(rt, connection, *tag, *mode, Owner::Transaction);
        return Taken::none();
    }
    see_awaited(rt, connection, *tag, *mode, round);
    let taken = look_at_blockers(rt, connection, *tag, round.job.laps);
    let _ = unlock(rt, connection, *tag, *mode, Owner::Transaction);
    taken
}

/// Makes the steps of `round` that the session with the number `number` has, by `connection`.
pub fn make_steps<B: Board<Part>, M: ManagerName, R: Wait + Clock + CpuClock>(
    rt: &R,
    connection: &mut Connection<B, M>,
    number: usize,
    round: &Round<'_>,
) -> Taken {
    let job = round.job;
    let (keys, owner, laps) = (job.keys_of(number), job.owner, job.laps);
    let granted = match job.act {
        Act::Ten | Act::Hundred | Act::AllSlots => return lock_and_commit(
            rt, connection, keys, laps, false,
        ),
        Act::Commit => return lock_and_commit(rt, connection, keys, laps, true),
        Act::List | Act::ListHeld => return list_holds(rt, connection, keys, laps, job.held()),
        Act::Hold | Act::HoldOwn => return hold_each(rt, connection, keys, owner, laps, job.work),
        Act::Turns | Act::Blockers => return wait_for_each_other(rt, connection, number, round),
        Act::BySlot => count_refused_slots(connection, keys, owner, laps),
        _ => lock_pairs(rt, connection, keys, owner, laps),
    };
    Taken::none().counting(granted)
}
