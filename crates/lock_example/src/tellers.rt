//! What the bank's threads do: transfers, each a transaction of three locks, and now and then an alteration
//! of the table.

ghost use Rattle.std.specs.Prelude.{◌<◌};

use crate::bank::{ACCOUNTS, Bank, MANY, account};
use crate::limits::take_in_time;
use crate::watch::Watch;
use connections::{Connection, ManagerName};
use lock_manager::{Board, Mode, Owner, Part, Refusal, Tag};
use std::sync::Wait;
use std::thread;
use std::time::{Clock, Duration};

/// How many times a teller tries a transfer at most, as long as it is refused a lock.
const ATTEMPTS: u32 = 1_000;

/// How many milliseconds the migration waits for the table before it gives up and tries later.
const PATIENCE: u64 = 20;

/// Between which accounts a transfer goes, and how much of it.
#[derive(Clone, Copy)]
struct Transfer {
    from: usize,
    to: usize,
    amount: u64,
    ghost from_exists: { from < 8 },
    ghost to_exists: { to < 8 },
}

impl Transfer {
    /// The transfer of `round`. Its two accounts differ. Two rounds may have one pair of accounts in opposite
    /// directions.
    fn of(round: u32) -> Transfer {
        let from = (round % 8) as usize;
        let step = 1 + (round / 8 % 7) as usize;
        Transfer {
            from,
            to: (from + step) % MANY,
            amount: u64::from(round % 90),
        }
    }
}

/// Makes as many transfers with `connection` as `transfers` says, one after another, unless the bank shuts
/// down before.
pub fn serve<B: Board<Part>, M: ManagerName, R: Wait>(
    rt: &R,
    bank: &Bank,
    watch: &Watch,
    connection: &mut Connection<B, M>,
    transfers: u32,
) {
    let first = u32::from(connection.session.id().number()) * 5;
    'rounds: for round in 0..transfers {
        if watch.is_closed() {
            break;
        }
        transfer_at_last(
            rt,
            bank,
            watch,
            connection,
            Transfer::of(first.wrapping_add(round)),
        );
    }
}

/// Makes `transfer`, which is tried again where it was refused a lock, unless the bank shuts down.
fn transfer_at_last<B: Board<Part>, M: ManagerName, R: Wait>(
    rt: &R,
    bank: &Bank,
    watch: &Watch,
    connection: &mut Connection<B, M>,
    transfer: Transfer,
) {
    'attempts: for _ in 0..ATTEMPTS {
        if has_transferred(rt, bank, watch, connection, transfer) || watch.is_closed() {
            return;
        }
        thread::yield_now();
    }
}

/// Makes `transfer` in one transaction of `connection`, and answers whether it was made: the transaction
/// commits where all locks were had, otherwise it aborts, and nothing was paid.
fn has_transferred<B: Board<Part>, M: ManagerName, R: Wait>(
    rt: &R,
    bank: &Bank,
    watch: &Watch,
    connection: &mut Connection<B, M>,
    transfer: Transfer,
) -> bool {
    let locked = lock_for(rt, watch, connection, transfer);
    if locked.is_ok() {
        bank.pay(transfer.from, transfer.to, transfer.amount);
    }
    end(rt, connection, locked.is_ok());
    locked.is_ok()
}

/// Takes the locks of `transfer`: the table for writing, and both accounts. Two tellers may wait for one
/// another, each at the account that the other one has. So each wait shows to the watchdog, by `watch`.
fn lock_for<B: Board<Part>, M: ManagerName, R: Wait>(
    rt: &R,
    watch: &Watch,
    connection: &mut Connection<B, M>,
    transfer: Transfer,
) -> Result<(), Refusal> {
    take(rt, watch, connection, ACCOUNTS, Mode::RowExclusive)?;
    take(
        rt,
        watch,
        connection,
        account(transfer.from),
        Mode::Exclusive,
    )?;
    take(rt, watch, connection, account(transfer.to), Mode::Exclusive)
}

/// Takes `mode` on `tag` for the transaction of `connection`, and waits where something is in the way, which
/// `watch` shows.
fn take<B: Board<Part>, M: ManagerName, R: Wait>(
    rt: &R,
    watch: &Watch,
    connection: &mut Connection<B, M>,
    tag: Tag,
    mode: Mode,
) -> Result<(), Refusal> {
    let number = connection.session.id();
    watch.turn(number);
    let answer = connection
        .session
        .acquire(rt, tag, mode, Owner::Transaction);
    watch.turn(number);
    match answer {
        Ok(_) => Ok(()),
        Err(refusal) => Err(refusal),
    }
}

/// Ends the transaction of `connection`: the transaction commits where `is_good`, otherwise it aborts.
fn end<B: Board<Part>, M: ManagerName, R: Wait>(
    rt: &R,
    connection: &mut Connection<B, M>,
    is_good: bool,
) {
    if is_good {
        connection.session.commit(rt);
    } else {
        connection.session.abort(rt);
    }
}

/// Alters the table with `connection` as often as `alterations` says, unless the bank shuts down before.
/// Others that want to read or write wait behind its request meanwhile. So where the table isn't had in time,
/// the request is given up, the others go on, and the migration tries later.
pub fn migrate<B: Board<Part>, M: ManagerName, R: Wait + Clock>(
    rt: &R,
    bank: &Bank,
    watch: &Watch,
    connection: &mut Connection<B, M>,
    alterations: u32,
) {
    let mut left = alterations;
    'attempts: for _ in rt.forever() {
        if left == 0 || watch.is_closed() {
            return;
        }
        if has_altered(rt, bank, connection) {
            left -= 1;
        }
    }
}

/// Alters the table with `connection` if the table is had in time, and answers whether it was.
fn has_altered<B: Board<Part>, M: ManagerName, R: Wait + Clock>(
    rt: &R,
    bank: &Bank,
    connection: &mut Connection<B, M>,
) -> bool {
    let patience = Duration::from_millis(PATIENCE);
    let answer = take_in_time(rt, connection, ACCOUNTS, Mode::AccessExclusive, patience);
    let has_table = matches!(answer, Ok(Some(_)));
    if has_table {
        bank.rewrite();
    }
    end(rt, connection, has_table);
    has_table
}
