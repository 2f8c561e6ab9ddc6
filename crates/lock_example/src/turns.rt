//! Two threads of a server share a lock manager: one reads and writes a table, which the other wants to
//! alter.

use lock_manager::{Acquired, Config, Final, Manager, Mode, Owner, Refusal, Tag};
use std::alloc::Global;
use std::io;
use std::sync::Wait;
use std::thread::{Threads, join_mut};

/// A table of database 5, as `BRANCHES` is.
const ACCOUNTS: Tag = Tag::Relation {
    database: 5,
    relation: 16_384,
};

const BRANCHES: Tag = Tag::Relation {
    database: 5,
    relation: 16_385,
};

/// For whom both ask: for their transactions, whose locks go as these end.
const OWNER: Owner = Owner::Transaction;

/// What a request for a lock is answered.
type Answer = Result<Acquired, Refusal>;

/// What the two threads were answered, turn by turn, and what the manager still had at its end.
struct Outcome {
    read: Answer,
    index: Answer,
    write: Answer,
    alter: Answer,
    alter_again: Answer,
    stood: Final,
}

/// Has two threads play three turns, and prints what both were answered.
pub fn show<R: Threads + Wait + Sync + Print>(rt: &R, alloc: Global) -> anyhow::Result<()> {
    let outcome = tell(rt, alloc)?;
    print_outcome(rt, outcome)?;
    Ok(())
}

/// Prints what the two threads of `outcome` were answered.
fn print_outcome<R: Print>(rt: &R, outcome: Outcome) -> io::Result<()> {
    let Outcome {
        read,
        index,
        write,
        alter,
        alter_again,
        stood,
    } = outcome;
    print_answer(rt, "worker: read accounts", read)?;
    print_answer(rt, "migration: index branches", index)?;
    print_answer(rt, "worker: write accounts", write)?;
    print_answer(rt, "migration: alter accounts", alter)?;
    println!(rt; "both: commit")?;
    print_answer(rt, "migration: alter accounts", alter_again)?;
    println!(rt; "finished, with {} holds left", stood.table)
}

/// Opens a session for each thread, lends the two out in three turns, and closes them.
fn tell<R: Threads + Wait + Sync>(rt: &R, alloc: Global) -> Result<Outcome, Refusal> {
    let config = Config {
        sessions: 2,
        max_local: 16,
        slot_groups: 1,
    };
    let (manager, mut opener) = Manager::new(alloc, config)?;
    let mut worker = opener.session(&manager, 5)?;
    let mut migration = match opener.session(&manager, 5) {
        Ok(session) => session,
        Err(refusal) => {
            // A session ends by its close alone: the compiler refuses a return before it.
            worker.close(rt, &mut opener);
            return Err(refusal);
        }
    };

    // A turn runs in two threads, each of which borrows a session, and is over once both are joined. None of
    // the requests of the first two turns is in the way of the other, so the answers are the same in each
    // run.
    let (read, index) = join_mut(
        rt,
        &mut || worker.try_lock(rt, ACCOUNTS, Mode::AccessShare, OWNER),
        &mut || migration.try_lock(rt, BRANCHES, Mode::Share, OWNER),
    );
    let (write, alter) = join_mut(
        rt,
        &mut || worker.try_lock(rt, ACCOUNTS, Mode::RowExclusive, OWNER),
        &mut || migration.try_lock(rt, ACCOUNTS, Mode::AccessExclusive, OWNER),
    );
    // Once both have committed the table is free. Until the worker has, the migration waits in its thread.
    let ((), alter_again) = join_mut(
        rt,
        &mut || worker.commit(rt),
        &mut || {
            migration.commit(rt);
            migration.acquire(rt, ACCOUNTS, Mode::AccessExclusive, OWNER)
        },
    );

    // What a session still has is released as it is closed.
    worker.close(rt, &mut opener);
    migration.close(rt, &mut opener);
    Ok(Outcome {
        read,
        index,
        write,
        alter,
        alter_again,
        stood: manager.finish(opener),
    })
}

/// Prints what `request` was answered. A refusal says who is in the way.
fn print_answer<R: Print>(rt: &R, request: &str, answer: Answer) -> io::Result<()> {
    match answer {
        Ok(Acquired::Granted) => println!(rt; "{request}: granted"),
        Ok(Acquired::AlreadyHeld) => println!(rt; "{request}: had it already"),
        Err(refusal) => println!(rt; "{request}: refused, {refusal}"),
    }
}
