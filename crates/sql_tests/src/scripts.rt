//! What a session of a script plays for SQL statements, and faults of them.

use sql_script::{Heard, SqlScript, lines_of};
use std::alloc::Global;
use std::process::Abort;
use std::test::Fail;

/// The schema that the scripts speak of.
const SCHEMA: &str = "CREATE TABLE customers (id int PRIMARY KEY, name text);
CREATE TABLE orders (id int PRIMARY KEY, customer int REFERENCES customers);
CREATE TABLE plain (id int);";

/// Statements of the session `a`, one of database 5, and the lines by which `a` plays them.
static PLAYED: [(&str, &str); 15] = [
    (
        "BEGIN; INSERT INTO customers VALUES (1, 'a');",
        "lock a 5/16384 RowExclusiveLock\n",
    ),
    (
        "INSERT INTO orders VALUES (1, 1); COMMIT;",
        "lock a 5/16386 RowExclusiveLock\nlock a 5/16384 RowShareLock\nlock a 5/16385 RowShareLock\ncommit a\ncommit a\n",
    ),
    (
        "BEGIN; SELECT * FROM plain; ROLLBACK",
        "lock a 5/16388 AccessShareLock\nabort a\n",
    ),
    (
        "SELECT * FROM plain",
        "lock a 5/16388 AccessShareLock\ncommit a\n",
    ),
    (
        "SELECT 1; SET lock_timeout = '1s'; SELECT * FROM pg_locks",
        "",
    ),
    (
        "BEGIN; LOCK TABLE plain IN ACCESS EXCLUSIVE MODE NOWAIT",
        "try a 5/16388 AccessExclusiveLock\n",
    ),
    (
        "BEGIN; TRUNCATE plain",
        "lock a 5/16388 AccessExclusiveLock\n",
    ),
    (
        "BEGIN; SAVEPOINT one; SAVEPOINT two; ROLLBACK TO SAVEPOINT one; RELEASE One; COMMIT",
        "begin a\nbegin a\nsubabort a\nsubabort a\nbegin a\nsubcommit a\ncommit a\n",
    ),
    (
        "SELECT pg_advisory_lock(42); BEGIN; SELECT pg_advisory_xact_lock_shared(7, 8); SELECT pg_try_advisory_lock(4294967296)",
        "lock a adv/5/0/42/1 ExclusiveLock session\nlock a adv/5/7/8/2 ShareLock\ntry a adv/5/1/0/1 ExclusiveLock session\n",
    ),
    (
        "SELECT pg_advisory_unlock(42); SELECT pg_advisory_unlock_shared(7, 8)",
        "unlock a adv/5/0/42/1 ExclusiveLock session\nunlock a adv/5/7/8/2 ShareLock session\n",
    ),
    (
        "BEGIN; SELECT PG_ADVISORY_LOCK_SHARED(1), pg_advisory_unlock_all(); COMMIT",
        "lock a adv/5/0/1/1 ShareLock session\nunlock_all a\ncommit a\n",
    ),
    (
        "ROLLBACK AND CHAIN; BEGIN; BEGIN; COMMIT AND NO CHAIN; SELECT * FROM plain",
        "abort a\ncommit a\nlock a 5/16388 AccessShareLock\ncommit a\n",
    ),
    (
        "SELECT pg_advisory_xact_lock(1)",
        "lock a adv/5/0/1/1 ExclusiveLock\ncommit a\n",
    ),
    (
        "CREATE TABLE made (id int); INSERT INTO made VALUES (1)",
        "lock a 5/16389 AccessExclusiveLock\ncommit a\nlock a 5/16389 RowExclusiveLock\ncommit a\n",
    ),
    (
        "BEGIN; COMMIT AND CHAIN; SELECT * FROM plain; COMMIT",
        "commit a\nlock a 5/16388 AccessShareLock\ncommit a\n",
    ),
];

/// Statements that can't be played, and what is said of them where they are on line 7 of a script.
static BAD: [(&str, &str); 10] = [
    (
        "SELECT * FROM nowhere",
        "line 7: no such relation: nowhere\n",
    ),
    ("SELECT 'a", "line 7: a text in quotes does not end: 'a\n"),
    ("\\d", "line 7: a command of psql, not of SQL: \\d\n"),
    (
        "SAVEPOINT s",
        "line 7: a savepoint outside of a transaction: SAVEPOINT\n",
    ),
    ("BEGIN; RELEASE s", "line 7: no such savepoint: s\n"),
    (
        "SELECT pg_advisory_lock(k) FROM plain",
        "line 7: a key of an advisory lock that is no number: k\n",
    ),
    (
        "CREATE INDEX CONCURRENTLY ON plain (id)",
        "line 7: it waits for the ends of transactions, which are played where the schema says SET lock_scenario.transactions = on: CREATE\n",
    ),
    (
        "BEGIN; REINDEX TABLE CONCURRENTLY plain",
        "line 7: a statement that can't run inside a transaction: REINDEX\n",
    ),
    (
        "BEGIN; VACUUM plain",
        "line 7: a statement that can't run inside a transaction: VACUUM\n",
    ),
    (
        "CREATE TABLESPACES x",
        "line 7: locks of CREATE TABLESPACES are not known; the nearest known form is CREATE TABLE\n",
    ),
];

/// A script whose schema `SCHEMA` was read, with the session `a`, one of database 5.
fn script_of(alloc: Global) -> Result<SqlScript, Fail> {
    let mut script = SqlScript::new(alloc);
    if script.read_schema(SCHEMA.as_bytes()).is_err() {
        return Ok(script);
    }
    script.open("a", 5)?;
    Ok(script)
}

#[test]
fn a_session_plays_the_locks_of_its_statements(rt: HostRuntime) -> Result<(), Fail> {
    let alloc = rt.alloc();
    for (text, want) in &PLAYED {
        let mut script = script_of(alloc)?;
        match script.turns_of("a", 5, text.as_bytes()) {
            Ok(turns) => {
                let mut said = String::new(alloc);
                for line in lines_of(alloc, "a", turns.as_slice())? {
                    said.push_str(line.as_str())?;
                    said.push('\n')?;
                }
                assert!(rt; said.as_str() == *want, "{text}: {said}");
            }
            Err(fault) => {
                let said = fault.told(alloc, 7, text.as_bytes())?;
                assert!(rt; false, "{text}: {said}");
            }
        }
    }
    Ok(())
}

#[test]
fn statements_that_cant_be_played_are_told(rt: HostRuntime) -> Result<(), Fail> {
    let alloc = rt.alloc();
    for (text, want) in &BAD {
        let mut script = script_of(alloc)?;
        match script.turns_of("a", 5, text.as_bytes()) {
            Ok(_) => assert!(rt; false, "{text} is played"),
            Err(fault) => {
                let said = fault.told(alloc, 7, text.as_bytes())?;
                assert!(rt; said.as_str() == *want, "{text}: {said}");
            }
        }
    }
    Ok(())
}

/// The first lines of the scripts whose transactions have locks of their own.
const TRACKED: &str = "schema
SET lock_scenario.transactions = on;
CREATE TABLE plain (id int);
CREATE TABLE other (id int);
CREATE TABLE parent (id int) PARTITION BY RANGE (id);
CREATE TABLE part PARTITION OF parent FOR VALUES FROM (1) TO (9);
CREATE INDEX plain_id ON plain (id);
end
session writer 5
session reader 5
session far 6
session builder 5
";

/// Lines that come after `TRACKED` in a script, and the lines that are played for that script.
static AWAITED: [(&str, &str); 9] = [
    // An index build waits for who has written its table, in its own database, and for nobody else.
    (
        "do writer BEGIN; INSERT INTO plain VALUES (1);\ndo reader BEGIN; SELECT * FROM other;\ndo far BEGIN; DELETE FROM other;\n\
         do builder CREATE INDEX CONCURRENTLY ON plain (id);\n",
        "lock writer adv/5/0/1/3 ExclusiveLock\nlock writer 5/16384 RowExclusiveLock\n\
         lock reader adv/5/0/2/3 ExclusiveLock\nlock reader 5/16385 AccessShareLock\n\
         lock far adv/6/0/3/3 ExclusiveLock\nlock far 6/16385 RowExclusiveLock\n\
         lock builder 5/16384 ShareUpdateExclusiveLock session\nlock builder adv/5/0/1/3 ShareLock\ncommit builder\n\
         unlock builder 5/16384 ShareUpdateExclusiveLock session\n",
    ),
    // It waits for no reader, and for nobody whose transaction has ended.
    (
        "do writer BEGIN; LOCK plain IN SHARE MODE; COMMIT;\ndo reader BEGIN; LOCK plain IN SHARE MODE;\n\
         do builder CREATE INDEX CONCURRENTLY ON plain (id);\n",
        "lock writer adv/5/0/1/3 ExclusiveLock\nlock writer 5/16384 ShareLock\ncommit writer\n\
         lock reader adv/5/0/2/3 ExclusiveLock\nlock reader 5/16384 ShareLock\n\
         lock builder 5/16384 ShareUpdateExclusiveLock session\ncommit builder\n\
         unlock builder 5/16384 ShareUpdateExclusiveLock session\n",
    ),
    // An older snapshot is waited for, whatever it is of; one that is not taken yet is not.
    (
        "do writer BEGIN ISOLATION LEVEL REPEATABLE READ;\ndo reader START TRANSACTION; SET TRANSACTION ISOLATION LEVEL SERIALIZABLE; SELECT 1;\n\
         do builder CREATE INDEX CONCURRENTLY ON plain (id);\n",
        "lock writer adv/5/0/1/3 ExclusiveLock\nlock reader adv/5/0/2/3 ExclusiveLock\n\
         lock builder 5/16384 ShareUpdateExclusiveLock session\nlock builder adv/5/0/2/3 ShareLock\ncommit builder\n\
         unlock builder 5/16384 ShareUpdateExclusiveLock session\n",
    ),
    // What a savepoint took is given back with it.
    (
        "do writer BEGIN; SAVEPOINT s; LOCK plain; ROLLBACK TO s;\ndo builder CREATE INDEX CONCURRENTLY ON plain (id);\n",
        "lock writer adv/5/0/1/3 ExclusiveLock\nbegin writer\nlock writer 5/16384 AccessExclusiveLock\nsubabort writer\nbegin writer\n\
         lock builder 5/16384 ShareUpdateExclusiveLock session\ncommit builder\n\
         unlock builder 5/16384 ShareUpdateExclusiveLock session\n",
    ),
    // To drop an index is to wait for readers, but for no snapshot.
    (
        "do writer BEGIN ISOLATION LEVEL REPEATABLE READ; SELECT * FROM other;\ndo reader BEGIN; TABLE plain;\n\
         do builder DROP INDEX CONCURRENTLY plain_id;\n",
        "lock writer adv/5/0/1/3 ExclusiveLock\nlock writer 5/16385 AccessShareLock\n\
         lock reader adv/5/0/2/3 ExclusiveLock\nlock reader 5/16384 AccessShareLock\nlock reader 5/16388 AccessShareLock\n\
         lock builder 5/16384 ShareUpdateExclusiveLock session\nlock builder 5/16388 ShareUpdateExclusiveLock session\n\
         lock builder adv/5/0/2/3 ShareLock\ncommit builder\n\
         unlock builder 5/16384 ShareUpdateExclusiveLock session\nunlock builder 5/16388 ShareUpdateExclusiveLock session\n",
    ),
    // To build it again is to wait for both.
    (
        "do writer BEGIN ISOLATION LEVEL REPEATABLE READ; SELECT * FROM other;\ndo reader BEGIN; TABLE plain;\n\
         do builder REINDEX INDEX CONCURRENTLY plain_id;\n",
        "lock writer adv/5/0/1/3 ExclusiveLock\nlock writer 5/16385 AccessShareLock\n\
         lock reader adv/5/0/2/3 ExclusiveLock\nlock reader 5/16384 AccessShareLock\nlock reader 5/16388 AccessShareLock\n\
         lock builder 5/16384 ShareUpdateExclusiveLock session\nlock builder 5/16388 ShareUpdateExclusiveLock session\n\
         lock builder adv/5/0/1/3 ShareLock\nlock builder adv/5/0/2/3 ShareLock\ncommit builder\n\
         unlock builder 5/16384 ShareUpdateExclusiveLock session\nunlock builder 5/16388 ShareUpdateExclusiveLock session\n",
    ),
    // A partition is detached in two transactions, between which those are waited for who use the parent.
    (
        "do writer BEGIN; SELECT * FROM parent;\ndo reader BEGIN; SELECT * FROM part;\n\
         do builder ALTER TABLE parent DETACH PARTITION part CONCURRENTLY; SELECT * FROM parent;\n",
        "lock writer adv/5/0/1/3 ExclusiveLock\nlock writer 5/16386 AccessShareLock\nlock writer 5/16387 AccessShareLock\n\
         lock reader adv/5/0/2/3 ExclusiveLock\nlock reader 5/16387 AccessShareLock\n\
         lock builder 5/16386 ShareUpdateExclusiveLock\nlock builder 5/16387 ShareUpdateExclusiveLock\ncommit builder\n\
         lock builder adv/5/0/1/3 ShareLock\nunlock builder adv/5/0/1/3 ShareLock\n\
         lock builder 5/16386 ShareUpdateExclusiveLock\nlock builder 5/16387 AccessExclusiveLock\ncommit builder\n\
         lock builder 5/16386 AccessShareLock\ncommit builder\n",
    ),
    // Each transaction has a lock of its own, also one that another one's end begins.
    (
        "do writer BEGIN; BEGIN; COMMIT AND CHAIN; ROLLBACK AND CHAIN; ROLLBACK; BEGIN;\n",
        "lock writer adv/5/0/1/3 ExclusiveLock\ncommit writer\nlock writer adv/5/0/2/3 ExclusiveLock\n\
         abort writer\nlock writer adv/5/0/3/3 ExclusiveLock\nabort writer\nlock writer adv/5/0/4/3 ExclusiveLock\n",
    ),
    // A statement outside of a transaction is one with no such lock, and a session that is closed has none.
    (
        "do writer INSERT INTO plain VALUES (1);\ndo reader BEGIN; LOCK plain;\nclose reader\n\
         do builder CREATE INDEX CONCURRENTLY ON plain (id);\n",
        "lock writer 5/16384 RowExclusiveLock\ncommit writer\nlock reader adv/5/0/1/3 ExclusiveLock\nlock reader 5/16384 AccessExclusiveLock\n\
         lock builder 5/16384 ShareUpdateExclusiveLock session\ncommit builder\n\
         unlock builder 5/16384 ShareUpdateExclusiveLock session\n",
    ),
];

/// Lines that come after `TRACKED` in a script, with statements that work until a later line, and the lines
/// that are played for that script.
static WORKED: [(&str, &str); 12] = [
    // The end of a statement comes by its line, and what it made is known to others from then on.
    (
        "work builder CREATE INDEX made ON plain (id);\ndo reader TABLE plain;\ndone builder;\ndo reader TABLE plain;\n",
        "lock builder adv/5/0/1/3 ExclusiveLock\nlock builder 5/16384 ShareLock\nlock builder 5/16389 AccessExclusiveLock\n\
         lock reader 5/16384 AccessShareLock\nlock reader 5/16388 AccessShareLock\ncommit reader\n\
         commit builder\n\
         lock reader 5/16384 AccessShareLock\nlock reader 5/16388 AccessShareLock\nlock reader 5/16389 AccessShareLock\ncommit reader\n",
    ),
    // Who waits for a transaction knows what that made: a write waits for the build of an index.
    (
        "do builder BEGIN; CREATE INDEX made ON plain (id);\ndo writer UPDATE plain SET id = 1;\n",
        "lock builder adv/5/0/1/3 ExclusiveLock\nlock builder 5/16384 ShareLock\nlock builder 5/16389 AccessExclusiveLock\n\
         lock writer 5/16384 RowExclusiveLock\nlock writer 5/16388 RowExclusiveLock\nlock writer 5/16389 RowExclusiveLock\ncommit writer\n",
    ),
    // Inside a transaction nothing is left for the end.
    (
        "do writer BEGIN;\nwork writer DELETE FROM other;\ndone writer\ndo writer COMMIT;\n",
        "lock writer adv/5/0/1/3 ExclusiveLock\nlock writer 5/16385 RowExclusiveLock\ncommit writer\n",
    ),
    // An index build waits at its end for a statement at work that came after it, and takes its time again.
    (
        "work builder CREATE INDEX CONCURRENTLY made ON plain (id);\nwork writer ALTER TABLE other ADD COLUMN note text;\ndone builder;\ndone writer;\n\
         done builder;\n",
        "lock builder 5/16384 ShareUpdateExclusiveLock session\n\
         lock writer adv/5/0/1/3 ExclusiveLock\nlock writer 5/16385 AccessExclusiveLock\n\
         commit builder\nlock builder adv/5/0/1/3 ShareLock\ncommit writer\n\
         commit builder\nunlock builder 5/16384 ShareUpdateExclusiveLock session\n",
    ),
    // It waits for no LOCK, which has no snapshot, for no other database's, and for nobody whose transaction
    // a line ended.
    (
        "work builder CREATE INDEX CONCURRENTLY made ON plain (id);\nwork far TABLE other;\nwork reader TABLE other;\nabort reader\ndo writer BEGIN;\n\
         work writer LOCK other;\ndone builder;\n",
        "lock builder 5/16384 ShareUpdateExclusiveLock session\n\
         lock far adv/6/0/1/3 ExclusiveLock\nlock far 6/16385 AccessShareLock\n\
         lock reader adv/5/0/2/3 ExclusiveLock\nlock reader 5/16385 AccessShareLock\n\
         lock writer adv/5/0/3/3 ExclusiveLock\nlock writer 5/16385 AccessExclusiveLock\n\
         commit builder\nunlock builder 5/16384 ShareUpdateExclusiveLock session\n",
    ),
    // A statement at work is waited for by who comes later, for what it has written.
    (
        "work writer INSERT INTO plain VALUES (1);\ndo builder DROP INDEX CONCURRENTLY plain_id;\n",
        "lock writer adv/5/0/1/3 ExclusiveLock\nlock writer 5/16384 RowExclusiveLock\n\
         lock builder 5/16384 ShareUpdateExclusiveLock session\nlock builder 5/16388 ShareUpdateExclusiveLock session\n\
         lock builder adv/5/0/1/3 ShareLock\ncommit builder\n\
         unlock builder 5/16384 ShareUpdateExclusiveLock session\nunlock builder 5/16388 ShareUpdateExclusiveLock session\n",
    ),
    // The second transaction of a statement is the one that works.
    (
        "work builder ALTER TABLE parent DETACH PARTITION part CONCURRENTLY;\ndone builder;\n",
        "lock builder 5/16386 ShareUpdateExclusiveLock\nlock builder 5/16387 ShareUpdateExclusiveLock\ncommit builder\n\
         lock builder 5/16386 ShareUpdateExclusiveLock\nlock builder 5/16387 AccessExclusiveLock\ncommit builder\n",
    ),
    // Of a VACUUM the session owns the table's lock, and not the index's.
    (
        "do writer VACUUM plain;\nwork reader VACUUM (VERBOSE) other, plain;\ndone reader;\n",
        "lock writer 5/16384 ShareUpdateExclusiveLock\nlock writer 5/16384 ShareUpdateExclusiveLock session\nlock writer 5/16388 RowExclusiveLock\n\
         commit writer\nunlock writer 5/16384 ShareUpdateExclusiveLock session\n\
         lock reader 5/16385 ShareUpdateExclusiveLock\nlock reader 5/16385 ShareUpdateExclusiveLock session\n\
         lock reader 5/16384 ShareUpdateExclusiveLock\nlock reader 5/16384 ShareUpdateExclusiveLock session\nlock reader 5/16388 RowExclusiveLock\n\
         commit reader\nunlock reader 5/16385 ShareUpdateExclusiveLock session\nunlock reader 5/16384 ShareUpdateExclusiveLock session\n",
    ),
    // One that passes over what is locked takes it by a try.
    (
        "do writer VACUUM (SKIP_LOCKED) other; ANALYZE (SKIP_LOCKED) other;\n",
        "try writer 5/16385 ShareUpdateExclusiveLock\ncommit writer\ntry writer 5/16385 ShareUpdateExclusiveLock\ncommit writer\n",
    ),
    // A session that works says no more SQL, and one that doesn't has nothing to end.
    (
        "work reader SELECT 1;\ndo reader SELECT 1;\nwork reader SELECT 1;\ndone reader;\ndone reader;\ndone nobody;\n",
        "lock reader adv/5/0/1/3 ExclusiveLock\nbad: do reader SELECT 1;\nbad: work reader SELECT 1;\ncommit reader\nbad: done reader;\nbad: done nobody;\n",
    ),
    // Work is one statement, and none that begins or ends a transaction.
    (
        "work reader BEGIN;\nwork writer SELECT 1; SELECT 2;\nwork far\n",
        "bad: work reader BEGIN;\nbad: work writer SELECT 1; SELECT 2;\nbad: work far\n",
    ),
    // A line that ends a transaction ends it for those who would wait for it.
    (
        "do writer BEGIN; DELETE FROM plain;\ncommit writer\ndo builder CREATE INDEX CONCURRENTLY made ON plain (id);\n",
        "lock writer adv/5/0/1/3 ExclusiveLock\nlock writer 5/16384 RowExclusiveLock\nlock writer 5/16388 RowExclusiveLock\n\
         lock builder 5/16384 ShareUpdateExclusiveLock session\ncommit builder\nunlock builder 5/16384 ShareUpdateExclusiveLock session\n",
    ),
];

/// Adds to `said` the lines that are played for a line of a script, which is `heard`.
fn push_played(said: &mut String, alloc: Global, heard: Heard) -> Result<(), Fail> {
    if let Heard::Statements(statements) = heard {
        let session = statements.session.as_str();
        for line in lines_of(alloc, session, statements.turns.as_slice())? {
            said.push_str(line.as_str())?;
            said.push('\n')?;
        }
    }
    Ok(())
}

/// The lines that are played for the script `text`. A bad line is written as such.
fn played_of(alloc: Global, text: &str) -> Result<String, Fail> {
    let mut script = SqlScript::new(alloc);
    let mut said = String::new(alloc);
    for line in text.split('\n') {
        match script.hear(1, line) {
            Ok(heard) => push_played(&mut said, alloc, heard)?,
            Err(_unplayed) => write!(said, "bad: {line}\n")?,
        }
    }
    Ok(said)
}

/// Fails where, for one of `scripts`, other lines are played for `TRACKED` with the first text after it than
/// those of the second text.
fn compare<H: AllocGlobal + Abort>(rt: &H, scripts: &[(&str, &str)]) -> Result<(), Fail> {
    let alloc = rt.alloc();
    for (lines, want) in scripts {
        let script = format!(in alloc; "{TRACKED}{lines}")?;
        let said = played_of(alloc, script.as_str())?;
        assert!(rt; said.as_str() == *want, "{lines}: {said}");
    }
    Ok(())
}

#[test]
fn the_ends_of_transactions_are_waited_for(rt: HostRuntime) -> Result<(), Fail> {
    compare(&rt, &AWAITED)
}

#[test]
fn statements_work_until_a_later_line(rt: HostRuntime) -> Result<(), Fail> {
    compare(&rt, &WORKED)
}
