//! What is said of the statements of a migration, and of faults. The modes are those that PostgreSQL's
//! `pg_locks` shows.

use sql_report::make_report;
use std::alloc::Global;
use std::test::Fail;

/// The schema that the migrations are run on.
const SCHEMA: &str = "
CREATE TABLE customers (id int PRIMARY KEY, name text);
CREATE TABLE orders (id int PRIMARY KEY, customer int REFERENCES customers);
CREATE TABLE days (day date) PARTITION BY RANGE (day);
CREATE TABLE rest PARTITION OF days DEFAULT;
CREATE VIEW rich AS SELECT * FROM customers;
";

/// What a report says beside the locks of a statement that keeps reads waiting, and writes and VACUUM too.
const READS_WAIT: &str =
    "  keeps waiting: reads, row locks and foreign keys' checks, writes, VACUUM and DDL, index builds
  waits behind: a long read, a transaction that locked rows, a busy writer, \
an autovacuum (which gives way after deadlock_timeout), an index build\n";

/// Statements, and what a report says of each of them, up to the sums at its end.
static SAID: [(&str, &str); 14] = [
    (
        "SELECT * FROM rich;",
        "line 1: SELECT * FROM rich;
  rich: AccessShareLock
  customers: AccessShareLock
  customers_pkey: AccessShareLock
  works for as many rows as it reads or changes, and holds its locks until its own end
  keeps waiting: only DDL that shuts all out, as DROP TABLE
  waits behind: only DDL that shuts all out
",
    ),
    (
        "BEGIN;\nCREATE TABLE own (id int);\nCOMMIT;",
        "line 1: BEGIN;
line 2: CREATE TABLE own (id int);
  own: AccessExclusiveLock, made here and known to nobody else
  works for a moment, and holds its locks until COMMIT
line 3: COMMIT;
",
    ),
    (
        "CREATE INDEX CONCURRENTLY named ON orders (customer);",
        "line 1: CREATE INDEX CONCURRENTLY named ON orders (customer);
  orders: ShareUpdateExclusiveLock
  works for the build of an index, and holds its locks until its own end
  keeps waiting: VACUUM and DDL, index builds
  waits behind: an autovacuum (which gives way after deadlock_timeout), an index build
  waits for the end of each transaction that has written the table, and older snapshots
",
    ),
    (
        "SELECT pg_advisory_xact_lock_shared(7, 42);",
        "line 1: SELECT pg_advisory_xact_lock_shared(7, 42);
  advisory lock 7, 42: ShareLock, until the transaction's end
",
    ),
    (
        "COPY customers FROM stdin;\n1\tit's;\n\\.\n",
        "line 1: COPY customers FROM stdin;
  customers: RowExclusiveLock
  works for as many rows as it reads or changes, and holds its locks until its own end
  keeps waiting: index builds
  waits behind: an index build
",
    ),
    (
        "DROP INDEX CONCURRENTLY orders_pkey;",
        "line 1: DROP INDEX CONCURRENTLY orders_pkey;
  orders: ShareUpdateExclusiveLock
  orders_pkey: ShareUpdateExclusiveLock
  works for a moment, and holds its locks until its own end
  keeps waiting: VACUUM and DDL, index builds
  waits behind: an autovacuum (which gives way after deadlock_timeout), an index build
  waits for the end of each transaction that has used the table, and be it to read
",
    ),
    (
        "SELECT pg_advisory_lock(1);",
        "line 1: SELECT pg_advisory_lock(1);
  advisory lock 1: ExclusiveLock, until it is unlocked, or the session ends
",
    ),
    (
        "SELECT pg_advisory_unlock_shared(7, 42), PG_ADVISORY_UNLOCK_ALL();",
        "line 1: SELECT pg_advisory_unlock_shared(7, 42), PG_ADVISORY_UNLOCK_ALL();
  advisory lock 7, 42: ShareLock, given back
  gives back all advisory locks that the session owns
",
    ),
    (
        "REINDEX INDEX CONCURRENTLY orders_pkey;",
        "line 1: REINDEX INDEX CONCURRENTLY orders_pkey;
  orders: ShareUpdateExclusiveLock
  orders_pkey: ShareUpdateExclusiveLock
  works for the build of an index, and holds its locks until its own end
  keeps waiting: VACUUM and DDL, index builds
  waits behind: an autovacuum (which gives way after deadlock_timeout), an index build
  waits for the end of each transaction that has used the table, and be it to read, and older snapshots
",
    ),
    (
        "INSERT INTO customers TABLE rich;",
        "line 1: INSERT INTO customers TABLE rich;
  customers: RowExclusiveLock
  rich: AccessShareLock
  customers_pkey: AccessShareLock
  works for as many rows as it reads or changes, and holds its locks until its own end
  keeps waiting: index builds
  waits behind: an index build
",
    ),
    (
        "CREATE SEQUENCE numbers;\nCREATE TABLE counted (id int DEFAULT nextval('numbers'));",
        "line 1: CREATE SEQUENCE numbers;
  numbers: AccessExclusiveLock, made here and known to nobody else
  works for a moment, and holds its locks until its own end
line 2: CREATE TABLE counted (id int DEFAULT nextval('numbers'));
  counted: AccessExclusiveLock, made here and known to nobody else
  works for a moment, and holds its locks until its own end
",
    ),
    (
        "DROP VIEW rich; -- and nothing else",
        "line 1: DROP VIEW rich;
  rich: AccessExclusiveLock
  works for a moment, and holds its locks until its own end
",
    ),
    (
        "ALTER TABLE orders ADD COLUMN a int;",
        "line 1: ALTER TABLE orders ADD COLUMN a int;
  orders: AccessExclusiveLock
  works for a moment, and holds its locks until its own end
",
    ),
    (
        "DROP TABLE rest;",
        "line 1: DROP TABLE rest;
  days: AccessExclusiveLock
  rest: AccessExclusiveLock
  works for a moment, and holds its locks until its own end
",
    ),
];

/// The place in `SAID` from which on the texts leave out who waits: all wait for those statements.
const ALL_WAIT_FROM: usize = 11;

/// Statements that are refused, and what is said of each of them.
static REFUSED: [(&str, &str); 26] = [
    (
        "SELECT 1;\nSELECT * FROM nothing_here;",
        "line 2: no such relation: nothing_here\n",
    ),
    (
        "CREATE SCHEMA fresh CREATE TABLE made (id int);",
        "line 1: locks of CREATE SCHEMA are not known; the nearest known form is CREATE VIEW\n",
    ),
    (
        "CREATE FOO bar;",
        "line 1: locks of CREATE FOO are not known; the nearest known form is CREATE POLICY\n",
    ),
    (
        "SELECT 'a\n;",
        "line 1: a text in quotes does not end: 'a\n",
    ),
    ("SELECT 1 /* /* */;", "line 1: a comment does not end: /*\n"),
    (
        "SELECT $a$ $b$;",
        "line 1: a text in dollar quotes does not end: $a$\n",
    ),
    (
        "\n\\d orders",
        "line 2: a command of psql, not of SQL: \\d\n",
    ),
    (
        "COPY customers FROM stdin;\n1\n",
        "line 1: the rows of COPY FROM stdin do not end with \\.: 1\n",
    ),
    (
        "ALTER TABLE orders DO IT;",
        "line 1: a form of ALTER TABLE whose locks are not known: DO\n",
    ),
    ("LOCK orders IN NO MODE;", "line 1: no lock mode: NO\n"),
    (
        "DETACH",
        "line 1: locks of DETACH are not known; the nearest known form is DELETE\n",
    ),
    (
        "CREATE RULE r AS ON DELETE TO orders DO INSTEAD NOTHING; DELETE FROM orders;",
        "line 1: a change of rows of a relation with a rule, whose locks are not known: orders\n",
    ),
    (
        "CREATE OR REPLACE VIEW rich AS SELECT * FROM rich;",
        "line 1: a view that reads itself: rich\n",
    ),
    (
        "CREATE VIEW richer AS SELECT * FROM rich;\nCREATE OR REPLACE VIEW rich AS SELECT * FROM richer;",
        "line 2: a view that reads itself: rich\n",
    ),
    (
        "SELECT 1;\nCREATE TABLE t (a int;\nDROP TABLE orders;",
        "line 2: a parenthesis does not end: (a\n",
    ),
    ("SELECT (1));", "line 1: a parenthesis that ends none: )\n"),
    (
        "CREATE FUNCTION f() RETURNS int BEGIN ATOMIC SELECT 1;\nDROP TABLE orders;",
        "line 1: a body that begins with BEGIN ATOMIC does not end: ATOMIC\n",
    ),
    ("SELECT \"a", "line 1: a name in quotes does not end: \"a\n"),
    (
        "SELECT *\nFROM;",
        "line 2: a name is missing behind this word: FROM\n",
    ),
    (
        "LOCK TABLE",
        "line 1: a name is missing behind this word: TABLE\n",
    ),
    (
        "ALTER TABLE 5;",
        "line 1: a name is missing before this word: 5\n",
    ),
    (
        "SELECT {d};",
        "line 1: a character that begins no word of SQL: {d}\n",
    ),
    (
        "\\copy orders from rows.csv",
        "line 1: a command of psql, not of SQL: \\copy\n",
    ),
    (
        "SELECT 1 \\gset",
        "line 1: a command of psql, not of SQL: \\gset\n",
    ),
    (
        "TRUNCAT customers;",
        "line 1: locks of TRUNCAT CUSTOMERS are not known; the nearest known form is TRUNCATE\n",
    ),
    (
        "DROP TABLE orders; DROP TABLE orders;",
        "line 1: no such relation: orders\n",
    ),
];

/// How many rows of 1,009 bytes make a statement of more than a megabyte.
const ROWS: usize = 1040;

/// What a report says of `migration`.
fn said(alloc: Global, migration: &str) -> String {
    said_of_bytes(alloc, migration.as_bytes())
}

/// What a report says of the bytes `migration`.
fn said_of_bytes(alloc: Global, migration: &[u8]) -> String {
    match make_report(alloc, SCHEMA.as_bytes(), migration, false) {
        Ok(report) => report.text,
        Err(refused) => refused.text,
    }
}

#[test]
fn each_statement_is_told_with_its_locks(rt: HostRuntime) {
    for (place, (migration, want)) in SAID.iter().enumerate() {
        let text = said(rt.alloc(), migration);
        assert!(rt; text.as_str().starts_with(*want), "{migration}: {text}");
        if place >= ALL_WAIT_FROM {
            let rest = text.as_str().strip_prefix(*want).unwrap_or("");
            assert!(rt; rest.starts_with(READS_WAIT), "{migration}: {text}");
        }
    }
}

#[test]
fn each_fault_names_its_line_and_word(rt: HostRuntime) {
    for (migration, want) in &REFUSED {
        let text = said(rt.alloc(), migration);
        assert!(rt; text.as_str() == *want, "{migration}: {text}");
    }
}

#[test]
fn bytes_that_are_no_text_are_refused(rt: HostRuntime) {
    let text = said_of_bytes(rt.alloc(), b"SELECT 1;\nSELECT 'a', '\xff' FROM orders;");
    assert!(rt;
        text.as_str() == "line 2: not UTF-8 text: '\u{fffd}'\n",
        "{text}"
    );
}

#[test]
fn a_statement_of_a_megabyte_is_told(rt: HostRuntime) -> Result<(), Fail> {
    let mut migration = String::from_str(rt.alloc(), "INSERT INTO customers VALUES")?;
    let mut row = String::from_str(rt.alloc(), " (1, '")?;
    for _ in 0..1000 {
        row.push('a')?;
    }
    row.push_str("'),")?;
    for _ in 0..ROWS {
        migration.push_str(row.as_str())?;
    }
    migration.push_str(" (2, 'b');\nSELECT * FROM nothing_here;")?;
    let text = said(rt.alloc(), migration.as_str());
    assert!(rt;
        text.as_str() == "line 2: no such relation: nothing_here\n",
        "{text}"
    );
    Ok(())
}

#[test]
fn the_sums_name_the_lines_that_keep_others_waiting(rt: HostRuntime) {
    let migration =
        "ALTER TABLE orders ADD COLUMN a int;\nCREATE INDEX i ON orders (a);\nANALYZE orders;";
    let text = said(rt.alloc(), migration);
    let want =
        "statements: 3\nkeep reads waiting: 1, by line 1\nkeep writes waiting: 2, by line 1, 2\n";
    assert!(rt; text.as_str().ends_with(want), "{text}");
}
