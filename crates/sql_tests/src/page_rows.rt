//! The tables of SQL statements of docs/POSTGRESQL.md (`.ci/scenarios` writes them here).

/// Reads and writes: of each row the statements, what the page says of their locks on tables and on indexes,
/// and of their work.
pub static PAGE_1: [(&str, &str, &str); 14] = [
    (
        "SELECT, TABLE, COPY (SELECT ..) TO, DECLARE CURSOR, EXPLAIN of a read",
        "AccessShareLock on each table; of a view on the view and its tables; of a parent on the children and partitions that are read; AccessShareLock on all indexes of these tables while the statement is planned; a prepared statement whose plan is kept locks the one that it uses",
        "rows",
    ),
    ("COPY table TO", "AccessShareLock; none", "a scan"),
    (
        "pg_dump, which begins with LOCK TABLE .. IN ACCESS SHARE MODE",
        "AccessShareLock on every table, until it ends; none of its own COPY table TO",
        "a scan",
    ),
    (
        "SELECT .. FOR UPDATE, FOR NO KEY UPDATE, FOR SHARE, FOR KEY SHARE",
        "RowShareLock, with OF on the tables named and AccessShareLock on the others; the same mode on all indexes of each",
        "rows",
    ),
    (
        "INSERT, COPY FROM",
        "RowExclusiveLock on the table, and on the partition that gets the row; RowExclusiveLock on each, given back at the statement's end",
        "rows",
    ),
    (
        "the check of a foreign key, on an INSERT, a COPY FROM or an UPDATE that changes it",
        "RowShareLock on the table that is referred to, unless the key is null; RowShareLock on its key's index",
        "rows",
    ),
    (
        "a default of a sequence, an identity or a serial column",
        "RowExclusiveLock on the sequence; ",
        "a moment",
    ),
    (
        "UPDATE",
        "RowExclusiveLock, on a parent's children and partitions too; on a view and its tables; RowExclusiveLock on all",
        "rows",
    ),
    (
        "a change of the key of a row that is referred to, or its DELETE",
        "RowShareLock on the referring table; with CASCADE, SET NULL or SET DEFAULT RowExclusiveLock; the same mode on the indexes that it uses",
        "rows",
    ),
    (
        "DELETE, MERGE",
        "RowExclusiveLock, and AccessShareLock on the tables that they only read; RowExclusiveLock on all",
        "rows",
    ),
    (
        "SELECT nextval(..), setval(..)",
        "RowExclusiveLock on the sequence; ",
        "a moment",
    ),
    (
        "TRUNCATE",
        "AccessExclusiveLock and ShareLock, on children and partitions too; with CASCADE on the tables that refer to it, with RESTART IDENTITY AccessExclusiveLock on its sequences; AccessExclusiveLock on all",
        "a moment",
    ),
    (
        "LOCK TABLE .. IN .. MODE",
        "the mode named, AccessExclusiveLock if none is; on children and partitions too (not with ONLY), of a view on its tables too; none",
        "a moment",
    ),
    ("CALL, DO, SET, VALUES", "none of their own; ", ""),
];

/// Indexes: of each row the statements, what the page says of their locks on tables and on indexes, and of
/// their work.
pub static PAGE_2: [(&str, &str, &str); 11] = [
    (
        "CREATE INDEX",
        "ShareLock, on each partition too (with ONLY on the parent alone); AccessExclusiveLock on the new one, which nobody else sees",
        "a build",
    ),
    (
        "CREATE INDEX IF NOT EXISTS where it exists",
        "ShareLock; none",
        "a moment",
    ),
    (
        "CREATE INDEX CONCURRENTLY",
        "ShareUpdateExclusiveLock for the session. It waits until each transaction that has written the table has ended, and at last for older snapshots; AccessExclusiveLock on the new one while it is made, which nobody else sees yet; then RowExclusiveLock",
        "two scans and a build",
    ),
    (
        "DROP INDEX",
        "AccessExclusiveLock; of a partitioned index on the partitions too; AccessExclusiveLock",
        "a moment",
    ),
    (
        "DROP INDEX CONCURRENTLY",
        "ShareUpdateExclusiveLock for the session. It waits until each transaction that has used the table, and be it to read, has ended; the same, and AccessExclusiveLock at last",
        "a moment",
    ),
    (
        "REINDEX INDEX, REINDEX TABLE",
        "ShareLock; AccessExclusiveLock on each",
        "a build of each",
    ),
    (
        "REINDEX SCHEMA, DATABASE, SYSTEM, and of a partitioned table",
        "the same, table by table, each in a transaction of its own; the same",
        "a build of each",
    ),
    (
        "REINDEX .. CONCURRENTLY",
        "ShareUpdateExclusiveLock for the session. It waits as CREATE INDEX CONCURRENTLY does, and then as DROP INDEX CONCURRENTLY; ShareUpdateExclusiveLock for the session, AccessExclusiveLock on each old and new one at last",
        "two scans and a build of each",
    ),
    (
        "ALTER INDEX with RENAME, SET (..), RESET (..), ALTER COLUMN .. SET STATISTICS",
        "none; ShareUpdateExclusiveLock",
        "a moment",
    ),
    (
        "ALTER INDEX .. ATTACH PARTITION",
        "AccessShareLock on both tables; ShareUpdateExclusiveLock on the parent's, AccessExclusiveLock on the one attached",
        "a moment",
    ),
    (
        "ALTER INDEX .. SET TABLESPACE, DEPENDS ON EXTENSION",
        "none; AccessExclusiveLock",
        "a rewrite of the index, a moment",
    ),
];

/// ALTER TABLE: of each row the statements, what the page says of their locks on tables and on indexes, and
/// of their work.
pub static PAGE_3: [(&str, &str, &str); 27] = [
    (
        "ADD COLUMN, with no default or a constant one",
        "AccessExclusiveLock; none",
        "a moment",
    ),
    (
        "ADD COLUMN with a volatile default, GENERATED .. STORED, an identity or serial",
        "AccessExclusiveLock; AccessExclusiveLock on all",
        "a rewrite",
    ),
    ("ADD COLUMN .. CHECK", "AccessExclusiveLock; none", "a scan"),
    (
        "ADD COLUMN .. UNIQUE, PRIMARY KEY",
        "AccessExclusiveLock, ShareLock; AccessExclusiveLock on the new one",
        "a build",
    ),
    (
        "ADD COLUMN .. REFERENCES",
        "AccessExclusiveLock; ShareRowExclusiveLock on the table referred to; AccessShareLock on its key's index",
        "a moment",
    ),
    (
        "DROP COLUMN",
        "AccessExclusiveLock; where a foreign key goes with it, on both its tables; on a view that goes by CASCADE; AccessExclusiveLock on those that go",
        "a moment",
    ),
    (
        "ALTER COLUMN .. TYPE",
        "AccessExclusiveLock, ShareLock; of a column in a foreign key AccessExclusiveLock on both its tables; AccessExclusiveLock on all; of a column in a foreign key AccessShareLock on the index of the key that is referred to",
        "a rewrite; a moment where the values stay, as varchar(200) to varchar(300) or to text",
    ),
    (
        "ALTER COLUMN .. SET DEFAULT, DROP DEFAULT, DROP NOT NULL, DROP EXPRESSION",
        "AccessExclusiveLock; none",
        "a moment",
    ),
    (
        "ALTER COLUMN .. SET NOT NULL",
        "AccessExclusiveLock; none",
        "a scan; a moment where a valid CHECK (c IS NOT NULL) shows it",
    ),
    (
        "ALTER COLUMN .. SET STATISTICS, SET (n_distinct ..), RESET (..)",
        "ShareUpdateExclusiveLock; none",
        "a moment",
    ),
    (
        "ALTER COLUMN .. SET STORAGE, SET COMPRESSION",
        "AccessExclusiveLock; AccessExclusiveLock on all",
        "a moment",
    ),
    (
        "ALTER COLUMN .. ADD GENERATED .. AS IDENTITY, SET GENERATED, DROP IDENTITY",
        "AccessExclusiveLock; on the sequence AccessExclusiveLock, of SET GENERATED ShareRowExclusiveLock; none",
        "a moment",
    ),
    (
        "ADD CHECK",
        "AccessExclusiveLock; none",
        "a scan; with NOT VALID a moment",
    ),
    (
        "ADD FOREIGN KEY",
        "ShareRowExclusiveLock on both tables, with RowShareLock on the one referred to; AccessShareLock on its key's index",
        "a scan; with NOT VALID a moment",
    ),
    (
        "ADD UNIQUE, ADD PRIMARY KEY, ADD EXCLUDE",
        "AccessExclusiveLock, ShareLock; AccessExclusiveLock on the new one",
        "a build",
    ),
    (
        "ADD UNIQUE or PRIMARY KEY .. USING INDEX",
        "AccessExclusiveLock; AccessShareLock; ShareUpdateExclusiveLock where it is renamed",
        "a moment; of PRIMARY KEY a scan, unless the column is NOT NULL",
    ),
    (
        "VALIDATE CONSTRAINT",
        "ShareUpdateExclusiveLock; of a foreign key RowShareLock on the table referred to; of a foreign key AccessShareLock on both keys' indexes",
        "a scan",
    ),
    (
        "DROP CONSTRAINT",
        "AccessExclusiveLock; of a foreign key on both tables; of a key with CASCADE on the tables that refer to it; AccessExclusiveLock on the one that goes",
        "a moment",
    ),
    (
        "ALTER CONSTRAINT, RENAME of the table, a column or a constraint, OWNER TO, SET SCHEMA",
        "AccessExclusiveLock; of OWNER TO and SET SCHEMA AccessExclusiveLock; of a key that is renamed ShareUpdateExclusiveLock",
        "a moment",
    ),
    (
        "SET (fillfactor ..) and most other storage parameters, RESET (..)",
        "ShareUpdateExclusiveLock; none",
        "a moment",
    ),
    (
        "SET (user_catalog_table ..)",
        "AccessExclusiveLock; none",
        "a moment",
    ),
    (
        "CLUSTER ON, SET WITHOUT CLUSTER",
        "ShareUpdateExclusiveLock; of CLUSTER ON ShareUpdateExclusiveLock",
        "a moment",
    ),
    (
        "SET LOGGED, SET UNLOGGED, SET ACCESS METHOD",
        "AccessExclusiveLock, ShareLock; AccessExclusiveLock on all",
        "a rewrite; a moment where it is so already",
    ),
    (
        "SET TABLESPACE",
        "AccessExclusiveLock; none",
        "a rewrite: the table is copied; a moment where it is there already",
    ),
    (
        "ENABLE TRIGGER, DISABLE TRIGGER, also ALL, ALWAYS, REPLICA",
        "ShareRowExclusiveLock; none",
        "a moment",
    ),
    (
        "ENABLE RULE, DISABLE RULE, ENABLE ROW LEVEL SECURITY and its like, OF, NOT OF",
        "AccessExclusiveLock; of OF AccessShareLock on the type; none",
        "a moment",
    ),
    (
        "REPLICA IDENTITY",
        "AccessExclusiveLock; of USING INDEX ShareLock",
        "a moment",
    ),
];

/// Partitions and children: of each row the statements, what the page says of their locks on tables and on
/// indexes, and of their work.
pub static PAGE_4: [(&str, &str, &str); 8] = [
    (
        "ALTER TABLE .. ATTACH PARTITION",
        "in this order: ShareUpdateExclusiveLock on the parent, AccessExclusiveLock on a default partition and on the table attached; ",
        "a scan of both; of the table attached none, where its CHECK shows that it fits",
    ),
    (
        "ALTER TABLE .. DETACH PARTITION",
        "AccessExclusiveLock on the parent, a default partition and the table detached; ",
        "a moment",
    ),
    (
        "ALTER TABLE .. DETACH PARTITION CONCURRENTLY, refused where there is a default partition",
        "ShareUpdateExclusiveLock on the parent and on the partition. It has none while it waits until each transaction that uses the parent has ended. Then it takes ShareUpdateExclusiveLock on the parent again, and AccessExclusiveLock on the partition; ",
        "a moment",
    ),
    (
        "CREATE TABLE .. PARTITION OF",
        "AccessExclusiveLock on the parent, the new table and a default partition; ",
        "a scan of the default partition",
    ),
    (
        "DROP TABLE of a partition",
        "AccessExclusiveLock on it, on the parent and on a default partition; AccessExclusiveLock on its own",
        "a moment",
    ),
    (
        "ALTER TABLE .. INHERIT",
        "AccessExclusiveLock on the child, ShareUpdateExclusiveLock on the parent; ",
        "a moment",
    ),
    (
        "ALTER TABLE .. NO INHERIT",
        "AccessExclusiveLock on the child, AccessShareLock on the parent; ",
        "a moment",
    ),
    (
        "CREATE TABLE .. INHERITS",
        "ShareUpdateExclusiveLock on the parent; ",
        "a moment",
    ),
];

/// Tables, views, sequences: of each row the statements, what the page says of their locks on tables and on
/// indexes, and of their work.
pub static PAGE_5: [(&str, &str, &str); 14] = [
    (
        "CREATE TABLE",
        "AccessExclusiveLock on the new one; ShareRowExclusiveLock on a table that it refers to; AccessShareLock on one that it is LIKE, or reads (AS, SELECT .. INTO); of a table referred to AccessShareLock",
        "a moment; with AS rows",
    ),
    (
        "CREATE FOREIGN TABLE, CREATE TABLE .. OF",
        "AccessExclusiveLock on the new one; of OF AccessShareLock on the type; ",
        "a moment",
    ),
    (
        "ALTER FOREIGN TABLE, DROP FOREIGN TABLE",
        "AccessExclusiveLock; ",
        "a moment",
    ),
    (
        "DROP TABLE, DROP SCHEMA .. CASCADE",
        "AccessExclusiveLock on each, its children by CASCADE, and on a table that it refers to, or that refers to it by a foreign key; AccessExclusiveLock on all",
        "a moment",
    ),
    (
        "CREATE VIEW, CREATE OR REPLACE VIEW",
        "AccessShareLock on its tables, AccessExclusiveLock on the view; none",
        "a moment",
    ),
    (
        "ALTER VIEW, DROP VIEW",
        "AccessExclusiveLock on the view; ",
        "a moment",
    ),
    (
        "CREATE MATERIALIZED VIEW",
        "AccessExclusiveLock on the new one, AccessShareLock on its tables; AccessShareLock on its tables'",
        "rows",
    ),
    (
        "REFRESH MATERIALIZED VIEW",
        "AccessExclusiveLock on it, AccessShareLock on its tables; AccessExclusiveLock on its own",
        "a rewrite",
    ),
    (
        "REFRESH MATERIALIZED VIEW CONCURRENTLY",
        "ExclusiveLock and RowExclusiveLock on it, AccessShareLock on its tables; AccessShareLock, RowExclusiveLock on its own",
        "a scan, and the rows that differ",
    ),
    (
        "ALTER MATERIALIZED VIEW with RENAME; with SET (..), CLUSTER ON, SET STATISTICS",
        "AccessExclusiveLock; ShareUpdateExclusiveLock; of CLUSTER ON ShareUpdateExclusiveLock",
        "a moment",
    ),
    (
        "DROP MATERIALIZED VIEW",
        "AccessExclusiveLock on it; AccessExclusiveLock on its own",
        "a moment",
    ),
    (
        "CREATE SEQUENCE",
        "AccessExclusiveLock on it; with OWNED BY AccessShareLock on the table; ",
        "a moment",
    ),
    (
        "ALTER SEQUENCE",
        "ShareRowExclusiveLock and RowExclusiveLock on it; with OWNED BY AccessShareLock on the table; ",
        "a moment",
    ),
    (
        "ALTER SEQUENCE with RENAME, OWNER TO, SET SCHEMA, SET LOGGED; DROP SEQUENCE",
        "AccessExclusiveLock on it; ",
        "a moment",
    ),
];

/// Triggers, rules, policies, publications, statistics: of each row the statements, what the page says of
/// their locks on tables and on indexes, and of their work.
pub static PAGE_6: [(&str, &str, &str); 16] = [
    (
        "CREATE TRIGGER",
        "ShareRowExclusiveLock, on each partition too; none",
        "a moment",
    ),
    (
        "CREATE CONSTRAINT TRIGGER .. FROM",
        "ShareRowExclusiveLock, and AccessShareLock on the other table; none",
        "a moment",
    ),
    (
        "ALTER TRIGGER, DROP TRIGGER, DROP FUNCTION .. CASCADE of its function",
        "AccessExclusiveLock; none",
        "a moment",
    ),
    (
        "CREATE RULE, ALTER RULE, DROP RULE",
        "AccessExclusiveLock; of CREATE RULE on the tables of its commands their modes, as RowExclusiveLock for a DELETE; none",
        "a moment",
    ),
    (
        "ALTER TYPE .. CASCADE, DROP TYPE .. CASCADE of a composite type",
        "AccessExclusiveLock on the type and on the tables OF it; none",
        "a moment; ADD ATTRIBUTE as ADD COLUMN",
    ),
    (
        "CREATE POLICY, ALTER POLICY, DROP POLICY",
        "AccessExclusiveLock, and AccessShareLock on the tables that the policy reads; none",
        "a moment",
    ),
    (
        "CREATE STATISTICS, DROP STATISTICS",
        "ShareUpdateExclusiveLock; none",
        "a moment",
    ),
    ("ALTER STATISTICS", "none; none", "a moment"),
    (
        "CREATE PUBLICATION .. FOR TABLE, ALTER PUBLICATION with ADD, DROP, SET TABLE",
        "ShareUpdateExclusiveLock on the tables named, and on children, but on no partition; none",
        "a moment",
    ),
    (
        "CREATE PUBLICATION for all tables or a schema's, DROP PUBLICATION",
        "none; none",
        "a moment",
    ),
    (
        "COMMENT ON a table, column, view, index or sequence",
        "ShareUpdateExclusiveLock on it; on an index",
        "a moment",
    ),
    (
        "COMMENT ON a constraint, trigger, rule or policy",
        "AccessShareLock on its table; none",
        "a moment",
    ),
    (
        "SECURITY LABEL (*not tried*: it needs a provider)",
        "ShareUpdateExclusiveLock; none",
        "a moment",
    ),
    (
        "GRANT, REVOKE, ALTER DEFAULT PRIVILEGES",
        "none; none",
        "a moment",
    ),
    (
        "REASSIGN OWNED",
        "AccessExclusiveLock on each table whose owner changes; AccessExclusiveLock on theirs",
        "a moment",
    ),
    ("DROP OWNED", "as DROP TABLE on each; as there", "a moment"),
];

/// Maintenance: of each row the statements, what the page says of their locks on tables and on indexes, and
/// of their work.
pub static PAGE_7: [(&str, &str, &str); 6] = [
    (
        "VACUUM, with FREEZE too",
        "ShareUpdateExclusiveLock, for the session too; AccessExclusiveLock by a try at the end, where pages at the table's end are empty. By name it first asks for AccessShareLock for a moment; RowExclusiveLock on all",
        "a scan of what changed",
    ),
    (
        "VACUUM (SKIP_LOCKED)",
        "as VACUUM, but by a try; the same",
        "the same",
    ),
    (
        "VACUUM FULL, CLUSTER",
        "AccessExclusiveLock and ShareLock. VACUUM FULL has the first for the session too, and by name it asks for AccessShareLock for a moment before; AccessExclusiveLock on all",
        "a rewrite",
    ),
    (
        "ANALYZE",
        "ShareUpdateExclusiveLock, and AccessShareLock for a moment before, by name; of a parent also AccessShareLock on its children, and ShareUpdateExclusiveLock on partitions; AccessShareLock on all",
        "a scan of a sample",
    ),
    (
        "VACUUM, ANALYZE of a whole database",
        "the same, table by table, each in a transaction of its own; the same",
        "",
    ),
    (
        "pg_advisory_lock(..), pg_advisory_xact_lock(..)",
        "the advisory lock in ExclusiveLock, with _shared in ShareLock; with try by a try; ",
        "a moment",
    ),
];
