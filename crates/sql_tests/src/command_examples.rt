//! Statements of each SQL command whose locks a help tells.

/// The schema that the examples are run on.
pub const SCHEMA: &str = "CREATE TABLE accounts (id int, owner text);
CREATE INDEX accounts_owner ON accounts (owner);
CREATE TABLE customers (id int PRIMARY KEY);
CREATE TABLE orders (id int PRIMARY KEY, customer int, CONSTRAINT c FOREIGN KEY (customer) REFERENCES customers);
CREATE TABLE parts (id int PRIMARY KEY, whole int REFERENCES parts ON DELETE CASCADE, CONSTRAINT qty CHECK (id > 0) NOT VALID);
CREATE TABLE events (id int, day int) PARTITION BY RANGE (day);
CREATE TABLE events_1 PARTITION OF events FOR VALUES FROM (1) TO (2);
CREATE INDEX events_day ON ONLY events (day);
CREATE INDEX events_1_day ON events_1 (day);
CREATE UNLOGGED TABLE scratch (id int, day int);
CREATE VIEW rich AS SELECT * FROM accounts;
CREATE MATERIALIZED VIEW totals AS SELECT * FROM orders;
CREATE SEQUENCE numbers;
CREATE TRIGGER t BEFORE INSERT ON accounts FOR EACH ROW EXECUTE FUNCTION f();
CREATE RULE r AS ON UPDATE TO scratch DO INSTEAD NOTHING;
CREATE POLICY p ON accounts USING (true);
CREATE STATISTICS old_stats ON id, owner FROM accounts;";

/// For each command, in the order of the table of SQL commands, an example: one statement or several.
pub static EXAMPLES: [(&str, &str); 105] = [
    ("SELECT", "SELECT * FROM accounts"),
    ("SELECT FOR UPDATE", "SELECT * FROM accounts FOR UPDATE"),
    (
        "SELECT FOR NO KEY UPDATE",
        "SELECT * FROM accounts FOR NO KEY UPDATE",
    ),
    ("SELECT FOR SHARE", "SELECT * FROM accounts FOR SHARE"),
    (
        "SELECT FOR KEY SHARE",
        "SELECT * FROM accounts FOR KEY SHARE",
    ),
    ("SELECT NEXTVAL", "SELECT nextval('numbers')"),
    ("COPY TO", "COPY accounts TO STDOUT"),
    ("COPY FROM", "COPY accounts FROM '/tmp/rows'"),
    ("PG_DUMP", "LOCK TABLE accounts IN ACCESS SHARE MODE"),
    ("INSERT", "INSERT INTO accounts VALUES (1)"),
    ("INSERT", "INSERT INTO orders VALUES (1, 1)"),
    ("UPDATE", "UPDATE accounts SET owner = 'a'"),
    ("UPDATE", "UPDATE orders SET customer = 1"),
    ("DELETE", "DELETE FROM accounts"),
    ("DELETE", "DELETE FROM customers; DELETE FROM parts"),
    (
        "MERGE",
        "MERGE INTO accounts a USING customers c ON a.id = c.id WHEN MATCHED THEN DELETE",
    ),
    ("VACUUM", "VACUUM accounts"),
    ("VACUUM FULL", "VACUUM FULL accounts"),
    ("ANALYZE", "ANALYZE accounts"),
    (
        "CREATE STATISTICS",
        "CREATE STATISTICS s ON id, owner FROM accounts",
    ),
    ("DROP STATISTICS", "DROP STATISTICS old_stats"),
    (
        "COMMENT ON TABLE",
        "COMMENT ON TABLE accounts IS 'x'; COMMENT ON VIEW rich IS 'x'",
    ),
    (
        "COMMENT ON CONSTRAINT",
        "COMMENT ON CONSTRAINT qty ON parts IS 'x'; COMMENT ON TRIGGER t ON accounts IS 'x'",
    ),
    (
        "CREATE PUBLICATION FOR TABLE",
        "CREATE PUBLICATION p FOR TABLE accounts",
    ),
    (
        "ALTER PUBLICATION",
        "ALTER PUBLICATION p ADD TABLE accounts",
    ),
    ("CREATE INDEX", "CREATE INDEX ON accounts (owner)"),
    (
        "CREATE INDEX CONCURRENTLY",
        "CREATE INDEX CONCURRENTLY ON accounts (owner)",
    ),
    (
        "CREATE TRIGGER",
        "CREATE TRIGGER u BEFORE INSERT ON accounts FOR EACH ROW EXECUTE FUNCTION f()",
    ),
    ("ALTER TRIGGER", "ALTER TRIGGER t ON accounts RENAME TO u"),
    ("DROP TRIGGER", "DROP TRIGGER t ON accounts"),
    (
        "CREATE RULE",
        "CREATE RULE s AS ON DELETE TO accounts DO INSTEAD NOTHING",
    ),
    ("CREATE POLICY", "CREATE POLICY q ON accounts USING (true)"),
    ("ALTER RULE", "ALTER RULE r ON accounts RENAME TO s"),
    ("DROP RULE", "DROP RULE r ON accounts"),
    ("ALTER POLICY", "ALTER POLICY p ON accounts USING (false)"),
    ("DROP POLICY", "DROP POLICY p ON accounts"),
    (
        "CREATE TABLE REFERENCES",
        "CREATE TABLE fresh (id int REFERENCES customers)",
    ),
    (
        "CREATE TABLE PARTITION OF",
        "CREATE TABLE events_2 PARTITION OF events FOR VALUES FROM (9) TO (10)",
    ),
    (
        "CREATE TABLE INHERITS",
        "CREATE TABLE fresh () INHERITS (accounts)",
    ),
    ("CREATE VIEW", "CREATE VIEW v AS SELECT * FROM accounts"),
    ("ALTER VIEW", "ALTER VIEW rich RENAME TO richer"),
    ("DROP VIEW", "DROP VIEW rich"),
    (
        "ALTER SEQUENCE",
        "ALTER SEQUENCE numbers RESTART; ALTER SEQUENCE numbers RENAME TO others",
    ),
    ("DROP SEQUENCE", "DROP SEQUENCE numbers"),
    ("REINDEX", "REINDEX TABLE accounts"),
    (
        "REINDEX CONCURRENTLY",
        "REINDEX TABLE CONCURRENTLY accounts",
    ),
    (
        "ALTER INDEX",
        "ALTER INDEX accounts_owner RENAME TO other_owner",
    ),
    (
        "ALTER INDEX ATTACH PARTITION",
        "ALTER INDEX events_day ATTACH PARTITION events_1_day",
    ),
    (
        "ALTER INDEX SET TABLESPACE",
        "ALTER INDEX accounts_owner SET TABLESPACE fast",
    ),
    ("DROP INDEX", "DROP INDEX accounts_owner"),
    (
        "DROP INDEX CONCURRENTLY",
        "DROP INDEX CONCURRENTLY accounts_owner",
    ),
    ("DROP TABLE", "DROP TABLE orders; DROP TABLE events_1"),
    ("TRUNCATE", "TRUNCATE accounts"),
    ("CLUSTER", "CLUSTER accounts USING accounts_owner"),
    (
        "REFRESH MATERIALIZED VIEW",
        "REFRESH MATERIALIZED VIEW totals",
    ),
    (
        "REFRESH MATERIALIZED VIEW CONCURRENTLY",
        "REFRESH MATERIALIZED VIEW CONCURRENTLY totals",
    ),
    (
        "ALTER TABLE",
        "ALTER TABLE accounts ALTER COLUMN owner SET DEFAULT 'x'",
    ),
    (
        "ALTER TABLE ADD COLUMN",
        "ALTER TABLE accounts ADD COLUMN extra int",
    ),
    (
        "ALTER TABLE DROP COLUMN",
        "ALTER TABLE accounts DROP COLUMN owner",
    ),
    (
        "ALTER TABLE ALTER COLUMN TYPE",
        "ALTER TABLE accounts ALTER COLUMN owner TYPE varchar(10)",
    ),
    (
        "ALTER TABLE ALTER COLUMN SET DEFAULT",
        "ALTER TABLE accounts ALTER COLUMN owner SET DEFAULT 'x'",
    ),
    (
        "ALTER TABLE ALTER COLUMN SET NOT NULL",
        "ALTER TABLE accounts ALTER COLUMN owner SET NOT NULL",
    ),
    (
        "ALTER TABLE ALTER COLUMN DROP",
        "ALTER TABLE accounts ALTER COLUMN owner DROP NOT NULL",
    ),
    (
        "ALTER TABLE ALTER COLUMN SET STATISTICS",
        "ALTER TABLE accounts ALTER COLUMN owner SET STATISTICS 500",
    ),
    (
        "ALTER TABLE ALTER COLUMN SET (..)",
        "ALTER TABLE accounts ALTER COLUMN owner SET (n_distinct = 5)",
    ),
    (
        "ALTER TABLE ALTER COLUMN RESET (..)",
        "ALTER TABLE accounts ALTER COLUMN owner RESET (n_distinct)",
    ),
    (
        "ALTER TABLE ALTER COLUMN SET STORAGE",
        "ALTER TABLE accounts ALTER COLUMN owner SET STORAGE PLAIN",
    ),
    (
        "ALTER TABLE ALTER COLUMN SET COMPRESSION",
        "ALTER TABLE accounts ALTER COLUMN owner SET COMPRESSION pglz",
    ),
    (
        "ALTER TABLE ALTER COLUMN ADD GENERATED",
        "ALTER TABLE accounts ALTER COLUMN id ADD GENERATED ALWAYS AS IDENTITY",
    ),
    (
        "ALTER TABLE ALTER COLUMN SET GENERATED",
        "ALTER TABLE accounts ALTER COLUMN id SET GENERATED BY DEFAULT; ALTER SEQUENCE numbers RESTART",
    ),
    (
        "ALTER TABLE ADD CHECK",
        "ALTER TABLE accounts ADD CHECK (id > 0)",
    ),
    (
        "ALTER TABLE ADD UNIQUE",
        "ALTER TABLE accounts ADD UNIQUE (owner)",
    ),
    (
        "ALTER TABLE ADD PRIMARY KEY",
        "ALTER TABLE accounts ADD PRIMARY KEY (id)",
    ),
    (
        "ALTER TABLE ADD EXCLUDE",
        "ALTER TABLE accounts ADD EXCLUDE USING btree (id WITH =)",
    ),
    (
        "ALTER TABLE ALTER CONSTRAINT",
        "ALTER TABLE orders ALTER CONSTRAINT c DEFERRABLE",
    ),
    ("ALTER TABLE RENAME", "ALTER TABLE accounts RENAME TO other"),
    (
        "ALTER TABLE OWNER TO",
        "ALTER TABLE accounts OWNER TO clerk",
    ),
    (
        "ALTER TABLE SET SCHEMA",
        "ALTER TABLE accounts SET SCHEMA other",
    ),
    (
        "ALTER TABLE SET (..)",
        "ALTER TABLE accounts SET (fillfactor = 70)",
    ),
    (
        "ALTER TABLE RESET (..)",
        "ALTER TABLE accounts RESET (fillfactor)",
    ),
    (
        "ALTER TABLE CLUSTER ON",
        "ALTER TABLE accounts CLUSTER ON accounts_owner",
    ),
    (
        "ALTER TABLE SET WITHOUT CLUSTER",
        "ALTER TABLE accounts SET WITHOUT CLUSTER",
    ),
    ("ALTER TABLE SET LOGGED", "ALTER TABLE scratch SET LOGGED"),
    (
        "ALTER TABLE SET UNLOGGED",
        "ALTER TABLE accounts SET UNLOGGED",
    ),
    (
        "ALTER TABLE SET ACCESS METHOD",
        "ALTER TABLE accounts SET ACCESS METHOD other",
    ),
    (
        "ALTER TABLE SET TABLESPACE",
        "ALTER TABLE accounts SET TABLESPACE fast",
    ),
    (
        "ALTER TABLE ENABLE TRIGGER",
        "ALTER TABLE accounts ENABLE TRIGGER t",
    ),
    (
        "ALTER TABLE ENABLE RULE",
        "ALTER TABLE accounts ENABLE RULE r",
    ),
    (
        "ALTER TABLE DISABLE RULE",
        "ALTER TABLE accounts DISABLE RULE r",
    ),
    (
        "ALTER TABLE ENABLE ROW LEVEL SECURITY",
        "ALTER TABLE accounts ENABLE ROW LEVEL SECURITY",
    ),
    (
        "ALTER TABLE DISABLE ROW LEVEL SECURITY",
        "ALTER TABLE accounts DISABLE ROW LEVEL SECURITY",
    ),
    (
        "ALTER TABLE FORCE ROW LEVEL SECURITY",
        "ALTER TABLE accounts FORCE ROW LEVEL SECURITY",
    ),
    (
        "ALTER TABLE REPLICA IDENTITY",
        "ALTER TABLE accounts REPLICA IDENTITY FULL",
    ),
    (
        "ALTER TABLE VALIDATE CONSTRAINT",
        "ALTER TABLE parts VALIDATE CONSTRAINT qty",
    ),
    (
        "ALTER TABLE SET (user_catalog_table)",
        "ALTER TABLE accounts SET (user_catalog_table = true)",
    ),
    (
        "ALTER TABLE ADD FOREIGN KEY",
        "ALTER TABLE accounts ADD FOREIGN KEY (id) REFERENCES customers",
    ),
    (
        "ALTER TABLE ADD COLUMN REFERENCES",
        "ALTER TABLE accounts ADD COLUMN extra int REFERENCES customers",
    ),
    (
        "ALTER TABLE DROP CONSTRAINT",
        "ALTER TABLE parts DROP CONSTRAINT qty",
    ),
    (
        "ALTER TABLE DISABLE TRIGGER",
        "ALTER TABLE accounts DISABLE TRIGGER t",
    ),
    (
        "ALTER TABLE INHERIT",
        "ALTER TABLE accounts INHERIT scratch",
    ),
    (
        "ALTER TABLE NO INHERIT",
        "ALTER TABLE accounts NO INHERIT scratch",
    ),
    (
        "ALTER TABLE ATTACH PARTITION",
        "ALTER TABLE events ATTACH PARTITION scratch FOR VALUES FROM (5) TO (6)",
    ),
    (
        "ALTER TABLE DETACH PARTITION",
        "ALTER TABLE events DETACH PARTITION events_1",
    ),
    (
        "ALTER TABLE DETACH PARTITION CONCURRENTLY",
        "ALTER TABLE events DETACH PARTITION events_1 CONCURRENTLY",
    ),
    ("LOCK TABLE", "LOCK TABLE accounts"),
];
