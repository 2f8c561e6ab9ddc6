//! The SQL commands, with the form of each.

use crate::commands::SqlCommand;
use crate::forms::{Form, Start};

/// Rows of commands. Each has its SQL, its form, the side of which its lock mode is told, and its note.
macro_rules! command_rows {
    ($($sql:literal $form:ident $side:ident $note:literal;)+) => {
        [$(SqlCommand { sql: $sql, form: Form::$form, side: Start::$side, note: $note }),+]
    };
}

/// The SQL commands, each with the form of its statements.
pub static COMMANDS: [SqlCommand; 105] = command_rows! {
    "SELECT" Select Target "";
    "SELECT FOR UPDATE" SelectForUpdate Target "";
    "SELECT FOR NO KEY UPDATE" SelectForUpdate Target "";
    "SELECT FOR SHARE" SelectForUpdate Target "";
    "SELECT FOR KEY SHARE" SelectForUpdate Target "";
    "SELECT NEXTVAL" Nextval Target " on the sequence";
    "COPY TO" CopyTo Target "";
    "COPY FROM" CopyFrom Target "";
    "PG_DUMP" LockAccessShare Target "";
    "INSERT" Insert Target "";
    "INSERT" CheckReferred Target " on the table that a foreign key refers to";
    "UPDATE" Update Target "";
    "UPDATE" CheckReferred Target
        " on the table that a changed foreign key refers to, or that refers to a changed key";
    "DELETE" Delete Target "";
    "DELETE" CheckReferring Target " on a table that refers to it, RowExclusiveLock where that cascades";
    "MERGE" Merge Target "";
    "VACUUM" Vacuum Target "";
    "VACUUM FULL" VacuumFull Target "";
    "ANALYZE" Analyze Target "";
    "CREATE STATISTICS" CreateStatistics Target "";
    "DROP STATISTICS" DropStatistics Target "";
    "COMMENT ON TABLE" CommentOnTable Target ", and so on a column or a view";
    "COMMENT ON CONSTRAINT" CommentOnConstraint Target ", and so on a trigger, a rule or a policy";
    "CREATE PUBLICATION FOR TABLE" PublishTable Target "";
    "ALTER PUBLICATION" PublishTable Target " on the tables that it names";
    "CREATE INDEX" CreateIndex Target "";
    "CREATE INDEX CONCURRENTLY" CreateIndexConcurrently Target
        " session, and waits until each writer's transaction has ended";
    "CREATE TRIGGER" CreateTrigger Target "";
    "ALTER TRIGGER" AlterTrigger Target "";
    "DROP TRIGGER" DropTrigger Target "";
    "CREATE RULE" CreateRule Target ", and so ALTER RULE, DROP RULE";
    "CREATE POLICY" CreatePolicy Target ", and so ALTER POLICY, DROP POLICY";
    "ALTER RULE" AlterRule Target "";
    "DROP RULE" DropRule Target "";
    "ALTER POLICY" AlterPolicy Target "";
    "DROP POLICY" DropPolicy Target "";
    "CREATE TABLE REFERENCES" CreateTableReferences Other " on the table that it refers to";
    "CREATE TABLE PARTITION OF" CreateTablePartitionOf Other " on the parent and a default partition";
    "CREATE TABLE INHERITS" CreateTableInherits Other " on the parent";
    "CREATE VIEW" ReadDefinition Target " on its tables, and AccessExclusiveLock on the view";
    "ALTER VIEW" AlterView Target " on the view";
    "DROP VIEW" DropView Target " on the view";
    "ALTER SEQUENCE" AlterSequence Target
        ", in most forms; AccessExclusiveLock with RENAME, OWNER TO, SET SCHEMA";
    "DROP SEQUENCE" DropSequence Target "";
    "REINDEX" ReindexTable Target ", and AccessExclusiveLock on the index";
    "REINDEX CONCURRENTLY" ReindexTableConcurrently Target
        " session, and waits until each transaction that uses the table has ended";
    "ALTER INDEX" AlterIndex Target " on the index, in most forms";
    "ALTER INDEX ATTACH PARTITION" AttachIndex Target
        " on the parent's, AccessExclusiveLock on the one attached, AccessShareLock on both tables";
    "ALTER INDEX SET TABLESPACE" AlterIndexTablespace Target " on the index, and copies it";
    "DROP INDEX" DropIndex Target "";
    "DROP INDEX CONCURRENTLY" DropIndexConcurrently Target
        " session, and waits until each transaction that uses the table has ended";
    "DROP TABLE" DropTable Target ", also on a partition's parent, and on both tables of a foreign key";
    "TRUNCATE" Truncate Target ", with CASCADE on the tables that refer to it too";
    "CLUSTER" Cluster Target "";
    "REFRESH MATERIALIZED VIEW" RefreshMaterializedView Target "";
    "REFRESH MATERIALIZED VIEW CONCURRENTLY" RefreshConcurrently Target "";
    "ALTER TABLE" AlterColumn Target ", in most forms: columns, types, constraints, names, owners";
    "ALTER TABLE ADD COLUMN" AddColumn Target "";
    "ALTER TABLE DROP COLUMN" DropColumn Target ", and on both tables of a foreign key that goes with it";
    "ALTER TABLE ALTER COLUMN TYPE" AlterType Target
        ", and rewrites the table unless the values stay as they are";
    "ALTER TABLE ALTER COLUMN SET DEFAULT" AlterColumn Target "";
    "ALTER TABLE ALTER COLUMN SET NOT NULL" SetNotNull Target ", and reads the table";
    "ALTER TABLE ALTER COLUMN DROP" AlterColumn Target ", of DEFAULT, NOT NULL, EXPRESSION, IDENTITY";
    "ALTER TABLE ALTER COLUMN SET STATISTICS" SetStatistics Target "";
    "ALTER TABLE ALTER COLUMN SET (..)" SetStatistics Target "";
    "ALTER TABLE ALTER COLUMN RESET (..)" SetStatistics Target "";
    "ALTER TABLE ALTER COLUMN SET STORAGE" AlterColumn Target "";
    "ALTER TABLE ALTER COLUMN SET COMPRESSION" AlterColumn Target "";
    "ALTER TABLE ALTER COLUMN ADD GENERATED" NewSequence Target ", and on the sequence";
    "ALTER TABLE ALTER COLUMN SET GENERATED" AlterColumn Target ", and ShareRowExclusiveLock on the sequence";
    "ALTER TABLE ADD CHECK" AddCheck Target ", and reads the table, unless NOT VALID";
    "ALTER TABLE ADD UNIQUE" AddUnique Target ", and builds an index, unless USING INDEX";
    "ALTER TABLE ADD PRIMARY KEY" AddUnique Target ", and builds an index, unless USING INDEX";
    "ALTER TABLE ADD EXCLUDE" AddUnique Target ", and builds an index";
    "ALTER TABLE ALTER CONSTRAINT" DropConstraint Target "";
    "ALTER TABLE RENAME" RenameTable Target ", also of a column or a constraint";
    "ALTER TABLE OWNER TO" OwnerTo Target "";
    "ALTER TABLE SET SCHEMA" SetSchema Target "";
    "ALTER TABLE SET (..)" SetParameters Target ", most storage parameters";
    "ALTER TABLE RESET (..)" SetParameters Target "";
    "ALTER TABLE CLUSTER ON" ClusterOn Target "";
    "ALTER TABLE SET WITHOUT CLUSTER" SetParameters Target "";
    "ALTER TABLE SET LOGGED" SetLogged Target ", and rewrites the table";
    "ALTER TABLE SET UNLOGGED" SetLogged Target ", and rewrites the table";
    "ALTER TABLE SET ACCESS METHOD" SetLogged Target ", and rewrites the table";
    "ALTER TABLE SET TABLESPACE" SetTablespace Target ", and copies the table";
    "ALTER TABLE ENABLE TRIGGER" EnableTrigger Target "";
    "ALTER TABLE ENABLE RULE" EnableRule Target "";
    "ALTER TABLE DISABLE RULE" EnableRule Target "";
    "ALTER TABLE ENABLE ROW LEVEL SECURITY" RowLevelSecurity Target "";
    "ALTER TABLE DISABLE ROW LEVEL SECURITY" RowLevelSecurity Target "";
    "ALTER TABLE FORCE ROW LEVEL SECURITY" RowLevelSecurity Target "";
    "ALTER TABLE REPLICA IDENTITY" ReplicaIdentity Target "";
    "ALTER TABLE VALIDATE CONSTRAINT" ValidateConstraint Target
        ", and so SET STATISTICS, CLUSTER ON, SET (fillfactor ..)";
    "ALTER TABLE SET (user_catalog_table)" SetUserCatalogTable Target "";
    "ALTER TABLE ADD FOREIGN KEY" AddForeignKey Target " on both tables";
    "ALTER TABLE ADD COLUMN REFERENCES" AddColumnReferences Target
        ", and ShareRowExclusiveLock on the table that it refers to";
    "ALTER TABLE DROP CONSTRAINT" DropConstraint Target ", of a foreign key on both tables";
    "ALTER TABLE DISABLE TRIGGER" EnableTrigger Target ", and so ENABLE TRIGGER";
    "ALTER TABLE INHERIT" Inherit Target ", and ShareUpdateExclusiveLock on the parent";
    "ALTER TABLE NO INHERIT" NoInherit Target ", and AccessShareLock on the parent";
    "ALTER TABLE ATTACH PARTITION" AttachPartition Target
        " on the parent, AccessExclusiveLock on a default partition and the table attached";
    "ALTER TABLE DETACH PARTITION" DetachPartition Target " on both tables and a default partition";
    "ALTER TABLE DETACH PARTITION CONCURRENTLY" DetachConcurrently Target
        " on both tables, and waits until each transaction that uses the parent has ended";
    "LOCK TABLE" LockAccessExclusive Target ", or the mode that it names";
};
