//! The table of the forms.
ghost use Rattle.std.specs.Prelude.{◌≡◌, IfSome};

use crate::forms::{Awaits, Form, FormRow, Part, Until, Work};
use crate::paths::{
    DEFAULT, FAMILY, FAMILY_INDEXES, INDEXES, OTHER, OTHER_DEFAULT, OTHER_INDEXES, OTHER_KEY,
    OWNED, REFERRED, REFERRING, REFERRING_ALL, REFERRING_ALL_INDEXES, SOURCES, SOURCES_INDEXES,
    STORED, STORED_INDEXES, TABLE, TARGET,
};
use modes_core::Mode;

/// Rows of forms, each with the form, its SQL, each lock mode with the paths that have it, in the order in
/// which the server takes the locks, and its work. Behind the work stands until when the locks are held and
/// whose end is awaited, where that isn't `Commit` and `Nobody`.
macro_rules! form_rows {
    ($(
        $form:ident $sql:literal [$($mode:ident $($path:ident)+),+] $work:ident $($until:ident $awaits:ident)?;
    )+) => {
        [$(FormRow {
            form: Form::$form,
            sql: $sql,
            parts: &[$($(Part { path: $path, mode: Mode::$mode }),+),+],
            work: Work::$work,
            until: until!($($until)?),
            awaits: awaits!($($awaits)?),
        }),+]
    };
}

/// Until when the locks of a row are held.
macro_rules! until {
    () => { Until::Commit };
    ($until:ident) => { Until::$until };
}

/// Whose end the statements of a row await.
macro_rules! awaits {
    () => { Awaits::Nobody };
    ($awaits:ident) => { Awaits::$awaits };
}

/// Each form with what it locks.
static FORM_ROWS: [FormRow; 127] = form_rows! {
    // Queries, changes of rows, and `LOCK TABLE`.
    Select "SELECT" [AccessShare SOURCES SOURCES_INDEXES] Rows;
    SelectForUpdate "SELECT FOR UPDATE" [RowShare SOURCES SOURCES_INDEXES] Rows;
    ReadDefinition "CREATE VIEW AS SELECT" [AccessShare TARGET] Moment;
    DefineChange "PREPARE AS UPDATE" [RowExclusive TARGET] Moment;
    CopyTo "COPY TO" [AccessShare TARGET] Scan;
    Insert "INSERT" [RowExclusive SOURCES OWNED] Rows;
    InsertOnConflict "INSERT ON CONFLICT" [RowExclusive TARGET INDEXES] Rows;
    CopyFrom "COPY FROM" [RowExclusive FAMILY OWNED] Rows;
    CheckReferred "INSERT REFERENCES" [RowShare TARGET INDEXES] Rows;
    CheckReferring "DELETE REFERENCED" [RowShare TARGET INDEXES] Rows;
    CascadeToReferring "DELETE CASCADE" [RowExclusive TARGET INDEXES] Rows;
    Update "UPDATE" [RowExclusive SOURCES SOURCES_INDEXES] Rows;
    Delete "DELETE" [RowExclusive SOURCES SOURCES_INDEXES] Rows;
    Merge "MERGE" [RowExclusive SOURCES SOURCES_INDEXES] Rows;
    Nextval "SELECT NEXTVAL" [RowExclusive TARGET] Moment;
    Truncate "TRUNCATE" [AccessExclusive FAMILY FAMILY_INDEXES] Moment;
    TruncateCascade "TRUNCATE CASCADE" [AccessExclusive REFERRING_ALL REFERRING_ALL_INDEXES] Moment;
    RestartIdentity "TRUNCATE RESTART IDENTITY" [AccessExclusive OWNED] Moment;
    LockAccessShare "LOCK TABLE IN ACCESS SHARE MODE" [AccessShare SOURCES] Moment;
    LockRowShare "LOCK TABLE IN ROW SHARE MODE" [RowShare SOURCES] Moment;
    LockRowExclusive "LOCK TABLE IN ROW EXCLUSIVE MODE" [RowExclusive SOURCES] Moment;
    LockShareUpdateExclusive "LOCK TABLE IN SHARE UPDATE EXCLUSIVE MODE"
        [ShareUpdateExclusive SOURCES] Moment;
    LockShare "LOCK TABLE IN SHARE MODE" [Share SOURCES] Moment;
    LockShareRowExclusive "LOCK TABLE IN SHARE ROW EXCLUSIVE MODE" [ShareRowExclusive SOURCES] Moment;
    LockExclusive "LOCK TABLE IN EXCLUSIVE MODE" [Exclusive SOURCES] Moment;
    LockAccessExclusive "LOCK TABLE IN ACCESS EXCLUSIVE MODE" [AccessExclusive SOURCES] Moment;

    // What makes, changes and drops relations, but for `ALTER TABLE`.
    CreateTable "CREATE TABLE" [AccessExclusive TARGET] Moment;
    CreateTableLike "CREATE TABLE LIKE" [AccessShare OTHER] Moment;
    CreateTableInherits "CREATE TABLE INHERITS" [ShareUpdateExclusive OTHER] Moment;
    CreateTablePartitionOf "CREATE TABLE PARTITION OF" [AccessExclusive OTHER OTHER_DEFAULT] Scan;
    CreateTableReferences "CREATE TABLE REFERENCES" [ShareRowExclusive OTHER, AccessShare OTHER_KEY] Moment;
    CreateTableKey "CREATE TABLE PRIMARY KEY" [AccessExclusive OTHER] Moment;
    CreateTableAs "CREATE TABLE AS" [AccessExclusive TARGET] Rows;
    CreateView "CREATE VIEW" [AccessExclusive TARGET] Moment;
    DropTable "DROP TABLE" [AccessExclusive TARGET DEFAULT INDEXES REFERRED REFERRING OWNED] Moment;
    DropPartition "DROP TABLE of a partition" [AccessExclusive OTHER OTHER_DEFAULT] Moment;
    DropView "DROP VIEW" [AccessExclusive TARGET] Moment;
    AlterView "ALTER VIEW" [AccessExclusive TARGET] Moment;
    DropMaterializedView "DROP MATERIALIZED VIEW" [AccessExclusive TARGET INDEXES] Moment;
    RefreshMaterializedView "REFRESH MATERIALIZED VIEW"
        [AccessExclusive TARGET, AccessShare STORED STORED_INDEXES, AccessExclusive INDEXES] Rewrite;
    RefreshWithNoData "REFRESH MATERIALIZED VIEW WITH NO DATA" [AccessExclusive TARGET INDEXES] Moment;
    RefreshConcurrently "REFRESH MATERIALIZED VIEW CONCURRENTLY"
        [Exclusive TARGET, AccessShare STORED STORED_INDEXES, RowExclusive INDEXES] Scan;
    CreateSequence "CREATE SEQUENCE" [AccessExclusive TARGET] Moment;
    SequenceOwnedBy "CREATE SEQUENCE OWNED BY" [AccessShare OTHER] Moment;
    AlterSequence "ALTER SEQUENCE" [ShareRowExclusive TARGET] Moment;
    AlterSequenceName "ALTER SEQUENCE RENAME" [AccessExclusive TARGET] Moment;
    DropSequence "DROP SEQUENCE" [AccessExclusive TARGET] Moment;
    CreateIndex "CREATE INDEX" [Share FAMILY, AccessExclusive OTHER] Build;
    CreateIndexThatExists "CREATE INDEX IF NOT EXISTS" [Share TARGET] Moment;
    CreateIndexConcurrently "CREATE INDEX CONCURRENTLY" [ShareUpdateExclusive TARGET] Build OwnEnd Writers;
    DropIndex "DROP INDEX" [AccessExclusive TABLE TARGET] Moment;
    DropPartitionedIndex "DROP INDEX of a partitioned table" [AccessExclusive OTHER TARGET] Moment;
    DropIndexConcurrently "DROP INDEX CONCURRENTLY" [ShareUpdateExclusive TABLE TARGET] Moment OwnEnd Users;
    ReindexTable "REINDEX TABLE" [Share FAMILY, AccessExclusive FAMILY_INDEXES] Build;
    ReindexIndex "REINDEX INDEX" [Share TABLE, AccessExclusive TARGET] Build;
    ReindexTableConcurrently "REINDEX TABLE CONCURRENTLY"
        [ShareUpdateExclusive FAMILY FAMILY_INDEXES] Build OwnEnd UsersAndSnapshots;
    ReindexIndexConcurrently "REINDEX INDEX CONCURRENTLY"
        [ShareUpdateExclusive TABLE TARGET] Build OwnEnd UsersAndSnapshots;
    AlterIndex "ALTER INDEX" [ShareUpdateExclusive TARGET] Moment;
    AttachIndex "ALTER INDEX ATTACH PARTITION" [ShareUpdateExclusive TARGET, AccessExclusive OTHER] Moment;
    DetachIndex "ALTER TABLE DETACH PARTITION with an index" [AccessExclusive TARGET] Moment;
    AlterIndexTablespace "ALTER INDEX SET TABLESPACE" [AccessExclusive TARGET] Rewrite;

    // `ALTER TABLE`.
    AddColumn "ALTER TABLE ADD COLUMN" [AccessExclusive FAMILY] Moment;
    AddColumnRewrite "ALTER TABLE ADD COLUMN with a volatile default"
        [AccessExclusive FAMILY FAMILY_INDEXES] Rewrite;
    AddColumnCheck "ALTER TABLE ADD COLUMN CHECK" [AccessExclusive FAMILY] Scan;
    AddColumnReferences "ALTER TABLE ADD COLUMN REFERENCES"
        [AccessExclusive TARGET, ShareRowExclusive OTHER, AccessShare OTHER_KEY] Moment;
    NewIndex "ALTER TABLE ADD COLUMN UNIQUE" [AccessExclusive TARGET OTHER] Build;
    NewSequence "ALTER TABLE ADD COLUMN serial" [AccessExclusive TARGET OTHER] Moment;
    DropColumn "ALTER TABLE DROP COLUMN" [AccessExclusive FAMILY] Moment;
    DropForeignKey "ALTER TABLE DROP CONSTRAINT of a foreign key" [AccessExclusive TARGET OTHER] Moment;
    AlterType "ALTER TABLE ALTER COLUMN TYPE" [AccessExclusive FAMILY FAMILY_INDEXES] Rewrite;
    AlterTypeOfKey "ALTER TABLE ALTER COLUMN TYPE of a foreign key"
        [AccessExclusive TARGET OTHER, AccessShare OTHER_KEY] Rewrite;
    AlterColumn "ALTER TABLE ALTER COLUMN" [AccessExclusive FAMILY] Moment;
    SetNotNull "ALTER TABLE ALTER COLUMN SET NOT NULL" [AccessExclusive FAMILY] Scan;
    SetStatistics "ALTER TABLE ALTER COLUMN SET STATISTICS" [ShareUpdateExclusive FAMILY] Moment;
    AddCheck "ALTER TABLE ADD CHECK" [AccessExclusive FAMILY] Scan;
    AddCheckNotValid "ALTER TABLE ADD CHECK NOT VALID" [AccessExclusive FAMILY] Moment;
    AddForeignKey "ALTER TABLE ADD FOREIGN KEY"
        [ShareRowExclusive TARGET OTHER, AccessShare INDEXES OTHER_INDEXES] Scan;
    AddForeignKeyNotValid "ALTER TABLE ADD FOREIGN KEY NOT VALID"
        [ShareRowExclusive TARGET OTHER, AccessShare OTHER_KEY] Moment;
    ReferToPartition "REFERENCES a partitioned table" [ShareRowExclusive TARGET] Moment;
    AddUnique "ALTER TABLE ADD UNIQUE" [AccessExclusive TARGET OTHER] Build;
    AddUsingIndex "ALTER TABLE ADD UNIQUE USING INDEX" [AccessExclusive TARGET, AccessShare OTHER] Moment;
    AddRenamedIndex "ALTER TABLE ADD CONSTRAINT USING INDEX of another name"
        [AccessExclusive TARGET, ShareUpdateExclusive OTHER] Moment;
    ValidateConstraint "ALTER TABLE VALIDATE CONSTRAINT" [ShareUpdateExclusive FAMILY] Scan;
    ValidateForeignKey "ALTER TABLE VALIDATE CONSTRAINT of a foreign key"
        [ShareUpdateExclusive TARGET, RowShare OTHER, AccessShare INDEXES OTHER_INDEXES] Scan;
    DropConstraint "ALTER TABLE DROP CONSTRAINT" [AccessExclusive FAMILY] Moment;
    DropUnique "ALTER TABLE DROP CONSTRAINT of a key" [AccessExclusive TARGET OTHER] Moment;
    RenameTable "ALTER TABLE RENAME TO" [AccessExclusive TARGET] Moment;
    RenameColumn "ALTER TABLE RENAME COLUMN" [AccessExclusive FAMILY] Moment;
    RenameKey "ALTER TABLE RENAME CONSTRAINT of a key"
        [AccessExclusive TARGET, ShareUpdateExclusive OTHER] Moment;
    OwnerTo "ALTER TABLE OWNER TO" [AccessExclusive TARGET INDEXES OWNED] Moment;
    SetSchema "ALTER TABLE SET SCHEMA" [AccessExclusive TARGET OWNED] Moment;
    SetParameters "ALTER TABLE SET (fillfactor)" [ShareUpdateExclusive TARGET] Moment;
    SetUserCatalogTable "ALTER TABLE SET (user_catalog_table)" [AccessExclusive TARGET] Moment;
    ClusterOn "ALTER TABLE CLUSTER ON" [ShareUpdateExclusive TARGET OTHER] Moment;
    SetLogged "ALTER TABLE SET LOGGED" [AccessExclusive TARGET INDEXES] Rewrite;
    SetLoggedAlready "ALTER TABLE SET LOGGED of a logged table" [AccessExclusive TARGET] Moment;
    SetTablespace "ALTER TABLE SET TABLESPACE" [AccessExclusive TARGET] Rewrite;
    EnableTrigger "ALTER TABLE ENABLE TRIGGER" [ShareRowExclusive FAMILY] Moment;
    EnableRule "ALTER TABLE ENABLE RULE" [AccessExclusive TARGET] Moment;
    RowLevelSecurity "ALTER TABLE ENABLE ROW LEVEL SECURITY" [AccessExclusive TARGET] Moment;
    ReplicaIdentity "ALTER TABLE REPLICA IDENTITY" [AccessExclusive TARGET] Moment;
    ReplicaIdentityIndex "ALTER TABLE REPLICA IDENTITY USING INDEX"
        [AccessExclusive TARGET, Share OTHER] Moment;
    Inherit "ALTER TABLE INHERIT" [AccessExclusive TARGET, ShareUpdateExclusive OTHER] Moment;
    NoInherit "ALTER TABLE NO INHERIT" [AccessExclusive TARGET, AccessShare OTHER] Moment;
    AttachPartition "ALTER TABLE ATTACH PARTITION"
        [ShareUpdateExclusive TARGET, AccessExclusive DEFAULT OTHER] Scan;
    DetachPartition "ALTER TABLE DETACH PARTITION" [AccessExclusive TARGET DEFAULT OTHER] Moment;
    DetachConcurrently "ALTER TABLE DETACH PARTITION CONCURRENTLY"
        [ShareUpdateExclusive TARGET OTHER TARGET, AccessExclusive OTHER] Moment OwnEnd Users;

    // Triggers, rules, policies, comments and maintenance.
    CreateTrigger "CREATE TRIGGER" [ShareRowExclusive FAMILY] Moment;
    AlterTrigger "ALTER TRIGGER" [AccessExclusive FAMILY] Moment;
    DropTrigger "DROP TRIGGER" [AccessExclusive FAMILY] Moment;
    CreateRule "CREATE RULE" [AccessExclusive TARGET] Moment;
    AlterRule "ALTER RULE" [AccessExclusive TARGET] Moment;
    DropRule "DROP RULE" [AccessExclusive TARGET] Moment;
    CreatePolicy "CREATE POLICY" [AccessExclusive TARGET] Moment;
    AlterPolicy "ALTER POLICY" [AccessExclusive TARGET] Moment;
    DropPolicy "DROP POLICY" [AccessExclusive TARGET] Moment;
    CreateStatistics "CREATE STATISTICS" [ShareUpdateExclusive TARGET] Moment;
    DropStatistics "DROP STATISTICS" [ShareUpdateExclusive TARGET] Moment;
    PublishTable "CREATE PUBLICATION FOR TABLE" [ShareUpdateExclusive FAMILY] Moment;
    CommentOnTable "COMMENT ON TABLE" [ShareUpdateExclusive TARGET] Moment;
    CommentOnConstraint "COMMENT ON CONSTRAINT" [AccessShare TARGET] Moment;
    Vacuum "VACUUM" [ShareUpdateExclusive FAMILY, RowExclusive FAMILY_INDEXES] Scan OwnEnd Nobody;
    VacuumFull "VACUUM FULL" [AccessExclusive FAMILY FAMILY_INDEXES] Rewrite OwnEnd Nobody;
    Analyze "ANALYZE" [ShareUpdateExclusive TARGET, AccessShare INDEXES] Scan;
    AnalyzeChildren "ANALYZE of a parent" [AccessShare FAMILY] Scan;
    AnalyzePartitions "ANALYZE of a partitioned table"
        [ShareUpdateExclusive FAMILY, AccessShare FAMILY_INDEXES] Scan;
    Cluster "CLUSTER" [AccessExclusive TARGET INDEXES] Rewrite;
};

/// The rows of all forms.
pub fn all_rows() -> &'static [FormRow] {
    &FORM_ROWS
}

/// The row of `form` in the table of the forms, if it has one.
pub fn row_of(form: Form) -> Option<&'static FormRow>
    ensures { IfSome result (λ row. row.now.form ≡ form) }
{
    for row in all_rows() {
        if row.form == form {
            return Some(row);
        }
    }
    None
}
