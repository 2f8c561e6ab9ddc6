//! Which forms the rows of the page of SQL statements tell of.

use modes_core::Mode;
use sql_locks::Form;

/// The forms of a row of the tables of SQL statements in docs/POSTGRESQL.md.
#[derive(Clone, Copy)]
pub struct PageForms {
    /// The row's statements, as docs/POSTGRESQL.md has them.
    pub sql: &'static str,
    pub forms: &'static [Form],
    /// The modes that the row names beside those of its forms, though others may wait for them: on an index
    /// that nobody uses yet or any more, by a try, and on advisory keys.
    pub apart: &'static [Mode],
}

/// The forms whose mode the statement itself names, so that docs/POSTGRESQL.md names none.
pub fn forms_of_named_modes() -> &'static [Form] {
    &NAMED
}

/// The forms of the rows of table 1 of docs/POSTGRESQL.md.
pub static FORMS_1: [PageForms; 14] = [
    PageForms {
        sql: "SELECT, TABLE, COPY (SELECT ..) TO, DECLARE CURSOR, EXPLAIN of a read",
        forms: &[Form::Select],
        apart: &[],
    },
    PageForms {
        sql: "COPY table TO",
        forms: &[Form::CopyTo],
        apart: &[],
    },
    PageForms {
        sql: "pg_dump, which begins with LOCK TABLE .. IN ACCESS SHARE MODE",
        forms: &[Form::LockAccessShare, Form::CopyTo],
        apart: &[],
    },
    PageForms {
        sql: "SELECT .. FOR UPDATE, FOR NO KEY UPDATE, FOR SHARE, FOR KEY SHARE",
        forms: &[Form::SelectForUpdate],
        apart: &[],
    },
    PageForms {
        sql: "INSERT, COPY FROM",
        forms: &[Form::Insert, Form::InsertOnConflict, Form::CopyFrom],
        apart: &[],
    },
    PageForms {
        sql: "the check of a foreign key, on an INSERT, a COPY FROM or an UPDATE that changes it",
        forms: &[Form::CheckReferred],
        apart: &[],
    },
    PageForms {
        sql: "a default of a sequence, an identity or a serial column",
        forms: &[Form::Nextval],
        apart: &[],
    },
    PageForms {
        sql: "UPDATE",
        forms: &[Form::Update],
        apart: &[],
    },
    PageForms {
        sql: "a change of the key of a row that is referred to, or its DELETE",
        forms: &[Form::CheckReferring, Form::CascadeToReferring],
        apart: &[],
    },
    PageForms {
        sql: "DELETE, MERGE",
        forms: &[Form::Delete, Form::Merge],
        apart: &[],
    },
    PageForms {
        sql: "SELECT nextval(..), setval(..)",
        forms: &[Form::Nextval],
        apart: &[],
    },
    PageForms {
        sql: "TRUNCATE",
        forms: &[Form::Truncate, Form::TruncateCascade, Form::RestartIdentity],
        apart: &[],
    },
    PageForms {
        sql: "LOCK TABLE .. IN .. MODE",
        forms: &[Form::LockAccessExclusive],
        apart: &[],
    },
    PageForms {
        sql: "CALL, DO, SET, VALUES",
        forms: &[],
        apart: &[],
    },
];

/// The forms of the rows of table 2 of docs/POSTGRESQL.md.
pub static FORMS_2: [PageForms; 11] = [
    PageForms {
        sql: "CREATE INDEX",
        forms: &[Form::CreateIndex],
        apart: &[],
    },
    PageForms {
        sql: "CREATE INDEX IF NOT EXISTS where it exists",
        forms: &[Form::CreateIndexThatExists],
        apart: &[],
    },
    PageForms {
        sql: "CREATE INDEX CONCURRENTLY",
        forms: &[Form::CreateIndexConcurrently],
        apart: &[Mode::AccessExclusive, Mode::RowExclusive],
    },
    PageForms {
        sql: "DROP INDEX",
        forms: &[Form::DropIndex, Form::DropPartitionedIndex],
        apart: &[],
    },
    PageForms {
        sql: "DROP INDEX CONCURRENTLY",
        forms: &[Form::DropIndexConcurrently],
        apart: &[Mode::AccessExclusive],
    },
    PageForms {
        sql: "REINDEX INDEX, REINDEX TABLE",
        forms: &[Form::ReindexIndex, Form::ReindexTable],
        apart: &[],
    },
    PageForms {
        sql: "REINDEX SCHEMA, DATABASE, SYSTEM, and of a partitioned table",
        forms: &[],
        apart: &[],
    },
    PageForms {
        sql: "REINDEX .. CONCURRENTLY",
        forms: &[
            Form::ReindexTableConcurrently,
            Form::ReindexIndexConcurrently,
        ],
        apart: &[Mode::AccessExclusive],
    },
    PageForms {
        sql: "ALTER INDEX with RENAME, SET (..), RESET (..), ALTER COLUMN .. SET STATISTICS",
        forms: &[Form::AlterIndex],
        apart: &[],
    },
    PageForms {
        sql: "ALTER INDEX .. ATTACH PARTITION",
        forms: &[Form::AttachIndex, Form::ReadDefinition],
        apart: &[],
    },
    PageForms {
        sql: "ALTER INDEX .. SET TABLESPACE, DEPENDS ON EXTENSION",
        forms: &[Form::AlterIndexTablespace],
        apart: &[],
    },
];

/// The forms of the rows of table 3 of docs/POSTGRESQL.md.
pub static FORMS_3: [PageForms; 27] = [
    PageForms {
        sql: "ADD COLUMN, with no default or a constant one",
        forms: &[Form::AddColumn],
        apart: &[],
    },
    PageForms {
        sql: "ADD COLUMN with a volatile default, GENERATED .. STORED, an identity or serial",
        forms: &[Form::AddColumnRewrite, Form::NewSequence],
        apart: &[],
    },
    PageForms {
        sql: "ADD COLUMN .. CHECK",
        forms: &[Form::AddColumnCheck],
        apart: &[],
    },
    PageForms {
        sql: "ADD COLUMN .. UNIQUE, PRIMARY KEY",
        forms: &[Form::NewIndex],
        apart: &[],
    },
    PageForms {
        sql: "ADD COLUMN .. REFERENCES",
        forms: &[Form::AddColumnReferences],
        apart: &[],
    },
    PageForms {
        sql: "DROP COLUMN",
        forms: &[Form::DropColumn, Form::DropForeignKey],
        apart: &[],
    },
    PageForms {
        sql: "ALTER COLUMN .. TYPE",
        forms: &[Form::AlterType, Form::AlterTypeOfKey],
        apart: &[],
    },
    PageForms {
        sql: "ALTER COLUMN .. SET DEFAULT, DROP DEFAULT, DROP NOT NULL, DROP EXPRESSION",
        forms: &[Form::AlterColumn],
        apart: &[],
    },
    PageForms {
        sql: "ALTER COLUMN .. SET NOT NULL",
        forms: &[Form::SetNotNull],
        apart: &[],
    },
    PageForms {
        sql: "ALTER COLUMN .. SET STATISTICS, SET (n_distinct ..), RESET (..)",
        forms: &[Form::SetStatistics],
        apart: &[],
    },
    PageForms {
        sql: "ALTER COLUMN .. SET STORAGE, SET COMPRESSION",
        forms: &[Form::AlterColumn],
        apart: &[],
    },
    PageForms {
        sql: "ALTER COLUMN .. ADD GENERATED .. AS IDENTITY, SET GENERATED, DROP IDENTITY",
        forms: &[Form::AlterColumn, Form::NewSequence, Form::AlterSequence],
        apart: &[],
    },
    PageForms {
        sql: "ADD CHECK",
        forms: &[Form::AddCheck, Form::AddCheckNotValid],
        apart: &[],
    },
    PageForms {
        sql: "ADD FOREIGN KEY",
        forms: &[
            Form::AddForeignKey,
            Form::AddForeignKeyNotValid,
            Form::ReferToPartition,
        ],
        apart: &[],
    },
    PageForms {
        sql: "ADD UNIQUE, ADD PRIMARY KEY, ADD EXCLUDE",
        forms: &[Form::AddUnique],
        apart: &[],
    },
    PageForms {
        sql: "ADD UNIQUE or PRIMARY KEY .. USING INDEX",
        forms: &[Form::AddUsingIndex, Form::AddRenamedIndex],
        apart: &[],
    },
    PageForms {
        sql: "VALIDATE CONSTRAINT",
        forms: &[Form::ValidateConstraint, Form::ValidateForeignKey],
        apart: &[],
    },
    PageForms {
        sql: "DROP CONSTRAINT",
        forms: &[Form::DropConstraint, Form::DropUnique, Form::DropForeignKey],
        apart: &[],
    },
    PageForms {
        sql: "ALTER CONSTRAINT, RENAME of the table, a column or a constraint, OWNER TO, SET SCHEMA",
        forms: &[
            Form::DropConstraint,
            Form::RenameTable,
            Form::RenameColumn,
            Form::RenameKey,
            Form::OwnerTo,
            Form::SetSchema,
        ],
        apart: &[],
    },
    PageForms {
        sql: "SET (fillfactor ..) and most other storage parameters, RESET (..)",
        forms: &[Form::SetParameters],
        apart: &[],
    },
    PageForms {
        sql: "SET (user_catalog_table ..)",
        forms: &[Form::SetUserCatalogTable],
        apart: &[],
    },
    PageForms {
        sql: "CLUSTER ON, SET WITHOUT CLUSTER",
        forms: &[Form::ClusterOn, Form::SetParameters],
        apart: &[],
    },
    PageForms {
        sql: "SET LOGGED, SET UNLOGGED, SET ACCESS METHOD",
        forms: &[Form::SetLogged, Form::SetLoggedAlready],
        apart: &[],
    },
    PageForms {
        sql: "SET TABLESPACE",
        forms: &[Form::SetTablespace],
        apart: &[],
    },
    PageForms {
        sql: "ENABLE TRIGGER, DISABLE TRIGGER, also ALL, ALWAYS, REPLICA",
        forms: &[Form::EnableTrigger],
        apart: &[],
    },
    PageForms {
        sql: "ENABLE RULE, DISABLE RULE, ENABLE ROW LEVEL SECURITY and its like, OF, NOT OF",
        forms: &[Form::EnableRule, Form::RowLevelSecurity],
        apart: &[],
    },
    PageForms {
        sql: "REPLICA IDENTITY",
        forms: &[Form::ReplicaIdentity, Form::ReplicaIdentityIndex],
        apart: &[],
    },
];

/// The forms of the rows of table 4 of docs/POSTGRESQL.md.
pub static FORMS_4: [PageForms; 8] = [
    PageForms {
        sql: "ALTER TABLE .. ATTACH PARTITION",
        forms: &[Form::AttachPartition],
        apart: &[],
    },
    PageForms {
        sql: "ALTER TABLE .. DETACH PARTITION",
        forms: &[Form::DetachPartition, Form::DetachIndex],
        apart: &[],
    },
    PageForms {
        sql: "ALTER TABLE .. DETACH PARTITION CONCURRENTLY, refused where there is a default partition",
        forms: &[Form::DetachConcurrently],
        apart: &[],
    },
    PageForms {
        sql: "CREATE TABLE .. PARTITION OF",
        forms: &[Form::CreateTablePartitionOf],
        apart: &[],
    },
    PageForms {
        sql: "DROP TABLE of a partition",
        forms: &[Form::DropPartition],
        apart: &[],
    },
    PageForms {
        sql: "ALTER TABLE .. INHERIT",
        forms: &[Form::Inherit],
        apart: &[],
    },
    PageForms {
        sql: "ALTER TABLE .. NO INHERIT",
        forms: &[Form::NoInherit],
        apart: &[],
    },
    PageForms {
        sql: "CREATE TABLE .. INHERITS",
        forms: &[Form::CreateTableInherits],
        apart: &[],
    },
];

/// The forms of the rows of table 5 of docs/POSTGRESQL.md.
pub static FORMS_5: [PageForms; 14] = [
    PageForms {
        sql: "CREATE TABLE",
        forms: &[
            Form::CreateTable,
            Form::CreateTableLike,
            Form::CreateTableReferences,
            Form::CreateTableKey,
            Form::CreateTableAs,
        ],
        apart: &[],
    },
    PageForms {
        sql: "CREATE FOREIGN TABLE, CREATE TABLE .. OF",
        forms: &[Form::CreateTable, Form::ReadDefinition],
        apart: &[],
    },
    PageForms {
        sql: "ALTER FOREIGN TABLE, DROP FOREIGN TABLE",
        forms: &[Form::AlterColumn, Form::DropTable],
        apart: &[],
    },
    PageForms {
        sql: "DROP TABLE, DROP SCHEMA .. CASCADE",
        forms: &[Form::DropTable],
        apart: &[],
    },
    PageForms {
        sql: "CREATE VIEW, CREATE OR REPLACE VIEW",
        forms: &[Form::CreateView, Form::ReadDefinition],
        apart: &[],
    },
    PageForms {
        sql: "ALTER VIEW, DROP VIEW",
        forms: &[Form::AlterView, Form::DropView],
        apart: &[],
    },
    PageForms {
        sql: "CREATE MATERIALIZED VIEW",
        forms: &[Form::CreateTableAs, Form::Select],
        apart: &[],
    },
    PageForms {
        sql: "REFRESH MATERIALIZED VIEW",
        forms: &[Form::RefreshMaterializedView, Form::RefreshWithNoData],
        apart: &[],
    },
    PageForms {
        sql: "REFRESH MATERIALIZED VIEW CONCURRENTLY",
        forms: &[Form::RefreshConcurrently],
        apart: &[],
    },
    PageForms {
        sql: "ALTER MATERIALIZED VIEW with RENAME; with SET (..), CLUSTER ON, SET STATISTICS",
        forms: &[
            Form::RenameTable,
            Form::SetParameters,
            Form::ClusterOn,
            Form::SetStatistics,
        ],
        apart: &[],
    },
    PageForms {
        sql: "DROP MATERIALIZED VIEW",
        forms: &[Form::DropMaterializedView],
        apart: &[],
    },
    PageForms {
        sql: "CREATE SEQUENCE",
        forms: &[Form::CreateSequence, Form::SequenceOwnedBy],
        apart: &[],
    },
    PageForms {
        sql: "ALTER SEQUENCE",
        forms: &[Form::AlterSequence, Form::SequenceOwnedBy],
        apart: &[],
    },
    PageForms {
        sql: "ALTER SEQUENCE with RENAME, OWNER TO, SET SCHEMA, SET LOGGED; DROP SEQUENCE",
        forms: &[Form::AlterSequenceName, Form::DropSequence],
        apart: &[],
    },
];

/// The forms of the rows of table 6 of docs/POSTGRESQL.md.
pub static FORMS_6: [PageForms; 16] = [
    PageForms {
        sql: "CREATE TRIGGER",
        forms: &[Form::CreateTrigger],
        apart: &[],
    },
    PageForms {
        sql: "CREATE CONSTRAINT TRIGGER .. FROM",
        forms: &[Form::CreateTrigger, Form::ReadDefinition],
        apart: &[],
    },
    PageForms {
        sql: "ALTER TRIGGER, DROP TRIGGER, DROP FUNCTION .. CASCADE of its function",
        forms: &[Form::AlterTrigger, Form::DropTrigger],
        apart: &[],
    },
    PageForms {
        sql: "CREATE RULE, ALTER RULE, DROP RULE",
        forms: &[
            Form::CreateRule,
            Form::AlterRule,
            Form::DropRule,
            Form::DefineChange,
        ],
        apart: &[],
    },
    PageForms {
        sql: "ALTER TYPE .. CASCADE, DROP TYPE .. CASCADE of a composite type",
        forms: &[Form::AlterColumn],
        apart: &[],
    },
    PageForms {
        sql: "CREATE POLICY, ALTER POLICY, DROP POLICY",
        forms: &[
            Form::CreatePolicy,
            Form::AlterPolicy,
            Form::DropPolicy,
            Form::ReadDefinition,
        ],
        apart: &[],
    },
    PageForms {
        sql: "CREATE STATISTICS, DROP STATISTICS",
        forms: &[Form::CreateStatistics, Form::DropStatistics],
        apart: &[],
    },
    PageForms {
        sql: "ALTER STATISTICS",
        forms: &[],
        apart: &[],
    },
    PageForms {
        sql: "CREATE PUBLICATION .. FOR TABLE, ALTER PUBLICATION with ADD, DROP, SET TABLE",
        forms: &[Form::PublishTable],
        apart: &[],
    },
    PageForms {
        sql: "CREATE PUBLICATION for all tables or a schema's, DROP PUBLICATION",
        forms: &[],
        apart: &[],
    },
    PageForms {
        sql: "COMMENT ON a table, column, view, index or sequence",
        forms: &[Form::CommentOnTable],
        apart: &[],
    },
    PageForms {
        sql: "COMMENT ON a constraint, trigger, rule or policy",
        forms: &[Form::CommentOnConstraint],
        apart: &[],
    },
    PageForms {
        sql: "SECURITY LABEL (*not tried*: it needs a provider)",
        forms: &[Form::CommentOnTable],
        apart: &[],
    },
    PageForms {
        sql: "GRANT, REVOKE, ALTER DEFAULT PRIVILEGES",
        forms: &[],
        apart: &[],
    },
    PageForms {
        sql: "REASSIGN OWNED",
        forms: &[Form::OwnerTo],
        apart: &[],
    },
    PageForms {
        sql: "DROP OWNED",
        forms: &[],
        apart: &[],
    },
];

/// The forms of the rows of table 7 of docs/POSTGRESQL.md.
pub static FORMS_7: [PageForms; 6] = [
    PageForms {
        sql: "VACUUM, with FREEZE too",
        forms: &[Form::Vacuum],
        apart: &[Mode::AccessExclusive],
    },
    PageForms {
        sql: "VACUUM (SKIP_LOCKED)",
        forms: &[],
        apart: &[],
    },
    PageForms {
        sql: "VACUUM FULL, CLUSTER",
        forms: &[Form::VacuumFull, Form::Cluster],
        apart: &[],
    },
    PageForms {
        sql: "ANALYZE",
        forms: &[
            Form::Analyze,
            Form::AnalyzeChildren,
            Form::AnalyzePartitions,
        ],
        apart: &[],
    },
    PageForms {
        sql: "VACUUM, ANALYZE of a whole database",
        forms: &[],
        apart: &[],
    },
    PageForms {
        sql: "pg_advisory_lock(..), pg_advisory_xact_lock(..)",
        forms: &[],
        apart: &[Mode::Exclusive, Mode::Share],
    },
];

static NAMED: [Form; 6] = [
    Form::LockRowShare,
    Form::LockRowExclusive,
    Form::LockShareUpdateExclusive,
    Form::LockShare,
    Form::LockShareRowExclusive,
    Form::LockExclusive,
];
