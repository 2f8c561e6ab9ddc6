//! The table of the forms of SQL statements: which relations each reaches, and in which lock modes.

use modes_core::Mode;

/// The relation of a statement at which a path begins.
#[derive(Clone, Copy, PartialEq, Eq)]
pub enum Start {
    /// The relation that the form is about.
    Target,
    /// The other relation that the statement names.
    Other,
}

/// The links along which a path goes, as far as they lead.
#[derive(Clone, Copy, PartialEq, Eq)]
pub enum Along {
    /// Along no links: the path stays at the relation where it begins.
    Nothing,
    /// Along links to children and partitions, unless the statement says `ONLY`.
    Family,
    /// Along links to the relations that views read, and to children and partitions, unless the statement
    /// says `ONLY`.
    Sources,
    /// Along links to the relations that a materialized view is made of, and further along those of
    /// `Sources`.
    Stored,
    /// Along links to the tables that refer to a table by a foreign key, and to children and partitions,
    /// unless the statement says `ONLY`.
    Referring,
}

/// The last step of a path.
#[derive(Clone, Copy, PartialEq, Eq)]
pub enum Hop {
    /// No last step: the path ends at the relations that it has reached.
    Stay,
    /// The last step leads to the indexes of a table.
    Indexes,
    /// The last step leads to the table of an index.
    Table,
    /// The last step leads to the index of a table's primary key.
    Key,
    /// The last step leads to the default partition of a table.
    Default,
    /// The last step leads to the tables that a table refers to by foreign keys.
    Referred,
    /// The last step leads to the tables that refer to a table by foreign keys.
    Referring,
    /// The last step leads to the sequences of a table's columns.
    Owned,
}

/// How relations are reached from those that a statement names.
#[derive(Clone, Copy, PartialEq, Eq)]
pub struct Path {
    pub start: Start,
    pub along: Along,
    pub hop: Hop,
}

/// A mode on each relation at the end of a path.
#[derive(Clone, Copy)]
pub struct Part {
    pub path: Path,
    pub mode: Mode,
}

/// How long the work takes that is done under the locks.
#[derive(Clone, Copy, PartialEq, Eq)]
pub enum Work {
    /// The work takes as long for a large table as for a small one.
    Moment,
    /// The work takes longer the more rows the statement reads or changes.
    Rows,
    /// All rows of the table are read.
    Scan,
    /// All rows of the table are read, and an index is made of them.
    Build,
    /// The table is written anew, with its indexes.
    Rewrite,
}

/// Until when locks are held.
#[derive(Clone, Copy, PartialEq, Eq)]
pub enum Until {
    /// The locks are held until the transaction's end.
    Commit,
    /// The locks are held until the statement's own end: no transaction may be open around it.
    OwnEnd,
}

/// The transactions for whose end a statement waits, beside its waits for locks.
#[derive(Clone, Copy, PartialEq, Eq)]
pub enum Awaits {
    Nobody,
    /// Each transaction that has written the table, and after these each transaction with an older snapshot.
    Writers,
    /// Each transaction that has used the table, even if only to read.
    Users,
    /// Each transaction that has used the table, and each transaction with an older snapshot.
    UsersAndSnapshots,
}

/// A form of an SQL statement. The `sql` of its `FormRow` says which.
#[derive(Clone, Copy, PartialEq, Eq)]
pub enum Form {
    Select,
    SelectForUpdate,
    ReadDefinition,
    DefineChange,
    CopyTo,
    Insert,
    InsertOnConflict,
    CopyFrom,
    CheckReferred,
    CheckReferring,
    CascadeToReferring,
    Update,
    Delete,
    Merge,
    Nextval,
    Truncate,
    TruncateCascade,
    RestartIdentity,
    LockAccessShare,
    LockRowShare,
    LockRowExclusive,
    LockShareUpdateExclusive,
    LockShare,
    LockShareRowExclusive,
    LockExclusive,
    LockAccessExclusive,
    CreateTable,
    CreateTableLike,
    CreateTableInherits,
    CreateTablePartitionOf,
    CreateTableReferences,
    CreateTableKey,
    CreateTableAs,
    CreateView,
    DropTable,
    DropPartition,
    DropView,
    AlterView,
    DropMaterializedView,
    RefreshMaterializedView,
    RefreshWithNoData,
    RefreshConcurrently,
    CreateSequence,
    SequenceOwnedBy,
    AlterSequence,
    AlterSequenceName,
    DropSequence,
    CreateIndex,
    CreateIndexThatExists,
    CreateIndexConcurrently,
    DropIndex,
    DropPartitionedIndex,
    DropIndexConcurrently,
    ReindexTable,
    ReindexIndex,
    ReindexTableConcurrently,
    ReindexIndexConcurrently,
    AlterIndex,
    AttachIndex,
    DetachIndex,
    AlterIndexTablespace,
    AddColumn,
    AddColumnRewrite,
    AddColumnCheck,
    AddColumnReferences,
    NewIndex,
    NewSequence,
    DropColumn,
    DropForeignKey,
    AlterType,
    AlterTypeOfKey,
    AlterColumn,
    SetNotNull,
    SetStatistics,
    AddCheck,
    AddCheckNotValid,
    AddForeignKey,
    AddForeignKeyNotValid,
    ReferToPartition,
    AddUnique,
    AddUsingIndex,
    AddRenamedIndex,
    ValidateConstraint,
    ValidateForeignKey,
    DropConstraint,
    DropUnique,
    RenameTable,
    RenameColumn,
    RenameKey,
    OwnerTo,
    SetSchema,
    SetParameters,
    SetUserCatalogTable,
    ClusterOn,
    SetLogged,
    SetLoggedAlready,
    SetTablespace,
    EnableTrigger,
    EnableRule,
    RowLevelSecurity,
    ReplicaIdentity,
    ReplicaIdentityIndex,
    Inherit,
    NoInherit,
    AttachPartition,
    DetachPartition,
    DetachConcurrently,
    CreateTrigger,
    AlterTrigger,
    DropTrigger,
    CreateRule,
    AlterRule,
    DropRule,
    CreatePolicy,
    AlterPolicy,
    DropPolicy,
    CreateStatistics,
    DropStatistics,
    PublishTable,
    CommentOnTable,
    CommentOnConstraint,
    Vacuum,
    VacuumFull,
    Analyze,
    AnalyzeChildren,
    AnalyzePartitions,
    Cluster,
}

/// What a form of a statement locks.
#[derive(Clone, Copy)]
pub struct FormRow {
    pub form: Form,
    /// The form as it is written in SQL.
    pub sql: &'static str,
    /// What the form locks, in the order in which the server takes the locks.
    pub parts: &'static [Part],
    pub work: Work,
    pub until: Until,
    pub awaits: Awaits,
}
