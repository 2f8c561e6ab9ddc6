//! The paths by which relations are reached.

use crate::forms::{Along, Hop, Path, Start};

/// A path from a relation of the statement, along links, with its last step.
macro_rules! path {
    ($start:ident, $along:ident, $hop:ident) => {
        Path {
            start: Start::$start,
            along: Along::$along,
            hop: Hop::$hop,
        }
    };
}

/// The path to the relation that the form is about, and no further.
pub const TARGET: Path = path!(Target, Nothing, Stay);

/// The path to the other relation that the statement names, and no further.
pub const OTHER: Path = path!(Other, Nothing, Stay);

/// The path to the relation that the form is about, with its children and partitions.
pub const FAMILY: Path = path!(Target, Family, Stay);

/// The path to the indexes of the relation that the form is about, and of its children and partitions.
pub const FAMILY_INDEXES: Path = path!(Target, Family, Indexes);

/// The path to the relation that the form is about, with what it reads as a view, and with children and
/// partitions.
pub const SOURCES: Path = path!(Target, Sources, Stay);

/// The path to the indexes of all relations that `SOURCES` reaches.
pub const SOURCES_INDEXES: Path = path!(Target, Sources, Indexes);

/// The path to a materialized view with what it is made of.
pub const STORED: Path = path!(Target, Stored, Stay);

/// The path to the indexes of a materialized view and of what it is made of.
pub const STORED_INDEXES: Path = path!(Target, Stored, Indexes);

/// The path to the indexes of the relation that the form is about.
pub const INDEXES: Path = path!(Target, Nothing, Indexes);

/// The path from an index to its table.
pub const TABLE: Path = path!(Target, Nothing, Table);

/// The path to the indexes of the other relation that the statement names.
pub const OTHER_INDEXES: Path = path!(Other, Nothing, Indexes);

/// The path to the default partition of the other relation that the statement names.
pub const OTHER_DEFAULT: Path = path!(Other, Nothing, Default);

/// The path to the default partition of the relation that the form is about.
pub const DEFAULT: Path = path!(Target, Nothing, Default);

/// The path to the index of the primary key of the other relation that the statement names.
pub const OTHER_KEY: Path = path!(Other, Nothing, Key);

/// The path to the sequences of the columns of the relation that the form is about.
pub const OWNED: Path = path!(Target, Nothing, Owned);

/// The path to the tables to which the relation that the form is about refers.
pub const REFERRED: Path = path!(Target, Nothing, Referred);

/// The path to the tables that refer to the relation that the form is about.
pub const REFERRING: Path = path!(Target, Nothing, Referring);

/// The path to the relation that the form is about, with all that refer to it, and all that refer to these,
/// and so on.
pub const REFERRING_ALL: Path = path!(Target, Referring, Stay);

/// The path to the indexes of the relation that the form is about, of all that refer to it, of all that refer
/// to these, and so on.
pub const REFERRING_ALL_INDEXES: Path = path!(Target, Referring, Indexes);
