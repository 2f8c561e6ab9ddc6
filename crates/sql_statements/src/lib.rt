//! SQL statements as they are read: which relations each names, in which form it reaches each, and what it
//! changes.
#![tactic(auto)]

mod added;
mod alter_table;
mod attached;
mod belongings;
mod checks;
mod constraints;
mod create;
mod create_table;
mod cursor;
mod drops;
mod functions;
mod indexes;
mod maintenance;
mod names;
mod partitions;
mod query;
mod query_levels;
mod reader;
mod removed;
mod statement;
mod statements;

pub use belongings::{Attached, AttachedKind, Belongings, IndexOf, ViewNames};
pub use cursor::SqlWord;
pub use functions::has_part;
pub use reader::{Advisory, Change, Control, StatementReader};
pub use statements::{SqlStatement, split_statements};
