//! What SQL statements lock: the words of a text of statements, the relations that its statements make, and
//! the lock modes of each statement on the relations that it reaches.
#![tactic(auto)]

mod byte_classes;
mod catalog;
mod command_rows;
mod commands;
mod edges;
mod faults;
mod form_rows;
mod forms;
mod locks;
mod paths;
mod word_lengths;
mod words;

pub use catalog::{Catalog, ForeignKey, Link, LinkKind, Relation, RelationKind};
pub use commands::{SqlCommand, sql_commands};
pub use faults::{Defect, SqlFault};
pub use form_rows::{all_rows, row_of};
pub use forms::{Along, Awaits, Form, FormRow, Hop, Part, Path, Start, Until, Work};
pub use locks::{Act, Lock, locks_of};
pub use words::{Word, WordKind, split_words};
