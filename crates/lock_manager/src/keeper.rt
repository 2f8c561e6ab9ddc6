//! Who keeps the content of a partition in this manager. Nothing else here names the keeper.

use lock_records::RecordPart;

/// The keeper of a partition: lock and holder records.
pub type Part = RecordPart;
