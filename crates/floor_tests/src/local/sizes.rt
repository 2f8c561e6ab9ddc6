//! How many bytes a local table takes for what it has.

use local_locks::Entry;
use modes_core::Tag;
use std::mem::size_of;

#[test]
fn an_entry_takes_24_bytes_and_its_tag_16(rt: HostRuntime) {
    assert_eq!(rt; size_of::<Tag>(), 16);
    assert_eq!(rt; size_of::<Entry>(), 24);
}
