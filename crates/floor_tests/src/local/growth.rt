//! A session that keeps one lock and goes on for long: its table uses slots again, and grows no more. And one
//! that takes thousands of locks.

use super::acquires::{acquire, new_table, next};
use super::turns::entries_of;
use local_locks::{Acquired, End, LocalTable, Unlocked};
use modes_core::Mode::AccessShare;
use modes_core::{Owner, Tag};
use std::process::Abort;

const ROUNDS: u32 = 100_000;

/// The most rounds in a row in which a table of this test may have room for one more entry.
const FEW: u32 = 100;

/// The tag of the relation that is taken in `round`.
fn relation(round: u32) -> Tag {
    Tag::relation(5, round)
}

/// Acquires in `table` the relation of `round`, and releases that of the round before: the slot of the
/// released one, which isn't the last slot, is empty from then on.
fn go_on(rt: &impl Abort, table: &mut LocalTable, round: u32) {
    let taken = acquire(rt, table, relation(round), AccessShare, Owner::Transaction);
    assert!(rt; taken.is_ok(), "{round}");
    let before = relation(round.saturating_sub(1));
    let given_back = table.drop_one(before, AccessShare, Owner::Transaction);
    assert!(rt; given_back == Ok(Unlocked::Released), "{round}");
}

/// Ends the test where `table` has room for one more entry in more than `FEW` rounds in a row. A full table
/// uses its empty slots again, and so is soon full again.
fn expect_few_slots(rt: &impl Abort, table: &mut LocalTable) {
    let mut with_room = 0u32;
    for round in 2..ROUNDS {
        with_room = if table.can_add() {
            with_room.saturating_add(1)
        } else {
            0
        };
        assert!(rt; with_room <= FEW, "{round}");
        go_on(rt, table, round);
    }
}

#[test]
fn a_table_that_goes_on_for_long_does_not_grow(rt: HostRuntime) {
    let mut table = new_table(&rt, rt.alloc(), 65536);
    for first in 0..2 {
        let taken = acquire(
            &rt,
            &mut table,
            relation(first),
            AccessShare,
            Owner::Transaction,
        );
        assert!(rt; taken.is_ok(), "{first}");
    }
    expect_few_slots(&rt, &mut table);
    assert_eq!(rt; table.total(relation(0), AccessShare), 1);
}

/// How many relations are taken at once.
const MANY: u32 = 10_000;

/// Acquires many relations in `table`, none of which it has.
fn take_many(rt: &impl Abort, table: &mut LocalTable) {
    for number in 0..MANY {
        let taken = acquire(rt, table, relation(number), AccessShare, Owner::Transaction);
        assert!(rt; taken == Ok(Acquired::Granted), "{number}");
    }
}

#[test]
fn ten_thousand_relations_are_taken_and_go_in_order(rt: HostRuntime) {
    let mut table = new_table(&rt, rt.alloc(), 65536);
    take_many(&rt, &mut table);
    assert_eq!(rt; entries_of(&table), MANY);
    for number in 0..MANY {
        let ended = next(&rt, &mut table, End::Commit);
        assert!(rt; ended == Some((relation(number), AccessShare)), "{number}");
    }
    assert!(rt; next(&rt, &mut table, End::Commit).is_none());
}
