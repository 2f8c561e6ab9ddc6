//! Listings of hundreds of rows, of all partitions.

use super::answers::expect_rows;
use super::pair::Pair;
use super::sessions::{list, take_tag};
use connections::{Connection, ManagerName};
use lock_manager::{Board, Mode, Owner, Part, TableRow, Tag};
use std::process::Abort;
use std::sync::Wait;

pub const MANY: u32 = 200;

/// Shares many objects with `connection`, which asks for them neither in rising nor in falling order.
fn share_many<B: Board<Part>, M: ManagerName, R: Abort + Wait>(
    rt: &R,
    connection: &mut Connection<B, M>,
) {
    for number in 0..MANY {
        let tag = Tag::object(5, 1_259, number * 77 % MANY, 0);
        take_tag(rt, connection, tag, Mode::Share, Owner::Session);
    }
}

/// Ends the test unless each of `rows` comes after the one before it, and together they are of all sixteen
/// partitions.
fn expect_order<R: Abort>(rt: &R, rows: &[TableRow]) {
    let mut partitions = 0;
    let mut before: Option<TableRow> = None;
    for row in rows {
        if let Some(before) = before {
            assert!(rt; before.order() < row.order(), "{before:?} before {row:?}");
        }
        assert!(rt; row.granted);
        partitions |= 1u16 << row.tag.partition();
        before = Some(*row);
    }
    assert_eq!(rt; partitions, u16::MAX);
}

/// Has the two sessions of `pair` share many objects, and one of them list.
pub fn list_many<B: Board<Part>, M: ManagerName, R: Abort + Wait>(rt: &R, pair: &mut Pair<B, M>) {
    share_many(rt, &mut pair.first);
    share_many(rt, &mut pair.second);
    let listing = list(rt, &mut pair.first).expect(rt, "a listing");
    expect_rows(rt, &listing, 0, 2 * MANY as usize);
    expect_order(rt, listing.table.as_slice());
}
