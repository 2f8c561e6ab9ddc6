//! The rows of a listing that the records show, in no order.

ghost use Rattle.std.specs.Prelude.{◌≡◌, ◌+◌, OnOk, OnErr, Some, length};
ghost use Rattle.lock_table.specs.Listing.{row_eq};
ghost use Rattle.lock_records.specs.Rows.{AppendsRows, HasMoreRows, shown_by, shown_below, awaited_in};

use crate::holders::HolderRecord;
use lock_table::{NoMemory, TableRow, Waiter};
use modes_core::{Mode, Tag};
use slab::Slab;

/// Appends to `rows` a row for each mode of `holder`, granted.
fn push_modes(holder: &HolderRecord, rows: &mut Vec<TableRow>) -> Result<(), NoMemory>
    ensures ok { OnOk result (AppendsRows rows.old.items rows.new.items (shown_by (Some holder.now))) }
    ensures err { OnErr result (HasMoreRows rows.old.items rows.new.items) }
{
    for number in 1..9u8 {
        if let Some(mode) = Mode::from_number(number) {
            if holder.modes.has(mode) {
                let row = TableRow {
                    session: holder.session,
                    tag: holder.tag,
                    mode,
                    granted: true,
                };
                if rows.push(row).is_err() {
                    return Err(NoMemory);
                }
            }
        }
    }
    Ok(())
}

/// Appends to `rows` a row for each hold in the holder records `holders`. After a refusal some rows may have
/// been added.
pub(crate) fn push_holds(
    holders: &Slab<HolderRecord>,
    rows: &mut Vec<TableRow>,
) -> Result<(), NoMemory>
    ensures ok { OnOk result (AppendsRows rows.old.items rows.new.items
        (shown_below holders.now.slots (length holders.now.slots))) }
    ensures err { OnErr result (HasMoreRows rows.old.items rows.new.items) }
{
    for place in 0..holders.capacity() {
        if let Some(holder) = holders.get(place) {
            if push_modes(holder, rows).is_err() {
                return Err(NoMemory);
            }
        }
    }
    Ok(())
}

/// Appends to `rows` a row for each of `waiters`, the waits for `tag`. After a refusal some rows may have
/// been added.
pub(crate) fn push_waits(
    tag: &Tag,
    waiters: &[Waiter],
    rows: &mut Vec<TableRow>,
) -> Result<(), NoMemory>
    ensures ok { OnOk result (AppendsRows rows.old.items rows.new.items (awaited_in tag.now waiters.now)) }
    ensures err { OnErr result (HasMoreRows rows.old.items rows.new.items) }
{
    for waiter in waiters {
        let row = TableRow {
            session: waiter.session,
            tag: *tag,
            mode: waiter.mode,
            granted: false,
        };
        if rows.push(row).is_err() {
            return Err(NoMemory);
        }
    }
    Ok(())
}
