ghost use Rattle.std.specs.Prelude.{◌≡◌, IsSorted, IsPermutation};
ghost use Rattle.lock_table.specs.Listing.{row_key, row_cmp, slot_row_key};

use modes_core::{Mode, SessionId, Tag};

/// One row of a listing (`pg_locks`): a session holds an object in a mode, or awaits it.
#[derive(Clone, Copy, Debug, PartialEq, Eq)]
pub struct TableRow {
    /// The session of the row, which holds the object or awaits it.
    pub session: SessionId,
    /// The object that the session of the row holds or awaits.
    pub tag: Tag,
    /// The mode that the session of the row holds or awaits.
    pub mode: Mode,
    /// Whether the session of the row holds the object in the mode; otherwise it awaits that.
    pub granted: bool,
}

impl TableRow {
    /// What a listing orders rows of the lock table by: by tag, then by session, granted before awaited, then
    /// by mode.
    pub fn order(&self) -> (Tag, SessionId, bool, u8)
        ensures { result ≡ row_key self.now }
    {
        (self.tag, self.session, !self.granted, self.mode.number())
    }
}

/// One row of a listing, before the rows of the lock table: a session holds a relation in a fast-path slot
/// (`pg_locks` with `fastpath`).
#[derive(Clone, Copy, Debug, PartialEq, Eq)]
pub struct SlotRow {
    /// The session whose fast-path slot the row shows.
    pub session: SessionId,
    /// The number of the fast-path slot among its session's, from 0 on.
    pub slot: u8,
    /// The relation that the fast-path slot has.
    pub tag: Tag,
    /// The mode that the fast-path slot shows as held.
    pub mode: Mode,
}

impl SlotRow {
    /// What a listing orders rows of fast-path slots by: by session, then by slot, then by mode.
    pub fn order(&self) -> (SessionId, u8, u8)
        ensures { result ≡ slot_row_key self.now }
    {
        (self.session, self.slot, self.mode.number())
    }
}

/// Brings `rows` into the listing's order, in place.
pub fn sort_rows(rows: &mut [TableRow])
    ensures in_order { IsSorted row_cmp rows.new }
    ensures same_rows { IsPermutation rows.old rows.new }
{
    rows.sort_unstable_by_key(|row| row.order());
}
