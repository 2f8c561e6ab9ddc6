//! What all sessions' slots show (the first part of `GetLockStatusData` in lock.c).

ghost use Rattle.std.specs.Prelude.{◌≡◌, ◌*◌, ◌<◌, ◌≤◌, ◌++◌, ◌∷◌, OnOk, Some};
ghost use Rattle.lock_world.specs.SlotHolds.{group_size};
ghost use Rattle.lock_world.specs.Account.{SlotsInHand};
ghost use Rattle.shared_rule.specs.History.{slots_here};
ghost use Rattle.shared_rule.specs.Boards.{nothing_due};
ghost use Rattle.fast_path.specs.Slots.{account_loading};
ghost use Rattle.fast_path.specs.Turns.{IsUnlocked};
ghost use Rattle.shared_rule.specs.Quiet.{SharesSlots};
ghost use Rattle.fast_path.specs.Quiet.{QuietOfListing};
ghost use Rattle.fast_path.specs.Rows.{ListsSlots, ListsSession, BeginsWith};
ghost use Rattle.fast_path.specs.Rows.{mode_row, rows_of_slot, rows_below, database_in};
ghost use Rattle.modes_core.specs.Sessions.{most_sessions};

use crate::slot_words::SLOTS;
use lock_table::{NoMemory, PartTable, SlotRow};
use lw_word::SlotWord;
use modes_core::{Mode, SessionId, Tag};
use shared_rule::Board;
use std::sync::Wait;

/// Appends to `rows` a row for each mode that a fast-path slot of any session shows, ordered by session, slot
/// and mode. The lock of a session's slots is shared while they are read, one session after another: other
/// readers don't wait, and the rows of two sessions are not of one moment. Only `rows` takes memory, and
/// grows while such a lock is shared, as the list in `GetLockStatusData` of lock.c does; where memory runs
/// out `rows` has what it had before the call.
pub fn slot_rows<T: PartTable, B: Board<T>, R: Wait>(
    rt: &R,
    board: &mut B,
    rows: &mut Vec<SlotRow>,
) -> Result<(), NoMemory>
    requires few { (B.seat board.old).limit ≤ most_sessions }
    requires unlocked { IsUnlocked (B.view board.old) }
    requires nothing_due { B.stack board.old ≡ nothing_due }
    ensures listed { ListsSlots (B.seat board.old).groups (B.seat board.old).number (B.seat board.old).limit
        (B.view board.old) rows.old.items result rows.new.items (B.view board.new) }
    ensures stack { B.stack board.new ≡ B.stack board.old }
    ensures quiet { QuietOfListing (B.seat board.old).limit result (B.quiet board.old) (B.quiet board.new) }
    ensures seat { B.seat board.new ≡ B.seat board.old }
{
    let before = rows.len();
    for number in 0..board.sessions() {
        let owner = SessionId::new(number).unwrap();
        match session_rows(rt, board, owner, rows) {
            Ok(()) => {}
            Err(NoMemory) => {
                rows.truncate(before);
                return Err(NoMemory);
            }
        }
    }
    Ok(())
}

/// Appends to `rows` the rows of all modes that the fast-path slots of `owner` show.
fn session_rows<T: PartTable, B: Board<T>, R: Wait>(
    rt: &R,
    board: &mut B,
    owner: SessionId,
    rows: &mut Vec<SlotRow>,
) -> Result<(), NoMemory>
    requires exists { owner < (B.seat board.old).limit }
    requires unlocked { IsUnlocked (B.view board.old) }
    requires nothing_due { B.stack board.old ≡ nothing_due }
    ensures listed { ListsSession (B.seat board.old).groups (B.seat board.old).number (B.view board.old) owner
        rows.old.items result rows.new.items (B.view board.new) }
    ensures behind { BeginsWith rows.old.items rows.new.items }
    ensures stack { B.stack board.new ≡ B.stack board.old }
    ensures quiet { B.quiet board.new ≡ SharesSlots owner ∷ B.quiet board.old }
    ensures seat { B.seat board.new ≡ B.seat board.old }
{
    let count = SLOTS * board.groups();
    board.share_fast(rt, owner);
    let shown = board.load_database(owner);
    let listed = append_slots(board, owner, database_in(shown), count, rows);
    board.unshare_fast(owner);
    listed
}

/// The database that a session's database word shows as `shown`.
fn database_in(shown: u64) -> u32
    ensures { result ≡ database_in shown }
{
    (shown & 0xFFFF_FFFF) as u32
}

/// Loads the words of the first `count` fast-path slots of `owner`, whose lock is shared, and appends to
/// `rows` the rows of each slot as it is loaded. Where memory runs out the remaining slots are loaded
/// nevertheless.
fn append_slots<T: PartTable, B: Board<T>>(
    board: &mut B,
    owner: SessionId,
    database: u32,
    count: u8,
    rows: &mut Vec<SlotRow>,
) -> Result<(), NoMemory>
    requires exists { owner < (B.seat board.old).limit }
    requires there { count ≤ group_size * (B.seat board.old).groups }
    requires shared { (slots : SlotsInHand) × ((B.view board.old).fast.shared_slots owner ≡ Some slots) }
    ensures loaded { B.view board.new ≡ account_loading (B.view board.old) owner (λ slot. slot)
        (slots_here ((B.view board.old).fast.shared_slots owner)).word count }
    ensures listed { OnOk result (rows.new.items ≡ rows.old.items ++ rows_below count (λ slot.
        rows_of_slot owner database slot ((slots_here ((B.view board.old).fast.shared_slots owner)).word slot))) }
    ensures behind { BeginsWith rows.old.items rows.new.items }
    ensures stack { B.stack board.new ≡ B.stack board.old }
    ensures quiet { B.quiet board.new ≡ B.quiet board.old }
    ensures seat { B.seat board.new ≡ B.seat board.old }
{
    let mut listed = Ok(());
    for slot in 0..count {
        let word = board.load_slot(owner, slot);
        if listed.is_ok() {
            listed = append_slot(owner, database, slot, word, rows);
        }
    }
    listed
}

/// Appends to `rows` the rows of the fast-path slot `slot` of `session`, one for each mode that the slot
/// shows.
fn append_slot(
    session: SessionId,
    database: u32,
    slot: u8,
    word: SlotWord,
    rows: &mut Vec<SlotRow>,
) -> Result<(), NoMemory>
    ensures listed { OnOk result (rows.new.items ≡ rows.old.items ++ rows_of_slot session database slot word) }
    ensures behind { BeginsWith rows.old.items rows.new.items }
{
    if !word.in_use() {
        return Ok(());
    }
    append_mode(session, database, slot, word, Mode::AccessShare, rows)?;
    append_mode(session, database, slot, word, Mode::RowShare, rows)?;
    append_mode(session, database, slot, word, Mode::RowExclusive, rows)
}

/// Appends to `rows` the row of `mode` on the relation of a fast-path slot, if the slot's `word` shows that
/// mode.
fn append_mode(
    session: SessionId,
    database: u32,
    slot: u8,
    word: SlotWord,
    mode: Mode,
    rows: &mut Vec<SlotRow>,
) -> Result<(), NoMemory>
    ensures listed { OnOk result (rows.new.items ≡ rows.old.items ++ mode_row session database slot word mode) }
    ensures behind { BeginsWith rows.old.items rows.new.items }
{
    if word.has(mode) {
        rows.push(SlotRow {
            session,
            slot,
            tag: Tag::Relation {
                database,
                relation: word.relation(),
            },
            mode,
        })?;
    }
    Ok(())
}
