//! The holds that sessions' fast-path slots show, in a plain list.

ghost use Rattle.std.specs.Prelude.{◌≡◌, ◌<◌, ◌++◌, [], slice_index_or, OnOk};
ghost use Rattle.modes_core.specs.Sessions.{usual_sessions};
ghost use Rattle.lock_model.specs.SlotRows.{shown_hold, slot_rows, session_rows, fast_path_rows};

use super::plain::{Hold, Spot};
use super::state::FastPath;
use lock_table::NoMemory;
use lw_word::SlotWord;
use modes_core::{Mode, SessionId, Tag, is_eligible};

/// Appends to `list` the holds that all sessions' slots show by `fast_path`, by session and by place (the
/// first part of `GetLockStatusData` in lock.c).
pub fn append_slot_holds(fast_path: &FastPath, list: &mut Vec<Hold>) -> Result<(), NoMemory>
    ensures { OnOk result (list.new.items
        ≡ list.old.items ++ fast_path_rows fast_path.now.databases fast_path.now.slots) }
{
    for number in 0..64u16 {
        let session = SessionId::new(number).unwrap();
        append_session(session, fast_path, list)?;
    }
    Ok(())
}

/// Appends to `list` the holds that the slots of `session` in `fast_path` show, by place.
fn append_session(
    session: SessionId,
    fast_path: &FastPath,
    list: &mut Vec<Hold>,
) -> Result<(), NoMemory>
    requires within { session < usual_sessions }
    ensures { OnOk result (list.new.items ≡ list.old.items ++ session_rows session
        (slice_index_or fast_path.now.databases session 0) (slice_index_or fast_path.now.slots session [])) }
{
    let database = fast_path.databases[usize::from(session.number())];
    for place in 0..128u8 {
        let word = word_at(fast_path, session, place);
        append_slot(session, database, place, word, list)?;
    }
    Ok(())
}

/// The word of the slot of `session` at `place` in `fast_path`.
fn word_at(fast_path: &FastPath, session: SessionId, place: u8) -> SlotWord
    requires within { session < usual_sessions }
    requires place { place < 128 }
    ensures { result ≡ slice_index_or (slice_index_or fast_path.now.slots session []) place 0 }
{
    fast_path.slots[usize::from(session.number())][usize::from(place)]
}

/// Appends to `list` the holds of `session` that its slot with `word` at `place` shows, on a relation in
/// `database`, by mode.
fn append_slot(
    session: SessionId,
    database: u32,
    place: u8,
    word: SlotWord,
    list: &mut Vec<Hold>,
) -> Result<(), NoMemory>
    ensures { OnOk result (list.new.items ≡ list.old.items ++ slot_rows session database place word) }
{
    append_shown(session, database, place, word, Mode::AccessShare, list)?;
    append_shown(session, database, place, word, Mode::RowShare, list)?;
    append_shown(session, database, place, word, Mode::RowExclusive, list)
}

/// Appends to `list` the hold of `session` that its slot with `word` at `place` shows in `mode`, on a
/// relation in `database`, if it shows one.
fn append_shown(
    session: SessionId,
    database: u32,
    place: u8,
    word: SlotWord,
    mode: Mode,
    list: &mut Vec<Hold>,
) -> Result<(), NoMemory>
    ensures { OnOk result (list.new.items ≡ list.old.items ++ shown_hold session database place word mode) }
{
    let tag = Tag::Relation {
        database,
        relation: word.relation(),
    };
    if word.has(mode) && is_eligible(database, tag, mode) {
        list.push(Hold {
            session,
            tag,
            mode,
            spot: Spot::Slot(place),
        })?;
    }
    Ok(())
}
