//! Who hears the answers of a script, and how an answer is told row by row.
ghost use Rattle.std.specs.Prelude.{◌≡◌, OnOk, IfErr, map, Err};
ghost use Rattle.scenario.specs.Heard.{Behind, Done, Drawn, Ended, HearsAll, Helped, IsUnheard, Kept, Left, Line, Listed, Told, told_of};

use crate::answers::{Answer, Row, Said};
use crate::picture::Picture;
use crate::style::Pen;
use lock_manager::{Blocked, Blocker, Listing, QueueRow, SlotRow, TableRow};
use lock_script::{Fault, Name, Names};

/// What hears the answers of a script, each as soon as it is given.
pub trait Listener {
    ghost use Rattle.scenario.specs.Heard.{Heard};

    // What it is before it hears something, what it hears, and what it is then.
    ghost hears: { Self → Heard → Self → Type 0 };

    /// Hears that a line of the script was read, with its number `number` and its text `text`. What is heard
    /// next answers the line. Where `more`, the next line is at hand, so that nobody waits for what is
    /// printed of this one.
    fn begin_line(&mut self, number: u32, text: &str, more: bool) -> Result<(), Fault>
        ensures heard { OnOk result (hears self.old (Line number text.now) self.new) }
        ensures unheard { IfErr result IsUnheard };

    /// Hears what the session `name` is answered, `said`. The other sessions are known by `names`.
    fn said(&mut self, names: &Names, name: Name, said: Said) -> Result<(), Fault>
        ensures heard { OnOk result (hears self.old (Told names.now name said) self.new) }
        ensures unheard { IfErr result IsUnheard };

    /// Hears the row `row` of an answer. The row's sessions are known by `names`.
    fn row(&mut self, names: &Names, row: Row) -> Result<(), Fault>
        ensures heard { OnOk result (hears self.old (Listed names.now row) self.new) }
        ensures unheard { IfErr result IsUnheard };

    /// What draws a picture after each listing, if the listener wants pictures.
    fn pen(&self) -> Option<Pen>;

    /// Hears of `picture`, which shows who waits for whom. The picture's sessions are known by `names`.
    fn picture(&mut self, names: &Names, picture: &Picture) -> Result<(), Fault>
        ensures heard { OnOk result (hears self.old Drawn self.new) }
        ensures unheard { IfErr result IsUnheard };

    /// Whether the listener wants to hear of each wait, as it begins, who is in its way. No session is asked
    /// for that otherwise.
    fn wants_waits(&self) -> bool {
        false
    }

    /// Hears that a session has begun to wait, and who is in its way, `blocked`, as the session says itself.
    /// The sessions are known by `names`.
    fn blocked(&mut self, names: &Names, blocked: &Blocked) -> Result<(), Fault>
        ensures heard { OnOk result (hears self.old (Behind names.now blocked.now) self.new) }
        ensures unheard { IfErr result IsUnheard };

    /// Hears `text`, which is for somebody at a shell, at once.
    fn tell(&mut self, text: &str) -> Result<(), Fault>
        ensures heard { OnOk result (hears self.old (Helped text.now) self.new) }
        ensures unheard { IfErr result IsUnheard };

    /// Hears that a line is answered, and that all sessions which go on after it have said so.
    fn end_line(&mut self) -> Result<(), Fault>
        ensures heard { OnOk result (hears self.old Done self.new) }
        ensures unheard { IfErr result IsUnheard };

    /// Hears of a line that was read, with its text `text` and its number `number`, and is kept until its
    /// session goes on. The line is answered when it is run. Where `more`, the next line is at hand.
    fn keep_line(&mut self, number: u32, text: &str, more: bool) -> Result<(), Fault>
        ensures heard { OnOk result (hears self.old (Kept number text.now) self.new) }
        ensures unheard { IfErr result IsUnheard };

    /// What draws a picture of those who wait at the end of the script, if one is wanted.
    fn last_pen(&self) -> Option<Pen> {
        None
    }

    /// Hears that the script has ended, and has no bad line. The sessions and objects are known by `names`.
    /// Where `tells_left`, `left` is called next, with the sessions that are left waiting.
    fn ended(&mut self, names: &Names, tells_left: bool) -> Result<(), Fault>
        ensures heard { OnOk result (hears self.old Ended self.new) }
        ensures unheard { IfErr result IsUnheard };

    /// Hears that the script has ended where lines are kept: the sessions of the names `waiting` wait, and
    /// `lines` lines were kept and not reached.
    fn left(&mut self, waiting: &[Name], lines: u64) -> Result<(), Fault>
        ensures heard { OnOk result (hears self.old (Left waiting.now lines) self.new) }
        ensures unheard { IfErr result IsUnheard };
}

/// Tells `listener` an `answer`, row by row. The sessions are known by `names`.
pub fn tell_answer<L: Listener>(
    listener: &mut L,
    names: &Names,
    answer: &Answer,
) -> Result<(), Fault>
    ensures heard { OnOk result (HearsAll L.hears listener.old (told_of names.now answer.now) listener.new) }
    ensures unheard { IfErr result IsUnheard }
    ensures no_memory { answer.now ≡ Answer.NoMemory → result ≡ Err Fault.NoMemory }
{
    match answer {
        Answer::Said(name, said) => listener.said(names, *name, *said),
        Answer::Row(row) => listener.row(names, *row),
        Answer::Listing(listing) => tell_listing(listener, names, listing),
        Answer::Queue(rows) => {
            tell_waits(listener, names, rows.as_slice())?;
            listener.row(names, Row::Waits(rows.len() as u64))
        }
        Answer::Blockers(name, found) => tell_blockers(listener, names, *name, found.as_slice()),
        Answer::NoMemory => Err(Fault::NoMemory),
    }
}

/// Tells `listener` a `listing`: each row, and then the number of the rows. The sessions are known by
/// `names`.
fn tell_listing<L: Listener>(
    listener: &mut L,
    names: &Names,
    listing: &Listing,
) -> Result<(), Fault>
    ensures heard { OnOk result (HearsAll L.hears listener.old
        (told_of names.now (Answer.Listing listing.now)) listener.new) }
    ensures unheard { IfErr result IsUnheard }
{
    tell_slots(listener, names, listing.fast.as_slice())?;
    tell_table(listener, names, listing.table.as_slice())?;
    let rows = (listing.fast.len() as u64).saturating_add(listing.table.len() as u64);
    listener.row(names, Row::Rows(rows))
}

/// Tells `listener` the locks in slots, which are `rows` of a listing.
fn tell_slots<L: Listener>(listener: &mut L, names: &Names, rows: &[SlotRow]) -> Result<(), Fault>
    ensures heard { OnOk result (HearsAll L.hears listener.old
        (map (λ row. Listed names.now (Row.Slot row)) rows.now) listener.new) }
    ensures unheard { IfErr result IsUnheard }
{
    'rows: for row in rows {
        listener.row(names, Row::Slot(*row))?;
    }
    Ok(())
}

/// Tells `listener` the locks in the table and the waits for them, which are `rows` of a listing.
fn tell_table<L: Listener>(listener: &mut L, names: &Names, rows: &[TableRow]) -> Result<(), Fault>
    ensures heard { OnOk result (HearsAll L.hears listener.old
        (map (λ row. Listed names.now (Row.Table row)) rows.now) listener.new) }
    ensures unheard { IfErr result IsUnheard }
{
    'rows: for row in rows {
        listener.row(names, Row::Table(*row))?;
    }
    Ok(())
}

/// Tells `listener` the waits of a wait queue, which are `rows`.
fn tell_waits<L: Listener>(listener: &mut L, names: &Names, rows: &[QueueRow]) -> Result<(), Fault>
    ensures heard { OnOk result (HearsAll L.hears listener.old
        (map (λ row. Listed names.now (Row.Wait row)) rows.now) listener.new) }
    ensures unheard { IfErr result IsUnheard }
{
    'rows: for row in rows {
        listener.row(names, Row::Wait(*row))?;
    }
    Ok(())
}

/// Tells `listener` who was `found` in the way of the session `name`, row by row.
fn tell_blockers<L: Listener>(
    listener: &mut L,
    names: &Names,
    name: Name,
    found: &[Blocker],
) -> Result<(), Fault>
    ensures heard { OnOk result (HearsAll L.hears listener.old
        (map (λ one. Listed names.now (Row.InTheWay name one)) found.now) listener.new) }
    ensures unheard { IfErr result IsUnheard }
{
    'rows: for blocker in found {
        listener.row(names, Row::InTheWay(name, *blocker))?;
    }
    Ok(())
}
