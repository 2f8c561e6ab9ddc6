//! SQL commands as somebody asks for their locks, each by its form in the table of forms.
ghost use Rattle.std.specs.Prelude.{◌≡◌, IfSome};
ghost use Rattle.sql_locks.specs.Told.{has_told, is_told, strongest_below, strongest_told, IsModeOf};

use crate::command_rows::COMMANDS;
use crate::form_rows::row_of;
use crate::forms::{Form, Hop, Part, Start};
use modes_core::Mode;

/// An SQL command, in capital letters, with the form whose row in the table says what it locks.
#[derive(Clone, Copy)]
pub struct SqlCommand {
    pub sql: &'static str,
    pub form: Form,
    /// The relation of the form, its target or the other one, whose lock mode the help shows for this
    /// command.
    pub side: Start,
    /// What the help says of this command after its lock mode.
    pub note: &'static str,
}

/// All SQL commands that lock a relation.
pub fn sql_commands() -> &'static [SqlCommand] {
    &COMMANDS
}

impl SqlCommand {
    /// The strongest mode that the row of the command's form has on the relation of the command's `side`, or
    /// none where it has no mode on that relation.
    pub fn mode(&self) -> Option<Mode>
        ensures { IfSome result (IsModeOf self.now.form self.now.side) }
    {
        match row_of(self.form) {
            Some(row) => strongest_told(row.parts, self.side),
            None => None,
        }
    }
}

/// The strongest mode that `parts` have on the relation of `side` itself.
fn strongest_told(parts: &[Part], side: Start) -> Option<Mode>
    ensures { result ≡ strongest_told side parts.now }
{
    if has_told(parts, side, Mode::AccessExclusive) {
        Some(Mode::AccessExclusive)
    } else if has_told(parts, side, Mode::Exclusive) {
        Some(Mode::Exclusive)
    } else if has_told(parts, side, Mode::ShareRowExclusive) {
        Some(Mode::ShareRowExclusive)
    } else if has_told(parts, side, Mode::Share) {
        Some(Mode::Share)
    } else {
        strongest_below(parts, side)
    }
}

/// The strongest of the four weakest modes that `parts` have on the relation of `side` itself.
fn strongest_below(parts: &[Part], side: Start) -> Option<Mode>
    ensures { result ≡ strongest_below side parts.now }
{
    if has_told(parts, side, Mode::ShareUpdateExclusive) {
        Some(Mode::ShareUpdateExclusive)
    } else if has_told(parts, side, Mode::RowExclusive) {
        Some(Mode::RowExclusive)
    } else if has_told(parts, side, Mode::RowShare) {
        Some(Mode::RowShare)
    } else if has_told(parts, side, Mode::AccessShare) {
        Some(Mode::AccessShare)
    } else {
        None
    }
}

/// Whether one of `parts` has `mode` on the relation of `side` itself.
fn has_told(parts: &[Part], side: Start, mode: Mode) -> bool
    ensures { result ≡ has_told side mode parts.now }
{
    parts.iter().any(|part| part.mode.is_same(mode)
        && is_told(side, part.path.start, part.path.hop))
}

/// Whether a path from `start` on, whose last step is `hop`, reaches the relation of `side` itself: it begins
/// at that relation and has no last step.
fn is_told(side: Start, start: Start, hop: Hop) -> bool
    ensures { result ≡ is_told side start hop }
{
    match (side, start, hop) {
        (Start::Target, Start::Target, Hop::Stay) => true,
        (Start::Other, Start::Other, Hop::Stay) => true,
        _ => false,
    }
}
