//! What is written of all that is heard.
ghost use Rattle.std.specs.Prelude.{List, IfSome};
ghost use Rattle.std.specs.Io.KnownBytes.{Appends};
ghost use Rattle.scenario.specs.Heard.{Heard, HearsAll};
ghost use Rattle.scenario.specs.Printed.{Prints};
ghost use Rattle.scenario.specs.Written.{text_of_all};

use crate::output::Output;
use std::io::Write;

/// What an output has heard, one after another, is written to its writer in that order, where the text of all
/// of it is stated.
pub fn what_is_heard_is_written<W: Write + Drop>()
    ensures { (old new : Output W) (heard : List Heard) → HearsAll (Prints W.contents) old heard new →
        IfSome (text_of_all old.form old.is_echoing old.line heard)
        (Appends (W.contents old.writer) (W.contents new.writer)) }
{}
