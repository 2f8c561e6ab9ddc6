//! Where the answers of a script go: to a writer, as text or as JSON.
ghost use Rattle.std.specs.Prelude.{◌≡◌, OnOk, IfOk, IfErr, IsOk, false};
ghost use Rattle.std.specs.Io.KnownBytes.{Appends, Keeps};
ghost use Rattle.serde_json.specs.View.{view};
ghost use Rattle.serde_json.specs.Written.{has_float};
ghost use Rattle.scenario.specs.Heard.{IsUnheard};
ghost use Rattle.scenario.specs.Printed.{IsFormOf, Prints, data_line};

use crate::answers::{Row, Said};
use crate::json::{self, Object};
use crate::listener::Listener;
use crate::picture::Picture;
use crate::style::{Form, Pen, Style};
use crate::summary::{Summary, WaitText};
use crate::text::{LeftText, RowText, SaidText};
use lock_manager::Blocked;
use lock_script::{Fault, Name, Names};
use std::alloc::Global;
use std::io::{self, Write};

/// The printed answers of a script. Each line goes to the writer at once, and is passed on where a line of
/// the script is answered and the next one isn't at hand.
#[derive(Drop)]
pub struct Output<W: Write + Drop> {
    writer: W,
    form: Form,
    pen: Option<Pen>,
    is_echoing: bool,
    // The line of the script that is answered, counted from 1.
    line: u32,
    // Whether the next line is at hand, and whether something was printed that is to be passed on.
    more: bool,
    holds: bool,
    // Whether a listing was told.
    has_listed: bool,
}

/// The `outcome` of a write: its error is a fault of the script.
fn written(outcome: io::Result<()>) -> Result<(), Fault>
    ensures ok { OnOk result (IsOk outcome) }
    ensures unheard { IfErr result IsUnheard }
{
    outcome.map_err(|_| Fault::WriteFailed)
}

impl<W: Write + Drop> Output<W> {
    /// Output to `writer`, as text and the answers alone.
    pub fn new(writer: W) -> Self
        ensures writer { result.writer ≡ writer }
        ensures form { result.form ≡ Form.Text }
        ensures is_echoing { result.is_echoing ≡ false }
        ensures line { result.line ≡ 0 }
    {
        Output {
            writer,
            form: Form::Text,
            pen: None,
            is_echoing: false,
            line: 0,
            more: false,
            holds: false,
            has_listed: false,
        }
    }

    /// Output to `writer` in the style `style`, with memory by `alloc`.
    pub fn styled(alloc: Global, writer: W, style: Style) -> Self
        ensures writer { result.writer ≡ writer }
        ensures form { IsFormOf style.json result.form }
        ensures is_echoing { result.is_echoing ≡ style.echo }
        ensures line { result.line ≡ 0 }
    {
        let form = if style.json {
            Form::Json(alloc)
        } else {
            Form::Text
        };
        let pen = match style.graph {
            Some(drawing) => Some(Pen { drawing, alloc }),
            None => None,
        };
        Output {
            writer,
            form,
            pen,
            is_echoing: style.echo,
            line: 0,
            more: false,
            holds: false,
            has_listed: false,
        }
    }

    /// The writer, to which all that was heard was written.
    pub fn into_writer(self) -> W
        ensures { result ≡ self.writer }
    {
        self.writer
    }

    /// Writes `object` as a line of JSON, with memory by `alloc`.
    fn write_object(&mut self, alloc: Global, object: Object) -> Result<(), Fault>
        ensures written { OnOk result (IfOk object (λ it. has_float (view it) ≡ false →
            Appends (W.contents self.old.writer) (W.contents self.new.writer) (data_line (view it)))) }
        ensures object { OnOk result (IsOk object) }
        ensures unheard { IfErr result IsUnheard }
        ensures line { self.new.line ≡ self.old.line }
        ensures form { self.new.form ≡ self.old.form }
        ensures is_echoing { self.new.is_echoing ≡ self.old.is_echoing }
    {
        let Ok(object) = object else {
            return Err(Fault::NoMemory);
        };
        let Ok(text) = object.to_string(alloc) else {
            return Err(Fault::NoMemory);
        };
        written(writeln!(self.writer, "{text}"))
    }

    /// Passes what was printed on to the writer.
    fn flush(&mut self) -> Result<(), Fault>
        ensures kept { Keeps (W.contents self.old.writer) (W.contents self.new.writer) }
        ensures unheard { IfErr result IsUnheard }
        ensures line { self.new.line ≡ self.old.line }
        ensures form { self.new.form ≡ self.old.form }
        ensures is_echoing { self.new.is_echoing ≡ self.old.is_echoing }
    {
        written(self.writer.flush())
    }

    /// Writes a row for each wait of a `summary`, whose objects are known by `names`, or that there was none;
    /// and who is left waiting, where `tells_left`.
    pub fn summarize(
        &mut self,
        names: &Names,
        summary: &Summary,
        tells_left: bool,
    ) -> Result<(), Fault>
        ensures unheard { IfErr result IsUnheard }
    {
        for wait in &summary.waits {
            match self.form {
                Form::Text => written(writeln!(self.writer, "{}", WaitText { names, wait }))?,
                Form::Json(alloc) => { self.write_object(alloc, json::waited(alloc, names, wait))? }
            }
        }
        if let Form::Text = self.form {
            if summary.waits.is_empty() {
                written(writeln!(self.writer, "nobody waited"))?;
            }
        }
        if tells_left {
            let Ok(left) = summary.left() else {
                return Err(Fault::NoMemory);
            };
            self.left(left.as_slice(), 0)?;
        }
        self.flush()
    }

    /// Passes what was printed on to the writer, where there is something to pass on and somebody may wait
    /// for it.
    fn settle(&mut self) -> Result<(), Fault>
        ensures kept { Keeps (W.contents self.old.writer) (W.contents self.new.writer) }
        ensures unheard { IfErr result IsUnheard }
        ensures line { self.new.line ≡ self.old.line }
        ensures form { self.new.form ≡ self.old.form }
        ensures is_echoing { self.new.is_echoing ≡ self.old.is_echoing }
    {
        if self.more || !self.holds {
            return Ok(());
        }
        self.holds = false;
        self.flush()
    }
}

impl<W: Write + Drop> Listener for Output<W> {
    ghost hears = { λ old heard new. Prints W.contents old heard new };

    fn begin_line(&mut self, number: u32, text: &str, more: bool) -> Result<(), Fault> {
        self.line = number;
        self.more = more;
        if !self.is_echoing {
            return self.settle();
        }
        match self.form {
            Form::Text => written(writeln!(self.writer, "> {text}"))?,
            Form::Json(alloc) => self.write_object(alloc, json::echo(alloc, number, text))?,
        }
        self.holds = true;
        self.settle()
    }

    fn said(&mut self, names: &Names, name: Name, said: Said) -> Result<(), Fault> {
        match self.form {
            Form::Text => {
                let text = SaidText { names, said };
                written(writeln!(self.writer, "{name}: {text}"))
            }
            Form::Json(alloc) => {
                self.write_object(alloc, json::said(alloc, self.line, names, &name, said))
            }
        }
    }

    fn row(&mut self, names: &Names, row: Row) -> Result<(), Fault> {
        self.has_listed = self.has_listed || matches!(row, Row::Rows(_));
        match self.form {
            Form::Text => {
                let text = RowText { names, row };
                written(writeln!(self.writer, "{text}"))
            }
            Form::Json(alloc) => {
                self.write_object(alloc, json::row(alloc, self.line, names, row))
            }
        }
    }

    fn pen(&self) -> Option<Pen> {
        self.pen
    }

    fn picture(&mut self, names: &Names, picture: &Picture) -> Result<(), Fault> {
        if picture.is_empty() {
            return Ok(());
        }
        let Ok(text) = picture.text(names) else {
            return Err(Fault::NoMemory);
        };
        match self.form {
            Form::Text => written(write!(self.writer, "{text}"))?,
            Form::Json(alloc) => {
                let drawing = picture.drawing().name();
                let object = json::picture(alloc, self.line, drawing, text.as_str());
                self.write_object(alloc, object)?
            }
        }
        self.holds = true;
        self.settle()
    }

    fn last_pen(&self) -> Option<Pen> {
        if self.has_listed {
            return None;
        }
        self.pen
    }

    fn blocked(&mut self, _names: &Names, _blocked: &Blocked) -> Result<(), Fault> {
        Ok(())
    }

    fn tell(&mut self, text: &str) -> Result<(), Fault> {
        written(write!(self.writer, "{text}"))?;
        self.flush()
    }

    fn end_line(&mut self) -> Result<(), Fault> {
        self.holds = true;
        self.settle()
    }

    fn keep_line(&mut self, _number: u32, _text: &str, more: bool) -> Result<(), Fault> {
        self.more = more;
        self.settle()
    }

    fn ended(&mut self, _names: &Names, _tells_left: bool) -> Result<(), Fault> {
        Ok(())
    }

    fn left(&mut self, waiting: &[Name], lines: u64) -> Result<(), Fault> {
        let Some((first, others)) = waiting.split_first() else {
            return Ok(());
        };
        match self.form {
            Form::Text => {
                let first = *first;
                let text = LeftText {
                    first,
                    others,
                    lines,
                };
                written(writeln!(self.writer, "{text}"))?
            }
            Form::Json(alloc) => self.write_object(alloc, json::left(alloc, waiting, lines))?,
        }
        self.flush()
    }
}
