//! What a run came to, which the program prints after it.
ghost use Rattle.std.specs.Prelude.{◌≡◌, IfSome, string_bytes, true};
ghost use Rattle.scenario_program.specs.Runs.{fails_for};

use crate::hints::{Reader, hint_text};
use crate::options::FailOn;
use lock_manager::Blocked;
use lock_script::{Fault, Name, NamedObject, Names};
use scenario::{Listener, Output, Pen, Picture, Row, Said, Summary};
use std::alloc::{AllocError, Global};
use std::io::Write;

/// What a run came to.
#[derive(Drop)]
pub struct Outcome {
    alloc: Global,
    /// The text of the line that was read last, whose number is `number`.
    text: String,
    number: u32,
    /// The names of the sessions that are open. The objects that have names are `objects`.
    open: Vec<Name>,
    objects: Vec<NamedObject>,
    /// Whether a session has waited in the run so far.
    waited: bool,
    /// Whether a call was refused in the run so far.
    was_refused: bool,
    /// How many sessions of the run wait now.
    waiting: u32,
}

impl Outcome {
    /// The outcome of a run of which nothing was heard yet. What is kept takes memory by `alloc`.
    pub fn new(alloc: Global) -> Self {
        Outcome {
            alloc,
            text: String::new(alloc),
            number: 0,
            open: Vec::new(alloc),
            objects: Vec::new(alloc),
            waited: false,
            was_refused: false,
            waiting: 0,
        }
    }

    /// Whether something that the run fails for, by `fail_on`, has come in it.
    pub fn fails(&self, fail_on: FailOn) -> bool
        ensures { result ≡ true → fails_for fail_on ≡ true }
    {
        (fail_on.waits && self.waited)
            || (fail_on.refused && self.was_refused)
            || (fail_on.stuck && self.waiting > 0)
    }

    /// What is told in place of the line of `fault`, which ended the script: the reason that the listener
    /// heard why SQL can't be played. There is none of another fault, and where there is no memory for it.
    pub fn told(&self, fault: &Fault) -> Option<String>
        ensures { IfSome result (λ told. string_bytes told ≡ string_bytes self.now.text) }
    {
        match fault {
            Fault::BadLine { line, .. } if *line == self.number && is_told(&self.text) => {
                self.text.clone().ok()
            }
            _ => None,
        }
    }

    /// What may help with the bad line that ended the script, where `fault` is one: the word that is bad, and
    /// the nearest good word. There is none for a line that isn't text, for another fault, and where there is
    /// no memory for it.
    pub fn hint(&self, fault: &Fault) -> Option<String> {
        let reader = Reader {
            names: self.open.as_slice(),
            objects: self.objects.as_slice(),
            is_in_shell: false,
        };
        match fault {
            Fault::BadLine { line, what } if *line == self.number && !is_told(&self.text) => {
                hint_text(self.alloc, self.text.as_str(), *what, reader).ok()
            }
            _ => None,
        }
    }

    /// Hears of a line that was read: keeps its `text` and its `number`.
    pub fn read(&mut self, number: u32, text: &str) -> Result<(), AllocError> {
        self.text = String::from_str(self.alloc, text)?;
        self.number = number;
        Ok(())
    }

    /// Hears of `said`, what the session `name` was answered.
    pub fn hear(&mut self, name: &Name, said: &Said) -> Result<(), AllocError> {
        match said {
            Said::Opened { .. } => self.open.push(*name)?,
            Said::Closed => self.forget(name),
            Said::Waits => {
                self.waited = true;
                self.waiting = self.waiting.saturating_add(1);
            }
            Said::GrantedAfterWaiting | Said::Cancelled => {
                self.waiting = self.waiting.saturating_sub(1);
            }
            Said::Refused(_) | Said::NotOwned(_) => self.was_refused = true,
            _ => {}
        }
        Ok(())
    }

    /// Forgets the session `name`, which is not open any more.
    fn forget(&mut self, name: &Name) {
        let place = self
            .open
            .iter()
            .position(|other| other.as_str() == name.as_str());
        if let Some(place) = place {
            if place < self.open.len() {
                self.open.remove(place);
            }
        }
    }

    /// Hears of `row`, a row of an answer: where it gives an object a name, the name is kept.
    pub fn hear_row(&mut self, row: &Row) -> Result<(), AllocError> {
        if let Row::Named(object) = row {
            self.objects.push(*object)?;
        }
        Ok(())
    }
}

/// Whether `text` is a reason why SQL can't be played, and no line of a script: only such a reason ends with
/// a line feed.
fn is_told(text: &String) -> bool {
    text.as_str().ends_with('\n')
}

/// A listener that passes on to the output what is heard, and keeps what a run comes to.
#[derive(Drop)]
pub struct Witness<'a, W: Write + Drop> {
    pub output: Output<W>,
    pub outcome: &'a mut Outcome,
    /// The waits of the run, if they are listed at its end.
    pub summary: Option<Summary>,
}

impl<W: Write + Drop> Listener for Witness<'_, W> {
    ghost use Rattle.scenario_program.specs.Runs.{PassesOn};

    ghost hears = { λ old heard new. PassesOn W.contents old heard new };

    fn begin_line(&mut self, number: u32, text: &str, more: bool) -> Result<(), Fault> {
        self.outcome
            .read(number, text)
            .map_err(|_| Fault::NoMemory)?;
        if let Some(summary) = &mut self.summary {
            summary.begin_line(number);
        }
        self.output.begin_line(number, text, more)
    }

    fn keep_line(&mut self, number: u32, text: &str, more: bool) -> Result<(), Fault> {
        self.outcome
            .read(number, text)
            .map_err(|_| Fault::NoMemory)?;
        if let Some(summary) = &mut self.summary {
            summary.read_line(number);
        }
        self.output.keep_line(number, text, more)
    }

    fn said(&mut self, names: &Names, name: Name, said: Said) -> Result<(), Fault> {
        self.outcome
            .hear(&name, &said)
            .map_err(|_| Fault::NoMemory)?;
        if let Some(summary) = &mut self.summary {
            summary.hear(&name, &said);
        }
        self.output.said(names, name, said)
    }

    fn row(&mut self, names: &Names, row: Row) -> Result<(), Fault> {
        self.outcome.hear_row(&row).map_err(|_| Fault::NoMemory)?;
        self.output.row(names, row)
    }

    fn pen(&self) -> Option<Pen> {
        self.output.pen()
    }

    fn picture(&mut self, names: &Names, picture: &Picture) -> Result<(), Fault> {
        self.output.picture(names, picture)
    }

    fn last_pen(&self) -> Option<Pen> {
        self.output.last_pen()
    }

    fn wants_waits(&self) -> bool {
        self.summary.is_some()
    }

    fn blocked(&mut self, names: &Names, blocked: &Blocked) -> Result<(), Fault> {
        if let Some(summary) = &mut self.summary {
            summary
                .begin_wait(names, blocked)
                .map_err(|_| Fault::NoMemory)?;
        }
        self.output.blocked(names, blocked)
    }

    fn ended(&mut self, names: &Names, tells_left: bool) -> Result<(), Fault> {
        match &self.summary {
            Some(summary) => self.output.summarize(names, summary, !tells_left),
            None => self.output.ended(names, tells_left),
        }
    }

    fn tell(&mut self, text: &str) -> Result<(), Fault> {
        self.output.tell(text)
    }

    fn end_line(&mut self) -> Result<(), Fault> {
        self.output.end_line()
    }

    fn left(&mut self, waiting: &[Name], lines: u64) -> Result<(), Fault> {
        self.output.left(waiting, lines)
    }
}
