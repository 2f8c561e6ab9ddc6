//! Pictures of a whole script: what its sessions held and awaited, from line to line.
ghost use Rattle.scenario.specs.Sizes.{IsForManager};

use crate::options::{FailOn, RunOptions};
use crate::outcome::Outcome;
use lock_manager::{Blocked, Config, Mode, Owner, Tag};
use lock_script::{
    Fault, Name, Names, ObjectNames, parse_name, parse_object, parse_owner, split_words,
};
use lock_timeline::Timeline;
use scenario::{
    Drawing, Listener, Pen, Picture, Row, Said, Style, Turns, picture_line, run_in_turn,
};
use std::alloc::{AllocError, Global};
use std::io::{Read, Write};
use std::sync::Wait;

/// Runs the script that the reader gives, as `run_script` does, and writes a picture of the whole script: as
/// SVG, or where `style` asks for `Drawing::Gantt` as Mermaid's chart, and with `style.json` as an object of
/// JSON. Nothing is written where the script ends with a fault.
pub fn draw_script<H: AllocGlobal + Wait, R: Read + Drop, W: Write + Drop>(
    rt: &H,
    reader: R,
    writer: W,
    config: Config,
    style: Style,
) -> Result<(), Fault>
    requires { IsForManager config }
{
    let mut outcome = Outcome::new(rt.alloc());
    let options = RunOptions {
        style,
        turns: Turns::PLAIN,
        summary: false,
        fail_on: FailOn::named(&[]),
        hints: false,
    };
    draw_heard_script(rt, reader, writer, config, options, &mut outcome)
}

/// Draws a script as `draw_script` does, run in turn as `options` say. What the run comes to is noted in
/// `outcome`.
pub fn draw_heard_script<H: AllocGlobal + Wait, R: Read + Drop, W: Write + Drop>(
    rt: &H,
    reader: R,
    writer: W,
    config: Config,
    options: RunOptions,
    outcome: &mut Outcome,
) -> Result<(), Fault>
    requires { IsForManager config }
{
    let alloc = rt.alloc();
    let mut sketch = Sketch::new(alloc);
    let draftsman = Draftsman {
        sketch: &mut sketch,
        outcome,
        alloc,
    };
    let (_, ended) = run_in_turn(rt, reader, draftsman, config, options.turns);
    ended?;
    write_sketch(alloc, writer, &sketch, options.style)
}

/// Writes the picture `sketch` to `writer` in the style `style`.
fn write_sketch<W: Write + Drop>(
    alloc: Global,
    mut writer: W,
    sketch: &Sketch,
    style: Style,
) -> Result<(), Fault> {
    let drawing = style.graph.unwrap_or(Drawing::Timeline);
    let Ok(text) = sketch.text(alloc, drawing, style.json) else {
        return Err(Fault::NoMemory);
    };
    let written = write!(writer, "{text}");
    if written.is_err() || writer.flush().is_err() {
        return Err(Fault::WriteFailed);
    }
    Ok(())
}

/// A lock that a line of a script asks for or gives back.
#[derive(Clone, Copy)]
struct Asked {
    tag: Tag,
    mode: Mode,
    owner: Owner,
}

/// What a line of a script says for a timeline: whose line it is, which lock it is about, and what it does to
/// the levels of a transaction.
#[derive(Clone, Copy)]
struct Played {
    name: Name,
    lock: Option<Asked>,
    level: Level,
}

/// What a line of a script does to the levels of its session's transaction.
#[derive(Clone, Copy)]
enum Level {
    Stays,
    Begins,
    IsKept,
    IsDropped,
}

impl Played {
    /// What a line of these `words` says for a timeline, if it says something, where `objects` have names.
    fn of(words: &[&str], objects: &ObjectNames) -> Option<Self> {
        let [verb, name, others @ ..] = words else {
            return None;
        };
        let name = parse_name(*name)?;
        let level = match *verb {
            "begin" => Level::Begins,
            "subcommit" => Level::IsKept,
            "subabort" => Level::IsDropped,
            _ => Level::Stays,
        };
        let lock = lock_of(others, objects);
        Some(Played { name, lock, level })
    }
}

/// The lock that a line is about by `words`, those after its session: an object, a mode, and `session` or
/// nothing; `objects` have names.
fn lock_of(words: &[&str], objects: &ObjectNames) -> Option<Asked> {
    let (tag, mode, owner) = match words {
        [tag, mode] => (*tag, *mode, Owner::Transaction),
        [tag, mode, owner] => (*tag, *mode, parse_owner(*owner)?),
        _ => return None,
    };
    Some(Asked {
        tag: parse_object(tag, objects)?,
        mode: Mode::from_name(mode)?,
        owner,
    })
}

/// A timeline, with the line of the script that is played.
#[derive(Drop)]
struct Sketch {
    timeline: Timeline,
    line: u32,
    text: String,
    played: Option<Played>,
}

impl Sketch {
    fn new(alloc: Global) -> Self {
        Sketch {
            timeline: Timeline::new(alloc),
            line: 0,
            text: String::new(alloc),
            played: None,
        }
    }

    /// Notes that the line `number` of the script, `text`, is played.
    fn begin_line(&mut self, alloc: Global, number: u32, text: &str) -> Result<(), AllocError> {
        let words = split_words(text);
        self.line = number;
        self.text = String::from_str(alloc, text)?;
        self.played = None;
        match words.as_slice().first() {
            Some(verb) if !verb.starts_with('#') => self.timeline.begin_line(number),
            _ => Ok(()),
        }
    }

    /// Notes that the session `name` is answered `said`. The objects are known by `names`.
    fn hear(&mut self, names: &Names, name: &Name, said: Said) -> Result<(), AllocError> {
        let words = split_words(self.text.as_str());
        self.played = Played::of(words.as_slice(), &names.objects);
        match said {
            Said::Opened { .. } => self.timeline.open(*name)?,
            Said::Acquired(_) => {
                if let Some(it) = self.lock_for(name) {
                    self.timeline.grant(name, it.tag, it.mode, it.owner)?;
                }
            }
            Said::Waits => {
                if let Some(it) = self.lock_for(name) {
                    self.timeline.wait(name, it.tag, it.mode, it.owner)?;
                }
            }
            Said::Unlocked(_) => {
                if let Some(it) = self.lock_for(name) {
                    self.timeline.release(name, it.tag, it.mode, it.owner);
                }
            }
            Said::Level(_) => self.hear_level(name),
            _ => self.hear_end(name, said),
        }
        Ok(())
    }

    /// Notes that the session `name` goes on, gives up, or drops what it has, by `said`.
    fn hear_end(&mut self, name: &Name, said: Said) {
        match said {
            Said::GrantedAfterWaiting => self.timeline.go_on(name),
            Said::Cancelled => self.timeline.give_up(name),
            Said::UnlockedAll(_) => self.timeline.unlock_all(name),
            Said::Committed => self.timeline.commit(name),
            Said::Aborted => self.timeline.abort(name),
            Said::Closed => self.timeline.close(name),
            _ => {}
        }
    }

    /// Notes that the session `name` is at another level of its transaction.
    fn hear_level(&mut self, name: &Name) {
        match self.played {
            Some(
                Played {
                    level: Level::Begins,
                    ..
                },
            ) => self.timeline.begin_level(name),
            Some(
                Played {
                    level: Level::IsKept,
                    ..
                },
            ) => self.timeline.end_level(name, true),
            Some(
                Played {
                    level: Level::IsDropped,
                    ..
                },
            ) => self.timeline.end_level(name, false),
            _ => {}
        }
    }

    /// The lock that the line played is about, if it is a line of the session `name`.
    fn lock_for(&self, name: &Name) -> Option<Asked> {
        let played = self.played?;
        if played.name == *name {
            played.lock
        } else {
            None
        }
    }

    /// The text of the picture `drawing`, or a line with its object of JSON where `is_json` is true.
    fn text(&self, alloc: Global, drawing: Drawing, is_json: bool) -> Result<String, AllocError> {
        let text = match drawing {
            Drawing::Gantt => self.timeline.gantt()?,
            _ => self.timeline.svg()?,
        };
        if !is_json {
            return Ok(text);
        }
        picture_line(alloc, self.line, drawing, text.as_str())
    }
}

/// A listener that keeps what is answered as a timeline.
#[derive(Drop)]
struct Draftsman<'a> {
    sketch: &'a mut Sketch,
    outcome: &'a mut Outcome,
    alloc: Global,
}

impl Listener for Draftsman<'_> {
    ghost use Rattle.std.specs.Prelude.{⊤};

    ghost hears = { λ _ _ _. ⊤ };

    fn begin_line(&mut self, number: u32, text: &str, _more: bool) -> Result<(), Fault> {
        self.outcome
            .read(number, text)
            .map_err(|_| Fault::NoMemory)?;
        self.sketch
            .begin_line(self.alloc, number, text)
            .map_err(|_| Fault::NoMemory)
    }

    fn said(&mut self, names: &Names, name: Name, said: Said) -> Result<(), Fault> {
        self.outcome
            .hear(&name, &said)
            .map_err(|_| Fault::NoMemory)?;
        self.sketch
            .hear(names, &name, said)
            .map_err(|_| Fault::NoMemory)
    }

    fn keep_line(&mut self, number: u32, text: &str, _more: bool) -> Result<(), Fault> {
        self.outcome.read(number, text).map_err(|_| Fault::NoMemory)
    }

    fn row(&mut self, _names: &Names, row: Row) -> Result<(), Fault> {
        self.outcome.hear_row(&row).map_err(|_| Fault::NoMemory)?;
        match row {
            Row::Named(it) => self
                .sketch
                .timeline
                .name_object(it.tag, it.name.as_str())
                .map_err(|_| Fault::NoMemory),
            _ => Ok(()),
        }
    }

    fn pen(&self) -> Option<Pen> {
        None
    }

    fn blocked(&mut self, _names: &Names, _blocked: &Blocked) -> Result<(), Fault> {
        Ok(())
    }

    fn picture(&mut self, _names: &Names, _picture: &Picture) -> Result<(), Fault> {
        Ok(())
    }

    fn tell(&mut self, _text: &str) -> Result<(), Fault> {
        Ok(())
    }

    fn end_line(&mut self) -> Result<(), Fault> {
        Ok(())
    }

    fn ended(&mut self, _names: &Names, _tells_left: bool) -> Result<(), Fault> {
        Ok(())
    }

    fn left(&mut self, _waiting: &[Name], _lines: u64) -> Result<(), Fault> {
        Ok(())
    }
}
