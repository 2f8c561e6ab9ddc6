//! Pictures of who waits for whom.

ghost use Rattle.std.specs.Prelude.{◌≡◌, ◌<◌, length};
ghost use Rattle.modes_core.specs.Sessions.{usual_sessions};

use crate::style::{Drawing, Pen};
use crate::text::{ObjectText, name_of};
use lock_manager::{Blocked, Blocker, How, Mode, ModeSet, QueueRow, SessionId, TableRow, Tag};
use lock_script::Names;
use modes_core::USUAL_SESSIONS;
use std::alloc::AllocError;
use std::fmt::Write;

/// A session that waits, with what it awaits.
#[derive(Clone, Copy, Debug)]
struct Wait {
    session: SessionId,
    tag: Tag,
    mode: Mode,
}

/// An arrow from a session that waits to one that is in its way by a mode.
#[derive(Clone, Copy, Debug)]
struct Arrow {
    from: SessionId,
    to: SessionId,
    mode: Mode,
    how: How,
}

/// What a session holds of an object that a session awaits.
#[derive(Clone, Copy, Debug)]
struct Hold {
    session: SessionId,
    tag: Tag,
    modes: ModeSet,
}

/// The queue of an object, and who waits in it, from the first one on.
#[derive(Debug, Drop)]
struct Queue {
    tag: Tag,
    waiters: Vec<SessionId>,
}

/// A picture of who waits for what, and for whom.
#[derive(Drop)]
pub struct Picture {
    pen: Pen,
    waits: Vec<Wait>,
    arrows: Vec<Arrow>,
    holds: Vec<Hold>,
    queues: Vec<Queue>,
}

impl Picture {
    /// A picture with nobody on it, which `pen` draws.
    pub fn new(pen: Pen) -> Self {
        Picture {
            pen,
            waits: Vec::new(pen.alloc),
            arrows: Vec::new(pen.alloc),
            holds: Vec::new(pen.alloc),
            queues: Vec::new(pen.alloc),
        }
    }

    /// The language that the picture is drawn in.
    pub fn drawing(&self) -> Drawing {
        self.pen.drawing
    }

    /// Whether the picture shows no wait.
    pub fn is_empty(&self) -> bool {
        self.waits.is_empty()
    }

    /// Adds the session that waits by `row` of a listing, with those that are in its way, `found`.
    pub fn add(&mut self, row: &TableRow, found: &[Blocker]) -> Result<(), AllocError> {
        self.add_wait(row.session, row.tag, row.mode, found)
    }

    /// Adds a session that waits, by what it said itself of its wait, `blocked`.
    pub fn add_blocked(&mut self, blocked: &Blocked) -> Result<(), AllocError> {
        self.add_wait(
            blocked.session,
            blocked.tag,
            blocked.mode,
            blocked.blockers.as_slice(),
        )
    }

    /// Adds `session`, which waits for `mode` on `tag`, with those `found` in its way.
    fn add_wait(
        &mut self,
        session: SessionId,
        tag: Tag,
        mode: Mode,
        found: &[Blocker],
    ) -> Result<(), AllocError> {
        self.waits.push(Wait { session, tag, mode })?;
        for blocker in found {
            self.arrows.push(Arrow {
                from: session,
                to: blocker.session,
                mode: blocker.mode,
                how: blocker.how,
            })?;
        }
        Ok(())
    }

    /// Whether the queue of `tag` was added.
    pub fn has_queue(&self, tag: Tag) -> bool {
        self.queues.iter().any(|queue| queue.tag == tag)
    }

    /// Adds the queue of `tag`, whose rows are `rows` from its first waiter on.
    pub fn add_queue(&mut self, tag: Tag, rows: &[QueueRow]) -> Result<(), AllocError> {
        let mut waiters = Vec::new(self.pen.alloc);
        for row in rows {
            waiters.push(row.session)?;
        }
        self.queues.push(Queue { tag, waiters })?;
        Ok(())
    }

    /// Adds that `session` holds `modes` of `tag`, if these are any.
    pub fn add_hold(
        &mut self,
        session: SessionId,
        tag: Tag,
        modes: ModeSet,
    ) -> Result<(), AllocError> {
        if modes == ModeSet::empty() {
            return Ok(());
        }
        self.holds.push(Hold {
            session,
            tag,
            modes,
        })?;
        Ok(())
    }

    /// How many queues were added to the picture.
    pub fn queues(&self) -> usize {
        self.queues.len()
    }

    /// The object whose queue was added at `place`, if more than `place` queues were added.
    pub fn queue_at(&self, place: usize) -> Option<Tag> {
        Some(self.queues.get(place)?.tag)
    }

    /// The picture's text, where `names` are those of all sessions: a node for each session by its number,
    /// with what it holds of the objects that are awaited, and what it awaits at which place; an arrow for
    /// each that is in another's way, and a mark for each that waits in a circle.
    pub fn text(&self, names: &Names) -> Result<String, AllocError> {
        let mut text = String::new(self.pen.alloc);
        match self.pen.drawing {
            Drawing::Mermaid => self.write_mermaid(names, &mut text)?,
            _ => self.write_dot(names, &mut text)?,
        }
        Ok(text)
    }

    fn write_mermaid(&self, names: &Names, text: &mut String) -> Result<(), AllocError> {
        writeln!(text, "graph LR")?;
        for number in 0..USUAL_SESSIONS {
            if self.shows(number) {
                self.write_mermaid_node(names, number, text)?;
            }
        }
        for arrow in &self.arrows {
            let (from, to, mode) = (arrow.from, arrow.to, arrow.mode);
            let line = match arrow.how {
                How::Held => "-->",
                How::Awaited => "-.->",
            };
            writeln!(text, "  s{from} {line}|{mode}| s{to}")?;
        }
        let circles = self.circles();
        for number in 0..USUAL_SESSIONS {
            if circles >> number & 1 == 1 {
                writeln!(text, "  style s{number} stroke:red,stroke-width:3px")?;
            }
        }
        Ok(())
    }

    fn write_mermaid_node(
        &self,
        names: &Names,
        number: u16,
        text: &mut String,
    ) -> Result<(), AllocError>
        requires { number < usual_sessions }
    {
        write!(text, "  s{number}[\"")?;
        self.write_label(names, number, "<br/>", text)?;
        writeln!(text, "\"]")
    }

    /// Writes what the node of the session `number` says to `text`, with `line_break` between two lines: its
    /// name, what it holds of each object that is awaited, and what it awaits.
    fn write_label(
        &self,
        names: &Names,
        number: u16,
        line_break: &str,
        text: &mut String,
    ) -> Result<(), AllocError>
        requires { number < usual_sessions }
    {
        write!(text, "{}", name_of(names, SessionId::new(number).unwrap()))?;
        for hold in &self.holds {
            if hold.session.number() == number {
                let object = ObjectText {
                    names,
                    tag: hold.tag,
                };
                write!(text, "{line_break}holds ")?;
                write_modes(hold.modes, text)?;
                write!(text, " on {object}")?;
            }
        }
        if let Some(wait) = self.wait_of(number) {
            let Wait { tag, mode, .. } = wait;
            let object = ObjectText { names, tag };
            write!(text, "{line_break}awaits {mode} on {object}")?;
            self.write_place(wait, line_break, text)?;
        }
        Ok(())
    }

    /// Writes to `text`, after a `line_break`, at which place of its object's queue the session of `wait`
    /// waits.
    fn write_place(
        &self,
        wait: Wait,
        line_break: &str,
        text: &mut String,
    ) -> Result<(), AllocError> {
        for queue in &self.queues {
            if queue.tag == wait.tag {
                let waiters = queue.waiters.as_slice();
                if let Some(before) = waiters.iter().position(|one| *one == wait.session) {
                    let (place, all) = (before.saturating_add(1), waiters.len());
                    return write!(text, "{line_break}{place} of {all} in the queue");
                }
            }
        }
        Ok(())
    }

    fn write_dot(&self, names: &Names, text: &mut String) -> Result<(), AllocError> {
        writeln!(text, "digraph locks {{")?;
        writeln!(text, "  rankdir=LR;")?;
        writeln!(text, "  node [shape=box];")?;
        let circles = self.circles();
        for number in 0..USUAL_SESSIONS {
            if self.shows(number) {
                let color = if circles >> number & 1 == 1 {
                    "red"
                } else {
                    "black"
                };
                self.write_dot_node(names, number, color, text)?;
            }
        }
        for arrow in &self.arrows {
            let (from, to, mode) = (arrow.from, arrow.to, arrow.mode);
            let style = match arrow.how {
                How::Held => "solid",
                How::Awaited => "dashed",
            };
            writeln!(
                text,
                "  s{from} -> s{to} [label=\"{mode}\", style={style}];"
            )?;
        }
        writeln!(text, "}}")
    }

    fn write_dot_node(
        &self,
        names: &Names,
        number: u16,
        color: &str,
        text: &mut String,
    ) -> Result<(), AllocError>
        requires { number < usual_sessions }
    {
        write!(text, "  s{number} [label=\"")?;
        self.write_label(names, number, "\\n", text)?;
        writeln!(text, "\", color={color}];")
    }

    /// What the session `number` awaits, if it waits.
    fn wait_of(&self, number: u16) -> Option<Wait> {
        for wait in &self.waits {
            if wait.session.number() == number {
                return Some(*wait);
            }
        }
        None
    }

    /// Whether the session `number` is on the picture.
    fn shows(&self, number: u16) -> bool {
        if self.wait_of(number).is_some() {
            return true;
        }
        for arrow in &self.arrows {
            if arrow.to.number() == number {
                return true;
            }
        }
        false
    }

    /// The sessions that wait in a circle, as a set of bits by their numbers: the arrows lead from each of
    /// them back to itself.
    fn circles(&self) -> u64 {
        let mut reached = [0_u64; 64];
        for arrow in &self.arrows {
            let (from, to) = (arrow.from.number(), arrow.to.number());
            if from < USUAL_SESSIONS && to < USUAL_SESSIONS {
                reached[usize::from(from)] |= 1 << to;
            }
        }
        for middle in 0..64_usize {
            for start in 0..64_usize {
                if reached[start] >> middle & 1 == 1 {
                    reached[start] |= reached[middle];
                }
            }
        }
        let mut circles = 0;
        for number in 0..64_usize {
            circles |= reached[number] & (1 << number);
        }
        circles
    }
}

/// Writes the names of `modes` to `text`, from the lowest number on, with a comma between two of them.
fn write_modes(modes: ModeSet, text: &mut String) -> Result<(), AllocError> {
    let mut is_first = true;
    for mode in Mode::ALL {
        if modes.has(mode) {
            if !is_first {
                text.push_str(", ")?;
            }
            is_first = false;
            write!(text, "{mode}")?;
        }
    }
    Ok(())
}
