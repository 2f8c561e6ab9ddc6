//! The orders of a script, one after another: which line is played next, and how each order ended.
ghost use Rattle.std.specs.Prelude.{◌≡◌, ◌<◌, ◌+◌, ◌-◌, ◌^◌, ◌&&◌, nat_lt, length, slice_index, if◌then◌else◌, IfOk, IfSome, IsSome, OnOk};
ghost use Rattle.script_orders.specs.Steps.{IsInOwnOrder};

mod choices;

use crate::ends::{Endings, Extent};
use crate::faults::{BadLine, RefusedSession};
use crate::options::OrdersOptions;
use crate::played::{News, Played};
use crate::reaches::Ties;
use crate::script_lines::{ScriptLine, ScriptLines};
use crate::search::Search;
use crate::steps::{Order, Step};
use crate::totals::Total;
use choices::Choice;
use lock_script::{Defect, Name};
use rand_core::SeedableRng;
use rand_xoshiro::Xoshiro256PlusPlus;
use std::alloc::{AllocError, Global};
use std::fmt::Display;
use std::io::{self, Write};

/// How many orders are played at most against one lock manager.
const ORDERS_A_MANAGER: u32 = 128;

/// What a player is to do next.
#[derive(Clone, Copy)]
pub enum Instruction<'a> {
    /// The player is to play this line.
    Line(&'a str),
    /// The player is to let all go that the sessions hold and await. Another order begins with the same
    /// sessions.
    Anew,
    /// The player is to end: no further order is played.
    End,
}

/// Which orders are run now.
#[derive(Clone, Copy)]
enum Phase {
    /// The script's own order, in which the lines of a session that waits are put off until it goes on.
    Own,
    /// All orders, one after another.
    All,
    /// Some orders, as they are drawn.
    Drawn,
    /// No order is left to be run.
    Over,
}

/// A line that was given to the player.
#[derive(Clone, Copy)]
enum Given {
    /// The line with this place among those that come before all orders.
    Opening(usize),
    /// A line of a session, which is this step of the order.
    Step(Step),
}

/// The orders of a script: which are run, and how those ended that were run.
#[derive(Drop)]
pub struct Orders<'a> {
    alloc: Global,
    script_lines: &'a ScriptLines,
    ties: &'a Ties,
    options: OrdersOptions,
    total: Total,
    phase: Phase,
    /// How many of the lines that come before all orders were given.
    opened: usize,
    given: Given,
    order: Order,
    played: Played,
    /// How many lines of the script's own order were looked at, and how many of each session were put off.
    looked_at: usize,
    put_off: Vec<usize>,
    search: Search,
    generator: Xoshiro256PlusPlus,
    endings: Endings,
    /// Whether all orders were run.
    is_whole: bool,
    /// How many of the first orders were run, before the others were drawn.
    first: u64,
    /// How many orders were begun against the lock manager in use.
    begun_here: u32,
}

impl<'a> Orders<'a> {
    ghost use Rattle.script_orders.specs.Ends.{begun_of, run_of};
    ghost use Rattle.script_orders.specs.Turns.{Begins, Goes, IsLineAt, KeepsOrder, steps_of};

    /// The orders of `script_lines` within `options`, none of which was run yet. `ties` says which lines of
    /// `script_lines` have to do with one another. Refused only where memory ran out.
    pub fn new(
        alloc: Global,
        script_lines: &'a ScriptLines,
        ties: &'a Ties,
        options: OrdersOptions,
    ) -> Result<Self, AllocError> {
        let sessions = script_lines.actors.len();
        Ok(Orders {
            alloc,
            script_lines,
            ties,
            options,
            total: Total::of_merges(script_lines),
            phase: Phase::Own,
            opened: 0,
            given: Given::Opening(0),
            order: Order::new(alloc, sessions)?,
            played: Played::new(alloc, sessions)?,
            looked_at: 0,
            put_off: vec![in alloc; 0; sessions]?,
            search: Search::new(alloc),
            generator: Xoshiro256PlusPlus::seed_from_u64(u64::from(options.seed)),
            endings: Endings::new(alloc),
            is_whole: false,
            first: 0,
            begun_here: 0,
        })
    }

    /// Whether all orders were run that are to be run.
    pub fn is_over(&self) -> bool {
        self.phase == Phase::Over
    }

    /// How many orders were run to their end, or until they were stuck.
    pub fn run(&self) -> u64 {
        self.endings.run()
    }

    /// Answers what the player is to do next. Refused only where memory ran out.
    pub fn next_instruction(&mut self) -> Result<Instruction<'a>, AllocError>
        ensures goes { IfOk result (Goes self.old self.new) }
        ensures in_order { IsInOwnOrder (steps_of self.new) }
        ensures same_script_lines { self.new.script_lines.now ≡ self.old.script_lines.now }
    {
        self.go_on()
    }

    /// Answers the player's next turn: a line to play, another order, or the end.
    fn go_on(&mut self) -> Result<Instruction<'a>, AllocError>
        ensures goes { IfOk result (Goes self.old self.new) }
        ensures same_script_lines { self.new.script_lines.now ≡ self.old.script_lines.now }
    {
        if self.played.was_refused {
            return Ok(Instruction::End);
        }
        if self.opened < self.script_lines.opening.len() {
            return Ok(self.give_opening());
        }
        match self.choose()? {
            Choice::Of(session) => self.give_line(session),
            Choice::Ended => self.end_order(true),
            Choice::GivenUp => self.end_order(false),
        }
    }

    /// Gives the next of the lines that come before all orders.
    fn give_opening(&mut self) -> Instruction<'a>
        requires { self.old.opened < length self.old.script_lines.now.opening.items }
        ensures goes { Goes self.old self.new result }
        ensures same_script_lines { self.new.script_lines.now ≡ self.old.script_lines.now }
    {
        let script_lines = self.script_lines;
        let line = &script_lines.opening[self.opened];
        self.given = Given::Opening(self.opened);
        self.opened += 1;
        Instruction::Line(line.text.as_str())
    }

    /// Gives the next line of `session`. Where `session` has none left, the order is given up.
    fn give_line(&mut self, session: usize) -> Result<Instruction<'a>, AllocError>
        ensures goes { IfOk result (Goes self.old self.new) }
        ensures same_script_lines { self.new.script_lines.now ≡ self.old.script_lines.now }
    {
        let Some(line) = self.next_line_of(session) else {
            return self.end_order(false);
        };
        let step = self.order.take(session)?;
        self.given = Given::Step(step);
        Ok(Instruction::Line(line.text.as_str()))
    }

    /// The next line of `session`, if it has one left.
    fn next_line_of(&self, session: usize) -> Option<&'a ScriptLine>
        ensures there { IsSome result → session < length self.now.order.taken.items }
        ensures fits { IsSome result → slice_index self.now.order.taken.items session < 2 ^ 64 - 1 }
        ensures line { IfSome result (λ line. IsLineAt self.now.script_lines.now
            (record { session = session; line = slice_index self.now.order.taken.items session }) line.now) }
    {
        let line = *self.order.taken.get(session)?;
        self.script_lines.line(Step { session, line })
    }

    /// Ends the order that is played, which came to its end if `has_ended`, and else was given up. Begins the
    /// next order.
    fn end_order(&mut self, has_ended: bool) -> Result<Instruction<'a>, AllocError>
        ensures begins { IfOk result (Begins self.new) }
        ensures same_script_lines { self.new.script_lines.now ≡ self.old.script_lines.now }
    {
        match self.phase {
            Phase::Own => {
                self.phase = Phase::All;
                self.begun_here = ORDERS_A_MANAGER;
            }
            Phase::All => {
                self.close_order(has_ended)?;
                if !self.search.next_order() {
                    self.is_whole = true;
                    self.phase = Phase::Over;
                }
            }
            Phase::Drawn | Phase::Over => self.close_order(has_ended)?,
        }
        if self.phase == Phase::All && self.endings.begun() >= self.most_first() {
            self.first = self.endings.run();
            self.phase = Phase::Drawn;
        }
        if self.endings.begun() >= u64::from(self.options.limit) {
            self.phase = Phase::Over;
        }
        self.begin_order()
    }

    /// Counts the order that is played: as run to its end if `has_ended`, and else as given up. No more
    /// orders are counted than are to be begun.
    fn close_order(&mut self, has_ended: bool) -> Result<(), AllocError>
        ensures kept { KeepsOrder self.old self.new }
        ensures counted { OnOk result (run_of self.new.endings ≡ run_of self.old.endings
            + (if has_ended && nat_lt (begun_of self.old.endings) self.old.options.limit then 1 else 0)) }
    {
        if self.endings.begun() >= u64::from(self.options.limit) {
            return Ok(());
        }
        if has_ended {
            self.count_order()
        } else {
            self.endings.give_up();
            Ok(())
        }
    }

    /// How many orders are begun at most before others are drawn: as many as the limit allows, or half as
    /// many where there may be more orders than that.
    fn most_first(&self) -> u64 {
        let limit = u64::from(self.options.limit);
        if self.total.is_at_most(limit) {
            limit
        } else {
            limit / 2
        }
    }

    /// Begins another order, with the same lock manager where that can be emptied.
    fn begin_order(&mut self) -> Result<Instruction<'a>, AllocError>
        ensures begins { IfOk result (Begins self.new) }
        ensures same_script_lines { self.new.script_lines.now ≡ self.old.script_lines.now }
    {
        let sessions = self.script_lines.actors.len();
        self.order = Order::new(self.alloc, sessions)?;
        self.begun_here = self.begun_here.saturating_add(1);
        if self.phase != Phase::Over
            && self.begun_here < ORDERS_A_MANAGER
            && self.script_lines.is_undone_by_aborts()
        {
            self.played.begin_order();
            return Ok(Instruction::Anew);
        }
        self.played = Played::new(self.alloc, sessions)?;
        self.begun_here = 0;
        self.opened = 0;
        Ok(Instruction::End)
    }

    /// Counts the order that is played, which came to its end.
    fn count_order(&mut self) -> Result<(), AllocError>
        requires { run_of self.old.endings < 2 ^ 32 - 1 }
        ensures kept { KeepsOrder self.old self.new }
        ensures counted { OnOk result (run_of self.new.endings ≡ run_of self.old.endings + 1) }
    {
        let order = &self.order;
        let taken = order.taken.as_slice();
        let told = self.played.tell(self.alloc, self.script_lines, taken)?;
        let script = self
            .script_lines
            .script(self.alloc, order.steps.as_slice())?;
        let is_stuck = order.steps.len() < self.script_lines.own_merge.len();
        self.endings.count(told, script, is_stuck)
    }

    /// Notes the answer `text` to the line that was given last, or that a session goes on after that line.
    /// `session` is the session that is answered, whose name `text` leaves out, with what the answer says of
    /// that session. A row of a list has no `session`: it is for the session whose line was given.
    pub fn tell<D: Display + Drop>(
        &mut self,
        session: Option<(Name, News)>,
        text: D,
    ) -> Result<(), AllocError> {
        let asker = match self.given {
            Given::Opening(_) => self.script_lines.actors.len(),
            Given::Step(step) => step.session,
        };
        let told = match session {
            Some((name, news)) => {
                let told = self.script_lines.place_of(name.as_str()).unwrap_or(asker);
                self.played.hear(told, name, news, self.order.steps.len());
                told
            }
            None => asker,
        };
        match self.given {
            Given::Step(step) if !self.is_left_out(step) => self.played.add_answer(told, text),
            _ => Ok(()),
        }
    }

    /// Whether the answers to the line of `step` are left out: the line only looks at locks, and only ends
    /// are described.
    fn is_left_out(&self, step: Step) -> bool {
        self.options.ends
            && self
                .script_lines
                .line(step)
                .is_some_and(|line| line.looks())
    }

    /// The line that was given last, if there is one.
    fn given_line(&self) -> Option<&'a ScriptLine> {
        match self.given {
            Given::Opening(place) => self.script_lines.opening.get(place),
            Given::Step(step) => self.script_lines.line(step),
        }
    }

    /// Describes the line that was given last, of which `what` is wrong. Refused only where memory ran out.
    pub fn bad_line(&self, what: Defect) -> Result<BadLine, AllocError> {
        let line = self.given_line();
        Ok(BadLine {
            number: line.map_or(0, |line| line.number),
            what,
            text: String::from_str(self.alloc, line.map_or("", |line| line.text.as_str()))?,
            open: self.played.open_names(self.alloc)?,
        })
    }

    /// The line that was given last, if it opens a session and was refused since all that may be opened were.
    pub fn refused_session(&self) -> Option<RefusedSession> {
        if !self.played.was_refused {
            return None;
        }
        Some(RefusedSession {
            number: self.given_line().map_or(0, |line| line.number),
            wanted: u32::try_from(self.script_lines.sessions_wanted()).unwrap_or(u32::MAX),
        })
    }

    /// Writes to `output` how the orders ended that were run.
    pub fn write<W: Write>(&self, output: &mut W) -> io::Result<()> {
        let extent = if self.is_whole {
            Extent::All
        } else {
            Extent::Drawn {
                first: self.first,
                seed: self.options.seed,
            }
        };
        self.endings.write(output, self.total, extent)
    }
}
