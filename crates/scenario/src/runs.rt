//! Runs of whole scripts, each against a lock manager of its own.
ghost use Rattle.std.specs.Prelude.{◌≡◌, ◌||◌, IsTrue, false};
ghost use Rattle.scenario.specs.Acts.{IsKeptHeard, UnlessUnheard, WritesScript, no_cast};
ghost use Rattle.scenario.specs.Scripts.{IsScriptHeard};
ghost use Rattle.scenario.specs.Sizes.{IsForManager};

use crate::desks::ScriptDesk;
use crate::driver::{Act, drive};
use crate::listener::Listener;
use crate::output::Output;
use crate::run::Scene;
use crate::style::Style;
use lock_manager::{Config, Desk, ManagerDesk, OwnSession, Part, Session};
use lock_script::Fault;
use lock_table::PartTable;
use shared_rule::{Board, SeatBoard};
use std::alloc::Global;
use std::io::{Read, Write};
use std::sync::Wait;

/// Which lines are kept while their sessions wait.
#[derive(Clone, Copy)]
pub struct Keeping {
    /// The memory for the kept lines.
    pub alloc: Global,
    /// Whether the script speaks SQL. Each line that its SQL comes to is kept while the session waits.
    pub speaks: bool,
    /// Whether the lines that say no SQL are kept while their sessions wait.
    pub keeps: bool,
}

/// In which manner the lines of a script are run.
#[derive(Clone, Copy)]
pub enum Manner {
    /// The lines are run one after the other, to the first fault.
    Plain,
    /// The lines are run one after the other, but lines whose sessions wait are kept.
    Keeping(Keeping),
}

/// The run of a script.
#[derive(Drop)]
pub struct Script<R> {
    pub reader: R,
    pub manner: Manner,
}

impl<R: Read + Drop, L: Listener> Act<L> for Script<R> {
    ghost use Rattle.scenario.specs.Acts.{IsHeardInManner};

    ghost acts = { λ B seat view stack again database_of entries script old before ended now.
        IsHeardInManner seat view stack again database_of entries L.hears script.manner (R.remaining script.reader) old before ended
        now };

    fn act<T: PartTable, B: Board<T>, D: ScriptDesk<OwnSession<T, B>>, H: Wait>(
        self,
        rt: &H,
        scene: &mut Scene<T, B, D, L>,
    ) -> Result<(), Fault> {
        let Script { reader, manner } = self;
        match manner {
            Manner::Plain => scene.run_lines(rt, reader),
            Manner::Keeping(keeping) => scene.run_keeping(rt, reader, keeping),
        }
    }
}

/// How the lines of a script are run in turn.
#[derive(Clone, Copy, Debug, PartialEq, Eq)]
pub struct Turns {
    /// Whether a line whose session waits is kept, and run once the session goes on.
    pub keep: bool,
    /// Whether the numbers of closed sessions are given out again.
    pub reuse: bool,
    /// Whether the script speaks SQL.
    pub sql: bool,
}

impl Turns {
    /// Each line is run as it comes, and each session number is given out once.
    pub const PLAIN: Turns = Turns {
        keep: false,
        reuse: false,
        sql: false,
    };

    /// In which manner the lines of a script are run, where kept lines take memory by `alloc`.
    fn manner(self, alloc: Global) -> Manner
        ensures plain { self.keep ≡ false → self.sql ≡ false → result ≡ Manner.Plain }
        ensures keeping { IsTrue (self.keep || self.sql) →
            result ≡ Manner.Keeping (record { alloc = alloc; speaks = self.sql; keeps = self.keep }) }
    {
        if self.sql || self.keep {
            Manner::Keeping(Keeping {
                alloc,
                speaks: self.sql,
                keeps: self.keep,
            })
        } else {
            Manner::Plain
        }
    }
}

/// Runs the script that `reader` gives against a lock manager of its own, of the size `config`, and writes to
/// `writer` what each line prints before the next line is run. The writer is flushed where the next line has
/// to be read first. The run ends with the input, or with the first fault, and then the sessions that are
/// open are closed in silence. The writer comes back, with all that was written.
pub fn run_script<H: AllocGlobal + Wait, R: Read + Drop, W: Write + Drop>(
    rt: &H,
    reader: R,
    writer: W,
    config: Config,
) -> (W, Result<(), Fault>)
    requires { IsForManager config }
    ensures written { let B = ⟦<SeatBoard<'static, Part> as Board<Part>>⟧ in
        let D = ⟦<ManagerDesk<'static> as Desk<Session<'static>>>⟧ in
        UnlessUnheard result.1 (WritesScript B.seat B.view B.stack false D.database_of D.entries (R.remaining reader) false false
        (W.contents writer) result.1 (W.contents result.0)) }
{
    run_styled_script(rt, reader, writer, config, Style::PLAIN)
}

/// Runs a script as `run_script` does, with what it does shown in the style `style`.
pub fn run_styled_script<H: AllocGlobal + Wait, R: Read + Drop, W: Write + Drop>(
    rt: &H,
    reader: R,
    writer: W,
    config: Config,
    style: Style,
) -> (W, Result<(), Fault>)
    requires { IsForManager config }
    ensures written { let B = ⟦<SeatBoard<'static, Part> as Board<Part>>⟧ in
        let D = ⟦<ManagerDesk<'static> as Desk<Session<'static>>>⟧ in
        UnlessUnheard result.1 (WritesScript B.seat B.view B.stack false D.database_of D.entries (R.remaining reader) style.json
        style.echo (W.contents writer) result.1 (W.contents result.0)) }
{
    let output = Output::styled(rt.alloc(), writer, style);
    let (output, ended) = run_in_turn(rt, reader, output, config, Turns::PLAIN);
    (output.into_writer(), ended)
}

/// Runs the script that `reader` gives against a lock manager of its own, of the size `config`, and tells
/// `listener` what each line is answered. Where `turns` keeps lines, one whose session waits is kept, and run
/// once the session goes on, after the lines of the session that were kept before. Where `turns` says that
/// the script speaks SQL, the lines that the statements of its `do` lines come to are kept in any case. Where
/// lines are kept, `listener` hears at the end who is left waiting, and how many lines were not reached.
/// Where `turns` reuses numbers, a new session has the lowest one that no open session has. The run ends with
/// the input or the first fault, and the listener comes back.
pub fn run_in_turn<H: AllocGlobal + Wait, R: Read + Drop, L: Listener>(
    rt: &H,
    reader: R,
    listener: L,
    config: Config,
    turns: Turns,
) -> (L, Result<(), Fault>)
    requires { IsForManager config }
    ensures heard { let B = ⟦<SeatBoard<'static, Part> as Board<Part>>⟧ in
        let D = ⟦<ManagerDesk<'static> as Desk<Session<'static>>>⟧ in turns.keep ≡ false → turns.sql ≡ false →
        IsScriptHeard B.seat B.view B.stack turns.reuse D.database_of D.entries L.hears (R.remaining reader) no_cast listener
        result.1 result.0 }
    ensures heard_in_turn { let B = ⟦<SeatBoard<'static, Part> as Board<Part>>⟧ in
        let D = ⟦<ManagerDesk<'static> as Desk<Session<'static>>>⟧ in IsTrue (turns.keep || turns.sql) →
        IsKeptHeard B.seat B.view B.stack turns.reuse D.database_of D.entries L.hears turns.sql turns.keep (R.remaining reader)
        no_cast listener result.1 result.0 }
{
    let manner = turns.manner(rt.alloc());
    drive(rt, config, turns.reuse, listener, Script { reader, manner })
}
