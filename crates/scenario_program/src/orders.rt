//! The orders of a script, played against lock managers that are emptied between two orders.

ghost use Rattle.scenario.specs.Sizes.{IsForManager};

use crate::hints::{Reader, hint_text};
use lock_manager::{Blocked, Config, OwnSession, Refusal, USUAL_SESSIONS};
use lock_script::{Caller, Command, Fault, Name, Names, parse};
use lock_table::PartTable;
use scenario::{
    Act, Listener, Pen, Picture, Row, RowText, Said, SaidText, Scene, ScriptDesk, ScriptState,
    drive,
};
use script_orders::{BadLine, Instruction, News, Orders, Player, RefusedSession};
use shared_rule::Board;
use std::alloc::{AllocError, Global};
use std::sync::Wait;

/// Plays the lines of orders against lock managers of the size `config`.
#[derive(Clone, Copy)]
pub struct OnManagers {
    pub config: Config,
    ghost for_manager: { IsForManager config },
}

impl Player for OnManagers {
    fn play<H: AllocGlobal + Wait>(&self, rt: &H, orders: &mut Orders<'_>) -> Result<(), Fault> {
        let (_, ended) = drive(rt, self.config, false, Spectator { orders }, AllTurns);
        ended
    }
}

/// The turns of the orders that the listener has.
#[derive(Clone, Copy)]
struct AllTurns;

impl<'a, 'b> Act<Spectator<'a, 'b>> for AllTurns {
    ghost use Rattle.std.specs.Prelude.{⊤};

    ghost acts = { λ _ _ _ _ _ _ _ _ _ _ _ _. ⊤ };

    fn act<T: PartTable, B: Board<T>, D: ScriptDesk<OwnSession<T, B>>, H: Wait>(
        self,
        rt: &H,
        scene: &mut Scene<T, B, D, Spectator<'a, 'b>>,
    ) -> Result<(), Fault> {
        play_turns(rt, scene)
    }
}

/// Does in `scene` what the orders of its listener say, turn by turn, to their end or to the first fault.
fn play_turns<T: PartTable, B: Board<T>, D: ScriptDesk<OwnSession<T, B>>, H: Wait>(
    rt: &H,
    scene: &mut Scene<T, B, D, Spectator<'_, '_>>,
) -> Result<(), Fault> {
    'turns: for _ in 0..u64::MAX {
        let turn = scene.listener.orders.next_instruction();
        match turn.map_err(|_| Fault::NoMemory)? {
            Instruction::Line(line) => play_line(rt, scene, line)?,
            Instruction::Anew => let_all_go(rt, &mut scene.state),
            Instruction::End => return Ok(()),
        }
    }
    Ok(())
}

/// Runs `line` in `scene`, and notes in the orders of its listener what the line is answered.
fn play_line<T: PartTable, B: Board<T>, D: ScriptDesk<OwnSession<T, B>>, H: Wait>(
    rt: &H,
    scene: &mut Scene<T, B, D, Spectator<'_, '_>>,
    line: &str,
) -> Result<(), Fault> {
    let state = &scene.state;
    let command = parse(line, &state.sessions, &state.names.objects).map_err(|what| Fault::BadLine {
        line: 0,
        what,
    })?;
    match command {
        Some(command) => scene.run(rt, command),
        None => Ok(()),
    }
}

/// Has all sessions of `state` abort their transactions. Sessions that wait cancel their waits before that.
fn let_all_go<T: PartTable, B: Board<T>, D: ScriptDesk<OwnSession<T, B>>, H: Wait>(
    rt: &H,
    state: &mut ScriptState<T, B, D>,
) {
    state.cancel_all(rt);
    'sessions: for place in 0..state.sessions.resting.len() {
        if place < state.sessions.resting.len() {
            let name = state.sessions.resting.at(place).name;
            let _ = state.answer(rt, Command::Abort(Caller { name, place }));
        }
    }
}

/// A listener that notes in the orders what the sessions are answered.
#[derive(Drop)]
struct Spectator<'a, 'b> {
    orders: &'a mut Orders<'b>,
}

impl Listener for Spectator<'_, '_> {
    ghost use Rattle.std.specs.Prelude.{⊤};

    ghost hears = { λ _ _ _. ⊤ };

    fn begin_line(&mut self, _number: u32, _text: &str, _more: bool) -> Result<(), Fault> {
        Ok(())
    }

    fn said(&mut self, names: &Names, name: Name, said: Said) -> Result<(), Fault> {
        let news = news_of(&said);
        self.orders
            .tell(Some((name, news)), SaidText { names, said })
            .map_err(|_| Fault::NoMemory)
    }

    fn row(&mut self, names: &Names, row: Row) -> Result<(), Fault> {
        self.orders
            .tell(None, RowText { names, row })
            .map_err(|_| Fault::NoMemory)
    }

    fn pen(&self) -> Option<Pen> {
        None
    }

    fn blocked(&mut self, _names: &Names, _blocked: &Blocked) -> Result<(), Fault> {
        Ok(())
    }

    fn picture(&mut self, _names: &Names, _picture: &Picture) -> Result<(), Fault> {
        Ok(())
    }

    fn tell(&mut self, _text: &str) -> Result<(), Fault> {
        Ok(())
    }

    fn end_line(&mut self) -> Result<(), Fault> {
        Ok(())
    }

    fn keep_line(&mut self, _number: u32, _text: &str, _more: bool) -> Result<(), Fault> {
        Ok(())
    }

    fn ended(&mut self, _names: &Names, _tells_left: bool) -> Result<(), Fault> {
        Ok(())
    }

    fn left(&mut self, _waiting: &[Name], _lines: u64) -> Result<(), Fault> {
        Ok(())
    }
}

/// What the answer `said` means for the session that it is given to.
fn news_of(said: &Said) -> News {
    match said {
        Said::Opened { .. } => News::Opened,
        Said::Waits => News::Waits,
        Said::Closed => News::Closed,
        Said::Refused(Refusal::NoMoreSessions) => News::NotOpened,
        _ => News::Rests,
    }
}

/// What may help with the bad line `bad`, in lines of its own.
pub fn bad_line_hint(alloc: Global, bad: &BadLine) -> Result<String, AllocError> {
    let reader = Reader {
        names: bad.open.as_slice(),
        objects: &[],
        is_in_shell: false,
    };
    hint_text(alloc, bad.text.as_str(), bad.what, reader)
}

/// The text on a session that was refused as `refused` says, where `config` says how many may be opened.
pub fn refused_session_text(
    alloc: Global,
    refused: RefusedSession,
    config: Config,
) -> Result<String, AllocError> {
    let RefusedSession { number, wanted } = refused;
    let most = config.sessions;
    if wanted <= USUAL_SESSIONS {
        format!(in alloc;
            "line {number}: no more than {most} sessions may be opened; --sessions {wanted} allows all of them\n"
        )
    } else {
        format!(in alloc;
            "line {number}: no more than {most} sessions may be opened; --sessions allows {USUAL_SESSIONS} at most\n"
        )
    }
}
