//! What is left when a script has ended.
ghost use Rattle.std.specs.Prelude.{◌≡◌, ◌≤◌};
ghost use Rattle.lock_manager.specs.Crews.{SeatsAre};
ghost use Rattle.modes_core.specs.Sessions.{usual_sessions};

use crate::scripts::ALL_SESSIONS;
use connections::ManagerName;
use lock_manager::{Desk, Manager, ManagerDesk, OwnSession};
use lock_script::{Names, OpenSessions};
use lock_table::PartTable;
use scenario::{Manner, OnceDesk, Output, Scene, Script, ScriptState};
use shared_rule::Board;
use std::alloc::Global;
use std::marker::{Brand, PhantomData};
use std::process::Abort;
use std::sync::Wait;
use std::test::Fail;

/// Scripts over one `ScriptState`, and whether they run to their end.
static IN_TURN: [(&str, bool); 3] = [
    (
        "session b 5\nsession a 5\nsession c 5\ntry b 5/1 ExclusiveLock session\n\
         try a 5/2 ShareLock\nlock a 5/1 ExclusiveLock\nlock c 5/1 AccessExclusiveLock\n",
        true,
    ),
    (
        "session a 6\ntry a 5/1 AccessExclusiveLock session\nfrob\n",
        false,
    ),
    (
        "session a 7\nlist a\nlock a 5/1 AccessExclusiveLock\n",
        true,
    ),
];

/// What the scripts of `IN_TURN` print.
const PRINTED: &str = "b: session 0 database 5\na: session 1 database 5\nc: session 2 database 5\n\
    b: granted\na: granted\na: waits\nc: waits\na: session 3 database 6\na: granted\n\
    a: session 4 database 7\nrows 0\na: granted\n";

/// Plays the scripts over one `ScriptState`, whose sessions `desk` opens, and prints on `output`.
fn play_over<T: PartTable, B: Board<T>, D: Desk<OwnSession<T, B>> + Drop, R: Abort + Wait>(
    rt: &R,
    alloc: Global,
    desk: D,
    output: &mut Vec<u8>,
) -> Result<(), Fail>
    requires seats { SeatsAre B.seat D.seat }
    requires none_issued { D.issued desk ≡ 0 }
    requires none_live { D.live desk ≡ 0 }
    requires few { (D.manager desk).limit ≤ usual_sessions }
{
    play_in_turn::<T, B, D, Brand, R>(rt, alloc, desk, output)
}

/// Plays the scripts as `play_over` does, with sessions of the manager that `M` names.
fn play_in_turn<
    T: PartTable,
    B: Board<T>,
    D: Desk<OwnSession<T, B>> + Drop,
    M: ManagerName,
    R: Abort + Wait,
>(rt: &R, alloc: Global, desk: D, output: &mut Vec<u8>) -> Result<(), Fail>
    requires is { D.manager desk ≡ M.manager }
    requires seats { SeatsAre B.seat D.seat }
    requires none_issued { D.issued desk ≡ 0 }
    requires none_live { D.live desk ≡ 0 }
    requires few { M.manager.limit ≤ usual_sessions }
{
    let sessions = OpenSessions::new(alloc)?;
    let desk = OnceDesk::<OwnSession<T, B>, D, M> {
        desk,
        of: PhantomData,
    };
    let state = ScriptState {
        desk,
        names: Names::new(alloc),
        sessions,
    };
    let listener = Output::new(output);
    let mut scene = Scene { state, listener };
    'turns: for turn in &IN_TURN {
        let (script, is_good) = *turn;
        let reader = script.as_bytes();
        let manner = Manner::Plain;
        let ended = scene.act_out(rt, Script { reader, manner });
        assert_eq!(rt; ended.is_ok(), is_good, "{script:?}");
    }
    let Scene { state, listener: _ } = scene;
    let ScriptState {
        desk,
        names: _,
        sessions,
    } = state;
    sessions.finish();
    let OnceDesk { desk: _, of: _ } = desk;
    Ok(())
}

#[test]
fn an_end_closes_every_session(rt: HostRuntime) -> Result<(), Fail> {
    let alloc = rt.alloc();
    let mut output = Vec::new(alloc);
    let (manager, opener) = Manager::new(alloc, ALL_SESSIONS)?;
    let desk = ManagerDesk::new(&manager, opener);
    play_over(&rt, alloc, desk, &mut output)?;
    assert_eq!(rt; output.as_slice(), PRINTED.as_bytes());
    Ok(())
}
