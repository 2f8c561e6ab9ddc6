//! What is done in a scene, against a lock manager of its own.
ghost use Rattle.std.specs.Prelude.{◌≡◌, ◌⊎◌, ◌≤◌, [], Err, IfSome, false, true};
ghost use Rattle.lock_manager.specs.Crews.{SeatsAre};
ghost use Rattle.modes_core.specs.Sessions.{usual_sessions};
ghost use Rattle.scenario.specs.Acts.{no_cast};
ghost use Rattle.scenario.specs.Numbers.{SeesSessions};
ghost use Rattle.scenario.specs.Sizes.{IsForManager};

use crate::desks::{OnceDesk, ReusingDesk, ScriptDesk};
use crate::listener::Listener;
use crate::run::Scene;
use crate::sessions::ScriptState;
use connections::ManagerName;
use lock_manager::{Config, Desk, Manager, ManagerDesk, OwnSession, Part, Session, SessionPool};
use lock_script::{Fault, Names, OpenSessions};
use lock_table::PartTable;
use shared_rule::{Board, SeatBoard};
use std::alloc::Global;
use std::marker::{Brand, PhantomData};
use std::sync::Wait;

/// What is done in a scene: the lines of a script are run, or those that somebody types, or the orders of a
/// script. Whoever does it is lent the scene, and the sessions that are open at its end are closed behind it.
pub trait Act<L: Listener> {
    ghost use Rattle.scenario.specs.Acts.{ActsOf};

    // What is done over a board, with a desk: from a cast and a listener on, how it ends, and what the
    // listener is then.
    ghost acts: { ActsOf Self L };

    /// Does it in `scene`.
    fn act<T: PartTable, B: Board<T>, D: ScriptDesk<OwnSession<T, B>>, H: Wait>(
        self,
        rt: &H,
        scene: &mut Scene<T, B, D, L>,
    ) -> Result<(), Fault>
        ensures acted { acts _ B.seat B.view B.stack D.again D.database_of D.entries self
            (record { sessions = scene.old.state.sessions; names = scene.old.state.names }) scene.old.listener result
            scene.new.listener };
}

impl<T: PartTable, B: Board<T>, D: ScriptDesk<OwnSession<T, B>>, L: Listener> Scene<T, B, D, L> {
    /// Has `act` be done in the scene, and then closes the sessions that are open.
    pub fn act_out<H: Wait, A: Act<L>>(&mut self, rt: &H, act: A) -> Result<(), Fault>
        ensures acted { A.acts _ B.seat B.view B.stack D.again D.database_of D.entries act
            (record { sessions = self.old.state.sessions; names = self.old.state.names }) self.old.listener result
            self.new.listener }
        ensures none_waits { self.new.state.sessions.waiting ≡ [] }
        ensures none_open { self.new.state.sessions.resting ≡ [] }
        ensures none_live { D.live self.new.state.desk ≡ 0 }
    {
        let ended = act.act(rt, self);
        self.state.close_all(rt);
        ended
    }
}

/// Has `act` be done before `listener`, against a lock manager of its own of the size `config`, which is
/// finished behind it. Where `reuse`, the numbers of closed sessions are given out again. Nothing is done
/// where there is no memory for the manager. The listener comes back.
pub fn drive<H: AllocGlobal + Wait, L: Listener, A: Act<L> + Drop>(
    rt: &H,
    config: Config,
    reuse: bool,
    listener: L,
    act: A,
) -> (L, Result<(), Fault>)
    requires { IsForManager config }
    ensures acted { let B = ⟦<SeatBoard<'static, Part> as Board<Part>>⟧ in
        let D = ⟦<ManagerDesk<'static> as Desk<Session<'static>>>⟧ in
        (result.1 ≡ Err Fault.NoMemory)
        ⊎ A.acts _ B.seat B.view B.stack reuse D.database_of D.entries act no_cast listener result.1 result.0 }
{
    let alloc = rt.alloc();
    let Ok((manager, opener)) = Manager::new(alloc, config) else {
        return (listener, Err(Fault::NoMemory));
    };
    let desk = ManagerDesk::new(&manager, opener);
    let (listener, driven) = drive_at(rt, alloc, desk, reuse, listener, act);
    let Some((desk, ended)) = driven else {
        return (listener, Err(Fault::NoMemory));
    };
    let opener = desk.into_opener();
    manager.finish(opener);
    (listener, ended)
}

/// Has `act` be done before `listener`, with the sessions that `desk` opens, none of which is open at the
/// end. Where `reuse`, the numbers of closed sessions are given out again. Nothing is done where there is no
/// memory for the list of sessions.
fn drive_at<
    T: PartTable,
    B: Board<T>,
    D: Desk<OwnSession<T, B>> + Drop,
    H: Wait,
    L: Listener,
    A: Act<L> + Drop,
>(
    rt: &H,
    alloc: Global,
    desk: D,
    reuse: bool,
    listener: L,
    act: A,
) -> (L, Option<(D, Result<(), Fault>)>)
    requires seats { SeatsAre B.seat D.seat }
    requires sees { SeesSessions D.database_of D.entries }
    requires few { (D.manager desk).limit ≤ usual_sessions }
    requires none_issued { D.issued desk ≡ 0 }
    requires none_live { D.live desk ≡ 0 }
    ensures acted { IfSome result.1 (λ driven.
        A.acts _ B.seat B.view B.stack reuse D.database_of D.entries act no_cast listener driven.1 result.0) }
    ensures manager { IfSome result.1 (λ driven. D.manager driven.0 ≡ D.manager desk) }
    ensures none_live { IfSome result.1 (λ driven. D.live driven.0 ≡ 0) }
{
    if reuse {
        drive_reusing::<T, B, D, Brand, H, L, A>(rt, alloc, desk, listener, act)
    } else {
        drive_once::<T, B, D, Brand, H, L, A>(rt, alloc, desk, listener, act)
    }
}

/// Has `act` be done as `drive_at` does, where each session number is given out once.
fn drive_once<
    T: PartTable,
    B: Board<T>,
    D: Desk<OwnSession<T, B>> + Drop,
    M: ManagerName,
    H: Wait,
    L: Listener,
    A: Act<L> + Drop,
>(rt: &H, alloc: Global, desk: D, listener: L, act: A) -> (L, Option<(D, Result<(), Fault>)>)
    requires is { D.manager desk ≡ M.manager }
    requires seats { SeatsAre B.seat D.seat }
    requires few { M.manager.limit ≤ usual_sessions }
    requires none_issued { D.issued desk ≡ 0 }
    requires none_live { D.live desk ≡ 0 }
    ensures acted { IfSome result.1 (λ driven.
        A.acts _ B.seat B.view B.stack false D.database_of D.entries act no_cast listener driven.1 result.0) }
    ensures is { IfSome result.1 (λ driven. D.manager driven.0 ≡ M.manager) }
    ensures none_live { IfSome result.1 (λ driven. D.live driven.0 ≡ 0) }
{
    let Ok(sessions) = OpenSessions::new(alloc) else {
        return (listener, None);
    };
    let desk = OnceDesk::<OwnSession<T, B>, D, M> {
        desk,
        of: PhantomData,
    };
    let state = ScriptState {
        desk,
        names: Names::new(alloc),
        sessions,
    };
    let mut scene = Scene { state, listener };
    let ended = scene.act_out(rt, act);
    let Scene { state, listener } = scene;
    let ScriptState {
        desk,
        names: _,
        sessions,
    } = state;
    sessions.finish();
    let OnceDesk { desk, of: _ } = desk;
    (listener, Some((desk, ended)))
}

/// Has `act` be done as `drive_at` does, where the numbers of closed sessions are given out again.
fn drive_reusing<
    T: PartTable,
    B: Board<T>,
    D: Desk<OwnSession<T, B>> + Drop,
    M: ManagerName,
    H: Wait,
    L: Listener,
    A: Act<L> + Drop,
>(rt: &H, alloc: Global, desk: D, listener: L, act: A) -> (L, Option<(D, Result<(), Fault>)>)
    requires is { D.manager desk ≡ M.manager }
    requires seats { SeatsAre B.seat D.seat }
    requires sees { SeesSessions D.database_of D.entries }
    requires few { M.manager.limit ≤ usual_sessions }
    requires none_issued { D.issued desk ≡ 0 }
    requires none_live { D.live desk ≡ 0 }
    ensures acted { IfSome result.1 (λ driven.
        A.acts _ B.seat B.view B.stack true D.database_of D.entries act no_cast listener driven.1 result.0) }
    ensures is { IfSome result.1 (λ driven. D.manager driven.0 ≡ M.manager) }
    ensures none_live { IfSome result.1 (λ driven. D.live driven.0 ≡ 0) }
{
    let Ok(sessions) = OpenSessions::new(alloc) else {
        return (listener, None);
    };
    let Ok(pool) = SessionPool::new(alloc) else {
        sessions.finish();
        return (listener, None);
    };
    let desk = ReusingDesk::<T, B, D, M> {
        desk,
        pool,
        of: PhantomData,
    };
    let state = ScriptState {
        desk,
        names: Names::new(alloc),
        sessions,
    };
    let mut scene = Scene { state, listener };
    let ended = scene.act_out(rt, act);
    let Scene { state, listener } = scene;
    let ScriptState {
        desk,
        names: _,
        sessions,
    } = state;
    sessions.finish();
    let ReusingDesk {
        mut desk,
        pool,
        of: _,
    } = desk;
    pool.end(rt, &mut desk);
    (listener, Some((desk, ended)))
}
