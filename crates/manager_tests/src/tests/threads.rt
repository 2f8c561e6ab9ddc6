//! Sessions in threads of their own, each of which sees by a table of the test that no two conflicting modes
//! are held at a time.

ghost use Rattle.std.specs.Prelude.{◌<◌, ◌≤◌};

use super::answers::expect_granted;
use super::conflicts::conflicts;
use super::sessions::{give_tag_back, try_lock};
use super::side_by_side::{Play, play_side_by_side};
use connections::{Connection, ManagerName};
use lock_manager::{Board, How, Mode, Owner, Part, Refusal, SessionId, Tag};
use std::process::Abort;
use std::sync::{Mutex, Wait};
use std::thread;
use std::thread::Threads;
use std::time::Clock;

/// How many sessions have an object in each mode.
type Modes = [u32; 8];

/// How many sessions have each of four objects in each mode.
type Holders = [Modes; 4];

/// What each thread does with the session that it has.
#[derive(Clone, Copy)]
pub struct Plan {
    rounds: u32,
    /// How many objects, or relations, the sessions ask for, from 1 to 4.
    objects: u32,
    relations: bool,
    ghost some: { 1 ≤ objects },
    ghost few: { objects ≤ 4 },
}

impl Plan {
    /// A plan of `rounds` rounds on `objects` relations, or other objects unless `relations`.
    pub fn of(rounds: u32, objects: u32, relations: bool) -> Plan
        requires some { 1 ≤ objects }
        requires few { objects ≤ 4 }
    {
        Plan {
            rounds,
            objects,
            relations,
        }
    }

    fn tag(self, object: u32) -> Tag {
        if self.relations {
            Tag::relation(5, 16_384 | object)
        } else {
            Tag::object(5, 1_259, 16_384 | object, 0)
        }
    }
}

/// What threads that ask have together: their plan, and who was granted what.
#[derive(Drop)]
struct Asks {
    plan: Plan,
    holders: Mutex<Holders>,
}

/// Ends the test where `modes` say that somebody has the object numbered `object` in a mode that conflicts
/// with that at `place`.
fn expect_free<R: Abort>(rt: &R, modes: &Modes, object: usize, place: usize)
    requires place { place < 8 }
{
    for held in 0..8 {
        let is_free = modes[held] == 0 || !conflicts(place, held);
        assert!(rt; is_free, "two have object {object}, at {place} and {held}");
    }
}

/// Enters in `holders` that the object numbered `object` was granted in the mode at `place`.
fn enter<R: Abort + Wait>(rt: &R, holders: &Mutex<Holders>, object: usize, place: usize)
    requires object { object < 4 }
    requires place { place < 8 }
{
    let mut all = holders.lock(rt);
    expect_free(rt, &all[object], object, place);
    all[object][place] = all[object][place].saturating_add(1);
}

/// Takes a grant of the object numbered `object` in the mode at `place` out of `holders`, before it is given
/// back.
fn take_out<R: Abort + Wait>(rt: &R, holders: &Mutex<Holders>, object: usize, place: usize)
    requires object { object < 4 }
    requires place { place < 8 }
{
    let mut all = holders.lock(rt);
    assert_ne!(rt; all[object][place], 0);
    all[object][place] = all[object][place].saturating_sub(1);
}

/// Ends the test unless `mode` conflicts with that at `place`.
fn expect_in_the_way<R: Abort>(rt: &R, mode: Mode, place: usize)
    requires place { place < 8 }
{
    for held in 0..8 {
        let is_right = Mode::ALL[held] != mode || conflicts(place, held);
        assert!(rt; is_right, "{mode} is not in the way");
    }
}

/// Ends the test unless `refusal` names another session than `own`, which holds a mode that conflicts with
/// that at `place`.
fn expect_conflict<R: Abort>(rt: &R, refusal: Refusal, own: SessionId, place: usize)
    requires place { place < 8 }
{
    let Refusal::Conflict { session, mode, how } = refusal else {
        panic!(rt; "refused otherwise: {refusal}")
    };
    assert!(rt; session != own);
    assert!(rt; how == How::Held);
    expect_in_the_way(rt, mode, place);
}

/// Asks for a mode on an object in round `round` of `plan`, and gives it back where it is granted. `holders`
/// has who was granted what.
fn ask<B: Board<Part>, M: ManagerName, R: Abort + Wait>(
    rt: &R,
    holders: &Mutex<Holders>,
    plan: Plan,
    connection: &mut Connection<B, M>,
    round: u32,
) {
    let place = (round % 8) as usize;
    let object = round % plan.objects;
    let tag = plan.tag(object);
    let mode = Mode::ALL[place];
    let answer = try_lock(rt, connection, tag, mode, Owner::Transaction);
    if let Err(refusal) = answer {
        expect_conflict(rt, refusal, connection.session.id(), place);
        return;
    }
    expect_granted(rt, answer, tag, mode);
    enter(rt, holders, object as usize, place);
    thread::yield_now();
    take_out(rt, holders, object as usize, place);
    give_tag_back(rt, connection, tag, mode, Owner::Transaction);
}

impl Play for Asks {
    /// Asks with `connection` for one mode after another, on one object after another, as the plan says.
    fn play<B: Board<Part>, M: ManagerName, R: Abort + Clock + Wait>(
        &self,
        rt: &R,
        connection: &mut Connection<B, M>,
    ) {
        for round in 0..self.plan.rounds {
            ask(rt, &self.holders, self.plan, connection, round);
        }
    }
}

/// Has all of `connections` do as `plan` says, and at the end nobody has anything.
pub fn ask_all<
    B: Board<Part> + Send,
    M: ManagerName + Send,
    R: Abort + Clock + Threads + Wait + Sync,
>(rt: &R, connections: &mut [Connection<B, M>], plan: Plan) {
    let asks = Asks {
        plan,
        holders: Mutex::new([[0; 8]; 4]),
    };
    play_side_by_side(rt, &asks, connections);
    assert!(rt; *asks.holders.lock(rt) == [[0; 8]; 4]);
}
