//! Sessions that a desk opens, over any board: those of a crew, and one that a pool of sessions lends.

use crate::allocator::{refuse, was_refused};
use crate::told::Told;
use crate::trials::DATABASE;
use connections::{DeskOf, ManagerName};
use lock_manager::{Board, Desk, OwnSession, Part, Refusal, SessionPool};
use std::alloc::Global;
use std::sync::Wait;

/// How many sessions the crew has.
const CREW: u32 = 2;

/// Opens a crew at `desk`, closes it, and answers how many sessions were open.
fn open_and_close<B: Board<Part>, D: Desk<OwnSession<Part, B>>, M: ManagerName, R: Wait>(
    rt: &R,
    alloc: Global,
    desk: &mut DeskOf<B, D, M>,
) -> Result<u32, Refusal> {
    let crew = desk.open_all(rt, alloc, DATABASE, CREW)?;
    let live = desk.live();
    desk.close_all(rt, crew);
    Ok(live)
}

/// Opens a crew at `desk`, which has no session open, with the growth numbered `growth` refused, and once
/// more after a refusal.
pub fn open_crew<B: Board<Part>, D: Desk<OwnSession<Part, B>>, M: ManagerName, R: Wait>(
    rt: &R,
    alloc: Global,
    desk: &mut DeskOf<B, D, M>,
    growth: u16,
) -> Told {
    refuse(alloc, growth);
    let opened = open_and_close(rt, alloc, desk);
    let refused = was_refused(alloc);
    if opened.is_ok() {
        return Told::of(refused, false, opened == Ok(CREW));
    }
    let is_right = desk.live() == 0 && open_and_close(rt, alloc, desk) == Ok(CREW);
    Told::of(refused, opened == Err(Refusal::NoMemory), is_right)
}

/// Has a pool of sessions open one at `desk`, which has no session open, with the growth numbered `growth`
/// refused, and once more after a refusal.
pub fn lend<B: Board<Part>, D: Desk<OwnSession<Part, B>>, M: ManagerName, R: Wait>(
    rt: &R,
    alloc: Global,
    desk: &mut DeskOf<B, D, M>,
    growth: u16,
) -> Told {
    let Ok(mut pool) = SessionPool::new(alloc) else {
        return Told::Otherwise;
    };
    refuse(alloc, growth);
    let opened = pool.open(rt, &mut desk.desk, DATABASE);
    let refused = was_refused(alloc);
    let none = desk.live() == 0;
    let told = match opened {
        Ok(session) => {
            pool.close(rt, &mut desk.desk, session);
            Told::of(refused, false, desk.live() == 1)
        }
        Err(refusal) => {
            let is_right = match pool.open(rt, &mut desk.desk, DATABASE) {
                Ok(session) => {
                    pool.close(rt, &mut desk.desk, session);
                    none && desk.live() == 1
                }
                Err(_) => false,
            };
            Told::of(refused, refusal == Refusal::NoMemory, is_right)
        }
    };
    pool.end(rt, &mut desk.desk);
    told
}
