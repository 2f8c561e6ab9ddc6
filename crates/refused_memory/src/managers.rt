//! A manager for each desk_case, and the calls that make one and a session.

ghost use Rattle.lock_manager.specs.Managers.{IsOpenerOf};

use crate::allocator::{refuse, was_refused};
use crate::desk_cases;
use crate::desk_cases::DeskCase;
use crate::told::Told;
use crate::trials::DATABASE;
use lock_manager::{Config, Manager, ManagerDesk, Opener, Refusal};
use std::alloc::Global;
use std::sync::Wait;

/// The sizes of all other managers.
const CONFIG: Config = Config {
    sessions: 8,
    max_local: 64,
    slot_groups: 1,
};

/// The sizes of a server's manager, which has one session more than another one may have.
const SERVER: Config = Config {
    sessions: 65,
    max_local: 64,
    slot_groups: 1,
};

/// Does `desk_case` at the desk of a manager of its own, with the growth numbered `growth` refused.
pub fn perform<R: Wait>(rt: &R, alloc: Global, desk_case: DeskCase<'_>, growth: u16) -> Told {
    let Ok((manager, opener)) = Manager::new(alloc, CONFIG) else {
        return Told::Otherwise;
    };
    let mut slot = Some(ManagerDesk::new(&manager, opener));
    let told = desk_cases::perform(rt, alloc, &mut slot, desk_case, growth);
    let Some(desk) = slot else { unreachable!() };
    let opener = desk.into_opener();
    if opener.live() == 0 {
        manager.finish(opener);
        return told;
    }
    Told::Otherwise
}

/// How it went where `made` was answered, and then `again`, and a growth of the first one was refused if
/// `refused`.
fn told_of(made: Result<(), Refusal>, again: Result<(), Refusal>, refused: bool) -> Told {
    Told::of(refused, made == Err(Refusal::NoMemory), again == Ok(()))
}

/// Makes a manager, and lets it go.
fn make_once(alloc: Global) -> Result<(), Refusal> {
    let (_manager, _opener) = Manager::new(alloc, CONFIG)?;
    Ok(())
}

/// Makes a server's manager, and lets it go.
fn make_server_once(alloc: Global) -> Result<(), Refusal> {
    let (_manager, _opener) = Manager::for_server(alloc, SERVER)?;
    Ok(())
}

/// Makes a manager with the growth numbered `growth` refused, and another one.
pub fn make(alloc: Global, growth: u16) -> Told {
    refuse(alloc, growth);
    let made = make_once(alloc);
    let refused = was_refused(alloc);
    told_of(made, make_once(alloc), refused)
}

/// Makes a server's manager with the growth numbered `growth` refused, and another one.
pub fn make_server(alloc: Global, growth: u16) -> Told {
    refuse(alloc, growth);
    let made = make_server_once(alloc);
    let refused = was_refused(alloc);
    told_of(made, make_server_once(alloc), refused)
}

/// Opens a session with the growth numbered `growth` refused. After a refusal the next session that opens has
/// the first number.
pub fn open<R: Wait>(rt: &R, alloc: Global, growth: u16) -> Told {
    let Ok((manager, mut opener)) = Manager::new(alloc, CONFIG) else {
        return Told::Otherwise;
    };
    refuse(alloc, growth);
    let opened = opener.session(&manager, DATABASE);
    let refused = was_refused(alloc);
    match opened {
        Ok(session) => {
            session.close(rt, &mut opener);
            Told::of(refused, false, true)
        }
        Err(refusal) => {
            let is_first = opener.live() == 0 && open_again(rt, &manager, &mut opener);
            Told::of(refused, refusal == Refusal::NoMemory, is_first)
        }
    }
}

/// Whether `opener` opens a session of `manager`, which has the first number.
fn open_again<R: Wait>(rt: &R, manager: &Manager, opener: &mut Opener) -> bool
    requires { IsOpenerOf opener.old manager.now }
{
    let Ok(session) = opener.session(manager, DATABASE) else {
        return false;
    };
    let number = session.id().number();
    session.close(rt, opener);
    number == 0
}
