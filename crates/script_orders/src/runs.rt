//! A run of the orders of a script.

use crate::faults::OrdersFault;
use crate::options::OrdersOptions;
use crate::orders::Orders;
use crate::progress::OrdersLine;
use crate::reaches::Ties;
use crate::script_lines::ScriptLines;
use lock_script::Fault;
use std::io::{Read, Write};
use std::sync::Wait;

/// Plays the lines of orders against a lock manager.
pub trait Player {
    /// Plays the lines that `orders` gives turn by turn, against one lock manager that is made first, until
    /// `orders` says that this is the end. Each answer goes to `orders`. A bad line ends the play.
    fn play<H: AllocGlobal + Wait>(&self, rt: &H, orders: &mut Orders<'_>) -> Result<(), Fault>;
}

/// Has `player` play the orders of the script that `reader` has, and writes to `output` how often each way to
/// end came. The script is played in its own order first. No more orders are begun than `options` allow;
/// where these are not all, half of them are the first ones, and half are drawn. A bad line, or a session
/// that is refused since all that may be opened were, ends the run, and its number in the script is in the
/// error. Meanwhile `line` shows how many orders were run.
pub fn run_orders<P: Player, H: AllocGlobal + Wait, R: Read + Drop, W: Write + Drop, E: Write>(
    rt: &H,
    player: &P,
    reader: R,
    mut output: W,
    line: &mut OrdersLine<E>,
    options: OrdersOptions,
) -> Result<(), OrdersFault> {
    let alloc = rt.alloc();
    let script_lines = ScriptLines::read(alloc, reader)?;
    let ties = Ties::new(alloc, &script_lines, options.ends)?;
    let mut orders = Orders::new(alloc, &script_lines, &ties, options)?;
    let ended = play_all(rt, player, &mut orders, line);
    line.end();
    ended?;
    orders
        .write(&mut output)
        .map_err(|_| OrdersFault::Other(Fault::WriteFailed))
}

/// Has `player` play `orders` until all were run that are to be run, and shows on `line` how many were run.
fn play_all<P: Player, H: AllocGlobal + Wait, E: Write>(
    rt: &H,
    player: &P,
    orders: &mut Orders<'_>,
    line: &mut OrdersLine<E>,
) -> Result<(), OrdersFault> {
    for _ in 0..u64::MAX {
        if orders.is_over() {
            break;
        }
        line.renew(orders.run());
        let ended = player.play(rt, orders);
        if let Some(refused) = orders.refused_session() {
            return Err(OrdersFault::Session(refused));
        }
        match ended {
            Ok(()) => {}
            Err(Fault::BadLine { what, .. }) => {
                return Err(OrdersFault::Line(orders.bad_line(what)?));
            }
            Err(fault) => return Err(OrdersFault::Other(fault)),
        }
    }
    Ok(())
}
