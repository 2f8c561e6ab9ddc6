//! How many orders were run, on a line that is written anew.

use std::io::Write;

/// The line of a terminal that shows how many orders were run. Nothing is shown where the output is no
/// terminal.
#[derive(Drop)]
pub struct OrdersLine<'a, E> {
    pub writer: &'a mut E,
    pub is_terminal: bool,
}

impl<E: Write> OrdersLine<'_, E> {
    /// Shows that `orders` orders were run.
    pub fn renew(&mut self, orders: u64) {
        if self.is_terminal {
            // Where the line can't be written, the orders are run all the same.
            let _ = write!(self.writer, "\r{orders} orders\x1b[K");
            let _ = self.writer.flush();
        }
    }

    /// Takes the line off the terminal, once all orders are run.
    pub fn end(&mut self) {
        if self.is_terminal {
            let _ = write!(self.writer, "\r\x1b[K");
            let _ = self.writer.flush();
        }
    }
}
