//! The way through all orders: at each place of an order the sessions whose line may come there are tried one
//! after the other.

use std::alloc::{AllocError, Global};

/// A place of an order: the session whose line comes at this place now, and the sessions whose lines are
/// still to be tried at it, the next one last.
#[derive(Drop)]
struct Fork {
    session: usize,
    to_try: Vec<usize>,
}

/// The places of the order that is run, as far as they were looked at.
#[derive(Drop)]
pub struct Search {
    forks: Vec<Fork>,
}

impl Search {
    /// A search that has looked at no place yet, with lists that grow by `alloc`.
    pub fn new(alloc: Global) -> Self {
        Search {
            forks: Vec::new(alloc),
        }
    }

    /// The session whose line comes at `place`, if this place was looked at.
    pub fn session_at(&self, place: usize) -> Option<usize> {
        Some(self.forks.get(place)?.session)
    }

    /// Looks at the next place of the order, where a line of any of `sessions` may come, and answers which
    /// session's comes first: the last one's. None where `sessions` is empty.
    pub fn add(&mut self, sessions: Vec<usize>) -> Result<Option<usize>, AllocError> {
        let mut to_try = sessions;
        let Some(session) = to_try.pop() else {
            return Ok(None);
        };
        self.forks.push(Fork { session, to_try })?;
        Ok(Some(session))
    }

    /// Goes to the next order: at the last place at which sessions are still to be tried, a line of the next
    /// of these comes. Answers whether there is a next order.
    pub fn next_order(&mut self) -> bool {
        for _ in 0..self.forks.len() {
            if let Some(fork) = self.forks.last_mut() {
                if let Some(session) = fork.to_try.pop() {
                    fork.session = session;
                    return true;
                }
            }
            let _ = self.forks.pop();
        }
        false
    }
}
