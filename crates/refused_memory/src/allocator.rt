//! Requests by which the allocator knows which growths to refuse. `.ci/refused_memory` runs this program with
//! an allocator that listens to them. Any other one grants them as what they are, and refuses nothing.

use std::alloc::Global;

/// A request for this many bytes says to the allocator that no growth is to be refused any more. A request
/// for `n` bytes more says that growth number `n` is to be refused, counted from then on.
const NONE: usize = 7_000_000;

/// The number of a growth that means every growth.
const EVERY: u16 = 1_000;

/// Whether a request for `bytes` bytes is granted.
fn is_granted(alloc: Global, bytes: usize) -> bool {
    let taken: Result<Vec<u8>, _> = Vec::with_capacity(alloc, bytes);
    taken.is_ok()
}

/// Has the growth numbered `growth` by `alloc` refused from now on, and answers whether the allocator
/// listens: if it does, it refuses the request that says so.
pub fn refuse(alloc: Global, growth: u16) -> bool {
    !is_granted(alloc, NONE + usize::from(growth))
}

/// Has every growth by `alloc` refused from now on, and answers whether the allocator listens.
pub fn refuse_all(alloc: Global) -> bool {
    refuse(alloc, EVERY)
}

/// Has no growth by `alloc` refused any more, and answers whether a growth was refused since the last request
/// for a refusal.
pub fn was_refused(alloc: Global) -> bool {
    refuse(alloc, 0)
}
