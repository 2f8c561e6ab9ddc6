//! A request that contracts read.

ghost use Rattle.std.specs.Prelude.{◌≡◌, Option, Some, None};
ghost use Rattle.std.specs.Borrow.{ftrue};
ghost use Rattle.lock_table.specs.declared.request.Request.{Request};

use lock_table::Request;
use std::marker::Model;

/// A request, or none, which contracts read as `request`. The program itself keeps nothing of the request.
#[derive(Drop)]
pub(crate) struct Pending {
    pub(crate) ghost request: { Option Request },
}

impl Model for Pending {
    ghost also_owns = { λ _. ftrue };
}

// A `Pending` owns nothing.
unsafe impl Send for Pending {}

impl Pending {
    /// No request: contracts read `request` as none.
    #[inline(always)]
    pub(crate) fn nothing() -> Pending
        ensures { result.request ≡ None }
    {
        Pending {}
    }

    /// The request `_request`, which contracts read as `request`.
    #[inline(always)]
    pub(crate) fn of(_request: &Request) -> Pending
        ensures { result.request ≡ Some _request.now }
    {
        Pending {}
    }
}
