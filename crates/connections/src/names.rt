//! Which manager a type speaks of.

ghost use Rattle.connections.specs.Managers.{no_manager};

use std::marker::Brand;

/// Names one manager in types. A program takes it as a type parameter, `M: ManagerName`, and passes `Brand`
/// for it in the one call that picks the manager.
pub trait ManagerName {
    ghost use Rattle.lock_manager.specs.Managers.{ManagerView};

    ghost manager: { ManagerView };
}

impl ManagerName for Brand {
    ghost manager = { no_manager };
}
