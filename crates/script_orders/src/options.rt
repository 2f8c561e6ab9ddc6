//! How orders are run and described.

/// How many orders are run, which are drawn, and what is written of how they end.
#[derive(Clone, Copy, Debug, PartialEq, Eq)]
pub struct OrdersOptions {
    /// How many orders are begun at most.
    pub limit: u32,
    /// The seed by which orders are drawn where not all are run: one seed draws the same orders each time.
    pub seed: u32,
    /// Whether what a session sees is left out: the answers to `list`, `count`, `queue`, `owned`, `blockers`
    /// and `waiters`. Then orders end alike where the same sessions were refused and waited.
    pub ends: bool,
}
