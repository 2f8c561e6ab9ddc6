use thiserror::Error;

/// A lightweight lock was not to be had at once. Nothing was waited for.
#[derive(Clone, Copy, Debug, Drop, Error)]
#[error("the lock is busy")]
pub struct Busy;
