use std::alloc::{AllocError, AllocFailed};
use thiserror::Error;

/// A growth of the memory was refused. Each call that answers this says what is so after the refusal.
#[derive(Clone, Copy, Debug, Drop, Error)]
#[error("out of memory")]
pub struct NoMemory;

impl From<AllocError> for NoMemory {
    fn from(_error: AllocError) -> NoMemory {
        NoMemory
    }
}

impl<T: Drop> From<AllocFailed<T>> for NoMemory {
    fn from(_error: AllocFailed<T>) -> NoMemory {
        NoMemory
    }
}
