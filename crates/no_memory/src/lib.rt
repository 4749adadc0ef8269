//! Want of memory, as every crate of the arbiter answers it.
#![tactic(auto)]

use std::alloc::{AllocError, AllocFailed};

/// No memory was to be had. It is merged with no other answer.
#[derive(Clone, Copy, Debug, PartialEq, Eq, Default)]
pub struct NoMemory;

impl From<AllocError> for NoMemory {
    fn from(_refused: AllocError) -> NoMemory {
        NoMemory
    }
}

impl<T: Drop> From<AllocFailed<T>> for NoMemory {
    fn from(_refused: AllocFailed<T>) -> NoMemory {
        NoMemory
    }
}
