// Want of memory, the one answer that may come at any growth.
use std::alloc::{AllocError, AllocFailed};
use thiserror::Error;

/// No memory was to be had. The object that was called is as it was, unless its documentation says otherwise.
#[derive(Clone, Copy, Debug, PartialEq, Eq, Error)]
#[error("out of memory")]
pub struct NoMemory;

impl From<AllocError> for NoMemory {
    fn from(_: AllocError) -> Self {
        NoMemory
    }
}

impl<T: Drop> From<AllocFailed<T>> for NoMemory {
    fn from(_: AllocFailed<T>) -> Self {
        NoMemory
    }
}
