// Want of memory.
use std::alloc::{AllocError, AllocFailed};

/// Want of memory. With `?` a refused allocation becomes it.
#[derive(Clone, Copy, Debug, PartialEq, Eq)]
pub struct Oom;

impl From<AllocError> for Oom {
    fn from(_: AllocError) -> Oom {
        Oom
    }
}

impl<T: Drop> From<AllocFailed<T>> for Oom {
    fn from(_: AllocFailed<T>) -> Oom {
        Oom
    }
}
