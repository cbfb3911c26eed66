use eden_model::Errno;
use std::alloc::{AllocError, AllocFailed};

/// Why something for a test was not made.
#[derive(Clone, Copy, Debug, PartialEq, Eq)]
pub enum Unmade {
    /// No memory.
    NoMemory,
    /// These bytes are no name, or these names no path.
    NoName(Errno),
    /// These entries are no tree.
    NoTree,
}

impl From<AllocError> for Unmade {
    fn from(_error: AllocError) -> Unmade {
        Unmade::NoMemory
    }
}

impl<T: Drop> From<AllocFailed<T>> for Unmade {
    fn from(_error: AllocFailed<T>) -> Unmade {
        Unmade::NoMemory
    }
}

impl From<Errno> for Unmade {
    fn from(error: Errno) -> Unmade {
        Unmade::NoName(error)
    }
}
