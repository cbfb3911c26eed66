ghost use Rattle.std.specs.Prelude.{◌≡◌};
ghost use Rattle.eden_dematerialise.specs.declared.fault.DematerialiseFault.TheVariants as fault;

use eden_model::Cause;
use eden_overlay::FilesFault;
use std::alloc::{AllocError, AllocFailed};
use thiserror::Error;

/// Why not all was dematerialised. What was done until then stays: the state may say the other tree already.
#[derive(Clone, Copy, Debug, PartialEq, Eq, Error)]
pub enum DematerialiseFault {
    /// There is no state that can be read: the overlay wasn't closed.
    #[error("the overlay wasn't closed")]
    NotClean,
    /// The directory of that number lies more than `LEVELS` levels below the top.
    #[error("directory {0} lies too deep")]
    TooDeep(u64),
    /// An object of the commit didn't come.
    #[error("an object of the commit didn't come: {0}")]
    Object(Cause),
    /// The overlay's device failed.
    #[error("the device failed")]
    Device,
    /// No memory.
    #[error("out of memory")]
    Memory,
}

impl From<FilesFault> for DematerialiseFault {
    fn from(e: FilesFault) -> DematerialiseFault {
        match e {
            FilesFault::Device => DematerialiseFault::Device,
            FilesFault::Memory => DematerialiseFault::Memory,
        }
    }
}

impl From<Cause> for DematerialiseFault {
    fn from(e: Cause) -> DematerialiseFault {
        DematerialiseFault::Object(e)
    }
}

impl From<AllocError> for DematerialiseFault {
    ghost from_gives = { λ _ f. f ≡ fault.Memory };

    fn from(_e: AllocError) -> DematerialiseFault {
        DematerialiseFault::Memory
    }
}

impl<T: Drop> From<AllocFailed<T>> for DematerialiseFault {
    ghost from_gives = { λ _ f. f ≡ fault.Memory };

    fn from(_e: AllocFailed<T>) -> DematerialiseFault {
        DematerialiseFault::Memory
    }
}
