//! Why a stored file gave no value.

use crate::files::FilesFault;
use eden_overlay_format::{DecodeFault, Refusal};
use std::alloc::AllocError;
use thiserror::Error;

/// Why a stored file gave no value.
#[derive(Clone, Copy, Debug, PartialEq, Eq, Error)]
pub enum GetFault {
    /// No file of that number is stored.
    #[error("no file of that number is stored")]
    Absent,
    /// A file of that number is stored, and its bytes are no such value.
    #[error("the file is damaged: {0}")]
    Damaged(Refusal),
    /// The device failed.
    #[error("the device failed")]
    Device,
    /// No memory.
    #[error("out of memory")]
    Memory,
}

impl From<FilesFault> for GetFault {
    ghost use Rattle.std.specs.Prelude.{◌≡◌};
    ghost use Rattle.eden_overlay.specs.Getting.{of_files};

    ghost from_gives = { λ e f. f ≡ of_files e };

    fn from(e: FilesFault) -> GetFault {
        match e {
            FilesFault::Device => GetFault::Device,
            FilesFault::Memory => GetFault::Memory,
        }
    }
}

impl From<AllocError> for GetFault {
    ghost use Rattle.std.specs.Prelude.{◌≡◌};
    ghost use Rattle.eden_overlay.specs.declared.fault.GetFault.TheVariants as get;

    ghost from_gives = { λ _ f. f ≡ get.Memory };

    fn from(_e: AllocError) -> GetFault {
        GetFault::Memory
    }
}

impl From<DecodeFault> for GetFault {
    ghost use Rattle.std.specs.Prelude.{◌≡◌};
    ghost use Rattle.eden_overlay.specs.Getting.{of_decoding};

    ghost from_gives = { λ e f. f ≡ of_decoding e };

    fn from(e: DecodeFault) -> GetFault {
        match e {
            DecodeFault::Refused(refusal) => GetFault::Damaged(refusal),
            DecodeFault::Memory => GetFault::Memory,
        }
    }
}
