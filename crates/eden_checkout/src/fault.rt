//! Why a checkout can't be opened.
ghost use Rattle.std.specs.Prelude.{◌≡◌};
ghost use Rattle.eden_checkout.specs.declared.fault.OpenFault.TheVariants as opens;
ghost use Rattle.eden_checkout.specs.Opening.{open_fault_number, of_files, of_rescan};

use eden_model::Id;
use eden_overlay::{FilesFault, RescanFault};
use eden_overlay_format::Refusal;
use thiserror::Error;

/// Why an overlay isn't opened. Its files are as they were.
#[derive(Clone, Copy, Debug, PartialEq, Eq, Error)]
pub enum OpenFault {
    /// There are files but no state: another mount has them open, or was killed.
    #[error("there are files and no state: the overlay is open, or was left by a run that was killed")]
    NotClean,
    /// The overlay stands on another commit's tree, this one.
    #[error("the overlay stands on another tree")]
    OtherRoot(Id),
    /// The file of that number isn't what it is to be: file 0 no state, and for a rescan another no inode's own.
    #[error("file {0} of the overlay is damaged: {1}")]
    Damaged(u64, Refusal),
    /// The device failed.
    #[error("the device of the overlay failed")]
    Device,
    /// No memory.
    #[error("out of memory")]
    Memory,
    /// A directory names the file of that number as its own, and it isn't there. Of a rescan alone.
    #[error("file {0} of the overlay is named, and is missing")]
    Dangling(u64),
    /// That number is named twice. Of a rescan alone.
    #[error("number {0} is named twice in the overlay")]
    Twice(u64),
}

impl OpenFault {
    /// The fault's number: 1 `NotClean`, 2 `OtherRoot`, 3 `Damaged`, 4 `Device`, 5 `Memory`, 6 `Dangling`, 7 `Twice`.
    pub fn number(self) -> u8
        ensures { result ≡ open_fault_number self }
    {
        match self {
            OpenFault::NotClean => 1,
            OpenFault::OtherRoot(_) => 2,
            OpenFault::Damaged(_, _) => 3,
            OpenFault::Device => 4,
            OpenFault::Memory => 5,
            OpenFault::Dangling(_) => 6,
            OpenFault::Twice(_) => 7,
        }
    }
}

impl From<FilesFault> for OpenFault {
    ghost from_gives = { λ f o. o ≡ of_files f };

    fn from(fault: FilesFault) -> OpenFault {
        match fault {
            FilesFault::Device => OpenFault::Device,
            FilesFault::Memory => OpenFault::Memory,
        }
    }
}

impl From<RescanFault> for OpenFault {
    ghost from_gives = { λ f o. o ≡ of_rescan f };

    fn from(fault: RescanFault) -> OpenFault {
        match fault {
            RescanFault::Dangling(number) => OpenFault::Dangling(number),
            RescanFault::Twice(number) => OpenFault::Twice(number),
            RescanFault::Damaged(number, refusal) => OpenFault::Damaged(number, refusal),
            RescanFault::Device => OpenFault::Device,
            RescanFault::Memory => OpenFault::Memory,
        }
    }
}
