ghost use Rattle.std.specs.Prelude.{◌≡◌};
ghost use Rattle.eden_object_writer.specs.Faults.{IsFailure, import_name, of_file};
ghost use Rattle.eden_object_writer.specs.declared.fault.ImportFault.TheVariants as fault;

use eden_plain_files::FolderFault;
use std::alloc::{AllocError, AllocFailed};
use std::io::{self, ErrorKind};
use thiserror::Error;

/// Why a folder isn't imported.
#[derive(Clone, Copy, Debug, PartialEq, Eq, Error)]
pub enum ImportFault {
    /// The device failed, or something went away while it was read.
    #[error("the device failed")]
    Device,
    /// No memory.
    #[error("out of memory")]
    Memory,
    /// There is something that is neither a file nor a folder, as a link.
    #[error("neither a file nor a folder")]
    Kind,
    /// A name is no UTF-8, or no name of an entry.
    #[error("a name that no entry can have")]
    Name,
    /// A file has more than 2^30 bytes, a tree would have, or a folder lies too deep.
    #[error("a file or a folder is too large")]
    TooLarge,
}

impl ImportFault {
    /// The fault's name.
    pub fn name(self) -> &'static str
        ensures { result.now ≡ import_name self }
    {
        match self {
            ImportFault::Device => "Device",
            ImportFault::Memory => "Memory",
            ImportFault::Kind => "Kind",
            ImportFault::Name => "Name",
            ImportFault::TooLarge => "TooLarge",
        }
    }
}

impl From<AllocError> for ImportFault {
    ghost from_gives = { λ _ f. f ≡ fault.Memory };

    fn from(_error: AllocError) -> ImportFault {
        ImportFault::Memory
    }
}

impl<T: Drop> From<AllocFailed<T>> for ImportFault {
    ghost from_gives = { λ _ f. f ≡ fault.Memory };

    fn from(_error: AllocFailed<T>) -> ImportFault {
        ImportFault::Memory
    }
}

impl From<io::Error> for ImportFault {
    ghost from_gives = { IsFailure };

    fn from(error: io::Error) -> ImportFault {
        match error.kind() {
            ErrorKind::OutOfMemory => ImportFault::Memory,
            _ => ImportFault::Device,
        }
    }
}

/// What is no plain file any more, when it is read, has taken the place of one.
impl From<FolderFault> for ImportFault {
    ghost from_gives = { λ e f. f ≡ of_file e };

    fn from(fault: FolderFault) -> ImportFault {
        match fault {
            FolderFault::Missing | FolderFault::Blocked(_) | FolderFault::Device => {
                ImportFault::Device
            }
            FolderFault::NotPlain => ImportFault::Kind,
            FolderFault::TooLong => ImportFault::TooLarge,
            FolderFault::Memory => ImportFault::Memory,
        }
    }
}
