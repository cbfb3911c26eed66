ghost use Rattle.std.specs.Prelude.{◌≡◌, ◌≢◌};
ghost use Rattle.std.specs.IoError.{error_kind};
ghost use Rattle.eden_plain_files.specs.declared.fault.FolderFault.TheVariants as fault;
ghost use Rattle.eden_plain_files.specs.Faults.{IsFailure, IsStoreFailure, obstacle_of};

use eden_model::Obstacle;
use std::alloc::{AllocError, AllocFailed};
use std::io::{self, ErrorKind};
use thiserror::Error;

/// Why a file of a folder could not be read, replaced or removed.
#[derive(Clone, Copy, Debug, PartialEq, Eq, Error)]
pub enum FolderFault {
    /// Nothing has that name.
    #[error("nothing has that name")]
    Missing,
    /// What has that name is no plain file.
    #[error("no plain file")]
    NotPlain,
    /// The file is longer than the bound.
    #[error("the file is too long")]
    TooLong,
    /// The device stored nothing, and said why.
    #[error(transparent)]
    Blocked(Obstacle),
    /// The device failed in another way.
    #[error("the device failed")]
    Device,
    /// No memory.
    #[error("out of memory")]
    Memory,
}

impl FolderFault {
    /// What keeps the device from storing, if that is the fault.
    pub fn obstacle(self) -> Option<Obstacle>
        ensures { result ≡ obstacle_of self }
    {
        match self {
            FolderFault::Blocked(obstacle) => Some(obstacle),
            _ => None,
        }
    }
}

impl From<AllocError> for FolderFault {
    ghost from_gives = { λ _ f. f ≡ fault.Memory };

    fn from(_e: AllocError) -> FolderFault {
        FolderFault::Memory
    }
}

impl<T: Drop> From<AllocFailed<T>> for FolderFault {
    ghost from_gives = { λ _ f. f ≡ fault.Memory };

    fn from(_e: AllocFailed<T>) -> FolderFault {
        FolderFault::Memory
    }
}

/// A failure of what is there: want of memory, or the device's.
impl From<io::Error> for FolderFault {
    ghost from_gives = { IsFailure };

    fn from(error: io::Error) -> FolderFault {
        match error.kind() {
            ErrorKind::OutOfMemory => FolderFault::Memory,
            _ => FolderFault::Device,
        }
    }
}

// The same, where the name was looked for and may be missing.
pub(crate) fn not_found(error: io::Error) -> FolderFault
    ensures missing { error_kind error ≡ ErrorKind.NotFound → result ≡ fault.Missing }
    ensures found { error_kind error ≢ ErrorKind.NotFound → IsFailure error result }
{
    match error.kind() {
        ErrorKind::NotFound => FolderFault::Missing,
        _ => FolderFault::from(error),
    }
}

/// The same, where it was to be stored: what keeps the device from that is told.
pub fn not_stored(error: io::Error) -> FolderFault
    ensures { IsStoreFailure error result }
{
    match error.kind() {
        ErrorKind::StorageFull => FolderFault::Blocked(Obstacle::NoSpace),
        ErrorKind::QuotaExceeded => FolderFault::Blocked(Obstacle::OverQuota),
        ErrorKind::FileTooLarge => FolderFault::Blocked(Obstacle::TooLarge),
        ErrorKind::ReadOnlyFilesystem => FolderFault::Blocked(Obstacle::ReadOnly),
        _ => FolderFault::from(error),
    }
}
