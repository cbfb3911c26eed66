//! Why there is no snapshot, or why changes aren't told.

ghost use Rattle.std.specs.Prelude.{◌≡◌};
ghost use Rattle.eden_snapshot.specs.declared.fault.SnapshotFault.TheVariants as fault;

use eden_model::Cause;
use eden_overlay::{FilesFault, GetFault};
use eden_overlay_format::Refusal;
use std::alloc::{AllocError, AllocFailed};
use thiserror::Error;

/// Why there is no snapshot, or why not all changes were told: the first that was met. The files haven't changed, and
/// the sink may have kept objects that nothing names.
#[derive(Clone, Copy, Debug, PartialEq, Eq, Error)]
pub enum SnapshotFault {
    /// The file of that number is named as an entry's own, and isn't stored.
    #[error("file {0} is named, and is missing")]
    Dangling(u64),
    /// The file of that number is stored, and isn't what its entry says, a directory or a content.
    #[error("file {0} is damaged: {1}")]
    Damaged(u64, Refusal),
    /// The directory of that number lies more than `LEVELS` levels below the top.
    #[error("directory {0} lies too deep")]
    TooDeep(u64),
    /// The tree of the directory of that number would have more than 2^30 bytes.
    #[error("directory {0} is too large for a tree")]
    TooLarge(u64),
    /// What the commit has at a path isn't known, since a tree that says so didn't come.
    #[error("a tree of the commit didn't come: {0}")]
    Object(Cause),
    /// The overlay's device failed.
    #[error("the device failed")]
    Device,
    /// The sink's device failed.
    #[error("the sink failed")]
    Sink,
    /// No memory.
    #[error("out of memory")]
    Memory,
}

// The fault of the file of that number.
pub(crate) fn fault_of(number: u64, fault: GetFault) -> SnapshotFault {
    match fault {
        GetFault::Absent => SnapshotFault::Dangling(number),
        GetFault::Damaged(refusal) => SnapshotFault::Damaged(number, refusal),
        GetFault::Device => SnapshotFault::Device,
        GetFault::Memory => SnapshotFault::Memory,
    }
}

// There is no `From<FilesFault>`: the same fault says another thing of the overlay than of a sink.

// The fault of the overlay's files.
pub(crate) fn of_files(fault: FilesFault) -> SnapshotFault {
    match fault {
        FilesFault::Device => SnapshotFault::Device,
        FilesFault::Memory => SnapshotFault::Memory,
    }
}

// The fault of a sink.
pub(crate) fn of_sink(fault: FilesFault) -> SnapshotFault {
    match fault {
        FilesFault::Device => SnapshotFault::Sink,
        FilesFault::Memory => SnapshotFault::Memory,
    }
}

impl From<AllocError> for SnapshotFault {
    ghost from_gives = { λ _ f. f ≡ fault.Memory };

    fn from(_e: AllocError) -> SnapshotFault {
        SnapshotFault::Memory
    }
}

impl<T: Drop> From<AllocFailed<T>> for SnapshotFault {
    ghost from_gives = { λ _ f. f ≡ fault.Memory };

    fn from(_e: AllocFailed<T>) -> SnapshotFault {
        SnapshotFault::Memory
    }
}
