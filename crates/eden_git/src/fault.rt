ghost use Rattle.std.specs.Prelude.{◌≡◌};
ghost use Rattle.eden_git.specs.declared.fault.GitFault.TheVariants as fault;
ghost use Rattle.eden_git.specs.Opening.{fault_of};

use eden_plain_files::FolderFault;
use std::alloc::AllocError;
use thiserror::Error;

/// Why a repository could not be opened.
#[derive(Clone, Copy, Debug, PartialEq, Eq, Error)]
pub enum GitFault {
    /// No Git repository is there.
    #[error("no Git repository is there")]
    Missing,
    /// Its ids aren't SHA-1, or its format is newer than version 1.
    #[error("a format that isn't read")]
    Format,
    /// Something of it is there and can't be read.
    #[error("the device failed")]
    Device,
    /// No memory.
    #[error("out of memory")]
    Memory,
}

impl From<AllocError> for GitFault {
    ghost from_gives = { λ _ f. f ≡ fault.Memory };

    fn from(_error: AllocError) -> GitFault {
        GitFault::Memory
    }
}

impl From<FolderFault> for GitFault {
    ghost from_gives = { λ e f. f ≡ fault_of e };

    fn from(fault: FolderFault) -> GitFault {
        match fault {
            FolderFault::Missing => GitFault::Missing,
            FolderFault::NotPlain
            | FolderFault::TooLong
            | FolderFault::Blocked(_)
            | FolderFault::Device => GitFault::Device,
            FolderFault::Memory => GitFault::Memory,
        }
    }
}
