//! How a folder's life ends early.
use eden_checkout::OpenFault;
use eden_fuse_session::SessionFault;
use eden_overlay::FilesFault;
use thiserror::Error;

/// Why a folder wasn't opened, served until it was unmounted, and closed: the first of these that happened.
#[derive(Clone, Copy, Debug, PartialEq, Eq, Error)]
pub enum FolderFault {
    /// The overlay wasn't opened.
    #[error("the overlay was not opened")]
    Open(OpenFault),
    /// The session ended early. The overlay was closed all the same, if it could be.
    #[error("the session ended early")]
    Session(SessionFault),
    /// The session ended well, and what was written last wasn't all stored: the number of the first error that a store
    /// met. All others were stored, and the overlay was closed all the same, if it could be.
    #[error("what was written last was not stored (error {0})")]
    Unstored(u32),
    /// The session ended well, all that was written was stored, and the overlay wasn't closed.
    #[error("the overlay was not closed")]
    Close(FilesFault),
}
