//! How a shared mount's life ends early.
use eden_checkout::OpenFault;
use eden_overlay::FilesFault;
use eden_wire::SessionFault;
use thiserror::Error;

/// Why a shared mount wasn't opened, its guests hosted, and closed: the first in the order opening, listening, session,
/// close, whichever came first in time.
#[derive(Clone, Copy, Debug, PartialEq, Eq, Error)]
pub enum SharedLifeFault {
    /// The overlay wasn't opened, or it was closed again since there was no memory to share it.
    #[error("the overlay was not opened")]
    Open(OpenFault),
    /// Listening failed, and no more clients were taken.
    #[error("listening failed")]
    Listen,
    /// A session ended early; or none began, since no thread could be made for any, or for any fetcher.
    #[error("a session ended early")]
    Session(SessionFault),
    /// The guests were hosted well, and the overlay wasn't closed.
    #[error("the overlay was not closed")]
    Close(FilesFault),
}
