use eden_wire::SessionFault;
use thiserror::Error;

/// What ended the service of guests early.
#[derive(Clone, Copy, Debug, PartialEq, Eq, Error)]
pub enum HostFault {
    /// Listening failed, and no more connections were taken.
    #[error("listening failed")]
    Listen,
    /// A session ended early; or none began, since no thread could be made for any, or for any fetcher.
    #[error("a session ended early")]
    Session(SessionFault),
}
