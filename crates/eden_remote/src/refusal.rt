ghost use Rattle.std.specs.Prelude.{◌≡◌};
ghost use Rattle.eden_remote.specs.Refusals.{cause_of};

use eden_model::Cause;
use thiserror::Error;

/// Why no bytes came from a server.
#[derive(Clone, Copy, Debug, PartialEq, Eq, Error)]
pub enum Refusal {
    /// It answered `missing`.
    #[error("the server has no such object")]
    Missing,
    /// It answered `fault`.
    #[error("the server could not read the object")]
    Fault,
    /// It has an object of over 2^30 + 16 framed bytes.
    #[error("the object is too large")]
    TooLarge,
    /// The bytes find no memory.
    #[error("out of memory")]
    Memory,
    /// The first line is no answer, or is over 32 bytes.
    #[error("what the server says is no answer")]
    NoAnswer,
    /// The connection ended before the answer did.
    #[error("the connection ended early")]
    Ended,
    /// A read or a write failed, waited too long, or 2^64 - 1 of them brought no end.
    #[error("the connection failed")]
    Failed,
}

impl Refusal {
    /// What a source says in its place.
    pub fn cause(self) -> Cause
        ensures { result ≡ cause_of self }
    {
        match self {
            Refusal::Missing => Cause::Missing,
            Refusal::TooLarge => Cause::TooLarge,
            Refusal::Memory => Cause::Memory,
            Refusal::Fault | Refusal::NoAnswer | Refusal::Ended | Refusal::Failed => Cause::Device,
        }
    }
}
