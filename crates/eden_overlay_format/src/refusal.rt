//! Why a stored file could not be read.

ghost use Rattle.std.specs.Prelude.{◌≡◌};
ghost use Rattle.eden_overlay_format.specs.Stored.{refusal_number};
ghost use Rattle.eden_overlay_format.specs.declared.refusal.DecodeFault.TheVariants as fault;

use std::alloc::{AllocError, AllocFailed};
use thiserror::Error;

/// What is wrong with a stored file: the first that holds, in this order.
#[derive(Clone, Copy, Debug, PartialEq, Eq, Error)]
pub enum Refusal {
    /// Under 64 bytes: no header.
    #[error("too short for a header")]
    Short,
    /// The first four bytes aren't those that were asked for.
    #[error("another kind of file")]
    BadIdentifier,
    /// The version is neither 1 nor 2.
    #[error("an unknown version")]
    BadVersion,
    /// In version 2 the body isn't as long as the header says.
    #[error("the body has another length")]
    BadLength,
    /// In version 2 the body's SHA-1 isn't the header's.
    #[error("the body has another digest")]
    BadDigest,
    /// The body isn't in its grammar.
    #[error("the body is not in its grammar")]
    BadBody,
}

impl Refusal {
    /// The refusal's number: 1 `Short`, 2 `BadIdentifier`, 3 `BadVersion`, 4 `BadBody`, 5 `BadLength`, 6 `BadDigest`.
    pub fn number(self) -> u8
        ensures { result ≡ refusal_number self }
    {
        match self {
            Refusal::Short => 1,
            Refusal::BadIdentifier => 2,
            Refusal::BadVersion => 3,
            Refusal::BadBody => 4,
            Refusal::BadLength => 5,
            Refusal::BadDigest => 6,
        }
    }
}

/// Why a decoder that takes memory gave no value.
#[derive(Clone, Copy, Debug, PartialEq, Eq, Error)]
pub enum DecodeFault {
    /// The bytes are no such file.
    #[error("{0}")]
    Refused(Refusal),
    /// No memory for the value.
    #[error("out of memory")]
    Memory,
}

impl From<Refusal> for DecodeFault {
    ghost from_gives = { λ e f. f ≡ fault.Refused e };

    fn from(e: Refusal) -> DecodeFault {
        DecodeFault::Refused(e)
    }
}

impl From<AllocError> for DecodeFault {
    ghost from_gives = { λ _ f. f ≡ fault.Memory };

    fn from(_e: AllocError) -> DecodeFault {
        DecodeFault::Memory
    }
}

impl<T: Drop> From<AllocFailed<T>> for DecodeFault {
    ghost from_gives = { λ _ f. f ≡ fault.Memory };

    fn from(_e: AllocFailed<T>) -> DecodeFault {
        DecodeFault::Memory
    }
}
