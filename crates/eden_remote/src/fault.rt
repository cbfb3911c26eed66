ghost use Rattle.std.specs.Prelude.{◌≡◌};
ghost use Rattle.eden_remote.specs.Faults.{answer_fault_name, answer_fault_number};

use thiserror::Error;

/// Why a server stopped answering a connection early.
#[derive(Clone, Copy, Debug, PartialEq, Eq, Error)]
pub enum AnswerFault {
    /// A read failed, or 2^64 - 1 reads brought no end.
    #[error("a read failed")]
    Read = 1,
    /// A write failed.
    #[error("a write failed")]
    Write = 2,
}

impl AnswerFault {
    /// The fault's number: 1 `Read`, 2 `Write`.
    pub fn number(self) -> u8
        ensures { result ≡ answer_fault_number self }
    {
        self as u8
    }

    /// The fault's name.
    pub fn name(self) -> &'static str
        ensures { result.now ≡ answer_fault_name self }
    {
        match self {
            AnswerFault::Read => "Read",
            AnswerFault::Write => "Write",
        }
    }
}
