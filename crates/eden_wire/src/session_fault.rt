ghost use Rattle.std.specs.Prelude.{◌≡◌};
ghost use Rattle.eden_wire.specs.Faults.{session_fault_name, session_fault_number};

use thiserror::Error;

/// Why a session ended early.
#[derive(Clone, Copy, Debug, PartialEq, Eq, Error)]
pub enum SessionFault {
    /// A read failed, or 2^64 - 1 reads brought no end.
    #[error("a read failed")]
    Read = 1,
    /// A write failed.
    #[error("a write failed")]
    Write = 2,
    /// No memory for the buffers, before anything was read.
    #[error("out of memory")]
    Memory = 3,
}

impl SessionFault {
    /// The fault's number.
    pub fn number(self) -> u8
        ensures { result ≡ session_fault_number self }
    {
        self as u8
    }

    /// The fault's name.
    pub fn name(self) -> &'static str
        ensures { result.now ≡ session_fault_name self }
    {
        match self {
            SessionFault::Read => "Read",
            SessionFault::Write => "Write",
            SessionFault::Memory => "Memory",
        }
    }
}
