//! Where a server is.
ghost use Rattle.std.specs.Prelude.{◌≡◌, ◌↔◌, IfOk, IsTrue};
ghost use Rattle.eden_sockets.specs.Addresses.{IsSocketPath, SameAddress};

use std::alloc::{AllocError, Global};

/// The most bytes of a socket's path: the system's address of a socket has 108, with a zero behind the path.
pub const LONGEST_PATH: usize = 107;

/// Where a server of this machine is.
#[derive(Debug, Drop, PartialEq, Eq)]
pub enum Address {
    /// The port of 127.0.0.1; for a server that is to listen, 0 stands for one that the machine chooses.
    Port(u16),
    /// The path of a Unix socket.
    Socket(String),
}

impl Address {
    /// The same address once more. The only error is want of memory.
    pub fn copy(&self, alloc: Global) -> Result<Address, AllocError>
        ensures { IfOk result (SameAddress self.now) }
    {
        match self {
            Address::Port(port) => Ok(Address::Port(*port)),
            Address::Socket(path) => Ok(Address::Socket(String::from_str(alloc, path.as_str())?)),
        }
    }
}

/// Whether a socket may have this path: it isn't empty, and has at most `LONGEST_PATH` bytes.
pub fn is_socket_path(path: &str) -> bool
    ensures { IsTrue result ↔ IsSocketPath path.now }
{
    !path.is_empty() && path.len() <= LONGEST_PATH
}
