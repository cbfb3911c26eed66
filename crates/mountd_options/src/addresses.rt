//! Options that take an address.
ghost use Rattle.std.specs.Prelude.{◌≡◌, IfOk, MatchOption};
ghost use Rattle.mountd_options.specs.Addresses.{IsAddress, IsNoAddress, IsPath, IsPort, NoPath, NoPort};
ghost use Rattle.mountd_options.specs.Addresses.{address_name};

use crate::numbers::read_within;
use eden_sockets::{Address, LONGEST_PATH, is_socket_path};
use std::alloc::{AllocError, Global};
use std::fmt::{self, Display, Formatter, Write};

/// An option whose value says where a server is.
#[derive(Clone, Copy, Debug)]
pub enum AddressOption {
    /// The socket that a server listens at.
    Socket,
    /// The server that objects are asked of.
    Remote,
}

impl AddressOption {
    /// Its name, without the dashes.
    pub fn name(self) -> &'static str
        ensures { result.now ≡ address_name self }
    {
        match self {
            AddressOption::Socket => "socket",
            AddressOption::Remote => "remote",
        }
    }

    /// The address that the text says. If a socket is wanted that is its path; else a text with a slash is a socket's
    /// path, and one without a port's number.
    ///
    /// None exactly if the text says no address, or one that the option doesn't take. The only error is want of memory.
    pub fn read(self, alloc: Global, text: &str) -> Result<Option<Address>, AllocError>
        ensures { IfOk result (λ read. MatchOption read (IsNoAddress self text.now) (IsAddress self text.now)) }
    {
        match self {
            AddressOption::Socket => socket_at(alloc, text),
            AddressOption::Remote => {
                if text.as_bytes().contains(&b'/') {
                    socket_at(alloc, text)
                } else {
                    Ok(port_of(text))
                }
            }
        }
    }
}

/// The socket of that path.
fn socket_at(alloc: Global, text: &str) -> Result<Option<Address>, AllocError>
    ensures { IfOk result (λ read. MatchOption read (NoPath text.now) (IsPath text.now)) }
{
    if !is_socket_path(text) {
        return Ok(None);
    }
    Ok(Some(Address::Socket(String::from_str(alloc, text)?)))
}

/// The port of that number.
fn port_of(text: &str) -> Option<Address>
    ensures { MatchOption result (NoPort text.now) (IsPort text.now) }
{
    let port = read_within(text, 1, u16::MAX as u64)?;
    Some(Address::Port(port as u16))
}

/// What the option takes.
impl Display for AddressOption {
    fn fmt<W: Write>(&self, f: &mut Formatter<W>) -> fmt::Result {
        match self {
            AddressOption::Socket => write!(
                f,
                "--socket takes a path of 1 to {LONGEST_PATH} bytes"
            ),
            AddressOption::Remote => write!(
                f,
                "--remote takes a number from 1 to {}, or a path with a slash, of at most {LONGEST_PATH} bytes",
                u16::MAX
            ),
        }
    }
}
