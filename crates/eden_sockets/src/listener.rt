//! Waiting for connections.
ghost use Rattle.std.specs.Iterator.{IsFinite};

use crate::address::Address;
use crate::stream::Stream;
use std::fs::{self, Files, Permissions};
use std::io::{self, ErrorKind, Print};
use std::net::{Ipv4Addr, Net, OpenListener, OpenStream, SocketAddr, TcpListener};
use std::os::fd::{AsFd, AsRawFd};
use std::os::unix::fs::PermissionsExt;
use std::os::unix::net::{SocketAddr as SocketPath, UnixListener};

/// How many connections may wait until they are taken.
const BACKLOG: i32 = 128;

/// A socket's file lets its user alone connect.
const MODE: u32 = 0o600;

/// An address that is bound at the first `next_connection`: until then nobody can connect.
#[derive(Drop)]
pub struct Listener<N: Net + Print + Drop, F: Files + Drop> {
    net: N,
    files: F,
    address: Address,
    bound: Option<Bound<N::Listener>>,
}

#[derive(Drop)]
enum Bound<L> {
    Port(L),
    Socket(UnixListener),
}

impl<N: Net + Print + Drop, F: Files + Drop> Listener<N, F> {
    /// The address of a server to be. The net has its connections and tells where it is; among the files is its
    /// socket's.
    pub fn new(net: N, files: F, address: Address) -> Listener<N, F> {
        Listener {
            net,
            files,
            address,
            bound: None,
        }
    }

    /// The net and what is printed on.
    pub fn net(&self) -> &N {
        &self.net
    }

    /// The next connection, as two handles of one stream: it is closed once both are dropped. One that its client gave
    /// up before it was taken is passed over.
    ///
    /// The first call binds the address, and tells on standard output which it is. Errors: the system's, as where
    /// another program has the port, or something is at the path.
    pub fn next_connection(&mut self) -> io::Result<(Stream<N::Stream>, Stream<N::Stream>)> {
        if self.bound.is_none() {
            self.bound = Some(self.bind()?);
        }
        let Some(bound) = &self.bound else {
            unreachable!()
        };
        let stream = bound.next_stream()?;
        let again = stream.again()?;
        Ok((stream, again))
    }

    fn bind(&self) -> io::Result<Bound<N::Listener>> {
        match &self.address {
            Address::Port(number) => {
                let address = SocketAddr::from((Ipv4Addr::LOCALHOST, *number));
                let listener = TcpListener::bind(&self.net, address)?;
                let number = listener.local_addr()?.port();
                println!(self.net; "listening 127.0.0.1:{number}")?;
                Ok(Bound::Port(listener))
            }
            Address::Socket(path) => {
                let listener = self.bind_socket(path.as_str())?;
                println!(self.net; "listening {path}")?;
                Ok(Bound::Socket(listener))
            }
        }
    }

    /// Makes the socket's file. It has its mode before the system takes connections, so that nobody else gets one in
    /// between.
    fn bind_socket(&self, path: &str) -> io::Result<UnixListener> {
        let address = SocketPath::from_pathname(path)?;
        let socket = self.net.unix_socket()?;
        self.files.bind_unix(socket.as_fd(), &address)?;
        fs::set_permissions(&self.files, path, Permissions::from_mode(MODE))?;
        if libc::net::listen(socket.as_raw_fd(), BACKLOG) == -1 {
            return Err(io::Error::from(ErrorKind::AddrNotAvailable));
        }
        Ok(UnixListener::from(socket))
    }
}

impl<L: OpenListener> Bound<L> {
    fn next_stream(&self) -> io::Result<Stream<L::Stream>>
    where
        L::Stream: OpenStream,
    {
        match self {
            Bound::Port(listener) => {
                let stream = first_of(listener.incoming())?;
                // An answer isn't to wait for the peer's word on the one before.
                let _ = stream.set_nodelay(true);
                Ok(Stream::Port(stream))
            }
            Bound::Socket(listener) => Ok(Stream::Socket(first_of(listener.incoming())?)),
        }
    }
}

/// The first connection that its client didn't give up before it was taken.
fn first_of<S: Drop, I: Iterator<Item = io::Result<S>> + Drop>(incoming: I) -> io::Result<S>
    requires { I.can_next incoming × IsFinite (I.remaining incoming) }
{
    for stream in incoming {
        match stream {
            Err(error) if is_passing(error.kind()) => {}
            other => return other,
        }
    }
    Err(io::Error::from(ErrorKind::TimedOut))
}

/// Whether an `accept` that failed so says nothing of the next.
fn is_passing(kind: ErrorKind) -> bool {
    matches!(kind, ErrorKind::ConnectionAborted | ErrorKind::Interrupted)
}
