//! A connection.
use crate::address::Address;
use std::io::{self, Read, Write};
use std::net::{Ipv4Addr, Net, OpenStream, SocketAddr, TcpStream};
use std::os::unix::net::UnixStream;
use std::time::Duration;

/// A connection between two programs of this machine, by a port or by a socket. What is written goes out at once.
#[derive(Drop)]
pub enum Stream<T> {
    Port(T),
    Socket(UnixStream),
}

impl<T: OpenStream + Drop> Stream<T> {
    /// A connection to the server at that address, of which a read that waits longer has failed.
    ///
    /// To a port it is made within that time, too. To a socket it is made at once, but for a server with as many
    /// connections that it didn't take yet as the system lets wait: then as soon as it takes one. Errors are the
    /// system's.
    pub fn connect<R: Net<Stream = T>>(
        net: &R,
        address: &Address,
        patience: Duration,
    ) -> io::Result<Stream<T>> {
        match address {
            Address::Port(port) => {
                let server = SocketAddr::from((Ipv4Addr::LOCALHOST, *port));
                let stream = TcpStream::connect_timeout(net, &server, patience)?;
                stream.set_read_timeout(Some(patience))?;
                Ok(Stream::Port(stream))
            }
            Address::Socket(path) => {
                let stream = UnixStream::connect(net, path.as_str())?;
                stream.set_read_timeout(Some(patience))?;
                Ok(Stream::Socket(stream))
            }
        }
    }

    /// Another handle of the same connection, which ends once all its handles are dropped.
    pub(crate) fn again(&self) -> io::Result<Stream<T>> {
        match self {
            Stream::Port(stream) => Ok(Stream::Port(stream.try_clone()?)),
            Stream::Socket(stream) => Ok(Stream::Socket(stream.try_clone()?)),
        }
    }
}

impl<T: Read> Read for Stream<T> {
    fn read(&mut self, bytes: &mut [u8]) -> io::Result<usize> {
        match self {
            Stream::Port(stream) => stream.read(bytes),
            Stream::Socket(stream) => stream.read(bytes),
        }
    }
}

impl<T: Write> Write for Stream<T> {
    fn write(&mut self, bytes: &[u8]) -> io::Result<usize> {
        match self {
            Stream::Port(stream) => stream.write(bytes),
            Stream::Socket(stream) => stream.write(bytes),
        }
    }

    fn flush(&mut self) -> io::Result<()> {
        match self {
            Stream::Port(stream) => stream.flush(),
            Stream::Socket(stream) => stream.flush(),
        }
    }
}
