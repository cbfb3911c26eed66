//! Sockets that their programs left.
use std::fs::{self, Files};
use std::io::{self, ErrorKind};
use std::net::Net;
use std::os::unix::fs::FileTypeExt;
use std::os::unix::net::UnixStream;

/// Removes the socket of that path if nobody listens at it, and answers whether somebody does. Who listens is asked by
/// a connection, which ends at once.
///
/// A path with nothing at it, or with something else than a socket, is left as it is. Errors are the system's.
pub fn remove_left<R: Net + Files>(rt: &R, path: &str) -> io::Result<bool> {
    match fs::symlink_metadata(rt, path) {
        Ok(found) if found.file_type().is_socket() => {}
        Ok(_) => return Ok(false),
        Err(error) if error.kind() == ErrorKind::NotFound => return Ok(false),
        Err(error) => return Err(error),
    }
    match UnixStream::connect(rt, path) {
        Ok(_) => Ok(true),
        Err(error) if error.kind() == ErrorKind::ConnectionRefused => {
            fs::remove_file(rt, path)?;
            Ok(false)
        }
        Err(error) => Err(error),
    }
}
