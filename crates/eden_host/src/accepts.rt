use std::io::{Read, Write};

/// Where connections come from.
pub trait Accepts<I: Read, O: Write> {
    /// Waits for the next connection: what its client says, and where it is answered. None if listening failed.
    fn accept(&mut self) -> Option<(I, O)>;

    /// The connection that was taken last was closed, and its client had no session, since no thread could be made.
    fn close_unserved(&mut self);
}
