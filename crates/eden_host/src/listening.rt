//! Connections of a listener of this machine.
use crate::accepts::Accepts;
use eden_sockets::{Listener, Stream};
use std::fs::Files;
use std::io::{Eprint, Print};
use std::net::Net;

impl<N: Net + Print + Eprint + Drop, F: Files + Drop> Accepts<Stream<N::Stream>, Stream<N::Stream>>
    for Listener<N, F> {
    /// None if the address can't be bound or told, or no connection can be taken.
    fn accept(&mut self) -> Option<(Stream<N::Stream>, Stream<N::Stream>)> {
        self.next_connection().ok()
    }

    /// Tells it on standard error.
    fn close_unserved(&mut self) {
        let _ = eprintln!(self.net(); "mountd: no thread for a connection, which was closed");
    }
}
