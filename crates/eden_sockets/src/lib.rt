//! Where programs of one machine meet: a port of 127.0.0.1, or the path of a Unix socket.
//!
//! An `Address` is one or the other, a `Listener` waits there, and a `Stream` is a connection to it or from it. What a
//! path may be is proved; that whoever connects is heard, that a socket's file has the mode 0600 before anybody can
//! connect, and what the system does with a socket that its program left, is shown by tests.
#![tactic(auto)]

mod address;
mod left;
mod listener;
mod stream;

pub use address::{Address, LONGEST_PATH, is_socket_path};
pub use left::remove_left;
pub use listener::Listener;
pub use stream::Stream;
