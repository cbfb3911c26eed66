ghost use Rattle.std.specs.Prelude.{◌≡◌, ◌≤◌, ◌⊎◌, length, IfOk, IfErr};
ghost use Rattle.std.specs.Option.{is_some};
ghost use Rattle.eden_object.specs.Frames.{longest_framed};
ghost use Rattle.eden_source.specs.Fetching.{answer_of, IsSourceCause};
ghost use Rattle.std.specs.Io.Buffered.{reader_inner, reader_remaining};
ghost use Rattle.eden_remote.specs.Remote.{AsksAndHears, keeps_connection};

use crate::receiving::read_answer;
use crate::refusal::Refusal;
use crate::sending::ask;
use eden_model::{Cause, Id, Outside};
use eden_sockets::{Address, Stream};
use eden_source::Source;
use std::alloc::Global;
use std::io::{BufReader, Read, Write};
use std::marker::Model;
use std::net::Net;
use std::time::Duration;

/// Framed objects from an object server of this machine.
///
/// It keeps one connection. After everything but the bytes and `Missing` it drops it, and the next fetch connects anew.
///
/// Contracts see the server's address, whether there is a connection, and the count of failures.
#[derive(Drop)]
pub struct SocketSource<R: Net> {
    net: R,
    address: Address,
    patience: Duration,
    connection: Option<BufReader<Stream<R::Stream>>>,
    failures: u64,
}

impl<R: Net> Model for SocketSource<R> {
    ghost use Rattle.std.specs.Option.{is_some};
    ghost use Rattle.eden_remote.specs.Remote.{Server};

    ghost Value = { Server };

    ghost view = { λ s. record { address = s.address; connected = is_some s.connection; failures = s.failures } };
}

impl<R: Net> SocketSource<R> {
    /// The objects of the server at that address. It is connected to at once, or where that fails by the next fetch. A
    /// read that waits longer than that has failed, and so has a connection to a port; no time at all is never enough.
    pub fn new(alloc: Global, net: R, address: Address, patience: Duration) -> Self
        ensures address { result.address ≡ address }
        ensures failures { result.failures ≡ 0 }
    {
        let connection = connect(&net, alloc, &address, patience).ok();
        SocketSource {
            net,
            address,
            patience,
            connection,
            failures: 0,
        }
    }
}

impl<R: Net> Source<Outside> for SocketSource<R> {
    ghost use Rattle.eden_remote.specs.Remote.{FetchedFromServer};

    ghost fetched = { FetchedFromServer };

    ghost failures = { λ s. s.failures };

    fn failures(&self) -> u64 {
        self.failures
    }

    fn fetch(&mut self, alloc: Global, id: Id) -> Result<Vec<u8>, Cause> {
        let connection = match self.connection.take() {
            Some(connection) => Ok(connection),
            None => connect(&self.net, alloc, &self.address, self.patience),
        };
        let (answer, connection) = match connection {
            Ok(connection) => exchange(alloc, connection, id),
            Err(cause) => (Err(cause), None),
        };
        self.connection = connection;
        if answer == Err(Cause::Device) {
            self.failures = self.failures.saturating_add(1);
        }
        answer
    }
}

// A connection that waits no longer than that. Errors: `Device`, and `Memory` for its buffer.
fn connect<R: Net>(
    net: &R,
    alloc: Global,
    address: &Address,
    patience: Duration,
) -> Result<BufReader<Stream<R::Stream>>, Cause>
    ensures { IfErr result (λ e. (e ≡ Cause.Device) ⊎ (e ≡ Cause.Memory)) }
{
    let stream = Stream::connect(net, address, patience).map_err(|_| Cause::Device)?;
    BufReader::new(alloc, stream).map_err(|_| Cause::Memory)
}

// Asks for the object, and hands the connection back where it can be asked again.
fn exchange<C: Read + Write + Drop>(
    alloc: Global,
    mut connection: BufReader<C>,
    id: Id,
) -> (Result<Vec<u8>, Cause>, Option<BufReader<C>>)
    ensures kept { is_some result.1 ≡ keeps_connection (answer_of result.0) }
    ensures bounded { IfOk result.0 (λ v. length v.items ≤ longest_framed) }
    ensures causes { IfErr result.0 IsSourceCause }
{
    let answer = hear(alloc, &mut connection, id).map_err(Refusal::cause);
    match &answer {
        Ok(_) | Err(Cause::Missing) => (answer, Some(connection)),
        Err(_) => (answer, None),
    }
}

// Asks for the object, and hears the answer.
fn hear<C: Read + Write>(
    alloc: Global,
    connection: &mut BufReader<C>,
    id: Id,
) -> Result<Vec<u8>, Refusal>
    ensures heard { AsksAndHears (λ c. C.contents (reader_inner c)) (reader_remaining C.remaining) id
        connection.old result connection.new }
    ensures bounded { IfOk result (λ v. length v.items ≤ longest_framed) }
{
    ask(connection.get_mut(), id)?;
    read_answer(alloc, connection)
}
