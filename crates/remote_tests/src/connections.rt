//! Sources that ask a server, over a net that a test makes up and over the machine's own.
use crate::answers::is_heard;
use crate::lines::samples;
use eden_model::{Cause, Id, Outside};
use eden_remote::{Refusal, SocketSource, answer_objects, ask, read_answer};
use eden_sockets::Address;
use eden_source::Source;
use std::alloc::Global;
use std::cell::Cell;
use std::io::{self, ErrorKind, Read, Write};
use std::net::{Net, OpenListener, OpenStream, Shutdown, SocketAddr, TcpListener, TcpStream};
use std::os::fd::{AsRawFd, RawFd};
use std::process::Abort;
use std::time::Duration;
use test_samples::{EMPTY_TREE, VERSION_1};

// A connection on which the server says this, whatever it is asked.
#[derive(Drop)]
struct Line(&'static [u8]);

impl Read for Line {
    fn read(&mut self, buf: &mut [u8]) -> io::Result<usize> {
        self.0.read(buf)
    }
}

impl Write for Line {
    fn write(&mut self, buf: &[u8]) -> io::Result<usize> {
        Ok(buf.len())
    }

    fn flush(&mut self) -> io::Result<()> {
        Ok(())
    }
}

impl OpenStream for Line {
    fn set_read_timeout(&self, _patience: Option<Duration>) -> io::Result<()> {
        Ok(())
    }
}

impl AsRawFd for Line {
    fn as_raw_fd(&self) -> RawFd {
        0
    }
}

#[derive(Drop)]
struct Nobody;

impl OpenListener for Nobody {
    type Stream = Line;

    fn accept(&self) -> io::Result<(Line, SocketAddr)> {
        Err(io::Error::from(ErrorKind::Unsupported))
    }
}

impl AsRawFd for Nobody {
    fn as_raw_fd(&self) -> RawFd {
        0
    }
}

// Reaches the server of `SAID`. How often it was tried.
#[derive(Drop)]
struct Lines(Cell<usize>);

impl Net for Lines {
    type Stream = Line;

    type Listener = Nobody;

    fn bind(&self, _addr: SocketAddr) -> io::Result<Nobody> {
        Err(io::Error::from(ErrorKind::Unsupported))
    }

    fn connect(&self, _addr: SocketAddr) -> io::Result<Line> {
        Err(io::Error::from(ErrorKind::Unsupported))
    }

    fn connect_timeout(&self, _addr: SocketAddr, _patience: Duration) -> io::Result<Line> {
        let tried = self.0.get();
        self.0.set(tried.saturating_add(1));
        match SAID.get(tried).copied().flatten() {
            Some(said) => Ok(Line(said)),
            None => Err(io::Error::from(ErrorKind::ConnectionRefused)),
        }
    }
}

// What the server says on one connection after another; `None` if it isn't reached, as after the last.
const SAID: &[Option<&[u8]>] = &[
    None,
    Some(b"object 3\nabcmissing\nobject 0\nfault\nobject 3\nabc"),
    Some(b"object 1073741841\nobject 3\nabc"),
    Some(b"object 3\nab"),
    Some(b"object 018\nblob 10\0version 1\n"),
    Some(b"hello\nobject 3\nabc"),
    None,
    Some(b"missing\n"),
];

// What is answered, and how many failures there are then.
const ANSWERS: &[(Result<&[u8], Cause>, u64)] = &[
    (Ok(b"abc"), 0),
    (Err(Cause::Missing), 0),
    (Ok(b""), 0),
    (Err(Cause::Device), 1),
    (Err(Cause::TooLarge), 1),
    (Err(Cause::Device), 2),
    (Err(Cause::Device), 3),
    (Err(Cause::Device), 4),
    (Err(Cause::Device), 5),
    (Err(Cause::Missing), 5),
    (Err(Cause::Device), 6),
    (Err(Cause::Device), 7),
];

fn is_answer(answer: &Result<Vec<u8>, Cause>, want: &Result<&[u8], Cause>) -> bool {
    match (answer, want) {
        (Ok(framed), Ok(want)) => framed.as_slice() == *want,
        (Err(cause), Err(want)) => cause == want,
        _ => false,
    }
}

// Whether that is answered, and there are this many failures then.
fn answers(
    alloc: Global,
    source: &mut impl Source<Outside>,
    want: &Result<&[u8], Cause>,
    failures: u64,
) -> bool {
    is_answer(&source.fetch(alloc, VERSION_1.id), want) && source.failures() == failures
}

fn check_answers(rt: &(impl AllocGlobal + Abort), source: &mut impl Source<Outside>) {
    for (number, (want, failures)) in ANSWERS.iter().enumerate() {
        assert!(rt;
            answers(rt.alloc(), source, want, *failures),
            "number {number}"
        );
    }
}

#[test]
fn a_source_connects_anew_after_a_fault(rt: HostRuntime) {
    let lines = Lines(Cell::new(0));
    let patience = Duration::from_secs(1);
    let mut source = SocketSource::new(rt.alloc(), lines, Address::Port(1), patience);
    check_answers(&rt, &mut source);
}

// The ends of one connection.
#[derive(Drop)]
struct Ends {
    client: TcpStream,
    server: TcpStream,
}

fn connected(rt: &HostRuntime) -> io::Result<Ends> {
    let listener = TcpListener::bind(rt, "127.0.0.1:0")?;
    let client = TcpStream::connect(rt, listener.local_addr()?)?;
    let (server, _) = listener.accept()?;
    Ok(Ends { client, server })
}

fn is_asked(client: &mut TcpStream, id: Id) -> bool {
    matches!(ask(client, id), Ok(()))
}

// Whether the server answers all that it is asked, up to the end.
fn is_served(rt: &(impl AllocGlobal + Abort), server: &TcpStream) -> bool {
    let (mut reader, mut writer) = (server, server);
    let ended = answer_objects(rt.alloc(), &mut reader, &mut writer, &mut samples(rt));
    matches!(ended, Ok(()))
}

fn hears(alloc: Global, client: &mut TcpStream, want: Result<&[u8], Refusal>) -> bool {
    is_heard(&read_answer(alloc, client), want)
}

// Whether the answers to both come.
fn hears_both(alloc: Global, client: &mut TcpStream) -> bool {
    hears(alloc, client, Ok(VERSION_1.framed)) && hears(alloc, client, Err(Refusal::Missing))
}

fn asks_both(client: &mut TcpStream) -> bool {
    is_asked(client, VERSION_1.id) && is_asked(client, EMPTY_TREE.id)
}

fn check_both(rt: &(impl AllocGlobal + Abort), client: &mut TcpStream, server: &TcpStream) {
    assert!(rt; asks_both(client));
    client.shutdown(Shutdown::Write).expect(rt, "an end");
    assert!(rt; is_served(rt, server) && hears_both(rt.alloc(), client));
}

#[test]
fn both_ends_meet(rt: HostRuntime) {
    let mut ends = connected(&rt).expect(&rt, "a connection");
    check_both(&rt, &mut ends.client, &ends.server);
}

fn check_failure(
    rt: &(impl AllocGlobal + Abort),
    source: &mut impl Source<Outside>,
    failures: u64,
) {
    assert!(rt; answers(rt.alloc(), source, &Err(Cause::Device), failures));
}

#[test]
fn a_silent_server_is_a_failure(rt: HostRuntime) {
    let listener = TcpListener::bind(&rt, "127.0.0.1:0").expect(&rt, "a port");
    let port = listener.local_addr().expect(&rt, "an address").port();
    let patience = Duration::from_millis(20);
    let mut source = SocketSource::new(rt.alloc(), &rt, Address::Port(port), patience);
    check_failure(&rt, &mut source, 1);
    drop(listener);
    check_failure(&rt, &mut source, 2);
}
