//! Two clients by sockets of this machine, and a server of objects with two connections by others, in one process.
ghost use Rattle.std.specs.Prelude.{◌≡◌, length};
ghost use Rattle.eden_shared.specs.Lanes.{names_of};
ghost use Rattle.eden_shared.specs.Opening.{AreTied};
ghost use Rattle.eden_shared.specs.Passes.{AreNewcomers};

use crate::late::end_late;
use crate::mounts::{Held, Mounted, Size, open, serve};
use eden_model::Outside;
use eden_mount::Unloading;
use eden_remote::{SocketSource, answer_objects};
use eden_shared::{Naming, Pass, Ties};
use eden_sockets::{Address, Listener};
use eden_source::MemorySource;
use std::alloc::Global;
use std::fmt::Display;
use std::fs::Files;
use std::io::{self, Eprint, ErrorKind, Print, Read, Write};
use std::marker::Brand;
use std::net::{Ipv4Addr, Net, Shutdown, SocketAddr, TcpListener, TcpStream};
use std::process::Abort;
use std::sync::Wait;
use std::thread::{self, Threads};
use std::time::Duration;
use test_samples::{ONE_FILE, Sample, VERSION_1};

/// How many clients there are.
const CLIENTS: u32 = 2;

/// How many fetchers there are, each with a connection of its own once it fetches.
const FETCHERS: u32 = 2;

/// The requests of examples/first-run.txt.
const ASKED: &[u8] = b"kind /\nread /test.txt 0 100\nlist / - 10\n";

/// What `mountd stdio` answers them over the commit of one file.
const ANSWERED: &[u8] = b"kind dir\ndata 10 76657273696f6e20310a\nentries 1 file test.txt end\n";

/// A net whose ports are all bound already, to one listener, and which prints nowhere.
#[derive(Drop)]
struct Bound {
    listener: TcpListener,
}

impl Net for Bound {
    type Stream = TcpStream;

    type Listener = TcpListener;

    fn bind(&self, _addr: SocketAddr) -> io::Result<TcpListener> {
        self.listener.try_clone()
    }

    fn connect(&self, _addr: SocketAddr) -> io::Result<TcpStream> {
        Err(io::Error::from(ErrorKind::Unsupported))
    }
}

impl Print for Bound {
    fn print<D: Display + Drop>(&self, _value: D) -> io::Result<()> {
        Ok(())
    }

    fn println<D: Display + Drop>(&self, _value: D) -> io::Result<()> {
        Ok(())
    }

    fn write_all(&self, _bytes: &[u8]) -> io::Result<()> {
        Ok(())
    }
}

impl Eprint for Bound {
    fn eprint<D: Display + Drop>(&self, _value: D) -> io::Result<()> {
        Ok(())
    }

    fn eprintln<D: Display + Drop>(&self, _value: D) -> io::Result<()> {
        Ok(())
    }
}

/// Says the requests, and hears what they are answered.
fn ask(
    rt: &impl Abort,
    alloc: Global,
    net: &impl Net<Stream = TcpStream, Listener = TcpListener>,
    to: SocketAddr,
) {
    let mut client = TcpStream::connect(net, to).ok().expect(rt, "a connection");
    assert!(rt; client.write_all(ASKED).is_ok());
    assert!(rt; client.shutdown(Shutdown::Write).is_ok());
    let mut heard = Vec::new(alloc);
    assert!(rt; client.read_to_end(&mut heard).is_ok());
    assert!(rt; heard.as_slice() == ANSWERED);
}

/// The two objects that the requests need.
fn objects(rt: &impl Abort, alloc: Global) -> MemorySource<Outside> {
    let mut objects = MemorySource::new(alloc);
    for Sample { id, framed, .. } in [ONE_FILE, VERSION_1] {
        let framed = framed.to_vec(alloc).expect(rt, "memory");
        objects.insert(id, framed).expect(rt, "memory");
    }
    objects
}

/// Serves the objects to one connection, until that ends.
fn serve_objects(rt: &impl Abort, alloc: Global, listener: &TcpListener) {
    let (stream, _) = listener.accept().ok().expect(rt, "a connection");
    let (mut reader, mut writer) = (&stream, &stream);
    let ended = answer_objects(alloc, &mut reader, &mut writer, &mut objects(rt, alloc));
    assert!(rt; ended.is_ok());
}

fn listen(
    rt: &impl Abort,
    net: &impl Net<Stream = TcpStream, Listener = TcpListener>,
) -> TcpListener {
    let address = SocketAddr::from((Ipv4Addr::LOCALHOST, 0));
    TcpListener::bind(net, address).ok().expect(rt, "a port")
}

fn address(rt: &impl Abort, listener: &TcpListener) -> SocketAddr {
    listener.local_addr().ok().expect(rt, "an address")
}

/// Serves two clients of a port, with two sources, which ask another port.
fn serve_port<
    J: Naming + Send + Sync,
    R: Net<Stream = TcpStream, Listener = TcpListener> + Files + Threads + Wait + Abort + Sync,
>(
    rt: &R,
    alloc: Global,
    shared: Held<J>,
    passes: Vec<Pass<J>>,
    listener: TcpListener,
    from: SocketAddr,
) -> Mounted
    requires { AreNewcomers passes.items (length J.names) }
{
    let mut sources = Vec::new(alloc);
    for _ in 0..FETCHERS {
        let server = Address::Port(from.port());
        let source = SocketSource::new(alloc, rt, server, Duration::from_secs(10));
        sources.push(source).expect(rt, "memory");
    }
    let listener = Listener::new(Bound { listener }, rt, Address::Port(0));
    serve(
        rt,
        alloc,
        listener,
        shared,
        passes,
        sources,
        Unloading::usual(),
    )
}

/// Serves them over a mount of the commit of one file.
fn mount_and_serve<
    J: Naming + Send + Sync,
    R: Net<Stream = TcpStream, Listener = TcpListener> + Files + Threads + Wait + Abort + Sync,
>(rt: &R, alloc: Global, ties: Ties, listener: TcpListener, from: SocketAddr) -> Mounted
    requires ties { AreTied ties.lanes.items ties.ends.items CLIENTS }
    requires names { names_of ties.lanes.items ≡ J.names }
{
    let size = Size {
        passes: CLIENTS,
        flights: FETCHERS,
        history: 6,
        objects: 2,
    };
    let (shared, passes) = open::<J>(rt, alloc, ONE_FILE.id, size, ties);
    serve_port(rt, alloc, shared, passes, listener, from)
}

#[test]
fn two_clients_by_sockets(rt: HostRuntime) {
    let late = thread::spawn(&rt, move || end_late(&rt));
    drop(late);
    let alloc = rt.alloc();
    let (objects, guests) = (listen(&rt, &rt), listen(&rt, &rt));
    let (from, to) = (address(&rt, &objects), address(&rt, &guests));
    let again = objects.try_clone().ok().expect(&rt, "a listener");
    let worker = thread::spawn(&rt, move || serve_objects(&rt, alloc, &objects));
    let other = thread::spawn(&rt, move || serve_objects(&rt, alloc, &again));
    let first = thread::spawn(&rt, move || ask(&rt, alloc, &rt, to));
    let second = thread::spawn(&rt, move || ask(&rt, alloc, &rt, to));
    let ties = Ties::new(alloc, CLIENTS).ok().expect(&rt, "memory");
    let mount = mount_and_serve::<Brand, HostRuntime>(&rt, alloc, ties, guests, from);
    assert!(rt; mount.history().len() == 6);
    // A fetcher that had nothing to fetch has no connection, and its worker waits for one.
    let idle = TcpStream::connect(&rt, from);
    drop(idle);
    worker.ok().expect(&rt, "a thread").join(&rt);
    other.ok().expect(&rt, "a thread").join(&rt);
    first.ok().expect(&rt, "a thread").join(&rt);
    second.ok().expect(&rt, "a thread").join(&rt);
}
