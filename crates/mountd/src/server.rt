//! A server of objects, with a worker for each connection.
ghost use Rattle.std.specs.Prelude.{◌≡◌, ◌≤◌, [], IfErr, IfOk, IsOk, length};
ghost use Rattle.mountd.specs.Endings.{first_server_fault};
ghost use Rattle.mountd.specs.Workers.{HaveEnded, IsAnswered, IsAnsweredFrom, IsEarly, ServesObjects};

use crate::hold::{HoldFault, hold_address, let_go};
use crate::sources::{folder_source, git_source};
use eden_git::{GitFault, GitSource};
use eden_model::{Outside, World};
use eden_remote::{AnswerFault, answer_objects};
use eden_sockets::{Address, Listener, Stream};
use eden_source::{FolderSource, Source};
use mountd_options::{ObjectsOptions, Served};
use std::alloc::Global;
use std::io::{Read, Write};
use std::marker::PhantomData;
use std::net::TcpStream;
use std::thread::{self, Promise, PromisedHandle, Threads};

// What a client is connected by.
type Connection = Stream<TcpStream>;

/// Why a server of objects ended badly: a fault of listening before one of a session, whichever came first in time.
#[derive(Clone, Copy, Debug, PartialEq, Eq)]
pub enum ServerFault {
    /// There is no repository whose objects are to be served, or it can't be opened. Nobody was served.
    Open(GitFault),
    /// Not all connections were taken. Those that were are served all the same.
    Listen(HoldFault),
    /// A connection ended in a fault, the first in the order in which they were taken.
    Session(AnswerFault),
}

/// Serves a directory's objects, or a repository's, at an address, which is printed on standard output, until as many
/// connections as are asked for have ended. A path is held meanwhile.
pub fn serve_objects<R: Threads>(
    threads: &R,
    rt: &HostRuntime,
    options: ObjectsOptions,
) -> Result<(), ServerFault>
    ensures { ServesObjects ⟦<Connection as Read>⟧ ⟦<Connection as Write>⟧ options.sessions result }
{
    let ObjectsOptions {
        objects,
        address,
        sessions,
    } = options;
    match hold_address(rt, rt.alloc(), &address) {
        Err(fault) => Err(ServerFault::Listen(fault)),
        Ok(held) => {
            let served = serve_held(threads, rt, objects, address, sessions);
            let_go(rt, held);
            served
        }
    }
}

// The source of a connection. It is named by its type, as what is sent to a thread must be.
#[derive(Drop)]
enum ServedSource {
    Folder(FolderSource<HostRuntime>),
    Repository(GitSource<HostRuntime>),
}

// Serves them at an address that nobody else has.
fn serve_held<R: Threads>(
    threads: &R,
    rt: &HostRuntime,
    objects: Served,
    address: Address,
    sessions: u32,
) -> Result<(), ServerFault>
    ensures { ServesObjects ⟦<Connection as Read>⟧ ⟦<Connection as Write>⟧ sessions result }
{
    let sources = served_sources(rt, objects, sessions)?;
    let mut workers = Vec::new(rt.alloc());
    let taken = take_all(threads, rt, sources, address, &mut workers);
    let ended = join_all(threads, workers);
    first_fault(taken, ended)
}

// A source for each connection. If they aren't a repository's, the only fault is want of memory, as in listening.
fn served_sources(
    rt: &HostRuntime,
    objects: Served,
    count: u32,
) -> Result<Vec<ServedSource>, ServerFault>
    ensures count { IfOk result (λ sources. length sources.items ≡ count) }
    ensures early { IfErr result IsEarly }
{
    let mut sources = Vec::new(rt.alloc());
    for _made in 0..count {
        let source = served_source(rt, &objects)?;
        sources
            .push(source)
            .map_err(|_| ServerFault::Listen(HoldFault::Memory))?;
    }
    Ok(sources)
}

fn served_source(rt: &HostRuntime, objects: &Served) -> Result<ServedSource, ServerFault>
    ensures { IfErr result IsEarly }
{
    match objects {
        Served::Folder(folder) => {
            let folder = String::from_str(rt.alloc(), folder.as_str()).map_err(
                |_| ServerFault::Listen(HoldFault::Memory),
            )?;
            Ok(ServedSource::Folder(folder_source(rt, folder)))
        }
        Served::Repository(folder) => {
            let folder = String::from_str(rt.alloc(), folder.as_str()).map_err(
                |_| ServerFault::Open(GitFault::Memory),
            )?;
            let source = git_source(rt, folder).map_err(ServerFault::Open)?;
            Ok(ServedSource::Repository(source))
        }
    }
}

// That a connection is answered.
#[derive(Drop)]
struct Answers<I: Read, O: Write> {
    connection: PhantomData<(I, O)>,
}

impl<I: Read, O: Write> Promise<Result<(), AnswerFault>> for Answers<I, O> {
    ghost kept_by = { λ _ ended. IsAnswered I.Read O.Write ended };
}

// What answers a connection in a thread of its own.
type Worker<I, O> = PromisedHandle<Result<(), AnswerFault>, Answers<I, O>>;

// Takes a connection for each source, and gives it a worker of its own.
fn take_all<R: Threads>(
    threads: &R,
    rt: &HostRuntime,
    sources: Vec<ServedSource>,
    address: Address,
    workers: &mut Vec<Worker<Connection, Connection>>,
) -> Result<(), HoldFault>
    requires none { workers.old.items ≡ [] }
    ensures most { length workers.new.items ≤ length sources.items }
    ensures all { IsOk result → length workers.new.items ≡ length sources.items }
{
    let mut listener = Listener::new(*rt, *rt, address);
    let alloc = rt.alloc();
    for source in sources {
        let (reader, writer) = listener.next_connection()?;
        let work = move || answer(alloc, reader, writer, source);
        let answers = Answers {
            connection: PhantomData,
        };
        let worker = thread::spawn_with(threads, answers, work).map_err(|_| HoldFault::Memory)?;
        workers.push(worker).map_err(|_| HoldFault::Memory)?;
    }
    Ok(())
}

// Answers one connection.
fn answer(
    alloc: Global,
    reader: Connection,
    writer: Connection,
    source: ServedSource,
) -> Result<(), AnswerFault>
    ensures { IsAnswered ⟦<Connection as Read>⟧ ⟦<Connection as Write>⟧ result }
{
    match source {
        ServedSource::Folder(source) => answer_from::<Outside, _, _, _>(
            alloc, reader, writer, source,
        ),
        ServedSource::Repository(source) => {
            answer_from::<Outside, _, _, _>(alloc, reader, writer, source)
        }
    }
}

// .. from that source.
fn answer_from<W: World, S: Source<W> + Drop, I: Read + Drop, O: Write + Drop>(
    alloc: Global,
    mut reader: I,
    mut writer: O,
    mut source: S,
) -> Result<(), AnswerFault>
    ensures { IsAnsweredFrom S.fetched I.Read O.Write result }
{
    answer_objects::<W, S, I, O>(alloc, &mut reader, &mut writer, &mut source)
}

// Waits until all connections have ended.
fn join_all<I: Read, O: Write, R: Threads>(
    threads: &R,
    workers: Vec<Worker<I, O>>,
) -> Result<(), AnswerFault>
    ensures { HaveEnded I.Read O.Write (length workers.items) result }
{
    let mut ended = Ok(());
    for worker in workers {
        ended = ended.and(worker.join(threads));
    }
    ended
}

fn first_fault(
    taken: Result<(), HoldFault>,
    served: Result<(), AnswerFault>,
) -> Result<(), ServerFault>
    ensures { result ≡ first_server_fault taken served }
{
    taken.map_err(ServerFault::Listen)?;
    served.map_err(ServerFault::Session)
}
