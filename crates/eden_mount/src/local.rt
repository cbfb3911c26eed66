ghost use Rattle.std.specs.Prelude.{◌≡◌, true, OnOk, IfErr};
ghost use Rattle.std.specs.Borrow.{sem};
ghost use Rattle.std.specs.Io.BufRead.{Rests};
ghost use Rattle.eden_model.specs.declared.request.Request.{Request};
ghost use Rattle.eden_model.specs.Histories.{Legal};
ghost use Rattle.eden_import.specs.Keys.{has_key};
ghost use Rattle.eden_mount.specs.Serving.{IsDriven, IsAtRest, WaitsAlone, Hands, FetchesOne, DrivesOn, Finishes};
ghost use Rattle.eden_mount.specs.Serving.{MayLetGo, Answers, IsServed, LendsReply, Declines, SyncsDesk};
ghost use Rattle.eden_mount.specs.contracts.local.Local.{the_row};

use crate::attempts::Attempts;
use crate::events::Turned;
use crate::mount::Mount;
use crate::unloading::Unloading;
use eden_history::{History, Kept};
use eden_model::{Entry, Fault, Key, Obstacle, Path, Reply, Request, StartFault, World};
use eden_source::Source;
use std::alloc::{Allocator, Global};
use std::marker::Model;

/// Asks the source for a key in flight, and hands in what came.
fn fetch_one<W: World, S: Source<W>, T: Attempts<W> + Drop, A: Allocator, H: History>(
    alloc: Global,
    mount: &mut Mount<W, T, A, H>,
    source: &mut S,
    key: Key,
)
    requires { has_key key mount.old.queue.flight ≡ true }
    ensures { Hands S.fetched T.table mount.old source.old key mount.new source.new }
{
    match source.fetch(alloc, key.id) {
        Ok(framed) => {
            mount.arrive(key, framed);
        }
        Err(cause) => {
            mount.fail(key, cause);
        }
    }
}

/// Fetches what the caller's request waits for since its last turn.
fn fetch_wanted<W: World, S: Source<W>, T: Attempts<W> + Drop, A: Allocator, H: History>(
    alloc: Global,
    mount: &mut Mount<W, T, A, H>,
    source: &mut S,
)
    requires { WaitsAlone T.table W.honest H.copies mount.old }
    ensures { FetchesOne S.fetched T.table mount.old source.old mount.new source.new }
{
    let Some(key) = mount.take_want() else {
        unreachable!();
    };
    mount.holds();
    fetch_one::<W, S, T, A, H>(alloc, mount, source, key);
    mount.holds();
}

/// Goes on with the caller's request until it is finished.
fn drive<W: World, S: Source<W>, T: Attempts<W> + Drop, A: Allocator, H: History>(
    alloc: Global,
    mount: &mut Mount<W, T, A, H>,
    source: &mut S,
) -> Reply
    requires { (q : Request) × IsDriven T.table q mount.old }
    ensures { DrivesOn S.fetched T.table W.honest H.copies mount.old source.old result mount.new source.new }
{
    match mount.turn(1) {
        Turned::Done(_, reply) => reply,
        Turned::Idle => unreachable!(),
        Turned::Wait(_) => {
            fetch_wanted::<W, S, T, A, H>(alloc, mount, source);
            drive::<W, S, T, A, H>(alloc, mount, source)
        }
    }
}

/// When a caller unloads directories of the whole mount.
#[derive(Drop)]
struct Evicting {
    unloading: Unloading,
    root: Path,
}

/// Counts a request, and unloads directories if it is time to.
fn let_go<W: World, T: Attempts<W> + Drop, A: Allocator, H: History>(
    mount: &mut Mount<W, T, A, H>,
    evicting: &mut Evicting,
)
    ensures { MayLetGo T.table W.honest mount.old mount.new }
{
    if evicting.unloading.is_due() {
        mount.unload(&evicting.root, evicting.unloading.age);
    }
}

/// Asks a request, and continues with it until it is finished.
fn finish<W: World, S: Source<W>, T: Attempts<W> + Drop, A: Allocator, H: History>(
    alloc: Global,
    mount: &mut Mount<W, T, A, H>,
    source: &mut S,
    request: Request,
) -> Result<Reply, StartFault>
    requires { IsAtRest mount.old }
    ensures { Finishes S.fetched T.table W.honest H.copies request mount.old source.old result mount.new source.new }
{
    mount.holds();
    match mount.ask(1, request) {
        Err(fault) => Err(fault),
        Ok(Turned::Done(_, reply)) => Ok(reply),
        Ok(Turned::Idle) => unreachable!(),
        Ok(Turned::Wait(_)) => {
            fetch_wanted::<W, S, T, A, H>(alloc, mount, source);
            Ok(drive::<W, S, T, A, H>(alloc, mount, source))
        }
    }
}

/// Serves one request over the source, and unloads directories if it is time to.
fn answer<W: World, S: Source<W>, T: Attempts<W> + Drop, A: Allocator, H: History>(
    alloc: Global,
    mount: &mut Mount<W, T, A, H>,
    source: &mut S,
    evicting: &mut Evicting,
    request: Request,
) -> Result<Reply, StartFault>
    requires { IsAtRest mount.old }
    ensures { Answers S.fetched T.table W.honest H.copies request mount.old source.old result mount.new source.new }
{
    mount.holds();
    match finish::<W, S, T, A, H>(alloc, mount, source, request) {
        Err(fault) => Err(fault),
        Ok(reply) => {
            let_go::<W, T, A, H>(mount, evicting);
            Ok(reply)
        }
    }
}

/// A mount with one caller, who is its first pass, and a source that it asks itself. It waits for nobody. Now and then
/// it unloads loaded directories that weren't used for long.
///
/// Contracts see the mount, the source and the last reply.
#[derive(Drop)]
pub struct Local<W: World, S: Source<W> + Drop, T: Attempts<W> + Drop, A: Allocator, H: History> {
    alloc: Global,
    mount: Mount<W, T, A, H>,
    source: S,
    reply: Reply,
    evicting: Evicting,
}

impl<W: World, S: Source<W> + Drop, T: Attempts<W> + Drop, A: Allocator, H: History> Model
    for Local<W, S, T, A, H> {
    ghost use Rattle.eden_mount.specs.Serving.{Desk, IsAtRest};

    ghost Value = { Desk T S };

    ghost view = { λ l. record { core = l.mount; source = l.source; reply = l.reply } };

    ghost invariant = { λ l. IsAtRest l.mount };
}

impl<W: World, S: Source<W> + Drop, T: Attempts<W> + Drop, A: Allocator, H: History> Local<
    W,
    S,
    T,
    A,
    H,
> {
    /// Over a mount in which the first pass has nothing pending, and nothing is queued or in flight.
    pub fn new(alloc: Global, mount: Mount<W, T, A, H>, source: S, unloading: Unloading) -> Self
        requires { IsAtRest mount }
        ensures mount { result.core ≡ mount }
        ensures source { result.source ≡ source }
    {
        Local {
            alloc,
            mount,
            source,
            reply: Reply::Fault(Fault::Memory),
            evicting: Evicting {
                unloading,
                root: Path::new(Vec::new(alloc)).unwrap(),
            },
        }
    }

    /// Gives mount and source back.
    pub fn into_parts(self) -> (Mount<W, T, A, H>, S)
        ensures mount { result.0 ≡ self.core }
        ensures source { result.1 ≡ self.source }
        ensures rest { IsAtRest self.core }
    {
        let Local { mount, source, .. } = self;
        (mount, source)
    }

    /// The last reply.
    pub fn reply(&self) -> &Reply
        ensures { result.now ≡ self.now.reply }
    {
        &self.reply
    }

    /// Serves a request; `reply` has its reply. It asks the source for at most one object for each place on its paths.
    pub fn serve(&mut self, request: Request) -> Result<(), StartFault>
        ensures ok { OnOk result (IsServed S.fetched T.table W.honest H.copies request self.old self.new) }
        ensures err { IfErr result (λ fault. Declines self.old fault self.new) }
    {
        let (alloc, evicting) = (self.alloc, &mut self.evicting);
        let (mount, source) = (&mut self.mount, &mut self.source);
        match answer::<W, S, T, A, H>(alloc, mount, source, evicting, request) {
            Err(fault) => Err(fault),
            Ok(reply) => {
                self.reply = reply;
                Ok(())
            }
        }
    }

    /// As `serve`, and lends the reply, which lies here until the next call.
    pub fn call(&mut self, request: Request) -> Result<&Reply, StartFault>
        ensures* after { sem 𝓛
            (Rests (the_row W.row S.row T.row A.row H.row T.Place.row W.World S.Source T.Attempts A.Allocator H.History)
            self.entry
            (λ new. LendsReply S.fetched T.table W.honest H.copies request self.old result new)) }
    {
        match self.serve(request) {
            Err(fault) => Err(fault),
            Ok(()) => Ok(self.reply()),
        }
    }

    /// What kept the device from storing when it was to store last; None if it stored, or didn't say.
    pub fn obstacle(&self) -> Option<Obstacle> {
        self.mount.obstacle()
    }

    /// Waits until a loss of power would take nothing of what the table stored. False if that isn't known. The last
    /// reply stays.
    pub fn sync(&mut self) -> bool
        ensures { SyncsDesk T.table W.honest self.old result self.new }
    {
        self.mount.sync()
    }
}

impl<W: World, S: Source<W> + Drop, T: Attempts<W> + Drop, A: Allocator> Local<W, S, T, A, Kept> {
    /// The entries so far.
    pub fn history(&self) -> &[Entry]
        ensures entries { result.now ≡ self.now.core.history }
        ensures legal { W.honest → Legal W.opening W.numbers self.now.core.history }
    {
        self.mount.history()
    }
}
