//! A shared mount from its opening over its guests' sessions to its close.
ghost use Rattle.std.specs.Prelude.{◌≡◌, [], None, Err};
ghost use Rattle.eden_checkout.specs.Opening.{MayOpen};
ghost use Rattle.eden_shared.specs.Lanes.{names_of};
ghost use Rattle.eden_shared.specs.Opening.{AreTied};
ghost use Rattle.eden_serve_life.specs.declared.fault.SharedLifeFault.TheVariants as life;
ghost use Rattle.eden_serve_life.specs.Inside.{Ends, LivesSharedInside};
ghost use Rattle.eden_serve_life.specs.Lives.{LivesShared, first_told};

use crate::fault::SharedLifeFault;
use eden_checkout::{Checkout, OpenFault};
use eden_history::History;
use eden_host::{Accepts, Fetchers, HostFault, HostedTable, host_table};
use eden_model::World;
use eden_mount::{Config, Unloading};
use eden_overlay::{Files, FilesFault};
use eden_shared::{Naming, Ties};
use eden_source::Source;
use eden_stdio_life::{Backing, Base, Closed, close, open};
use std::alloc::Global;
use std::io::{Read, Write};
use std::marker::{Brand, Send, Sync};
use std::sync::Wait;
use std::thread::Threads;

/// What a shared mount's life leaves, and how it ended.
#[derive(Drop)]
pub struct SharedEnding<F> {
    /// The files as they stand.
    pub files: F,
    /// Why the overlay wasn't closed, if it was open and wasn't closed; reported too if another fault came first.
    pub unclosed: Option<FilesFault>,
    /// The first fault of opening, listening, sessions and close.
    pub outcome: Result<(), SharedLifeFault>,
}

/// The first fault of hosting guests and the close after it.
fn first_told(
    hosted: Result<(), HostFault>,
    unclosed: Option<FilesFault>,
) -> Result<(), SharedLifeFault>
    ensures { result ≡ first_told hosted unclosed }
{
    match (hosted, unclosed) {
        (Err(HostFault::Listen), _) => Err(SharedLifeFault::Listen),
        (Err(HostFault::Session(fault)), _) => Err(SharedLifeFault::Session(fault)),
        (Ok(()), Some(fault)) => Err(SharedLifeFault::Close(fault)),
        (Ok(()), None) => Ok(()),
    }
}

/// The ending of a life whose overlay wasn't opened.
fn unopened<F>(fault: OpenFault, files: F) -> SharedEnding<F>
    ensures { result ≡ record { files = files; unclosed = None; outcome = Err (life.Open fault) } }
{
    SharedEnding {
        files,
        unclosed: None,
        outcome: Err(SharedLifeFault::Open(fault)),
    }
}

/// Closes a table that was opened: its guests were hosted, or there was no memory to share it.
fn end<W: World, F: Files<W>>(
    alloc: Global,
    hosted: Result<HostedTable<Checkout<Global, W, F>>, Checkout<Global, W, F>>,
) -> SharedEnding<F>
    ensures { Ends W.World F.Files hosted result }
{
    match hosted {
        Err(unshared) => {
            let Closed { files, unclosed } = close(alloc, unshared);
            SharedEnding {
                files,
                unclosed,
                outcome: Err(SharedLifeFault::Open(OpenFault::Memory)),
            }
        }
        Ok(HostedTable { table, outcome }) => {
            let Closed { files, unclosed } = close(alloc, table);
            SharedEnding {
                files,
                unclosed,
                outcome: first_told(outcome, unclosed),
            }
        }
    }
}

/// Opens, hosts and closes, with ties of the name that the caller picked.
fn live_tied<
    J: Naming + Send,
    W: World + Send,
    F: Files<W> + Send,
    H: History + Send,
    S: Source<W> + Send + Drop,
    I: Read + Send + Drop,
    O: Write + Send + Drop,
    L: Accepts<I, O> + Drop,
    R: Threads + Wait + Sync,
>(
    rt: &R,
    alloc: Global,
    backing: Backing<F, Fetchers<S>>,
    base: Base,
    config: &Config,
    history: H,
    ties: Ties,
    listener: L,
    unloading: Unloading,
) -> SharedEnding<F>
    requires files { W.honest → MayOpen base.opening W.repository W.opening W.numbers base.root
        (F.stored backing.files) }
    requires empty { H.entries history ≡ [] }
    requires ties { AreTied ties.lanes.items ties.ends.items config.now.passes }
    requires names { names_of ties.lanes.items ≡ J.names }
    ensures lives { LivesShared W.World F.Files I.Read O.Write config.now.passes (H.limit history) base.root
        backing.files result }
    ensures inside { LivesSharedInside W.World F.Files I.Read O.Write (H.limit history) base config.now backing.files
        result }
{
    let Backing {
        files,
        source: fetchers,
    } = backing;
    config.holds();
    match open::<W, Global, F>(alloc, alloc, files, base, config) {
        Err((fault, files)) => unopened(fault, files),
        Ok((room, table)) => {
            let hosted = host_table::<W, Checkout<Global, W, F>, Global, J, H, S, I, O, L, R>(
                rt, alloc, room, table, history, ties, listener, fetchers, unloading,
            );
            end::<W, F>(alloc, hosted)
        }
    }
}

/// Opens an overlay over a commit's tree, hosts a guest for each pass of the settings over it, with a fetcher for each
/// source, and closes it.
///
/// The clients come in the order in which the listener takes them, each with its own thread and its own session, which
/// ends where its input does or at a line that is no request. What they were told is one history: the replies of the
/// commit's whole tree, changed by one request after another, with the inode numbers that a `stat` may return. The
/// overlay is closed once the last session has ended, and after a fault too, with the same commit and the next inode
/// number that was reached, and backs the numbers that were told; only if the close fails are the files left without
/// their state.
///
/// Errors are reported in `outcome`, the first in the order opening, listening, session, close. If the overlay isn't
/// opened, or there is no memory to share it, nobody is listened for; `inside` says why it wasn't opened.
pub fn live_shared<
    W: World + Send,
    F: Files<W> + Send,
    H: History + Send,
    S: Source<W> + Send + Drop,
    I: Read + Send + Drop,
    O: Write + Send + Drop,
    L: Accepts<I, O> + Drop,
    R: Threads + Wait + Sync,
>(
    rt: &R,
    alloc: Global,
    backing: Backing<F, Fetchers<S>>,
    base: Base,
    config: &Config,
    history: H,
    listener: L,
    unloading: Unloading,
) -> SharedEnding<F>
    requires files { W.honest → MayOpen base.opening W.repository W.opening W.numbers base.root
        (F.stored backing.files) }
    requires empty { H.entries history ≡ [] }
    ensures lives { LivesShared W.World F.Files I.Read O.Write config.now.passes (H.limit history) base.root
        backing.files result }
    ensures inside { LivesSharedInside W.World F.Files I.Read O.Write (H.limit history) base config.now backing.files
        result }
{
    let Ok(ties) = Ties::new(alloc, config.passes()) else {
        return unopened(OpenFault::Memory, backing.files);
    };
    live_tied::<Brand, W, F, H, S, I, O, L, R>(
        rt, alloc, backing, base, config, history, ties, listener, unloading,
    )
}
