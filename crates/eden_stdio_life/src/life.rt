//! A mount from its opening over its caller's session to its close.
ghost use Rattle.std.specs.Prelude.{◌≡◌, []};
ghost use Rattle.eden_model.specs.Numbers as numbers;
ghost use Rattle.eden_inode.specs.Tables.{shows};
ghost use Rattle.eden_checkout.specs.Opening.{MayOpen};
ghost use Rattle.eden_stdio_life.specs.Inside.{Ends, LivesInside};
ghost use Rattle.eden_stdio_life.specs.Lives.{Lives, first_life_fault};
ghost use Rattle.eden_stdio_life.specs.Opening.{IsBacking};

use crate::fault::LifeFault;
use crate::opening::{Base, Closed, close, open};
use crate::serving::{Served, serve_table};
use eden_checkout::Checkout;
use eden_history::History;
use eden_model::World;
use eden_mount::Config;
use eden_overlay::{Files, FilesFault};
use eden_source::Source;
use eden_wire::SessionFault;
use std::alloc::{Allocator, Global};
use std::io::{Read, Write};

/// What a mount stands on: the files of its overlay, and the source that its objects are fetched from.
#[derive(Drop)]
pub struct Backing<F, S> {
    pub files: F,
    pub source: S,
}

/// What a mount's life leaves, and how it ended.
#[derive(Drop)]
pub struct Ending<F, S> {
    /// The files as they stand, and the source as its last answer left it.
    pub backing: Backing<F, S>,
    /// Why the overlay wasn't closed, if it was open and wasn't closed; reported too if the session's fault came first.
    pub unclosed: Option<FilesFault>,
    /// The first fault of opening, session and close.
    pub outcome: Result<(), LifeFault>,
}

/// The first fault of a session and the close after it.
fn first_fault(
    said: Result<(), SessionFault>,
    unclosed: Option<FilesFault>,
) -> Result<(), LifeFault>
    ensures { result ≡ first_life_fault said unclosed }
{
    if let Err(fault) = said {
        return Err(LifeFault::Session(fault));
    }
    match unclosed {
        Some(fault) => Err(LifeFault::Close(fault)),
        None => Ok(()),
    }
}

/// Closes the checkout of a served caller, however the session ended. If that fails, the files are left as they stand.
fn end<W: World, S: Drop, A: Allocator + Clone, F: Files<W>>(
    alloc: Global,
    served: Served<Checkout<A, W, F>, S>,
) -> Ending<F, S>
    ensures { (N : numbers.Numbers) → IsBacking W.World F.Files N served.table → Ends W.World F.Files served.table.root
        served.table (shows W.World F.Files served.table.inodes) N served.source served.said result }
{
    let Served {
        table,
        source,
        said,
    } = served;
    let Closed { files, unclosed } = close(alloc, table);
    Ending {
        backing: Backing { files, source },
        unclosed,
        outcome: first_fault(said, unclosed),
    }
}

/// Opens an overlay over a commit's tree, answers each line of the reader on the writer over it, and closes it.
///
/// The session ends where the input does, or at a line that is no request. The overlay is closed after a session's
/// fault too; only if the close fails are the files left without their state. What was told are the replies of the
/// commit's whole tree, changed by one request after another, with the inode numbers that a `stat` may return; files
/// that were closed show the tree after them, and back those numbers. A request that isn't taken is told that the
/// history is full at its limit, or that there is no memory.
///
/// Errors are reported in `outcome`, the first in the order opening, session, close. If the overlay isn't opened,
/// nothing is read or written, and `inside` says why it wasn't, as it says of each fault that was told what it came of.
pub fn live<
    W: World,
    S: Source<W> + Drop,
    A: Allocator + Clone,
    F: Files<W>,
    H: History,
    R: Read,
    O: Write,
>(
    alloc: Global,
    memory: A,
    history: H,
    backing: Backing<F, S>,
    base: Base,
    config: &Config,
    reader: &mut R,
    writer: &mut O,
) -> Ending<F, S>
    requires files { W.honest → MayOpen base.opening W.repository W.opening W.numbers base.root
        (F.stored backing.files) }
    requires empty { H.entries history ≡ [] }
    ensures lives { Lives W.World F.Files S.fetched (H.limit history) base.root backing
        (R.remaining reader.old, R.remaining reader.new) (O.contents writer.old, O.contents writer.new) result }
    ensures inside { LivesInside W.World F.Files S.fetched H.copies (H.limit history) base config.now backing
        (R.remaining reader.old, R.remaining reader.new) (O.contents writer.old, O.contents writer.new) result }
{
    let Backing { files, source } = backing;
    match open::<W, A, F>(alloc, memory, files, base, config) {
        Err((fault, files)) => Ending {
            backing: Backing { files, source },
            unclosed: None,
            outcome: Err(LifeFault::Open(fault)),
        },
        Ok((room, table)) => {
            let served = serve_table::<W, S, Checkout<A, W, F>, A, H, R, O>(
                alloc, room, table, history, source, reader, writer,
            );
            end::<W, S, A, F>(alloc, served)
        }
    }
}
