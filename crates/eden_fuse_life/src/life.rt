//! A folder from the opening of its overlay over its session to the close.
ghost use Rattle.std.specs.Prelude.{◌≡◌, []};
ghost use Rattle.eden_model.specs.Numbers as numbers;
ghost use Rattle.eden_inode.specs.Tables.{shows};
ghost use Rattle.eden_checkout.specs.Opening.{MayOpen};
ghost use Rattle.eden_fuse_life.specs.Lives.{EndsFolder, LivesFolder, first_folder_fault};
ghost use Rattle.eden_fuse_life.specs.Serving.{line_of};
ghost use Rattle.eden_stdio_life.specs.Opening.{IsBacking};

use crate::fault::FolderFault;
use crate::serving::{Look, ServedFolder, serve_folder};
use eden_checkout::Checkout;
use eden_fuse_session::{Receiver, Sender, SessionFault};
use eden_history::History;
use eden_model::World;
use eden_mount::Config;
use eden_overlay::{Files, FilesFault};
use eden_source::Source;
use eden_stdio_life::{Backing, Base, Closed, close, open};
use std::alloc::{Allocator, Global};
use std::rt::Clock;

/// What a folder's life leaves, and how it ended.
#[derive(Drop)]
pub struct FolderEnding<F, S> {
    /// The files as they stand, and the source as its last answer left it.
    pub backing: Backing<F, S>,
    /// The number of the first error upon which what was written last wasn't stored, if not all of it was; reported too
    /// if the session's fault came first.
    pub unstored: Option<u32>,
    /// Why the overlay wasn't closed, if it was open and wasn't closed; reported too if another fault came first.
    pub unclosed: Option<FilesFault>,
    /// The first fault of opening, session, the last stores and close.
    pub outcome: Result<(), FolderFault>,
}

/// The first fault of a session, the stores at its end, and the close after them.
fn first_fault(
    said: Result<(), SessionFault>,
    unstored: Option<u32>,
    unclosed: Option<FilesFault>,
) -> Result<(), FolderFault>
    ensures { result ≡ first_folder_fault said unstored unclosed }
{
    if let Err(fault) = said {
        return Err(FolderFault::Session(fault));
    }
    if let Some(errno) = unstored {
        return Err(FolderFault::Unstored(errno));
    }
    match unclosed {
        Some(fault) => Err(FolderFault::Close(fault)),
        None => Ok(()),
    }
}

/// Closes the checkout of a served folder, however the session ended, and whether or not all that waited was stored. If
/// that fails, the files are left as they stand.
fn end<W: World, S: Drop, A: Allocator + Clone, F: Files<W>>(
    alloc: Global,
    served: ServedFolder<Checkout<A, W, F>, S>,
) -> FolderEnding<F, S>
    ensures ends { (N : numbers.Numbers) → IsBacking W.World F.Files N served.table
        → EndsFolder W.World F.Files served.table.root served.table
        (shows W.World F.Files served.table.inodes) N served.source served.said result }
    ensures unstored { result.unstored ≡ served.unstored }
{
    let ServedFolder {
        table,
        source,
        said,
        unstored,
    } = served;
    let Closed { files, unclosed } = close(alloc, table);
    FolderEnding {
        backing: Backing { files, source },
        unstored,
        unclosed,
        outcome: first_fault(said, unstored, unclosed),
    }
}

/// Opens an overlay over a commit's tree, answers each of the kernel's messages over it, and closes it.
///
/// The session ends when no more messages come, as after an unmount. Then all that waits is stored. The overlay is
/// closed after a session's fault too, and if not all was stored; only if the close fails are the files left without
/// their state. What the mount replied are the replies of the commit's whole tree, changed by one request after
/// another, with the inode numbers that a `stat` may return; files that were closed show the tree after them, and back
/// those numbers.
///
/// Errors are reported in `outcome`, the first in the order opening, session, last stores, close. That something wasn't
/// stored is reported in `unstored` whatever came first. If the overlay isn't opened, nothing is received or sent.
pub fn live_folder<
    W: World,
    S: Source<W> + Drop,
    A: Allocator + Clone,
    F: Files<W>,
    H: History,
    K: Clock + Drop,
    V: Receiver,
    C: Sender,
>(
    alloc: Global,
    memory: A,
    history: H,
    backing: Backing<F, S>,
    base: Base,
    config: &Config,
    look: Look,
    clock: K,
    receiver: &mut V,
    sender: &mut C,
) -> FolderEnding<F, S>
    requires files { W.honest → MayOpen base.opening W.repository W.opening W.numbers base.root
        (F.stored backing.files) }
    requires empty { H.entries history ≡ [] }
    ensures { LivesFolder W.World F.Files S.fetched H.copies (H.limit history) base config.now backing look.manner
        (line_of C.Sender sender.old) (line_of C.Sender sender.new)
        (V.waiting receiver.old) (V.waiting receiver.new) result }
{
    let Backing { files, source } = backing;
    match open::<W, A, F>(alloc, memory, files, base, config) {
        Err((fault, files)) => FolderEnding {
            backing: Backing { files, source },
            unstored: None,
            unclosed: None,
            outcome: Err(FolderFault::Open(fault)),
        },
        Ok((room, table)) => {
            let served = serve_folder::<W, S, Checkout<A, W, F>, A, H, K, V, C>(
                alloc, room, table, history, source, look, clock, receiver, sender,
            );
            end::<W, S, A, F>(alloc, served)
        }
    }
}
