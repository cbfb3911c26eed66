//! A folder of several threads from the opening of its overlay over its session to the close.
ghost use Rattle.std.specs.Prelude.{◌≡◌, ◌≤◌, [], length, None, Err};
ghost use Rattle.eden_checkout.specs.Opening.{MayOpen};
ghost use Rattle.eden_shared.specs.Lanes.{names_of};
ghost use Rattle.eden_shared.specs.Opening.{AreTied};
ghost use Rattle.eden_fuse_life.specs.declared.fault.FolderFault.TheVariants as life;
ghost use Rattle.eden_fuse_life.specs.Lives.{first_folder_fault};
ghost use Rattle.eden_fuse_shared_life.specs.Lives.{Ends, LivesShared};

use eden_checkout::{Checkout, OpenFault};
use eden_fuse_host::{FolderTable, Lines, share_folder};
use eden_fuse_life::{FolderFault, Look};
use eden_fuse_session::{Receiver, Sender, SessionFault};
use eden_history::History;
use eden_model::World;
use eden_mount::Config;
use eden_overlay::{Files, FilesFault};
use eden_shared::{Naming, Ties};
use eden_source::Source;
use eden_stdio_life::{Backing, Base, Closed, close, open};
use std::alloc::Global;
use std::marker::{Brand, Send, Sync};
use std::rt::Clock;
use std::sync::Wait;
use std::thread::Threads;

/// What the life of a folder of several threads leaves, and how it ended.
#[derive(Drop)]
pub struct SharedFolderEnding<F> {
    /// The files as they stand.
    pub files: F,
    /// The number of the first error upon which what was written last wasn't stored, if not all of it was; reported too
    /// if the session's fault came first.
    pub unstored: Option<u32>,
    /// Why the overlay wasn't closed, if it was open and wasn't closed; reported too if another fault came first.
    pub unclosed: Option<FilesFault>,
    /// The first fault of opening, session, the last stores and close.
    pub outcome: Result<(), FolderFault>,
}

/// The first fault of a session, the stores at its end, and the close after them.
fn first_fault(
    said: Result<(), SessionFault>,
    unstored: Option<u32>,
    unclosed: Option<FilesFault>,
) -> Result<(), FolderFault>
    ensures { result ≡ first_folder_fault said unstored unclosed }
{
    if let Err(fault) = said {
        return Err(FolderFault::Session(fault));
    }
    if let Some(errno) = unstored {
        return Err(FolderFault::Unstored(errno));
    }
    match unclosed {
        Some(fault) => Err(FolderFault::Close(fault)),
        None => Ok(()),
    }
}

/// The ending of a life whose overlay wasn't opened.
fn unopened<F>(fault: OpenFault, files: F) -> SharedFolderEnding<F>
    ensures { result ≡ record {
      files = files;
      unstored = None;
      unclosed = None;
      outcome = Err (life.Open fault);
    } }
{
    SharedFolderEnding {
        files,
        unstored: None,
        unclosed: None,
        outcome: Err(FolderFault::Open(fault)),
    }
}

/// Closes a table that was opened: it was shown, or there was no memory to share it.
fn end<W: World, F: Files<W>>(
    alloc: Global,
    shown: Result<FolderTable<Checkout<Global, W, F>>, Checkout<Global, W, F>>,
) -> SharedFolderEnding<F>
    ensures { Ends W.World F.Files shown result }
{
    match shown {
        Err(table) => {
            let Closed { files, unclosed } = close(alloc, table);
            SharedFolderEnding {
                files,
                unstored: None,
                unclosed,
                outcome: Err(FolderFault::Open(OpenFault::Memory)),
            }
        }
        Ok(
            FolderTable {
                table,
                said,
                unstored,
            },
        ) => {
            let Closed { files, unclosed } = close(alloc, table);
            SharedFolderEnding {
                files,
                unstored,
                unclosed,
                outcome: first_fault(said, unstored, unclosed),
            }
        }
    }
}

/// Opens, shows and closes, with ties of the name that the caller picked.
fn live_tied<
    J: Naming + Send,
    W: World + Send,
    F: Files<W> + Send,
    H: History + Send,
    S: Source<W> + Send + Drop,
    V: Receiver + Send + Drop,
    O: Sender + Send + Drop,
    G: Lines<V, O> + Sync,
    K: Clock + Send + Drop,
    R: Threads + Wait + Sync,
>(
    rt: &R,
    alloc: Global,
    backing: Backing<F, Vec<S>>,
    base: Base,
    config: &Config,
    history: H,
    ties: Ties,
    look: Look,
    clock: K,
    lines: &G,
) -> SharedFolderEnding<F>
    requires files { W.honest → MayOpen base.opening W.repository W.opening W.numbers base.root
        (F.stored backing.files) }
    requires empty { H.entries history ≡ [] }
    requires sources { config.now.passes ≤ length backing.source.items }
    requires ties { AreTied ties.lanes.items ties.ends.items config.now.passes }
    requires names { names_of ties.lanes.items ≡ J.names }
    ensures { LivesShared W.World F.Files V.Receiver O.Sender (G.comes lines.now) (H.limit history) base
        config.now look.manner backing.files result }
{
    let Backing {
        files,
        source: sources,
    } = backing;
    config.holds();
    match open::<W, Global, F>(alloc, alloc, files, base, config) {
        Err((fault, files)) => unopened(fault, files),
        Ok((room, table)) => {
            let Look { manner, times } = look;
            let shown = share_folder::<W, Checkout<Global, W, F>, Global, J, H, S, V, O, G, K, R>(
                rt, alloc, room, table, history, ties, sources, lines, manner, times, clock,
            );
            end::<W, F>(alloc, shown)
        }
    }
}

/// Opens an overlay over a commit's tree, answers the kernel's messages over it by a thread for each pass of the
/// settings but one, and closes it. There is a source for each pass.
///
/// Messages have their turns one after another, and none waits for an object that another message needs, unless the
/// object went again between a look and its turn, or the other message is a rename, and a directory above its old path
/// went from memory after that was looked up. The session ends when no more messages come, as after an unmount:
/// then all that waits is stored, and the overlay is closed, after a session's fault too, and if not all was stored,
/// with the same commit and the next inode number that was reached. Only if the close fails are the files left
/// without their state.
///
/// Errors are reported in `outcome`, the first in the order opening, session, last stores, close. That something wasn't
/// stored is reported in `unstored` whatever came first. If the overlay isn't opened, or there is no memory to share
/// it, no line is asked for.
pub fn live_shared_folder<
    W: World + Send,
    F: Files<W> + Send,
    H: History + Send,
    S: Source<W> + Send + Drop,
    V: Receiver + Send + Drop,
    O: Sender + Send + Drop,
    G: Lines<V, O> + Sync,
    K: Clock + Send + Drop,
    R: Threads + Wait + Sync,
>(
    rt: &R,
    alloc: Global,
    backing: Backing<F, Vec<S>>,
    base: Base,
    config: &Config,
    history: H,
    look: Look,
    clock: K,
    lines: &G,
) -> SharedFolderEnding<F>
    requires files { W.honest → MayOpen base.opening W.repository W.opening W.numbers base.root
        (F.stored backing.files) }
    requires empty { H.entries history ≡ [] }
    requires sources { config.now.passes ≤ length backing.source.items }
    ensures { LivesShared W.World F.Files V.Receiver O.Sender (G.comes lines.now) (H.limit history) base
        config.now look.manner backing.files result }
{
    let Ok(ties) = Ties::new(alloc, config.passes()) else {
        return unopened(OpenFault::Memory, backing.files);
    };
    live_tied::<Brand, W, F, H, S, V, O, G, K, R>(
        rt, alloc, backing, base, config, history, ties, look, clock, lines,
    )
}
