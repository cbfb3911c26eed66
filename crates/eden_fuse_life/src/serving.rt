//! A session with the kernel over a table.
ghost use Rattle.std.specs.Prelude.{◌≡◌, []};
ghost use Rattle.eden_model.specs.Backing.{Backs};
ghost use Rattle.eden_fuse_life.specs.Serving.{ServesFolder, line_of};

use crate::asking::Asking;
use eden_fuse_session::{Receiver, Sender, SessionFault, session};
use eden_fuse_shown::{Manner, Shown, Times};
use eden_history::History;
use eden_model::World;
use eden_mount::{Attempts, Local, Mount, Room, Unloading};
use eden_source::Source;
use std::alloc::{Allocator, Global};
use std::rt::Clock;

/// How a folder looks, and since when.
#[derive(Drop)]
pub struct Look {
    pub manner: Manner,
    /// When all was changed that the session doesn't change.
    pub times: Times,
}

/// What is left of a mount whose folder was served: its table and its source, how the session ended, and whether all
/// that waited then was stored.
#[derive(Drop)]
pub struct ServedFolder<T, S> {
    pub table: T,
    pub source: S,
    pub said: Result<(), SessionFault>,
    /// The number of the first error that a store met after the session; None if all that waited was stored.
    pub unstored: Option<u32>,
}

/// Shows a table that shows the opening tree, and numbers that back the opening ones, in a mount of that room, with an
/// empty history, until no more messages come.
pub fn serve_folder<
    W: World,
    S: Source<W> + Drop,
    T: Attempts<W> + Drop,
    A: Allocator,
    H: History,
    K: Clock + Drop,
    V: Receiver,
    C: Sender,
>(
    alloc: Global,
    room: Room<A>,
    table: T,
    history: H,
    source: S,
    look: Look,
    clock: K,
    receiver: &mut V,
    sender: &mut C,
) -> ServedFolder<T, S>
    requires shown { W.honest → T.table.shown table ≡ W.opening }
    requires backed { W.honest → Backs W.numbers (T.table.numbers table) (T.table.next table) }
    requires empty { H.entries history ≡ [] }
    ensures { ServesFolder W.World S.fetched T.table H.copies (H.limit history) look.manner room table source
        (line_of C.Sender sender.old) (line_of C.Sender sender.new)
        (V.waiting receiver.old) (V.waiting receiver.new) result }
{
    let mount: Mount<W, T, A, H> = Mount::new(room, table, history);
    let asking = Asking::new(alloc, Local::new(alloc, mount, source, Unloading::usual()));
    let Look { manner, times } = look;
    let mut shown = Shown::new(alloc, asking, clock, manner, times);
    let said = session(alloc, receiver, sender, &mut shown);
    let (asking, unstored) = shown.into_mount();
    let (mount, source) = asking.into_local().into_parts();
    mount.holds();
    ServedFolder {
        table: mount.into_table(),
        source,
        said,
        unstored,
    }
}
