//! A session of one caller.
ghost use Rattle.std.specs.Prelude.{◌≡◌, []};
ghost use Rattle.eden_model.specs.Backing.{Backs};
ghost use Rattle.eden_wire.specs.Serving.{Session};
ghost use Rattle.eden_stdio_life.specs.Calls.{CallAnswers};
ghost use Rattle.eden_stdio_life.specs.Serving.{ServesCaller};

use crate::caller::Caller;
use eden_history::History;
use eden_model::World;
use eden_mount::{Attempts, Local, Mount, Room, Unloading};
use eden_source::Source;
use eden_wire::{SessionFault, session};
use std::alloc::{Allocator, Global};
use std::io::{Read, Write};

/// Answers each line of the reader on the writer, until the input ends or a line is no request.
///
/// Each request that is taken is served to its reply, and has its entry in the mount's history. One that isn't taken
/// changes nothing.
pub fn serve<
    W: World,
    S: Source<W> + Drop,
    T: Attempts<W> + Drop,
    A: Allocator,
    H: History,
    R: Read,
    O: Write,
>(
    alloc: Global,
    reader: &mut R,
    writer: &mut O,
    caller: &mut Caller<W, S, T, A, H>,
) -> Result<(), SessionFault>
    ensures { Session (CallAnswers S.fetched T.table W.honest H.copies) (caller.old, caller.new)
        (R.remaining reader.old, R.remaining reader.new) (O.contents writer.old, O.contents writer.new) result }
{
    session(alloc, reader, writer, caller)
}

/// What is left of a mount whose caller was served: its table and its source, and how the session ended.
#[derive(Drop)]
pub struct Served<T, S> {
    pub table: T,
    pub source: S,
    pub said: Result<(), SessionFault>,
}

/// Serves one caller over a table that shows the opening tree, and numbers that back the opening ones, in a mount of
/// that room, with an empty history.
pub fn serve_table<
    W: World,
    S: Source<W> + Drop,
    T: Attempts<W> + Drop,
    A: Allocator,
    H: History,
    R: Read,
    O: Write,
>(
    alloc: Global,
    room: Room<A>,
    table: T,
    history: H,
    source: S,
    reader: &mut R,
    writer: &mut O,
) -> Served<T, S>
    requires shown { W.honest → T.table.shown table ≡ W.opening }
    requires backed { W.honest → Backs W.numbers (T.table.numbers table) (T.table.next table) }
    requires empty { H.entries history ≡ [] }
    ensures { ServesCaller S.fetched T.table W.honest H.copies (H.limit history) W.opening W.numbers room table source
        (R.remaining reader.old, R.remaining reader.new) (O.contents writer.old, O.contents writer.new) result }
{
    let mount: Mount<W, T, A, H> = Mount::new(room, table, history);
    let mut caller = Caller::new(Local::new(alloc, mount, source, Unloading::usual()));
    let said = serve(alloc, reader, writer, &mut caller);
    let (mount, source) = caller.into_local().into_parts();
    mount.holds();
    Served {
        table: mount.into_table(),
        source,
        said,
    }
}
