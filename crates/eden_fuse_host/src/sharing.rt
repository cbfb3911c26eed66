//! A folder shown over a table, by several threads.
ghost use Rattle.std.specs.Prelude.{◌≡◌, ◌≤◌, [], length, IfOk, IfErr};
ghost use Rattle.eden_model.specs.Backing.{Backs};
ghost use Rattle.eden_mount.specs.Settings.{IsRoom};
ghost use Rattle.eden_shared.specs.Lanes.{names_of};
ghost use Rattle.eden_shared.specs.Opening.{AreTied};
ghost use Rattle.eden_shared.specs.Passes.{AreEach, newcomers};
ghost use Rattle.eden_shared.specs.declared.account.Terms as declared;
ghost use Rattle.eden_host.specs.Sharing.{terms_at};
ghost use Rattle.eden_fuse_host.specs.Sharing.{ShowsTable};

use crate::lines::Lines;
use crate::showing::show_by;
use eden_fuse_session::{Receiver, Sender, SessionFault};
use eden_fuse_shown::{Manner, Times};
use eden_history::History;
use eden_host::share;
use eden_model::World;
use eden_mount::{Attempts, Room};
use eden_shared::{Naming, Pass, Shared, Ties};
use eden_source::Source;
use std::alloc::{Allocator, Global};
use std::marker::{Send, Sync};
use std::rt::Clock;
use std::sync::Wait;
use std::thread::Threads;

/// What is left of a table that was shown as a folder, and how that ended.
#[derive(Drop)]
pub struct FolderTable<T> {
    pub table: T,
    /// The first fault of a thread's session.
    pub said: Result<(), SessionFault>,
    /// The number of the first error that a store met after the sessions; None if all that waited was stored.
    pub unstored: Option<u32>,
}

/// Shows a shared mount by its passes, none of which was told anything.
fn show_passes<
    W: World + Send,
    T: Attempts<W> + Send + Drop,
    A: Allocator + Send,
    J: Naming + Send,
    H: History + Send,
    S: Source<W> + Send + Drop,
    V: Receiver + Send + Drop,
    O: Sender + Send + Drop,
    G: Lines<V, O> + Sync,
    K: Clock + Send + Drop,
    R: Threads + Wait + Sync,
>(
    rt: &R,
    alloc: Global,
    shared: Shared<W, T, A, J, H>,
    passes: Vec<Pass<J>>,
    sources: Vec<S>,
    lines: &G,
    manner: Manner,
    times: Times,
    clock: K,
) -> FolderTable<T>
where
    T::Place: Send,
    requires some { 1 ≤ length passes.items }
    requires sources { length passes.items ≤ length sources.items }
    requires each { AreEach passes.items (length J.names) }
    ensures { (terms : declared.Terms) → passes.items ≡ newcomers terms 1 terms.passes
        → ShowsTable V.Receiver O.Sender (G.comes lines.now) T.table W.honest W.opening W.numbers terms manner result }
{
    let (passes, said, unstored) = show_by::<W, J, Shared<W, T, A, J, H>, S, V, O, G, K, R>(
        rt, alloc, &shared, lines, passes, sources, manner, times, clock,
    );
    match shared.finish(passes) {
        Err(_torn) => unreachable!(),
        Ok(mount) => {
            mount.holds();
            let table = mount.into_table();
            FolderTable {
                table,
                said,
                unstored,
            }
        }
    }
}

/// Shows a mount of that room over a table that shows the opening tree, and numbers that back the opening ones, by a
/// thread for each of its passes but one, until no more messages come; then all that waits is stored. Each thread has a
/// line and a source of its own, and one source is for turns whose objects went again. The only error is want of memory
/// to share the mount, before a line is asked for: the table comes back.
pub fn share_folder<
    W: World + Send,
    T: Attempts<W> + Send + Drop,
    A: Allocator + Send,
    J: Naming + Send,
    H: History + Send,
    S: Source<W> + Send + Drop,
    V: Receiver + Send + Drop,
    O: Sender + Send + Drop,
    G: Lines<V, O> + Sync,
    K: Clock + Send + Drop,
    R: Threads + Wait + Sync,
>(
    rt: &R,
    alloc: Global,
    room: Room<A>,
    table: T,
    history: H,
    ties: Ties,
    sources: Vec<S>,
    lines: &G,
    manner: Manner,
    times: Times,
    clock: K,
) -> Result<FolderTable<T>, T>
where
    T::Place: Send,
    requires shown { W.honest → T.table.shown table ≡ W.opening }
    requires backed { W.honest → Backs W.numbers (T.table.numbers table) (T.table.next table) }
    requires room { IsRoom room }
    requires empty { H.entries history ≡ [] }
    requires ties { AreTied ties.lanes.items ties.ends.items room.queue.passes }
    requires names { names_of ties.lanes.items ≡ J.names }
    requires sources { room.queue.passes ≤ length sources.items }
    ensures shown { IfOk result (ShowsTable V.Receiver O.Sender (G.comes lines.now) T.table W.honest W.opening W.numbers
        (terms_at T.table room (H.limit history) table) manner) }
    ensures err { IfErr result (λ t. t ≡ table) }
{
    match share::<W, T, A, J, H>(alloc, room, table, history, ties) {
        Err(table) => Err(table),
        Ok(opened) => {
            let (shared, passes) = opened;
            Ok(show_passes(
                rt, alloc, shared, passes, sources, lines, manner, times, clock,
            ))
        }
    }
}
