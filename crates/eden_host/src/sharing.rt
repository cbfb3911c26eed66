//! Guests hosted over a table.
ghost use Rattle.std.specs.Prelude.{◌≡◌, [], length, IfOk, IfErr};
ghost use Rattle.eden_model.specs.Backing.{Backs};
ghost use Rattle.eden_mount.specs.Settings.{IsRoom};
ghost use Rattle.eden_shared.specs.Lanes.{names_of};
ghost use Rattle.eden_shared.specs.Opening.{AreTied};
ghost use Rattle.eden_shared.specs.Passes.{AreNewcomers, newcomers};
ghost use Rattle.eden_shared.specs.declared.account.Terms as declared;
ghost use Rattle.eden_host.specs.Sharing.{HostsTable, terms_at};

use crate::accepts::Accepts;
use crate::fault::HostFault;
use crate::fetchers::Fetchers;
use crate::hosting::{Hosted, host};
use eden_history::History;
use eden_model::World;
use eden_mount::{Attempts, Mount, Room, Unloading};
use eden_shared::{Naming, Pass, Shared, Ties};
use eden_source::Source;
use std::alloc::{Allocator, Global};
use std::io::{Read, Write};
use std::marker::{Send, Sync};
use std::sync::Wait;
use std::thread::Threads;

/// What is left of a table whose guests were hosted, and how that ended.
#[derive(Drop)]
pub struct HostedTable<T> {
    pub table: T,
    /// The first fault of listening or of a session.
    pub outcome: Result<(), HostFault>,
}

/// Shares a mount of that room over a table that shows the opening tree, and numbers that back the opening ones. The
/// only error is want of memory, and the table comes back.
pub fn share<W: World, T: Attempts<W> + Drop, A: Allocator, J: Naming, H: History>(
    alloc: Global,
    room: Room<A>,
    table: T,
    history: H,
    ties: Ties,
) -> Result<(Shared<W, T, A, J, H>, Vec<Pass<J>>), T>
    requires shown { W.honest → T.table.shown table ≡ W.opening }
    requires backed { W.honest → Backs W.numbers (T.table.numbers table) (T.table.next table) }
    requires room { IsRoom room }
    requires empty { H.entries history ≡ [] }
    requires ties { AreTied ties.lanes.items ties.ends.items room.queue.passes }
    requires names { names_of ties.lanes.items ≡ J.names }
    ensures count { length J.names ≡ room.queue.passes }
    ensures passes { IfOk result
        (λ o. o.1.items ≡ newcomers (terms_at T.table room (H.limit history) table) 1 room.queue.passes) }
    ensures err { IfErr result (λ t. t ≡ table) }
{
    let mount: Mount<W, T, A, H> = Mount::new(room, table, history);
    match Shared::<W, T, A, J, H>::open(alloc, mount, ties) {
        Err((_, mount)) => Err(mount.into_table()),
        Ok(opened) => Ok(opened),
    }
}

/// Hosts a guest for each pass of a shared mount, none of which was told anything.
fn host_passes<
    W: World + Send,
    T: Attempts<W> + Send + Drop,
    A: Allocator + Send,
    J: Naming + Send,
    H: History + Send,
    S: Source<W> + Send + Drop,
    I: Read + Send + Drop,
    O: Write + Send + Drop,
    L: Accepts<I, O> + Drop,
    R: Threads + Wait + Sync,
>(
    rt: &R,
    alloc: Global,
    listener: L,
    shared: Shared<W, T, A, J, H>,
    passes: Vec<Pass<J>>,
    fetchers: Fetchers<S>,
    unloading: Unloading,
) -> HostedTable<T>
where
    T::Place: Send,
    requires passes { AreNewcomers passes.items (length J.names) }
    ensures { (terms : declared.Terms) → passes.items ≡ newcomers terms 1 terms.passes
        → HostsTable T.table I.Read O.Write W.honest W.opening W.numbers terms result }
{
    let hosted = host(rt, alloc, listener, shared, passes, fetchers, unloading);
    let Hosted { mount, outcome } = hosted;
    match mount {
        Err(_) => unreachable!(),
        Ok(mount) => {
            mount.holds();
            let table = mount.into_table();
            HostedTable { table, outcome }
        }
    }
}

/// Hosts a guest for each pass of a mount of that room over a table that shows the opening tree, and numbers that back
/// the opening ones. The only error is want of memory to share it, before a client is listened for: the table comes
/// back.
pub fn host_table<
    W: World + Send,
    T: Attempts<W> + Send + Drop,
    A: Allocator + Send,
    J: Naming + Send,
    H: History + Send,
    S: Source<W> + Send + Drop,
    I: Read + Send + Drop,
    O: Write + Send + Drop,
    L: Accepts<I, O> + Drop,
    R: Threads + Wait + Sync,
>(
    rt: &R,
    alloc: Global,
    room: Room<A>,
    table: T,
    history: H,
    ties: Ties,
    listener: L,
    fetchers: Fetchers<S>,
    unloading: Unloading,
) -> Result<HostedTable<T>, T>
where
    T::Place: Send,
    requires shown { W.honest → T.table.shown table ≡ W.opening }
    requires backed { W.honest → Backs W.numbers (T.table.numbers table) (T.table.next table) }
    requires room { IsRoom room }
    requires empty { H.entries history ≡ [] }
    requires ties { AreTied ties.lanes.items ties.ends.items room.queue.passes }
    requires names { names_of ties.lanes.items ≡ J.names }
    ensures hosted { IfOk result (HostsTable T.table I.Read O.Write W.honest W.opening W.numbers
        (terms_at T.table room (H.limit history) table)) }
    ensures err { IfErr result (λ t. t ≡ table) }
{
    match share::<W, T, A, J, H>(alloc, room, table, history, ties) {
        Err(table) => Err(table),
        Ok(opened) => {
            let (shared, passes) = opened;
            Ok(host_passes(rt, alloc, listener, shared, passes, fetchers, unloading))
        }
    }
}
