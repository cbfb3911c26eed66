//! Mounts of checkouts over files in memory, as they are shared, and what their objects come from.

ghost use Rattle.std.specs.Prelude.{◌≡◌, [], length};
ghost use Rattle.eden_mount.specs.Serving.{IsAtRest};
ghost use Rattle.eden_shared.specs.Lanes.{names_of};
ghost use Rattle.eden_shared.specs.Opening.{AreTied, IsUnused};
ghost use Rattle.eden_shared.specs.Passes.{AreNewcomers};

use eden_cache::ObjectCache;
use eden_checkout::Checkout;
use eden_history::Kept;
use eden_host::{Accepts, Fetchers, Hosted, host};
use eden_model::{Cause, Id, Outside};
use eden_mount::{Attempts, Config, Mount, Room, Unloading};
use eden_overlay::MemoryFiles;
use eden_shared::{Naming, Pass, Shared, Ties};
use eden_source::Source;
use std::alloc::Global;
use std::io::{Read, Write};
use std::process::Abort;
use std::sync::Wait;
use std::thread::Threads;
use test_random::Commit;

pub(crate) type Stored = MemoryFiles<Outside>;

pub(crate) type Tree = Checkout<Global, Outside, Stored>;

pub(crate) type Mounted = Mount<Outside, Tree, Global, Kept>;

pub(crate) type Held<J> = Shared<Outside, Tree, Global, J, Kept>;

/// How large a mount is.
#[derive(Clone, Copy)]
pub(crate) struct Size {
    pub(crate) passes: u32,
    /// How many keys may be in flight.
    pub(crate) flights: u32,
    /// How many entries its history may have.
    pub(crate) history: u32,
    /// How many objects are cached, 1 to 8.
    pub(crate) objects: usize,
}

/// A cache of this many objects.
fn cache(rt: &impl Abort, alloc: Global, objects: usize) -> ObjectCache<Global>
    ensures objects { result.objects ≡ [] }
    ensures sizes { result.sizes ≡ [] }
{
    assert!(rt; 1 <= objects && objects <= 8);
    match ObjectCache::new(alloc, objects, 1 << 20, 4) {
        Ok(cache) => cache,
        Err(_) => rt.abort(),
    }
}

/// A mount of the commit over these files.
pub(crate) fn mount(rt: &impl Abort, alloc: Global, files: Stored, root: Id, size: Size) -> Mounted
    ensures rest { IsAtRest result }
    ensures unused { IsUnused result }
    ensures passes { result.queue.passes ≡ size.passes }
{
    let config = Config::new(size.passes, size.flights, size.history, 1, 1, 1);
    let config = config.expect(rt, "within the limits");
    let room = Room::new(alloc, alloc, &config).expect(rt, "memory");
    let mount = match Checkout::open(alloc, alloc, files, root, cache(rt, alloc, size.objects)) {
        Ok(tree) => Mount::new(room, tree, Kept::new(alloc, size.history)),
        Err(_) => rt.abort(),
    };
    match mount.busy() {
        None => mount,
        Some(_) => rt.abort(),
    }
}

/// A mount of the commit over no files, as it is shared, and its passes.
pub(crate) fn open<J: Naming>(
    rt: &impl Abort,
    alloc: Global,
    root: Id,
    size: Size,
    ties: Ties,
) -> (Held<J>, Vec<Pass<J>>)
    requires ties { AreTied ties.lanes.items ties.ends.items size.passes }
    requires names { names_of ties.lanes.items ≡ J.names }
    ensures { AreNewcomers result.1.items (length J.names) }
{
    let mount = mount(rt, alloc, MemoryFiles::new(alloc), root, size);
    match Held::<J>::open(alloc, mount, ties) {
        Ok(opened) => opened,
        Err(_) => rt.abort(),
    }
}

/// Serves a guest for each pass, whose sessions all end well. The mount then.
pub(crate) fn serve<
    J: Naming + Send,
    S: Source<Outside> + Send + Drop,
    I: Read + Send + Drop,
    O: Write + Send + Drop,
    L: Accepts<I, O> + Drop,
    R: Threads + Wait + Abort + Sync,
>(
    rt: &R,
    alloc: Global,
    listener: L,
    shared: Held<J>,
    passes: Vec<Pass<J>>,
    sources: Vec<S>,
    unloading: Unloading,
) -> Mounted
    requires { AreNewcomers passes.items (length J.names) }
{
    assert!(rt; !sources.is_empty());
    let fetchers = Fetchers::new(sources);
    let hosted = host(rt, alloc, listener, shared, passes, fetchers, unloading);
    let Hosted { mount, outcome } = hosted;
    assert!(rt; outcome.is_ok());
    match mount {
        Ok(mount) => mount,
        Err(_) => rt.abort(),
    }
}

/// The files of a mount whose table is closed.
pub(crate) fn close(rt: &impl Abort, alloc: Global, mount: Mounted) -> Stored {
    match mount.into_table().close(alloc) {
        Ok(files) => files,
        Err(_) => rt.abort(),
    }
}

/// A commit's objects, as its repository has them.
#[derive(Drop)]
pub(crate) struct Objects<'a> {
    pub(crate) commit: &'a Commit,
}

impl<'a> Source<Outside> for Objects<'a> {
    ghost fetched = { λ _ _ _ _. Unit {0} };

    ghost failures = { λ _. 0 };

    fn failures(&self) -> u64 {
        0
    }

    fn fetch(&mut self, alloc: Global, id: Id) -> Result<Vec<u8>, Cause> {
        let framed = self.commit.framed(id).ok_or(Cause::Missing)?;
        Vec::from_slice(alloc, framed).map_err(|_| Cause::Memory)
    }
}

/// Fetches the commit's objects until the mount is stopped and nothing is pending.
pub(crate) fn fetch<T: Attempts<Outside> + Drop, J: Naming>(
    rt: &impl Wait,
    shared: &Shared<Outside, T, Global, J, Kept>,
    commit: &Commit,
) {
    shared.fetch_all(rt, &mut Objects { commit });
}
