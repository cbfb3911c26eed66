//! Mounts over files in memory that stop now and then.

ghost use Rattle.std.specs.Prelude.{◌≡◌, []};

use crate::waits::PASSES;
use eden_cache::ObjectCache;
use eden_checkout::{Checkout, OpenFault, Opening};
use eden_history::Kept;
use eden_model::{Id, Outside};
use eden_mount::{Config, Mount, Room};
use eden_overlay::{FilesFault, MemoryFiles, StopFiles};
use std::alloc::Global;
use std::cell::Cell;
use std::process::Abort;
use std::rc::Rc;
use test_samples::random;

/// How many keys may be in flight.
pub(crate) const FLIGHTS: u32 = 3;

pub(crate) type Stored = MemoryFiles<Outside>;

pub(crate) type Tree = Checkout<Global, Outside, StopFiles<Stored>>;

pub(crate) type Mounted = Mount<Outside, Tree, Global, Kept>;

/// What a mount is opened with: the commit's tree, how its files are opened, how many objects are cached, 1 to 8, and
/// the history's limit.
#[derive(Clone, Copy)]
pub(crate) struct Settings {
    pub(crate) root: Id,
    pub(crate) opening: Opening,
    pub(crate) objects: usize,
    pub(crate) history: u32,
}

/// A cache of this many objects.
fn cache(rt: &impl Abort, alloc: Global, objects: usize) -> ObjectCache<Global>
    ensures objects { result.objects ≡ [] }
    ensures sizes { result.sizes ≡ [] }
{
    assert!(rt; 1 <= objects && objects <= 8);
    match ObjectCache::new(alloc, objects, 1 << 20, 4) {
        Ok(cache) => cache,
        Err(_) => rt.abort(),
    }
}

fn room(rt: &impl Abort, alloc: Global, history: u32) -> Room<Global> {
    let config = Config::new(PASSES, FLIGHTS, history, 1, 1, 1).expect(rt, "within the limits");
    Room::new(alloc, alloc, &config).expect(rt, "memory")
}

/// The device stops after a few calls, or doesn't.
pub(crate) fn allow(calls: &Rc<Cell<u64>>, seed: &mut u64) {
    let few = u64::from(random(seed) % 32);
    calls.set(if few < 8 { few } else { u64::MAX });
}

/// Files that weren't opened, and why.
#[derive(Drop)]
pub(crate) struct Unopened {
    pub(crate) fault: OpenFault,
    pub(crate) files: Stored,
}

/// A table over these files, of which as many calls pass as the number allows.
fn open_tree(
    rt: &impl Abort,
    alloc: Global,
    files: Stored,
    calls: &Rc<Cell<u64>>,
    settings: Settings,
) -> Result<Tree, Unopened> {
    let files = StopFiles::new(files, calls.clone().expect(rt, "memory"));
    let cache = cache(rt, alloc, settings.objects);
    match Checkout::open_by(alloc, alloc, files, settings.root, cache, settings.opening) {
        Ok(tree) => Ok(tree),
        Err((fault, files)) => {
            let files = files.into_files();
            Err(Unopened { fault, files })
        }
    }
}

/// A mount over these files, of which as many calls pass as the number allows.
pub(crate) fn open(
    rt: &impl Abort,
    alloc: Global,
    files: Stored,
    calls: &Rc<Cell<u64>>,
    settings: Settings,
) -> Result<Mounted, Unopened> {
    let tree = open_tree(rt, alloc, files, calls, settings)?;
    let history = Kept::new(alloc, settings.history);
    Ok(Mount::new(room(rt, alloc, settings.history), tree, history))
}

/// A mount over files that can be opened.
pub(crate) fn opened(
    rt: &impl Abort,
    alloc: Global,
    files: Stored,
    calls: &Rc<Cell<u64>>,
    settings: Settings,
) -> Mounted {
    match open(rt, alloc, files, calls, settings) {
        Ok(mount) => mount,
        Err(_) => rt.abort(),
    }
}

/// A device that stopped works again.
fn mend(rt: &impl Abort, calls: &Rc<Cell<u64>>) {
    assert!(rt; calls.get() == 0);
    calls.set(u64::MAX);
}

/// A mount over files that may stop once while it is opened.
pub(crate) fn open_again(
    rt: &impl Abort,
    alloc: Global,
    files: Stored,
    calls: &Rc<Cell<u64>>,
    settings: Settings,
) -> Mounted {
    match open(rt, alloc, files, calls, settings) {
        Ok(mount) => mount,
        Err(Unopened { fault, files }) => {
            assert!(rt; fault == OpenFault::Device);
            mend(rt, calls);
            opened(rt, alloc, files, calls, settings)
        }
    }
}

/// The files of a table that can be closed.
fn closed(rt: &impl Abort, alloc: Global, tree: Tree) -> Stored {
    match tree.close(alloc) {
        Ok(files) => files.into_files(),
        Err(_) => rt.abort(),
    }
}

/// The files of a table that is closed, which may stop once meanwhile.
pub(crate) fn close(rt: &impl Abort, alloc: Global, tree: Tree, calls: &Rc<Cell<u64>>) -> Stored {
    match tree.close(alloc) {
        Ok(files) => files.into_files(),
        Err((fault, tree)) => {
            assert!(rt; fault == FilesFault::Device);
            mend(rt, calls);
            closed(rt, alloc, tree)
        }
    }
}
