// A look that waits for each directory on its way, and many reads that wait in one directory: how many names are
// compared, and how long the turns take, if each continues at its place and if each goes from the root.
ghost use Rattle.std.specs.Prelude.{◌≡◌};
ghost use Rattle.eden_ops.specs.Trails.{LeadsFor};

use crate::bench::Bench;
use crate::checkout::{Place as Stands, Tree, Use, add_request, do_all, opened};
use crate::name::{deep, turned};
use crate::tree::{ID, Order, framed_tree};
use eden_cache::{ObjectCache, Stock};
use eden_history::Counted;
use eden_inode::Inodes;
use eden_model::{Attempt, Id, Key, ObjKind, Origin, Outside, Request};
use eden_mount::{Config, Mount, Room};
use eden_object::{Object, id_of};
use eden_ops::{Place, attempt_from};
use eden_overlay::{MemoryFiles, Overlay};
use std::alloc::{AllocError, Global};
use std::io;

/// How many directories stand one inside the other.
const DEEPEST: u32 = 64;

/// The most entries of each of them.
const WIDEST: u32 = 1_000;

/// How many bytes the objects that are at hand have at most.
const CACHE_BYTES: u64 = 1 << 30;

/// How many callers wait in one directory.
const CALLERS: u32 = 64;

/// How many turns each of them has.
const TURNS: u32 = 1_000;

/// Where a later turn begins.
#[derive(Clone, Copy)]
enum Way {
    /// At the place where the one before waited.
    AtItsPlace,
    FromTheRoot,
}

/// The ways, and what is printed of each.
const WAYS: &[(Way, &str)] = &[
    (Way::AtItsPlace, "each turn at its place"),
    (Way::FromTheRoot, "each turn from the root"),
];

/// A mount over a tree in which callers wait.
type Waiting = Mount<Outside, Tree<MemoryFiles<Outside>>, Global, Counted>;

/// A table over no files with a cache, and how many names its attempts compared.
#[derive(Drop)]
struct Ground {
    table: Inodes<Global, Outside, MemoryFiles<Outside>>,
    cache: Stock<Outside, Global>,
    compared: u32,
}

/// A table of a commit of that root. None if there is no memory for a cache.
fn fresh(alloc: Global, root: Id) -> Option<Ground> {
    let overlay = Overlay::new(alloc, MemoryFiles::new(alloc));
    let cache = ObjectCache::new(alloc, 8, CACHE_BYTES, 8).ok()?;
    Some(Ground {
        table: Inodes::new(alloc, overlay, Origin::Object(root), 2),
        cache: Stock::new(cache),
        compared: 0,
    })
}

/// One turn, at the place that the one before left, if the way is so.
fn turn(
    alloc: Global,
    ground: &mut Ground,
    request: &Request,
    way: Way,
    place: &mut Place,
) -> Attempt
    requires { LeadsFor request.now ground.old.table.changes ground.old.table.root place.old }
    ensures { LeadsFor request.now ground.new.table.changes ground.new.table.root place.new }
{
    let cache = &mut ground.cache;
    let compared = &mut ground.compared;
    let attempt = attempt_from(&mut ground.table, cache, alloc, request, place, compared);
    if let Way::FromTheRoot = way {
        place.forget();
    }
    attempt
}

/// Puts a tree in. False if it is none, or if memory is refused.
fn bring(alloc: Global, ground: &mut Ground, framed: &[u8]) -> Result<bool, AllocError>
    ensures { ground.new.table ≡ ground.old.table }
{
    let key = Key {
        kind: ObjKind::Tree,
        id: id_of(framed),
    };
    match Object::checked(alloc, key, Vec::from_slice(alloc, framed)?) {
        Err(_) => Ok(false),
        Ok(object) => Ok(ground.cache.put(key, object).is_ok()),
    }
}

/// The turns of a request, after each of which one tree more comes. How many there were.
fn go_down(
    alloc: Global,
    ground: &mut Ground,
    request: &Request,
    way: Way,
    place: &mut Place,
    trees: &[Vec<u8>],
) -> Result<u32, AllocError>
    requires { LeadsFor request.now ground.old.table.changes ground.old.table.root place.old }
{
    match turn(alloc, ground, request, way, place) {
        Attempt::Finished(_) => Ok(1),
        Attempt::Need(_) => match trees.split_first() {
            None => Ok(1),
            Some((tree, below)) => {
                bring(alloc, ground, tree.as_slice())?;
                let turns = go_down(alloc, ground, request, way, place, below)?;
                Ok(turns.saturating_add(1))
            }
        },
    }
}

/// The trees of a commit from its root on, each with this many entries, of which the first is the next tree.
fn chain(alloc: Global, count: u32) -> Result<Vec<Vec<u8>>, AllocError> {
    let mut trees = Vec::new(alloc);
    let mut below = ID;
    for _ in 0..DEEPEST {
        let tree = framed_tree(alloc, Order::Chain(below), count)?;
        below = id_of(tree.as_slice());
        trees.push(tree)?;
    }
    trees.reverse();
    Ok(trees)
}

/// A request on such a table, whose trees come one by one.
fn measure_turns(
    bench: Bench,
    ground: &mut Ground,
    request: &Request,
    way: Way,
    what: &str,
    trees: &[Vec<u8>],
) -> io::Result<()> {
    let start = bench.start();
    let mut place = Place::new();
    let turns = go_down(bench.alloc(), ground, request, way, &mut place, trees)?;
    println!(bench.rt;
        "  {what}: {turns} turns compared {} names",
        ground.compared
    )?;
    bench.time(what, start)
}

/// A request below all these trees, which come one by one.
fn measure_chain(
    bench: Bench,
    request: &Request,
    way: Way,
    what: &str,
    trees: &[Vec<u8>],
) -> io::Result<()> {
    let Some(root) = trees.first() else {
        return Ok(());
    };
    match fresh(bench.alloc(), id_of(root.as_slice())) {
        None => Ok(()),
        Some(mut ground) => measure_turns(bench, &mut ground, request, way, what, trees),
    }
}

/// A request below all these trees, each way.
fn measure_ways(bench: Bench, request: &Request, trees: &[Vec<u8>]) -> io::Result<()> {
    for (way, what) in WAYS {
        measure_chain(bench, request, *way, what, trees)?;
    }
    Ok(())
}

/// A look below all these trees, each way.
fn measure_look(bench: Bench, trees: &[Vec<u8>]) -> io::Result<()> {
    match deep(bench.alloc(), DEEPEST)? {
        None => Ok(()),
        Some(path) => {
            let request = Request::Kind(path);
            let told = measure_ways(bench, &request, trees);
            drop(request);
            told
        }
    }
}

/// Reads of files in one directory, each of another file.
fn reads(alloc: Global, count: u32) -> Result<Vec<Request>, AllocError> {
    let mut reads = Vec::new(alloc);
    for caller in 0..CALLERS {
        let number = turned(caller, 7_919, count);
        add_request(
            alloc,
            &mut reads,
            Stands::Directory,
            number,
            Use::Read(0, 1),
        )?;
    }
    Ok(reads)
}

/// How long a turn takes if each goes from the root.
fn time_from_the_root(
    bench: Bench,
    tree: &mut Tree<MemoryFiles<Outside>>,
    reads: &[Request],
) -> io::Result<()> {
    do_all(bench.alloc(), tree, reads);
    let start = bench.start();
    for _ in 0..TURNS {
        do_all(bench.alloc(), tree, reads);
    }
    let turns = TURNS.saturating_mul(CALLERS);
    bench.time_each("a turn from the root", start, turns)
}

/// Room for a mount of all callers. None if memory is refused.
fn room(alloc: Global) -> Option<Room<Global>> {
    let config = Config::new(CALLERS, 1, CALLERS, 1, 1, 1)?;
    Room::new(alloc, alloc, &config).ok()
}

/// Each pass starts one of the reads, and has a turn.
fn start_all(mount: &mut Waiting, reads: Vec<Request>) {
    let mut pass = 0u32;
    for read in reads {
        pass = pass.saturating_add(1);
        if mount.start(pass, read).is_ok() {
            mount.turn(pass);
        }
    }
}

/// A turn of each pass.
fn turn_all(mount: &mut Waiting) {
    for pass in 1..=CALLERS {
        mount.turn(pass);
    }
}

/// How long a turn takes if each continues at its pass's place.
fn time_at_their_places(bench: Bench, mount: &mut Waiting, reads: Vec<Request>) -> io::Result<()> {
    start_all(mount, reads);
    let start = bench.start();
    for _ in 0..TURNS {
        turn_all(mount);
    }
    let turns = TURNS.saturating_mul(CALLERS);
    bench.time_each("a turn at its place", start, turns)
}

/// How long a turn takes on a mount over the tree, whose passes wait in it.
fn time_on_a_mount(
    bench: Bench,
    tree: Tree<MemoryFiles<Outside>>,
    reads: Vec<Request>,
) -> io::Result<()> {
    match room(bench.alloc()) {
        None => Ok(()),
        Some(room) => {
            let mut mount = Waiting::new(room, tree, Counted::new(bench.alloc()));
            time_at_their_places(bench, &mut mount, reads)
        }
    }
}

/// How long a turn takes from the root, and if each continues at its place.
fn time_callers(
    bench: Bench,
    mut tree: Tree<MemoryFiles<Outside>>,
    reads: Vec<Request>,
) -> io::Result<()> {
    match time_from_the_root(bench, &mut tree, reads.as_slice()) {
        Ok(()) => time_on_a_mount(bench, tree, reads),
        Err(fault) => {
            drop(reads);
            drop(tree);
            Err(fault)
        }
    }
}

/// Callers that wait for files of one directory with this many.
fn measure_callers(bench: Bench, count: u32) -> io::Result<()> {
    println!(bench.rt; "{CALLERS} callers in a directory of {count} files")?;
    let reads = reads(bench.alloc(), count)?;
    let files = MemoryFiles::new(bench.alloc());
    match opened(bench.alloc(), files, count)? {
        None => println!(bench.rt; "  not opened"),
        Some(tree) => time_callers(bench, tree, reads),
    }
}

/// Waits on the way down, and in a directory of this many entries.
pub fn run(bench: Bench, count: u32) -> io::Result<()> {
    let width = count.min(WIDEST);
    println!(bench.rt;
        "a look below {DEEPEST} directories of {width} entries that come one by one"
    )?;
    let trees = chain(bench.alloc(), width)?;
    measure_look(bench, trees.as_slice())?;
    measure_callers(bench, count)
}
