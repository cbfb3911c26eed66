//! A mount whose directories, cache and queue lie in a heap with little room. What finds none is told at its call and
//! changes nothing, and once there is room all continues.

ghost use Rattle.std.specs.Prelude.{◌≡◌, []};

use eden_cache::ObjectCache;
use eden_checkout::Checkout;
use eden_history::Kept;
use eden_model::{Cause, Fault, Key, Outside, Path, Reply, Request};
use eden_mount::{Arrived, Config, Mount, Room, Turned};
use eden_oracle::WholeTree;
use eden_overlay::MemoryFiles;
use eden_wire::{Item, read_request};
use linked_list_allocator::LocalHeap;
use std::alloc::Global;
use std::process::Abort;
use test_random::{Commit, all_looks, is_seen};

/// How many bytes the heap has: more than a run takes.
const HEAP: usize = 1 << 15;

/// How far apart two rooms are: a block's sizes are multiples of this.
const STEP: usize = 16;

/// The most turns of one request.
const TURNS: u32 = 1_000;

/// How many entries a history may have.
const HISTORY: u32 = 1_000;

/// Reads of all files, and one of each change. The two passes of a row are pending at the same time.
const ROWS: &[[&str; 2]] = &[
    ["read /bak/test.txt 0 100", "read /new.txt 0 100"],
    ["read /test.txt 0 100", "stat /bak/test.txt"],
    ["create /sub", "list / - 10"],
    ["unlink /sub", "list /bak - 10"],
    ["mkdir /sub", "setexec /test.txt 1"],
    ["write /new.txt 3 616263", "symlink /sub/new.txt 612f62"],
    ["truncate /bak/test.txt 3", "create /sub/sub"],
    ["rename /bak /sub/bak", "mkdir /bak"],
    ["rmdir /bak", "read /sub/bak/test.txt 0 100"],
];

/// Where a want of memory was seen.
#[derive(Clone, Copy, PartialEq, Eq)]
enum Seen {
    Cache,
    Queue,
    Turn,
    Arrival,
}

type Stored = MemoryFiles<Outside>;

type Tree<'h> = Checkout<&'h LocalHeap, Outside, Stored>;

type Mounted<'h> = Mount<Outside, Tree<'h>, &'h LocalHeap, Kept>;

/// A commit, the whole tree after all that was done to it, and a heap whose rest is taken until a want was seen.
#[derive(Drop)]
struct Trial<'h> {
    alloc: Global,
    commit: Commit,
    tree: WholeTree,
    heap: &'h LocalHeap,
    rest: Option<Vec<u8, &'h LocalHeap>>,
    seen: Option<Seen>,
}

impl<'h> Trial<'h> {
    /// The sample commit, and a heap that has room for this many bytes.
    fn new(rt: &impl Abort, alloc: Global, heap: &'h LocalHeap, room: usize) -> Trial<'h> {
        let commit = Commit::two_files(alloc).expect(rt, "a commit");
        let tree = commit.whole(alloc).expect(rt, "a tree");
        let rest = Vec::with_capacity(heap, HEAP.saturating_sub(room));
        Trial {
            alloc,
            commit,
            tree,
            heap,
            rest: Some(rest.expect(rt, "the heap")),
            seen: None,
        }
    }

    /// Memory was wanted, once. From now on there is room.
    fn want(&mut self, rt: &impl Abort, seen: Seen) {
        assert!(rt; self.seen.is_none());
        self.seen = Some(seen);
        self.rest = None;
    }
}

fn cache<'h>(rt: &impl Abort, trial: &mut Trial<'h>) -> ObjectCache<&'h LocalHeap>
    ensures objects { result.objects ≡ [] }
    ensures sizes { result.sizes ≡ [] }
{
    if let Ok(cache) = ObjectCache::new(trial.heap, 2, 1 << 20, 8) {
        return cache;
    }
    trial.want(rt, Seen::Cache);
    match ObjectCache::new(trial.heap, 2, 1 << 20, 8) {
        Ok(cache) => cache,
        Err(_) => rt.abort(),
    }
}

fn room<'h>(rt: &impl Abort, trial: &mut Trial<'h>) -> Room<&'h LocalHeap> {
    let config = Config::new(2, 2, HISTORY, 1, 1, 1).expect(rt, "within the limits");
    if let Ok(room) = Room::new(trial.alloc, trial.heap, &config) {
        return room;
    }
    trial.want(rt, Seen::Queue);
    Room::new(trial.alloc, trial.heap, &config).expect(rt, "memory")
}

/// A mount over these files.
fn open<'h>(rt: &impl Abort, trial: &mut Trial<'h>, files: Stored) -> Mounted<'h> {
    let room = room(rt, trial);
    let cache = cache(rt, trial);
    match Checkout::open(trial.alloc, trial.heap, files, trial.commit.root(), cache) {
        Ok(tree) => Mount::new(room, tree, Kept::new(trial.alloc, HISTORY)),
        Err(_) => rt.abort(),
    }
}

/// The object of the key is handed in.
fn arrive<'h>(rt: &impl Abort, trial: &mut Trial<'h>, mount: &mut Mounted<'h>, key: Key) {
    let framed = trial.commit.framed(key.id).expect(rt, "an object");
    let framed = framed.to_vec(trial.alloc).expect(rt, "memory");
    match mount.arrive(key, framed) {
        Arrived::Stored => {}
        Arrived::Refused(cause) => {
            assert!(rt; cause == Cause::Memory);
            trial.want(rt, Seen::Arrival);
        }
        Arrived::Stray => rt.abort(),
    }
}

/// The reply to the pass's pending request.
fn answer<'h>(rt: &impl Abort, trial: &mut Trial<'h>, mount: &mut Mounted<'h>, pass: u32) -> Reply {
    for _ in 0..TURNS {
        if let Turned::Done(_, reply) = mount.turn(pass) {
            return reply;
        }
        if let Some(key) = mount.take_want() {
            arrive(rt, trial, mount, key);
        }
    }
    None.expect(rt, "a reply")
}

/// The request of a line.
fn request(rt: &impl Abort, alloc: Global, line: &str) -> Request {
    match read_request(alloc, line.as_bytes()).expect(rt, "memory") {
        Item::Asks(request) => request,
        Item::Refuses(_) | Item::Bad => None.expect(rt, "a request"),
    }
}

fn start<'h>(rt: &impl Abort, trial: &Trial<'h>, mount: &mut Mounted<'h>, pass: u32, line: &str) {
    assert!(rt; mount.start(pass, request(rt, trial.alloc, line)).is_ok());
}

/// The oracle allows the reply, and continues by it.
fn follow(rt: &impl Abort, trial: &mut Trial, request: &Request, reply: &Reply) {
    let allows = trial.tree.allows(trial.alloc, request, reply);
    assert!(rt; allows.expect(rt, "memory"));
}

/// A reply is the oracle's, or a want, which changes nothing.
fn check(rt: &impl Abort, trial: &mut Trial, request: &Request, reply: &Reply) {
    match reply {
        Reply::Fault(Fault::Memory) => trial.want(rt, Seen::Turn),
        Reply::Fault(Fault::Fetch(_, cause)) => {
            assert!(rt; *cause == Cause::Memory && trial.seen == Some(Seen::Arrival));
        }
        _ => follow(rt, trial, request, reply),
    }
}

/// The pass's pending request, which is the line's, is answered.
fn finish<'h>(
    rt: &impl Abort,
    trial: &mut Trial<'h>,
    mount: &mut Mounted<'h>,
    pass: u32,
    line: &str,
) {
    let reply = answer(rt, trial, mount, pass);
    let asked = request(rt, trial.alloc, line);
    check(rt, trial, &asked, &reply);
}

/// Both passes ask, and are answered.
fn ask<'h>(rt: &impl Abort, trial: &mut Trial<'h>, mount: &mut Mounted<'h>, row: &[&str; 2]) {
    start(rt, trial, mount, 1, row[0]);
    start(rt, trial, mount, 2, row[1]);
    finish(rt, trial, mount, 1, row[0]);
    finish(rt, trial, mount, 2, row[1]);
}

/// Every directory may go.
fn unload(rt: &impl Abort, alloc: Global, mount: &mut Mounted) {
    let root = Path::new(Vec::new(alloc)).expect(rt, "the root");
    mount.unload(&root, 0);
    assert!(rt; mount.unload(&root, 0) == 0);
}

fn close(rt: &impl Abort, alloc: Global, mount: Mounted) -> Stored {
    match mount.into_table().close(alloc) {
        Ok(files) => files,
        Err(_) => rt.abort(),
    }
}

/// What a look at all of the oracle's tree is answered.
fn look<'h>(rt: &impl Abort, trial: &mut Trial<'h>, mount: &mut Mounted<'h>, asked: &Request) {
    let copy = asked.copy(trial.alloc).expect(rt, "memory");
    assert!(rt; mount.start(1, copy).is_ok());
    let reply = answer(rt, trial, mount, 1);
    let is_seen = is_seen(trial.alloc, &mut trial.tree, asked, &reply);
    assert!(rt; is_seen.expect(rt, "memory"));
}

/// Files that were closed show the oracle's tree, once there is room.
fn show<'h>(rt: &impl Abort, trial: &mut Trial<'h>, files: Stored) {
    trial.rest = None;
    let mut mount = open(rt, trial, files);
    let looks = all_looks(trial.alloc, &mut trial.tree).expect(rt, "memory");
    for asked in &looks {
        look(rt, trial, &mut mount, asked);
    }
    close(rt, trial.alloc, mount);
}

/// A life in the heap, and the next one. Where memory was wanted.
fn live(rt: &impl Abort, alloc: Global, heap: &LocalHeap, room: usize) -> Option<Seen> {
    let mut trial = Trial::new(rt, alloc, heap, room);
    let mut mount = open(rt, &mut trial, MemoryFiles::new(alloc));
    for row in ROWS {
        ask(rt, &mut trial, &mut mount, row);
    }
    unload(rt, alloc, &mut mount);
    let files = close(rt, alloc, mount);
    show(rt, &mut trial, files);
    trial.seen
}

/// Where memory is wanted in a life that has room for this many bytes, which are given back.
fn seen_in(rt: &impl Abort, alloc: Global, room: usize) -> Option<Seen> {
    let heap = LocalHeap::new(alloc, HEAP).expect(rt, "memory");
    let seen = live(rt, alloc, &heap, room);
    assert!(rt; heap.used() == 0);
    seen
}

#[test]
fn each_want_is_told_once(rt: HostRuntime) {
    let mut met = [false; 4];
    for room in 0..HEAP / STEP {
        match seen_in(&rt, rt.alloc(), room * STEP) {
            Some(Seen::Cache) => met[0] = true,
            Some(Seen::Queue) => met[1] = true,
            Some(Seen::Turn) => met[2] = true,
            Some(Seen::Arrival) => met[3] = true,
            None => break,
        }
    }
    assert!(rt; met == [true; 4]);
}
