//! A checkout over files in memory, from its opening to its close.
ghost use Rattle.std.specs.Prelude.{◌≡◌, []};
ghost use Rattle.eden_cache.specs.Cache.{IsByteBound};

use eden_cache::ObjectCache;
use eden_checkout::{Checkout, OpenFault, TidyFault, tidy};
use eden_model::{Attempt, Bytes, Key, Kind, Name, Outside, Path, Reply, Request};
use eden_mount::Attempts;
use eden_object::Object;
use eden_overlay::{Files, MemoryFiles, Overlay, Removed, StopFiles};
use eden_overlay_format::Refusal;
use std::alloc::Global;
use std::cell::Cell;
use std::process::Abort;
use std::rc::Rc;
use test_samples::{ONE_FILE, Sample, TWO_FILES, VERSION_1};

type Stored = MemoryFiles<Outside>;

type Tree = Checkout<Global, Outside, Stored>;

/// A request of the commit's one file, and its answer.
#[derive(Clone, Copy)]
enum Step {
    Write(u64, &'static [u8], Want),
    Read(Want),
    /// What stands there, of the root and of the file.
    StatRoot(Want),
    Stat(Want),
    /// The object comes.
    Put(Sample),
}

#[derive(Clone, Copy)]
enum Want {
    Need(Sample),
    Count(u64),
    Data(&'static [u8]),
    /// A kind, a length and an inode number.
    Stat(Kind, u64, u64),
}

const CHANGED: &[Step] = &[
    Step::Write(12, b"!", Want::Need(ONE_FILE)),
    Step::Put(ONE_FILE),
    Step::Write(12, b"!", Want::Need(VERSION_1)),
    Step::Put(VERSION_1),
    Step::Write(12, b"!", Want::Count(1)),
    Step::Read(Want::Data(b"version 1\n\0\0!")),
];

/// Nothing is fetched again.
const OPENED_AGAIN: &[Step] = &[
    Step::Read(Want::Data(b"version 1\n\0\0!")),
    Step::Write(0, b"V", Want::Count(1)),
    Step::Read(Want::Data(b"Version 1\n\0\0!")),
];

fn key_of(object: Sample) -> Key {
    Key {
        kind: object.kind,
        id: object.id,
    }
}

fn cache(rt: &impl Abort, alloc: Global, bytes: u64) -> ObjectCache<Global>
    requires { IsByteBound bytes }
    ensures objects { result.objects ≡ [] }
    ensures sizes { result.sizes ≡ [] }
{
    match ObjectCache::new(alloc, 8, bytes, 8) {
        Ok(cache) => cache,
        Err(_) => rt.abort(),
    }
}

fn open(
    rt: &impl Abort,
    alloc: Global,
    files: Stored,
    root: Sample,
) -> Result<Tree, (OpenFault, Stored)> {
    let cache = cache(rt, alloc, 1 << 20);
    Checkout::open(alloc, alloc, files, root.id, cache)
}

/// A checkout of the commit with one file.
fn opened(rt: &impl Abort, alloc: Global, files: Stored) -> Tree {
    let tree = open(rt, alloc, files, ONE_FILE).ok();
    tree.expect(rt, "files that are opened")
}

/// The path of the one file.
fn test_file(rt: &impl Abort, alloc: Global) -> Path {
    let bytes = b"test.txt".to_vec(alloc).expect(rt, "memory");
    let name = Name::new(bytes).expect(rt, "a name");
    let mut names = Vec::new(alloc);
    names.push(name).expect(rt, "memory");
    Path::new(names).expect(rt, "a path")
}

fn write(rt: &impl Abort, alloc: Global, offset: u64, bytes: &[u8]) -> Request {
    let bytes = bytes.to_vec(alloc).expect(rt, "memory");
    Request::Write(test_file(rt, alloc), offset, Bytes::new(bytes))
}

fn read(rt: &impl Abort, alloc: Global) -> Request {
    Request::Read(test_file(rt, alloc), 0, 100)
}

fn is_stat(attempt: &Attempt, kind: Kind, size: u64, number: u64) -> bool {
    match attempt {
        Attempt::Finished(Reply::Stat(there, length, own)) => {
            *there == kind && *length == size && *own == number
        }
        _ => false,
    }
}

fn is_wanted(attempt: &Attempt, want: Want) -> bool {
    match want {
        Want::Need(object) => matches!(attempt, Attempt::Need(key) if *key == key_of(object)),
        Want::Count(wanted) => {
            matches!(attempt, Attempt::Finished(Reply::Count(count)) if *count == wanted)
        }
        Want::Data(wanted) => {
            matches!(attempt, Attempt::Finished(Reply::Data(bytes)) if bytes.as_slice() == wanted)
        }
        Want::Stat(kind, size, number) => is_stat(attempt, kind, size, number),
    }
}

/// Whether a request is answered so.
fn answers<F: Files<Outside>>(
    alloc: Global,
    tree: &mut Checkout<Global, Outside, F>,
    request: &Request,
    want: Want,
) -> bool {
    is_wanted(&tree.attempt(alloc, request, &mut None), want)
}

fn put(rt: &impl Abort, alloc: Global, tree: &mut Tree, object: Sample) -> bool {
    let key = key_of(object);
    let framed = object.framed.to_vec(alloc).expect(rt, "memory");
    let object = Object::checked(alloc, key, framed).expect(rt, "an object");
    tree.put(key, object).is_ok()
}

fn is_done(rt: &impl Abort, alloc: Global, tree: &mut Tree, step: Step) -> bool {
    match step {
        Step::Put(object) => put(rt, alloc, tree, object),
        Step::Read(want) => answers(alloc, tree, &read(rt, alloc), want),
        Step::StatRoot(want) => {
            let root = Path::new(Vec::new(alloc)).expect(rt, "the root");
            answers(alloc, tree, &Request::Stat(root), want)
        }
        Step::Stat(want) => answers(alloc, tree, &Request::Stat(test_file(rt, alloc)), want),
        Step::Write(offset, bytes, want) => {
            answers(alloc, tree, &write(rt, alloc, offset, bytes), want)
        }
    }
}

/// Opens the files on the commit, takes the steps, and closes.
fn live(rt: &impl Abort, alloc: Global, files: Stored, steps: &[Step]) -> Stored {
    let mut tree = opened(rt, alloc, files);
    for step in steps {
        assert!(rt; is_done(rt, alloc, &mut tree, *step));
    }
    tree.close(alloc).ok().expect(rt, "a close")
}

/// What a life over no files leaves.
fn changed(rt: &impl Abort, alloc: Global) -> Stored {
    live(rt, alloc, MemoryFiles::new(alloc), CHANGED)
}

/// A checkout of the commit with one file, with room for objects of one byte, over files of which as many calls pass as
/// the number allows.
fn stopping(
    rt: &impl Abort,
    alloc: Global,
    files: Stored,
    allowed: Rc<Cell<u64>>,
) -> Checkout<Global, Outside, StopFiles<Stored>> {
    let files = StopFiles::new(files, allowed);
    let tree = Checkout::open(alloc, alloc, files, ONE_FILE.id, cache(rt, alloc, 1)).ok();
    tree.expect(rt, "files that are opened")
}

/// It is read again after the device stopped.
#[test]
fn the_last_own_file_stays_whatever_its_length(rt: HostRuntime) {
    let alloc = rt.alloc();
    let allowed = Rc::new(alloc, Cell::new(u64::MAX)).expect(&rt, "memory");
    let shared = allowed.clone().expect(&rt, "memory");
    let mut tree = stopping(&rt, alloc, changed(&rt, alloc), shared);
    let want = Want::Data(b"version 1\n\0\0!");
    assert!(rt; answers(alloc, &mut tree, &read(&rt, alloc), want));
    allowed.set(0);
    assert!(rt; answers(alloc, &mut tree, &read(&rt, alloc), want));
}

/// The size of a file.
fn size(alloc: Global, files: &mut Stored, number: u64) -> usize {
    match files.read(alloc, number) {
        Ok(Some(file)) => file.len(),
        _ => 0,
    }
}

/// The files that it leaves, by their numbers, each with its size.
const SIZES: &[(u64, usize)] = &[(0, 92), (1, 87), (2, 77)];

#[test]
fn changes_stay_over_a_close(rt: HostRuntime) {
    let mut files = changed(&rt, rt.alloc());
    for (number, wanted) in SIZES {
        assert!(rt; size(rt.alloc(), &mut files, *number) == *wanted);
    }
    live(&rt, rt.alloc(), files, OPENED_AGAIN);
}

/// The root has its number before it is loaded, and its entries once it is.
const LOOKED_AT: &[Step] = &[
    Step::StatRoot(Want::Stat(Kind::Dir, 0, 1)),
    Step::Stat(Want::Need(ONE_FILE)),
    Step::Put(ONE_FILE),
    Step::Stat(Want::Need(VERSION_1)),
    Step::Put(VERSION_1),
    Step::Stat(Want::Stat(Kind::File, 10, 2)),
];

/// Of the directory nothing is asked for: it is loaded with the numbers that were saved.
const LOOKED_AT_AGAIN: &[Step] = &[
    Step::Stat(Want::Need(VERSION_1)),
    Step::Put(VERSION_1),
    Step::Stat(Want::Stat(Kind::File, 10, 2)),
    Step::StatRoot(Want::Stat(Kind::Dir, 0, 1)),
];

/// Whether a file ends with these bytes, or begins with them.
fn has(alloc: Global, files: &mut Stored, number: u64, front: &[u8], end: &[u8]) -> bool {
    match files.read(alloc, number) {
        Ok(Some(file)) => file.starts_with(front) && file.ends_with(end),
        _ => false,
    }
}

#[test]
fn numbers_stay_over_a_close(rt: HostRuntime) {
    let alloc = rt.alloc();
    let mut files = live(&rt, alloc, MemoryFiles::new(alloc), LOOKED_AT);
    assert!(rt;
        size(alloc, &mut files, 1) == 127 && has(alloc, &mut files, 1, b"OVDN", b"test.txt")
    );
    assert!(rt;
        size(alloc, &mut files, 0) == 92 && has(alloc, &mut files, 0, b"OVFL", &[0, 0, 0, 3])
    );
    let mut files = live(&rt, alloc, files, LOOKED_AT_AGAIN);
    assert!(rt;
        size(alloc, &mut files, 1) == 127 && has(alloc, &mut files, 0, b"OVFL", &[0, 0, 0, 3])
    );
}

/// Why the files aren't opened on that commit.
fn refusal(rt: &impl Abort, alloc: Global, files: Stored, root: Sample) -> Option<OpenFault> {
    match open(rt, alloc, files, root) {
        Ok(_) => None,
        Err((fault, _)) => Some(fault),
    }
}

#[test]
fn files_of_an_open_mount_are_refused(rt: HostRuntime) {
    let tree = opened(&rt, rt.alloc(), changed(&rt, rt.alloc()));
    let fault = refusal(&rt, rt.alloc(), tree.abandon(), ONE_FILE);
    assert!(rt; fault == Some(OpenFault::NotClean));
}

#[test]
fn files_of_another_commit_are_refused(rt: HostRuntime) {
    let fault = refusal(&rt, rt.alloc(), changed(&rt, rt.alloc()), TWO_FILES);
    assert!(rt; fault == Some(OpenFault::OtherRoot(ONE_FILE.id)));
}

#[test]
fn files_with_a_damaged_state_are_refused(rt: HostRuntime) {
    let mut files = changed(&rt, rt.alloc());
    assert!(rt; files.replace(rt.alloc(), 0, b"OVFL").is_ok());
    let fault = refusal(&rt, rt.alloc(), files, ONE_FILE);
    assert!(rt; fault == Some(OpenFault::Damaged(0, Refusal::Short)));
}

/// What a tidying answers over these files, with an orphan of six bytes beside them, and the files then.
fn tidied(
    rt: &impl Abort,
    alloc: Global,
    mut files: Stored,
) -> (Result<Removed, TidyFault>, Stored) {
    files.replace(alloc, 77, b"orphan").expect(rt, "memory");
    let mut overlay = Overlay::<Outside, _>::new(alloc, files);
    let answer = tidy(alloc, &mut overlay);
    (answer, overlay.into_files())
}

#[test]
fn closed_files_are_tidied_and_opened_again(rt: HostRuntime) {
    let (answer, mut files) = tidied(&rt, rt.alloc(), changed(&rt, rt.alloc()));
    assert!(rt; answer == Ok(Removed { files: 1, bytes: 6 }));
    for (number, wanted) in SIZES {
        assert!(rt; size(rt.alloc(), &mut files, *number) == *wanted);
    }
    assert!(rt; size(rt.alloc(), &mut files, 77) == 0);
    live(&rt, rt.alloc(), files, OPENED_AGAIN);
}

#[test]
fn files_of_an_open_mount_are_not_tidied(rt: HostRuntime) {
    let tree = opened(&rt, rt.alloc(), changed(&rt, rt.alloc()));
    let (answer, mut files) = tidied(&rt, rt.alloc(), tree.abandon());
    assert!(rt; answer == Err(TidyFault::Open(OpenFault::NotClean)));
    assert!(rt; size(rt.alloc(), &mut files, 77) == 6);
}

#[test]
fn files_with_a_damaged_state_are_not_tidied(rt: HostRuntime) {
    let mut files = changed(&rt, rt.alloc());
    assert!(rt; files.replace(rt.alloc(), 0, b"OVFL").is_ok());
    let (answer, mut files) = tidied(&rt, rt.alloc(), files);
    assert!(rt; answer == Err(TidyFault::Open(OpenFault::Damaged(0, Refusal::Short))));
    assert!(rt; size(rt.alloc(), &mut files, 77) == 6);
}

#[test]
fn no_files_have_no_orphans(rt: HostRuntime) {
    let mut overlay = Overlay::<Outside, _>::new(rt.alloc(), Stored::new(rt.alloc()));
    assert!(rt; tidy(rt.alloc(), &mut overlay) == Ok(Removed { files: 0, bytes: 0 }));
}
