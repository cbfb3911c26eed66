//! Snapshots of stored files. The ids are those that `git add` and `git write-tree` give for the same files.
use eden_model::{Cause, Id, Name, Outside};
use eden_object::{id_of, parse_id};
use eden_overlay::{Files, MemoryFiles, Overlay};
use eden_overlay_format::Refusal;
use eden_snapshot::{LeftOut, MemorySink, NoSubmodules, SnapshotFault, Submodules, snapshot};
use std::alloc::Global;
use std::process::Abort;

pub(crate) type InMemory = Overlay<Outside, MemoryFiles<Outside>>;

// The tree of the commit that the overlay stands on.
const COMMIT: &str = "67bd02dc8f2ccc1fdf90bc8c0d4ee5a8fb1a1d51";

const EMPTY_TREE: &str = "4b825dc642cb6eb9a060e54bf8d69288fbee4904";

// The headers of version 1, which tells no digest.
pub(crate) const CONTENT: &[u8] = b"OVFL\0\0\0\x01";

pub(crate) const DIRECTORY: &[u8] = b"OVDR\0\0\0\x01";

// The object of the file `kept`, whose content is a line.
const KEPT: &[u8] =
    b"\xbd\x93\x00\x95\x36\x36\x0a\x2d\x96\xf2\xb0\x97\xac\x88\xb2\x8f\x1f\xc8\xcd\xb4";

// The entries of the root: an executable file of its own, directories and a file of its own, an empty directory of its
// own, an object and a submodule.
const ROOT: &[&[u8]] = &[
    b"\0\0\0\x07",
    b"\x01\x01\0\0\0\0\0\0\0\x02\x01a",
    b"\x03\x01\0\0\0\0\0\0\0\x03\x01b",
    b"\0\x01\0\0\0\0\0\0\0\x04\x05b.txt",
    b"\x03\x01\0\0\0\0\0\0\0\x05\x01d",
    b"\x03\x01\0\0\0\0\0\0\0\x06\x01e",
    b"\0\0\0\0\0\0\0\0\0\x07",
    KEPT,
    b"\x04kept",
    b"\x03\x02\0\0\0\0\0\0\0\x08\x03sub",
];

// The directories that are left out if no submodule is known.
const LEFT_OUT: &[(&[u8], LeftOut)] = &[(b"e", LeftOut::Empty), (b"sub", LeftOut::Submodule)];

// Each blob and tree that is the mount's own, in the order in which they are handed in.
const HANDED: &[&str] = &[
    "ce013625030ba8dba906f756967f9e9ca394464a",
    "f76734a0a899b875526543122b2ce7a24ae87c86",
    "a28ae8f0c77e607bdc2e17716f689b939bec94d2",
    "a2373c722dedbf05f6669eba1ea044484213d03d",
    "1de565933b05f74c75ff9a6520af5f9f8a5a2f1d",
    "167f07b1dc29e8455b827e1f94253279500fcf26",
    TREE,
];

// The last of them, the root's tree.
const TREE: &str = "f964f86521e6f6659c4b6caf0f832cc5856faf10";

// The same tree, with the commit of the submodule `sub`.
const WITH_SUBMODULE: &str = "7bbbb05ab3bfb99897df2c4c747630a08258cc60";

// A commit with that submodule alone.
#[derive(Drop)]
struct OneSubmodule;

impl Submodules<Outside> for OneSubmodule {
    ghost use Rattle.std.specs.Prelude.{None};

    ghost known = { λ _ path. None };

    fn at(&mut self, _alloc: Global, path: &[Name]) -> Result<Option<Id>, Cause> {
        if path.len() == 1 && path[0].as_slice() == b"sub".as_slice() {
            Ok(Some(Id { bytes: [0x11; 20] }))
        } else {
            Ok(None)
        }
    }
}

// A commit whose trees don't come.
#[derive(Drop)]
struct NoTrees;

impl Submodules<Outside> for NoTrees {
    ghost use Rattle.std.specs.Prelude.{None};

    ghost known = { λ _ path. None };

    fn at(&mut self, _alloc: Global, _path: &[Name]) -> Result<Option<Id>, Cause> {
        Err(Cause::Missing)
    }
}

// These parts, one after another.
pub(crate) fn joined(rt: &(impl AllocGlobal + Abort), head: &[u8], parts: &[&[u8]]) -> Vec<u8> {
    let mut bytes = Vec::from_slice(rt.alloc(), head).expect(rt, "memory");
    for part in parts {
        bytes.extend_from_slice(part).expect(rt, "memory");
    }
    bytes
}

// The file of that number, of a header and these parts after it.
pub(crate) fn put(
    rt: &(impl AllocGlobal + Abort),
    files: &mut MemoryFiles<Outside>,
    number: u64,
    head: &[u8],
    parts: &[&[u8]],
) {
    let content = joined(rt, &[0; 56], parts);
    let bytes = joined(rt, head, &[content.as_slice()]);
    files
        .replace(rt.alloc(), number, &bytes)
        .expect(rt, "memory");
}

// The changed files, by their numbers: what each begins with, and what is in it.
const CHANGED: &[(u64, &[u8], &[u8])] = &[
    (2, CONTENT, b"hello\n"),
    (3, DIRECTORY, b"\0\0\0\x01\0\x01\0\0\0\0\0\0\0\x09\x01f"),
    (9, CONTENT, b"in b\n"),
    (4, CONTENT, b"dot\n"),
    (5, DIRECTORY, b"\0\0\0\x01\x02\x01\0\0\0\0\0\0\0\x0a\x01x"),
    (10, CONTENT, b"target"),
    (6, DIRECTORY, b"\0\0\0\0"),
];

fn changed(rt: &(impl AllocGlobal + Abort)) -> MemoryFiles<Outside> {
    let mut files = MemoryFiles::<Outside>::new(rt.alloc());
    put(rt, &mut files, 1, DIRECTORY, ROOT);
    for (number, head, content) in CHANGED {
        put(rt, &mut files, *number, head, &[*content]);
    }
    files
}

pub(crate) fn named(rt: &(impl AllocGlobal + Abort), text: &str) -> Id {
    parse_id(text).expect(rt, "an id")
}

// The answer over these files, whose objects and omissions the sink has then.
fn taken(
    rt: &(impl AllocGlobal + Abort),
    files: MemoryFiles<Outside>,
    submodules: &mut impl Submodules<Outside>,
    sink: &mut MemorySink,
) -> Result<Id, SnapshotFault> {
    let mut overlay: InMemory = Overlay::<Outside, _>::new(rt.alloc(), files);
    snapshot(
        rt.alloc(),
        named(rt, COMMIT),
        &mut overlay,
        sink,
        submodules,
    )
}

// The answer is the tree of that id.
fn check_tree(
    rt: &(impl AllocGlobal + Abort),
    files: MemoryFiles<Outside>,
    submodules: &mut impl Submodules<Outside>,
    sink: &mut MemorySink,
    tree: &str,
) {
    assert!(rt; taken(rt, files, submodules, sink) == Ok(named(rt, tree)));
}

// The answer is a fault.
fn check_fault(
    rt: &(impl AllocGlobal + Abort),
    files: MemoryFiles<Outside>,
    submodules: &mut impl Submodules<Outside>,
    fault: SnapshotFault,
) {
    let mut sink = MemorySink::new(rt.alloc());
    let answer = taken(rt, files, submodules, &mut sink);
    drop(sink);
    assert!(rt; answer == Err(fault));
}

// These are the objects, by their ids.
fn check_objects(rt: &(impl AllocGlobal + Abort), sink: &MemorySink, ids: &[&str]) {
    assert!(rt; sink.objects().len() == ids.len());
    for (object, id) in sink.objects().iter().zip(ids) {
        assert!(rt; id_of(object) == named(rt, id), "{id}");
    }
}

#[test]
fn what_is_shown_is_written_as_git_writes_it(rt: HostRuntime) {
    let mut sink = MemorySink::new(rt.alloc());
    check_tree(&rt, changed(&rt), &mut NoSubmodules, &mut sink, TREE);
    check_objects(&rt, &sink, HANDED);
}

fn is_left_out(path: &[Name], why: LeftOut, name: &[u8], reason: LeftOut) -> bool {
    path.len() == 1 && path[0].as_slice() == name && why == reason
}

fn check_left_out(rt: &impl Abort, told: &[(Vec<Name>, LeftOut)]) {
    assert!(rt; told.len() == 2);
    for ((path, why), (name, reason)) in told.iter().zip(LEFT_OUT) {
        assert!(rt; is_left_out(path.as_slice(), *why, name, *reason));
    }
}

#[test]
fn what_is_left_out_is_told(rt: HostRuntime) {
    let mut sink = MemorySink::new(rt.alloc());
    check_tree(&rt, changed(&rt), &mut NoSubmodules, &mut sink, TREE);
    check_left_out(&rt, sink.omissions());
}

#[test]
fn a_submodule_keeps_its_commit(rt: HostRuntime) {
    let mut sink = MemorySink::new(rt.alloc());
    check_tree(
        &rt,
        changed(&rt),
        &mut OneSubmodule,
        &mut sink,
        WITH_SUBMODULE,
    );
    assert!(rt; sink.omissions().len() == 1);
    let missing = SnapshotFault::Object(Cause::Missing);
    check_fault(&rt, changed(&rt), &mut NoTrees, missing);
}

#[test]
fn an_untouched_tree_is_the_commits(rt: HostRuntime) {
    let files = MemoryFiles::<Outside>::new(rt.alloc());
    let mut sink = MemorySink::new(rt.alloc());
    check_tree(&rt, files, &mut NoSubmodules, &mut sink, COMMIT);
    assert!(rt; sink.objects().is_empty());
}

// Files of the root alone, with these entries.
fn root_alone(rt: &(impl AllocGlobal + Abort), entries: &[u8]) -> MemoryFiles<Outside> {
    let mut files = MemoryFiles::<Outside>::new(rt.alloc());
    put(rt, &mut files, 1, DIRECTORY, &[entries]);
    files
}

#[test]
fn an_empty_root_is_the_empty_tree(rt: HostRuntime) {
    let mut sink = MemorySink::new(rt.alloc());
    let files = root_alone(&rt, b"\0\0\0\0");
    check_tree(&rt, files, &mut NoSubmodules, &mut sink, EMPTY_TREE);
    assert!(rt; sink.objects().len() == 1);
}

// The changed files, of which one is missing.
fn with_a_missing(rt: &(impl AllocGlobal + Abort)) -> MemoryFiles<Outside> {
    let mut files = changed(rt);
    files.remove(9).expect(rt, "memory");
    files
}

// .. of which one isn't what its entry says.
fn with_a_damaged(rt: &(impl AllocGlobal + Abort)) -> MemoryFiles<Outside> {
    let mut files = changed(rt);
    put(rt, &mut files, 5, CONTENT, &[b"no directory"]);
    files
}

#[test]
fn files_that_are_missing_or_damaged_are_named(rt: HostRuntime) {
    let missing = SnapshotFault::Dangling(9);
    check_fault(&rt, with_a_missing(&rt), &mut NoSubmodules, missing);
    let damaged = SnapshotFault::Damaged(5, Refusal::BadIdentifier);
    check_fault(&rt, with_a_damaged(&rt), &mut NoSubmodules, damaged);
}

// The one entry of a directory: a directory, which is file 2.
const ITSELF: &[u8] = b"\0\0\0\x01\x03\x01\0\0\0\0\0\0\0\x02\x01d";

#[test]
fn a_directory_in_itself_lies_too_deep(rt: HostRuntime) {
    let mut files = root_alone(&rt, ITSELF);
    put(&rt, &mut files, 2, DIRECTORY, &[ITSELF]);
    check_fault(&rt, files, &mut NoSubmodules, SnapshotFault::TooDeep(2));
}
