//! Changes of stored files against a commit's tree. Both trees' objects and the letters are Git's: those of
//! `git cat-file tree` and `git diff-tree --no-renames` for the same two directories.
use crate::snapshots::{CONTENT, DIRECTORY, InMemory, joined, named, put};
use eden_model::{Cause, Mode, Name, Outside};
use eden_overlay::{Files, FilesFault, MemoryFiles, Overlay};
use eden_snapshot::{Change, ChangeSink, How, SnapshotFault, changes};
use eden_source::MemorySource;
use std::alloc::Global;
use std::process::Abort;

// The tree of the commit, and that of its directory `dir`.
const COMMIT: &str = "e8cd3b5d9ddf42d182153736f115c3561e369760";

const DIR: &str = "ab69b4abf3bb84d4e268bd42d84e4a9a5e242bd3";

const COMMIT_OBJECT: &[&[u8]] = &[
    b"tree 283\0",
    b"100644 a\0\x33\x67\xaf\xdb\xbf\x91\xe6\x38\xef\xe9\x83\x61\x63\x77\xc6\x04\x77\xcc\x66\x12",
    b"40000 dir\0\xab\x69\xb4\xab\xf3\xbb\x84\xd4\xe2\x68\xbd\x42\xd8\x4e\x4a\x9a\x5e\x24\x2b\xd3",
    b"100644 exec\0\xf5\xbd\xd2\x14\xe0\x16\x03\xec\xd6\xc8\x3b\xe9\xf6\x6d\x88\x57\x9c\x58\x8e\xc6",
    b"100644 gone\0\x28\x6c\x5f\x57\x76\x91\x6d\x7d\x7d\x58\x49\x98\x8c\xa9\xd8\x3e\x72\x2c\xf9\xc2",
    b"100644 kind\0\x99\x6e\x2c\x99\x3f\x94\x4a\x45\xe0\xfd\x73\x52\x77\x08\xdf\x7e\x30\x51\x49\x05",
    b"40000 moved\0\xaa\xc8\xb3\xae\xed\x32\x41\xbc\xcd\x93\xe5\xf0\xce\xeb\x6f\x7f\xb4\x31\xb3\x1c",
    b"100644 same\0\x12\x75\x43\x0f\x17\x65\xc6\x3e\x53\x9c\xb0\x45\x25\x65\x56\x3b\xd6\xae\xf6\xa6",
    b"160000 sub\0\x11\x11\x11\x11\x11\x11\x11\x11\x11\x11\x11\x11\x11\x11\x11\x11\x11\x11\x11\x11",
    b"40000 turned\0\x05\xa7\x80\x7d\x50\x52\x93\xee\xd7\xd4\xa1\x68\xae\x01\xd4\x9a\x54\xc6\x14\x1f",
];

const DIR_OBJECT: &[&[u8]] = &[
    b"tree 29\0",
    b"100644 x\0\x58\x7b\xe6\xb4\xc3\xf9\x3f\x93\xc4\x89\xc0\x11\x1b\xba\x55\x96\x14\x7a\x26\xcb",
];

// What is there now. Of the root's entries `to` is the commit's directory `moved`, and `sub` is the submodule.
const ROOT: &[&[u8]] = &[
    b"\0\0\0\x0a",
    b"\0\x01\0\0\0\0\0\0\0\x02\x01a",
    b"\x03\x01\0\0\0\0\0\0\0\x03\x03dir",
    b"\0\x01\0\0\0\0\0\0\0\x04\x05dir-x",
    b"\x01\x01\0\0\0\0\0\0\0\x05\x04exec",
    b"\x02\x01\0\0\0\0\0\0\0\x06\x04kind",
    b"\0\x01\0\0\0\0\0\0\0\x07\x04same",
    b"\x03\x02\0\0\0\0\0\0\0\x08\x03sub",
    b"\x03\0\0\0\0\0\0\0\0\x09\xaa\xc8\xb3\xae\xed\x32\x41\xbc\xcd\x93\xe5\xf0\xce\xeb\x6f\x7f\xb4\x31\xb3\x1c\x02to",
    b"\0\x01\0\0\0\0\0\0\0\x0a\x06turned",
    b"\x03\x01\0\0\0\0\0\0\0\x0b\x01z",
];

const DIR_NOW: &[&[u8]] = &[
    b"\0\0\0\x02",
    b"\0\0\0\0\0\0\0\0\0\x0c\x58\x7b\xe6\xb4\xc3\xf9\x3f\x93\xc4\x89\xc0\x11\x1b\xba\x55\x96\x14\x7a\x26\xcb\x01x",
    b"\0\x01\0\0\0\0\0\0\0\x0d\x01y",
];

const NEW_DIR: &[&[u8]] = &[b"\0\0\0\x01", b"\0\x01\0\0\0\0\0\0\0\x0e\x01f"];

// The contents of the mount's own files, by their numbers. That of `exec` and that of `same` are the commit's.
const CONTENTS: &[(u64, &[u8])] = &[
    (2, b"new\n"),
    (4, b"d\n"),
    (5, b"run\n"),
    (6, b"a"),
    (7, b"same\n"),
    (10, b"t\n"),
    (13, b"y\n"),
    (14, b"f\n"),
];

// The changes in byte order of names, a directory before what is inside; and whether a tree is told by its top alone.
const TOLD: &[(&[u8], How, Mode, bool)] = &[
    (b"a", How::Modified, Mode::File, false),
    (b"dir/y", How::Added, Mode::File, false),
    (b"dir-x", How::Added, Mode::File, false),
    (b"exec", How::Modified, Mode::Exec, false),
    (b"gone", How::Removed, Mode::File, false),
    (b"kind", How::Retyped, Mode::Link, false),
    (b"moved", How::Removed, Mode::Dir, true),
    (b"to", How::Added, Mode::Dir, true),
    (b"turned", How::Retyped, Mode::File, true),
    (b"z", How::Added, Mode::Dir, false),
    (b"z/f", How::Added, Mode::File, false),
];

// Counts the changes, up to as many as it has room for, and those of them that are the next of the table.
#[derive(Drop)]
struct Heard {
    count: usize,
    right: usize,
    room: usize,
}

// Whether a path has that text, with a slash between two names.
fn is_text(path: &[Name], text: &[u8]) -> bool {
    let mut rest = text;
    for (index, name) in path.iter().enumerate() {
        let between: &[u8] = if index == 0 { b"" } else { b"/" };
        match behind(rest, between, name.as_slice()) {
            Some(behind) => rest = behind,
            None => return false,
        }
    }
    rest.is_empty()
}

// What stands after two texts.
fn behind<'a>(text: &'a [u8], first: &[u8], second: &[u8]) -> Option<&'a [u8]> {
    text.strip_prefix(first)?.strip_prefix(second)
}

// Whether the change of that number is told so.
fn is_told(index: usize, path: &[Name], change: Change) -> bool {
    match TOLD.get(index) {
        Some((text, how, mode, whole)) => {
            is_text(path, text)
                && change.how == *how
                && change.mode == *mode
                && change.whole == *whole
        }
        None => false,
    }
}

impl ChangeSink<Outside> for Heard {
    ghost use Rattle.std.specs.Prelude.{[]};

    ghost told = { λ _. [] };

    ghost failures = { λ _. 0 };

    fn tell(&mut self, _alloc: Global, path: &[Name], change: Change) -> Result<(), FilesFault> {
        if self.count == self.room {
            return Err(FilesFault::Memory);
        }
        if is_told(self.count, path, change) {
            self.right = self.right.saturating_add(1);
        }
        self.count = self.count.saturating_add(1);
        Ok(())
    }
}

fn changed(rt: &(impl AllocGlobal + Abort)) -> MemoryFiles<Outside> {
    let mut files = MemoryFiles::<Outside>::new(rt.alloc());
    put(rt, &mut files, 1, DIRECTORY, ROOT);
    put(rt, &mut files, 3, DIRECTORY, DIR_NOW);
    put(rt, &mut files, 11, DIRECTORY, NEW_DIR);
    for (number, content) in CONTENTS {
        put(rt, &mut files, *number, CONTENT, &[*content]);
    }
    files
}

fn insert(
    rt: &(impl AllocGlobal + Abort),
    objects: &mut MemorySource<Outside>,
    id: &str,
    parts: &[&[u8]],
) {
    let framed = joined(rt, b"", parts);
    objects.insert(named(rt, id), framed).expect(rt, "memory");
}

// The tree of the commit alone.
fn top(rt: &(impl AllocGlobal + Abort)) -> MemorySource<Outside> {
    let mut objects = MemorySource::<Outside>::new(rt.alloc());
    insert(rt, &mut objects, COMMIT, COMMIT_OBJECT);
    objects
}

fn trees(rt: &(impl AllocGlobal + Abort)) -> MemorySource<Outside> {
    let mut objects = top(rt);
    insert(rt, &mut objects, DIR, DIR_OBJECT);
    objects
}

// The answer over these files.
fn answer(
    rt: &(impl AllocGlobal + Abort),
    files: MemoryFiles<Outside>,
    mut objects: MemorySource<Outside>,
    heard: &mut Heard,
) -> Result<(), SnapshotFault> {
    let mut overlay: InMemory = Overlay::<Outside, _>::new(rt.alloc(), files);
    changes(
        rt.alloc(),
        named(rt, COMMIT),
        &mut overlay,
        &mut objects,
        heard,
    )
}

// Over these files that is answered, and the first this many of the changes are told, if there is so much room.
fn check(
    rt: &(impl AllocGlobal + Abort),
    files: MemoryFiles<Outside>,
    objects: MemorySource<Outside>,
    room: usize,
    want: Result<(), SnapshotFault>,
    count: usize,
) {
    let mut heard = Heard {
        count: 0,
        right: 0,
        room,
    };
    assert!(rt; answer(rt, files, objects, &mut heard) == want);
    assert!(rt; heard.count == count && heard.right == count);
}

#[test]
fn each_change_is_told_at_its_path(rt: HostRuntime) {
    check(&rt, changed(&rt), trees(&rt), 100, Ok(()), TOLD.len());
}

#[test]
fn an_untouched_tree_has_no_changes(rt: HostRuntime) {
    let files = MemoryFiles::<Outside>::new(rt.alloc());
    let objects = MemorySource::<Outside>::new(rt.alloc());
    check(&rt, files, objects, 100, Ok(()), 0);
}

#[test]
fn a_tree_that_is_missing_ends_the_telling(rt: HostRuntime) {
    let missing = SnapshotFault::Object(Cause::Missing);
    check(&rt, changed(&rt), top(&rt), 100, Err(missing), 1);
}

// The changed files, of which one is missing.
fn with_a_missing(rt: &(impl AllocGlobal + Abort)) -> MemoryFiles<Outside> {
    let mut files = changed(rt);
    files.remove(6).expect(rt, "memory");
    files
}

#[test]
fn a_file_that_is_missing_is_named(rt: HostRuntime) {
    let dangling = SnapshotFault::Dangling(6);
    check(&rt, with_a_missing(&rt), trees(&rt), 100, Err(dangling), 5);
}

#[test]
fn a_sink_that_is_full_ends_the_telling(rt: HostRuntime) {
    check(
        &rt,
        changed(&rt),
        trees(&rt),
        3,
        Err(SnapshotFault::Memory),
        3,
    );
}
