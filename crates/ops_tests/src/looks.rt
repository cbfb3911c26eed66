//! Requests that change nothing: what each needs, and its reply once that is cached.

use crate::mount::{Mount, key_of};
use crate::paths::path;
use crate::steps::{Ask, D, Names, ROOT, Row, Step, TEST, Want, check_all};
use eden_inode::Trail;
use eden_model::{Errno, Kind, Path};
use eden_ops::{Walked, reach};
use test_samples::{
    ALL_KINDS, EMPTY_TREE, NEW_FILE, ONE_FILE, ONE_MODULE, TARGET, TWO_FILES, VERSION_1, VERSION_2,
};

const BAK: Names = &[b"bak"];

const NEW: Names = &[b"new.txt"];

const SUB: Names = &[b"sub"];

const BELOW_FILE: Names = &[b"test.txt", b"x"];

const BELOW_NOTHING: Names = &[b"no", b"x"];

/// The kind of the root needs nothing, that of an entry what its directory is.
const TOLD: Row = Row {
    root: ONE_FILE,
    objects: 8,
    steps: &[
        Step::Ask(ROOT, Ask::Kind, Want::Kind(Kind::Dir)),
        Step::Need(TEST, Ask::Kind, ONE_FILE),
        Step::Ask(TEST, Ask::Kind, Want::Kind(Kind::File)),
        Step::Ask(BELOW_FILE, Ask::Kind, Want::Err(Errno::ENOTDIR)),
        Step::Ask(BELOW_NOTHING, Ask::Kind, Want::Err(Errno::ENOENT)),
    ],
    files: &[],
};

/// Of an object that is there for its size no more is needed.
const MEASURED: Row = Row {
    root: TWO_FILES,
    objects: 8,
    steps: &[
        Step::Need(NEW, Ask::Stat, TWO_FILES),
        Step::Need(NEW, Ask::Stat, NEW_FILE),
        Step::Ask(NEW, Ask::Stat, Want::Stat(Kind::File, 9, 3)),
        Step::Ask(BAK, Ask::Stat, Want::Stat(Kind::Dir, 0, 2)),
        Step::Ask(ROOT, Ask::Stat, Want::Stat(Kind::Dir, 0, 1)),
    ],
    files: &[],
};

/// A content is needed for what is read of it.
const READ: Row = Row {
    root: ONE_FILE,
    objects: 8,
    steps: &[
        Step::Need(TEST, Ask::Read(0, 100), ONE_FILE),
        Step::Need(TEST, Ask::Read(0, 100), VERSION_1),
        Step::Ask(TEST, Ask::Read(0, 100), Want::Data(b"version 1\n")),
        Step::Ask(TEST, Ask::Read(10, 5), Want::Data(b"")),
        Step::Ask(TEST, Ask::Read(1 << 30, 5), Want::Data(b"")),
        Step::Ask(TEST, Ask::Read(0, 65_537), Want::Err(Errno::EINVAL)),
        Step::Ask(ROOT, Ask::Read(0, 1), Want::Err(Errno::EISDIR)),
    ],
    files: &[],
};

/// A cache of one object loses the tree for the blob. Once the root is unloaded the tree isn't needed again: the
/// numbers of its entries were saved, and with them it is loaded.
const SAVED: Row = Row {
    root: ONE_FILE,
    objects: 1,
    steps: &[
        Step::Need(TEST, Ask::Read(0, 10), ONE_FILE),
        Step::Need(TEST, Ask::Read(0, 10), VERSION_1),
        Step::Unload(1),
        Step::Ask(TEST, Ask::Read(0, 10), Want::Data(b"version 1\n")),
        Step::Unload(1),
        Step::Ask(TEST, Ask::Kind, Want::Kind(Kind::File)),
    ],
    files: &[(1, 127)],
};

/// It loses one blob for the other, which is needed again.
const LOST: Row = Row {
    root: TWO_FILES,
    objects: 1,
    steps: &[
        Step::Need(NEW, Ask::Read(0, 3), TWO_FILES),
        Step::Need(NEW, Ask::Read(0, 3), NEW_FILE),
        Step::Need(TEST, Ask::Read(0, 9), VERSION_2),
        Step::Need(NEW, Ask::Read(0, 3), NEW_FILE),
        Step::Ask(NEW, Ask::Read(0, 3), Want::Data(b"new")),
    ],
    files: &[],
};

/// A link of the commit and a plain file.
const LINKED: Row = Row {
    root: ALL_KINDS,
    objects: 8,
    steps: &[
        Step::Need(TEST, Ask::ReadLink, ALL_KINDS),
        Step::Need(TEST, Ask::ReadLink, TARGET),
        Step::Ask(TEST, Ask::ReadLink, Want::Data(b"new.txt")),
        Step::Ask(TEST, Ask::Read(0, 1), Want::Err(Errno::EINVAL)),
        Step::Ask(NEW, Ask::Kind, Want::Kind(Kind::Exec)),
        Step::Ask(NEW, Ask::ReadLink, Want::Err(Errno::EINVAL)),
        Step::Ask(D, Ask::ReadLink, Want::Err(Errno::ENOENT)),
    ],
    files: &[],
};

/// A listing in pieces.
const LISTED: Row = Row {
    root: TWO_FILES,
    objects: 8,
    steps: &[
        Step::Ask(ROOT, Ask::List(None, 0), Want::Err(Errno::EINVAL)),
        Step::Need(ROOT, Ask::List(None, 2), TWO_FILES),
        Step::Ask(
            ROOT,
            Ask::List(None, 2),
            Want::Entries(&[(b"bak", Kind::Dir), (b"new.txt", Kind::File)], true),
        ),
        Step::Ask(
            ROOT,
            Ask::List(Some(b"new.txt"), 10),
            Want::Entries(&[(b"test.txt", Kind::File)], false),
        ),
        Step::Ask(TEST, Ask::List(None, 1), Want::Err(Errno::ENOTDIR)),
    ],
    files: &[],
};

/// The tree without entries.
const EMPTY: Row = Row {
    root: EMPTY_TREE,
    objects: 8,
    steps: &[
        Step::Need(ROOT, Ask::List(None, 10), EMPTY_TREE),
        Step::Ask(ROOT, Ask::List(None, 10), Want::Entries(&[], false)),
    ],
    files: &[],
};

/// Another repository's commit is a directory without entries, and needs no object.
const MODULE: Row = Row {
    root: ONE_MODULE,
    objects: 8,
    steps: &[
        Step::Need(SUB, Ask::Kind, ONE_MODULE),
        Step::Ask(SUB, Ask::Kind, Want::Kind(Kind::Dir)),
        Step::Ask(SUB, Ask::List(None, 10), Want::Entries(&[], false)),
        Step::Ask(&[b"sub", b"a"], Ask::Create, Want::Ok),
        Step::Ask(
            SUB,
            Ask::List(None, 10),
            Want::Entries(&[(b"a", Kind::File)], false),
        ),
    ],
    files: &[(1, 82), (2, 80), (3, 64)],
};

const ROWS: &[Row] = &[
    TOLD, MEASURED, READ, SAVED, LOST, LINKED, LISTED, EMPTY, MODULE,
];

#[test]
fn looks_need_objects_and_are_answered(rt: HostRuntime) {
    check_all(&rt, rt.alloc(), ROWS);
}

/// How far a walk to a path comes.
fn walk(mount: &mut Mount, at: &Path) -> Walked {
    let trail = &mut Trail::new();
    reach(&mut mount.table, &mut mount.cache, mount.alloc, at, trail)
}

#[test]
fn a_walk_needs_the_directories_above(rt: HostRuntime) {
    let mut mount = Mount::open(&rt, rt.alloc(), ONE_FILE, 8);
    let at = path(&rt, rt.alloc(), TEST);
    assert!(rt; walk(&mut mount, &at) == Walked::Needs(key_of(ONE_FILE)));
    mount.put(&rt, ONE_FILE);
    assert!(rt; walk(&mut mount, &at) == Walked::Through);
}
