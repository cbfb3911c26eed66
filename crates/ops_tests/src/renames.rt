//! Renames: their replies, what they need, and the files that they leave.

use crate::mount::Mount;
use crate::paths::path;
use crate::steps::{Ask, D, D_T, E, Names, ROOT, Row, Step, TEST, Want, check_all, is_wanted};
use eden_model::{Errno, Fault, Kind, Path, Request};
use std::alloc::Global;
use std::process::Abort;
use test_samples::{NEW_FILE, ONE_FILE, TWO_FILES, VERSION_1};

const A: Names = &[b"a"];

const BAK: Names = &[b"bak"];

const NEW: Names = &[b"new.txt"];

const OLD: Names = &[b"old"];

const OLD_TEST: Names = &[b"old", b"test.txt"];

const D_A: Names = &[b"d", b"a"];

const D_BAK: Names = &[b"d", b"bak"];

const D_E: Names = &[b"d", b"e"];

const D_E_F: Names = &[b"d", b"e", b"f"];

const E_A: Names = &[b"e", b"a"];

const E_E_F: Names = &[b"e", b"e", b"f"];

const T: Names = &[b"t"];

const BAK_TEST: Names = &[b"bak", b"test.txt"];

/// What `ONE_FILE` lists.
const TEST_ALONE: Want = Want::Entries(&[(b"test.txt", Kind::File)], false);

/// A file of the commit moves into a new directory, and its content isn't needed for it.
const BETWEEN: Row = Row {
    root: ONE_FILE,
    objects: 8,
    steps: &[
        Step::Need(D, Ask::Mkdir, ONE_FILE),
        Step::Ask(D, Ask::Mkdir, Want::Ok),
        Step::Ask(TEST, Ask::Rename(D_T), Want::Ok),
        Step::Ask(TEST, Ask::Kind, Want::Err(Errno::ENOENT)),
        Step::Need(D_T, Ask::Read(0, 7), VERSION_1),
        Step::Ask(D_T, Ask::Read(0, 7), Want::Data(b"version")),
    ],
    files: &[(1, 80), (3, 100)],
};

/// What may not move where.
const REFUSED: Row = Row {
    root: ONE_FILE,
    objects: 8,
    steps: &[
        Step::Need(D, Ask::Mkdir, ONE_FILE),
        Step::Ask(D, Ask::Mkdir, Want::Ok),
        Step::Ask(TEST, Ask::Rename(D), Want::Err(Errno::EISDIR)),
        Step::Ask(D, Ask::Rename(TEST), Want::Err(Errno::ENOTDIR)),
        Step::Ask(A, Ask::Rename(E), Want::Err(Errno::ENOENT)),
        Step::Ask(TEST, Ask::Rename(D_T), Want::Ok),
        Step::Ask(D, Ask::Rename(D_E), Want::Err(Errno::EINVAL)),
        Step::Ask(D, Ask::Rename(ROOT), Want::Err(Errno::EBUSY)),
        Step::Ask(ROOT, Ask::Rename(D), Want::Err(Errno::EBUSY)),
        Step::Ask(D_T, Ask::Rename(D), Want::Err(Errno::ENOTEMPTY)),
        Step::Ask(D, Ask::Rmdir, Want::Err(Errno::ENOTEMPTY)),
        Step::Ask(D, Ask::Rename(D), Want::Ok),
        Step::Ask(D_T, Ask::Rename(D_T), Want::Ok),
        Step::Ask(D, Ask::Unlink, Want::Err(Errno::EISDIR)),
    ],
    files: &[(1, 80), (3, 100)],
};

/// A number moves with its file, and isn't given again once that is gone.
const NUMBERED: Row = Row {
    root: ONE_FILE,
    objects: 8,
    steps: &[
        Step::Need(TEST, Ask::Rename(T), ONE_FILE),
        Step::Ask(TEST, Ask::Rename(T), Want::Ok),
        Step::Need(T, Ask::Stat, VERSION_1),
        Step::Ask(T, Ask::Stat, Want::Stat(Kind::File, 10, 2)),
        Step::Ask(T, Ask::Unlink, Want::Ok),
        Step::Ask(T, Ask::Create, Want::Ok),
        Step::Ask(T, Ask::Stat, Want::Stat(Kind::File, 0, 3)),
    ],
    files: &[(1, 80), (3, 64)],
};

/// What stands in a directory keeps its number if that moves, also once it is unloaded.
const NUMBERED_BELOW: Row = Row {
    root: TWO_FILES,
    objects: 8,
    steps: &[
        Step::Need(BAK_TEST, Ask::Stat, TWO_FILES),
        Step::Need(BAK_TEST, Ask::Stat, ONE_FILE),
        Step::Need(BAK_TEST, Ask::Stat, VERSION_1),
        Step::Ask(BAK_TEST, Ask::Stat, Want::Stat(Kind::File, 10, 5)),
        Step::Ask(BAK, Ask::Rename(OLD), Want::Ok),
        Step::Unload(2),
        Step::Ask(OLD_TEST, Ask::Stat, Want::Stat(Kind::File, 10, 5)),
        Step::Ask(OLD, Ask::Stat, Want::Stat(Kind::Dir, 0, 2)),
    ],
    files: &[(1, 179), (2, 127)],
};

/// A new file takes the place of one of the commit, which has no file.
const OVER_COMMIT: Row = Row {
    root: ONE_FILE,
    objects: 8,
    steps: &[
        Step::Need(A, Ask::Create, ONE_FILE),
        Step::Ask(A, Ask::Create, Want::Ok),
        Step::Ask(A, Ask::Rename(TEST), Want::Ok),
        Step::Ask(A, Ask::Kind, Want::Err(Errno::ENOENT)),
        Step::Ask(TEST, Ask::Stat, Want::Stat(Kind::File, 0, 3)),
    ],
    files: &[(1, 87), (3, 64)],
};

/// A new file takes the place of one that has a file, which goes.
const OVER_OWN: Row = Row {
    root: ONE_FILE,
    objects: 8,
    steps: &[
        Step::Need(TEST, Ask::Truncate(0), ONE_FILE),
        Step::Ask(TEST, Ask::Truncate(0), Want::Ok),
        Step::Ask(A, Ask::Create, Want::Ok),
        Step::Ask(A, Ask::Write(0, b"new"), Want::Count(3)),
        Step::Ask(A, Ask::Rename(TEST), Want::Ok),
        Step::Ask(TEST, Ask::Read(0, 9), Want::Data(b"new")),
    ],
    files: &[(1, 87), (3, 67)],
};

/// A directory takes the place of one without entries, which goes with its file.
const OVER_EMPTY: Row = Row {
    root: ONE_FILE,
    objects: 8,
    steps: &[
        Step::Need(D, Ask::Mkdir, ONE_FILE),
        Step::Ask(D, Ask::Mkdir, Want::Ok),
        Step::Ask(E, Ask::Mkdir, Want::Ok),
        Step::Ask(D_A, Ask::Create, Want::Ok),
        Step::Ask(E, Ask::Rename(D), Want::Err(Errno::ENOTEMPTY)),
        Step::Ask(D, Ask::Rename(E), Want::Ok),
        Step::Ask(D, Ask::Kind, Want::Err(Errno::ENOENT)),
        Step::Ask(E_A, Ask::Kind, Want::Kind(Kind::File)),
    ],
    files: &[(1, 119), (3, 80), (5, 64)],
};

/// A directory with loaded ones below it moves with all of them.
const LOADED: Row = Row {
    root: ONE_FILE,
    objects: 8,
    steps: &[
        Step::Need(D, Ask::Mkdir, ONE_FILE),
        Step::Ask(D, Ask::Mkdir, Want::Ok),
        Step::Ask(D_E, Ask::Mkdir, Want::Ok),
        Step::Ask(D_E_F, Ask::Create, Want::Ok),
        Step::Ask(D, Ask::Rename(E), Want::Ok),
        Step::Ask(D_E_F, Ask::Kind, Want::Err(Errno::ENOENT)),
        Step::Ask(E_E_F, Ask::Kind, Want::Kind(Kind::File)),
        Step::Ask(
            ROOT,
            Ask::List(None, 9),
            Want::Entries(&[(b"e", Kind::Dir), (b"test.txt", Kind::File)], false),
        ),
    ],
    files: &[(1, 119), (3, 80), (4, 80), (5, 64)],
};

/// A directory of the commit moves before anything below it is known.
const UNKNOWN: Row = Row {
    root: TWO_FILES,
    objects: 8,
    steps: &[
        Step::Need(BAK, Ask::Rename(OLD), TWO_FILES),
        Step::Ask(BAK, Ask::Rename(OLD), Want::Ok),
        Step::Ask(BAK, Ask::Kind, Want::Err(Errno::ENOENT)),
        Step::Need(OLD_TEST, Ask::Read(0, 9), ONE_FILE),
        Step::Need(OLD_TEST, Ask::Read(0, 9), VERSION_1),
        Step::Ask(OLD_TEST, Ask::Read(0, 9), Want::Data(b"version 1")),
    ],
    files: &[(1, 179)],
};

/// After its first store the device stops: nothing has moved, and the directory that lacks the entry stays loaded till
/// it is stored again.
const STOPPED: Row = Row {
    root: ONE_FILE,
    objects: 8,
    steps: &[
        Step::Need(D, Ask::Mkdir, ONE_FILE),
        Step::Ask(D, Ask::Mkdir, Want::Ok),
        Step::Ask(E, Ask::Mkdir, Want::Ok),
        Step::Ask(D_A, Ask::Create, Want::Ok),
        Step::Ask(E, Ask::List(None, 9), Want::Entries(&[], false)),
        Step::Pass(1),
        Step::Ask(D_A, Ask::Rename(E_A), Want::Fault(Fault::Overlay)),
        Step::Ask(
            D,
            Ask::List(None, 9),
            Want::Entries(&[(b"a", Kind::File)], false),
        ),
        Step::Ask(E, Ask::List(None, 9), Want::Entries(&[], false)),
        Step::Unload(1),
        Step::Pass(u64::MAX),
        Step::Unload(2),
        Step::Ask(
            D,
            Ask::List(None, 9),
            Want::Entries(&[(b"a", Kind::File)], false),
        ),
    ],
    files: &[(1, 131), (3, 80), (4, 68), (5, 64)],
};

/// A loaded directory of the commit stays loaded, of which no object is needed again. Its numbers are saved, once it is
/// read that they aren't yet, and then a move is two stores: that of the directory that loses the entry, and that of
/// the one that gains it. Before them the one that an earlier fault left unsaved is stored, and it is read that the
/// numbers are saved.
const KEPT_LOADED: Row = Row {
    root: TWO_FILES,
    objects: 1,
    steps: &[
        Step::Need(D, Ask::Mkdir, TWO_FILES),
        Step::Ask(D, Ask::Mkdir, Want::Ok),
        Step::Need(BAK, Ask::List(None, 9), ONE_FILE),
        Step::Ask(BAK, Ask::List(None, 9), TEST_ALONE),
        Step::Need(NEW, Ask::Read(0, 3), NEW_FILE),
        Step::Ask(NEW, Ask::Read(0, 3), Want::Data(b"new")),
        Step::Ask(D, Ask::List(None, 9), Want::Entries(&[], false)),
        Step::Pass(3),
        Step::Ask(BAK, Ask::Rename(D_BAK), Want::Fault(Fault::Overlay)),
        Step::Ask(BAK, Ask::List(None, 9), TEST_ALONE),
        Step::Pass(4),
        Step::Ask(BAK, Ask::Rename(D_BAK), Want::Ok),
        Step::Ask(A, Ask::Create, Want::Fault(Fault::Overlay)),
        Step::Ask(BAK, Ask::Kind, Want::Err(Errno::ENOENT)),
        Step::Ask(D_BAK, Ask::List(None, 9), TEST_ALONE),
    ],
    files: &[(1, 157), (2, 127), (5, 102)],
};

/// Within one directory it is one store, after that of the numbers.
const KEPT_WITHIN: Row = Row {
    root: TWO_FILES,
    objects: 1,
    steps: &[
        Step::Need(D, Ask::Mkdir, TWO_FILES),
        Step::Ask(D, Ask::Mkdir, Want::Ok),
        Step::Need(BAK, Ask::List(None, 9), ONE_FILE),
        Step::Ask(BAK, Ask::List(None, 9), TEST_ALONE),
        Step::Need(NEW, Ask::Read(0, 3), NEW_FILE),
        Step::Pass(3),
        Step::Ask(BAK, Ask::Rename(OLD), Want::Ok),
        Step::Ask(A, Ask::Create, Want::Fault(Fault::Overlay)),
        Step::Ask(OLD, Ask::List(None, 9), TEST_ALONE),
    ],
    files: &[(1, 191), (2, 127), (5, 68)],
};

const ROWS: &[Row] = &[
    BETWEEN,
    NUMBERED,
    NUMBERED_BELOW,
    REFUSED,
    OVER_COMMIT,
    OVER_OWN,
    OVER_EMPTY,
    LOADED,
    UNKNOWN,
    STOPPED,
    KEPT_LOADED,
    KEPT_WITHIN,
];

#[test]
fn renames_are_answered_and_leave_these_files(rt: HostRuntime) {
    check_all(&rt, rt.alloc(), ROWS);
}

/// The path of a first name, and then this many times `a`.
fn deep(rt: &impl Abort, alloc: Global, first: &'static [u8], count: usize) -> Path {
    let mut parts = Vec::new(alloc);
    parts.push(first).expect(rt, "memory");
    for _ in 0..count {
        parts.push(b"a".as_slice()).expect(rt, "memory");
    }
    path(rt, alloc, parts.as_slice())
}

fn is_ok(rt: &impl Abort, mount: &mut Mount, request: &Request) -> bool {
    is_wanted(&mount.answer(rt, request), Want::Ok)
}

/// Whether a directory is there.
fn is_dir(rt: &impl Abort, mount: &mut Mount, at: Path) -> bool {
    let request = Request::Kind(at);
    is_wanted(&mount.answer(rt, &request), Want::Kind(Kind::Dir))
}

/// Directories to the greatest depth.
fn dig(rt: &impl Abort, mount: &mut Mount) {
    for count in 0..256 {
        let at = deep(rt, mount.alloc, b"d", count);
        assert!(rt; is_ok(rt, mount, &Request::Mkdir(at)), "{count}");
    }
}

/// Renames of the path that begins with the one name, to that which begins with the other.
fn move_deep(rt: &impl Abort, mount: &mut Mount, count: usize) -> bool {
    let from = deep(rt, mount.alloc, b"d", count);
    let to = deep(rt, mount.alloc, b"e", 0);
    is_ok(rt, mount, &Request::Rename(from, to))
}

#[test]
fn what_is_deep_moves(rt: HostRuntime) {
    let alloc = rt.alloc();
    let mut mount = Mount::open(&rt, alloc, ONE_FILE, 1);
    dig(&rt, &mut mount);
    assert!(rt; move_deep(&rt, &mut mount, 255));
    assert!(rt; move_deep(&rt, &mut mount, 0));
    assert!(rt; is_dir(&rt, &mut mount, deep(&rt, alloc, b"e", 254)));
    assert!(rt; !is_dir(&rt, &mut mount, deep(&rt, alloc, b"e", 255)));
}

/// The number of the one entry of the directory that is loaded at a path.
fn number_inside(rt: &impl Abort, mount: &Mount, at: &Path) -> u64 {
    let dir = mount
        .table
        .directory(at.as_slice())
        .expect(rt, "a loaded directory");
    assert_eq!(rt; dir.count(), 1);
    let (_, entry) = dir.at(0).expect(rt, "an entry");
    entry.number
}

/// The root's three entries have the numbers from 2 on, and the one of the directory that is loaded next has 5, also
/// if that goes.
#[test]
fn what_goes_along_keeps_its_numbers(rt: HostRuntime) {
    let alloc = rt.alloc();
    let mut mount = Mount::open(&rt, alloc, TWO_FILES, 8);
    let bak = path(&rt, alloc, BAK);
    let old = path(&rt, alloc, OLD);
    let list = Request::List(path(&rt, alloc, BAK), None, 9);
    assert!(rt; is_wanted(&mount.answer(&rt, &list), TEST_ALONE));
    assert_eq!(rt; number_inside(&rt, &mount, &bak), 5);
    let rename = Request::Rename(path(&rt, alloc, BAK), path(&rt, alloc, OLD));
    assert!(rt; is_ok(&rt, &mut mount, &rename));
    assert_eq!(rt; number_inside(&rt, &mount, &old), 5);
}
