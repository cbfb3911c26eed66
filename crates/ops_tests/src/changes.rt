//! Requests that change something: their replies, what they need, and the files that they leave.

use crate::steps::{Ask, D, Names, ROOT, Row, Step, TEST, Want, check_all};
use eden_model::{Errno, Fault, Kind};
use test_samples::{ONE_FILE, TWO_FILES, VERSION_1};

const LINK: Names = &[b"l"];

const D_F: Names = &[b"d", b"f"];

const BAK_TEST: Names = &[b"bak", b"test.txt"];

/// A write after the end leaves zeros between. The file is stored in its directory's stead, and then that.
const WRITTEN: Row = Row {
    root: ONE_FILE,
    objects: 8,
    steps: &[
        Step::Need(TEST, Ask::Write(12, b"!"), ONE_FILE),
        Step::Need(TEST, Ask::Write(12, b"!"), VERSION_1),
        Step::Ask(TEST, Ask::Write(12, b"!"), Want::Count(1)),
        Step::Ask(TEST, Ask::Read(0, 100), Want::Data(b"version 1\n\0\0!")),
        Step::Ask(TEST, Ask::Stat, Want::Stat(Kind::File, 13, 2)),
    ],
    files: &[(1, 87), (2, 77)],
};

/// A write over part of a content, and one that brings nothing.
const OVERWRITTEN: Row = Row {
    root: ONE_FILE,
    objects: 8,
    steps: &[
        Step::Need(TEST, Ask::Write(5, b""), ONE_FILE),
        Step::Ask(TEST, Ask::Write(5, b""), Want::Count(0)),
        Step::Need(TEST, Ask::Write(8, b"2"), VERSION_1),
        Step::Ask(TEST, Ask::Write(8, b"2"), Want::Count(1)),
        Step::Ask(TEST, Ask::Read(0, 9), Want::Data(b"version 2")),
        Step::Ask(ROOT, Ask::Write(0, b"x"), Want::Err(Errno::EISDIR)),
        Step::Ask(D, Ask::Write(0, b"x"), Want::Err(Errno::ENOENT)),
    ],
    files: &[(1, 87), (2, 74)],
};

/// A patch needs what a write does, and may be longer. Its file is stored once.
const PATCHED: Row = Row {
    root: ONE_FILE,
    objects: 8,
    steps: &[
        Step::Need(TEST, Ask::Patch(8, b"2"), ONE_FILE),
        Step::Ask(TEST, Ask::Patch(5, b""), Want::Count(0)),
        Step::Need(TEST, Ask::Patch(8, b"2"), VERSION_1),
        Step::Ask(TEST, Ask::Patch(8, b"2"), Want::Count(1)),
        Step::Ask(TEST, Ask::WriteLong(12), Want::Err(Errno::EINVAL)),
        Step::Ask(TEST, Ask::PatchLong(12), Want::Count(65_537)),
        Step::Ask(TEST, Ask::Read(0, 14), Want::Data(b"version 2\n\0\0aa")),
        Step::Ask(TEST, Ask::PatchLong(1_073_676_288), Want::Err(Errno::EFBIG)),
        Step::Ask(TEST, Ask::Stat, Want::Stat(Kind::File, 65_549, 2)),
    ],
    files: &[(1, 87), (2, 65_613)],
};

/// A write of nothing leaves no file.
const NOT_WRITTEN: Row = Row {
    root: ONE_FILE,
    objects: 8,
    steps: &[
        Step::Need(TEST, Ask::Write(5, b""), ONE_FILE),
        Step::Ask(TEST, Ask::Write(5, b""), Want::Count(0)),
        Step::Ask(TEST, Ask::Write(1 << 30, b"x"), Want::Err(Errno::EFBIG)),
    ],
    files: &[],
};

/// Cut to nothing, a file needs no content.
const CUT: Row = Row {
    root: ONE_FILE,
    objects: 8,
    steps: &[
        Step::Need(TEST, Ask::Truncate((1 << 30) + 1), ONE_FILE),
        Step::Ask(TEST, Ask::Truncate((1 << 30) + 1), Want::Err(Errno::EFBIG)),
        Step::Ask(TEST, Ask::Truncate(0), Want::Ok),
        Step::Ask(TEST, Ask::Read(0, 9), Want::Data(b"")),
    ],
    files: &[(1, 87), (2, 64)],
};

/// Made longer, a file has zeros at its end.
const FILLED: Row = Row {
    root: ONE_FILE,
    objects: 8,
    steps: &[
        Step::Need(TEST, Ask::Truncate(12), ONE_FILE),
        Step::Need(TEST, Ask::Truncate(12), VERSION_1),
        Step::Ask(TEST, Ask::Truncate(12), Want::Ok),
        Step::Ask(TEST, Ask::Read(8, 9), Want::Data(b"1\n\0\0")),
        Step::Ask(TEST, Ask::Truncate(7), Want::Ok),
        Step::Ask(TEST, Ask::Read(0, 9), Want::Data(b"version")),
        Step::Ask(ROOT, Ask::Truncate(0), Want::Err(Errno::EISDIR)),
    ],
    files: &[(1, 87), (2, 71)],
};

/// A file of the commit becomes executable: it has no file of its own, but its directory has.
const TURNED: Row = Row {
    root: ONE_FILE,
    objects: 8,
    steps: &[
        Step::Need(TEST, Ask::SetExec(true), ONE_FILE),
        Step::Ask(TEST, Ask::SetExec(true), Want::Ok),
        Step::Ask(TEST, Ask::Kind, Want::Kind(Kind::Exec)),
        Step::Ask(ROOT, Ask::SetExec(true), Want::Err(Errno::EISDIR)),
    ],
    files: &[(1, 107)],
};

/// Executable already, it stays as it is; with a content of its own it has a file.
const TURNED_AND_WRITTEN: Row = Row {
    root: ONE_FILE,
    objects: 8,
    steps: &[
        Step::Need(TEST, Ask::SetExec(true), ONE_FILE),
        Step::Ask(TEST, Ask::SetExec(true), Want::Ok),
        Step::Ask(TEST, Ask::SetExec(true), Want::Ok),
        Step::Need(TEST, Ask::Write(12, b"!"), VERSION_1),
        Step::Ask(TEST, Ask::Write(12, b"!"), Want::Count(1)),
        Step::Ask(TEST, Ask::Kind, Want::Kind(Kind::Exec)),
    ],
    files: &[(1, 87), (2, 77)],
};

/// A file of the commit that is plain already, in the root and deeper: once its directory is loaded it is made plain
/// over a device that fails, and nothing else, and no file is left.
const PLAIN_ALREADY: Row = Row {
    root: TWO_FILES,
    objects: 8,
    steps: &[
        Step::Need(BAK_TEST, Ask::SetExec(false), TWO_FILES),
        Step::Need(BAK_TEST, Ask::SetExec(false), ONE_FILE),
        Step::Ask(BAK_TEST, Ask::Kind, Want::Kind(Kind::File)),
        Step::Pass(0),
        Step::Ask(BAK_TEST, Ask::SetExec(false), Want::Ok),
        Step::Ask(BAK_TEST, Ask::SetExec(true), Want::Fault(Fault::Overlay)),
        Step::Ask(BAK_TEST, Ask::SetExec(false), Want::Ok),
        Step::Ask(&[b"new.txt"], Ask::SetExec(false), Want::Ok),
        Step::Ask(BAK_TEST, Ask::Kind, Want::Kind(Kind::File)),
    ],
    files: &[],
};

/// Once executable, in the root and deeper, a file is made so again over a device that fails, and the files stay.
const EXECUTABLE_ALREADY: Row = Row {
    root: ONE_FILE,
    objects: 8,
    steps: &[
        Step::Need(D, Ask::Mkdir, ONE_FILE),
        Step::Ask(D, Ask::Mkdir, Want::Ok),
        Step::Ask(D_F, Ask::Create, Want::Ok),
        Step::Ask(D_F, Ask::SetExec(true), Want::Ok),
        Step::Ask(TEST, Ask::SetExec(true), Want::Ok),
        Step::Pass(0),
        Step::Ask(D_F, Ask::SetExec(true), Want::Ok),
        Step::Ask(TEST, Ask::SetExec(true), Want::Ok),
        Step::Ask(D_F, Ask::SetExec(false), Want::Fault(Fault::Overlay)),
        Step::Ask(TEST, Ask::SetExec(false), Want::Fault(Fault::Overlay)),
        Step::Ask(D_F, Ask::SetExec(true), Want::Ok),
        Step::Ask(TEST, Ask::SetExec(true), Want::Ok),
        Step::Ask(D_F, Ask::Kind, Want::Kind(Kind::Exec)),
        Step::Ask(TEST, Ask::Kind, Want::Kind(Kind::Exec)),
    ],
    files: &[(1, 119), (3, 80), (4, 64)],
};

/// Directories, files and links come and go; none of it needs a content.
const COMES: Row = Row {
    root: ONE_FILE,
    objects: 8,
    steps: &[
        Step::Need(D, Ask::Mkdir, ONE_FILE),
        Step::Ask(D, Ask::Mkdir, Want::Ok),
        Step::Ask(D, Ask::Mkdir, Want::Err(Errno::EEXIST)),
        Step::Ask(D_F, Ask::Create, Want::Ok),
        Step::Ask(D_F, Ask::Create, Want::Err(Errno::EEXIST)),
        Step::Ask(D_F, Ask::Stat, Want::Stat(Kind::File, 0, 4)),
        Step::Ask(LINK, Ask::Symlink(b"a/b"), Want::Ok),
        Step::Ask(LINK, Ask::ReadLink, Want::Data(b"a/b")),
        Step::Ask(LINK, Ask::Write(0, b"x"), Want::Err(Errno::EINVAL)),
        Step::Ask(LINK, Ask::SetExec(true), Want::Err(Errno::EINVAL)),
        Step::Ask(&[b"m"], Ask::Symlink(b""), Want::Err(Errno::ENOENT)),
    ],
    files: &[(1, 131), (3, 80), (4, 64), (5, 67)],
};

const GOES: Row = Row {
    root: ONE_FILE,
    objects: 8,
    steps: &[
        Step::Need(D, Ask::Mkdir, ONE_FILE),
        Step::Ask(D, Ask::Mkdir, Want::Ok),
        Step::Ask(D_F, Ask::Create, Want::Ok),
        Step::Ask(D, Ask::Unlink, Want::Err(Errno::EISDIR)),
        Step::Ask(D, Ask::Rmdir, Want::Err(Errno::ENOTEMPTY)),
        Step::Ask(D_F, Ask::Rmdir, Want::Err(Errno::ENOTDIR)),
        Step::Ask(D_F, Ask::Unlink, Want::Ok),
        Step::Ask(D_F, Ask::Unlink, Want::Err(Errno::ENOENT)),
        Step::Ask(D, Ask::Rmdir, Want::Ok),
        Step::Ask(D, Ask::Rmdir, Want::Err(Errno::ENOENT)),
        Step::Ask(ROOT, Ask::Rmdir, Want::Err(Errno::EBUSY)),
        Step::Ask(ROOT, Ask::Unlink, Want::Err(Errno::EISDIR)),
        Step::Ask(TEST, Ask::Unlink, Want::Ok),
    ],
    files: &[(1, 68)],
};

/// The files can't be stored: then nothing has changed, and once they can, all continues.
const FAILED: Row = Row {
    root: ONE_FILE,
    objects: 8,
    steps: &[
        Step::Need(TEST, Ask::Truncate(0), ONE_FILE),
        Step::Ask(TEST, Ask::Kind, Want::Kind(Kind::File)),
        Step::Pass(0),
        Step::Ask(TEST, Ask::Truncate(0), Want::Fault(Fault::Overlay)),
        Step::Ask(TEST, Ask::SetExec(true), Want::Fault(Fault::Overlay)),
        Step::Ask(TEST, Ask::Unlink, Want::Fault(Fault::Overlay)),
        Step::Ask(D, Ask::Mkdir, Want::Fault(Fault::Overlay)),
        Step::Ask(TEST, Ask::Kind, Want::Kind(Kind::File)),
        Step::Ask(D, Ask::Kind, Want::Err(Errno::ENOENT)),
        Step::Pass(u64::MAX),
        Step::Ask(TEST, Ask::Truncate(0), Want::Ok),
        Step::Ask(TEST, Ask::Stat, Want::Stat(Kind::File, 0, 2)),
    ],
    files: &[(1, 87), (2, 64)],
};

/// Whether numbers are saved for a directory of the commit can't be told by a device that fails: it isn't loaded then,
/// though its object is there, and is once it can be told.
const UNTOLD: Row = Row {
    root: ONE_FILE,
    objects: 8,
    steps: &[
        Step::Pass(0),
        Step::Ask(TEST, Ask::Kind, Want::Fault(Fault::Overlay)),
        Step::Pass(1),
        Step::Need(TEST, Ask::Kind, ONE_FILE),
        Step::Ask(TEST, Ask::Kind, Want::Fault(Fault::Overlay)),
        Step::Pass(1),
        Step::Ask(TEST, Ask::Kind, Want::Kind(Kind::File)),
    ],
    files: &[],
};

const ROWS: &[Row] = &[
    WRITTEN,
    OVERWRITTEN,
    PATCHED,
    NOT_WRITTEN,
    CUT,
    FILLED,
    TURNED,
    TURNED_AND_WRITTEN,
    PLAIN_ALREADY,
    EXECUTABLE_ALREADY,
    COMES,
    GOES,
    FAILED,
    UNTOLD,
];

#[test]
fn changes_are_answered_and_leave_these_files(rt: HostRuntime) {
    check_all(&rt, rt.alloc(), ROWS);
}
