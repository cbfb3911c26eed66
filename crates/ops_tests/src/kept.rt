//! Own files that are read and written in pieces: how often their contents are asked of the files.

use crate::mount::KEPT;
use crate::steps::{Ask, Names, Row, Step, Want, check};
use eden_model::{Fault, Kind};
use test_samples::ONE_FILE;

const A: Names = &[b"a"];

const B: Names = &[b"b"];

const C: Names = &[b"c"];

/// Two files in turn, two pages and a length of each, are one read each: here none, since both were just written.
const IN_TURN: Row = Row {
    root: ONE_FILE,
    objects: 8,
    steps: &[
        Step::Need(A, Ask::Create, ONE_FILE),
        Step::Ask(A, Ask::Create, Want::Ok),
        Step::Ask(A, Ask::Write(0, b"content of a"), Want::Count(12)),
        Step::Ask(B, Ask::Create, Want::Ok),
        Step::Ask(B, Ask::Write(0, b"of b"), Want::Count(4)),
        Step::Pass(0),
        Step::Ask(A, Ask::Read(0, 7), Want::Data(b"content")),
        Step::Ask(B, Ask::Read(0, 2), Want::Data(b"of")),
        Step::Ask(A, Ask::Read(7, 7), Want::Data(b" of a")),
        Step::Ask(B, Ask::Read(2, 9), Want::Data(b" b")),
        Step::Ask(A, Ask::Stat, Want::Stat(Kind::File, 12, 3)),
        Step::Ask(B, Ask::Stat, Want::Stat(Kind::File, 4, 4)),
    ],
    files: &[(1, 131), (3, 76), (4, 68)],
};

/// A piece that is written is one store and no read, and is read without one. What couldn't be written isn't read, and
/// of a file that has gone nothing is.
const WRITTEN_IN_PIECES: Row = Row {
    root: ONE_FILE,
    objects: 8,
    steps: &[
        Step::Need(A, Ask::Create, ONE_FILE),
        Step::Ask(A, Ask::Create, Want::Ok),
        Step::Pass(1),
        Step::Ask(A, Ask::Write(0, b"content"), Want::Count(7)),
        Step::Ask(A, Ask::Read(0, 9), Want::Data(b"content")),
        Step::Pass(2),
        Step::Ask(A, Ask::Write(0, b"C"), Want::Count(1)),
        Step::Ask(A, Ask::Truncate(9), Want::Ok),
        Step::Ask(A, Ask::Read(0, 9), Want::Data(b"Content\0\0")),
        Step::Ask(A, Ask::Write(0, b"x"), Want::Fault(Fault::Overlay)),
        Step::Pass(1),
        Step::Ask(A, Ask::Read(0, 9), Want::Data(b"Content\0\0")),
        Step::Ask(A, Ask::Read(7, 9), Want::Data(b"\0\0")),
        Step::Pass(u64::MAX),
        Step::Ask(A, Ask::Unlink, Want::Ok),
        Step::Ask(A, Ask::Create, Want::Ok),
        Step::Ask(A, Ask::Read(0, 9), Want::Data(b"")),
    ],
    files: &[(1, 119), (4, 64)],
};

/// A content stays if its directory goes: only that is read again.
const UNLOADED_BETWEEN: Row = Row {
    root: ONE_FILE,
    objects: 8,
    steps: &[
        Step::Need(A, Ask::Create, ONE_FILE),
        Step::Ask(A, Ask::Create, Want::Ok),
        Step::Ask(A, Ask::Write(0, b"content"), Want::Count(7)),
        Step::Unload(1),
        Step::Pass(1),
        Step::Ask(A, Ask::Read(0, 9), Want::Data(b"content")),
        Step::Ask(A, Ask::Stat, Want::Stat(Kind::File, 7, 3)),
    ],
    files: &[(1, 119), (3, 71)],
};

/// With room for four bytes, a content of five stays alone, until another is used.
const TOO_LONG: Row = Row {
    root: ONE_FILE,
    objects: 8,
    steps: &[
        Step::Need(A, Ask::Create, ONE_FILE),
        Step::Ask(A, Ask::Create, Want::Ok),
        Step::Ask(A, Ask::Write(0, b"abcde"), Want::Count(5)),
        Step::Ask(B, Ask::Create, Want::Ok),
        Step::Ask(B, Ask::Write(0, b"abcd"), Want::Count(4)),
        Step::Pass(1),
        Step::Ask(A, Ask::Read(0, 2), Want::Data(b"ab")),
        Step::Ask(A, Ask::Read(2, 2), Want::Data(b"cd")),
        Step::Ask(B, Ask::Read(0, 2), Want::Fault(Fault::Overlay)),
    ],
    files: &[(1, 131), (3, 69), (4, 68)],
};

/// A content of over 1 MiB that isn't kept is read whole once, and then a part with each request.
const IN_PARTS: Row = Row {
    root: ONE_FILE,
    objects: 8,
    steps: &[
        Step::Need(A, Ask::Create, ONE_FILE),
        Step::Ask(A, Ask::Create, Want::Ok),
        Step::Ask(A, Ask::Truncate(2 << 20), Want::Ok),
        Step::Ask(B, Ask::Create, Want::Ok),
        Step::Pass(2),
        Step::Ask(A, Ask::Read(1 << 20, 2), Want::Data(b"\0\0")),
        Step::Ask(A, Ask::Read((2 << 20) - 1, 9), Want::Data(b"\0")),
        Step::Ask(B, Ask::Read(0, 9), Want::Data(b"")),
        Step::Ask(A, Ask::Read(0, 2), Want::Fault(Fault::Overlay)),
        Step::Pass(1),
        Step::Ask(A, Ask::Read(2 << 20, 9), Want::Data(b"")),
    ],
    files: &[(1, 131), (3, (2 << 20) + 64), (4, 64)],
};

/// Of two contents that have no room together the one goes that was used first.
const LAST_USED: Row = Row {
    root: ONE_FILE,
    objects: 8,
    steps: &[
        Step::Need(A, Ask::Create, ONE_FILE),
        Step::Ask(A, Ask::Create, Want::Ok),
        Step::Ask(A, Ask::Write(0, b"ab"), Want::Count(2)),
        Step::Ask(B, Ask::Create, Want::Ok),
        Step::Ask(B, Ask::Write(0, b"cd"), Want::Count(2)),
        Step::Ask(A, Ask::Read(0, 9), Want::Data(b"ab")),
        Step::Ask(C, Ask::Create, Want::Ok),
        Step::Ask(C, Ask::Write(0, b"ef"), Want::Count(2)),
        Step::Pass(0),
        Step::Ask(A, Ask::Read(0, 9), Want::Data(b"ab")),
        Step::Ask(C, Ask::Read(0, 9), Want::Data(b"ef")),
        Step::Ask(B, Ask::Read(0, 9), Want::Fault(Fault::Overlay)),
    ],
    files: &[(1, 143), (3, 66), (4, 66), (5, 66)],
};

#[test]
fn a_content_that_was_read_or_stored_is_not_read_again(rt: HostRuntime) {
    for row in [IN_TURN, WRITTEN_IN_PIECES, UNLOADED_BETWEEN] {
        check(&rt, rt.alloc(), row, KEPT);
    }
    for row in [TOO_LONG, IN_PARTS, LAST_USED] {
        check(&rt, rt.alloc(), row, 4);
    }
}
