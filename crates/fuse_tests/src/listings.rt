//! How a directory is listed: `.` and `..` come first, and what the last listing had is told without another.
use crate::calls::{Call, End, check};
use crate::flat::Start;
use eden_fuse_format::{Operation, ReadIn, RenameIn};

const A_AND_B: Start = Start {
    names: &[b"a", b"b"],
    refused: b"",
    has_disk: true,
};

// Rows: no number of a node, where to read on, how long the name is, its type, and the name.
const ITSELF: &[u8] =
    b"\xff\xff\xff\xff\0\0\0\0\x01\0\0\0\0\0\0\0\x01\0\0\0\x04\0\0\0.\0\0\0\0\0\0\0";

const ABOVE: &[u8] =
    b"\xff\xff\xff\xff\0\0\0\0\x02\0\0\0\0\0\0\0\x02\0\0\0\x04\0\0\0..\0\0\0\0\0\0";

const A: &[u8] = b"\xff\xff\xff\xff\0\0\0\0\x03\0\0\0\0\0\0\0\x01\0\0\0\x08\0\0\0a\0\0\0\0\0\0\0";

const B: &[u8] = b"\xff\xff\xff\xff\0\0\0\0\x04\0\0\0\0\0\0\0\x01\0\0\0\x08\0\0\0b\0\0\0\0\0\0\0";

// From an offset that no listing of a handle had.
const FROM_NOWHERE: Operation<'static> = Operation::ReadDir(ReadIn {
    fh: 7,
    offset: 3,
    size: 1000,
    read_flags: 0,
    lock_owner: 0,
    flags: 0,
});

const LISTED: &[Call] = &[
    Call::Tells(0, FROM_NOWHERE, 22),
    Call::Rows(0, 1000, &[ITSELF, ABOVE, A, B]),
    Call::Rows(1, 1000, &[ABOVE, A, B]),
    Call::Rows(2, 1000, &[A, B]),
    Call::Rows(3, 1000, &[B]),
    Call::Rows(4, 1000, &[]),
    Call::Tells(0, FROM_NOWHERE, 22),
];

// From each offset on. The files are listed anew wherever the dots are told, or only passed over, and nowhere else.
#[test]
fn dots_come_first(rt: HostRuntime) {
    check(&rt, A_AND_B, LISTED, End::Files(2));
    check(&rt, A_AND_B, LISTED, End::Lists(3));
}

const FITTING: &[Call] = &[
    Call::Rows(0, 31, &[]),
    Call::Rows(0, 32, &[ITSELF]),
    Call::Rows(0, 63, &[ITSELF]),
    Call::Rows(0, 64, &[ITSELF, ABOVE]),
    Call::Rows(1, 32, &[ABOVE]),
    Call::Rows(2, 32, &[A]),
    Call::Rows(3, 32, &[B]),
    Call::Rows(4, 32, &[]),
    Call::Rows(1, 64, &[ABOVE, A]),
    Call::Rows(3, 64, &[B]),
];

// As many as fit, and the others when it is read on.
#[test]
fn rows_that_fit_are_told(rt: HostRuntime) {
    check(&rt, A_AND_B, FITTING, End::Files(2));
}

// Between two reads the first file goes.
const CHANGED: &[Call] = &[
    Call::Rows(0, 96, &[ITSELF, ABOVE, A]),
    Call::Tells(0, Operation::Unlink(b"a"), 0),
    Call::Rows(3, 32, &[B]),
    Call::Rows(4, 32, &[]),
];

// No name is passed over, and none is told twice.
#[test]
fn what_goes_makes_no_other_be_passed_over(rt: HostRuntime) {
    check(&rt, A_AND_B, CHANGED, End::Files(1));
}

const A_TO_E: Start = Start {
    names: &[b"e", b"c", b"a", b"d", b"b"],
    refused: b"",
    has_disk: true,
};

const A_TO_C: Start = Start {
    names: &[b"a", b"b", b"c"],
    refused: b"",
    has_disk: true,
};

const C: &[u8] = b"\xff\xff\xff\xff\0\0\0\0\x05\0\0\0\0\0\0\0\x01\0\0\0\x08\0\0\0c\0\0\0\0\0\0\0";

const D: &[u8] = b"\xff\xff\xff\xff\0\0\0\0\x06\0\0\0\0\0\0\0\x01\0\0\0\x08\0\0\0d\0\0\0\0\0\0\0";

const E: &[u8] = b"\xff\xff\xff\xff\0\0\0\0\x07\0\0\0\0\0\0\0\x01\0\0\0\x08\0\0\0e\0\0\0\0\0\0\0";

// Names that come after all others, as the first three, and as the fifth and sixth.
const X: &[u8] = b"\xff\xff\xff\xff\0\0\0\0\x03\0\0\0\0\0\0\0\x01\0\0\0\x08\0\0\0x\0\0\0\0\0\0\0";

const Y: &[u8] = b"\xff\xff\xff\xff\0\0\0\0\x04\0\0\0\0\0\0\0\x01\0\0\0\x08\0\0\0y\0\0\0\0\0\0\0";

const Z: &[u8] = b"\xff\xff\xff\xff\0\0\0\0\x05\0\0\0\0\0\0\0\x01\0\0\0\x08\0\0\0z\0\0\0\0\0\0\0";

const X_BEHIND_E: &[u8] =
    b"\xff\xff\xff\xff\0\0\0\0\x08\0\0\0\0\0\0\0\x01\0\0\0\x08\0\0\0x\0\0\0\0\0\0\0";

const Z_BEHIND_X: &[u8] =
    b"\xff\xff\xff\xff\0\0\0\0\x09\0\0\0\0\0\0\0\x01\0\0\0\x08\0\0\0z\0\0\0\0\0\0\0";

// Three files are listed at once.
const PAGES: &[Call] = &[
    Call::Rows(0, 96, &[ITSELF, ABOVE, A]),
    Call::Rows(3, 32, &[B]),
    Call::Rows(4, 1000, &[C]),
    Call::Rows(3, 1000, &[B, C]),
    Call::Rows(5, 32, &[D]),
    Call::Rows(6, 32, &[E]),
    Call::Rows(7, 32, &[]),
    Call::Rows(6, 1000, &[E]),
    Call::Rows(7, 1000, &[]),
];

const AGAIN: &[Call] = &[
    Call::Rows(0, 1000, &[ITSELF, ABOVE, A, B, C]),
    Call::Rows(5, 1000, &[D, E]),
    Call::Rows(0, 1000, &[ITSELF, ABOVE, A, B, C]),
    Call::Rows(5, 1000, &[D, E]),
    Call::Rows(5, 1000, &[D, E]),
    Call::Rows(7, 1000, &[]),
];

// Pages come one after another, each listed once however it is read, and the end of the last one is known.
#[test]
fn what_was_listed_is_told_without_another(rt: HostRuntime) {
    check(&rt, A_TO_E, PAGES, End::Lists(2));
    check(&rt, A_TO_E, AGAIN, End::Lists(4));
}

const MOVING: RenameIn = RenameIn { newdir: 1 };

const A_TO_X: Operation<'static> = Operation::Rename(MOVING, b"a", b"x");

const MOVE_ON: &[Call] = &[
    Call::Rows(0, 96, &[ITSELF, ABOVE, A]),
    Call::Tells(0, A_TO_X, 0),
    Call::Rows(3, 32, &[B]),
    Call::Tells(0, Operation::Rename(MOVING, b"b", b"y"), 0),
    Call::Rows(4, 32, &[C]),
    Call::Tells(0, Operation::Rename(MOVING, b"c", b"z"), 0),
    Call::Rows(5, 32, &[]),
    Call::Rows(0, 1000, &[ITSELF, ABOVE, X, Y, Z]),
    Call::Rows(5, 1000, &[]),
];

// Names that move on while a directory is read are told once, and so it ends; who reads it anew sees them.
#[test]
fn names_that_move_on_are_told_once(rt: HostRuntime) {
    check(&rt, A_TO_C, MOVE_ON, End::Lists(2));
}

const MOVE_BEHIND_A_PAGE: &[Call] = &[
    Call::Rows(0, 1000, &[ITSELF, ABOVE, A, B, C]),
    Call::Tells(0, A_TO_X, 0),
    Call::Rows(5, 1000, &[D, E, X_BEHIND_E]),
    Call::Tells(0, Operation::Rename(MOVING, b"d", b"z"), 0),
    Call::Rows(6, 1000, &[E, X_BEHIND_E]),
    Call::Rows(8, 1000, &[]),
];

const MOVE_BEHIND_TWO: &[Call] = &[
    Call::Makes(1, b"x"),
    Call::Rows(0, 1000, &[ITSELF, ABOVE, A, B, C]),
    Call::Rows(5, 32, &[D]),
    Call::Makes(2, b"z"),
    Call::Rows(6, 1000, &[E, X_BEHIND_E]),
    Call::Rows(8, 1000, &[]),
];

const FOUND_BEHIND_TWO: &[Call] = &[
    Call::Makes(1, b"x"),
    Call::Makes(2, b"z"),
    Call::Rows(0, 1000, &[ITSELF, ABOVE, A, B, C]),
    Call::Rows(5, 1000, &[D, E, X_BEHIND_E]),
    Call::Tells(0, Operation::Unlink(b"x"), 0),
    Call::Rows(8, 1000, &[Z_BEHIND_X]),
    Call::Rows(9, 1000, &[]),
];

// .. those of a page that isn't listed yet are told with it, and those that come after one that had no more aren't.
#[test]
fn names_behind_a_page_are_told_with_the_next(rt: HostRuntime) {
    check(&rt, A_TO_E, MOVE_BEHIND_A_PAGE, End::Lists(2));
    check(&rt, A_TO_E, MOVE_BEHIND_TWO, End::Lists(2));
    check(&rt, A_TO_E, FOUND_BEHIND_TWO, End::Lists(3));
}

const GONE: &[Call] = &[
    Call::Rows(0, 1000, &[ITSELF, ABOVE, A, B, C]),
    Call::Tells(0, Operation::Unlink(b"b"), 0),
    Call::Rows(3, 1000, &[B, C]),
    Call::Tells(0, Operation::Unlink(b"d"), 0),
    Call::Tells(0, Operation::Unlink(b"e"), 0),
    Call::Rows(5, 1000, &[]),
    Call::Makes(1, b"f"),
    Call::Rows(5, 1000, &[]),
    Call::Rows(2, 1000, &[A, C_BEHIND_A, F]),
];

const C_BEHIND_A: &[u8] =
    b"\xff\xff\xff\xff\0\0\0\0\x04\0\0\0\0\0\0\0\x01\0\0\0\x08\0\0\0c\0\0\0\0\0\0\0";

const F: &[u8] = b"\xff\xff\xff\xff\0\0\0\0\x05\0\0\0\0\0\0\0\x01\0\0\0\x08\0\0\0f\0\0\0\0\0\0\0";

// What went since it was listed is told still; if no more came that is the end, also when a name comes then.
#[test]
fn what_went_is_told_until_it_is_listed_anew(rt: HostRuntime) {
    check(&rt, A_TO_E, GONE, End::Lists(3));
}
