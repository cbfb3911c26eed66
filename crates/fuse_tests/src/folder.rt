//! What the kernel's messages make of files that are removed or replaced while they are open, and of what another run
//! left.
use crate::calls::{CLOSE, Call, End, check};
use crate::flat::Start;
use eden_fuse_format::{Operation, Rename2In, RenameIn};

const A_AND_B: Start = Start {
    names: &[b"a", b"b"],
    refused: b"",
    has_disk: true,
};

// .. of which no rename moves the first.
const A_AND_B_AS_THEY_ARE: Start = Start {
    names: &[b"a", b"b"],
    refused: b"a",
    has_disk: true,
};

const REMOVE_A: Operation<'static> = Operation::Unlink(b"a");

// By the second name, that of a hidden file, node 2 isn't found either.
const REMOVED: &[Call] = &[
    Call::Finds(1, b"a"),
    Call::IsNumbered(1, 2),
    Call::Opens(1),
    Call::Opens(1),
    Call::Tells(0, REMOVE_A, 0),
    Call::FindsNone(b"a"),
    Call::FindsNone(b"\xff\xff\xff\xff2"),
    Call::Lists(96),
    Call::Writes(1, 0, b"world"),
    Call::Reads(1, b"world"),
    Call::Makes(2, b"a"),
    Call::Reads(2, b""),
    Call::Tells(1, CLOSE, 0),
    Call::Reads(1, b"world"),
    Call::Tells(1, CLOSE, 0),
    Call::ReadsNot(1, b"world"),
    Call::Lists(128),
];

// Still read and written, not seen, and gone with the last close; the name is free at once.
#[test]
fn what_is_removed_while_it_is_open_stays(rt: HostRuntime) {
    check(&rt, A_AND_B, REMOVED, End::Files(2));
}

const CLOSED: &[Call] = &[
    Call::Finds(1, b"a"),
    Call::Opens(1),
    Call::Tells(1, CLOSE, 0),
    Call::Tells(0, REMOVE_A, 0),
    Call::ReadsNot(1, b"hello"),
    Call::Makes(2, b"c"),
    Call::Tells(0, Operation::Unlink(b"c"), 0),
    Call::Reads(2, b""),
    Call::Tells(2, CLOSE, 0),
];

// What isn't open is removed at once, and what was closed before.
#[test]
fn what_is_closed_is_removed(rt: HostRuntime) {
    check(&rt, A_AND_B, CLOSED, End::Files(1));
}

const MOVING: RenameIn = RenameIn { newdir: 1 };

const A_TO_B: Operation<'static> = Operation::Rename(MOVING, b"a", b"b");

const REPLACED: &[Call] = &[
    Call::Finds(1, b"b"),
    Call::Opens(1),
    Call::Writes(1, 0, b"world"),
    Call::Tells(0, A_TO_B, 0),
    Call::Finds(2, b"b"),
    Call::Reads(2, b"hello"),
    Call::Reads(1, b"world"),
    Call::Lists(96),
    Call::Tells(1, CLOSE, 0),
];

const NOT_REPLACED: &[Call] = &[
    Call::Finds(1, b"b"),
    Call::Opens(1),
    Call::Tells(0, A_TO_B, 22),
    Call::FindsAgain(1, b"b"),
    Call::Lists(128),
    Call::Tells(1, CLOSE, 0),
];

// The other stays open; and if the rename is refused, it has its name.
#[test]
fn what_is_replaced_while_it_is_open_stays(rt: HostRuntime) {
    check(&rt, A_AND_B, REPLACED, End::Files(1));
    check(&rt, A_AND_B_AS_THEY_ARE, NOT_REPLACED, End::Files(2));
}

// RENAME_NOREPLACE.
const MOVING_IF_FREE: Rename2In = Rename2In {
    newdir: 1,
    flags: 1,
};

const NOT_HIDDEN: &[Call] = &[
    Call::Finds(1, b"b"),
    Call::Opens(1),
    Call::Tells(0, Operation::Rename2(MOVING_IF_FREE, b"a", b"b"), 17),
    Call::FindsAgain(1, b"b"),
    Call::Lists(128),
];

// A rename that is to replace nothing hides nothing.
#[test]
fn what_is_not_to_be_replaced_is_not_hidden(rt: HostRuntime) {
    check(&rt, A_AND_B, NOT_HIDDEN, End::Files(2));
}

const HIDDEN: &[u8] = b"\xff\xff\xff\xff7";

const A_AND_WHAT_WAS_LEFT: Start = Start {
    names: &[HIDDEN, b"a", b"\xff\xff\xff7"],
    refused: b"",
    has_disk: true,
};

const LEFT: &[Call] = &[
    Call::Lists(128),
    Call::Finds(1, b"\xff\xff\xff7"),
    Call::Tells(0, Operation::Lookup(HIDDEN), 2),
    Call::Tells(0, Operation::Unlink(HIDDEN), 1),
    Call::Tells(0, Operation::Rename(MOVING, b"a", HIDDEN), 1),
    Call::Tells(0, Operation::Rename(MOVING, HIDDEN, b"b"), 1),
    Call::MakesNone(HIDDEN),
    Call::Starts,
    Call::Lists(128),
];

// No message may name it, and what a run before left goes at the start; names like it are others.
#[test]
fn what_was_left_goes(rt: HostRuntime) {
    check(&rt, A_AND_WHAT_WAS_LEFT, LEFT, End::Files(2));
}
