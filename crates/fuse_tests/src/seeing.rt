//! What waits is seen by whoever looks, and isn't stored for that, over files in memory.
use crate::calls::{CLOSE, Call, End, FLUSH, SYNC, check};
use crate::flat::Start;
use eden_fuse_format::{Operation, RenameIn};

// A file with the bytes `hello`.
const A: Start = Start {
    names: &[b"a"],
    refused: b"",
    has_disk: true,
};

// .. into which no bytes are put.
const A_AS_IT_IS: Start = Start {
    names: &[b"a"],
    refused: b"a",
    has_disk: true,
};

const SEEN: &[Call] = &[
    Call::Finds(1, b"a"),
    Call::Opens(1),
    Call::Writes(1, 5, b" world"),
    Call::Shows(1, 11),
    Call::Writes(1, 11, b"!"),
    Call::ShowsNamed(b"a", 12),
    Call::Writes(1, 12, b"!"),
    Call::ShowsMade(b"a", 13),
    Call::Reads(1, b"hello world!!"),
    Call::Writes(1, 3, b"p"),
    Call::Reads(1, b"helpo world!!"),
];

const INSIDE: &[Call] = &[
    Call::Finds(1, b"a"),
    Call::Opens(1),
    Call::Writes(1, 1, b"EL"),
    Call::Shows(1, 5),
    Call::ShowsNamed(b"a", 5),
    Call::ShowsMade(b"a", 5),
    Call::Reads(1, b"hELlo"),
    Call::ReadsFrom(1, 0, 1, b"h"),
    Call::ReadsFrom(1, 0, 2, b"hE"),
    Call::ReadsFrom(1, 0, 3, b"hEL"),
    Call::ReadsFrom(1, 0, 4, b"hELl"),
    Call::ReadsFrom(1, 1, 1, b"E"),
    Call::ReadsFrom(1, 1, 2, b"EL"),
    Call::ReadsFrom(1, 2, 9, b"Llo"),
    Call::ReadsFrom(1, 3, 9, b"lo"),
    Call::ReadsFrom(1, 4, 1, b"o"),
    Call::ReadsFrom(1, 5, 9, b""),
    Call::ReadsFrom(1, 9, 9, b""),
    Call::ReadsFrom(1, 1, 0, b""),
];

const OVER_THE_END: &[Call] = &[
    Call::Finds(1, b"a"),
    Call::Opens(1),
    Call::Writes(1, 3, b"LO, all"),
    Call::Shows(1, 10),
    Call::ShowsNamed(b"a", 10),
    Call::Reads(1, b"helLO, all"),
    Call::ReadsFrom(1, 0, 3, b"hel"),
    Call::ReadsFrom(1, 0, 5, b"helLO"),
    Call::ReadsFrom(1, 2, 2, b"lL"),
    Call::ReadsFrom(1, 3, 7, b"LO, all"),
    Call::ReadsFrom(1, 4, 2, b"O,"),
    Call::ReadsFrom(1, 5, 100, b", all"),
    Call::ReadsFrom(1, 7, 100, b"all"),
    Call::ReadsFrom(1, 9, 9, b"l"),
    Call::ReadsFrom(1, 10, 9, b""),
    Call::ReadsFrom(1, 64, 9, b""),
];

const BEHIND_A_GAP: &[Call] = &[
    Call::Finds(1, b"a"),
    Call::Opens(1),
    Call::Writes(1, 8, b"!?"),
    Call::Shows(1, 10),
    Call::ShowsMade(b"a", 10),
    Call::Reads(1, b"hello\0\0\0!?"),
    Call::ReadsFrom(1, 0, 5, b"hello"),
    Call::ReadsFrom(1, 0, 6, b"hello\0"),
    Call::ReadsFrom(1, 4, 2, b"o\0"),
    Call::ReadsFrom(1, 5, 3, b"\0\0\0"),
    Call::ReadsFrom(1, 6, 1, b"\0"),
    Call::ReadsFrom(1, 6, 9, b"\0\0!?"),
    Call::ReadsFrom(1, 7, 2, b"\0!"),
    Call::ReadsFrom(1, 8, 1, b"!"),
    Call::ReadsFrom(1, 9, 9, b"?"),
    Call::ReadsFrom(1, 10, 1, b""),
];

// Whoever looks sees it, by its node and by its name: if it begins in the file, ends after it, or lies after its end.
// It is stored once, at the end.
#[test]
fn what_waits_is_seen(rt: HostRuntime) {
    check(&rt, A, SEEN, End::Patches(1));
    check(&rt, A, INSIDE, End::Patches(1));
    check(&rt, A, OVER_THE_END, End::Patches(1));
    check(&rt, A, BEHIND_A_GAP, End::Patches(1));
}

const NOTHING_WRITTEN: &[Call] = &[
    Call::Finds(1, b"a"),
    Call::Opens(1),
    Call::Writes(1, 9, b""),
    Call::Shows(1, 5),
    Call::ShowsNamed(b"a", 5),
    Call::Reads(1, b"hello"),
    Call::ReadsFrom(1, 3, 9, b"lo"),
    Call::ReadsFrom(1, 7, 9, b""),
    Call::ReadsFrom(1, 10, 9, b""),
];

// A write of no bytes makes no file longer.
#[test]
fn what_has_no_bytes_is_not_seen(rt: HostRuntime) {
    check(&rt, A, NOTHING_WRITTEN, End::Patches(1));
}

const MADE: &[Call] = &[
    Call::Makes(1, b"b"),
    Call::Shows(1, 0),
    Call::Reads(1, b""),
    Call::Writes(1, 2, b"!"),
    Call::Shows(1, 3),
    Call::ShowsNamed(b"b", 3),
    Call::ShowsNamed(b"a", 5),
    Call::Reads(1, b"\0\0!"),
    Call::ReadsFrom(1, 0, 1, b"\0"),
    Call::Tells(0, Operation::Rename(MOVING, b"b", b"c"), 0),
    Call::FindsAgain(1, b"c"),
    Call::ShowsNamed(b"c", 3),
    Call::FindsNone(b"b"),
    Call::Tells(0, Operation::Unlink(b"c"), 0),
    Call::FindsNone(b"c"),
    Call::Shows(1, 3),
    Call::Reads(1, b"\0\0!"),
];

const MOVING: RenameIn = RenameIn { newdir: 1 };

// It goes with its file, be that moved, or removed while it is open; the others have none of it.
#[test]
fn what_waits_is_seen_where_its_file_is(rt: HostRuntime) {
    check(&rt, A, MADE, End::Patches(1));
}

const STORED: &[Call] = &[
    Call::Finds(1, b"a"),
    Call::Opens(1),
    Call::Writes(1, 3, b"p!"),
    Call::Shows(1, 5),
    Call::Tells(1, FLUSH, 0),
    Call::Shows(1, 5),
    Call::Reads(1, b"help!"),
    Call::Writes(1, 5, b"!"),
    Call::ReadsFrom(1, 3, 9, b"p!!"),
    Call::Tells(1, SYNC, 0),
    Call::Shows(1, 6),
    Call::Reads(1, b"help!!"),
    Call::Writes(1, 0, b"HELP"),
    Call::Tells(1, CLOSE, 0),
    Call::Reads(1, b"HELP!!"),
    Call::ShowsNamed(b"a", 6),
];

// What is stored is seen as it was before that.
#[test]
fn what_was_stored_is_seen_as_before(rt: HostRuntime) {
    check(&rt, A, STORED, End::Patches(3));
}

const NOT_STORED: &[Call] = &[
    Call::Finds(1, b"a"),
    Call::Opens(1),
    Call::Writes(1, 3, b"p!!"),
    Call::Shows(1, 6),
    Call::ShowsNamed(b"a", 6),
    Call::Reads(1, b"help!!"),
    Call::Tells(1, FLUSH, 5),
    Call::Shows(1, 6),
    Call::ShowsNamed(b"a", 6),
    Call::ReadsFrom(1, 2, 2, b"lp"),
    Call::Writes(1, 0, b"HEL"),
    Call::Reads(1, b"HELp!!"),
    Call::Tells(1, SYNC, 5),
    Call::Shows(1, 6),
    Call::Reads(1, b"HELp!!"),
    Call::Tells(1, CLOSE, 0),
    Call::Shows(1, 5),
    Call::ShowsNamed(b"a", 5),
    Call::Reads(1, b"hello"),
    Call::Tells(1, FLUSH, 0),
];

// If it can't be stored, whoever looks sees it, and whoever flushes it is told so; once it is dropped, by the last
// close, nobody sees it.
#[test]
fn what_is_not_stored_is_seen_until_it_is_dropped(rt: HostRuntime) {
    check(&rt, A_AS_IT_IS, NOT_STORED, End::Patches(3));
}
