//! What is written waits, and when it is stored, over files in memory.
use crate::calls::{CLOSE, Call, End, FLUSH, SYNC, SYNC_DIRECTORY, check};
use crate::flat::Start;
use eden_fuse_format::Operation;

const A: Start = Start {
    names: &[b"a"],
    refused: b"",
    has_disk: true,
};

const A_AND_B: Start = Start {
    names: &[b"a", b"b"],
    refused: b"",
    has_disk: true,
};

// .. of which the first, or the second, is one into which no bytes are put.
const A_AS_IT_IS_AND_B: Start = Start {
    names: &[b"a", b"b"],
    refused: b"a",
    has_disk: true,
};

const A_AND_B_AS_IT_IS: Start = Start {
    names: &[b"a", b"b"],
    refused: b"b",
    has_disk: true,
};

// .. and only one, into which no bytes are put.
const A_AS_IT_IS: Start = Start {
    names: &[b"a"],
    refused: b"a",
    has_disk: true,
};

const A_WITHOUT_DISK: Start = Start {
    names: &[b"a"],
    refused: b"",
    has_disk: false,
};

const GOES_ON: &[Call] = &[
    Call::Finds(1, b"a"),
    Call::Opens(1),
    Call::Writes(1, 0, b"one, "),
    Call::Writes(1, 5, b"two, "),
    Call::Writes(1, 10, b"three"),
    Call::Tells(1, FLUSH, 0),
    Call::Tells(1, FLUSH, 0),
    Call::Tells(1, SYNC, 0),
    Call::Tells(1, CLOSE, 0),
    Call::Reads(1, b"one, two, three"),
];

// Writes one after another are stored by one request, at `close` or `fsync`.
#[test]
fn what_goes_on_is_stored_once(rt: HostRuntime) {
    check(&rt, A, GOES_ON, End::Stores(1));
}

const NOT_CLOSED: &[Call] = &[
    Call::Finds(1, b"a"),
    Call::Opens(1),
    Call::Finds(2, b"b"),
    Call::Opens(2),
    Call::Writes(1, 0, b"1"),
    Call::Writes(2, 0, b"2"),
    Call::Writes(1, 1, b"1"),
    Call::Writes(2, 1, b"2"),
];

// What isn't closed is stored at the end.
#[test]
fn what_is_left_is_stored_at_the_end(rt: HostRuntime) {
    check(&rt, A_AND_B, NOT_CLOSED, End::Stores(2));
}

// What can't be stored then is told, be it the first or the last that waits, and the other is stored all the same.
#[test]
fn what_is_lost_at_the_end_is_told(rt: HostRuntime) {
    check(&rt, A_AS_IT_IS_AND_B, NOT_CLOSED, End::Loses(1, 5));
    check(&rt, A_AND_B_AS_IT_IS, NOT_CLOSED, End::Loses(1, 5));
}

const A_REMOVED: &[Call] = &[
    Call::Finds(1, b"a"),
    Call::Finds(2, b"b"),
    Call::Writes(1, 0, b"1"),
    Call::Writes(2, 0, b"2"),
    Call::Tells(0, Operation::Unlink(b"a"), 0),
];

const B_REMOVED: &[Call] = &[
    Call::Finds(1, b"a"),
    Call::Finds(2, b"b"),
    Call::Writes(1, 0, b"1"),
    Call::Writes(2, 0, b"2"),
    Call::Tells(0, Operation::Unlink(b"b"), 0),
];

// The first error is told: a node at no place is `ESTALE`, 116 in Linux, and what the mount doesn't do is `EIO`, 5.
#[test]
fn the_first_loss_is_told(rt: HostRuntime) {
    check(&rt, A_AND_B_AS_IT_IS, A_REMOVED, End::Loses(0, 116));
    check(&rt, A_AS_IT_IS_AND_B, B_REMOVED, End::Loses(0, 5));
}

const WRITTEN_OVER: &[Call] = &[
    Call::Finds(1, b"a"),
    Call::Opens(1),
    Call::Writes(1, 2, b"one two three"),
    Call::Writes(1, 6, b"TWO"),
    Call::Writes(1, 10, b"four and more"),
    Call::Writes(1, 2, b"O"),
    Call::Writes(1, 23, b"!"),
    Call::Writes(1, 23, b""),
    Call::Tells(1, FLUSH, 0),
    Call::Reads(1, b"heOne TWO four and more!"),
];

// What is written over what waits waits in its place, also past its end and at its beginning.
#[test]
fn what_is_written_over_what_waits_is_stored_with_it(rt: HostRuntime) {
    check(&rt, A, WRITTEN_OVER, End::Stores(1));
}

const APART: &[Call] = &[
    Call::Finds(1, b"a"),
    Call::Opens(1),
    Call::Writes(1, 1, b"EL"),
    Call::Writes(1, 0, b"HE"),
    Call::Writes(1, 3, b"LO"),
    Call::Writes(1, 7, b"!"),
    Call::Reads(1, b"HELLO\0\0!"),
];

const BETWEEN: &[Call] = &[
    Call::Finds(1, b"a"),
    Call::Opens(1),
    Call::Writes(1, 3, b"L"),
    Call::Writes(1, 0, b"J"),
    Call::Writes(1, 8, b"!"),
    Call::Writes(1, 1, b"E"),
    Call::Tells(1, FLUSH, 0),
    Call::Reads(1, b"JElLo\0\0\0!"),
];

// What begins before it or after its end waits with what the file has between, and with zeros after the file's end.
#[test]
fn what_lies_between_is_stored_with_it(rt: HostRuntime) {
    check(&rt, A, APART, End::Stores(1));
    check(&rt, A, BETWEEN, End::Stores(1));
}

const TOO_FAR: &[Call] = &[
    Call::Finds(1, b"a"),
    Call::Opens(1),
    Call::WritesNot(1, (1 << 30) + 1, b"!"),
    Call::Tells(1, FLUSH, 0),
    Call::Reads(1, b"hello"),
];

// Past the longest file nothing waits, and the error is told at once.
#[test]
fn what_no_file_has_room_for_is_refused_at_once(rt: HostRuntime) {
    check(&rt, A, TOO_FAR, End::Stores(0));
}

const NOT_STORED: &[Call] = &[
    Call::Finds(1, b"a"),
    Call::Opens(1),
    Call::Opens(1),
    Call::Writes(1, 0, b"HEL"),
    Call::Tells(1, FLUSH, 5),
    Call::Tells(1, SYNC, 5),
    Call::WritesNot(1, 64 << 20, b"o"),
    Call::Writes(1, 0, b"hEL"),
    Call::Writes(1, 3, b"LO"),
    Call::Tells(1, FLUSH, 5),
    Call::Tells(1, CLOSE, 0),
    Call::Tells(1, FLUSH, 5),
    Call::Tells(1, CLOSE, 0),
    Call::Tells(1, FLUSH, 0),
    Call::Reads(1, b"hello"),
];

// If it can't be stored, it waits until the last close, and whoever flushes it is told so.
#[test]
fn what_is_not_stored_waits_until_it_is_closed(rt: HostRuntime) {
    check(&rt, A_AS_IT_IS, NOT_STORED, End::Stores(0));
}

const SYNCED: &[Call] = &[
    Call::Finds(1, b"a"),
    Call::Opens(1),
    Call::Writes(1, 0, b"one, "),
    Call::Writes(1, 5, b"two"),
    Call::Tells(1, SYNC, 0),
];

const SYNCED_TWICE: &[Call] = &[
    Call::Finds(1, b"a"),
    Call::Opens(1),
    Call::Tells(1, SYNC, 0),
    Call::Tells(1, SYNC, 0),
];

// `fsync` stores what waits, and then waits for the disk once, whether anything waited or not.
#[test]
fn what_is_synced_is_stored_first(rt: HostRuntime) {
    check(&rt, A, SYNCED, End::Synced(1, 1, 1));
    check(&rt, A, SYNCED_TWICE, End::Syncs(2));
}

const DIRECTORY_SYNCED: &[Call] = &[
    Call::Finds(1, b"a"),
    Call::Opens(1),
    Call::Writes(1, 0, b"one"),
    Call::Tells(0, SYNC_DIRECTORY, 0),
];

// .. and of a directory too, for which nothing waits. What waits for its files waits still.
#[test]
fn directories_are_synced(rt: HostRuntime) {
    check(&rt, A, DIRECTORY_SYNCED, End::Synced(1, 1, 0));
}

const NOT_SYNCED: &[Call] = &[
    Call::Finds(1, b"a"),
    Call::Opens(1),
    Call::Writes(1, 0, b"HEL"),
    Call::Tells(1, SYNC, 5),
    Call::Tells(0, SYNC_DIRECTORY, 5),
    Call::Reads(1, b"HELlo"),
];

// If the disk can't be waited for, that is told, and what waited is stored.
#[test]
fn what_is_not_synced_is_told(rt: HostRuntime) {
    check(&rt, A_WITHOUT_DISK, NOT_SYNCED, End::Synced(2, 1, 1));
}

const NEVER_STORED: &[Call] = &[
    Call::Finds(1, b"a"),
    Call::Opens(1),
    Call::Writes(1, 0, b"HEL"),
    Call::Tells(1, SYNC, 5),
];

const ONLY_FLUSHED: &[Call] = &[
    Call::Finds(1, b"a"),
    Call::Opens(1),
    Call::Writes(1, 0, b"HEL"),
    Call::Tells(1, FLUSH, 0),
    Call::Tells(1, CLOSE, 0),
];

// What can't be stored isn't waited for; and neither is it at `close`.
#[test]
fn only_what_is_stored_is_synced(rt: HostRuntime) {
    check(&rt, A_AS_IT_IS, NEVER_STORED, End::Syncs(0));
    check(&rt, A, ONLY_FLUSHED, End::Syncs(0));
}
