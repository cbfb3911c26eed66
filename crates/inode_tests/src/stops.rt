//! A move from one directory to another over files that stop after some of its calls.

use crate::mount::Mount;
use crate::names::Place;
use crate::pair::Pair;
use crate::stored::{Stored, is_stored};
use eden_model::{Kind, Origin};
use std::alloc::Global;
use std::process::Abort;

const DIR_A: Place<'static> = Place {
    path: b"",
    letter: b'a',
};

const DIR_B: Place<'static> = Place {
    path: b"",
    letter: b'b',
};

const FROM: Place<'static> = Place {
    path: b"a",
    letter: b'c',
};

const TO: Place<'static> = Place {
    path: b"b",
    letter: b'c',
};

/// What a move does over files that stop after this many calls.
#[derive(Clone, Copy)]
struct Row {
    calls: u64,
    is_done: bool,
    /// The first directory is stored without the entry, and marked unsaved.
    is_marked: bool,
    /// How many directories can be unloaded while the device has stopped, and then once it works again.
    unloaded: [u64; 2],
    /// Whether the file of what was replaced is left.
    is_left: bool,
}

const ROWS: &[Row] = &[
    Row {
        calls: 0,
        is_done: false,
        is_marked: false,
        unloaded: [3, 0],
        is_left: true,
    },
    Row {
        calls: 1,
        is_done: false,
        is_marked: true,
        unloaded: [1, 2],
        is_left: true,
    },
    Row {
        calls: 2,
        is_done: true,
        is_marked: false,
        unloaded: [3, 0],
        is_left: true,
    },
    Row {
        calls: 3,
        is_done: true,
        is_marked: false,
        unloaded: [3, 0],
        is_left: false,
    },
];

/// The files that are left, and that of what was replaced beside them.
const FILES: &[u64] = &[1, 2, 3, 4];

const ALL_FILES: &[u64] = &[1, 2, 3, 4, 5];

/// What follows the move.
#[derive(Clone, Copy, PartialEq, Eq)]
enum Then {
    /// All is unloaded, and the files are compared.
    Unloaded,
    /// The same, if the file takes the place of another.
    UnloadedOver,
    /// The files alone show what they must.
    Opened,
}

const EACH: &[Then] = &[Then::Unloaded, Then::UnloadedOver, Then::Opened];

/// Two directories, numbers 2 and 3, and a file in the first, number 4; if it is to take the place of another, that
/// has number 5. All directories are loaded.
fn start(rt: &impl Abort, pair: &mut Pair<Global>, is_over: bool) -> bool {
    pair.insert(rt, DIR_A, Kind::Dir, 7)
        && pair.insert(rt, DIR_B, Kind::Dir, 7)
        && pair.insert(rt, FROM, Kind::File, 7)
        && (!is_over || pair.insert(rt, TO, Kind::File, 7))
        && pair.shows(rt)
}

/// Moves the file over files that stop after this many calls: whether that was done.
fn moves(rt: &impl Abort, pair: &mut Pair<Global>, calls: u64) -> bool {
    pair.mount.calls.set(calls);
    let moved = pair.rename(rt, FROM, TO);
    pair.mount.calls.set(u64::MAX);
    moved
}

/// Whether the first directory is marked, or isn't, and no other is.
fn marks(rt: &impl Abort, mount: &Mount<Global>, is_marked: bool) -> bool {
    mount.is_unsaved(rt, b"a") == is_marked
        && !mount.is_unsaved(rt, b"b")
        && !mount.is_unsaved(rt, &[])
}

/// Moves the file over files that stop. Then all shows what it must, and the first directory is marked or isn't.
fn check_move(rt: &impl Abort, pair: &mut Pair<Global>, row: Row) {
    assert!(rt; moves(rt, pair, row.calls) == row.is_done);
    assert!(rt; pair.shows(rt) && marks(rt, &pair.mount, row.is_marked));
}

/// Many turns go by.
fn grow_old(mount: &mut Mount<Global>) {
    for _ in 0..200 {
        mount.table.tick();
    }
}

/// Unloads all that can be over files that stop after this many calls: how many directories went.
fn unload_over(rt: &impl Abort, mount: &mut Mount<Global>, calls: u64) -> u64 {
    mount.calls.set(calls);
    mount.unload(rt, &[], 0)
}

/// Unloads all that can be while the device has stopped, and then the rest. An unsaved directory stays loaded till it
/// is stored.
fn check_unload(rt: &impl Abort, mount: &mut Mount<Global>, row: Row) {
    assert!(rt;
        unload_over(rt, mount, 0) == row.unloaded[0] && mount.is_unsaved(rt, b"a") == row.is_marked
    );
    assert!(rt;
        unload_over(rt, mount, u64::MAX) == row.unloaded[1] && !mount.table.look(&[]).loaded
    );
}

/// Late in a long life what is left of the move is unloaded. The files that are left are those.
fn check_files(rt: &impl Abort, pair: &mut Pair<Global>, row: Row, is_over: bool) {
    grow_old(&mut pair.mount);
    check_unload(rt, &mut pair.mount, row);
    assert!(rt; pair.shows(rt));
    let want = if is_over && row.is_left {
        ALL_FILES
    } else {
        FILES
    };
    assert!(rt;
        is_stored(
            pair.mount.alloc,
            &mut pair.mount.table,
            Stored::Numbers(want)
        )
    );
}

/// The files alone: of a move whose first store alone was done they lack the entry.
fn check_opened(rt: &impl Abort, pair: &mut Pair<Global>, row: Row) {
    if row.is_marked {
        pair.tree.take(b"ac");
    }
    let alloc = pair.mount.alloc;
    pair.mount.open_again(rt, &alloc);
    assert!(rt; pair.shows(rt));
}

/// The move, and what follows.
fn check_stop(rt: &impl Abort, pair: &mut Pair<Global>, row: Row, then: Then) {
    let is_over = then == Then::UnloadedOver;
    assert!(rt; start(rt, pair, is_over));
    check_move(rt, pair, row);
    match then {
        Then::Unloaded | Then::UnloadedOver => check_files(rt, pair, row, is_over),
        Then::Opened => check_opened(rt, pair, row),
    }
}

fn check_row(rt: &impl Abort, alloc: Global, row: Row, then: Then) {
    let mut pair = Pair::open(rt, alloc, &alloc, Origin::Own, &[]);
    check_stop(rt, &mut pair, row, then);
    drop(pair);
}

#[test]
fn a_move_whose_stores_fail_shows_as_before(rt: HostRuntime) {
    for row in ROWS {
        for then in EACH {
            check_row(&rt, rt.alloc(), *row, *then);
        }
    }
}
