//! Worked rows of events on mounts of the sample commits.

use crate::mounts::{Mounted, Settings, Stored, close, opened};
use eden_checkout::Opening;
use eden_model::{Bytes, Cause, Key, Path, Reply, Request, StartFault};
use eden_mount::{Arrived, Event, Outcome, Turned};
use eden_overlay::{Files, MemoryFiles};
use eden_overlay_format::{State, encode_state};
use eden_wire::{Item, Scratch, read_request, write_reply};
use std::alloc::Global;
use std::cell::Cell;
use std::process::Abort;
use std::rc::Rc;
use test_samples::{NEW_FILE, ONE_FILE, Sample, TWO_FILES, VERSION_1, VERSION_2};

/// An event, and what it must answer. Requests and replies are lines of the protocol.
#[derive(Clone, Copy)]
enum Row {
    /// The pass's request begins.
    Start(u32, &'static str),
    /// .. or isn't taken.
    Declines(u32, &'static str, StartFault),
    /// The pass's turn waits for the object.
    Waits(u32, Sample),
    /// .. or finishes its request as the entry of that number, with that reply.
    Done(u32, u64, &'static str),
    Idle(u32),
    Takes(Sample),
    TakesNone,
    Arrives(Sample, Arrived),
    /// These bytes come for the object, which are another.
    Lies(Sample, &'static [u8]),
    Fails(Sample, Cause, bool),
    /// Everything may go, and this many directories do.
    Unloads(u64),
    /// The files are waited for, which goes or doesn't.
    Syncs(bool),
}

use Row::{
    Arrives, Declines, Done, Fails, Idle, Lies, Start, Syncs, Takes, TakesNone, Unloads, Waits,
};

fn key_of(object: Sample) -> Key {
    Key {
        kind: object.kind,
        id: object.id,
    }
}

/// The request of a line.
pub(crate) fn request(rt: &impl Abort, alloc: Global, line: &str) -> Request {
    match read_request(alloc, line.as_bytes()).expect(rt, "memory") {
        Item::Asks(request) => request,
        Item::Refuses(_) | Item::Bad => None.expect(rt, "a request"),
    }
}

fn is_reply(rt: &impl Abort, alloc: Global, reply: &Reply, line: &str) -> bool {
    let mut said = Vec::new(alloc);
    let mut scratch = Scratch::new(alloc).expect(rt, "memory");
    let is_written = write_reply(&mut said, &mut scratch, reply).is_ok();
    is_written && said.as_slice() == line.as_bytes()
}

fn start_of(rt: &impl Abort, alloc: Global, pass: u32, line: &str) -> Event {
    Event::Start(pass, request(rt, alloc, line))
}

fn arrival(rt: &impl Abort, alloc: Global, object: Sample, framed: &[u8]) -> Event {
    let framed = framed.to_vec(alloc).expect(rt, "memory");
    Event::Arrive(key_of(object), Bytes::new(framed))
}

fn unloading(rt: &impl Abort, alloc: Global) -> Event {
    let root = Path::new(Vec::new(alloc)).expect(rt, "the root");
    Event::Unload(root, 0)
}

fn event(rt: &impl Abort, alloc: Global, row: Row) -> Event {
    match row {
        Start(pass, line) | Declines(pass, line, _) => start_of(rt, alloc, pass, line),
        Waits(pass, _) | Done(pass, _, _) | Idle(pass) => Event::Turn(pass),
        Takes(_) | TakesNone => Event::Take,
        Arrives(object, _) => arrival(rt, alloc, object, object.framed),
        Lies(object, framed) => arrival(rt, alloc, object, framed),
        Fails(object, cause, _) => Event::Fail(key_of(object), cause),
        Unloads(_) => unloading(rt, alloc),
        Syncs(_) => Event::Sync,
    }
}

fn is_done(rt: &impl Abort, alloc: Global, row: Row, told: u64, reply: &Reply) -> bool {
    match row {
        Done(_, number, line) => told == number && is_reply(rt, alloc, reply, line),
        _ => false,
    }
}

fn is_wait(row: Row, key: Key) -> bool {
    match row {
        Waits(_, object) => key == key_of(object),
        _ => false,
    }
}

fn is_turn(rt: &impl Abort, alloc: Global, row: Row, turned: &Turned) -> bool {
    match turned {
        Turned::Wait(key) => is_wait(row, *key),
        Turned::Done(told, reply) => is_done(rt, alloc, row, *told, reply),
        Turned::Idle => matches!(row, Idle(_)),
    }
}

fn is_start(row: Row, started: &Result<(), StartFault>) -> bool {
    match row {
        Start(_, _) => started.is_ok(),
        Declines(_, _, fault) => *started == Err(fault),
        _ => false,
    }
}

fn is_take(row: Row, taken: Option<Key>) -> bool {
    match row {
        Takes(object) => taken == Some(key_of(object)),
        TakesNone => taken.is_none(),
        _ => false,
    }
}

fn is_arrival(row: Row, arrived: Arrived) -> bool {
    match row {
        Arrives(_, want) => arrived == want,
        Lies(_, _) => arrived == Arrived::Refused(Cause::BadDigest),
        _ => false,
    }
}

fn is_answer(rt: &impl Abort, alloc: Global, row: Row, outcome: &Outcome) -> bool {
    match outcome {
        Outcome::Start(started) => is_start(row, started),
        Outcome::Turn(turned) => is_turn(rt, alloc, row, turned),
        Outcome::Take(taken) => is_take(row, *taken),
        Outcome::Arrive(arrived) => is_arrival(row, *arrived),
        Outcome::Fail(failed) => matches!(row, Fails(_, _, want) if want == *failed),
        Outcome::Unload(gone) => matches!(row, Unloads(want) if want == *gone),
        Outcome::Sync(went) => matches!(row, Syncs(want) if want == *went),
    }
}

/// Makes the events happen in one list: each answer must be the one of its row.
fn run(rt: &impl Abort, alloc: Global, mount: &mut Mounted, rows: &[Row]) {
    let mut events = Vec::new(alloc);
    for row in rows {
        events.push(event(rt, alloc, *row)).expect(rt, "memory");
    }
    let outcomes = mount.run(events).expect(rt, "memory");
    assert!(rt; outcomes.len() == rows.len());
    for (index, outcome) in outcomes.iter().enumerate() {
        assert!(rt; is_answer(rt, alloc, rows[index], outcome), "at {index}");
    }
}

/// A mount, and how many calls on its files still pass.
#[derive(Drop)]
struct Ground {
    mount: Mounted,
    calls: Rc<Cell<u64>>,
}

fn over(rt: &impl Abort, alloc: Global, files: Stored, settings: Settings) -> Ground {
    let calls = Rc::new(alloc, Cell::new(u64::MAX)).expect(rt, "memory");
    let mount = opened(rt, alloc, files, &calls, settings);
    Ground { mount, calls }
}

/// A mount over no files with this many objects cached, and a history of at most this many entries.
fn fresh(rt: &impl Abort, alloc: Global, root: Sample, objects: usize, history: u32) -> Ground {
    let settings = Settings {
        root: root.id,
        opening: Opening::Closed,
        objects,
        history,
    };
    over(rt, alloc, MemoryFiles::new(alloc), settings)
}

/// A commit, how many objects are cached, and what happens on a mount of it.
type Worked = (Sample, usize, &'static [Row]);

/// A request that waits looks again from the root once it continues, if a name has changed meanwhile.
const MOVED_AWAY: Worked = (
    TWO_FILES,
    4,
    &[
        Start(1, "read /bak/test.txt 0 9"),
        Waits(1, TWO_FILES),
        Takes(TWO_FILES),
        Arrives(TWO_FILES, Arrived::Stored),
        Waits(1, ONE_FILE),
        Start(2, "rename /bak /old"),
        Done(2, 1, "ok\n"),
        Syncs(true),
        Takes(ONE_FILE),
        Arrives(ONE_FILE, Arrived::Stored),
        Done(1, 2, "err 2 ENOENT\n"),
    ],
);

/// .. so it does if a name that came has moved its own to another position.
const MOVED_ON: Worked = (
    TWO_FILES,
    4,
    &[
        Start(1, "read /bak/test.txt 0 9"),
        Waits(1, TWO_FILES),
        Takes(TWO_FILES),
        Arrives(TWO_FILES, Arrived::Stored),
        Waits(1, ONE_FILE),
        Start(2, "create /aaa"),
        Done(2, 1, "ok\n"),
        Takes(ONE_FILE),
        Arrives(ONE_FILE, Arrived::Stored),
        Waits(1, VERSION_1),
        Start(2, "create /bak/aaa"),
        Done(2, 2, "ok\n"),
        Takes(VERSION_1),
        Arrives(VERSION_1, Arrived::Stored),
        Done(1, 3, "data 9 76657273696f6e2031\n"),
    ],
);

/// .. and if a name that went has moved another to its position.
const MOVED_BACK: Worked = (
    TWO_FILES,
    4,
    &[
        Start(1, "read /bak/test.txt 0 9"),
        Waits(1, TWO_FILES),
        Takes(TWO_FILES),
        Arrives(TWO_FILES, Arrived::Stored),
        Waits(1, ONE_FILE),
        Start(2, "rename /test.txt /new.txt"),
        Done(2, 1, "ok\n"),
        Start(2, "rename /new.txt /aaa"),
        Done(2, 2, "ok\n"),
        Start(2, "unlink /aaa"),
        Done(2, 3, "ok\n"),
        Takes(ONE_FILE),
        Arrives(ONE_FILE, Arrived::Stored),
        Waits(1, VERSION_1),
        Takes(VERSION_1),
        Arrives(VERSION_1, Arrived::Stored),
        Done(1, 4, "data 9 76657273696f6e2031\n"),
    ],
);

/// A request of two paths continues along the second.
const TWO_PATHS: Worked = (
    TWO_FILES,
    4,
    &[
        Start(1, "rename /new.txt /bak/new.txt"),
        Waits(1, TWO_FILES),
        Takes(TWO_FILES),
        Arrives(TWO_FILES, Arrived::Stored),
        Waits(1, ONE_FILE),
        Waits(1, ONE_FILE),
        Takes(ONE_FILE),
        Arrives(ONE_FILE, Arrived::Stored),
        Done(1, 1, "ok\n"),
        Start(2, "list /bak - 9"),
        Done(2, 2, "entries 2 file new.txt file test.txt end\n"),
    ],
);

/// A request that waited needs nothing any more, so that nothing is queued.
const WANTS_NO_MORE: Worked = (
    TWO_FILES,
    4,
    &[
        Start(1, "read /bak/test.txt 0 9"),
        Waits(1, TWO_FILES),
        Takes(TWO_FILES),
        Arrives(TWO_FILES, Arrived::Stored),
        Waits(1, ONE_FILE),
        Start(2, "rename /bak /old"),
        Done(2, 1, "ok\n"),
        Done(1, 2, "err 2 ENOENT\n"),
        TakesNone,
    ],
);

const MISSING: &str = "fault fetch 83baae61804e65cc73a7201a7252750c76066a30 Missing\n";

/// A failure is told to those who wait for the object then, and to nobody who comes later.
const ONE_FAILURE: Worked = (
    ONE_FILE,
    4,
    &[
        Start(1, "read /test.txt 0 1"),
        Waits(1, ONE_FILE),
        Takes(ONE_FILE),
        Arrives(ONE_FILE, Arrived::Stored),
        Waits(1, VERSION_1),
        Start(2, "read /test.txt 1 1"),
        Waits(2, VERSION_1),
        Takes(VERSION_1),
        TakesNone,
        Fails(VERSION_1, Cause::Missing, true),
        Start(3, "read /test.txt 2 1"),
        Waits(3, VERSION_1),
        Done(1, 1, MISSING),
        Done(2, 2, MISSING),
        Takes(VERSION_1),
        Arrives(VERSION_1, Arrived::Stored),
        Done(3, 3, "data 1 72\n"),
    ],
);

/// A failure is dropped if the object came after it.
const COMES_AFTER_ALL: Worked = (
    ONE_FILE,
    4,
    &[
        Start(1, "read /test.txt 0 1"),
        Waits(1, ONE_FILE),
        Takes(ONE_FILE),
        Arrives(ONE_FILE, Arrived::Stored),
        Waits(1, VERSION_1),
        Takes(VERSION_1),
        Fails(VERSION_1, Cause::Device, true),
        Start(2, "read /test.txt 1 1"),
        Waits(2, VERSION_1),
        Takes(VERSION_1),
        Arrives(VERSION_1, Arrived::Stored),
        Done(1, 1, "data 1 76\n"),
        Done(2, 2, "data 1 65\n"),
    ],
);

/// Bytes of another object are a failure, after which the object is asked for again and read.
const LIED_TO: Worked = (
    ONE_FILE,
    4,
    &[
        Start(1, "read /test.txt 0 1"),
        Waits(1, ONE_FILE),
        Takes(ONE_FILE),
        Arrives(ONE_FILE, Arrived::Stored),
        Waits(1, VERSION_1),
        Takes(VERSION_1),
        Lies(VERSION_1, b"blob 6\0hello\n"),
        Done(
            1,
            1,
            "fault fetch 83baae61804e65cc73a7201a7252750c76066a30 BadDigest\n",
        ),
        Start(1, "read /test.txt 0 1"),
        Waits(1, VERSION_1),
        Takes(VERSION_1),
        Arrives(VERSION_1, Arrived::Stored),
        Done(1, 2, "data 1 76\n"),
    ],
);

/// With one object cached, the second arrival drives out what the first request waited for, which waits again.
const DRIVEN_OUT: Worked = (
    TWO_FILES,
    1,
    &[
        Start(1, "read /new.txt 0 1"),
        Waits(1, TWO_FILES),
        Takes(TWO_FILES),
        Arrives(TWO_FILES, Arrived::Stored),
        Waits(1, NEW_FILE),
        Start(2, "read /test.txt 0 1"),
        Waits(2, VERSION_2),
        Takes(NEW_FILE),
        Takes(VERSION_2),
        Arrives(NEW_FILE, Arrived::Stored),
        Arrives(VERSION_2, Arrived::Stored),
        Waits(1, NEW_FILE),
        Done(2, 1, "data 1 76\n"),
        Takes(NEW_FILE),
        Arrives(NEW_FILE, Arrived::Stored),
        Done(1, 2, "data 1 6e\n"),
    ],
);

/// What was unloaded is loaded with the numbers that were saved for it, though its object has left the cache.
const UNLOADED: Worked = (
    ONE_FILE,
    1,
    &[
        Start(1, "read /test.txt 0 10"),
        Waits(1, ONE_FILE),
        Takes(ONE_FILE),
        Arrives(ONE_FILE, Arrived::Stored),
        Waits(1, VERSION_1),
        Takes(VERSION_1),
        Arrives(VERSION_1, Arrived::Stored),
        Unloads(1),
        Done(1, 1, "data 10 76657273696f6e20310a\n"),
    ],
);

/// Events that nobody waits for change nothing.
const NOBODY_WAITS: Worked = (
    ONE_FILE,
    4,
    &[
        Declines(0, "kind /", StartFault::NoPass),
        Declines(9, "kind /", StartFault::NoPass),
        Idle(2),
        Arrives(VERSION_1, Arrived::Stray),
        Fails(VERSION_1, Cause::Missing, false),
        TakesNone,
    ],
);

fn check(rt: &impl Abort, alloc: Global, worked: Worked, entries: usize) {
    let (root, objects, rows) = worked;
    let mut ground = fresh(rt, alloc, root, objects, 9);
    run(rt, alloc, &mut ground.mount, rows);
    assert!(rt; ground.mount.history().len() == entries);
}

#[test]
fn a_waiting_request_looks_again(rt: HostRuntime) {
    check(&rt, rt.alloc(), MOVED_AWAY, 2);
    check(&rt, rt.alloc(), WANTS_NO_MORE, 2);
}

#[test]
fn a_waiting_request_finds_its_names_at_other_positions(rt: HostRuntime) {
    check(&rt, rt.alloc(), MOVED_ON, 3);
    check(&rt, rt.alloc(), MOVED_BACK, 4);
    check(&rt, rt.alloc(), TWO_PATHS, 2);
}

#[test]
fn a_failure_is_told_to_who_waits(rt: HostRuntime) {
    check(&rt, rt.alloc(), ONE_FAILURE, 3);
    check(&rt, rt.alloc(), COMES_AFTER_ALL, 2);
    check(&rt, rt.alloc(), LIED_TO, 2);
}

#[test]
fn what_is_driven_out_is_waited_for_again(rt: HostRuntime) {
    check(&rt, rt.alloc(), DRIVEN_OUT, 2);
}

#[test]
fn what_is_unloaded_is_not_fetched_again(rt: HostRuntime) {
    check(&rt, rt.alloc(), UNLOADED, 1);
}

#[test]
fn what_nobody_waits_for_changes_nothing(rt: HostRuntime) {
    check(&rt, rt.alloc(), NOBODY_WAITS, 0);
}

/// Two loaded directories and a file in the first, all the mount's own.
const TWO_DIRECTORIES: &[Row] = &[
    Start(1, "mkdir /d"),
    Waits(1, ONE_FILE),
    Takes(ONE_FILE),
    Arrives(ONE_FILE, Arrived::Stored),
    Done(1, 1, "ok\n"),
    Start(1, "mkdir /e"),
    Done(1, 2, "ok\n"),
    Start(1, "create /d/a"),
    Done(1, 3, "ok\n"),
    Start(1, "list /e - 9"),
    Done(1, 4, "entries 0 end\n"),
];

/// The store of the first directory passes, and that of the second fails: nothing has moved. The first can't be
/// unloaded, since it can't be stored.
const HALF_A_MOVE: &[Row] = &[
    Start(1, "rename /d/a /e/a"),
    Done(1, 5, "fault overlay\n"),
    Start(1, "list /d - 9"),
    Done(1, 6, "entries 1 file a end\n"),
    Start(1, "list /e - 9"),
    Done(1, 7, "entries 0 end\n"),
    Unloads(1),
    Syncs(false),
];

/// The device works again.
const MENDED: &[Row] = &[
    Syncs(true),
    Unloads(2),
    Start(1, "list /d - 9"),
    Done(1, 8, "entries 1 file a end\n"),
];

#[test]
fn a_move_that_fails_half_way_moves_nothing(rt: HostRuntime) {
    let alloc = rt.alloc();
    let mut ground = fresh(&rt, alloc, ONE_FILE, 4, 9);
    run(&rt, alloc, &mut ground.mount, TWO_DIRECTORIES);
    ground.calls.set(1);
    run(&rt, alloc, &mut ground.mount, HALF_A_MOVE);
    ground.calls.set(u64::MAX);
    run(&rt, alloc, &mut ground.mount, MENDED);
}

/// A history of three: entries and pending requests count.
const FULL: &[Row] = &[
    Start(1, "mkdir /d"),
    Start(2, "kind /d"),
    Start(3, "kind /"),
    Declines(4, "kind /", StartFault::HistoryFull(3)),
    Declines(3, "kind /", StartFault::Busy),
    Waits(1, ONE_FILE),
    Takes(ONE_FILE),
    Arrives(ONE_FILE, Arrived::Stored),
    Done(1, 1, "ok\n"),
    Done(2, 2, "kind dir\n"),
    Done(3, 3, "kind dir\n"),
    Declines(4, "kind /", StartFault::HistoryFull(3)),
];

/// The next mount of the same files shows the same, and its history is empty.
const AGAIN: &[Row] = &[
    Start(4, "list / - 9"),
    Done(4, 1, "entries 2 dir d file test.txt end\n"),
];

#[test]
fn a_full_history_begins_again_at_the_next_opening(rt: HostRuntime) {
    let alloc = rt.alloc();
    let Ground { mut mount, calls } = fresh(&rt, alloc, ONE_FILE, 4, 3);
    run(&rt, alloc, &mut mount, FULL);
    let settings = Settings {
        root: ONE_FILE.id,
        opening: Opening::Closed,
        objects: 4,
        history: 3,
    };
    let files = close(&rt, alloc, mount.into_table(), &calls);
    let mut next = over(&rt, alloc, files, settings);
    assert!(rt; next.mount.history().is_empty());
    run(&rt, alloc, &mut next.mount, AGAIN);
}

/// Closed files of the commit whose next number is the end of all.
fn used_up(rt: &impl Abort, alloc: Global) -> Stored {
    let state = State {
        root: ONE_FILE.id,
        next: 1 << 63,
    };
    let file = encode_state(alloc, state).expect(rt, "memory");
    let mut files = MemoryFiles::new(alloc);
    assert!(rt; files.replace(alloc, 0, file.as_slice()).is_ok());
    files
}

const NO_NUMBERS: &[Row] = &[
    Start(1, "kind /"),
    Done(1, 1, "kind dir\n"),
    Start(1, "kind /test.txt"),
    Waits(1, ONE_FILE),
    Takes(ONE_FILE),
    Arrives(ONE_FILE, Arrived::Stored),
    Done(1, 2, "fault numbers\n"),
];

#[test]
fn numbers_run_out(rt: HostRuntime) {
    let alloc = rt.alloc();
    let settings = Settings {
        root: ONE_FILE.id,
        opening: Opening::Closed,
        objects: 4,
        history: 9,
    };
    let mut ground = over(&rt, alloc, used_up(&rt, alloc), settings);
    run(&rt, alloc, &mut ground.mount, NO_NUMBERS);
}
