// What each event answers over a table that needs one object, in lists of events, and what one caller is told.
ghost use Rattle.std.specs.Prelude.{◌≡◌};
ghost use Rattle.eden_mount.specs.Serving.{IsAtRest};
ghost use Rattle.eden_shared.specs.Opening.{IsUnused};

mod sharing;
mod shelf;

use eden_history::Kept;
use eden_model::{Bytes, Cause, Fault, Key, Kind, Outside, Path, Reply, Request, StartFault};
use eden_mount::{Arrived, Config, Event, Local, Mount, Outcome, Room, Turned, Unloading};
use eden_source::MemorySource;
use shelf::{Shelf, UNLOADED};
use std::alloc::Global;
use std::process::Abort;
use test_samples::EMPTY_BLOB;

/// An event, of the one key. `Start` asks for what needs it, `StartRoot` for what needs nothing.
#[derive(Clone, Copy)]
enum Call {
    Start(u32),
    StartRoot(u32),
    Turn(u32),
    Take,
    Arrive(&'static [u8]),
    Fail(Cause),
    Unload,
    Sync,
}

/// What an event must answer.
#[derive(Clone, Copy)]
enum Answer {
    Began,
    Not(StartFault),
    Waits,
    Idle,
    /// With that number, and the object.
    Reads(u64),
    IsRoot(u64),
    Faults(u64, Cause),
    TakesIt,
    TakesNone,
    Arrives(Arrived),
    Fails(bool),
    Goes,
    IsSafe(bool),
}

use Answer::{
    Arrives, Began, Fails, Faults, Goes, Idle, IsRoot, IsSafe, Not, Reads, TakesIt, TakesNone,
    Waits,
};
use Call::{Arrive, Fail as FailKey, Start, StartRoot, Sync, Take, Turn, Unload};

fn key() -> Key {
    Key {
        kind: EMPTY_BLOB.kind,
        id: EMPTY_BLOB.id,
    }
}

fn root(rt: &impl Abort, alloc: Global) -> Path {
    Path::new(Vec::new(alloc)).expect(rt, "the root")
}

fn read(rt: &impl Abort, alloc: Global) -> Request {
    Request::Read(root(rt, alloc), 0, 1)
}

fn bytes(rt: &impl Abort, alloc: Global, framed: &[u8]) -> Bytes {
    Bytes::new(Vec::from_slice(alloc, framed).expect(rt, "memory"))
}

fn event(rt: &impl Abort, alloc: Global, call: &Call) -> Event {
    match call {
        Start(pass) => Event::Start(*pass, read(rt, alloc)),
        StartRoot(pass) => Event::Start(*pass, Request::Kind(root(rt, alloc))),
        Turn(pass) => Event::Turn(*pass),
        Take => Event::Take,
        Arrive(framed) => Event::Arrive(key(), bytes(rt, alloc, framed)),
        FailKey(cause) => Event::Fail(key(), *cause),
        Unload => Event::Unload(root(rt, alloc), 3),
        Sync => Event::Sync,
    }
}

fn is_reply(answer: &Answer, reply: &Reply) -> bool {
    match (answer, reply) {
        (Reads(_), Reply::Data(_)) => true,
        (IsRoot(_), Reply::Kind(kind)) => *kind == Kind::Dir,
        (Faults(_, cause), Reply::Fault(fault)) => *fault == Fault::Fetch(key().id, *cause),
        _ => false,
    }
}

fn is_numbered(answer: &Answer, number: u64) -> bool {
    match answer {
        Reads(want) => *want == number,
        IsRoot(want) => *want == number,
        Faults(want, _) => *want == number,
        _ => false,
    }
}

fn is_turn(answer: &Answer, turned: &Turned) -> bool {
    match turned {
        Turned::Done(number, reply) => is_numbered(answer, *number) && is_reply(answer, reply),
        Turned::Wait(wanted) => matches!(answer, Waits) && *wanted == key(),
        Turned::Idle => matches!(answer, Idle),
    }
}

fn is_start(answer: &Answer, start: &Result<(), StartFault>) -> bool {
    match (answer, start) {
        (Began, Ok(())) => true,
        (Not(want), Err(fault)) => *want == *fault,
        _ => false,
    }
}

fn is_answer(answer: &Answer, outcome: &Outcome) -> bool {
    match (answer, outcome) {
        (_, Outcome::Start(start)) => is_start(answer, start),
        (_, Outcome::Turn(turned)) => is_turn(answer, turned),
        (TakesIt, Outcome::Take(taken)) => *taken == Some(key()),
        (TakesNone, Outcome::Take(taken)) => taken.is_none(),
        (Arrives(want), Outcome::Arrive(arrived)) => *arrived == *want,
        (Fails(want), Outcome::Fail(failed)) => *failed == *want,
        (Goes, Outcome::Unload(gone)) => *gone == UNLOADED,
        (IsSafe(want), Outcome::Sync(safe)) => *safe == *want,
        _ => false,
    }
}

type Mounted = Mount<Outside, Shelf, Global, Kept>;

type Caller = Local<Outside, MemorySource<Outside>, Shelf, Global, Kept>;

/// A mount of three passes and one object in flight, over a shelf.
fn mount(rt: &impl Abort, alloc: Global, history: u32, wide: bool) -> Mounted
    ensures rest { IsAtRest result }
    ensures unused { IsUnused result }
    ensures passes { result.queue.passes ≡ 3 }
{
    mount_over(rt, alloc, history, Shelf::new(key(), wide))
}

/// .. over this shelf.
fn mount_over(rt: &impl Abort, alloc: Global, history: u32, shelf: Shelf) -> Mounted
    ensures rest { IsAtRest result }
    ensures unused { IsUnused result }
    ensures passes { result.queue.passes ≡ 3 }
{
    let config = Config::new(3, 1, history, 1, 1, 1).expect(rt, "within the limits");
    let room = Room::new(alloc, alloc, &config).expect(rt, "memory");
    Mount::new(room, shelf, Kept::new(alloc, history))
}

fn events_of(rt: &impl Abort, alloc: Global, rows: &[(Call, Answer)]) -> Vec<Event> {
    let mut events = Vec::new(alloc);
    for (call, _) in rows {
        events.push(event(rt, alloc, call)).expect(rt, "memory");
    }
    events
}

/// Each answer is the one of its row.
fn check_outcomes(rt: &impl Abort, outcomes: &[Outcome], rows: &[(Call, Answer)]) {
    assert!(rt; outcomes.len() == rows.len());
    for (index, outcome) in outcomes.iter().enumerate() {
        assert!(rt; is_answer(&rows[index].1, outcome), "at {index}");
    }
}

/// Makes the events happen at once: each answer must be the one beside it.
fn run(rt: &impl Abort, alloc: Global, mount: &mut Mounted, rows: &[(Call, Answer)]) {
    let events = events_of(rt, alloc, rows);
    let outcomes = mount.run(events).expect(rt, "memory");
    check_outcomes(rt, outcomes.as_slice(), rows);
    drop(outcomes);
}

/// What is left of a mount and its shelf.
#[derive(Clone, Copy)]
struct Left {
    entries: usize,
    busy: Option<u32>,
    turns: u64,
    handed: Option<u64>,
    unloads: usize,
    syncs: usize,
}

fn left_of(mount: Mounted) -> Left {
    let entries = mount.history().len();
    let busy = mount.busy();
    let shelf = mount.into_table();
    Left {
        entries,
        busy,
        turns: shelf.turns,
        handed: shelf.handed,
        unloads: shelf.unloads,
        syncs: shelf.syncs,
    }
}

/// What is left of the mount after these events.
fn left_after(rt: &impl Abort, alloc: Global, mut mount: Mounted, rows: &[(Call, Answer)]) -> Left {
    run(rt, alloc, &mut mount, rows);
    left_of(mount)
}

/// A failure is told to those who wait for the key then, if they still need it.
const FAILURES: &[(Call, Answer)] = &[
    (Start(0), Not(StartFault::NoPass)),
    (Start(4), Not(StartFault::NoPass)),
    (Turn(0), Idle),
    (Turn(4), Idle),
    (Turn(1), Idle),
    (Take, TakesNone),
    (Start(1), Began),
    (Start(1), Not(StartFault::Busy)),
    (Turn(1), Waits),
    (Start(2), Began),
    (Turn(2), Waits),
    (Take, TakesIt),
    (Take, TakesNone),
    (FailKey(Cause::Missing), Fails(true)),
    (FailKey(Cause::Missing), Fails(false)),
    (Start(3), Began),
    (Turn(3), Waits),
    (Turn(2), Faults(1, Cause::Missing)),
    (Take, TakesIt),
    (
        Arrive(b"blob 0"),
        Arrives(Arrived::Refused(Cause::BadDigest)),
    ),
    (Take, TakesNone),
    (Turn(3), Faults(2, Cause::BadDigest)),
    (Start(3), Began),
    (Turn(3), Waits),
    (Unload, Goes),
    (Take, TakesIt),
    (Arrive(b"blob 0\0"), Arrives(Arrived::Stored)),
    (Turn(3), Reads(3)),
    (Turn(1), Reads(4)),
];

/// An object that finds no memory fails; the history has a limit.
const NARROW: &[(Call, Answer)] = &[
    (StartRoot(1), Began),
    (Turn(1), IsRoot(1)),
    (Arrive(b"blob 0\0"), Arrives(Arrived::Stray)),
    (Start(1), Began),
    (Turn(1), Waits),
    (Take, TakesIt),
    (
        Arrive(b"blob 0\0"),
        Arrives(Arrived::Refused(Cause::Memory)),
    ),
    (Start(2), Began),
    (Start(3), Not(StartFault::HistoryFull(3))),
    (Start(1), Not(StartFault::Busy)),
    (Turn(1), Faults(2, Cause::Memory)),
    (Start(1), Not(StartFault::HistoryFull(3))),
];

#[test]
fn failures_are_told(rt: HostRuntime) {
    let mount = mount(&rt, rt.alloc(), 9, true);
    let left = left_after(&rt, rt.alloc(), mount, FAILURES);
    assert!(rt; left.entries == 4 && left.busy.is_none() && left.turns == 11);
}

#[test]
fn histories_are_full(rt: HostRuntime) {
    let mount = mount(&rt, rt.alloc(), 3, false);
    let left = left_after(&rt, rt.alloc(), mount, NARROW);
    assert!(rt; left.busy == Some(2) && left.turns == 3);
}

/// What the last turn of this many of these events was handed to continue at.
fn handed(rt: &impl Abort, alloc: Global, rows: &[(Call, Answer)], count: usize) -> Option<u64> {
    let rows = rows.get(..count).expect(rt, "so many rows");
    left_after(rt, alloc, mount(rt, alloc, 9, true), rows).handed
}

/// Two passes wait, and continue; the object comes, and each is told; one asks again, and waits for nothing.
const WAITS: &[(Call, Answer)] = &[
    (Start(1), Began),
    (Turn(1), Waits),
    (Start(2), Began),
    (Turn(2), Waits),
    (Turn(1), Waits),
    (Turn(2), Waits),
    (Take, TakesIt),
    (Arrive(b"blob 0\0"), Arrives(Arrived::Stored)),
    (Turn(1), Reads(1)),
    (Start(1), Began),
    (Turn(1), Reads(2)),
    (Turn(2), Reads(3)),
];

/// One whose object fails is told so, and waits for it again when it asks again.
const WAITS_AGAIN: &[(Call, Answer)] = &[
    (Start(1), Began),
    (Turn(1), Waits),
    (Take, TakesIt),
    (FailKey(Cause::Missing), Fails(true)),
    (Turn(1), Faults(1, Cause::Missing)),
    (Start(1), Began),
    (Turn(1), Waits),
    (Turn(1), Waits),
];

/// How many of the first rows happen, and what the last of them was handed.
const HANDED: &[(usize, Option<u64>)] = &[
    (2, None),
    (4, None),
    (5, Some(1)),
    (6, Some(2)),
    (9, Some(3)),
    (11, None),
    (12, Some(4)),
];

/// .. of the others.
const HANDED_AGAIN: &[(usize, Option<u64>)] = &[(5, Some(1)), (7, None), (8, Some(3))];

fn check_handed(
    rt: &impl Abort,
    alloc: Global,
    rows: &[(Call, Answer)],
    all: &[(usize, Option<u64>)],
) {
    for (count, want) in all {
        assert!(rt; handed(rt, alloc, rows, *count) == *want, "after {count}");
    }
}

/// A turn continues at the turn at which its own request waited last, if it did.
#[test]
fn turns_go_on_where_their_request_waited(rt: HostRuntime) {
    check_handed(&rt, rt.alloc(), WAITS, HANDED);
    check_handed(&rt, rt.alloc(), WAITS_AGAIN, HANDED_AGAIN);
}

/// A shelf that has room, and whose disk works or doesn't.
fn shelf_on_disk(safe: bool) -> Shelf {
    let mut shelf = Shelf::new(key(), true);
    shelf.safe = safe;
    shelf
}

/// The rows, with a sync before each.
fn among_syncs(
    rt: &impl Abort,
    alloc: Global,
    rows: &[(Call, Answer)],
    safe: bool,
) -> Vec<(Call, Answer)> {
    let mut all = Vec::new(alloc);
    for row in rows {
        all.push((Sync, IsSafe(safe))).expect(rt, "memory");
        all.push(*row).expect(rt, "memory");
    }
    all
}

/// Waits for the disk before each event and after the last: whether it went each time as the table says.
fn goes_each_time(rt: &impl Abort, alloc: Global, mount: &mut Mounted, safe: bool) -> bool {
    let rows = among_syncs(rt, alloc, WAITS, safe);
    run(rt, alloc, mount, rows.as_slice());
    drop(rows);
    mount.sync() == safe
}

/// Whether a mount with these waits is left as without, with its syncs counted.
fn is_left_as_without(rt: &impl Abort, alloc: Global, safe: bool) -> bool {
    let mut mount = mount_over(rt, alloc, 9, shelf_on_disk(safe));
    let goes = goes_each_time(rt, alloc, &mut mount, safe);
    let left = left_of(mount);
    goes && left.entries == 3
        && left.busy.is_none()
        && left.turns == 7
        && left.handed == Some(4)
        && left.syncs == 13
}

/// Whoever waits for the disk is told what the table says of it, and no other is told anything else for that.
#[test]
fn syncs_change_no_answer(rt: HostRuntime) {
    assert!(rt; is_left_as_without(&rt, rt.alloc(), true));
    assert!(rt; is_left_as_without(&rt, rt.alloc(), false));
}

/// One caller over a source that has these bytes under the one key, and over this shelf.
fn caller_over(rt: &impl Abort, alloc: Global, framed: &[u8], shelf: Shelf) -> Caller {
    let mut source = MemorySource::new(alloc);
    let framed = bytes(rt, alloc, framed).into_vec();
    source.insert(key().id, framed).expect(rt, "memory");
    let mount = mount_over(rt, alloc, 2, shelf);
    Local::new(alloc, mount, source, Unloading::usual())
}

/// Whether a call for the object is told that.
fn reads(rt: &impl Abort, alloc: Global, caller: &mut Caller, answer: &Answer) -> bool {
    match caller.call(read(rt, alloc)) {
        Ok(reply) => is_reply(answer, reply),
        Err(_) => false,
    }
}

/// Whether a call for the root's kind is served.
fn serves_root(rt: &impl Abort, alloc: Global, caller: &mut Caller) -> bool {
    caller.serve(Request::Kind(root(rt, alloc))).is_ok()
}

/// Whether the history is full with its two entries.
fn is_full(rt: &impl Abort, alloc: Global, caller: &mut Caller) -> bool {
    caller.serve(read(rt, alloc)) == Err(StartFault::HistoryFull(2))
}

/// Whether a call is told that, and the next that the root is a directory, and the third that the history is full.
fn tells(rt: &impl Abort, alloc: Global, framed: &[u8], answer: &Answer) -> bool {
    let mut caller = caller_over(rt, alloc, framed, Shelf::new(key(), true));
    let tells = reads(rt, alloc, &mut caller, answer)
        && serves_root(rt, alloc, &mut caller)
        && is_full(rt, alloc, &mut caller)
        && is_reply(&IsRoot(2), caller.reply());
    drop(caller);
    tells
}

#[test]
fn one_caller_is_told(rt: HostRuntime) {
    assert!(rt; tells(&rt, rt.alloc(), b"blob 0\0", &Reads(1)));
    assert!(rt; tells(&rt, rt.alloc(), b"blob 0", &Faults(1, Cause::BadDigest)));
}

/// Whether a wait for the disk is told that, and leaves that reply.
fn sync_leaves(caller: &mut Caller, safe: bool, answer: &Answer) -> bool {
    caller.sync() == safe && is_reply(answer, caller.reply())
}

/// Whether waits for the disk before, between and after two requests are told that.
fn syncs_thrice(rt: &impl Abort, alloc: Global, caller: &mut Caller, safe: bool) -> bool {
    caller.sync() == safe
        && caller.serve(read(rt, alloc)).is_ok()
        && sync_leaves(caller, safe, &Reads(1))
        && serves_root(rt, alloc, caller)
        && sync_leaves(caller, safe, &IsRoot(2))
}

/// What is left of a caller's mount.
fn left_of_caller(caller: Caller) -> Left {
    let (mount, source) = caller.into_parts();
    drop(source);
    left_of(mount)
}

fn syncs(rt: &impl Abort, alloc: Global, safe: bool) -> bool {
    let mut caller = caller_over(rt, alloc, b"blob 0\0", shelf_on_disk(safe));
    let syncs = syncs_thrice(rt, alloc, &mut caller, safe);
    let left = left_of_caller(caller);
    syncs && left.entries == 2 && left.syncs == 3
}

/// A caller who waits for the disk is told what the table says of it. The last reply stays, and the next is as ever.
#[test]
fn one_caller_syncs(rt: HostRuntime) {
    assert!(rt; syncs(&rt, rt.alloc(), true));
    assert!(rt; syncs(&rt, rt.alloc(), false));
}

/// Serves twelve requests, and refuses one more.
fn serve_twelve(rt: &impl Abort, alloc: Global, caller: &mut Caller) {
    for _ in 0..12 {
        assert!(rt; serves_root(rt, alloc, caller));
    }
    assert!(rt; !serves_root(rt, alloc, caller));
}

/// How often directories are unloaded after every this many of twelve requests, of which one more is refused.
fn unloads(rt: &impl Abort, alloc: Global, every: u32) -> usize {
    let unloading = Unloading {
        every,
        age: 0,
        came: 0,
    };
    let mount = mount(rt, alloc, 12, true);
    let source = MemorySource::<Outside>::new(alloc);
    let mut caller = Local::new(alloc, mount, source, unloading);
    serve_twelve(rt, alloc, &mut caller);
    left_of_caller(caller).unloads
}

/// After every this many requests directories are unloaded, and how often.
const TIMES: &[(u32, usize)] = &[
    (0, 12),
    (1, 12),
    (2, 6),
    (5, 2),
    (12, 1),
    (13, 0),
    (u32::MAX, 0),
];

#[test]
fn one_caller_lets_directories_go(rt: HostRuntime) {
    for (every, unloaded) in TIMES {
        assert!(rt;
            unloads(&rt, rt.alloc(), *every) == *unloaded,
            "after every {every}"
        );
    }
}
