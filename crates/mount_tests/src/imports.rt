use eden_import::{FLIGHTS_LIMIT, Imports, PASSES_LIMIT, Wanted};
use eden_model::{Cause, Id, Key, ObjKind};
use linked_list_allocator::LocalHeap;
use std::alloc::{Allocator, Global};
use std::process::Abort;

/// A call, and what it must answer. Keys are told apart by a number.
enum Call {
    Want(u8, u32, Wanted),
    Leave(u8, u32),
    Await(u8, u32, Wanted),
    Quit(u32),
    Take(Option<u8>),
    Done(u8, bool),
    Failed(u8, Cause, bool),
    Failure(u32, Option<(u8, Cause)>),
    /// What a pass wants.
    Wants(u32, Option<u8>),
    InFlight(u8, bool),
}

/// Even numbers are trees, odd ones blobs.
fn key(number: u8) -> Key {
    Key {
        kind: if number % 2 == 0 {
            ObjKind::Tree
        } else {
            ObjKind::Blob
        },
        id: Id {
            bytes: [number / 2; 20],
        },
    }
}

fn want<A: Allocator>(rt: &impl Abort, imports: &mut Imports<A>, key: Key, pass: u32) -> Wanted {
    assert!(rt; pass >= 1 && pass <= imports.passes());
    match imports.wanted(pass) {
        None => imports.want(key, pass),
        Some(wanted) => {
            assert!(rt; wanted == key);
            imports.want(wanted, pass)
        }
    }
}

fn key_of(number: Option<u8>) -> Option<Key> {
    match number {
        None => None,
        Some(number) => Some(key(number)),
    }
}

fn failure_of(number: Option<(u8, Cause)>) -> Option<(Key, Cause)> {
    match number {
        None => None,
        Some((number, cause)) => Some((key(number), cause)),
    }
}

/// Makes a call of that pass, or asks of it: whether the answer is the one that it must be.
fn make_of_pass<A: Allocator>(
    rt: &impl Abort,
    imports: &mut Imports<A>,
    pass: u32,
    call: &Call,
) -> bool {
    assert!(rt; pass >= 1 && pass <= imports.passes());
    match call {
        Call::Want(number, _, answer) => want(rt, imports, key(*number), pass) == *answer,
        Call::Await(number, _, answer) => imports.await_key(key(*number), pass) == *answer,
        Call::Failure(_, answer) => imports.failure(pass) == failure_of(*answer),
        Call::Wants(_, answer) => imports.wanted(pass) == key_of(*answer),
        Call::Leave(number, _) => {
            imports.leave(key(*number), pass);
            true
        }
        Call::Quit(_) => {
            imports.quit(pass);
            true
        }
        _ => false,
    }
}

/// Makes a call: whether the answer is the one that it must be.
fn make<A: Allocator>(rt: &impl Abort, imports: &mut Imports<A>, call: &Call) -> bool {
    match call {
        Call::Want(_, pass, _) | Call::Await(_, pass, _) => make_of_pass(rt, imports, *pass, call),
        Call::Failure(pass, _) => make_of_pass(rt, imports, *pass, call),
        Call::Wants(pass, _) => make_of_pass(rt, imports, *pass, call),
        Call::Leave(_, pass) | Call::Quit(pass) => make_of_pass(rt, imports, *pass, call),
        Call::Take(answer) => imports.take() == key_of(*answer),
        Call::Done(number, answer) => imports.done(key(*number)) == *answer,
        Call::Failed(number, cause, answer) => imports.failed(key(*number), *cause) == *answer,
        Call::InFlight(number, answer) => imports.is_in_flight(key(*number)) == *answer,
    }
}

const JOINED_AND_FAILED: &[Call] = &[
    Call::Want(1, 1, Wanted::Queued),
    Call::Want(2, 2, Wanted::Queued),
    Call::Want(1, 3, Wanted::Joined),
    Call::Take(Some(1)),
    Call::Take(None),
    Call::Leave(2, 2),
    Call::Failed(1, Cause::Missing, true),
    Call::Failure(1, Some((1, Cause::Missing))),
    Call::Failure(1, None),
    Call::Want(1, 2, Wanted::Queued),
    Call::Take(Some(1)),
    Call::Leave(1, 2),
    Call::Done(1, true),
    Call::Done(1, false),
    Call::Failure(3, Some((1, Cause::Missing))),
    Call::Take(None),
];

/// Makes the calls: each must answer what it says.
fn make_each<A: Allocator>(rt: &impl Abort, imports: &mut Imports<A>, calls: &[Call]) {
    for (at, call) in calls.iter().enumerate() {
        assert!(rt; make(rt, imports, call), "at {at}");
    }
}

#[test]
fn joined_and_failed(rt: HostRuntime) {
    let mut imports = Imports::new(rt.alloc(), 3, 1).expect(&rt, "memory");
    let sizes = (imports.passes(), imports.flights());
    make_each(&rt, &mut imports, JOINED_AND_FAILED);
    drop(imports);
    assert!(rt; sizes == (3, 1));
}

/// What the turns of passes do to the queue.
const AWAITED: &[Call] = &[
    Call::Await(1, 1, Wanted::Queued),
    Call::Await(2, 64, Wanted::Queued),
    Call::Await(5, 3, Wanted::Queued),
    // Awaited again, a key keeps its place.
    Call::Await(1, 1, Wanted::Joined),
    // An old want of another key is left, and the key leaves the queue.
    Call::Await(3, 64, Wanted::Queued),
    Call::Wants(64, Some(3)),
    Call::Take(Some(1)),
    Call::Take(Some(5)),
    Call::Take(Some(3)),
    Call::Take(None),
    // A key in flight stays there when its last pass leaves it.
    Call::Await(1, 64, Wanted::Joined),
    Call::InFlight(3, true),
    Call::Failed(1, Cause::Missing, true),
    Call::Wants(64, None),
    Call::Failure(1, Some((1, Cause::Missing))),
    // Who quits has no mark any more, and wants nothing.
    Call::Quit(64),
    Call::Failure(64, None),
    Call::Await(4, 1, Wanted::Queued),
    Call::Quit(1),
    Call::Wants(1, None),
    Call::Take(None),
    Call::Done(5, true),
];

#[test]
fn awaited(rt: HostRuntime) {
    let imports = Imports::new(rt.alloc(), PASSES_LIMIT, FLIGHTS_LIMIT);
    let mut imports = imports.expect(&rt, "memory");
    make_each(&rt, &mut imports, AWAITED);
    drop(imports);
}

/// Whether the heap has room for a queue of three passes and one flight.
fn has_room(heap: &LocalHeap) -> bool {
    let imports = Imports::new(heap, 3, 1);
    let is_there = imports.is_ok();
    drop(imports);
    is_there
}

/// The smallest heap that has room for a queue of three passes and one flight.
fn narrowest(rt: &impl Abort, alloc: Global) -> LocalHeap {
    for blocks in 0..1024usize {
        let heap = LocalHeap::new(alloc, blocks * 16).expect(rt, "memory");
        if has_room(&heap) {
            return heap;
        }
        drop(heap);
    }
    None.expect(rt, "a heap")
}

/// Makes the calls of a queue that leaves nothing of its heap.
fn make_each_in(rt: &impl Abort, heap: &LocalHeap, calls: &[Call]) {
    let mut imports = Imports::new(heap, 3, 1).expect(rt, "memory");
    let free = heap.free();
    make_each(rt, &mut imports, calls);
    drop(imports);
    assert!(rt; free == 0);
}

#[test]
fn calls_of_a_queue_take_no_memory(rt: HostRuntime) {
    let heap = narrowest(&rt, rt.alloc());
    make_each_in(&rt, &heap, JOINED_AND_FAILED);
    drop(heap);
}
