//! Random requests on a mount that loses objects, unloads directories and has files that stop, beside the slow oracle.

use crate::mount::{Mount, TRIES};
use crate::whole::{allows, whole};
use eden_model::{Reply, Request};
use eden_oracle::WholeTree;
use std::alloc::Global;
use std::process::Abort;
use test_random::{all_looks, path_of, request};
use test_samples::{ALL_KINDS, random};

/// How often the commit is begun with, and how many requests follow each time.
const RUNS: &[(u32, u32)] = &[(600, 50), (20, 500)];

const ALL: u32 = 40_000;

/// After how many requests all is compared.
const BETWEEN: u32 = 10;

/// How many changes were made, and how often an object was needed, the table refused and the device failed.
#[derive(Clone, Copy)]
struct Tally {
    changed: u32,
    needs: u32,
    refused: u32,
    faults: u32,
}

/// A mount, and what it must show.
#[derive(Drop)]
struct Pair {
    mount: Mount,
    tree: WholeTree,
}

/// Whether the oracle allows what the mount replies, once it has what it needs.
fn agree(rt: &impl Abort, pair: &mut Pair, request: &Request) -> bool {
    let reply = pair.mount.answer(rt, request);
    allows(rt, pair.mount.alloc, &mut pair.tree, request, &reply)
}

/// Whether both show the same everywhere. All calls on the files pass then.
fn show_same_tree(rt: &impl Abort, pair: &mut Pair) -> bool {
    pair.mount.calls.set(u64::MAX);
    let looks = all_looks(pair.mount.alloc, &mut pair.tree).expect(rt, "memory");
    for look in &looks {
        if !agree(rt, pair, look) {
            return false;
        }
    }
    true
}

/// Unloads what is that old at and below a random path.
fn unload(rt: &impl Abort, mount: &mut Mount, word: u32) {
    let places = [(word % 4) as u8, (word / 4 % 4) as u8];
    let depth = (word / 16 % 3) as usize;
    let at = path_of(mount.alloc, &places[..depth]).expect(rt, "a path");
    let age = u64::from(word / 64 % 2);
    mount.table.unload(mount.alloc, at.as_slice(), age);
}

/// Now and then directories are unloaded, or the clock advances.
fn disturb(rt: &impl Abort, mount: &mut Mount, seed: &mut u64) {
    let word = random(seed);
    match word % 8 {
        0 => unload(rt, mount, word / 8),
        1..=3 => mount.table.tick(),
        _ => {}
    }
}

/// The device stops after a few calls, or doesn't.
fn allow(mount: &Mount, seed: &mut u64) {
    let calls = u64::from(random(seed) % 32);
    mount.calls.set(if calls < 8 { calls } else { u64::MAX });
}

/// Attempts till there is a reply, with disturbances between them.
fn reply(
    rt: &impl Abort,
    mount: &mut Mount,
    request: &Request,
    seed: &mut u64,
    tally: &mut Tally,
) -> Reply {
    for _ in 0..TRIES {
        allow(mount, seed);
        disturb(rt, mount, seed);
        if let Some(reply) = mount.turn(rt, request) {
            return reply;
        }
        tally.needs = tally.needs.saturating_add(1);
    }
    None.expect(rt, "a reply")
}

fn count(tally: &mut Tally, reply: &Reply) {
    match reply {
        Reply::Ok | Reply::Count(_) => tally.changed = tally.changed.saturating_add(1),
        Reply::Err(_) => tally.refused = tally.refused.saturating_add(1),
        Reply::Fault(_) => tally.faults = tally.faults.saturating_add(1),
        _ => {}
    }
}

/// If the mount replies no fault, the oracle allows it; and it replies one only if the device has stopped.
fn is_right(rt: &impl Abort, pair: &mut Pair, request: &Request, reply: &Reply) -> bool {
    match reply {
        Reply::Fault(_) => pair.mount.calls.get() == 0,
        _ => allows(rt, pair.mount.alloc, &mut pair.tree, request, reply),
    }
}

/// One request, with the reply that it must have.
fn step(rt: &impl Abort, pair: &mut Pair, seed: &mut u64, tally: &mut Tally) {
    let request = request(pair.mount.alloc, &mut pair.tree, seed).expect(rt, "a request");
    let reply = reply(rt, &mut pair.mount, &request, seed, tally);
    count(tally, &reply);
    assert!(rt;
        is_right(rt, pair, &request, &reply),
        "{request:?}: {reply:?}"
    );
}

/// This many requests on the commit, with room for this many objects.
fn run(
    rt: &impl Abort,
    alloc: Global,
    objects: usize,
    steps: u32,
    seed: &mut u64,
    tally: &mut Tally,
) {
    let mut pair = Pair {
        mount: Mount::open(rt, alloc, ALL_KINDS, objects),
        tree: whole(rt, alloc),
    };
    for count in 1..=steps {
        step(rt, &mut pair, seed, tally);
        if count % BETWEEN == 0 {
            assert!(rt; show_same_tree(rt, &mut pair), "after {count} steps");
        }
    }
}

/// This many times that, with room for one object or two.
fn run_all(
    rt: &impl Abort,
    alloc: Global,
    count: u32,
    steps: u32,
    seed: &mut u64,
    tally: &mut Tally,
) {
    for run_count in 0..count {
        run(rt, alloc, 1 + (run_count % 2) as usize, steps, seed, tally);
    }
}

#[test]
fn random_requests_are_answered_as_by_the_oracle(rt: HostRuntime) {
    let mut seed = 1;
    let mut tally = Tally {
        changed: 0,
        needs: 0,
        refused: 0,
        faults: 0,
    };
    for (count, steps) in RUNS {
        run_all(&rt, rt.alloc(), *count, *steps, &mut seed, &mut tally);
    }
    let Tally {
        changed,
        needs,
        refused,
        faults,
    } = tally;
    assert!(rt;
        changed > ALL / 4 && refused > ALL / 4,
        "{changed} {refused} {needs} {faults}"
    );
    assert!(rt; needs > ALL / 16 && faults > ALL / 40, "{needs} {faults}");
}
