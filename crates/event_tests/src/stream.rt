//! Mounts that are changed by random events, their histories replayed, and closed or given up.

use crate::events::{Met, event};
use crate::grounds::{Ground, Life};
use crate::mounts::{Settings, Stored, Unopened, allow, close, open};
use crate::shown::show_same;
use crate::waits::PASSES;
use eden_checkout::{OpenFault, Opening};
use eden_model::Entry;
use eden_oracle::WholeTree;
use eden_overlay::{Files, MemoryFiles};
use std::alloc::Global;
use std::process::Abort;
use test_random::replays;
use test_samples::random;

/// How many events there are.
const ALL: u32 = 5_000;

/// The most mounts of one commit.
const MOST_LIVES: u32 = 6;

/// How many events met what a test must meet, and how many mounts were closed and given up.
#[derive(Clone, Copy)]
struct Tally {
    events: u32,
    refused: u32,
    waits: u32,
    replies: u32,
    errors: u32,
    fetch_faults: u32,
    overlay_faults: u32,
    strays: u32,
    gone: u32,
    closed: u32,
    abandoned: u32,
}

fn add(count: &mut u32) {
    *count = count.saturating_add(1);
}

fn note(tally: &mut Tally, met: Met) {
    add(&mut tally.events);
    match met {
        Met::NotBegan => add(&mut tally.refused),
        Met::Waits => add(&mut tally.waits),
        Met::Replies => add(&mut tally.replies),
        Met::Errs => add(&mut tally.errors),
        Met::FetchFault => add(&mut tally.fetch_faults),
        Met::OverlayFault => add(&mut tally.overlay_faults),
        Met::Stray => add(&mut tally.strays),
        Met::Goes => add(&mut tally.gone),
        _ => {}
    }
}

/// Events till the history is full.
fn live(rt: &impl Abort, ground: &mut Ground, life: &mut Life, seed: &mut u64, tally: &mut Tally) {
    for _ in 0..ALL {
        if life.done == life.limit || tally.events >= ALL {
            return;
        }
        let met = event(rt, ground, life, seed);
        note(tally, met);
    }
}

/// One entry: its reply is the oracle's, or a fault, which changes nothing.
fn replay_one(rt: &impl Abort, alloc: Global, tree: &mut WholeTree, entry: &Entry) {
    assert!(rt; 1 <= entry.pass && entry.pass <= PASSES);
    let is_replayed = replays(alloc, tree, entry).expect(rt, "memory");
    assert!(rt; is_replayed, "{entry:?}");
}

/// The whole history, from the tree that the mount opened with.
fn replay(rt: &impl Abort, ground: &Ground, life: &Life, tree: &mut WholeTree) {
    let history = life.mount.history();
    assert!(rt; history.len() as u64 == life.done);
    for entry in history {
        replay_one(rt, ground.alloc, tree, entry);
    }
    assert!(rt; life.mount.busy() == life.busy());
}

/// Files that were given up: they can be opened only if there are none.
fn abandoned(rt: &impl Abort, ground: &Ground, mut files: Stored) {
    let numbers = files.list(ground.alloc).expect(rt, "numbers");
    let settings = Settings {
        root: ground.commit.root(),
        opening: Opening::Closed,
        objects: 1,
        history: 1,
    };
    match open(rt, ground.alloc, files, &ground.calls, settings) {
        Ok(_) => assert!(rt; numbers.is_empty()),
        Err(Unopened { fault, .. }) => {
            assert!(rt; !numbers.is_empty() && fault == OpenFault::NotClean)
        }
    }
}

/// The mount's end. The files, if it was closed.
fn end(
    rt: &impl Abort,
    ground: &mut Ground,
    life: Life,
    seed: &mut u64,
    tally: &mut Tally,
) -> Option<Stored> {
    let tree = life.mount.into_table();
    if random(seed) % 6 == 0 {
        ground.calls.set(u64::MAX);
        abandoned(rt, ground, tree.abandon().into_files());
        add(&mut tally.abandoned);
        return None;
    }
    allow(&ground.calls, seed);
    let files = close(rt, ground.alloc, tree, &ground.calls);
    add(&mut tally.closed);
    Some(show_same(rt, ground, Opening::Closed, files))
}

/// One mount over these files. The files, if it was closed.
fn live_once(
    rt: &impl Abort,
    ground: &mut Ground,
    replayed: &mut WholeTree,
    files: Stored,
    seed: &mut u64,
    tally: &mut Tally,
) -> Option<Stored> {
    allow(&ground.calls, seed);
    let mut life = Life::new(rt, ground, files, seed);
    live(rt, ground, &mut life, seed, tally);
    replay(rt, ground, &life, replayed);
    end(rt, ground, life, seed, tally)
}

/// A random commit, and a few mounts of it, one after another over the same files.
fn run(rt: &impl Abort, alloc: Global, seed: &mut u64, tally: &mut Tally) {
    let mut ground = Ground::new(rt, alloc, seed);
    let mut replayed = ground.commit.whole(alloc).expect(rt, "a tree");
    let mut left = Some(MemoryFiles::new(alloc));
    for _ in 0..MOST_LIVES {
        if let Some(files) = left.take() {
            left = live_once(rt, &mut ground, &mut replayed, files, seed, tally);
        }
    }
}

fn run_all(rt: &impl Abort, alloc: Global, tally: &mut Tally) {
    let mut seed = 1;
    for _ in 0..ALL {
        if tally.events >= ALL {
            return;
        }
        run(rt, alloc, &mut seed, tally);
    }
}

/// Each kind of answer was met often enough.
fn check_tally(rt: &impl Abort, tally: &Tally) {
    assert!(rt; tally.replies.saturating_add(tally.errors) > ALL / 10);
    assert!(rt; tally.waits > ALL / 30);
    assert!(rt; tally.refused > ALL / 20);
    assert!(rt; tally.strays > ALL / 20);
    assert!(rt; tally.fetch_faults > ALL / 150);
    assert!(rt; tally.overlay_faults > ALL / 1_000);
    assert!(rt; tally.gone > ALL / 100);
    assert!(rt; tally.closed > ALL / 500);
    assert!(rt; tally.abandoned > ALL / 2_500);
}

#[test]
fn random_events_keep_a_history_of_the_oracle(rt: HostRuntime) {
    let mut tally = Tally {
        events: 0,
        refused: 0,
        waits: 0,
        replies: 0,
        errors: 0,
        fetch_faults: 0,
        overlay_faults: 0,
        strays: 0,
        gone: 0,
        closed: 0,
        abandoned: 0,
    };
    run_all(&rt, rt.alloc(), &mut tally);
    check_tally(&rt, &tally);
}
