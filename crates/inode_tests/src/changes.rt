//! Random loads, unloads and changes, beside a plain map of what must be shown, over files that stop at random calls.

use crate::mount::{LETTERS, Mount, origin_of};
use crate::names::Place;
use crate::pair::{Pair, Row};
use crate::tree::Tree;
use eden_model::Kind;
use linked_list_allocator::LocalHeap;
use std::alloc::{Allocator, Global};
use std::process::Abort;
use test_samples::{NEW_FILE, ONE_FILE, Sample, TWO_FILES, VERSION_1, VERSION_2, random};

/// After how many steps all is compared.
const BETWEEN: u32 = 100;

/// The deepest paths of steps have this many names.
const DEEPEST: u32 = 3;

/// A commit or an own root, what is below it, how often it is begun with, and how many steps follow each time.
#[derive(Clone, Copy)]
struct Runs {
    commit: Option<Sample>,
    rows: &'static [Row],
    count: u32,
    steps: u32,
    seed: u64,
}

/// An own root without entries.
const EMPTY: Runs = Runs {
    commit: None,
    rows: &[],
    count: 1,
    steps: 20_000,
    seed: 1,
};

/// The sample commit.
const COMMIT: Runs = Runs {
    commit: Some(TWO_FILES),
    rows: &[
        (b"a", Kind::Dir, ONE_FILE),
        (b"ac", Kind::File, VERSION_1),
        (b"b", Kind::File, NEW_FILE),
        (b"c", Kind::File, VERSION_2),
    ],
    count: 200,
    steps: 60,
    seed: 2,
};

/// How often something came, went or moved, and how often the device failed.
#[derive(Clone, Copy)]
struct Tally {
    changed: u32,
    failures: u64,
}

fn letter(seed: &mut u64) -> u8 {
    LETTERS[(random(seed) % 3) as usize]
}

/// The path of a directory that must be shown.
fn path(rt: &impl Abort, alloc: Global, tree: &Tree, seed: &mut u64) -> Vec<u8> {
    let mut path = Vec::new(alloc);
    for _ in 0..random(seed) % (DEEPEST + 1) {
        path.push(letter(seed)).expect(rt, "memory");
        if !tree.is_dir(&path) {
            path.pop();
        }
    }
    path
}

/// Moves what is under a name to another place: whether that was done. Both directories become the mount's own before,
/// and what is below the entry is unloaded.
fn move_to<A: Allocator + Clone>(
    rt: &impl Abort,
    pair: &mut Pair<A>,
    from: Place<'_>,
    to: Place<'_>,
) -> bool {
    pair.mount.unload_below(rt, from);
    pair.mount.unload_below(rt, to);
    pair.mount.own(rt, from.path) && pair.mount.own(rt, to.path) && pair.rename(rt, from, to)
}

/// Moves what is under a name to a random other place.
fn rename<A: Allocator + Clone>(
    rt: &impl Abort,
    pair: &mut Pair<A>,
    from: Place<'_>,
    seed: &mut u64,
) -> bool {
    let path = path(rt, pair.mount.alloc, &pair.tree, seed);
    let letter = letter(seed);
    let to = Place {
        path: &path,
        letter,
    };
    let moved = move_to(rt, pair, from, to);
    drop(path);
    moved
}

/// Loads or unloads the directory at a path, or lets the clock advance: nothing comes or goes.
fn turn<A: Allocator + Clone>(rt: &impl Abort, mount: &mut Mount<A>, path: &[u8], word: u32) {
    match word % 4 {
        0 => {
            mount.load_all(rt, path);
        }
        1 => {
            mount.unload(rt, path, u64::from(word / 4 % 4));
        }
        2 => {
            mount.own(rt, path);
        }
        _ => mount.table.tick(),
    }
}

/// A random step at a path: whether something came, went or moved.
fn change<A: Allocator + Clone>(
    rt: &impl Abort,
    pair: &mut Pair<A>,
    path: &[u8],
    seed: &mut u64,
) -> bool {
    let letter = letter(seed);
    let place = Place { path, letter };
    let word = random(seed);
    match random(seed) % 16 {
        0..=2 => pair.insert(rt, place, Kind::File, u64::from(word)),
        3..=6 => pair.insert(rt, place, Kind::Dir, 0),
        7 => pair.remove(rt, place, true),
        8 => pair.remove(rt, place, false),
        9 => pair.turn_into(rt, place, Kind::Exec),
        10 => pair.turn_into(rt, place, Kind::Link),
        11..=13 => rename(rt, pair, place, seed),
        _ => {
            turn(rt, &mut pair.mount, path, word);
            false
        }
    }
}

/// Unloads all.
fn unload_all<A: Allocator + Clone>(rt: &impl Abort, mount: &mut Mount<A>) {
    assert!(rt; mount.unload(rt, &[], 0) > 0 && !mount.table.look(&[]).loaded);
}

/// All is shown as it must be. Then the number of each node is noted, which it must keep.
fn check_and_note<A: Allocator + Clone>(rt: &impl Abort, pair: &mut Pair<A>) {
    assert!(rt; pair.shows(rt));
    pair.note(rt);
}

/// The files under a new table, which shows what they say. An entry that failed to move is stored again before, by its
/// directory that is unsaved: then all directories go, so that all numbers are saved. Else those are lost of entries in
/// loaded directories of objects.
fn reopen<A: Allocator + Clone>(rt: &impl Abort, pair: &mut Pair<A>, dirs: &A) {
    if pair.mount.has_unsaved(rt, &pair.tree) {
        unload_all(rt, &mut pair.mount);
    } else if pair.mount.table.look(&[]).loaded {
        pair.tree.forget_numbers();
    }
    pair.mount.open_again(rt, dirs);
    check_and_note(rt, pair);
}

/// Changes something at a path, over files that stop at a random call, and lets them continue. Whether they stopped.
fn stopping_change<A: Allocator + Clone>(
    rt: &impl Abort,
    pair: &mut Pair<A>,
    path: &[u8],
    seed: &mut u64,
    changed: &mut u32,
) -> bool {
    let calls = u64::from(random(seed) % 16);
    pair.mount
        .calls
        .set(if calls < 4 { calls } else { u64::MAX });
    if change(rt, pair, path, seed) {
        *changed = changed.saturating_add(1);
    }
    let stopped = pair.mount.calls.get() == 0;
    pair.mount.calls.set(u64::MAX);
    stopped
}

/// Whether all shows what it must, or the directory at a path alone.
fn is_right<A: Allocator + Clone>(
    rt: &impl Abort,
    pair: &mut Pair<A>,
    path: &[u8],
    is_all: bool,
) -> bool {
    if is_all {
        return pair.shows(rt);
    }
    pair.mount.shows_dir(rt, &pair.tree, path)
}

/// One change at a random path. Whether the files stopped meanwhile.
fn change_somewhere<A: Allocator + Clone>(
    rt: &impl Abort,
    pair: &mut Pair<A>,
    seed: &mut u64,
    changed: &mut u32,
) -> bool {
    let path = path(rt, pair.mount.alloc, &pair.tree, seed);
    let stopped = stopping_change(rt, pair, &path, seed, changed);
    let is_right = is_right(rt, pair, &path, stopped);
    drop(path);
    assert!(rt; is_right);
    stopped
}

/// A random step, at every fourth of which the device stops after a few calls, and is mended. What it touched shows
/// what it must; if the device stopped, all does, and every other time the files alone do.
fn step<A: Allocator + Clone>(
    rt: &impl Abort,
    pair: &mut Pair<A>,
    dirs: &A,
    seed: &mut u64,
    changed: &mut u32,
) {
    if change_somewhere(rt, pair, seed, changed) && random(seed) % 2 != 0 {
        reopen(rt, pair, dirs);
    }
}

/// All steps, and then the files alone show what they must.
fn run<A: Allocator + Clone>(
    rt: &impl Abort,
    pair: &mut Pair<A>,
    dirs: &A,
    steps: u32,
    seed: &mut u64,
    changed: &mut u32,
) {
    check_and_note(rt, pair);
    check_and_note(rt, pair);
    for count in 0..steps {
        step(rt, pair, dirs, seed, changed);
        if count % BETWEEN == 0 {
            assert!(rt; pair.shows(rt), "after {count} steps");
        }
    }
    unload_all(rt, &mut pair.mount);
    reopen(rt, pair, dirs);
}

/// One of the runs.
fn run_once<A: Allocator + Clone>(
    rt: &impl Abort,
    alloc: Global,
    dirs: &A,
    runs: Runs,
    seed: &mut u64,
    tally: &mut Tally,
) {
    let mut pair = Pair::open(rt, alloc, dirs, origin_of(runs.commit), runs.rows);
    run(rt, &mut pair, dirs, runs.steps, seed, &mut tally.changed);
    tally.failures = tally.failures.saturating_add(pair.mount.failures);
    drop(pair);
}

/// All runs, with their directories in a heap that is given back.
fn run_all(rt: &impl Abort, alloc: Global, runs: Runs) -> Tally {
    let heap = LocalHeap::new(alloc, 1 << 20).expect(rt, "a heap");
    let mut seed = runs.seed;
    let mut tally = Tally {
        changed: 0,
        failures: 0,
    };
    for _ in 0..runs.count {
        run_once(rt, alloc, &&heap, runs, &mut seed, &mut tally);
    }
    let is_given_back = heap.used() == 0;
    drop(heap);
    assert!(rt; is_given_back);
    tally
}

/// Whether a quarter of all steps made a change, and the device failed in a twentieth.
fn is_enough(runs: Runs, tally: Tally) -> bool {
    let steps = runs.count.saturating_mul(runs.steps);
    tally.changed > steps / 4 && tally.failures > u64::from(steps / 20)
}

#[test]
fn random_changes_show_as_in_a_map(rt: HostRuntime) {
    assert!(rt; is_enough(EMPTY, run_all(&rt, rt.alloc(), EMPTY)));
}

#[test]
fn random_changes_of_the_commit_show_as_in_a_map(rt: HostRuntime) {
    assert!(rt; is_enough(COMMIT, run_all(&rt, rt.alloc(), COMMIT)));
}
