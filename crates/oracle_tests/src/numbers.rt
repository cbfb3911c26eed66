//! Inode numbers in the slow oracle: which ones a `stat` may tell, and which it tells.

use crate::table::{ONE_FILE, path, whole};
use eden_model::{Errno, Kind, Reply, Request};
use eden_oracle::WholeTree;
use std::alloc::Global;
use std::process::Abort;

/// A change that is made.
#[derive(Clone, Copy)]
enum Change {
    Create(&'static str),
    Mkdir(&'static str),
    Unlink(&'static str),
    Rmdir(&'static str),
    Rename(&'static str, &'static str),
    /// A rename that the table refuses.
    Refused(&'static str, &'static str, Errno),
}

/// What a `stat` tells: a kind, a length and an inode number.
type Told = (Kind, u64, u64);

#[derive(Clone, Copy)]
enum Step {
    Makes(Change),
    /// A `stat` of the path may tell that.
    May(&'static str, Told),
    /// It may not.
    MayNot(&'static str, Told),
    /// The oracle tells that of it.
    Tells(&'static str, Told),
    /// Numbers in the place of those that it has: one path's, and the next one.
    Opens(&'static str, u64, u64),
}

fn asked(rt: &impl Abort, alloc: Global, change: Change) -> Request {
    match change {
        Change::Create(at) => Request::Create(path(rt, alloc, at)),
        Change::Mkdir(at) => Request::Mkdir(path(rt, alloc, at)),
        Change::Unlink(at) => Request::Unlink(path(rt, alloc, at)),
        Change::Rmdir(at) => Request::Rmdir(path(rt, alloc, at)),
        Change::Rename(from, to) | Change::Refused(from, to, _) => {
            Request::Rename(path(rt, alloc, from), path(rt, alloc, to))
        }
    }
}

/// Whether a change is answered so: the oracle allows that reply.
fn makes(rt: &impl Abort, alloc: Global, tree: &mut WholeTree, change: Change) -> bool {
    let request = asked(rt, alloc, change);
    let reply = match change {
        Change::Refused(_, _, errno) => Reply::Err(errno),
        _ => Reply::Ok,
    };
    tree.allows(alloc, &request, &reply).expect(rt, "memory")
}

fn may(rt: &impl Abort, alloc: Global, tree: &mut WholeTree, at: &str, told: Told) -> bool {
    let (kind, size, number) = told;
    let request = Request::Stat(path(rt, alloc, at));
    let reply = Reply::Stat(kind, size, number);
    tree.allows(alloc, &request, &reply).expect(rt, "memory")
}

fn tells(rt: &impl Abort, alloc: Global, tree: &mut WholeTree, at: &str, told: Told) -> bool {
    let (kind, size, number) = told;
    let request = Request::Stat(path(rt, alloc, at));
    match tree.step(alloc, &request).expect(rt, "memory") {
        Some(Reply::Stat(there, length, own)) => there == kind && length == size && own == number,
        _ => false,
    }
}

fn opens(
    rt: &impl Abort,
    alloc: Global,
    tree: &mut WholeTree,
    at: &str,
    number: u64,
    next: u64,
) -> bool {
    let mut given = Vec::new(alloc);
    given.push((path(rt, alloc, "/"), 1)).expect(rt, "memory");
    given
        .push((path(rt, alloc, at), number))
        .expect(rt, "memory");
    tree.set_numbers(alloc, given, next).is_ok()
}

fn take(rt: &impl Abort, alloc: Global, tree: &mut WholeTree, step: Step) -> bool {
    match step {
        Step::Makes(change) => makes(rt, alloc, tree, change),
        Step::May(at, told) => may(rt, alloc, tree, at, told),
        Step::MayNot(at, told) => !may(rt, alloc, tree, at, told),
        Step::Tells(at, told) => tells(rt, alloc, tree, at, told),
        Step::Opens(at, number, next) => opens(rt, alloc, tree, at, number, next),
    }
}

fn check(rt: &impl Abort, alloc: Global, steps: &[Step]) {
    let mut tree = whole(rt, alloc, &ONE_FILE);
    for k in 0..steps.len() {
        assert!(rt; take(rt, alloc, &mut tree, steps[k]), "step {k}");
    }
}

/// The root has 1 and what is told first 2. A number moves with its node, and isn't given again once that is gone.
const MOVED: &[Step] = &[
    Step::Tells("/", (Kind::Dir, 0, 1)),
    Step::Makes(Change::Rename("/test.txt", "/t")),
    Step::Tells("/t", (Kind::File, 10, 2)),
    Step::Makes(Change::Unlink("/t")),
    Step::Makes(Change::Create("/t")),
    Step::Tells("/t", (Kind::File, 0, 3)),
];

/// Any number that isn't spent may be told first, and then that one alone.
const CHOSEN: &[Step] = &[
    Step::May("/test.txt", (Kind::File, 10, 7)),
    Step::MayNot("/test.txt", (Kind::File, 10, 8)),
    Step::Tells("/test.txt", (Kind::File, 10, 7)),
];

/// None is told twice, nor one outside the range, nor beside another kind or length.
const REFUSED: &[Step] = &[
    Step::MayNot("/", (Kind::Dir, 0, 2)),
    Step::MayNot("/test.txt", (Kind::File, 10, 0)),
    Step::MayNot("/test.txt", (Kind::File, 10, 1)),
    Step::MayNot("/test.txt", (Kind::File, 10, 1 << 63)),
    Step::MayNot("/test.txt", (Kind::File, 11, 2)),
    Step::MayNot("/test.txt", (Kind::Exec, 10, 2)),
    Step::MayNot("/no", (Kind::File, 10, 2)),
    Step::May("/test.txt", (Kind::File, 10, (1 << 63) - 1)),
    Step::Makes(Change::Create("/a")),
    Step::MayNot("/a", (Kind::File, 0, (1 << 63) - 1)),
    Step::Makes(Change::Unlink("/test.txt")),
    Step::MayNot("/a", (Kind::File, 0, (1 << 63) - 1)),
    Step::Tells("/a", (Kind::File, 0, 2)),
];

/// What stands below a directory moves with it. What a rename replaces is gone, and one that is refused moves none.
const BELOW: &[Step] = &[
    Step::Makes(Change::Mkdir("/d")),
    Step::Makes(Change::Mkdir("/d/e")),
    Step::Makes(Change::Rename("/test.txt", "/d/e/t")),
    Step::Tells("/d/e/t", (Kind::File, 10, 2)),
    Step::Tells("/d", (Kind::Dir, 0, 3)),
    Step::Makes(Change::Rename("/d", "/f")),
    Step::Tells("/f/e/t", (Kind::File, 10, 2)),
    Step::Tells("/f", (Kind::Dir, 0, 3)),
    Step::Makes(Change::Create("/a")),
    Step::Tells("/a", (Kind::File, 0, 4)),
    Step::Makes(Change::Refused("/a", "/f", Errno::EISDIR)),
    Step::Makes(Change::Rename("/a", "/a")),
    Step::Tells("/a", (Kind::File, 0, 4)),
    Step::Makes(Change::Rename("/a", "/f/e/t")),
    Step::Tells("/f/e/t", (Kind::File, 0, 4)),
    Step::Makes(Change::Rename("/f/e/t", "/t")),
    Step::Makes(Change::Rmdir("/f/e")),
    Step::Makes(Change::Mkdir("/f/e")),
    Step::MayNot("/f/e", (Kind::Dir, 0, 2)),
    Step::Tells("/f/e", (Kind::Dir, 0, 5)),
    Step::Tells("/t", (Kind::File, 0, 4)),
];

/// A mount over stored files: what they show is given, and all below their next one is spent.
const OPENED: &[Step] = &[
    Step::Tells("/test.txt", (Kind::File, 10, 2)),
    Step::Opens("/test.txt", 5, 9),
    Step::Makes(Change::Create("/a")),
    Step::MayNot("/a", (Kind::File, 0, 2)),
    Step::MayNot("/a", (Kind::File, 0, 8)),
    Step::MayNot("/test.txt", (Kind::File, 10, 9)),
    Step::Tells("/test.txt", (Kind::File, 10, 5)),
    Step::Tells("/a", (Kind::File, 0, 9)),
    Step::Tells("/", (Kind::Dir, 0, 1)),
];

/// No number is left: a `stat` of what has none is answered nothing.
#[test]
fn a_number_that_is_left_is_told_and_none_else(rt: HostRuntime) {
    let alloc = rt.alloc();
    let mut tree = whole(&rt, alloc, &ONE_FILE);
    assert!(rt; opens(&rt, alloc, &mut tree, "/no", 2, 1 << 63));
    let request = Request::Stat(path(&rt, alloc, "/test.txt"));
    assert!(rt; tree.step(alloc, &request).expect(&rt, "memory").is_none());
    assert!(rt; !may(&rt, alloc, &mut tree, "/test.txt", (Kind::File, 10, 3)));
    assert!(rt; tells(&rt, alloc, &mut tree, "/", (Kind::Dir, 0, 1)));
}

#[test]
fn numbers_are_told_by_the_rules(rt: HostRuntime) {
    for steps in [MOVED, CHOSEN, REFUSED, BELOW, OPENED] {
        check(&rt, rt.alloc(), steps);
    }
}
