//! What one pass tells another of, by its entry's number, comes before the other's next entry.

ghost use Rattle.std.specs.Prelude.{◌≡◌};
ghost use Rattle.eden_shared.specs.Lanes.{names_of};
ghost use Rattle.eden_shared.specs.Opening.{AreTied};

use crate::late::end_late;
use crate::mounts::{Held, Mounted, Size, Tree, fetch, open};
use eden_history::Kept;
use eden_model::{CallFault, Entry, Kind, Outside, Path, Reply, Request};
use eden_mount::Attempts;
use eden_shared::{Naming, Pass, Shared, Ties};
use std::alloc::Global;
use std::marker::Brand;
use std::process::Abort;
use std::sync::Wait;
use std::test::Fail;
use std::thread::{self, Threads, join};
use test_random::{Commit, path};

/// Two passes, which call one after the other.
const TWO: Size = Size {
    passes: 2,
    flights: 1,
    history: 3,
    objects: 1,
};

/// The name of the file that the first pass makes.
const NEW: &[u8] = b"n";

/// What a pass asks of the new file.
#[derive(Clone, Copy)]
enum Asked {
    Create,
    Kind,
}

/// A call: whose it is, and the number of its entry.
#[derive(Clone, Copy)]
struct Call {
    pass: u32,
    asked: Asked,
    number: u64,
}

const MADE: Call = Call {
    pass: 1,
    asked: Asked::Create,
    number: 1,
};

const SEEN: Call = Call {
    pass: 2,
    asked: Asked::Kind,
    number: 2,
};

fn request(rt: &impl Abort, alloc: Global, asked: Asked) -> Request {
    let file = path(alloc, &[NEW]).expect(rt, "a path");
    match asked {
        Asked::Create => Request::Create(file),
        Asked::Kind => Request::Kind(file),
    }
}

/// Whether the reply says that the file is there.
fn is_told(asked: Asked, reply: &Reply) -> bool {
    match asked {
        Asked::Create => matches!(reply, Reply::Ok),
        Asked::Kind => matches!(reply, Reply::Kind(Kind::File)),
    }
}

fn is_new_file(path: &Path) -> bool {
    match path.as_slice() {
        [name] => name.as_slice() == NEW,
        _ => false,
    }
}

fn is_asked(asked: Asked, request: &Request) -> bool {
    match (asked, request) {
        (Asked::Create, Request::Create(path)) | (Asked::Kind, Request::Kind(path)) => {
            is_new_file(path)
        }
        _ => false,
    }
}

/// Whether there is an entry, and it is this call's.
fn is_entry(entry: Option<&Entry>, call: Call) -> bool {
    match entry {
        None => false,
        Some(entry) => {
            entry.pass == call.pass
                && is_asked(call.asked, &entry.request)
                && is_told(call.asked, &entry.reply)
        }
    }
}

/// The pass calls, and its floor is above its entry then.
fn ask<T: Attempts<Outside> + Drop, J: Naming, R: Wait + Abort>(
    rt: &R,
    alloc: Global,
    shared: &Shared<Outside, T, Global, J, Kept>,
    pass: &mut Pass<J>,
    call: Call,
) {
    match pass.call(shared, rt, request(rt, alloc, call.asked)) {
        Ok(answer) => {
            assert!(rt; answer.number == call.number && is_told(call.asked, &answer.reply));
        }
        Err(_) => rt.abort(),
    }
    assert!(rt; pass.floor() == call.number.saturating_add(1));
}

/// The other pass learns of the new file, and sees it. The first pass's floor stays.
fn tell<T: Attempts<Outside> + Drop, J: Naming, R: Wait + Abort>(
    rt: &R,
    alloc: Global,
    shared: &Shared<Outside, T, Global, J, Kept>,
    first: &mut Pass<J>,
    second: &mut Pass<J>,
) {
    ask(rt, alloc, shared, first, MADE);
    second.learn(MADE.number);
    assert!(rt; second.floor() == 2);
    ask(rt, alloc, shared, second, SEEN);
    assert!(rt; first.floor() == 2);
}

/// The root is unloaded, and nobody is served any more.
fn stop<T: Attempts<Outside> + Drop, J: Naming, R: Wait + Abort>(
    rt: &R,
    alloc: Global,
    shared: &Shared<Outside, T, Global, J, Kept>,
    pass: &mut Pass<J>,
) {
    let root = path(alloc, &[]).expect(rt, "the root");
    assert!(rt; shared.unload(rt, &root, 0) == 1);
    shared.stop(rt);
    let answer = pass.call(shared, rt, request(rt, alloc, Asked::Kind));
    assert!(rt; matches!(answer, Err(CallFault::Stopped)));
}

/// All that the two passes do. They come back.
fn play<T: Attempts<Outside> + Drop, J: Naming, R: Wait + Abort>(
    rt: &R,
    alloc: Global,
    shared: &Shared<Outside, T, Global, J, Kept>,
    mut passes: Vec<Pass<J>>,
) -> Vec<Pass<J>> {
    let (first, others) = passes.split_first_mut().expect(rt, "a pass");
    let second = others.first_mut().expect(rt, "another pass");
    tell(rt, alloc, shared, first, second);
    stop(rt, alloc, shared, first);
    passes
}

/// The calls beside a fetcher, which ends once the mount is stopped.
fn run<
    T: Attempts<Outside> + Send + Drop,
    J: Naming + Send + Sync,
    R: Threads + Wait + Abort + Sync,
>(
    rt: &R,
    alloc: Global,
    commit: &Commit,
    shared: &Shared<Outside, T, Global, J, Kept>,
    passes: Vec<Pass<J>>,
) -> Vec<Pass<J>>
where
    T::Place: Send,
{
    let (_, passes) = join(
        rt,
        move || fetch(rt, shared, commit),
        move || play(rt, alloc, shared, passes),
    );
    passes
}

/// Gives the mount back.
fn end<J: Naming>(rt: &impl Abort, shared: Held<J>, passes: Vec<Pass<J>>) -> Mounted {
    shared.finish(passes).ok().expect(rt, "each pass")
}

/// Two passes share a mount of the commit, with a fetcher. The mount then.
fn share<J: Naming + Send + Sync, R: Threads + Wait + Abort + Sync>(
    rt: &R,
    alloc: Global,
    commit: &Commit,
    ties: Ties,
) -> Mounted
    requires ties { AreTied ties.lanes.items ties.ends.items 2 }
    requires names { names_of ties.lanes.items ≡ J.names }
{
    let (shared, passes) = open::<J>(rt, alloc, commit.root(), TWO, ties);
    let passes = run::<Tree, J, R>(rt, alloc, commit, &shared, passes);
    end(rt, shared, passes)
}

/// The history has the two entries, and no other.
fn check(rt: &impl Abort, mounted: &Mounted) {
    let history = mounted.history();
    assert!(rt; history.len() == 2);
    assert!(rt; is_entry(history.first(), MADE));
    assert!(rt; is_entry(history.last(), SEEN));
}

#[test]
fn a_change_is_seen_by_who_learnt_of_it(rt: HostRuntime) -> Result<(), Fail> {
    let late = thread::spawn(&rt, move || end_late(&rt));
    drop(late);
    let alloc = rt.alloc();
    let commit = Commit::two_files(alloc).expect(&rt, "a commit");
    let ties = Ties::new(alloc, 2)?;
    check(&rt, &share::<Brand, HostRuntime>(&rt, alloc, &commit, ties));
    Ok(())
}
