//! Random requests of callers on threads of their own.

ghost use Rattle.std.specs.Prelude.{◌≡◌};
ghost use Rattle.eden_shared.specs.Lanes.{names_of};
ghost use Rattle.eden_shared.specs.Opening.{AreTied};

use crate::histories::{Note, add_notes, changes, check_notes, check_reopened, replay};
use crate::late::end_late;
use crate::mounts::{Held, Mounted, Size, Tree, fetch, open};
use eden_history::Kept;
use eden_model::{CallFault, Outside, StartFault};
use eden_mount::Attempts;
use eden_shared::{Naming, Pass, Recording, Shared, Ties};
use std::alloc::Global;
use std::marker::Brand;
use std::process::Abort;
use std::sync::Wait;
use std::test::Fail;
use std::thread::{self, Threads, join, map_vec};
use test_random::{Commit, request};

/// A mount, how often each of its passes calls, and how many of the calls meet a full history.
#[derive(Clone, Copy)]
struct Load {
    size: Size,
    requests: u32,
    refused: u32,
}

/// What all callers share.
#[derive(Drop)]
struct Race<'a, T: Attempts<Outside> + Drop, J: Naming> {
    alloc: Global,
    shared: &'a Shared<Outside, T, Global, J, Kept>,
    commit: &'a Commit,
    load: &'a Load,
}

/// A pass that has called, and how many of its calls met a full history.
#[derive(Drop)]
struct Caller<J: Naming> {
    pass: Recording<J>,
    refused: u32,
}

/// The pass, which keeps what it is told from now on.
fn record<J: Naming>(rt: &impl Abort, alloc: Global, pass: Pass<J>) -> Recording<J> {
    match Recording::new(alloc, pass) {
        Ok(pass) => pass,
        Err(_) => rt.abort(),
    }
}

/// Random requests of any kind, of a tree in which only this pass changes something.
fn ask<T: Attempts<Outside> + Drop, J: Naming, R: Wait + Abort>(
    rt: &R,
    race: &Race<'_, T, J>,
    pass: Pass<J>,
) -> Caller<J> {
    let mut seed = u64::from(pass.number());
    let mut pass = record(rt, race.alloc, pass);
    let mut tree = race.commit.whole(race.alloc).expect(rt, "a tree");
    let full = CallFault::Start(StartFault::HistoryFull(u64::from(race.load.size.history)));
    let mut refused = 0u32;
    for _ in 0..race.load.requests {
        let request = request(race.alloc, &mut tree, &mut seed).expect(rt, "a request");
        tree.step(race.alloc, &request).expect(rt, "memory");
        if let Err(fault) = pass.call(race.shared, rt, request) {
            assert_eq!(rt; fault, full);
            refused = refused.saturating_add(1);
        }
    }
    Caller { pass, refused }
}

/// All passes call, each on a thread of its own. Then the mount is stopped.
fn ask_all<
    T: Attempts<Outside> + Send + Drop,
    J: Naming + Send + Sync,
    R: Threads + Wait + Abort + Sync,
>(rt: &R, race: &Race<'_, T, J>, passes: Vec<Pass<J>>) -> Vec<Caller<J>>
where
    T::Place: Send,
{
    let callers = map_vec(rt, passes, &|pass| ask(rt, race, pass));
    race.shared.stop(rt);
    callers.expect(rt, "memory")
}

/// Two fetchers on threads of their own.
fn fetch_twice<
    T: Attempts<Outside> + Send + Drop,
    J: Naming + Send + Sync,
    R: Threads + Wait + Sync,
>(rt: &R, race: &Race<'_, T, J>)
where
    T::Place: Send,
{
    join(
        rt,
        move || fetch(rt, race.shared, race.commit),
        move || fetch(rt, race.shared, race.commit),
    );
}

/// The callers beside the fetchers.
fn run<
    T: Attempts<Outside> + Send + Drop,
    J: Naming + Send + Sync,
    R: Threads + Wait + Abort + Sync,
>(rt: &R, race: &Race<'_, T, J>, passes: Vec<Pass<J>>) -> Vec<Caller<J>>
where
    T::Place: Send,
{
    let (_, callers) = join(
        rt,
        move || fetch_twice(rt, race),
        move || ask_all(rt, race, passes),
    );
    callers
}

/// What came of a mount that callers shared.
#[derive(Drop)]
struct Ending {
    mounted: Mounted,
    notes: Vec<Note>,
    refused: u32,
}

/// Gives the mount back, and what its callers were told.
fn end<J: Naming>(
    rt: &impl Abort,
    alloc: Global,
    shared: Held<J>,
    callers: Vec<Caller<J>>,
) -> Ending {
    let mut notes = Vec::new(alloc);
    let mut passes = Vec::new(alloc);
    let mut all_refused = 0u32;
    for Caller { pass, refused } in callers {
        add_notes(rt, alloc, &mut notes, pass.pass().number(), pass.told());
        all_refused = all_refused.saturating_add(refused);
        passes.push(pass.into_pass()).expect(rt, "memory");
    }
    let mounted = shared.finish(passes).ok().expect(rt, "each pass");
    Ending {
        mounted,
        notes,
        refused: all_refused,
    }
}

/// All passes of a mount of the commit call, and two fetchers fetch for them.
fn share<J: Naming + Send + Sync, R: Threads + Wait + Abort + Sync>(
    rt: &R,
    alloc: Global,
    commit: &Commit,
    load: &Load,
    ties: Ties,
) -> Ending
    requires ties { AreTied ties.lanes.items ties.ends.items load.now.size.passes }
    requires names { names_of ties.lanes.items ≡ J.names }
{
    let (shared, passes) = open::<J>(rt, alloc, commit.root(), load.size, ties);
    let race = Race {
        alloc,
        shared: &shared,
        commit,
        load,
    };
    let callers = run::<Tree, J, R>(rt, &race, passes);
    end(rt, alloc, shared, callers)
}

/// The callers were told of their entries, and each entry is the oracle's, whose tree the mount shows when it is
/// opened again. One in twenty made a change.
fn check(rt: &impl Abort, alloc: Global, commit: &Commit, ending: Ending) {
    let Ending { mounted, notes, .. } = ending;
    let history = mounted.history();
    assert!(rt;
        changes(history) > history.len() / 20,
        "{} of {}",
        changes(history),
        history.len()
    );
    check_notes(rt, alloc, notes.as_slice(), history);
    let mut tree = replay(rt, alloc, commit, history);
    check_reopened(rt, alloc, commit, mounted, &mut tree);
}

const LOADS: [Load; 2] = [
    Load {
        size: Size {
            passes: 4,
            flights: 2,
            history: 800,
            objects: 3,
        },
        requests: 200,
        refused: 0,
    },
    Load {
        size: Size {
            passes: 8,
            flights: 2,
            history: 100,
            objects: 3,
        },
        requests: 20,
        refused: 60,
    },
];

#[test]
fn callers_keep_a_history_of_the_oracle(rt: HostRuntime) -> Result<(), Fail> {
    let late = thread::spawn(&rt, move || end_late(&rt));
    drop(late);
    let alloc = rt.alloc();
    let mut seed = 1;
    for load in LOADS {
        let commit = Commit::new(alloc, &mut seed).expect(&rt, "a commit");
        let ties = Ties::new(alloc, load.size.passes)?;
        let ending = share::<Brand, HostRuntime>(&rt, alloc, &commit, &load, ties);
        assert_eq!(rt; ending.refused, load.refused);
        check(&rt, alloc, &commit, ending);
    }
    Ok(())
}
