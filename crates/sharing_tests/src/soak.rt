//! Clients, fetchers and unloading at once, and a history that one caller at a time could have made.
ghost use Rattle.std.specs.Prelude.{◌≡◌, length};
ghost use Rattle.eden_shared.specs.Lanes.{names_of};
ghost use Rattle.eden_shared.specs.Opening.{AreTied};
ghost use Rattle.eden_shared.specs.Passes.{AreNewcomers};

use crate::clients::Arrivals;
use crate::mounts::{Held, Mounted, Size, open, serve};
use crate::replay::{Tally, check};
use crate::rounds::{CLIENTS, REQUESTS, Round};
use eden_mount::Unloading;
use eden_shared::{Naming, Pass, Ties};
use std::alloc::Global;
use std::marker::Brand;
use std::process::Abort;
use std::sync::Wait;
use std::thread::Threads;
use std::time::{Duration, Instant};

/// For how many seconds rounds begin.
const SECONDS: u64 = 20;

/// How many rounds there are at most, so that they can be counted.
const ALL: u32 = 1_000_000;

/// As many keys may be in flight.
const FLIGHTS: u32 = 3;

/// Serves the round's clients until all are answered. The mount then.
fn serve_clients<'a, J: Naming + Send + Sync, R: Threads + Wait + Abort + Sync>(
    rt: &'a R,
    alloc: Global,
    shared: Held<J>,
    passes: Vec<Pass<J>>,
    round: &'a Round,
) -> Mounted
    requires { AreNewcomers passes.items (length J.names) }
{
    let arrivals = Arrivals {
        rt,
        pace: &round.pace,
        left: round.clients.as_slice(),
    };
    let unloading = Unloading {
        every: 3,
        age: round.age,
        came: 0,
    };
    let sources = round.sources(rt, alloc);
    serve(rt, alloc, arrivals, shared, passes, sources, unloading)
}

/// Serves the round's clients over a mount of its commit.
fn serve_round<J: Naming + Send + Sync, R: Threads + Wait + Abort + Sync>(
    rt: &R,
    alloc: Global,
    ties: Ties,
    round: &Round,
) -> Mounted
    requires ties { AreTied ties.lanes.items ties.ends.items CLIENTS }
    requires names { names_of ties.lanes.items ≡ J.names }
{
    let size = Size {
        passes: CLIENTS,
        flights: FLIGHTS,
        history: REQUESTS,
        objects: round.objects,
    };
    let (shared, passes) = open::<J>(rt, alloc, round.commit.root(), size, ties);
    serve_clients(rt, alloc, shared, passes, round)
}

/// A random round, which adds to the tally.
fn play<R: Threads + Wait + Abort + Sync>(
    rt: &R,
    alloc: Global,
    seed: &mut u64,
    tally: Tally,
) -> Tally {
    let round = Round::new(rt, alloc, seed);
    let ties = Ties::new(alloc, CLIENTS).ok().expect(rt, "memory");
    let mount = serve_round::<Brand, R>(rt, alloc, ties, &round);
    check(rt, alloc, round, mount.history(), tally)
}

/// Each kind of answer was met often enough in this many rounds.
fn check_tally(rt: &impl Abort, rounds: u32, tally: &Tally) {
    let rounds = u64::from(rounds);
    assert_eq!(rt; u64::from(tally.entries), rounds * u64::from(REQUESTS));
    let replies = u64::from(tally.replies.min(tally.errors));
    assert!(rt; replies > rounds * 50, "{tally:?}");
    assert!(rt; u64::from(tally.failures) > rounds / 5, "{tally:?}");
    assert!(rt; u64::from(tally.flaws) > rounds, "{tally:?}");
    assert!(rt; u64::from(tally.overtakes) > rounds * 5, "{tally:?}");
}

#[test]
fn clients_are_answered_as_one_after_another(rt: HostRuntime) {
    let alloc = rt.alloc();
    let mut seed = 1;
    let mut tally = Tally {
        entries: 0,
        replies: 0,
        errors: 0,
        failures: 0,
        flaws: 0,
        overtakes: 0,
    };
    let start = Instant::now(&rt).expect(&rt, "a clock");
    let mut rounds = 0;
    for round in 0..ALL {
        let passed = start.elapsed(&rt).expect(&rt, "a clock");
        if passed >= Duration::from_secs(SECONDS) {
            break;
        }
        tally = play(&rt, alloc, &mut seed, tally);
        rounds = round + 1;
    }
    check_tally(&rt, rounds, &tally);
}
