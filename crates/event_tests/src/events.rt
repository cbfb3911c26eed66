//! Random events, each with what it must answer.

use crate::grounds::{Ground, Life};
use crate::mounts::allow;
use crate::shown::follow;
use crate::waits::seat;
use eden_model::{Cause, Fault, Key, Kind, Path, Reply, Request};
use eden_mount::{Arrived, Turned};
use std::process::Abort;
use test_random::{kind_at, name_at, path, path_of, request, some_look};
use test_samples::random;

/// What an event met.
#[derive(Clone, Copy)]
pub(crate) enum Met {
    Began,
    NotBegan,
    Idle,
    Waits,
    /// A reply that is neither an error nor a fault.
    Replies,
    Errs,
    FetchFault,
    OverlayFault,
    Taken,
    NoneTaken,
    Stored,
    Unusable,
    Stray,
    Goes,
    NoneGoes,
}

/// Bytes of no object of a commit.
const OTHER_BYTES: &[u8] = b"blob 3\0xyz";

/// A pass whose request is pending, or one whose isn't, most often. Now and then there is no such pass.
fn some_pass(life: &Life, seed: &mut u64, is_busy: bool) -> u32 {
    for _ in 0..3 {
        let pass = random(seed) % 10;
        if life.is_busy(pass) == is_busy {
            return pass;
        }
    }
    random(seed) % 10
}

/// What a look is about.
fn looked_at(request: &Request) -> Option<&Path> {
    match request {
        Request::Stat(at) | Request::ReadLink(at) => Some(at),
        Request::Read(at, _, _) => Some(at),
        Request::List(at, _, _) => Some(at),
        _ => None,
    }
}

/// A request after which what a pending look is about is gone or empty, so that it needs nothing any more.
fn taking_away(rt: &impl Abort, ground: &Ground, life: &Life, seed: &mut u64) -> Option<Request> {
    let word = random(seed);
    let pending = life.asked_at(seat(word))?;
    let at = looked_at(pending)?.copy(ground.alloc).expect(rt, "memory");
    let to = path_of(ground.alloc, &[(word / 8 % 4) as u8]).expect(rt, "a path");
    Some(match word / 32 % 3 {
        0 => Request::Unlink(at),
        1 => Request::Truncate(at, 0),
        _ => Request::Rename(at, to),
    })
}

/// The path of the first this many of these names, and of that one in their directory.
fn beside(rt: &impl Abort, ground: &Ground, at: &Path, names: usize, place: u8) -> Path {
    let mut parts = Vec::new(ground.alloc);
    for (depth, name) in at.as_slice().iter().enumerate() {
        if depth < names {
            parts.push(name.as_slice()).expect(rt, "memory");
        }
    }
    parts.push(name_at(place)).expect(rt, "memory");
    path(ground.alloc, parts.as_slice()).expect(rt, "a path")
}

/// A request that changes names on the way to what a pending look is about: one comes or goes in a directory of its
/// path, so that others get other positions, or one goes elsewhere.
fn changing_names(
    rt: &impl Abort,
    ground: &Ground,
    life: &Life,
    seed: &mut u64,
) -> Option<Request> {
    let word = random(seed);
    let at = looked_at(life.asked_at(seat(word))?)?;
    let names = (word / 8 % 4) as usize;
    let here = beside(rt, ground, at, names, (word / 32 % 4) as u8);
    Some(match word / 128 % 6 {
        0 => Request::Create(here),
        1 => Request::Mkdir(here),
        2 => Request::Unlink(here),
        3 => Request::Rmdir(here),
        _ => Request::Rename(
            here,
            beside(rt, ground, at, names, (word / 1_024 % 4) as u8),
        ),
    })
}

/// A request of any kind, or a look.
fn some_request(rt: &impl Abort, ground: &mut Ground, seed: &mut u64) -> Request {
    let made = if random(seed) % 2 == 0 {
        request(ground.alloc, &mut ground.tree, seed)
    } else {
        some_look(ground.alloc, &mut ground.tree, seed)
    };
    made.expect(rt, "a request")
}

/// A request, now and then one that another pass's request meets.
fn next_request(rt: &impl Abort, ground: &mut Ground, life: &Life, seed: &mut u64) -> Request {
    let met = match random(seed) % 6 {
        0..=1 => taking_away(rt, ground, life, seed),
        2 => changing_names(rt, ground, life, seed),
        _ => None,
    };
    match met {
        Some(request) => request,
        None => some_request(rt, ground, seed),
    }
}

/// A start of some pass, or of none that there is.
fn start(rt: &impl Abort, ground: &mut Ground, life: &mut Life, seed: &mut u64) -> Met {
    let pass = some_pass(life, seed, false);
    let request = next_request(rt, ground, life, seed);
    let copy = request.copy(ground.alloc).expect(rt, "memory");
    let admits = life.admits(pass);
    assert!(rt; life.mount.start(pass, request) == admits);
    if admits.is_err() {
        return Met::NotBegan;
    }
    life.ask(rt, pass, copy);
    Met::Began
}

/// The pass continues waiting, and not for what failed.
fn wait(rt: &impl Abort, life: &mut Life, pass: u32, key: Key) -> Met {
    if let Some((failed, _)) = life.waits.mark(pass) {
        assert!(rt; failed != key, "a failed key");
    }
    life.waits.await_key(rt, pass, key);
    Met::Waits
}

/// A fault needs its cause: a failure that came while the pass waited for that key, or a device that stopped.
fn fault(rt: &impl Abort, ground: &Ground, life: &mut Life, pass: u32, fault: Fault) -> Met {
    match fault {
        Fault::Fetch(id, cause) => {
            let (key, failure) = life.waits.mark(pass).expect(rt, "a failed key");
            assert!(rt; key.id == id && failure == cause);
            Met::FetchFault
        }
        Fault::Overlay => {
            assert!(rt; ground.calls.get() == 0);
            Met::OverlayFault
        }
        Fault::Memory | Fault::Numbers => None.expect(rt, "a fault with a cause"),
    }
}

/// A reply is the oracle's, which continues by it.
fn reply(rt: &impl Abort, ground: &mut Ground, request: &Request, reply: &Reply) -> Met {
    follow(rt, ground, request, reply);
    match reply {
        Reply::Err(_) => Met::Errs,
        _ => Met::Replies,
    }
}

/// The request is finished.
fn finish(
    rt: &impl Abort,
    ground: &mut Ground,
    life: &mut Life,
    pass: u32,
    request: &Request,
    told: &Reply,
) -> Met {
    let met = match told {
        Reply::Fault(cause) => fault(rt, ground, life, pass, *cause),
        told => reply(rt, ground, request, told),
    };
    life.waits.quit(pass);
    met
}

/// What a turn of a pass with a request met.
fn went_on(
    rt: &impl Abort,
    ground: &mut Ground,
    life: &mut Life,
    pass: u32,
    request: Request,
    turned: Turned,
) -> Met {
    match turned {
        Turned::Idle => None.expect(rt, "a turn of what is pending"),
        Turned::Done(number, told) => {
            life.count(rt, number);
            finish(rt, ground, life, pass, &request, &told)
        }
        Turned::Wait(key) => {
            life.ask(rt, pass, request);
            wait(rt, life, pass, key)
        }
    }
}

/// A turn of some pass, or of none that there is, over files that may stop.
fn turn(rt: &impl Abort, ground: &mut Ground, life: &mut Life, seed: &mut u64) -> Met {
    let pass = some_pass(life, seed, true);
    allow(&ground.calls, seed);
    let turned = life.mount.turn(pass);
    match life.take(rt, pass) {
        Some(request) => went_on(rt, ground, life, pass, request, turned),
        None => {
            assert!(rt; matches!(turned, Turned::Idle));
            Met::Idle
        }
    }
}

fn take(rt: &impl Abort, life: &mut Life) -> Met {
    let want = life.take_want(rt);
    assert!(rt; life.mount.take_want() == want);
    if want.is_some() {
        Met::Taken
    } else {
        Met::NoneTaken
    }
}

/// A key in flight most often, and now and then any key of the commit.
fn some_key(rt: &impl Abort, ground: &Ground, life: &Life, seed: &mut u64) -> Key {
    let word = random(seed);
    let flight = life.waits.flight.as_slice();
    if word % 8 == 0 || flight.is_empty() {
        return ground.commit.some_key(seed);
    }
    flight[(word / 8) as usize % flight.len()]
}

/// The key is unavailable.
fn fail_key(rt: &impl Abort, life: &mut Life, key: Key, cause: Cause) -> Met {
    let flies = life.waits.is_in_flight(key);
    assert!(rt; life.mount.fail(key, cause) == flies);
    if !flies {
        return Met::Stray;
    }
    life.waits.failed(key, cause);
    Met::Unusable
}

/// Bytes come for the key, in which that is wrong, if something is.
fn arrive(
    rt: &impl Abort,
    ground: &Ground,
    life: &mut Life,
    key: Key,
    framed: &[u8],
    flaw: Option<Cause>,
) -> Met {
    let framed = framed.to_vec(ground.alloc).expect(rt, "memory");
    let arrived = life.mount.arrive(key, framed);
    if !life.waits.is_in_flight(key) {
        assert!(rt; arrived == Arrived::Stray);
        return Met::Stray;
    }
    if let Some(cause) = flaw {
        assert!(rt; arrived == Arrived::Refused(cause));
        life.waits.failed(key, cause);
        return Met::Unusable;
    }
    assert!(rt; arrived == Arrived::Stored);
    life.waits.done(key);
    Met::Stored
}

/// What the repository has comes, or other bytes do. If nothing is in flight, a key is taken first now and then.
fn come(rt: &impl Abort, ground: &Ground, life: &mut Life, seed: &mut u64) -> Met {
    if life.waits.flight.is_empty() && random(seed) % 2 == 0 {
        take(rt, life);
    }
    let key = some_key(rt, ground, life, seed);
    if random(seed) % 8 == 0 {
        return arrive(rt, ground, life, key, OTHER_BYTES, Some(Cause::BadDigest));
    }
    match ground.commit.framed(key.id) {
        Some(framed) => arrive(rt, ground, life, key, framed, ground.commit.flaw(key)),
        None => fail_key(rt, life, key, Cause::Missing),
    }
}

fn fail(rt: &impl Abort, ground: &Ground, life: &mut Life, seed: &mut u64) -> Met {
    let key = some_key(rt, ground, life, seed);
    fail_key(rt, life, key, Cause::Device)
}

/// Directories go, below what is one.
fn unload(rt: &impl Abort, ground: &mut Ground, life: &mut Life, seed: &mut u64) -> Met {
    let word = random(seed);
    let places = [(word % 4) as u8, (word / 4 % 4) as u8];
    let places = &places[..(word / 16 % 3) as usize];
    let path = path_of(ground.alloc, places).expect(rt, "a path");
    allow(&ground.calls, seed);
    if life.mount.unload(&path, u64::from(word / 64 % 4)) == 0 {
        return Met::NoneGoes;
    }
    let kind = kind_at(ground.alloc, &mut ground.tree, places).expect(rt, "memory");
    assert!(rt; kind == Some(Kind::Dir));
    Met::Goes
}

/// Any event.
pub(crate) fn event(rt: &impl Abort, ground: &mut Ground, life: &mut Life, seed: &mut u64) -> Met {
    match random(seed) % 32 {
        0..=8 => start(rt, ground, life, seed),
        9..=20 => turn(rt, ground, life, seed),
        21 => take(rt, life),
        22..=26 => come(rt, ground, life, seed),
        27 => fail(rt, ground, life, seed),
        _ => unload(rt, ground, life, seed),
    }
}
