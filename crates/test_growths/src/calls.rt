//! The calls of a mount, each told.
use crate::lives::Mounted;
use crate::script::request_in;
use crate::stage::Stage;
use eden_model::{Cause, Key, Path, Request, StartFault};
use eden_mount::{Arrived, Event, Outcome, Turned};
use eden_source::Source;
use std::alloc::Global;

/// The most turns that a script's requests take.
const TURNS: u32 = 1_000;

/// The name of want of memory, or of any other fault.
pub fn want(is_memory: bool) -> &'static str {
    if is_memory { "Memory" } else { "another" }
}

fn started(outcome: &Result<(), StartFault>) -> &'static str {
    match outcome {
        Ok(()) => "ok",
        Err(fault) => want(*fault == StartFault::Memory),
    }
}

/// The pass starts the line's request. False if it is none.
pub fn start(stage: &mut Stage, mount: &mut Mounted, pass: u32, line: &[u8]) -> bool {
    let Some(request) = request_in(stage.alloc, line) else {
        return false;
    };
    stage.teller.begin_of("start", pass);
    let outcome = mount.start(pass, request);
    stage.teller.end(started(&outcome));
    stage.teller.begin("history");
    stage.teller.end_number(mount.history().len() as u64);
    true
}

fn end_turn(stage: &mut Stage, turned: &Turned) {
    match turned {
        Turned::Done(number, reply) => stage.teller.end_reply(*number, reply),
        Turned::Wait(key) => stage.teller.end_id(key.id),
        Turned::Idle => stage.teller.end("idle"),
    }
}

/// A turn of the pass: whether it has a request pending.
fn turn(stage: &mut Stage, mount: &mut Mounted, pass: u32) -> bool {
    stage.teller.begin_of("turn", pass);
    let turned = mount.turn(pass);
    end_turn(stage, &turned);
    matches!(turned, Turned::Wait(_))
}

fn fail(stage: &mut Stage, mount: &mut Mounted, key: Key, cause: Cause) {
    stage.teller.begin("fail");
    let is_told = mount.fail(key, cause);
    stage.teller.end(if is_told { "told" } else { "stray" });
}

fn arrive(stage: &mut Stage, mount: &mut Mounted, key: Key, framed: Vec<u8>) {
    stage.teller.begin("arrive");
    let arrived = mount.arrive(key, framed);
    stage.teller.end(match arrived {
        Arrived::Stored => "ok",
        Arrived::Refused(cause) => want(cause == Cause::Memory),
        Arrived::Stray => "stray",
    });
}

/// An object that was taken is fetched, and handed in.
fn bring(stage: &mut Stage, mount: &mut Mounted, key: Key) {
    stage.teller.begin("fetch");
    match stage.source.fetch(stage.alloc, key.id) {
        Ok(framed) => {
            stage.teller.end("ok");
            arrive(stage, mount, key, framed);
        }
        Err(cause) => {
            stage.teller.end(want(cause == Cause::Memory));
            fail(stage, mount, key, cause);
        }
    }
}

/// One object that is wanted is brought: whether there was one.
fn serve(stage: &mut Stage, mount: &mut Mounted) -> bool {
    stage.teller.begin("take");
    match mount.take_want() {
        None => {
            stage.teller.end("none");
            false
        }
        Some(key) => {
            stage.teller.end_id(key.id);
            bring(stage, mount, key);
            true
        }
    }
}

fn serve_all(stage: &mut Stage, mount: &mut Mounted) {
    for _ in 0..TURNS {
        if !serve(stage, mount) {
            return;
        }
    }
}

/// The passes take turns until nothing is pending. False if that doesn't come.
pub fn go(stage: &mut Stage, mount: &mut Mounted) -> bool {
    for _ in 0..TURNS {
        let first = turn(stage, mount, 1);
        let second = turn(stage, mount, 2);
        if !first && !second {
            return true;
        }
        serve_all(stage, mount);
    }
    false
}

/// The root's path.
pub fn root(alloc: Global) -> Option<Path> {
    Path::new(Vec::new(alloc)).ok()
}

/// Every directory may go. False if there is no root.
pub fn unload(stage: &mut Stage, mount: &mut Mounted) -> bool {
    let Some(root) = root(stage.alloc) else {
        return false;
    };
    stage.teller.begin("unload");
    let gone = mount.unload(&root, 0);
    stage.teller.end_number(gone);
    true
}

/// A start of the first pass, and a turn.
fn two_events(alloc: Global, request: Request) -> Option<Vec<Event>> {
    let mut events = Vec::with_capacity(alloc, 2).ok()?;
    events.push(Event::Start(1, request)).ok()?;
    events.push(Event::Turn(1)).ok()?;
    Some(events)
}

fn events(alloc: Global, line: &[u8]) -> Option<Vec<Event>> {
    match two_events(alloc, request_in(alloc, line)?) {
        Some(events) => Some(events),
        None => two_events(alloc, request_in(alloc, line)?),
    }
}

fn end_outcome(stage: &mut Stage, outcome: &Outcome) {
    stage.teller.begin("outcome");
    match outcome {
        Outcome::Start(outcome) => stage.teller.end(started(outcome)),
        Outcome::Turn(turned) => end_turn(stage, turned),
        _ => stage.teller.end("another"),
    }
}

/// The line's request is started and has a turn, as events. False if it is none.
pub fn run(stage: &mut Stage, mount: &mut Mounted, line: &[u8]) -> bool {
    let Some(events) = events(stage.alloc, line) else {
        return false;
    };
    stage.teller.begin("run");
    match mount.run(events) {
        Err(_) => stage.teller.end("Memory"),
        Ok(outcomes) => {
            stage.teller.end("ok");
            for outcome in &outcomes {
                end_outcome(stage, outcome);
            }
        }
    }
    true
}
