//! Mounts that are told of call by call, so that who refuses a growth sees what its call answers.
//!
//! Standard input is a script of the steps below, a line each. Standard output has a line for each call: its name,
//! which is written before the call begins, and what it answered. Neither takes memory. What the program needs for
//! itself is asked for twice, since one growth alone is refused.
//!
//! | Step | What it does |
//! |---|---|
//! | `object HEX` | a framed object is there to be fetched |
//! | `parts` | a directory, a cache and a queue are used by themselves |
//! | `open ID` | the files, none at first, are opened over that tree for two passes |
//! | `rescan ID` | the files of a life that was given up are opened |
//! | `share ID` | the files are opened for one pass that is shared with a fetcher |
//! | `1 REQUEST`, `2 REQUEST` | the pass starts a request; a shared one is answered |
//! | `go` | the passes take turns, and what they wait for is fetched, until nothing is pending |
//! | `run REQUEST` | a list of two events, a start and a turn |
//! | `unload` | every directory may go |
//! | `close`, `abandon` | the life ends |
#![tactic(auto)]

mod calls;
mod directories;
mod lives;
mod parts;
mod script;
mod sharing;
mod stage;
mod teller;

use eden_checkout::Opening;
use eden_object::id_of;
use eden_overlay::MemoryFiles;
use lives::{Stored, live};
use parts::use_parts;
use script::{Script, id_in, read_script};
use sharing::live_shared;
use stage::Stage;
use std::process::ExitCode;
use std::sync::Wait;
use std::thread::Threads;

/// Keeps the framed bytes too. False if memory is refused twice.
fn push(objects: &mut Vec<Vec<u8>>, framed: Vec<u8>) -> bool {
    if objects.reserve(1).is_err() && objects.reserve(1).is_err() {
        return false;
    }
    objects.push(framed).is_ok()
}

/// The object of that text is there to be fetched. False if it is no text of bytes.
fn keep_object(stage: &mut Stage, objects: &mut Vec<Vec<u8>>, text: &[u8]) -> bool {
    let Some(copy) = stage.bytes(text) else {
        return false;
    };
    if !push(objects, copy) {
        return false;
    }
    match stage.bytes(text) {
        None => false,
        Some(framed) => stage.keep(id_of(framed.as_slice()), framed),
    }
}

/// A step that needs no files. False if it is none, or if something fails twice.
fn prepare(stage: &mut Stage, objects: &mut Vec<Vec<u8>>, line: &[u8]) -> bool {
    match line.strip_prefix(b"object ") {
        Some(text) => keep_object(stage, objects, text),
        None => line == b"parts".as_slice() && use_parts(stage),
    }
}

/// One step between two lives: the files after it. None if it is no step.
fn step<R: Threads + Wait + Sync>(
    rt: &R,
    stage: &mut Stage,
    objects: &mut Vec<Vec<u8>>,
    script: &mut Script,
    line: &[u8],
    files: Stored,
) -> Option<Stored> {
    if let Some(root) = line.strip_prefix(b"open ") {
        return live(stage, script, files, id_in(root)?, Opening::Closed);
    }
    if let Some(root) = line.strip_prefix(b"rescan ") {
        return live(stage, script, files, id_in(root)?, Opening::Rescan);
    }
    if let Some(root) = line.strip_prefix(b"share ") {
        return live_shared(rt, stage, objects.as_slice(), script, files, id_in(root)?);
    }
    if prepare(stage, objects, line) {
        Some(files)
    } else {
        None
    }
}

/// Goes through the script. False if a line is no step, or if something fails twice.
fn play<R: Threads + Wait + Sync>(rt: &R, stage: &mut Stage, script: &mut Script) -> bool {
    let mut files = MemoryFiles::new(stage.alloc);
    let mut objects = Vec::new(stage.alloc);
    for _ in 0..u64::MAX {
        let Some(line) = script.next_line() else {
            return true;
        };
        match step(rt, stage, &mut objects, script, line, files) {
            None => return false,
            Some(left) => files = left,
        }
    }
    false
}

fn main(rt: HostRuntime) -> ExitCode {
    let Some(text) = read_script(rt.alloc(), &mut rt.stdin()) else {
        return ExitCode::FAILURE;
    };
    let Some(mut stage) = Stage::new(rt.alloc(), rt.stdout()) else {
        return ExitCode::FAILURE;
    };
    let mut script = Script::new(text.as_slice());
    if play(&rt, &mut stage, &mut script) {
        ExitCode::SUCCESS
    } else {
        ExitCode::FAILURE
    }
}
