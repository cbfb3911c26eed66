//! The mark that a run leaves beside the state: which files the disk may lack, and what the next run makes of it.
use crate::folders::{Made, damage, folder_of, make, remove};
use crate::kinds::{Answer, Call, failures_of};
use crate::told::require;
use eden_overlay::FolderFiles;
use eden_overlay_format::decode_file;
use std::fs;
use std::io::{self, ErrorKind};
use std::os::unix::fs::MetadataExt;
use std::path::PathBuf;
use std::process::Abort;
use test_samples::{Call as SystemCall, FaultySystem};

// A run over an empty directory, which stores a file and is closed.
const FIRST: &[(Call, Answer)] = &[
    (Call::List, Answer::Numbers(&[])),
    (Call::Replace(5, b"five"), Answer::Done),
    (Call::Replace(0, b"state"), Answer::Done),
];

// One that nobody asks for the disk: it opens what is there, stores another file, and is closed.
const SECOND: &[(Call, Answer)] = &[
    (Call::Remove(0), Answer::Done),
    (Call::Replace(6, b"six"), Answer::Done),
    (Call::Replace(0, b"state"), Answer::Done),
];

// One that somebody asks for the disk: what it stores then is there.
const WAITING: &[(Call, Answer)] = &[
    (Call::Remove(0), Answer::Done),
    (Call::Sync, Answer::Done),
    (Call::Replace(7, b"seven"), Answer::Done),
    (Call::Replace(0, b"state"), Answer::Done),
];

// One that is killed.
const KILLED: &[(Call, Answer)] = &[(Call::Remove(0), Answer::Done)];

// One that stores a file beside the state, and is killed.
const BESIDE: &[(Call, Answer)] = &[(Call::Replace(8, b"eight"), Answer::Done)];

// One that asks for the disk, but doesn't open what is there.
const NOT_OPENED: &[(Call, Answer)] = &[(Call::Sync, Answer::Device)];

// A run over the directory gives those answers to the calls.
fn run(rt: &impl Abort, system: &HostRuntime, folder: &PathBuf, calls: &[(Call, Answer)]) {
    let path = folder.clone().expect(rt, "memory");
    failures_of(rt, system.alloc(), FolderFiles::new(system, path), calls);
}

// A system that tells no directory's names.
fn blind(rt: &HostRuntime) -> FaultySystem<'static, HostRuntime> {
    FaultySystem {
        files: *rt,
        call: SystemCall::List,
        kind: ErrorKind::ConnectionReset,
        instead: None,
    }
}

// One over such a system does.
fn run_blind(rt: &impl Abort, system: &HostRuntime, folder: &PathBuf, calls: &[(Call, Answer)]) {
    let path = folder.clone().expect(rt, "memory");
    failures_of(
        rt,
        system.alloc(),
        FolderFiles::new(blind(system), path),
        calls,
    );
}

// What happens to the directory between two runs.
#[derive(Clone, Copy)]
enum Between {
    Nothing,
    // The state is stored once more, with the same bytes, by a program that leaves no mark.
    StoredAnew,
    // The last byte of the mark is another.
    Damaged,
    // Another file stands in the mark's place.
    Replaced,
    Unmarked,
    Run(&'static [(Call<'static>, Answer<'static>)]),
}

// What is done then, and what the next run does.
const ROWS: &[(Between, &[(Call, Answer)])] = &[
    (Between::Nothing, MARKED),
    (Between::StoredAnew, UNMARKED),
    (Between::Damaged, UNMARKED),
    (Between::Replaced, UNMARKED),
    (Between::Unmarked, UNMARKED),
    (Between::Run(SECOND), MARKED),
    (Between::Run(WAITING), MARKED),
    (Between::Run(KILLED), UNMARKED),
    (Between::Run(BESIDE), UNMARKED),
];

fn store_anew(rt: &HostRuntime, folder: &PathBuf) -> io::Result<()> {
    make(rt, folder, "0.new", Made::File(b"state"))?;
    let new = folder.join(rt.alloc(), "0.new")?;
    let state = folder.join(rt.alloc(), "0")?;
    fs::rename(rt, new.as_path(), state.as_path())
}

fn remove_mark(rt: &HostRuntime, folder: &PathBuf) -> io::Result<()> {
    let mark = folder.join(rt.alloc(), "unsynced")?;
    fs::remove_file(rt, mark.as_path())
}

// Does that to the directory.
fn change(
    rt: &impl Abort,
    system: &HostRuntime,
    folder: &PathBuf,
    between: Between,
) -> io::Result<()> {
    match between {
        Between::Nothing => Ok(()),
        Between::StoredAnew => store_anew(system, folder),
        Between::Damaged => damage(system, folder, "unsynced"),
        Between::Replaced => make(system, folder, "unsynced", Made::File(b"unsynced")),
        Between::Unmarked => remove_mark(system, folder),
        Between::Run(calls) => {
            run(rt, system, folder, calls);
            Ok(())
        }
    }
}

// What the next run does that asks for the disk: its wait succeeds, or wants the directory's names.
const MARKED: &[(Call, Answer)] = &[(Call::Remove(0), Answer::Done), (Call::Sync, Answer::Done)];

const UNMARKED: &[(Call, Answer)] = &[
    (Call::Remove(0), Answer::Done),
    (Call::Sync, Answer::Device),
];

#[test]
fn a_mark_counts_beside_its_state(rt: HostRuntime) {
    for (between, next) in ROWS {
        let folder = folder_of(&rt, "overlay-mark", &[]).expect(&rt, "a folder");
        run(&rt, &rt, &folder, FIRST);
        change(&rt, &rt, &folder, *between).expect(&rt, "a change");
        run_blind(&rt, &rt, &folder, next);
        remove(&rt, folder).expect(&rt, "a folder");
    }
}

// What a mark says of the state's file that is there.
fn state_told(rt: &HostRuntime, folder: &PathBuf) -> io::Result<[[u8; 8]; 3]> {
    let state = folder.join(rt.alloc(), "0")?;
    let found = fs::symlink_metadata(rt, state.as_path())?;
    Ok([
        found.ino().to_be_bytes(),
        found.ctime().to_be_bytes(),
        found.ctime_nsec().to_be_bytes(),
    ])
}

// Whether the mark is a content that says that, and then these numbers, and nothing else.
fn says(mark: &[u8], state: &[[u8; 8]], numbers: &[[u8; 8]]) -> bool {
    let body = decode_file(mark).unwrap_or_default();
    let (rows, rest) = body.as_chunks::<8>();
    rest.is_empty()
        && rows.len() == state.len() + numbers.len()
        && rows.starts_with(state)
        && rows.ends_with(numbers)
}

// Whether the directory's mark counts beside its state, and names these files.
fn names(rt: &HostRuntime, folder: &PathBuf, numbers: &[[u8; 8]]) -> io::Result<bool> {
    let state = state_told(rt, folder)?;
    let mark = folder.join(rt.alloc(), "unsynced")?;
    let mark = fs::read(rt, mark.as_path())?;
    Ok(says(&mark, state.as_slice(), numbers))
}

const FIVE: &[[u8; 8]] = &[[0, 0, 0, 0, 0, 0, 0, 5]];

#[test]
fn a_mark_names_what_was_stored(rt: HostRuntime) {
    let folder = folder_of(&rt, "overlay-marked", &[]).expect(&rt, "a folder");
    run(&rt, &rt, &folder, FIRST);
    require(
        &rt,
        names(&rt, &folder, FIVE).expect(&rt, "a mark"),
        "a mark of file 5",
    );
    run_blind(&rt, &rt, &folder, NOT_OPENED);
    run(&rt, &rt, &folder, WAITING);
    require(
        &rt,
        names(&rt, &folder, &[]).expect(&rt, "a mark"),
        "a mark of no file",
    );
    remove(&rt, folder).expect(&rt, "a folder");
}
