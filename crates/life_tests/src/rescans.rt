//! Files that a killed run left: what the next life shows of them, or why they aren't opened.
use crate::faults::{DEVICE_STOPS, changed};
use crate::lives::{Fate, Life, Stored, closed, lived};
use crate::refusals::check_refused;
use eden_checkout::{OpenFault, Opening};
use eden_overlay::{Files, FilesFault, MemoryFiles, StopFiles};
use eden_overlay_format::{Refusal, decode_state};
use eden_stdio_life::LifeFault;
use std::alloc::Global;
use std::cell::Cell;
use std::io::{self, Read};
use std::process::Abort;
use std::rc::Rc;
use test_samples::{ONE_FILE, VERSION_1};

/// What became of a file.
#[derive(Clone, Copy)]
enum Damage {
    Removed(u64),
    /// This many bytes are left of it.
    Cut(u64, usize),
    /// A directory of that body stands in its place.
    Replaced(u64, &'static [u8]),
}

use Damage::{Cut, Removed, Replaced};

fn cut(rt: &impl Abort, alloc: Global, files: &mut Stored, number: u64, size: usize) {
    let file = files.read(alloc, number).expect(rt, "a device");
    let mut bytes = file.expect(rt, "a file");
    bytes.truncate(size);
    assert!(rt; files.replace(alloc, number, bytes.as_slice()).is_ok());
}

fn put_directory(rt: &impl Abort, alloc: Global, files: &mut Stored, number: u64, body: &[u8]) {
    let mut file = Vec::from_slice(alloc, b"OVDR\0\0\0\x01").expect(rt, "memory");
    file.extend_from_slice(&[0; 56]).expect(rt, "memory");
    file.extend_from_slice(body).expect(rt, "memory");
    assert!(rt; files.replace(alloc, number, file.as_slice()).is_ok());
}

/// The files of a run with one change that was killed, of which some are damaged.
fn killed(rt: &impl Abort, alloc: Global, damages: &[Damage]) -> Stored {
    let mut files = changed(rt, alloc, DEVICE_STOPS);
    for damage in damages {
        match *damage {
            Removed(number) => assert!(rt; files.remove(number).is_ok()),
            Cut(number, size) => cut(rt, alloc, &mut files, number, size),
            Replaced(number, body) => put_directory(rt, alloc, &mut files, number, body),
        }
    }
    files
}

/// A life in which nothing is asked.
const IDLE: Life = Life {
    root: ONE_FILE,
    opening: Opening::Rescan,
    history: Some(9),
    input: "",
    said: "",
    asked: &[],
};

/// The next number that a rescan finds, and the files.
fn next(rt: &impl Abort, alloc: Global, files: Stored) -> (u64, Stored) {
    let mut files = closed(rt, alloc, files, &IDLE);
    let state = files.read(alloc, 0).expect(rt, "a device");
    let state = decode_state(&state.expect(rt, "a state")).expect(rt, "a state");
    (state.next, files)
}

/// The whole of the change is there.
const CHANGED: Life = Life {
    input: "read /test.txt 0 100\n",
    said: "data 13 76657273696f6e20310a000021\n",
    ..IDLE
};

/// The commit's own content: what no directory names isn't shown, and its number isn't given again.
const UNCHANGED: Life = Life {
    input: "read /test.txt 0 100\n",
    said: "data 10 76657273696f6e20310a\n",
    asked: &[ONE_FILE, VERSION_1],
    ..IDLE
};

/// Without a rescan the files aren't opened, and stay as they are.
fn check_shown(rt: &impl Abort, alloc: Global, damages: &[Damage], number: u64, life: &Life) {
    let files = killed(rt, alloc, damages);
    let base = (ONE_FILE, Opening::Closed);
    let files = check_refused(rt, alloc, files, base, OpenFault::NotClean);
    let (found, files) = next(rt, alloc, files);
    assert_eq!(rt; found, number);
    closed(rt, alloc, files, life);
}

#[test]
fn a_rescan_shows_what_the_directories_say(rt: HostRuntime) {
    check_shown(&rt, rt.alloc(), &[], 3, &CHANGED);
    check_shown(&rt, rt.alloc(), &[Removed(1)], 3, &UNCHANGED);
}

/// The body of a directory without entries.
const EMPTY: &[u8] = b"\0\0\0\0";

/// .. with the one directory `d`, which is the mount's own, its number 2.
const D: &[u8] = b"\0\0\0\x01\x03\x01\0\0\0\0\0\0\0\x02\x01d";

/// .. `e`.
const E: &[u8] = b"\0\0\0\x01\x03\x01\0\0\0\0\0\0\0\x02\x01e";

const REFUSED: &[(&[Damage], OpenFault)] = &[
    (&[Removed(2)], OpenFault::Dangling(2)),
    (&[Cut(1, 63)], OpenFault::Damaged(1, Refusal::Short)),
    (&[Cut(2, 64)], OpenFault::Damaged(2, Refusal::BadLength)),
    (
        &[Replaced(2, EMPTY)],
        OpenFault::Damaged(2, Refusal::BadIdentifier),
    ),
    (&[Replaced(1, D), Replaced(2, E)], OpenFault::Twice(2)),
];

#[test]
fn a_rescan_refuses_what_dangles(rt: HostRuntime) {
    let alloc = rt.alloc();
    for (damages, fault) in REFUSED {
        let files = killed(&rt, alloc, damages);
        check_refused(&rt, alloc, files, (ONE_FILE, Opening::Rescan), *fault);
    }
}

/// Lines, of which the last come once this many calls on the files still pass.
#[derive(Drop)]
struct Halves {
    left: &'static [u8],
    last: Option<&'static [u8]>,
    passing: u64,
    calls: Rc<Cell<u64>>,
}

impl Read for Halves {
    fn read(&mut self, buf: &mut [u8]) -> io::Result<usize> {
        if self.left.is_empty() {
            if let Some(last) = self.last.take() {
                self.calls.set(self.passing);
                self.left = last;
            }
        }
        self.left.read(buf)
    }
}

const HALF_MOVED: Life = Life {
    opening: Opening::Closed,
    said: "ok\nok\nok\nentries 0 end\nfault overlay\n",
    asked: &[ONE_FILE],
    ..IDLE
};

const STOPPED: Fate = Fate {
    outcome: Err(LifeFault::Close(FilesFault::Device)),
    unclosed: Some(FilesFault::Device),
};

/// The device stops once a rename has stored the directory that it takes its entry from.
fn half_moved(rt: &impl Abort, alloc: Global) -> Stored {
    let calls = Rc::new(alloc, Cell::new(u64::MAX)).expect(rt, "memory");
    let shared = calls.clone().expect(rt, "memory");
    let mut reader = Halves {
        left: b"mkdir /d\nmkdir /e\ncreate /d/a\nlist /e - 9\n",
        last: Some(b"rename /d/a /e/a\n"),
        passing: 1,
        calls,
    };
    let files = StopFiles::new(MemoryFiles::new(alloc), shared);
    lived(rt, alloc, files, &HALF_MOVED, &mut reader, STOPPED).into_files()
}

const BOTH_EMPTY: Life = Life {
    input: "list /d - 9\nlist /e - 9\n",
    said: "entries 0 end\nentries 0 end\n",
    ..IDLE
};

#[test]
fn a_rename_that_was_stopped_half_way_leaves_its_entry_in_neither_directory(rt: HostRuntime) {
    let (next, files) = next(&rt, rt.alloc(), half_moved(&rt, rt.alloc()));
    assert_eq!(rt; next, 6);
    closed(&rt, rt.alloc(), files, &BOTH_EMPTY);
}
