//! The kinds of files that an overlay stands on: in memory, in a directory, and failing ones.
use crate::folders::{Made, folder_of, has, remove};
use crate::told::require;
use eden_model::Outside;
use eden_overlay::{FailingFiles, Files, FilesFault, FolderFiles, MemoryFiles, StopFiles};
use eden_overlay_format::{Head, Identifier};
use std::alloc::Global;
use std::cell::Cell;
use std::fs;
use std::io::ErrorKind;
use std::path::PathBuf;
use std::process::Abort;
use std::rc::Rc;
use test_samples::{Call as SystemCall, FaultySystem};

#[derive(Clone, Copy)]
pub enum Call<'a> {
    Read(u64),
    Head(u64),
    // From there on, and at most this many.
    Part(u64, u64, u64),
    Replace(u64, &'a [u8]),
    ReplaceJoined(u64, &'a [u8], &'a [u8]),
    ReplaceBody(u64, Identifier, &'a [u8]),
    Remove(u64),
    Sync,
    List,
}

#[derive(Clone, Copy)]
pub enum Answer<'a> {
    Bytes(Option<&'a [u8]>),
    // The first 64 bytes or more, of a file that has as many, and its length.
    Head(Option<(&'a [u8], u64)>),
    Done,
    Numbers(&'a [u64]),
    Device,
}

// Whether the files give that answer to the call.
pub fn gives<F: Files<Outside>>(files: &mut F, alloc: Global, call: Call, want: Answer) -> bool {
    match call {
        Call::Read(number) => is_read(files.read(alloc, number), want),
        Call::Head(number) => is_head(files.head(number), want),
        Call::Part(number, from, most) => is_read(files.read_part(alloc, number, from, most), want),
        Call::Replace(number, bytes) => is_done(files.replace(alloc, number, bytes), want),
        Call::ReplaceJoined(number, front, behind) => {
            is_done(files.replace_joined(alloc, number, front, behind), want)
        }
        Call::ReplaceBody(number, identifier, body) => {
            is_done(files.replace_body(alloc, number, identifier, body), want)
        }
        Call::Remove(number) => is_done(files.remove(number), want),
        Call::Sync => is_done(files.sync(alloc), want),
        Call::List => is_listed(files.list(alloc), want),
    }
}

// Whether that fault is the wanted answer.
fn is_failed(fault: FilesFault, want: Answer) -> bool {
    fault == FilesFault::Device && matches!(want, Answer::Device)
}

fn is_read(answer: Result<Option<Vec<u8>>, FilesFault>, want: Answer) -> bool {
    let is_told = match &answer {
        Ok(None) => matches!(want, Answer::Bytes(None)),
        Ok(Some(bytes)) => are_bytes(bytes.as_slice(), want),
        Err(fault) => is_failed(*fault, want),
    };
    drop(answer);
    is_told
}

fn are_bytes(bytes: &[u8], want: Answer) -> bool {
    match want {
        Answer::Bytes(Some(want)) => bytes == want,
        _ => false,
    }
}

fn is_head(answer: Result<Option<Head>, FilesFault>, want: Answer) -> bool {
    match answer {
        Ok(None) => matches!(want, Answer::Head(None)),
        Ok(Some(head)) => is_head_of(head, want),
        Err(fault) => is_failed(fault, want),
    }
}

fn is_head_of(head: Head, want: Answer) -> bool {
    match want {
        Answer::Head(Some((first, len))) => {
            head.len == len && (len < 64 || first.starts_with(head.first.as_slice()))
        }
        _ => false,
    }
}

fn is_listed(answer: Result<Vec<u64>, FilesFault>, want: Answer) -> bool {
    let is_told = match &answer {
        Ok(numbers) => are_numbers(numbers.as_slice(), want),
        Err(fault) => is_failed(*fault, want),
    };
    drop(answer);
    is_told
}

fn are_numbers(numbers: &[u64], want: Answer) -> bool {
    match want {
        Answer::Numbers(want) => numbers == want,
        _ => false,
    }
}

fn is_done(answer: Result<(), FilesFault>, want: Answer) -> bool {
    match answer {
        Ok(()) => matches!(want, Answer::Done),
        Err(fault) => is_failed(fault, want),
    }
}

// The files give those answers to the calls, made one after another.
pub fn ask_all<F: Files<Outside>>(
    rt: &impl Abort,
    alloc: Global,
    files: &mut F,
    calls: &[(Call, Answer)],
) {
    for (number, (call, want)) in calls.iter().enumerate() {
        assert!(rt; gives(files, alloc, *call, *want), "call {number}");
    }
}

// The same of files that are let go then, and how many failures they count. Nothing closes them, as after a kill.
pub fn failures_of<F: Files<Outside>>(
    rt: &impl Abort,
    alloc: Global,
    files: F,
    calls: &[(Call, Answer)],
) -> u64 {
    let mut files = files;
    ask_all(rt, alloc, &mut files, calls);
    files.failures()
}

// Asks files that are empty at first all of `BEHAVIOUR`, or all but for the calls that list.
pub fn behave<F: Files<Outside>>(rt: &impl Abort, alloc: Global, files: F, lists: bool) {
    let mut files = files;
    for (number, (call, want)) in BEHAVIOUR.iter().enumerate() {
        let is_left_out = !lists && matches!(call, Call::List);
        let is_so = is_left_out || gives(&mut files, alloc, *call, *want);
        assert!(rt; is_so, "call {number}");
    }
}

pub const SIXTY_FOUR: &[u8] = b"0123456789abcdef0123456789abcdef0123456789abcdef0123456789abcdef";

// The directory with no entry as it is stored: its header has the length and the SHA-1 of four zeros.
const NO_ENTRY: &[u8] = b"OVDR\x00\x00\x00\x02\x00\x00\x00\x00\x00\x00\x00\x04\
    \x90\x69\xca\x78\xe7\x45\x0a\x28\x51\x73\x43\x1b\x3e\x52\xc5\xc2\x52\x99\xe4\x73\
    \x00\x00\x00\x00\x00\x00\x00\x00\x00\x00\x00\x00\x00\x00\x00\x00\x00\x00\x00\x00\x00\x00\x00\x00\x00\x00\x00\x00\
    \x00\x00\x00\x00";

pub const SIXTY_SIX: &[u8] = b"0123456789abcdef0123456789abcdef0123456789abcdef0123456789abcdef..";

// What every kind of files answers that is empty at first.
pub const BEHAVIOUR: &[(Call, Answer)] = &[
    (Call::List, Answer::Numbers(&[])),
    (Call::Read(10), Answer::Bytes(None)),
    (Call::Sync, Answer::Done),
    (Call::Replace(10, b"ten"), Answer::Done),
    (Call::Read(10), Answer::Bytes(Some(b"ten"))),
    (Call::Head(10), Answer::Head(Some((b"", 3)))),
    (Call::Part(10, 0, 3), Answer::Bytes(Some(b"ten"))),
    (Call::Part(10, 1, 1), Answer::Bytes(Some(b"e"))),
    (Call::Part(10, 2, 9), Answer::Bytes(Some(b"n"))),
    (Call::Part(10, 1, u64::MAX), Answer::Bytes(Some(b"en"))),
    (Call::Part(10, 0, 0), Answer::Bytes(Some(b""))),
    (Call::Part(10, 3, 1), Answer::Bytes(Some(b""))),
    (Call::Part(10, u64::MAX, u64::MAX), Answer::Bytes(Some(b""))),
    (Call::Read(1), Answer::Bytes(None)),
    (Call::Head(1), Answer::Head(None)),
    (Call::Part(1, 0, 9), Answer::Bytes(None)),
    (Call::Replace(5, SIXTY_FOUR), Answer::Done),
    (Call::Head(5), Answer::Head(Some((SIXTY_FOUR, 64)))),
    (Call::Replace(5, SIXTY_SIX), Answer::Done),
    (Call::Head(5), Answer::Head(Some((SIXTY_FOUR, 66)))),
    (Call::Remove(5), Answer::Done),
    (Call::Head(5), Answer::Head(None)),
    (Call::Part(5, 0, 9), Answer::Bytes(None)),
    (Call::Replace(2, b""), Answer::Done),
    (Call::Head(2), Answer::Head(Some((b"", 0)))),
    (Call::Read(2), Answer::Bytes(Some(b""))),
    (Call::List, Answer::Numbers(&[2, 10])),
    (Call::Replace(10, b"x"), Answer::Done),
    (Call::Sync, Answer::Done),
    (Call::Read(10), Answer::Bytes(Some(b"x"))),
    (Call::ReplaceJoined(10, b"one, ", b"two"), Answer::Done),
    (Call::Read(10), Answer::Bytes(Some(b"one, two"))),
    (Call::ReplaceJoined(10, b"", b""), Answer::Done),
    (Call::Read(10), Answer::Bytes(Some(b""))),
    (Call::ReplaceJoined(10, SIXTY_FOUR, b".."), Answer::Done),
    (Call::Part(10, 63, 2), Answer::Bytes(Some(b"f."))),
    (Call::Read(10), Answer::Bytes(Some(SIXTY_SIX))),
    (
        Call::ReplaceBody(10, Identifier::Directory, &[0; 4]),
        Answer::Done,
    ),
    (Call::Head(10), Answer::Head(Some((NO_ENTRY, 68)))),
    (Call::Part(10, 2, 6), Answer::Bytes(Some(b"DR\0\0\0\x02"))),
    (Call::Part(10, 64, 9), Answer::Bytes(Some(&[0; 4]))),
    (Call::Read(10), Answer::Bytes(Some(NO_ENTRY))),
    (Call::Replace(u64::MAX, b"\0\xff"), Answer::Done),
    (Call::Replace(0, b"zero"), Answer::Done),
    (Call::List, Answer::Numbers(&[0, 2, 10, u64::MAX])),
    (Call::Read(u64::MAX), Answer::Bytes(Some(b"\0\xff"))),
    (Call::Remove(10), Answer::Done),
    (Call::Read(10), Answer::Bytes(None)),
    (Call::Remove(10), Answer::Done),
    (Call::Sync, Answer::Done),
    (Call::List, Answer::Numbers(&[0, 2, u64::MAX])),
    (Call::Read(0), Answer::Bytes(Some(b"zero"))),
];

// Whether the file of that number has exactly these bytes.
pub fn reads<F: Files<Outside>>(files: &mut F, alloc: Global, number: u64, want: &[u8]) -> bool {
    let answer = files.read(alloc, number);
    let is_read = match &answer {
        Ok(Some(bytes)) => bytes.as_slice() == want,
        _ => false,
    };
    drop(answer);
    is_read
}

// Stores ten thousand files, of which the last has these bytes.
fn store_many<F: Files<Outside>>(rt: &impl Abort, alloc: Global, files: &mut F, last: &[u8]) {
    for number in 0..10_000u64 {
        files
            .replace(alloc, number, &number.to_be_bytes())
            .expect(rt, "memory");
    }
    files.replace(alloc, 9_999, last).expect(rt, "memory")
}

// How many files are listed.
fn count<F: Files<Outside>>(rt: &impl Abort, alloc: Global, files: &mut F) -> usize {
    files.list(alloc).expect(rt, "numbers").len()
}

// Whether files of that kind keep ten thousand, of which the last has these bytes.
fn keeps_many<F: Files<Outside>>(rt: &impl Abort, alloc: Global, files: F, last: &[u8]) -> bool {
    let mut files = files;
    store_many(rt, alloc, &mut files, last);
    reads(&mut files, alloc, 9_999, last) && count(rt, alloc, &mut files) == 10_000
}

// Ten thousand files, one of them of 100,000 bytes.
#[test]
fn memory_keeps_many_files(rt: HostRuntime) {
    let long = [7; 1000].repeat(rt.alloc(), 100).expect(&rt, "memory");
    let files = MemoryFiles::<Outside>::new(rt.alloc());
    require(&rt, keeps_many(&rt, rt.alloc(), files, &long), "many files");
}

#[test]
fn memory_behaves(rt: HostRuntime) {
    behave(
        &rt,
        rt.alloc(),
        MemoryFiles::<Outside>::new(rt.alloc()),
        true,
    );
}

// How many failures files in the directory count that give those answers.
fn failures_in(
    rt: &impl Abort,
    system: &HostRuntime,
    folder: &PathBuf,
    calls: &[(Call, Answer)],
) -> u64 {
    let path = folder.clone().expect(rt, "memory");
    failures_of(rt, system.alloc(), FolderFiles::new(system, path), calls)
}

#[test]
fn folder_behaves(rt: HostRuntime) {
    let folder = folder_of(&rt, "overlay-behaves", &[]).expect(&rt, "a folder");
    require(
        &rt,
        failures_in(&rt, &rt, &folder, BEHAVIOUR) == 0,
        "no failure",
    );
    remove(&rt, folder).expect(&rt, "a folder");
}

// Plain files of some names that are numbers and some that aren't, a directory 4, the links 6 and 7, of which one leads
// nowhere, and a file 8 that is too long.
const ODD_FILES: &[(&str, Made)] = &[
    ("3.new", Made::File(b"3.new")),
    ("5", Made::File(b"5")),
    ("02", Made::File(b"02")),
    ("x", Made::File(b"x")),
    ("+9", Made::File(b"+9")),
    ("18446744073709551616", Made::File(b"18446744073709551616")),
    ("4", Made::Folder),
    ("6", Made::Link("5")),
    ("7", Made::Link("nothing")),
    ("8", Made::Long(1_073_741_889)),
];

const ODD: &[(Call, Answer)] = &[
    (Call::List, Answer::Numbers(&[4, 5, 6, 7, 8])),
    (Call::Read(2), Answer::Bytes(None)),
    (Call::Read(3), Answer::Bytes(None)),
    (Call::Read(4), Answer::Device),
    (Call::Read(5), Answer::Bytes(Some(b"5"))),
    (Call::Read(6), Answer::Device),
    (Call::Read(7), Answer::Device),
    (Call::Read(8), Answer::Device),
    (Call::Read(9), Answer::Bytes(None)),
    (Call::Head(4), Answer::Device),
    (Call::Head(5), Answer::Head(Some((b"", 1)))),
    (Call::Head(6), Answer::Device),
    (Call::Head(7), Answer::Device),
    (Call::Head(8), Answer::Device),
    (Call::Head(9), Answer::Head(None)),
    (Call::Remove(4), Answer::Device),
];

#[test]
fn folder_reads_plain_files_alone(rt: HostRuntime) {
    let folder = folder_of(&rt, "overlay-odd", ODD_FILES).expect(&rt, "files");
    require(
        &rt,
        failures_in(&rt, &rt, &folder, ODD) == 9,
        "nine failures",
    );
    remove(&rt, folder).expect(&rt, "a folder");
}

// A file of 8 MiB, the longest, and one of a byte more.
const LONG_FILES: &[(&str, Made)] = &[
    ("5", Made::Long(8_388_608)),
    ("6", Made::Long(1_073_741_888)),
    ("7", Made::Long(1_073_741_889)),
];

// A system of which that call fails so.
fn failing(
    rt: &HostRuntime,
    call: SystemCall,
    kind: ErrorKind,
) -> FaultySystem<'static, HostRuntime> {
    FaultySystem {
        files: *rt,
        call,
        kind,
        instead: None,
    }
}

// The directory's files, if that call of the system fails so.
fn failing_in(
    rt: &impl Abort,
    system: &HostRuntime,
    folder: &PathBuf,
    call: SystemCall,
    kind: ErrorKind,
) -> FolderFiles<FaultySystem<'static, HostRuntime>> {
    FolderFiles::new(
        failing(system, call, kind),
        folder.clone().expect(rt, "memory"),
    )
}

// How many bytes the file of that number has, or why it isn't read.
fn length_of<F: Files<Outside>>(
    files: F,
    alloc: Global,
    number: u64,
) -> Result<Option<usize>, FilesFault> {
    let mut files = files;
    let answer = files.read(alloc, number);
    let length = match &answer {
        Ok(Some(bytes)) => Ok(Some(bytes.len())),
        Ok(None) => Ok(None),
        Err(fault) => Err(*fault),
    };
    drop(answer);
    length
}

// The same of a file in the directory, if that call of the system finds no memory.
fn length_in(
    rt: &impl Abort,
    system: &HostRuntime,
    folder: &PathBuf,
    call: SystemCall,
    number: u64,
) -> Result<Option<usize>, FilesFault> {
    let files = failing_in(rt, system, folder, call, ErrorKind::OutOfMemory);
    length_of(files, system.alloc(), number)
}

// The call that finds no memory, the number of a file, and its length, or why it isn't read. Reads that find no memory
// tell which files are read at all, so that none of 2^30 bytes has to be.
const LENGTHS: &[(SystemCall, u64, Result<Option<usize>, FilesFault>)] = &[
    (SystemCall::None, 5, Ok(Some(8_388_608))),
    (SystemCall::Read, 6, Err(FilesFault::Memory)),
    (SystemCall::Read, 7, Err(FilesFault::Device)),
];

#[test]
fn folder_reads_long_files(rt: HostRuntime) {
    let folder = folder_of(&rt, "overlay-long", LONG_FILES).expect(&rt, "files");
    for (call, number, want) in LENGTHS {
        let is_so = length_in(&rt, &rt, &folder, *call, *number) == *want;
        require(&rt, is_so, "the length of each file");
    }
    remove(&rt, folder).expect(&rt, "a folder");
}

const BEING_STORED: &[(&str, Made)] = &[("5.new", Made::File(b"left over"))];

const LEFT_OVER: &[(Call, Answer)] = &[
    (Call::Read(5), Answer::Bytes(None)),
    (Call::List, Answer::Numbers(&[])),
    (Call::Replace(5, b"new"), Answer::Done),
    (Call::Read(5), Answer::Bytes(Some(b"new"))),
    (Call::List, Answer::Numbers(&[5])),
];

#[test]
fn what_a_kill_left_is_no_file(rt: HostRuntime) {
    let folder = folder_of(&rt, "overlay-left", BEING_STORED).expect(&rt, "a file");
    failures_in(&rt, &rt, &folder, LEFT_OVER);
    require(&rt, has(&rt, &folder, "5.new") == Some(false), "no 5.new");
    remove(&rt, folder).expect(&rt, "a folder");
}

const GONE: &[(Call, Answer)] = &[
    (Call::Read(1), Answer::Bytes(None)),
    (Call::Remove(1), Answer::Done),
    (Call::Replace(1, b""), Answer::Device),
    (Call::ReplaceJoined(1, b"", b"1"), Answer::Device),
    (Call::List, Answer::Device),
];

#[test]
fn a_missing_folder_fails(rt: HostRuntime) {
    let folder = folder_of(&rt, "overlay-gone", &[]).expect(&rt, "a folder");
    fs::remove_dir(&rt, folder.as_path()).expect(&rt, "no folder");
    require(
        &rt,
        failures_in(&rt, &rt, &folder, GONE) == 3,
        "three failures",
    );
}

#[derive(Clone, Copy)]
enum Ask {
    Read,
    Head,
    Replace,
    ReplaceJoined,
    Remove,
    Sync,
    List,
}

// The fault of that call on file 5.
fn fault_of<F: Files<Outside>>(files: &mut F, alloc: Global, ask: Ask) -> Option<FilesFault> {
    match ask {
        Ask::Read => files.read(alloc, 5).err(),
        Ask::Head => files.head(5).err(),
        Ask::Replace => files.replace(alloc, 5, b"new").err(),
        Ask::ReplaceJoined => files.replace_joined(alloc, 5, b"n", b"ew").err(),
        Ask::Remove => files.remove(5).err(),
        Ask::Sync => files.sync(alloc).err(),
        Ask::List => files.list(alloc).err(),
    }
}

// No removal, no replacement, no wait and no listing that the device refused is told as done.
const FAILED: &[(SystemCall, Ask)] = &[
    (SystemCall::Look, Ask::Head),
    (SystemCall::Open, Ask::Head),
    (SystemCall::LookAtOpen, Ask::Head),
    (SystemCall::Look, Ask::Read),
    (SystemCall::Open, Ask::Read),
    (SystemCall::Read, Ask::Read),
    (SystemCall::Open, Ask::Replace),
    (SystemCall::Write, Ask::Replace),
    (SystemCall::Rename, Ask::Replace),
    (SystemCall::Open, Ask::ReplaceJoined),
    (SystemCall::Write, Ask::ReplaceJoined),
    (SystemCall::Rename, Ask::ReplaceJoined),
    (SystemCall::Remove, Ask::Remove),
    (SystemCall::List, Ask::Sync),
    (SystemCall::Open, Ask::Sync),
    (SystemCall::Sync, Ask::Sync),
    (SystemCall::List, Ask::List),
];

// Whether the call answers `Device`, once and counted.
fn is_told<F: Files<Outside>>(files: F, alloc: Global, ask: Ask) -> bool {
    let mut files = files;
    fault_of(&mut files, alloc, ask) == Some(FilesFault::Device) && files.failures() == 1
}

const STORED: &[(Call, Answer)] = &[(Call::Replace(5, b"old"), Answer::Done)];

const KEPT: &[(Call, Answer)] = &[(Call::Read(5), Answer::Bytes(Some(b"old")))];

// The call fails so if those of the system fail, file 5 stays, and nothing is left beside it.
fn fail_at(rt: &impl Abort, system: &HostRuntime, folder: &PathBuf, call: SystemCall, ask: Ask) {
    let files = failing_in(rt, system, folder, call, ErrorKind::ConnectionReset);
    require(
        rt,
        is_told(files, system.alloc(), ask),
        "told as the device's",
    );
    failures_in(rt, system, folder, KEPT);
    require(rt, has(system, folder, "5.new") == Some(false), "no 5.new");
}

#[test]
fn a_failing_device_is_told_and_counted(rt: HostRuntime) {
    let folder = folder_of(&rt, "overlay-failing", &[]).expect(&rt, "a folder");
    failures_in(&rt, &rt, &folder, STORED);
    for (call, ask) in FAILED {
        fail_at(&rt, &rt, &folder, *call, *ask);
    }
    remove(&rt, folder).expect(&rt, "a folder");
}

// Stores a file, reads it, removes it, and lists what is left. Which of the four calls fail?
fn failing_calls<F: Files<Outside>>(files: &mut F, alloc: Global) -> [bool; 4] {
    [
        gives(files, alloc, Call::Replace(7, b"a"), Answer::Device),
        gives(files, alloc, Call::Read(7), Answer::Device),
        gives(files, alloc, Call::Remove(7), Answer::Device),
        gives(files, alloc, Call::List, Answer::Device),
    ]
}

// The call that fails, which calls fail then, and what is left.
const ONE_FAILS: &[(u64, [bool; 4], &[u64])] = &[
    (0, [false, false, false, false], &[]),
    (1, [true, false, false, false], &[]),
    (2, [false, true, false, false], &[]),
    (3, [false, false, true, false], &[7]),
    (4, [false, false, false, true], &[]),
    (5, [false, false, false, false], &[]),
];

// Whether those calls fail if that one does, and are counted.
fn one_fails<F: Files<Outside>>(files: &mut F, alloc: Global, want: [bool; 4]) -> bool {
    failing_calls(files, alloc) == want && (files.failures() == 1) == want.contains(&true)
}

// Whether files of these numbers are left.
fn leaves<F: Files<Outside>>(files: F, alloc: Global, left: &'static [u64]) -> bool {
    let mut files = files;
    gives(&mut files, alloc, Call::List, Answer::Numbers(left))
}

// Whether those calls fail if that one does, and that is left.
fn one_fails_and_leaves(alloc: Global, call: u64, want: [bool; 4], left: &'static [u64]) -> bool {
    let mut files = FailingFiles::new(MemoryFiles::<Outside>::new(alloc), call);
    let fails = one_fails(&mut files, alloc, want);
    leaves(files.into_files(), alloc, left) && fails
}

#[test]
fn one_call_fails(rt: HostRuntime) {
    for (call, want, left) in ONE_FAILS {
        assert!(rt; one_fails_and_leaves(rt.alloc(), *call, *want, left));
    }
}

// The calls that are allowed, which fail, and the failures so far.
const STOPS: &[(u64, [bool; 4], u64)] = &[
    (1, [false, true, true, true], 3),
    (3, [false, false, false, true], 4),
    (0, [true, true, true, true], 8),
    (4, [false, false, false, false], 8),
];

// Those calls fail if this many are allowed, all of which are used up then.
fn stop<F: Files<Outside>>(rt: &impl Abort, alloc: Global, files: &mut F, allowed: &Cell<u64>) {
    for (calls, want, failures) in STOPS {
        allowed.set(*calls);
        let is_so = failing_calls(files, alloc) == *want && allowed.get() == 0;
        assert!(rt;
            is_so && files.failures() == *failures,
            "where {calls} are allowed"
        );
    }
}

#[test]
fn files_stop_and_are_mended(rt: HostRuntime) {
    let allowed = Rc::new(rt.alloc(), Cell::new(0)).expect(&rt, "memory");
    let counted = allowed.clone().expect(&rt, "memory");
    let mut files = StopFiles::new(MemoryFiles::<Outside>::new(rt.alloc()), counted);
    stop(&rt, rt.alloc(), &mut files, &allowed);
    drop(allowed);
    require(
        &rt,
        leaves(files.into_files(), rt.alloc(), &[]),
        "nothing left",
    );
}
