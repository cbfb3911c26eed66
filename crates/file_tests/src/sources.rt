//! The answers of sources in memory and in directories.
use crate::folders::{Made, folder_of, remove};
use crate::told::require;
use eden_model::{Cause, Id, Outside};
use eden_source::{FolderSource, MemorySource, Source};
use std::alloc::Global;
use std::io::ErrorKind;
use std::path::PathBuf;
use std::process::Abort;
use test_samples::{Call, FaultySystem, VERSION_1, VERSION_2};

// The id of `VERSION_1` with another first byte.
fn id_starting(first: u8) -> Id {
    let mut id = VERSION_1.id;
    id.bytes[0] = first;
    id
}

fn is_answer(answer: Result<Vec<u8>, Cause>, want: Result<&[u8], Cause>) -> bool {
    let is_so = match &answer {
        Ok(framed) => want == Ok(framed.as_slice()),
        Err(cause) => want == Err(*cause),
    };
    drop(answer);
    is_so
}

// Whether the source gives that answer.
fn gives<S: Source<Outside>>(
    source: &mut S,
    alloc: Global,
    id: Id,
    want: Result<&[u8], Cause>,
) -> bool {
    is_answer(source.fetch(alloc, id), want)
}

// An id of that number.
fn numbered(number: u32) -> Id {
    let mut id = VERSION_1.id;
    id.bytes[..4].copy_from_slice(&number.to_be_bytes());
    id
}

fn put(rt: &impl Abort, alloc: Global, source: &mut MemorySource<Outside>, id: Id, framed: &[u8]) {
    let framed = Vec::from_slice(alloc, framed).expect(rt, "memory");
    source.insert(id, framed).expect(rt, "memory")
}

// Ten thousand objects of the same bytes, and then others in the second one's place.
fn put_many(rt: &impl Abort, alloc: Global, source: &mut MemorySource<Outside>, second: &[u8]) {
    for number in 0..10_000 {
        put(rt, alloc, source, numbered(number), VERSION_1.framed);
    }
    put(rt, alloc, source, numbered(1), second);
}

// Whether those objects are given, and no other.
fn gives_many<S: Source<Outside>>(source: &mut S, alloc: Global, second: &[u8]) -> bool {
    let version_1 = Ok(VERSION_1.framed);
    gives(source, alloc, numbered(0), version_1)
        && gives(source, alloc, numbered(9_999), version_1)
        && gives(source, alloc, numbered(1), Ok(second))
        && gives(source, alloc, numbered(10_000), Err(Cause::Missing))
}

#[test]
fn memory_gives_what_was_put(rt: HostRuntime) {
    let alloc = rt.alloc();
    let long = [7; 1000].repeat(alloc, 100).expect(&rt, "memory");
    let mut source = MemorySource::<Outside>::new(alloc);
    put_many(&rt, alloc, &mut source, &long);
    require(&rt, gives_many(&mut source, alloc, &long), "each object");
    drop(source);
}

#[test]
fn memory_may_lie(rt: HostRuntime) {
    let alloc = rt.alloc();
    let mut source = MemorySource::<Outside>::new(alloc);
    put(&rt, alloc, &mut source, VERSION_1.id, VERSION_1.framed);
    put(&rt, alloc, &mut source, VERSION_1.id, VERSION_2.framed);
    let is_given = gives(&mut source, alloc, VERSION_1.id, Ok(VERSION_2.framed));
    drop(source);
    require(&rt, is_given, "the other version");
}

// The framed bytes of `VERSION_1`.
const FRAMED: &[u8] = b"blob 10\0version 1\n";

// What is in a directory of objects. By an id's first byte: 83 has an object, 84 has an empty file, 85 a directory in
// the file's place, 86 a link to nothing, 87 a plain file in the directory's place, 88 a file that is too large, and 89
// another object alone.
const OBJECTS: &[(&str, Made)] = &[
    ("83", Made::Folder),
    ("84", Made::Folder),
    ("85", Made::Folder),
    ("86", Made::Folder),
    ("88", Made::Folder),
    ("89", Made::Folder),
    (
        "83/baae61804e65cc73a7201a7252750c76066a30",
        Made::File(FRAMED),
    ),
    ("84/baae61804e65cc73a7201a7252750c76066a30", Made::File(b"")),
    ("87", Made::File(FRAMED)),
    ("89/other", Made::File(FRAMED)),
    ("85/baae61804e65cc73a7201a7252750c76066a30", Made::Folder),
    (
        "86/baae61804e65cc73a7201a7252750c76066a30",
        Made::Link("nothing"),
    ),
    (
        "88/baae61804e65cc73a7201a7252750c76066a30",
        Made::Long(1_073_741_841),
    ),
];

// The first byte of an id, the answer, and how many failures there are then.
const ANSWERS: &[(u8, Result<&[u8], Cause>, u64)] = &[
    (0x83, Ok(FRAMED), 0),
    (0x84, Ok(b""), 0),
    (0x85, Err(Cause::Device), 1),
    (0x86, Err(Cause::Device), 2),
    (0x87, Err(Cause::Device), 3),
    (0x88, Err(Cause::TooLarge), 3),
    (0x89, Err(Cause::Missing), 3),
    (0x8a, Err(Cause::Missing), 3),
];

// Whether a source has all those answers, and counts this many failures after each.
fn gives_all<S: Source<Outside>>(source: &mut S, alloc: Global) -> bool {
    for (first, want, failures) in ANSWERS {
        let is_answered = gives(source, alloc, id_starting(*first), *want);
        if !is_answered || source.failures() != *failures {
            return false;
        }
    }
    true
}

#[test]
fn folder_gives_its_files(rt: HostRuntime) {
    let folder = folder_of(&rt, "source", OBJECTS).expect(&rt, "a folder");
    let mut source = FolderSource::new(&rt, folder.clone().expect(&rt, "memory"));
    require(&rt, gives_all(&mut source, rt.alloc()), "each answer");
    remove(&rt, folder).expect(&rt, "a folder");
    let is_missing = gives(&mut source, rt.alloc(), VERSION_1.id, Err(Cause::Missing));
    drop(source);
    require(&rt, is_missing, "no object without a folder");
}

// By an id's first byte: 83 has an object of 8 MiB, 84 the longest, and 85 one of a byte more.
const LONG_OBJECTS: &[(&str, Made)] = &[
    ("83", Made::Folder),
    ("84", Made::Folder),
    ("85", Made::Folder),
    (
        "83/baae61804e65cc73a7201a7252750c76066a30",
        Made::Long(8_388_608),
    ),
    (
        "84/baae61804e65cc73a7201a7252750c76066a30",
        Made::Long(1_073_741_840),
    ),
    (
        "85/baae61804e65cc73a7201a7252750c76066a30",
        Made::Long(1_073_741_841),
    ),
];

// How many bytes the source gives for the id.
fn given<S: Source<Outside>>(source: &mut S, alloc: Global, first: u8) -> Option<usize> {
    let answer = source.fetch(alloc, id_starting(first));
    let length = match &answer {
        Ok(framed) => Some(framed.len()),
        Err(_) => None,
    };
    drop(answer);
    length
}

// The same of the directory's source.
fn length_in(rt: &impl Abort, system: &HostRuntime, folder: &PathBuf, first: u8) -> Option<usize> {
    let mut source = FolderSource::new(system, folder.clone().expect(rt, "memory"));
    let length = given(&mut source, system.alloc(), first);
    drop(source);
    length
}

// The directory's source, if that call of the system fails so.
fn failing(
    rt: &impl Abort,
    system: &HostRuntime,
    folder: &PathBuf,
    call: Call,
    kind: ErrorKind,
) -> FolderSource<FaultySystem<'static, HostRuntime>> {
    let system = FaultySystem {
        files: *system,
        call,
        kind,
        instead: None,
    };
    FolderSource::new(system, folder.clone().expect(rt, "memory"))
}

// Why two objects aren't given: reads that fail tell which are read at all, so that none of 2^30 bytes has to be.
fn refuses_long<S: Source<Outside> + Drop>(source: S, alloc: Global) -> bool {
    let mut source = source;
    gives(&mut source, alloc, id_starting(0x84), Err(Cause::Device))
        && gives(&mut source, alloc, id_starting(0x85), Err(Cause::TooLarge))
}

#[test]
fn folder_gives_long_files(rt: HostRuntime) {
    let folder = folder_of(&rt, "source-long", LONG_OBJECTS).expect(&rt, "a folder");
    require(
        &rt,
        length_in(&rt, &rt, &folder, 0x83) == Some(8_388_608),
        "all of 8 MiB",
    );
    let source = failing(&rt, &rt, &folder, Call::Read, ErrorKind::ConnectionReset);
    require(
        &rt,
        refuses_long(source, rt.alloc()),
        "the longest read, and no other",
    );
    remove(&rt, folder).expect(&rt, "a folder");
}

const KINDS: &[(ErrorKind, Cause, u64)] = &[
    (ErrorKind::ConnectionReset, Cause::Device, 2),
    (ErrorKind::OutOfMemory, Cause::Memory, 0),
];

// Whether each of two questions has that answer, and this many failures are counted then.
fn fails<S: Source<Outside> + Drop>(source: S, alloc: Global, want: Cause, failures: u64) -> bool {
    let mut source = source;
    gives(&mut source, alloc, VERSION_1.id, Err(want))
        && gives(&mut source, alloc, VERSION_1.id, Err(want))
        && source.failures() == failures
}

// Each call's failure of that kind is told so.
fn all_fail(
    rt: &impl Abort,
    system: &HostRuntime,
    folder: &PathBuf,
    kind: ErrorKind,
    want: Cause,
    failures: u64,
) {
    for call in &[Call::Look, Call::Open, Call::Read] {
        let source = failing(rt, system, folder, *call, kind);
        require(
            rt,
            fails(source, system.alloc(), want, failures),
            "a failure told",
        );
    }
}

// A device that fails is no missing object, and is counted; want of memory is neither.
#[test]
fn failures_are_counted(rt: HostRuntime) {
    let folder = folder_of(&rt, "source-failures", OBJECTS).expect(&rt, "a folder");
    for (kind, want, failures) in KINDS {
        all_fail(&rt, &rt, &folder, *kind, *want, *failures);
    }
    remove(&rt, folder).expect(&rt, "a folder");
}
