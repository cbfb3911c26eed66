//! What the system does, which no clause can say: on real files, and on a file system that fails.
ghost use Rattle.std.specs.Prelude.{◌≤◌};

use crate::folders::{Made, folder_of, make, remove};
use crate::told::require;
use eden_model::Obstacle;
use eden_plain_files::{
    Durability, FolderFault, Links, entry_in, read_file, read_within, remove_file, replace_file,
};
use std::alloc::{AllocError, Global};
use std::fs;
use std::io::{self, ErrorKind, PipeReader, Read, Write};
use std::os::fd::AsRawFd;
use std::os::unix::fs::symlink;
use std::path::PathBuf;
use test_samples::{Call, FaultySystem};

fn system<'a>(
    rt: &'a HostRuntime,
    call: Call,
    kind: ErrorKind,
    instead: Option<&'a str>,
) -> FaultySystem<'a, &'a HostRuntime> {
    FaultySystem {
        files: rt,
        call,
        kind,
        instead,
    }
}

type Outcome<'a> = Result<&'a [u8], FolderFault>;

const HELLO: Outcome = Ok(b"hello");

const EMPTY: Outcome = Ok(b"");

const MISSING: Outcome = Err(FolderFault::Missing);

const NOT_PLAIN: Outcome = Err(FolderFault::NotPlain);

const TOO_LONG: Outcome = Err(FolderFault::TooLong);

const DEVICE: Outcome = Err(FolderFault::Device);

const MEMORY: Outcome = Err(FolderFault::Memory);

// The most bytes that are wanted of a file, and what a read gives if links are refused and if they are followed.
const READS: &[(&str, u32, Outcome, Outcome)] = &[
    ("file", 5, HELLO, HELLO),
    ("file", 4, TOO_LONG, TOO_LONG),
    ("empty", 0, EMPTY, EMPTY),
    ("folder", 5, NOT_PLAIN, NOT_PLAIN),
    ("link", 5, NOT_PLAIN, HELLO),
    ("lost", 5, NOT_PLAIN, NOT_PLAIN),
    ("leads to folder", 5, NOT_PLAIN, NOT_PLAIN),
    ("nothing", 5, MISSING, MISSING),
    ("file/below", 5, DEVICE, DEVICE),
];

// What those are.
const FILES: &[(&str, Made)] = &[
    ("file", Made::File(b"hello")),
    ("empty", Made::File(b"")),
    ("folder", Made::Folder),
    ("link", Made::Link("file")),
    ("lost", Made::Link("nothing")),
    ("leads to folder", Made::Link("folder")),
];

fn is_outcome(answer: Result<Vec<u8>, FolderFault>, want: Outcome) -> bool {
    let is_so = match &answer {
        Ok(bytes) => want == Ok(bytes.as_slice()),
        Err(fault) => want == Err(*fault),
    };
    drop(answer);
    is_so
}

// Whether a read gives that.
fn gives(rt: &HostRuntime, path: &str, links: Links, longest: u32, want: Outcome) -> bool {
    let answer = read_file(rt, rt.alloc(), path, links, u64::from(longest));
    is_outcome(answer, want)
}

// Whether reads give the one if links are refused, and the other if they are followed.
fn give(
    rt: &HostRuntime,
    path: &PathBuf,
    longest: u32,
    refused: Outcome,
    followed: Outcome,
) -> bool {
    gives(rt, path.as_str(), Links::Refused, longest, refused)
        && gives(rt, path.as_str(), Links::Followed, longest, followed)
}

#[test]
fn plain_files_are_read_whole(rt: HostRuntime) {
    let folder = folder_of(&rt, "read", FILES).expect(&rt, "files");
    for (name, longest, refused, followed) in READS {
        let path = folder.join(rt.alloc(), name).expect(&rt, "memory");
        let is_so = give(&rt, &path, *longest, *refused, *followed);
        drop(path);
        require(&rt, is_so, name);
    }
    remove(&rt, folder).expect(&rt, "a folder");
}

// Whether a read within 5 bytes gives that in such a system.
fn gives_in(system: FaultySystem<&HostRuntime>, path: &str, links: Links, want: Outcome) -> bool {
    let answer = read_file(&system, system.files.alloc(), path, links, 5);
    is_outcome(answer, want)
}

// Whether a pipe is no plain file where it stands in the place of a file that was looked at.
fn is_told_swapped(rt: &HostRuntime, file: &str, pipe: &str, links: Links) -> bool {
    let swapped = system(rt, Call::None, ErrorKind::Other, Some(pipe));
    gives_in(swapped, file, links, NOT_PLAIN)
}

// The path of an open pipe.
fn path_of(rt: &HostRuntime, pipe: &PipeReader) -> Result<String, AllocError> {
    format!(in rt.alloc(); "/proc/self/fd/{}", pipe.as_raw_fd())
}

// A directory with a file of these bytes.
fn folder_with(
    rt: &HostRuntime,
    folder: &str,
    name: &str,
    bytes: &'static [u8],
) -> io::Result<PathBuf> {
    folder_of(rt, folder, &[(name, Made::File(bytes))])
}

// A plain file is looked at, and by the time that it is opened a pipe stands there.
#[test]
fn a_pipe_is_no_file(rt: HostRuntime) {
    let (reader, mut writer) = io::pipe(&rt).expect(&rt, "a pipe");
    writer.write_all(b"piped").expect(&rt, "room in the pipe");
    let pipe = path_of(&rt, &reader).expect(&rt, "memory");
    require(
        &rt,
        gives(&rt, pipe.as_str(), Links::Followed, 5, NOT_PLAIN),
        "a pipe",
    );
    let folder = folder_with(&rt, "pipe", "file", b"hello").expect(&rt, "a file");
    let file = folder.join(rt.alloc(), "file").expect(&rt, "memory");
    for links in &[Links::Refused, Links::Followed] {
        let is_told = is_told_swapped(&rt, file.as_str(), pipe.as_str(), *links);
        require(&rt, is_told, "a pipe in a file's place");
    }
    drop(file);
    remove(&rt, folder).expect(&rt, "a folder");
    drop(reader);
    drop(writer);
}

// Whether a read gives that where those calls fail.
fn gives_with(rt: &HostRuntime, path: &str, call: Call, kind: ErrorKind, want: Outcome) -> bool {
    gives_in(system(rt, call, kind, None), path, Links::Refused, want)
}

// Whether that call's failure is told as the device's, or as want of memory.
fn is_failed_read(rt: &HostRuntime, path: &str, call: Call) -> bool {
    gives_with(rt, path, call, ErrorKind::ConnectionReset, DEVICE)
        && gives_with(rt, path, call, ErrorKind::OutOfMemory, MEMORY)
}

#[test]
fn failed_reads_are_told(rt: HostRuntime) {
    let folder = folder_with(&rt, "failed-reads", "file", b"hello").expect(&rt, "a file");
    let file = folder.join(rt.alloc(), "file").expect(&rt, "memory");
    for call in &[Call::Look, Call::Open, Call::LookAtOpen, Call::Read] {
        require(
            &rt,
            is_failed_read(&rt, file.as_str(), *call),
            "a failed read told",
        );
    }
    // A file that may not be written is read all the same.
    let kind = ErrorKind::PermissionDenied;
    let is_read = gives_with(&rt, file.as_str(), Call::OpenToWrite, kind, HELLO);
    require(&rt, is_read, "a file that may not be written");
    drop(file);
    remove(&rt, folder).expect(&rt, "a folder");
}

// Gives some bytes, and then fails.
#[derive(Drop)]
struct Breaking {
    left: usize,
    kind: ErrorKind,
}

impl Read for Breaking {
    fn read(&mut self, buf: &mut [u8]) -> io::Result<usize> {
        if self.left == 0 {
            return Err(io::Error::from(self.kind));
        }
        let count = self.left.min(buf.len());
        self.left -= count;
        Ok(count)
    }
}

// Whether a read within this many bytes, if less are expected, gives that.
fn gives_within<R: Read + Drop>(
    alloc: Global,
    reader: R,
    expected: u32,
    longest: u32,
    want: Outcome,
) -> bool
    requires { expected ≤ longest }
{
    let answer = read_within(alloc, reader, u64::from(expected), u64::from(longest));
    is_outcome(answer, want)
}

// How a read fails in its middle, and what is told.
const CUTS: &[(ErrorKind, Outcome)] = &[
    (ErrorKind::ConnectionReset, DEVICE),
    (ErrorKind::NotFound, DEVICE),
    (ErrorKind::OutOfMemory, MEMORY),
];

#[test]
fn a_cut_read_is_no_file(rt: HostRuntime) {
    for (kind, want) in CUTS {
        let reader = Breaking {
            left: 3,
            kind: *kind,
        };
        assert!(rt; gives_within(rt.alloc(), reader, 10, 10, *want));
    }
}

// Whether those bytes are the whole file.
fn holds(rt: &HostRuntime, path: &str, bytes: &[u8]) -> bool {
    gives(rt, path, Links::Refused, 1000, Ok(bytes))
}

// Whether a file is replaced while a link to that target stands under the new file's name.
fn replaces_over_link(rt: &HostRuntime, file: &str, new: &PathBuf, target: &str) -> bool {
    symlink(rt, target, new.as_path()).is_ok()
        && replace_file(
            rt,
            rt.alloc(),
            file,
            &[target.as_bytes()],
            Durability::Synced,
        ) == Ok(())
        && holds(rt, file, target.as_bytes())
}

// Whether no link is in the way of the file's replacement.
fn replaces_over_links(rt: &HostRuntime, file: &str, new: &PathBuf) -> bool {
    for target in &["other", "nothing", "/dev/full", "/proc/self/fd/0"] {
        if !replaces_over_link(rt, file, new, target) {
            return false;
        }
    }
    true
}

// Whether the file stays as it is if it can't be replaced.
fn stays(rt: &HostRuntime, file: &str, bytes: &[u8]) -> bool {
    replace_file(
        rt,
        rt.alloc(),
        file,
        &[b"new".as_slice()],
        Durability::Written,
    ) == Err(FolderFault::Device)
        && holds(rt, file, bytes)
}

// What stands in the way of a replacement goes, and what it leads to stays.
#[test]
fn a_replacement_is_a_new_file(rt: HostRuntime) {
    let folder = folder_with(&rt, "replaced", "other", b"other").expect(&rt, "a file");
    let file = folder.join(rt.alloc(), "file").expect(&rt, "memory");
    let new = folder.join(rt.alloc(), "file.new").expect(&rt, "memory");
    require(
        &rt,
        replaces_over_links(&rt, file.as_str(), &new),
        "over links",
    );
    drop(new);
    let other = folder.join(rt.alloc(), "other").expect(&rt, "memory");
    require(&rt, holds(&rt, other.as_str(), b"other"), "the other file");
    drop(other);
    make(&rt, &folder, "file.new", Made::Folder).expect(&rt, "a folder");
    require(
        &rt,
        stays(&rt, file.as_str(), b"/proc/self/fd/0"),
        "a folder in the way",
    );
    drop(file);
    remove(&rt, folder).expect(&rt, "a folder");
}

// How a call fails, and how a replacement and a removal tell it.
const KINDS: &[(ErrorKind, FolderFault, FolderFault)] = &[
    (
        ErrorKind::StorageFull,
        FolderFault::Blocked(Obstacle::NoSpace),
        FolderFault::Device,
    ),
    (
        ErrorKind::OutOfMemory,
        FolderFault::Memory,
        FolderFault::Memory,
    ),
    (
        ErrorKind::ConnectionReset,
        FolderFault::Device,
        FolderFault::Device,
    ),
];

// Whether a replacement answers that fault, and leaves the file, if one of its calls fails with that kind of error.
fn keeps_old(
    rt: &HostRuntime,
    path: &str,
    call: Call,
    kind: ErrorKind,
    fault: FolderFault,
) -> bool {
    let answer = replace_file(
        &system(rt, call, kind, None),
        rt.alloc(),
        path,
        &[b"new".as_slice()],
        Durability::Synced,
    );
    answer == Err(fault) && holds(rt, path, b"old")
}

// Whether each step of a replacement of that file, which has `old`, fails so and leaves it.
fn replacements_fail(rt: &HostRuntime, path: &str, kind: ErrorKind, fault: FolderFault) -> bool {
    for call in &[Call::Open, Call::Write, Call::Sync, Call::Rename] {
        if !keeps_old(rt, path, *call, kind, fault) {
            return false;
        }
    }
    true
}

fn removal_fails(rt: &HostRuntime, path: &str, kind: ErrorKind, fault: FolderFault) -> bool {
    remove_file(&system(rt, Call::Remove, kind, None), path) == Err(fault)
}

// Whether the file gets the bytes `old`.
fn becomes_old(rt: &HostRuntime, path: &str) -> bool {
    let old = &[b"old".as_slice()];
    replace_file(rt, rt.alloc(), path, old, Durability::Written) == Ok(())
}

// Whether the file goes, or is gone already.
fn is_removed(rt: &HostRuntime, path: &str) -> bool {
    remove_file(rt, path) == Ok(()) && !fs::exists(rt, path).unwrap_or(true)
}

#[test]
fn failed_changes_are_told(rt: HostRuntime) {
    let folder = folder_of(&rt, "failed-changes", &[]).expect(&rt, "a folder");
    let file = folder.join(rt.alloc(), "file").expect(&rt, "memory");
    require(&rt, becomes_old(&rt, file.as_str()), "the old file");
    for (kind, of_replacement, of_removal) in KINDS {
        let is_told = replacements_fail(&rt, file.as_str(), *kind, *of_replacement);
        require(&rt, is_told, "a failed replacement told");
        let is_told = removal_fails(&rt, file.as_str(), *kind, *of_removal);
        require(&rt, is_told, "a failed removal told");
    }
    require(&rt, is_removed(&rt, file.as_str()), "removed");
    require(&rt, is_removed(&rt, file.as_str()), "removed again");
    drop(file);
    remove(&rt, folder).expect(&rt, "a folder");
}

// What an item of a listing is.
#[derive(Clone, Copy)]
enum Item {
    /// The file `a`.
    Entry,
    /// A name that isn't UTF-8.
    Odd,
    Other,
    Failed(FolderFault),
}

type Listed<'a> = fs::DirEntry<FaultySystem<'a, &'a HostRuntime>>;

fn item_of(item: io::Result<Listed<'_>>) -> Item {
    match entry_in(item) {
        Ok(Some(entry)) => {
            if entry.file_name() == "a" {
                Item::Entry
            } else {
                Item::Other
            }
        }
        Ok(None) => Item::Odd,
        Err(fault) => Item::Failed(fault),
    }
}

// The file `a` is found beside a name that isn't UTF-8, and the listing fails if the directory does.
fn lists_one(rt: &HostRuntime, folder: &PathBuf, call: Call) -> Result<bool, FolderFault> {
    let system = system(rt, call, ErrorKind::Other, None);
    let mut items = fs::read_dir(&system, folder.as_path())?;
    let mut entries = 0;
    let mut odd = 0;
    for _ in 0..10 {
        let Some(item) = items.next() else { break };
        match item_of(item) {
            Item::Entry => entries = 1,
            Item::Odd => odd = 1,
            Item::Other => return Ok(false),
            Item::Failed(fault) => return Err(fault),
        }
    }
    Ok(entries == 1 && odd == 1)
}

#[test]
fn names_are_listed(rt: HostRuntime) {
    let folder = folder_with(&rt, "names", "a", b"").expect(&rt, "a file");
    require(
        &rt,
        lists_one(&rt, &folder, Call::None) == Ok(true),
        "both names",
    );
    let failed = Err(FolderFault::Device);
    require(
        &rt,
        lists_one(&rt, &folder, Call::List) == failed,
        "a failed listing told",
    );
    remove(&rt, folder).expect(&rt, "a folder");
}

// A file longer than the room that its length asked for, as one that grew: ten times 64 KiB.
#[test]
fn grown_files_are_read(rt: HostRuntime) {
    let long = [7; 65536].repeat(rt.alloc(), 10).expect(&rt, "memory");
    let whole = Ok(long.as_slice());
    let is_read = gives_within(rt.alloc(), long.as_slice(), 100, 655_360, whole);
    require(&rt, is_read, "read whole");
    let is_told = gives_within(rt.alloc(), long.as_slice(), 100, 655_359, TOO_LONG);
    require(&rt, is_told, "a byte too long");
}
