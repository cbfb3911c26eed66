//! Requests on a mount, one after the other: what each needs, its reply, and the files that are left.

use crate::mount::{KEPT, Mount, key_of};
use crate::paths::{name, path};
use crate::whole::bytes;
use eden_model::{
    Attempt, Bytes, Entries, Errno, Fault, Kind, Name, Outside, Path, Reply, Request, SharedBytes,
};
use eden_overlay::{Files, MemoryFiles};
use std::alloc::Global;
use std::process::Abort;
use test_samples::Sample;

/// A path, name by name.
pub(crate) type Names = &'static [&'static [u8]];

pub(crate) const ROOT: Names = &[];

pub(crate) const TEST: Names = &[b"test.txt"];

pub(crate) const D: Names = &[b"d"];

pub(crate) const E: Names = &[b"e"];

pub(crate) const D_T: Names = &[b"d", b"t"];

/// What is asked of a path.
#[derive(Clone, Copy)]
pub(crate) enum Ask {
    Kind,
    Stat,
    Read(u64, u64),
    ReadLink,
    List(Option<&'static [u8]>, u64),
    Write(u64, &'static [u8]),
    Patch(u64, &'static [u8]),
    /// 65,537 bytes `a`, one more than a write may have.
    WriteLong(u64),
    PatchLong(u64),
    Truncate(u64),
    Create,
    SetExec(bool),
    Mkdir,
    Symlink(&'static [u8]),
    Unlink,
    Rmdir,
    Rename(Names),
}

#[derive(Clone, Copy)]
pub(crate) enum Want {
    Ok,
    Kind(Kind),
    /// A kind, a length and an inode number.
    Stat(Kind, u64, u64),
    Data(&'static [u8]),
    Count(u64),
    /// These entries, and whether more follow.
    Entries(&'static [(&'static [u8], Kind)], bool),
    Err(Errno),
    Fault(Fault),
}

#[derive(Clone, Copy)]
pub(crate) enum Step {
    /// This is asked about the path, and replied so.
    Ask(Names, Ask, Want),
    /// This is asked about the path, and needs that object, which is cached then.
    Need(Names, Ask, Sample),
    /// Of all directories this many can be unloaded.
    Unload(u64),
    /// This many calls on the files still pass.
    Pass(u64),
}

/// Files by their numbers, each with its size in bytes.
pub(crate) type Sizes = &'static [(u64, usize)];

/// Steps on a mount of that tree whose cache holds this many objects, and then its files.
#[derive(Clone, Copy)]
pub(crate) struct Row {
    pub(crate) root: Sample,
    pub(crate) objects: usize,
    pub(crate) steps: &'static [Step],
    pub(crate) files: Sizes,
}

fn behind(rt: &impl Abort, alloc: Global, after: Option<&[u8]>) -> Option<Name> {
    match after {
        None => None,
        Some(bytes) => Some(name(rt, alloc, bytes)),
    }
}

/// An entry that comes or goes.
fn entry(rt: &impl Abort, alloc: Global, at: Path, ask: Ask) -> Request {
    match ask {
        Ask::Unlink => Request::Unlink(at),
        Ask::Rmdir => Request::Rmdir(at),
        Ask::Mkdir => Request::Mkdir(at),
        Ask::Create => Request::Create(at),
        Ask::Symlink(target) => Request::Symlink(at, bytes(rt, alloc, target)),
        Ask::Rename(to) => Request::Rename(at, path(rt, alloc, to)),
        _ => Request::Kind(at),
    }
}

fn shared(rt: &impl Abort, alloc: Global, bytes: Bytes) -> SharedBytes {
    SharedBytes::new(alloc, bytes.into_vec()).expect(rt, "memory")
}

fn long(rt: &impl Abort, alloc: Global) -> Bytes {
    let mut content = Vec::new(alloc);
    content.resize(65_537, b'a').expect(rt, "memory");
    Bytes::new(content)
}

/// What is asked of the path of these names.
pub(crate) fn request(rt: &impl Abort, alloc: Global, names: Names, ask: Ask) -> Request {
    let at = path(rt, alloc, names);
    match ask {
        Ask::Stat => Request::Stat(at),
        Ask::ReadLink => Request::ReadLink(at),
        Ask::Read(offset, count) => Request::Read(at, offset, count),
        Ask::List(name, limit) => Request::List(at, behind(rt, alloc, name), limit),
        Ask::SetExec(exec) => Request::SetExec(at, exec),
        Ask::Truncate(size) => Request::Truncate(at, size),
        Ask::Write(offset, new) => Request::Write(at, offset, bytes(rt, alloc, new)),
        Ask::Patch(offset, new) => Request::Patch(
            at,
            offset,
            shared(rt, alloc, bytes(rt, alloc, new)),
        ),
        Ask::WriteLong(offset) => Request::Write(at, offset, long(rt, alloc)),
        Ask::PatchLong(offset) => Request::Patch(at, offset, shared(rt, alloc, long(rt, alloc))),
        other => entry(rt, alloc, at, other),
    }
}

/// Whether these entries are listed, in order.
fn are_listed(entries: &Entries, rows: &[(&'static [u8], Kind)]) -> bool {
    for ((name, kind), (bytes, wanted)) in entries.as_slice().iter().zip(rows) {
        if name.as_slice() != *bytes || kind != wanted {
            return false;
        }
    }
    entries.len() == rows.len()
}

fn is_stat(reply: &Reply, kind: Kind, size: u64, number: u64) -> bool {
    match reply {
        Reply::Stat(there, length, own) => *there == kind && *length == size && *own == number,
        _ => false,
    }
}

/// Whether a reply is the one that is wanted.
pub(crate) fn is_wanted(reply: &Reply, want: Want) -> bool {
    match want {
        Want::Ok => matches!(reply, Reply::Ok),
        Want::Kind(kind) => matches!(reply, Reply::Kind(there) if *there == kind),
        Want::Stat(kind, size, number) => is_stat(reply, kind, size, number),
        Want::Data(bytes) => matches!(reply, Reply::Data(data) if data.as_slice() == bytes),
        Want::Count(count) => matches!(reply, Reply::Count(there) if *there == count),
        Want::Entries(rows, more) => {
            matches!(reply, Reply::Entries(entries, left) if *left == more && are_listed(entries, rows))
        }
        Want::Err(errno) => matches!(reply, Reply::Err(there) if *there == errno),
        Want::Fault(fault) => matches!(reply, Reply::Fault(there) if *there == fault),
    }
}

fn replies(mount: &mut Mount, request: &Request, want: Want) -> bool {
    match mount.attempt(request) {
        Attempt::Finished(reply) => is_wanted(&reply, want),
        Attempt::Need(_) => false,
    }
}

/// Whether that object is needed, which is cached then.
fn needs(rt: &impl Abort, mount: &mut Mount, request: &Request, object: Sample) -> bool {
    let is_so = match mount.attempt(request) {
        Attempt::Finished(_) => false,
        Attempt::Need(key) => key == key_of(object),
    };
    mount.put(rt, object);
    is_so
}

fn take(rt: &impl Abort, mount: &mut Mount, step: Step) -> bool {
    match step {
        Step::Ask(names, ask, want) => {
            let request = request(rt, mount.alloc, names, ask);
            replies(mount, &request, want)
        }
        Step::Need(names, ask, object) => {
            let request = request(rt, mount.alloc, names, ask);
            needs(rt, mount, &request, object)
        }
        Step::Unload(count) => mount.table.unload(mount.alloc, &[], 0).count == count,
        Step::Pass(count) => {
            mount.calls.set(count);
            true
        }
    }
}

fn has_size(alloc: Global, files: &mut MemoryFiles<Outside>, number: u64, size: usize) -> bool {
    match files.read(alloc, number) {
        Ok(Some(bytes)) => bytes.len() == size,
        _ => false,
    }
}

/// Whether files of these numbers are those, in order, each of its size.
fn have_sizes(
    alloc: Global,
    files: &mut MemoryFiles<Outside>,
    numbers: &[u64],
    want: Sizes,
) -> bool {
    for (number, (wanted, size)) in numbers.iter().zip(want) {
        if number != wanted || !has_size(alloc, files, *number, *size) {
            return false;
        }
    }
    numbers.len() == want.len()
}

/// Whether just these files are under a mount, once all calls pass.
fn leaves(rt: &impl Abort, mount: Mount, want: Sizes) -> bool {
    mount.calls.set(u64::MAX);
    let alloc = mount.alloc;
    let files = mount.table.into_overlay().into_files();
    let mut files: MemoryFiles<Outside> = files.into_files();
    let numbers = files.list(alloc).expect(rt, "a list");
    have_sizes(alloc, &mut files, numbers.as_slice(), want)
}

/// Takes the steps of a row, if contents of at most this many bytes stay in memory, and looks at its files.
pub(crate) fn check(rt: &impl Abort, alloc: Global, row: Row, kept: u64) {
    let mut mount = Mount::keeping(rt, alloc, row.root, row.objects, kept);
    for (count, step) in row.steps.iter().enumerate() {
        assert!(rt; take(rt, &mut mount, *step), "step {count}");
    }
    assert!(rt; leaves(rt, mount, row.files));
}

pub(crate) fn check_all(rt: &impl Abort, alloc: Global, rows: &[Row]) {
    for row in rows {
        check(rt, alloc, *row, KEPT);
    }
}
