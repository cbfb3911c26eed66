//! What messages of the kernel are read as.
use crate::answers::decoded;
use crate::none::{MALFORMED, UNFRAMED, UNKNOWN};
use crate::sent::{BATCH, FORGOTTEN, Row, SENT, SPELLED};
use eden_fuse_format::{
    CreateIn, FallocateIn, Header, InitIn, Message, MkNodIn, OpenIn, Operation, ReadIn, ReleaseIn,
    SetAttrIn, WriteIn, forget_at, read_message,
};
use std::process::Abort;

// The members of a struct, and zeros after them.
type Members = [u64; 13];

fn padded(front: &[u64]) -> Members {
    let mut all = [0; 13];
    for (member, number) in all.iter_mut().zip(front) {
        *member = *number;
    }
    all
}

fn of_setattr(s: &SetAttrIn) -> Members {
    padded(&[
        u64::from(s.valid),
        s.fh,
        s.size,
        s.lock_owner,
        s.atime,
        s.mtime,
        s.ctime,
        u64::from(s.atimensec),
        u64::from(s.mtimensec),
        u64::from(s.ctimensec),
        u64::from(s.mode),
        u64::from(s.uid),
        u64::from(s.gid),
    ])
}

fn of_mknod(s: &MkNodIn) -> Members {
    padded(&[u64::from(s.mode), u64::from(s.rdev), u64::from(s.umask)])
}

fn of_open(s: &OpenIn) -> Members {
    padded(&[u64::from(s.flags), u64::from(s.open_flags)])
}

fn of_create(s: &CreateIn) -> Members {
    padded(&[
        u64::from(s.flags),
        u64::from(s.mode),
        u64::from(s.umask),
        u64::from(s.open_flags),
    ])
}

fn of_read(s: &ReadIn) -> Members {
    padded(&[
        s.fh,
        s.offset,
        u64::from(s.size),
        u64::from(s.read_flags),
        s.lock_owner,
        u64::from(s.flags),
    ])
}

fn of_write(s: &WriteIn) -> Members {
    padded(&[
        s.fh,
        s.offset,
        u64::from(s.size),
        u64::from(s.write_flags),
        s.lock_owner,
        u64::from(s.flags),
    ])
}

fn of_release(s: &ReleaseIn) -> Members {
    padded(&[
        s.fh,
        u64::from(s.flags),
        u64::from(s.release_flags),
        s.lock_owner,
    ])
}

fn of_fallocate(s: &FallocateIn) -> Members {
    padded(&[s.fh, s.offset, s.length, u64::from(s.mode)])
}

fn of_init(s: &InitIn) -> Members {
    padded(&[
        u64::from(s.major),
        u64::from(s.minor),
        u64::from(s.max_readahead),
        u64::from(s.flags),
    ])
}

// The kernel's number of an operation.
fn opcode_of(operation: &Operation<'_>) -> u32 {
    match operation {
        Operation::Lookup(_) => 1,
        Operation::Forget(_) => 2,
        Operation::GetAttr(_) => 3,
        Operation::SetAttr(_) => 4,
        Operation::ReadLink => 5,
        Operation::Symlink(_, _) => 6,
        Operation::MkNod(_, _) => 8,
        Operation::MkDir(_, _) => 9,
        Operation::Unlink(_) => 10,
        Operation::RmDir(_) => 11,
        Operation::Rename(_, _, _) => 12,
        Operation::Link(_, _) => 13,
        Operation::Open(_) => 14,
        Operation::Read(_) => 15,
        Operation::Write(_, _) => 16,
        Operation::StatFs => 17,
        Operation::Release(_) => 18,
        Operation::FSync(_) => 20,
        Operation::Flush(_) => 25,
        Operation::Init(_) => 26,
        Operation::OpenDir(_) => 27,
        Operation::ReadDir(_) => 28,
        Operation::ReleaseDir(_) => 29,
        Operation::FSyncDir(_) => 30,
        Operation::Access(_) => 34,
        Operation::Create(_, _) => 35,
        Operation::Interrupt(_) => 36,
        Operation::Destroy => 38,
        Operation::BatchForget(_) => 42,
        Operation::Fallocate(_) => 43,
        Operation::ReadDirPlus(_) => 44,
        Operation::Rename2(_, _, _) => 45,
    }
}

fn members_of(operation: &Operation<'_>) -> Members {
    match operation {
        Operation::Forget(s) => padded(&[s.nlookup]),
        Operation::GetAttr(s) => padded(&[u64::from(s.getattr_flags), s.fh]),
        Operation::SetAttr(s) => of_setattr(s),
        Operation::MkNod(s, _) => of_mknod(s),
        Operation::MkDir(s, _) => padded(&[u64::from(s.mode), u64::from(s.umask)]),
        Operation::Rename(s, _, _) => padded(&[s.newdir]),
        Operation::Link(s, _) => padded(&[s.oldnodeid]),
        Operation::Open(s) | Operation::OpenDir(s) => of_open(s),
        Operation::Read(s) | Operation::ReadDir(s) | Operation::ReadDirPlus(s) => of_read(s),
        Operation::Write(s, _) => of_write(s),
        Operation::Release(s) | Operation::ReleaseDir(s) => of_release(s),
        Operation::FSync(s) | Operation::FSyncDir(s) => {
            padded(&[s.fh, u64::from(s.fsync_flags)])
        }
        Operation::Flush(s) => padded(&[s.fh, s.lock_owner]),
        Operation::Init(s) => of_init(s),
        Operation::Access(s) => padded(&[u64::from(s.mask)]),
        Operation::Create(s, _) => of_create(s),
        Operation::Interrupt(s) => padded(&[s.unique]),
        Operation::Fallocate(s) => of_fallocate(s),
        Operation::Rename2(s, _, _) => padded(&[s.newdir, u64::from(s.flags)]),
        _ => padded(&[]),
    }
}

// The name or the bytes of an operation, and its other name.
fn names_of<'a>(operation: &Operation<'a>) -> (&'a [u8], &'a [u8]) {
    match operation {
        Operation::Lookup(name) | Operation::Unlink(name) | Operation::RmDir(name) => (name, b""),
        Operation::MkNod(_, name) => (name, b""),
        Operation::MkDir(_, name) => (name, b""),
        Operation::Link(_, name) => (name, b""),
        Operation::Create(_, name) => (name, b""),
        Operation::Write(_, bytes) => (bytes, b""),
        Operation::BatchForget(batch) => (batch, b""),
        Operation::Symlink(name, other) => (name, other),
        Operation::Rename(_, name, other) => (name, other),
        Operation::Rename2(_, name, other) => (name, other),
        _ => (b"", b""),
    }
}

fn is_read(row: &Row, header: &Header, operation: &Operation<'_>) -> bool {
    let (name, other) = names_of(operation);
    let told = [
        header.unique,
        header.nodeid,
        u64::from(header.uid),
        u64::from(header.gid),
        u64::from(header.pid),
    ];
    told == row.header
        && opcode_of(operation) == row.opcode
        && members_of(operation).starts_with(row.members)
        && name == row.name
        && other == row.other
}

// Whether the message of a row is read as its request.
fn is_request(rt: &(impl AllocGlobal + Abort), row: &Row) -> bool {
    match read_message(&decoded(rt, row.sent)) {
        Message::Request(header, operation) => is_read(row, &header, &operation),
        _ => false,
    }
}

fn check_rows(rt: &(impl AllocGlobal + Abort), rows: &[Row]) {
    for (index, row) in rows.iter().enumerate() {
        assert!(rt; is_request(rt, row), "row {index}");
    }
}

#[test]
fn messages_that_are_requests(rt: HostRuntime) {
    check_rows(&rt, SENT);
    check_rows(&rt, SPELLED);
}

// In what way a message is no request.
#[derive(Clone, Copy)]
enum Lack {
    Unknown,
    Malformed,
    Unframed,
}

// Whether a message lacks that, and is number 5 if it has a number.
fn lacks(rt: &(impl AllocGlobal + Abort), sent: &[&str], lack: Lack) -> bool {
    match (read_message(&decoded(rt, sent)), lack) {
        (Message::Unknown(unique), Lack::Unknown) => unique == 5,
        (Message::Malformed(unique), Lack::Malformed) => unique == 5,
        (Message::Unframed, Lack::Unframed) => true,
        _ => false,
    }
}

fn check_lacks(rt: &(impl AllocGlobal + Abort), rows: &[&[&str]], lack: Lack) {
    for (index, sent) in rows.iter().enumerate() {
        assert!(rt; lacks(rt, sent, lack), "row {index}");
    }
}

#[test]
fn messages_that_are_none(rt: HostRuntime) {
    check_lacks(&rt, UNKNOWN, Lack::Unknown);
    check_lacks(&rt, MALFORMED, Lack::Malformed);
    check_lacks(&rt, UNFRAMED, Lack::Unframed);
}

// Cut anywhere, the message of that row isn't framed any more.
fn check_cut(rt: &impl Abort, index: usize, bytes: &[u8]) {
    for len in 0..bytes.len() {
        assert!(rt;
            matches!(read_message(&bytes[..len]), Message::Unframed),
            "{len} bytes of row {index}"
        );
    }
}

#[test]
fn messages_that_are_cut(rt: HostRuntime) {
    for (index, row) in SENT.iter().enumerate() {
        check_cut(&rt, index, &decoded(&rt, row.sent));
    }
}

// Whether the batch forgets that node so often, at that place.
fn is_forgotten(index: usize, nodeid: u64, nlookup: u64) -> bool {
    match forget_at(BATCH, index) {
        Some(one) => one.nodeid == nodeid && one.nlookup == nlookup,
        None => false,
    }
}

#[test]
fn a_batch_is_forgotten(rt: HostRuntime) {
    for (index, (nodeid, nlookup)) in FORGOTTEN.iter().enumerate() {
        assert!(rt; is_forgotten(index, *nodeid, *nlookup), "row {index}");
    }
    assert!(rt; forget_at(BATCH, FORGOTTEN.len()).is_none());
    assert!(rt; forget_at(&BATCH[..15], 0).is_none());
    assert!(rt; forget_at(BATCH, usize::MAX).is_none());
}
