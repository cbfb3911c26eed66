//! A folder over files in memory.
use eden_fuse_format::{
    Answer, CreateIn, GetAttrIn, Header, InitIn, OpenIn, Operation, ReadIn, StatFsOut, Time,
    WriteIn,
};
use eden_fuse_meaning::Owner;
use eden_fuse_session::{Said, Service};
use eden_fuse_shown::{Manner, Mount, Shown, Times, Unheard};
use eden_model::{Bytes, Entries, Errno, Fault, Kind, Name, Path, Reply, Request};
use std::alloc::{AllocError, Global};
use std::io;
use std::process::Abort;
use std::rt::Clock;
use std::time::Duration;

#[derive(Drop)]
struct File {
    name: Name,
    bytes: Vec<u8>,
}

// The files of a root, in no order. A rename from a file of that name is refused, and no bytes are put into it.
#[derive(Drop)]
pub(crate) struct Flat {
    alloc: Global,
    files: Vec<File>,
    refused: &'static [u8],
    // Whether the disk can be waited for.
    has_disk: bool,
    // How often bytes were to be put into a file, and how often they were.
    patches: usize,
    stores: usize,
    // How often the disk was to be waited for, and how often bytes had been put into a file by the last time.
    syncs: usize,
    stores_by_sync: usize,
    // How often the root was listed.
    lists: usize,
}

// This many files are listed at once.
const MOST_LISTED: usize = 3;

// How many files there are at last, how often what was done, and the error that the last stores met.
#[derive(Clone, Copy)]
pub(crate) struct Left {
    pub(crate) files: usize,
    pub(crate) patches: usize,
    pub(crate) stores: usize,
    pub(crate) unstored: Option<u32>,
    pub(crate) syncs: usize,
    pub(crate) stores_by_sync: usize,
    pub(crate) lists: usize,
}

// Puts bytes from an offset on in the place of what is there, after zeros if there is a gap.
fn put_from(content: &mut Vec<u8>, from: usize, bytes: &[u8]) -> Result<(), AllocError> {
    let end = from.saturating_add(bytes.len());
    if content.len() < end {
        content.resize(end, 0)?;
    }
    for (index, byte) in bytes.iter().enumerate() {
        if let Some(place) = content.get_mut(from.saturating_add(index)) {
            *place = *byte;
        }
    }
    Ok(())
}

fn push_row(alloc: Global, rows: &mut Vec<(Name, Kind)>, name: &Name) -> Result<(), AllocError> {
    rows.push((name.copy(alloc)?, Kind::File))?;
    Ok(())
}

// Whether a name comes after that one, if there is one.
fn is_after(name: &Name, after: Option<&Name>) -> bool {
    match after {
        None => true,
        Some(after) => *after < *name,
    }
}

// .. and before the other one, if there is one.
fn is_between(name: &Name, after: Option<&Name>, before: Option<&Name>) -> bool {
    match before {
        None => is_after(name, after),
        Some(before) => *name < *before && is_after(name, after),
    }
}

impl Flat {
    fn at(&self, path: &Path) -> Option<usize> {
        let name = path.as_slice().last()?;
        self.files
            .as_slice()
            .iter()
            .position(|file| file.name == *name)
    }

    fn file(&self, path: &Path) -> Option<&File> {
        let at = self.at(path)?;
        self.files.as_slice().get(at)
    }

    fn kind(&self, path: &Path) -> Option<Kind> {
        if path.is_root() {
            return Some(Kind::Dir);
        }
        match self.at(path) {
            None => None,
            Some(_) => Some(Kind::File),
        }
    }

    fn len(&self, path: &Path) -> u64 {
        match self.file(path) {
            None => 0,
            Some(file) => file.bytes.len() as u64,
        }
    }

    fn read(&self, path: &Path, from: u64, count: u64) -> Result<Reply, AllocError> {
        let Some(file) = self.file(path) else {
            return Ok(Reply::Err(Errno::ENOENT));
        };
        let bytes = file.bytes.as_slice();
        let behind = &bytes[bytes.len().min(from as usize)..];
        let part = &behind[..behind.len().min(count as usize)];
        Ok(Reply::Data(Bytes::new(Vec::from_slice(self.alloc, part)?)))
    }

    // The first name after that one.
    fn next(&self, after: Option<&Name>) -> Option<&Name> {
        let mut first = None;
        for file in self.files.as_slice() {
            if is_between(&file.name, after, first) {
                first = Some(&file.name);
            }
        }
        first
    }

    fn list(&mut self, after: Option<&Name>) -> Result<Reply, AllocError> {
        if self.lists < 1000 {
            self.lists += 1;
        }
        let mut rows = Vec::new(self.alloc);
        let mut last = after;
        for _ in 0..MOST_LISTED {
            match self.next(last) {
                None => return Ok(Reply::Entries(Entries::new(rows), false)),
                Some(name) => {
                    push_row(self.alloc, &mut rows, name)?;
                    last = Some(name);
                }
            }
        }
        let more = self.next(last).is_some();
        Ok(Reply::Entries(Entries::new(rows), more))
    }

    fn write(&mut self, path: &Path, from: u64, bytes: &[u8]) -> Result<Reply, AllocError> {
        if self.patches < 1000 {
            self.patches += 1;
        }
        let at = self.at(path).unwrap_or(usize::MAX);
        let Some(file) = self.files.as_mut_slice().get_mut(at) else {
            return Ok(Reply::Err(Errno::ENOENT));
        };
        if from > 1 << 30 {
            return Ok(Reply::Err(Errno::EFBIG));
        }
        if file.name.as_slice() == self.refused {
            return Ok(Reply::Fault(Fault::Overlay));
        }
        put_from(&mut file.bytes, from as usize, bytes)?;
        if self.stores < 1000 {
            self.stores += 1;
        }
        Ok(Reply::Count(bytes.len() as u64))
    }

    fn add(&mut self, name: Name) -> Result<(), AllocError> {
        let bytes = Vec::new(self.alloc);
        self.files.push(File { name, bytes })?;
        Ok(())
    }

    fn create(&mut self, path: &Path) -> Result<Reply, AllocError> {
        match path.as_slice().last() {
            Some(name) if self.at(path).is_none() => {
                self.add(name.copy(self.alloc)?)?;
                Ok(Reply::Ok)
            }
            _ => Ok(Reply::Err(Errno::EEXIST)),
        }
    }

    // Whether the file was there.
    fn take(&mut self, path: &Path) -> bool {
        match self.at(path) {
            None => false,
            Some(at) => {
                if at < self.files.len() {
                    self.files.remove(at);
                }
                true
            }
        }
    }

    fn unlink(&mut self, path: &Path) -> Reply {
        if self.take(path) {
            Reply::Ok
        } else {
            Reply::Err(Errno::ENOENT)
        }
    }

    fn give_name(&mut self, path: &Path, name: Name) {
        if let Some(at) = self.at(path) {
            if let Some(file) = self.files.as_mut_slice().get_mut(at) {
                file.name = name;
            }
        }
    }

    fn rename(&mut self, from: &Path, to: &Path) -> Result<Reply, AllocError> {
        let (Some(old), Some(name)) = (from.as_slice().last(), to.as_slice().last()) else {
            return Ok(Reply::Err(Errno::EINVAL));
        };
        if old.as_slice() == self.refused {
            return Ok(Reply::Err(Errno::EINVAL));
        }
        if self.at(from).is_none() {
            return Ok(Reply::Err(Errno::ENOENT));
        }
        let name = name.copy(self.alloc)?;
        self.take(to);
        self.give_name(from, name);
        Ok(Reply::Ok)
    }

    fn reply(&mut self, request: &Request) -> Result<Reply, AllocError> {
        match request {
            Request::Kind(path) => match self.kind(path) {
                None => Ok(Reply::Err(Errno::ENOENT)),
                Some(kind) => Ok(Reply::Kind(kind)),
            },
            Request::Stat(path) => match self.kind(path) {
                None => Ok(Reply::Err(Errno::ENOENT)),
                Some(kind) => Ok(Reply::Stat(kind, self.len(path), 77)),
            },
            Request::Read(path, from, count) => self.read(path, *from, *count),
            Request::List(_, after, _) => self.list(after.as_ref()),
            Request::Patch(path, from, bytes) => self.write(path, *from, bytes.as_slice()),
            Request::Create(path) => self.create(path),
            Request::Unlink(path) => Ok(self.unlink(path)),
            Request::Rename(from, to) => self.rename(from, to),
            _ => Ok(Reply::Err(Errno::EINVAL)),
        }
    }
}

impl Mount for Flat {
    ghost answers = { λ s request reply t. Unit {0} };

    ghost syncs = { λ s went t. Unit {0} };

    fn ask(&mut self, request: Request) -> Result<Reply, Unheard> {
        let reply = self.reply(&request);
        drop(request);
        Ok(reply.unwrap_or(Reply::Fault(Fault::Memory)))
    }

    fn sync(&mut self) -> bool {
        if self.syncs < 1000 {
            self.syncs += 1;
        }
        self.stores_by_sync = self.stores;
        self.has_disk
    }
}

// Always the same time.
#[derive(Clone, Copy, Drop)]
pub(crate) struct Still;

impl Clock for Still {
    fn monotonic(&self) -> io::Result<Duration> {
        Ok(Duration::from_secs(9))
    }

    fn since_1970(&self) -> io::Result<Duration> {
        Ok(Duration::from_secs(9))
    }
}

// What is answered: an error's number, or the node that is told of; 0 for all else.
#[derive(Drop)]
pub(crate) struct Folder {
    shown: Shown<Flat, Still>,
    room: Vec<u8>,
    // The root's handle, or 0 before it is opened.
    root: u64,
}

const MANNER: Manner = Manner {
    owner: Owner { uid: 8, gid: 9 },
    keep: 5,
    space: StatFsOut {
        blocks: 2,
        bfree: 1,
        bavail: 1,
        files: 1,
        ffree: 1,
        bsize: 1,
        namelen: 255,
        frsize: 1,
    },
};

const OPENING: OpenIn = OpenIn {
    flags: 0,
    open_flags: 0,
};

fn copied(rt: &(impl AllocGlobal + Abort), bytes: &[u8]) -> Vec<u8> {
    Vec::from_slice(rt.alloc(), bytes).expect(rt, "memory")
}

fn make_file(rt: &(impl AllocGlobal + Abort), name: &[u8]) -> File {
    File {
        name: Name::new(copied(rt, name)).expect(rt, "a name"),
        bytes: copied(rt, b"hello"),
    }
}

// Files with these names and five bytes each.
fn make_files(rt: &(impl AllocGlobal + Abort), names: &[&[u8]]) -> Vec<File> {
    let mut files = Vec::new(rt.alloc());
    for name in names {
        files.push(make_file(rt, name)).expect(rt, "memory");
    }
    files
}

/// The names of a folder's files, of which one is refused, and whether its disk can be waited for.
#[derive(Clone, Copy)]
pub(crate) struct Start {
    pub(crate) names: &'static [&'static [u8]],
    pub(crate) refused: &'static [u8],
    pub(crate) has_disk: bool,
}

pub(crate) fn make_folder(rt: &(impl AllocGlobal + Abort), start: Start) -> Folder {
    let flat = Flat {
        alloc: rt.alloc(),
        files: make_files(rt, start.names),
        refused: start.refused,
        has_disk: start.has_disk,
        patches: 0,
        stores: 0,
        syncs: 0,
        stores_by_sync: 0,
        lists: 0,
    };
    let since = Time {
        seconds: 1,
        nanoseconds: 0,
    };
    let times = Times::new(rt.alloc(), since);
    Folder {
        shown: Shown::new(rt.alloc(), flat, Still, MANNER, times),
        room: Vec::new(rt.alloc()),
        root: 0,
    }
}

// Whether bytes are those parts, one after another.
fn is_joined(bytes: &[u8], parts: &[&[u8]]) -> bool {
    let mut rest = bytes;
    for part in parts {
        match rest.strip_prefix(*part) {
            None => return false,
            Some(behind) => rest = behind,
        }
    }
    rest.is_empty()
}

impl Folder {
    pub(crate) fn call(&mut self, node: u64, operation: Operation<'_>) -> Said {
        let header = Header {
            unique: 1,
            nodeid: node,
            uid: 8,
            gid: 9,
            pid: 10,
        };
        self.shown.call(header, operation, &mut self.room)
    }

    // The number of the error, if one is told.
    pub(crate) fn errno(&mut self, node: u64, operation: Operation<'_>) -> u32 {
        match self.call(node, operation) {
            Said::Answers(Answer::Refused(errno)) => errno,
            _ => 0,
        }
    }

    // The node of a name of the root, or 0.
    pub(crate) fn look(&mut self, name: &[u8]) -> u64 {
        match self.call(1, Operation::Lookup(name)) {
            Said::Answers(Answer::Entry(entry)) => entry.nodeid,
            _ => 0,
        }
    }

    // Whether a node can be opened.
    pub(crate) fn open(&mut self, node: u64) -> bool {
        matches!(
            self.call(node, Operation::Open(OPENING)),
            Said::Answers(Answer::Opened(_))
        )
    }

    // The node that is made of that name, and is open, and its size; or none.
    pub(crate) fn create(&mut self, name: &[u8]) -> (u64, u64) {
        let making = CreateIn {
            flags: 0o101,
            mode: 0o100644,
            umask: 0o022,
            open_flags: 0,
        };
        match self.call(1, Operation::Create(making, name)) {
            Said::Answers(Answer::Created(entry, _)) => (entry.nodeid, entry.attr.size),
            _ => (0, 1000),
        }
    }

    // Whether this many bytes of a node from an offset on are read as these.
    pub(crate) fn reads(&mut self, node: u64, offset: u64, size: u32, bytes: &[u8]) -> bool {
        let reading = ReadIn {
            fh: 0,
            offset,
            size,
            read_flags: 0,
            lock_owner: 0,
            flags: 0,
        };
        match self.call(node, Operation::Read(reading)) {
            Said::Data => self.room.as_slice() == bytes,
            _ => false,
        }
    }

    pub(crate) fn write_at(&mut self, node: u64, offset: u64, bytes: &[u8]) -> bool {
        let writing = WriteIn {
            fh: 0,
            offset,
            size: 0,
            write_flags: 0,
            lock_owner: 0,
            flags: 0,
        };
        matches!(
            self.call(node, Operation::Write(writing, bytes)),
            Said::Answers(Answer::Written(_))
        )
    }

    // The size that is told of a node; 1,000 if none is.
    pub(crate) fn size(&mut self, node: u64) -> u64 {
        let looking = GetAttrIn {
            getattr_flags: 0,
            fh: 0,
        };
        match self.call(node, Operation::GetAttr(looking)) {
            Said::Answers(Answer::Attributes(told)) => told.attr.size,
            _ => 1000,
        }
    }

    // The size that is told of a name of the root.
    pub(crate) fn size_at(&mut self, name: &[u8]) -> u64 {
        match self.call(1, Operation::Lookup(name)) {
            Said::Answers(Answer::Entry(entry)) => entry.attr.size,
            _ => 1000,
        }
    }

    // The handle of the root, which is opened once.
    fn open_root(&mut self) -> u64 {
        if self.root == 0 {
            if let Said::Answers(Answer::Opened(opened)) = self.call(
                1,
                Operation::OpenDir(OPENING),
            ) {
                self.root = opened.fh;
            }
        }
        self.root
    }

    // Whether rows of the root are left in the room, of this many bytes at most.
    fn list(&mut self, offset: u64, size: u32) -> bool {
        let reading = ReadIn {
            fh: self.open_root(),
            offset,
            size,
            read_flags: 0,
            lock_owner: 0,
            flags: 0,
        };
        matches!(self.call(1, Operation::ReadDir(reading)), Said::Data)
    }

    // How many bytes the rows of the root have.
    pub(crate) fn rows_len(&mut self) -> usize {
        if self.list(0, 1000) {
            self.room.len()
        } else {
            0
        }
    }

    // Whether these are the rows of the root from an offset on, of this many bytes at most.
    pub(crate) fn lists(&mut self, offset: u64, size: u32, rows: &[&[u8]]) -> bool {
        self.list(offset, size) && is_joined(self.room.as_slice(), rows)
    }

    // Whether it starts, for a kernel of that day.
    pub(crate) fn starts(&mut self) -> bool {
        let start = InitIn {
            major: 7,
            minor: 45,
            max_readahead: 131072,
            flags: 0,
        };
        matches!(
            self.call(0, Operation::Init(start)),
            Said::Answers(Answer::Started(_))
        )
    }

    // What there is once the folder is no more.
    pub(crate) fn end(self) -> Left {
        let Folder { shown, .. } = self;
        let (flat, unstored) = shown.into_mount();
        Left {
            files: flat.files.len(),
            patches: flat.patches,
            stores: flat.stores,
            unstored,
            syncs: flat.syncs,
            stores_by_sync: flat.stores_by_sync,
            lists: flat.lists,
        }
    }
}
