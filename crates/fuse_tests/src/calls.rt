//! Calls on a folder over files in memory, as tables.
use crate::flat::{Folder, Left, Start, make_folder};
use eden_fuse_format::{FSyncIn, FlushIn, Operation, ReleaseIn};
use std::process::Abort;

/// A call, and what comes of it. A node is named by the place that a test gave it; the first is the root's.
#[derive(Clone, Copy)]
pub(crate) enum Call {
    /// That name is found as a node that had no place, and gets that one.
    Finds(usize, &'static [u8]),
    /// .. as the node that has that place.
    FindsAgain(usize, &'static [u8]),
    /// .. as none.
    FindsNone(&'static [u8]),
    /// A file of that name is made and opened, as a node that had no place and gets that one.
    Makes(usize, &'static [u8]),
    /// .. isn't made.
    MakesNone(&'static [u8]),
    Opens(usize),
    /// These bytes are written from an offset on.
    Writes(usize, u64, &'static [u8]),
    /// .. aren't written.
    WritesNot(usize, u64, &'static [u8]),
    /// These bytes are read.
    Reads(usize, &'static [u8]),
    /// .. if this many are asked for from an offset on.
    ReadsFrom(usize, u64, u32, &'static [u8]),
    /// .. aren't.
    ReadsNot(usize, &'static [u8]),
    /// The node has that number.
    IsNumbered(usize, u64),
    /// The number of the error that is told, or 0.
    Tells(usize, Operation<'static>, u32),
    /// The size that is told, or 1,000.
    Shows(usize, u64),
    /// .. of that name.
    ShowsNamed(&'static [u8], u64),
    /// .. of that name, which is made, or opened if it is there.
    ShowsMade(&'static [u8], u64),
    /// How many bytes the rows of the root have.
    Lists(usize),
    /// The rows of the root from an offset on, of this many bytes at most.
    Rows(u64, u32, &'static [&'static [u8]]),
    /// It starts.
    Starts,
}

pub(crate) const FLUSH: Operation<'static> = Operation::Flush(FlushIn {
    fh: 0,
    lock_owner: 0,
});

pub(crate) const SYNC: Operation<'static> = Operation::FSync(FSyncIn {
    fh: 0,
    fsync_flags: 0,
});

pub(crate) const SYNC_DIRECTORY: Operation<'static> = Operation::FSyncDir(FSyncIn {
    fh: 0,
    fsync_flags: 0,
});

pub(crate) const CLOSE: Operation<'static> = Operation::Release(ReleaseIn {
    fh: 0,
    flags: 0,
    release_flags: 0,
    lock_owner: 0,
});

// A folder, and the numbers of the nodes that have a place.
#[derive(Drop)]
struct Caller {
    folder: Folder,
    numbers: [u64; 4],
}

// The number of the node at that place.
fn number(numbers: &[u64; 4], at: usize) -> u64 {
    numbers.get(at).copied().unwrap_or(0)
}

impl Caller {
    // Whether that is a node that had no place, and has that one now.
    fn is_new(&mut self, at: usize, number: u64) -> bool {
        let is_old = number == 0 || self.numbers.contains(&number);
        if let Some(seat) = self.numbers.get_mut(at) {
            *seat = number;
        }
        !is_old
    }

    // Whether a name is found or made as it should.
    fn is_named(&mut self, call: Call) -> bool {
        match call {
            Call::Finds(at, name) => {
                let number = self.folder.look(name);
                self.is_new(at, number)
            }
            Call::FindsAgain(at, name) => self.folder.look(name) == number(&self.numbers, at),
            Call::FindsNone(name) => self.folder.look(name) == 0,
            Call::Makes(at, name) => {
                let (number, _) = self.folder.create(name);
                self.is_new(at, number)
            }
            Call::MakesNone(name) => self.folder.create(name).0 == 0,
            Call::ShowsMade(name, size) => self.folder.create(name).1 == size,
            Call::ShowsNamed(name, size) => self.folder.size_at(name) == size,
            Call::Lists(len) => self.folder.rows_len() == len,
            Call::Rows(offset, size, rows) => self.folder.lists(offset, size, rows),
            Call::Starts => self.folder.starts(),
            _ => false,
        }
    }

    // Whether that comes of the call.
    fn goes(&mut self, call: Call) -> bool {
        let Caller { folder, numbers } = self;
        match call {
            Call::Opens(at) => folder.open(number(numbers, at)),
            Call::Writes(at, from, bytes) => folder.write_at(number(numbers, at), from, bytes),
            Call::WritesNot(at, from, bytes) => !folder.write_at(number(numbers, at), from, bytes),
            Call::Reads(at, bytes) => folder.reads(number(numbers, at), 0, 100, bytes),
            Call::ReadsFrom(at, offset, size, bytes) => {
                folder.reads(number(numbers, at), offset, size, bytes)
            }
            Call::ReadsNot(at, bytes) => !folder.reads(number(numbers, at), 0, 100, bytes),
            Call::Tells(at, asked, errno) => folder.errno(number(numbers, at), asked) == errno,
            Call::Shows(at, size) => folder.size(number(numbers, at)) == size,
            Call::IsNumbered(at, want) => number(numbers, at) == want,
            _ => self.is_named(call),
        }
    }
}

/// What is left at the end: this many files; bytes were put into one so often, and none were lost, or that error was
/// told of what was; they were to be put so often, be it in vain; the disk was to be waited for so often; or that, how
/// often bytes were put, and how often by the last time; the root was listed so often.
#[derive(Clone, Copy)]
pub(crate) enum End {
    Files(usize),
    Stores(usize),
    Loses(usize, u32),
    Patches(usize),
    Syncs(usize),
    Synced(usize, usize, usize),
    Lists(usize),
}

fn is_left(left: Left, end: End) -> bool {
    match end {
        End::Files(files) => left.files == files,
        End::Stores(stores) => left.stores == stores && left.unstored.is_none(),
        End::Loses(stores, errno) => left.stores == stores && left.unstored == Some(errno),
        End::Patches(patches) => left.patches == patches,
        End::Lists(lists) => left.lists == lists,
        End::Syncs(syncs) => left.syncs == syncs,
        End::Synced(syncs, stores, stores_by_sync) => {
            left.syncs == syncs && left.stores == stores && left.stores_by_sync == stores_by_sync
        }
    }
}

/// Calls on a folder, one after another, and what is left at the end.
pub(crate) fn check(rt: &(impl AllocGlobal + Abort), start: Start, calls: &[Call], end: End) {
    let mut caller = Caller {
        folder: make_folder(rt, start),
        numbers: [1, 0, 0, 0],
    };
    for (index, call) in calls.iter().enumerate() {
        assert!(rt; caller.goes(*call), "call {index}");
    }
    let Caller { folder, .. } = caller;
    assert!(rt; is_left(folder.end(), end));
}
