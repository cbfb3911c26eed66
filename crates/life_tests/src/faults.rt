//! Lives that a fault ends, of the reader, the writer or the files' device.
use crate::lives::{Fate, Life, Sizes, Stored, are_there, closed, ending, left, lived, over};
use crate::refusals::check_refused;
use eden_checkout::{OpenFault, Opening};
use eden_overlay::{FilesFault, MemoryFiles, StopFiles};
use eden_stdio_life::LifeFault;
use eden_wire::SessionFault;
use std::alloc::Global;
use std::cell::Cell;
use std::io::{self, ErrorKind, Read, Write};
use std::process::Abort;
use std::rc::Rc;
use test_samples::{ONE_FILE, VERSION_1};

/// What happens once the lines are read.
#[derive(Clone, Copy)]
struct End {
    /// The files' device stops.
    stops: bool,
    /// The next read fails; else the input is at its end.
    fails: bool,
}

/// Lines with their end, and how many calls on the files still pass.
#[derive(Drop)]
struct Lines {
    left: &'static [u8],
    end: End,
    calls: Rc<Cell<u64>>,
}

impl Read for Lines {
    fn read(&mut self, buf: &mut [u8]) -> io::Result<usize> {
        if self.left.is_empty() {
            if self.end.stops {
                self.calls.set(0);
            }
            if self.end.fails {
                return Err(io::Error::from(ErrorKind::ConnectionReset));
            }
        }
        self.left.read(buf)
    }
}

/// A writer that fails.
#[derive(Drop)]
struct Gone;

impl Write for Gone {
    fn write(&mut self, _buf: &[u8]) -> io::Result<usize> {
        Err(io::Error::from(ErrorKind::ConnectionReset))
    }

    fn flush(&mut self) -> io::Result<()> {
        Ok(())
    }
}

const CHANGE: Life = Life {
    root: ONE_FILE,
    opening: Opening::Closed,
    history: Some(1_000),
    input: "write /test.txt 12 21\n",
    said: "count 1\n",
    asked: &[ONE_FILE, VERSION_1],
};

/// The change is there, and nothing is fetched for it.
const AGAIN: Life = Life {
    root: ONE_FILE,
    opening: Opening::Closed,
    history: Some(1_000),
    input: "read /test.txt 0 100\n",
    said: "data 13 76657273696f6e20310a000021\n",
    asked: &[],
};

const CLOSED: Sizes = &[(0, 92), (1, 87), (2, 77)];

const UNCLOSED: Sizes = &[(1, 87), (2, 77)];

/// How the life with the one change ends, if its lines end so, and the files that it leaves.
#[derive(Clone, Copy)]
pub(crate) struct Row {
    end: End,
    fate: Fate,
    files: Sizes,
}

const READ_FAILS: Row = Row {
    end: End {
        stops: false,
        fails: true,
    },
    fate: Fate {
        outcome: Err(LifeFault::Session(SessionFault::Read)),
        unclosed: None,
    },
    files: CLOSED,
};

pub(crate) const DEVICE_STOPS: Row = Row {
    end: End {
        stops: true,
        fails: false,
    },
    fate: Fate {
        outcome: Err(LifeFault::Close(FilesFault::Device)),
        unclosed: Some(FilesFault::Device),
    },
    files: UNCLOSED,
};

/// The session's fault is told, and that of the close beside it.
const BOTH: Row = Row {
    end: End {
        stops: true,
        fails: true,
    },
    fate: Fate {
        outcome: Err(LifeFault::Session(SessionFault::Read)),
        unclosed: Some(FilesFault::Device),
    },
    files: UNCLOSED,
};

/// Lives the life with the one change as the row says, and gives the files, of which the device works again.
pub(crate) fn changed(rt: &impl Abort, alloc: Global, row: Row) -> Stored {
    let calls = Rc::new(alloc, Cell::new(u64::MAX)).expect(rt, "memory");
    let shared = calls.clone().expect(rt, "memory");
    let files = StopFiles::new(MemoryFiles::new(alloc), shared);
    let mut reader = Lines {
        left: CHANGE.input.as_bytes(),
        end: row.end,
        calls,
    };
    let mut files = lived(rt, alloc, files, &CHANGE, &mut reader, row.fate).into_files();
    assert!(rt; are_there(alloc, &mut files, row.files));
    files
}

#[test]
fn a_failed_read_keeps_the_changes(rt: HostRuntime) {
    let files = changed(&rt, rt.alloc(), READ_FAILS);
    closed(&rt, rt.alloc(), files, &AGAIN);
}

#[test]
fn a_failed_write_keeps_the_changes(rt: HostRuntime) {
    let mut reader = CHANGE.input.as_bytes();
    let files = MemoryFiles::new(rt.alloc());
    let backing = over(&rt, rt.alloc(), files);
    let ending = ending(&rt, rt.alloc(), backing, &CHANGE, &mut reader, &mut Gone);
    let fate = Fate {
        outcome: Err(LifeFault::Session(SessionFault::Write)),
        unclosed: None,
    };
    let mut files = left(&rt, ending, &CHANGE, fate);
    assert!(rt; are_there(rt.alloc(), &mut files, CLOSED));
    closed(&rt, rt.alloc(), files, &AGAIN);
}

#[test]
fn a_failed_close_leaves_the_files_without_their_state(rt: HostRuntime) {
    for row in [DEVICE_STOPS, BOTH] {
        let files = changed(&rt, rt.alloc(), row);
        let base = (ONE_FILE, Opening::Closed);
        check_refused(&rt, rt.alloc(), files, base, OpenFault::NotClean);
    }
}
