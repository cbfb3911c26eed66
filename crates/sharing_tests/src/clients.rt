//! Clients in memory: each says its lines one after another, and notes when a line was handed out and when the last
//! byte of its reply was written. All continue about as fast as each other.

use eden_host::Accepts;
use std::alloc::Global;
use std::io::{self, ErrorKind, Read, Write};
use std::sync::atomic::{AtomicU64, Ordering};
use std::sync::{Condvar, Mutex, Wait};

/// A line isn't handed out before all but this many of those in front of it were answered.
const AHEAD: u64 = 24;

/// A line, and how many lines of all clients are in front of it.
#[derive(Drop)]
pub(crate) struct Line {
    pub(crate) place: u64,
    /// With its line feed.
    pub(crate) text: Vec<u8>,
}

/// What a client says, and what it heard so far.
#[derive(Drop)]
pub(crate) struct Client {
    pub(crate) lines: Vec<Line>,
    pub(crate) heard: Mutex<Heard>,
}

/// What all clients share: a clock, and how many lines were answered.
#[derive(Drop)]
pub(crate) struct Pace {
    pub(crate) clock: AtomicU64,
    answered: Mutex<u64>,
    moved: Condvar,
}

impl Pace {
    pub(crate) fn new() -> Pace {
        Pace {
            clock: AtomicU64::new(0),
            answered: Mutex::new(0),
            moved: Condvar::new(),
        }
    }

    /// The time. No two calls are told the same.
    pub(crate) fn now(&self) -> u64 {
        self.clock.fetch_add(1, Ordering::SeqCst)
    }

    /// Waits until a line at that place may be handed out.
    fn wait_for(&self, rt: &impl Wait, place: u64) {
        let answered = self.answered.lock(rt);
        self.moved
            .wait_while(rt, answered, |count| count.saturating_add(AHEAD) < place);
    }

    /// One line more was answered.
    fn go_on(&self, rt: &impl Wait) {
        let mut answered = self.answered.lock(rt);
        *answered = answered.saturating_add(1);
        self.moved.notify_all();
    }
}

/// What a client heard, and when, by a clock of all clients.
#[derive(Drop)]
pub(crate) struct Heard {
    /// When each line was handed out.
    pub(crate) asked: Vec<u64>,
    /// When each reply's line feed was written.
    pub(crate) told: Vec<u64>,
    pub(crate) text: Vec<u8>,
}

impl Client {
    /// A client that says nothing yet.
    pub(crate) fn new(alloc: Global) -> Client {
        let heard = Heard {
            asked: Vec::new(alloc),
            told: Vec::new(alloc),
            text: Vec::new(alloc),
        };
        Client {
            lines: Vec::new(alloc),
            heard: Mutex::new(heard),
        }
    }
}

impl Heard {
    /// More of the texts. Whether it ends a reply's.
    fn hear(&mut self, text: &[u8], pace: &Pace) -> io::Result<bool> {
        self.text.extend_from_slice(text)?;
        let is_end = text.ends_with(b"\n");
        if is_end {
            self.told.push(pace.now())?;
        }
        Ok(is_end)
    }
}

/// What a client says: each read gives one line.
#[derive(Drop)]
pub(crate) struct Asking<'a, R: Wait> {
    rt: &'a R,
    pace: &'a Pace,
    client: &'a Client,
    next: usize,
}

impl<R: Wait> Read for Asking<'_, R> {
    fn read(&mut self, buf: &mut [u8]) -> io::Result<usize> {
        let Some(line) = self.client.lines.get(self.next) else {
            return Ok(0);
        };
        if line.text.len() > buf.len() {
            return Err(io::Error::from(ErrorKind::InvalidInput));
        }
        self.next = self.next.saturating_add(1);
        self.pace.wait_for(self.rt, line.place);
        let mut heard = self.client.heard.lock(self.rt);
        heard.asked.push(self.pace.now())?;
        let mut rest = line.text.as_slice();
        rest.read(buf)
    }
}

/// Where a client is answered.
#[derive(Drop)]
pub(crate) struct Hearing<'a, R: Wait> {
    rt: &'a R,
    pace: &'a Pace,
    client: &'a Client,
}

impl<R: Wait> Write for Hearing<'_, R> {
    fn write(&mut self, buf: &[u8]) -> io::Result<usize> {
        let is_end = self.client.heard.lock(self.rt).hear(buf, self.pace)?;
        if is_end {
            self.pace.go_on(self.rt);
        }
        Ok(buf.len())
    }

    fn flush(&mut self) -> io::Result<()> {
        Ok(())
    }
}

/// Clients that connect one after another.
#[derive(Drop)]
pub(crate) struct Arrivals<'a, R: Wait> {
    pub(crate) rt: &'a R,
    pub(crate) pace: &'a Pace,
    pub(crate) left: &'a [Client],
}

impl<'a, R: Wait> Accepts<Asking<'a, R>, Hearing<'a, R>> for Arrivals<'a, R> {
    fn accept(&mut self) -> Option<(Asking<'a, R>, Hearing<'a, R>)> {
        let (client, left) = self.left.split_first()?;
        self.left = left;
        let asking = Asking {
            rt: self.rt,
            pace: self.pace,
            client,
            next: 0,
        };
        let hearing = Hearing {
            rt: self.rt,
            pace: self.pace,
            client,
        };
        Some((asking, hearing))
    }

    /// What the client hears then shows it: nothing.
    fn close_unserved(&mut self) {}
}
