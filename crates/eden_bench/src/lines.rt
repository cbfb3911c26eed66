// The line protocol: lines that are read into requests, and replies whose texts are written.
use crate::bench::{Bench, Part};
use eden_model::{Bytes, Kind, Reply};
use eden_wire::{Item, Scratch, read_request, write_reply};
use std::alloc::{AllocError, Global};
use std::io;
use std::io::Write;

/// The bytes that a request reads or writes.
const PAGE: usize = 4_096;

/// Counts the bytes that it takes.
#[derive(Drop)]
struct Counter {
    bytes: u64,
}

impl Write for Counter {
    fn write(&mut self, buf: &[u8]) -> io::Result<usize> {
        self.bytes = self.bytes.saturating_add(buf.len() as u64);
        Ok(buf.len())
    }

    fn flush(&mut self) -> io::Result<()> {
        Ok(())
    }
}

/// Whether the line is a request's.
fn asks(alloc: Global, line: &[u8]) -> bool {
    let item = read_request(alloc, line);
    let is_request = matches!(&item, Ok(Item::Asks(_)));
    drop(item);
    is_request
}

/// How many of the readings found a request.
fn read_again(alloc: Global, line: &[u8], rounds: u32) -> u32 {
    let mut found = 0u32;
    for _ in 0..rounds {
        if asks(alloc, line) {
            found = found.saturating_add(1);
        }
    }
    found
}

/// How many bytes the texts took.
fn write_again(alloc: Global, reply: &Reply, rounds: u32) -> Result<u64, AllocError> {
    let mut scratch = Scratch::new(alloc)?;
    let mut counter = Counter { bytes: 0 };
    for _ in 0..rounds {
        // What only counts doesn't fail.
        let _ = write_reply(&mut counter, &mut scratch, reply);
    }
    Ok(counter.bytes)
}

/// A request's line is read so often, and its reply's text written.
fn exchange(bench: Bench, name: &str, line: &[u8], reply: &Reply, rounds: u32) -> io::Result<()> {
    let lines = Part {
        before: name,
        after: " lines read",
        time: "a line",
    };
    let texts = Part {
        before: name,
        after: " bytes of texts written",
        time: "a text",
    };
    let start = bench.start();
    let found = read_again(bench.alloc(), line, rounds);
    bench.tell(lines, u64::from(found), start, rounds)?;
    let start = bench.start();
    let bytes = write_again(bench.alloc(), reply, rounds)?;
    bench.tell(texts, bytes, start, rounds)
}

/// The line that writes a page.
fn writing(alloc: Global) -> Result<Vec<u8>, AllocError> {
    let mut line = Vec::from_slice(alloc, b"write /folder/file.txt 0 ".as_slice())?;
    for _ in 0..PAGE {
        line.extend_from_slice(b"2a")?;
    }
    Ok(line)
}

/// A page that is read.
fn measure_reading(bench: Bench, count: u32) -> io::Result<()> {
    let page = Reply::Data(Bytes::new(Vec::from_elem(bench.alloc(), 0x2a, PAGE)?));
    let line = b"read /folder/file.txt 0 4096";
    exchange(bench, "read of 4 KB: ", line, &page, count)
}

/// A page that is written.
fn measure_writing(bench: Bench, count: u32) -> io::Result<()> {
    let line = writing(bench.alloc())?;
    let written = Reply::Count(PAGE as u64);
    exchange(bench, "write of 4 KB: ", line.as_slice(), &written, count)
}

/// A kind that is asked for.
fn measure_kinds(bench: Bench, count: u32) -> io::Result<()> {
    let kind = Reply::Kind(Kind::File);
    exchange(bench, "kind: ", b"kind /folder/file.txt", &kind, count)
}

/// Reads and writes this many of each of three requests: a kind, a page that is read, and a page that is written.
pub fn run(bench: Bench, count: u32) -> io::Result<()> {
    measure_kinds(bench, count)?;
    measure_reading(bench, count)?;
    measure_writing(bench, count)
}
