// The stored file of a directory: its encoding and its decoding.
ghost use Rattle.std.specs.Prelude.{IfOk, IfSome};
ghost use Rattle.std.specs.List.{AllByRecursion};
ghost use Rattle.eden_overlay_format.specs.Directory.{IsStorable};

use crate::bench::{Bench, Part};
use crate::name::name;
use eden_model::{Kind, Name, Origin};
use eden_overlay_format::{StoredEntry, decode_dir, encode_dir, is_rising};
use std::alloc::{AllocError, Global};
use std::io;

/// How many entries are encoded and decoded in all.
const ENTRIES: u32 = 1_000_000;

const DECODED: Part = Part {
    before: "decoded to ",
    after: " entries",
    time: "decode_dir, an entry",
};

/// The plain file of that name and number.
fn entry(name: Name, number: u32) -> StoredEntry
    ensures { IsStorable result }
{
    StoredEntry {
        name,
        kind: Kind::File,
        origin: Origin::Own,
        number: u64::from(number) + 2,
    }
}

/// This many plain files, in byte order.
fn entries(alloc: Global, count: u32) -> Result<Vec<StoredEntry>, AllocError>
    ensures { IfOk result (λ v. AllByRecursion IsStorable v.items) }
{
    let mut entries = Vec::new(alloc);
    for number in 0..count {
        if let Some(name) = name(alloc, u64::from(number))? {
            entries.push(entry(name, number))?;
        }
    }
    Ok(entries)
}

/// The stored file, or none if the entries can't be stored or memory is refused.
fn encoded(alloc: Global, entries: &[StoredEntry]) -> Option<Vec<u8>>
    requires { AllByRecursion IsStorable entries.now }
{
    if entries.len() > u32::MAX as usize || !is_rising(entries) {
        return None;
    }
    encode_dir(alloc, entries).ok()
}

/// How many bytes the encodings took.
fn encode_again(alloc: Global, entries: &[StoredEntry], rounds: u32) -> usize
    requires { AllByRecursion IsStorable entries.now }
{
    let mut bytes = 0usize;
    for _ in 0..rounds {
        if let Some(file) = encoded(alloc, entries) {
            bytes = bytes.saturating_add(file.len());
        }
    }
    bytes
}

/// How many entries the decodings found.
fn decode_again(alloc: Global, file: &[u8], rounds: u32) -> usize {
    let mut found = 0usize;
    for _ in 0..rounds {
        if let Ok(entries) = decode_dir(alloc, file) {
            found = found.saturating_add(entries.len());
        }
    }
    found
}

/// Encodes the stored file of a directory again and again.
fn measure_encoding(
    bench: Bench,
    entries: &[StoredEntry],
    count: u32,
    rounds: u32,
) -> io::Result<()>
    requires { AllByRecursion IsStorable entries.now }
{
    let start = bench.start();
    let bytes = encode_again(bench.alloc(), entries, rounds);
    println!(bench.rt; "a stored directory of {count} entries, {rounds} times: {bytes} bytes")?;
    bench.time_each("encode_dir, an entry", start, rounds.saturating_mul(count))
}

/// Decodes the stored file of a directory again and again.
fn measure_decoding(bench: Bench, file: &[u8], rounds: u32, all: u32) -> io::Result<()> {
    let start = bench.start();
    let found = decode_again(bench.alloc(), file, rounds);
    bench.tell(DECODED, found as u64, start, all)
}

/// Encodes and decodes the stored file of these entries, this many times.
fn measure_both(bench: Bench, entries: &[StoredEntry], count: u32, rounds: u32) -> io::Result<()>
    requires { AllByRecursion IsStorable entries.now }
{
    measure_encoding(bench, entries, count, rounds)?;
    match encoded(bench.alloc(), entries) {
        None => println!(bench.rt; "not encoded"),
        Some(file) => {
            let all = rounds.saturating_mul(count);
            measure_decoding(bench, file.as_slice(), rounds, all)
        }
    }
}

/// Encodes and decodes the stored file of a directory of this many entries, again and again.
pub fn run(bench: Bench, count: u32) -> io::Result<()> {
    let rounds = ENTRIES.checked_div(count).unwrap_or(ENTRIES);
    let entries = entries(bench.alloc(), count)?;
    measure_both(bench, entries.as_slice(), count, rounds)
}
