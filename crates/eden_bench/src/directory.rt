// A directory of many names: inserts in byte order and in another order, and look-ups.
use crate::bench::Bench;
use crate::name::{name, names, turned};
use eden_model::{Kind, Name, Origin};
use eden_tree::{Dir, Entry};
use std::alloc::{AllocError, Global};
use std::io;
use std::mem::size_of;

/// How many look-ups are timed.
const LOOKUPS: u32 = 1_000_000;

/// The names that are looked up, again and again.
const LOOKED_UP: u32 = 1_000;

/// A step that has no factor in common with the counts, which are powers of ten.
const STRIDE: u64 = 48271;

/// Puts in the plain file of that number.
fn insert(alloc: Global, directory: &mut Dir<Global>, number: u64) -> Result<(), AllocError> {
    if let Some(name) = name(alloc, number)? {
        let entry = Entry {
            number: number.saturating_add(2),
            kind: Kind::File,
            origin: Origin::Own,
            child: None,
        };
        let _ = directory.insert(name, entry);
    }
    Ok(())
}

/// How many of the look-ups found an entry.
fn found(directory: &Dir<Global>, names: &[Name]) -> u32 {
    let mut found = 0u32;
    for _ in 0..LOOKUPS / LOOKED_UP {
        for name in names {
            if directory.get(name).is_some() {
                found = found.saturating_add(1);
            }
        }
    }
    found
}

/// Puts this many plain files into a directory, by that stride.
fn measure_inserts(
    bench: Bench,
    directory: &mut Dir<Global>,
    count: u32,
    stride: u64,
) -> io::Result<()> {
    let start = bench.start();
    for turn in 0..count {
        insert(bench.alloc(), directory, turned(turn, stride, count))?;
    }
    let filled = directory.count();
    println!(bench.rt; "directory of {filled} names, put in by steps of {stride}")?;
    bench.time("inserts", start)
}

/// Looks names up in a directory of this many.
fn measure_lookups(bench: Bench, directory: &Dir<Global>, count: u32) -> io::Result<()> {
    let names = names(bench.alloc(), LOOKED_UP, STRIDE, count)?;
    let start = bench.start();
    let found = found(directory, names.as_slice());
    bench.time("look-ups", start)?;
    let bytes = size_of::<(Name, Entry<Global>)>();
    println!(bench.rt;
        "{found} look-ups found their entry; an entry takes {bytes} bytes and its name's"
    )
}

/// Fills a directory of this many names in byte order and looks names up in it, and fills one in another order if the
/// names are at most 100,000: each such insert moves those after it.
pub fn run(bench: Bench, count: u32) -> io::Result<()> {
    let mut directory = Dir::new(bench.alloc(), 0);
    measure_inserts(bench, &mut directory, count, 1)?;
    measure_lookups(bench, &directory, count)?;
    if count > 100_000 {
        return Ok(());
    }
    let mut directory = Dir::new(bench.alloc(), 0);
    measure_inserts(bench, &mut directory, count, STRIDE)
}
