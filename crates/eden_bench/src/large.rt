// An own file that is written in pieces from nothing, and read in pages.
use crate::bench::Bench;
use crate::checkout::{Tree, Use, is_used, opened};
use crate::keeps::Keeps;
use eden_model::Outside;
use eden_overlay::Files;
use std::alloc::{AllocError, Global};
use std::io;

/// How many bytes a page and a piece have: the most that a request reads or writes.
const PIECE: u32 = 65_536;

/// How many pieces a MiB has.
const PIECES: u32 = 16;

const LARGE: u64 = 1;

const SMALL: u64 = 2;

/// What is done with the pieces of the file.
#[derive(Clone, Copy)]
enum Way {
    Written,
    Read,
}

/// The use of one piece of the file.
fn used(way: Way, piece: u32) -> Use {
    let offset = u64::from(piece) * u64::from(PIECE);
    match way {
        Way::Written => Use::Write(offset, PIECE as usize),
        Way::Read => Use::Read(offset, u64::from(PIECE)),
    }
}

/// Uses the first pieces of the file in their order, and answers of how many it was done.
fn use_pieces<F: Files<Outside>>(
    alloc: Global,
    tree: &mut Tree<F>,
    way: Way,
    pieces: u32,
) -> Result<u32, AllocError> {
    let mut done = 0u32;
    for piece in 0..pieces {
        if is_used(alloc, tree, LARGE, used(way, piece))? {
            done = done.saturating_add(1);
        }
    }
    Ok(done)
}

fn measure<F: Files<Outside>>(
    bench: Bench,
    tree: &mut Tree<F>,
    part: &str,
    way: Way,
    pieces: u32,
) -> io::Result<()> {
    let start = bench.start();
    let done = use_pieces(bench.alloc(), tree, way, pieces)?;
    println!(bench.rt; "  {part}: {done}")?;
    bench.time(part, start)
}

/// Writes the file, this many pieces.
fn write<F: Files<Outside>>(bench: Bench, tree: &mut Tree<F>, pieces: u32) -> io::Result<()> {
    if is_used(bench.alloc(), tree, LARGE, Use::Create)? {
        measure(bench, tree, "written in pieces", Way::Written, pieces)
    } else {
        Ok(())
    }
}

/// Reads the file, this many pieces, the first of them after another file's turn.
fn read<F: Files<Outside>>(bench: Bench, tree: &mut Tree<F>, pieces: u32) -> io::Result<()> {
    if is_used(bench.alloc(), tree, SMALL, Use::Create)? {
        measure(bench, tree, "the first page", Way::Read, 1)?;
        measure(bench, tree, "all pages", Way::Read, pieces)
    } else {
        Ok(())
    }
}

/// Writes and reads a file of this many MiB.
fn run_on<F: Files<Outside>>(bench: Bench, tree: &mut Tree<F>, count: u32) -> io::Result<()> {
    let pieces = count.saturating_mul(PIECES);
    println!(bench.rt; "an own file of {count} MiB")?;
    write(bench, tree, pieces)?;
    read(bench, tree, pieces)
}

/// A file over the files that are kept there.
pub fn run<F: Files<Outside>, K: Keeps<F>>(bench: Bench, keeps: &K, count: u32) -> io::Result<()> {
    let files = keeps.files(bench.alloc())?;
    match opened(bench.alloc(), files, 1)? {
        None => println!(bench.rt; "not opened"),
        Some(mut tree) => {
            let told = run_on(bench, &mut tree, count);
            drop(tree);
            told
        }
    }
}
