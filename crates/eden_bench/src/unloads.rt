// Directories of the commit that were looked into and go, each with the numbers of its entries saved in a file; and, to
// be run over other files, as many stores of files of that size.
ghost use Rattle.eden_object.specs.Trees.{NamesDiffer};

use crate::bench::{Bench, Part};
use crate::inodes::{FIRST, Table, entries, load, table};
use crate::keeps::Keeps;
use crate::name::names;
use crate::tree::Order;
use eden_model::{Name, Outside, TreeEntry};
use eden_overlay::{Files, Overlay};
use eden_overlay_format::Spliced;
use std::alloc::Global;
use std::io;
use std::slice::from_ref;

/// How many files each of the directories has.
const FILES: u32 = 8;

/// The bytes of such a directory's file: a header, the object's id, the count, and entries with names of 14 bytes.
const SIZE: usize = HEADER + 20 + 4 + 8 * (31 + 14);

/// The bytes of a stored file's header, which has the digest of what is after it.
const HEADER: usize = 64;

/// What such a file has after its header.
const CONTENT: &[u8; SIZE - HEADER] = &[0x2a; SIZE - HEADER];

const LOADED: Part = Part {
    before: "  directories loaded: ",
    after: "",
    time: "load, a directory",
};

const SAVED: Part = Part {
    before: "  directories unloaded, their numbers saved: ",
    after: "",
    time: "unload, a directory",
};

const LOADED_AGAIN: Part = Part {
    before: "  directories loaded with saved numbers: ",
    after: "",
    time: "load, a directory",
};

const SAVED_BEFORE: Part = Part {
    before: "  directories unloaded, their numbers saved before: ",
    after: "",
    time: "unload, a directory",
};

const STORED: Part = Part {
    before: "  files stored: ",
    after: "",
    time: "store, a file",
};

/// Loads the root and each directory in it, and answers how many are loaded.
fn load_all<F: Files<Outside>>(
    alloc: Global,
    table: &mut Table<F>,
    names: &[Name],
    above: &[TreeEntry],
    below: &[TreeEntry],
) -> u64
    requires above { NamesDiffer above.now }
    requires below { NamesDiffer below.now }
{
    let mut loaded = u64::from(load(alloc, table, &[], above));
    for name in names {
        loaded = loaded.saturating_add(u64::from(load(alloc, table, from_ref(name), below)));
    }
    loaded
}

/// Loads all and unloads it, and prints both.
fn measure<F: Files<Outside>>(
    bench: Bench,
    table: &mut Table<F>,
    names: &[Name],
    above: &[TreeEntry],
    below: &[TreeEntry],
    loads: Part,
    goes: Part,
) -> io::Result<()>
    requires above { NamesDiffer above.now }
    requires below { NamesDiffer below.now }
{
    let count = u32::try_from(names.len()).unwrap_or(u32::MAX);
    let start = bench.start();
    let loaded = load_all(bench.alloc(), table, names, above, below);
    bench.tell(loads, loaded, start, count)?;
    let start = bench.start();
    let gone = table.unload(bench.alloc(), &[], 0).count;
    bench.tell(goes, gone, start, count)
}

/// Stores that content as this many files, and answers how many were stored. Their numbers are those that the
/// directories have.
fn store_all<F: Files<Outside>>(
    alloc: Global,
    overlay: &mut Overlay<Outside, F>,
    content: &[u8; SIZE - HEADER],
    count: u32,
) -> u32 {
    let mut stored = 0u32;
    for place in 0..count {
        if overlay
            .put_file(alloc, FIRST + u64::from(place), Spliced::whole(content))
            .is_ok()
        {
            stored = stored.saturating_add(1);
        }
    }
    stored
}

/// As many files of that size, stored one after another.
fn measure_stores<F: Files<Outside>>(bench: Bench, files: F, count: u32) -> io::Result<()> {
    let mut overlay = Overlay::new(bench.alloc(), files);
    let start = bench.start();
    let stored = store_all(bench.alloc(), &mut overlay, CONTENT, count);
    bench.tell(STORED, u64::from(stored), start, count)
}

/// Loads and unloads a root and its directories twice: the first time their numbers are saved.
fn measure_twice<F: Files<Outside>>(
    bench: Bench,
    table: &mut Table<F>,
    names: &[Name],
    above: &[TreeEntry],
    below: &[TreeEntry],
) -> io::Result<()>
    requires above { NamesDiffer above.now }
    requires below { NamesDiffer below.now }
{
    measure(bench, table, names, above, below, LOADED, SAVED)?;
    measure(
        bench,
        table,
        names,
        above,
        below,
        LOADED_AGAIN,
        SAVED_BEFORE,
    )
}

/// Loads and unloads a root and this many directories in it.
fn measure_table<F: Files<Outside>>(
    bench: Bench,
    table: &mut Table<F>,
    count: u32,
) -> io::Result<()> {
    let above = entries(bench.alloc(), Order::Directories, count)?;
    let below = entries(bench.alloc(), Order::Git, FILES)?;
    let names = names(bench.alloc(), count, 1, count)?;
    measure_twice(
        bench,
        table,
        names.as_slice(),
        above.as_slice(),
        below.as_slice(),
    )
}

/// A root with this many directories over the files that are kept there.
pub fn run<F: Files<Outside>, K: Keeps<F>>(bench: Bench, keeps: &K, count: u32) -> io::Result<()> {
    println!(bench.rt; "{count} directories of {FILES} files, each stored in {SIZE} bytes")?;
    let mut table = table(bench.alloc(), keeps)?;
    measure_table(bench, &mut table, count)
}

/// This many files of the size of such a directory's, over the files that are kept there.
pub fn run_stores<F: Files<Outside>, K: Keeps<F>>(
    bench: Bench,
    keeps: &K,
    count: u32,
) -> io::Result<()> {
    println!(bench.rt; "{count} files of {SIZE} bytes")?;
    measure_stores(bench, keeps.files(bench.alloc())?, count)
}
