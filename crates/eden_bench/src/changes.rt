// The first change below directories that are objects, which stores the chain above it, and the second change there.
ghost use Rattle.std.specs.Prelude.{◌≢◌, IsTrue};
ghost use Rattle.eden_model.specs.declared.kind.Kind.TheVariants as kinds;
ghost use Rattle.eden_object.specs.Trees.{NamesDiffer};
ghost use Rattle.eden_tree.specs.Directory.{Row};
ghost use Rattle.eden_coupling.specs.Filing.{HasFile};

use crate::bench::{Bench, Part};
use crate::inodes::{Table, entries, nest, rounds, tables};
use crate::keeps::Keeps;
use crate::name::{chain, name};
use crate::tree::{ID, Order};
use eden_materialise::set_kind;
use eden_model::{Kind, Name, Outside, TreeEntry};
use eden_overlay::Files;
use std::alloc::{AllocError, Global};
use std::io;

/// How many names the changed paths have.
const DEPTHS: &[u32] = &[1, 8, 64];

const FIRST: Part = Part {
    before: "  first changes: ",
    after: "",
    time: "the first change",
};

const SECOND: Part = Part {
    before: "  second changes: ",
    after: "",
    time: "the second change",
};

/// Whether the loaded directory at a path has a file of that name.
fn has_file<F: Files<Outside>>(table: &Table<F>, path: &[Name], name: &Name) -> bool
    ensures { IsTrue result → (w : Row) × HasFile table.now.root path.now name.now w }
{
    match table.directory(path) {
        None => false,
        Some(dir) => match dir.get(name) {
            None => false,
            Some(entry) => entry.kind != Kind::Dir && entry.directory().is_none(),
        },
    }
}

/// Gives the file of the table that kind. False if there is none, or if that fails.
fn change<F: Files<Outside>>(
    alloc: Global,
    table: &mut Table<F>,
    path: &[Name],
    name: &Name,
    kind: Kind,
) -> bool
    requires { kind ≢ kinds.Dir }
{
    has_file(table, path, name) && set_kind(table, alloc, path, name, kind).is_ok()
}

/// Gives the file of each table that kind, and answers of how many it was given.
fn change_all<F: Files<Outside>>(
    alloc: Global,
    tables: &mut [Table<F>],
    path: &[Name],
    name: &Name,
    kind: Kind,
) -> u32
    requires { kind ≢ kinds.Dir }
{
    let mut changed = 0u32;
    for table in tables {
        changed = changed.saturating_add(u32::from(change(alloc, table, path, name, kind)));
    }
    changed
}

/// Gives the file of each table that kind.
fn measure<F: Files<Outside>>(
    bench: Bench,
    tables: &mut [Table<F>],
    path: &[Name],
    name: &Name,
    kind: Kind,
    part: Part,
) -> io::Result<()>
    requires { kind ≢ kinds.Dir }
{
    let start = bench.start();
    let changed = change_all(bench.alloc(), tables, path, name, kind);
    bench.tell(part, u64::from(changed), start, changed)
}

/// Changes the file of each table for the first time, and again.
fn measure_both<F: Files<Outside>>(
    bench: Bench,
    tables: &mut [Table<F>],
    path: &[Name],
    name: &Name,
) -> io::Result<()> {
    measure(bench, tables, path, name, Kind::Exec, FIRST)?;
    measure(bench, tables, path, name, Kind::File, SECOND)
}

/// Changes a file of each table, twice.
fn measure_file<F: Files<Outside>>(
    bench: Bench,
    tables: &mut [Table<F>],
    path: &[Name],
) -> io::Result<()> {
    match name(bench.alloc(), 1)? {
        None => println!(bench.rt; "  no name"),
        Some(name) => measure_both(bench, tables, path, &name),
    }
}

/// Loads a chain of directories along the names into each table.
fn nest_all<F: Files<Outside>>(
    alloc: Global,
    tables: &mut [Table<F>],
    names: &[Name],
    entries: &[TreeEntry],
)
    requires { NamesDiffer entries.now }
{
    for table in tables {
        nest(alloc, table, names, entries);
    }
}

/// Loads a chain of directories along the names into each table, each of this many entries. How many those are.
fn load_chains<F: Files<Outside>>(
    alloc: Global,
    tables: &mut [Table<F>],
    names: &[Name],
    count: u32,
) -> Result<usize, AllocError> {
    let entries = entries(alloc, Order::Chain(ID), count)?;
    nest_all(alloc, tables, names, entries.as_slice());
    Ok(entries.len())
}

/// Changes a file of each table below the names, in directories of this many entries.
fn measure_tables<F: Files<Outside>>(
    bench: Bench,
    tables: &mut [Table<F>],
    names: &[Name],
    count: u32,
) -> io::Result<()> {
    let entries = load_chains(bench.alloc(), tables, names, count)?;
    let depth = names.len();
    println!(bench.rt; "changes at depth {depth}, directories of {entries} entries")?;
    measure_file(bench, tables, &names[..depth.saturating_sub(1)])
}

/// Changes a file below this many names, in directories of this many entries.
fn measure_depth<F: Files<Outside>, K: Keeps<F>>(
    bench: Bench,
    keeps: &K,
    depth: u32,
    count: u32,
) -> io::Result<()> {
    let rounds = rounds(keeps.entries(), depth.saturating_mul(count));
    let names = chain(bench.alloc(), depth)?;
    let mut tables = tables(bench.alloc(), keeps, rounds)?;
    measure_tables(bench, tables.as_mut_slice(), names.as_slice(), count)
}

/// The first change and the second one, at several depths in directories of this many entries.
pub fn run<F: Files<Outside>, K: Keeps<F>>(bench: Bench, keeps: &K, count: u32) -> io::Result<()> {
    for depth in DEPTHS {
        measure_depth(bench, keeps, *depth, count)?;
    }
    Ok(())
}
