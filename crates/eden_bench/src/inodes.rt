// The table of inodes: directories that are loaded, beside the reading of their entries, and unloaded; looks along
// paths.
ghost use Rattle.std.specs.Prelude.{IfOk};
ghost use Rattle.eden_coupling.specs.Loading.{IsAt};
ghost use Rattle.eden_model.specs.declared.id.Id as id;
ghost use Rattle.eden_model.specs.declared.kind.Origin.TheVariants as origin;
ghost use Rattle.eden_object.specs.Trees.{NamesDiffer};

use crate::bench::{Bench, Part};
use crate::keeps::{InMemory, Keeps};
use crate::name::chain;
use crate::tree::{ID, Order, tree_body};
use eden_inode::Inodes;
use eden_model::{Name, Origin, Outside, TreeEntry};
use eden_object::decode_tree;
use eden_overlay::{Files, MemoryFiles, Overlay};
use eden_tree::Entry;
use std::alloc::{AllocError, Global};
use std::io;
use std::mem::size_of;

/// How many entries are read, loaded and unloaded in all.
const ENTRIES: u32 = 1_000_000;

/// How many looks are timed along a path.
const LOOKS: u32 = 1_000_000;

/// How many directories are loaded one inside the other.
const DEPTH: u32 = 64;

/// How many names the paths have that are looked along, and what is printed of it.
const PATHS: &[(usize, &str)] = &[
    (1, " looks at depth 1 found their entry"),
    (8, " looks at depth 8 found their entry"),
    (64, " looks at depth 64 found their entry"),
];

/// The first number that is given.
pub const FIRST: u64 = 2;

const READ: Part = Part {
    before: "  entries read: ",
    after: "",
    time: "decode_tree, an entry",
};

const LOADED: Part = Part {
    before: "  entries loaded: ",
    after: "",
    time: "load, an entry",
};

const UNLOADED: Part = Part {
    before: "  directories unloaded: ",
    after: "",
    time: "unload, an entry",
};

/// A table of inodes over such files.
pub type Table<F> = Inodes<Global, Outside, F>;

/// A table over files in memory.
type Kept = Table<MemoryFiles<Outside>>;

/// A table whose root is an object and isn't loaded.
pub fn table<F: Files<Outside>, K: Keeps<F>>(
    alloc: Global,
    keeps: &K,
) -> Result<Table<F>, AllocError> {
    let overlay = Overlay::new(alloc, keeps.files(alloc)?);
    Ok(Inodes::new(alloc, overlay, Origin::Object(ID), FIRST))
}

/// This many tables whose roots are objects and aren't loaded.
pub fn tables<F: Files<Outside>, K: Keeps<F>>(
    alloc: Global,
    keeps: &K,
    count: u32,
) -> Result<Vec<Table<F>>, AllocError> {
    let mut tables = Vec::new(alloc);
    for _ in 0..count {
        tables.push(table(alloc, keeps)?)?;
    }
    Ok(tables)
}

/// The entries of a tree's body; none if it is no tree's.
fn entries_of(alloc: Global, body: &[u8]) -> Result<Vec<TreeEntry>, AllocError>
    ensures { IfOk result (λ v. NamesDiffer v.items) }
{
    match decode_tree(alloc, body)? {
        None => Ok(Vec::new(alloc)),
        Some(entries) => Ok(entries),
    }
}

/// This many entries, as the order says.
pub fn entries(alloc: Global, order: Order, count: u32) -> Result<Vec<TreeEntry>, AllocError>
    ensures { IfOk result (λ v. NamesDiffer v.items) }
{
    let body = tree_body(alloc, order, count)?;
    entries_of(alloc, body.as_slice())
}

/// How many entries the readings found.
fn read_again(alloc: Global, body: &[u8], rounds: u32) -> usize {
    let mut found = 0usize;
    for _ in 0..rounds {
        if let Ok(entries) = entries_of(alloc, body) {
            found = found.saturating_add(entries.len());
        }
    }
    found
}

/// Loads the directory of a tree object as a mount does: with the numbers saved for it, or from those entries. False if
/// memory is refused, or the files fail.
fn load_either<F: Files<Outside>>(
    alloc: Global,
    table: &mut Table<F>,
    path: &[Name],
    entries: &[TreeEntry],
) -> bool
    requires at { (i : id.Id) × IsAt path.now table.old.root (origin.Object i) }
    requires differ { NamesDiffer entries.now }
{
    let saved = match table.numbered(alloc, path) {
        Ok(saved) => saved,
        Err(_) => return false,
    };
    let loaded = if saved {
        table.load(alloc, path, None)
    } else {
        table.load(alloc, path, Some(entries))
    };
    loaded.is_ok()
}

/// Loads the directory at a path from those entries. False if none is there that a tree object has, or if memory is
/// refused.
pub fn load<F: Files<Outside>>(
    alloc: Global,
    table: &mut Table<F>,
    path: &[Name],
    entries: &[TreeEntry],
) -> bool
    requires { NamesDiffer entries.now }
{
    match table.missing(path) {
        None => false,
        Some(_) => load_either(alloc, table, path, entries),
    }
}

/// Loads a directory of those entries for each of the names, if those before it lead, and answers how many were.
pub fn nest<F: Files<Outside>>(
    alloc: Global,
    table: &mut Table<F>,
    names: &[Name],
    entries: &[TreeEntry],
) -> u32
    requires { NamesDiffer entries.now }
{
    let mut loaded = 0u32;
    for depth in 0..names.len() {
        if load(alloc, table, &names[..depth], entries) {
            loaded = loaded.saturating_add(1);
        }
    }
    loaded
}

/// Loads the root of each table from those entries, and answers how many numbers were given.
fn load_all(alloc: Global, tables: &mut [Kept], entries: &[TreeEntry]) -> u64
    requires { NamesDiffer entries.now }
{
    let mut given = 0u64;
    for table in tables {
        if load(alloc, table, &[], entries) {
            given = given.saturating_add(table.next_number().saturating_sub(FIRST));
        }
    }
    given
}

/// Unloads all of each table, and answers how many directories went.
fn unload_all(alloc: Global, tables: &mut [Kept]) -> u64 {
    let mut gone = 0u64;
    for table in tables {
        gone = gone.saturating_add(table.unload(alloc, &[], 0).count);
    }
    gone
}

/// How often this many have to be taken, at least once, to be about as many in all.
pub fn rounds(all: u32, count: u32) -> u32 {
    all.checked_div(count).unwrap_or(all).max(1)
}

/// Reads the entries of a tree's body, this many in all.
fn measure_reads(bench: Bench, body: &[u8], rounds: u32, all: u32) -> io::Result<()> {
    let start = bench.start();
    let found = read_again(bench.alloc(), body, rounds);
    bench.tell(READ, found as u64, start, all)
}

/// Loads the root of each table from those entries, this many in all, and unloads it.
fn measure_tables(
    bench: Bench,
    tables: &mut [Kept],
    entries: &[TreeEntry],
    all: u32,
) -> io::Result<()>
    requires { NamesDiffer entries.now }
{
    let start = bench.start();
    let given = load_all(bench.alloc(), tables, entries);
    bench.tell(LOADED, given, start, all)?;
    let start = bench.start();
    let gone = unload_all(bench.alloc(), tables);
    bench.tell(UNLOADED, gone, start, all)
}

/// Loads the root of this many tables from those entries, and unloads it.
fn measure_loads(bench: Bench, entries: &[TreeEntry], rounds: u32, all: u32) -> io::Result<()>
    requires { NamesDiffer entries.now }
{
    let mut tables = tables(bench.alloc(), &InMemory, rounds)?;
    measure_tables(bench, tables.as_mut_slice(), entries, all)
}

/// Directories of the entries of a tree's body.
fn measure_body(bench: Bench, body: &[u8], rounds: u32, all: u32) -> io::Result<()> {
    measure_reads(bench, body, rounds, all)?;
    let entries = entries_of(bench.alloc(), body)?;
    measure_loads(bench, entries.as_slice(), rounds, all)
}

/// Directories of this many entries, which stand in that order.
fn measure_directory(bench: Bench, order: Order, count: u32) -> io::Result<()> {
    let rounds = rounds(ENTRIES, count);
    let text = order.text();
    println!(bench.rt; "directories of {count} entries in {text}, {rounds} of them")?;
    let body = tree_body(bench.alloc(), order, count)?;
    measure_body(bench, body.as_slice(), rounds, rounds.saturating_mul(count))
}

/// How many of the looks found an entry under the last name.
fn look_again(table: &mut Kept, path: &[Name]) -> u32 {
    let mut found = 0u32;
    for _ in 0..LOOKS {
        if table.look(path).names == path.len() {
            found = found.saturating_add(1);
        }
    }
    found
}

/// Looks along the first names of several numbers.
fn measure_looks(bench: Bench, table: &mut Kept, names: &[Name]) -> io::Result<()> {
    for (depth, after) in PATHS {
        let looks = Part {
            before: "",
            after,
            time: "a look",
        };
        let path = &names[..names.len().min(*depth)];
        let start = bench.start();
        let found = look_again(table, path);
        bench.tell(looks, u64::from(found), start, LOOKS)?;
    }
    Ok(())
}

/// Looks along paths of several lengths, through directories of these entries.
fn measure_nested(bench: Bench, table: &mut Kept, entries: &[TreeEntry]) -> io::Result<()>
    requires { NamesDiffer entries.now }
{
    let names = chain(bench.alloc(), DEPTH)?;
    let loaded = nest(bench.alloc(), table, names.as_slice(), entries);
    println!(bench.rt; "{loaded} directories nested")?;
    measure_looks(bench, table, names.as_slice())
}

/// Looks along paths of several lengths, through directories of one entry each.
fn measure_paths(bench: Bench) -> io::Result<()> {
    let entries = entries(bench.alloc(), Order::Chain(ID), 1)?;
    let mut table = table(bench.alloc(), &InMemory)?;
    measure_nested(bench, &mut table, entries.as_slice())
}

/// Reads, loads and unloads directories of this many entries, in Git's order and in a random one, and looks along
/// paths.
pub fn run(bench: Bench, count: u32) -> io::Result<()> {
    measure_directory(bench, Order::Git, count)?;
    measure_directory(bench, Order::Random, count)?;
    measure_paths(bench)?;
    let bytes = size_of::<(Name, Entry<Global>)>();
    println!(bench.rt; "a loaded entry takes {bytes} bytes and its name's")
}
