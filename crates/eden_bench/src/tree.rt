// A tree object of many entries, in Git's order and in a random one: its checking and its entries, beside its digest.
ghost use Rattle.std.specs.Prelude.{◌≡◌};
ghost use Rattle.eden_model.specs.declared.id.ObjKind.TheVariants as kinds;

use crate::bench::Bench;
use eden_model::{Id, Key, ObjKind};
use eden_object::{Object, id_of};
use std::alloc::{AllocError, Global};
use std::io;

/// The id of most entries.
pub const ID: Id = Id {
    bytes: *b"********************",
};

/// The order in which the entries of a tree stand, and what they are.
#[derive(Clone, Copy)]
pub enum Order {
    Git,
    Random,
    /// In Git's order, the first entry a directory of that id.
    Chain(Id),
    /// In Git's order, each entry a directory.
    Directories,
}

impl Order {
    pub fn text(self) -> &'static str {
        match self {
            Order::Random => "a random order",
            _ => "Git's order",
        }
    }

    /// The number in the name of an entry at a place: each number once.
    fn number(self, place: u32) -> u32 {
        match self {
            Order::Random => mixed(place),
            _ => place,
        }
    }

    /// The mode of the entry at a place.
    fn mode(self, place: u32) -> &'static str {
        match self {
            Order::Chain(_) if place == 0 => "40000",
            Order::Directories => "40000",
            _ => "100644",
        }
    }

    /// The id of the entry at a place.
    fn id(self, place: u32) -> Id {
        match self {
            Order::Chain(id) if place == 0 => id,
            _ => ID,
        }
    }
}

/// Each number to another, without a pattern: shifts and odd factors can be undone.
fn mixed(number: u32) -> u32 {
    let number = (number ^ (number >> 16)).wrapping_mul(0x7feb_352d);
    let number = (number ^ (number >> 15)).wrapping_mul(0x846c_a68b);
    number ^ (number >> 16)
}

/// Adds the entry at a place to a tree's body.
fn add_entry(
    alloc: Global,
    body: &mut Vec<u8>,
    order: Order,
    place: u32,
) -> Result<(), AllocError> {
    let (mode, number) = (order.mode(place), order.number(place));
    let name = format!(in alloc; "{mode} file{number:010}\0")?;
    body.extend_from_slice(name.as_bytes())?;
    body.extend_from_slice(order.id(place).bytes.as_slice())
}

/// The body of a tree of this many entries: files, all of one id, but for what the order says.
pub fn tree_body(alloc: Global, order: Order, count: u32) -> Result<Vec<u8>, AllocError> {
    let mut body = Vec::new(alloc);
    for place in 0..count {
        add_entry(alloc, &mut body, order, place)?;
    }
    Ok(body)
}

/// The framed tree of this many entries.
pub fn framed_tree(alloc: Global, order: Order, count: u32) -> Result<Vec<u8>, AllocError> {
    let body = tree_body(alloc, order, count)?;
    let mut framed = format!(in alloc; "tree {}\0", body.len())?.into_bytes();
    framed.extend_from_slice(body.as_slice())?;
    Ok(framed)
}

/// Reads the entries of a tree.
fn read(bench: Bench, tree: &Object) -> io::Result<()>
    requires { tree.now.kind ≡ kinds.Tree }
{
    let start = bench.start();
    let entries = tree.entries(bench.alloc())?;
    bench.time("entries", start)?;
    println!(bench.rt; "checked, {} entries", entries.len())
}

/// Checks a tree, and reads its entries.
fn check(bench: Bench, id: Id, framed: Vec<u8>) -> io::Result<()> {
    let start = bench.start();
    let kind = ObjKind::Tree;
    match Object::checked(bench.alloc(), Key { kind, id }, framed) {
        Err(_) => println!(bench.rt; "refused"),
        Ok(tree) => {
            bench.time("checked, the SHA-1 included", start)?;
            read(bench, &tree)
        }
    }
}

/// Digests a tree of this many entries in that order.
fn digest(bench: Bench, order: Order, count: u32, framed: &[u8]) -> io::Result<Id> {
    let (text, length) = (order.text(), framed.len());
    println!(bench.rt; "tree of {count} entries in {text}, {length} bytes")?;
    let start = bench.start();
    let id = id_of(framed);
    bench.time("SHA-1", start)?;
    Ok(id)
}

/// Digests a tree of this many entries, checks it and reads its entries.
fn run_in(bench: Bench, order: Order, count: u32) -> io::Result<()> {
    let framed = framed_tree(bench.alloc(), order, count)?;
    let id = digest(bench, order, count, framed.as_slice())?;
    check(bench, id, framed)
}

/// Both orders, one after the other.
pub fn run(bench: Bench, count: u32) -> io::Result<()> {
    run_in(bench, Order::Git, count)?;
    run_in(bench, Order::Random, count)
}
