// The slow oracle as a service of lines: `eden_bench oracle` answers the requests of standard input on one whole tree.
//
// tests/oracle compares its replies with those of a second table of operations, which is written apart from this one.
use eden_model::{CallFault, Kind, Name, Node, Path, Reply, Request, StartFault};
use eden_oracle::WholeTree;
use eden_wire::{Service, SessionFault, session};
use std::alloc::Global;
use std::io::{Read, Write};

/// A whole tree, and what it last answered.
#[derive(Drop)]
pub struct Oracle {
    alloc: Global,
    tree: WholeTree,
    reply: Reply,
}

/// What the tree begins with beside the root: a file, a link and a directory that a repository lacks.
#[derive(Clone, Copy)]
enum Lost {
    File,
    Link,
    Directory,
}

impl Lost {
    fn name(self) -> &'static [u8] {
        match self {
            Lost::File => b"lost",
            Lost::Link => b"lost_link",
            Lost::Directory => b"unlisted",
        }
    }

    fn node(self) -> Node {
        match self {
            Lost::File => Node::File(true, None),
            Lost::Link => Node::Link(None),
            Lost::Directory => Node::Dir(false),
        }
    }
}

/// The path of one name. None if it is none, or if memory is refused.
fn top(alloc: Global, name: &[u8]) -> Option<Path> {
    let bytes = Vec::from_slice(alloc, name).ok()?;
    let name = Name::new(bytes).ok()?;
    let mut names = Vec::new(alloc);
    names.push(name).ok()?;
    Path::new(names).ok()
}

/// Adds a row. False if there is no path or no memory.
fn add(rows: &mut Vec<(Path, Node)>, path: Option<Path>, node: Node) -> bool {
    match path {
        None => false,
        Some(path) => match rows.push((path, node)) {
            Ok(()) => true,
            Err(failed) => {
                let (_path, _node) = failed.value;
                false
            }
        },
    }
}

/// The tree that requests are answered on. None if memory is refused.
fn tree(alloc: Global) -> Option<WholeTree> {
    let mut rows = Vec::new(alloc);
    let root = Path::new(Vec::new(alloc)).ok();
    let mut is_whole = add(&mut rows, root, Node::Dir(true));
    for lost in &[Lost::File, Lost::Link, Lost::Directory] {
        is_whole &= add(&mut rows, top(alloc, lost.name()), lost.node());
    }
    match WholeTree::new(alloc, rows) {
        Ok(tree) if is_whole => tree,
        _ => None,
    }
}

impl Service for Oracle {
    ghost use Rattle.eden_bench.specs.Oracles.{Answers};

    ghost answers = { λ old q answer new. Answers old.tree q answer new.tree };

    fn call(&mut self, request: Request) -> Result<&Reply, CallFault> {
        match self.tree.step(self.alloc, &request) {
            Err(_) => Err(CallFault::Start(StartFault::Memory)),
            Ok(None) => Err(CallFault::Stopped),
            Ok(Some(reply)) => {
                self.reply = reply;
                Ok(&self.reply)
            }
        }
    }
}

/// Answers each line of the reader. A request that the table has no reply to is answered `fault stopped`.
pub fn run<R: Read, W: Write>(
    alloc: Global,
    reader: &mut R,
    writer: &mut W,
) -> Result<(), SessionFault> {
    let Some(tree) = tree(alloc) else {
        return Err(SessionFault::Memory);
    };
    let reply = Reply::Kind(Kind::Dir);
    let mut oracle = Oracle { alloc, tree, reply };
    session(alloc, reader, writer, &mut oracle)
}
