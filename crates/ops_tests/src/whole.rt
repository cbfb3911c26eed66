//! The slow oracle over the commit that has an entry of each kind.

use eden_model::{Bytes, Kind, Node, Reply, Request};
use eden_oracle::WholeTree;
use std::alloc::Global;
use std::process::Abort;
use test_random::path_of;

/// What the commit has: paths as places of names, kinds and contents.
const COMMIT: &[(&[u8], Kind, &[u8])] = &[
    (&[], Kind::Dir, b""),
    (&[0], Kind::Dir, b""),
    (&[0, 0], Kind::Dir, b""),
    (&[0, 0, 3], Kind::File, b"version 1\n"),
    (&[0, 1], Kind::File, b"new file\n"),
    (&[0, 3], Kind::File, b"version 2\n"),
    (&[1], Kind::Exec, b"version 1\n"),
    (&[2], Kind::Dir, b""),
    (&[3], Kind::Link, b"new.txt"),
];

pub(crate) fn bytes(rt: &impl Abort, alloc: Global, bytes: &[u8]) -> Bytes {
    test_random::bytes(alloc, bytes).expect(rt, "memory")
}

fn node(rt: &impl Abort, alloc: Global, kind: Kind, content: &[u8]) -> Node {
    match kind {
        Kind::Dir => Node::Dir(true),
        Kind::Link => Node::Link(Some(bytes(rt, alloc, content))),
        Kind::File => Node::File(false, Some(bytes(rt, alloc, content))),
        Kind::Exec => Node::File(true, Some(bytes(rt, alloc, content))),
    }
}

/// The whole tree of the commit.
pub(crate) fn whole(rt: &impl Abort, alloc: Global) -> WholeTree {
    let mut rows = Vec::new(alloc);
    for (places, kind, content) in COMMIT {
        let node = node(rt, alloc, *kind, content);
        let at = path_of(alloc, places).expect(rt, "a path");
        rows.push((at, node)).expect(rt, "memory");
    }
    let tree = WholeTree::new(alloc, rows).expect(rt, "memory");
    tree.expect(rt, "a tree")
}

/// Whether the oracle allows a reply, by which it continues.
pub(crate) fn allows(
    rt: &impl Abort,
    alloc: Global,
    tree: &mut WholeTree,
    request: &Request,
    reply: &Reply,
) -> bool {
    tree.allows(alloc, request, reply).expect(rt, "memory")
}
