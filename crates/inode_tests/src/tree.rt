//! What a mount must show, as a plain map.

use eden_model::{Kind, Origin};
use std::alloc::Global;
use std::mem;
use std::process::Abort;

/// A directory, a file or a link, and where its contents come from; the content of an own file. Its number is 0 if that
/// of one of an object isn't noted.
#[derive(Clone, Copy)]
pub(crate) struct Node {
    pub(crate) kind: Kind,
    pub(crate) origin: Origin,
    pub(crate) number: u64,
    pub(crate) content: u64,
}

/// The root of every map.
const ROOT: Node = Node {
    kind: Kind::Dir,
    origin: Origin::Own,
    number: 1,
    content: 0,
};

/// A node at its path.
#[derive(Drop)]
pub(crate) struct Row {
    pub(crate) path: Vec<u8>,
    pub(crate) node: Node,
}

/// The nodes by their paths: each name is one letter.
#[derive(Drop)]
pub(crate) struct Tree {
    pub(crate) rows: Vec<Row>,
}

/// Whether that letter leads from the one path to the other.
fn is_below(below: &[u8], path: &[u8], letter: u8) -> bool {
    match below.split_last() {
        Some((last, front)) => *last == letter && front == path,
        None => false,
    }
}

/// A path that begins with one front, with another in its place.
fn moved(rt: &impl Abort, alloc: Global, path: &[u8], from: &[u8], to: &[u8]) -> Option<Vec<u8>> {
    if !path.starts_with(from) {
        return None;
    }
    let mut moved = Vec::from_slice(alloc, to).expect(rt, "memory");
    moved
        .extend_from_slice(&path[from.len()..])
        .expect(rt, "memory");
    Some(moved)
}

/// Has a row begin with another front, if it begins with this one.
fn move_row(rt: &impl Abort, alloc: Global, row: &mut Row, from: &[u8], to: &[u8]) {
    if let Some(path) = moved(rt, alloc, &row.path, from, to) {
        drop(mem::replace(&mut row.path, path));
    }
}

impl Tree {
    /// The root alone.
    pub(crate) fn new(rt: &impl Abort, alloc: Global) -> Tree {
        let mut tree = Tree {
            rows: Vec::new(alloc),
        };
        tree.put(rt, alloc, &[], ROOT);
        tree
    }

    pub(crate) fn rows(&self) -> &[Row] {
        self.rows.as_slice()
    }

    pub(crate) fn get(&self, path: &[u8]) -> Option<Node> {
        for row in &self.rows {
            if row.path.as_slice() == path {
                return Some(row.node);
            }
        }
        None
    }

    /// What stands under a letter of the directory at a path.
    pub(crate) fn below(&self, path: &[u8], letter: u8) -> Option<Node> {
        for row in &self.rows {
            if is_below(&row.path, path, letter) {
                return Some(row.node);
            }
        }
        None
    }

    pub(crate) fn is_dir(&self, path: &[u8]) -> bool {
        match self.get(path) {
            None => false,
            Some(node) => node.kind == Kind::Dir,
        }
    }

    /// Forgets the numbers of nodes of objects.
    pub(crate) fn forget_numbers(&mut self) {
        for i in 0..self.rows.len() {
            if let Some(row) = self.rows.get_mut(i) {
                if row.node.origin != Origin::Own {
                    row.node.number = 0;
                }
            }
        }
    }

    /// Takes out what stands at and below a path.
    pub(crate) fn take(&mut self, path: &[u8]) {
        self.rows.retain(|row| !row.path.starts_with(path));
    }

    /// Puts a node at a path, in place of what stands at and below it.
    pub(crate) fn put(&mut self, rt: &impl Abort, alloc: Global, path: &[u8], node: Node) {
        self.take(path);
        let path = Vec::from_slice(alloc, path).expect(rt, "memory");
        self.rows.push(Row { path, node }).expect(rt, "memory");
    }

    /// Gives the node at a path another kind.
    pub(crate) fn turn(&mut self, rt: &impl Abort, alloc: Global, path: &[u8], kind: Kind) {
        if let Some(node) = self.get(path) {
            self.put(rt, alloc, path, Node { kind, ..node });
        }
    }

    /// Moves what stands at and below a path, in place of what stands at and below another.
    pub(crate) fn rename(&mut self, rt: &impl Abort, alloc: Global, from: &[u8], to: &[u8]) {
        self.take(to);
        for i in 0..self.rows.len() {
            if let Some(row) = self.rows.get_mut(i) {
                move_row(rt, alloc, row, from, to);
            }
        }
    }
}
