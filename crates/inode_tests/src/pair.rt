//! A mount and a plain map of what it must show, which are changed together.

use crate::calls::What;
use crate::mount::Mount;
use crate::names::{Place, below};
use crate::tree::{Node, Tree};
use eden_model::{Kind, Origin};
use std::alloc::{Allocator, Global};
use std::process::Abort;
use test_samples::Sample;

/// What a commit has at a path.
pub(crate) type Row = (&'static [u8], Kind, Sample);

/// A mount, and what it must show.
#[derive(Drop)]
pub(crate) struct Pair<A: Allocator> {
    pub(crate) mount: Mount<A>,
    pub(crate) tree: Tree,
}

/// What a commit of these rows shows.
fn tree_of(rt: &impl Abort, alloc: Global, rows: &[Row]) -> Tree {
    let mut tree = Tree::new(rt, alloc);
    for (path, kind, object) in rows {
        let node = Node {
            kind: *kind,
            origin: Origin::Object(object.id),
            number: 0,
            content: 0,
        };
        tree.put(rt, alloc, path, node);
    }
    tree
}

/// The path of a place's entry.
fn path_of(rt: &impl Abort, alloc: Global, place: Place<'_>) -> Vec<u8> {
    below(rt, alloc, place.path, place.letter)
}

impl<A: Allocator + Clone> Pair<A> {
    /// A root from there, and what the mount shows below it.
    pub(crate) fn open(
        rt: &impl Abort,
        alloc: Global,
        dirs: &A,
        root: Origin,
        rows: &[Row],
    ) -> Pair<A> {
        let tree = tree_of(rt, alloc, rows);
        Pair {
            mount: Mount::open(rt, alloc, dirs, root, 2),
            tree,
        }
    }

    /// Whether all is shown as it must be.
    pub(crate) fn shows(&mut self, rt: &impl Abort) -> bool {
        self.mount.shows_all(rt, &self.tree)
    }

    /// Notes the number of each node, all of which are shown.
    pub(crate) fn note(&mut self, rt: &impl Abort) {
        for i in 0..self.tree.rows.len() {
            if let Some(row) = self.tree.rows.get_mut(i) {
                row.node.number = self.mount.number(rt, &row.path);
            }
        }
    }

    /// Puts a node under a name: whether that was done.
    pub(crate) fn insert(
        &mut self,
        rt: &impl Abort,
        place: Place<'_>,
        kind: Kind,
        content: u64,
    ) -> bool {
        match self.mount.insert(rt, place, kind, content) {
            None => false,
            Some(node) => {
                let path = path_of(rt, self.mount.alloc, place);
                self.tree.put(rt, self.mount.alloc, &path, node);
                drop(path);
                true
            }
        }
    }

    /// Takes out what is under a name, with its file or without: whether that was done.
    pub(crate) fn remove(&mut self, rt: &impl Abort, place: Place<'_>, has_file: bool) -> bool {
        let what = if has_file { What::Remove } else { What::Take };
        let gone = self.mount.change(rt, place, what);
        if gone {
            let path = path_of(rt, self.mount.alloc, place);
            self.tree.take(&path);
            drop(path);
        }
        gone
    }

    /// Gives a file another kind: whether that was done.
    pub(crate) fn turn_into(&mut self, rt: &impl Abort, place: Place<'_>, kind: Kind) -> bool {
        let turned = self.mount.change(rt, place, What::Turn(kind));
        if turned {
            let path = path_of(rt, self.mount.alloc, place);
            self.tree.turn(rt, self.mount.alloc, &path, kind);
            drop(path);
        }
        turned
    }

    fn note_move(&mut self, rt: &impl Abort, from: Place<'_>, to: Place<'_>) {
        let from = path_of(rt, self.mount.alloc, from);
        let to = path_of(rt, self.mount.alloc, to);
        self.tree.rename(rt, self.mount.alloc, &from, &to);
        drop(from);
        drop(to);
    }

    /// Moves what is under a name to another place, if both directories are the mount's own and loaded: whether that
    /// was done.
    pub(crate) fn rename(&mut self, rt: &impl Abort, from: Place<'_>, to: Place<'_>) -> bool {
        let moved = self.mount.rename(rt, from, to);
        if moved {
            self.note_move(rt, from, to);
        }
        moved
    }
}
