//! Positions of a path's names, so that a later look needs no comparison.
ghost use Rattle.std.specs.Prelude.{◌≡◌, ◌<◌, ◌≤◌, ◌+◌, [], ◌∷◌, ◌++◌, length, min, slice_get, IfSome, IfNone, None};
ghost use Rattle.eden_model.specs.Paths.{most_names};
ghost use Rattle.eden_tree.specs.Rows.{find_row};
ghost use Rattle.eden_inode.specs.Trails.{Pins};

use arrayvec::ArrayVec;
use eden_model::{MAX_NAMES, Name};
use eden_tree::Dir;
use std::alloc::Allocator;
use std::marker::Model;

/// The positions of a path's names, each in the directory above it, as far as the path was walked, and how many names
/// were compared to find them. It takes no memory.
///
/// What a position is worth is a condition of each look that goes by it: it leads along that path.
#[derive(Drop)]
pub struct Trail {
    positions: ArrayVec<u32, MAX_NAMES>,
    compared: u32,
}

impl Model for Trail {
    ghost use Rattle.eden_inode.specs.Trails.{Trail};

    ghost Value = { Trail };

    ghost view = { λ t. record { positions = t.positions.items; compared = t.compared } };
}

impl Trail {
    /// No position, and no name compared.
    pub fn new() -> Trail
        ensures { result ≡ record { positions = []; compared = 0 } }
    {
        Trail {
            positions: ArrayVec::new(),
            compared: 0,
        }
    }

    /// How many names were compared, up to 2^32 - 1.
    pub fn compared(&self) -> u32
        ensures { result ≡ self.now.compared }
    {
        self.compared
    }

    /// How many positions there are.
    pub fn depth(&self) -> usize
        ensures { result ≡ length self.now.positions }
    {
        self.positions.len()
    }

    /// Forgets the positions. The count goes on.
    pub fn clear(&mut self)
        ensures { self.new ≡ record self.old { positions = [] } }
    {
        self.positions.clear();
    }

    /// Counts from 0 on. The positions stay.
    pub fn recount(&mut self)
        ensures { self.new ≡ record self.old { compared = 0 } }
    {
        self.compared = 0;
    }

    /// Counts the names that were compared on another trail, too.
    pub fn add(&mut self, other: &Trail)
        ensures positions { self.new.positions ≡ self.old.positions }
        ensures compared { self.new.compared ≡ min (self.old.compared + other.now.compared) u32.MAX }
    {
        self.compared = self.compared.saturating_add(other.compared);
    }

    /// The position of the path's name behind so many.
    pub(crate) fn position(&self, depth: usize) -> Option<u32>
        ensures { result ≡ slice_get self.now.positions depth }
    {
        match self.positions.as_slice().get(depth) {
            None => None,
            Some(position) => Some(*position),
        }
    }

    /// Looks for a name in a directory, and notes its position.
    pub(crate) fn search<A: Allocator>(&mut self, dir: &Dir<A>, name: &Name) -> Option<u32>
        requires { length self.old.positions < most_names }
        ensures found { IfSome result (λ i. Pins name.now i dir.now.rows) }
        ensures noted { IfSome result (λ i. self.new.positions ≡ self.old.positions ++ i ∷ []) }
        ensures absent { IfNone result (find_row name.now dir.now.rows ≡ None) }
        ensures kept { IfNone result (self.new.positions ≡ self.old.positions) }
        ensures compared { self.new.compared ≤ self.old.compared + 32 }
    {
        let _ = dir.count();
        let (place, compared) = dir.get_counted(name);
        self.compared = self.compared.saturating_add(compared);
        match place {
            None => None,
            Some(position) => {
                self.positions.push(position);
                Some(position)
            }
        }
    }
}
