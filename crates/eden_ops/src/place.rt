//! Where an attempt waits.
ghost use Rattle.std.specs.Prelude.{◌≡◌, true};
ghost use Rattle.eden_ops.specs.Trails.{IsBare, LeadsAll, remembered, is_second};

use eden_inode::Trail;

/// Where an attempt of a request waits: the positions in the directories above what it lacks, on one of the request's
/// paths, and the count of changes of names at which they were noted.
///
/// An attempt goes by them while the count is the same and below 2^64 - 1. Any other place is passed over. It allocates
/// nothing, but is a kilobyte long: so one is better kept than made for each attempt.
#[derive(Drop)]
pub struct Place {
    /// Whether the path is the request's second, or else its first.
    pub(crate) second: bool,
    pub(crate) trail: Trail,
    pub(crate) changes: u64,
}

impl Place {
    /// A place without positions: an attempt of any request may begin there, at the root.
    pub fn new() -> Place
        ensures bare { IsBare result }
        ensures leads { LeadsAll result }
        ensures changes { result.changes ≡ 0 }
    {
        Place {
            second: false,
            trail: Trail::new(),
            changes: 0,
        }
    }

    /// Forgets the positions, whatever they are of.
    pub fn forget(&mut self)
        ensures bare { IsBare self.new }
        ensures leads { LeadsAll self.new }
        ensures compared { self.new.trail.compared ≡ self.old.trail.compared }
        ensures changes { self.new.changes ≡ self.old.changes }
    {
        self.second = false;
        self.trail.clear();
    }

    /// Whether it has no positions.
    pub fn is_bare(&self) -> bool
        ensures bare { result ≡ true → IsBare self.now }
        ensures all { IsBare self.now → result ≡ true }
    {
        !self.second && self.trail.depth() == 0
    }
}

/// Readies a place for an attempt at this count: it has what the attempt goes by, or nothing, and counts names from 0
/// on.
pub(crate) fn recall(place: &mut Place, changes: u64)
    ensures positions { place.new.trail.positions ≡ remembered changes place.old }
    ensures second { place.new.second ≡ is_second changes place.old }
    ensures compared { place.new.trail.compared ≡ 0 }
{
    place.trail.recount();
    if place.changes != changes || changes == u64::MAX {
        place.forget();
    }
}
