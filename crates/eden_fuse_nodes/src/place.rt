ghost use Rattle.std.specs.Prelude.{◌≡◌, ◌≢◌, IfOk, MatchBool};

use eden_model::Name;
use std::alloc::{AllocError, Global};

/// A name in a directory, which is known by its node's number.
#[derive(Debug, PartialEq, Eq, PartialOrd, Ord, Drop)]
pub struct Place {
    pub parent: u64,
    pub name: Name,
}

impl Place {
    /// Whether both are the same.
    pub(crate) fn is(&self, other: &Place) -> bool
        ensures { MatchBool result (self.now ≡ other.now) (self.now ≢ other.now) }
    {
        self.parent == other.parent && self.name == other.name
    }

    /// An equal value. The only error is want of memory.
    pub fn copy(&self, alloc: Global) -> Result<Place, AllocError>
        ensures { IfOk result (λ p. p ≡ self.now) }
    {
        Ok(Place {
            parent: self.parent,
            name: self.name.copy(alloc)?,
        })
    }
}
