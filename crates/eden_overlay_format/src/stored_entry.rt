ghost use Rattle.std.specs.Prelude.{◌≡◌};
ghost use Rattle.eden_overlay_format.specs.Directory.{is_own};

use eden_model::{Kind, Name, Origin};

/// One entry of a stored directory.
#[derive(Drop)]
pub struct StoredEntry {
    pub name: Name,
    pub kind: Kind,
    pub origin: Origin,
    /// The inode's number, from 2 to 2^63 - 1.
    pub number: u64,
}

impl StoredEntry {
    /// Whether its contents are in the overlay's file of its number.
    pub(crate) fn is_own(&self) -> bool
        ensures { result ≡ is_own self.now.origin }
    {
        match self.origin {
            Origin::Own => true,
            Origin::Object(_) | Origin::Empty => false,
        }
    }
}
