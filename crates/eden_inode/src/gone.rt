//! What came of an unload.
ghost use Rattle.std.specs.Prelude.{◌≡◌, ◌+◌, min, Some, None};
ghost use Rattle.eden_inode.specs.Going.{graver};

use eden_overlay::FilesFault;

/// What came of an unload: how many directories went, and whether what had to be stored of one couldn't be.
#[derive(Clone, Copy, PartialEq, Eq)]
pub struct Gone {
    /// How many went, up to 2^64 - 1.
    pub count: u64,
    /// None where no store was refused; else `Device` where that failed, and `Memory` where only that was wanting.
    pub refused: Option<FilesFault>,
}

/// Nothing went, and nothing was refused.
pub(crate) const NOTHING: Gone = Gone {
    count: 0,
    refused: None,
};

/// One went, and nothing was refused.
pub(crate) const ONE: Gone = Gone {
    count: 1,
    refused: None,
};

/// None went: it couldn't be stored.
pub(crate) fn refusal(fault: FilesFault) -> Gone
    ensures { result ≡ record { count = 0; refused = Some fault } }
{
    Gone {
        count: 0,
        refused: Some(fault),
    }
}

/// What came of both, one after the other.
pub(crate) fn both(one: Gone, other: Gone) -> Gone
    ensures count { result.count ≡ min (one.count + other.count) u64.MAX }
    ensures refused { result.refused ≡ graver one.refused other.refused }
{
    Gone {
        count: one.count.saturating_add(other.count),
        refused: graver_of(one.refused, other.refused),
    }
}

/// Of what was refused twice the device's failure, where one of them is.
fn graver_of(one: Option<FilesFault>, other: Option<FilesFault>) -> Option<FilesFault>
    ensures { result ≡ graver one other }
{
    match (one, other) {
        (None, _) | (Some(FilesFault::Memory), Some(_)) => other,
        _ => one,
    }
}
