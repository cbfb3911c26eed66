//! What was found.
ghost use Rattle.std.specs.Prelude.{◌≡◌, ◌++◌, ◌∷◌, [], IfOk};

use crate::damage::Damage;
use eden_model::Name;
use std::alloc::{AllocError, Global};

/// A place in an overlay at which something can't be had, and what was done about it: an entry was taken out of its
/// directory, or, if `is_numbers`, the inode numbers of a directory were forgotten, whose entries are all there.
#[derive(Drop)]
pub struct Finding {
    /// The names from the root down.
    pub path: Vec<Name>,
    /// The inode's number, which is that of its file.
    pub number: u64,
    /// What is wrong.
    pub damage: Damage,
    /// Whether only numbers were forgotten.
    pub is_numbers: bool,
}

/// The names of a directory's path, and one more.
pub(crate) fn path_below(
    alloc: Global,
    directory: &[Name],
    name: &Name,
) -> Result<Vec<Name>, AllocError>
    ensures { IfOk result (λ v. v.items ≡ directory.now ++ name.now ∷ []) }
{
    let mut path = Vec::new(alloc);
    for part in directory {
        path.push(part.copy(alloc)?)?;
    }
    path.push(name.copy(alloc)?)?;
    Ok(path)
}
