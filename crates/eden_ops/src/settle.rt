//! What an earlier fault left unsaved, stored before a change.
ghost use Rattle.std.specs.Prelude.{◌≡◌, OnOk};
ghost use Rattle.eden_coupling.specs.Kept.{IsTable};
ghost use Rattle.eden_coupling.specs.Saving.{IsSavedAbove};
ghost use Rattle.eden_ops.specs.Settling.{Settles};

use eden_inode::Inodes;
use eden_materialise::save_above;
use eden_model::{Fault, Name, World};
use eden_overlay::Files;
use std::alloc::{Allocator, Global};

/// Stores the loaded directories above the entry at a path that are unsaved, so that what changes there next stands in
/// the files once it is answered. If none is unsaved, nothing is done.
///
/// Errors: `Overlay` if the device failed, and `Memory`. All but the marks is as it was then.
pub(crate) fn settle<A: Allocator + Clone, W: World, F: Files<W>>(
    inodes: &mut Inodes<A, W, F>,
    alloc: Global,
    path: &[Name],
) -> Result<(), Fault>
    ensures settles { Settles W.World F.Files inodes.old inodes.new result }
    ensures saved { OnOk result (IsSavedAbove path.now inodes.new.root) }
    ensures idle { IsSavedAbove path.now inodes.old.root → inodes.new ≡ inodes.old }
    ensures changes { inodes.new.changes ≡ inodes.old.changes }
    ensures table { IsTable inodes.new.root inodes.new.next }
{
    let saved = save_above(inodes, alloc, path);
    inodes.holds();
    saved
}
