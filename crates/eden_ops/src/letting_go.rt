//! Directories that are unloaded.
ghost use Rattle.std.specs.Prelude.{◌≡◌, ◌≤◌, Some, None, IfErr, OnOk};
ghost use Rattle.eden_coupling.specs.Chains.{NoneMarked};
ghost use Rattle.eden_tree.specs.Directory.{Row, child_of};
ghost use Rattle.eden_tree.specs.Paths.{row_at};
ghost use Rattle.eden_inode.specs.Tables.{shows, ShowsSameNumbers};
ghost use Rattle.eden_inode.specs.Trails.{KeepsPlaces};
ghost use Rattle.eden_materialise.specs.Faults.{IsStoreFault};
ghost use Rattle.eden_ops.specs.Letting.{LetsGo};

use eden_inode::Inodes;
use eden_materialise::told;
use eden_model::{Fault, Name, World};
use eden_overlay::Files;
use std::alloc::{Allocator, Global};

/// Unloads every directory that is loaded at and below a path; an unsaved one is stored first.
///
/// Errors: `Overlay` if the device failed, and `Memory` if that alone was wanting: then some of them are still loaded.
pub fn let_go<A: Allocator + Clone, W: World, F: Files<W>>(
    inodes: &mut Inodes<A, W, F>,
    alloc: Global,
    path: &[Name],
) -> Result<(), Fault>
    ensures away { OnOk result ((y : Row) → row_at path.now inodes.new.root ≡ Some y → child_of y ≡ None) }
    ensures goes { LetsGo path.now inodes.old.root inodes.new.root }
    ensures fault { IfErr result (IsStoreFault (F.failures inodes.old.files) (F.failures inodes.new.files)) }
    ensures counted { F.failures inodes.old.files ≤ F.failures inodes.new.files }
    ensures unfailed { OnOk result (F.failures inodes.new.files ≡ F.failures inodes.old.files) }
    ensures same { W.honest → shows W.World F.Files inodes.new ≡ shows W.World F.Files inodes.old }
    ensures numbers { W.honest → ShowsSameNumbers F.Files inodes.old inodes.new }
    ensures marks { NoneMarked inodes.old.root inodes.new.root }
    ensures places { KeepsPlaces inodes.old inodes.new }
    ensures rest { (inodes.new.next ≡ inodes.old.next) × (inodes.new.clock ≡ inodes.old.clock) }
{
    match inodes.unload(alloc, path, 0).refused {
        None => Ok(()),
        Some(fault) => Err(told(fault)),
    }
}
