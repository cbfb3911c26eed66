//! A chain of directories made the mount's own, in the table of a mount.

ghost use Rattle.std.specs.Prelude.{◌≡◌, IfErr, OnOk, OnErr};
ghost use Rattle.eden_coupling.specs.Chains.{IsLoadedAt, NoneMarked, StaysLoaded, Refused};
ghost use Rattle.eden_coupling.specs.Laws.{owned};
ghost use Rattle.eden_coupling.specs.Materialising.{Chain, owned_along};
ghost use Rattle.eden_inode.specs.Tables.{shows, ShowsSameNumbers};
ghost use Rattle.eden_inode.specs.Trails.{KeepsNames};
ghost use Rattle.eden_materialise.specs.Chains.{IsHeld, Owns};
ghost use Rattle.eden_materialise.specs.Faults.{IsStoreFault};

use crate::chain::own_chain;
use crate::fault::told;
use eden_inode::Inodes;
use eden_model::{Fault, Name, World};
use eden_overlay::{Files, Overlay};
use eden_tree::{Change, Entry};
use std::alloc::{Allocator, Global};

/// The chain of directories along a path becomes the mount's own.
#[derive(Drop)]
struct Owning<'a> {
    alloc: Global,
    path: &'a [Name],
}

impl<A: Allocator, W: World, F: Files<W>> Change<A, Overlay<W, F>> for Owning<'_> {
    type Output = Result<(), Fault>;

    ghost may = { λ owning overlay x.
        IsLoadedAt owning.path.now x × IsHeld W.honest W.repository (F.stored overlay) x };

    ghost does = { λ owning old x new z answer.
        Owns W.honest owning.path.now (F.stored old) x (F.failures old) (F.stored new) z (F.failures new) answer };

    fn change(self, overlay: &mut Overlay<W, F>, entry: &mut Entry<A>) -> Result<(), Fault> {
        match own_chain(self.alloc, entry, overlay, self.path) {
            Ok(()) => Ok(()),
            Err(fault) => Err(told(fault)),
        }
    }
}

/// Makes the loaded directories along a path the mount's own, the root among them: each that isn't its own, and each
/// above one that isn't, is stored, the lowest first, and then memory is so.
///
/// The tree that is shown is as before, and no name moves in memory. Errors: `Overlay` where the device failed, and
/// `Memory`. Memory is as it was then; of the directories that were not the mount's own some may have been stored,
/// which nothing shows.
pub fn materialise<A: Allocator + Clone, W: World, F: Files<W>>(
    inodes: &mut Inodes<A, W, F>,
    alloc: Global,
    path: &[Name],
) -> Result<(), Fault>
    requires loaded { IsLoadedAt path.now inodes.old.root }
    ensures ok { OnOk result (inodes.new.root ≡ owned (owned_along path.now inodes.old.root)) }
    ensures stored { W.honest
        → OnOk result (Chain (F.stored inodes.old.files) inodes.old.root path.now (F.stored inodes.new.files)) }
    ensures err { OnErr result (inodes.new.root ≡ inodes.old.root) }
    ensures strays { W.honest
        → OnErr result (Refused (F.stored inodes.old.files) inodes.old.root path.now (F.stored inodes.new.files)) }
    ensures fault { IfErr result (IsStoreFault (F.failures inodes.old.files) (F.failures inodes.new.files)) }
    ensures counted { OnOk result (F.failures inodes.new.files ≡ F.failures inodes.old.files) }
    ensures shown { W.honest → shows W.World F.Files inodes.new ≡ shows W.World F.Files inodes.old }
    ensures numbers { W.honest → ShowsSameNumbers F.Files inodes.old inodes.new }
    ensures marks { NoneMarked inodes.old.root inodes.new.root }
    ensures stays { StaysLoaded inodes.old.root inodes.new.root }
    ensures names { KeepsNames inodes.old.root inodes.new.root }
    ensures changes { inodes.new.changes ≡ inodes.old.changes }
    ensures rest { (inodes.new.next ≡ inodes.old.next) × (inodes.new.clock ≡ inodes.old.clock) }
{
    inodes.holds();
    inodes.change_in_place(Owning { alloc, path })
}
