//! One entry of a listing changed in the table of a mount.

ghost use Rattle.std.specs.Prelude.{◌≡◌, ◌∷◌, [], ◌++◌, ◌+◌, min, Err, Some, None, OnOk, OnErr};
ghost use Rattle.eden_model.specs.Failures.{Counted};
ghost use Rattle.eden_overlay.specs.declared.files.FilesFault.TheVariants as files;
ghost use Rattle.eden_coupling.specs.Chains.{Refused};
ghost use Rattle.eden_coupling.specs.ShownLaws.{shown_from};
ghost use Rattle.eden_coupling.specs.Standing.{MayStand};
ghost use Rattle.eden_materialise.specs.Atomic.{IsAtomic};
ghost use Rattle.eden_materialise.specs.Faults.{IsStoreFault};
ghost use Rattle.eden_materialise.specs.Listings.{IsHeldFor, PutsEntry, StoresEntry, ChangesEntry};
ghost use Rattle.eden_materialise.specs.Showing.{ShowsAt};

use crate::chain::{differing, mark_own, store_chain};
use crate::fault::told;
use crate::memory::{put_at, remove_at, take_back_at};
use eden_inode::{Inodes, Listed};
use eden_model::{Fault, Name, World};
use eden_overlay::{Files, FilesFault, Overlay};
use eden_tree::{Change, Entry};
use std::alloc::{Allocator, Global};

/// Takes the entry of a name out of the directory at a path: the chain is stored without it, and then memory is so.
pub(crate) fn take_out<A: Allocator, W: World, F: Files<W>>(
    alloc: Global,
    root: &mut Entry<A>,
    overlay: &mut Overlay<W, F>,
    path: &[Name],
    name: &Name,
) -> Result<(), FilesFault>
    requires held { IsHeldFor W.honest W.repository (F.stored overlay.old) root.old path.now name.now None }
    ensures ok { OnOk result (PutsEntry path.now name.now None root.old root.new) }
    ensures stored { W.honest
        → OnOk result (StoresEntry path.now name.now None (F.stored overlay.old) root.old (F.stored overlay.new)) }
    ensures err { OnErr result (root.new ≡ root.old) }
    ensures strays { W.honest → OnErr result (Refused (F.stored overlay.old) root.old path.now (F.stored overlay.new)) }
    ensures counted { Counted (result ≡ Err files.Device) (F.failures overlay.old) (F.failures overlay.new) }
{
    let changed = differing(root, path, name);
    store_chain(
        alloc,
        root,
        overlay,
        path,
        Some(Listed::Without(name)),
        changed,
    )?;
    remove_at(root, path, name);
    mark_own(root, path);
    Ok(())
}

/// Puts an entry under a name of the directory at a path, in place of one that is there: into memory first, and then
/// the chain is stored so. It is taken back where a store is refused.
pub(crate) fn put_in<A: Allocator, W: World, F: Files<W>>(
    alloc: Global,
    root: &mut Entry<A>,
    overlay: &mut Overlay<W, F>,
    path: &[Name],
    name: &Name,
    entry: Entry<A>,
) -> Result<(), FilesFault>
    requires held { IsHeldFor W.honest W.repository (F.stored overlay.old) root.old path.now name.now (Some entry) }
    ensures ok { OnOk result (PutsEntry path.now name.now (Some entry) root.old root.new) }
    ensures stored { W.honest
        → OnOk result (StoresEntry path.now name.now (Some entry)
        (F.stored overlay.old) root.old (F.stored overlay.new)) }
    ensures err { OnErr result (root.new ≡ root.old) }
    ensures strays { W.honest → OnErr result (Refused (F.stored overlay.old) root.old path.now (F.stored overlay.new)) }
    ensures counted { Counted (result ≡ Err files.Device) (F.failures overlay.old) (F.failures overlay.new) }
{
    let changed = differing(root, path, name);
    let was = match put_at(alloc, root, path, name, entry) {
        Ok(was) => was,
        Err(_) => return Err(FilesFault::Memory),
    };
    match store_chain(alloc, root, overlay, path, Some(Listed::Whole), changed) {
        Ok(()) => {
            mark_own(root, path);
            return Ok(());
        }
        Err(fault) => {
            take_back_at(root, path, name, was);
            return Err(fault);
        }
    }
}

/// What is to stand under a name of the directory at a path, an entry or nothing.
#[derive(Drop)]
struct EntryChange<'a, A: Allocator> {
    alloc: Global,
    path: &'a [Name],
    name: &'a Name,
    entry: Option<Entry<A>>,
}

impl<A: Allocator, W: World, F: Files<W>> Change<A, Overlay<W, F>> for EntryChange<'_, A> {
    type Output = Result<(), Fault>;

    ghost may = { λ change overlay x.
        IsHeldFor W.honest W.repository (F.stored overlay) x change.path.now change.name.now change.entry };

    ghost does = { λ change old x new z answer.
        ChangesEntry W.honest change.path.now change.name.now change.entry (F.stored old) x (F.failures old)
        (F.stored new) z (F.failures new) answer };

    fn change(self, overlay: &mut Overlay<W, F>, entry: &mut Entry<A>) -> Result<(), Fault> {
        let EntryChange {
            alloc,
            path,
            name,
            entry: change,
        } = self;
        match change {
            None => match take_out(alloc, entry, overlay, path, name) {
                Ok(()) => return Ok(()),
                Err(fault) => return Err(told(fault)),
            },
            Some(new) => match put_in(alloc, entry, overlay, path, name, new) {
                Ok(()) => return Ok(()),
                Err(fault) => return Err(told(fault)),
            },
        }
    }
}

/// Puts an entry that isn't loaded under a name of the loaded directory at a path, in place of one that is there, or
/// takes that one out. The directory is stored so first, and then each above it that isn't the mount's own, or stands
/// above one that isn't, the lowest first; then memory is so, and the chain the mount's own.
///
/// The tree that is shown has what the entry shows at and below the name, and is as before elsewhere. Errors: `Overlay`
/// where the device failed, and `Memory`. Memory is as it was then, and so is what is shown; of the directories that
/// were not the mount's own some may have been stored, which nothing shows.
pub fn change_entry<A: Allocator + Clone, W: World, F: Files<W>>(
    inodes: &mut Inodes<A, W, F>,
    alloc: Global,
    path: &[Name],
    name: &Name,
    entry: Option<Entry<A>>,
) -> Result<(), Fault>
    requires may { MayStand W.honest W.repository
        (F.stored inodes.old.files) inodes.old.root inodes.old.next path.now name.now entry }
    ensures ok { OnOk result (PutsEntry path.now name.now entry inodes.old.root inodes.new.root) }
    ensures stored { W.honest → OnOk result (StoresEntry path.now name.now entry
        (F.stored inodes.old.files) inodes.old.root (F.stored inodes.new.files)) }
    ensures atomic { IsAtomic W.World F.Files IsStoreFault inodes.old inodes.new result }
    ensures strays { W.honest
        → OnErr result (Refused (F.stored inodes.old.files) inodes.old.root path.now (F.stored inodes.new.files)) }
    ensures counted { OnOk result (F.failures inodes.new.files ≡ F.failures inodes.old.files) }
    ensures shown { W.honest
        → OnOk result (ShowsAt W.World F.Files (path.now ++ name.now ∷ [])
        (shown_from W.repository (F.stored inodes.new.files) entry) inodes.old inodes.new) }
    ensures changes { inodes.new.changes ≡ min (inodes.old.changes + 1) u64.MAX }
    ensures next { inodes.new.next ≡ inodes.old.next }
{
    inodes.holds();
    inodes.change(EntryChange {
        alloc,
        path,
        name,
        entry,
    })
}
