//! An entry renamed within one directory: it is stored once, and then memory is so.

ghost use Rattle.std.specs.Prelude.{◌≡◌, ◌≢◌, Err, Some, None, IsSome, IsSomeAnd, IfSome, OnOk, OnErr};
ghost use Rattle.eden_model.specs.Failures.{Counted};
ghost use Rattle.eden_model.specs.Named.{AreRising};
ghost use Rattle.eden_overlay_format.specs.Directory.{AreStorable};
ghost use Rattle.eden_overlay.specs.Held.{with_entries};
ghost use Rattle.eden_overlay.specs.Soundness.{AreSound};
ghost use Rattle.eden_overlay.specs.declared.files.FilesFault.TheVariants as files;
ghost use Rattle.eden_tree.specs.Directory.{child_of};
ghost use Rattle.eden_tree.specs.Paths.{row_at};
ghost use Rattle.eden_coupling.specs.Listings.{listing_of};
ghost use Rattle.eden_coupling.specs.Changing.{MayMove, changed, moved_in, files_moved};
ghost use Rattle.eden_inode.specs.Listed.{RenamesAt};
ghost use Rattle.eden_materialise.specs.Chains.{IsListedIfSaved};
ghost use Rattle.eden_materialise.specs.Puts.{AtDirectory};

use crate::chain::differing;
use crate::memory::{put_at, remove_at, take_back_at};
use crate::moving::copy_at;
use eden_inode::{Listed, save, save_renamed};
use eden_model::{Name, World};
use eden_overlay::{Files, FilesFault, Overlay};
use eden_tree::Entry;
use std::alloc::{Allocator, Global};

/// Stores the loaded directory at a path without the entry of that name. Where its file differs from that in this entry
/// and the one of a new name alone, the new name is told. After an error nothing has changed.
fn store_without<A: Allocator, W: World, F: Files<W>>(
    alloc: Global,
    root: &Entry<A>,
    overlay: &mut Overlay<W, F>,
    path: &[Name],
    name: &Name,
    differing: Option<&Name>,
) -> Result<(), FilesFault>
    requires loaded { IsSomeAnd (row_at path.now root.now) (λ y. IsSome (child_of y)) }
    requires entries { AtDirectory path.now root.now (λ y d. AreStorable (listing_of (changed d name.now None))) }
    requires sound { W.honest
        → AtDirectory path.now root.now
        (λ y d. AreSound (with_entries (F.stored overlay.old) y.number (listing_of (changed d name.now None)))) }
    requires renames { W.honest
        → IfSome differing (λ m. AtDirectory path.now root.now
        (λ y d. RenamesAt name.now m.now (F.stored overlay.old) y.number (listing_of (changed d name.now None)))) }
    ensures ok { W.honest
        → AtDirectory path.now root.now
        (λ y d. OnOk result (F.stored overlay.new ≡ with_entries (F.stored overlay.old) y.number
        (listing_of (changed d name.now None)))) }
    ensures err { W.honest → OnErr result (F.stored overlay.new ≡ F.stored overlay.old) }
    ensures counted { Counted (result ≡ Err files.Device) (F.failures overlay.old) (F.failures overlay.new) }
{
    match root.walk(path) {
        None => unreachable!(),
        Some(entry) => match entry.directory() {
            None => unreachable!(),
            Some(dir) => match differing {
                Some(new_name) => {
                    return save_renamed(alloc, overlay, entry.number, dir, name, new_name);
                }
                None => return save(alloc, overlay, entry.number, dir, Listed::Without(name)),
            },
        },
    }
}

/// Gives an entry that isn't loaded another name in its loaded directory of the mount's own, in place of any that is
/// there: the directory is stored so, and then memory is so, saved. After an error nothing has changed.
pub(crate) fn move_within<A: Allocator, W: World, F: Files<W>>(
    alloc: Global,
    root: &mut Entry<A>,
    overlay: &mut Overlay<W, F>,
    path: &[Name],
    name: &Name,
    new_name: &Name,
) -> Result<(), FilesFault>
    requires may { MayMove root.old path.now name.now path.now new_name.now }
    requires rising { AtDirectory path.now root.old (λ y d. AreRising (λ r. r.0) d.rows) }
    requires differ { name.now ≢ new_name.now }
    requires listed { W.honest → AtDirectory path.now root.old (IsListedIfSaved (F.stored overlay.old)) }
    requires sound { W.honest → (m : MayMove root.old path.now name.now path.now new_name.now)
        → AreSound (files_moved root.old path.now name.now path.now new_name.now m (F.stored overlay.old)) }
    ensures ok { (m : MayMove root.old path.now name.now path.now new_name.now)
        → OnOk result (root.new ≡ moved_in root.old path.now name.now path.now new_name.now m) }
    ensures stored { W.honest → (m : MayMove root.old path.now name.now path.now new_name.now)
        → OnOk result (F.stored overlay.new ≡ files_moved root.old path.now name.now path.now new_name.now m
        (F.stored overlay.old)) }
    ensures err { OnErr result (root.new ≡ root.old) }
    ensures kept { W.honest → OnErr result (F.stored overlay.new ≡ F.stored overlay.old) }
    ensures counted { Counted (result ≡ Err files.Device) (F.failures overlay.old) (F.failures overlay.new) }
{
    let copy = copy_at(root, path, name);
    let changed = differing(root, path, new_name);
    let was = match put_at(alloc, root, path, new_name, copy) {
        Ok(was) => was,
        Err(_) => return Err(FilesFault::Memory),
    };
    match store_without(alloc, root, overlay, path, name, changed) {
        Ok(()) => {
            remove_at(root, path, name);
            return Ok(());
        }
        Err(fault) => {
            take_back_at(root, path, new_name, was);
            return Err(fault);
        }
    }
}
