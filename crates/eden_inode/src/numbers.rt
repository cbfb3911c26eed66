//! Numbers of a directory that stands on a tree object, as its file has them.
ghost use Rattle.std.specs.Prelude.{◌≡◌, ◌↔◌, ◌≤◌, ◌⊎◌, Err, Some, OnOk, OnErr, IfOk, IfErr, IsTrue, true};
ghost use Rattle.std.specs.Option.{is_some};
ghost use Rattle.eden_model.specs.declared.id.Id as id;
ghost use Rattle.eden_model.specs.declared.kind.Origin.TheVariants as origins;
ghost use Rattle.eden_model.specs.Failures.{Counted};
ghost use Rattle.eden_overlay_format.specs.Directory.{AreStorable};
ghost use Rattle.eden_overlay_format.specs.Numbers.{none_is_own};
ghost use Rattle.eden_overlay.specs.Held.{saved_at, with_numbers};
ghost use Rattle.eden_overlay.specs.Soundness.{AreSound};
ghost use Rattle.eden_overlay.specs.declared.files.FilesFault.TheVariants as files;
ghost use Rattle.eden_tree.specs.Directory.{Directory, child_of};
ghost use Rattle.eden_coupling.specs.Listings.{listing_of, stored_entry};
ghost use Rattle.eden_inode.specs.Faults.{IsNumbersFault, without_numbers};
ghost use Rattle.eden_inode.specs.Saved.{AreNumbersSaved, HasSaved, StoresNumbers};

use crate::fill::holds;
use crate::listing::{Listed, write_listing};
use eden_model::{Fault, Id, Name, Origin, World};
use eden_overlay::{Files, FilesFault, GetFault, Overlay};
use eden_overlay_format::StoredEntry;
use eden_tree::{Dir, Entry};
use std::alloc::{Allocator, Global};

/// Whether a file has numbers that gave none for that fault: it has none, or that isn't told.
fn without_numbers(fault: GetFault) -> Result<bool, Fault>
    ensures { result ≡ without_numbers fault }
{
    match fault {
        GetFault::Absent => Ok(false),
        GetFault::Damaged(_) | GetFault::Device => Err(Fault::Overlay),
        GetFault::Memory => Err(Fault::Memory),
    }
}

/// Whether the file of that number has numbers for the directory of that tree object.
pub(crate) fn has_numbers<W: World, F: Files<W>>(
    alloc: Global,
    overlay: &mut Overlay<W, F>,
    number: u64,
    tree: Id,
) -> Result<bool, Fault>
    ensures told { W.honest → IfOk result (λ b. b ≡ is_some (saved_at (F.stored overlay.old) number tree)) }
    ensures fault { IfErr result
        (IsNumbersFault W.honest (F.failures overlay.old) (F.failures overlay.new) tree (F.stored overlay.old number)) }
    ensures files { W.honest → F.stored overlay.new ≡ F.stored overlay.old }
    ensures counted { F.failures overlay.old ≤ F.failures overlay.new }
{
    match overlay.get_numbers(alloc, number, tree) {
        Ok(_) => Ok(true),
        Err(fault) => without_numbers(fault),
    }
}

/// Whether the entry of that name is stored so.
fn is_stored_as<A: Allocator>(name: &Name, entry: &Entry<A>, stored: &StoredEntry) -> bool
    ensures { IsTrue result ↔ stored_entry (name.now, entry.now) ≡ stored.now }
{
    stored.number == entry.number
        && stored.kind == entry.kind
        && stored.origin == entry.origin
        && stored.name == *name
}

/// Whether these are a directory's entries as they are stored, in the same order.
fn has_listing<A: Allocator>(dir: &Dir<A>, entries: &[StoredEntry]) -> bool
    ensures { IsTrue result ↔ listing_of dir.now ≡ entries.now }
{
    if entries.len() != dir.count() as usize {
        return false;
    }
    for i in 0..dir.count() {
        if let Some((name, entry)) = dir.at(i) {
            if let Some(stored) = entries.get(i as usize) {
                if !is_stored_as(name, entry, stored) {
                    return false;
                }
            }
        }
    }
    true
}

/// Whether none of a directory's entries is the mount's own.
fn has_none_own<A: Allocator>(dir: &Dir<A>) -> bool
    ensures { IsTrue result → none_is_own (listing_of dir.now) ≡ true }
{
    for i in 0..dir.count() {
        if let Some((_, entry)) = dir.at(i) {
            match entry.origin {
                Origin::Own => return false,
                Origin::Object(_) | Origin::Empty => {}
            }
        }
    }
    true
}

/// Whether the file of that number has a directory's numbers for that tree object as they are.
fn are_saved<A: Allocator, W: World, F: Files<W>>(
    alloc: Global,
    overlay: &mut Overlay<W, F>,
    number: u64,
    tree: Id,
    dir: &Dir<A>,
) -> Result<bool, FilesFault>
    ensures saved { W.honest → IfOk result (λ b. IsTrue b
        → saved_at (F.stored overlay.old) number tree ≡ Some (listing_of dir.now)) }
    ensures files { W.honest → F.stored overlay.new ≡ F.stored overlay.old }
    ensures counted { Counted (result ≡ Err files.Device) (F.failures overlay.old) (F.failures overlay.new) }
{
    match overlay.get_numbers(alloc, number, tree) {
        Ok(entries) => Ok(has_listing(dir, &entries)),
        Err(GetFault::Absent | GetFault::Damaged(_)) => Ok(false),
        Err(GetFault::Device) => Err(FilesFault::Device),
        Err(GetFault::Memory) => Err(FilesFault::Memory),
    }
}

/// Stores a directory's numbers for that tree object as the file of that number. After an error nothing has changed.
fn store_numbers<A: Allocator, W: World, F: Files<W>>(
    alloc: Global,
    overlay: &mut Overlay<W, F>,
    number: u64,
    tree: Id,
    dir: &Dir<A>,
) -> Result<(), FilesFault>
    requires entries { AreStorable (listing_of dir.now) }
    requires sound { W.honest → AreSound (with_numbers (F.stored overlay.old) number tree (listing_of dir.now)) }
    ensures ok { W.honest
        → OnOk result (F.stored overlay.new ≡ with_numbers (F.stored overlay.old) number tree (listing_of dir.now)) }
    ensures none_own { OnOk result (none_is_own (listing_of dir.now) ≡ true) }
    ensures err { W.honest → OnErr result (F.stored overlay.new ≡ F.stored overlay.old) }
    ensures counted { Counted (result ≡ Err files.Device) (F.failures overlay.old) (F.failures overlay.new) }
{
    // A directory on a tree object has the object's entries, and none of those is the mount's own.
    if !has_none_own(dir) {
        return Err(FilesFault::Memory);
    }
    let entries = write_listing(overlay.room(alloc), dir, Listed::Whole)?;
    overlay.put_numbers(alloc, number, tree, entries)
}

/// Has a directory's numbers for that tree object saved as the file of that number: where the file has them already, it
/// is not written again. After an error nothing has changed.
pub(crate) fn save_numbers<A: Allocator, W: World, F: Files<W>>(
    alloc: Global,
    overlay: &mut Overlay<W, F>,
    number: u64,
    tree: Id,
    dir: &Dir<A>,
) -> Result<(), FilesFault>
    requires entries { AreStorable (listing_of dir.now) }
    requires sound { W.honest → AreSound (with_numbers (F.stored overlay.old) number tree (listing_of dir.now)) }
    ensures ok { W.honest
        → OnOk result (HasSaved (F.stored overlay.old) number tree (listing_of dir.now) (F.stored overlay.new)) }
    ensures saved { W.honest
        → OnOk result (saved_at (F.stored overlay.new) number tree ≡ Some (listing_of dir.now)) }
    ensures err { W.honest → OnErr result (F.stored overlay.new ≡ F.stored overlay.old) }
    ensures counted { Counted (result ≡ Err files.Device) (F.failures overlay.old) (F.failures overlay.new) }
{
    holds(&tree);
    match are_saved(alloc, overlay, number, tree, dir) {
        Err(fault) => Err(fault),
        Ok(true) => Ok(()),
        Ok(false) => store_numbers(alloc, overlay, number, tree, dir),
    }
}

/// `save_numbers` of the directory that an entry holds: of one that isn't loaded, or stands on no tree object, nothing
/// is saved. After an error nothing has changed.
pub(crate) fn save_entry<A: Allocator, W: World, F: Files<W>>(
    alloc: Global,
    overlay: &mut Overlay<W, F>,
    entry: &Entry<A>,
) -> Result<(), FilesFault>
    requires entries { (d : Directory) → child_of entry.now ≡ Some d → AreStorable (listing_of d) }
    requires sound { W.honest → (d : Directory) → (i : id.Id) → child_of entry.now ≡ Some d
        → entry.now.origin ≡ origins.Object i
        → AreSound (with_numbers (F.stored overlay.old) entry.now.number i (listing_of d)) }
    ensures saved { W.honest → OnOk result (AreNumbersSaved (F.stored overlay.new) entry.now) }
    ensures alone { W.honest → (F.stored overlay.new ≡ F.stored overlay.old)
        ⊎ StoresNumbers (F.stored overlay.old) entry.now (F.stored overlay.new) }
    ensures err { W.honest → OnErr result (F.stored overlay.new ≡ F.stored overlay.old) }
    ensures counted { Counted (result ≡ Err files.Device) (F.failures overlay.old) (F.failures overlay.new) }
{
    let number = entry.number;
    let Origin::Object(tree) = entry.origin else {
        return Ok(());
    };
    match entry.directory() {
        None => Ok(()),
        Some(dir) => save_numbers(alloc, overlay, number, tree, dir),
    }
}
