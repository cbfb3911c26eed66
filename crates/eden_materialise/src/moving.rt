//! An entry moved from one directory to another: both are stored, and then memory is so.

ghost use Rattle.std.specs.Prelude.{◌≡◌, ◌≢◌, Err, Some, None, if◌then◌else◌, IsSome, IfOk, IfSome};
ghost use Rattle.std.specs.Prelude.{OnOk, OnErr};
ghost use Rattle.eden_model.specs.Failures.{Counted};
ghost use Rattle.eden_model.specs.Named.{AreRising};
ghost use Rattle.eden_overlay_format.specs.Directory.{AreStorable};
ghost use Rattle.eden_overlay.specs.Soundness.{AreSound};
ghost use Rattle.eden_overlay.specs.declared.files.FilesFault.TheVariants as files;
ghost use Rattle.eden_tree.specs.Directory.{Row, Directory, child_of};
ghost use Rattle.eden_tree.specs.Rows.{find_row};
ghost use Rattle.eden_tree.specs.Paths.{row_at};
ghost use Rattle.eden_coupling.specs.Listings.{listing_of};
ghost use Rattle.eden_coupling.specs.Chains.{IsLoadedAt};
ghost use Rattle.eden_coupling.specs.Changing.{MayMove, changed, moved_in, files_left, files_moved};
ghost use Rattle.eden_inode.specs.Listed.{DiffersAt};
ghost use Rattle.eden_materialise.specs.Chains.{IsListedIfSaved};
ghost use Rattle.eden_materialise.specs.EntryMoves.{StaysOrLeaves};
ghost use Rattle.eden_materialise.specs.Moves.{left_by, both_by};
ghost use Rattle.eden_materialise.specs.Puts.{AtDirectory};

use crate::chain::{differing, store_lowest};
use crate::memory::{mark_at, put_at, remove_at, take_back_at};
use eden_inode::{Listed, write_listing};
use eden_model::{Name, World};
use eden_overlay::{Files, FilesFault, Overlay};
use eden_overlay_format::Listing;
use eden_tree::Entry;
use std::alloc::{AllocError, Allocator, Global};

/// A directory as it is to be stored.
#[derive(Drop)]
struct Ready {
    number: u64,
    entries: Listing,
}

/// The loaded directory at a path, as it is to be stored.
fn ready_at<A: Allocator>(
    alloc: Global,
    root: &Entry<A>,
    path: &[Name],
) -> Result<Ready, AllocError>
    requires loaded { IsLoadedAt path.now root.now }
    requires storable { AtDirectory path.now root.now (λ y d. AreStorable (listing_of d)) }
    ensures number { AtDirectory path.now root.now (λ y d. IfOk result (λ ready. ready.number ≡ y.number)) }
    ensures entries { AtDirectory path.now root.now (λ y d. IfOk result (λ ready. ready.entries ≡ listing_of d)) }
{
    match root.walk(path) {
        None => unreachable!(),
        Some(entry) => match entry.directory() {
            None => unreachable!(),
            Some(dir) => match write_listing(Vec::new(alloc), dir, Listed::Whole) {
                Err(refused) => return Err(refused),
                Ok(entries) => {
                    return Ok(Ready {
                        number: entry.number,
                        entries,
                    });
                }
            },
        },
    }
}

/// A copy of an entry that isn't loaded, of a name in the directory at a path.
pub(crate) fn copy_at<A: Allocator>(root: &Entry<A>, path: &[Name], name: &Name) -> Entry<A>
    requires { (y : Row)
        × ((d : Directory) ×
        ((row_at path.now root.now ≡ Some y) × ((child_of y ≡ Some d) × IsSome (find_row name.now d.rows)))) }
    ensures { AtDirectory path.now root.now
        (λ y d. (z : Row) → find_row name.now d.rows ≡ Some z → child_of z ≡ None → result ≡ z) }
{
    match root.walk(path) {
        None => unreachable!(),
        Some(above) => match above.directory() {
            None => unreachable!(),
            Some(dir) => match dir.get(name) {
                None => unreachable!(),
                Some(entry) => {
                    return Entry {
                        number: entry.number,
                        kind: entry.kind,
                        origin: entry.origin,
                        child: None,
                    };
                }
            },
        },
    }
}

/// Stores the directory at one path without the entry of that name, and then that at another as it is in memory. Where
/// the first one's file differs from what is to be stored in that entry alone, the name is told. Beside an error it
/// says whether the first is stored; the second isn't.
///
/// The second one is written before the first is stored: between the stores nothing but the files' own may want memory.
fn store_both<A: Allocator, W: World, F: Files<W>>(
    alloc: Global,
    overlay: &mut Overlay<W, F>,
    root: &Entry<A>,
    from: &[Name],
    name: &Name,
    differing: Option<&Name>,
    to: &[Name],
) -> (bool, Result<(), FilesFault>)
    requires from_loaded { IsLoadedAt from.now root.now }
    requires to_loaded { IsLoadedAt to.now root.now }
    requires first { AtDirectory from.now root.now (λ y d. AreStorable (listing_of (changed d name.now None))) }
    requires second { AtDirectory to.now root.now (λ y d. AreStorable (listing_of d)) }
    requires differs { W.honest
        → IfSome differing (λ n. AtDirectory from.now root.now
        (λ y d. DiffersAt n.now (F.stored overlay.old) y.number (listing_of (changed d name.now None)))) }
    requires first_sound { W.honest
        → AtDirectory from.now root.now (λ y d. AreSound (left_by name.now (F.stored overlay.old) y d)) }
    requires both_sound { W.honest
        → AtDirectory from.now root.now (λ y d. AtDirectory to.now root.now
        (λ u e. AreSound (both_by name.now (F.stored overlay.old) y d u e))) }
    ensures ok { W.honest
        → AtDirectory from.now root.now (λ y d. AtDirectory to.now root.now
        (λ u e. OnOk result.1 (F.stored overlay.new ≡ both_by name.now (F.stored overlay.old) y d u e))) }
    ensures err { W.honest
        → AtDirectory from.now root.now
        (λ y d. OnErr result.1 (F.stored overlay.new ≡
        (if result.0 then left_by name.now (F.stored overlay.old) y d else F.stored overlay.old))) }
    ensures counted { Counted (result.1 ≡ Err files.Device) (F.failures overlay.old) (F.failures overlay.new) }
{
    let second = match ready_at(alloc, root, to) {
        Ok(ready) => ready,
        Err(_) => return (false, Err(FilesFault::Memory)),
    };
    let listed = Some(Listed::Without(name));
    match store_lowest(alloc, root, overlay, from, listed, differing) {
        Ok(()) => (
            true,
            overlay.put_listing(alloc, second.number, second.entries),
        ),
        Err(fault) => (false, Err(fault)),
    }
}

/// Moves an entry that isn't loaded from one loaded directory of the mount's own to another, in place of any that is
/// there: the first is stored without it, the other with it, and then memory is so, both saved.
///
/// Where the device fails or there is no memory, memory is as it was, and the files are; or the first directory is
/// stored without the entry, and marked unsaved.
pub(crate) fn move_between<A: Allocator, W: World, F: Files<W>>(
    alloc: Global,
    root: &mut Entry<A>,
    overlay: &mut Overlay<W, F>,
    from: &[Name],
    name: &Name,
    to: &[Name],
    new_name: &Name,
) -> Result<(), FilesFault>
    requires may { MayMove root.old from.now name.now to.now new_name.now }
    requires rising { AtDirectory from.now root.old (λ y d. AreRising (λ r. r.0) d.rows) }
    requires apart { from.now ≢ to.now }
    requires listed { W.honest → AtDirectory from.now root.old (IsListedIfSaved (F.stored overlay.old)) }
    requires left_sound { W.honest → (m : MayMove root.old from.now name.now to.now new_name.now)
        → AreSound (files_left root.old from.now name.now to.now new_name.now m (F.stored overlay.old)) }
    requires moved_sound { W.honest → (m : MayMove root.old from.now name.now to.now new_name.now)
        → AreSound (files_moved root.old from.now name.now to.now new_name.now m (F.stored overlay.old)) }
    ensures ok { (m : MayMove root.old from.now name.now to.now new_name.now)
        → OnOk result (root.new ≡ moved_in root.old from.now name.now to.now new_name.now m) }
    ensures stored { W.honest → (m : MayMove root.old from.now name.now to.now new_name.now)
        → OnOk result (F.stored overlay.new ≡ files_moved root.old from.now name.now to.now new_name.now m
        (F.stored overlay.old)) }
    ensures err { (m : MayMove root.old from.now name.now to.now new_name.now)
        → OnErr result (StaysOrLeaves W.honest m (F.stored overlay.old) (F.stored overlay.new) root.new) }
    ensures counted { Counted (result ≡ Err files.Device) (F.failures overlay.old) (F.failures overlay.new) }
{
    let copy = copy_at(root, from, name);
    let changed = differing(root, from, name);
    let was = match put_at(alloc, root, to, new_name, copy) {
        Ok(was) => was,
        Err(_) => return Err(FilesFault::Memory),
    };
    match store_both(alloc, overlay, root, from, name, changed, to) {
        (_, Ok(())) => {
            remove_at(root, from, name);
            return Ok(());
        }
        (stored, Err(fault)) => {
            take_back_at(root, to, new_name, was);
            if stored {
                mark_at(root, from);
            }
            return Err(fault);
        }
    }
}
