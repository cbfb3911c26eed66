//! A chain of directories made the mount's own: stored from the lowest up, and then marked in memory.

ghost use Rattle.std.specs.Prelude.{◌≡◌, ◌⊎◌, Bool, Err, Some, false, true, if◌then◌else◌, MatchBool, IfSome, OnOk};
ghost use Rattle.std.specs.Prelude.{OnErr};
ghost use Rattle.eden_model.specs.Failures.{Counted};
ghost use Rattle.eden_overlay_format.specs.Directory.{AreStorable, is_own};
ghost use Rattle.eden_overlay.specs.Files.{Stored};
ghost use Rattle.eden_overlay.specs.Held.{with_entries};
ghost use Rattle.eden_overlay.specs.Soundness.{AreSound};
ghost use Rattle.eden_overlay.specs.declared.files.FilesFault.TheVariants as files;
ghost use Rattle.eden_tree.specs.Rows.{find_row};
ghost use Rattle.eden_coupling.specs.Chains.{IsLoadedAt, IsAboveOther, Above, Unfinished, Refused};
ghost use Rattle.eden_coupling.specs.Laws.{owned};
ghost use Rattle.eden_coupling.specs.Materialising.{marked_listing, Chain, IsChain, kept_mark, owned_along};
ghost use Rattle.eden_inode.specs.Listed.{DiffersAt};
ghost use Rattle.eden_materialise.specs.Chains.{lowest_of, with_lowest, IsOwnAndSaved, StoresChain, StopsChain};
ghost use Rattle.eden_materialise.specs.Chains.{StoresAgain, StaySound, IsHeld};
ghost use Rattle.eden_materialise.specs.Puts.{AtDirectory};

use eden_inode::{Listed, save, save_changed};
use eden_model::{Name, Origin, World};
use eden_overlay::{Files, FilesFault, Overlay};
use eden_tree::{Dir, Entry};
use std::alloc::{Allocator, Global};

/// Whether the origin is the mount's own.
pub(crate) fn is_own(origin: Origin) -> bool
    ensures { result ≡ is_own origin }
{
    match origin {
        Origin::Own => true,
        Origin::Object(_) | Origin::Empty => false,
    }
}

/// Whether both are the mount's own.
fn are_own(one: Origin, other: Origin) -> bool
    ensures { MatchBool result ((is_own one ≡ true) × (is_own other ≡ true))
        ((is_own one ≡ false) ⊎ (is_own other ≡ false)) }
{
    if is_own(one) {
        return is_own(other);
    }
    false
}

/// The name, where the directory at a path is the mount's own and saved: then its file lists what it has in memory, and
/// once the entry of that name changes it differs from that in this entry alone.
pub(crate) fn differing<'a, A: Allocator>(
    root: &Entry<A>,
    path: &[Name],
    name: &'a Name,
) -> Option<&'a Name>
    ensures { IfSome result (λ n. (n.now ≡ name.now) × AtDirectory path.now root.now IsOwnAndSaved) }
{
    match root.walk(path) {
        None => None,
        Some(entry) => match entry.directory() {
            None => None,
            Some(dir) => {
                if is_own(entry.origin) && !dir.unsaved() {
                    return Some(name);
                }
                None
            }
        },
    }
}

/// Stores the directory at a path so, or where it isn't told how, whole, unless it is its own already. Where its file
/// differs from that in the entry of a name alone, that name is told.
pub(crate) fn store_lowest<A: Allocator, W: World, F: Files<W>>(
    alloc: Global,
    root: &Entry<A>,
    overlay: &mut Overlay<W, F>,
    path: &[Name],
    lowest: Option<Listed<'_>>,
    differing: Option<&Name>,
) -> Result<(), FilesFault>
    requires loaded { IsLoadedAt path.now root.now }
    requires entries { AtDirectory path.now root.now (λ y d. IfSome (lowest_of lowest y d) AreStorable) }
    requires sound { W.honest
        → AtDirectory path.now root.now
        (λ y d. AreSound (with_lowest (F.stored overlay.old) y.number (lowest_of lowest y d))) }
    requires differs { W.honest
        → IfSome differing (λ n. AtDirectory path.now root.now
        (λ y d. IfSome (lowest_of lowest y d) (DiffersAt n.now (F.stored overlay.old) y.number))) }
    ensures ok { W.honest
        → AtDirectory path.now root.now
        (λ y d. OnOk result (F.stored overlay.new ≡ with_lowest (F.stored overlay.old) y.number
        (lowest_of lowest.entry y d))) }
    ensures err { W.honest → OnErr result (F.stored overlay.new ≡ F.stored overlay.old) }
    ensures counted { Counted (result ≡ Err files.Device) (F.failures overlay.old) (F.failures overlay.new) }
{
    match root.walk(path) {
        None => unreachable!(),
        Some(entry) => match entry.directory() {
            None => unreachable!(),
            Some(dir) => match lowest {
                Some(listed) => match differing {
                    Some(name) => {
                        return save_changed(alloc, overlay, entry.number, dir, listed, name);
                    }
                    None => return save(alloc, overlay, entry.number, dir, listed),
                },
                None => {
                    if is_own(entry.origin) {
                        return Ok(());
                    }
                    return save(alloc, overlay, entry.number, dir, Listed::Whole);
                }
            },
        },
    }
}

/// Stores a directory with its entry of that name, which is below, as its own, unless both are their own already.
fn store_again<A: Allocator, W: World, F: Files<W>>(
    alloc: Global,
    overlay: &mut Overlay<W, F>,
    entry: &Entry<A>,
    dir: &Dir<A>,
    name: &Name,
    below: &Entry<A>,
) -> Result<(), FilesFault>
    requires entries { AreStorable (marked_listing dir.now name.now) }
    requires sound { W.honest → IsAboveOther entry.now below.now
        → AreSound (with_entries (F.stored overlay.old) entry.now.number (marked_listing dir.now name.now)) }
    ensures ok { W.honest
        → OnOk result (StoresAgain (F.stored overlay.old) entry.now dir.now name.now below.now (F.stored overlay.new)) }
    ensures err { W.honest
        → OnErr result ((F.stored overlay.new ≡ F.stored overlay.old) × IsAboveOther entry.now below.now) }
    ensures counted { Counted (result ≡ Err files.Device) (F.failures overlay.old) (F.failures overlay.new) }
{
    if are_own(entry.origin, below.origin) {
        return Ok(());
    }
    save(alloc, overlay, entry.number, dir, Listed::Owned(name))
}

/// Stores the loaded directories above the one at a path, from the lowest up: each that isn't the mount's own, and each
/// above one that isn't.
///
/// Where the device fails or there is no memory, some of them may have been stored, the lowest first.
fn store_above<A: Allocator, W: World, F: Files<W>>(
    alloc: Global,
    root: &Entry<A>,
    overlay: &mut Overlay<W, F>,
    path: &[Name],
) -> Result<(), FilesFault>
    requires chain { IsChain root.now path.now }
    requires sound { W.honest → StaySound (F.stored overlay.old) root.now path.now }
    ensures ok { W.honest → OnOk result (Above (F.stored overlay.old) root.now path.now (F.stored overlay.new)) }
    ensures err { W.honest → OnErr result (Unfinished (F.stored overlay.old) root.now path.now (F.stored overlay.new)) }
    ensures counted { Counted (result ≡ Err files.Device) (F.failures overlay.old) (F.failures overlay.new) }
{
    match path.split_first() {
        None => return Ok(()),
        Some((name, rest)) => match root.directory() {
            None => unreachable!(),
            Some(dir) => match dir.get(name) {
                None => unreachable!(),
                Some(below) => {
                    store_above(alloc, below, overlay, rest)?;
                    return store_again(alloc, overlay, root, dir, name, below);
                }
            },
        },
    }
}

/// Stores the chain of loaded directories along a path, from the lowest up: that one so, and each above it that isn't
/// the mount's own or stands above one that isn't. Where the file of that one differs from what is to be stored in the
/// entry of a name alone, that name is told.
///
/// Where the device fails or there is no memory, some of them may have been stored, the lowest first.
pub(crate) fn store_chain<A: Allocator, W: World, F: Files<W>>(
    alloc: Global,
    root: &Entry<A>,
    overlay: &mut Overlay<W, F>,
    path: &[Name],
    lowest: Option<Listed<'_>>,
    differing: Option<&Name>,
) -> Result<(), FilesFault>
    requires chain { IsChain root.now path.now }
    requires loaded { IsLoadedAt path.now root.now }
    requires entries { AtDirectory path.now root.now (λ y d. IfSome (lowest_of lowest y d) AreStorable) }
    requires sound { W.honest
        → AtDirectory path.now root.now
        (λ y d. StaySound (with_lowest (F.stored overlay.old) y.number (lowest_of lowest y d)) root.now path.now) }
    requires differs { W.honest
        → IfSome differing (λ n. AtDirectory path.now root.now
        (λ y d. IfSome (lowest_of lowest y d) (DiffersAt n.now (F.stored overlay.old) y.number))) }
    ensures ok { W.honest
        → OnOk result (StoresChain path.now lowest.entry (F.stored overlay.old) root.now (F.stored overlay.new)) }
    ensures err { W.honest
        → OnErr result (StopsChain path.now lowest.entry (F.stored overlay.old) root.now (F.stored overlay.new)) }
    ensures counted { Counted (result ≡ Err files.Device) (F.failures overlay.old) (F.failures overlay.new) }
{
    store_lowest(alloc, root, overlay, path, lowest, differing)?;
    store_above(alloc, root, overlay, path)
}

/// Whether the entry of that name is there and not its own.
fn becomes_own<A: Allocator>(dir: &Dir<A>, name: &Name) -> bool
    ensures { (mark : Bool) → kept_mark (find_row name.now dir.now.rows) mark ≡ (if result then false else mark) }
{
    match dir.get(name) {
        None => false,
        Some(entry) => !is_own(entry.origin),
    }
}

/// Marks the directories of the chain below an entry as the mount's own, and those that were stored as saved.
fn mark_chain<A: Allocator>(root: &mut Entry<A>, path: &[Name])
    ensures { root.new ≡ owned_along path.now root.old }
{
    match path.split_first() {
        None => return,
        Some((name, rest)) => match root.directory_mut() {
            None => return,
            Some(dir) => {
                if becomes_own(dir, name) {
                    dir.set_unsaved(false);
                }
                match dir.get_mut(name) {
                    None => return,
                    Some(below) => {
                        mark_chain(below, rest);
                        below.origin = Origin::Own;
                    }
                }
            }
        },
    }
}

/// Marks the directories of the chain, the root's entry among them, as the mount's own.
pub(crate) fn mark_own<A: Allocator>(root: &mut Entry<A>, path: &[Name])
    ensures { root.new ≡ owned (owned_along path.now root.old) }
{
    mark_chain(root, path);
    root.origin = Origin::Own;
}

/// Makes the loaded directories along a path the mount's own, that of the root's entry among them: each that isn't its
/// own, and each above one that isn't, is stored, the lowest first, and then memory is so.
///
/// Where the device fails or there is no memory, memory is as it was; some of the directories may have been stored, the
/// lowest first.
pub(crate) fn own_chain<A: Allocator, W: World, F: Files<W>>(
    alloc: Global,
    root: &mut Entry<A>,
    overlay: &mut Overlay<W, F>,
    path: &[Name],
) -> Result<(), FilesFault>
    requires loaded { IsLoadedAt path.now root.old }
    requires held { IsHeld W.honest W.repository (F.stored overlay.old) root.old }
    ensures ok { OnOk result (root.new ≡ owned (owned_along path.now root.old)) }
    ensures stored { W.honest → OnOk result (Chain (F.stored overlay.old) root.old path.now (F.stored overlay.new)) }
    ensures err { OnErr result (root.new ≡ root.old) }
    ensures strays { W.honest → OnErr result (Refused (F.stored overlay.old) root.old path.now (F.stored overlay.new)) }
    ensures counted { Counted (result ≡ Err files.Device) (F.failures overlay.old) (F.failures overlay.new) }
{
    store_chain(alloc, root, overlay, path, None, None)?;
    mark_own(root, path);
    Ok(())
}
