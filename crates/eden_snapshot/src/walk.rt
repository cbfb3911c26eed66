//! A snapshot of closed files.

ghost use Rattle.std.specs.Prelude.{◌≡◌, ◌∷◌, [], IfOk, OnOk, is_some};
ghost use Rattle.eden_model.specs.Repository.{Repository, Whole};
ghost use Rattle.eden_overlay.specs.Held.{HoldsEntries, root_file};
ghost use Rattle.eden_snapshot.specs.Ordering.{GrowsInOrder};
ghost use Rattle.eden_snapshot.specs.Pruning.{IsPruned};
ghost use Rattle.eden_snapshot.specs.Showing.{FilesShow};
ghost use Rattle.eden_snapshot.specs.Sinks.{HasAll};
ghost use Rattle.eden_snapshot.specs.Written as spec;
ghost use Rattle.eden_snapshot.specs.Written.{HandedContent, HandedTree, IsSubmodule, StandsFor};
ghost use Rattle.eden_snapshot.specs.Written.{WritesEntries, WritesDirectory, WritesTop, tree_entries_of};

use crate::fault::{SnapshotFault, fault_of, of_files, of_sink};
use crate::left_out::LeftOut;
use crate::sink::Sink;
use crate::submodules::Submodules;
use crate::trail::Trail;
use eden_model::{Id, Kind, Mode, Origin, TreeEntry, World};
use eden_object::{encode_blob, encode_tree, id_of, is_encodable};
use eden_overlay::{Files, Overlay, ROOT_NUMBER};
use eden_overlay_format::StoredEntry;
use std::alloc::Global;

/// How many levels below the top an own directory may lie.
pub const LEVELS: u32 = 1024;

/// The id of a tree of what the files show above the commit's tree `root`. The sink has its objects then, beside those
/// of the commit, and the paths of the directories that the tree leaves out.
///
/// What is an object of the commit is asked of nobody. `submodules` is asked for the paths of submodules alone that lie
/// in a directory of the mount's own.
pub fn snapshot<W: World, F: Files<W>, S: Sink<W>, M: Submodules<W>>(
    alloc: Global,
    root: Id,
    overlay: &mut Overlay<W, F>,
    sink: &mut S,
    submodules: &mut M,
) -> Result<Id, SnapshotFault>
    ensures shown { W.honest → IfOk result (λ id. (R : Repository) → HasAll R (S.filled sink.new).kept
        → IsPruned (FilesShow R root (F.stored overlay.old)) (Whole R id)) }
    ensures written { W.honest → IfOk result (λ id. WritesTop (F.stored overlay.old) (M.known submodules.old) root id
        (S.filled sink.old) (S.filled sink.new)) }
    ensures ordered { W.honest → IfOk result
        (λ _. GrowsInOrder (F.stored overlay.old) (S.filled sink.old).kept (S.filled sink.new).kept) }
    ensures unchanged { W.honest → F.stored overlay.new ≡ F.stored overlay.old }
{
    if !is_rooted(overlay)? {
        return Ok(root);
    }
    let mut trail = Trail::new(alloc);
    let entries = directory(
        alloc,
        overlay,
        sink,
        submodules,
        &mut trail,
        ROOT_NUMBER,
        LEVELS,
    )?;
    hand_tree(alloc, sink, ROOT_NUMBER, entries.as_slice())
}

// Whether the root is the mount's own.
pub(crate) fn is_rooted<W: World, F: Files<W>>(
    overlay: &mut Overlay<W, F>,
) -> Result<bool, SnapshotFault>
    ensures told { W.honest → IfOk result (λ b. b ≡ is_some (root_file (F.stored overlay.old))) }
    ensures unchanged { W.honest → F.stored overlay.new ≡ F.stored overlay.old }
{
    overlay.is_rooted().map_err(of_files)
}

// How Git tells that kind.
pub(crate) fn mode_of(kind: Kind) -> Mode
    ensures { result ≡ spec.mode_of kind }
{
    match kind {
        Kind::File => Mode::File,
        Kind::Exec => Mode::Exec,
        Kind::Link => Mode::Link,
        Kind::Dir => Mode::Dir,
    }
}

// Hands the tree of the entries in, of the directory of that number.
fn hand_tree<W: World, S: Sink<W>>(
    alloc: Global,
    sink: &mut S,
    number: u64,
    entries: &[TreeEntry],
) -> Result<Id, SnapshotFault>
    ensures { W.honest → IfOk result (λ id. HandedTree entries.now id (S.filled sink.old) (S.filled sink.new)) }
{
    if !is_encodable(alloc, entries)? {
        return Err(SnapshotFault::TooLarge(number));
    }
    let framed = encode_tree(alloc, entries)?;
    sink.put(alloc, framed.as_slice()).map_err(of_sink)?;
    Ok(id_of(framed.as_slice()))
}

// Hands the content of that number in, as a blob.
fn hand_content<W: World, F: Files<W>, S: Sink<W>>(
    alloc: Global,
    overlay: &mut Overlay<W, F>,
    sink: &mut S,
    number: u64,
) -> Result<Id, SnapshotFault>
    ensures handed { W.honest → IfOk result
        (λ id. HandedContent (F.stored overlay.old) number id (S.filled sink.old) (S.filled sink.new)) }
    ensures unchanged { W.honest → F.stored overlay.new ≡ F.stored overlay.old }
{
    let content = match overlay.get_file(alloc, number) {
        Ok(content) => content,
        Err(fault) => return Err(fault_of(number, fault)),
    };
    let blob = encode_blob(alloc, content.as_slice())?;
    sink.put(alloc, blob.as_slice()).map_err(of_sink)?;
    Ok(id_of(blob.as_slice()))
}

// The entries of the directory of that number.
pub(crate) fn stored_entries<W: World, F: Files<W>>(
    alloc: Global,
    overlay: &mut Overlay<W, F>,
    number: u64,
) -> Result<Vec<StoredEntry>, SnapshotFault>
    ensures held { W.honest → IfOk result (λ v. HoldsEntries (F.stored overlay.old) number v.items) }
    ensures unchanged { W.honest → F.stored overlay.new ≡ F.stored overlay.old }
{
    match overlay.get_dir(alloc, number) {
        Ok(entries) => Ok(entries),
        Err(fault) => Err(fault_of(number, fault)),
    }
}

// What stands for the submodule at the path, or None where the commit has none there.
fn submodule<W: World, S: Sink<W>, M: Submodules<W>>(
    alloc: Global,
    sink: &mut S,
    submodules: &mut M,
    trail: &Trail,
) -> Result<Option<(Mode, Id)>, SnapshotFault>
    ensures written { W.honest → IfOk result
        (λ found. IsSubmodule (M.known submodules.old) trail.now found (S.filled sink.old) (S.filled sink.new)) }
    ensures known { W.honest → M.known submodules.new ≡ M.known submodules.old }
{
    match submodules.at(alloc, trail.as_slice()) {
        Ok(Some(id)) => Ok(Some((Mode::Gitlink, id))),
        Ok(None) => {
            sink.leave_out(alloc, trail.as_slice(), LeftOut::Submodule)
                .map_err(of_sink)?;
            Ok(None)
        }
        Err(cause) => Err(SnapshotFault::Object(cause)),
    }
}

// The entries of the tree of the directory of that number, which lies so many levels above the last one.
#[cycle(walk)]
fn directory<W: World, F: Files<W>, S: Sink<W>, M: Submodules<W>>(
    alloc: Global,
    overlay: &mut Overlay<W, F>,
    sink: &mut S,
    submodules: &mut M,
    trail: &mut Trail,
    number: u64,
    levels: u32,
) -> Result<Vec<TreeEntry>, SnapshotFault>
    ensures written { W.honest → IfOk result (λ v. WritesDirectory (F.stored overlay.old) (M.known submodules.old)
        trail.old number v.items (S.filled sink.old) (S.filled sink.new)) }
    ensures unchanged { W.honest → F.stored overlay.new ≡ F.stored overlay.old }
    ensures known { W.honest → M.known submodules.new ≡ M.known submodules.old }
    ensures back { OnOk result (trail.new ≡ trail.old) }
{
    let entries = stored_entries(alloc, overlay, number)?;
    let mut tree = Vec::new(alloc);
    'entries: for entry in entries {
        let found = object_of(alloc, overlay, sink, submodules, trail, &entry, levels)?;
        if let Some(stands) = found {
            tree.push(TreeEntry {
                mode: stands.0,
                name: entry.name,
                id: stands.1,
            })?;
        }
    }
    Ok(tree)
}

// The mode and the id of the object that an entry is written as, or None where it is left out.
#[cycle(walk)]
fn object_of<W: World, F: Files<W>, S: Sink<W>, M: Submodules<W>>(
    alloc: Global,
    overlay: &mut Overlay<W, F>,
    sink: &mut S,
    submodules: &mut M,
    trail: &mut Trail,
    entry: &StoredEntry,
    levels: u32,
) -> Result<Option<(Mode, Id)>, SnapshotFault>
    ensures written { W.honest → IfOk result (λ found. WritesEntries (F.stored overlay.old) (M.known submodules.old)
        trail.old (entry.now ∷ []) (tree_entries_of entry.now found) (S.filled sink.old) (S.filled sink.new)) }
    ensures unchanged { W.honest → F.stored overlay.new ≡ F.stored overlay.old }
    ensures known { W.honest → M.known submodules.new ≡ M.known submodules.old }
    ensures back { OnOk result (trail.new ≡ trail.old) }
{
    match entry.origin {
        Origin::Object(id) => Ok(Some((mode_of(entry.kind), id))),
        Origin::Empty => {
            trail.enter(alloc, &entry.name)?;
            let found = submodule(alloc, sink, submodules, trail)?;
            trail.leave();
            Ok(found)
        }
        Origin::Own => match entry.kind {
            Kind::Dir => {
                trail.enter(alloc, &entry.name)?;
                let tree = tree_of(
                    alloc,
                    overlay,
                    sink,
                    submodules,
                    trail,
                    entry.number,
                    levels,
                )?;
                trail.leave();
                Ok(tree)
            }
            _ => {
                let blob = hand_content(alloc, overlay, sink, entry.number)?;
                Ok(Some((mode_of(entry.kind), blob)))
            }
        },
    }
}

// What the own directory of that number is written as, or None where it is left out.
#[cycle(walk)]
fn tree_of<W: World, F: Files<W>, S: Sink<W>, M: Submodules<W>>(
    alloc: Global,
    overlay: &mut Overlay<W, F>,
    sink: &mut S,
    submodules: &mut M,
    trail: &mut Trail,
    number: u64,
    levels: u32,
) -> Result<Option<(Mode, Id)>, SnapshotFault>
    ensures written { W.honest → IfOk result (λ found. StandsFor (F.stored overlay.old) (M.known submodules.old)
        trail.old number found (S.filled sink.old) (S.filled sink.new)) }
    ensures unchanged { W.honest → F.stored overlay.new ≡ F.stored overlay.old }
    ensures known { W.honest → M.known submodules.new ≡ M.known submodules.old }
    ensures back { OnOk result (trail.new ≡ trail.old) }
{
    if levels == 0 {
        return Err(SnapshotFault::TooDeep(number));
    }
    let below = directory(alloc, overlay, sink, submodules, trail, number, levels - 1)?;
    if below.is_empty() {
        sink.leave_out(alloc, trail.as_slice(), LeftOut::Empty)
            .map_err(of_sink)?;
        return Ok(None);
    }
    let id = hand_tree(alloc, sink, number, below.as_slice())?;
    Ok(Some((Mode::Dir, id)))
}
