//! The changes that closed files show against a commit's tree.

ghost use Rattle.std.specs.Prelude.{◌≡◌, ◌∷◌, ◌++◌, [], Some, IfOk, OnOk, OnErr};
ghost use Rattle.eden_snapshot.specs.Changes.{HasInside, IsBlobOf, StandsAs, StandsBy, Tells, TellsAll, TellsBelow};
ghost use Rattle.eden_snapshot.specs.Changes.{TellsDirectory, TellsInside};
ghost use Rattle.eden_snapshot.specs.Changes.{TellsAllSoFar, TellsBelowSoFar, TellsDirectorySoFar};
ghost use Rattle.eden_snapshot.specs.Changes.{TellsInsideSoFar, TellsNameSoFar};
ghost use Rattle.eden_snapshot.specs.Changes.{own_directory, own_directory_by, told_of};
ghost use Rattle.eden_snapshot.specs.Exact.{TellsExactly, TellsTruly};

use crate::change::{Change, Stand, change_of};
use crate::commit::tree_entries;
use crate::fault::{SnapshotFault, fault_of, of_sink};
use crate::rows::{Row, rows_of};
use crate::trail::Trail;
use crate::walk::{LEVELS, is_rooted, mode_of, stored_entries};
use eden_model::{Id, Kind, Mode, Name, Origin, TreeEntry, World};
use eden_object::{encode_blob, id_of};
use eden_overlay::{Files, FilesFault, Overlay, ROOT_NUMBER};
use eden_overlay_format::StoredEntry;
use eden_source::Source;
use std::alloc::Global;

/// Who is told of changes.
///
/// That each was told is promised where the World is honest. Each answer `Device` raises the count of failures, and no
/// other answer touches it.
pub trait ChangeSink<W: World> {
    ghost use Rattle.std.specs.Prelude.{◌≡◌, ◌∷◌, ◌++◌, [], ℕ, List, Err, OnOk, OnErr};
    ghost use Rattle.eden_model.specs.Failures.{Counted};
    ghost use Rattle.eden_snapshot.specs.Changes.{Told};
    ghost use Rattle.eden_overlay.specs.declared.files.FilesFault.TheVariants.{Device};

    /// The changes that it was told, in the order in which they came.
    ghost told: { Self → List Told };

    /// How often its device failed.
    ghost failures: { Self → ℕ };

    /// Is told of a change at that path.
    fn tell(&mut self, alloc: Global, path: &[Name], change: Change) -> Result<(), FilesFault>
        ensures ok { W.honest → OnOk result (told self.new ≡ told self.old ++ (path.now, change) ∷ []) }
        ensures err { W.honest → OnErr result (told self.new ≡ told self.old) }
        ensures counted { Counted (result ≡ Err Device) (failures self.old) (failures self.new) };
}

/// Tells how what the files show differs from the commit's tree `root`, path by path: of each directory first itself
/// and then what is inside, in byte order of names.
///
/// A directory of the mount's own is looked into, and the commit's tree at its path is asked for; nothing else of the
/// commit is. What isn't the mount's own is told by its top alone: a directory that was moved as one that is removed
/// and one that is added, and one that stands in the place of another as one that is modified. An own file whose blob
/// has the id that the commit has there is no change. So a path is told exactly where what the files show differs from
/// the commit's whole tree, but for what is below a path that is told by its top alone. Empty directories are told too,
/// which a snapshot leaves out, and a submodule that stands at a path where the commit has one is none.
///
/// What was told before an error is as it would have been told without it: all of some names in turn, and of the next
/// its own change or none, and some of what is below it.
pub fn changes<W: World, F: Files<W>, S: Source<W>, C: ChangeSink<W>>(
    alloc: Global,
    root: Id,
    overlay: &mut Overlay<W, F>,
    source: &mut S,
    sink: &mut C,
) -> Result<(), SnapshotFault>
    ensures told { W.honest → OnOk result
        (TellsAll (F.stored overlay.old) W.repository root (C.told sink.old) (C.told sink.new)) }
    ensures exact { W.honest → OnOk result
        (TellsExactly W.repository root (F.stored overlay.old) (C.told sink.old) (C.told sink.new)) }
    ensures told_so_far { W.honest → OnErr result
        (TellsAllSoFar (F.stored overlay.old) W.repository root (C.told sink.old) (C.told sink.new)) }
    ensures truly { W.honest → OnErr result
        (TellsTruly W.repository root (F.stored overlay.old) (C.told sink.old) (C.told sink.new)) }
    ensures unchanged { W.honest → F.stored overlay.new ≡ F.stored overlay.old }
{
    if !is_rooted(overlay)? {
        return Ok(());
    }
    let entries = entries_of::<W, S>(alloc, source, root)?;
    let mut trail = Trail::new(alloc);
    let number = ROOT_NUMBER;
    directory(
        alloc, overlay, source, sink, &mut trail, number, entries, LEVELS,
    )?;
    Ok(())
}

// The entries of a tree of the commit.
fn entries_of<W: World, S: Source<W>>(
    alloc: Global,
    source: &mut S,
    id: Id,
) -> Result<Vec<TreeEntry>, SnapshotFault>
    ensures { W.honest → IfOk result (λ entries. W.repository.tree id ≡ Some entries.items) }
{
    match tree_entries::<W, S>(alloc, source, id) {
        Ok(entries) => Ok(entries),
        Err(cause) => Err(SnapshotFault::Object(cause)),
    }
}

// The entries that the commit has below a place.
fn entries_inside<W: World, S: Source<W>>(
    alloc: Global,
    source: &mut S,
    place: Option<(Mode, Id)>,
) -> Result<Vec<TreeEntry>, SnapshotFault>
    ensures { W.honest → IfOk result (λ entries. HasInside W.repository place entries.items) }
{
    match place {
        Some((Mode::Dir, id)) => entries_of::<W, S>(alloc, source, id),
        _ => Ok(Vec::new(alloc)),
    }
}

// Tells the changes in the own directory of that number, which lies so many levels above the last one. The commit has
// these entries there.
#[cycle(changes)]
fn directory<W: World, F: Files<W>, S: Source<W>, C: ChangeSink<W>>(
    alloc: Global,
    overlay: &mut Overlay<W, F>,
    source: &mut S,
    sink: &mut C,
    trail: &mut Trail,
    number: u64,
    before: Vec<TreeEntry>,
    levels: u32,
) -> Result<(), SnapshotFault>
    ensures told { W.honest → OnOk result (TellsDirectory (F.stored overlay.old) W.repository trail.old number
        before.items (C.told sink.old) (C.told sink.new)) }
    ensures so_far { W.honest → OnErr result (TellsDirectorySoFar (F.stored overlay.old) W.repository trail.old number
        before.items (C.told sink.old) (C.told sink.new)) }
    ensures unchanged { W.honest → F.stored overlay.new ≡ F.stored overlay.old }
    ensures back { OnOk result (trail.new ≡ trail.old) }
{
    let entries = stored_entries(alloc, overlay, number)?;
    let rows = rows_of(alloc, before, entries)?;
    'rows: for row in rows {
        entry(alloc, overlay, source, sink, trail, &row, levels)?;
    }
    Ok(())
}

// Tells the change under a name, and those below it.
#[cycle(changes)]
fn entry<W: World, F: Files<W>, S: Source<W>, C: ChangeSink<W>>(
    alloc: Global,
    overlay: &mut Overlay<W, F>,
    source: &mut S,
    sink: &mut C,
    trail: &mut Trail,
    named: &(Name, Row),
    levels: u32,
) -> Result<(), SnapshotFault>
    ensures told { W.honest → OnOk result (Tells (F.stored overlay.old) W.repository trail.old (named.now ∷ [])
        (C.told sink.old) (C.told sink.new)) }
    ensures so_far { W.honest → OnErr result (TellsNameSoFar (F.stored overlay.old) W.repository trail.old named.now
        (C.told sink.old) (C.told sink.new)) }
    ensures unchanged { W.honest → F.stored overlay.new ≡ F.stored overlay.old }
    ensures back { OnOk result (trail.new ≡ trail.old) }
{
    let row = &named.1;
    trail.enter(alloc, &named.0)?;
    let stand = stand_of(alloc, overlay, &row.new)?;
    tell(alloc, sink, trail, change_of(row.old, stand))?;
    below(alloc, overlay, source, sink, trail, row, levels)?;
    trail.leave();
    Ok(())
}

// Tells the changes below a name, where an own directory stands there.
#[cycle(changes)]
fn below<W: World, F: Files<W>, S: Source<W>, C: ChangeSink<W>>(
    alloc: Global,
    overlay: &mut Overlay<W, F>,
    source: &mut S,
    sink: &mut C,
    trail: &mut Trail,
    row: &Row,
    levels: u32,
) -> Result<(), SnapshotFault>
    ensures told { W.honest → OnOk result (TellsBelow (F.stored overlay.old) W.repository trail.old
        (own_directory row.now.new) row.now.old (C.told sink.old) (C.told sink.new)) }
    ensures so_far { W.honest → OnErr result (TellsBelowSoFar (F.stored overlay.old) W.repository trail.old
        (own_directory row.now.new) row.now.old (C.told sink.old) (C.told sink.new)) }
    ensures unchanged { W.honest → F.stored overlay.new ≡ F.stored overlay.old }
    ensures back { OnOk result (trail.new ≡ trail.old) }
{
    match own_directory(&row.new) {
        None => Ok(()),
        Some(number) => inside(alloc, overlay, source, sink, trail, number, row.old, levels),
    }
}

// Tells the changes in the own directory of that number, where the commit has that.
#[cycle(changes)]
fn inside<W: World, F: Files<W>, S: Source<W>, C: ChangeSink<W>>(
    alloc: Global,
    overlay: &mut Overlay<W, F>,
    source: &mut S,
    sink: &mut C,
    trail: &mut Trail,
    number: u64,
    place: Option<(Mode, Id)>,
    levels: u32,
) -> Result<(), SnapshotFault>
    ensures told { W.honest → OnOk result (TellsInside (F.stored overlay.old) W.repository trail.old number place
        (C.told sink.old) (C.told sink.new)) }
    ensures so_far { W.honest → OnErr result (TellsInsideSoFar (F.stored overlay.old) W.repository trail.old number
        place (C.told sink.old) (C.told sink.new)) }
    ensures unchanged { W.honest → F.stored overlay.new ≡ F.stored overlay.old }
    ensures back { OnOk result (trail.new ≡ trail.old) }
{
    if levels == 0 {
        return Err(SnapshotFault::TooDeep(number));
    }
    let entries = entries_inside::<W, S>(alloc, source, place)?;
    directory(
        alloc,
        overlay,
        source,
        sink,
        trail,
        number,
        entries,
        levels - 1,
    )
}

// Tells a change where there is one.
fn tell<W: World, C: ChangeSink<W>>(
    alloc: Global,
    sink: &mut C,
    trail: &Trail,
    change: Option<Change>,
) -> Result<(), SnapshotFault>
    ensures ok { W.honest → OnOk result (C.told sink.new ≡ C.told sink.old ++ told_of trail.now change) }
    ensures err { W.honest → OnErr result (C.told sink.new ≡ C.told sink.old) }
{
    match change {
        None => Ok(()),
        Some(change) => sink.tell(alloc, trail.as_slice(), change).map_err(of_sink),
    }
}

// The number of an own directory.
fn own_directory(entry: &Option<StoredEntry>) -> Option<u64>
    ensures { result ≡ own_directory entry.now }
{
    match entry {
        None => None,
        Some(entry) => own_directory_by(entry),
    }
}

fn own_directory_by(entry: &StoredEntry) -> Option<u64>
    ensures { result ≡ own_directory_by entry.now.number entry.now.kind entry.now.origin }
{
    match (entry.origin, entry.kind) {
        (Origin::Own, Kind::Dir) => Some(entry.number),
        _ => None,
    }
}

// What stands there, where there is an entry.
fn stand_of<W: World, F: Files<W>>(
    alloc: Global,
    overlay: &mut Overlay<W, F>,
    entry: &Option<StoredEntry>,
) -> Result<Option<Stand>, SnapshotFault>
    ensures stands { W.honest → IfOk result (StandsAs (F.stored overlay.old) entry.now) }
    ensures unchanged { W.honest → F.stored overlay.new ≡ F.stored overlay.old }
{
    match entry {
        None => Ok(None),
        Some(entry) => Ok(Some(stand_by(alloc, overlay, entry)?)),
    }
}

// What an entry stands as.
fn stand_by<W: World, F: Files<W>>(
    alloc: Global,
    overlay: &mut Overlay<W, F>,
    entry: &StoredEntry,
) -> Result<Stand, SnapshotFault>
    ensures stands { W.honest → IfOk result
        (StandsBy (F.stored overlay.old) entry.now.number entry.now.kind entry.now.origin) }
    ensures unchanged { W.honest → F.stored overlay.new ≡ F.stored overlay.old }
{
    match entry.origin {
        Origin::Object(id) => Ok((mode_of(entry.kind), Some(id))),
        Origin::Empty => Ok((Mode::Gitlink, None)),
        Origin::Own => match entry.kind {
            Kind::Dir => Ok((Mode::Dir, None)),
            Kind::File => Ok((Mode::File, Some(blob_of(alloc, overlay, entry.number)?))),
            Kind::Exec => Ok((Mode::Exec, Some(blob_of(alloc, overlay, entry.number)?))),
            Kind::Link => Ok((Mode::Link, Some(blob_of(alloc, overlay, entry.number)?))),
        },
    }
}

// The id of the blob of the content of that number.
fn blob_of<W: World, F: Files<W>>(
    alloc: Global,
    overlay: &mut Overlay<W, F>,
    number: u64,
) -> Result<Id, SnapshotFault>
    ensures blob { W.honest → IfOk result (IsBlobOf (F.stored overlay.old) number) }
    ensures unchanged { W.honest → F.stored overlay.new ≡ F.stored overlay.old }
{
    let content = match overlay.get_file(alloc, number) {
        Ok(content) => content,
        Err(fault) => return Err(fault_of(number, fault)),
    };
    let blob = encode_blob(alloc, content.as_slice())?;
    Ok(id_of(blob.as_slice()))
}
