//! The walk over own directories, beside a commit's trees.

ghost use Rattle.std.specs.Prelude.{◌≡◌, ◌⊎◌, ◌≤◌, ◌<◌, ◌+◌, ◌++◌, ◌∷◌, [], ℕ, Some, false, List, length};
ghost use Rattle.std.specs.Prelude.{All, Contains, IfOk, IsSome, OnErr, OnOk};
ghost use Rattle.std.specs.Option.{is_some};
ghost use Rattle.eden_model.specs.declared.id.Id.{Id};
ghost use Rattle.eden_model.specs.declared.kind.Mode.TheVariants as mode;
ghost use Rattle.eden_model.specs.declared.tree_entry.TreeEntry.{TreeEntry};
ghost use Rattle.eden_overlay_format.specs.Directory.{AreStorable, IsStorable};
ghost use Rattle.eden_overlay_format.specs.State.{IsGoodState};
ghost use Rattle.eden_overlay_format.specs.declared.stored_entry.StoredEntry.{StoredEntry};
ghost use Rattle.eden_overlay.specs.Held.{HoldsEntries, HoldsState, root_file, with_state};
ghost use Rattle.eden_overlay.specs.Soundness.{LeadsOn};
ghost use Rattle.eden_snapshot.specs.Commits.{place_named};
ghost use Rattle.eden_dematerialise.specs.Dematerialising.{AreDematerialised, AreMoved, AreSoFar};
ghost use Rattle.eden_dematerialise.specs.Dematerialising.{Dematerialises, NoneIsLeft};
ghost use Rattle.eden_dematerialise.specs.Dematerialising.{ShowTheSame, Stand, moved_to};
ghost use Rattle.eden_dematerialise.specs.Settling.{AreFrom, AreLed, AreSettled};
ghost use Rattle.eden_dematerialise.specs.Settling.{DematerialisesThen, HoldsThen, IsOf, LeadsTo};

use crate::entries::object_for;
use crate::fault::DematerialiseFault;
use crate::unread::remove_unread;
use eden_model::{Id, Kind, Mode, Origin, TreeEntry, World};
use eden_overlay::{Files, FilesFault, ROOT_NUMBER, STATE_NUMBER, entries_of};
use eden_overlay_format::{Listing, State, StoredEntry, decode_state, encode_state, has_numbers};
use eden_snapshot::{LEVELS, place_named, tree_entries};
use eden_source::Source;
use std::alloc::{AllocError, Global};

/// What was made of a directory's entries.
#[derive(Drop)]
struct Made {
    listing: Listing,
    /// Own directories that the commit has too, with its trees.
    below: Vec<(u64, Id)>,
    /// Whether any entry changed.
    has_changed: bool,
}

/// Lets own files of a closed overlay go of which the commit whose tree is `to` has the content at the same path, and
/// has the state say that the files stand on that tree.
///
/// The entries keep their inode numbers. A file goes only if the source gave the commit's object, and it is equal byte
/// by byte. What can't be read stays as it is. Of the commit the trees at own directories are asked for, and the blobs
/// of files that have their id. An overlay without a root of its own shows the tree that its state says, and nothing
/// changes, nor does anything in one without files.
///
/// The disk has all that was stored before the state says the other tree, and has that before a file is removed. What
/// the files show, over the tree that their state says, stays the same whatever comes of it; what was done before an
/// error may be gone on with.
pub fn dematerialise<W: World, F: Files<W>, S: Source<W>>(
    alloc: Global,
    to: Id,
    files: &mut F,
    source: &mut S,
) -> Result<(), DematerialiseFault>
    ensures same { W.honest → ShowTheSame W.repository (F.stored files.old) (F.stored files.new) }
    ensures done { W.honest → OnOk result
        (AreDematerialised W.repository to (F.stored files.old) (F.stored files.new)) }
    ensures so_far { W.honest → OnErr result (AreSoFar W.repository to (F.stored files.old) (F.stored files.new)) }
{
    run::<W, F, S>(alloc, to, files, source)
}

// The same, told by what was done alone.
fn run<W: World, F: Files<W>, S: Source<W>>(
    alloc: Global,
    to: Id,
    files: &mut F,
    source: &mut S,
) -> Result<(), DematerialiseFault>
    ensures done { W.honest → OnOk result
        (AreDematerialised W.repository to (F.stored files.old) (F.stored files.new)) }
    ensures so_far { W.honest → OnErr result (AreSoFar W.repository to (F.stored files.old) (F.stored files.new)) }
{
    if !is_rooted(files)? {
        return Ok(());
    }
    move_to::<W, F, S>(alloc, to, files, source)?;
    files.sync(alloc)?;
    remove_unread(alloc, files)
}

// Dematerialises own directories from the root on, and has the state say that tree.
fn move_to<W: World, F: Files<W>, S: Source<W>>(
    alloc: Global,
    to: Id,
    files: &mut F,
    source: &mut S,
) -> Result<(), DematerialiseFault>
    requires { W.honest → IsSome (root_file (F.stored files.old)) }
    ensures moved { W.honest → OnOk result (AreMoved W.repository to (F.stored files.old) (F.stored files.new)) }
    ensures left { W.honest → OnOk result (NoneIsLeft W.repository (F.stored files.new) 1 to) }
    ensures so_far { W.honest → OnErr result
        (Dematerialises W.repository 1 to (F.stored files.old) (F.stored files.new)) }
{
    let state = state_in(alloc, files)?;
    // Only after a sync does each `replace` wait until the disk has what was stored before it.
    files.sync(alloc)?;
    directory::<W, F, S>(alloc, files, source, ROOT_NUMBER, to, LEVELS)?;
    files.sync(alloc)?;
    move_state(alloc, files, state, to)?;
    Ok(())
}

// The state.
fn state_in<W: World, F: Files<W>>(
    alloc: Global,
    files: &mut F,
) -> Result<State, DematerialiseFault>
    ensures held { W.honest → IfOk result (HoldsState (F.stored files.old)) }
    ensures good { IfOk result IsGoodState }
    ensures unchanged { W.honest → F.stored files.new ≡ F.stored files.old }
{
    let Some(file) = files.read(alloc, STATE_NUMBER)? else {
        return Err(DematerialiseFault::NotClean);
    };
    decode_state(&file).map_err(|_| DematerialiseFault::NotClean)
}

// Stores the state with that tree in the place of its own.
fn move_state<W: World, F: Files<W>>(
    alloc: Global,
    files: &mut F,
    state: State,
    to: Id,
) -> Result<(), FilesFault>
    requires { IsGoodState state }
    ensures ok { W.honest → OnOk result (F.stored files.new ≡ with_state (F.stored files.old) (moved_to to state)) }
    ensures good { IsGoodState (moved_to to state) }
    ensures err { W.honest → OnErr result (F.stored files.new ≡ F.stored files.old) }
{
    let moved = State {
        root: to,
        next: state.next,
    };
    files.replace(alloc, STATE_NUMBER, &encode_state(alloc, moved)?)
}

// Whether the root is the mount's own.
fn is_rooted<W: World, F: Files<W>>(files: &mut F) -> Result<bool, FilesFault>
    ensures told { W.honest → IfOk result (λ b. b ≡ is_some (root_file (F.stored files.old))) }
    ensures unchanged { W.honest → F.stored files.new ≡ F.stored files.old }
{
    match files.head(ROOT_NUMBER)? {
        None => Ok(false),
        Some(head) => Ok(!has_numbers(&head)),
    }
}

// Dematerialises what is in the own directory of that number, which lies so many levels above the last one, and where
// the commit has that tree. One that can't be read stays as it is.
#[cycle(walk)]
fn directory<W: World, F: Files<W>, S: Source<W>>(
    alloc: Global,
    files: &mut F,
    source: &mut S,
    number: u64,
    tree: Id,
    levels: u32,
) -> Result<(), DematerialiseFault>
    requires number { 1 ≤ number }
    ensures done { W.honest → Dematerialises W.repository number tree (F.stored files.old) (F.stored files.new) }
    ensures left { W.honest → OnOk result (NoneIsLeft W.repository (F.stored files.new) number tree) }
{
    let Some(entries) = entries_of(alloc, files, number)? else {
        return Ok(());
    };
    let commit = tree_entries::<W, S>(alloc, source, tree)?;
    let Made {
        listing,
        below,
        has_changed,
    } = with_entries::<W, F, S>(alloc, files, source, entries, commit.as_slice())?;
    store(alloc, files, number, listing, has_changed)?;
    inside::<W, F, S>(alloc, files, source, number, below, levels)
}

// Stores what was made of an own directory's entries, if any changed.
fn store<W: World, F: Files<W>>(
    alloc: Global,
    files: &mut F,
    number: u64,
    listing: Listing,
    has_changed: bool,
) -> Result<(), FilesFault>
    requires { 1 ≤ number }
    ensures done { W.honest
        → DematerialisesThen W.repository (F.stored files.old) number listing (F.stored files.new) }
    ensures held { W.honest → OnOk result ((commit : List TreeEntry) → HoldsThen W.repository
        (F.stored files.old) commit number listing has_changed (F.stored files.new)) }
{
    if !has_changed {
        return Ok(());
    }
    files.replace(alloc, number, &listing.into_file())
}

// .. in these own directories below the one of that number.
#[cycle(walk)]
fn inside<W: World, F: Files<W>, S: Source<W>>(
    alloc: Global,
    files: &mut F,
    source: &mut S,
    number: u64,
    below: Vec<(u64, Id)>,
    levels: u32,
) -> Result<(), DematerialiseFault>
    requires numbers { All (λ x. 1 ≤ x.0) below.items }
    ensures done { W.honest → (k : ℕ) (tree : Id) → 1 ≤ k → LeadsTo W.repository (F.stored files.old) k tree below.items
        → Dematerialises W.repository k tree (F.stored files.old) (F.stored files.new) }
    ensures left { W.honest → OnOk result ((x : ℕ × Id) → Contains below.items x
        → NoneIsLeft W.repository (F.stored files.new) x.0 x.1) }
{
    if below.is_empty() {
        return Ok(());
    }
    if levels == 0 {
        return Err(DematerialiseFault::TooDeep(number));
    }
    'below: for (number, tree) in below {
        directory::<W, F, S>(alloc, files, source, number, tree, levels - 1)?;
    }
    Ok(())
}

// What is made of an own directory's entries, where the commit has a tree of those.
fn with_entries<W: World, F: Files<W>, S: Source<W>>(
    alloc: Global,
    files: &mut F,
    source: &mut S,
    entries: Vec<StoredEntry>,
    commit: &[TreeEntry],
) -> Result<Made, DematerialiseFault>
    requires storable { AreStorable entries.items }
    ensures stand { W.honest → IfOk result
        (λ m. Stand W.repository (F.stored files.old) commit.now entries.items m.listing) }
    ensures same { IfOk result (λ m. m.has_changed ≡ false → m.listing ≡ entries.items) }
    ensures settled { W.honest → IfOk result
        (λ m. AreSettled W.repository (F.stored files.old) commit.now m.listing) }
    ensures led { IfOk result (λ m. AreLed commit.now m.listing m.below.items) }
    ensures from { W.honest → IfOk result (λ m. AreFrom commit.now m.listing m.below.items) }
    ensures numbers { IfOk result (λ m. All (λ x. 1 ≤ x.0) m.below.items) }
    ensures unchanged { W.honest → F.stored files.new ≡ F.stored files.old }
{
    let mut made = Made {
        listing: Listing::new(Vec::new(alloc), entries.len() as u32)?,
        below: Vec::new(alloc),
        has_changed: false,
    };
    'entries: for entry in entries {
        made = with_entry::<W, F, S>(alloc, files, source, made, &entry, commit)?;
    }
    Ok(made)
}

// The same with one entry more, as what is made of it.
fn with_entry<W: World, F: Files<W>, S: Source<W>>(
    alloc: Global,
    files: &mut F,
    source: &mut S,
    made: Made,
    entry: &StoredEntry,
    commit: &[TreeEntry],
) -> Result<Made, DematerialiseFault>
    requires storable { IsStorable entry.now }
    requires room { length made.listing < u32.MAX }
    ensures stand { W.honest → IfOk result (λ m. (taken : List StoredEntry)
        → Stand W.repository (F.stored files.old) commit.now taken made.listing
        → Stand W.repository (F.stored files.old) commit.now (taken ++ entry.now ∷ []) m.listing) }
    ensures same { IfOk result (λ m. m.has_changed ≡ false
        → (made.has_changed ≡ false) × (m.listing ≡ made.listing ++ entry.now ∷ [])) }
    ensures settled { W.honest → IfOk result (λ m. AreSettled W.repository (F.stored files.old) commit.now made.listing
        → AreSettled W.repository (F.stored files.old) commit.now m.listing) }
    ensures led { IfOk result (λ m. AreLed commit.now made.listing made.below.items
        → AreLed commit.now m.listing m.below.items) }
    ensures from { W.honest → IfOk result (λ m. AreFrom commit.now made.listing made.below.items
        → AreFrom commit.now m.listing m.below.items) }
    ensures numbers { IfOk result (λ m. All (λ x. 1 ≤ x.0) made.below.items → All (λ x. 1 ≤ x.0) m.below.items) }
    ensures long { IfOk result (λ m. length m.listing ≡ length made.listing + 1) }
    ensures unchanged { W.honest → F.stored files.new ≡ F.stored files.old }
{
    let object = object_for::<W, F, S>(alloc, files, source, entry, commit)?;
    let Made {
        listing,
        below,
        has_changed,
    } = made;
    let below = with_directory(below, entry, commit)?;
    match object {
        None => Ok(Made {
            listing: listing.push(&entry.name, entry.kind, entry.origin, entry.number)?,
            below,
            has_changed,
        }),
        Some(id) => Ok(Made {
            listing: listing.push(&entry.name, entry.kind, Origin::Object(id), entry.number)?,
            below,
            has_changed: true,
        }),
    }
}

// The directories that are to be looked into, and that of the entry, where it is an own one and the commit has a tree
// of its name.
fn with_directory(
    mut below: Vec<(u64, Id)>,
    entry: &StoredEntry,
    commit: &[TreeEntry],
) -> Result<Vec<(u64, Id)>, AllocError>
    requires { 1 ≤ entry.now.number }
    ensures numbers { IfOk result (λ v. All (λ x. 1 ≤ x.0) below.items → All (λ x. 1 ≤ x.0) v.items) }
    ensures stay { IfOk result (λ v. (x : ℕ × Id) → Contains below.items x → Contains v.items x) }
    ensures led { IfOk result (λ v. LeadsOn entry.now → (tree : Id)
        → place_named entry.now.name commit.now ≡ Some (mode.Dir, tree) → Contains v.items (entry.now.number, tree)) }
    ensures from { IfOk result
        (λ v. (x : ℕ × Id) → Contains v.items x → Contains below.items x ⊎ IsOf commit.now entry.now x) }
{
    let (Kind::Dir, Origin::Own) = (entry.kind, entry.origin) else {
        return Ok(below);
    };
    if let Some((Mode::Dir, tree)) = place_named(commit, &entry.name) {
        below.push((entry.number, tree))?;
    }
    Ok(below)
}
