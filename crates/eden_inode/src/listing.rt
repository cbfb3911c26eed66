//! Loaded directories as stored ones.

ghost use Rattle.std.specs.Prelude.{◌≡◌, Err, None, IfOk, OnOk, OnErr};
ghost use Rattle.std.specs.Option.{option_map};
ghost use Rattle.eden_model.specs.Failures.{Counted};
ghost use Rattle.eden_model.specs.Named.{AreRising, named};
ghost use Rattle.eden_overlay_format.specs.Changing.{entry_as};
ghost use Rattle.eden_overlay_format.specs.Directory.{AreStorable};
ghost use Rattle.eden_overlay.specs.Held.{with_entries};
ghost use Rattle.eden_overlay.specs.Soundness.{AreSound};
ghost use Rattle.eden_overlay.specs.declared.files.FilesFault.TheVariants as files;
ghost use Rattle.eden_coupling.specs.Listings.{listing_of};
ghost use Rattle.eden_coupling.specs.Changing.{changed};
ghost use Rattle.eden_inode.specs.Listed.{DiffersAt, RenamesAt, listed_as, origin_as};

use eden_model::{Name, Origin, World};
use eden_overlay::{Files, FilesFault, Overlay};
use eden_overlay_format::{Listing, RowFacts};
use eden_tree::Dir;
use std::alloc::{AllocError, Allocator, Global};

/// Which entries of a directory are stored, and as what.
#[derive(Clone, Copy)]
pub enum Listed<'a> {
    /// Each as it is.
    Whole,
    /// All but the one of that name.
    Without(&'a Name),
    /// Each as it is, but the one of that name as the mount's own.
    Owned(&'a Name),
}

/// The entries of a directory that are stored, written as its stored file has them, in that room, whose bytes go.
pub fn write_listing<A: Allocator>(
    room: Vec<u8>,
    dir: &Dir<A>,
    listed: Listed<'_>,
) -> Result<Listing, AllocError>
    requires { AreStorable (listed_as listed dir.now) }
    ensures entries { IfOk result (λ entries. entries ≡ listed_as listed.entry dir.now) }
    ensures rising { IfOk result (λ _. AreRising (λ r. r.0) dir.now.rows) }
{
    let mut entries = Listing::new(room, dir.count())?;
    for i in 0..dir.count() {
        if let Some((name, entry)) = dir.at(i) {
            if let Some(origin) = origin_in(listed, name, entry.origin) {
                entries = entries.push(name, entry.kind, origin, entry.number)?;
            }
        }
    }
    Ok(entries)
}

/// The origin that an entry is stored with, or none where it is left out.
fn origin_in(listed: Listed<'_>, name: &Name, origin: Origin) -> Option<Origin>
    ensures { result ≡ origin_as listed.entry name.now origin }
{
    match listed {
        Listed::Whole => Some(origin),
        Listed::Without(other) => {
            if *other == *name {
                return None;
            }
            Some(origin)
        }
        Listed::Owned(other) => {
            if *other == *name {
                return Some(Origin::Own);
            }
            Some(origin)
        }
    }
}

/// Stores a directory so as the file of that number. After an error nothing has changed.
pub fn save<A: Allocator, W: World, F: Files<W>>(
    alloc: Global,
    overlay: &mut Overlay<W, F>,
    number: u64,
    dir: &Dir<A>,
    listed: Listed<'_>,
) -> Result<(), FilesFault>
    requires entries { AreStorable (listed_as listed dir.now) }
    requires sound { W.honest → AreSound (with_entries (F.stored overlay.old) number (listed_as listed dir.now)) }
    ensures ok { W.honest
        → OnOk result (F.stored overlay.new ≡ with_entries (F.stored overlay.old) number
        (listed_as listed.entry dir.now)) }
    ensures err { W.honest → OnErr result (F.stored overlay.new ≡ F.stored overlay.old) }
    ensures counted { Counted (result ≡ Err files.Device) (F.failures overlay.old) (F.failures overlay.new) }
{
    let entries = write_listing(overlay.room(alloc), dir, listed)?;
    overlay.put_listing(alloc, number, entries)
}

/// What is to be stored of the entry of that name, if anything.
fn facts_in<A: Allocator>(dir: &Dir<A>, listed: Listed<'_>, name: &Name) -> Option<RowFacts>
    ensures { option_map (entry_as name.now) result ≡ named (λ e. e.name) name.now (listed_as listed.entry dir.now) }
{
    // Says to the proof that names rise.
    let _ = dir.count();
    match dir.get(name) {
        None => None,
        Some(entry) => match origin_in(listed, name, entry.origin) {
            None => None,
            Some(origin) => Some(RowFacts {
                kind: entry.kind,
                origin,
                number: entry.number,
            }),
        },
    }
}

/// Stores a directory so as the file of that number, which holds other entries in the one of that name alone: so no
/// other is written anew where the overlay keeps the file's body. After an error nothing has changed.
pub fn save_changed<A: Allocator, W: World, F: Files<W>>(
    alloc: Global,
    overlay: &mut Overlay<W, F>,
    number: u64,
    dir: &Dir<A>,
    listed: Listed<'_>,
    name: &Name,
) -> Result<(), FilesFault>
    requires entries { AreStorable (listed_as listed dir.now) }
    requires differs { W.honest → DiffersAt name.now (F.stored overlay.old) number (listed_as listed dir.now) }
    requires sound { W.honest → AreSound (with_entries (F.stored overlay.old) number (listed_as listed dir.now)) }
    ensures ok { W.honest
        → OnOk result (F.stored overlay.new ≡ with_entries (F.stored overlay.old) number
        (listed_as listed.entry dir.now)) }
    ensures err { W.honest → OnErr result (F.stored overlay.new ≡ F.stored overlay.old) }
    ensures counted { Counted (result ≡ Err files.Device) (F.failures overlay.old) (F.failures overlay.new) }
{
    let facts = facts_in(dir, listed, name);
    if overlay.store_entry(alloc, number, name, facts)? {
        return Ok(());
    }
    save(alloc, overlay, number, dir, listed)
}

/// Stores a directory without the entry of a name as the file of that number, which holds other entries in the ones of
/// that name and the new one alone: so no other is written anew where the overlay keeps the file's body. After an error
/// nothing has changed.
pub fn save_renamed<A: Allocator, W: World, F: Files<W>>(
    alloc: Global,
    overlay: &mut Overlay<W, F>,
    number: u64,
    dir: &Dir<A>,
    name: &Name,
    new_name: &Name,
) -> Result<(), FilesFault>
    requires entries { AreStorable (listing_of (changed dir.now name.now None)) }
    requires renames { W.honest
        → RenamesAt name.now new_name.now (F.stored overlay.old) number (listing_of (changed dir.now name.now None)) }
    requires sound { W.honest
        → AreSound (with_entries (F.stored overlay.old) number (listing_of (changed dir.now name.now None))) }
    ensures ok { W.honest
        → OnOk result (F.stored overlay.new ≡ with_entries (F.stored overlay.old) number
        (listing_of (changed dir.now name.now None))) }
    ensures err { W.honest → OnErr result (F.stored overlay.new ≡ F.stored overlay.old) }
    ensures counted { Counted (result ≡ Err files.Device) (F.failures overlay.old) (F.failures overlay.new) }
{
    let listed = Listed::Without(name);
    if let Some(facts) = facts_in(dir, listed, new_name) {
        if overlay.store_renamed(alloc, number, name, new_name, facts)? {
            return Ok(());
        }
    }
    save(alloc, overlay, number, dir, listed)
}
