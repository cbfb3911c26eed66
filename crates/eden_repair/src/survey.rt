//! One directory after another: which of its entries stay.
ghost use Rattle.std.specs.Prelude.{[], ◌∷◌, ◌≡◌, ◌≤◌, ◌<◌, ◌+◌, ◌++◌, ℕ, Bool, List, length};
ghost use Rattle.std.specs.Prelude.{None, Err, IfOk, IfSome, IsTrue, OnOk};
ghost use Rattle.std.specs.Ordering.{nat_cmp};
ghost use Rattle.std.specs.BTreeSet.{contains, btree_set_len};
ghost use Rattle.eden_model.specs.Failures.{Counted};
ghost use Rattle.eden_model.specs.Limits.{number_end};
ghost use Rattle.eden_model.specs.Numbers.{IsNumber};
ghost use Rattle.eden_overlay_format.specs.Directory.{AreStorable, IsStorable};
ghost use Rattle.eden_overlay_format.specs.declared.stored_entry.StoredEntry.{StoredEntry};
ghost use Rattle.eden_overlay.specs.Files.{Stored};
ghost use Rattle.eden_overlay.specs.Soundness.{HasOwn};
ghost use Rattle.eden_overlay.specs.declared.files.FilesFault.TheVariants as fault;
ghost use Rattle.eden_repair.specs.Covering.{AreBelow, AreNew};
ghost use Rattle.eden_repair.specs.Repairing.{TellsOf, ways_below};
ghost use Rattle.eden_repair.specs.Surveying.{AreLed, AreOf, Goes, IsMetThen, SortsOn, SortsOneMore};

use crate::damage::{Damage, damage_at};
use crate::finding::{Finding, path_below};
use eden_model::{Kind, Name, Origin, World};
use eden_overlay::{Files, FilesFault};
use eden_overlay_format::{Listing, StoredEntry};
use std::alloc::{AllocError, Global};
use std::collections::BTreeSet;

/// A directory that is to be looked at.
#[derive(Drop)]
pub(crate) struct Directory {
    pub(crate) path: Vec<Name>,
    pub(crate) number: u64,
    pub(crate) origin: Origin,
}

/// The entries of a directory that stay, the directories among them, and what is told of the others.
#[derive(Drop)]
pub(crate) struct Sorted {
    pub(crate) listing: Listing,
    pub(crate) below: Vec<Directory>,
    pub(crate) cut: Vec<Finding>,
}

// Why an entry goes; None if it stays, whose number is met then.
fn damage_of<W: World, F: Files<W>>(
    alloc: Global,
    files: &mut F,
    met: &mut BTreeSet<u64>,
    entry: &StoredEntry,
) -> Result<Option<Damage>, FilesFault>
    requires range { IsNumber entry.now.number }
    requires met { (k : ℕ) → IsTrue (contains nat_cmp met.old k) → IsNumber k }
    requires few { btree_set_len met.old ≤ number_end }
    ensures stays { W.honest → IfOk result (λ found. found ≡ None → HasOwn (F.stored files.old) entry.now) }
    ensures goes { W.honest → IfOk result
        (λ found. IfSome found (Goes (F.stored files.old) (contains nat_cmp met.old) entry.now)) }
    ensures met { IfOk result
        (λ found. IsMetThen entry.now.number found (contains nat_cmp met.old) (contains nat_cmp met.new)) }
    ensures more { IfOk result (λ found. found ≡ None → btree_set_len met.new ≡ btree_set_len met.old + 1) }
    ensures least { OnOk result (btree_set_len met.old ≤ btree_set_len met.new) }
    ensures range { OnOk result ((k : ℕ) → IsTrue (contains nat_cmp met.new k) → IsNumber k) }
    ensures few { OnOk result (btree_set_len met.new ≤ number_end) }
    ensures unchanged { W.honest → F.stored files.new ≡ F.stored files.old }
    ensures counted { Counted (result ≡ Err fault.Device) (F.failures files.old) (F.failures files.new) }
{
    if let Origin::Own = entry.origin {
        if let Some(damage) = damage_at(alloc, files, entry.number, entry.kind)? {
            return Ok(Some(damage));
        }
    }
    if met.insert(entry.number)? {
        Ok(None)
    } else {
        Ok(Some(Damage::Twice))
    }
}

/// Sorts the entries of the directory at that path. The numbers of those that stay are met then. Each directory among
/// them is to be looked at, wherever it comes from.
pub(crate) fn sort_out<W: World, F: Files<W>>(
    alloc: Global,
    files: &mut F,
    met: &mut BTreeSet<u64>,
    path: &[Name],
    entries: Vec<StoredEntry>,
) -> Result<Sorted, FilesFault>
    requires storable { AreStorable entries.items }
    requires met { (k : ℕ) → IsTrue (contains nat_cmp met.old k) → IsNumber k }
    requires few { btree_set_len met.old ≤ number_end }
    ensures new { IfOk result (λ s. AreNew s.listing (contains nat_cmp met.old) (contains nat_cmp met.new)) }
    ensures below { IfOk result (λ s. AreBelow s.listing s.below.items) }
    ensures led { IfOk result (λ s. AreLed (ways_below path.now s.listing) s.below.items) }
    ensures sorts { W.honest → IfOk result (λ s. (stayed : List StoredEntry)
        → AreOf (contains nat_cmp met.old) stayed
        → SortsOn (F.stored files.old) path.now stayed entries.items s (contains nat_cmp met.new)) }
    ensures more { IfOk result (λ s. btree_set_len met.old + length s.below.items ≤ btree_set_len met.new) }
    ensures range { OnOk result ((k : ℕ) → IsTrue (contains nat_cmp met.new k) → IsNumber k) }
    ensures few { OnOk result (btree_set_len met.new ≤ number_end) }
    ensures unchanged { W.honest → F.stored files.new ≡ F.stored files.old }
    ensures counted { Counted (result ≡ Err fault.Device) (F.failures files.old) (F.failures files.new) }
{
    let mut sorted = Sorted {
        listing: Listing::new(Vec::new(alloc), entries.len() as u32)?,
        below: Vec::new(alloc),
        cut: Vec::new(alloc),
    };
    'entries: for entry in entries {
        sorted = sort_one(alloc, files, met, path, entry, sorted)?;
    }
    Ok(sorted)
}

// The same with one entry more, which stays or goes.
fn sort_one<W: World, F: Files<W>>(
    alloc: Global,
    files: &mut F,
    met: &mut BTreeSet<u64>,
    path: &[Name],
    entry: StoredEntry,
    sorted: Sorted,
) -> Result<Sorted, FilesFault>
    requires storable { IsStorable entry }
    requires room { length sorted.listing < u32.MAX }
    requires met { (k : ℕ) → IsTrue (contains nat_cmp met.old k) → IsNumber k }
    requires few { btree_set_len met.old ≤ number_end }
    ensures new { IfOk result (λ s. (first : ℕ → Bool)
        → AreNew sorted.listing first (contains nat_cmp met.old)
        → AreNew s.listing first (contains nat_cmp met.new)) }
    ensures below { IfOk result
        (λ s. AreBelow sorted.listing sorted.below.items → AreBelow s.listing s.below.items) }
    ensures led { IfOk result (λ s. AreLed (ways_below path.now sorted.listing) sorted.below.items
        → AreLed (ways_below path.now s.listing) s.below.items) }
    ensures sorts { W.honest → IfOk result (λ s. SortsOneMore (F.stored files.old) path.now entry sorted s
        (contains nat_cmp met.old) (contains nat_cmp met.new)) }
    ensures more { IfOk result (λ s. btree_set_len met.old + length s.below.items
        ≤ btree_set_len met.new + length sorted.below.items) }
    ensures short { IfOk result (λ s. length s.listing ≤ length sorted.listing + 1) }
    ensures range { OnOk result ((k : ℕ) → IsTrue (contains nat_cmp met.new k) → IsNumber k) }
    ensures few { OnOk result (btree_set_len met.new ≤ number_end) }
    ensures unchanged { W.honest → F.stored files.new ≡ F.stored files.old }
    ensures counted { Counted (result ≡ Err fault.Device) (F.failures files.old) (F.failures files.new) }
{
    let Sorted {
        listing,
        below,
        mut cut,
    } = sorted;
    if let Some(damage) = damage_of(alloc, files, met, &entry)? {
        cut.push(finding(alloc, path, &entry, damage)?)?;
        return Ok(Sorted {
            listing,
            below,
            cut,
        });
    }
    let below = with_directory(alloc, path, &entry, below)?;
    let listing = listing.push(&entry.name, entry.kind, entry.origin, entry.number)?;
    Ok(Sorted {
        listing,
        below,
        cut,
    })
}

// What is told of an entry that goes.
fn finding(
    alloc: Global,
    path: &[Name],
    entry: &StoredEntry,
    damage: Damage,
) -> Result<Finding, AllocError>
    ensures tells { IfOk result (TellsOf path.now entry.now damage) }
{
    Ok(Finding {
        path: path_below(alloc, path, &entry.name)?,
        number: entry.number,
        damage,
        is_numbers: false,
    })
}

/// The directories that are left to look at, and the one that the entry of the directory at that path is, if it is one.
pub(crate) fn with_directory(
    alloc: Global,
    path: &[Name],
    entry: &StoredEntry,
    mut below: Vec<Directory>,
) -> Result<Vec<Directory>, AllocError>
    ensures below { IfOk result (λ v. (entries : List StoredEntry)
        → AreBelow entries below.items
        → AreBelow (entries ++ entry.now ∷ []) v.items) }
    ensures led { IfOk result (λ v. (entries : List StoredEntry)
        → AreLed (ways_below path.now entries) below.items
        → AreLed (ways_below path.now (entries ++ entry.now ∷ [])) v.items) }
    ensures short { IfOk result (λ v. length v.items ≤ length below.items + 1) }
{
    match entry.kind {
        Kind::Dir => {
            below.push(directory_below(alloc, path, entry)?)?;
            Ok(below)
        }
        Kind::File | Kind::Exec | Kind::Link => Ok(below),
    }
}

// The directory that an entry of the one at that path names.
fn directory_below(
    alloc: Global,
    path: &[Name],
    entry: &StoredEntry,
) -> Result<Directory, AllocError>
    ensures number { IfOk result (λ x. x.number ≡ entry.now.number) }
    ensures from { IfOk result (λ x. x.origin ≡ entry.now.origin) }
    ensures path { IfOk result (λ x. x.path.items ≡ path.now ++ entry.now.name ∷ []) }
{
    Ok(Directory {
        path: path_below(alloc, path, &entry.name)?,
        number: entry.number,
        origin: entry.origin,
    })
}
