//! Directories made of a tree object's entries, and of stored ones.
ghost use Rattle.std.specs.Prelude.{◌≡◌, ◌≤◌, ◌<◌, ◌+◌, ◌^◌, length, map, All, IfOk, false};
ghost use Rattle.std.specs.Ordering.{nat_cmp, is_lt};
ghost use Rattle.std.specs.Cmp.Lexicographic.{slice_cmp};
ghost use Rattle.std.specs.List.Sorted.{IsPermutation, IsSortedBy};
ghost use Rattle.eden_model.specs.Limits.{number_least, number_end};
ghost use Rattle.eden_model.specs.Named.{AreRising};
ghost use Rattle.eden_object.specs.Trees.{NamesDiffer};
ghost use Rattle.eden_overlay_format.specs.Directory.{AreStorable};
ghost use Rattle.eden_coupling.specs.Listings.{listing_of};
ghost use Rattle.eden_coupling.specs.Loading.{IsNew, HasObject};
ghost use Rattle.eden_inode.specs.Filling.{IsNamed, row_by, numbered, rows_stored};

use eden_model::{Id, TreeEntry};
use eden_overlay_format::StoredEntry;
use eden_tree::{Dir, Entry};
use std::alloc::{AllocError, Allocator, Global};

/// What holds of every id: it has 20 bytes.
pub(crate) fn holds(id: &Id)
    ensures { length id.now.bytes ≡ 20 }
{
    let _ = id.bytes.as_slice();
}

/// The entries, each beside the bytes of its name.
fn named(alloc: Global, entries: &[TreeEntry]) -> Result<Vec<(&[u8], &TreeEntry)>, AllocError>
    ensures all { IfOk result (λ v. map (λ r. r.1.now) v.items ≡ entries.now) }
    ensures named { IfOk result (λ v. All (λ r. IsNamed r.0.now r.1.now) v.items) }
{
    let mut rows = Vec::with_capacity(alloc, entries.len())?;
    for entry in entries {
        holds(&entry.id);
        rows.push((entry.name.as_slice(), entry))?;
    }
    Ok(rows)
}

/// Sorts by byte order of names.
fn sort(rows: &mut Vec<(&[u8], &TreeEntry)>)
    ensures same { IsPermutation rows.old.items rows.new.items }
    ensures ordered { IsSortedBy (λ a b. is_lt (slice_cmp nat_cmp a.0.now b.0.now)) rows.new.items }
{
    rows.sort_unstable_by(|a, b| a.0.cmp(b.0));
}

/// An entry of a tree object in memory, with nothing loaded.
fn entry_by<A: Allocator>(entry: &TreeEntry, number: u64) -> Entry<A>
    ensures { result ≡ row_by number entry.now }
{
    Entry {
        number,
        kind: entry.mode.kind(),
        origin: entry.mode.origin(entry.id),
        child: None,
    }
}

/// A directory of these entries, whose names rise, numbered from `next` on. Each goes to the end.
fn fill<A: Allocator>(
    alloc: Global,
    dirs: A,
    rows: &[(&[u8], &TreeEntry)],
    next: u64,
    clock: u64,
) -> Result<Dir<A>, AllocError>
    requires rising { AreRising (λ r. r.1.now.name) rows.now }
    requires fits { next + length rows.now ≤ number_end }
    ensures ok { IfOk result
        (λ d. d ≡ record { stamp = clock; unsaved = false; rows = numbered next (map (λ r. r.1.now) rows.now) }) }
    ensures few { IfOk result (λ d. length d.rows < 2 ^ 32) }
{
    let mut dir = Dir::new(dirs, clock);
    let mut number = next;
    for (_, entry) in rows {
        match dir.insert(entry.name.copy(alloc)?, entry_by(entry, number)) {
            Ok(()) => number += 1,
            Err(_) => return Err(AllocError),
        }
    }
    Ok(dir)
}

/// The directory of a tree object's entries, in any order: numbered from `next` on in byte order of their names. The
/// only error is want of memory.
pub(crate) fn from_object<A: Allocator>(
    alloc: Global,
    dirs: A,
    entries: &[TreeEntry],
    next: u64,
    clock: u64,
) -> Result<Dir<A>, AllocError>
    requires differ { NamesDiffer entries.now }
    requires least { number_least ≤ next }
    requires fits { next + length entries.now ≤ number_end }
    ensures new { IfOk result (IsNew clock) }
    ensures has { IfOk result (HasObject next entries.now) }
    ensures storable { IfOk result (λ d. AreStorable (listing_of d)) }
{
    let mut rows = named(alloc, entries)?;
    sort(&mut rows);
    fill(alloc, dirs, &rows, next, clock)
}

/// The directory of stored entries, with their numbers. The only error is want of memory.
pub(crate) fn from_stored<A: Allocator>(
    dirs: A,
    entries: Vec<StoredEntry>,
    clock: u64,
) -> Result<Dir<A>, AllocError>
    requires { AreStorable entries.items }
    ensures new { IfOk result (IsNew clock) }
    ensures listed { IfOk result (λ d. listing_of d ≡ entries.items) }
{
    let mut dir = Dir::new(dirs, clock);
    for row in entries {
        let StoredEntry {
            name,
            kind,
            origin,
            number,
        } = row;
        let entry = Entry {
            number,
            kind,
            origin,
            child: None,
        };
        match dir.insert(name, entry) {
            Ok(()) => {}
            Err(_) => return Err(AllocError),
        }
    }
    Ok(dir)
}
