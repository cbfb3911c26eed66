//! Files that nobody reads any more: their entries stand on objects.

ghost use Rattle.std.specs.Prelude.{◌≡◌, ◌≢◌, ◌⊎◌, None, true, Contains, IfOk, OnOk, ℕ};
ghost use Rattle.std.specs.Ordering.{nat_cmp};
ghost use Rattle.std.specs.BTreeSet.{contains};
ghost use Rattle.eden_overlay.specs.Soundness.{IsLive, Names};
ghost use Rattle.eden_dematerialise.specs.Dematerialising.{HasNoneUnread, RemovesUnread};
ghost use Rattle.eden_dematerialise.specs.Unread.{Adds, AreAllMetFrom, AreEntries, AreMetOf, Stay};

use crate::fault::DematerialiseFault;
use eden_model::{Kind, Origin, World};
use eden_overlay::{Files, FilesFault, ROOT_NUMBER, entries_of};
use eden_overlay_format::StoredEntry;
use eden_snapshot::LEVELS;
use std::alloc::Global;
use std::collections::BTreeSet;

/// Numbers of entries in live directories.
#[derive(Drop)]
struct Numbers {
    /// Those of own entries.
    own: BTreeSet<u64>,
    /// Those of files and links whose contents aren't the overlay's.
    elsewhere: Vec<u64>,
}

/// Removes each file of which an entry in a live directory has the number, if that is a file or a link whose contents
/// aren't the overlay's, and no own entry has it. Such a file was let go, now or by a run that was cut short.
pub(crate) fn remove_unread<W: World, F: Files<W>>(
    alloc: Global,
    files: &mut F,
) -> Result<(), DematerialiseFault>
    ensures removed { W.honest → RemovesUnread (F.stored files.old) (F.stored files.new) }
    ensures unread { W.honest → OnOk result (HasNoneUnread (F.stored files.new)) }
{
    let none = Numbers {
        own: BTreeSet::new(alloc),
        elsewhere: Vec::new(alloc),
    };
    let Numbers { own, elsewhere } = numbers_in::<W, F>(alloc, files, ROOT_NUMBER, LEVELS, none)?;
    remove_all(files, elsewhere, &own)?;
    Ok(())
}

// Removes the files of these numbers but for those that are kept.
fn remove_all<W: World, F: Files<W>>(
    files: &mut F,
    numbers: Vec<u64>,
    kept: &BTreeSet<u64>,
) -> Result<(), FilesFault>
    ensures others { W.honest → (k : ℕ) → (F.stored files.new k ≡ F.stored files.old k) ⊎ ((F.stored files.new k ≡ None)
        × Contains numbers.items k × (contains nat_cmp kept.now k ≢ true)) }
    ensures gone { W.honest → OnOk result ((k : ℕ) → Contains numbers.items k → contains nat_cmp kept.now k ≢ true
        → F.stored files.new k ≡ None) }
{
    'numbers: for number in numbers {
        if !kept.contains(&number) {
            files.remove(number)?;
        }
    }
    Ok(())
}

// The numbers that were met, and those of the entries in the own directory of that number and below it, which lies so
// many levels above the last one. One that can't be read has none.
#[cycle(look)]
fn numbers_in<W: World, F: Files<W>>(
    alloc: Global,
    files: &mut F,
    number: u64,
    levels: u32,
    met: Numbers,
) -> Result<Numbers, DematerialiseFault>
    ensures each { W.honest → IsLive (F.stored files.old) number
        → IfOk result (AreEntries (F.stored files.old) met) }
    ensures stay { IfOk result (Stay met) }
    ensures all { W.honest → IfOk result (λ n. AreAllMetFrom (F.stored files.old) n number) }
    ensures unchanged { W.honest → F.stored files.new ≡ F.stored files.old }
{
    let Some(entries) = entries_of(alloc, files, number)? else {
        return Ok(met);
    };
    let mut met = met;
    'entries: for entry in entries {
        met = numbers_by::<W, F>(alloc, files, number, &entry, levels, met)?;
    }
    Ok(met)
}

// .. and that of an entry of that directory, and those below it.
#[cycle(look)]
fn numbers_by<W: World, F: Files<W>>(
    alloc: Global,
    files: &mut F,
    number: u64,
    entry: &StoredEntry,
    levels: u32,
    met: Numbers,
) -> Result<Numbers, DematerialiseFault>
    ensures each { W.honest → IsLive (F.stored files.old) number → Names (F.stored files.old) number entry.now
        → IfOk result (AreEntries (F.stored files.old) met) }
    ensures stay { IfOk result (Stay met) }
    ensures all { W.honest → IfOk result (λ n. AreMetOf (F.stored files.old) n entry.now) }
    ensures unchanged { W.honest → F.stored files.new ≡ F.stored files.old }
{
    let met = with_number(met, entry)?;
    let (Kind::Dir, Origin::Own) = (entry.kind, entry.origin) else {
        return Ok(met);
    };
    if levels == 0 {
        return Err(DematerialiseFault::TooDeep(number));
    }
    numbers_in::<W, F>(alloc, files, entry.number, levels - 1, met)
}

// With the number of that entry.
fn with_number(met: Numbers, entry: &StoredEntry) -> Result<Numbers, DematerialiseFault>
    ensures added { IfOk result (Adds entry.now met) }
{
    let Numbers {
        mut own,
        mut elsewhere,
    } = met;
    match (entry.kind, entry.origin) {
        (_, Origin::Own) => {
            own.insert(entry.number)?;
        }
        (Kind::Dir, _) => (),
        _ => elsewhere.push(entry.number)?,
    }
    Ok(Numbers { own, elsewhere })
}
