//! Directories on tree objects: numbers that can't be read are forgotten.
ghost use Rattle.std.specs.Prelude.{[], ◌≡◌, ◌⊎◌, ◌++◌, false, ◌≤◌, ◌+◌, ℕ, List, length};
ghost use Rattle.std.specs.Prelude.{None, Err, IfOk, IfSome, IsTrue, OnOk, OnErr};
ghost use Rattle.std.specs.Ordering.{nat_cmp};
ghost use Rattle.std.specs.BTreeSet.{contains, btree_set_len};
ghost use Rattle.eden_model.specs.Failures.{Counted};
ghost use Rattle.eden_model.specs.Limits.{number_end};
ghost use Rattle.eden_model.specs.Numbers.{IsNumber};
ghost use Rattle.eden_overlay_format.specs.Directory.{AreStorable, IsStorable};
ghost use Rattle.eden_overlay_format.specs.declared.stored_entry.StoredEntry.{StoredEntry};
ghost use Rattle.eden_model.specs.declared.kind.Origin.TheVariants as origin;
ghost use Rattle.eden_overlay.specs.Held.{without};
ghost use Rattle.eden_overlay.specs.declared.files.FilesFault.TheVariants as fault;
ghost use Rattle.eden_repair.specs.Covering.{AreBelow, AreNew, CoversOn, IsNewThen, NoneIsOwn, none_seen};
ghost use Rattle.eden_repair.specs.Repairing.{HasNumbersAlone, StandTwice, ways_below};
ghost use Rattle.eden_repair.specs.Surveying.{AreLed, AreNumbers, AreOf, AreOfTree, ForgetsOn, TellsNumbers};

use crate::damage::Damage;
use crate::finding::Finding;
use crate::survey::{Directory, with_directory};
use eden_model::{Id, Name, World};
use eden_overlay::{Files, FilesFault};
use eden_overlay_format::{DecodeFault, Refusal, StoredEntry, decode_numbers, has_numbers};
use std::alloc::{AllocError, Global};
use std::collections::BTreeSet;

/// What a file has of the numbers of a directory.
#[derive(Drop)]
enum Numbers {
    /// It isn't there, is no file of numbers, or has those of another tree object.
    None,
    /// The entries, with their numbers.
    Entries(Vec<StoredEntry>),
    /// They can't be read, for that reason.
    Refused(Refusal),
}

// Whether the file of that number has numbers alone.
fn has_numbers_at<W: World, F: Files<W>>(files: &mut F, number: u64) -> Result<bool, FilesFault>
    ensures told { W.honest → IfOk result (λ b. IsTrue b → HasNumbersAlone (F.stored files.old) number) }
    ensures none { W.honest → IfOk result (λ b. b ≡ false → ¬ HasNumbersAlone (F.stored files.old) number) }
    ensures unchanged { W.honest → F.stored files.new ≡ F.stored files.old }
    ensures counted { Counted (result ≡ Err fault.Device) (F.failures files.old) (F.failures files.new) }
{
    match files.head(number)? {
        Some(head) => Ok(has_numbers(&head)),
        None => Ok(false),
    }
}

// The numbers in the file of that number, of a directory on that tree object.
fn numbers_at<W: World, F: Files<W>>(
    alloc: Global,
    files: &mut F,
    number: u64,
    tree: Id,
) -> Result<Numbers, FilesFault>
    ensures held { W.honest → IfOk result (AreNumbers (F.stored files.old) number tree) }
    ensures rows { IfOk result AreOfTree }
    ensures unchanged { W.honest → F.stored files.new ≡ F.stored files.old }
    ensures counted { Counted (result ≡ Err fault.Device) (F.failures files.old) (F.failures files.new) }
{
    if !has_numbers_at(files, number)? {
        return Ok(Numbers::None);
    }
    match files.read(alloc, number)? {
        None => Ok(Numbers::None),
        Some(file) => match decode_numbers(alloc, &file) {
            Ok(stored) => {
                if stored.tree == tree {
                    Ok(Numbers::Entries(stored.entries))
                } else {
                    Ok(Numbers::None)
                }
            }
            Err(DecodeFault::Refused(refusal)) => Ok(Numbers::Refused(refusal)),
            Err(DecodeFault::Memory) => Err(FilesFault::Memory),
        },
    }
}

// A number is met. Whether it wasn't before.
fn meet(met: &mut BTreeSet<u64>, number: u64) -> Result<bool, AllocError>
    requires range { IsNumber number }
    requires met { (k : ℕ) → IsTrue (contains nat_cmp met.old k) → IsNumber k }
    requires few { btree_set_len met.old ≤ number_end }
    ensures met { IfOk result
        (λ new. IsTrue new → IsNewThen number (contains nat_cmp met.old) (contains nat_cmp met.new)) }
    ensures old { IfOk result (λ new. new ≡ false → IsTrue (contains nat_cmp met.old number)) }
    ensures one { OnOk result ((k : ℕ)
        → IsTrue (contains nat_cmp met.new k)
        → IsTrue (contains nat_cmp met.old k) ⊎ (number ≡ k)) }
    ensures stay { OnOk result ((k : ℕ) → IsTrue (contains nat_cmp met.old k) → IsTrue (contains nat_cmp met.new k)) }
    ensures more { IfOk result (λ new. IsTrue new → btree_set_len met.new ≡ btree_set_len met.old + 1) }
    ensures least { OnOk result (btree_set_len met.old ≤ btree_set_len met.new) }
    ensures range { OnOk result ((k : ℕ) → IsTrue (contains nat_cmp met.new k) → IsNumber k) }
    ensures few { OnOk result (btree_set_len met.new ≤ number_end) }
{
    if met.insert(number)? {
        return Ok(true);
    }
    Ok(false)
}

// The numbers of these entries are met. The directories among them; None if a number was met before, or is that of two.
fn take_in(
    alloc: Global,
    met: &mut BTreeSet<u64>,
    path: &[Name],
    entries: Vec<StoredEntry>,
) -> Result<Option<Vec<Directory>>, AllocError>
    requires storable { AreStorable entries.items }
    requires met { (k : ℕ) → IsTrue (contains nat_cmp met.old k) → IsNumber k }
    requires few { btree_set_len met.old ≤ number_end }
    ensures twice { IfOk result (λ o. o ≡ None → (known : List StoredEntry)
        → AreOf (contains nat_cmp met.old) known
        → StandTwice known entries.items) }
    ensures all { OnOk result ((known : List StoredEntry)
        → AreOf (contains nat_cmp met.old) known
        → AreOf (contains nat_cmp met.new) (known ++ entries.items)) }
    ensures new { IfOk result
        (λ o. IfSome o (λ _. AreNew entries.items (contains nat_cmp met.old) (contains nat_cmp met.new))) }
    ensures below { IfOk result (λ o. IfSome o (λ v. AreBelow entries.items v.items)) }
    ensures led { IfOk result (λ o. IfSome o (λ v. AreLed (ways_below path.now entries.items) v.items)) }
    ensures stay { OnOk result ((k : ℕ) → IsTrue (contains nat_cmp met.old k) → IsTrue (contains nat_cmp met.new k)) }
    ensures more { IfOk result
        (λ o. IfSome o (λ v. btree_set_len met.old + length v.items ≤ btree_set_len met.new)) }
    ensures least { OnOk result (btree_set_len met.old ≤ btree_set_len met.new) }
    ensures range { OnOk result ((k : ℕ) → IsTrue (contains nat_cmp met.new k) → IsNumber k) }
    ensures few { OnOk result (btree_set_len met.new ≤ number_end) }
{
    let mut below = Vec::new(alloc);
    let mut are_new = true;
    'entries: for entry in entries {
        if !meet(met, entry.number)? {
            are_new = false;
            continue;
        }
        below = with_directory(alloc, path, &entry, below)?;
    }
    if are_new { Ok(Some(below)) } else { Ok(None) }
}

// Forgets the numbers of a directory, and tells it. After an error nothing has changed, and nothing more is told.
fn forget<W: World, F: Files<W>>(
    files: &mut F,
    directory: Directory,
    damage: Damage,
    found: &mut Vec<Finding>,
) -> Result<(), FilesFault>
    ensures gone { W.honest
        → OnOk result (F.stored files.new ≡ without (F.stored files.old) directory.number) }
    ensures told { OnOk result (TellsNumbers directory damage found.old.items found.new.items) }
    ensures there { W.honest → OnErr result (F.stored files.new ≡ F.stored files.old) }
    ensures untold { OnErr result (found.new.items ≡ found.old.items) }
    ensures counted { Counted (result ≡ Err fault.Device) (F.failures files.old) (F.failures files.new) }
{
    let number = directory.number;
    let before = found.len();
    found.push(Finding {
        path: directory.path,
        number,
        damage,
        is_numbers: true,
    })?;
    match files.remove(number) {
        Ok(()) => Ok(()),
        Err(fault) => {
            found.truncate(before);
            Err(fault)
        }
    }
}

/// Looks at the numbers of a directory on that tree object: they are met, or are forgotten if they can't be read, or if
/// one was met before. The directories among its entries that are to be looked at.
///
/// After an error the numbers are there as they were, and nothing more is told.
pub(crate) fn mend_saved<W: World, F: Files<W>>(
    alloc: Global,
    files: &mut F,
    met: &mut BTreeSet<u64>,
    directory: Directory,
    tree: Id,
    found: &mut Vec<Finding>,
) -> Result<Vec<Directory>, FilesFault>
    requires from { directory.origin ≡ origin.Object tree }
    requires met { (k : ℕ) → IsTrue (contains nat_cmp met.old k) → IsNumber k }
    requires few { btree_set_len met.old ≤ number_end }
    ensures forgets { W.honest → IfOk result (λ v. ForgetsOn directory
        (F.stored files.old) (contains nat_cmp met.old) found.old.items
        (F.stored files.new) (contains nat_cmp met.new) found.new.items v.items) }
    ensures there { W.honest → OnErr result (F.stored files.new ≡ F.stored files.old) }
    ensures untold { OnErr result (found.new.items ≡ found.old.items) }
    ensures none_own { IfOk result (λ below. NoneIsOwn below.items) }
    ensures covered { W.honest → IfOk result (λ below. CoversOn directory
        (F.stored files.old) (contains nat_cmp met.old) none_seen below.items
        (F.stored files.new) (contains nat_cmp met.new) none_seen) }
    ensures more { IfOk result (λ v. btree_set_len met.old + length v.items ≤ btree_set_len met.new) }
    ensures range { OnOk result ((k : ℕ) → IsTrue (contains nat_cmp met.new k) → IsNumber k) }
    ensures few { OnOk result (btree_set_len met.new ≤ number_end) }
    ensures counted { Counted (result ≡ Err fault.Device) (F.failures files.old) (F.failures files.new) }
{
    match numbers_at(alloc, files, directory.number, tree)? {
        Numbers::None => Ok(Vec::new(alloc)),
        Numbers::Refused(refusal) => {
            forget(files, directory, Damage::Damaged(refusal), found)?;
            Ok(Vec::new(alloc))
        }
        Numbers::Entries(entries) => match take_in(alloc, met, &directory.path, entries)? {
            Some(below) => Ok(below),
            None => {
                forget(files, directory, Damage::Twice, found)?;
                Ok(Vec::new(alloc))
            }
        },
    }
}
