//! Orphans: stored files that no directory names which counts. They are found, counted and removed.

ghost use Rattle.std.specs.Prelude.{◌≡◌, ◌≤◌, ◌+◌, ◌-◌, ◌^◌, ◌&&◌, Err, All, IfOk, IfErr, OnOk};
ghost use Rattle.std.specs.Prelude.{filter, leb, min, not};
ghost use Rattle.std.specs.BTreeSet.{contains};
ghost use Rattle.std.specs.Ordering.{nat_cmp};
ghost use Rattle.std.specs.List.Sorted.{IsStrictlySortedBy};
ghost use Rattle.eden_model.specs.declared.id.Id.{Id};
ghost use Rattle.eden_model.specs.Limits.{number_least};
ghost use Rattle.eden_model.specs.Failures.{Counted};
ghost use Rattle.eden_overlay.specs.Rescanning.{IsRescanFault};
ghost use Rattle.eden_overlay.specs.Soundness.{AreSound};
ghost use Rattle.eden_overlay.specs.Tidying.{IsOrphan, IsTidiedInPart, ListsOrphans, bytes_in};
ghost use Rattle.eden_overlay.specs.declared.files.FilesFault.TheVariants as files;

use crate::files::{Files, FilesFault};
use crate::overlay::Overlay;
use crate::rescan::{LEAST_NUMBER, RescanFault};
use eden_model::{Id, World};
use std::alloc::Global;
use std::collections::BTreeSet;

/// What was removed.
#[derive(Clone, Copy, Debug, PartialEq, Eq)]
pub struct Removed {
    /// How many files.
    pub files: u64,
    /// How many bytes they had together, up to 2^64 - 1.
    pub bytes: u64,
}

impl Removed {
    /// Nothing.
    pub fn nothing() -> Removed
        ensures { result ≡ record { files = 0; bytes = 0 } }
    {
        Removed { files: 0, bytes: 0 }
    }

    /// Both together, each number up to 2^64 - 1.
    pub fn and(self, other: Removed) -> Removed
        ensures files { result.files ≡ min (self.files + other.files) (2 ^ 64 - 1) }
        ensures bytes { result.bytes ≡ min (self.bytes + other.bytes) (2 ^ 64 - 1) }
    {
        Removed {
            files: self.files.saturating_add(other.files),
            bytes: self.bytes.saturating_add(other.bytes),
        }
    }
}

// Of these numbers those that an entry can have and none has.
fn unnamed(mut numbers: Vec<u64>, named: &BTreeSet<u64>) -> Vec<u64>
    ensures { result.items ≡ filter (λ k. leb number_least k && not (contains nat_cmp named.now k)) numbers.items }
{
    numbers.retain(|number| *number >= LEAST_NUMBER && !named.contains(number));
    numbers
}

impl<W: World, F: Files<W>> Overlay<W, F> {
    /// The numbers of the orphans over that commit's tree, rising, where the files are sound: of the stored files that
    /// no directory names which counts, but for those of the state and of the root.
    ///
    /// One pass over the directories that count goes before, as by `rescan`, with its errors.
    pub fn orphans(&mut self, alloc: Global, root: Id) -> Result<Vec<u64>, RescanFault>
        ensures sound { W.honest → OnOk result (AreSound (F.stored self.old)) }
        ensures all { W.honest → IfOk result (λ v. ListsOrphans v.items (F.stored self.old) root) }
        ensures rising { IfOk result (λ v. IsStrictlySortedBy nat_cmp v.items) }
        ensures refused { IfErr result
            (IsRescanFault W.honest (F.stored self.old) root (F.failures self.old) (F.failures self.new)) }
        ensures unchanged { W.honest → F.stored self.new ≡ F.stored self.old }
        ensures counted { F.failures self.old ≤ F.failures self.new }
    {
        let named = self.named(alloc, root)?;
        let numbers = self.list(alloc)?;
        Ok(unnamed(numbers, &named))
    }

    /// How many bytes the files of these numbers have together, up to 2^64 - 1; one that isn't stored has none. It
    /// takes no memory: its one error is the device's.
    pub fn bytes_in(&mut self, numbers: &[u64]) -> Result<u64, FilesFault>
        ensures told { W.honest → IfOk result (λ bytes. bytes ≡ bytes_in (F.stored self.old) numbers.now) }
        ensures fault { IfErr result (λ f. f ≡ files.Device) }
        ensures unchanged { W.honest → F.stored self.new ≡ F.stored self.old }
        ensures counted { Counted (result ≡ Err files.Device) (F.failures self.old) (F.failures self.new) }
    {
        let mut bytes: u64 = 0;
        for number in numbers {
            bytes = bytes.saturating_add(self.bytes_at(*number)?);
        }
        Ok(bytes)
    }

    /// Removes these orphans, whatever the commit's tree is over which they are orphans, and no other file. It takes no
    /// memory: its one error is the device's, and the orphans that were removed by then stay so.
    pub fn remove_orphans(&mut self, numbers: &[u64]) -> Result<(), FilesFault>
        requires sound { W.honest → AreSound (F.stored self.old) }
        requires orphans { W.honest → (root : Id) × All (IsOrphan (F.stored self.old) root) numbers.now }
        ensures gone { W.honest → OnOk result (All (λ k. F.stored self.new k ≡ None) numbers.now) }
        ensures others { W.honest → (root : Id) → All (IsOrphan (F.stored self.old) root) numbers.now
            → IsTidiedInPart (F.stored self.old) root (F.stored self.new) }
        ensures sound { W.honest → AreSound (F.stored self.new) }
        ensures fault { IfErr result (λ f. f ≡ files.Device) }
        ensures counted { Counted (result ≡ Err files.Device) (F.failures self.old) (F.failures self.new) }
    {
        for number in numbers {
            self.remove(*number)?;
        }
        Ok(())
    }
}
