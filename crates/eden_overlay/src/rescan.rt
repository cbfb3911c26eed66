//! The next number and the soundness of files whose state was lost, by one pass over the directories that count.

ghost use Rattle.std.specs.Prelude.{◌≡◌, ◌≢◌, ◌≤◌, ◌<◌, ◌++◌, ◌∷◌, ◌+◌, ◌⊎◌, [], false, Err, None, ℕ, unwrap_or};
ghost use Rattle.std.specs.Prelude.{IfOk, IfErr, IfSome, OnOk, IsTrue, All, Contains};
ghost use Rattle.std.specs.Ordering.{nat_cmp};
ghost use Rattle.std.specs.BTreeSet.{contains, btree_set_len};
ghost use Rattle.eden_model.specs.Failures.{Counted};
ghost use Rattle.eden_model.specs.Limits.{number_least, number_end};
ghost use Rattle.eden_model.specs.Numbers.{IsNumber};
ghost use Rattle.eden_overlay.specs.Counting.{NumbersAreSound, HasGoodNumbers};
ghost use Rattle.eden_overlay.specs.Getting.{ExplainsNumbers};
ghost use Rattle.eden_overlay.specs.Held.{root_file, saved_at};
ghost use Rattle.eden_overlay.specs.Soundness.{AreSound};
ghost use Rattle.eden_overlay.specs.Rescanning.{ExplainsKind, IsNextOf, IsRescanFault};
ghost use Rattle.eden_overlay.specs.Walking.{AreNamed, of_getting, pending_of, pending_in, root_pending, AreInRange};
ghost use Rattle.eden_overlay.specs.Walking.{IsBelow, ExplainsBelow, GoesOn, EndsIn};
ghost use Rattle.eden_model.specs.declared.kind.Origin.TheVariants as origin;
ghost use Rattle.eden_overlay.specs.declared.files.FilesFault.TheVariants as files;
ghost use Rattle.eden_overlay.specs.declared.fault.GetFault.TheVariants as get;
ghost use Rattle.eden_overlay.specs.declared.rescan.RescanFault.TheVariants as fault;

use crate::fault::GetFault;
use crate::files::{Files, FilesFault};
use crate::overlay::{Overlay, ROOT_NUMBER};
use eden_model::{Id, Kind, NUMBER_END, Origin, World};
use eden_overlay_format::{Refusal, StoredEntry};
use std::alloc::{AllocError, AllocFailed, Global};
use std::collections::BTreeSet;
use thiserror::Error;

/// The least number of an entry.
pub(crate) const LEAST_NUMBER: u64 = 2;

/// Why a pass over the directories that count gave no next number: the first that it met. No file has changed then.
#[derive(Clone, Copy, Debug, PartialEq, Eq, Error)]
pub enum RescanFault {
    /// A directory names the file of that number as an entry's own, and it isn't stored.
    #[error("file {0} is named, and is missing")]
    Dangling(u64),
    /// Directories name that number twice.
    #[error("number {0} is named twice")]
    Twice(u64),
    /// The file of that number is stored, and isn't what its entry says, a directory or a content; or it has numbers of
    /// a directory on a tree object, and isn't in their grammar; or it is file 1, and no directory. File 1 with a
    /// `BadBody` also says that a file has a number of 2^63 or more, so that none is left to give.
    #[error("file {0} is damaged: {1}")]
    Damaged(u64, Refusal),
    /// The device failed.
    #[error("the device failed")]
    Device,
    /// No memory.
    #[error("out of memory")]
    Memory,
}

impl From<FilesFault> for RescanFault {
    ghost use Rattle.std.specs.Prelude.{◌≡◌};
    ghost use Rattle.eden_overlay.specs.Rescanning.{of_files};

    ghost from_gives = { λ e f. f ≡ of_files e };

    fn from(e: FilesFault) -> RescanFault {
        match e {
            FilesFault::Device => RescanFault::Device,
            FilesFault::Memory => RescanFault::Memory,
        }
    }
}

impl From<AllocError> for RescanFault {
    ghost from_gives = { λ _ f. f ≡ fault.Memory };

    fn from(_e: AllocError) -> RescanFault {
        RescanFault::Memory
    }
}

impl<T: Drop> From<AllocFailed<T>> for RescanFault {
    ghost from_gives = { λ _ f. f ≡ fault.Memory };

    fn from(_e: AllocFailed<T>) -> RescanFault {
        RescanFault::Memory
    }
}

// The fault of the file of that number.
fn fault_of(number: u64, fault: GetFault) -> RescanFault
    ensures { result ≡ of_getting number fault }
{
    match fault {
        GetFault::Absent => RescanFault::Dangling(number),
        GetFault::Damaged(refusal) => RescanFault::Damaged(number, refusal),
        GetFault::Device => RescanFault::Device,
        GetFault::Memory => RescanFault::Memory,
    }
}

/// What is kept of an entry until it is visited.
#[derive(Clone, Copy)]
struct Pending {
    number: u64,
    kind: Kind,
    origin: Origin,
}

impl Pending {
    fn of(entry: &StoredEntry) -> Pending
        ensures { result ≡ pending_of entry.now }
    {
        Pending {
            number: entry.number,
            kind: entry.kind,
            origin: entry.origin,
        }
    }
}

// The entries of a directory, the last first: the first is then the next that is popped.
fn pending_entries(alloc: Global, entries: &[StoredEntry]) -> Result<Vec<Pending>, AllocError>
    ensures all { IfOk result (λ v. v.items ≡ pending_in entries.now) }
{
    entries.iter().rev().map(Pending::of).collect(alloc)
}

// One more than the greatest of the numbers that were met, or the least number.
fn after_met(met: &BTreeSet<u64>) -> u64
    requires range { (k : ℕ) → IsTrue (contains nat_cmp met.now k) → IsNumber k }
    ensures above { (k : ℕ) → IsTrue (contains nat_cmp met.now k) → k < result }
    ensures range { (number_least ≤ result) × (result ≤ number_end) }
    ensures last { (result ≡ number_least)
        ⊎ ((k : ℕ) × (IsTrue (contains nat_cmp met.now k) × (result ≡ k + 1))) }
{
    match met.last() {
        Some(last) => *last + 1,
        None => LEAST_NUMBER,
    }
}

// That number, or one more than the greatest of the files' if that is more. None if a file's leaves none to give.
fn after_files(least: u64, files: &[u64]) -> Option<u64>
    requires range { least ≤ number_end }
    ensures above { IfSome result (λ n. least ≤ n) }
    ensures files { IfSome result (λ n. All (λ k. k < n) files.now) }
    ensures range { IfSome result (λ n. n ≤ number_end) }
    ensures last { IfSome result (λ n. (n ≡ least) ⊎ ((k : ℕ) × (Contains files.now k × (n ≡ k + 1)))) }
    ensures none { result ≡ None → (k : ℕ) × (Contains files.now k × (number_end ≤ k)) }
{
    let mut next = least;
    for number in files {
        if *number >= NUMBER_END {
            return None;
        }
        if *number >= next {
            next = *number + 1;
        }
    }
    Some(next)
}

impl<W: World, F: Files<W>> Overlay<W, F> {
    /// The next number over that commit's tree: one more than the greatest that a directory names which counts, and
    /// than that of any file; or 2 where there is none.
    ///
    /// One pass goes from the root down, in the byte order of the names, into a directory as soon as it is met: into
    /// one of its own by its file, and into one on a tree object where its file has the numbers of that object's
    /// entries. It reads each file that is an entry's own, and each with numbers. Whatever the files say, it ends. Of
    /// an entry it keeps the number, the kind and where it comes from, and never the name.
    pub fn rescan(&mut self, alloc: Global, root: Id) -> Result<u64, RescanFault>
        ensures sound { W.honest → OnOk result (AreSound (F.stored self.old)) }
        ensures numbers { W.honest → OnOk result (NumbersAreSound (F.stored self.old) root) }
        ensures next { W.honest → IfOk result (IsNextOf (F.stored self.old) root) }
        ensures range { IfOk result (λ n. (number_least ≤ n) × (n ≤ number_end)) }
        ensures refused { IfErr result
            (IsRescanFault W.honest (F.stored self.old) root (F.failures self.old) (F.failures self.new)) }
        ensures unchanged { W.honest → F.stored self.new ≡ F.stored self.old }
        ensures counted { F.failures self.old ≤ F.failures self.new }
    {
        let met = self.named(alloc, root)?;
        let files = self.list(alloc)?;
        match after_files(after_met(&met), &files) {
            Some(next) => Ok(next),
            None => Err(RescanFault::Damaged(ROOT_NUMBER, Refusal::BadBody)),
        }
    }

    // The numbers that directories name which count, where the files are sound.
    pub(crate) fn named(&mut self, alloc: Global, root: Id) -> Result<BTreeSet<u64>, RescanFault>
        ensures sound { W.honest → OnOk result (AreSound (F.stored self.old)) }
        ensures numbers { W.honest → OnOk result (NumbersAreSound (F.stored self.old) root) }
        ensures all { W.honest → IfOk result (λ met. AreNamed (F.stored self.old) root (contains nat_cmp met)) }
        ensures range { IfOk result (λ met. (k : ℕ) → IsTrue (contains nat_cmp met k) → IsNumber k) }
        ensures refused { IfErr result
            (IsRescanFault W.honest (F.stored self.old) root (F.failures self.old) (F.failures self.new)) }
        ensures unchanged { W.honest → F.stored self.new ≡ F.stored self.old }
        ensures counted { F.failures self.old ≤ F.failures self.new }
    {
        let top = self.top(root)?;
        match self.below(alloc, top) {
            Ok(pending) => self.walk(alloc, pending),
            Err(fault) => Err(fault_of(ROOT_NUMBER, fault)),
        }
    }

    // The root, as an entry that is to be visited.
    fn top(&mut self, root: Id) -> Result<Pending, FilesFault>
        ensures is { W.honest → IfOk result (λ x. x ≡ root_pending root (root_file (F.stored self.old))) }
        ensures number { IfOk result (λ x. x.number ≡ 1) }
        ensures fault { IfErr result (λ f. f ≡ files.Device) }
        ensures unchanged { W.honest → F.stored self.new ≡ F.stored self.old }
        ensures counted { Counted (result ≡ Err files.Device) (F.failures self.old) (F.failures self.new) }
    {
        let origin = if self.is_rooted()? {
            Origin::Own
        } else {
            Origin::Object(root)
        };
        Ok(Pending {
            number: ROOT_NUMBER,
            kind: Kind::Dir,
            origin,
        })
    }

    // Visits what is pending, and all that is below it.
    fn walk(
        &mut self,
        alloc: Global,
        mut pending: Vec<Pending>,
    ) -> Result<BTreeSet<u64>, RescanFault>
        requires range { AreInRange pending.items }
        ensures all { W.honest
            → IfOk result (λ met. GoesOn (F.stored self.old) pending.items (λ _. false) [] (contains nat_cmp met)) }
        ensures range { IfOk result (λ met. (k : ℕ) → IsTrue (contains nat_cmp met k) → IsNumber k) }
        ensures refused { IfErr result
            (EndsIn W.honest (F.stored self.old) pending.items (λ _. false)
            (F.failures self.old) (F.failures self.new)) }
        ensures unchanged { W.honest → F.stored self.new ≡ F.stored self.old }
        ensures counted { F.failures self.old ≤ F.failures self.new }
    {
        let mut met = BTreeSet::new(alloc);
        while let Some(entry) = pending.pop() {
            self.visit(alloc, entry, &mut pending, &mut met)?;
        }
        Ok(met)
    }

    // Visits an entry; what is below it is pending then.
    fn visit(
        &mut self,
        alloc: Global,
        entry: Pending,
        pending: &mut Vec<Pending>,
        met: &mut BTreeSet<u64>,
    ) -> Result<(), RescanFault>
        requires range { IsNumber entry.number }
        requires ranges { AreInRange pending.old.items }
        requires met { (k : ℕ) → IsTrue (contains nat_cmp met.old k) → IsNumber k }
        ensures walked { W.honest → OnOk result
            (GoesOn (F.stored self.old) (pending.old.items ++ entry ∷ []) (contains nat_cmp met.old)
            pending.new.items (contains nat_cmp met.new)) }
        ensures ranges { OnOk result (AreInRange pending.new.items) }
        ensures met { OnOk result ((k : ℕ) → IsTrue (contains nat_cmp met.new k) → IsNumber k) }
        ensures more { OnOk result (btree_set_len met.new ≡ btree_set_len met.old + 1) }
        ensures few { OnOk result (btree_set_len met.new ≤ number_end) }
        ensures refused { IfErr result
            (EndsIn W.honest (F.stored self.old) (pending.old.items ++ entry ∷ []) (contains nat_cmp met.old)
            (F.failures self.old) (F.failures self.new)) }
        ensures unchanged { W.honest → F.stored self.new ≡ F.stored self.old }
        ensures counted { F.failures self.old ≤ F.failures self.new }
    {
        if !met.insert(entry.number)? {
            return Err(RescanFault::Twice(entry.number));
        }
        match self.below(alloc, entry) {
            Ok(mut below) => pending.append(&mut below)?,
            Err(fault) => return Err(fault_of(entry.number, fault)),
        }
        Ok(())
    }

    // Looks at an entry's file, where it may have one: what is pending below it.
    fn below(&mut self, alloc: Global, entry: Pending) -> Result<Vec<Pending>, GetFault>
        ensures held { W.honest
            → IfOk result (λ v. IsBelow (F.stored self.old) entry.number entry.kind entry.origin v.items) }
        ensures ranges { IfOk result (λ v. AreInRange v.items) }
        ensures refused { W.honest
            → IfErr result (ExplainsBelow (F.stored self.old) entry.number entry.kind entry.origin) }
        ensures unchanged { W.honest → F.stored self.new ≡ F.stored self.old }
        ensures counted { Counted (result ≡ Err get.Device) (F.failures self.old) (F.failures self.new) }
    {
        match entry.origin {
            Origin::Own => self.below_own(alloc, entry.number, entry.kind),
            Origin::Object(tree) => match entry.kind {
                Kind::Dir => self.below_saved(alloc, entry.number, tree),
                Kind::File | Kind::Exec | Kind::Link => Ok(Vec::new(alloc)),
            },
            Origin::Empty => Ok(Vec::new(alloc)),
        }
    }

    // .. at one's own file.
    fn below_own(
        &mut self,
        alloc: Global,
        number: u64,
        kind: Kind,
    ) -> Result<Vec<Pending>, GetFault>
        ensures held { W.honest
            → IfOk result (λ v. IsBelow (F.stored self.old) number kind origin.Own v.items) }
        ensures ranges { IfOk result (λ v. AreInRange v.items) }
        ensures refused { W.honest → IfErr result (ExplainsKind (F.stored self.old) number kind) }
        ensures unchanged { W.honest → F.stored self.new ≡ F.stored self.old }
        ensures counted { Counted (result ≡ Err get.Device) (F.failures self.old) (F.failures self.new) }
    {
        match kind {
            Kind::Dir => {
                let entries = self.get_dir(alloc, number)?;
                Ok(pending_entries(alloc, &entries)?)
            }
            Kind::File | Kind::Exec | Kind::Link => {
                let _content = self.get_file(alloc, number)?;
                Ok(Vec::new(alloc))
            }
        }
    }

    // .. at the numbers that were saved for a directory on that tree object, if there are any.
    fn below_saved(
        &mut self,
        alloc: Global,
        number: u64,
        tree: Id,
    ) -> Result<Vec<Pending>, GetFault>
        ensures held { W.honest
            → IfOk result (λ v. v.items ≡ pending_in (unwrap_or (saved_at (F.stored self.old) number tree) [])) }
        ensures good { W.honest → OnOk result (HasGoodNumbers (F.stored self.old number)) }
        ensures ranges { IfOk result (λ v. AreInRange v.items) }
        ensures there { result ≢ Err get.Absent }
        ensures refused { W.honest → IfErr result (ExplainsNumbers tree (F.stored self.old number)) }
        ensures unchanged { W.honest → F.stored self.new ≡ F.stored self.old }
        ensures counted { Counted (result ≡ Err get.Device) (F.failures self.old) (F.failures self.new) }
    {
        match self.get_numbers(alloc, number, tree) {
            Ok(entries) => Ok(pending_entries(alloc, &entries)?),
            Err(GetFault::Absent) => Ok(Vec::new(alloc)),
            Err(fault) => Err(fault),
        }
    }
}
