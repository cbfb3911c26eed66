//! Files that fail where a test wants it.

ghost use Rattle.std.specs.Prelude.{◌≡◌, ◌≤◌, ◌++◌, None, Some, Err, IfOk, IfErr, IfSome, OnOk, OnErr, length};
ghost use Rattle.std.specs.Prelude.{option_map};
ghost use Rattle.std.specs.Ordering.{nat_cmp};
ghost use Rattle.std.specs.List.Sorted.{IsStrictlySortedBy};
ghost use Rattle.eden_model.specs.Failures.{Counted};
ghost use Rattle.eden_overlay_format.specs.Stored.{stored_as};
ghost use Rattle.eden_overlay.specs.Gates.{Calls};
ghost use Rattle.eden_overlay.specs.Files.{IsHeadOf, ListsNumbers, part, with_file};
ghost use Rattle.eden_overlay.specs.declared.files.FilesFault.TheVariants as fault;

use crate::files::{Files, FilesFault, count_failures};
use eden_model::{Obstacle, World};
use eden_overlay_format::{Head, Identifier};
use std::alloc::Global;
use std::cell::Cell;
use std::marker::Model;
use std::rc::Rc;

/// Says of each call in turn whether it passes.
pub trait Gate: Drop {
    ghost use Rattle.std.specs.Prelude.{Bool};

    /// The gate was as the first says, let a call pass or not, and was then as the last says.
    ghost passed: { Self → Bool → Self → Type 0 };

    /// Whether the next call passes.
    fn passes(&mut self) -> bool
        ensures { passed self.old result self.new };
}

/// The call of this number doesn't pass, counted from 1 over all calls; at 0 each passes.
#[derive(Drop)]
pub struct OneCall {
    call: u64,
}

impl Gate for OneCall {
    ghost use Rattle.eden_overlay.specs.Gates.{IsCall};

    ghost passed = { λ old passes new. IsCall old.call passes new.call };

    fn passes(&mut self) -> bool {
        let passes = self.call != 1;
        self.call = self.call.saturating_sub(1);
        passes
    }
}

/// As many calls pass as the shared number still allows, each taking one away. Whoever sets it mends the device. What
/// a shared cell holds no contract can say.
#[derive(Drop)]
pub struct Allowance {
    allowed: Rc<Cell<u64>>,
}

impl Gate for Allowance {
    ghost passed = { λ _ _ _. Unit {0} };

    fn passes(&mut self) -> bool {
        let allowed = self.allowed.get();
        self.allowed.set(allowed.saturating_sub(1));
        allowed > 0
    }
}

/// Files behind a gate: a call that doesn't pass answers `Device` and doesn't reach the files.
///
/// Contracts see the files, the gate, and how many calls answered `Device`, also where the files did.
#[derive(Drop)]
pub struct GatedFiles<F, G> {
    files: F,
    gate: G,
    failures: u64,
}

impl<F, G> Model for GatedFiles<F, G> {
    ghost use Rattle.eden_overlay.specs.Gates.{Gated};

    ghost Value = { Gated F G };

    ghost view = { λ s. record { files = s.files; gate = s.gate; failures = s.failures } };
}

/// Files of which one call fails.
pub type FailingFiles<F> = GatedFiles<F, OneCall>;

impl<F> GatedFiles<F, OneCall> {
    /// The files, of which the call of that number fails, counted from 1 over all calls; at 0 none does.
    pub fn new(files: F, call: u64) -> Self
        ensures { result ≡ record { files = files; gate = record { call = call }; failures = 0 } }
    {
        GatedFiles {
            files,
            gate: OneCall { call },
            failures: 0,
        }
    }
}

/// Files that stop, and are mended.
pub type StopFiles<F> = GatedFiles<F, Allowance>;

impl<F> GatedFiles<F, Allowance> {
    /// The files, of which as many calls pass as the number allows.
    pub fn new(files: F, allowed: Rc<Cell<u64>>) -> Self
        ensures files { result.files ≡ files }
        ensures failures { result.failures ≡ 0 }
    {
        GatedFiles {
            files,
            gate: Allowance { allowed },
            failures: 0,
        }
    }
}

impl<F, G: Gate> GatedFiles<F, G> {
    /// How many calls answered `Device`, up to 2^64 - 1.
    pub fn failures(&self) -> u64
        ensures { result ≡ self.now.failures }
    {
        self.failures
    }

    /// The files.
    pub fn into_files(self) -> F
        ensures { result ≡ self.files }
    {
        let GatedFiles { files, .. } = self;
        files
    }
}

impl<W: World, F: Files<W>, G: Gate> Files<W> for GatedFiles<F, G> {
    ghost stored = { λ s. F.stored s.files };

    ghost failures = { λ s. s.failures };

    fn failures(&self) -> u64 {
        self.failures
    }

    fn obstacle(&self) -> Option<Obstacle> {
        self.files.obstacle()
    }

    fn read(&mut self, alloc: Global, number: u64) -> Result<Option<Vec<u8>>, FilesFault>
        ensures found { W.honest → IfOk result (λ o. option_map (λ v. v.items) o ≡ F.stored self.old.files number) }
        ensures unchanged { W.honest → F.stored self.new.files ≡ F.stored self.old.files }
        ensures counted { Counted (result ≡ Err fault.Device) self.old.failures self.new.failures }
        ensures calls { Calls G.passed self.old result self.new }
    {
        let answer = if self.gate.passes() {
            self.files.read(alloc, number)
        } else {
            Err(FilesFault::Device)
        };
        self.failures = count_failures(self.failures, &answer);
        answer
    }

    fn head(&mut self, number: u64) -> Result<Option<Head>, FilesFault>
        ensures found { W.honest → IfOk result (IsHeadOf (F.stored self.old.files number)) }
        ensures unchanged { W.honest → F.stored self.new.files ≡ F.stored self.old.files }
        ensures fault { IfErr result (λ f. f ≡ fault.Device) }
        ensures counted { Counted (result ≡ Err fault.Device) self.old.failures self.new.failures }
        ensures calls { Calls G.passed self.old result self.new }
    {
        let answer = if self.gate.passes() {
            self.files.head(number)
        } else {
            Err(FilesFault::Device)
        };
        self.failures = count_failures(self.failures, &answer);
        answer
    }

    fn read_part(
        &mut self,
        alloc: Global,
        number: u64,
        from: u64,
        most: u64,
    ) -> Result<Option<Vec<u8>>, FilesFault>
        ensures found { W.honest → IfOk result
            (λ o. option_map (λ v. v.items) o ≡ option_map (part from most) (F.stored self.old.files number)) }
        ensures bounded { IfOk result (λ o. IfSome o (λ v. length v.items ≤ most)) }
        ensures unchanged { W.honest → F.stored self.new.files ≡ F.stored self.old.files }
        ensures counted { Counted (result ≡ Err fault.Device) self.old.failures self.new.failures }
        ensures calls { Calls G.passed self.old result self.new }
    {
        let answer = if self.gate.passes() {
            self.files.read_part(alloc, number, from, most)
        } else {
            Err(FilesFault::Device)
        };
        self.failures = count_failures(self.failures, &answer);
        answer
    }

    fn replace(&mut self, alloc: Global, number: u64, bytes: &[u8]) -> Result<(), FilesFault>
        ensures ok { W.honest
            → OnOk result (F.stored self.new.files ≡ with_file (F.stored self.old.files) number (Some bytes.now)) }
        ensures err { W.honest → OnErr result (F.stored self.new.files ≡ F.stored self.old.files) }
        ensures counted { Counted (result ≡ Err fault.Device) self.old.failures self.new.failures }
        ensures calls { Calls G.passed self.old result self.new }
    {
        let answer = if self.gate.passes() {
            self.files.replace(alloc, number, bytes)
        } else {
            Err(FilesFault::Device)
        };
        self.failures = count_failures(self.failures, &answer);
        answer
    }

    fn replace_joined(
        &mut self,
        alloc: Global,
        number: u64,
        front: &[u8],
        behind: &[u8],
    ) -> Result<(), FilesFault>
        ensures ok { W.honest → OnOk result
            (F.stored self.new.files ≡ with_file (F.stored self.old.files) number (Some (front.now ++ behind.now))) }
        ensures err { W.honest → OnErr result (F.stored self.new.files ≡ F.stored self.old.files) }
        ensures counted { Counted (result ≡ Err fault.Device) self.old.failures self.new.failures }
        ensures calls { Calls G.passed self.old result self.new }
    {
        let answer = if self.gate.passes() {
            self.files.replace_joined(alloc, number, front, behind)
        } else {
            Err(FilesFault::Device)
        };
        self.failures = count_failures(self.failures, &answer);
        answer
    }

    fn replace_body(
        &mut self,
        alloc: Global,
        number: u64,
        identifier: Identifier,
        body: &[u8],
    ) -> Result<(), FilesFault>
        ensures ok { W.honest → OnOk result
            (F.stored self.new.files
            ≡ with_file (F.stored self.old.files) number (Some (stored_as identifier body.now))) }
        ensures err { W.honest → OnErr result (F.stored self.new.files ≡ F.stored self.old.files) }
        ensures counted { Counted (result ≡ Err fault.Device) self.old.failures self.new.failures }
        ensures calls { Calls G.passed self.old result self.new }
    {
        let answer = if self.gate.passes() {
            self.files.replace_body(alloc, number, identifier, body)
        } else {
            Err(FilesFault::Device)
        };
        self.failures = count_failures(self.failures, &answer);
        answer
    }

    fn remove(&mut self, number: u64) -> Result<(), FilesFault>
        ensures ok { W.honest → OnOk result
            (F.stored self.new.files ≡ with_file (F.stored self.old.files) number None) }
        ensures err { W.honest → OnErr result (F.stored self.new.files ≡ F.stored self.old.files) }
        ensures fault { IfErr result (λ f. f ≡ fault.Device) }
        ensures counted { Counted (result ≡ Err fault.Device) self.old.failures self.new.failures }
        ensures calls { Calls G.passed self.old result self.new }
    {
        let answer = if self.gate.passes() {
            self.files.remove(number)
        } else {
            Err(FilesFault::Device)
        };
        self.failures = count_failures(self.failures, &answer);
        answer
    }

    fn sync(&mut self, alloc: Global) -> Result<(), FilesFault>
        ensures unchanged { W.honest → F.stored self.new.files ≡ F.stored self.old.files }
        ensures counted { Counted (result ≡ Err fault.Device) self.old.failures self.new.failures }
        ensures calls { Calls G.passed self.old result self.new }
    {
        let answer = if self.gate.passes() {
            self.files.sync(alloc)
        } else {
            Err(FilesFault::Device)
        };
        self.failures = count_failures(self.failures, &answer);
        answer
    }

    fn list(&mut self, alloc: Global) -> Result<Vec<u64>, FilesFault>
        ensures rising { IfOk result (λ v. IsStrictlySortedBy nat_cmp v.items) }
        ensures all { W.honest → IfOk result (λ v. ListsNumbers v.items (F.stored self.old.files)) }
        ensures unchanged { W.honest → F.stored self.new.files ≡ F.stored self.old.files }
        ensures counted { Counted (result ≡ Err fault.Device) self.old.failures self.new.failures }
        ensures calls { Calls G.passed self.old result self.new }
    {
        let answer = if self.gate.passes() {
            self.files.list(alloc)
        } else {
            Err(FilesFault::Device)
        };
        self.failures = count_failures(self.failures, &answer);
        answer
    }
}
