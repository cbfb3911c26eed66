ghost use Rattle.std.specs.Prelude.{◌≡◌, ◌≢◌, Err};
ghost use Rattle.eden_model.specs.Failures.{one_more};
ghost use Rattle.eden_overlay.specs.Getting.{files_fault_number};
ghost use Rattle.eden_overlay.specs.declared.files.FilesFault.TheVariants as fault;

use eden_model::{Obstacle, World};
use eden_overlay_format::{Head, Identifier, header_of};
use std::alloc::{AllocError, AllocFailed, Global};
use thiserror::Error;

/// Why stored files could not be read or changed. Nothing has changed then.
#[derive(Clone, Copy, Debug, PartialEq, Eq, Error)]
pub enum FilesFault {
    /// The device failed.
    #[error("the device failed")]
    Device,
    /// No memory.
    #[error("out of memory")]
    Memory,
}

impl FilesFault {
    /// The fault's number: 1 `Device`, 2 `Memory`.
    pub fn number(self) -> u8
        ensures { result ≡ files_fault_number self }
    {
        match self {
            FilesFault::Device => 1,
            FilesFault::Memory => 2,
        }
    }
}

impl From<AllocError> for FilesFault {
    ghost from_gives = { λ _ f. f ≡ fault.Memory };

    fn from(_e: AllocError) -> FilesFault {
        FilesFault::Memory
    }
}

impl<T: Drop> From<AllocFailed<T>> for FilesFault {
    ghost from_gives = { λ _ f. f ≡ fault.Memory };

    fn from(_e: AllocFailed<T>) -> FilesFault {
        FilesFault::Memory
    }
}

/// Files by their numbers.
///
/// What is stored is promised where the World is honest. After an error nothing has changed. Each answer `Device`
/// raises the count of failures, and no other answer touches it.
pub trait Files<W: World>: Drop {
    ghost use Rattle.std.specs.Prelude.{◌≡◌, ◌≤◌, ◌++◌, ℕ, None, Some, Err, IfOk, IfErr, IfSome, OnOk, OnErr, length};
    ghost use Rattle.std.specs.Prelude.{option_map};
    ghost use Rattle.std.specs.Ordering.{nat_cmp};
    ghost use Rattle.std.specs.List.Sorted.{IsStrictlySortedBy};
    ghost use Rattle.eden_model.specs.Failures.{Counted};
    ghost use Rattle.eden_overlay_format.specs.Stored.{stored_as};
    ghost use Rattle.eden_overlay.specs.Files.{Stored, with_file, part, IsHeadOf, ListsNumbers};
    ghost use Rattle.eden_overlay.specs.declared.files.FilesFault.TheVariants.{Device};

    /// The files, by their numbers.
    ghost stored: { Self → Stored };

    /// How often the device failed.
    ghost failures: { Self → ℕ };

    /// How often the device failed, up to 2^64 - 1.
    fn failures(&self) -> u64
        ensures { result ≡ failures self.now };

    /// What kept the device from storing when it was to store last; None where it stored, or didn't say. Contracts
    /// promise nothing of it.
    fn obstacle(&self) -> Option<Obstacle>;

    /// The bytes of the file with that number, or None where there is none.
    fn read(&mut self, alloc: Global, number: u64) -> Result<Option<Vec<u8>>, FilesFault>
        ensures found { W.honest → IfOk result (λ o. option_map (λ v. v.items) o ≡ stored self.old number) }
        ensures unchanged { W.honest → stored self.new ≡ stored self.old }
        ensures counted { Counted (result ≡ Err Device) (failures self.old) (failures self.new) };

    /// The first 64 bytes of the file with that number, and its length, or None where there is none. The rest isn't
    /// read where the file lies by itself. Its one error is the device's; want of memory counts as that, where a file
    /// has to be put together.
    fn head(&mut self, number: u64) -> Result<Option<Head>, FilesFault>
        ensures found { W.honest → IfOk result (IsHeadOf (stored self.old number)) }
        ensures unchanged { W.honest → stored self.new ≡ stored self.old }
        ensures fault { IfErr result (λ f. f ≡ Device) }
        ensures counted { Counted (result ≡ Err Device) (failures self.old) (failures self.new) };

    /// The bytes of the file with that number from `from` on, at most `most` of them: none where it ends before. None
    /// where there is no file. The rest isn't read.
    fn read_part(
        &mut self,
        alloc: Global,
        number: u64,
        from: u64,
        most: u64,
    ) -> Result<Option<Vec<u8>>, FilesFault>
        ensures found { W.honest → IfOk result
            (λ o. option_map (λ v. v.items) o ≡ option_map (part from most) (stored self.old number)) }
        ensures bounded { IfOk result (λ o. IfSome o (λ v. length v.items ≤ most)) }
        ensures unchanged { W.honest → stored self.new ≡ stored self.old }
        ensures counted { Counted (result ≡ Err Device) (failures self.old) (failures self.new) };

    /// Stores the bytes as the whole file of that number, in place of any that was there.
    fn replace(&mut self, alloc: Global, number: u64, bytes: &[u8]) -> Result<(), FilesFault>
        ensures ok { W.honest → OnOk result (stored self.new ≡ with_file (stored self.old) number (Some bytes.now)) }
        ensures err { W.honest → OnErr result (stored self.new ≡ stored self.old) }
        ensures counted { Counted (result ≡ Err Device) (failures self.old) (failures self.new) };

    /// Stores the bytes of both, one behind the other, as `replace` does: so neither is copied where the files lie in a
    /// folder.
    fn replace_joined(
        &mut self,
        alloc: Global,
        number: u64,
        front: &[u8],
        behind: &[u8],
    ) -> Result<(), FilesFault>
        ensures ok { W.honest
            → OnOk result (stored self.new ≡ with_file (stored self.old) number (Some (front.now ++ behind.now))) }
        ensures err { W.honest → OnErr result (stored self.new ≡ stored self.old) }
        ensures counted { Counted (result ≡ Err Device) (failures self.old) (failures self.new) };

    /// Stores the file that has this body, behind the header that it has under that identifier, as `replace` does. If
    /// it is replaced again before anything needs the header, that needn't be made.
    fn replace_body(
        &mut self,
        alloc: Global,
        number: u64,
        identifier: Identifier,
        body: &[u8],
    ) -> Result<(), FilesFault>
        ensures ok { W.honest → OnOk result
            (stored self.new ≡ with_file (stored self.old) number (Some (stored_as identifier body.now))) }
        ensures err { W.honest → OnErr result (stored self.new ≡ stored self.old) }
        ensures counted { Counted (result ≡ Err Device) (failures self.old) (failures self.new) }
    {
        let header = header_of(identifier, body);
        self.replace_joined(alloc, number, &header, body)
    }

    /// Removes the file of that number; Ok too where there is none. It takes no memory: its one error is the device's.
    fn remove(&mut self, number: u64) -> Result<(), FilesFault>
        ensures ok { W.honest → OnOk result (stored self.new ≡ with_file (stored self.old) number None) }
        ensures err { W.honest → OnErr result (stored self.new ≡ stored self.old) }
        ensures fault { IfErr result (λ f. f ≡ Device) }
        ensures counted { Counted (result ≡ Err Device) (failures self.old) (failures self.new) };

    /// Waits until a loss of power would take nothing of what is stored, as far as these files are kept where it could.
    /// Where they can't be, or that isn't known, it is an error; nothing has changed then either.
    fn sync(&mut self, alloc: Global) -> Result<(), FilesFault>
        ensures unchanged { W.honest → stored self.new ≡ stored self.old }
        ensures counted { Counted (result ≡ Err Device) (failures self.old) (failures self.new) };

    /// The numbers of all files, rising.
    fn list(&mut self, alloc: Global) -> Result<Vec<u64>, FilesFault>
        ensures rising { IfOk result (λ v. IsStrictlySortedBy nat_cmp v.items) }
        ensures all { W.honest → IfOk result (λ v. ListsNumbers v.items (stored self.old)) }
        ensures unchanged { W.honest → stored self.new ≡ stored self.old }
        ensures counted { Counted (result ≡ Err Device) (failures self.old) (failures self.new) };
}

/// The count of failures after that answer, where there were so many before. It stays at 2^64 - 1.
pub fn count_failures<T>(failures: u64, answer: &Result<T, FilesFault>) -> u64
    ensures failed { answer.now ≡ Err fault.Device → result ≡ one_more failures }
    ensures passed { answer.now ≢ Err fault.Device → result ≡ failures }
{
    match answer {
        Err(FilesFault::Device) => failures.saturating_add(1),
        _ => failures,
    }
}
