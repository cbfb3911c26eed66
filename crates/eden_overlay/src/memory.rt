ghost use Rattle.std.specs.Prelude.{◌≡◌, ◌≤◌, ◌++◌, [], length, IfOk, IfSome};
ghost use Rattle.std.specs.Option.{option_copied, option_map};
ghost use Rattle.std.specs.Ordering.{nat_cmp};
ghost use Rattle.std.specs.List.Sorted.{IsStrictlySortedBy};
ghost use Rattle.eden_overlay_format.specs.Content.{IsHead};
ghost use Rattle.eden_overlay.specs.Files.{IsHeadOf, ListsNumbers, part};
ghost use Rattle.eden_overlay_format.specs.Stored.{stored_as};
ghost use Rattle.eden_overlay_format.specs.declared.header.Identifier.TheVariants as identifier;
ghost use Rattle.eden_overlay.specs.InMemory.{bytes_in_memory, files_of, stored_in};

use crate::files::{Files, FilesFault};
use crate::part::part_of;
use eden_model::{Obstacle, World};
use eden_overlay_format::{HEADER_LEN, Head, Identifier, header_of};
use std::alloc::{AllocError, Global};
use std::collections::BTreeMap;
use std::marker::{Model, PhantomData};

/// A file in memory.
#[derive(Drop)]
enum FileBytes {
    /// Its bytes.
    Whole(Vec<u8>),
    /// The body of a directory's. Its header is made where it is asked for: mostly the next change comes first.
    Directory(Vec<u8>),
}

/// Files in memory. Their one error is want of memory.
///
/// Contracts see the list of numbers and bytes, in rising order of the numbers.
#[derive(Drop)]
pub struct MemoryFiles<W: World> {
    files: BTreeMap<u64, FileBytes>,
    world: PhantomData<W>,
}

impl<W: World> Model for MemoryFiles<W> {
    ghost use Rattle.std.specs.Prelude.{ℕ, List};
    ghost use Rattle.eden_overlay.specs.InMemory.{files_of};

    ghost Value = { List (ℕ × List ℕ) };

    ghost view = { λ s. files_of s.files.entries };
}

impl<W: World> MemoryFiles<W> {
    /// No files.
    pub fn new(alloc: Global) -> Self
        ensures { result ≡ [] }
    {
        MemoryFiles {
            files: BTreeMap::new(alloc),
            world: PhantomData,
        }
    }
}

impl<W: World> Files<W> for MemoryFiles<W> {
    ghost use Rattle.eden_overlay.specs.InMemory.{stored_in};

    ghost stored = { stored_in };

    ghost failures = { λ _. 0 };

    fn failures(&self) -> u64 {
        0
    }

    fn obstacle(&self) -> Option<Obstacle> {
        None
    }

    fn read(&mut self, alloc: Global, number: u64) -> Result<Option<Vec<u8>>, FilesFault> {
        Ok(copied(alloc, self.files.get(&number))?)
    }

    fn head(&mut self, number: u64) -> Result<Option<Head>, FilesFault> {
        Ok(head_in(self.files.get(&number)))
    }

    fn read_part(
        &mut self,
        alloc: Global,
        number: u64,
        from: u64,
        most: u64,
    ) -> Result<Option<Vec<u8>>, FilesFault> {
        Ok(part_in(alloc, self.files.get(&number), from, most)?)
    }

    fn replace(&mut self, alloc: Global, number: u64, bytes: &[u8]) -> Result<(), FilesFault> {
        let bytes = Vec::from_slice(alloc, bytes)?;
        self.files.insert(number, FileBytes::Whole(bytes))?;
        Ok(())
    }

    fn replace_joined(
        &mut self,
        alloc: Global,
        number: u64,
        front: &[u8],
        behind: &[u8],
    ) -> Result<(), FilesFault> {
        let bytes = joined(alloc, front, behind)?;
        self.files.insert(number, FileBytes::Whole(bytes))?;
        Ok(())
    }

    fn replace_body(
        &mut self,
        alloc: Global,
        number: u64,
        identifier: Identifier,
        body: &[u8],
    ) -> Result<(), FilesFault> {
        let file = kept(alloc, identifier, body)?;
        self.files.insert(number, file)?;
        Ok(())
    }

    fn remove(&mut self, number: u64) -> Result<(), FilesFault> {
        self.files.remove(&number);
        Ok(())
    }

    /// Nothing in memory outlasts a loss of power, and nobody expects that of it.
    fn sync(&mut self, _alloc: Global) -> Result<(), FilesFault> {
        Ok(())
    }

    fn list(&mut self, alloc: Global) -> Result<Vec<u64>, FilesFault> {
        Ok(numbers(alloc, &self.files)?)
    }
}

// The bytes of both.
fn joined(alloc: Global, front: &[u8], behind: &[u8]) -> Result<Vec<u8>, AllocError>
    ensures { IfOk result (λ v. v.items ≡ front.now ++ behind.now) }
{
    let mut bytes = Vec::with_capacity(alloc, front.len().saturating_add(behind.len()))?;
    bytes.extend_from_slice(front)?;
    bytes.extend_from_slice(behind)?;
    Ok(bytes)
}

// The file with that body, as it is kept.
fn kept(alloc: Global, identifier: Identifier, body: &[u8]) -> Result<FileBytes, AllocError>
    ensures { IfOk result (λ file. bytes_in_memory file ≡ stored_as identifier body.now) }
{
    match identifier {
        Identifier::Directory => Ok(FileBytes::Directory(Vec::from_slice(alloc, body)?)),
        Identifier::File | Identifier::Numbers => {
            let header = header_of(identifier, body);
            Ok(FileBytes::Whole(joined(alloc, &header, body)?))
        }
    }
}

// A copy of the file's bytes.
fn whole(alloc: Global, kept: &FileBytes) -> Result<Vec<u8>, AllocError>
    ensures { IfOk result (λ v. v.items ≡ bytes_in_memory kept.now) }
{
    match kept {
        FileBytes::Whole(bytes) => Vec::from_slice(alloc, bytes.as_slice()),
        FileBytes::Directory(body) => {
            joined(alloc, &header_of(Identifier::Directory, body), body)
        }
    }
}

// A copy of the bytes, if there are any.
fn copied(alloc: Global, kept: Option<&FileBytes>) -> Result<Option<Vec<u8>>, AllocError>
    ensures { IfOk result (λ o. option_map (λ v. v.items) o ≡ option_map bytes_in_memory (option_copied kept.entry)) }
{
    match kept {
        None => Ok(None),
        Some(kept) => Ok(Some(whole(alloc, kept)?)),
    }
}

// A part of the bytes, if there are any.
fn part_in(
    alloc: Global,
    kept: Option<&FileBytes>,
    from: u64,
    most: u64,
) -> Result<Option<Vec<u8>>, AllocError>
    ensures part { IfOk result (λ o. option_map (λ v. v.items) o
        ≡ option_map (part from most) (option_map bytes_in_memory (option_copied kept.entry))) }
    ensures bounded { IfOk result (λ o. IfSome o (λ v. length v.items ≤ most)) }
{
    match kept {
        None => Ok(None),
        Some(FileBytes::Whole(bytes)) => Ok(Some(part_of(alloc, bytes.as_slice(), from, most)?)),
        Some(kept) => Ok(Some(part_of(alloc, &whole(alloc, kept)?, from, most)?)),
    }
}

// The head of the bytes, if there are any.
fn head_in(kept: Option<&FileBytes>) -> Option<Head>
    ensures { IsHeadOf (option_map bytes_in_memory (option_copied kept.entry)) result }
{
    match kept {
        None => None,
        Some(FileBytes::Whole(bytes)) => Some(head_of(bytes.as_slice())),
        Some(FileBytes::Directory(body)) => Some(head_of_directory(body)),
    }
}

// The head of the directory's file that has that body.
fn head_of_directory(body: &[u8]) -> Head
    ensures { IsHead result (stored_as identifier.Directory body.now) }
{
    Head {
        first: header_of(Identifier::Directory, body),
        len: HEADER_LEN as u64 + body.len() as u64,
    }
}

// The first bytes, and how many there are.
fn head_of(bytes: &[u8]) -> Head
    ensures { IsHead result bytes.now }
{
    let first = match bytes.split_first_chunk::<HEADER_LEN>() {
        None => [0; HEADER_LEN],
        Some((first, _)) => *first,
    };
    Head {
        first,
        len: bytes.len() as u64,
    }
}

// The numbers of the files.
fn numbers(alloc: Global, files: &BTreeMap<u64, FileBytes>) -> Result<Vec<u64>, AllocError>
    ensures rising { IfOk result (λ v. IsStrictlySortedBy nat_cmp v.items) }
    ensures all { IfOk result (λ v. ListsNumbers v.items (stored_in (files_of files.now.entries))) }
{
    files.keys().copied().collect(alloc)
}
