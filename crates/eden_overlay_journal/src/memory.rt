ghost use Rattle.std.specs.Prelude.{◌≡◌, ◌≢◌, true, false, None, Some, Ok, IfOk, IfErr, OnOk, OnErr, IsOk};
ghost use Rattle.eden_overlay.specs.declared.files.FilesFault.TheVariants as fault;
ghost use Rattle.eden_overlay_journal.specs.Changes.{IsHeadIn, ListsChanges, change_of, changes_in, noted, unchanged};
ghost use Rattle.std.specs.Option.{option_copied};
ghost use Rattle.eden_overlay_format.specs.Content.{IsHead};
ghost use Rattle.eden_overlay_format.specs.Stored.{stored_as};
ghost use Rattle.eden_overlay_format.specs.declared.header.Identifier.TheVariants as identifier;

use crate::journal::Journal;
use eden_model::{Obstacle, World};
use eden_overlay::FilesFault;
use eden_overlay_format::{HEADER_LEN, Head, Identifier, header_of};
use std::alloc::{AllocError, Global};
use std::collections::BTreeMap;
use std::marker::PhantomData;

/// A journal in memory, which is never full. Its one error is want of memory.
#[derive(Drop)]
pub struct MemoryJournal<W: World> {
    files: BTreeMap<u64, Option<Vec<u8>>>,
    alloc: Global,
    world: PhantomData<W>,
}

impl<W: World> MemoryJournal<W> {
    /// Nothing is said in it yet.
    pub fn new(alloc: Global) -> Self
        ensures { changes_in result.files ≡ unchanged }
    {
        MemoryJournal {
            files: BTreeMap::new(alloc),
            alloc,
            world: PhantomData,
        }
    }
}

impl<W: World> Journal<W> for MemoryJournal<W> {
    ghost use Rattle.eden_overlay_journal.specs.Changes.{changes_in};

    ghost changes = { λ s. changes_in s.files };

    fn is_full(&self) -> bool {
        false
    }

    fn obstacle(&self) -> Option<Obstacle> {
        None
    }

    fn put_off(&mut self) {}

    fn read(&mut self, alloc: Global, number: u64) -> Result<Option<Option<Vec<u8>>>, FilesFault>
        ensures found { IfOk result (λ o. change_of o ≡ changes_in self.old.files number) }
        ensures unchanged { changes_in self.new.files ≡ changes_in self.old.files }
        ensures fault { IfErr result (λ f. f ≡ fault.Memory) }
    {
        Ok(copied(alloc, self.files.get(&number))?)
    }

    fn head(&mut self, number: u64) -> Result<Option<Option<Head>>, FilesFault>
        ensures found { IfOk result (IsHeadIn (changes_in self.old.files number)) }
        ensures unchanged { changes_in self.new.files ≡ changes_in self.old.files }
        ensures done { IsOk result }
    {
        Ok(head_in(self.files.get(&number)))
    }

    fn store(&mut self, alloc: Global, number: u64, bytes: &[u8]) -> Result<(), FilesFault>
        ensures ok { OnOk result
            (changes_in self.new.files ≡ noted (changes_in self.old.files) number (Some (Some bytes.now))) }
        ensures err { OnErr result (changes_in self.new.files ≡ changes_in self.old.files) }
        ensures fault { IfErr result (λ f. f ≡ fault.Memory) }
    {
        let bytes = Vec::from_slice(alloc, bytes)?;
        self.files.insert(number, Some(bytes))?;
        Ok(())
    }

    fn store_directory(&mut self, alloc: Global, number: u64, body: &[u8]) -> Result<(), FilesFault>
        ensures ok { OnOk result (changes_in self.new.files
            ≡ noted (changes_in self.old.files) number (Some (Some (stored_as identifier.Directory body.now)))) }
        ensures err { OnErr result (changes_in self.new.files ≡ changes_in self.old.files) }
        ensures fault { IfErr result (λ f. f ≡ fault.Memory) }
    {
        let mut file = Vec::from_slice(alloc, &header_of(Identifier::Directory, body))?;
        file.extend_from_slice(body)?;
        self.files.insert(number, Some(file))?;
        Ok(())
    }

    fn remove(&mut self, number: u64) -> Result<bool, FilesFault>
        ensures noted { result ≡ Ok true
            → changes_in self.new.files ≡ noted (changes_in self.old.files) number (Some None) }
        ensures no_room { result ≡ Ok false → changes_in self.old.files number ≡ None }
        ensures same { result ≢ Ok true → changes_in self.new.files ≡ changes_in self.old.files }
        ensures done { IsOk result }
    {
        match self.files.insert(number, None) {
            Ok(_) => Ok(true),
            Err(_) => Ok(false),
        }
    }

    fn pass(&mut self, number: u64) -> Result<(), FilesFault>
        ensures ok { changes_in self.new.files ≡ noted (changes_in self.old.files) number None }
        ensures done { IsOk result }
    {
        self.files.remove(&number);
        Ok(())
    }

    fn settle(&mut self) -> Result<(), FilesFault>
        ensures unchanged { changes_in self.new.files ≡ changes_in self.old.files }
        ensures done { IsOk result }
    {
        Ok(())
    }

    fn settle_names(&mut self) -> Result<(), FilesFault>
        ensures unchanged { changes_in self.new.files ≡ changes_in self.old.files }
        ensures done { IsOk result }
    {
        Ok(())
    }

    fn date(&mut self, _number: u64) {}

    fn numbers(&mut self, alloc: Global) -> Result<Vec<u64>, FilesFault>
        ensures all { IfOk result (λ v. ListsChanges v.items (changes_in self.old.files)) }
        ensures unchanged { changes_in self.new.files ≡ changes_in self.old.files }
        ensures fault { IfErr result (λ f. f ≡ fault.Memory) }
    {
        Ok(numbers(alloc, &self.files)?)
    }

    fn empty(&mut self) -> Result<(), FilesFault>
        ensures empty { changes_in self.new.files ≡ unchanged }
        ensures done { IsOk result }
    {
        self.files = BTreeMap::new(self.alloc);
        Ok(())
    }
}

// A copy of what is said.
fn copied(
    alloc: Global,
    said: Option<&Option<Vec<u8>>>,
) -> Result<Option<Option<Vec<u8>>>, AllocError>
    ensures { IfOk result (λ o. change_of o ≡ change_of (option_copied said.entry)) }
{
    match said {
        None => Ok(None),
        Some(None) => Ok(Some(None)),
        Some(Some(bytes)) => Ok(Some(Some(Vec::from_slice(alloc, bytes.as_slice())?))),
    }
}

// The head of what is said.
fn head_in(said: Option<&Option<Vec<u8>>>) -> Option<Option<Head>>
    ensures { IsHeadIn (change_of (option_copied said.entry)) result }
{
    match said {
        None => None,
        Some(None) => Some(None),
        Some(Some(bytes)) => Some(Some(head_of(bytes.as_slice()))),
    }
}

// The first bytes, and how many there are.
pub(crate) fn head_of(bytes: &[u8]) -> Head
    ensures { IsHead result bytes.now }
{
    let first = match bytes.split_first_chunk::<HEADER_LEN>() {
        None => [0; HEADER_LEN],
        Some((first, _)) => *first,
    };
    Head {
        first,
        len: bytes.len() as u64,
    }
}

// The numbers of which something is said.
fn numbers(alloc: Global, files: &BTreeMap<u64, Option<Vec<u8>>>) -> Result<Vec<u64>, AllocError>
    ensures { IfOk result (λ v. ListsChanges v.items (changes_in files.now)) }
{
    files.keys().copied().collect(alloc)
}
