//! A directory's file, or that of its numbers, while its entries are written.

ghost use Rattle.std.specs.Prelude.{◌≡◌, ◌≤◌, ◌<◌, ◌++◌, [], ◌∷◌, length, take, drop, replicate, IfOk, OnOk};
ghost use Rattle.std.specs.Int.{w32, to_be_bytes};
ghost use Rattle.std.specs.List.{AllByRecursion};
ghost use Rattle.eden_overlay_format.specs.Stored.{stored_as};
ghost use Rattle.eden_overlay_format.specs.Directory.{IsStorable, AreStorable, directory_body};
ghost use Rattle.eden_overlay_format.specs.Numbers.{numbers_body};
ghost use Rattle.eden_overlay_format.specs.declared.header.Identifier.TheVariants as identifier;

use crate::header::{HEADER_LEN, Identifier, seal, start};
use crate::stored_entry::StoredEntry;
use crate::writing::{put_id, put_row};
use eden_model::{Id, Kind, Name, Origin};
use std::alloc::AllocError;
use std::marker::Model;

/// The length of the count before the rows, in bytes.
const COUNT_LEN: usize = 4;

/// The length of an id, in bytes.
const ID_LEN: usize = 20;

/// The length of what stands before the rows, in bytes.
pub(crate) const FRONT_LEN: usize = HEADER_LEN + COUNT_LEN;

/// The room that is made for a row at first, in bytes: that of one with a name of 21 bytes and no id.
const ROW_ROOM: usize = 32;

/// The entries of a directory, written one behind the other as its stored file has them. Contracts see the entries.
#[derive(Drop)]
pub struct Listing {
    // Room for the header and the count, which are written last, and then the rows.
    file: Vec<u8>,
    count: u32,
}

impl Model for Listing {
    ghost use Rattle.std.specs.Prelude.{List};
    ghost use Rattle.eden_overlay_format.specs.declared.stored_entry.StoredEntry.{StoredEntry};
    ghost use Rattle.eden_overlay_format.specs.Listing.{IsUnderWay, entries_under_way};

    ghost Value = { List StoredEntry };

    ghost view = { λ l. entries_under_way l.count l.file.items };

    ghost invariant = { λ l. IsUnderWay l.count l.file.items };
}

impl Listing {
    /// A listing without entries in that room, whose bytes go, made fit for so many of usual length. The only error is
    /// want of memory.
    pub fn new(room: Vec<u8>, count: u32) -> Result<Listing, AllocError>
        ensures { IfOk result (λ l. l ≡ []) }
    {
        let mut file = start(room, COUNT_LEN + count as usize * ROW_ROOM)?;
        file.extend_from_slice(&[0; COUNT_LEN])?;
        Ok(Listing { file, count: 0 })
    }

    /// The listing of these entries, in that room, whose bytes go. The only error is want of memory.
    pub fn of(room: Vec<u8>, entries: &[StoredEntry]) -> Result<Listing, AllocError>
        requires { AreStorable entries.now }
        ensures { IfOk result (λ l. l ≡ entries.now) }
    {
        let mut listing = Listing::new(room, entries.len() as u32)?;
        for entry in entries {
            listing = listing.push(&entry.name, entry.kind, entry.origin, entry.number)?;
        }
        Ok(listing)
    }

    /// The same listing with one entry more behind the others. The only error is want of memory.
    pub fn push(
        self,
        name: &Name,
        kind: Kind,
        origin: Origin,
        number: u64,
    ) -> Result<Listing, AllocError>
        requires storable { IsStorable (record { name = name.now; kind = kind; origin = origin; number = number }) }
        requires room { length self < u32.MAX }
        ensures { IfOk result
            (λ l. l ≡ self ++ record { name = name.now; kind = kind; origin = origin; number = number } ∷ []) }
    {
        let Listing { mut file, count } = self;
        put_row(&mut file, name, kind, origin, number)?;
        Ok(Listing {
            file,
            count: count + 1,
        })
    }

    /// The body of a directory with these entries, behind room for the header of its stored file, and their count.
    pub(crate) fn into_counted(self) -> (Vec<u8>, u32)
        ensures body { result.0.items ≡ replicate 64 0 ++ directory_body self }
        ensures counted { result.1 ≡ length self }
        ensures each { AllByRecursion IsStorable self }
    {
        let Listing { mut file, count } = self;
        put_count(&mut file, count);
        (file, count)
    }

    /// The body of a directory with these entries, behind room for the header of its stored file.
    pub fn into_unsealed(self) -> Vec<u8>
        ensures { result.items ≡ replicate 64 0 ++ directory_body self }
    {
        let (file, _) = self.into_counted();
        file
    }

    /// The stored file of a directory with these entries.
    pub fn into_file(self) -> Vec<u8>
        ensures { result.items ≡ stored_as identifier.Directory (directory_body self) }
    {
        let mut file = self.into_unsealed();
        seal(Identifier::Directory, &mut file);
        file
    }

    /// The stored file of the numbers that these entries have, of a directory that stands on that tree object. The only
    /// error is want of memory.
    pub fn into_numbers(self, tree: Id) -> Result<Vec<u8>, AllocError>
        ensures { IfOk result (λ v. v.items ≡ stored_as identifier.Numbers (numbers_body tree self)) }
    {
        let Listing { mut file, count } = self;
        put_count(&mut file, count);
        insert_id(&mut file, tree)?;
        seal(Identifier::Numbers, &mut file);
        Ok(file)
    }
}

/// What stands before the rows until the header is written: room for it, and the count.
fn front_of(count: u32) -> [u8; FRONT_LEN]
    ensures { result ≡ replicate 64 0 ++ to_be_bytes w32 count }
{
    let mut front = [0; FRONT_LEN];
    front[HEADER_LEN..].copy_from_slice(&count.to_be_bytes());
    front
}

/// Writes the count of the rows into its room.
fn put_count(file: &mut Vec<u8>, count: u32)
    requires { 68 ≤ length file.old.items }
    ensures { file.new.items ≡ replicate 64 0 ++ to_be_bytes w32 count ++ drop 68 file.old.items }
{
    let (front, _) = file.as_mut_slice().split_at_mut(FRONT_LEN);
    front.copy_from_slice(&front_of(count));
}

/// Puts an id between the header's room and what stands behind it. The only error is want of memory.
fn insert_id(file: &mut Vec<u8>, id: Id) -> Result<(), AllocError>
    requires { 64 ≤ length file.old.items }
    ensures { OnOk result (file.new.items ≡ take 64 file.old.items ++ id.bytes ++ drop 64 file.old.items) }
{
    put_id(file, id)?;
    let (_, body) = file.as_mut_slice().split_at_mut(HEADER_LEN);
    body.rotate_right(ID_LEN);
    Ok(())
}
