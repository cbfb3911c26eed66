//! A directory's body that stays in memory, of which one entry at a time changes.

ghost use Rattle.std.specs.Prelude.{◌≡◌, ◌++◌, ◌+◌, ℕ, List, [], length, IfOk, IfSome, OnOk};
ghost use Rattle.std.specs.List.{flat_map};
ghost use Rattle.std.specs.Option.{option_map};
ghost use Rattle.eden_overlay_format.specs.Changing.{entries_with, entry_as, put_front};
ghost use Rattle.eden_overlay_format.specs.Directory.{IsStorable, directory_body, row};

use crate::header::{HEADER_LEN, start};
use crate::listing::{FRONT_LEN, Listing};
use crate::split::split_at_name;
use crate::writing::put_row;
use eden_model::{Kind, Name, Origin};
use std::alloc::AllocError;
use std::marker::Model;

/// The room that is made beyond the rows that are there, in bytes: for the count, for a new row, and so that not each
/// new name asks for more.
const SPARE: usize = 4096;

/// What a row of a directory's file says of its entry beside the name.
#[derive(Clone, Copy)]
pub struct RowFacts {
    pub kind: Kind,
    pub origin: Origin,
    /// The inode's number, from 2 to 2^63 - 1.
    pub number: u64,
}

/// The body of a directory's stored file. One with another entry is made of it by copies of the rows before and behind
/// that one, so it costs a look at each name before it and no row is written anew. Contracts see the entries.
#[derive(Drop)]
pub struct DirectoryBody {
    // Room for the header, and then the body.
    file: Vec<u8>,
    count: u32,
}

impl Model for DirectoryBody {
    ghost use Rattle.std.specs.Prelude.{List};
    ghost use Rattle.eden_overlay_format.specs.declared.stored_entry.StoredEntry.{StoredEntry};
    ghost use Rattle.eden_overlay_format.specs.Listing.{IsListingBody, entries_under_way};

    ghost Value = { List StoredEntry };

    ghost view = { λ d. entries_under_way d.count d.file.items };

    ghost invariant = { λ d. IsListingBody d.count d.file.items };
}

impl DirectoryBody {
    /// The body of a directory with these entries.
    pub fn of(listing: Listing) -> DirectoryBody
        ensures { result ≡ listing }
    {
        let (file, count) = listing.into_counted();
        DirectoryBody { file, count }
    }

    /// Its bytes.
    pub fn bytes(&self) -> &[u8]
        ensures { result.now ≡ directory_body self.now }
    {
        let (_, body) = self.file.split_at(HEADER_LEN);
        body
    }

    /// The body of the same directory with this as its entry of that name, or without one of it, written in that room,
    /// whose bytes go. The only error is want of memory, as which a directory of 2^32 - 1 entries counts that is to
    /// have one more.
    pub fn changed(
        &self,
        room: Vec<u8>,
        name: &Name,
        facts: Option<RowFacts>,
    ) -> Result<DirectoryBody, AllocError>
        requires storable { IfSome facts (λ f. IsStorable (entry_as name.now f)) }
        ensures { IfOk result (λ body. body ≡ entries_with name.now (option_map (entry_as name.now) facts) self.now) }
    {
        let (_, rows) = self.file.split_at(FRONT_LEN);
        let split = split_at_name(rows, self.count, name.as_slice());
        let count = count_with(split.count, facts)?;
        let mut file = start(room, rows.len().saturating_add(SPARE))?;
        file.extend_from_slice(&count.to_be_bytes())?;
        file.extend_from_slice(split.before)?;
        put_new(&mut file, name, facts)?;
        file.extend_from_slice(split.behind)?;
        Ok(DirectoryBody { file, count })
    }

    /// The room that it was written in.
    pub fn into_room(self) -> Vec<u8> {
        self.file
    }
}

/// How many entries a directory has of so many others and of a new one, if there is one. A directory that is full is
/// want of memory.
fn count_with(others: u32, facts: Option<RowFacts>) -> Result<u32, AllocError>
    ensures { IfOk result
        (λ n. (name : List ℕ) → n ≡ others + length (put_front (option_map (entry_as name) facts) [])) }
{
    match facts {
        None => Ok(others),
        Some(_) => others.checked_add(1).ok_or(AllocError),
    }
}

/// Writes the row of the new entry, if there is one.
fn put_new(out: &mut Vec<u8>, name: &Name, facts: Option<RowFacts>) -> Result<(), AllocError>
    ensures { OnOk result (out.new.items ≡
        out.old.items ++ flat_map row (put_front (option_map (entry_as name.now) facts) [])) }
{
    match facts {
        None => Ok(()),
        Some(f) => put_row(out, name, f.kind, f.origin, f.number),
    }
}
