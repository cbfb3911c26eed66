//! The numbers of a directory that stands on a tree object.

ghost use Rattle.std.specs.Prelude.{◌≡◌, true, Some, IfOk, IfErr};
ghost use Rattle.eden_overlay_format.specs.Stored.{stored_as};
ghost use Rattle.eden_overlay_format.specs.Directory.{AreStorable};
ghost use Rattle.eden_overlay_format.specs.Numbers.{IsNumbers, none_is_own, numbers_body, numbers_by};
ghost use Rattle.eden_overlay_format.specs.Values.{numbers_in, FailsWith};
ghost use Rattle.eden_overlay_format.specs.declared.header.Identifier.TheVariants as identifier;

use crate::directory::entries_of;
use crate::fields::array_of;
use crate::header::{HEADER_LEN, Head, Identifier, body_of};
use crate::listing::Listing;
use crate::refusal::{DecodeFault, Refusal};
use crate::stored_entry::StoredEntry;
use eden_model::Id;
use std::alloc::{AllocError, Global};

/// The numbers that the entries of a directory have, which stands on a tree object.
#[derive(Drop)]
pub struct StoredNumbers {
    /// The id of the tree object.
    pub tree: Id,
    /// Its entries, each with its number.
    pub entries: Vec<StoredEntry>,
}

/// Whether no entry's contents are in the overlay, as it is of a directory that stands on a tree object.
fn none_is_own(entries: &[StoredEntry]) -> bool
    ensures { result ≡ none_is_own entries.now }
{
    entries.iter().all(|entry| !entry.is_own())
}

/// The stored file of the numbers of a directory on that tree object, which has those entries: as `encode_dir` takes
/// them, and none with its contents in the overlay. The only error is want of memory.
pub fn encode_numbers(
    alloc: Global,
    tree: Id,
    entries: &[StoredEntry],
) -> Result<Vec<u8>, AllocError>
    requires storable { AreStorable entries.now }
    requires others { none_is_own entries.now ≡ true }
    ensures bytes { IfOk result (λ v. v.items ≡ stored_as identifier.Numbers (numbers_body tree entries.now)) }
    ensures read_again { IfOk result (λ v. IsNumbers v.items tree entries.now) }
{
    Listing::of(Vec::new(alloc), entries)?.into_numbers(tree)
}

/// Whether a stored file is one of numbers, by its head. Whether they are good is told by `decode_numbers`.
pub fn has_numbers(head: &Head) -> bool
    ensures { result ≡ numbers_by head.now.first head.now.len }
{
    head.len >= HEADER_LEN as u64 && &head.first[..4] == Identifier::Numbers.bytes().as_slice()
}

/// The numbers that the bytes store, or the first refusal. Memory is asked for only where a good header and an id stand
/// before a count of rows that the bytes have room for.
#[tactic(auto, unfolding(crate::specs::Values::numbers_in))]
pub fn decode_numbers(alloc: Global, bytes: &[u8]) -> Result<StoredNumbers, DecodeFault>
    ensures found { IfOk result (λ n. numbers_in bytes.now ≡ Some (n.tree, n.entries.items)) }
    ensures storable { IfOk result (λ n. AreStorable n.entries.items) }
    ensures others { IfOk result (λ n. none_is_own n.entries.items ≡ true) }
    ensures refused { IfErr result (FailsWith identifier.Numbers numbers_in bytes.now) }
{
    let body = body_of(Identifier::Numbers, bytes)?;
    let (id, rows) = array_of::<20>(body)?;
    let entries = entries_of(alloc, rows)?;
    if !none_is_own(&entries) {
        return Err(DecodeFault::Refused(Refusal::BadBody));
    }
    let tree = Id { bytes: id };
    Ok(StoredNumbers { tree, entries })
}
