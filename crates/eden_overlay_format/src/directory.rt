//! The entries of a directory.

ghost use Rattle.std.specs.Prelude.{◌≡◌, ◌≤◌, ◌*◌, ◌↔◌, Some, length, IfOk, IfErr, IsOk, IsTrue};
ghost use Rattle.eden_model.specs.Named.{AreRising};
ghost use Rattle.eden_overlay_format.specs.Stored.{stored_as};
ghost use Rattle.eden_overlay_format.specs.Directory.{IsDirectory, AreStorable, directory_body};
ghost use Rattle.eden_overlay_format.specs.Reading.{Gives, rows_at, rows_of};
ghost use Rattle.eden_overlay_format.specs.Values.{ClaimsRows, FailsWith, entries_in, entries_of};
ghost use Rattle.eden_overlay_format.specs.declared.header.Identifier.TheVariants as identifier;
ghost use Rattle.eden_overlay_format.specs.declared.refusal.DecodeFault.TheVariants as fault;

use crate::fields::{row_of, u32_of};
use crate::header::{Identifier, body_of};
use crate::listing::Listing;
use crate::refusal::{DecodeFault, Refusal};
use crate::stored_entry::StoredEntry;
use std::alloc::{AllocError, Global};

/// The least length of a row, in bytes: that of an entry with a name of one byte and no id.
const ROW_LEAST: usize = 12;

/// Whether each name comes before the next in byte order, as a stored directory needs it.
pub fn is_rising(entries: &[StoredEntry]) -> bool
    ensures { IsTrue result ↔ AreRising (λ e. e.name) entries.now }
{
    entries.is_sorted_by(|a, b| a.name < b.name)
}

/// The stored file of a directory with those entries: fewer than 2^32, each name before the next in byte order
/// (`is_rising`), each number from 2 to 2^63 - 1, and `Empty` with a directory alone. The only error is want of memory.
pub fn encode_dir(alloc: Global, entries: &[StoredEntry]) -> Result<Vec<u8>, AllocError>
    requires { AreStorable entries.now }
    ensures bytes { IfOk result (λ v. v.items ≡ stored_as identifier.Directory (directory_body entries.now)) }
    ensures read_again { IfOk result (λ v. IsDirectory v.items entries.now) }
{
    Ok(Listing::of(Vec::new(alloc), entries)?.into_file())
}

fn read_rows(
    alloc: Global,
    count: u32,
    bytes: &[u8],
) -> Result<(Vec<StoredEntry>, &[u8]), DecodeFault>
    requires room { 12 * count ≤ length bytes.now }
    ensures rows { Gives (λ x. (x.0.items, x.1.now)) result (rows_at count bytes.now) }
    ensures none { count ≡ 0 → IsOk result }
{
    let mut rows = Vec::with_capacity(alloc, count as usize)?;
    let mut rest = bytes;
    for _ in 0..count {
        let (row, after) = row_of(alloc, rest)?;
        rows.push(row)?;
        rest = after;
    }
    Ok((rows, rest))
}

/// The rows of a whole body. A count that its bytes can't hold is refused before any room is made.
#[tactic(auto, unfolding(crate::specs::Reading::rows_of, crate::specs::Reading::count_at))]
fn read_body(alloc: Global, body: &[u8]) -> Result<Vec<StoredEntry>, DecodeFault>
    ensures rows { Gives (λ v. v.items) result (rows_of body.now) }
    ensures memory { IfErr result (λ f. f ≡ fault.Memory → ClaimsRows body.now) }
{
    let (count, rest) = u32_of(body)?;
    if rest.len() < ROW_LEAST * count as usize {
        return Err(DecodeFault::Refused(Refusal::BadBody));
    }
    let (rows, rest) = read_rows(alloc, count, rest)?;
    if !rest.is_empty() {
        return Err(DecodeFault::Refused(Refusal::BadBody));
    }
    Ok(rows)
}

/// The entries of a whole body, each name before the next in byte order.
#[tactic(auto, unfolding(crate::specs::Values::entries_of))]
pub(crate) fn entries_of(alloc: Global, body: &[u8]) -> Result<Vec<StoredEntry>, DecodeFault>
    ensures entries { Gives (λ v. v.items) result (entries_of body.now) }
    ensures storable { IfOk result (λ v. AreStorable v.items) }
    ensures memory { IfErr result (λ f. f ≡ fault.Memory → ClaimsRows body.now) }
{
    let entries = read_body(alloc, body)?;
    if !is_rising(&entries) {
        return Err(DecodeFault::Refused(Refusal::BadBody));
    }
    Ok(entries)
}

/// The entries that the bytes store, or the first refusal. Memory is asked for only where a good header stands before
/// a count of rows that the bytes have room for.
#[tactic(auto, unfolding(crate::specs::Values::entries_in))]
pub fn decode_dir(alloc: Global, bytes: &[u8]) -> Result<Vec<StoredEntry>, DecodeFault>
    ensures found { IfOk result (λ v. entries_in bytes.now ≡ Some v.items) }
    ensures storable { IfOk result (λ v. AreStorable v.items) }
    ensures refused { IfErr result (FailsWith identifier.Directory entries_in bytes.now) }
{
    let body = body_of(Identifier::Directory, bytes)?;
    entries_of(alloc, body)
}
