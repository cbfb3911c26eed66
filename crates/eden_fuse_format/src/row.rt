ghost use Rattle.std.specs.Prelude.{◌≡◌, ◌≤◌, ◌<◌, ◌+◌, ◌^◌, ◌++◌, nat_le, true, length, IfOk, OnErr, vec_capacity};
ghost use Rattle.eden_fuse_format.specs.Answers.{padding, dirent_text, direntplus_text, appended_if};

use crate::answer::{EntryOut, entry_len, put_entry};
use crate::members::{Member, put_members};
use std::alloc::AllocError;

/// A row of a directory.
#[derive(Clone, Copy)]
pub struct Dirent<'a> {
    pub ino: u64,
    /// From where on the next row is to be read.
    pub off: u64,
    /// The kind: the four bits of the mode above its permissions.
    pub kind: u32,
    pub name: &'a [u8],
}

/// What fills up a name.
const ZEROS: [u8; 8] = [0; 8];

// The zeros behind a name of this length.
fn padding(len: usize) -> &'static [u8]
    ensures zeros { result.now ≡ padding len }
    ensures few { length result.now < 8 }
{
    ZEROS.split_at((8 - len % 8) % 8).0
}

/// How long a row is, in bytes; with an entry before it, `entry_len` more.
#[tactic(auto, unfolding(crate::specs::Members::members_text, crate::specs::Answers::dirent_text))]
pub fn row_len(row: &Dirent<'_>) -> usize
    requires { length row.now.name.now < 2 ^ 32 }
    ensures len { result ≡ length (dirent_text row.now) }
    ensures small { result < 2 ^ 33 }
{
    24 + row.name.len() + padding(row.name.len()).len()
}

#[tactic(auto, unfolding(crate::specs::Answers::dirent_text))]
fn put_row(out: &mut Vec<u8>, row: &Dirent<'_>)
    requires name { length row.now.name.now < 2 ^ 32 }
    requires room { length out.old.items + length (dirent_text row.now) ≤ vec_capacity out.old }
    ensures items { out.new.items ≡ out.old.items ++ dirent_text row.now }
    ensures room { vec_capacity out.old ≤ vec_capacity out.new }
{
    let members = [
        Member::U64(row.ino),
        Member::U64(row.off),
        Member::U32(row.name.len() as u32),
        Member::U32(row.kind),
    ];
    put_members(out, &members);
    out.extend_from_slice(row.name).unwrap();
    out.extend_from_slice(padding(row.name.len())).unwrap();
}

// Makes room for so many bytes more where all then stay within the size, and says whether they do.
fn make_room(out: &mut Vec<u8>, more: usize, size: usize) -> Result<bool, AllocError>
    ensures told { IfOk result (λ fits. fits ≡ nat_le (length out.old.items + more) size) }
    ensures items { out.new.items ≡ out.old.items }
    ensures made { IfOk result (λ fits. fits ≡ true → length out.old.items + more ≤ vec_capacity out.new) }
    ensures full { OnErr result (vec_capacity out.old < length out.old.items + more) }
    ensures room { vec_capacity out.old ≤ vec_capacity out.new }
{
    if size < out.len() {
        return Ok(false);
    }
    if size - out.len() < more {
        return Ok(false);
    }
    out.reserve(more)?;
    Ok(true)
}

/// Appends a row, as READDIR is answered, if the rows then stay within `size` bytes, and says whether they do. The only
/// error is want of memory, which comes only where the room is too small, and leaves what was there.
pub fn put_dirent(out: &mut Vec<u8>, size: usize, row: &Dirent<'_>) -> Result<bool, AllocError>
    requires { length row.now.name.now < 2 ^ 32 }
    ensures told { IfOk result (λ fits. fits ≡ nat_le (length out.old.items + length (dirent_text row.now)) size) }
    ensures ok { IfOk result (λ fits. out.new.items ≡ appended_if fits out.old.items (dirent_text row.now)) }
    ensures err { OnErr result (out.new.items ≡ out.old.items) }
    ensures room { vec_capacity out.old ≤ vec_capacity out.new }
    ensures full { OnErr result (vec_capacity out.old < length out.old.items + length (dirent_text row.now)) }
{
    if !make_room(out, row_len(row), size)? {
        return Ok(false);
    }
    put_row(out, row);
    Ok(true)
}

/// Appends a row with its entry, as READDIRPLUS is answered, if the rows then stay within `size` bytes, and says
/// whether they do. The only error is want of memory, which comes only where the room is too small, and leaves what was
/// there.
pub fn put_direntplus(
    out: &mut Vec<u8>,
    size: usize,
    entry: &EntryOut,
    row: &Dirent<'_>,
) -> Result<bool, AllocError>
    requires { length row.now.name.now < 2 ^ 32 }
    ensures told { IfOk result (λ fits.
        fits ≡ nat_le (length out.old.items + length (direntplus_text entry.now row.now)) size) }
    ensures ok { IfOk result (λ fits.
        out.new.items ≡ appended_if fits out.old.items (direntplus_text entry.now row.now)) }
    ensures err { OnErr result (out.new.items ≡ out.old.items) }
    ensures room { vec_capacity out.old ≤ vec_capacity out.new }
    ensures full { OnErr result
        (vec_capacity out.old < length out.old.items + length (direntplus_text entry.now row.now)) }
{
    if !make_room(out, entry_len(entry) + row_len(row), size)? {
        return Ok(false);
    }
    put_entry(out, entry);
    put_row(out, row);
    Ok(true)
}
