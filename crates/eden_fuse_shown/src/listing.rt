// Rows of directories.
ghost use Rattle.std.specs.Prelude.{◌≡◌, ◌<◌, ◌+◌, ◌^◌, ◌∷◌, ◌++◌, nat_le, length, IfOk, OnOk};
ghost use Rattle.eden_fuse_format.specs.Answers.{appended_if};
ghost use Rattle.eden_fuse_shown.specs.Listing.{
  above,
  dots_after,
  entries_from,
  is_unseen,
  itself,
  row_text,
  type_of,
  with_rows,
};
ghost use Rattle.eden_fuse_shown.specs.Showing.{rows_in};

use crate::mount::Unheard;
use eden_fuse_format::{Dirent, put_dirent};
use eden_fuse_meaning::{Outcome, is_hidden};
use eden_fuse_nodes::ROOT;
use eden_model::{Entries, Kind, Name};
use std::alloc::{AllocError, Global};

/// How many come before a directory's first entry: itself, `.`, and the one above, `..`.
pub(crate) const DOTS: u64 = 2;

/// Stands for the number of a node that isn't told.
const UNTOLD: u64 = 4_294_967_295;

fn type_of(kind: Kind) -> u32
    ensures { result ≡ type_of kind }
{
    match kind {
        Kind::File => 8,
        Kind::Exec => 8,
        Kind::Link => 10,
        Kind::Dir => 4,
    }
}

// Appends a row, if it fits.
fn put_named(
    room: &mut Vec<u8>,
    size: usize,
    off: u64,
    name: &[u8],
    kind: Kind,
) -> Result<bool, AllocError>
    requires { length name.now < 2 ^ 32 }
    ensures told { IfOk result (λ fits.
        fits ≡ nat_le (length room.old.items + length (row_text off name.now kind)) size) }
    ensures ok { IfOk result (λ fits.
        room.new.items ≡ appended_if fits room.old.items (row_text off name.now kind)) }
{
    let row = Dirent {
        ino: UNTOLD,
        off,
        kind: type_of(kind),
        name,
    };
    put_dirent(room, size, &row)
}

// .. of an entry.
fn put_row(
    room: &mut Vec<u8>,
    size: usize,
    off: u64,
    name: &Name,
    kind: Kind,
) -> Result<bool, AllocError>
    ensures told { IfOk result (λ fits.
        fits ≡ nat_le (length room.old.items + length (row_text off name.now kind)) size) }
    ensures ok { IfOk result (λ fits.
        room.new.items ≡ appended_if fits room.old.items (row_text off name.now kind)) }
{
    let _len = name.len();
    put_named(room, size, off, name.as_slice(), kind)
}

/// The rows that were listed, if any were.
pub(crate) fn rows_in(alloc: Global, end: Result<Outcome, Unheard>) -> Entries
    ensures { result ≡ rows_in end }
{
    match end {
        Ok(Outcome::Rows(rows, _more)) => rows,
        _other => Entries::new(Vec::new(alloc)),
    }
}

fn is_unseen(node: u64, row: &(Name, Kind)) -> bool
    ensures { result ≡ is_unseen node row.now }
{
    node == ROOT && is_hidden(row.0.as_slice())
}

// Appends the rows of entries of a directory's node as long as they fit, but for those that nobody sees. `from`
// entries come before the first.
fn put_rows(
    node: u64,
    room: &mut Vec<u8>,
    size: usize,
    from: u64,
    rows: &[(Name, Kind)],
) -> Result<(), AllocError>
    requires { from + length rows.now < 2 ^ 64 }
    ensures { OnOk result (room.new.items ≡ with_rows node size from rows.now room.old.items) }
{
    let mut off = from;
    'rows: for row in rows {
        off += 1;
        if is_unseen(node, row) {
            continue;
        }
        if !put_row(room, size, off, &row.0, row.1)? {
            return Ok(());
        }
    }
    Ok(())
}

// .. behind that of the directory above.
fn put_from_above(
    node: u64,
    room: &mut Vec<u8>,
    size: usize,
    rows: &[(Name, Kind)],
) -> Result<(), AllocError>
    requires { length rows.now < 2 ^ 63 }
    ensures { OnOk result (room.new.items ≡ with_rows node size 1 (above ∷ rows.now) room.old.items) }
{
    if !put_named(room, size, 2, b"..", Kind::Dir)? {
        return Ok(());
    }
    put_rows(node, room, size, DOTS, rows)
}

// .. and behind that of the directory itself.
fn put_from_itself(
    node: u64,
    room: &mut Vec<u8>,
    size: usize,
    rows: &[(Name, Kind)],
) -> Result<(), AllocError>
    requires { length rows.now < 2 ^ 63 }
    ensures { OnOk result (room.new.items ≡ with_rows node size 0 (itself ∷ above ∷ rows.now) room.old.items) }
{
    if !put_named(room, size, 1, b".", Kind::Dir)? {
        return Ok(());
    }
    put_from_above(node, room, size, rows)
}

/// Appends the rows of a directory's node from an offset on as long as they fit: of itself and of the one above, and
/// of its entries, but for those that nobody sees.
pub(crate) fn put_listing(
    node: u64,
    room: &mut Vec<u8>,
    size: usize,
    offset: u64,
    rows: &[(Name, Kind)],
) -> Result<(), AllocError>
    requires offset { offset < 2 ^ 63 }
    requires rows { length rows.now < 2 ^ 63 }
    ensures { OnOk result
        (room.new.items ≡ with_rows node size offset (dots_after offset ++ rows.now) room.old.items) }
{
    if offset == 0 {
        return put_from_itself(node, room, size, rows);
    }
    if offset == 1 {
        return put_from_above(node, room, size, rows);
    }
    put_rows(node, room, size, offset, rows)
}

/// How many come before the first entry of a listing from an offset on.
pub(crate) fn entries_from(offset: u64) -> u64
    ensures { result ≡ entries_from offset }
{
    if offset < DOTS { DOTS } else { offset }
}
