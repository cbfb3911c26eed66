// Decoding a tree's body.
ghost use Rattle.std.specs.Prelude.{◌≡◌, ◌↔◌, ◌<◌, ◌≤◌, ℕ, List, length, IsTrue, IfOk, IfSome, IfNone};
ghost use Rattle.eden_model.specs.declared.tree_entry.TreeEntry.{TreeEntry};
ghost use Rattle.eden_object.specs.Frames.{most_body};
ghost use Rattle.eden_object.specs.Trees.{AreEntries, IsTreeBody};

use crate::frame::BODY_LIMIT;
use crate::names::names_differ;
use crate::order::is_tree_in_order;
use crate::rows::{first_row, has_entries};
use eden_model::{Name, TreeEntry};
use std::alloc::{AllocError, Global};

/// Whether the body is a tree's: in one pass where its entries stand in Git's order.
pub(crate) fn is_tree(room: Option<Global>, body: &[u8]) -> bool
    ensures { IsTrue result ↔ ((es : List TreeEntry) × IsTreeBody es body.now) }
{
    match is_tree_in_order(body) {
        Some(is) => is,
        None => has_entries(body) && names_differ(room, body),
    }
}

/// The entries that the body begins with.
pub(crate) fn read_entries(alloc: Global, body: &[u8]) -> Result<Vec<TreeEntry>, AllocError>
    ensures { IfOk result (λ found. (es : List TreeEntry) → AreEntries es body.now → found.items ≡ es) }
{
    let mut entries = Vec::new(alloc);
    let mut rest = body;
    'rows: while let Some((row, more)) = first_row(rest) {
        let Ok(name) = Name::new(Vec::from_slice(alloc, row.name)?) else {
            unreachable!()
        };
        entries.push(TreeEntry {
            mode: row.mode,
            name,
            id: row.id,
        })?;
        rest = more;
    }
    Ok(entries)
}

/// The entries of a tree's body, in the order in which they stand. `None` where the body is no tree's (an entry is cut,
/// its mode is none of the known ones, its name is no name or comes twice), or where it is over 2^30 bytes. The only
/// error is want of memory.
pub fn decode_tree(alloc: Global, body: &[u8]) -> Result<Option<Vec<TreeEntry>>, AllocError>
    ensures found { IfOk result (λ read. IfSome read (λ entries. IsTreeBody entries.items body.now)) }
    ensures short { IfOk result (λ read. IfSome read (λ entries. length body.now ≤ most_body)) }
    ensures none { IfOk result
        (λ read. IfNone read ((es : List TreeEntry) → IsTreeBody es body.now → most_body < length body.now)) }
{
    if body.len() > BODY_LIMIT || !is_tree(Some(alloc), body) {
        return Ok(None);
    }
    let entries = read_entries(alloc, body)?;
    Ok(Some(entries))
}
