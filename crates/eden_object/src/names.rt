// Whether a name comes twice among the entries of a tree's body.
ghost use Rattle.std.specs.Prelude.{◌≡◌, ◌↔◌, ℕ, List, map, IsTrue, IfOk};
ghost use Rattle.std.specs.List.{IsDistinct};
ghost use Rattle.std.specs.Str.{bytes_eq};
ghost use Rattle.eden_model.specs.declared.tree_entry.TreeEntry.{TreeEntry};
ghost use Rattle.eden_object.specs.Trees.{AreEntries, IsFree, NamesDiffer};

use crate::rows::first_row;
use std::alloc::{AllocError, Global};

/// Whether no entry has the name.
fn is_free(name: &[u8], body: &[u8]) -> bool
    ensures { (es : List TreeEntry) → AreEntries es body.now → IsTrue result ↔ IsFree name.now es }
{
    let mut rest = body;
    'rows: while let Some((row, more)) = first_row(rest) {
        if row.name == name {
            return false;
        }
        rest = more;
    }
    true
}

/// Whether no name comes twice, by comparing each two.
fn differ_pairwise(body: &[u8]) -> bool
    ensures { (es : List TreeEntry) → AreEntries es body.now → IsTrue result ↔ NamesDiffer es }
{
    let mut rest = body;
    'rows: while let Some((row, more)) = first_row(rest) {
        if !is_free(row.name, more) {
            return false;
        }
        rest = more;
    }
    true
}

/// The names of the entries, where they lie.
fn names_of(alloc: Global, body: &[u8]) -> Result<Vec<&[u8]>, AllocError>
    ensures { IfOk result
        (λ names. (es : List TreeEntry) → AreEntries es body.now
        → map (λ n. n.now) names.items ≡ map (λ e. e.name) es) }
{
    let mut names = Vec::new(alloc);
    let mut rest = body;
    'rows: while let Some((row, more)) = first_row(rest) {
        names.push(row.name)?;
        rest = more;
    }
    Ok(names)
}

/// Whether no two of the names are equal, by sorting them.
pub(crate) fn differ_sorted(names: Vec<&[u8]>) -> bool
    ensures { IsTrue result ↔ IsDistinct (λ m n. bytes_eq m.now n.now) names.entry.items }
{
    let mut sorted = names;
    sorted.sort_unstable();
    'pairs: for i in 1..sorted.len() {
        if sorted[i - 1] == sorted[i] {
            return false;
        }
    }
    true
}

/// Whether no name comes twice: in n log n comparisons with room for the names, else in n squared.
pub(crate) fn names_differ(room: Option<Global>, body: &[u8]) -> bool
    ensures { (es : List TreeEntry) → AreEntries es body.now → IsTrue result ↔ NamesDiffer es }
{
    if let Some(alloc) = room {
        if let Ok(names) = names_of(alloc, body) {
            return differ_sorted(names);
        }
    }
    differ_pairwise(body)
}
