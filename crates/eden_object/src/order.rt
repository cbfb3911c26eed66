// The order in which Git writes the entries of a tree.
ghost use Rattle.std.specs.Prelude.{◌≡◌, ◌≢◌, ◌↔◌, List, ℕ, ◌<◌, ◌≤◌, false, true, length, slice_index, slice_index_or};
ghost use Rattle.std.specs.Prelude.{IsTrue, IfSome, IfNone};
ghost use Rattle.std.specs.Cmp.Lexicographic.{slice_cmp};
ghost use Rattle.std.specs.Ordering.{nat_cmp};
ghost use Rattle.eden_model.specs.declared.tree_entry.TreeEntry.{TreeEntry};
ghost use Rattle.eden_object.specs.Order.{key_of, IsOrdered};
ghost use Rattle.eden_object.specs.Rows.{entry_of};
ghost use Rattle.eden_object.specs.Trees.{AreEntries, IsTreeBody};

use crate::row::Row;
use crate::rows::first_row;
use eden_model::{Mode, TreeEntry};
use std::cmp::Ordering;

/// How many bytes the two begin with alike.
fn shared_len(a: &[u8], b: &[u8]) -> usize
    ensures first { result ≤ length a.now }
    ensures second { result ≤ length b.now }
    ensures same { (i : ℕ) → i < result → slice_index a.now i ≡ slice_index b.now i }
    ensures most { result < length a.now → result < length b.now → slice_index a.now result ≢ slice_index b.now result }
{
    let mut shared = 0;
    'bytes: while shared < a.len() && shared < b.len() && a[shared] == b[shared] {
        shared += 1;
    }
    shared
}

/// A byte of what the row is ordered by, 0 past its end.
fn key_byte(row: &Row, at: usize) -> u8
    ensures { result ≡ slice_index (key_of (entry_of row.now)) at }
{
    if at < row.name.len() {
        row.name[at]
    } else if at == row.name.len() && row.mode == Mode::Dir {
        b'/'
    } else {
        0
    }
}

/// How the two stand to each other in Git's order.
pub(crate) fn compare(a: &TreeEntry, b: &TreeEntry) -> Ordering
    ensures { result ≡ slice_cmp nat_cmp (key_of a.now) (key_of b.now) }
{
    let (a, b) = (Row::of(a), Row::of(b));
    let shared = shared_len(a.name, b.name);
    key_byte(&a, shared).cmp(&key_byte(&b, shared))
}

/// Marks the lengths of the names that the next name begins with: those marked up to what it shares with the last name,
/// and its own.
fn mark_fronts(fronts: &mut [bool], shared: usize, last: usize, own: usize)
    requires shared { shared ≤ last }
    requires last { last < length fronts.old }
    requires own { own < length fronts.old }
    ensures own { slice_index_or fronts.new own false ≡ true }
    ensures kept { (n : ℕ) → n ≤ shared → slice_index_or fronts.old n false ≡ true
        → slice_index_or fronts.new n false ≡ true }
    ensures others { (n : ℕ) → n ≤ last → n ≢ own → slice_index_or fronts.new n false ≡ true → (n ≤ shared)
        × (slice_index_or fronts.old n false ≡ true) }
    ensures above { (n : ℕ) → last < n → n ≢ own
        → slice_index_or fronts.new n false ≡ slice_index_or fronts.old n false }
{
    'above: for n in shared + 1..last + 1 {
        fronts[n] = false;
    }
    fronts[own] = true;
}

/// Whether the body is a tree's, where its entries stand in Git's order; `None` where they don't.
///
/// In that order a name comes again only behind names that begin with it. So it is enough to know of which earlier
/// names the last one begins with, and their lengths tell them.
pub(crate) fn is_tree_in_order(body: &[u8]) -> Option<bool>
    ensures found { IfSome result (λ is. IsTrue is ↔ ((es : List TreeEntry) × IsTreeBody es body.now)) }
    ensures none { IfNone result ((es : List TreeEntry) → AreEntries es body.now → IsOrdered es → ⊥) }
{
    let Some((first, behind)) = first_row(body) else {
        return Some(body.is_empty());
    };
    let mut fronts = [false; 256];
    fronts[first.name.len()] = true;
    let mut last = first;
    let mut rest = behind;
    'rows: while let Some((row, more)) = first_row(rest) {
        let shared = shared_len(last.name, row.name);
        if key_byte(&last, shared) >= key_byte(&row, shared) {
            return None;
        }
        if shared == row.name.len() && fronts[shared] {
            return Some(false);
        }
        mark_fronts(&mut fronts, shared, last.name.len(), row.name.len());
        last = row;
        rest = more;
    }
    Some(rest.is_empty())
}
