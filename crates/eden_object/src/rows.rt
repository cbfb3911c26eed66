// Reading the entries of a tree's body where they lie.
ghost use Rattle.std.specs.Prelude.{◌≡◌, ◌≢◌, ◌↔◌, ℕ, List, ◌++◌, length, take, drop, None, Some, MatchOption, IsTrue};
ghost use Rattle.eden_model.specs.declared.tree_entry.TreeEntry.{TreeEntry};
ghost use Rattle.eden_model.specs.Names.{name_refusal};
ghost use Rattle.eden_object.specs.Trees.{spelled_mode, IsEntryText, AreEntries};
ghost use Rattle.eden_object.specs.Rows.{entry_of, BeginsWith, HasEntries};

use crate::row::Row;
use crate::split::split_at_byte;
use eden_model::{Id, MAX_NAME, Mode};

fn read_mode(text: &[u8]) -> Option<Mode>
    ensures { result ≡ spelled_mode text.now }
{
    if text == b"40000".as_slice() || text == b"040000".as_slice() {
        Some(Mode::Dir)
    } else if text == b"100644".as_slice() || text == b"100664".as_slice() {
        Some(Mode::File)
    } else if text == b"100755".as_slice() {
        Some(Mode::Exec)
    } else if text == b"120000".as_slice() {
        Some(Mode::Link)
    } else if text == b"160000".as_slice() {
        Some(Mode::Gitlink)
    } else {
        None
    }
}

fn is_name(text: &[u8]) -> bool
    ensures { IsTrue result ↔ (name_refusal text.now ≡ None) }
{
    !text.is_empty()
        && text.len() <= MAX_NAME
        && text != b".".as_slice()
        && text != b"..".as_slice()
        && !text.contains(&b'/')
        && !text.contains(&0)
}

/// The first 20 bytes as an id, and what is behind them.
fn read_id(bytes: &[u8]) -> Option<(Id, &[u8])>
    ensures { MatchOption result ((id rest : List ℕ) → length id ≡ 20 → bytes.now ≢ id ++ rest)
        (λ r. (length r.0.bytes ≡ 20) × (bytes.now ≡ r.0.bytes ++ r.1.now)) }
{
    let (id, rest) = bytes.split_first_chunk::<20>()?;
    Some((Id { bytes: *id }, rest))
}

/// The first entry, and the rest of the body.
pub(crate) fn first_row(body: &[u8]) -> Option<(Row<'_>, &[u8])>
    ensures { MatchOption result ((e : TreeEntry) (rest : List ℕ) → BeginsWith e body.now rest → ⊥)
        (λ r. BeginsWith (entry_of r.0) body.now r.1.now) }
{
    let (text, rest) = split_at_byte(body, b' ')?;
    let mode = read_mode(text)?;
    let (name, rest) = split_at_byte(rest, 0)?;
    if !is_name(name) {
        return None;
    }
    let (id, rest) = read_id(rest)?;
    Some((Row { mode, name, id }, rest))
}

/// Whether the body is a row of whole entries.
pub(crate) fn has_entries(body: &[u8]) -> bool
    ensures { IsTrue result ↔ HasEntries body.now }
{
    let mut rest = body;
    'rows: while let Some((_, more)) = first_row(rest) {
        rest = more;
    }
    rest.is_empty()
}
