//! What a commit's tree and an overlay's directory have, name by name.

ghost use Rattle.std.specs.Prelude.{◌≡◌, Some, None, [], IfOk, OnOk, if◌then◌else◌};
ghost use Rattle.eden_model.specs.Named.{AreRising};
ghost use Rattle.eden_model.specs.Trees as trees;
ghost use Rattle.eden_snapshot.specs.Commits.{place_named, mode_and_id};
ghost use Rattle.eden_snapshot.specs.Rows.{AreRows, beside, is_name, over_all, row_in, stored_named};

use eden_model::{Id, Mode, Name, TreeEntry};
use eden_overlay_format::StoredEntry;
use std::alloc::{AllocError, Global};
use std::collections::BTreeMap;

/// What is there under a name: in the commit, and in the overlay.
#[derive(Drop)]
pub(crate) struct Row {
    pub(crate) old: Option<(Mode, Id)>,
    pub(crate) new: Option<StoredEntry>,
}

/// What both have, in byte order of names. Of the entries of one list with one name the first counts. The only error is
/// want of memory.
pub(crate) fn rows_of(
    alloc: Global,
    old: Vec<TreeEntry>,
    new: Vec<StoredEntry>,
) -> Result<Vec<(Name, Row)>, AllocError>
    ensures { IfOk result (λ rows. AreRows old.items new.items rows.items) }
{
    let mut rows = BTreeMap::new(alloc);
    put_all_old(&mut rows, old)?;
    put_all_new(alloc, &mut rows, new)?;
    in_order(alloc, rows)
}

// The rows in their order.
fn in_order(alloc: Global, rows: BTreeMap<Name, Row>) -> Result<Vec<(Name, Row)>, AllocError>
    ensures rows { IfOk result (λ all. all.items ≡ rows.entries) }
    ensures rising { AreRising (λ r. r.0) rows.entries }
{
    let _count = rows.len();
    rows.into_iter().collect(alloc)
}

// Puts what the commit has, from the last on: so of those with one name the first stays.
fn put_all_old(
    rows: &mut BTreeMap<Name, Row>,
    mut entries: Vec<TreeEntry>,
) -> Result<(), AllocError>
    ensures { OnOk result ((n : trees.Name) → row_in rows.new.entries n
        ≡ over_all (row_in rows.old.entries n) (place_named n entries.items)) }
{
    'entries: while let Some(entry) = entries.pop() {
        put_old(rows, entry)?;
    }
    Ok(())
}

// Puts what the commit has under a name, in the place of what is there.
fn put_old(rows: &mut BTreeMap<Name, Row>, entry: TreeEntry) -> Result<(), AllocError>
    ensures { OnOk result ((n : trees.Name) → row_in rows.new.entries n
        ≡ (if is_name entry.name n then record { old = Some (mode_and_id entry); new = None }
        else row_in rows.old.entries n)) }
{
    let old = Some((entry.mode, entry.id));
    rows.insert(entry.name, Row { old, new: None })?;
    Ok(())
}

// Puts what the overlay has beside it, from the last on.
fn put_all_new(
    alloc: Global,
    rows: &mut BTreeMap<Name, Row>,
    mut entries: Vec<StoredEntry>,
) -> Result<(), AllocError>
    ensures { OnOk result ((n : trees.Name) → row_in rows.new.entries n
        ≡ beside (row_in rows.old.entries n) (stored_named n entries.items)) }
{
    'entries: while let Some(entry) = entries.pop() {
        put_new(alloc, rows, entry)?;
    }
    Ok(())
}

// Puts what the overlay has under a name beside what the commit has.
fn put_new(
    alloc: Global,
    rows: &mut BTreeMap<Name, Row>,
    entry: StoredEntry,
) -> Result<(), AllocError>
    ensures { OnOk result ((n : trees.Name) → row_in rows.new.entries n
        ≡ (if is_name entry.name n then beside (row_in rows.old.entries entry.name) (Some entry)
        else row_in rows.old.entries n)) }
{
    let name = entry.name.copy(alloc)?;
    let old = old_under(rows, &name);
    let new = Some(entry);
    rows.insert(name, Row { old, new })?;
    Ok(())
}

// What the commit has under a name, as far as that is put.
fn old_under(rows: &BTreeMap<Name, Row>, name: &Name) -> Option<(Mode, Id)>
    ensures { result ≡ (row_in rows.now.entries name.now).old }
{
    match rows.get(name) {
        Some(row) => row.old,
        None => None,
    }
}
