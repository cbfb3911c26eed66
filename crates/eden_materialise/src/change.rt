//! An entry put into a directory, and taken back.

ghost use Rattle.std.specs.Prelude.{◌≡◌, Some, false, IsSome, IfSome, IfNone, IfOk, OnOk, OnErr};
ghost use Rattle.eden_tree.specs.Rows.{find_row, drop_row, set_row};
ghost use Rattle.eden_coupling.specs.Changing.{changed};

use eden_model::Name;
use eden_tree::{Dir, Entry};
use std::alloc::{AllocError, Allocator, Global};

/// Puts an entry under that name, in place of one that is there: that one, or nothing. Without memory nothing changes.
pub(crate) fn put_entry<A: Allocator>(
    alloc: Global,
    dir: &mut Dir<A>,
    name: &Name,
    entry: Entry<A>,
) -> Result<Option<Entry<A>>, AllocError>
    ensures was { IfOk result (λ was. was ≡ find_row name.now dir.old.rows) }
    ensures ok { OnOk result (record dir.new { unsaved = false } ≡ changed dir.old name.now (Some entry)) }
    ensures mark { dir.new.unsaved ≡ dir.old.unsaved }
    ensures err { OnErr result (dir.new ≡ dir.old) }
{
    if dir.get(name).is_some() {
        let was = dir.replace(name, entry);
        return Ok(Some(was));
    }
    let copy = name.copy(alloc)?;
    match dir.insert(copy, entry) {
        Ok(()) => Ok(None),
        Err(_) => Err(AllocError),
    }
}

/// Takes back an entry that was put under that name, where this was before. It needs no memory.
pub(crate) fn take_back<A: Allocator>(dir: &mut Dir<A>, name: &Name, was: Option<Entry<A>>)
    requires { IfSome was (λ _. IsSome (find_row name.now dir.old.rows)) }
    ensures some { IfSome was (λ there. dir.new ≡ record dir.old { rows = set_row name.now there dir.old.rows }) }
    ensures none { IfNone was (dir.new ≡ record dir.old { rows = drop_row name.now dir.old.rows }) }
{
    match was {
        Some(entry) => {
            dir.replace(name, entry);
        }
        None => {
            dir.remove(name);
        }
    }
}
