//! Directories at a path changed in memory alone.

ghost use Rattle.std.specs.Prelude.{◌≡◌, Some, None, true, false, IsSome, IsSomeAnd, IfOk, OnErr};
ghost use Rattle.eden_tree.specs.Directory.{Row, child_of};
ghost use Rattle.eden_tree.specs.Rows.{find_row};
ghost use Rattle.eden_tree.specs.Paths.{row_at, edit_row};
ghost use Rattle.eden_materialise.specs.Moves.{changed_in, marked, IsPut, IsPutAt};

use crate::change::{put_entry, take_back};
use eden_model::Name;
use eden_tree::{Change, Entry};
use std::alloc::{AllocError, Allocator, Global};

/// What stood under a name before another entry was put there, and the directory's mark.
#[derive(Drop)]
pub(crate) struct Was<A: Allocator> {
    pub(crate) entry: Option<Entry<A>>,
    pub(crate) unsaved: bool,
}

#[derive(Drop)]
struct Insertion<'a, A: Allocator> {
    alloc: Global,
    name: &'a Name,
    entry: Entry<A>,
}

impl<A: Allocator> Change<A, ()> for Insertion<'_, A> {
    type Output = Result<Was<A>, AllocError>;

    ghost may = { λ put s x. IsSome (child_of x) };

    ghost does = { λ put s x t z answer.
        IfOk answer (λ was. IsPut put.name.now put.entry was.entry was.unsaved x z) × OnErr answer (z ≡ x) };

    fn change(self, state: &mut (), entry: &mut Entry<A>) -> Result<Was<A>, AllocError> {
        match entry.directory_mut() {
            Some(dir) => {
                let unsaved = dir.unsaved();
                match put_entry(self.alloc, dir, self.name, self.entry) {
                    Ok(entry) => {
                        dir.set_unsaved(false);
                        return Ok(Was { entry, unsaved });
                    }
                    Err(refused) => return Err(refused),
                }
            }
            None => unreachable!(),
        }
    }
}

/// Puts an entry under a name of the loaded directory at a path, in place of one that is there, and marks it as saved:
/// what was there before. Without memory nothing changes.
pub(crate) fn put_at<A: Allocator>(
    alloc: Global,
    root: &mut Entry<A>,
    path: &[Name],
    name: &Name,
    entry: Entry<A>,
) -> Result<Was<A>, AllocError>
    requires { IsSomeAnd (row_at path.now root.old) (λ y. IsSome (child_of y)) }
    ensures ok { IfOk result (λ was. IsPutAt path.now name.now entry was.entry was.unsaved root.old root.new) }
    ensures err { OnErr result (root.new ≡ root.old) }
{
    match root.change_at(path, &mut (), Insertion { alloc, name, entry }) {
        Some(done) => done,
        None => unreachable!(),
    }
}

#[derive(Drop)]
struct Restoration<'a, A: Allocator> {
    name: &'a Name,
    was: Was<A>,
}

impl<A: Allocator> Change<A, ()> for Restoration<'_, A> {
    type Output = ();

    ghost may = { λ back s z. (x : Row) × ((w : Row) × IsPut back.name.now w back.was.entry back.was.unsaved x z) };

    ghost does = { λ back s z t r answer.
        (x : Row) → (w : Row) → IsPut back.name.now w back.was.entry back.was.unsaved x z → r ≡ x };

    fn change(self, state: &mut (), entry: &mut Entry<A>) {
        match entry.directory_mut() {
            Some(dir) => {
                take_back(dir, self.name, self.was.entry);
                dir.set_unsaved(self.was.unsaved);
            }
            None => unreachable!(),
        }
    }
}

/// Takes back an entry that was put under a name of the directory at a path, where this was before.
pub(crate) fn take_back_at<A: Allocator>(
    root: &mut Entry<A>,
    path: &[Name],
    name: &Name,
    was: Was<A>,
)
    requires { (x : Row) × ((w : Row) × IsPutAt path.now name.now w was.entry was.unsaved x root.old) }
    ensures { (x : Row) → (w : Row) → IsPutAt path.now name.now w was.entry was.unsaved x root.old → root.new ≡ x }
{
    root.change_at(path, &mut (), Restoration { name, was });
}

#[derive(Drop)]
struct Removal<'a> {
    name: &'a Name,
}

impl<A: Allocator> Change<A, ()> for Removal<'_> {
    type Output = ();

    ghost may = { λ gone s x. Unit {0} };

    ghost does = { λ gone s x t z answer. z ≡ changed_in gone.name.now None x };

    fn change(self, state: &mut (), entry: &mut Entry<A>) {
        match entry.directory_mut() {
            Some(dir) => {
                dir.remove(self.name);
                dir.set_unsaved(false);
            }
            None => {}
        }
    }
}

/// Takes the entry of a name out of the directory at a path, and marks it as saved.
pub(crate) fn remove_at<A: Allocator>(root: &mut Entry<A>, path: &[Name], name: &Name)
    ensures { root.new ≡ edit_row path.now (changed_in name.now None) root.old }
{
    root.change_at(path, &mut (), Removal { name });
}

#[derive(Drop)]
struct Mark;

impl<A: Allocator> Change<A, ()> for Mark {
    type Output = ();

    ghost may = { λ mark s x. Unit {0} };

    ghost does = { λ mark s x t z answer. z ≡ marked x };

    fn change(self, state: &mut (), entry: &mut Entry<A>) {
        match entry.directory_mut() {
            Some(dir) => dir.set_unsaved(true),
            None => {}
        }
    }
}

/// Marks the directory at a path as unsaved.
pub(crate) fn mark_at<A: Allocator>(root: &mut Entry<A>, path: &[Name])
    ensures { root.new ≡ edit_row path.now marked root.old }
{
    root.change_at(path, &mut (), Mark);
}
