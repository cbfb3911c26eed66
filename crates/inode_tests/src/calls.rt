//! Calls that change a table, if the table as it stands allows them, and whether that was done. If it doesn't allow
//! them nothing is tried.

ghost use Rattle.std.specs.Prelude.{◌≡◌, ◌≢◌, IsTrue};
ghost use Rattle.eden_tree.specs.Directory.{Row, child_of};
ghost use Rattle.eden_coupling.specs.Chains.{IsLoadedAt};
ghost use Rattle.eden_coupling.specs.Filing.{HasFile};
ghost use Rattle.eden_materialise.specs.Removals.{HasEntry};
ghost use Rattle.inode_tests.specs.Places.{HasUnloaded, IsSource, IsTarget, CanRename};

use crate::listing::{Own, Question, ask, is_own, may_go, put, take};
use crate::names::Spot;
use eden_inode::Inodes;
use eden_materialise::{materialise, move_entry, remove_entry, set_kind, store_content};
use eden_model::{Kind, Name, Outside};
use eden_overlay::Files;
use eden_overlay_format::Spliced;
use eden_tree::{Dir, Entry};
use std::alloc::{Allocator, Global};

/// Whether the directory at a path is loaded.
#[derive(Drop)]
struct IsLoaded<'a> {
    path: &'a [Name],
}

impl<A: Allocator> Question<A> for IsLoaded<'_> {
    ghost is_so = { λ q x. IsLoadedAt q.path.now x };

    fn ask(&self, root: &Entry<A>) -> bool {
        match root.walk(self.path) {
            None => false,
            Some(entry) => entry.directory().is_some(),
        }
    }
}

/// Makes the directories along a path the mount's own.
pub(crate) fn own<A: Allocator + Clone, F: Files<Outside>>(
    alloc: Global,
    table: &mut Inodes<A, Outside, F>,
    path: &[Name],
) -> bool {
    ask(table, &IsLoaded { path }) && materialise(table, alloc, path).is_ok()
}

/// Whether a name is there and not loaded.
fn has_unloaded<A: Allocator>(dir: &Dir<A>, name: &Name) -> bool
    ensures { IsTrue result → HasUnloaded name.now dir.now }
{
    match dir.get(name) {
        None => false,
        Some(entry) => entry.directory().is_none(),
    }
}

/// Whether the directory at a path is loaded, and has an entry of that name that isn't.
#[derive(Drop)]
struct Holds<'a> {
    path: &'a [Name],
    name: &'a Name,
}

impl<A: Allocator> Question<A> for Holds<'_> {
    ghost is_so = { λ q x. HasEntry x q.path.now q.name.now };

    fn ask(&self, root: &Entry<A>) -> bool {
        match root.walk(self.path) {
            None => false,
            Some(entry) => match entry.directory() {
                None => false,
                Some(dir) => has_unloaded(dir, self.name),
            },
        }
    }
}

/// Removes the entry of a name, and its file.
fn remove<A: Allocator + Clone, F: Files<Outside>>(
    alloc: Global,
    table: &mut Inodes<A, Outside, F>,
    path: &[Name],
    name: &Name,
) -> bool {
    ask(table, &Holds { path, name }) && remove_entry(table, alloc, path, name).is_ok()
}

/// Whether the directory at a path is loaded, and has a file or a link of that name.
#[derive(Drop)]
struct HoldsFile<'a> {
    path: &'a [Name],
    name: &'a Name,
}

fn is_file<A: Allocator>(entry: &Entry<A>) -> bool
    ensures { IsTrue result → (entry.now.kind ≢ Kind.Dir) × (child_of entry.now ≡ None) }
{
    match entry.kind {
        Kind::Dir => false,
        Kind::File | Kind::Exec | Kind::Link => entry.directory().is_none(),
    }
}

impl<A: Allocator> Question<A> for HoldsFile<'_> {
    ghost is_so = { λ q x. (w : Row) × HasFile x q.path.now q.name.now w };

    fn ask(&self, root: &Entry<A>) -> bool {
        match root.walk(self.path) {
            None => false,
            Some(entry) => match entry.directory() {
                None => false,
                Some(dir) => match dir.get(self.name) {
                    None => false,
                    Some(file) => is_file(file),
                },
            },
        }
    }
}

/// Gives the file of a name another kind.
fn turn_into<A: Allocator + Clone, F: Files<Outside>>(
    alloc: Global,
    table: &mut Inodes<A, Outside, F>,
    path: &[Name],
    name: &Name,
    kind: Kind,
) -> bool {
    kind != Kind::Dir
        && ask(table, &HoldsFile { path, name })
        && set_kind(table, alloc, path, name, kind).is_ok()
}

/// Stores a content of at most 2^30 bytes for the file of a name.
fn fill<A: Allocator + Clone, F: Files<Outside>>(
    alloc: Global,
    table: &mut Inodes<A, Outside, F>,
    path: &[Name],
    name: &Name,
    content: &[u8],
) -> bool {
    content.len() <= 1 << 30
        && ask(table, &HoldsFile { path, name })
        && store_content(table, alloc, path, name, Spliced::whole(content)).is_ok()
}

fn is_source<A: Allocator>(root: &Entry<A>, path: &[Name], name: &Name) -> bool
    ensures { IsTrue result → IsSource path.now name.now root.now }
{
    match root.walk(path) {
        None => false,
        Some(entry) => match entry.directory() {
            None => false,
            Some(dir) => is_own(entry.origin) && has_unloaded(dir, name),
        },
    }
}

fn is_target<A: Allocator>(root: &Entry<A>, path: &[Name], name: &Name) -> bool
    ensures { IsTrue result → IsTarget path.now name.now root.now }
{
    match root.walk(path) {
        None => false,
        Some(entry) => match entry.directory() {
            None => false,
            Some(dir) => is_own(entry.origin) && may_go(dir, name),
        },
    }
}

/// Whether the paths are of two lengths, or differ at a name.
fn differ(one: &[Name], other: &[Name]) -> bool
    ensures { IsTrue result → one.now ≢ other.now }
{
    if one.len() != other.len() {
        return true;
    }
    for i in 0..one.len() {
        if one[i] != other[i] {
            return true;
        }
    }
    false
}

/// An entry that is to move: from a name of the directory at one path to one of that at another.
#[derive(Drop)]
struct Move<'a> {
    from: &'a [Name],
    name: &'a Name,
    to: &'a [Name],
    new_name: &'a Name,
}

impl<A: Allocator> Question<A> for Move<'_> {
    ghost is_so = { λ q x. CanRename q.from.now q.name.now q.to.now q.new_name.now x };

    fn ask(&self, root: &Entry<A>) -> bool {
        (*self.name != *self.new_name || differ(self.from, self.to))
            && is_source(root, self.from, self.name)
            && is_target(root, self.to, self.new_name)
    }
}

/// Moves an entry between directories that are the mount's own.
fn rename<A: Allocator + Clone, F: Files<Outside>>(
    alloc: Global,
    table: &mut Inodes<A, Outside, F>,
    entry: &Move<'_>,
) -> bool {
    if !ask(table, entry) {
        return false;
    }
    let Move {
        from,
        name,
        to,
        new_name,
    } = *entry;
    move_entry(table, alloc, from, name, to, new_name).is_ok()
}

/// .. from one spot to another.
pub(crate) fn move_to<A: Allocator + Clone, F: Files<Outside>>(
    alloc: Global,
    table: &mut Inodes<A, Outside, F>,
    from: &Spot,
    to: &Spot,
) -> bool {
    let entry = Move {
        from: &from.path,
        name: &from.name,
        to: &to.path,
        new_name: &to.name,
    };
    rename(alloc, table, &entry)
}

/// A change of what stands at a spot.
#[derive(Clone, Copy)]
pub(crate) enum What {
    /// A file has another kind.
    Turn(Kind),
    /// A file has this content.
    Fill(&'static [u8]),
    /// An entry goes with its file.
    Remove,
    /// An own entry comes, whose file is stored.
    Put(Own),
    /// An entry goes without its file.
    Take,
}

/// Changes what stands at a spot.
pub(crate) fn change_at<A: Allocator + Clone, F: Files<Outside>>(
    alloc: Global,
    table: &mut Inodes<A, Outside, F>,
    spot: &Spot,
    what: What,
) -> bool {
    let path = spot.path.as_slice();
    match what {
        What::Turn(kind) => turn_into(alloc, table, path, &spot.name, kind),
        What::Fill(content) => fill(alloc, table, path, &spot.name, content),
        What::Remove => remove(alloc, table, path, &spot.name),
        What::Put(own) => put(alloc, table, path, &spot.name, own),
        What::Take => take(alloc, table, path, &spot.name),
    }
}
