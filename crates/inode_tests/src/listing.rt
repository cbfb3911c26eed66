//! Entries of the mount's own put into a table's listings and taken out, if the table as it stands allows it.

ghost use Rattle.std.specs.Prelude.{◌≡◌, ◌≤◌, IsTrue, IfSome, length};
ghost use Rattle.eden_model.specs.declared.kind.Origin.TheVariants as origins;
ghost use Rattle.eden_overlay_format.specs.Content.{content_most};
ghost use Rattle.eden_coupling.specs.Changing.{MayGo};
ghost use Rattle.inode_tests.specs.Listings.{IsOpen, IsOpenAt, IsNewOwn, IsOwnFile};

use eden_inode::Inodes;
use eden_materialise::change_entry;
use eden_model::{Kind, Name, Origin, Outside};
use eden_overlay::{Files, FilesFault, MemoryFiles, Overlay};
use eden_overlay_format::Spliced;
use eden_tree::{Change, Dir, Entry};
use std::alloc::{Allocator, Global};
use std::process::Abort;

/// The numbers of entries are at least this one.
const NUMBER_LEAST: u64 = 2;

/// An entry whose contents are the mount's own.
#[derive(Clone, Copy)]
pub(crate) struct Own {
    pub(crate) kind: Kind,
    pub(crate) number: u64,
}

/// What is asked of a table's root, with what is loaded below it.
pub(crate) trait Question<A: Allocator> {
    ghost use Rattle.std.specs.Prelude.{IsTrue};
    ghost use Rattle.eden_tree.specs.Directory.{Row};

    /// It is so of this root.
    ghost is_so: { Self → Row → Type 0 };

    fn ask(&self, root: &Entry<A>) -> bool
        ensures { IsTrue result → is_so self.now root.now };
}

/// A question as a change that changes nothing.
#[derive(Drop)]
struct Asked<'a, Q> {
    question: &'a Q,
}

impl<A: Allocator, S, Q: Question<A>> Change<A, S> for Asked<'_, Q> {
    type Output = bool;

    ghost may = { λ asked s x. Unit {0} };

    ghost does = { λ asked s x t z answer. (t ≡ s) × ((z ≡ x) × (IsTrue answer → Q.is_so asked.question.now x)) };

    fn change(self, _: &mut S, root: &mut Entry<A>) -> bool {
        self.question.ask(root)
    }
}

/// Asks it of the root as it stands.
pub(crate) fn ask<A: Allocator + Clone, F: Files<Outside>, Q: Question<A>>(
    table: &mut Inodes<A, Outside, F>,
    question: &Q,
) -> bool
    ensures so { IsTrue result → Q.is_so question.now table.new.root }
    ensures next { table.new.next ≡ table.old.next }
{
    table.holds();
    table.change_in_place(Asked { question })
}

pub(crate) fn is_own(origin: Origin) -> bool
    ensures { IsTrue result → origin ≡ origins.Own }
{
    match origin {
        Origin::Own => true,
        Origin::Object(_) | Origin::Empty => false,
    }
}

/// Whether a directory has no loaded one under that name.
pub(crate) fn may_go<A: Allocator>(dir: &Dir<A>, name: &Name) -> bool
    ensures { IsTrue result → MayGo dir.now name.now }
{
    match dir.get(name) {
        None => true,
        Some(entry) => entry.directory().is_none(),
    }
}

/// Whether a directory has room, and no loaded directory under that name.
fn is_open<A: Allocator>(dir: &Dir<A>, name: &Name) -> bool
    ensures { IsTrue result → IsOpen name.now dir.now }
{
    let _named = name.as_slice();
    dir.count() != u32::MAX && may_go(dir, name)
}

/// Whether the directory at a path is loaded, and open to a change under that name.
#[derive(Drop)]
struct Opens<'a> {
    path: &'a [Name],
    name: &'a Name,
}

impl<A: Allocator> Question<A> for Opens<'_> {
    ghost is_so = { λ q x. IsOpenAt q.path.now q.name.now x };

    fn ask(&self, root: &Entry<A>) -> bool {
        match root.walk(self.path) {
            None => false,
            Some(entry) => match entry.directory() {
                None => false,
                Some(dir) => is_open(dir, self.name),
            },
        }
    }
}

/// An entry that isn't loaded, if its number is one that was given: at least the least, and below the next.
fn entry_of<A: Allocator>(own: Own, next: u64) -> Option<Entry<A>>
    ensures { IfSome result (IsNewOwn next) }
{
    if own.number < NUMBER_LEAST || own.number >= next {
        return None;
    }
    Some(Entry {
        number: own.number,
        kind: own.kind,
        origin: Origin::Own,
        child: None,
    })
}

/// Has this under a name of the directory at a path, an entry or nothing: whether that was done. If the table isn't
/// open to that, nothing is tried.
fn change_open<A: Allocator + Clone, F: Files<Outside>>(
    alloc: Global,
    table: &mut Inodes<A, Outside, F>,
    path: &[Name],
    name: &Name,
    entry: Option<Entry<A>>,
) -> bool
    requires { IfSome entry (IsNewOwn table.old.next) }
{
    if !ask(table, &Opens { path, name }) {
        return false;
    }
    table.holds();
    change_entry(table, alloc, path, name, entry).is_ok()
}

/// Puts an own entry under a name of the directory at a path, in place of one that is there: whether that was done. It
/// isn't if the table isn't open to that, or the number was never given.
pub(crate) fn put<A: Allocator + Clone, F: Files<Outside>>(
    alloc: Global,
    table: &mut Inodes<A, Outside, F>,
    path: &[Name],
    name: &Name,
    own: Own,
) -> bool {
    match entry_of(own, table.next_number()) {
        None => false,
        Some(entry) => change_open(alloc, table, path, name, Some(entry)),
    }
}

/// Takes out what is under a name of the directory at a path: whether that was done.
pub(crate) fn take<A: Allocator + Clone, F: Files<Outside>>(
    alloc: Global,
    table: &mut Inodes<A, Outside, F>,
    path: &[Name],
    name: &Name,
) -> bool {
    change_open(alloc, table, path, name, None)
}

/// Whether a file or a link of the mount's own is at a path.
#[derive(Drop)]
struct HoldsContent<'a> {
    path: &'a [Name],
}

impl<A: Allocator> Question<A> for HoldsContent<'_> {
    ghost is_so = { λ q x. IsOwnFile q.path.now x };

    fn ask(&self, root: &Entry<A>) -> bool {
        match root.walk(self.path) {
            None => false,
            Some(entry) => is_own(entry.origin) && entry.kind != Kind::Dir,
        }
    }
}

/// Whether an own file with that content is at a path.
pub(crate) fn has_content<A: Allocator + Clone, F: Files<Outside>>(
    alloc: Global,
    table: &mut Inodes<A, Outside, F>,
    path: &[Name],
    want: &[u8],
) -> bool {
    if !ask(table, &HoldsContent { path }) {
        return false;
    }
    let content = table.content(alloc, path);
    let is_so = matches!(&content, Ok(bytes) if bytes.as_slice() == want);
    drop(content);
    is_so
}

/// Stores a directory without entries.
fn put_empty<F: Files<Outside>>(
    alloc: Global,
    overlay: &mut Overlay<Outside, F>,
    number: u64,
) -> Result<(), FilesFault> {
    overlay.put_dir(alloc, number, &[])
}

/// Files with an own root, which has no entries.
pub(crate) fn first_files(rt: &impl Abort, alloc: Global) -> MemoryFiles<Outside> {
    let mut overlay = Overlay::new(alloc, MemoryFiles::<Outside>::new(alloc));
    put_root(rt, alloc, &mut overlay);
    overlay.into_files()
}

fn put_root(rt: &impl Abort, alloc: Global, overlay: &mut Overlay<Outside, MemoryFiles<Outside>>) {
    put_empty(alloc, overlay, 1).expect(rt, "files");
}

/// The file of an entry that is to come: a content, or a directory without entries.
#[derive(Drop)]
struct NewFile<'a> {
    alloc: Global,
    number: u64,
    content: Option<&'a [u8]>,
}

impl<A: Allocator, F: Files<Outside>> Change<A, Overlay<Outside, F>> for NewFile<'_> {
    type Output = Result<(), FilesFault>;

    ghost may = { λ new o x. IfSome new.content (λ bytes. length bytes.now ≤ content_most) };

    ghost does = { λ new o x p z answer. z ≡ x };

    fn change(self, overlay: &mut Overlay<Outside, F>, _: &mut Entry<A>) -> Result<(), FilesFault> {
        match self.content {
            Some(content) => overlay.put_file(self.alloc, self.number, Spliced::whole(content)),
            None => put_empty(self.alloc, overlay, self.number),
        }
    }
}

/// Stores the file of an entry that is to come: a content, or a directory without entries.
pub(crate) fn store<A: Allocator + Clone, F: Files<Outside>>(
    alloc: Global,
    table: &mut Inodes<A, Outside, F>,
    number: u64,
    content: Option<&[u8]>,
) -> Result<(), FilesFault>
    requires { IfSome content (λ bytes. length bytes.now ≤ content_most) }
{
    table.holds();
    table.change_in_place(NewFile {
        alloc,
        number,
        content,
    })
}
