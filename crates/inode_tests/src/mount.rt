//! A table over files that stop, and whether it shows what a plain map says.

ghost use Rattle.std.specs.Prelude.{◌≤◌};
ghost use Rattle.eden_model.specs.declared.id.Id as id;
ghost use Rattle.eden_model.specs.declared.kind.Origin.TheVariants as origin;
ghost use Rattle.eden_model.specs.Limits.{number_least, number_end};
ghost use Rattle.eden_coupling.specs.Loading.{IsAt};
ghost use Rattle.eden_object.specs.Trees.{NamesDiffer};

use crate::calls::{What, change_at, move_to, own};
use crate::listing::{Own, Question, ask, first_files, has_content, store};
use crate::names::{Place, below, name, named, names, spot_of};
use crate::tree::{Node, Tree};
use eden_inode::Inodes;
use eden_model::{Fault, Id, Key, Kind, Name, ObjKind, Origin, Outside, TreeEntry};
use eden_object::Object;
use eden_overlay::{FilesFault, MemoryFiles, Overlay, StopFiles};
use eden_tree::{Dir, Entry};
use std::alloc::{Allocator, Global};
use std::cell::Cell;
use std::mem;
use std::process::Abort;
use std::rc::Rc;
use test_samples::{ONE_FILE, Sample, TWO_FILES};

/// The letters that stand for names of the sample commit.
pub(crate) const LETTERS: [u8; 3] = *b"abc";

/// The tree of that id, one of the sample commit's.
fn tree_of(id: Id) -> Sample {
    if id == TWO_FILES.id {
        return TWO_FILES;
    }
    ONE_FILE
}

/// The entries of a tree among the samples.
fn entries(rt: &impl Abort, alloc: Global, tree: Sample) -> Vec<TreeEntry>
    ensures { NamesDiffer result.items }
{
    let key = Key {
        kind: ObjKind::Tree,
        id: tree.id,
    };
    let framed = tree.framed.to_vec(alloc).expect(rt, "memory");
    let object = Object::checked(alloc, key, framed).expect(rt, "a tree");
    let entries = object.entries(alloc).expect(rt, "memory");
    drop(object);
    entries
}

/// Where contents come from that are of this object, or the mount's own.
pub(crate) fn origin_of(object: Option<Sample>) -> Origin {
    match object {
        Some(object) => Origin::Object(object.id),
        None => Origin::Own,
    }
}

/// What must stand under a name.
#[derive(Drop)]
struct Wanted {
    name: Name,
    node: Option<Node>,
}

/// Whether the loaded directory at a path lists these nodes under these names, and no others.
#[derive(Drop)]
struct Lists<'a> {
    path: &'a [Name],
    want: &'a [Wanted],
}

/// Whether an entry is that node, with its number if that is noted. A directory of an object may have become the
/// mount's own.
fn is_node<A: Allocator>(entry: &Entry<A>, node: Node) -> bool {
    if entry.kind != node.kind || (node.number != 0 && entry.number != node.number) {
        return false;
    }
    match node.origin {
        Origin::Own => entry.origin == Origin::Own,
        _ => entry.origin == node.origin || node.kind == Kind::Dir,
    }
}

fn is_wanted<A: Allocator>(entry: Option<&Entry<A>>, want: Option<Node>) -> bool {
    match (entry, want) {
        (None, None) => true,
        (Some(entry), Some(node)) => is_node(entry, node),
        _ => false,
    }
}

fn has_all<A: Allocator>(dir: &Dir<A>, want: &[Wanted]) -> bool {
    let mut count = 0u32;
    for wanted in want {
        if !is_wanted(dir.get(&wanted.name), wanted.node) {
            return false;
        }
        count = count.saturating_add(u32::from(wanted.node.is_some()));
    }
    dir.count() == count
}

impl<A: Allocator> Question<A> for Lists<'_> {
    ghost is_so = { λ q x. Unit {0} };

    fn ask(&self, root: &Entry<A>) -> bool {
        match root.walk(self.path) {
            None => false,
            Some(entry) => match entry.directory() {
                None => false,
                Some(dir) => has_all(dir, self.want),
            },
        }
    }
}

/// What must stand under each name of the directory at a path.
fn all_wanted(rt: &impl Abort, alloc: Global, tree: &Tree, path: &[u8]) -> Vec<Wanted> {
    let mut want = Vec::new(alloc);
    for letter in LETTERS {
        let wanted = Wanted {
            name: name(rt, alloc, named(letter)),
            node: tree.below(path, letter),
        };
        want.push(wanted).expect(rt, "memory");
    }
    want
}

/// A table over files that stop.
#[derive(Drop)]
pub(crate) struct Mount<A: Allocator> {
    pub(crate) alloc: Global,
    pub(crate) table: Inodes<A, Outside, StopFiles<MemoryFiles<Outside>>>,
    /// How many calls on the files still pass.
    pub(crate) calls: Rc<Cell<u64>>,
    /// How often the device had failed under the tables before.
    pub(crate) failures: u64,
}

/// A table over these files, with a root from there.
fn table_over<A: Allocator + Clone>(
    rt: &impl Abort,
    alloc: Global,
    dirs: &A,
    calls: &Rc<Cell<u64>>,
    files: MemoryFiles<Outside>,
    root: Origin,
    next: u64,
) -> Inodes<A, Outside, StopFiles<MemoryFiles<Outside>>>
    requires least { number_least ≤ next }
    requires most { next ≤ number_end }
{
    let calls = calls.clone().expect(rt, "memory");
    let overlay = Overlay::new(alloc, StopFiles::new(files, calls));
    Inodes::new(dirs.clone().expect(rt, "a heap"), overlay, root, next)
}

/// The files under a new mount: none if its root is of an object, and else those of an own root without entries.
fn files_under(rt: &impl Abort, alloc: Global, root: Origin) -> MemoryFiles<Outside> {
    match root {
        Origin::Object(_) => MemoryFiles::new(alloc),
        Origin::Own | Origin::Empty => first_files(rt, alloc),
    }
}

/// The number that a table gives next, within the limits of any.
fn next_of<A: Allocator + Clone>(
    rt: &impl Abort,
    table: &Inodes<A, Outside, StopFiles<MemoryFiles<Outside>>>,
) -> u64
    ensures least { number_least ≤ result }
    ensures most { result ≤ number_end }
{
    let next = table.next_number();
    assert!(rt; 2 <= next && next <= 1 << 63);
    next
}

impl<A: Allocator + Clone> Mount<A> {
    /// A root from there, with nothing loaded. All calls on the files pass.
    pub(crate) fn open(
        rt: &impl Abort,
        alloc: Global,
        dirs: &A,
        root: Origin,
        next: u64,
    ) -> Mount<A>
        requires least { number_least ≤ next }
        requires most { next ≤ number_end }
    {
        let calls = Rc::new(alloc, Cell::new(u64::MAX)).expect(rt, "memory");
        let files = files_under(rt, alloc, root);
        let table = table_over(rt, alloc, dirs, &calls, files, root, next);
        Mount {
            alloc,
            table,
            calls,
            failures: 0,
        }
    }

    /// The files, which the table has no more.
    fn take_files(&mut self, rt: &impl Abort, dirs: &A) -> MemoryFiles<Outside> {
        let none = MemoryFiles::new(self.alloc);
        let empty = table_over(rt, self.alloc, dirs, &self.calls, none, Origin::Own, 2);
        let files = mem::replace(&mut self.table, empty)
            .into_overlay()
            .into_files();
        self.failures = self.failures.saturating_add(files.failures());
        files.into_files()
    }

    /// The same files under a new table. All calls pass.
    pub(crate) fn open_again(&mut self, rt: &impl Abort, dirs: &A) {
        let root = self.table.look(&[]).origin;
        let next = next_of(rt, &self.table);
        let files = self.take_files(rt, dirs);
        let table = table_over(rt, self.alloc, dirs, &self.calls, files, root, next);
        drop(mem::replace(&mut self.table, table));
        self.calls.set(u64::MAX);
    }

    /// Loads what isn't loaded of the directories on a path: whether no load failed.
    pub(crate) fn load(&mut self, rt: &impl Abort, path: &[Name]) -> bool {
        for count in 0..=path.len() {
            if !self.load_one(rt, &path[..count]) {
                return false;
            }
        }
        true
    }

    fn load_one(&mut self, rt: &impl Abort, path: &[Name]) -> bool {
        match self.table.unloaded(path) {
            None => true,
            Some(Origin::Object(id)) => self.load_object(rt, path, id).is_ok(),
            Some(Origin::Own | Origin::Empty) => self.table.load(self.alloc, path, None).is_ok(),
        }
    }

    /// Loads the directory of an object, with the numbers saved for it or from the commit's tree: whether any are
    /// saved.
    pub(crate) fn load_object(
        &mut self,
        rt: &impl Abort,
        path: &[Name],
        id: Id,
    ) -> Result<bool, Fault>
        requires { IsAt path.now self.old.table.root (origin.Object id) }
    {
        let entries = entries(rt, self.alloc, tree_of(id));
        let answer = self.load_either(path, &entries);
        drop(entries);
        answer
    }

    /// Loads the directory of an object, with the numbers that are saved for it or from these entries: whether any are
    /// saved.
    fn load_either(&mut self, path: &[Name], entries: &[TreeEntry]) -> Result<bool, Fault>
        requires at { (i : id.Id) × IsAt path.now self.old.table.root (origin.Object i) }
        requires differ { NamesDiffer entries.now }
    {
        let saved = match self.table.numbered(self.alloc, path) {
            Ok(saved) => saved,
            Err(fault) => return Err(fault),
        };
        let loaded = if saved {
            self.table.load(self.alloc, path, None)
        } else {
            self.table.load(self.alloc, path, Some(entries))
        };
        match loaded {
            Ok(()) => Ok(saved),
            Err(fault) => Err(fault),
        }
    }

    /// Whether the directory at a path shows what it must.
    pub(crate) fn shows_dir(&mut self, rt: &impl Abort, tree: &Tree, path: &[u8]) -> bool {
        let want = all_wanted(rt, self.alloc, tree, path);
        let path = names(rt, self.alloc, path);
        let is_so = self.load(rt, &path) && self.lists(&path, &want);
        drop(path);
        drop(want);
        is_so
    }

    fn lists(&mut self, path: &[Name], want: &[Wanted]) -> bool {
        ask(&mut self.table, &Lists { path, want })
    }

    /// Whether the own file at a path shows that content.
    fn shows_file(&mut self, rt: &impl Abort, path: &[u8], content: u64) -> bool {
        let path = names(rt, self.alloc, path);
        let is_so = self.load(rt, &path) && self.reads(&path, &content.to_be_bytes());
        drop(path);
        is_so
    }

    pub(crate) fn reads(&mut self, path: &[Name], content: &[u8]) -> bool {
        has_content(self.alloc, &mut self.table, path, content)
    }

    fn shows(&mut self, rt: &impl Abort, tree: &Tree, path: &[u8], node: Node) -> bool {
        match (node.kind, node.origin) {
            (Kind::Dir, _) => self.shows_dir(rt, tree, path),
            (_, Origin::Own) => self.shows_file(rt, path, node.content),
            _ => true,
        }
    }

    pub(crate) fn shows_all(&mut self, rt: &impl Abort, tree: &Tree) -> bool {
        for row in tree.rows() {
            if !self.shows(rt, tree, &row.path, row.node) {
                return false;
            }
        }
        true
    }

    /// The number of what stands at a path, which is loaded.
    pub(crate) fn number(&mut self, rt: &impl Abort, path: &[u8]) -> u64 {
        let path = names(rt, self.alloc, path);
        let number = self.table.look(&path).number;
        drop(path);
        number
    }

    /// Whether the directory at a path is loaded and marked unsaved.
    pub(crate) fn is_unsaved(&self, rt: &impl Abort, path: &[u8]) -> bool {
        let path = names(rt, self.alloc, path);
        let is_so = match self.table.directory(&path) {
            None => false,
            Some(dir) => dir.unsaved(),
        };
        drop(path);
        is_so
    }

    /// Whether any is.
    pub(crate) fn has_unsaved(&self, rt: &impl Abort, tree: &Tree) -> bool {
        for row in tree.rows() {
            if self.is_unsaved(rt, &row.path) {
                return true;
            }
        }
        false
    }

    /// Unloads what is that old at and below a path: how many directories went. Memory isn't wanting.
    pub(crate) fn unload(&mut self, rt: &impl Abort, path: &[u8], age: u64) -> u64 {
        let path = names(rt, self.alloc, path);
        let gone = self.table.unload(self.alloc, &path, age);
        drop(path);
        assert!(rt; gone.refused != Some(FilesFault::Memory));
        gone.count
    }

    /// Loads the directories on a path.
    pub(crate) fn load_all(&mut self, rt: &impl Abort, path: &[u8]) -> bool {
        let path = names(rt, self.alloc, path);
        let is_done = self.load(rt, &path);
        drop(path);
        is_done
    }

    /// Makes the directories along a path the mount's own: whether that was done.
    pub(crate) fn own(&mut self, rt: &impl Abort, path: &[u8]) -> bool {
        let path = names(rt, self.alloc, path);
        let is_done = self.load(rt, &path) && own(self.alloc, &mut self.table, &path);
        drop(path);
        is_done
    }

    /// Changes what stands under a name: whether that was done. What is below an entry that goes with its file is
    /// unloaded before.
    pub(crate) fn change(&mut self, rt: &impl Abort, place: Place<'_>, what: What) -> bool {
        let spot = spot_of(rt, self.alloc, place);
        let loaded = self.load(rt, &spot.path);
        if matches!(what, What::Remove) {
            self.unload_below(rt, place);
        }
        let is_done = loaded && change_at(self.alloc, &mut self.table, &spot, what);
        drop(spot);
        is_done
    }

    /// Stores a file, or a directory without entries: whether that was done.
    fn store(&mut self, own: Own, content: u64) -> bool {
        let bytes = content.to_be_bytes();
        let file = match own.kind {
            Kind::Dir => None,
            _ => Some(bytes.as_slice()),
        };
        store(self.alloc, &mut self.table, own.number, file).is_ok()
    }

    /// Puts a file, or a directory without entries, under a name: what stands there then.
    pub(crate) fn insert(
        &mut self,
        rt: &impl Abort,
        place: Place<'_>,
        kind: Kind,
        content: u64,
    ) -> Option<Node> {
        let number = self.table.give_number()?;
        let own = Own { kind, number };
        if !self.store(own, content) || !self.change(rt, place, What::Put(own)) {
            return None;
        }
        Some(Node {
            kind,
            origin: Origin::Own,
            number,
            content,
        })
    }

    /// Unloads what is below a name.
    pub(crate) fn unload_below(&mut self, rt: &impl Abort, place: Place<'_>) {
        let below = below(rt, self.alloc, place.path, place.letter);
        self.unload(rt, &below, 0);
        drop(below);
    }

    /// Moves an entry between directories that are the mount's own and loaded: whether that was done.
    pub(crate) fn rename(&mut self, rt: &impl Abort, from: Place<'_>, to: Place<'_>) -> bool {
        let from = spot_of(rt, self.alloc, from);
        let to = spot_of(rt, self.alloc, to);
        let is_done = move_to(self.alloc, &mut self.table, &from, &to);
        drop(from);
        drop(to);
        is_done
    }
}
