//! A directory by itself: of its calls an insertion alone takes memory, and tells it.
ghost use Rattle.std.specs.Prelude.{◌≡◌, true, IsSomeAnd, None};
ghost use Rattle.eden_model.specs.declared.kind.Kind.TheVariants as kind;
ghost use Rattle.eden_tree.specs.Directory.{child_of};
ghost use Rattle.eden_tree.specs.Rows.{find_row};

use crate::stage::Stage;
use eden_model::{Kind, Name, Origin};
use eden_tree::{Change, Dir, Entry};
use std::alloc::{Allocator, Global};
use std::slice::from_ref;

/// The names of the entries, one more than the directory's first block has room for.
const NAMES: [u8; 5] = *b"badce";

/// The name of one letter. None if memory is refused twice.
fn name(alloc: Global, letter: u8) -> Option<Name> {
    let bytes = match Vec::from_elem(alloc, letter, 1) {
        Ok(bytes) => bytes,
        Err(_) => Vec::from_elem(alloc, letter, 1).ok()?,
    };
    Name::new(bytes).ok()
}

/// A directory's entry, which isn't loaded.
fn entry(number: u64) -> Entry<Global> {
    Entry {
        number,
        kind: Kind::Dir,
        origin: Origin::Own,
        child: None,
    }
}

/// Tries to insert an entry, which comes back if it finds no memory.
fn insert(
    stage: &mut Stage,
    dir: &mut Dir<Global>,
    name: Name,
    entry: Entry<Global>,
) -> Result<(), (Name, Entry<Global>)> {
    stage.teller.begin("insert");
    let inserted = dir.insert(name, entry);
    stage.teller.end_want(inserted.is_err());
    inserted
}

/// Inserts an entry under that letter. False if that fails twice.
fn add(stage: &mut Stage, dir: &mut Dir<Global>, letter: u8) -> bool {
    let Some(name) = name(stage.alloc, letter) else {
        return false;
    };
    match insert(stage, dir, name, entry(u64::from(letter))) {
        Ok(()) => true,
        Err((name, entry)) => insert(stage, dir, name, entry).is_ok(),
    }
}

/// Inserts all entries. False if one fails twice.
fn add_all(stage: &mut Stage, dir: &mut Dir<Global>) -> bool {
    for letter in NAMES {
        if !add(stage, dir, letter) {
            return false;
        }
    }
    true
}

/// A directory that is to be loaded below. None if memory is refused twice.
fn child(alloc: Global) -> Option<Box<Dir<Global>>> {
    match Box::new(alloc, Dir::new(alloc, 1)) {
        Ok(child) => Some(child),
        Err(_) => Box::new(alloc, Dir::new(alloc, 1)).ok(),
    }
}

/// Marks a loaded directory as unsaved: whether one is loaded.
#[derive(Drop)]
struct Mark;

impl<A: Allocator> Change<A, ()> for Mark {
    type Output = bool;

    ghost may = { λ mark s x. Unit {0} };

    ghost does = { λ mark s x t z marked. Unit {0} };

    fn change(self, _: &mut (), entry: &mut Entry<A>) -> bool {
        match entry.directory_mut() {
            None => false,
            Some(dir) => {
                dir.set_unsaved(true);
                true
            }
        }
    }
}

/// Whether a directory can be loaded under the name.
fn may_hold(dir: &Dir<Global>, name: &Name) -> bool
    ensures { result ≡ true
        → IsSomeAnd (find_row name.now dir.now.rows) (λ x. (x.kind ≡ kind.Dir) × (child_of x ≡ None)) }
{
    match dir.get(name) {
        None => false,
        Some(entry) => entry.kind == Kind::Dir && entry.child.is_none(),
    }
}

/// Stamps the directory that is loaded under the name, and marks it. False if none is loaded.
fn changes(dir: &mut Dir<Global>, name: &Name) -> bool {
    match dir.get_mut(name) {
        None => false,
        Some(entry) => {
            entry.stamp_along(from_ref(name), 7);
            entry.change_at(from_ref(name), &mut (), Mark).is_none()
                && entry.change_at(&[], &mut (), Mark) == Some(true)
        }
    }
}

/// Whether the directory has that stamp, and is marked.
fn is_marked(dir: &Dir<Global>) -> bool {
    dir.stamp() == 7 && dir.unsaved()
}

/// Whether a directory is loaded in the entry, and has nothing under the name.
fn is_empty_below(entry: &Entry<Global>, name: &Name) -> bool {
    match entry.directory() {
        None => false,
        Some(dir) => dir.count() == 0 && entry.walk(from_ref(name)).is_none(),
    }
}

/// Whether the directory that is loaded under the name is found as it was left.
fn is_loaded(dir: &Dir<Global>, name: &Name) -> bool {
    let is_below = match dir.get(name) {
        None => false,
        Some(entry) => is_empty_below(entry, name),
    };
    let is_found = match dir.walk(from_ref(name)) {
        None => false,
        Some(found) => is_marked(found),
    };
    is_below && is_found && dir.depth() == 2
}

/// Whether a directory is loaded under the name, changed and found there, and taken out.
fn holds(dir: &mut Dir<Global>, name: &Name, child: Box<Dir<Global>>) -> bool {
    if !may_hold(dir, name) {
        return false;
    }
    dir.attach(name, child);
    let is_changed = changes(dir, name);
    let is_found = is_loaded(dir, name);
    let is_out = dir.detach(name).is_some();
    is_changed && is_found && is_out && dir.depth() == 1
}

/// The number of the entry under the name.
fn number_at(dir: &Dir<Global>, name: &Name) -> Option<u64> {
    match dir.get(name) {
        Some(entry) => Some(entry.number),
        None => None,
    }
}

/// Whether the entry under a name can be replaced.
fn replaces(dir: &mut Dir<Global>, name: &Name) -> bool {
    if dir.get(name).is_none() {
        return false;
    }
    let was = dir.replace(name, entry(1));
    was.number == u64::from(b'a') && number_at(dir, name) == Some(1)
}

/// Whether the entries of a directory of all letters are found.
fn finds(dir: &mut Dir<Global>, name: &Name) -> bool {
    dir.set_stamp(7);
    dir.set_unsaved(true);
    let is_first = dir.get_counted(name).0 == Some(0) && dir.at_mut(0).is_some();
    is_first && is_marked(dir) && dir.behind(name) == 1 && dir.at(5).is_none()
}

/// Whether the entry under the name can be taken out.
fn takes_out(dir: &mut Dir<Global>, name: &Name) -> bool {
    let is_unloaded = dir.detach(name).is_none();
    let is_taken = dir.remove(name).is_some();
    is_unloaded && is_taken && dir.get_mut(name).is_none() && dir.count() == 4
}

/// All calls but insertions of a directory with all letters, of which the name is one: whether they answer right.
fn is_directory(dir: &mut Dir<Global>, name: &Name, child: Box<Dir<Global>>) -> bool {
    let is_held = holds(dir, name, child);
    is_held && finds(dir, name) && replaces(dir, name) && takes_out(dir, name)
}

/// Makes all calls of a directory with entries but insertions. False if memory is refused twice.
fn use_all(stage: &mut Stage, dir: &mut Dir<Global>) -> bool {
    let Some(name) = name(stage.alloc, b'a') else {
        return false;
    };
    let Some(child) = child(stage.alloc) else {
        return false;
    };
    stage.teller.begin("directory");
    let is_right = is_directory(dir, &name, child);
    stage.teller.end_right(is_right);
    true
}

/// Fills a directory, and makes all other calls of it. False if memory is refused twice.
pub fn use_directory(stage: &mut Stage) -> bool {
    let mut dir = Dir::new(stage.alloc, 0);
    add_all(stage, &mut dir) && use_all(stage, &mut dir)
}
