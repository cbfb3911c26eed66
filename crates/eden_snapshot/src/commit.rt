//! A commit's tree objects, and the submodules that they name.

ghost use Rattle.std.specs.Prelude.{◌≡◌, Some, IfOk};
ghost use Rattle.eden_snapshot.specs.Commits.{commit_of, place_from, place_in, place_named};

use crate::submodules::Submodules;
use eden_model::{Cause, Id, Key, Mode, Name, ObjKind, TreeEntry, World};
use eden_object::Object;
use eden_source::Source;
use std::alloc::Global;

/// The submodules of a commit, as its tree objects name them. At each path the source is asked for the trees that lead
/// there, from the commit's on, and for nothing else.
#[derive(Drop)]
pub struct CommitSubmodules<S: Drop> {
    source: S,
    root: Id,
}

impl<S: Drop> CommitSubmodules<S> {
    /// The submodules of the commit whose tree is `root`.
    pub fn new(source: S, root: Id) -> Self
        ensures { result.root ≡ root }
    {
        CommitSubmodules { source, root }
    }
}

impl<W: World, S: Source<W> + Drop> Submodules<W> for CommitSubmodules<S> {
    ghost use Rattle.eden_snapshot.specs.Commits.{submodule_at};

    ghost known = { λ s path. submodule_at W.repository s.root path };

    fn at(&mut self, alloc: Global, path: &[Name]) -> Result<Option<Id>, Cause> {
        let top = (Mode::Dir, self.root);
        match place_from::<W, S>(alloc, &mut self.source, top, path)? {
            Some(place) => Ok(commit_of(place)),
            None => Ok(None),
        }
    }
}

// The commit that stands there, where a submodule does.
fn commit_of(place: (Mode, Id)) -> Option<Id>
    ensures { result ≡ commit_of place }
{
    match place.0 {
        Mode::Gitlink => Some(place.1),
        _ => None,
    }
}

// What stands at the path from there on.
fn place_from<W: World, S: Source<W>>(
    alloc: Global,
    source: &mut S,
    top: (Mode, Id),
    path: &[Name],
) -> Result<Option<(Mode, Id)>, Cause>
    ensures { W.honest → IfOk result (λ found. found ≡ place_from W.repository top path.now) }
{
    let mut at = top;
    'names: for name in path {
        match place_in::<W, S>(alloc, source, at, name)? {
            Some(below) => at = below,
            None => return Ok(None),
        }
    }
    Ok(Some(at))
}

// What stands there in a tree under that name.
fn place_in<W: World, S: Source<W>>(
    alloc: Global,
    source: &mut S,
    at: (Mode, Id),
    name: &Name,
) -> Result<Option<(Mode, Id)>, Cause>
    ensures { W.honest → IfOk result (λ found. found ≡ place_in W.repository at name.now) }
{
    match at.0 {
        Mode::Dir => {
            let entries = tree_entries::<W, S>(alloc, source, at.1)?;
            Ok(place_named(entries.as_slice(), name))
        }
        _ => Ok(None),
    }
}

/// What a tree of these entries has under that name: the mode and the id.
pub fn place_named(entries: &[TreeEntry], name: &Name) -> Option<(Mode, Id)>
    ensures { result ≡ place_named name.now entries.now }
{
    'entries: for entry in entries {
        if name == &entry.name {
            return Some((entry.mode, entry.id));
        }
    }
    None
}

/// The entries of that tree object, in the order in which they stand in it. The source is asked for it. The cause is
/// the source's, or says why what came isn't that tree, or is want of memory.
pub fn tree_entries<W: World, S: Source<W>>(
    alloc: Global,
    source: &mut S,
    id: Id,
) -> Result<Vec<TreeEntry>, Cause>
    ensures { W.honest → IfOk result (λ entries. W.repository.tree id ≡ Some entries.items) }
{
    let framed = source.fetch(alloc, id)?;
    let kind = ObjKind::Tree;
    let object = Object::checked(alloc, Key { id, kind }, framed)?;
    object.entries(alloc).map_err(|_| Cause::Memory)
}
