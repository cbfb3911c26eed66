//! What was changed at one path.

ghost use Rattle.std.specs.Prelude.{◌≡◌, Some};
ghost use Rattle.eden_snapshot.specs.Changes.{change_of, is_tree, is_whole, may_be, number_of, sort_of};

use eden_model::{Id, Mode};

/// How what stands at a path differs from what the commit has there.
#[derive(Clone, Copy, PartialEq, Eq)]
pub enum How {
    /// The commit has nothing there.
    Added,
    /// Nothing is there any more.
    Removed,
    /// Its content, its executable bit or its tree is another one.
    Modified,
    /// It is of another sort: a file, a link, a directory or a submodule.
    Retyped,
}

/// A change of what stands at a path.
#[derive(Clone, Copy, PartialEq, Eq)]
pub struct Change {
    /// How it differs.
    pub how: How,
    /// What stands there, or where nothing does what the commit has there.
    pub mode: Mode,
    /// Whether it is told by its top alone: what is below is the commit's tree's, or was that, and isn't told.
    pub whole: bool,
}

/// What the commit has under a name: the mode and the id.
pub(crate) type Place = (Mode, Id);

/// What is shown under a name: the mode and the id of its object. It has none to compare where it is looked into, or
/// stands for the commit's.
pub(crate) type Stand = (Mode, Option<Id>);

/// How the second differs from the first.
pub(crate) fn change_of(old: Option<Place>, new: Option<Stand>) -> Option<Change>
    ensures { result ≡ change_of old new }
{
    match (old, new) {
        (None, None) => None,
        (None, Some(stand)) => Some(Change {
            how: How::Added,
            mode: stand.0,
            whole: is_whole(false, stand),
        }),
        (Some(place), None) => Some(Change {
            how: How::Removed,
            mode: place.0,
            whole: is_tree(place.0),
        }),
        (Some(place), Some(stand)) => changed(place, stand),
    }
}

// How what stands there differs from what stood there.
fn changed(old: Place, new: Stand) -> Option<Change>
    ensures { result ≡ change_of (Some old) (Some new) }
{
    let how = if sort_of(old.0) != sort_of(new.0) {
        How::Retyped
    } else if number_of(old.0) == number_of(new.0) && may_be(old.1, new.1) {
        return None;
    } else {
        How::Modified
    };
    Some(Change {
        how,
        mode: new.0,
        whole: is_whole(is_tree(old.0), new),
    })
}

// Whether it is a tree.
fn is_tree(mode: Mode) -> bool
    ensures { result ≡ is_tree mode }
{
    match mode {
        Mode::Dir => true,
        Mode::File | Mode::Exec | Mode::Link | Mode::Gitlink => false,
    }
}

// Whether a tree is there that isn't looked into, or was.
fn is_whole(was_tree: bool, new: Stand) -> bool
    ensures { result ≡ is_whole was_tree new }
{
    match new.0 {
        Mode::Dir => new.1.is_some(),
        Mode::File | Mode::Exec | Mode::Link | Mode::Gitlink => was_tree,
    }
}

// Whether they may be one object.
fn may_be(id: Id, other: Option<Id>) -> bool
    ensures { result ≡ may_be id other }
{
    match other {
        None => true,
        Some(other) => id == other,
    }
}

// The modes' numbers.
fn number_of(mode: Mode) -> u8
    ensures { result ≡ number_of mode }
{
    match mode {
        Mode::File => 0,
        Mode::Exec => 1,
        Mode::Link => 2,
        Mode::Dir => 3,
        Mode::Gitlink => 4,
    }
}

// .. and those of their sorts.
fn sort_of(mode: Mode) -> u8
    ensures { result ≡ sort_of mode }
{
    match mode {
        Mode::File | Mode::Exec => 0,
        Mode::Link => 1,
        Mode::Dir => 2,
        Mode::Gitlink => 3,
    }
}
