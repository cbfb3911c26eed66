ghost use Rattle.std.specs.Prelude.{◌≡◌, true, false, ℕ, List, [], ◌∷◌, ◌++◌, None};
ghost use Rattle.std.specs.Option.{IsSome, option_map};
ghost use Rattle.eden_oracle.specs.Changes.{Answers, TakesAway, reply_of, Tells};
ghost use Rattle.eden_model.specs.Operations.{Removes, Unlinks};
ghost use Rattle.eden_oracle.specs.Rows.{tree_of};
ghost use Rattle.eden_model.specs.declared.request.Request.TheVariants as ask;

use crate::change::{Answer, Change, refused};
use crate::front::child;
use crate::place::Row;
use crate::walk::{Met, meet};
use eden_model::{Errno, Name, Node, Path, Reply};

/// Whether what stands at a path may be taken away.
#[derive(Clone, Copy)]
pub enum Going {
    Goes,
    Stays(Errno),
    /// It is a directory whose entries are not known.
    Silent,
}

/// As a file or a link may.
pub(crate) fn leaf_going(node: &Node) -> Going
    ensures { Tells (Unlinks node.now) (reply_of result) }
{
    match node {
        Node::File(_, _) => Going::Goes,
        Node::Link(_) => Going::Goes,
        Node::Dir(_) => Going::Stays(Errno::EISDIR),
    }
}

/// Whether no row is a child of that directory.
fn is_empty(rows: &[Row], dir: &[Name]) -> bool
    ensures empty { result ≡ true → (n : List ℕ) → tree_of rows.now (dir.now ++ n ∷ []) ≡ None }
    ensures some { result ≡ false → (n : List ℕ) × IsSome (tree_of rows.now (dir.now ++ n ∷ [])) }
{
    for (row, _) in rows {
        if child(dir, row.as_slice()).is_some() {
            return false;
        }
    }
    true
}

/// As a directory may.
pub(crate) fn dir_going(rows: &[Row], path: &[Name], node: &Node) -> Going
    ensures { Tells (Removes (tree_of rows.now) path.now node.now) (reply_of result) }
{
    match node {
        Node::File(_, _) => Going::Stays(Errno::ENOTDIR),
        Node::Link(_) => Going::Stays(Errno::ENOTDIR),
        Node::Dir(listed) => {
            if !*listed {
                return Going::Silent;
            }
            if is_empty(rows, path) {
                Going::Goes
            } else {
                Going::Stays(Errno::ENOTEMPTY)
            }
        }
    }
}

/// Takes the path away, where that may be.
fn take_away<'a>(path: &'a Path, going: Going) -> Answer<'a>
    ensures reply { option_map (λ a. a.0) result ≡ reply_of going }
    ensures change { TakesAway path.now result }
{
    match going {
        Going::Goes => Some((Reply::Ok, Change::Put(path.as_slice(), None))),
        Going::Stays(e) => refused(e),
        Going::Silent => None,
    }
}

pub(crate) fn unlink<'a>(rows: &[Row], path: &'a Path) -> Answer<'a>
    ensures { Answers (tree_of rows.now) (ask.Unlink path.now) result }
{
    if path.is_root() {
        return refused(Errno::EISDIR);
    }
    match meet(rows, path.as_slice()) {
        Met::Fails(e) => refused(e),
        Met::Silent => None,
        Met::Absent => refused(Errno::ENOENT),
        Met::Here(node) => take_away(path, leaf_going(node)),
    }
}

pub(crate) fn rmdir<'a>(rows: &[Row], path: &'a Path) -> Answer<'a>
    ensures { Answers (tree_of rows.now) (ask.Rmdir path.now) result }
{
    if path.is_root() {
        return refused(Errno::EBUSY);
    }
    match meet(rows, path.as_slice()) {
        Met::Fails(e) => refused(e),
        Met::Silent => None,
        Met::Absent => refused(Errno::ENOENT),
        Met::Here(node) => take_away(path, dir_going(rows, path.as_slice(), node)),
    }
}
