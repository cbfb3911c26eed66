ghost use Rattle.std.specs.Prelude.{◌≡◌, ◌&&◌};
ghost use Rattle.eden_oracle.specs.Changes.{Answers, MayLand, Renames, reply_of};
ghost use Rattle.eden_model.specs.Operations.{is_dir, is_front};
ghost use Rattle.eden_oracle.specs.Rows.{tree_of};
ghost use Rattle.eden_model.specs.declared.request.Request.TheVariants as ask;

use crate::change::{Answer, Change, refused};
use crate::front::behind;
use crate::place::Row;
use crate::remove::{Going, dir_going, leaf_going};
use crate::walk::{Met, meet};
use eden_model::{Errno, Name, Node, Path, Reply};

/// Whether `to` may be taken by a directory, or by a file or a link.
fn target_going(rows: &[Row], to: &[Name], is_dir: bool) -> Going
    ensures { MayLand (tree_of rows.now) to.now is_dir (reply_of result) }
{
    match meet(rows, to) {
        Met::Fails(e) => Going::Stays(e),
        Met::Silent => Going::Silent,
        Met::Absent => Going::Goes,
        Met::Here(old) => if is_dir {
            dir_going(rows, to, old)
        } else {
            leaf_going(old)
        },
    }
}

fn is_dir(node: &Node) -> bool
    ensures { result ≡ is_dir node.now }
{
    match node {
        Node::File(_, _) => false,
        Node::Link(_) => false,
        Node::Dir(_) => true,
    }
}

/// Whether the path begins with the front.
fn is_front(front: &[Name], path: &[Name]) -> bool
    ensures { result ≡ is_front front.now path.now }
{
    behind(front, path).is_some()
}

/// Whether a directory would come to stand below itself.
fn goes_inside(from: &[Name], to: &[Name], node: &Node) -> bool
    ensures { result ≡ (is_dir node.now && is_front from.now to.now) }
{
    is_dir(node) && is_front(from, to)
}

/// The checks after the one whether anything stands at `from`.
fn rename_node<'a>(rows: &[Row], from: &'a [Name], to: &'a [Name], node: &Node) -> Answer<'a>
    ensures { Renames (tree_of rows.now) from.now to.now node.now result }
{
    if from == to {
        return Some((Reply::Ok, Change::Keep));
    }
    if goes_inside(from, to, node) {
        return refused(Errno::EINVAL);
    }
    if is_front(to, from) {
        return refused(Errno::ENOTEMPTY);
    }
    match target_going(rows, to, is_dir(node)) {
        Going::Goes => Some((Reply::Ok, Change::Move(from, to))),
        Going::Stays(e) => refused(e),
        Going::Silent => None,
    }
}

pub(crate) fn rename<'a>(rows: &[Row], from: &'a Path, to: &'a Path) -> Answer<'a>
    ensures { Answers (tree_of rows.now) (ask.Rename from.now to.now) result }
{
    if from.is_root() || to.is_root() {
        return refused(Errno::EBUSY);
    }
    match meet(rows, from.as_slice()) {
        Met::Fails(e) => refused(e),
        Met::Silent => None,
        Met::Absent => refused(Errno::ENOENT),
        Met::Here(node) => rename_node(rows, from.as_slice(), to.as_slice(), node),
    }
}
