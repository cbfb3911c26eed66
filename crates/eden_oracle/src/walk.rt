ghost use Rattle.std.specs.Prelude.{◌≡◌, length};
ghost use Rattle.std.specs.Map.{lookup};
ghost use Rattle.std.specs.Option.{option_copied};
ghost use Rattle.eden_model.specs.Paths.{path_eq};
ghost use Rattle.eden_oracle.specs.Rows.{tree_of};
ghost use Rattle.eden_oracle.specs.Walks.{walk_of, reach_of};
ghost use Rattle.eden_model.specs.Trees.{walk, reach, through, Passes};

use crate::place::{Place, Row};
use eden_model::{Errno, Name, Node};

/// How a walk over the proper fronts of a path ends.
#[derive(Clone, Copy)]
pub enum Walked {
    Through,
    Errs(Errno),
    Unlisted,
}

/// What a request meets.
pub enum Met<'a> {
    Fails(Errno),
    Silent,
    Absent,
    Here(&'a Node),
}

/// The first row at that path.
pub(crate) fn find<'a, V>(rows: &'a [(Place, V)], path: &[Name]) -> Option<&'a V>
    ensures { option_copied result ≡ lookup (path_eq path.now) rows.now }
{
    for (row, value) in rows {
        if path == row.as_slice() {
            return Some(value);
        }
    }
    None
}

/// One proper front.
fn through_node(node: Option<&Node>) -> Walked
    ensures { walk_of result ≡ through (option_copied node.entry) Passes }
{
    match node {
        None => Walked::Errs(Errno::ENOENT),
        Some(node) => match node {
            Node::File(_, _) => Walked::Errs(Errno::ENOTDIR),
            Node::Link(_) => Walked::Errs(Errno::ENOTDIR),
            Node::Dir(listed) => if *listed {
                Walked::Through
            } else {
                Walked::Unlisted
            },
        },
    }
}

/// The walk.
pub(crate) fn walk_to(rows: &[Row], path: &[Name]) -> Walked
    ensures { walk_of result ≡ walk (tree_of rows.now) path.now }
{
    for k in 0..path.len() {
        let step = through_node(find(rows, &path[..k]));
        match step {
            Walked::Through => {}
            Walked::Errs(e) => return Walked::Errs(e),
            Walked::Unlisted => return Walked::Unlisted,
        }
    }
    Walked::Through
}

/// What a request meets at that path.
pub(crate) fn meet<'a>(rows: &'a [Row], path: &[Name]) -> Met<'a>
    ensures { reach_of result ≡ reach (tree_of rows.now) path.now }
{
    match walk_to(rows, path) {
        Walked::Errs(e) => Met::Fails(e),
        Walked::Unlisted => Met::Silent,
        Walked::Through => match find(rows, path) {
            None => Met::Absent,
            Some(node) => Met::Here(node),
        },
    }
}
