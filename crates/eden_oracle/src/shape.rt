ghost use Rattle.std.specs.Prelude.{◌≡◌, ◌↔◌, Some, true, IsTrue, [], ◌∷◌, ◌++◌};
ghost use Rattle.std.specs.List.{All, IsDistinct};
ghost use Rattle.std.specs.Map.{keys_of};
ghost use Rattle.std.specs.Option.{option_copied};
ghost use Rattle.eden_model.specs.Paths.{path_eq};
ghost use Rattle.eden_oracle.specs.Rows.{AreTree, tree_of};
ghost use Rattle.eden_model.specs.Trees.{IsDir, HasParent, IsTree};
ghost use Rattle.eden_model.specs.declared.node.Node.TheVariants.{Dir};

use crate::place::Row;
use crate::walk::find;
use eden_model::{Name, Node};

/// Whether no path comes twice.
fn are_distinct(rows: &[Row]) -> bool
    ensures { IsTrue result ↔ IsDistinct path_eq (keys_of rows.now) }
{
    for k in 0..rows.len() {
        if find(&rows[k + 1..], rows[k].0.as_slice()).is_some() {
            return false;
        }
    }
    true
}

fn is_dir(node: Option<&Node>) -> bool
    ensures { IsTrue result ↔ IsDir (option_copied node.entry) }
{
    match node {
        None => false,
        Some(node) => match node {
            Node::File(_, _) => false,
            Node::Link(_) => false,
            Node::Dir(_) => true,
        },
    }
}

fn is_listed(node: Option<&Node>) -> bool
    ensures { IsTrue result ↔ (option_copied node.entry ≡ Some (Dir true)) }
{
    match node {
        None => false,
        Some(node) => match node {
            Node::File(_, _) => false,
            Node::Link(_) => false,
            Node::Dir(listed) => *listed,
        },
    }
}

/// Whether a directory whose entries are known stands above the path. Nothing stands above the root.
fn has_parent(rows: &[Row], path: &[Name]) -> bool
    ensures { IsTrue result ↔ HasParent (tree_of rows.now) path.now }
{
    match path.split_last() {
        None => true,
        Some((_, above)) => is_listed(find(rows, above)),
    }
}

/// Whether each row has its parent.
fn have_parents(rows: &[Row]) -> bool
    ensures { IsTrue result ↔ All (λ row. HasParent (tree_of rows.now) row.0) rows.now }
{
    for (path, _) in rows {
        if !has_parent(rows, path.as_slice()) {
            return false;
        }
    }
    true
}

/// Whether the root is there, and is a directory.
fn has_root(rows: &[Row]) -> bool
    ensures { IsTrue result ↔ IsDir (tree_of rows.now []) }
{
    is_dir(find(rows, &[]))
}

/// Whether what the rows show is a tree.
fn is_tree(rows: &[Row]) -> bool
    ensures { IsTrue result ↔ IsTree (tree_of rows.now) }
{
    has_root(rows) && have_parents(rows)
}

/// Whether the rows are a tree, and no path comes twice.
pub(crate) fn are_tree(rows: &[Row]) -> bool
    ensures { IsTrue result ↔ AreTree rows.now }
{
    is_tree(rows) && are_distinct(rows)
}
