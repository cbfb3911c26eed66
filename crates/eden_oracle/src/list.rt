ghost use Rattle.std.specs.Prelude.{◌≡◌, IfOk, OnOk, ℕ, List, [], ◌∷◌, ◌++◌, Some, None, if◌then◌else◌};
ghost use Rattle.std.specs.Option.{option_map, option_or};
ghost use Rattle.eden_oracle.specs.Changes.{Answers, Tells};
ghost use Rattle.eden_model.specs.Operations.{Lists, ListsSome, kind_of, kind_named};
ghost use Rattle.eden_model.specs.Paths.{path_eq};
ghost use Rattle.eden_oracle.specs.Rows.{tree_of};
ghost use Rattle.eden_model.specs.declared.request.Request.TheVariants as ask;

use crate::change::{Answer, Change, refused};
use crate::front::child;
use crate::place::{Place, Row};
use crate::walk::{Met, meet};
use eden_model::{Errno, Listing, MAX_ENTRIES, Name, Node, Path, Reply};
use std::alloc::{AllocError, Global};

/// Notes a row's node, where the row is a child of that directory.
fn note_row(
    alloc: Global,
    all: &mut Listing,
    dir: &[Name],
    row: &Place,
    node: &Node,
) -> Result<(), AllocError>
    ensures { OnOk result
        ((n : List ℕ) → kind_named all.new n ≡ option_or (kind_named all.old n)
        (if path_eq (dir.now ++ n ∷ []) row.now then Some (kind_of node.now) else None)) }
{
    match child(dir, row.as_slice()) {
        None => Ok(()),
        Some(name) => {
            all.note(alloc, name, node.kind())?;
            Ok(())
        }
    }
}

/// All children of a directory.
fn children(alloc: Global, rows: &[Row], dir: &[Name]) -> Result<Listing, AllocError>
    ensures { IfOk result
        (λ all. (n : List ℕ) → kind_named all n ≡ option_map kind_of (tree_of rows.now (dir.now ++ n ∷ []))) }
{
    let mut all = Listing::new(alloc);
    for (row, node) in rows {
        note_row(alloc, &mut all, dir, row, node)?;
    }
    Ok(all)
}

fn entries(
    alloc: Global,
    rows: &[Row],
    dir: &[Name],
    after: &Option<Name>,
    limit: u64,
) -> Result<Reply, AllocError>
    ensures { IfOk result (λ r. ListsSome (tree_of rows.now) dir.now after.now limit r) }
{
    children(alloc, rows, dir)?.page(alloc, after, limit)
}

fn list_node(
    alloc: Global,
    rows: &[Row],
    dir: &[Name],
    after: &Option<Name>,
    limit: u64,
    node: &Node,
) -> Result<Option<Reply>, AllocError>
    ensures { IfOk result (λ o. Tells (Lists (tree_of rows.now) dir.now after.now limit node.now) o) }
{
    match node {
        Node::File(_, _) => Ok(Some(Reply::Err(Errno::ENOTDIR))),
        Node::Link(_) => Ok(Some(Reply::Err(Errno::ENOTDIR))),
        Node::Dir(listed) => {
            if !*listed {
                return Ok(None);
            }
            Ok(Some(entries(alloc, rows, dir, after, limit)?))
        }
    }
}

pub(crate) fn list<'a>(
    alloc: Global,
    rows: &[Row],
    path: &Path,
    after: &Option<Name>,
    limit: u64,
) -> Result<Answer<'a>, AllocError>
    ensures { IfOk result (λ o. Answers (tree_of rows.now) (ask.List path.now after.now limit) o) }
{
    if limit == 0 || limit > MAX_ENTRIES {
        return Ok(refused(Errno::EINVAL));
    }
    match meet(rows, path.as_slice()) {
        Met::Fails(e) => Ok(refused(e)),
        Met::Silent => Ok(None),
        Met::Absent => Ok(refused(Errno::ENOENT)),
        Met::Here(node) => match list_node(alloc, rows, path.as_slice(), after, limit, node)? {
            None => Ok(None),
            Some(reply) => Ok(Some((reply, Change::Keep))),
        },
    }
}
