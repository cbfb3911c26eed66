ghost use Rattle.std.specs.Prelude.{IfOk};
ghost use Rattle.eden_oracle.specs.Changes.{AddsNode, Answers};
ghost use Rattle.eden_oracle.specs.Rows.{tree_of};
ghost use Rattle.eden_model.specs.declared.request.Request.TheVariants as ask;

use crate::change::{Answer, Change, refused};
use crate::place::Row;
use crate::walk::{Met, meet};
use eden_model::{Bytes, Errno, MAX_TARGET, Node, Path, Reply};
use std::alloc::{AllocError, Global};

/// That node at the path, where nothing stands there yet.
fn add<'a>(rows: &[Row], path: &'a Path, node: Node) -> Answer<'a>
    ensures { AddsNode (tree_of rows.now) path.now node result }
{
    if path.is_root() {
        return refused(Errno::EEXIST);
    }
    match meet(rows, path.as_slice()) {
        Met::Fails(e) => refused(e),
        Met::Silent => None,
        Met::Absent => Some((Reply::Ok, Change::Put(path.as_slice(), Some(node)))),
        Met::Here(_) => refused(Errno::EEXIST),
    }
}

pub(crate) fn create<'a>(alloc: Global, rows: &[Row], path: &'a Path) -> Answer<'a>
    ensures { Answers (tree_of rows.now) (ask.Create path.now) result }
{
    add(
        rows,
        path,
        Node::File(false, Some(Bytes::new(Vec::new(alloc)))),
    )
}

pub(crate) fn mkdir<'a>(rows: &[Row], path: &'a Path) -> Answer<'a>
    ensures { Answers (tree_of rows.now) (ask.Mkdir path.now) result }
{
    add(rows, path, Node::Dir(true))
}

pub(crate) fn symlink<'a>(
    alloc: Global,
    rows: &[Row],
    path: &'a Path,
    target: &Bytes,
) -> Result<Answer<'a>, AllocError>
    ensures { IfOk result (λ o. Answers (tree_of rows.now) (ask.Symlink path.now target.now) o) }
{
    if target.len() == 0 {
        return Ok(refused(Errno::ENOENT));
    }
    if target.len() as u64 > MAX_TARGET {
        return Ok(refused(Errno::ENAMETOOLONG));
    }
    Ok(add(rows, path, Node::Link(Some(target.copy(alloc)?))))
}
