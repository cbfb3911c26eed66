ghost use Rattle.std.specs.Prelude.{◌≡◌, IfOk, take, drop};
ghost use Rattle.std.specs.Option.{option_map};
ghost use Rattle.eden_oracle.specs.Changes.{Answers, Tells};
ghost use Rattle.eden_model.specs.Operations.{Reads, ReadsLink, Stats};
ghost use Rattle.eden_oracle.specs.Rows.{tree_of};
ghost use Rattle.eden_model.specs.declared.request.Request.TheVariants as ask;

use crate::change::{Answer, Change, refused};
use crate::place::Row;
use crate::walk::{Met, meet};
use eden_model::{Bytes, Errno, Kind, MAX_DATA, Node, Path, Reply};
use std::alloc::{AllocError, Global};

/// A reply that changes nothing.
fn told<'a>(reply: Option<Reply>) -> Answer<'a>
    ensures { result ≡ option_map (λ r. (r, Change.Keep)) reply }
{
    match reply {
        None => None,
        Some(reply) => Some((reply, Change::Keep)),
    }
}

pub(crate) fn kind<'a>(rows: &[Row], path: &Path) -> Answer<'a>
    ensures { Answers (tree_of rows.now) (ask.Kind path.now) result }
{
    match meet(rows, path.as_slice()) {
        Met::Fails(e) => refused(e),
        Met::Silent => None,
        Met::Absent => refused(Errno::ENOENT),
        Met::Here(node) => told(Some(Reply::Kind(node.kind()))),
    }
}

/// A `stat`'s reply, with 0 where its number comes to stand.
fn stat_node(node: &Node) -> Option<Reply>
    ensures { Tells (Stats node.now) result }
{
    match node {
        Node::Dir(_) => Some(Reply::Stat(Kind::Dir, 0, 0)),
        Node::File(_, None) => None,
        Node::Link(None) => None,
        Node::File(_, Some(bytes)) => Some(Reply::Stat(node.kind(), bytes.len() as u64, 0)),
        Node::Link(Some(target)) => Some(Reply::Stat(Kind::Link, target.len() as u64, 0)),
    }
}

pub(crate) fn stat<'a>(rows: &[Row], path: &Path) -> Answer<'a>
    ensures { Answers (tree_of rows.now) (ask.Stat path.now) result }
{
    match meet(rows, path.as_slice()) {
        Met::Fails(e) => refused(e),
        Met::Silent => None,
        Met::Absent => refused(Errno::ENOENT),
        Met::Here(node) => told(stat_node(node)),
    }
}

fn part(alloc: Global, bytes: &[u8], offset: u64, count: u64) -> Result<Bytes, AllocError>
    ensures { IfOk result (λ b. b ≡ take count (drop offset bytes.now)) }
{
    let from = if offset < bytes.len() as u64 {
        offset as usize
    } else {
        bytes.len()
    };
    let rest = &bytes[from..];
    let to = if count < rest.len() as u64 {
        count as usize
    } else {
        rest.len()
    };
    Ok(Bytes::new(Vec::from_slice(alloc, &rest[..to])?))
}

fn read_node(
    alloc: Global,
    node: &Node,
    offset: u64,
    count: u64,
) -> Result<Option<Reply>, AllocError>
    ensures { IfOk result (λ o. Tells (Reads offset count node.now) o) }
{
    match node {
        Node::File(_, content) => {
            if count == 0 {
                return Ok(Some(Reply::Data(Bytes::new(Vec::new(alloc)))));
            }
            match content {
                None => Ok(None),
                Some(bytes) => Ok(Some(Reply::Data(part(alloc, bytes.as_slice(), offset, count)?))),
            }
        }
        Node::Link(_) => Ok(Some(Reply::Err(Errno::EINVAL))),
        Node::Dir(_) => Ok(Some(Reply::Err(Errno::EISDIR))),
    }
}

pub(crate) fn read<'a>(
    alloc: Global,
    rows: &[Row],
    path: &Path,
    offset: u64,
    count: u64,
) -> Result<Answer<'a>, AllocError>
    ensures { IfOk result (λ o. Answers (tree_of rows.now) (ask.Read path.now offset count) o) }
{
    if count > MAX_DATA {
        return Ok(refused(Errno::EINVAL));
    }
    match meet(rows, path.as_slice()) {
        Met::Fails(e) => Ok(refused(e)),
        Met::Silent => Ok(None),
        Met::Absent => Ok(refused(Errno::ENOENT)),
        Met::Here(node) => Ok(told(read_node(alloc, node, offset, count)?)),
    }
}

fn target(alloc: Global, node: &Node) -> Result<Option<Reply>, AllocError>
    ensures { IfOk result (λ o. Tells (ReadsLink node.now) o) }
{
    match node {
        Node::Link(None) => Ok(None),
        Node::Link(Some(target)) => Ok(Some(Reply::Data(target.copy(alloc)?))),
        Node::File(_, _) => Ok(Some(Reply::Err(Errno::EINVAL))),
        Node::Dir(_) => Ok(Some(Reply::Err(Errno::EINVAL))),
    }
}

pub(crate) fn read_link<'a>(
    alloc: Global,
    rows: &[Row],
    path: &Path,
) -> Result<Answer<'a>, AllocError>
    ensures { IfOk result (λ o. Answers (tree_of rows.now) (ask.ReadLink path.now) o) }
{
    match meet(rows, path.as_slice()) {
        Met::Fails(e) => Ok(refused(e)),
        Met::Silent => Ok(None),
        Met::Absent => Ok(refused(Errno::ENOENT)),
        Met::Here(node) => Ok(told(target(alloc, node)?)),
    }
}
