ghost use Rattle.std.specs.Prelude.{◌≡◌, ◌<◌, ◌≤◌, ◌+◌, length, IfOk};
ghost use Rattle.eden_model.specs.Limits.{most_file};
ghost use Rattle.eden_oracle.specs.Changes.{Answers, AnswersHere};
ghost use Rattle.eden_model.specs.Operations.{Writes, Truncates, SetsExec, resized, written};
ghost use Rattle.eden_oracle.specs.Rows.{tree_of};
ghost use Rattle.eden_model.specs.declared.request.Request.TheVariants as ask;

use crate::change::{Answer, Change, refused};
use crate::place::{Row, copied_content};
use crate::walk::{Met, meet};
use eden_model::{Bytes, Errno, MAX_DATA, MAX_FILE, Node, Path, Reply};
use std::alloc::{AllocError, Global};

/// A content cut to that size, or with zeros up to it.
fn resized(alloc: Global, old: &[u8], size: usize) -> Result<Vec<u8>, AllocError>
    ensures { IfOk result (λ v. v.items ≡ resized size old.now) }
{
    let mut bytes = Vec::from_slice(alloc, old)?;
    bytes.resize(size, 0)?;
    Ok(bytes)
}

/// A content with the new bytes in it from the offset on.
fn written(alloc: Global, old: &[u8], offset: usize, new: &[u8]) -> Result<Vec<u8>, AllocError>
    requires some { 0 < length new.now }
    requires fits { offset + length new.now ≤ most_file }
    ensures { IfOk result (λ v. v.items ≡ written offset new.now old.now) }
{
    let mut bytes = resized(alloc, old, offset)?;
    bytes.extend_from_slice(new)?;
    let end = offset + new.len();
    if end < old.len() {
        bytes.extend_from_slice(&old[end..])?;
    }
    Ok(bytes)
}

pub(crate) fn write<'a>(
    alloc: Global,
    rows: &[Row],
    path: &'a Path,
    offset: u64,
    bytes: &[u8],
) -> Result<Answer<'a>, AllocError>
    ensures { IfOk result (λ o. Answers (tree_of rows.now) (ask.Write path.now offset bytes.now) o) }
{
    if bytes.len() as u64 > MAX_DATA {
        return Ok(refused(Errno::EINVAL));
    }
    patch(alloc, rows, path, offset, bytes)
}

/// A write of as many bytes as a file may have.
pub(crate) fn patch<'a>(
    alloc: Global,
    rows: &[Row],
    path: &'a Path,
    offset: u64,
    bytes: &[u8],
) -> Result<Answer<'a>, AllocError>
    ensures { IfOk result (λ o. Answers (tree_of rows.now) (ask.Patch path.now offset bytes.now) o) }
{
    if bytes.len() as u64 > MAX_FILE {
        return Ok(refused(Errno::EINVAL));
    }
    match meet(rows, path.as_slice()) {
        Met::Fails(e) => Ok(refused(e)),
        Met::Silent => Ok(None),
        Met::Absent => Ok(refused(Errno::ENOENT)),
        Met::Here(node) => patch_node(alloc, path, node, offset, bytes),
    }
}

fn patch_node<'a>(
    alloc: Global,
    path: &'a Path,
    node: &Node,
    offset: u64,
    bytes: &[u8],
) -> Result<Answer<'a>, AllocError>
    requires { length bytes.now ≤ most_file }
    ensures { IfOk result
        (AnswersHere path.now node.now (Writes offset bytes.now) (ask.Patch path.now offset bytes.now)) }
{
    match node {
        Node::File(exec, content) => {
            if bytes.is_empty() {
                return Ok(Some((Reply::Count(0), Change::Keep)));
            }
            if offset > MAX_FILE - bytes.len() as u64 {
                return Ok(refused(Errno::EFBIG));
            }
            match content {
                None => Ok(None),
                Some(old) => {
                    let content = written(alloc, old.as_slice(), offset as usize, bytes)?;
                    let file = Node::File(*exec, Some(Bytes::new(content)));
                    let count = Reply::Count(bytes.len() as u64);
                    Ok(Some((count, Change::Put(path.as_slice(), Some(file)))))
                }
            }
        }
        Node::Link(_) => Ok(refused(Errno::EINVAL)),
        Node::Dir(_) => Ok(refused(Errno::EISDIR)),
    }
}

fn truncate_node<'a>(
    alloc: Global,
    path: &'a Path,
    node: &Node,
    size: u64,
) -> Result<Answer<'a>, AllocError>
    ensures { IfOk result (AnswersHere path.now node.now (Truncates size) (ask.Truncate path.now size)) }
{
    match node {
        Node::File(exec, content) => {
            if size > MAX_FILE {
                return Ok(refused(Errno::EFBIG));
            }
            let bytes = if size == 0 {
                Vec::new(alloc)
            } else {
                match content {
                    None => return Ok(None),
                    Some(old) => resized(alloc, old.as_slice(), size as usize)?,
                }
            };
            let file = Node::File(*exec, Some(Bytes::new(bytes)));
            Ok(Some((Reply::Ok, Change::Put(path.as_slice(), Some(file)))))
        }
        Node::Link(_) => Ok(refused(Errno::EINVAL)),
        Node::Dir(_) => Ok(refused(Errno::EISDIR)),
    }
}

pub(crate) fn truncate<'a>(
    alloc: Global,
    rows: &[Row],
    path: &'a Path,
    size: u64,
) -> Result<Answer<'a>, AllocError>
    ensures { IfOk result (λ o. Answers (tree_of rows.now) (ask.Truncate path.now size) o) }
{
    match meet(rows, path.as_slice()) {
        Met::Fails(e) => Ok(refused(e)),
        Met::Silent => Ok(None),
        Met::Absent => Ok(refused(Errno::ENOENT)),
        Met::Here(node) => truncate_node(alloc, path, node, size),
    }
}

fn set_exec_node<'a>(
    alloc: Global,
    path: &'a Path,
    node: &Node,
    exec: bool,
) -> Result<Answer<'a>, AllocError>
    ensures { IfOk result (AnswersHere path.now node.now SetsExec (ask.SetExec path.now exec)) }
{
    match node {
        Node::File(_, content) => {
            let file = Node::File(exec, copied_content(alloc, content)?);
            Ok(Some((Reply::Ok, Change::Put(path.as_slice(), Some(file)))))
        }
        Node::Link(_) => Ok(refused(Errno::EINVAL)),
        Node::Dir(_) => Ok(refused(Errno::EISDIR)),
    }
}

pub(crate) fn set_exec<'a>(
    alloc: Global,
    rows: &[Row],
    path: &'a Path,
    exec: bool,
) -> Result<Answer<'a>, AllocError>
    ensures { IfOk result (λ o. Answers (tree_of rows.now) (ask.SetExec path.now exec) o) }
{
    match meet(rows, path.as_slice()) {
        Met::Fails(e) => Ok(refused(e)),
        Met::Silent => Ok(None),
        Met::Absent => Ok(refused(Errno::ENOENT)),
        Met::Here(node) => set_exec_node(alloc, path, node, exec),
    }
}
