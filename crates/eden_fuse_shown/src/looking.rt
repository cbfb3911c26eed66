// Which look goes before a message.
ghost use Rattle.std.specs.Prelude.{IfSome};
ghost use Rattle.eden_fuse_shown.specs.Looking.{ChangesNothing};

use crate::naming::begin;
use eden_fuse_format::{Operation, ReadIn};
use eden_fuse_meaning::{Owner, Step};
use eden_fuse_nodes::Nodes;
use eden_model::{Path, Request};
use std::alloc::Global;

/// The first byte of an open file.
fn first_byte(handle: u64) -> Operation<'static> {
    Operation::Read(ReadIn {
        fh: handle,
        offset: 0,
        size: 1,
        read_flags: 0,
        lock_owner: 0,
        flags: 0,
    })
}

/// The look before a file is cut to that size. To nothing it is cut without its content.
fn look_to_cut(path: Path, size: u64) -> Request
    ensures { ChangesNothing result }
{
    if size == 0 {
        Request::Kind(path)
    } else {
        Request::Read(path, 0, 1)
    }
}

/// A look for which a mount needs what it needs for the request, and which is answered in few bytes. For a rename it
/// needs less: what leads to the new path, and the directory that is replaced there, which has to be empty. What leads
/// to the old path was loaded when the kernel looked that up; if it went from memory since, the turn waits for it.
fn look_of(request: Request) -> Request
    ensures { ChangesNothing result }
{
    match request {
        Request::Stat(path) => Request::Stat(path),
        Request::SetExec(path, _) => Request::Stat(path),
        Request::Read(path, offset, _) => Request::Read(path, offset, 1),
        Request::ReadLink(path) => Request::ReadLink(path),
        Request::List(path, _after, _) => Request::List(path, None, 1),
        Request::Rmdir(path) => Request::List(path, None, 1),
        Request::Write(path, _, _bytes) => Request::Read(path, 0, 1),
        Request::Patch(path, _, _bytes) => Request::Read(path, 0, 1),
        Request::Truncate(path, size) => look_to_cut(path, size),
        Request::Kind(path) => Request::Kind(path),
        Request::Create(path) => Request::Kind(path),
        Request::Mkdir(path) => Request::Kind(path),
        Request::Symlink(path, _target) => Request::Kind(path),
        Request::Unlink(path) => Request::Kind(path),
        Request::Rename(_path, goal) => Request::List(goal, None, 1),
    }
}

/// The look for what a message asks first, if it asks a mount for anything. None too for want of memory.
fn look_first(
    alloc: Global,
    owner: Owner,
    nodes: &Nodes,
    node: u64,
    operation: &Operation<'_>,
) -> Option<Request>
    ensures { IfSome result ChangesNothing }
{
    match begin(alloc, owner, nodes, node, operation, &None) {
        Ok(Step::Ask(request, _)) => Some(look_of(request)),
        Ok(Step::Tell(_)) | Err(_) => None,
    }
}

/// The look that goes before a message, if one does. None too for want of memory.
pub(crate) fn look_before(
    alloc: Global,
    owner: Owner,
    nodes: &Nodes,
    node: u64,
    operation: &Operation<'_>,
) -> Option<Request>
    ensures { IfSome result ChangesNothing }
{
    match operation {
        // The bytes that are written are left where they are.
        Operation::Write(head, _) => look_first(alloc, owner, nodes, node, &first_byte(head.fh)),
        _ => look_first(alloc, owner, nodes, node, operation),
    }
}
