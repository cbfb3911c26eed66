// How what waits is stored.
ghost use Rattle.std.specs.Prelude.{◌≡◌, IfOk};
ghost use Rattle.eden_fuse_shown.specs.Showing.{IsStored, StoresAll, first_error, storing, unstored};

use crate::concluding::errno_of;
use crate::extents::{Extent, Extents};
use crate::mount::{Mount, Unheard};
use crate::naming::path_of;
use crate::running::run;
use eden_fuse_meaning::{Outcome, Step, Then};
use eden_fuse_nodes::Nodes;
use eden_model::{Path, Request};
use std::alloc::{AllocError, Global};

const EIO: u32 = 5;

const ENOMEM: u32 = 12;

// What is asked at that path, if the bytes can have one more owner.
fn storing(at: Result<Path, u32>, extent: &Extent) -> Result<Step, AllocError>
    ensures { IfOk result (λ step. step ≡ storing at extent.now) }
{
    match at {
        Err(errno) => Ok(Step::Tell(Outcome::Refused(errno))),
        Ok(path) => {
            let bytes = extent.share()?;
            Ok(Step::Ask(Request::Patch(path, extent.from(), bytes), Then::Count))
        }
    }
}

// The number of the error, if it wasn't stored.
fn unstored(end: Result<Outcome, Unheard>) -> Option<u32>
    ensures { result ≡ unstored end }
{
    match end {
        Err(why) => Some(errno_of(why)),
        Ok(Outcome::Written(_)) => None,
        Ok(Outcome::Refused(errno)) => Some(errno),
        Ok(_) => Some(EIO),
    }
}

/// Asks the mount to store bytes that wait for a node, at the path at which it lies by now. They aren't copied,
/// and wait still if the mount doesn't store them: then the number of the error, `ENOMEM` if nothing was asked.
pub(crate) fn store<M: Mount>(
    alloc: Global,
    mount: &mut M,
    nodes: &Nodes,
    node: u64,
    extent: &Extent,
) -> Option<u32>
    ensures { IsStored M.answers nodes.now node extent.now mount.old result mount.new }
{
    let Ok(at) = path_of(alloc, nodes, node) else {
        return Some(ENOMEM);
    };
    let Ok(step) = storing(at, extent) else {
        return Some(ENOMEM);
    };
    unstored(run(alloc, mount, step))
}

// The number of the first error, of one store and those after it.
fn first_error(one: Option<u32>, others: Option<u32>) -> Option<u32>
    ensures { result ≡ first_error one others }
{
    match one {
        None => others,
        Some(errno) => Some(errno),
    }
}

/// Stores all that waits, and drops what can't be stored; the number of the first error, upon which the others are
/// stored all the same. None only if all was stored.
pub(crate) fn store_all<M: Mount>(
    alloc: Global,
    mount: &mut M,
    nodes: &Nodes,
    waits: Extents,
) -> Option<u32>
    ensures { StoresAll M.answers nodes.now waits mount.old result mount.new }
{
    let mut left = waits.into_map();
    let mut why = None;
    'nodes: while let Some((node, extent)) = left.pop_first() {
        why = first_error(why, store(alloc, mount, nodes, node, &extent));
    }
    why
}
