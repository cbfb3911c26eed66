//! Bytes that are put into a file, at most 65,536 of them.
ghost use Rattle.std.specs.Prelude.{◌≡◌};
ghost use Rattle.eden_model.specs.declared.request.Request.TheVariants as ask;
ghost use Rattle.eden_ops.specs.Attempts.{Attempts};
ghost use Rattle.eden_ops.specs.Renumbering.{EditsNumbers};
ghost use Rattle.eden_ops.specs.Leaving.{LeavesAfter, StampsItsWalk};
ghost use Rattle.eden_ops.specs.Looks.{IsBeyondLimits};
ghost use Rattle.eden_ops.specs.Trails.{Counts, LeadsToNeed};
ghost use Rattle.eden_inode.specs.Trails.{Leads};

use crate::requests::patch::patch;
use eden_cache::Stock;
use eden_inode::{Inodes, Trail};
use eden_model::{Attempt, Errno, MAX_DATA, Path, Reply, World};
use eden_overlay::Files;
use std::alloc::{Allocator, Global};

/// As `patch`, of at most 65,536 bytes; more are refused.
pub fn write<A: Allocator + Clone, W: World, F: Files<W>, C: Allocator + Clone>(
    inodes: &mut Inodes<A, W, F>,
    cache: &mut Stock<W, C>,
    alloc: Global,
    path: &Path,
    offset: u64,
    bytes: &[u8],
    trail: &mut Trail,
) -> Attempt
    requires leads { Leads path.now trail.old.positions inodes.old.root }
    ensures attempts { Attempts W.World F.Files
        (ask.Write path.now offset bytes.now) inodes.old inodes.new cache.old cache.new result }
    ensures leaves { LeavesAfter W.World F.Files (ask.Write path.now offset bytes.now) inodes.old inodes.new result }
    ensures stamps { StampsItsWalk (ask.Write path.now offset bytes.now)
        inodes.old.clock inodes.old.root inodes.new.root result }
    ensures refused { IsBeyondLimits (ask.Write path.now offset bytes.now) → inodes.new ≡ inodes.old }
    ensures edits { EditsNumbers W.World F.Files (ask.Write path.now offset bytes.now) inodes.old inodes.new result }
    ensures changes { inodes.new.changes ≡ inodes.old.changes }
    ensures counts { Counts path.now trail.old trail.new }
    ensures leads { LeadsToNeed path.now trail.new.positions inodes.new.root result }
{
    let count = bytes.len() as u64;
    if count > MAX_DATA {
        return Attempt::Finished(Reply::Err(Errno::EINVAL));
    }
    patch(inodes, cache, alloc, path, offset, bytes, trail)
}
