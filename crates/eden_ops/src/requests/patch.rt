//! Bytes that are put into a file.
ghost use Rattle.std.specs.Prelude.{◌≡◌};
ghost use Rattle.eden_model.specs.declared.request.Request.TheVariants as ask;
ghost use Rattle.eden_ops.specs.Attempts.{Attempts};
ghost use Rattle.eden_ops.specs.Renumbering.{EditsNumbers};
ghost use Rattle.eden_ops.specs.Leaving.{LeavesAfter, StampsItsWalk};
ghost use Rattle.eden_ops.specs.Looks.{IsBeyondLimits};
ghost use Rattle.eden_ops.specs.Trails.{Counts, LeadsToNeed};
ghost use Rattle.eden_inode.specs.Trails.{Leads};

use crate::ended::ended;
use crate::meet_file::meet_file;
use crate::refill::{Form, refill};
use eden_cache::Stock;
use eden_inode::{Inodes, Trail};
use eden_model::{Attempt, Errno, MAX_FILE, Path, Reply, World};
use eden_overlay::Files;
use std::alloc::{Allocator, Global};

/// Puts bytes into a file, from the offset on, and answers how many; over 2^30 are refused, and what would end past
/// 2^30. A gap between its old end and the offset is filled with zeros. If there are no bytes to put, its content isn't
/// fetched and nothing changes. A fault leaves the file as it was. The file is stored once, however many bytes there
/// are.
pub fn patch<A: Allocator + Clone, W: World, F: Files<W>, C: Allocator + Clone>(
    inodes: &mut Inodes<A, W, F>,
    cache: &mut Stock<W, C>,
    alloc: Global,
    path: &Path,
    offset: u64,
    bytes: &[u8],
    trail: &mut Trail,
) -> Attempt
    requires leads { Leads path.now trail.old.positions inodes.old.root }
    ensures attempts { Attempts W.World F.Files
        (ask.Patch path.now offset bytes.now) inodes.old inodes.new cache.old cache.new result }
    ensures leaves { LeavesAfter W.World F.Files (ask.Patch path.now offset bytes.now) inodes.old inodes.new result }
    ensures stamps { StampsItsWalk (ask.Patch path.now offset bytes.now)
        inodes.old.clock inodes.old.root inodes.new.root result }
    ensures refused { IsBeyondLimits (ask.Patch path.now offset bytes.now) → inodes.new ≡ inodes.old }
    ensures edits { EditsNumbers W.World F.Files (ask.Patch path.now offset bytes.now) inodes.old inodes.new result }
    ensures changes { inodes.new.changes ≡ inodes.old.changes }
    ensures counts { Counts path.now trail.old trail.new }
    ensures leads { LeadsToNeed path.now trail.new.positions inodes.new.root result }
{
    let count = bytes.len() as u64;
    if count > MAX_FILE {
        return Attempt::Finished(Reply::Err(Errno::EINVAL));
    }
    let seen = match meet_file(inodes, cache, alloc, path, trail) {
        Err(stop) => return ended(stop),
        Ok(seen) => seen,
    };
    if count == 0 {
        return Attempt::Finished(Reply::Count(0));
    }
    if offset > MAX_FILE - count {
        return Attempt::Finished(Reply::Err(Errno::EFBIG));
    }
    let form = Form::Written(offset, bytes);
    let stored = match refill(inodes, cache, alloc, path, seen.origin, form) {
        Err(stop) => return ended(stop),
        Ok(stored) => stored,
    };
    match stored {
        Ok(()) => Attempt::Finished(Reply::Count(count)),
        Err(fault) => Attempt::Finished(Reply::Fault(fault)),
    }
}
