//! Files that are cut, or filled up with zeros.
ghost use Rattle.std.specs.Prelude.{◌≡◌};
ghost use Rattle.eden_model.specs.declared.request.Request.TheVariants as ask;
ghost use Rattle.eden_ops.specs.Attempts.{Attempts};
ghost use Rattle.eden_ops.specs.Renumbering.{EditsNumbers};
ghost use Rattle.eden_ops.specs.Leaving.{LeavesAfter, StampsItsWalk};
ghost use Rattle.eden_ops.specs.Trails.{Counts, LeadsToNeed};
ghost use Rattle.eden_inode.specs.Trails.{Leads};

use crate::ended::ended;
use crate::fill::fill;
use crate::meet_file::meet_file;
use crate::refill::{Form, refill};
use eden_cache::Stock;
use eden_inode::{Inodes, Trail};
use eden_model::{Attempt, Errno, MAX_FILE, Path, Reply, World};
use eden_overlay::Files;
use eden_overlay_format::Spliced;
use std::alloc::{Allocator, Global};

/// Cuts a file to a size in bytes, or fills it up with zeros; over 2^30 is refused. To size 0 its content isn't
/// fetched. A fault leaves the file as it was.
pub fn truncate<A: Allocator + Clone, W: World, F: Files<W>, C: Allocator + Clone>(
    inodes: &mut Inodes<A, W, F>,
    cache: &mut Stock<W, C>,
    alloc: Global,
    path: &Path,
    size: u64,
    trail: &mut Trail,
) -> Attempt
    requires leads { Leads path.now trail.old.positions inodes.old.root }
    ensures attempts { Attempts W.World F.Files
        (ask.Truncate path.now size) inodes.old inodes.new cache.old cache.new result }
    ensures leaves { LeavesAfter W.World F.Files (ask.Truncate path.now size) inodes.old inodes.new result }
    ensures stamps { StampsItsWalk (ask.Truncate path.now size)
        inodes.old.clock inodes.old.root inodes.new.root result }
    ensures edits { EditsNumbers W.World F.Files (ask.Truncate path.now size) inodes.old inodes.new result }
    ensures changes { inodes.new.changes ≡ inodes.old.changes }
    ensures counts { Counts path.now trail.old trail.new }
    ensures leads { LeadsToNeed path.now trail.new.positions inodes.new.root result }
{
    let seen = match meet_file(inodes, cache, alloc, path, trail) {
        Err(stop) => return ended(stop),
        Ok(seen) => seen,
    };
    if size > MAX_FILE {
        return Attempt::Finished(Reply::Err(Errno::EFBIG));
    }
    if size == 0 {
        return match fill(inodes, alloc, path, Spliced::whole(&[])) {
            Ok(()) => Attempt::Finished(Reply::Ok),
            Err(fault) => Attempt::Finished(Reply::Fault(fault)),
        };
    }
    let form = Form::Resized(size);
    let stored = match refill(inodes, cache, alloc, path, seen.origin, form) {
        Err(stop) => return ended(stop),
        Ok(stored) => stored,
    };
    match stored {
        Ok(()) => Attempt::Finished(Reply::Ok),
        Err(fault) => Attempt::Finished(Reply::Fault(fault)),
    }
}
