//! A link that is made.
ghost use Rattle.std.specs.Prelude.{◌≡◌};
ghost use Rattle.eden_model.specs.declared.request.Request.TheVariants as ask;
ghost use Rattle.eden_ops.specs.Attempts.{Attempts};
ghost use Rattle.eden_ops.specs.Renumbering.{EditsNumbers};
ghost use Rattle.eden_ops.specs.Leaving.{LeavesAfter, StampsItsWalk};
ghost use Rattle.eden_ops.specs.Looks.{IsBeyondLimits};
ghost use Rattle.eden_ops.specs.Trails.{Counts, LeadsToNeed};
ghost use Rattle.eden_inode.specs.Trails.{Leads};

use crate::add::add;
use eden_cache::Stock;
use eden_inode::{Inodes, Trail};
use eden_materialise::NewEntry;
use eden_model::{Attempt, Errno, MAX_TARGET, Path, Reply, World};
use eden_overlay::Files;
use std::alloc::{Allocator, Global};

/// Makes a link to a target of 1 to 4,095 bytes.
pub fn symlink<A: Allocator + Clone, W: World, F: Files<W>, C: Allocator + Clone>(
    inodes: &mut Inodes<A, W, F>,
    cache: &mut Stock<W, C>,
    alloc: Global,
    path: &Path,
    target: &[u8],
    trail: &mut Trail,
) -> Attempt
    requires leads { Leads path.now trail.old.positions inodes.old.root }
    ensures attempts { Attempts W.World F.Files
        (ask.Symlink path.now target.now) inodes.old inodes.new cache.old cache.new result }
    ensures leaves { LeavesAfter W.World F.Files (ask.Symlink path.now target.now) inodes.old inodes.new result }
    ensures stamps { StampsItsWalk (ask.Symlink path.now target.now)
        inodes.old.clock inodes.old.root inodes.new.root result }
    ensures refused { IsBeyondLimits (ask.Symlink path.now target.now) → inodes.new ≡ inodes.old }
    ensures edits { EditsNumbers W.World F.Files (ask.Symlink path.now target.now) inodes.old inodes.new result }
    ensures counts { Counts path.now trail.old trail.new }
    ensures leads { LeadsToNeed path.now trail.new.positions inodes.new.root result }
{
    if target.is_empty() {
        return Attempt::Finished(Reply::Err(Errno::ENOENT));
    }
    if target.len() as u64 > MAX_TARGET {
        return Attempt::Finished(Reply::Err(Errno::ENAMETOOLONG));
    }
    add(inodes, cache, alloc, path, NewEntry::Link(target), trail)
}
