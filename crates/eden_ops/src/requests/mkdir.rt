//! A directory that is made.
ghost use Rattle.eden_model.specs.declared.request.Request.TheVariants as ask;
ghost use Rattle.eden_ops.specs.Attempts.{Attempts};
ghost use Rattle.eden_ops.specs.Renumbering.{EditsNumbers};
ghost use Rattle.eden_ops.specs.Leaving.{LeavesAfter, StampsItsWalk};
ghost use Rattle.eden_ops.specs.Trails.{Counts, LeadsToNeed};
ghost use Rattle.eden_inode.specs.Trails.{Leads};

use crate::add::add;
use eden_cache::Stock;
use eden_inode::{Inodes, Trail};
use eden_materialise::NewEntry;
use eden_model::{Attempt, Path, World};
use eden_overlay::Files;
use std::alloc::{Allocator, Global};

/// Makes a directory without entries.
pub fn mkdir<A: Allocator + Clone, W: World, F: Files<W>, C: Allocator + Clone>(
    inodes: &mut Inodes<A, W, F>,
    cache: &mut Stock<W, C>,
    alloc: Global,
    path: &Path,
    trail: &mut Trail,
) -> Attempt
    requires leads { Leads path.now trail.old.positions inodes.old.root }
    ensures attempts { Attempts W.World F.Files (ask.Mkdir path.now) inodes.old inodes.new cache.old cache.new result }
    ensures leaves { LeavesAfter W.World F.Files (ask.Mkdir path.now) inodes.old inodes.new result }
    ensures stamps { StampsItsWalk (ask.Mkdir path.now) inodes.old.clock inodes.old.root inodes.new.root result }
    ensures edits { EditsNumbers W.World F.Files (ask.Mkdir path.now) inodes.old inodes.new result }
    ensures counts { Counts path.now trail.old trail.new }
    ensures leads { LeadsToNeed path.now trail.new.positions inodes.new.root result }
{
    add(inodes, cache, alloc, path, NewEntry::Dir, trail)
}
