//! The walk over the directories above a path.
ghost use Rattle.eden_ops.specs.Attempts.{Reaches, EndsShown};
ghost use Rattle.eden_ops.specs.Stamps.{IsWalked};
ghost use Rattle.eden_ops.specs.Trails.{Counts};
ghost use Rattle.eden_inode.specs.Trails.{Leads};

use crate::meet::meet;
use crate::walk_end::{Stop, Walked};
use eden_cache::Stock;
use eden_inode::{Inodes, Trail};
use eden_model::{Path, World};
use eden_overlay::Files;
use std::alloc::{Allocator, Global};

/// The walk over the directories above a path, the shortest first: each that isn't loaded is loaded, or the walk ends
/// there.
///
/// If they are loaded already, it takes one look-up for each name and no memory.
pub fn reach<A: Allocator + Clone, W: World, F: Files<W>, C: Allocator + Clone>(
    inodes: &mut Inodes<A, W, F>,
    cache: &mut Stock<W, C>,
    alloc: Global,
    path: &Path,
    trail: &mut Trail,
) -> Walked
    requires leads { Leads path.now trail.old.positions inodes.old.root }
    ensures reaches { Reaches W.World F.Files path.now inodes.old inodes.new cache.old cache.new result }
    ensures shown { W.honest → EndsShown W.World F.Files path.now inodes.old result }
    ensures walked { IsWalked path.now inodes.new.clock inodes.new.root }
    ensures counts { Counts path.now trail.old trail.new }
    ensures leads { Leads path.now trail.new.positions inodes.new.root }
{
    match meet(inodes, cache, alloc, path, trail) {
        Ok(_) => Walked::Through,
        Err(Stop::Errs(errno)) => Walked::Errs(errno),
        Err(Stop::Needs(key)) => Walked::Needs(key),
        Err(Stop::Faults(fault)) => Walked::Faults(fault),
    }
}
