//! What stands at a path.
ghost use Rattle.std.specs.Prelude.{[], ◌∷◌};
ghost use Rattle.eden_model.specs.declared.request.Request.TheVariants as ask;
ghost use Rattle.eden_ops.specs.Attempts.{Attempts};
ghost use Rattle.eden_ops.specs.Keeping.{Keeps};
ghost use Rattle.eden_ops.specs.Stamps.{IsWalked};
ghost use Rattle.eden_ops.specs.Trails.{Counts, LeadsToNeed};
ghost use Rattle.eden_inode.specs.Trails.{Leads};

use crate::ended::ended;
use crate::meet::meet;
use eden_cache::Stock;
use eden_inode::{Inodes, Trail};
use eden_model::{Attempt, Errno, Path, Reply, World};
use eden_overlay::Files;
use std::alloc::{Allocator, Global};

/// What stands at the path.
pub fn kind<A: Allocator + Clone, W: World, F: Files<W>, C: Allocator + Clone>(
    inodes: &mut Inodes<A, W, F>,
    cache: &mut Stock<W, C>,
    alloc: Global,
    path: &Path,
    trail: &mut Trail,
) -> Attempt
    requires leads { Leads path.now trail.old.positions inodes.old.root }
    ensures attempts { Attempts W.World F.Files (ask.Kind path.now) inodes.old inodes.new cache.old cache.new result }
    ensures keeps { Keeps W.World F.Files (path.now ∷ []) inodes.old inodes.new }
    ensures walked { IsWalked path.now inodes.new.clock inodes.new.root }
    ensures counts { Counts path.now trail.old trail.new }
    ensures leads { LeadsToNeed path.now trail.new.positions inodes.new.root result }
{
    match meet(inodes, cache, alloc, path, trail) {
        Err(stop) => ended(stop),
        Ok(None) => Attempt::Finished(Reply::Err(Errno::ENOENT)),
        Ok(Some(seen)) => Attempt::Finished(Reply::Kind(seen.kind)),
    }
}
