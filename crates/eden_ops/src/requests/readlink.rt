//! Targets of links.
ghost use Rattle.std.specs.Prelude.{[], ◌∷◌};
ghost use Rattle.eden_model.specs.declared.request.Request.TheVariants as ask;
ghost use Rattle.eden_ops.specs.Attempts.{Attempts};
ghost use Rattle.eden_ops.specs.Keeping.{Keeps};
ghost use Rattle.eden_ops.specs.Stamps.{IsWalked};
ghost use Rattle.eden_ops.specs.Trails.{Counts, LeadsToNeed};
ghost use Rattle.eden_inode.specs.Trails.{Leads};

use crate::content_part::part;
use crate::ended::ended;
use crate::entry_kind::what;
use crate::meet::meet;
use eden_cache::Stock;
use eden_inode::{Inodes, Trail};
use eden_model::{Attempt, Errno, Kind, MAX_FILE, Path, Reply, World};
use eden_overlay::Files;
use std::alloc::{Allocator, Global};

/// The target of a link.
pub fn readlink<A: Allocator + Clone, W: World, F: Files<W>, C: Allocator + Clone>(
    inodes: &mut Inodes<A, W, F>,
    cache: &mut Stock<W, C>,
    alloc: Global,
    path: &Path,
    trail: &mut Trail,
) -> Attempt
    requires leads { Leads path.now trail.old.positions inodes.old.root }
    ensures attempts { Attempts W.World F.Files
        (ask.ReadLink path.now) inodes.old inodes.new cache.old cache.new result }
    ensures keeps { Keeps W.World F.Files (path.now ∷ []) inodes.old inodes.new }
    ensures walked { IsWalked path.now inodes.new.clock inodes.new.root }
    ensures counts { Counts path.now trail.old trail.new }
    ensures leads { LeadsToNeed path.now trail.new.positions inodes.new.root result }
{
    let seen = match meet(inodes, cache, alloc, path, trail) {
        Err(stop) => return ended(stop),
        Ok(None) => return Attempt::Finished(Reply::Err(Errno::ENOENT)),
        Ok(Some(seen)) => seen,
    };
    match what(seen) {
        Kind::File | Kind::Exec => return Attempt::Finished(Reply::Err(Errno::EINVAL)),
        Kind::Dir => return Attempt::Finished(Reply::Err(Errno::EINVAL)),
        Kind::Link => {}
    }
    match part(inodes, cache, alloc, path, seen.origin, 0, MAX_FILE) {
        Err(stop) => ended(stop),
        Ok(bytes) => Attempt::Finished(Reply::Data(bytes)),
    }
}
