//! Entries of a directory.
ghost use Rattle.std.specs.Prelude.{◌≡◌, ◌∷◌, []};
ghost use Rattle.eden_model.specs.declared.request.Request.TheVariants as ask;
ghost use Rattle.eden_ops.specs.Attempts.{Attempts};
ghost use Rattle.eden_ops.specs.Keeping.{Keeps};
ghost use Rattle.eden_ops.specs.Looks.{IsBeyondLimits};
ghost use Rattle.eden_ops.specs.Stamps.{IsWalked};
ghost use Rattle.eden_ops.specs.Trails.{Counts, LeadsToNeed};
ghost use Rattle.eden_inode.specs.Trails.{Leads};

use crate::bring_seen::bring_seen;
use crate::ended::ended;
use crate::entry_kind::what;
use crate::meet::meet;
use crate::pages::page_at;
use eden_cache::Stock;
use eden_inode::{Inodes, Trail};
use eden_model::{Attempt, Errno, Fault, Kind, MAX_ENTRIES, Name, Path, Reply, World};
use eden_overlay::Files;
use std::alloc::{Allocator, Global};

/// The entries of a directory whose names come after the given one, each with its kind: at most this many, 1 to 1,000,
/// and whether others come after them.
pub fn list<A: Allocator + Clone, W: World, F: Files<W>, C: Allocator + Clone>(
    inodes: &mut Inodes<A, W, F>,
    cache: &mut Stock<W, C>,
    alloc: Global,
    path: &Path,
    after: &Option<Name>,
    limit: u64,
    trail: &mut Trail,
) -> Attempt
    requires leads { Leads path.now trail.old.positions inodes.old.root }
    ensures attempts { Attempts W.World F.Files
        (ask.List path.now after.now limit) inodes.old inodes.new cache.old cache.new result }
    ensures keeps { Keeps W.World F.Files (path.now ∷ []) inodes.old inodes.new }
    ensures walked { ¬ IsBeyondLimits (ask.List path.now after.now limit)
        → IsWalked path.now inodes.new.clock inodes.new.root }
    ensures refused { IsBeyondLimits (ask.List path.now after.now limit) → inodes.new ≡ inodes.old }
    ensures counts { Counts path.now trail.old trail.new }
    ensures leads { LeadsToNeed path.now trail.new.positions inodes.new.root result }
{
    if limit == 0 || limit > MAX_ENTRIES {
        return Attempt::Finished(Reply::Err(Errno::EINVAL));
    }
    let seen = match meet(inodes, cache, alloc, path, trail) {
        Err(stop) => return ended(stop),
        Ok(None) => return Attempt::Finished(Reply::Err(Errno::ENOENT)),
        Ok(Some(seen)) => seen,
    };
    match what(seen) {
        Kind::File | Kind::Exec | Kind::Link => {
            return Attempt::Finished(Reply::Err(Errno::ENOTDIR));
        }
        Kind::Dir => {}
    }
    if let Err(stop) = bring_seen(inodes, cache, alloc, path, seen) {
        return ended(stop);
    }
    match page_at(inodes, alloc, path, after, limit) {
        Err(_) => Attempt::Finished(Reply::Fault(Fault::Memory)),
        Ok(reply) => Attempt::Finished(reply),
    }
}
