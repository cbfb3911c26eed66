//! Bytes of a file.
ghost use Rattle.std.specs.Prelude.{◌≡◌, [], ◌∷◌};
ghost use Rattle.eden_model.specs.declared.request.Request.TheVariants as ask;
ghost use Rattle.eden_ops.specs.Attempts.{Attempts};
ghost use Rattle.eden_ops.specs.Keeping.{Keeps};
ghost use Rattle.eden_ops.specs.Looks.{IsBeyondLimits};
ghost use Rattle.eden_ops.specs.Stamps.{IsWalked};
ghost use Rattle.eden_ops.specs.Trails.{Counts, LeadsToNeed};
ghost use Rattle.eden_inode.specs.Trails.{Leads};

use crate::content_part::part;
use crate::ended::ended;
use crate::meet_file::meet_file;
use eden_cache::Stock;
use eden_inode::{Inodes, Trail};
use eden_model::{Attempt, Bytes, Errno, MAX_DATA, Path, Reply, World};
use eden_overlay::Files;
use std::alloc::{Allocator, Global};

/// The bytes of a file from the offset on, at most this many; over 65,536 is refused.
pub fn read<A: Allocator + Clone, W: World, F: Files<W>, C: Allocator + Clone>(
    inodes: &mut Inodes<A, W, F>,
    cache: &mut Stock<W, C>,
    alloc: Global,
    path: &Path,
    offset: u64,
    count: u64,
    trail: &mut Trail,
) -> Attempt
    requires leads { Leads path.now trail.old.positions inodes.old.root }
    ensures attempts { Attempts W.World F.Files
        (ask.Read path.now offset count) inodes.old inodes.new cache.old cache.new result }
    ensures keeps { Keeps W.World F.Files (path.now ∷ []) inodes.old inodes.new }
    ensures walked { ¬ IsBeyondLimits (ask.Read path.now offset count)
        → IsWalked path.now inodes.new.clock inodes.new.root }
    ensures refused { IsBeyondLimits (ask.Read path.now offset count) → inodes.new ≡ inodes.old }
    ensures counts { Counts path.now trail.old trail.new }
    ensures leads { LeadsToNeed path.now trail.new.positions inodes.new.root result }
{
    if count > MAX_DATA {
        return Attempt::Finished(Reply::Err(Errno::EINVAL));
    }
    let seen = match meet_file(inodes, cache, alloc, path, trail) {
        Err(stop) => return ended(stop),
        Ok(seen) => seen,
    };
    if count == 0 {
        return Attempt::Finished(Reply::Data(Bytes::new(Vec::new(alloc))));
    }
    match part(inodes, cache, alloc, path, seen.origin, offset, count) {
        Err(stop) => ended(stop),
        Ok(bytes) => Attempt::Finished(Reply::Data(bytes)),
    }
}
