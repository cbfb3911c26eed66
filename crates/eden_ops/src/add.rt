//! An entry that is made.
ghost use Rattle.eden_model.specs.declared.request.Request as request;
ghost use Rattle.eden_ops.specs.Attempts.{Attempts};
ghost use Rattle.eden_ops.specs.Changes.{IsAdding};
ghost use Rattle.eden_ops.specs.Renumbering.{EditsNumbers};
ghost use Rattle.eden_ops.specs.Leaving.{LeavesAfter, StampsItsWalk};
ghost use Rattle.eden_ops.specs.Trails.{Counts, LeadsToNeed};
ghost use Rattle.eden_inode.specs.Trails.{Leads};

use crate::ended::ended;
use crate::laws::keeps_laws;
use crate::meet::meet;
use crate::settle::settle;
use eden_cache::Stock;
use eden_coupling::{numbering_laws, shown_laws};
use eden_inode::{Inodes, Trail};
use eden_materialise::{NewEntry, add_entry};
use eden_model::{Attempt, Errno, Path, Reply, World};
use eden_overlay::Files;
use std::alloc::{Allocator, Global};

/// Adds an entry at a path.
pub(crate) fn add<A: Allocator + Clone, W: World, F: Files<W>, C: Allocator + Clone>(
    inodes: &mut Inodes<A, W, F>,
    cache: &mut Stock<W, C>,
    alloc: Global,
    path: &Path,
    new: NewEntry<'_>,
    trail: &mut Trail,
) -> Attempt
    requires asked { (q : request.Request) × IsAdding path.now q new }
    requires leads { Leads path.now trail.old.positions inodes.old.root }
    ensures attempts { (q : request.Request) → IsAdding path.now q new.entry
        → Attempts W.World F.Files q inodes.old inodes.new cache.old cache.new result }
    ensures leaves { (q : request.Request) → IsAdding path.now q new.entry
        → LeavesAfter W.World F.Files q inodes.old inodes.new result }
    ensures stamps { (q : request.Request) → IsAdding path.now q new.entry
        → StampsItsWalk q inodes.old.clock inodes.old.root inodes.new.root result }
    ensures edits { (q : request.Request) → IsAdding path.now q new.entry
        → EditsNumbers W.World F.Files q inodes.old inodes.new result }
    ensures counts { Counts path.now trail.old trail.new }
    ensures leads { LeadsToNeed path.now trail.new.positions inodes.new.root result }
{
    let Some((name, above)) = path.as_slice().split_last() else {
        return Attempt::Finished(Reply::Err(Errno::EEXIST));
    };
    match meet(inodes, cache, alloc, path, trail) {
        Err(stop) => return ended(stop),
        Ok(Some(_)) => return Attempt::Finished(Reply::Err(Errno::EEXIST)),
        Ok(None) => {}
    }
    keeps_laws::<W, F>();
    shown_laws();
    numbering_laws();
    inodes.holds();
    if let Err(fault) = settle(inodes, alloc, path.as_slice()) {
        return Attempt::Finished(Reply::Fault(fault));
    }
    match add_entry(inodes, alloc, above, name, new) {
        Ok(()) => Attempt::Finished(Reply::Ok),
        Err(fault) => Attempt::Finished(Reply::Fault(fault)),
    }
}
