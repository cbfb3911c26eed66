//! Directories without entries.
ghost use Rattle.eden_model.specs.declared.request.Request.TheVariants as ask;
ghost use Rattle.eden_ops.specs.Attempts.{Attempts};
ghost use Rattle.eden_ops.specs.Renumbering.{EditsNumbers};
ghost use Rattle.eden_ops.specs.Leaving.{LeavesAfter, StampsItsWalk};
ghost use Rattle.eden_ops.specs.Trails.{Counts, LeadsToNeed};
ghost use Rattle.eden_inode.specs.Trails.{Leads};

use crate::bring_seen::bring_seen;
use crate::ended::ended;
use crate::entry_kind::what;
use crate::is_empty::is_empty;
use crate::letting_go::let_go;
use crate::meet::meet;
use crate::settle::settle;
use eden_cache::Stock;
use eden_coupling::numbering_laws;
use eden_inode::{Inodes, Trail};
use eden_materialise::remove_entry;
use eden_model::{Attempt, Errno, Kind, Path, Reply, World};
use eden_overlay::Files;
use std::alloc::{Allocator, Global};

/// Removes a directory that has no entries. It is loaded, to see that it has none, and unloaded before it goes.
pub fn rmdir<A: Allocator + Clone, W: World, F: Files<W>, C: Allocator + Clone>(
    inodes: &mut Inodes<A, W, F>,
    cache: &mut Stock<W, C>,
    alloc: Global,
    path: &Path,
    trail: &mut Trail,
) -> Attempt
    requires leads { Leads path.now trail.old.positions inodes.old.root }
    ensures attempts { Attempts W.World F.Files (ask.Rmdir path.now) inodes.old inodes.new cache.old cache.new result }
    ensures leaves { LeavesAfter W.World F.Files (ask.Rmdir path.now) inodes.old inodes.new result }
    ensures stamps { StampsItsWalk (ask.Rmdir path.now) inodes.old.clock inodes.old.root inodes.new.root result }
    ensures edits { EditsNumbers W.World F.Files (ask.Rmdir path.now) inodes.old inodes.new result }
    ensures counts { Counts path.now trail.old trail.new }
    ensures leads { LeadsToNeed path.now trail.new.positions inodes.new.root result }
{
    let Some((name, above)) = path.as_slice().split_last() else {
        return Attempt::Finished(Reply::Err(Errno::EBUSY));
    };
    let seen = match meet(inodes, cache, alloc, path, trail) {
        Err(stop) => return ended(stop),
        Ok(None) => return Attempt::Finished(Reply::Err(Errno::ENOENT)),
        Ok(Some(seen)) => seen,
    };
    match what(seen) {
        Kind::File | Kind::Exec | Kind::Link => {
            return Attempt::Finished(Reply::Err(Errno::ENOTDIR));
        }
        Kind::Dir => {}
    }
    if let Err(stop) = bring_seen(inodes, cache, alloc, path, seen) {
        return ended(stop);
    }
    if !is_empty(inodes, path) {
        return Attempt::Finished(Reply::Err(Errno::ENOTEMPTY));
    }
    numbering_laws();
    inodes.holds();
    if let Err(fault) = let_go(inodes, alloc, path.as_slice()) {
        return Attempt::Finished(Reply::Fault(fault));
    }
    if let Err(fault) = settle(inodes, alloc, path.as_slice()) {
        return Attempt::Finished(Reply::Fault(fault));
    }
    match remove_entry(inodes, alloc, above, name) {
        Ok(()) => Attempt::Finished(Reply::Ok),
        Err(fault) => Attempt::Finished(Reply::Fault(fault)),
    }
}
