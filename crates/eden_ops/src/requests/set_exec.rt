//! Files that can be executed, or can't.
ghost use Rattle.std.specs.Prelude.{◌≡◌, ◌≢◌, ◌∷◌, []};
ghost use Rattle.eden_model.specs.declared.kind.Kind.TheVariants as kinds;
ghost use Rattle.eden_model.specs.declared.request.Request.TheVariants as ask;
ghost use Rattle.eden_ops.specs.Already.{IsSoAlready};
ghost use Rattle.eden_ops.specs.Attempts.{Attempts};
ghost use Rattle.eden_ops.specs.Changes.{exec_kind};
ghost use Rattle.eden_ops.specs.Keeping.{Keeps};
ghost use Rattle.eden_ops.specs.Renumbering.{EditsNumbers};
ghost use Rattle.eden_ops.specs.Leaving.{LeavesAfter, StampsItsWalk};
ghost use Rattle.eden_ops.specs.Trails.{Counts, LeadsToNeed};
ghost use Rattle.eden_inode.specs.Trails.{Leads};

use crate::ended::ended;
use crate::laws::keeps_laws;
use crate::meet_file::meet_file;
use crate::settle::settle;
use eden_cache::Stock;
use eden_coupling::shown_laws;
use eden_inode::{Inodes, Trail};
use eden_materialise::set_kind;
use eden_model::{Attempt, Kind, Path, Reply, World};
use eden_overlay::Files;
use std::alloc::{Allocator, Global};

fn exec_kind(exec: bool) -> Kind
    ensures is { result ≡ exec_kind exec }
    ensures file { result ≢ kinds.Dir }
{
    if exec { Kind::Exec } else { Kind::File }
}

/// Makes a file one that can be executed, or one that can't. Its content isn't fetched. If it is so already nothing is
/// stored, and nothing changes.
pub fn set_exec<A: Allocator + Clone, W: World, F: Files<W>, C: Allocator + Clone>(
    inodes: &mut Inodes<A, W, F>,
    cache: &mut Stock<W, C>,
    alloc: Global,
    path: &Path,
    exec: bool,
    trail: &mut Trail,
) -> Attempt
    requires leads { Leads path.now trail.old.positions inodes.old.root }
    ensures attempts { Attempts W.World F.Files
        (ask.SetExec path.now exec) inodes.old inodes.new cache.old cache.new result }
    ensures leaves { LeavesAfter W.World F.Files (ask.SetExec path.now exec) inodes.old inodes.new result }
    ensures stamps { StampsItsWalk (ask.SetExec path.now exec)
        inodes.old.clock inodes.old.root inodes.new.root result }
    ensures already { IsSoAlready W.World F.Files (ask.SetExec path.now exec) inodes.old
        → Keeps W.World F.Files (path.now ∷ []) inodes.old inodes.new }
    ensures edits { EditsNumbers W.World F.Files (ask.SetExec path.now exec) inodes.old inodes.new result }
    ensures changes { inodes.new.changes ≡ inodes.old.changes }
    ensures counts { Counts path.now trail.old trail.new }
    ensures leads { LeadsToNeed path.now trail.new.positions inodes.new.root result }
{
    let seen = match meet_file(inodes, cache, alloc, path, trail) {
        Err(stop) => return ended(stop),
        Ok(seen) => seen,
    };
    let kind = exec_kind(exec);
    if seen.kind == kind {
        return Attempt::Finished(Reply::Ok);
    }
    keeps_laws::<W, F>();
    shown_laws();
    if let Err(fault) = settle(inodes, alloc, path.as_slice()) {
        return Attempt::Finished(Reply::Fault(fault));
    }
    inodes.holds();
    let Some((name, above)) = path.as_slice().split_last() else {
        unreachable!()
    };
    match set_kind(inodes, alloc, above, name, kind) {
        Ok(()) => Attempt::Finished(Reply::Ok),
        Err(fault) => Attempt::Finished(Reply::Fault(fault)),
    }
}
