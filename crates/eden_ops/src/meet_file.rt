//! The file that a request is for.
ghost use Rattle.std.specs.Prelude.{◌≡◌, IfOk, IfErr, OnOk, ◌∷◌, []};
ghost use Rattle.eden_model.specs.declared.request.Request as request;
ghost use Rattle.eden_model.specs.Trees.{reach};
ghost use Rattle.eden_tree.specs.Paths.{row_at};
ghost use Rattle.eden_inode.specs.Tables.{shows};
ghost use Rattle.eden_ops.specs.Attempts.{Attempts, IsShown, stopped};
ghost use Rattle.eden_cache.specs.Stock.{FindsTheSame};
ghost use Rattle.eden_ops.specs.Requests.{IsForFile, IsFileSeen};
ghost use Rattle.eden_ops.specs.Keeping.{Keeps};
ghost use Rattle.eden_ops.specs.Stamps.{IsWalked};
ghost use Rattle.eden_ops.specs.Trails.{Counts};
ghost use Rattle.eden_inode.specs.Trails.{Leads};

use crate::entry_kind::what;
use crate::meet::meet;
use crate::walk_end::Stop;
use eden_cache::Stock;
use eden_inode::{Inodes, Seen, Trail};
use eden_model::{Errno, Kind, Path, World};
use eden_overlay::Files;
use std::alloc::{Allocator, Global};

/// The file at a path, or how the attempt of a request for it ends if it isn't met.
pub(crate) fn meet_file<A: Allocator + Clone, W: World, F: Files<W>, C: Allocator + Clone>(
    inodes: &mut Inodes<A, W, F>,
    cache: &mut Stock<W, C>,
    alloc: Global,
    path: &Path,
    trail: &mut Trail,
) -> Result<Seen, Stop>
    requires leads { Leads path.now trail.old.positions inodes.old.root }
    ensures file { IfOk result (IsFileSeen path.now inodes.new.root) }
    ensures shown { W.honest
        → OnOk result (IsShown W.repository (F.stored inodes.new.files) (row_at path.now inodes.new.root)
        (reach (shows W.World F.Files inodes.old) path.now)) }
    ensures ends { (q : request.Request) → IsForFile path.now q
        → IfErr result (λ z. Attempts W.World F.Files q inodes.old inodes.new cache.old cache.new (stopped z)) }
    ensures same { W.honest → shows W.World F.Files inodes.new ≡ shows W.World F.Files inodes.old }
    ensures keeps { Keeps W.World F.Files (path.now ∷ []) inodes.old inodes.new }
    ensures changes { inodes.new.changes ≡ inodes.old.changes }
    ensures walked { IsWalked path.now inodes.new.clock inodes.new.root }
    ensures cache { FindsTheSame cache.old cache.new }
    ensures counts { Counts path.now trail.old trail.new }
    ensures leads { Leads path.now trail.new.positions inodes.new.root }
{
    let seen = match meet(inodes, cache, alloc, path, trail) {
        Err(stop) => return Err(stop),
        Ok(None) => return Err(Stop::Errs(Errno::ENOENT)),
        Ok(Some(seen)) => seen,
    };
    match what(seen) {
        Kind::Link => Err(Stop::Errs(Errno::EINVAL)),
        Kind::Dir => Err(Stop::Errs(Errno::EISDIR)),
        Kind::File | Kind::Exec => Ok(seen),
    }
}
