//! What may go to a path.
ghost use Rattle.std.specs.Prelude.{◌≡◌, ◌∷◌, [], OnErr};
ghost use Rattle.eden_inode.specs.Tables.{shows};
ghost use Rattle.eden_cache.specs.Stock.{FindsTheSame};
ghost use Rattle.eden_ops.specs.Keeping.{Keeps};
ghost use Rattle.eden_ops.specs.Renames.{Lands, LandsShown};
ghost use Rattle.eden_ops.specs.Stamps.{IsWalked};
ghost use Rattle.eden_ops.specs.Trails.{Counts};
ghost use Rattle.eden_inode.specs.Trails.{Leads};

use crate::bring_seen::bring_seen;
use crate::entry_kind::what;
use crate::is_empty::is_empty;
use crate::meet::meet;
use crate::walk_end::Stop;
use eden_cache::Stock;
use eden_inode::{Inodes, Trail};
use eden_model::{Errno, Kind, Path, World};
use eden_overlay::Files;
use std::alloc::{Allocator, Global};

/// Whether a directory, or else a file or a link, may go to a path: nothing stands there, or what it may replace.
///
/// Errors: those of the walk over the directories above; `ENOTDIR` for a directory over what is none, `EISDIR` for a
/// file or a link over a directory, and `ENOTEMPTY` for a directory over one with entries, which is loaded for that.
pub(crate) fn land<A: Allocator + Clone, W: World, F: Files<W>, C: Allocator + Clone>(
    inodes: &mut Inodes<A, W, F>,
    cache: &mut Stock<W, C>,
    alloc: Global,
    path: &Path,
    dir: bool,
    trail: &mut Trail,
) -> Result<(), Stop>
    requires leads { Leads path.now trail.old.positions inodes.old.root }
    ensures lands { Lands W.World F.Files path.now dir inodes.old inodes.new cache.new result }
    ensures shown { W.honest → LandsShown W.World F.Files path.now dir inodes.old result }
    ensures same { W.honest → shows W.World F.Files inodes.new ≡ shows W.World F.Files inodes.old }
    ensures keeps { Keeps W.World F.Files (path.now ∷ []) inodes.old inodes.new }
    ensures cache { FindsTheSame cache.old cache.new }
    ensures walked { IsWalked path.now inodes.new.clock inodes.new.root }
    ensures counts { Counts path.now trail.old trail.new }
    ensures leads { OnErr result (Leads path.now trail.new.positions inodes.new.root) }
{
    let seen = match meet(inodes, cache, alloc, path, trail) {
        Err(stop) => return Err(stop),
        Ok(None) => return Ok(()),
        Ok(Some(seen)) => seen,
    };
    match what(seen) {
        Kind::File | Kind::Exec | Kind::Link => {
            if dir {
                return Err(Stop::Errs(Errno::ENOTDIR));
            }
            return Ok(());
        }
        Kind::Dir => {}
    }
    if !dir {
        return Err(Stop::Errs(Errno::EISDIR));
    }
    match bring_seen(inodes, cache, alloc, path, seen) {
        Err(stop) => return Err(stop),
        Ok(()) => {}
    }
    if is_empty(inodes, path) {
        return Ok(());
    }
    Err(Stop::Errs(Errno::ENOTEMPTY))
}
