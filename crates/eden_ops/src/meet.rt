//! What a request meets at a path.
ghost use Rattle.std.specs.Prelude.{◌≡◌, ◌∷◌, []};
ghost use Rattle.eden_inode.specs.Tables.{shows};
ghost use Rattle.eden_ops.specs.Attempts.{Meets, MeetsShown};
ghost use Rattle.eden_cache.specs.Stock.{FindsTheSame};
ghost use Rattle.eden_ops.specs.Keeping.{Keeps};
ghost use Rattle.eden_ops.specs.Stamps.{IsWalked};
ghost use Rattle.eden_ops.specs.Trails.{Counts};
ghost use Rattle.eden_inode.specs.Trails.{Leads};

use crate::bring::bring;
use crate::laws::keeps_laws;
use crate::walk_end::Stop;
use eden_cache::Stock;
use eden_coupling::shown_laws;
use eden_inode::{Inodes, Seen, Trail};
use eden_model::{Errno, Kind, Name, Path, World};
use eden_overlay::Files;
use std::alloc::{Allocator, Global};

/// The entry at a path, or None if the directory above it has none of that name; else why the walk over the directories
/// above it ends before. Those that aren't loaded are loaded, if that can be.
///
/// One look over the whole path, and one more for each directory that is loaded. None of them compares names if the
/// trail has positions.
fn pass<A: Allocator + Clone, W: World, F: Files<W>, C: Allocator + Clone>(
    inodes: &mut Inodes<A, W, F>,
    cache: &mut Stock<W, C>,
    alloc: Global,
    path: &[Name],
    trail: &mut Trail,
) -> Result<Option<Seen>, Stop>
    requires leads { Leads path.now trail.old.positions inodes.old.root }
    ensures meets { Meets W.World F.Files path.now inodes.old inodes.new cache.new result }
    ensures keeps { Keeps W.World F.Files (path.now ∷ []) inodes.old inodes.new }
    ensures cache { FindsTheSame cache.old cache.new }
    ensures walked { IsWalked path.now inodes.new.clock inodes.new.root }
    ensures leads { Leads path.now trail.new.positions inodes.new.root }
    ensures counts { Counts path.now trail.old trail.new }
{
    // This many directories from the root on are loaded.
    let mut loaded = 0;
    'fronts: loop {
        let seen = inodes.look_along(path, trail);
        if seen.names == path.len() {
            return Ok(Some(seen));
        }
        if seen.loaded {
            if seen.names + 1 == path.len() {
                return Ok(None);
            }
            return Err(Stop::Errs(Errno::ENOENT));
        }
        match seen.kind {
            Kind::File | Kind::Exec | Kind::Link => return Err(Stop::Errs(Errno::ENOTDIR)),
            Kind::Dir => bring(inodes, cache, alloc, &path[..seen.names], seen.origin)?,
        }
        loaded = seen.names + 1;
    }
}

/// What `pass` answers, and what that says of the tree that is shown.
pub(crate) fn meet<A: Allocator + Clone, W: World, F: Files<W>, C: Allocator + Clone>(
    inodes: &mut Inodes<A, W, F>,
    cache: &mut Stock<W, C>,
    alloc: Global,
    path: &Path,
    trail: &mut Trail,
) -> Result<Option<Seen>, Stop>
    requires leads { Leads path.now trail.old.positions inodes.old.root }
    ensures meets { Meets W.World F.Files path.now inodes.old inodes.new cache.new result }
    ensures shown { W.honest → MeetsShown W.World F.Files path.now inodes.old inodes.new result }
    ensures same { W.honest → shows W.World F.Files inodes.new ≡ shows W.World F.Files inodes.old }
    ensures keeps { Keeps W.World F.Files (path.now ∷ []) inodes.old inodes.new }
    ensures cache { FindsTheSame cache.old cache.new }
    ensures walked { IsWalked path.now inodes.new.clock inodes.new.root }
    ensures leads { Leads path.now trail.new.positions inodes.new.root }
    ensures counts { Counts path.now trail.old trail.new }
{
    keeps_laws::<W, F>();
    shown_laws();
    let met = pass(inodes, cache, alloc, path.as_slice(), trail);
    inodes.holds();
    met
}
