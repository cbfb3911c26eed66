//! A directory that was seen, loaded.
ghost use Rattle.std.specs.Prelude.{◌≡◌, ◌⊎◌, true, false, IfErr, OnOk, OnErr, ◌∷◌, []};
ghost use Rattle.eden_model.specs.declared.kind.Kind.TheVariants as kind;
ghost use Rattle.eden_inode.specs.Tables.{shows};
ghost use Rattle.eden_ops.specs.Attempts.{IsSeen, Lacks};
ghost use Rattle.eden_cache.specs.Stock.{FindsTheSame};
ghost use Rattle.eden_ops.specs.Keeping.{Keeps};
ghost use Rattle.eden_ops.specs.Known.{IsKnownLoadedAt};

use crate::bring::bring;
use crate::laws::keeps_laws;
use crate::walk_end::Stop;
use eden_cache::Stock;
use eden_inode::{Inodes, Seen};
use eden_model::{Path, World};
use eden_overlay::Files;
use std::alloc::{Allocator, Global};

/// Loads the directory that was seen at a path, unless it is loaded.
pub(crate) fn bring_seen<A: Allocator + Clone, W: World, F: Files<W>, C: Allocator + Clone>(
    inodes: &mut Inodes<A, W, F>,
    cache: &mut Stock<W, C>,
    alloc: Global,
    path: &Path,
    seen: Seen,
) -> Result<(), Stop>
    requires seen { IsSeen path.now inodes.old.root seen }
    requires dir { (seen.loaded ≡ true) ⊎ (seen.kind ≡ kind.Dir) }
    ensures ok { OnOk result (IsKnownLoadedAt path.now inodes.new.root) }
    ensures away { OnErr result (seen.loaded ≡ false) }
    ensures still { OnErr result (inodes.new.root ≡ inodes.old.root) }
    ensures lacks { IfErr result (Lacks W.World F.Files path.now inodes.old inodes.new cache.new) }
    ensures same { W.honest → shows W.World F.Files inodes.new ≡ shows W.World F.Files inodes.old }
    ensures keeps { Keeps W.World F.Files (path.now ∷ []) inodes.old inodes.new }
    ensures cache { FindsTheSame cache.old cache.new }
{
    keeps_laws::<W, F>();
    if seen.loaded {
        return Ok(());
    }
    bring(inodes, cache, alloc, path.as_slice(), seen.origin)
}
