//! Whether a directory has entries.
ghost use Rattle.std.specs.Prelude.{◌≡◌, true, MatchBool};
ghost use Rattle.eden_model.specs.declared.node.Node.TheVariants.{Dir};
ghost use Rattle.eden_model.specs.Trees.{Here, reach};
ghost use Rattle.eden_inode.specs.Tables.{shows};
ghost use Rattle.eden_ops.specs.Known.{IsKnownLoadedAt};
ghost use Rattle.eden_ops.specs.Listings.{HasNoEntries, HasEntries};

use eden_coupling::shown_laws;
use eden_inode::Inodes;
use eden_model::{Path, World};
use eden_overlay::Files;
use std::alloc::Allocator;

/// Whether the directory that is loaded at a path has no entries.
pub(crate) fn is_empty<A: Allocator + Clone, W: World, F: Files<W>>(
    inodes: &Inodes<A, W, F>,
    path: &Path,
) -> bool
    requires { IsKnownLoadedAt path.now inodes.now.root }
    ensures entries { W.honest
        → MatchBool result (HasNoEntries (shows W.World F.Files inodes.now) path.now)
        (HasEntries (shows W.World F.Files inodes.now) path.now) }
    ensures here { W.honest → reach (shows W.World F.Files inodes.now) path.now ≡ Here (Dir true) }
{
    shown_laws();
    inodes.holds();
    match inodes.directory(path.as_slice()) {
        None => unreachable!(),
        Some(dir) => dir.count() == 0,
    }
}
