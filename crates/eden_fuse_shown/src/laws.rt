// Laws of what is seen through a folder.
ghost use Rattle.eden_model.specs.Trees.{Tree};
ghost use Rattle.eden_fuse_shown.specs.Seeing.{
  BridgesAsWritten,
  IsSyncedAsSeen,
  IsThereOnceStored,
  LengthsAsSeen,
  LiesAsTold,
  LooksUnseen,
  PartsAsSeen,
  StoresUnseen,
  WaitsAsWritten,
};

use crate::mount::Mount;
use eden_fuse_nodes::node_laws;
use eden_model::change_laws;

/// A file's length and a part of it are told as they are with what waits for it.
///
/// Over any tree that follows a mount's replies: what is seen is that tree with what waits in it. A write that waits
/// makes of it what a write makes of a tree; so does one that waits with what the file has between, where the replies
/// are the tree's, and to look at that changes nothing that is seen. To store what waits changes nothing that is seen
/// either; and once nothing waits for a file, the mount has what was seen of it. Where an `fsync` was told no error,
/// the mount had what was seen of the file, and waited for the disk after that.
pub fn seeing_laws<M: Mount>()
    ensures lies { LiesAsTold }
    ensures lengths { LengthsAsSeen }
    ensures parts { PartsAsSeen }
    ensures waits { (tree : M → Tree) → WaitsAsWritten M.answers tree }
    ensures looks { (tree : M → Tree) → LooksUnseen M.answers tree }
    ensures bridges { (tree : M → Tree) → BridgesAsWritten M.answers tree }
    ensures stores { (tree : M → Tree) → StoresUnseen M.answers tree }
    ensures stored { (tree : M → Tree) → IsThereOnceStored M.answers tree }
    ensures synced { (tree : M → Tree) → IsSyncedAsSeen M.answers tree M.syncs }
{
    change_laws();
    node_laws();
}
