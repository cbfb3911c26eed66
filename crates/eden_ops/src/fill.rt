//! A content in the place of another.
ghost use Rattle.std.specs.Prelude.{◌≤◌, ◌^◌, length};
ghost use Rattle.eden_model.specs.Limits.{most_file};
ghost use Rattle.eden_tree.specs.Directory.{Row};
ghost use Rattle.eden_ops.specs.Contents.{IsFileAt};
ghost use Rattle.eden_ops.specs.Refilling.{Fills};

use crate::settle::settle;
use eden_coupling::shown_laws;
use eden_inode::Inodes;
use eden_materialise::store_content;
use eden_model::{Fault, Path, World};
use eden_overlay::Files;
use eden_overlay_format::Spliced;
use std::alloc::{Allocator, Global};

/// Stores a content of at most 2^30 bytes for the file or link at a path, which isn't loaded. The old content isn't
/// asked for. The directories above that are unsaved are stored first. Errors: `Overlay` if the device failed, and
/// `Memory`; what is shown is as before then.
pub(crate) fn fill<A: Allocator + Clone, W: World, F: Files<W>>(
    inodes: &mut Inodes<A, W, F>,
    alloc: Global,
    path: &Path,
    content: Spliced<'_>,
) -> Result<(), Fault>
    requires there { (y : Row) × IsFileAt path.now inodes.old.root y }
    requires short { length content ≤ most_file }
    ensures { Fills W.World F.Files path.now inodes.old inodes.new content.entry result }
{
    shown_laws();
    inodes.holds();
    let Some((name, above)) = path.as_slice().split_last() else {
        unreachable!()
    };
    if let Err(fault) = settle(inodes, alloc, path.as_slice()) {
        return Err(fault);
    }
    store_content(inodes, alloc, above, name, content)
}
