//! Files that a close left.

ghost use Rattle.std.specs.Prelude.{◌≡◌, ◌≤◌, ℕ, IsSome, IfErr, OnOk};
ghost use Rattle.eden_snapshot.specs.Closing.{AreClosedOn, HaveStateOf, IsClosedFault};
ghost use Rattle.eden_snapshot.specs.declared.closed.ClosedFault.TheVariants as closed;

use eden_model::{Id, World};
use eden_overlay::{Files, FilesFault, GetFault, Overlay};
use eden_overlay_format::Refusal;
use std::alloc::Global;
use thiserror::Error;

/// Why files aren't those of a closed overlay on a commit's tree.
#[derive(Clone, Copy, Debug, PartialEq, Eq, Error)]
pub enum ClosedFault {
    /// There are files and no state: they are open, or a run was killed.
    #[error("the overlay wasn't closed")]
    NotClean,
    /// They stand on this tree.
    #[error("the overlay stands on another tree")]
    OtherRoot(Id),
    /// Their state is damaged.
    #[error("the state is damaged: {0}")]
    Damaged(Refusal),
    /// The device failed.
    #[error("the device failed")]
    Device,
    /// No memory.
    #[error("out of memory")]
    Memory,
}

impl From<FilesFault> for ClosedFault {
    ghost use Rattle.eden_snapshot.specs.Closing.{of_files};

    ghost from_gives = { λ e f. f ≡ of_files e };

    fn from(e: FilesFault) -> ClosedFault {
        match e {
            FilesFault::Device => ClosedFault::Device,
            FilesFault::Memory => ClosedFault::Memory,
        }
    }
}

/// Sees that an overlay was closed on the tree `root`, or has no files: so that what its files show is what its mount
/// showed at the end, and nobody has it open. Only its state is read.
pub fn expect_closed<W: World, F: Files<W>>(
    alloc: Global,
    root: Id,
    overlay: &mut Overlay<W, F>,
) -> Result<(), ClosedFault>
    ensures closed { W.honest → OnOk result (AreClosedOn root (F.stored overlay.old)) }
    ensures refused { IfErr result
        (IsClosedFault W.honest root (F.stored overlay.old) (F.failures overlay.old) (F.failures overlay.new)) }
    ensures unchanged { W.honest → F.stored overlay.new ≡ F.stored overlay.old }
{
    let numbers = overlay.list(alloc)?;
    if numbers.is_empty() {
        return Ok(());
    }
    expect_state(alloc, root, overlay)
}

// Sees that the state of an overlay that has files stands on the tree `root`.
fn expect_state<W: World, F: Files<W>>(
    alloc: Global,
    root: Id,
    overlay: &mut Overlay<W, F>,
) -> Result<(), ClosedFault>
    requires some { W.honest → (k : ℕ) × IsSome (F.stored overlay.old k) }
    ensures closed { W.honest → OnOk result (HaveStateOf root (F.stored overlay.old)) }
    ensures refused { IfErr result
        (IsClosedFault W.honest root (F.stored overlay.old) (F.failures overlay.old) (F.failures overlay.new)) }
    ensures unchanged { W.honest → F.stored overlay.new ≡ F.stored overlay.old }
{
    match overlay.get_state(alloc) {
        Err(GetFault::Absent) => Err(ClosedFault::NotClean),
        Err(GetFault::Damaged(refusal)) => Err(ClosedFault::Damaged(refusal)),
        Err(GetFault::Device) => Err(ClosedFault::Device),
        Err(GetFault::Memory) => Err(ClosedFault::Memory),
        Ok(state) => {
            if state.root != root {
                return Err(ClosedFault::OtherRoot(state.root));
            }
            Ok(())
        }
    }
}
