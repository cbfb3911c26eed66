//! A closed overlay without its orphans.
ghost use Rattle.std.specs.Prelude.{◌≡◌, ◌≤◌, IfOk, IfErr, OnOk};
ghost use Rattle.eden_model.specs.declared.id.Id.{Id};
ghost use Rattle.std.specs.Ordering.{nat_cmp};
ghost use Rattle.std.specs.List.Sorted.{IsStrictlySortedBy};
ghost use Rattle.eden_overlay.specs.Soundness.{AreSound};
ghost use Rattle.eden_overlay.specs.Tidying.{ListsOrphans};
ghost use Rattle.eden_checkout.specs.declared.tidying.TidyFault.TheVariants as tidy;
ghost use Rattle.eden_checkout.specs.Tidying.{AreTidied, LackOrphans, CountsOrphans, IsClosed, IsClosedOver};
ghost use Rattle.eden_checkout.specs.Tidying.{IsTidyFault, IsTidyRefusal};
ghost use Rattle.eden_checkout.specs.Tidying.{ShowsSame, StaysClosed};

use crate::fault::OpenFault;
use crate::opening::stored_state;
use eden_model::World;
use eden_overlay::{Files, FilesFault, Overlay, Removed};
use std::alloc::Global;
use thiserror::Error;

/// Why an overlay wasn't tidied.
#[derive(Clone, Copy, Debug, PartialEq, Eq, Error)]
pub enum TidyFault {
    /// It isn't one that was closed, or that can be read. Nothing was removed.
    #[error("the overlay is not tidied: {0}")]
    Open(OpenFault),
    /// An orphan couldn't be removed. Those that were removed by then are gone.
    #[error("an orphan was not removed: {0}")]
    Remove(FilesFault),
}

impl From<OpenFault> for TidyFault {
    ghost from_gives = { λ e f. f ≡ tidy.Open e };

    fn from(fault: OpenFault) -> TidyFault {
        TidyFault::Open(fault)
    }
}

/// Removes the orphans of an overlay that was closed, or that has no files, over the commit's tree in its state, and
/// counts them. What is shown is the same, and whatever fails, what was closed is closed.
///
/// It is looked at as a rescan looks, from file 1 down, before anything is removed. Errors: `Open`, with `NotClean` if
/// there are files and no state, `Damaged`, `Dangling` and `Twice` of the first file that is met, `Device` and
/// `Memory`; `Remove` of the device.
pub fn tidy<W: World, F: Files<W>>(
    alloc: Global,
    overlay: &mut Overlay<W, F>,
) -> Result<Removed, TidyFault>
    ensures was_closed { W.honest → OnOk result (IsClosed (F.stored overlay.old)) }
    ensures tidied { W.honest → OnOk result (AreTidied (F.stored overlay.old) (F.stored overlay.new)) }
    ensures counted { W.honest → IfOk result (λ removed. (root : Id)
        → IsClosedOver root (F.stored overlay.old) → CountsOrphans (F.stored overlay.old) root removed) }
    ensures others { W.honest → LackOrphans (F.stored overlay.old) (F.stored overlay.new) }
    ensures shown { W.honest → ShowsSame (F.stored overlay.old) (F.stored overlay.new) }
    ensures closed { W.honest → StaysClosed (F.stored overlay.old) (F.stored overlay.new) }
    ensures fault { IfErr result (IsTidyFault W.honest (F.stored overlay.old) (F.stored overlay.new)
        (F.failures overlay.old) (F.failures overlay.new)) }
{
    let orphans = closed_orphans(alloc, overlay)?;
    let bytes = match overlay.bytes_in(&orphans) {
        Ok(bytes) => bytes,
        Err(fault) => return Err(TidyFault::Open(OpenFault::from(fault))),
    };
    match overlay.remove_orphans(&orphans) {
        Ok(()) => Ok(Removed {
            files: orphans.len() as u64,
            bytes,
        }),
        Err(fault) => Err(TidyFault::Remove(fault)),
    }
}

/// The orphans of an overlay that was closed, or that has no files.
fn closed_orphans<W: World, F: Files<W>>(
    alloc: Global,
    overlay: &mut Overlay<W, F>,
) -> Result<Vec<u64>, OpenFault>
    ensures was_closed { W.honest → OnOk result (IsClosed (F.stored overlay.old)) }
    ensures sound { W.honest → OnOk result (AreSound (F.stored overlay.old)) }
    ensures all { W.honest → IfOk result (λ v. (root : Id)
        → IsClosedOver root (F.stored overlay.old) → ListsOrphans v.items (F.stored overlay.old) root) }
    ensures rising { IfOk result (λ v. IsStrictlySortedBy nat_cmp v.items) }
    ensures refused { IfErr result
        (IsTidyRefusal W.honest (F.stored overlay.old) (F.failures overlay.old) (F.failures overlay.new)) }
    ensures unchanged { W.honest → F.stored overlay.new ≡ F.stored overlay.old }
    ensures counted { F.failures overlay.old ≤ F.failures overlay.new }
{
    let numbers = overlay.list(alloc)?;
    if numbers.is_empty() {
        return Ok(numbers);
    }
    let state = stored_state(alloc, overlay)?;
    Ok(overlay.orphans(alloc, state.root)?)
}
