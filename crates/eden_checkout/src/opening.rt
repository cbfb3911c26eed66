//! What stands in an overlay when it is opened.
ghost use Rattle.std.specs.Prelude.{◌≡◌, ◌≤◌, ℕ, IsSome, OnOk, OnErr, IfOk, IfErr};
ghost use Rattle.eden_model.specs.declared.id.Id.{Id};
ghost use Rattle.eden_model.specs.Limits.{number_least, number_end};
ghost use Rattle.eden_overlay_format.specs.State.{IsGoodState};
ghost use Rattle.eden_overlay.specs.Held.{HoldsState, without};
ghost use Rattle.eden_checkout.specs.declared.opening.Opening.TheVariants as opening;
ghost use Rattle.eden_checkout.specs.Opening.{Starts, IsRescanned, IsRootOf, IsRefusal};

use crate::fault::OpenFault;
use eden_model::{Id, Origin, World};
use eden_overlay::{Files, GetFault, Overlay};
use eden_overlay_format::State;
use std::alloc::Global;

/// How an overlay is opened.
#[derive(Clone, Copy, Debug, PartialEq, Eq)]
pub enum Opening {
    /// By the state that a close left, or over no files.
    Closed,
    /// By what the directories say, as a run that was killed left them. A state is passed over.
    Rescan,
}

/// The number of the state's file.
const STATE_FILE: u64 = 0;

/// The first number that is given to an inode beside the root.
const FIRST_NUMBER: u64 = 2;

/// Where the root comes from, and the number that is given next.
#[derive(Clone, Copy)]
pub(crate) struct Start {
    pub(crate) origin: Origin,
    pub(crate) next: u64,
}

/// The state of an overlay that has files, whatever tree it stands on.
pub(crate) fn stored_state<W: World, F: Files<W>>(
    alloc: Global,
    overlay: &mut Overlay<W, F>,
) -> Result<State, OpenFault>
    requires some { W.honest → (k : ℕ) × IsSome (F.stored overlay.old k) }
    ensures ok { W.honest → IfOk result (HoldsState (F.stored overlay.old)) }
    ensures good { IfOk result IsGoodState }
    ensures refused { IfErr result (λ fault. (root : Id)
        → IsRefusal opening.Closed W.honest root (F.stored overlay.old)
        (F.failures overlay.old) (F.failures overlay.new) fault) }
    ensures unchanged { W.honest → F.stored overlay.new ≡ F.stored overlay.old }
    ensures unfailed { OnOk result (F.failures overlay.new ≡ F.failures overlay.old) }
    ensures counted { F.failures overlay.old ≤ F.failures overlay.new }
{
    match overlay.get_state(alloc) {
        Err(GetFault::Absent) => Err(OpenFault::NotClean),
        Err(GetFault::Damaged(refusal)) => Err(OpenFault::Damaged(STATE_FILE, refusal)),
        Err(GetFault::Device) => Err(OpenFault::Device),
        Err(GetFault::Memory) => Err(OpenFault::Memory),
        Ok(state) => Ok(state),
    }
}

/// The state of an overlay that has files, which stands on that tree.
fn state_of<W: World, F: Files<W>>(
    alloc: Global,
    overlay: &mut Overlay<W, F>,
    root: Id,
) -> Result<State, OpenFault>
    requires some { W.honest → (k : ℕ) × IsSome (F.stored overlay.old k) }
    ensures ok { W.honest → IfOk result (HoldsState (F.stored overlay.old)) }
    ensures root { IfOk result (λ s. s.root ≡ root) }
    ensures good { IfOk result IsGoodState }
    ensures refused { IfErr result
        (IsRefusal opening.Closed W.honest root (F.stored overlay.old)
        (F.failures overlay.old) (F.failures overlay.new)) }
    ensures unchanged { W.honest → F.stored overlay.new ≡ F.stored overlay.old }
    ensures counted { F.failures overlay.old ≤ F.failures overlay.new }
{
    let state = stored_state(alloc, overlay)?;
    if state.root != root {
        return Err(OpenFault::OtherRoot(state.root));
    }
    Ok(state)
}

/// The next number by what the directories say.
fn rescanned<W: World, F: Files<W>>(
    alloc: Global,
    overlay: &mut Overlay<W, F>,
    root: Id,
) -> Result<u64, OpenFault>
    ensures found { W.honest → IfOk result (IsRescanned root (F.stored overlay.old)) }
    ensures least { IfOk result (λ next. number_least ≤ next) }
    ensures most { IfOk result (λ next. next ≤ number_end) }
    ensures refused { IfErr result
        (IsRefusal opening.Rescan W.honest root (F.stored overlay.old)
        (F.failures overlay.old) (F.failures overlay.new)) }
    ensures unchanged { W.honest → F.stored overlay.new ≡ F.stored overlay.old }
    ensures counted { F.failures overlay.old ≤ F.failures overlay.new }
{
    match overlay.rescan(alloc, root) {
        Ok(next) => Ok(next),
        Err(fault) => Err(OpenFault::from(fault)),
    }
}

/// Looks at the files, and removes the state as the last act, if there are files.
pub(crate) fn begin<W: World, F: Files<W>>(
    alloc: Global,
    overlay: &mut Overlay<W, F>,
    root: Id,
    opening: Opening,
) -> Result<Start, OpenFault>
    ensures ok { W.honest → IfOk result (Starts opening root (F.stored overlay.old)) }
    ensures stored { W.honest → OnOk result (F.stored overlay.new ≡ without (F.stored overlay.old) 0) }
    ensures root { IfOk result (λ start. IsRootOf root start.origin) }
    ensures least { IfOk result (λ start. number_least ≤ start.next) }
    ensures most { IfOk result (λ start. start.next ≤ number_end) }
    ensures refused { IfErr result
        (IsRefusal opening W.honest root (F.stored overlay.old) (F.failures overlay.old) (F.failures overlay.new)) }
    ensures unchanged { W.honest → OnErr result (F.stored overlay.new ≡ F.stored overlay.old) }
{
    let numbers = overlay.list(alloc)?;
    if numbers.is_empty() {
        return Ok(Start {
            origin: Origin::Object(root),
            next: FIRST_NUMBER,
        });
    }
    let next = match opening {
        Opening::Closed => state_of(alloc, overlay, root)?.next,
        Opening::Rescan => rescanned(alloc, overlay, root)?,
    };
    let origin = if overlay.is_rooted()? {
        Origin::Own
    } else {
        Origin::Object(root)
    };
    overlay.remove_state()?;
    Ok(Start { origin, next })
}
