//! The state that is left in an overlay when it is closed.
ghost use Rattle.std.specs.Prelude.{◌≡◌, ◌≤◌, Err, OnOk, OnErr};
ghost use Rattle.eden_model.specs.Limits.{number_least, number_end};
ghost use Rattle.eden_model.specs.Failures.{Counted};
ghost use Rattle.eden_overlay.specs.declared.files.FilesFault.TheVariants as files;
ghost use Rattle.eden_overlay.specs.Held.{HoldsState, with_state};
ghost use Rattle.eden_inode.specs.Tables.{shows, ShowsSameNumbers};
ghost use Rattle.eden_checkout.specs.Closing.{Leaves, as_files};

use eden_coupling::chain_laws;
use eden_inode::Inodes;
use eden_model::{Fault, Id, World};
use eden_overlay::{Files, FilesFault, Overlay};
use eden_overlay_format::State;
use eden_tree::{Change, Entry};
use std::alloc::{Allocator, Global};

/// The state is stored; nothing in memory changes.
#[derive(Drop)]
struct StateStored {
    alloc: Global,
    state: State,
}

impl<A: Allocator, W: World, F: Files<W>> Change<A, Overlay<W, F>> for StateStored {
    type Output = Result<(), FilesFault>;

    ghost may = { λ stored overlay x. (number_least ≤ stored.state.next) × (stored.state.next ≤ number_end) };

    ghost does = { λ stored old x new z answer.
        Leaves W.honest stored.state (F.stored old) x (F.failures old) (F.stored new) z (F.failures new) answer };

    fn change(self, overlay: &mut Overlay<W, F>, _entry: &mut Entry<A>) -> Result<(), FilesFault> {
        overlay.put_state(self.alloc, self.state)
    }
}

/// Stores the state of a table: the commit's tree that it stands on, and the next number. After an error nothing has
/// changed.
pub(crate) fn store_state<A: Allocator + Clone, W: World, F: Files<W>>(
    inodes: &mut Inodes<A, W, F>,
    alloc: Global,
    root: Id,
) -> Result<(), FilesFault>
    ensures root { inodes.new.root ≡ inodes.old.root }
    ensures ok { W.honest
        → OnOk result (F.stored inodes.new.files ≡ with_state (F.stored inodes.old.files)
        (record { root = root; next = inodes.old.next })) }
    ensures held { W.honest
        → OnOk result (HoldsState (F.stored inodes.new.files) (record { root = root; next = inodes.old.next })) }
    ensures err { W.honest → OnErr result (F.stored inodes.new.files ≡ F.stored inodes.old.files) }
    ensures same { W.honest → shows W.World F.Files inodes.new ≡ shows W.World F.Files inodes.old }
    ensures numbers { W.honest → ShowsSameNumbers F.Files inodes.old inodes.new }
    ensures counted { Counted (result ≡ Err files.Device) (F.failures inodes.old.files) (F.failures inodes.new.files) }
    ensures rest { (inodes.new.next ≡ inodes.old.next) × (inodes.new.clock ≡ inodes.old.clock) }
{
    chain_laws();
    inodes.holds();
    let state = State {
        root,
        next: inodes.next_number(),
    };
    inodes.change(StateStored { alloc, state })
}

/// A fault of the stored files, as a close reports it.
pub(crate) fn as_files(fault: Fault) -> FilesFault
    ensures { result ≡ as_files fault }
{
    match fault {
        Fault::Overlay => FilesFault::Device,
        Fault::Fetch(..) | Fault::Memory | Fault::Numbers => FilesFault::Memory,
    }
}
