ghost use Rattle.std.specs.Prelude.{◌≡◌};
ghost use Rattle.eden_model.specs.declared.fault.Fault.TheVariants as fault;
ghost use Rattle.eden_ops.specs.declared.walk_end.Stop.TheVariants as stop;

use eden_model::{Errno, Fault, Key};
use std::alloc::AllocError;

/// How the walk over the directories above a path ends.
#[derive(Clone, Copy, PartialEq, Eq)]
pub enum Walked {
    /// Each of them is a loaded directory.
    Through,
    /// The first that isn't there, or is no directory.
    Errs(Errno),
    /// The first that isn't loaded wants this object.
    Needs(Key),
    /// The first that isn't loaded can't be.
    Faults(Fault),
}

/// Why a walk ends before its path does.
#[derive(Clone, Copy)]
pub(crate) enum Stop {
    Errs(Errno),
    Needs(Key),
    Faults(Fault),
}

impl From<Fault> for Stop {
    ghost from_gives = { λ f s. s ≡ stop.Faults f };

    fn from(fault: Fault) -> Stop {
        Stop::Faults(fault)
    }
}

impl From<AllocError> for Stop {
    ghost from_gives = { λ _ s. s ≡ stop.Faults fault.Memory };

    fn from(_error: AllocError) -> Stop {
        Stop::Faults(Fault::Memory)
    }
}
