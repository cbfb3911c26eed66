//! The attempt of a walk that ends before its path does.
ghost use Rattle.std.specs.Prelude.{◌≡◌};
ghost use Rattle.eden_ops.specs.Attempts.{stopped};

use crate::walk_end::Stop;
use eden_model::{Attempt, Reply};

/// What the attempt answers.
pub(crate) fn ended(stop: Stop) -> Attempt
    ensures { result ≡ stopped stop }
{
    match stop {
        Stop::Errs(errno) => Attempt::Finished(Reply::Err(errno)),
        Stop::Needs(key) => Attempt::Need(key),
        Stop::Faults(fault) => Attempt::Finished(Reply::Fault(fault)),
    }
}
