ghost use Rattle.eden_fuse_shown.specs.Running.{Comes};

use crate::mount::{Mount, Unheard};
use eden_fuse_meaning::{Outcome, Step, meaning_laws, next};
use std::alloc::Global;

/// Makes a step's request of the mount, and those that follow its replies: at most three. What the message comes to.
pub(crate) fn run<M: Mount>(alloc: Global, mount: &mut M, step: Step) -> Result<Outcome, Unheard>
    ensures { Comes M.answers step mount.old result mount.new }
{
    meaning_laws();
    match step {
        Step::Tell(outcome) => Ok(outcome),
        Step::Ask(request, awaited) => match mount.ask(request) {
            Err(why) => Err(why),
            Ok(reply) => match next(alloc, awaited, reply) {
                Err(_) => Err(Unheard::Memory),
                Ok(step) => run(alloc, mount, step),
            },
        },
    }
}
