ghost use Rattle.std.specs.Prelude.{◌≡◌, length, IfOk, IfErr, IsOk, MatchResult};
ghost use Rattle.eden_model.specs.Histories.{Legal};
ghost use Rattle.eden_shared.specs.Passes.{Agrees, AreEach};

use crate::account::Naming;
use crate::pass::Pass;
use crate::shared::Shared;
use eden_history::History;
use eden_model::World;
use eden_mount::{Attempts, Mount};
use std::alloc::Allocator;

/// A mount that was shared, and passes that aren't one of each number.
#[derive(Drop)]
pub struct Torn<W: World, T: Attempts<W> + Drop, A: Allocator, J: Naming, H: History> {
    pub mount: Mount<W, T, A, H>,
    pub passes: Vec<Pass<J>>,
}

impl<W: World, T: Attempts<W> + Drop, A: Allocator, J: Naming, H: History> Shared<W, T, A, J, H> {
    /// Gives the mount back, if each of its passes is there once: then nothing is pending, and the history's entries
    /// are what the passes were told, and no others. Else `Torn`, with mount and passes as they were. It takes no
    /// memory.
    pub fn finish(self, passes: Vec<Pass<J>>) -> Result<Mount<W, T, A, H>, Torn<W, T, A, J, H>>
        ensures ok { IfOk result (λ m. Agrees T.table m passes.items) }
        ensures torn { IfErr result (λ t. (t.passes.items ≡ passes.items) × (¬ Agrees T.table t.mount passes.items)) }
        ensures each { AreEach passes.items (length J.names) → IsOk result }
        ensures legal { W.honest → MatchResult result (λ m. Legal W.opening W.numbers m.history)
            (λ t. Legal W.opening W.numbers t.mount.history) }
    {
        let Shared { lock, .. } = self;
        let mut passes = passes;
        let mut locked = lock.into_inner();
        let whole = locked.agrees(&mut passes);
        let mount = locked.into_mount();
        mount.holds();
        if whole {
            Ok(mount)
        } else {
            Err(Torn { mount, passes })
        }
    }
}
