ghost use Rattle.std.specs.Prelude.{◌≡◌, MatchResult};
ghost use Rattle.eden_shared.specs.Accounts.{told_as};
ghost use Rattle.eden_shared.specs.Calls.{Grows, IsLawful};

use eden_history::History;
use eden_model::{CallFault, Obstacle, Path, Request, World};
use eden_mount::Attempts;
use eden_shared::{Answered, Naming, Pass, Shared};
use eden_source::Source;
use std::alloc::Allocator;
use std::sync::Wait;

/// A mount that a folder's threads share, whatever its table, its allocator and its history are.
pub(crate) trait Asking<W: World, J: Naming> {
    /// Asks a request with that pass, fetches from the source what it needs, and waits for its reply; or the pass
    /// stays as it was.
    fn ask<S: Source<W>, R: Wait>(
        &self,
        rt: &R,
        pass: &mut Pass<J>,
        source: &mut S,
        request: Request,
    ) -> Result<Answered, CallFault>
        ensures { MatchResult result
            (λ a. Grows W.honest W.opening W.numbers pass.old (told_as a.number request a.reply) pass.new)
            (λ fault. IsLawful W.honest W.opening W.numbers pass.old fault × (pass.new ≡ pass.old)) };

    /// Unloads the loaded directories at and below the path that weren't used for this many turns. How many went.
    fn let_go<R: Wait>(&self, rt: &R, path: &Path, older_than: u64) -> u64;

    /// What kept the device from storing when it was to store last, whoever asked for that.
    fn obstacle<R: Wait>(&self, rt: &R) -> Option<Obstacle>;

    /// Waits until a loss of power would take nothing that was replied to. False if that isn't known.
    fn sync<R: Wait>(&self, rt: &R) -> bool;
}

impl<W: World, T: Attempts<W> + Drop, A: Allocator, J: Naming, H: History> Asking<W, J>
    for Shared<W, T, A, J, H> {
    fn ask<S: Source<W>, R: Wait>(
        &self,
        rt: &R,
        pass: &mut Pass<J>,
        source: &mut S,
        request: Request,
    ) -> Result<Answered, CallFault> {
        pass.call_by(self, rt, source, request)
    }

    fn let_go<R: Wait>(&self, rt: &R, path: &Path, older_than: u64) -> u64 {
        self.unload(rt, path, older_than)
    }

    fn obstacle<R: Wait>(&self, rt: &R) -> Option<Obstacle> {
        self.obstacle(rt)
    }

    fn sync<R: Wait>(&self, rt: &R) -> bool {
        self.sync(rt)
    }
}

impl<W: World, J: Naming, C: Asking<W, J>> Asking<W, J> for &C {
    fn ask<S: Source<W>, R: Wait>(
        &self,
        rt: &R,
        pass: &mut Pass<J>,
        source: &mut S,
        request: Request,
    ) -> Result<Answered, CallFault> {
        (**self).ask(rt, pass, source, request)
    }

    fn let_go<R: Wait>(&self, rt: &R, path: &Path, older_than: u64) -> u64 {
        (**self).let_go(rt, path, older_than)
    }

    fn obstacle<R: Wait>(&self, rt: &R) -> Option<Obstacle> {
        (**self).obstacle(rt)
    }

    fn sync<R: Wait>(&self, rt: &R) -> bool {
        (**self).sync(rt)
    }
}
