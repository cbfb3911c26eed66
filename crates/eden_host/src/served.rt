ghost use Rattle.std.specs.Prelude.{◌≡◌, MatchResult};
ghost use Rattle.eden_shared.specs.Accounts.{told_as};
ghost use Rattle.eden_shared.specs.Calls.{Grows, IsLawful};

use eden_history::History;
use eden_model::{CallFault, Path, Request, World};
use eden_mount::Attempts;
use eden_shared::{Answered, Naming, Pass, Shared};
use eden_source::Source;
use std::alloc::Allocator;
use std::sync::Wait;

/// A mount that threads share, as its guests and its fetchers see it: whatever its table, its allocator and its history
/// are.
pub trait Served<W: World, J: Naming> {
    /// Asks a request with that pass, and waits for its reply; or the pass stays as it was.
    fn ask<R: Wait>(
        &self,
        rt: &R,
        pass: &mut Pass<J>,
        request: Request,
    ) -> Result<Answered, CallFault>
        ensures { MatchResult result
            (λ a. Grows W.honest W.opening W.numbers pass.old (told_as a.number request a.reply) pass.new)
            (λ fault. IsLawful W.honest W.opening W.numbers pass.old fault × (pass.new ≡ pass.old)) };

    /// Unloads the loaded directories at and below the path that weren't used for this many turns. How many went.
    fn let_go<R: Wait>(&self, rt: &R, path: &Path, older_than: u64) -> u64;

    /// Fetches what callers wait for, until calls have ended and nothing is pending.
    fn fetch_wanted<S: Source<W>, R: Wait>(&self, rt: &R, source: &mut S);

    /// From now on new calls are answered `Stopped`; those that are pending continue.
    fn end_calls<R: Wait>(&self, rt: &R);
}

impl<W: World, T: Attempts<W> + Drop, A: Allocator, J: Naming, H: History> Served<W, J>
    for Shared<W, T, A, J, H> {
    fn ask<R: Wait>(
        &self,
        rt: &R,
        pass: &mut Pass<J>,
        request: Request,
    ) -> Result<Answered, CallFault> {
        pass.call(self, rt, request)
    }

    fn let_go<R: Wait>(&self, rt: &R, path: &Path, older_than: u64) -> u64 {
        self.unload(rt, path, older_than)
    }

    fn fetch_wanted<S: Source<W>, R: Wait>(&self, rt: &R, source: &mut S) {
        self.fetch_all(rt, source);
    }

    fn end_calls<R: Wait>(&self, rt: &R) {
        self.stop(rt);
    }
}
