ghost use Rattle.std.specs.Prelude.{◌≡◌, IfOk, IfErr};
ghost use Rattle.eden_object.specs.Objects.{IsHonest};
ghost use Rattle.eden_source.specs.Fetching.{answer_of, IsSourceCause};
ghost use Rattle.eden_fallback.specs.Fallbacks.{Asks};

use eden_model::{Cause, Id, World};
use eden_source::Source;
use std::alloc::Global;
use std::marker::Model;

/// The objects of a source, and for what it lacks those of another.
///
/// Contracts see both, and how often an answer was `Device`.
#[derive(Drop)]
pub struct Fallback<A, B> {
    first: A,
    second: B,
    failures: u64,
}

impl<A, B> Model for Fallback<A, B> {
    ghost use Rattle.eden_fallback.specs.Fallbacks.{Pair};

    ghost Value = { Pair A B };

    ghost view = { λ s. record { first = s.first; second = s.second; failures = s.failures } };
}

impl<A, B> Fallback<A, B> {
    /// The objects of the first source, and of the second for what the first lacks. Nothing has failed yet.
    pub fn new(first: A, second: B) -> Self
        ensures { result ≡ record { first = first; second = second; failures = 0 } }
    {
        Fallback {
            first,
            second,
            failures: 0,
        }
    }
}

impl<W: World, A: Source<W>, B: Source<W>> Source<W> for Fallback<A, B> {
    ghost use Rattle.eden_fallback.specs.Fallbacks.{FetchedFromPair};

    ghost fetched = { FetchedFromPair A.fetched B.fetched };

    ghost failures = { λ s. s.failures };

    fn failures(&self) -> u64 {
        self.failures
    }

    fn fetch(&mut self, alloc: Global, id: Id) -> Result<Vec<u8>, Cause> {
        let answer = ask::<W, A, B>(&mut self.first, &mut self.second, alloc, id);
        if answer == Err(Cause::Device) {
            self.failures = self.failures.saturating_add(1);
        }
        answer
    }
}

// Asks the second source for what the first lacks.
fn ask<W: World, A: Source<W>, B: Source<W>>(
    first: &mut A,
    second: &mut B,
    alloc: Global,
    id: Id,
) -> Result<Vec<u8>, Cause>
    ensures asked { Asks A.fetched B.fetched (first.old, second.old) id (answer_of result) (first.new, second.new) }
    ensures honest { W.honest → IfOk result (λ v. IsHonest W.repository id v.items) }
    ensures causes { IfErr result IsSourceCause }
{
    let heard = first.fetch(alloc, id);
    if heard != Err(Cause::Missing) {
        return heard;
    }
    second.fetch(alloc, id)
}
