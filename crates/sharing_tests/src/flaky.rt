//! A source of a commit's objects that fails now and then.

use crate::clients::Pace;
use eden_model::{Cause, Id, Key, ObjKind, Outside};
use eden_source::Source;
use std::alloc::Global;
use std::sync::{Mutex, Wait};
use test_random::Commit;
use test_samples::random;

/// One fetch of this many fails.
const ONE_IN: u32 = 10;

/// A fetch that failed, and when it did.
#[derive(Clone, Copy)]
pub(crate) struct Failure {
    pub(crate) id: Id,
    pub(crate) at: u64,
}

/// The objects of a commit. Each failure is noted.
#[derive(Drop)]
pub(crate) struct Flaky<'a, R: Wait> {
    pub(crate) rt: &'a R,
    pub(crate) pace: &'a Pace,
    pub(crate) commit: &'a Commit,
    pub(crate) failed: &'a Mutex<Vec<Failure>>,
    pub(crate) seed: u64,
    pub(crate) failures: u64,
}

/// Whether the repository itself is the cause.
pub(crate) fn is_flaw(commit: &Commit, id: Id, cause: Cause) -> bool {
    let blob = Key {
        kind: ObjKind::Blob,
        id,
    };
    commit.flaw(blob) == Some(cause) || (cause == Cause::Missing && commit.framed(id).is_none())
}

impl<R: Wait> Flaky<'_, R> {
    /// Notes that a fetch fails. False if there is no memory for that.
    fn note(&self, id: Id) -> bool {
        let at = self.pace.now();
        let mut failed = self.failed.lock(self.rt);
        failed.push(Failure { id, at }).is_ok()
    }
}

impl<R: Wait> Source<Outside> for Flaky<'_, R> {
    ghost fetched = { λ _ _ _ _. Unit {0} };

    ghost failures = { λ s. s.failures };

    fn failures(&self) -> u64 {
        self.failures
    }

    fn fetch(&mut self, alloc: Global, id: Id) -> Result<Vec<u8>, Cause> {
        if random(&mut self.seed) % ONE_IN == 0 {
            if !self.note(id) {
                return Err(Cause::Memory);
            }
            self.failures = self.failures.saturating_add(1);
            return Err(Cause::Device);
        }
        match self.commit.framed(id) {
            Some(framed) => Vec::from_slice(alloc, framed).map_err(|_| Cause::Memory),
            None => Err(Cause::Missing),
        }
    }
}
