ghost use Rattle.eden_shared.specs.Fetched.{FetchesOne};

use crate::account::Naming;
use crate::shared::Shared;
use eden_history::History;
use eden_model::{Cause, Key, World};
use eden_mount::{Arrived, Attempts};
use eden_source::Source;
use std::alloc::Allocator;
use std::sync::Wait;

/// What came of a fetch.
#[derive(Clone, Copy, PartialEq, Eq)]
pub enum Fetched {
    /// No key is queued, or as many are in flight as may be.
    Nothing,
    /// The object is cached.
    Stored(Key),
    /// The source couldn't give the object, or its bytes are no use: whoever waits for the key is told so.
    Failed(Key, Cause),
    /// Nobody has the key in flight. No fetcher meets this.
    Stray(Key),
}

impl<W: World, T: Attempts<W> + Drop, A: Allocator, J: Naming, H: History> Shared<W, T, A, J, H> {
    /// Fetches the oldest key that callers wait for, and hands in what came. The lock isn't held while the source is
    /// asked.
    pub fn fetch_one<S: Source<W>, R: Wait>(&self, rt: &R, source: &mut S) -> Fetched
        ensures { FetchesOne S.fetched source.old result source.new }
    {
        let wanted = self.lock.lock(rt).take_want();
        match wanted {
            None => Fetched::Nothing,
            Some(key) => self.fetch(rt, source, key),
        }
    }

    /// Fetches as `fetch_one` does, and waits if nothing is wanted, until `stop` was called and nothing is pending.
    pub fn fetch_all<S: Source<W>, R: Wait>(&self, rt: &R, source: &mut S) {
        for _ in rt.forever() {
            let Some(key) = self.next_want(rt) else {
                return;
            };
            self.fetch(rt, source, key);
        }
    }

    /// Waits for a key that is to be fetched. None once nothing will be wanted any more.
    fn next_want<R: Wait>(&self, rt: &R) -> Option<Key> {
        let mut guard = self.lock.lock(rt);
        for _ in rt.forever() {
            if let Some(key) = guard.take_want() {
                return Some(key);
            }
            if guard.is_over() {
                return None;
            }
            guard = self.fetchers.wait(rt, guard);
        }
        unreachable!()
    }

    /// Asks the source for a key in flight, and hands in what came: callers try again, and one more key may be in
    /// flight.
    pub(crate) fn fetch<S: Source<W>, R: Wait>(&self, rt: &R, source: &mut S, key: Key) -> Fetched
        ensures { FetchesOne S.fetched source.old result source.new }
    {
        let fetched = match source.fetch(self.alloc, key.id) {
            Ok(framed) => match self.lock.lock(rt).arrive(key, framed) {
                Arrived::Stored => Fetched::Stored(key),
                Arrived::Refused(cause) => Fetched::Failed(key, cause),
                Arrived::Stray => Fetched::Stray(key),
            },
            Err(cause) => {
                if self.lock.lock(rt).fail(key, cause) {
                    Fetched::Failed(key, cause)
                } else {
                    Fetched::Stray(key)
                }
            }
        };
        self.callers.notify_all();
        self.fetchers.notify_one();
        fetched
    }
}
