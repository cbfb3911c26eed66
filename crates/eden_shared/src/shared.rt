ghost use Rattle.std.specs.Prelude.{◌≡◌, ◌+◌, ◌≤◌, Some, None, IfOk, OnErr, IfErr, IfSome};
ghost use Rattle.eden_shared.specs.Accounts.{account, pended};
ghost use Rattle.eden_shared.specs.Answers.{after_answer};
ghost use Rattle.eden_shared.specs.Lanes.{HasName};
ghost use Rattle.eden_shared.specs.Calls.{AnswersTo, IsLawful};
ghost use Rattle.eden_shared.specs.Passes.{carried};

use crate::account::{Account, Naming};
use crate::ends::Far;
use crate::lanes::Answered;
use crate::locked::Locked;
use eden_history::History;
use eden_model::{CallFault, Obstacle, Path, Request, World};
use eden_mount::Attempts;
use eden_source::Source;
use std::alloc::{Allocator, Global};
use std::sync::{Condvar, Mutex, MutexGuard, Wait};

/// A mount that threads share. Each hold of its lock is one event of the mount or none, and nothing is fetched in one.
///
/// Callers wait on one condition for what they need, and fetchers on another for something to fetch.
#[derive(Drop)]
pub struct Shared<W: World, T: Attempts<W> + Drop, A: Allocator, J: Naming, H: History> {
    pub(crate) alloc: Global,
    pub(crate) lock: Mutex<Locked<W, T, A, J, H>>,
    pub(crate) callers: Condvar,
    pub(crate) fetchers: Condvar,
}

impl<W: World, T: Attempts<W> + Drop, A: Allocator, J: Naming, H: History> Shared<W, T, A, J, H> {
    /// Starts the request. How long the history was then.
    pub(crate) fn start<R: Wait>(
        &self,
        rt: &R,
        number: u32,
        known: u64,
        end: &mut Far<Account>,
        request: Request,
    ) -> Result<u64, CallFault>
        requires lane { HasName J.names number end.old.name }
        requires free { end.old.value.pending ≡ None }
        ensures name { end.new.name ≡ end.old.name }
        ensures known { IfOk result (λ n. known ≤ n) }
        ensures pending { IfOk result (λ n. end.new.value
            ≡ account end.old.value.terms (Some (pended request n)) end.old.value.told) }
        ensures err { OnErr result (end.new.value ≡ end.old.value) }
        ensures why { IfErr result (IsLawful W.honest W.opening W.numbers
            (carried end.old.value.terms number (known + 1) end.old.value.told)) }
    {
        self.lock.lock(rt).start(number, known, end, request)
    }

    /// Wakes the fetchers if nothing will be wanted any more.
    fn tell_over(&self, locked: &Locked<W, T, A, J, H>) {
        if locked.is_over() {
            self.fetchers.notify_all();
        }
    }

    /// Tries until the pending request is answered, and waits between two tries.
    pub(crate) fn wait_for<R: Wait>(&self, rt: &R, number: u32, end: &mut Far<Account>) -> Answered
        requires { HasName J.names number end.old.name }
        ensures name { end.new.name ≡ end.old.name }
        ensures account { end.new.value ≡ after_answer result end.old.value }
        ensures answers { IfSome end.old.value.pending (AnswersTo W.honest W.opening W.numbers number result) }
    {
        let mut guard = self.lock.lock(rt);
        for _ in rt.forever() {
            if let Some(answer) = guard.step(number, end) {
                self.tell_over(&guard);
                return answer;
            }
            self.fetchers.notify_one();
            guard = self.callers.wait(rt, guard);
        }
        unreachable!()
    }

    /// Fetches what is wanted, or waits if others fetch that. It releases the lock.
    fn fetch_or_wait<S: Source<W>, R: Wait>(
        &self,
        rt: &R,
        source: &mut S,
        mut guard: MutexGuard<'_, Locked<W, T, A, J, H>>,
    ) {
        match guard.take_want() {
            Some(key) => {
                drop(guard);
                self.fetch(rt, source, key);
            }
            None => drop(self.callers.wait(rt, guard)),
        }
    }

    /// Tries until the pending request is answered. Between two tries it fetches what is wanted, or waits if others
    /// fetch that.
    pub(crate) fn fetch_for<S: Source<W>, R: Wait>(
        &self,
        rt: &R,
        number: u32,
        end: &mut Far<Account>,
        source: &mut S,
    ) -> Answered
        requires { HasName J.names number end.old.name }
        ensures name { end.new.name ≡ end.old.name }
        ensures account { end.new.value ≡ after_answer result end.old.value }
        ensures answers { IfSome end.old.value.pending (AnswersTo W.honest W.opening W.numbers number result) }
    {
        for _ in rt.forever() {
            let mut guard = self.lock.lock(rt);
            if let Some(answer) = guard.step(number, end) {
                self.tell_over(&guard);
                return answer;
            }
            self.fetch_or_wait(rt, source, guard);
        }
        unreachable!()
    }

    /// From now on new calls are answered `Stopped`; those that are pending continue.
    pub fn stop<R: Wait>(&self, rt: &R) {
        self.lock.lock(rt).stop();
        self.fetchers.notify_all();
    }

    /// Unloads the loaded directories at and below the path that weren't used for this many turns. How many went.
    pub fn unload<R: Wait>(&self, rt: &R, path: &Path, older_than: u64) -> u64 {
        self.lock.lock(rt).unload(path, older_than)
    }

    /// What kept the device from storing when it was to store last; None if it stored, or didn't say.
    pub fn obstacle<R: Wait>(&self, rt: &R) -> Option<Obstacle> {
        self.lock.lock(rt).obstacle()
    }

    /// Waits until a loss of power would take nothing of what the mount stored, and holds the lock meanwhile. False if
    /// that isn't known.
    pub fn sync<R: Wait>(&self, rt: &R) -> bool {
        self.lock.lock(rt).sync()
    }
}
