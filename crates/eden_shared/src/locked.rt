// What lies under the lock: the mount, whether it was stopped, and one end of each pass's tie.
ghost use Rattle.std.specs.Prelude.{◌≡◌, ◌+◌, ◌≤◌, ℕ, length, slice_get, Some, None, true, false};
ghost use Rattle.std.specs.Prelude.{IfOk, OnOk, OnErr, IfErr, IfSome, IfNone};
ghost use Rattle.eden_object.specs.Objects.{IsHonest};
ghost use Rattle.eden_mount.specs.Core.{Pends};
ghost use Rattle.eden_mount.specs.Steps.{IsRefused};
ghost use Rattle.eden_mount.specs.declared.seats.Pending as declared;
ghost use Rattle.eden_shared.specs.Accounts.{account, pended};
ghost use Rattle.eden_shared.specs.Answers.{after_answer};
ghost use Rattle.eden_shared.specs.Calls.{AnswersTo, IsHeldBack, IsLawful, IsRefusal};
ghost use Rattle.eden_shared.specs.Lanes.{HasName};
ghost use Rattle.eden_shared.specs.Fetched.{ComesTo};
ghost use Rattle.eden_shared.specs.Guarded.{guarded};
ghost use Rattle.eden_shared.specs.Passes.{Agrees, AreEach, Carried, IsKnown, carried};

use crate::account::{Account, Naming};
use crate::ends::Far;
use crate::gathered::have_each;
use crate::lanes::{Answered, Begun, Finishes, Lane, Starts, change, look};
use crate::pass::Pass;
use eden_history::History;
use eden_model::{CallFault, Cause, Key, Obstacle, Path, Request, StartFault, World};
use eden_mount::{Arrived, Attempts, Mount, Turned};
use std::alloc::Allocator;
use std::marker::{Model, PhantomData};
use std::snapshot::Snapshot;

/// Contracts see the mount, and whether it was stopped. What the ends hold are its seats, the entries of each pass, and
/// what the mount was opened with.
#[derive(Drop)]
pub struct Locked<W: World, T: Attempts<W> + Drop, A: Allocator, J: Naming, H: History> {
    pub(crate) mount: Mount<W, T, A, H>,
    pub(crate) stopped: bool,
    pub(crate) lanes: Vec<Lane>,
    pub(crate) names: PhantomData<J>,
}

impl<W: World, T: Attempts<W> + Drop, A: Allocator, J: Naming, H: History> Model
    for Locked<W, T, A, J, H> {
    ghost use Rattle.eden_shared.specs.Guarded.{Guarded, IsTied, guarded};

    ghost Value = { Guarded T };

    ghost view = { λ l. guarded l.mount l.stopped };

    ghost invariant = { λ l. IsTied T.table J.names l.lanes.items l.mount };
}

impl<W: World, T: Attempts<W> + Drop, A: Allocator, J: Naming, H: History> Locked<W, T, A, J, H> {
    /// Starts the request. How long the history was then.
    pub(crate) fn start(
        &mut self,
        number: u32,
        known: u64,
        end: &mut Far<Account>,
        request: Request,
    ) -> Result<u64, CallFault>
        requires lane { HasName J.names number end.old.name }
        requires free { end.old.value.pending ≡ None }
        ensures name { end.new.name ≡ end.old.name }
        ensures known { IfOk result (λ n. known ≤ n) }
        ensures pending { IfOk result (λ n. end.new.value
            ≡ account end.old.value.terms (Some (pended request n)) end.old.value.told) }
        ensures err { OnErr result (end.new.value ≡ end.old.value) }
        ensures why { IfErr result (IsLawful W.honest W.opening W.numbers
            (carried end.old.value.terms number (known + 1) end.old.value.told)) }
    {
        let since = match self.admit(number, known, end) {
            Ok(since) => since,
            Err(fault) => {
                drop(request);
                return Err(fault);
            }
        };
        match self.begin(number, end, request, since) {
            Ok(()) => Ok(since),
            Err(fault) => Err(CallFault::Start(fault)),
        }
    }

    /// Tests whether the pass may start a request: not after `stop`, and not before the history has come to its floor.
    /// How long the history is.
    fn admit(&mut self, number: u32, known: u64, end: &mut Far<Account>) -> Result<u64, CallFault>
        requires lane { HasName J.names number end.old.name }
        ensures same { self.new ≡ self.old }
        ensures end { (end.new.name ≡ end.old.name) × (end.new.value ≡ end.old.value) }
        ensures length { IfOk result (λ n. n ≡ length self.old.mount.history) }
        ensures heeded { OnOk result (self.old.stopped ≡ false) }
        ensures held { IfErr result (IsHeldBack self.old (known + 1)) }
        ensures known { IfOk result (λ n. known ≤ n) }
        ensures why { IfErr result (IsLawful W.honest W.opening W.numbers
            (carried end.old.value.terms number (known + 1) end.old.value.told)) }
    {
        look(&mut self.lanes, number as usize - 1, end);
        if self.stopped {
            return Err(CallFault::Stopped);
        }
        self.mount.holds();
        let length = self.mount.entries();
        if known > length {
            let floor = known.saturating_add(1);
            return Err(CallFault::Foreign { floor, length });
        }
        Ok(length)
    }

    /// Starts a request of a pass that has none pending.
    fn begin(
        &mut self,
        number: u32,
        end: &mut Far<Account>,
        request: Request,
        since: u64,
    ) -> Result<(), StartFault>
        requires lane { HasName J.names number end.old.name }
        requires free { end.old.value.pending ≡ None }
        requires since { since ≡ length self.old.mount.history }
        ensures name { end.new.name ≡ end.old.name }
        ensures ok { OnOk result (end.new.value
            ≡ account end.old.value.terms (Some (pended request since)) end.old.value.told) }
        ensures err { OnErr result (end.new.value ≡ end.old.value) }
        ensures refused { IfErr result (IsRefused self.old.mount number) }
        ensures why { IfErr result (IsRefusal W.honest W.opening W.numbers
            (carried end.old.value.terms number 0 end.old.value.told)) }
    {
        let at = number as usize - 1;
        look(&mut self.lanes, at, end);
        self.mount.holds();
        let asked = Snapshot::of(&request);
        match self.mount.start(number, request) {
            Err(fault) => Err(fault),
            Ok(()) => {
                let begun = Begun {
                    request: asked,
                    since,
                };
                change::<Begun, Starts>(&mut self.lanes, at, end, &begun);
                Ok(())
            }
        }
    }

    /// One try of the pending request.
    pub(crate) fn step(&mut self, number: u32, end: &mut Far<Account>) -> Option<Answered>
        requires { HasName J.names number end.old.name }
        ensures name { end.new.name ≡ end.old.name }
        ensures none { IfNone result (end.new.value ≡ end.old.value) }
        ensures some { IfSome result (λ a. end.new.value ≡ after_answer a end.old.value) }
        ensures answers { IfSome result (λ a.
            IfSome end.old.value.pending (AnswersTo W.honest W.opening W.numbers number a)) }
    {
        let at = number as usize - 1;
        look(&mut self.lanes, at, end);
        self.mount.holds();
        match self.mount.turn(number) {
            Turned::Done(number, reply) => {
                self.mount.holds();
                let answer = Answered { number, reply };
                change::<Answered, Finishes>(&mut self.lanes, at, end, &answer);
                Some(answer)
            }
            Turned::Wait(_) | Turned::Idle => None,
        }
    }

    /// From now on no request is started.
    pub(crate) fn stop(&mut self)
        ensures { self.new ≡ guarded self.old.mount true }
    {
        self.stopped = true;
    }

    /// Whether nothing will be wanted any more: it was stopped, and nothing is pending.
    pub(crate) fn is_over(&self) -> bool
        ensures stopped { result ≡ true → self.now.stopped ≡ true }
        ensures rests { result ≡ true → (c : ℕ) (s : declared.Pending) → ¬ Pends c s self.now.mount }
        ensures over { self.now.stopped ≡ true → ((c : ℕ) (s : declared.Pending) → ¬ Pends c s self.now.mount)
            → result ≡ true }
    {
        self.stopped && self.mount.busy().is_none()
    }

    /// The oldest key that is to be fetched.
    pub(crate) fn take_want(&mut self) -> Option<Key> {
        self.mount.take_want()
    }

    /// Takes what came for a key.
    pub(crate) fn arrive(&mut self, key: Key, framed: Vec<u8>) -> Arrived
        requires { W.honest → IsHonest W.repository key.id framed.items }
        ensures { ComesTo key framed.items result }
    {
        self.mount.arrive(key, framed)
    }

    /// A key is unavailable. False if nobody fetches it.
    pub(crate) fn fail(&mut self, key: Key, cause: Cause) -> bool {
        self.mount.fail(key, cause)
    }

    /// Unloads loaded directories. How many went.
    pub(crate) fn unload(&mut self, path: &Path, older_than: u64) -> u64 {
        self.mount.unload(path, older_than)
    }

    /// What kept the device from storing when it was to store last.
    pub(crate) fn obstacle(&self) -> Option<Obstacle> {
        self.mount.obstacle()
    }

    /// Waits for the disk. False if it isn't known that all is there.
    pub(crate) fn sync(&mut self) -> bool {
        self.mount.sync()
    }

    /// Looks at a pass: it has nothing pending, and was told its entries and nothing else.
    fn check(&mut self, pass: &mut Pass<J>)
        ensures lock { self.new ≡ self.old }
        ensures pass { pass.new ≡ pass.old }
        ensures known { IsKnown T.table self.old.mount pass.old }
    {
        look(&mut self.lanes, pass.number as usize - 1, &mut pass.end);
    }

    /// Looks at all of these passes.
    fn check_all(&mut self, passes: &mut Vec<Pass<J>>)
        ensures lock { self.new ≡ self.old }
        ensures passes { passes.new.items ≡ passes.old.items }
        ensures known { (k : ℕ) (p : Carried) → slice_get passes.old.items k ≡ Some p
            → IsKnown T.table self.old.mount p }
    {
        for i in 0..passes.len() {
            self.check(&mut passes[i]);
        }
    }

    /// Whether the passes are one of each number. Then nothing is pending, and they were told what the history says.
    pub(crate) fn agrees(&mut self, passes: &mut Vec<Pass<J>>) -> bool
        ensures lock { self.new ≡ self.old }
        ensures passes { passes.new.items ≡ passes.old.items }
        ensures yes { result ≡ true → Agrees T.table self.old.mount passes.old.items }
        ensures no { AreEach passes.old.items self.old.mount.queue.passes → result ≡ true }
        ensures count { length J.names ≡ self.old.mount.queue.passes }
    {
        self.mount.holds();
        self.check_all(passes);
        let count = self.mount.passes();
        if passes.len() != count as usize {
            return false;
        }
        have_each(passes.as_slice(), count)
    }

    /// The mount, as it is.
    pub(crate) fn into_mount(self) -> Mount<W, T, A, H>
        ensures { result ≡ self.mount }
    {
        let Locked { mount, .. } = self;
        mount
    }
}
