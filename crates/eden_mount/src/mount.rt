ghost use Rattle.std.specs.Prelude.{◌≡◌, ◌<◌, ◌≤◌, ◌++◌, ℕ, true, false, [], length, Some, IfOk, IfErr, OnOk, OnErr};
ghost use Rattle.std.specs.Prelude.{IfSome, IfNone};
ghost use Rattle.eden_model.specs.declared.id.Key as keys;
ghost use Rattle.eden_model.specs.Backing.{Backs};
ghost use Rattle.eden_model.specs.Histories.{Legal, replay};
ghost use Rattle.eden_model.specs.Numbers.{replay_numbers};
ghost use Rattle.eden_import.specs.Keys.{has_key};
ghost use Rattle.eden_object.specs.Objects.{IsHonest};
ghost use Rattle.eden_mount.specs.Core.{Pends, IsFree, IsLeastBusy, pending_count, taken_room};
ghost use Rattle.eden_mount.specs.Steps.{IsRefused, Starts, Asks, Turns, GoesOn, Takes};
ghost use Rattle.eden_mount.specs.Steps.{Arrives, Fails, LetsGo, IsSynced};
ghost use Rattle.eden_mount.specs.Events.{IsHonestEvent, AreHonest, Steps};
ghost use Rattle.eden_mount.specs.Spans.{request_of, since_of, waits_of, heard_by, flies_in, told_in_run, asked_after};
ghost use Rattle.eden_mount.specs.Spans.{waits_after, AreAnswered, AreNumbered, AreBlamed, AreFlown};
ghost use Rattle.eden_mount.specs.Kept.{IsMount, core_from};
ghost use Rattle.eden_mount.specs.Serving.{IsAtRest};
ghost use Rattle.eden_mount.specs.declared.seats.Pending as declared;

use crate::arrival::keep;
use crate::attempts::Attempts;
use crate::events::{Arrived, Event, Outcome, Turned};
use crate::room::Room;
use crate::seats::{Pending, count, occupy, request_at, vacate};
use crate::settling::{Settled, resume};
use eden_history::{History, Kept};
use eden_import::Imports;
use eden_model::{Cause, Entry, Key, Obstacle, Path, Request, StartFault, World, backing_laws};
use std::alloc::{AllocError, Allocator, Global};
use std::marker::{Model, PhantomData};

/// Requests of many passes over one table, and the history of what they were told.
///
/// A pass is a caller's seat, numbered from 1, with at most one pending request. Each call that may change the mount is
/// one atomic step. If the outside is honest, the history is at every moment one that the whole tree has, changed by
/// one caller at a time, with the inode numbers that its replies returned, and the table shows the tree after it. That
/// is so whether the history keeps its entries or only counts them.
#[derive(Drop)]
pub struct Mount<W: World, T: Attempts<W> + Drop, A: Allocator, H: History> {
    alloc: Global,
    table: T,
    imports: Imports<A>,
    seats: Vec<Option<Pending>>,
    /// Where each pass's request waits, as far as there was memory for it.
    places: Vec<Option<T::Place>>,
    history: H,
    world: PhantomData<W>,
}

impl<W: World, T: Attempts<W> + Drop, A: Allocator, H: History> Model for Mount<W, T, A, H> {
    ghost use Rattle.eden_mount.specs.Core.{Core};
    ghost use Rattle.eden_mount.specs.Kept.{IsHeld, core_from};
    ghost use Rattle.eden_mount.specs.Places.{AllLead};

    ghost Value = { Core T };

    ghost view = { λ m. core_from m.table m.imports m.seats.items (H.entries m.history) (H.limit m.history) };

    ghost invariant = { λ m. IsHeld T.table W.honest W.opening W.numbers (H.room m.history)
        (core_from m.table m.imports m.seats.items (H.entries m.history) (H.limit m.history))
        × AllLead T.leads m.table m.seats.items m.places.items };
}

impl<W: World, T: Attempts<W> + Drop, A: Allocator, H: History> Mount<W, T, A, H> {
    /// A mount over a table that shows the opening tree, and numbers that back the opening ones, with an empty history.
    /// Nothing is pending.
    pub fn new(room: Room<A>, table: T, history: H) -> Self
        requires shown { W.honest → T.table.shown table ≡ W.opening }
        requires backed { W.honest → Backs W.numbers (T.table.numbers table) (T.table.next table) }
        requires empty { H.entries history ≡ [] }
        ensures value { result ≡ core_from table room.queue room.seats [] (H.limit history) }
        ensures rest { IsAtRest result }
    {
        let Room {
            alloc,
            imports,
            seats,
        } = room;
        let _ = history.limit();
        Mount {
            alloc,
            table,
            imports,
            seats,
            places: Vec::new(alloc),
            history,
            world: PhantomData,
        }
    }

    /// Gives the table back as it stands, whatever is pending.
    pub fn into_table(self) -> T
        ensures { result ≡ self.table }
    {
        let Mount { table, .. } = self;
        table
    }

    /// What holds of every mount.
    pub fn holds(&self)
        ensures { IsMount T.table W.honest W.opening W.numbers self.now }
    {
        let _ = &self.table;
    }

    /// How many passes there are.
    pub fn passes(&self) -> u32
        ensures { result ≡ self.now.queue.passes }
    {
        self.imports.passes()
    }

    /// How many entries the history has.
    pub fn entries(&self) -> u64
        ensures { result ≡ length self.now.history }
    {
        self.history.len()
    }

    /// The least pass with a pending request.
    pub fn busy(&self) -> Option<u32>
        ensures some { IfSome result (IsLeastBusy self.now) }
        ensures none { IfNone result ((c : ℕ) (s : declared.Pending) → ¬ Pends c s self.now) }
    {
        let passes = self.imports.passes();
        for seat in 0..passes {
            if self.seats[seat as usize].is_some() {
                return Some(seat + 1);
            }
        }
        None
    }

    /// Takes a request. The faults are tested in the order `NoPass`, `Busy`, `HistoryFull`, `Memory`, and leave the
    /// mount as it was. Room for the entry is made here, so that no later call needs memory for it.
    pub fn start(&mut self, pass: u32, request: Request) -> Result<(), StartFault>
        ensures { Starts self.old pass request result self.new }
    {
        match self.admit(pass) {
            Err(fault) => {
                drop(request);
                Err(fault)
            }
            Ok(pending) => self.take_seat(pass, request, pending),
        }
    }

    /// Starts the request of a pass that may start one, beside this many that are pending, if memory has room for its
    /// entry.
    fn take_seat(&mut self, pass: u32, request: Request, pending: usize) -> Result<(), StartFault>
        requires pending { pending ≡ pending_count self.old.seats }
        requires free { IsFree pass self.old }
        requires room { taken_room self.old < self.old.limit }
        ensures { Starts self.old pass request result self.new }
    {
        let Ok(()) = self.history.reserve(pending + 1) else {
            drop(request);
            return Err(StartFault::Memory);
        };
        let since = self.history.len();
        occupy(
            &mut self.seats,
            pass as usize - 1,
            Pending { request, since },
        );
        Ok(())
    }

    /// Takes a request and attempts it at once, as `start` and then `turn` do, but one that is finished so takes no
    /// seat. The faults are those of `start`.
    pub fn ask(&mut self, pass: u32, request: Request) -> Result<Turned, StartFault>
        ensures { Asks T.table W.honest H.copies self.old pass request result self.new }
    {
        match self.admit(pass) {
            Err(fault) => {
                drop(request);
                Err(fault)
            }
            Ok(pending) => self.try_at_once(pass, request, pending),
        }
    }

    /// Attempts the request of a pass that may start one, beside this many that are pending, if memory has room for its
    /// entry.
    fn try_at_once(
        &mut self,
        pass: u32,
        request: Request,
        pending: usize,
    ) -> Result<Turned, StartFault>
        requires pending { pending ≡ pending_count self.old.seats }
        requires free { IsFree pass self.old }
        requires room { taken_room self.old < self.old.limit }
        ensures { Asks T.table W.honest H.copies self.old pass request result self.new }
    {
        let Ok(()) = self.history.reserve(1 + pending) else {
            drop(request);
            return Err(StartFault::Memory);
        };
        backing_laws();
        let table = &mut self.table;
        table.tick();
        let seat = pass as usize - 1;
        let failed = self.imports.failure(pass);
        let places = &mut self.places;
        match resume::<W, T>(self.alloc, table, &request, failed, places, seat) {
            Settled::Waits(key) => {
                let since = self.history.len();
                occupy(&mut self.seats, seat, Pending { request, since });
                self.imports.await_key(key, pass);
                Ok(Turned::Wait(key))
            }
            Settled::Found(found) => {
                self.imports.quit(pass);
                let reply = self.history.tell(self.alloc, pass, request, found);
                Ok(Turned::Done(self.history.len(), reply))
            }
        }
    }

    /// Tests whether the pass may start a request, but for memory. How many are pending now.
    fn admit(&self, pass: u32) -> Result<usize, StartFault>
        ensures pending { IfOk result (λ pending. pending ≡ pending_count self.now.seats) }
        ensures admitted { OnOk result (IsFree pass self.now × (taken_room self.now < self.now.limit)) }
        ensures refused { IfErr result (IsRefused self.now pass) }
    {
        if pass == 0 || pass > self.imports.passes() {
            return Err(StartFault::NoPass);
        }
        if self.seats[pass as usize - 1].is_some() {
            return Err(StartFault::Busy);
        }
        let pending = count(self.seats.as_slice());
        let limit = self.history.limit();
        if self.history.len() + pending as u64 >= limit {
            return Err(StartFault::HistoryFull(limit));
        }
        Ok(pending)
    }

    /// Goes on with the pass's request: it finishes, and its entry is written, or it waits for a key and for no other.
    ///
    /// It continues at the place where it waited if no name has changed since, and else from the root. A place that
    /// finds no memory isn't kept.
    ///
    /// The clock advances first. A mark of a failed key is used now or dropped: if the request still needs that key, it
    /// is told `Fetch`. If the history copies replies, one that finds no memory for its copy is `Memory`, which a
    /// change's never is.
    pub fn turn(&mut self, pass: u32) -> Turned
        ensures { Turns T.table W.honest H.copies self.old pass result self.new }
    {
        self.table.tick();
        if !self.has_pending(pass) {
            return Turned::Idle;
        }
        self.go_on(pass)
    }

    /// Whether the pass has a request pending.
    fn has_pending(&self, pass: u32) -> bool
        ensures yes { result ≡ true → (s : declared.Pending) × Pends pass s self.now }
        ensures no { result ≡ false → (s : declared.Pending) → ¬ Pends pass s self.now }
    {
        if pass == 0 || pass > self.imports.passes() {
            return false;
        }
        self.seats[pass as usize - 1].is_some()
    }

    /// A turn of a pass that has a request pending, after the clock advanced.
    fn go_on(&mut self, pass: u32) -> Turned
        requires { (s : declared.Pending) × Pends pass s self.old }
        ensures { GoesOn T.table W.honest H.copies self.old pass result self.new }
    {
        backing_laws();
        let seat = pass as usize - 1;
        let mark = self.imports.failure(pass);
        let request = request_at(self.seats.as_slice(), seat);
        let places = &mut self.places;
        match resume::<W, T>(self.alloc, &mut self.table, request, mark, places, seat) {
            Settled::Waits(key) => {
                self.imports.await_key(key, pass);
                Turned::Wait(key)
            }
            Settled::Found(found) => {
                self.imports.quit(pass);
                let request = vacate(&mut self.seats, seat);
                let told = self.history.tell(self.alloc, pass, request, found);
                Turned::Done(self.history.len(), told)
            }
        }
    }

    /// The oldest queued key, which somebody is to fetch now. None if none is queued, or the flights are full.
    pub fn take_want(&mut self) -> Option<Key>
        ensures { Takes self.old result self.new }
    {
        self.imports.take()
    }

    /// Takes the framed bytes that came for a key in flight. Those that are no use, and those that find no memory, fail
    /// it.
    pub fn arrive(&mut self, key: Key, framed: Vec<u8>) -> Arrived
        requires { W.honest → IsHonest W.repository key.id framed.items }
        ensures { Arrives T.table self.old key framed.items result self.new }
    {
        if !self.imports.is_in_flight(key) {
            return Arrived::Stray;
        }
        match keep::<W, T>(self.alloc, &mut self.table, key, framed) {
            Ok(()) => {
                self.imports.done(key);
                Arrived::Stored
            }
            Err(cause) => {
                self.imports.failed(key, cause);
                Arrived::Refused(cause)
            }
        }
    }

    /// The key is unavailable: each request that waits for it now is marked. False, and nothing changed, if it isn't in
    /// flight.
    pub fn fail(&mut self, key: Key, cause: Cause) -> bool
        ensures { Fails self.old key cause result self.new }
    {
        self.imports.failed(key, cause)
    }

    /// Unloads the loaded directories at and below the path that weren't used for this many turns. How many went.
    pub fn unload(&mut self, path: &Path, older_than: u64) -> u64
        ensures { LetsGo T.table W.honest self.old path.now older_than result self.new }
    {
        self.table.unload(self.alloc, path, older_than)
    }

    /// What kept the device from storing when it was to store last; None if it stored, or didn't say.
    pub fn obstacle(&self) -> Option<Obstacle> {
        self.table.obstacle()
    }

    /// Waits until a loss of power would take nothing of what the table stored. False if that isn't known.
    pub fn sync(&mut self) -> bool
        ensures { IsSynced T.table W.honest self.old result self.new }
    {
        self.table.sync(self.alloc)
    }

    /// Makes one event happen.
    fn apply(&mut self, event: Event) -> Outcome
        requires { W.honest → IsHonestEvent W.repository event }
        ensures { Steps T.table W.honest H.copies self.old self.new event result }
    {
        match event {
            Event::Start(pass, request) => Outcome::Start(self.start(pass, request)),
            Event::Turn(pass) => Outcome::Turn(self.turn(pass)),
            Event::Take => Outcome::Take(self.take_want()),
            Event::Arrive(key, framed) => Outcome::Arrive(self.arrive(key, framed.into_vec())),
            Event::Fail(key, cause) => Outcome::Fail(self.fail(key, cause)),
            Event::Unload(path, older_than) => Outcome::Unload(self.unload(&path, older_than)),
            Event::Sync => Outcome::Sync(self.sync()),
        }
    }

    /// Makes these events happen, one after another; the outcomes are the answers of the calls.
    ///
    /// The history continues with one entry for each finished request, in order, at the number that was told, after the
    /// start of its span; if the outside is honest it is legal, and the table shows the tree after it, and numbers that
    /// back those that it gave. What is pending is what was asked, less what is done. Each fetch fault has its failure,
    /// which its pass heard while it waited for that key; some pending request waits for each queued key; and a key is
    /// taken again only after it arrived or failed.
    ///
    /// The only error is want of memory for the outcomes, before any event.
    pub fn run(&mut self, events: Vec<Event>) -> Result<Vec<Outcome>, AllocError>
        requires { W.honest → AreHonest W.repository events.items }
        ensures history { IfOk result (λ os. self.new.history
            ≡ self.old.history ++ told_in_run (request_of self.old) events.items os.items) }
        ensures legal { W.honest → Legal W.opening W.numbers self.new.history }
        ensures shown { W.honest → T.table.shown self.new.table ≡ replay W.opening self.new.history }
        ensures backed { W.honest → Backs (replay_numbers W.numbers self.new.history)
            (T.table.numbers self.new.table) (T.table.next self.new.table) }
        ensures answered { IfOk result (λ os.
            AreAnswered self.old.queue.passes (request_of self.old) events.items os.items) }
        ensures numbers { IfOk result (λ os.
            AreNumbered (since_of self.old) (length self.old.history) events.items os.items) }
        ensures pending { IfOk result (λ os. (c : ℕ) → 1 ≤ c
            → request_of self.new c ≡ asked_after (request_of self.old) events.items os.items c) }
        ensures blamed { IfOk result (λ os. AreBlamed (waits_of self.old) (heard_by self.old) events.items os.items) }
        ensures queued { IfOk result (λ os. (k : keys.Key) → has_key k self.new.queue.queue ≡ true → (c : ℕ)
            × (s : declared.Pending) × Pends c s self.new
            × (waits_after (waits_of self.old) events.items os.items c ≡ Some k)) }
        ensures taken { IfOk result (λ os. AreFlown (flies_in self.old) events.items os.items) }
        ensures err { OnErr result (self.new ≡ self.old) }
    {
        self.holds();
        let mut outcomes = Vec::with_capacity(self.alloc, events.len())?;
        for event in events {
            outcomes.push(self.apply(event)).unwrap();
            self.holds();
        }
        self.holds();
        Ok(outcomes)
    }
}

impl<W: World, T: Attempts<W> + Drop, A: Allocator> Mount<W, T, A, Kept> {
    /// The entries so far.
    pub fn history(&self) -> &[Entry]
        ensures entries { result.now ≡ self.now.history }
        ensures legal { W.honest → Legal W.opening W.numbers self.now.history }
    {
        self.history.as_slice()
    }
}
