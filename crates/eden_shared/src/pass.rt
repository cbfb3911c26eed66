ghost use Rattle.std.specs.Prelude.{◌≡◌, ◌+◌, min, IfOk, IfErr, OnErr};
ghost use Rattle.eden_shared.specs.Accounts.{told_as};
ghost use Rattle.eden_shared.specs.Calls.{Grows, IsLawful};
ghost use Rattle.eden_shared.specs.Passes.{carried, greater, Rises};

use crate::account::{Account, Naming};
use crate::ends::Far;
use crate::lanes::Answered;
use crate::shared::Shared;
use eden_history::History;
use eden_model::{CallFault, Request, World};
use eden_mount::Attempts;
use eden_source::Source;
use std::alloc::Allocator;
use std::marker::{Model, PhantomData};
use std::sync::Wait;

/// What one caller of a shared mount holds: its number, and its floor, the least number that its next entry may have.
/// Contracts see what it was told, which is kept in no memory; a `Recording` keeps it. No call of it but `call` takes
/// the lock, and none of the others takes memory.
#[derive(Drop)]
pub struct Pass<J: Naming> {
    pub(crate) number: u32,
    // The greatest number that it was told or learnt.
    pub(crate) known: u64,
    pub(crate) end: Far<Account>,
    pub(crate) names: PhantomData<J>,
}

impl<J: Naming> Model for Pass<J> {
    ghost use Rattle.std.specs.Prelude.{◌≡◌, ◌+◌, None};
    ghost use Rattle.eden_shared.specs.Lanes.{HasName};
    ghost use Rattle.eden_shared.specs.Passes.{Carried, carried, Rises};

    ghost Value = { Carried };

    ghost view = { λ p. carried p.end.value.terms p.number (p.known + 1) p.end.value.told };

    ghost invariant = { λ p. HasName J.names p.number p.end.name × (p.end.value.pending ≡ None)
        × Rises 1 p.end.value.told (p.known + 1) };
}

impl<J: Naming> Pass<J> {
    /// The pass's number, from 1 on: its entries in the history have it.
    pub fn number(&self) -> u32
        ensures { result ≡ self.now.number }
    {
        self.number
    }

    /// The least number that its next entry may have, or 2^64 - 1 if it is greater.
    pub fn floor(&self) -> u64
        ensures { result ≡ min self.now.floor u64.MAX }
    {
        self.known.saturating_add(1)
    }

    /// The numbers of what it was told rise, and are below the floor.
    pub fn holds(&self)
        ensures { Rises 1 self.now.told self.now.floor }
    {
        let _ = &self.number;
    }

    /// Whoever was told this number told the pass of it: its next entry is to be a later one.
    pub fn learn(&mut self, number: u64)
        ensures { self.new ≡ carried self.old.terms self.old.number (greater self.old.floor (number + 1))
            self.old.told }
    {
        if number > self.known {
            self.known = number;
        }
    }

    /// Asks a request, and waits for its reply and the number of its entry. The number isn't below the floor, which is
    /// above it afterwards.
    ///
    /// Faults: `Start` with `Memory`, or with `HistoryFull` and the limit, if entries and pending requests are as many
    /// as the history may have; `Foreign`, if a number that the pass learnt isn't in the history; `Stopped`. Each
    /// leaves the pass as it was.
    pub fn call<W: World, T: Attempts<W> + Drop, A: Allocator, H: History, R: Wait>(
        &mut self,
        shared: &Shared<W, T, A, J, H>,
        rt: &R,
        request: Request,
    ) -> Result<Answered, CallFault>
        ensures ok { IfOk result (λ a. Grows W.honest W.opening W.numbers self.old
            (told_as a.number request a.reply) self.new) }
        ensures err { OnErr result (self.new ≡ self.old) }
        ensures why { IfErr result (IsLawful W.honest W.opening W.numbers self.old) }
    {
        let since = shared.start(rt, self.number, self.known, &mut self.end, request)?;
        let answer = shared.wait_for(rt, self.number, &mut self.end);
        self.known = answer.number;
        Ok(answer)
    }

    /// As `call`, and fetches from the source what it needs, if nobody else does.
    pub fn call_by<
        W: World,
        T: Attempts<W> + Drop,
        A: Allocator,
        H: History,
        S: Source<W>,
        R: Wait,
    >(
        &mut self,
        shared: &Shared<W, T, A, J, H>,
        rt: &R,
        source: &mut S,
        request: Request,
    ) -> Result<Answered, CallFault>
        ensures ok { IfOk result (λ a. Grows W.honest W.opening W.numbers self.old
            (told_as a.number request a.reply) self.new) }
        ensures err { OnErr result (self.new ≡ self.old) }
        ensures why { IfErr result (IsLawful W.honest W.opening W.numbers self.old) }
    {
        let since = shared.start(rt, self.number, self.known, &mut self.end, request)?;
        let answer = shared.fetch_for(rt, self.number, &mut self.end, source);
        self.known = answer.number;
        Ok(answer)
    }
}
