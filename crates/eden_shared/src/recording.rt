ghost use Rattle.std.specs.Prelude.{◌≡◌, ◌+◌, ◌<◌, ◌-◌, length, slice_get, Some, vec_capacity, vec_len};
ghost use Rattle.std.specs.Prelude.{IfOk, IfErr, IfSome, IsOk, OnOk, OnErr, MatchResult};
ghost use Rattle.std.specs.Borrow.{sem};
ghost use Rattle.std.specs.Io.BufRead.{Rests};
ghost use Rattle.eden_shared.specs.Calls.{Grows, IsLawful};
ghost use Rattle.eden_shared.specs.contracts.recording.Recording.{the_row};
ghost use Rattle.eden_shared.specs.Passes.{carried, greater, Rises};

use crate::account::{Naming, Told};
use crate::pass::Pass;
use crate::shared::Shared;
use eden_history::History;
use eden_model::{CallFault, Request, StartFault, World};
use eden_mount::Attempts;
use std::alloc::{Allocator, Global};
use std::marker::Model;
use std::sync::Wait;

/// A pass that keeps what it was told.
///
/// Contracts see what the pass carries.
#[derive(Drop)]
pub struct Recording<J: Naming> {
    pass: Pass<J>,
    told: Vec<Told>,
}

impl<J: Naming> Model for Recording<J> {
    ghost use Rattle.std.specs.Prelude.{◌≡◌};
    ghost use Rattle.eden_shared.specs.Passes.{Carried};

    ghost Value = { Carried };

    ghost view = { λ r. r.pass };

    ghost invariant = { λ r. r.pass.told ≡ r.told.items };
}

/// A copy of the request, which is kept with its reply, and room to keep it. The only error is want of memory.
fn keep(alloc: Global, told: &mut Vec<Told>, request: &Request) -> Result<Request, CallFault>
    ensures kept { IfOk result (λ kept. kept ≡ request.now) }
    ensures same { told.new.items ≡ told.old.items }
    ensures room { OnOk result (vec_len told.new < vec_capacity told.new) }
    ensures err { IfErr result (λ fault. fault ≡ CallFault.Start StartFault.Memory) }
{
    if told.reserve(1).is_err() {
        return Err(CallFault::Start(StartFault::Memory));
    }
    match request.copy(alloc) {
        Ok(kept) => Ok(kept),
        Err(_) => Err(CallFault::Start(StartFault::Memory)),
    }
}

impl<J: Naming> Recording<J> {
    /// Records what the pass is told. It takes no memory. The pass comes back if it was told or learnt something
    /// before.
    pub fn new(alloc: Global, pass: Pass<J>) -> Result<Self, Pass<J>>
        ensures ok { IfOk result (λ r. r ≡ pass) }
        ensures err { IfErr result (λ p. p ≡ pass) }
        ensures fresh { pass.floor ≡ 1 → IsOk result }
    {
        pass.holds();
        if pass.floor() > 1 {
            return Err(pass);
        }
        let told = Vec::new(alloc);
        Ok(Recording { pass, told })
    }

    /// The pass, as it is.
    pub fn pass(&self) -> &Pass<J>
        ensures { result.now ≡ self.now }
    {
        &self.pass
    }

    /// Gives the pass back, and keeps no more what it was told.
    pub fn into_pass(self) -> Pass<J>
        ensures { result ≡ self }
    {
        let Recording { pass, .. } = self;
        pass
    }

    /// What it was told, in order: the numbers rise, and are below the floor.
    pub fn told(&self) -> &[Told]
        ensures told { result.now ≡ self.now.told }
        ensures rises { Rises 1 self.now.told self.now.floor }
    {
        self.pass.holds();
        self.told.as_slice()
    }

    /// What it was told last.
    fn last(&self) -> &Told
        requires { 0 < length self.now.told }
        ensures { slice_get self.now.told (length self.now.told - 1) ≡ Some result.now }
    {
        &self.told[self.told.len() - 1]
    }

    /// As `Pass::learn`.
    pub fn learn(&mut self, number: u64)
        ensures { self.new ≡ carried self.old.terms self.old.number (greater self.old.floor (number + 1))
            self.old.told }
    {
        self.pass.learn(number);
    }

    /// A call, whose triple lies here then; or a fault, and the pass is as it was.
    fn record<W: World, T: Attempts<W> + Drop, A: Allocator, H: History, R: Wait>(
        &mut self,
        shared: &Shared<W, T, A, J, H>,
        rt: &R,
        request: Request,
    ) -> Result<(), CallFault>
        ensures some { OnOk result (0 < length self.new.told) }
        ensures ok { OnOk result (IfSome (slice_get self.new.told (length self.new.told - 1))
            (λ t. (t.request ≡ request) × Grows W.honest W.opening W.numbers self.old t self.new)) }
        ensures err { OnErr result (self.new ≡ self.old) }
        ensures why { IfErr result (IsLawful W.honest W.opening W.numbers self.old) }
    {
        let kept = match keep(shared.alloc, &mut self.told, &request) {
            Ok(kept) => kept,
            Err(fault) => {
                drop(request);
                return Err(fault);
            }
        };
        match self.pass.call(shared, rt, request) {
            Ok(answer) => {
                self.told.push_reserved(Told {
                    number: answer.number,
                    request: kept,
                    reply: answer.reply,
                });
                Ok(())
            }
            Err(fault) => {
                drop(kept);
                Err(fault)
            }
        }
    }

    /// As `Pass::call`, and what it was told lies here from then on. After a fault, as for want of memory to keep it,
    /// there is no more here than before.
    pub fn call<W: World, T: Attempts<W> + Drop, A: Allocator, H: History, R: Wait>(
        &mut self,
        shared: &Shared<W, T, A, J, H>,
        rt: &R,
        request: Request,
    ) -> Result<&Told, CallFault>
        ensures* after { sem 𝓛 (Rests (the_row J.row J.Naming) self.entry
            (λ new. MatchResult result
            (λ t. (t.now.request ≡ request) × Grows W.honest W.opening W.numbers self.old t.now new)
            (λ fault. new ≡ self.old))) }
        ensures why { IfErr result (IsLawful W.honest W.opening W.numbers self.old) }
    {
        match self.record(shared, rt, request) {
            Err(fault) => Err(fault),
            Ok(()) => Ok(self.last()),
        }
    }
}
