//! One of the callers of a shared mount.
ghost use Rattle.std.specs.Prelude.{◌≡◌, ℕ, IfErr, OnErr, OnOk};
ghost use Rattle.eden_host.specs.Guests.{HasLearntNothing, IsTurnedAway};
ghost use Rattle.eden_shared.specs.Accounts.{told_as};
ghost use Rattle.eden_shared.specs.Calls.{Grows};

use crate::served::Served;
use eden_model::{CallFault, Fault, Path, Reply, Request, World};
use eden_mount::Unloading;
use eden_shared::{Naming, Pass};
use eden_wire::Service;
use std::alloc::Global;
use std::marker::{Model, PhantomData};
use std::sync::Wait;

/// A caller of a shared mount, whose requests a session answers. Its pass learns no numbers of other callers.
///
/// Contracts see what the pass carries, and the last reply.
#[derive(Drop)]
pub struct Guest<'a, W: World, J: Naming, C: Served<W, J>, R: Wait> {
    rt: &'a R,
    shared: &'a C,
    pass: Pass<J>,
    reply: Reply,
    unloading: Unloading,
    root: Path,
    world: PhantomData<W>,
}

impl<'a, W: World, J: Naming, C: Served<W, J>, R: Wait> Model for Guest<'a, W, J, C, R> {
    ghost use Rattle.eden_host.specs.Guests.{HasLearntNothing, Visit};

    ghost Value = { Visit };

    ghost view = { λ g. record { pass = g.pass; reply = g.reply } };

    ghost invariant = { λ g. HasLearntNothing g.pass };
}

impl<'a, W: World, J: Naming, C: Served<W, J>, R: Wait> Guest<'a, W, J, C, R> {
    /// Over a shared mount, with one of its passes. It takes no memory.
    pub fn new(rt: &'a R, alloc: Global, shared: &'a C, pass: Pass<J>, unloading: Unloading) -> Self
        requires { HasLearntNothing pass }
        ensures { result.pass ≡ pass }
    {
        Guest {
            rt,
            shared,
            pass,
            reply: Reply::Fault(Fault::Memory),
            unloading,
            root: Path::new(Vec::new(alloc)).unwrap(),
            world: PhantomData,
        }
    }

    /// Gives the pass back.
    pub fn into_pass(self) -> Pass<J>
        ensures same { result ≡ self.entry.pass }
        ensures learnt { HasLearntNothing result }
    {
        let Guest { pass, .. } = self;
        pass
    }

    /// Asks a request, and waits for its reply, which lies here from then on; or the pass stays as it was.
    fn ask(&mut self, request: Request) -> Result<(), CallFault>
        ensures grows { OnOk result ((n : ℕ) × Grows W.honest W.opening W.numbers self.old.pass
            (told_as n request self.new.reply) self.new.pass) }
        ensures same { OnErr result (self.new.pass ≡ self.old.pass) }
        ensures why { IfErr result (IsTurnedAway W.honest W.opening W.numbers self.old.pass) }
    {
        match self.shared.ask(self.rt, &mut self.pass, request) {
            Err(fault) => Err(fault),
            Ok(answer) => {
                self.reply = answer.reply;
                Ok(())
            }
        }
    }

    /// Counts a request that was served, and unloads directories if it is time to.
    fn unload(&mut self)
        ensures { self.new ≡ self.old }
    {
        if self.unloading.is_due() {
            self.shared.let_go(self.rt, &self.root, self.unloading.age);
        }
    }

    /// The last reply.
    fn reply(&self) -> &Reply
        ensures { result.now ≡ self.now.reply }
    {
        &self.reply
    }
}

impl<'a, W: World, J: Naming, C: Served<W, J>, R: Wait> Service for Guest<'a, W, J, C, R> {
    ghost use Rattle.eden_host.specs.Guests.{VisitAnswers};

    ghost answers = { VisitAnswers W.honest W.opening W.numbers };

    fn call(&mut self, request: Request) -> Result<&Reply, CallFault> {
        match self.ask(request) {
            Err(fault) => Err(fault),
            Ok(()) => {
                self.unload();
                Ok(self.reply())
            }
        }
    }
}
