// A shared mount that a folder's turns ask.
ghost use Rattle.std.specs.Prelude.{◌≡◌};
ghost use Rattle.eden_fuse_host.specs.Passing.{IsHeardAs};
ghost use Rattle.eden_fuse_host.specs.Turns.{IsOf};

use crate::asking::Asking;
use crate::begun::Begun;
use eden_fuse_shown::{Mount, Unheard, may_store, unstored};
use eden_model::{Fault, Reply, Request, World};
use eden_shared::{Naming, Pass};
use eden_source::Source;
use std::marker::{Model, PhantomData};
use std::sync::Wait;

/// The pass with which the turns of a folder ask a shared mount, and where they fetch from what isn't in memory.
///
/// Contracts see what the pass carries.
#[derive(Drop)]
pub(crate) struct Calling<
    W: World,
    J: Naming,
    C: Asking<W, J> + Drop,
    S: Source<W> + Drop,
    R: Wait + Drop,
    B: Begun,
> {
    rt: R,
    shared: C,
    pass: Pass<J>,
    source: S,
    of: PhantomData<(W, B)>,
}

impl<
    W: World,
    J: Naming,
    C: Asking<W, J> + Drop,
    S: Source<W> + Drop,
    R: Wait + Drop,
    B: Begun,
> Model for Calling<W, J, C, S, R, B> {
    ghost use Rattle.eden_shared.specs.Passes.{Carried};
    ghost use Rattle.eden_fuse_host.specs.Turns.{IsOf};

    ghost Value = { Carried };

    ghost view = { λ c. c.pass };

    ghost invariant = { λ c. IsOf B.begun c.pass };
}

impl<
    W: World,
    J: Naming,
    C: Asking<W, J> + Drop,
    S: Source<W> + Drop,
    R: Wait + Drop,
    B: Begun,
> Calling<W, J, C, S, R, B> {
    /// Over a shared mount, with the pass of the beginning. It takes no memory.
    pub(crate) fn new(rt: R, shared: C, pass: Pass<J>, source: S) -> Self
        requires { IsOf B.begun pass }
        ensures { result ≡ pass }
    {
        Calling {
            rt,
            shared,
            pass,
            source,
            of: PhantomData,
        }
    }

    // What is heard of a reply to a request that may have something stored, or not.
    fn heard(&self, reply: Reply, stores: bool) -> Result<Reply, Unheard>
        ensures { IsHeardAs reply result }
    {
        match reply {
            Reply::Fault(Fault::Overlay) if stores => unstored(self.shared.obstacle(&self.rt)),
            reply => Ok(reply),
        }
    }

    /// Gives the pass back.
    pub(crate) fn into_pass(self) -> Pass<J>
        ensures same { result ≡ self }
        ensures seat { IsOf B.begun result }
    {
        let Calling { pass, .. } = self;
        pass
    }
}

impl<
    W: World,
    J: Naming,
    C: Asking<W, J> + Drop,
    S: Source<W> + Drop,
    R: Wait + Drop,
    B: Begun,
> Mount for Calling<W, J, C, S, R, B> {
    ghost use Rattle.eden_fuse_host.specs.Passing.{PassAnswers, PassSyncs};

    ghost answers = { PassAnswers W.honest W.opening W.numbers };

    ghost syncs = { PassSyncs };

    fn ask(&mut self, request: Request) -> Result<Reply, Unheard> {
        let stores = may_store(&request);
        match self
            .shared
            .ask(&self.rt, &mut self.pass, &mut self.source, request)
        {
            Err(fault) => Err(Unheard::Fault(fault)),
            Ok(answer) => self.heard(answer.reply, stores),
        }
    }

    fn sync(&mut self) -> bool {
        self.shared.sync(&self.rt)
    }
}
