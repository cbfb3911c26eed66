// One thread's hand on a folder.
ghost use Rattle.std.specs.Prelude.{◌≡◌, true};
ghost use Rattle.eden_fuse_shown.specs.Looking.{ChangesNothing};
ghost use Rattle.eden_fuse_host.specs.Passing.{HasLooked, HasMetFault};

use crate::answering::Answering;
use crate::asking::Asking;
use crate::turns::Taken;
use eden_fuse_format::{Header, Operation};
use eden_fuse_session::{Said, Service};
use eden_model::{Path, Reply, Request, World};
use eden_mount::Unloading;
use eden_shared::{Naming, Pass};
use eden_source::Source;
use std::alloc::Global;
use std::marker::{Model, PhantomData};
use std::sync::Wait;

/// What answers one thread's requests: it looks with a pass and a source of its own, and has each request's
/// turn taken.
///
/// Contracts see what the pass carries.
#[derive(Drop)]
pub(crate) struct Hand<
    'a,
    W: World,
    J: Naming,
    C: Asking<W, J>,
    S: Source<W> + Drop,
    D: Answering,
    R: Wait,
> {
    rt: &'a R,
    shared: &'a C,
    folder: &'a D,
    pass: Pass<J>,
    source: S,
    unloading: Unloading,
    root: Path,
    world: PhantomData<W>,
}

impl<'a, W: World, J: Naming, C: Asking<W, J>, S: Source<W> + Drop, D: Answering, R: Wait> Model
    for Hand<'a, W, J, C, S, D, R> {
    ghost use Rattle.eden_shared.specs.Passes.{Carried};

    ghost Value = { Carried };

    ghost view = { λ h. h.pass };
}

impl<'a, W: World, J: Naming, C: Asking<W, J>, S: Source<W> + Drop, D: Answering, R: Wait> Hand<
    'a,
    W,
    J,
    C,
    S,
    D,
    R,
> {
    /// With a pass of the shared mount that the folder shows, and a source of its objects. It takes no memory.
    pub(crate) fn new(
        rt: &'a R,
        alloc: Global,
        shared: &'a C,
        folder: &'a D,
        pass: Pass<J>,
        source: S,
    ) -> Self
        ensures { result ≡ pass }
    {
        Hand {
            rt,
            shared,
            folder,
            pass,
            source,
            unloading: Unloading::usual(),
            root: Path::new(Vec::new(alloc)).unwrap(),
            world: PhantomData,
        }
    }

    /// Gives the pass back.
    pub(crate) fn into_pass(self) -> Pass<J>
        ensures { result ≡ self.entry }
    {
        let Hand { pass, .. } = self;
        pass
    }

    /// Counts a request, and unloads directories if it is time to.
    fn unload(&mut self)
        ensures { self.new ≡ self.old }
    {
        if self.unloading.is_due() {
            self.shared.let_go(self.rt, &self.root, self.unloading.age);
        }
    }

    /// Makes a look, and waits for what it needs. Whether it met a fault.
    fn look(&mut self, request: Request) -> bool
        requires { ChangesNothing request }
        ensures looked { HasLooked self.old self.new }
        ensures met { result ≡ true → HasMetFault self.old self.new }
    {
        match self
            .shared
            .ask(self.rt, &mut self.pass, &mut self.source, request)
        {
            Err(_) => false,
            Ok(answer) => match answer.reply {
                Reply::Fault(_) => true,
                _reply => false,
            },
        }
    }
}

impl<'a, W: World, J: Naming, C: Asking<W, J>, S: Source<W> + Drop, D: Answering, R: Wait> Service
    for Hand<'a, W, J, C, S, D, R> {
    ghost use Rattle.eden_fuse_host.specs.Hands.{HandAnswers};

    ghost answers = { HandAnswers D.turns };

    fn call(&mut self, header: Header, operation: Operation<'_>, room: &mut Vec<u8>) -> Said {
        self.unload();
        match self.folder.take(self.rt, header, operation, room) {
            Taken::Answered(said) => said,
            Taken::Looks(request) => {
                let faulted = self.look(request);
                self.folder
                    .answer(self.rt, header, operation, faulted, room)
            }
        }
    }
}
