//! One caller over a mount.
ghost use Rattle.std.specs.Prelude.{◌≡◌};

use eden_history::History;
use eden_model::{CallFault, Reply, Request, World};
use eden_mount::{Attempts, Local};
use eden_source::Source;
use eden_wire::Service;
use std::alloc::Allocator;
use std::marker::Model;

/// A mount's one caller, whose requests a session answers.
///
/// Contracts see the mount, the source and the last reply.
#[derive(Drop)]
pub struct Caller<W: World, S: Source<W> + Drop, T: Attempts<W> + Drop, A: Allocator, H: History> {
    local: Local<W, S, T, A, H>,
}

impl<W: World, S: Source<W> + Drop, T: Attempts<W> + Drop, A: Allocator, H: History> Model
    for Caller<W, S, T, A, H> {
    ghost use Rattle.eden_mount.specs.Serving.{Desk};

    ghost Value = { Desk T S };

    ghost view = { λ c. c.local };
}

impl<W: World, S: Source<W> + Drop, T: Attempts<W> + Drop, A: Allocator, H: History> Caller<
    W,
    S,
    T,
    A,
    H,
> {
    /// Over a mount and its source.
    pub fn new(local: Local<W, S, T, A, H>) -> Self
        ensures { result ≡ local }
    {
        Caller { local }
    }

    /// Gives mount and source back.
    pub fn into_local(self) -> Local<W, S, T, A, H>
        ensures { result ≡ self }
    {
        let Caller { local } = self;
        local
    }
}

impl<W: World, S: Source<W> + Drop, T: Attempts<W> + Drop, A: Allocator, H: History> Service
    for Caller<W, S, T, A, H> {
    ghost use Rattle.eden_stdio_life.specs.Calls.{CallAnswers};

    ghost answers = { CallAnswers S.fetched T.table W.honest H.copies };

    fn call(&mut self, request: Request) -> Result<&Reply, CallFault> {
        match self.local.call(request) {
            Err(fault) => Err(CallFault::Start(fault)),
            Ok(reply) => Ok(reply),
        }
    }
}
