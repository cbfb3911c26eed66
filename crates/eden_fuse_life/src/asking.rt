//! A mount that a folder's session asks.
ghost use Rattle.std.specs.Prelude.{◌≡◌};

use eden_fuse_shown::{Mount, Unheard, may_store, unstored};
use eden_history::History;
use eden_model::{CallFault, Fault, Reply, Request, World};
use eden_mount::{Attempts, Local};
use eden_source::Source;
use std::alloc::{Allocator, Global};
use std::marker::Model;

/// A mount's one caller, who asks what the kernel's messages mean.
///
/// Contracts see the mount, the source and the last reply.
#[derive(Drop)]
pub struct Asking<W: World, S: Source<W> + Drop, T: Attempts<W> + Drop, A: Allocator, H: History> {
    alloc: Global,
    local: Local<W, S, T, A, H>,
}

impl<W: World, S: Source<W> + Drop, T: Attempts<W> + Drop, A: Allocator, H: History> Model
    for Asking<W, S, T, A, H> {
    ghost use Rattle.eden_mount.specs.Serving.{Desk};

    ghost Value = { Desk T S };

    ghost view = { λ a. a.local };
}

impl<W: World, S: Source<W> + Drop, T: Attempts<W> + Drop, A: Allocator, H: History> Asking<
    W,
    S,
    T,
    A,
    H,
> {
    /// Over a mount and its source. Replies are copied into `alloc`.
    pub fn new(alloc: Global, local: Local<W, S, T, A, H>) -> Self
        ensures { result ≡ local }
    {
        Asking { alloc, local }
    }

    /// Gives mount and source back.
    pub fn into_local(self) -> Local<W, S, T, A, H>
        ensures { result ≡ self }
    {
        let Asking { local, .. } = self;
        local
    }
}

impl<W: World, S: Source<W> + Drop, T: Attempts<W> + Drop, A: Allocator, H: History> Mount
    for Asking<W, S, T, A, H> {
    ghost use Rattle.eden_stdio_life.specs.Calls.{CallAnswers};
    ghost use Rattle.eden_mount.specs.Serving.{SyncsDesk};

    ghost answers = { CallAnswers S.fetched T.table W.honest H.copies };

    ghost syncs = { SyncsDesk T.table W.honest };

    fn ask(&mut self, request: Request) -> Result<Reply, Unheard> {
        let stores = may_store(&request);
        match self.local.serve(request) {
            Err(fault) => Err(Unheard::Fault(CallFault::Start(fault))),
            Ok(()) => match self.local.reply() {
                Reply::Fault(Fault::Overlay) if stores => unstored(self.local.obstacle()),
                reply => match reply.copy(self.alloc) {
                    Err(_) => Err(Unheard::Memory),
                    Ok(reply) => Ok(reply),
                },
            },
        }
    }

    fn sync(&mut self) -> bool {
        self.local.sync()
    }
}
