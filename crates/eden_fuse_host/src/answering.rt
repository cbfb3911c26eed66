// A folder under its lock, as its threads see it.
ghost use Rattle.eden_fuse_format.specs.Asked.{seen};
ghost use Rattle.eden_fuse_session.specs.Turns.{IsBriefly, told};
ghost use Rattle.eden_fuse_host.specs.Hands.{Takes, Turning};

use crate::asking::Asking;
use crate::begun::Begun;
use crate::turns::{Taken, Turns};
use eden_fuse_format::{Header, Operation};
use eden_fuse_session::Said;
use eden_model::World;
use eden_shared::Naming;
use eden_source::Source;
use std::rt::Clock;
use std::sync::{Mutex, Wait};

/// What several threads hand requests in to.
pub(crate) trait Answering {
    /// A request, the look before which met a fault or didn't, was answered so in its turn.
    ghost turns: { Turning };

    /// Answers a request, or says which look goes before its turn.
    fn take<R: Wait>(
        &self,
        rt: &R,
        header: Header,
        operation: Operation<'_>,
        room: &mut Vec<u8>,
    ) -> Taken
        ensures { Takes (λ faulted. turns faulted header (seen operation.entry)) result room.new.items };

    /// Answers a request, whose look met a fault or didn't.
    fn answer<R: Wait>(
        &self,
        rt: &R,
        header: Header,
        operation: Operation<'_>,
        faulted: bool,
        room: &mut Vec<u8>,
    ) -> Said
        ensures turn { turns faulted header (seen operation.entry) (told result room.new.items) }
        ensures brief { IsBriefly result room.new.items };
}

/// A folder under one lock.
#[derive(Drop)]
pub(crate) struct Counter<
    W: World,
    J: Naming,
    C: Asking<W, J> + Drop,
    S: Source<W> + Drop,
    L: Wait + Drop,
    K: Clock + Drop,
    B: Begun,
> {
    pub(crate) lock: Mutex<Turns<W, J, C, S, L, K, B>>,
}

impl<
    W: World,
    J: Naming,
    C: Asking<W, J> + Drop,
    S: Source<W> + Drop,
    L: Wait + Drop,
    K: Clock + Drop,
    B: Begun,
> Answering for Counter<W, J, C, S, L, K, B> {
    ghost use Rattle.eden_fuse_host.specs.Turns.{IsTurn};

    ghost turns = { IsTurn W.honest W.opening W.numbers B.begun };

    fn take<R: Wait>(
        &self,
        rt: &R,
        header: Header,
        operation: Operation<'_>,
        room: &mut Vec<u8>,
    ) -> Taken {
        self.lock.lock(rt).take(header, operation, room)
    }

    fn answer<R: Wait>(
        &self,
        rt: &R,
        header: Header,
        operation: Operation<'_>,
        faulted: bool,
        room: &mut Vec<u8>,
    ) -> Said {
        self.lock.lock(rt).answer(header, operation, faulted, room)
    }
}
