// What lies under the lock of a folder.
ghost use Rattle.std.specs.Prelude.{◌≡◌};
ghost use Rattle.eden_fuse_format.specs.Asked.{seen};
ghost use Rattle.eden_fuse_session.specs.Turns.{IsBriefly, told};
ghost use Rattle.eden_fuse_host.specs.Hands.{Takes};
ghost use Rattle.eden_fuse_host.specs.Turns.{IsRunFrom, IsTurn};
ghost use Rattle.eden_fuse_host.specs.Wants.{is_interruption, needs_its_look};

use crate::asking::Asking;
use crate::begun::Begun;
use crate::calling::Calling;
use eden_fuse_format::{Answer, Header, Operation};
use eden_fuse_session::{Said, Service};
use eden_fuse_shown::Shown;
use eden_model::{Request, World};
use eden_shared::Naming;
use eden_source::Source;
use std::marker::Model;
use std::rt::Clock;
use std::sync::Wait;

const EIO: u32 = 5;

/// What comes of a request at first.
pub enum Taken {
    /// It had its turn, and this is said to it.
    Answered(Said),
    /// It has its turn after this look.
    Looks(Request),
}

/// A folder: from its beginning on, requests were answered one after another.
///
/// Contracts see the folder.
#[derive(Drop)]
pub(crate) struct Turns<
    W: World,
    J: Naming,
    C: Asking<W, J> + Drop,
    S: Source<W> + Drop,
    R: Wait + Drop,
    K: Clock + Drop,
    B: Begun,
> {
    shown: Shown<Calling<W, J, C, S, R, B>, K>,
}

impl<
    W: World,
    J: Naming,
    C: Asking<W, J> + Drop,
    S: Source<W> + Drop,
    R: Wait + Drop,
    K: Clock + Drop,
    B: Begun,
> Model for Turns<W, J, C, S, R, K, B> {
    ghost use Rattle.eden_shared.specs.Passes.{Carried};
    ghost use Rattle.eden_fuse_shown.specs.Showing.{Showing};
    ghost use Rattle.eden_fuse_host.specs.Turns.{IsRunFrom};

    ghost Value = { Showing Carried };

    ghost view = { λ t. t.shown };

    ghost invariant = { λ t. IsRunFrom W.honest W.opening W.numbers B.begun t.shown };
}

/// Whether a request may need what isn't in memory. What opens a file or a directory was looked up before.
fn may_need_objects(operation: &Operation<'_>) -> bool {
    match operation {
        Operation::Open(_) | Operation::OpenDir(_) => false,
        _ => true,
    }
}

/// Whether a request can't be done without what its look needs. A write, and what cuts a file, may need no content.
fn needs_its_look(operation: &Operation<'_>) -> bool
    ensures { result ≡ needs_its_look (seen operation.now) }
{
    match operation {
        Operation::Lookup(_)
        | Operation::GetAttr(_)
        | Operation::ReadLink
        | Operation::Symlink(_, _)
        | Operation::MkNod(_, _)
        | Operation::MkDir(_, _)
        | Operation::Unlink(_)
        | Operation::RmDir(_)
        | Operation::Rename(_, _, _)
        | Operation::Rename2(_, _, _)
        | Operation::Read(_)
        | Operation::ReadDir(_)
        | Operation::Create(_, _)
        | Operation::Fallocate(_) => true,
        _ => false,
    }
}

/// Whether a request asks for nothing but to interrupt another. It has no answer, for want of memory either.
fn is_interruption(operation: &Operation<'_>) -> bool
    ensures { result ≡ is_interruption (seen operation.now) }
{
    match operation {
        Operation::Interrupt(_) => true,
        _ => false,
    }
}

impl<
    W: World,
    J: Naming,
    C: Asking<W, J> + Drop,
    S: Source<W> + Drop,
    R: Wait + Drop,
    K: Clock + Drop,
    B: Begun,
> Turns<W, J, C, S, R, K, B> {
    /// A folder that has just begun.
    pub(crate) fn new(shown: Shown<Calling<W, J, C, S, R, B>, K>) -> Self
        requires { IsRunFrom W.honest W.opening W.numbers B.begun shown }
        ensures { result ≡ shown }
    {
        Turns { shown }
    }

    /// Gives the folder back.
    pub(crate) fn into_shown(self) -> Shown<Calling<W, J, C, S, R, B>, K>
        ensures same { result ≡ self }
        ensures run { IsRunFrom W.honest W.opening W.numbers B.begun result }
    {
        let Turns { shown } = self;
        shown
    }

    /// Turns led here.
    fn holds(&self)
        ensures { IsRunFrom W.honest W.opening W.numbers B.begun self.now }
    {
        let _ = &self.shown;
    }

    /// Answers a request, whose look met a fault or didn't. One that can't be done without its look is refused if that
    /// met a fault.
    pub(crate) fn answer(
        &mut self,
        header: Header,
        operation: Operation<'_>,
        faulted: bool,
        room: &mut Vec<u8>,
    ) -> Said
        ensures turn { IsTurn W.honest W.opening W.numbers B.begun faulted header (seen operation.entry)
            (told result room.new.items) }
        ensures brief { IsBriefly result room.new.items }
    {
        if faulted && needs_its_look(&operation) {
            self.holds();
            return Said::Answers(Answer::Refused(EIO));
        }
        if is_interruption(&operation) {
            self.holds();
            return Said::Nothing;
        }
        self.shown.call(header, operation, room)
    }

    /// Answers a request, or says which look goes before its turn.
    pub(crate) fn take(
        &mut self,
        header: Header,
        operation: Operation<'_>,
        room: &mut Vec<u8>,
    ) -> Taken
        ensures { Takes (λ faulted. IsTurn W.honest W.opening W.numbers B.begun faulted header (seen operation.entry))
            result room.new.items }
    {
        if may_need_objects(&operation) {
            if let Some(request) = self.shown.looks_for(header.nodeid, &operation) {
                return Taken::Looks(request);
            }
        }
        Taken::Answered(self.answer(header, operation, false, room))
    }
}
