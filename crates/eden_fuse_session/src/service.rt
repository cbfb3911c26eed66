ghost use Rattle.eden_fuse_format.specs.declared.message.Header.{Header};
ghost use Rattle.eden_fuse_format.specs.Asked.{Asked, seen};
ghost use Rattle.eden_fuse_session.specs.Turns.{IsBriefly, Told, told};

use eden_fuse_format::{Answer, Header, Operation};

/// What a service says to a request.
#[derive(Clone, Copy)]
pub enum Said {
    /// Nothing: the kernel wants no answer.
    Nothing,
    /// An answer.
    Answers(Answer<'static>),
    /// The bytes that it left in the room that it was given.
    Data,
}

/// What answers the kernel's requests, one after another.
pub trait Service {
    /// The service was as the first says, and then answered so, which left it as the last says.
    ghost answers: { Self → Header → Asked → Told → Self → Type 0 };

    /// The answer to a request. Bytes are put into the room, in place of what is in it.
    fn call(&mut self, header: Header, operation: Operation<'_>, room: &mut Vec<u8>) -> Said
        ensures after { answers self.old header (seen operation.entry) (told result room.new.items) self.new }
        ensures brief { IsBriefly result room.new.items };
}
