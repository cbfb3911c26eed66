ghost use Rattle.std.specs.Prelude.{◌≡◌, ◌≤◌, length, take, vec_capacity, IfOk};
ghost use Rattle.eden_fuse_session.specs.Sending.{Receives};
ghost use Rattle.eden_fuse_session.specs.Sessions.{MessageSession, answer_room};
ghost use Rattle.eden_fuse_session.specs.Turns.{Turn};

use crate::receiver::{Received, Receiver};
use crate::sender::Sender;
use crate::service::Service;
use crate::turning::{Turned, turn};
use std::alloc::{AllocError, Global};

/// The most bytes of a message that is received: a write of 1 MiB, and the structs before it.
const LONGEST: usize = 1_048_576 + 4_096;

/// Why a session ended early.
#[derive(Clone, Copy, Debug, PartialEq, Eq)]
pub enum SessionFault {
    /// A message couldn't be received.
    Receive,
    /// There was no memory for messages and answers; none was received.
    Memory,
}

// How many bytes of room each answer has at least.
fn room_len() -> usize
    ensures { result ≡ answer_room }
{
    65_536 + 4_096
}

// Room of so many bytes.
fn make_room(alloc: Global, len: usize) -> Result<Vec<u8>, AllocError>
    ensures { IfOk result (λ room. len ≤ vec_capacity room) }
{
    Vec::with_capacity(alloc, len)
}

// Waits for a message.
fn receive<V: Receiver>(receiver: &mut V, message: &mut Vec<u8>) -> Received
    ensures { Receives (V.waiting receiver.old) (V.waiting receiver.new) result message.new.items }
{
    receiver.receive(message.as_mut_slice())
}

// Answers the message of so many bytes.
fn answer<C: Sender, S: Service>(
    message: &Vec<u8>,
    len: usize,
    out: &mut Vec<u8>,
    room: &mut Vec<u8>,
    sender: &mut C,
    service: &mut S,
) -> Turned
    requires len { len ≤ length message.now.items }
    requires room { answer_room ≤ vec_capacity out.old }
    ensures turn { Turn S.answers (take len message.now.items) service.old service.new
        (C.sent sender.old, C.failures sender.old) (C.sent sender.new, C.failures sender.new) answer_room result }
    ensures room { answer_room ≤ vec_capacity out.new }
{
    turn(&message[..len], out, room, sender, service)
}

/// Answers one message after another by the service, until no more come.
///
/// Each message is answered before the next is waited for, and each that wants an answer has one: there is room for any
/// of 69,632 bytes, and a longer one for which there is no memory is refused with `ENOMEM`. One that the sender doesn't
/// take is passed over, since who asked may be gone. Ok says that there are no more messages. `Memory` comes before the
/// first alone.
pub fn session<V: Receiver, C: Sender, S: Service>(
    alloc: Global,
    receiver: &mut V,
    sender: &mut C,
    service: &mut S,
) -> Result<(), SessionFault>
    ensures { MessageSession S.answers (service.old, (C.sent sender.old, C.failures sender.old))
        (service.new, (C.sent sender.new, C.failures sender.new))
        (V.waiting receiver.old) (V.waiting receiver.new) result }
{
    let Ok(mut message) = vec![in alloc; 0u8; LONGEST] else {
        return Err(SessionFault::Memory);
    };
    let Ok(mut out) = make_room(alloc, room_len()) else {
        return Err(SessionFault::Memory);
    };
    let mut room = Vec::new(alloc);
    'messages: for _ in 0..u64::MAX {
        match receive(receiver, &mut message) {
            Received::Message(len) => {
                answer(&message, len, &mut out, &mut room, sender, service);
            }
            Received::Nothing => {}
            Received::End => return Ok(()),
            Received::Failed => return Err(SessionFault::Receive),
        }
    }
    Err(SessionFault::Receive)
}
