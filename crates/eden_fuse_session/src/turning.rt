ghost use Rattle.std.specs.Prelude.{◌≡◌, ◌≤◌, [], vec_capacity};
ghost use Rattle.eden_fuse_format.specs.Answers.{IsBrief};
ghost use Rattle.eden_fuse_session.specs.declared.service.Said.TheVariants.{Answers};
ghost use Rattle.eden_fuse_session.specs.Turns.{IsBriefly, SendsNoMemory, SendsAnswer, Turn, told};

use crate::sender::Sender;
use crate::service::{Said, Service};
use eden_fuse_format::{Answer, Message, put_answer, read_message};

const ENOMEM: u32 = 12;

const EINVAL: u32 = 22;

const ENOSYS: u32 = 38;

/// How a turn ended.
#[derive(Clone, Copy, Debug, PartialEq, Eq)]
pub enum Turned {
    /// The message was answered.
    Answered,
    /// It wants no answer.
    Silent,
    /// The sender failed.
    NotSent,
    /// There was no memory for the answer, since the room that was given is too small for it: it was refused with
    /// `ENOMEM`.
    NoMemory,
    /// There wasn't even memory for that: the room that was given has fewer than 16 bytes.
    NoRoom,
    /// It was no message.
    Unframed,
}

// Refuses a request for want of memory, in place of an answer that the room is too small for.
fn refuse<C: Sender>(out: &mut Vec<u8>, sender: &mut C, unique: u64) -> Turned
    requires { out.old.items ≡ [] }
    ensures refuses { SendsNoMemory unique (C.sent sender.old, C.failures sender.old)
        (C.sent sender.new, C.failures sender.new) (vec_capacity out.old) result }
    ensures room { vec_capacity out.old ≤ vec_capacity out.new }
{
    match put_answer(out, unique, &Answer::Refused(ENOMEM)) {
        Err(_) => Turned::NoRoom,
        Ok(()) => match sender.send(out.as_slice()) {
            Ok(()) => Turned::NoMemory,
            Err(_) => Turned::NotSent,
        },
    }
}

// Sends an answer.
fn reply<C: Sender>(out: &mut Vec<u8>, sender: &mut C, unique: u64, answer: &Answer<'_>) -> Turned
    requires { IsBrief answer.now }
    ensures replies { SendsAnswer unique (told (Answers answer.now) []) (C.sent sender.old, C.failures sender.old)
        (C.sent sender.new, C.failures sender.new) (vec_capacity out.old) result }
    ensures room { vec_capacity out.old ≤ vec_capacity out.new }
{
    out.clear();
    match put_answer(out, unique, answer) {
        Err(_) => refuse(out, sender, unique),
        Ok(()) => match sender.send(out.as_slice()) {
            Ok(()) => Turned::Answered,
            Err(_) => Turned::NotSent,
        },
    }
}

// Sends what a service said.
fn say<C: Sender>(
    out: &mut Vec<u8>,
    sender: &mut C,
    unique: u64,
    said: Said,
    room: &Vec<u8>,
) -> Turned
    requires { IsBriefly said room.now.items }
    ensures replies { SendsAnswer unique (told said room.now.items) (C.sent sender.old, C.failures sender.old)
        (C.sent sender.new, C.failures sender.new) (vec_capacity out.old) result }
    ensures room { vec_capacity out.old ≤ vec_capacity out.new }
{
    match said {
        Said::Nothing => Turned::Silent,
        Said::Answers(answer) => reply(out, sender, unique, &answer),
        Said::Data => reply(out, sender, unique, &Answer::Bytes(room.as_slice())),
    }
}

/// Answers one message of the kernel. Both rooms are for what passes by; what is in them doesn't matter. `out` doesn't
/// shrink, and want of memory comes only if it is smaller than the answer; then the message is refused with `ENOMEM`,
/// for which 16 bytes of it are enough.
pub fn turn<C: Sender, S: Service>(
    message: &[u8],
    out: &mut Vec<u8>,
    room: &mut Vec<u8>,
    sender: &mut C,
    service: &mut S,
) -> Turned
    ensures turn { Turn S.answers message.now service.old service.new (C.sent sender.old, C.failures sender.old)
        (C.sent sender.new, C.failures sender.new) (vec_capacity out.old) result }
    ensures room { vec_capacity out.old ≤ vec_capacity out.new }
{
    match read_message(message) {
        Message::Unframed => Turned::Unframed,
        Message::Unknown(unique) => reply(out, sender, unique, &Answer::Refused(ENOSYS)),
        Message::Malformed(unique) => reply(out, sender, unique, &Answer::Refused(EINVAL)),
        Message::Request(header, operation) => {
            let said = service.call(header, operation, room);
            say(out, sender, header.unique, said, room)
        }
    }
}
