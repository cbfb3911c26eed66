ghost use Rattle.std.specs.Prelude.{◌≡◌};
ghost use Rattle.eden_fuse_format.specs.Messages.{IsMessageOf};

use crate::members::{u32_at, u64_at};
use crate::opcode::read_opcode;
use crate::operation::{Operation, read_operation};

/// The length of a message's header, in bytes.
const HEADER_LEN: usize = 40;

/// Who asks, about which node, and the number that the answer has to have.
#[derive(Clone, Copy)]
pub struct Header {
    pub unique: u64,
    pub nodeid: u64,
    pub uid: u32,
    pub gid: u32,
    pub pid: u32,
}

/// What a message of the kernel is.
#[derive(Clone, Copy)]
pub enum Message<'a> {
    Request(Header, Operation<'a>),
    /// A message of this number, for an operation that isn't known.
    Unknown(u64),
    /// A message of this number, for an operation that is known, with a body that is none of its.
    Malformed(u64),
    /// No message: less than a header, or of another length than the header says.
    Unframed,
}

/// What the bytes of one message are.
pub fn read_message(bytes: &[u8]) -> Message<'_>
    ensures { IsMessageOf bytes.now result }
{
    if bytes.len() < HEADER_LEN {
        return Message::Unframed;
    }
    if bytes.len() != u32_at(bytes, 0) as usize {
        return Message::Unframed;
    }
    let unique = u64_at(bytes, 8);
    let Some(opcode) = read_opcode(u32_at(bytes, 4)) else {
        return Message::Unknown(unique);
    };
    match read_operation(opcode, bytes.split_at(HEADER_LEN).1) {
        None => Message::Malformed(unique),
        Some(operation) => {
            let header = Header {
                unique,
                nodeid: u64_at(bytes, 16),
                uid: u32_at(bytes, 24),
                gid: u32_at(bytes, 28),
                pid: u32_at(bytes, 32),
            };
            Message::Request(header, operation)
        }
    }
}
