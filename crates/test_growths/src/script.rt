//! The steps, and what is read of them.
use eden_model::{Id, Request};
use eden_wire::{Item, read_request};
use hex::FromHex;
use std::alloc::Global;
use std::io::Read;

/// How long a script may be, in bytes.
const ROOM: usize = 1 << 22;

/// How much is read at once.
const PIECE: usize = 1 << 12;

/// The steps that are left.
#[derive(Clone, Copy)]
pub struct Script<'a> {
    rest: &'a [u8],
}

impl<'a> Script<'a> {
    pub fn new(text: &'a [u8]) -> Self {
        Script { rest: text }
    }

    /// The next line, without its line feed.
    pub fn next_line(&mut self) -> Option<&'a [u8]> {
        let end = self.rest.iter().position(|byte| *byte == b'\n')?;
        let (line, rest) = self.rest.split_at_checked(end)?;
        let (_, rest) = rest.split_first()?;
        self.rest = rest;
        Some(line)
    }
}

/// Room for a script.
fn room(alloc: Global) -> Option<Vec<u8>> {
    match Vec::with_capacity(alloc, ROOM) {
        Ok(room) => Some(room),
        Err(_) => Vec::with_capacity(alloc, ROOM).ok(),
    }
}

/// All that is read. None if it can't be read or is too long.
pub fn read_script<R: Read>(alloc: Global, reader: &mut R) -> Option<Vec<u8>> {
    let mut text = room(alloc)?;
    let mut piece = [0; PIECE];
    for _ in 0..ROOM {
        let count = reader.read(&mut piece).ok()?;
        if count == 0 {
            return Some(text);
        }
        text.extend_from_slice(piece.get(..count)?).ok()?;
    }
    None
}

/// The id of forty digits.
pub fn id_in(text: &[u8]) -> Option<Id> {
    let bytes = <[u8; 20] as FromHex>::from_hex(text).ok()?;
    Some(Id { bytes })
}

/// The request of a line. None if it is none, or if memory is refused twice.
pub fn request_in(alloc: Global, line: &[u8]) -> Option<Request> {
    let item = match read_request(alloc, line) {
        Ok(item) => item,
        Err(_) => read_request(alloc, line).ok()?,
    };
    match item {
        Item::Asks(request) => Some(request),
        Item::Refuses(_) | Item::Bad => None,
    }
}
