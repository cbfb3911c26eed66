ghost use Rattle.std.specs.Prelude.{◌≡◌, ◌≤◌, ◌+◌, [], drop, length, slice_range, IfOk, vec_len, vec_capacity};
ghost use Rattle.eden_wire.specs.declared.input.TheConstants.{PIECE, ROOM};
ghost use Rattle.eden_wire.specs.Lines.{longest_line};
ghost use Rattle.eden_wire.specs.Reading.{ReadsPiece};

use crate::serving::LONGEST_LINE;
use std::alloc::{AllocError, Global};
use std::io::{self, Read};

/// How much is read at once, in bytes.
pub(crate) const PIECE: usize = 65536;

// The longest line and one piece behind it.
const ROOM: usize = LONGEST_LINE + PIECE;

/// The bytes that were read and not yet answered, in room that is reserved once. They are read to where they stay, and
/// are moved to the front only where no piece fits behind them.
#[derive(Drop)]
pub(crate) struct Input {
    room: Vec<u8>,
    start: usize,
    stop: usize,
    ghost reserved: { ROOM ≤ vec_capacity room },
    ghost ordered: { start ≤ stop },
    ghost within: { stop ≤ vec_len room },
}

impl Input {
    pub(crate) fn new(alloc: Global) -> Result<Input, AllocError>
        ensures { IfOk result (λ i. slice_range i.room.items i.start i.stop ≡ []) }
    {
        let room = Vec::with_capacity(alloc, ROOM)?;
        Ok(Input {
            room,
            start: 0,
            stop: 0,
        })
    }

    /// The bytes that wait for an answer.
    pub(crate) fn as_slice(&self) -> &[u8]
        ensures { result.now ≡ slice_range self.now.room.items self.now.start self.now.stop }
    {
        &self.room.as_slice()[self.start..self.stop]
    }

    // Moves the bytes to the front, where a piece might not fit behind them.
    fn make_room(&mut self)
        requires { length (slice_range self.old.room.items self.old.start self.old.stop) ≤ longest_line }
        ensures kept { slice_range self.new.room.items self.new.start self.new.stop
            ≡ slice_range self.old.room.items self.old.start self.old.stop }
        ensures front { self.new.stop ≤ longest_line }
    {
        if self.stop <= LONGEST_LINE {
            return;
        }
        let len = self.stop - self.start;
        self.room
            .as_mut_slice()
            .copy_within(self.start..self.stop, 0);
        self.start = 0;
        self.stop = len;
    }

    // Fills the room with zeros as far as a piece behind the bytes goes.
    fn fill_room(&mut self)
        requires { self.old.stop ≤ longest_line }
        ensures kept { slice_range self.new.room.items self.new.start self.new.stop
            ≡ slice_range self.old.room.items self.old.start self.old.stop }
        ensures room { self.new.stop + PIECE ≤ vec_len self.new.room }
    {
        let needed = self.stop + PIECE;
        if self.room.len() < needed {
            self.room.resize(needed, 0).unwrap();
        }
    }

    /// Reads a piece behind the bytes, and returns how long it is: 0 at the input's end.
    pub(crate) fn read<R: Read>(&mut self, reader: &mut R) -> io::Result<usize>
        requires { length (slice_range self.old.room.items self.old.start self.old.stop) ≤ longest_line }
        ensures { ReadsPiece (R.remaining reader.old) (R.remaining reader.new)
            (slice_range self.old.room.items self.old.start self.old.stop)
            (slice_range self.new.room.items self.new.start self.new.stop) result }
    {
        self.make_room();
        self.fill_room();
        let piece = &mut self.room.as_mut_slice()[self.stop..self.stop + PIECE];
        match reader.read(piece) {
            Ok(n) => {
                self.stop += n;
                Ok(n)
            }
            Err(e) => Err(e),
        }
    }

    /// Forgets the first bytes.
    pub(crate) fn drop_front(&mut self, n: usize)
        requires { n ≤ length (slice_range self.old.room.items self.old.start self.old.stop) }
        ensures { slice_range self.new.room.items self.new.start self.new.stop
            ≡ drop n (slice_range self.old.room.items self.old.start self.old.stop) }
    {
        self.start += n;
        if self.start == self.stop {
            self.start = 0;
            self.stop = 0;
        }
    }
}
