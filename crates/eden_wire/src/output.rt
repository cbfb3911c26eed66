ghost use Rattle.std.specs.Prelude.{◌≡◌, ◌≤◌, ◌+◌, ◌++◌, [], length, vec_capacity, IfOk, IsTrue, false};
ghost use Rattle.eden_wire.specs.Writing.{SendsSome, WritesText, HandsOver, Flushed, IsIdle};

use std::alloc::{AllocError, Global};
use std::io::{ErrorKind, Write};

/// A write failed: a beginning of the text was written.
#[derive(Clone, Copy, Debug, PartialEq, Eq)]
pub struct WriteFailed;

// One call of the writer: how many of the bytes it took. An interrupted call took none.
fn send_some<W: Write>(writer: &mut W, bytes: &[u8]) -> Result<usize, WriteFailed>
    ensures { SendsSome (W.contents writer.old) (W.contents writer.new) bytes.now result }
{
    match writer.write(bytes) {
        Ok(0) => Err(WriteFailed),
        Ok(n) => Ok(n),
        Err(e) if e.kind() == ErrorKind::Interrupted => Ok(0),
        Err(_) => Err(WriteFailed),
    }
}

// Writes the bytes.
fn send<W: Write>(writer: &mut W, bytes: &[u8]) -> Result<(), WriteFailed>
    ensures { WritesText (W.contents writer.old) (W.contents writer.new) result bytes.now }
{
    let mut rest = bytes;
    'turns: for _ in 0..u64::MAX {
        if rest.is_empty() {
            return Ok(());
        }
        let taken = send_some(writer, rest)?;
        rest = &rest[taken..];
    }
    Err(WriteFailed)
}

/// Bytes on their way to a writer. They are held until they are many or are flushed, in room that is made once.
///
/// After a failed write nothing more is written, and the next `flush` tells of it.
#[derive(Drop)]
pub(crate) struct Output {
    pending: Vec<u8>,
    failed: bool,
}

impl Output {
    /// Holds up to so many bytes.
    pub(crate) fn new(alloc: Global, room: usize) -> Result<Output, AllocError>
        ensures { IfOk result IsIdle }
    {
        let pending = Vec::with_capacity(alloc, room)?;
        Ok(Output {
            pending,
            failed: false,
        })
    }

    /// Forgets what is held and what failed.
    pub(crate) fn clear(&mut self)
        ensures { IsIdle self.new }
    {
        self.pending.clear();
        self.failed = false;
    }

    /// Whether a write failed.
    pub(crate) fn has_failed(&self) -> bool
        ensures { result ≡ self.now.failed }
    {
        self.failed
    }

    #[inline(always)]
    fn has_room(&self, bytes: &[u8]) -> bool
        ensures { IsTrue result → length self.now.pending.items + length bytes.now ≤ vec_capacity self.now.pending }
    {
        bytes.len() <= self.pending.capacity() - self.pending.len()
    }

    // Holds the bytes, for which there is room.
    #[inline(always)]
    fn hold(&mut self, bytes: &[u8])
        requires { length self.old.pending.items + length bytes.now ≤ vec_capacity self.old.pending }
        ensures pending { self.new.pending.items ≡ self.old.pending.items ++ bytes.now }
        ensures failed { self.new.failed ≡ self.old.failed }
    {
        self.pending.extend_from_slice(bytes).unwrap();
    }

    // Writes out what is held.
    fn write_out<W: Write>(&mut self, writer: &mut W)
        ensures grew { HandsOver (W.contents writer.old) (W.contents writer.new) self.old self.new [] }
        ensures empty { self.new.pending.items ≡ [] }
        ensures sticks { self.new.failed ≡ false → self.old.failed ≡ false }
    {
        if self.failed {
            self.pending.clear();
            return;
        }
        let sent = send(writer, self.pending.as_slice());
        self.failed = sent.is_err();
        self.pending.clear();
    }

    // Hands over the bytes where none are held.
    fn put_first<W: Write>(&mut self, writer: &mut W, bytes: &[u8])
        requires { self.old.pending.items ≡ [] }
        ensures { HandsOver (W.contents writer.old) (W.contents writer.new) self.old self.new bytes.now }
    {
        if self.failed {
            return;
        }
        if self.has_room(bytes) {
            self.hold(bytes);
            return;
        }
        let sent = send(writer, bytes);
        self.failed = sent.is_err();
    }

    // Hands over the bytes where there is no room for them beside what is held.
    #[inline(never)]
    fn put_beyond<W: Write>(&mut self, writer: &mut W, bytes: &[u8])
        ensures { HandsOver (W.contents writer.old) (W.contents writer.new) self.old self.new bytes.now }
    {
        self.write_out(writer);
        self.put_first(writer, bytes);
    }

    /// Hands over the bytes. Few bytes, for which there is room, are copied without a call.
    #[inline(always)]
    pub(crate) fn put<W: Write>(&mut self, writer: &mut W, bytes: &[u8])
        ensures { HandsOver (W.contents writer.old) (W.contents writer.new) self.old self.new bytes.now }
    {
        if self.has_room(bytes) {
            self.hold(bytes);
            return;
        }
        self.put_beyond(writer, bytes);
    }

    /// Writes out what is held, and tells whether a write has failed.
    pub(crate) fn flush<W: Write>(&mut self, writer: &mut W) -> Result<(), WriteFailed>
        ensures { Flushed (W.contents writer.old) (W.contents writer.new) self.old self.new result }
    {
        if self.pending.is_empty() && !self.failed {
            return Ok(());
        }
        self.write_out(writer);
        if self.failed {
            return Err(WriteFailed);
        }
        match writer.flush() {
            Ok(()) => Ok(()),
            Err(_) => Err(WriteFailed),
        }
    }
}
