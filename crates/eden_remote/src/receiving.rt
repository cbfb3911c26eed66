// What comes in from a server.
ghost use Rattle.std.specs.Prelude.{◌≡◌, ◌+◌, ◌++◌, ◌<◌, ◌≤◌, IfOk, OnOk, length};
ghost use Rattle.eden_remote.specs.Receiving.{Hears, HearsSome, HearsByte, HearsLine, HearsBytes, Says};

use crate::number::read_length;
use crate::refusal::Refusal;
use eden_source::LONGEST_FRAMED;
use std::alloc::{AllocError, Global};
use std::io::{ErrorKind, Read};

// The longest first line in bytes, with its line feed.
const FIRST_LINE: usize = 32;

// How much is read at once, in bytes.
const PIECE: usize = 16384;

// Reads what is there, up to a whole piece, and returns how much it is. Errors: `Ended` and `Failed`.
fn read_some<R: Read>(reader: &mut R, piece: &mut [u8]) -> Result<usize, Refusal>
    requires { 0 < length piece.old }
    ensures within { IfOk result (λ n. (0 < n) × (n ≤ length piece.new)) }
    ensures heard { HearsSome (R.remaining reader.old) (R.remaining reader.new) piece.new result }
{
    'reads: for _ in 0..u64::MAX {
        match reader.read(piece) {
            Ok(0) => return Err(Refusal::Ended),
            Ok(n) => return Ok(n),
            Err(e) => {
                if e.kind() != ErrorKind::Interrupted {
                    break;
                }
            }
        }
    }
    Err(Refusal::Failed)
}

// The next byte. Errors: `Ended` and `Failed`.
fn read_byte<R: Read>(reader: &mut R) -> Result<u8, Refusal>
    ensures { HearsByte (R.remaining reader.old) (R.remaining reader.new) result }
{
    let mut byte = [0];
    read_some(reader, &mut byte)?;
    Ok(byte[0])
}

// How many bytes the first line says, or why none come.
fn length_said(line: &[u8]) -> Result<usize, Refusal>
    ensures { Says line.now result }
{
    if line == b"missing".as_slice() {
        return Err(Refusal::Missing);
    }
    if line == b"fault".as_slice() {
        return Err(Refusal::Fault);
    }
    let Some(digits) = line.strip_prefix(b"object ") else {
        return Err(Refusal::NoAnswer);
    };
    let Some(length) = read_length(digits) else {
        return Err(Refusal::NoAnswer);
    };
    if length > LONGEST_FRAMED {
        return Err(Refusal::TooLarge);
    }
    Ok(length as usize)
}

// Reads the first line, and returns how many bytes it says.
fn read_first_line<R: Read>(reader: &mut R) -> Result<usize, Refusal>
    ensures { HearsLine (R.remaining reader.old) (R.remaining reader.new) result }
{
    let mut line = [0; FIRST_LINE];
    'bytes: for i in 0..FIRST_LINE {
        let byte = read_byte(reader)?;
        if byte == b'\n' {
            return length_said(&line[..i]);
        }
        line[i] = byte;
    }
    Err(Refusal::NoAnswer)
}

// Puts the piece behind the bytes, in room that at most doubles, and is never made for more than so many.
fn append(bytes: &mut Vec<u8>, piece: &[u8], count: usize) -> Result<(), AllocError>
    requires { length bytes.old.items + length piece.now ≤ count }
    ensures { OnOk result (bytes.new.items ≡ bytes.old.items ++ piece.now) }
{
    let left = count - bytes.len();
    if piece.len() > bytes.capacity() - bytes.len() {
        bytes.reserve_exact(left.min(bytes.len().max(PIECE)))?;
    }
    bytes.extend_from_slice(piece)
}

// Reads so many bytes. Errors: `Memory`, `Ended` and `Failed`.
fn read_bytes<R: Read>(alloc: Global, reader: &mut R, count: usize) -> Result<Vec<u8>, Refusal>
    ensures { HearsBytes (R.remaining reader.old) (R.remaining reader.new) count result }
{
    let Ok(mut bytes) = Vec::with_capacity(alloc, count.min(PIECE)) else {
        return Err(Refusal::Memory);
    };
    if count == 0 {
        return Ok(bytes);
    }
    let mut piece = [0; PIECE];
    'reads: for _ in 0..u64::MAX {
        let room = PIECE.min(count - bytes.len());
        let n = read_some(reader, &mut piece[..room])?;
        let Ok(()) = append(&mut bytes, &piece[..n], count) else {
            return Err(Refusal::Memory);
        };
        if bytes.len() == count {
            return Ok(bytes);
        }
    }
    Err(Refusal::Failed)
}

/// Reads one answer: the framed bytes, or why there are none.
///
/// Ok and every refusal say what the bytes that were read are. `Missing` and `Fault`: that line. `TooLarge`: a first
/// line that says more than 2^30 + 16 bytes. `NoAnswer`: bytes with which no answer begins. `Ended`: a beginning of an
/// answer, and the end of the input. `Memory` and `Failed`: a beginning of one. No more than the answer is read, and
/// its first line byte by byte.
pub fn read_answer<R: Read>(alloc: Global, reader: &mut R) -> Result<Vec<u8>, Refusal>
    ensures { Hears (R.remaining reader.old) (R.remaining reader.new) result }
{
    let count = read_first_line(reader)?;
    read_bytes(alloc, reader, count)
}
