// A loose object: one framed object as a zlib stream.
ghost use Rattle.std.specs.Prelude.{◌≡◌, ◌≤◌, length, IfOk, IfErr};
ghost use Rattle.eden_object.specs.Frames.{longest_framed};
ghost use Rattle.eden_pack_format.specs.Causes.{IsReadingCause};
ghost use Rattle.eden_git.specs.Framing.{IsFramedObject};

use crate::framing::{push_header, read_header};
use eden_inflate::{Decoder, Refusal};
use eden_model::Cause;
use eden_source::LONGEST_FRAMED;
use std::alloc::Global;

/// No header is longer, whatever its number.
const FRONT: usize = 32;

/// The framed object whose zlib stream the bytes begin with.
///
/// `Device`, where they begin with none; `TooLarge`, where its header says that its body has more than 2^30 bytes, or
/// where all of it has more than a source may give; `Memory`, where it finds none.
pub fn read_loose(decoder: &mut Decoder, alloc: Global, stream: &[u8]) -> Result<Vec<u8>, Cause>
    ensures framed { IfOk result (λ v. IsFramedObject v.items) }
    ensures bounded { IfOk result (λ v. length v.items ≤ longest_framed) }
    ensures causes { IfErr result IsReadingCause }
{
    let mut framed = Vec::new(alloc);
    decoder
        .inflate_front(alloc, stream, FRONT, &mut framed)
        .map_err(cause_of)?;
    let (word, size) = read_header(&framed)?;
    let mut header = Vec::new(alloc);
    push_header(&mut header, word, size).map_err(|_| Cause::Memory)?;
    let total = header.len() + size;
    if total as u64 > LONGEST_FRAMED {
        return Err(Cause::TooLarge);
    }
    decoder
        .inflate(alloc, stream, total, &mut framed)
        .map_err(cause_of)?;
    if framed.starts_with(&header) {
        Ok(framed)
    } else {
        Err(Cause::Device)
    }
}

// What a source answers where a stream is refused.
pub(crate) fn cause_of(refusal: Refusal) -> Cause
    ensures { IsReadingCause result }
{
    match refusal {
        Refusal::OutOfMemory => Cause::Memory,
        _ => Cause::Device,
    }
}
