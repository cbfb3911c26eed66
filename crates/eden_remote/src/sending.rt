// What goes out to a peer.
ghost use Rattle.std.specs.Prelude.{◌≡◌, ◌≤◌, ◌++◌, take, length, IfErr};
ghost use Rattle.std.specs.Io.KnownBytes.{Appends};
ghost use Rattle.hex.specs.Hex.{encode_lower};
ghost use Rattle.eden_remote.specs.Protocol.{get_line, object_text, SendsUpTo};

use crate::line::get_line;
use crate::refusal::Refusal;
use crate::text::{ROOM, Text};
use eden_model::Id;
use itoa::Buffer;
use std::io::{ErrorKind, Write};

// The most bytes before an object's own: the word, a number of 20 digits and a line feed.
const HEAD: usize = 28;

/// A write failed.
#[derive(Clone, Copy)]
pub(crate) struct Unsent;

// Writes the bytes, or at a failed write a beginning of them, and returns how many were written.
fn send_some<W: Write>(writer: &mut W, bytes: &[u8]) -> usize
    ensures within { result ≤ length bytes.now }
    ensures sent { Appends (W.contents writer.old) (W.contents writer.new) (take result bytes.now) }
{
    let mut sent = 0;
    'writes: for _ in 0..u64::MAX {
        if sent == bytes.len() {
            break;
        }
        match writer.write(&bytes[sent..]) {
            Ok(0) => break,
            Ok(n) => sent += n,
            Err(e) => {
                if e.kind() != ErrorKind::Interrupted {
                    break;
                }
            }
        }
    }
    sent
}

/// Writes the text, or at the error a beginning of it.
pub(crate) fn send<W: Write>(writer: &mut W, text: &[u8]) -> Result<(), Unsent>
    ensures { SendsUpTo (W.contents writer.old) (W.contents writer.new) text.now result }
{
    if send_some(writer, text) < text.len() || writer.flush().is_err() {
        return Err(Unsent);
    }
    Ok(())
}

// Writes a text, and behind it another.
fn send_both<W: Write>(writer: &mut W, head: &[u8], body: &[u8]) -> Result<(), Unsent>
    ensures { SendsUpTo (W.contents writer.old) (W.contents writer.new) (head.now ++ body.now) result }
{
    if send_some(writer, head) < head.len() {
        return Err(Unsent);
    }
    send(writer, body)
}

/// Writes the answer that gives an object: a short one by one write, and a long one's bytes from where they lie.
pub(crate) fn send_object<W: Write>(writer: &mut W, framed: &[u8]) -> Result<(), Unsent>
    ensures { SendsUpTo (W.contents writer.old) (W.contents writer.new) (object_text framed.now) result }
{
    let mut text = Text::new();
    text.push(b"object ");
    text.push(Buffer::new().format(framed.len()).as_bytes());
    text.push(b"\n");
    if framed.len() > ROOM - HEAD {
        return send_both(writer, text.as_slice(), framed);
    }
    text.push(framed);
    send(writer, text.as_slice())
}

/// Asks a server for the object. The error is `Failed`, where a write failed: a beginning of the line is written.
pub fn ask<W: Write>(writer: &mut W, id: Id) -> Result<(), Refusal>
    ensures sent { SendsUpTo (W.contents writer.old) (W.contents writer.new) (get_line (encode_lower id.bytes)) result }
    ensures failed { IfErr result (λ e. e ≡ Refusal.Failed) }
{
    send(writer, get_line(id).as_slice()).map_err(|_| Refusal::Failed)
}
