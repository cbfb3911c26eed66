// The server's end.
ghost use Rattle.std.specs.Prelude.{◌≡◌};
ghost use Rattle.eden_remote.specs.Serving.{Answered, Served};

use crate::fault::AnswerFault;
use crate::line::{LINE, Line, judge};
use crate::sending::{Unsent, send, send_object};
use eden_model::{Cause, Id, World};
use eden_source::Source;
use std::alloc::Global;
use std::io::{ErrorKind, Read, Write};

// Asks the source for the object, and writes the answer.
fn answer<W: World, S: Source<W>, O: Write>(
    alloc: Global,
    writer: &mut O,
    source: &mut S,
    id: Id,
) -> Result<(), Unsent>
    ensures { Answered S.fetched source.old source.new
        (O.contents writer.old) (O.contents writer.new) id result }
{
    match source.fetch(alloc, id) {
        Ok(framed) => send_object(writer, framed.as_slice()),
        Err(Cause::Missing) => send(writer, b"missing\n"),
        Err(_) => send(writer, b"fault\n"),
    }
}

/// Answers each line `get ID` that comes in, until the input ends or a line is no such line.
///
/// ID is 40 lower-case hexadecimal digits. An answer is `object N`, a line feed and the N framed bytes that the source
/// gave; `missing`, where it has no such object; or `fault` for every other cause. It is written, and the writer
/// flushed, before the next line is read, so a socket wants no delay of small writes. No memory is taken but for what
/// the source gives.
///
/// Ok says that the input ended, whole lines or not, or that a line was another; all lines before it are answered. At
/// `Read`, a failed read or 2^64 - 1 reads, so they are too; at `Write` the last answer is a beginning of one.
pub fn answer_objects<W: World, S: Source<W>, R: Read, O: Write>(
    alloc: Global,
    reader: &mut R,
    writer: &mut O,
    source: &mut S,
) -> Result<(), AnswerFault>
    ensures { Served S.fetched (source.old, source.new)
        (R.remaining reader.old, R.remaining reader.new)
        (O.contents writer.old, O.contents writer.new) result }
{
    let mut line = [0; LINE];
    let mut len = 0;
    'reads: for _ in 0..u64::MAX {
        match reader.read(&mut line[len..]) {
            Ok(0) => return Ok(()),
            Ok(n) => {
                len += n;
                match judge(&line[..len]) {
                    Line::Part => {}
                    Line::Other => return Ok(()),
                    Line::Asks(id) => match answer(alloc, writer, source, id) {
                        Ok(()) => len = 0,
                        Err(_) => return Err(AnswerFault::Write),
                    },
                }
            }
            Err(e) => {
                if e.kind() != ErrorKind::Interrupted {
                    break;
                }
            }
        }
    }
    Err(AnswerFault::Read)
}
