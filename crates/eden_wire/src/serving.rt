ghost use Rattle.std.specs.Prelude.{◌≡◌, ◌≤◌, length, take, drop, MatchOption};
ghost use Rattle.eden_wire.specs.Lines.{longest_line, IsOneLine, IsLineOf};
ghost use Rattle.eden_wire.specs.Writing.{IsIdle};
ghost use Rattle.eden_wire.specs.Serving.{Session};
ghost use Rattle.eden_wire.specs.Turns.{Turn, Run, Answered, Ended};

use crate::input::{Input, PIECE};
use crate::output::{Output, WriteFailed};
use crate::reply::{put_call_fault, put_error, put_reply};
use crate::request::{Item, read_request};
use crate::service::Service;
use crate::session_fault::SessionFault;
use eden_model::{CallFault, Errno, StartFault};
use memchr::memchr;
use std::alloc::Global;
use std::io::{ErrorKind, Read, Write};

/// The longest line in bytes, without its line feed.
pub const LONGEST_LINE: usize = 150000;

// Answers one line, and returns whether the session goes on.
fn answer<W: Write, S: Service>(
    alloc: Global,
    line: &[u8],
    output: &mut Output,
    writer: &mut W,
    service: &mut S,
) -> bool
    requires one { IsOneLine line.now }
    requires short { length line.now ≤ longest_line }
    ensures { Turn S.answers service.old service.new (W.contents writer.old)
        (W.contents writer.new) output.old output.new line.now result }
{
    match read_request(alloc, line) {
        Err(_) => {
            put_call_fault(output, writer, CallFault::Start(StartFault::Memory));
            true
        }
        Ok(Item::Bad) => {
            put_error(output, writer, Errno::EPROTO);
            false
        }
        Ok(Item::Refuses(errno)) => {
            put_error(output, writer, errno);
            true
        }
        Ok(Item::Asks(request)) => match service.call(request) {
            Ok(reply) => {
                put_reply(output, writer, reply);
                true
            }
            Err(fault) => {
                put_call_fault(output, writer, fault);
                true
            }
        },
    }
}

// The length of the first line, if it is ended. So many of the bytes are known to hold no line feed.
fn line_len(bytes: &[u8], searched: usize) -> Option<usize>
    requires within { searched ≤ length bytes.now }
    requires none { IsOneLine (take searched bytes.now) }
    ensures { MatchOption result (IsOneLine bytes.now) (IsLineOf bytes.now) }
{
    let at = memchr(b'\n', &bytes[searched..])?;
    Some(searched + at)
}

// Answers the whole lines among the bytes, up to one that is bad or a failed write, and returns how many bytes they are
// and whether the session goes on.
fn answer_lines<W: Write, S: Service>(
    alloc: Global,
    bytes: &[u8],
    searched: usize,
    output: &mut Output,
    writer: &mut W,
    service: &mut S,
) -> (usize, bool)
    requires within { searched ≤ length bytes.now }
    requires none { IsOneLine (take searched bytes.now) }
    ensures within { result.0 ≤ length bytes.now }
    ensures answered { Run S.answers service.old service.new (W.contents writer.old)
        (W.contents writer.new) output.old output.new bytes.now (drop result.0 bytes.now) result.1 }
{
    let mut used = 0;
    let mut skip = searched;
    'lines: for _ in 0..bytes.len() {
        let rest = &bytes[used..];
        let Some(len) = line_len(rest, skip) else {
            break;
        };
        if len > LONGEST_LINE {
            put_error(output, writer, Errno::EPROTO);
            return (used, false);
        }
        if !answer(alloc, &rest[..len], output, writer, service) {
            return (used, false);
        }
        used += len + 1;
        skip = 0;
        if output.has_failed() {
            return (used, true);
        }
    }
    if bytes.len() - used > LONGEST_LINE {
        put_error(output, writer, Errno::EPROTO);
        return (used, false);
    }
    (used, true)
}

// Answers the whole lines among the bytes, and writes the answers out.
fn answer_piece<W: Write, S: Service>(
    alloc: Global,
    bytes: &[u8],
    searched: usize,
    output: &mut Output,
    writer: &mut W,
    service: &mut S,
) -> (usize, Result<bool, WriteFailed>)
    requires within { searched ≤ length bytes.now }
    requires none { IsOneLine (take searched bytes.now) }
    requires idle { IsIdle output.old }
    ensures within { result.0 ≤ length bytes.now }
    ensures answered { Answered S.answers service.old service.new (W.contents writer.old)
        (W.contents writer.new) output.new bytes.now (drop result.0 bytes.now) result.1 }
{
    let (used, goes_on) = answer_lines(alloc, bytes, searched, output, writer, service);
    match output.flush(writer) {
        Ok(()) => (used, Ok(goes_on)),
        Err(e) => (used, Err(e)),
    }
}

/// Answers each line that comes in, until the input ends or a line is no request.
///
/// Answers are written out before more input is waited for, and at the end. Ok says that the input ended or a line was
/// bad. At `Read` the answers to all whole lines that were read are written, at `Write` a beginning of them. `Memory`
/// comes before the first read alone; a line that finds no memory later is answered `fault memory`.
pub fn session<R: Read, W: Write, S: Service>(
    alloc: Global,
    reader: &mut R,
    writer: &mut W,
    service: &mut S,
) -> Result<(), SessionFault>
    ensures { Session S.answers (service.old, service.new) (R.remaining reader.old, R.remaining reader.new)
        (W.contents writer.old, W.contents writer.new) result }
{
    let Ok(mut input) = Input::new(alloc) else {
        return Err(SessionFault::Memory);
    };
    let Ok(mut output) = Output::new(alloc, PIECE) else {
        return Err(SessionFault::Memory);
    };
    'reads: for _ in 0..u64::MAX {
        let searched = input.as_slice().len();
        match input.read(reader) {
            Ok(0) => return end(input.as_slice(), &mut output, writer),
            Ok(_) => {
                let bytes = input.as_slice();
                let (used, outcome) = answer_piece(
                    alloc,
                    bytes,
                    searched,
                    &mut output,
                    writer,
                    service,
                );
                match outcome {
                    Ok(true) => input.drop_front(used),
                    Ok(false) => return Ok(()),
                    Err(_) => return Err(SessionFault::Write),
                }
            }
            Err(e) => {
                if e.kind() != ErrorKind::Interrupted {
                    return Err(SessionFault::Read);
                }
            }
        }
    }
    Err(SessionFault::Read)
}

// The input has ended, with these bytes after its last line feed.
fn end<W: Write>(rest: &[u8], output: &mut Output, writer: &mut W) -> Result<(), SessionFault>
    requires one { IsOneLine rest.now }
    requires idle { IsIdle output.old }
    ensures { Ended rest.now (W.contents writer.old) (W.contents writer.new) result }
{
    if rest.is_empty() {
        return Ok(());
    }
    put_error(output, writer, Errno::EPROTO);
    match output.flush(writer) {
        Ok(()) => Ok(()),
        Err(_) => Err(SessionFault::Write),
    }
}
