ghost use Rattle.std.specs.Prelude.{◌≡◌, ◌≤◌, ◌++◌, length, codes, decimal, if◌then◌else◌, Some, Err};
ghost use Rattle.eden_model.specs.declared.fault.CallFault.TheVariants as call;
ghost use Rattle.eden_model.specs.declared.fault.Fault.TheVariants as fault;
ghost use Rattle.eden_model.specs.declared.fault.StartFault.TheVariants as start;
ghost use Rattle.eden_model.specs.declared.reply.Reply.TheVariants as reply;
ghost use Rattle.eden_wire.specs.declared.reply.TheConstants.{PIECE, SHORT};
ghost use Rattle.std.specs.List.{flat_map};
ghost use Rattle.hex.specs.Hex.{encode_lower};
ghost use Rattle.eden_wire.specs.Writing.{WritesText, HandsOver};
ghost use Rattle.eden_wire.specs.Names.{name_text};
ghost use Rattle.eden_wire.specs.Replies.{kind_word, entry_text, error_text, cause_word, reply_text, answer_text};

use crate::escape::are_all_plain;
use crate::hex_text::encode;
use crate::output::{Output, WriteFailed};
use eden_model::{CallFault, Cause, Entries, Errno, Fault, Id, Kind, Name, Reply, StartFault};
use itoa::Buffer;
use percent_encoding::{AsciiSet, NON_ALPHANUMERIC, ascii_set, percent_encode};
use std::alloc::{AllocError, Global};
use std::io::Write;

/// All but letters, digits, `.` and `_`.
const ESCAPED: AsciiSet = ascii_set!(NON_ALPHANUMERIC.remove(b'.').remove(b'_'));

// So many bytes are made hexadecimal at once.
const PIECE: usize = 1024;

// So few bytes are made hexadecimal in a room of their own.
const SHORT: usize = 32;

// An escaped name of 255 bytes.
const LONGEST_NAME: usize = 765;

/// Room in which `write_reply` puts a text together. It is made once, for as many replies as one likes.
#[derive(Drop)]
pub struct Scratch {
    output: Output,
}

impl Scratch {
    /// Reserves the 765 bytes of an escaped name.
    pub fn new(alloc: Global) -> Result<Scratch, AllocError> {
        let output = Output::new(alloc, LONGEST_NAME)?;
        Ok(Scratch { output })
    }
}

fn put_number<W: Write>(output: &mut Output, writer: &mut W, n: u64)
    ensures { HandsOver (W.contents writer.old) (W.contents writer.new) output.old output.new (decimal n) }
{
    let mut buffer = Buffer::new();
    output.put(writer, buffer.format(n).as_bytes());
}

fn put_name<W: Write>(output: &mut Output, writer: &mut W, name: &[u8])
    ensures { HandsOver (W.contents writer.old) (W.contents writer.new) output.old output.new (name_text name.now) }
{
    if are_all_plain(name) {
        output.put(writer, name);
        return;
    }
    'pieces: for piece in percent_encode(name, ESCAPED) {
        output.put(writer, piece.as_bytes());
    }
}

// Two lower-case digits a byte, 1,024 bytes at a time.
fn put_hex<W: Write>(output: &mut Output, writer: &mut W, bytes: &[u8])
    ensures { HandsOver (W.contents writer.old) (W.contents writer.new) output.old output.new (encode_lower bytes.now) }
{
    if bytes.len() <= SHORT {
        put_short(output, writer, bytes);
        return;
    }
    let mut rest = bytes;
    'pieces: while !rest.is_empty() {
        let (piece, more) = rest.split_at(rest.len().min(PIECE));
        put_piece(output, writer, piece);
        rest = more;
    }
}

fn put_piece<W: Write>(output: &mut Output, writer: &mut W, piece: &[u8])
    requires { length piece.now ≤ PIECE }
    ensures { HandsOver (W.contents writer.old) (W.contents writer.new) output.old output.new (encode_lower piece.now) }
{
    let mut digits = [0; 2 * PIECE];
    let text = &mut digits[..2 * piece.len()];
    encode(piece, text);
    output.put(writer, text);
}

// The same for a few bytes, for which less room is filled with zeros first.
fn put_short<W: Write>(output: &mut Output, writer: &mut W, bytes: &[u8])
    requires { length bytes.now ≤ SHORT }
    ensures { HandsOver (W.contents writer.old) (W.contents writer.new) output.old output.new (encode_lower bytes.now) }
{
    let mut digits = [0; 2 * SHORT];
    let text = &mut digits[..2 * bytes.len()];
    encode(bytes, text);
    output.put(writer, text);
}

// Each text of a kind is put by its own call, whose length is known: it is then copied without a call.
fn put_kind<W: Write>(output: &mut Output, writer: &mut W, kind: Kind)
    ensures { HandsOver (W.contents writer.old) (W.contents writer.new) output.old output.new
        (reply_text (reply.Kind kind)) }
{
    match kind {
        Kind::File => output.put(writer, b"kind file\n"),
        Kind::Exec => output.put(writer, b"kind exec\n"),
        Kind::Link => output.put(writer, b"kind link\n"),
        Kind::Dir => output.put(writer, b"kind dir\n"),
    }
}

fn put_stat_front<W: Write>(output: &mut Output, writer: &mut W, kind: Kind)
    ensures { HandsOver (W.contents writer.old) (W.contents writer.new) output.old output.new
        (codes "stat " ++ kind_word kind ++ codes " ") }
{
    match kind {
        Kind::File => output.put(writer, b"stat file "),
        Kind::Exec => output.put(writer, b"stat exec "),
        Kind::Link => output.put(writer, b"stat link "),
        Kind::Dir => output.put(writer, b"stat dir "),
    }
}

fn put_stat<W: Write>(output: &mut Output, writer: &mut W, kind: Kind, size: u64, number: u64)
    ensures { HandsOver (W.contents writer.old) (W.contents writer.new) output.old output.new
        (reply_text (reply.Stat kind size number)) }
{
    put_stat_front(output, writer, kind);
    put_number(output, writer, size);
    output.put(writer, b" ");
    put_number(output, writer, number);
    output.put(writer, b"\n");
}

fn put_count<W: Write>(output: &mut Output, writer: &mut W, count: u64)
    ensures { HandsOver (W.contents writer.old) (W.contents writer.new) output.old output.new
        (reply_text (reply.Count count)) }
{
    output.put(writer, b"count ");
    put_number(output, writer, count);
    output.put(writer, b"\n");
}

fn put_data<W: Write>(output: &mut Output, writer: &mut W, bytes: &[u8])
    ensures { HandsOver (W.contents writer.old) (W.contents writer.new) output.old output.new
        (reply_text (reply.Data bytes.now)) }
{
    if bytes.is_empty() {
        output.put(writer, b"data 0\n");
        return;
    }
    output.put(writer, b"data ");
    put_number(output, writer, bytes.len() as u64);
    output.put(writer, b" ");
    put_hex(output, writer, bytes);
    output.put(writer, b"\n");
}

#[inline(always)]
fn put_entry_front<W: Write>(output: &mut Output, writer: &mut W, kind: Kind)
    ensures { HandsOver (W.contents writer.old) (W.contents writer.new) output.old output.new
        (codes " " ++ kind_word kind ++ codes " ") }
{
    match kind {
        Kind::File => output.put(writer, b" file "),
        Kind::Exec => output.put(writer, b" exec "),
        Kind::Link => output.put(writer, b" link "),
        Kind::Dir => output.put(writer, b" dir "),
    }
}

fn put_entry<W: Write>(output: &mut Output, writer: &mut W, entry: &(Name, Kind))
    ensures { HandsOver (W.contents writer.old) (W.contents writer.new) output.old output.new (entry_text entry.now) }
{
    let (name, kind) = entry;
    put_entry_front(output, writer, *kind);
    put_name(output, writer, name.as_slice());
}

fn put_rows<W: Write>(output: &mut Output, writer: &mut W, rows: &[(Name, Kind)])
    ensures { HandsOver (W.contents writer.old) (W.contents writer.new) output.old output.new
        (flat_map entry_text rows.now) }
{
    'rows: for entry in rows {
        put_entry(output, writer, entry);
    }
}

fn put_more<W: Write>(output: &mut Output, writer: &mut W, more: bool)
    ensures { HandsOver (W.contents writer.old) (W.contents writer.new) output.old output.new
        (if more then codes " more\n" else codes " end\n") }
{
    if more {
        output.put(writer, b" more\n");
    } else {
        output.put(writer, b" end\n");
    }
}

fn put_entries<W: Write>(output: &mut Output, writer: &mut W, entries: &Entries, more: bool)
    ensures { HandsOver (W.contents writer.old) (W.contents writer.new) output.old output.new
        (reply_text (reply.Entries entries.now more)) }
{
    output.put(writer, b"entries ");
    put_number(output, writer, entries.len() as u64);
    put_rows(output, writer, entries.as_slice());
    put_more(output, writer, more);
}

fn error_line(errno: Errno) -> &'static [u8]
    ensures { result.now ≡ error_text errno }
{
    match errno {
        Errno::ENOENT => b"err 2 ENOENT\n",
        Errno::EBUSY => b"err 16 EBUSY\n",
        Errno::EEXIST => b"err 17 EEXIST\n",
        Errno::ENOTDIR => b"err 20 ENOTDIR\n",
        Errno::EISDIR => b"err 21 EISDIR\n",
        Errno::EINVAL => b"err 22 EINVAL\n",
        Errno::EFBIG => b"err 27 EFBIG\n",
        Errno::ENAMETOOLONG => b"err 36 ENAMETOOLONG\n",
        Errno::ENOTEMPTY => b"err 39 ENOTEMPTY\n",
        Errno::EPROTO => b"err 71 EPROTO\n",
    }
}

/// Hands over the text of an error.
pub(crate) fn put_error<W: Write>(output: &mut Output, writer: &mut W, errno: Errno)
    ensures { HandsOver (W.contents writer.old) (W.contents writer.new) output.old output.new (error_text errno) }
{
    output.put(writer, error_line(errno));
}

fn cause_line(cause: Cause) -> &'static [u8]
    ensures { result.now ≡ cause_word cause ++ codes "\n" }
{
    match cause {
        Cause::Missing => b"Missing\n",
        Cause::Device => b"Device\n",
        Cause::BadDigest => b"BadDigest\n",
        Cause::Malformed => b"Malformed\n",
        Cause::WrongKind => b"WrongKind\n",
        Cause::TooLarge => b"TooLarge\n",
        Cause::Memory => b"Memory\n",
    }
}

fn put_id<W: Write>(output: &mut Output, writer: &mut W, id: Id)
    ensures { HandsOver (W.contents writer.old) (W.contents writer.new) output.old output.new (encode_lower id.bytes) }
{
    let mut digits = [0; 40];
    hex::encode_to_slice(&id.bytes, &mut digits).unwrap();
    output.put(writer, &digits);
}

fn put_fetch<W: Write>(output: &mut Output, writer: &mut W, id: Id, cause: Cause)
    ensures { HandsOver (W.contents writer.old) (W.contents writer.new) output.old output.new
        (reply_text (reply.Fault (fault.Fetch id cause))) }
{
    output.put(writer, b"fault fetch ");
    put_id(output, writer, id);
    output.put(writer, b" ");
    output.put(writer, cause_line(cause));
}

fn put_fault<W: Write>(output: &mut Output, writer: &mut W, fault: Fault)
    ensures { HandsOver (W.contents writer.old) (W.contents writer.new) output.old output.new
        (reply_text (reply.Fault fault)) }
{
    match fault {
        Fault::Fetch(id, cause) => put_fetch(output, writer, id, cause),
        Fault::Memory => output.put(writer, b"fault memory\n"),
        Fault::Overlay => output.put(writer, b"fault overlay\n"),
        Fault::Numbers => output.put(writer, b"fault numbers\n"),
    }
}

fn put_history<W: Write>(output: &mut Output, writer: &mut W, limit: u64)
    ensures { HandsOver (W.contents writer.old) (W.contents writer.new) output.old output.new
        (answer_text (Some (Err (call.Start (start.HistoryFull limit))))) }
{
    output.put(writer, b"fault history ");
    put_number(output, writer, limit);
    output.put(writer, b"\n");
}

fn put_start_fault<W: Write>(output: &mut Output, writer: &mut W, fault: StartFault)
    ensures { HandsOver (W.contents writer.old) (W.contents writer.new) output.old output.new
        (answer_text (Some (Err (call.Start fault)))) }
{
    match fault {
        StartFault::Busy => output.put(writer, b"fault busy\n"),
        StartFault::HistoryFull(limit) => put_history(output, writer, limit),
        StartFault::Memory => output.put(writer, b"fault memory\n"),
        StartFault::NoPass => output.put(writer, b"fault nopass\n"),
    }
}

fn put_foreign<W: Write>(output: &mut Output, writer: &mut W, floor: u64, length: u64)
    ensures { HandsOver (W.contents writer.old) (W.contents writer.new) output.old output.new
        (answer_text (Some (Err (call.Foreign floor length)))) }
{
    output.put(writer, b"fault foreign ");
    put_number(output, writer, floor);
    output.put(writer, b" ");
    put_number(output, writer, length);
    output.put(writer, b"\n");
}

/// Hands over the text of a fault of a call.
pub(crate) fn put_call_fault<W: Write>(output: &mut Output, writer: &mut W, fault: CallFault)
    ensures { HandsOver (W.contents writer.old) (W.contents writer.new) output.old output.new
        (answer_text (Some (Err fault))) }
{
    match fault {
        CallFault::Start(start) => put_start_fault(output, writer, start),
        CallFault::Foreign { floor, length } => put_foreign(output, writer, floor, length),
        CallFault::Stopped => output.put(writer, b"fault stopped\n"),
    }
}

/// Hands over the text of a reply.
pub(crate) fn put_reply<W: Write>(output: &mut Output, writer: &mut W, reply: &Reply)
    ensures { HandsOver (W.contents writer.old) (W.contents writer.new) output.old output.new (reply_text reply.now) }
{
    match reply {
        Reply::Ok => output.put(writer, b"ok\n"),
        Reply::Kind(kind) => put_kind(output, writer, *kind),
        Reply::Stat(kind, size, number) => put_stat(output, writer, *kind, *size, *number),
        Reply::Data(bytes) => put_data(output, writer, bytes.as_slice()),
        Reply::Count(count) => put_count(output, writer, *count),
        Reply::Entries(entries, more) => put_entries(output, writer, entries, *more),
        Reply::Err(errno) => put_error(output, writer, *errno),
        Reply::Fault(fault) => put_fault(output, writer, *fault),
    }
}

/// Writes the text of a reply, and takes no memory. At an error a beginning of the text was written.
pub fn write_reply<W: Write>(
    writer: &mut W,
    scratch: &mut Scratch,
    reply: &Reply,
) -> Result<(), WriteFailed>
    ensures { WritesText (W.contents writer.old) (W.contents writer.new) result (reply_text reply.now) }
{
    scratch.output.clear();
    put_reply(&mut scratch.output, writer, reply);
    scratch.output.flush(writer)
}
