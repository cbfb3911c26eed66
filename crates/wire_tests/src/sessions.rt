//! What sessions say.
ghost use Rattle.std.specs.Prelude.{◌≡◌};

use crate::replies::repeated;
use eden_model::{Bytes, CallFault, Entries, Kind, Name, Reply, Request, StartFault};
use eden_wire::{Item, LONGEST_LINE, Service, SessionFault, read_request, session};
use std::alloc::Global;
use std::cell::Cell;
use std::io;
use std::io::{Read, Write};
use std::process::Abort;

// A mount in which everything is a directory with one entry, and a file of ten bytes that each change is made to.
#[derive(Drop)]
struct Small {
    kind: Reply,
    content: Reply,
    listing: Reply,
    done: Reply,
    refused: Option<CallFault>,
}

// What of a small mount a request is about.
#[derive(Clone, Copy)]
enum Part {
    Kind,
    Content,
    Listing,
    Change,
}

fn part_of(request: &Request) -> Part {
    match request {
        Request::Kind(_) | Request::Stat(_) => Part::Kind,
        Request::Read(_, _, _) | Request::ReadLink(_) => Part::Content,
        Request::List(_, _, _) => Part::Listing,
        _ => Part::Change,
    }
}

impl Small {
    fn reply(&self, part: Part) -> &Reply {
        match part {
            Part::Kind => &self.kind,
            Part::Content => &self.content,
            Part::Listing => &self.listing,
            Part::Change => &self.done,
        }
    }
}

impl Service for Small {
    ghost answers = { λ s q r t. t ≡ s };

    fn call(&mut self, request: Request) -> Result<&Reply, CallFault> {
        let part = part_of(&request);
        drop(request);
        match self.refused {
            Some(fault) => Err(fault),
            None => Ok(self.reply(part)),
        }
    }
}

fn bytes_of(rt: &impl Abort, alloc: Global, bytes: &[u8]) -> Vec<u8> {
    Vec::from_slice(alloc, bytes).expect(rt, "memory")
}

fn name(rt: &impl Abort, alloc: Global, bytes: &[u8]) -> Name {
    Name::new(bytes_of(rt, alloc, bytes)).expect(rt, "a name")
}

pub(crate) fn data(rt: &impl Abort, alloc: Global, bytes: &[u8]) -> Reply {
    Reply::Data(Bytes::new(bytes_of(rt, alloc, bytes)))
}

pub(crate) fn entry(rt: &impl Abort, alloc: Global, bytes: &[u8], kind: Kind, more: bool) -> Reply {
    let mut rows = Vec::new(alloc);
    let row = (name(rt, alloc, bytes), kind);
    rows.push(row).expect(rt, "memory");
    Reply::Entries(Entries::new(rows), more)
}

// One that answers each request with that fault, if with one.
fn make_small(rt: &impl Abort, alloc: Global, refused: Option<CallFault>) -> Small {
    Small {
        kind: Reply::Kind(Kind::Dir),
        content: data(rt, alloc, b"version 1\n"),
        listing: entry(rt, alloc, b"test.txt", Kind::File, false),
        done: Reply::Ok,
        refused,
    }
}

// How a session over a small mount ends.
fn serve<R: Read, W: Write>(
    rt: &impl Abort,
    alloc: Global,
    refused: Option<CallFault>,
    reader: &mut R,
    writer: &mut W,
) -> Result<(), SessionFault> {
    let mut service = make_small(rt, alloc, refused);
    let ended = session(alloc, reader, writer, &mut service);
    drop(service);
    ended
}

// Gives at most `size` bytes a call; call number `bad` fails.
#[derive(Drop)]
struct Pieces<'a> {
    bytes: &'a [u8],
    size: usize,
    calls: u32,
    bad: u32,
}

impl<'a> Read for Pieces<'a> {
    fn read(&mut self, buf: &mut [u8]) -> io::Result<usize> {
        self.calls = self.calls.saturating_add(1);
        if self.calls == self.bad {
            return Err(io::Error::from(io::ErrorKind::BrokenPipe));
        }
        let n = self.size.min(buf.len()).min(self.bytes.len());
        buf[..n].copy_from_slice(&self.bytes[..n]);
        self.bytes = &self.bytes[n..];
        Ok(n)
    }
}

fn make_pieces(bytes: &[u8], size: usize) -> Pieces<'_> {
    Pieces {
        bytes,
        size,
        calls: 0,
        bad: 0,
    }
}

// Takes at most `size` bytes a call; call number `bad` fails, be it a write or a flush.
#[derive(Drop)]
pub(crate) struct Sink {
    pub(crate) got: Vec<u8>,
    size: usize,
    pub(crate) calls: u32,
    bad: u32,
}

impl Sink {
    fn count(&mut self) -> io::Result<()> {
        self.calls = self.calls.saturating_add(1);
        if self.calls == self.bad {
            return Err(io::Error::from(io::ErrorKind::BrokenPipe));
        }
        Ok(())
    }
}

impl Write for Sink {
    fn write(&mut self, buf: &[u8]) -> io::Result<usize> {
        self.count()?;
        let n = self.size.min(buf.len());
        self.got.extend_from_slice(&buf[..n])?;
        Ok(n)
    }

    fn flush(&mut self) -> io::Result<()> {
        self.count()
    }
}

pub(crate) fn make_sink(alloc: Global, size: usize) -> Sink {
    Sink {
        got: Vec::new(alloc),
        size,
        calls: 0,
        bad: 0,
    }
}

pub(crate) const MOST: usize = 1 << 20;

const LINES: &[u8] =
    b"kind /\nread /test.txt 0 20\nlist / - 1\nwrite /a 0 78\nrename /a /%2F\nkind /..\n";

const TEXTS: &[u8] =
    b"kind dir\ndata 10 76657273696f6e20310a\nentries 1 file test.txt end\nok\nerr 22 EINVAL\nerr 22 EINVAL\n";

// A session over this input, in pieces of that size.
fn answer(rt: &impl Abort, alloc: Global, input: &[u8], size: usize, writer: &mut Sink) {
    let mut reader = make_pieces(input, size);
    let ended = serve(rt, alloc, None, &mut reader, writer);
    assert!(rt; ended == Ok(()));
}

// What a session says to this input.
fn said(rt: &impl Abort, alloc: Global, input: &[u8], size: usize) -> Vec<u8> {
    let mut writer = make_sink(alloc, size);
    answer(rt, alloc, input, size, &mut writer);
    writer.got
}

// Whether a session says that to this input.
fn says(rt: &impl Abort, alloc: Global, input: &[u8], size: usize, want: &[u8]) -> bool {
    said(rt, alloc, input, size).as_slice() == want
}

#[test]
fn pieces_of_any_size(rt: HostRuntime) {
    for size in [1, 2, 7, 8, MOST] {
        assert!(rt;
            says(&rt, rt.alloc(), LINES, size, TEXTS),
            "pieces of {size}"
        );
    }
}

// How a session ends whose reader fails at that call, or at none.
fn ended(
    rt: &impl Abort,
    alloc: Global,
    bad_read: u32,
    writer: &mut Sink,
) -> Result<(), SessionFault> {
    let mut reader = make_pieces(LINES, 1);
    reader.bad = bad_read;
    serve(rt, alloc, None, &mut reader, writer)
}

// Whether a reader that fails at that call ends it, with all whole lines before answered.
fn fails_read(rt: &impl Abort, alloc: Global, bad: u32) -> bool {
    let mut writer = make_sink(alloc, 1);
    ended(rt, alloc, bad, &mut writer) == Err(SessionFault::Read)
        && TEXTS.starts_with(writer.got.as_slice())
        && writer.got.ends_with(b"\n") == (bad > 7)
}

#[test]
fn each_failed_read(rt: HostRuntime) {
    for bad in 1..=LINES.len() as u32 {
        assert!(rt; fails_read(&rt, rt.alloc(), bad), "call {bad}");
    }
}

// Whether a writer that fails at that call ends it, and is called no more.
fn fails_write(rt: &impl Abort, alloc: Global, bad: u32) -> bool {
    let mut writer = make_sink(alloc, 1);
    writer.bad = bad;
    ended(rt, alloc, 0, &mut writer) == Err(SessionFault::Write)
        && TEXTS.starts_with(writer.got.as_slice())
        && writer.calls == bad
}

#[test]
fn each_failed_write(rt: HostRuntime) {
    for bad in 1..=TEXTS.len() as u32 + 6 {
        assert!(rt; fails_write(&rt, rt.alloc(), bad), "call {bad}");
    }
}

// Fails as interrupted at each other call.
#[derive(Drop)]
struct Interrupted<'a> {
    reader: Pieces<'a>,
    writer: Sink,
    odd: bool,
}

impl<'a> Interrupted<'a> {
    fn turn(&mut self) -> io::Result<()> {
        self.odd = !self.odd;
        if self.odd {
            return Err(io::Error::from(io::ErrorKind::Interrupted));
        }
        Ok(())
    }
}

impl<'a> Read for Interrupted<'a> {
    fn read(&mut self, buf: &mut [u8]) -> io::Result<usize> {
        self.turn()?;
        self.reader.read(buf)
    }
}

impl<'a> Write for Interrupted<'a> {
    fn write(&mut self, buf: &[u8]) -> io::Result<usize> {
        self.turn()?;
        self.writer.write(buf)
    }

    fn flush(&mut self) -> io::Result<()> {
        Ok(())
    }
}

fn make_interrupted(alloc: Global, bytes: &[u8]) -> Interrupted<'_> {
    Interrupted {
        reader: make_pieces(bytes, 5),
        writer: make_sink(alloc, 5),
        odd: false,
    }
}

// Whether all is answered over a reader and a writer that are interrupted.
fn is_answered(rt: &impl Abort, alloc: Global, writer: &mut Interrupted<'_>) -> bool {
    let mut reader = make_interrupted(alloc, LINES);
    serve(rt, alloc, None, &mut reader, writer) == Ok(())
}

#[test]
fn interrupted_reads_and_writes_are_made_again(rt: HostRuntime) {
    let mut writer = make_interrupted(rt.alloc(), b"");
    assert!(rt; is_answered(&rt, rt.alloc(), &mut writer) && writer.writer.got.as_slice() == TEXTS);
}

// Inputs, and what a session says to them.
const ENDS: &[(&[u8], &[u8])] = &[
    (b"", b""),
    (b"kind /", b"err 71 EPROTO\n"),
    (b"\n", b"err 71 EPROTO\n"),
    (b"kind /\n\nkind /\n", b"kind dir\nerr 71 EPROTO\n"),
    (b"kind /\nx\nkind /\n", b"kind dir\nerr 71 EPROTO\n"),
];

#[test]
fn ends_of_input(rt: HostRuntime) {
    for (at, (input, want)) in ENDS.iter().enumerate() {
        assert!(rt; says(&rt, rt.alloc(), input, MOST, want), "at {at}");
    }
}

// Whether a session says that to one line.
fn is_reply(rt: &impl Abort, alloc: Global, line: &[u8], want: &[u8]) -> bool {
    let mut input = bytes_of(rt, alloc, line);
    input.push(b'\n').expect(rt, "memory");
    says(rt, alloc, input.as_slice(), MOST, want)
}

// To each of the lines a session says that.
fn all_reply(rt: &impl Abort, alloc: Global, lines: &[&[u8]], want: &[u8]) {
    for (at, line) in lines.iter().enumerate() {
        assert!(rt; is_reply(rt, alloc, line, want), "at {at}");
    }
}

const NO_REQUESTS: &[&[u8]] = &[
    b"read /a 00 1",
    b"read /a 0  1",
    b"read /a 0 1 ",
    b"read /a 18446744073709551616 1",
    b"read /.. x 1",
    b"read /a 0",
    b"readlin /a",
    b"readlink /a 0",
    b"readlink",
    b"kind //",
    b"kind /a/",
    b"kind a",
    b"kind ",
    b"kind",
    b"kind  /",
    b"kind / ",
    b" kind /",
    b"Kind /",
    b"kind /%61",
    b"kind /%2f",
    b"kind /%2",
    b"kind /a-b",
    b"list / a- 1",
    b"list /  1",
    b"look /",
    b"write /a 0 0",
    b"write /a 0 AB",
    b"write /a 0 ab-",
    b"write /a 0 ",
    b"write /a 0 --",
    b"symlink /a",
    b"truncate /a -1",
    b"setexec /a 2",
    b"setexec /a 01",
    b"rename /a",
    b"rename /a -",
];

#[test]
fn lines_that_are_no_requests(rt: HostRuntime) {
    all_reply(&rt, rt.alloc(), NO_REQUESTS, b"err 71 EPROTO\n");
}

const REFUSED: &[&[u8]] = &[
    b"kind /%2F",
    b"kind /.",
    b"kind /..",
    b"kind /%00",
    b"stat /a/../b",
    b"list / .. 1",
    b"list / %2F 1",
    b"write /. 0 -",
    b"rename /a /..",
];

#[test]
fn lines_that_are_refused(rt: HostRuntime) {
    all_reply(&rt, rt.alloc(), REFUSED, b"err 22 EINVAL\n");
}

// This many names of this many bytes, which are too many.
const TOO_LONG: &[(usize, usize)] = &[(1, 256), (257, 1), (16, 255)];

// Whether such a line is refused.
fn is_too_long(rt: &impl Abort, alloc: Global, names: usize, len: usize) -> bool {
    let line = deep(rt, alloc, names, len);
    is_reply(rt, alloc, line.as_slice(), b"err 36 ENAMETOOLONG\n")
}

#[test]
fn lines_that_are_too_long(rt: HostRuntime) {
    for (names, len) in TOO_LONG {
        assert!(rt; is_too_long(&rt, rt.alloc(), *names, *len));
    }
}

// A name of this many bytes `a`, after a slash.
fn push_name(rt: &impl Abort, line: &mut Vec<u8>, len: usize) {
    line.push(b'/').expect(rt, "memory");
    for _ in 0..len {
        line.push(b'a').expect(rt, "memory");
    }
}

// A line `kind` of a path of this many names, each of this many bytes `a`.
fn deep(rt: &impl Abort, alloc: Global, names: usize, len: usize) -> Vec<u8> {
    let mut line = bytes_of(rt, alloc, b"kind ");
    for _ in 0..names {
        push_name(rt, &mut line, len);
    }
    line
}

// Lines, and the requests that they are, with what stands after the path `/a`.
const SPELLINGS: &[(&[u8], &str, &str)] = &[
    (b"kind /a", "Kind", ""),
    (b"stat /a", "Stat", ""),
    (
        b"read /a 18446744073709551615 0",
        "Read",
        ", 18446744073709551615, 0",
    ),
    (b"readlink /a", "ReadLink", ""),
    (b"list /a - 1", "List", ", None, 1"),
    (
        b"list /a .%FF 1000",
        "List",
        ", Some(Name { bytes: [46, 255] }), 1000",
    ),
    (
        b"write /a 7 00ff1a",
        "Write",
        ", 7, Bytes { content: [0, 255, 26] }",
    ),
    (b"write /a 7 -", "Write", ", 7, Bytes { content: [] }"),
    (b"truncate /a 3", "Truncate", ", 3"),
    (b"create /a", "Create", ""),
    (b"setexec /a 0", "SetExec", ", false"),
    (b"setexec /a 1", "SetExec", ", true"),
    (b"mkdir /a", "Mkdir", ""),
    (b"symlink /a 2e", "Symlink", ", Bytes { content: [46] }"),
    (b"unlink /a", "Unlink", ""),
    (b"rmdir /a", "Rmdir", ""),
    (b"rename /a /", "Rename", ", Path { names: [] }"),
];

fn text_of(rt: &impl Abort, alloc: Global, item: &Item) -> String {
    format!(in alloc; "{item:?}").expect(rt, "memory")
}

// What a line is read as.
fn read(rt: &impl Abort, alloc: Global, line: &[u8]) -> String {
    let item = read_request(alloc, line).expect(rt, "memory");
    let text = text_of(rt, alloc, &item);
    drop(item);
    text
}

// How a request of the path `/a` is told.
fn request(rt: &impl Abort, alloc: Global, name: &str, rest: &str) -> String {
    let path = "Path { names: [Name { bytes: [97] }] }";
    format!(in alloc; "Asks({name}({path}{rest}))").expect(rt, "memory")
}

fn is_spelled(rt: &impl Abort, alloc: Global, line: &[u8], name: &str, rest: &str) -> bool {
    read(rt, alloc, line) == request(rt, alloc, name, rest)
}

#[test]
fn spellings_of_requests(rt: HostRuntime) {
    for (line, name, rest) in SPELLINGS {
        assert!(rt;
            is_spelled(&rt, rt.alloc(), line, name, rest),
            "{name}{rest}"
        );
    }
}

// A line that writes this many bytes.
fn long_write(rt: &impl Abort, alloc: Global, count: usize) -> Vec<u8> {
    let mut line = bytes_of(rt, alloc, b"write /a 0 ");
    for _ in 0..count {
        line.extend_from_slice(b"a5").expect(rt, "memory");
    }
    line
}

#[test]
fn long_data_is_a_request(rt: HostRuntime) {
    let line = long_write(&rt, rt.alloc(), 65_537);
    assert!(rt; is_reply(&rt, rt.alloc(), line.as_slice(), b"ok\n"));
}

// Whether the line has as many bytes as a line may have, and is answered so.
fn is_longest(rt: &impl Abort, alloc: Global, line: &[u8], want: &[u8]) -> bool {
    line.len() == LONGEST_LINE + 1 && says(rt, alloc, line, 1, want)
}

#[test]
fn the_longest_line(rt: HostRuntime) {
    let mut line = deep(&rt, rt.alloc(), 1, 149_994);
    line.push(b'\n').expect(&rt, "memory");
    let want = b"err 36 ENAMETOOLONG\n";
    assert!(rt; is_longest(&rt, rt.alloc(), line.as_slice(), want));
}

// Whether so long a line is answered once it is too long, with one call more to read.
fn is_answered_early(rt: &impl Abort, alloc: Global, line: &[u8], want: &[u8]) -> bool {
    let mut reader = make_pieces(line, 1);
    reader.bad = 150_002;
    let mut writer = make_sink(alloc, MOST);
    serve(rt, alloc, None, &mut reader, &mut writer) == Ok(())
        && writer.got.as_slice() == want
        && reader.calls == 150_001
}

#[test]
fn a_longer_line_is_answered_at_once(rt: HostRuntime) {
    let line = deep(&rt, rt.alloc(), 1, 149_995);
    let want = b"err 71 EPROTO\n";
    assert!(rt; is_answered_early(&rt, rt.alloc(), line.as_slice(), want));
}

#[test]
fn many_replies_in_few_writes(rt: HostRuntime) {
    let input = b"kind /\n".repeat(rt.alloc(), 100_000);
    let input = input.expect(&rt, "memory");
    let mut writer = make_sink(rt.alloc(), MOST);
    answer(&rt, rt.alloc(), input.as_slice(), 65_536, &mut writer);
    assert!(rt; writer.got.len() == 900_000 && writer.calls < 1_000);
}

// Sends a line once the reply to the one before is there, and fails otherwise.
#[derive(Drop)]
struct Waiting<'a> {
    replies: &'a Cell<u32>,
    sent: u32,
}

impl<'a> Read for Waiting<'a> {
    fn read(&mut self, buf: &mut [u8]) -> io::Result<usize> {
        if self.replies.get() != self.sent {
            return Err(io::Error::from(io::ErrorKind::TimedOut));
        }
        if self.sent == 3 || buf.len() < 7 {
            return Ok(0);
        }
        self.sent = self.sent.saturating_add(1);
        buf[..7].copy_from_slice(b"kind /\n");
        Ok(7)
    }
}

// Counts the line feeds that are flushed.
#[derive(Drop)]
struct Counting<'a> {
    replies: &'a Cell<u32>,
    unflushed: u32,
}

impl<'a> Write for Counting<'a> {
    fn write(&mut self, buf: &[u8]) -> io::Result<usize> {
        for b in buf {
            if *b == b'\n' {
                self.unflushed = self.unflushed.saturating_add(1);
            }
        }
        Ok(buf.len())
    }

    fn flush(&mut self) -> io::Result<()> {
        self.replies
            .set(self.replies.get().saturating_add(self.unflushed));
        self.unflushed = 0;
        Ok(())
    }
}

#[test]
fn a_client_that_waits_gets_its_reply(rt: HostRuntime) {
    let replies = Cell::new(0);
    let mut reader = Waiting {
        replies: &replies,
        sent: 0,
    };
    let mut writer = Counting {
        replies: &replies,
        unflushed: 0,
    };
    assert!(rt; serve(&rt, rt.alloc(), None, &mut reader, &mut writer) == Ok(()));
    assert!(rt; replies.get() == 3);
}

const CALL_FAULTS: &[(CallFault, &[u8])] = &[
    (CallFault::Start(StartFault::Busy), b"fault busy\n"),
    (
        CallFault::Start(StartFault::HistoryFull(3)),
        b"fault history 3\n",
    ),
    (CallFault::Start(StartFault::Memory), b"fault memory\n"),
    (CallFault::Start(StartFault::NoPass), b"fault nopass\n"),
    (
        CallFault::Foreign {
            floor: 7,
            length: 2,
        },
        b"fault foreign 7 2\n",
    ),
    (CallFault::Stopped, b"fault stopped\n"),
];

// Whether a session says that to a request that ends in that fault.
fn says_of(rt: &impl Abort, alloc: Global, fault: CallFault, want: &[u8]) -> bool {
    let mut reader = make_pieces(b"kind /\n", MOST);
    let mut writer = make_sink(alloc, MOST);
    serve(rt, alloc, Some(fault), &mut reader, &mut writer) == Ok(())
        && writer.got.as_slice() == want
}

#[test]
fn texts_of_call_faults(rt: HostRuntime) {
    for (fault, want) in CALL_FAULTS {
        assert!(rt; says_of(&rt, rt.alloc(), *fault, want));
    }
}

// Counts the requests that reach it, and answers each with the same bytes.
#[derive(Drop)]
struct Asked<'a> {
    count: &'a Cell<u32>,
    reply: Reply,
}

impl<'a> Service for Asked<'a> {
    ghost answers = { λ s q r t. Unit {0} };

    fn call(&mut self, request: Request) -> Result<&Reply, CallFault> {
        drop(request);
        self.count.set(self.count.get().saturating_add(1));
        Ok(&self.reply)
    }
}

// Fifty requests, each with a reply that is longer than what a session keeps back.
fn ask_fifty(rt: &impl Abort, alloc: Global, service: &mut Asked, writer: &mut Sink) -> bool {
    let input = b"read /a 0 65536\n".repeat(alloc, 50);
    let input = input.expect(rt, "memory");
    session(alloc, &mut input.as_slice(), writer, service).is_ok()
}

// How many of fifty requests reach the service if that write fails, and whether the session ends well.
fn count_asked(rt: &impl Abort, alloc: Global, bad: u32) -> (u32, bool) {
    let count = Cell::new(0);
    let mut service = Asked {
        count: &count,
        reply: repeated(rt, alloc, 7, 65_536),
    };
    let mut writer = make_sink(alloc, usize::MAX);
    writer.bad = bad;
    let ended = ask_fifty(rt, alloc, &mut service, &mut writer);
    (count.get(), ended)
}

#[test]
fn requests_are_asked_until_a_write_fails(rt: HostRuntime) {
    assert!(rt; count_asked(&rt, rt.alloc(), 0) == (50, true));
    assert!(rt; count_asked(&rt, rt.alloc(), 1) == (1, false));
}
