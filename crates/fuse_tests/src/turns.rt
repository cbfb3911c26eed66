//! Turns of a session: what is sent for a message, over a line that may fail, and whether a service was asked.
ghost use Rattle.std.specs.Prelude.{◌≡◌, None};
ghost use Rattle.eden_fuse_session.specs.Turns.{IsBriefly};

use crate::answers::{ENTRY, ENTRY_DIGITS, decoded};
use crate::none::{MALFORMED, UNFRAMED, UNKNOWN};
use eden_fuse_format::{Answer, Header, OpenOut, Operation};
use eden_fuse_session::{NotSent, Said, Sender, Service, Turned, turn};
use std::alloc::Global;
use std::process::Abort;

// A root with one file, `a`, that can be read. It counts how often it is asked.
#[derive(Drop)]
struct Small {
    asked: u32,
}

// Leaves bytes in the room.
fn leave(room: &mut Vec<u8>, bytes: &'static [u8; 5]) -> Said
    ensures { IsBriefly result room.new.items }
{
    room.clear();
    match room.extend_from_slice(bytes.as_slice()) {
        Ok(()) => Said::Data,
        Err(_) => Said::Answers(Answer::Refused(12)),
    }
}

impl Service for Small {
    ghost answers = { λ s header operation told t. Unit {0} };

    fn call(&mut self, _header: Header, operation: Operation<'_>, room: &mut Vec<u8>) -> Said {
        self.asked = self.asked.saturating_add(1);
        match operation {
            Operation::Lookup(b"a") => Said::Answers(Answer::Entry(ENTRY)),
            Operation::Lookup(_) => Said::Answers(Answer::NoEntry(5)),
            Operation::Open(asked) => Said::Answers(Answer::Opened(OpenOut {
                fh: 7,
                open_flags: asked.flags,
            })),
            Operation::Read(_) => leave(room, b"hello"),
            Operation::Write(asked, _) => Said::Answers(Answer::Written(asked.size)),
            Operation::Release(_) => Said::Answers(Answer::Done),
            Operation::Forget(_) | Operation::BatchForget(_) | Operation::Interrupt(_) => {
                Said::Nothing
            }
            _ => Said::Answers(Answer::Refused(39)),
        }
    }
}

// Keeps what is sent. Call number `bad` fails, and so does one without memory.
#[derive(Drop)]
struct Line {
    got: Vec<u8>,
    calls: u32,
    bad: u32,
    failures: u64,
}

impl Sender for Line {
    ghost sent = { λ _. None };

    ghost failures = { λ s. s.failures };

    fn send(&mut self, message: &[u8]) -> Result<(), NotSent> {
        self.calls = self.calls.saturating_add(1);
        let fails = self.calls == self.bad || self.got.extend_from_slice(message).is_err();
        if fails && self.failures < 1000 {
            self.failures += 1;
            return Err(NotSent);
        }
        Ok(())
    }
}

// A service, the line to it, and the rooms of its turns.
#[derive(Drop)]
struct Session {
    line: Line,
    service: Small,
    out: Vec<u8>,
    room: Vec<u8>,
}

// One that has other bytes in its rooms, and whose call of that number fails.
fn make_session(rt: &(impl AllocGlobal + Abort), bad: u32) -> Session {
    Session {
        line: Line {
            got: Vec::new(rt.alloc()),
            calls: 0,
            bad,
            failures: 0,
        },
        service: Small { asked: 0 },
        out: Vec::from_slice(rt.alloc(), b"before").expect(rt, "memory"),
        room: Vec::from_slice(rt.alloc(), b"before").expect(rt, "memory"),
    }
}

impl Session {
    // How a message's turn ends.
    fn turn(&mut self, message: &[u8]) -> Turned {
        turn(
            message,
            &mut self.out,
            &mut self.room,
            &mut self.line,
            &mut self.service,
        )
    }

    // Whether this many calls of the line, and of the service, were made, and these bytes came.
    fn is_at(&self, calls: u32, asked: u32, got: &[u8]) -> bool {
        self.line.calls == calls && self.service.asked == asked && self.line.got.as_slice() == got
    }
}

// A message, and the header and the body of its answer.
struct Row {
    sent: &'static [&'static str],
    head: &'static str,
    body: &'static [&'static str],
}

// A name that is there, one that isn't, an opening, a read, a write, a release, and what is refused.
const ANSWERED: &[Row] = &[
    Row {
        sent: &[
            "2a000000010000008877665544332211010000000000000008000000090000000a00000000000000",
            "6100",
        ],
        head: "90000000000000008877665544332211",
        body: ENTRY_DIGITS,
    },
    Row {
        sent: &[
            "2a000000010000000200000000000000010000000000000008000000090000000a00000000000000",
            "6200",
        ],
        head: "90000000000000000200000000000000",
        body: &[
            "0000000000000000000000000000000005000000000000000000000000000000000000000000000000000000",
            "0000000000000000000000000000000000000000000000000000000000000000000000000000000000000000",
            "00000000000000000000000000000000000000000000000000000000000000000000000000000000",
        ],
    },
    Row {
        sent: &[
            "300000000e0000000300000000000000020000000000000008000000090000000a00000000000000",
            "0280000000000000",
        ],
        head: "20000000000000000300000000000000",
        body: &["07000000000000000280000000000000"],
    },
    Row {
        sent: &[
            "500000000f0000000400000000000000020000000000000008000000090000000a00000000000000",
            "07000000000000000000000000000000001000000000000000000000000000000000000000000000",
        ],
        head: "15000000000000000400000000000000",
        body: &["68656c6c6f"],
    },
    Row {
        sent: &[
            "53000000100000000500000000000000020000000000000008000000090000000a00000000000000",
            "07000000000000000000000000000000030000000000000000000000000000000000000000000000",
            "78797a",
        ],
        head: "18000000000000000500000000000000",
        body: &["0300000000000000"],
    },
    Row {
        sent: &[
            "40000000120000000600000000000000020000000000000008000000090000000a00000000000000",
            "070000000000000000000000000000000000000000000000",
        ],
        head: "10000000000000000600000000000000",
        body: &[],
    },
    Row {
        sent: &[
            "2a0000000b0000000700000000000000010000000000000008000000090000000a00000000000000",
            "6400",
        ],
        head: "10000000d9ffffff0700000000000000",
        body: &[],
    },
];

// One node that is forgotten, a batch of one, and a request that nobody waits for.
const SILENT: &[&[&str]] = &[
    &[
        "30000000020000000800000000000000020000000000000000000000000000000000000000000000",
        "0100000000000000",
    ],
    &[
        "400000002a0000000900000000000000000000000000000000000000000000000000000000000000",
        "010000000000000002000000000000000100000000000000",
    ],
    &[
        "30000000240000000a00000000000000000000000000000000000000000000000000000000000000",
        "0400000000000000",
    ],
];

fn answer_of(rt: &(impl AllocGlobal + Abort), row: &Row) -> Vec<u8> {
    let mut bytes = decoded(rt, &[row.head]);
    bytes
        .extend_from_slice(&decoded(rt, row.body))
        .expect(rt, "memory");
    bytes
}

// How a turn ends, and how often the line and the service were called by then.
#[derive(Clone, Copy)]
struct End(Turned, u32, u32);

impl Session {
    // Whether a message's turn ends so, and these bytes came by then.
    fn ends(
        &mut self,
        rt: &(impl AllocGlobal + Abort),
        sent: &[&str],
        end: End,
        got: &[u8],
    ) -> bool {
        let End(turned, calls, asked) = end;
        self.turn(&decoded(rt, sent)) == turned && self.is_at(calls, asked, got)
    }

    // Whether a row's message is answered, as one of this many.
    fn answers(&mut self, rt: &(impl AllocGlobal + Abort), row: &Row, turns: u32) -> bool {
        let end = End(Turned::Answered, turns, turns);
        self.ends(rt, row.sent, end, &answer_of(rt, row))
    }
}

// Over one session, whose rooms have in them what the turn before left.
#[test]
fn each_message_is_answered_by_one(rt: HostRuntime) {
    let mut session = make_session(&rt, 0);
    let mut turns = 0u32;
    for row in ANSWERED {
        session.line.got.clear();
        turns = turns.saturating_add(1);
        assert!(rt; session.answers(&rt, row, turns), "message {turns}");
    }
}

#[test]
fn what_wants_no_answer_has_none(rt: HostRuntime) {
    let mut session = make_session(&rt, 1);
    let mut turns = 0u32;
    for sent in SILENT {
        turns = turns.saturating_add(1);
        let end = End(Turned::Silent, 0, turns);
        assert!(rt; session.ends(&rt, sent, end, b""), "message {turns}");
    }
}

// Whether the first message's turn ends so, and these bytes came, if the line fails at that call.
fn ends_first(
    rt: &(impl AllocGlobal + Abort),
    bad: u32,
    sent: &[&str],
    end: End,
    got: &[u8],
) -> bool {
    make_session(rt, bad).ends(rt, sent, end, got)
}

// Each is the first of a session and ends so, with one message of these digits or with none.
fn check_first(
    rt: &(impl AllocGlobal + Abort),
    bad: u32,
    rows: &[&[&str]],
    end: End,
    digits: &str,
) {
    let got = decoded(rt, &[digits]);
    for (index, sent) in rows.iter().enumerate() {
        assert!(rt; ends_first(rt, bad, sent, end, &got), "row {index}");
    }
}

#[test]
fn messages_are_refused_without_the_service(rt: HostRuntime) {
    let refused = End(Turned::Answered, 1, 0);
    check_first(&rt, 0, UNKNOWN, refused, "10000000daffffff0500000000000000");
    check_first(
        &rt,
        0,
        MALFORMED,
        refused,
        "10000000eaffffff0500000000000000",
    );
    check_first(&rt, 0, UNFRAMED, End(Turned::Unframed, 0, 0), "");
}

// Whether nothing comes of a row's message whose service was asked once, and the next one is answered.
fn fails_once(rt: &(impl AllocGlobal + Abort), row: &Row) -> bool {
    let mut session = make_session(rt, 1);
    session.ends(rt, row.sent, End(Turned::NotSent, 1, 1), b"")
        && session.line.failures == 1
        && session.answers(rt, row, 2)
}

#[test]
fn a_line_fails(rt: HostRuntime) {
    for (index, row) in ANSWERED.iter().enumerate() {
        assert!(rt; fails_once(&rt, row), "row {index}");
    }
    check_first(&rt, 1, UNKNOWN, End(Turned::NotSent, 1, 0), "");
}

// A session with so much room for answers, and a line with room for an answer of that length.
fn make_narrow(rt: &(impl AllocGlobal + Abort), room: usize, len: usize) -> Session {
    let mut session = make_session(rt, 0);
    session.line.got.reserve(len).expect(rt, "memory");
    session.out = Vec::with_capacity(rt.alloc(), room).expect(rt, "memory");
    session
}

impl Session {
    // Whether one message was sent, which is a refusal with ENOMEM.
    fn has_refused(&self) -> bool {
        let got = self.line.got.as_slice();
        let refuses = got.starts_with(&[16, 0, 0, 0, 244, 255, 255, 255]);
        refuses && got.len() == 16 && self.line.calls == 1 && self.service.asked == 1
    }

    // Whether a turn finds no memory for its answer. Then it is refused, and the next one answers; so does the first,
    // if the room was large enough.
    fn wants_memory(&mut self, rt: &impl Abort, message: &[u8], want: &[u8], room: usize) -> bool {
        let turned = self.turn(message);
        if turned == Turned::Answered {
            assert!(rt; self.is_at(1, 1, want));
            return false;
        }
        assert!(rt; turned == Turned::NoMemory && room < want.len() && self.has_refused());
        self.line.got.clear();
        assert!(rt; self.turn(message) == Turned::Answered && self.is_at(2, 2, want));
        true
    }
}

// .. of a row, with a room that lacks so much, if it isn't as large as that.
fn wants_memory(rt: &(impl AllocGlobal + Abort), row: &Row, lack: usize) -> bool {
    let message = decoded(rt, row.sent);
    let want = answer_of(rt, row);
    let room = want.len() - want.len().min(lack);
    make_narrow(rt, room, want.len()).wants_memory(rt, &message, &want, room)
}

// Memory is refused only if these tests are run so.
#[test]
fn rooms_grow(rt: HostRuntime) {
    for row in ANSWERED {
        assert!(rt; !wants_memory(&rt, row, 0));
        wants_memory(&rt, row, 1);
        wants_memory(&rt, row, usize::MAX);
    }
}
