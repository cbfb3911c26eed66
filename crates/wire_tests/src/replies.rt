//! The texts of replies.
use crate::sessions::{MOST, Sink, data, entry, make_sink};
use eden_model::{Bytes, Cause, Errno, Fault, Id, Kind, Reply};
use eden_wire::{Scratch, write_reply};
use std::alloc::Global;
use std::process::Abort;

// The tree of one file `test.txt`, as `git write-tree` names it.
const TREE: Id = Id {
    bytes: [
        0xd8, 0x32, 0x9f, 0xc1, 0xcc, 0x93, 0x87, 0x80, 0xff, 0xdd, 0x9f, 0x94, 0xe0, 0xd3, 0x64,
        0xe0, 0xea, 0x74, 0xf5, 0x79,
    ],
};

// Writes the text of a reply.
fn write(rt: &impl Abort, alloc: Global, writer: &mut Sink, reply: &Reply) {
    let mut scratch = Scratch::new(alloc).expect(rt, "memory");
    assert!(rt; write_reply(writer, &mut scratch, reply).is_ok());
}

// Whether a reply has that text, written three bytes at a time.
fn reads(rt: &impl Abort, alloc: Global, reply: &Reply, want: &[u8]) -> bool {
    let mut writer = make_sink(alloc, 3);
    write(rt, alloc, &mut writer, reply);
    writer.got.as_slice() == want
}

fn check(rt: &impl Abort, alloc: Global, reply: Reply, want: &[u8]) {
    assert!(rt; reads(rt, alloc, &reply, want));
}

// A kind, a length and an inode number, and how they are spelled.
const STATS: &[(Kind, u64, u64, &[u8])] = &[
    (Kind::File, 7, 2, b"stat file 7 2\n"),
    (
        Kind::Exec,
        u64::MAX,
        3,
        b"stat exec 18446744073709551615 3\n",
    ),
    (
        Kind::Link,
        1,
        (1 << 63) - 1,
        b"stat link 1 9223372036854775807\n",
    ),
    (Kind::Dir, 0, 1, b"stat dir 0 1\n"),
];

#[test]
fn texts_of_kinds_and_stats(rt: HostRuntime) {
    for (kind, size, number, want) in STATS {
        let reply = Reply::Stat(*kind, *size, *number);
        check(&rt, rt.alloc(), reply, want);
    }
    check(&rt, rt.alloc(), Reply::Kind(Kind::Exec), b"kind exec\n");
}

const FAULTS: &[(Fault, &[u8])] = &[
    (
        Fault::Fetch(TREE, Cause::Missing),
        b"fault fetch d8329fc1cc938780ffdd9f94e0d364e0ea74f579 Missing\n",
    ),
    (Fault::Memory, b"fault memory\n"),
    (Fault::Overlay, b"fault overlay\n"),
    (Fault::Numbers, b"fault numbers\n"),
];

#[test]
fn texts_of_faults(rt: HostRuntime) {
    for (fault, want) in FAULTS {
        check(&rt, rt.alloc(), Reply::Fault(*fault), want);
    }
}

const ERRORS: &[(Errno, &[u8])] = &[
    (Errno::ENOENT, b"err 2 ENOENT\n"),
    (Errno::ENOTEMPTY, b"err 39 ENOTEMPTY\n"),
];

#[test]
fn texts_of_other_replies(rt: HostRuntime) {
    check(&rt, rt.alloc(), Reply::Ok, b"ok\n");
    check(&rt, rt.alloc(), Reply::Count(65_536), b"count 65536\n");
    for (error, want) in ERRORS {
        check(&rt, rt.alloc(), Reply::Err(*error), want);
    }
}

// Bytes that are read, and their texts.
const PAYLOADS: &[(&[u8], &[u8])] = &[
    (b"", b"data 0\n"),
    (b"version 1\n", b"data 10 76657273696f6e20310a\n"),
];

#[test]
fn texts_of_payloads(rt: HostRuntime) {
    for (bytes, want) in PAYLOADS {
        check(&rt, rt.alloc(), data(&rt, rt.alloc(), bytes), want);
    }
}

#[test]
fn text_of_an_odd_entry(rt: HostRuntime) {
    let odd = entry(&rt, rt.alloc(), b"-a %\n\xff", Kind::Link, true);
    let want = b"entries 1 link %2Da%20%25%0A%FF more\n";
    check(&rt, rt.alloc(), odd, want);
}

// This many times that byte.
pub(crate) fn repeated(rt: &impl Abort, alloc: Global, byte: u8, count: usize) -> Reply {
    let bytes = Vec::from_elem(alloc, byte, count).expect(rt, "memory");
    Reply::Data(Bytes::new(bytes))
}

// Whether that is the text of 65,536 times that byte, in few calls.
fn is_much(writer: &Sink) -> bool {
    writer.got.starts_with(b"data 65536 a5a5")
        && writer.got.ends_with(b"a5a5\n")
        && writer.got.len() == 131_084
        && writer.calls < 300
}

#[test]
fn much_data_in_few_writes(rt: HostRuntime) {
    let mut writer = make_sink(rt.alloc(), MOST);
    let much = repeated(&rt, rt.alloc(), 0xa5, 65_536);
    write(&rt, rt.alloc(), &mut writer, &much);
    assert!(rt; is_much(&writer));
}
