//! Answers, spelled by the kernel's header.
ghost use Rattle.std.specs.Prelude.{◌≡◌, true};
ghost use Rattle.eden_fuse_format.specs.Answers.{IsBrief};

use eden_fuse_format::{
    Answer, Attr, AttrOut, Dirent, EntryOut, InitOut, OpenOut, StatFsOut, Time, answer_len,
    entry_len, put_answer, put_dirent, put_direntplus, row_len,
};
use std::process::Abort;

const ATTR: Attr = Attr {
    ino: 0x102030405060708,
    size: 0x1112131415161718,
    blocks: 0x2122232425262728,
    atime: Time {
        seconds: 0x3132333435363738,
        nanoseconds: 0x41424344,
    },
    mtime: Time {
        seconds: 0x5152535455565758,
        nanoseconds: 0x61626364,
    },
    ctime: Time {
        seconds: 0x7172737475767778,
        nanoseconds: 0x81828384,
    },
    mode: 0o100644,
    nlink: 1,
    uid: 0xa1a2a3a4,
    gid: 0xb1b2b3b4,
    blksize: 4096,
};

pub(crate) const ENTRY: EntryOut = EntryOut {
    nodeid: 0xc1c2c3c4c5c6c7c8,
    entry_valid: 3,
    attr_valid: 4,
    attr: ATTR,
};

const OPEN: OpenOut = OpenOut {
    fh: 0xd1d2d3d4d5d6d7d8,
    open_flags: 10,
};

const SPACE: StatFsOut = StatFsOut {
    blocks: 1,
    bfree: 2,
    bavail: 3,
    files: 4,
    ffree: 5,
    bsize: 6,
    namelen: 7,
    frsize: 8,
};

const START: InitOut = InitOut {
    max_readahead: 131_072,
    flags: 0x0040_0021,
    max_background: 16,
    congestion_threshold: 12,
    max_write: 1_048_576,
    time_gran: 1,
    max_pages: 256,
};

const UNIQUE: u64 = 0xe1e2e3e4e5e6e7e8;

// Each answer, and its bytes in hexadecimal digits.
const ANSWERS: &[(Answer<'static>, &[&str])] = &[
    (Answer::Refused(2), &["10000000feffffffe8e7e6e5e4e3e2e1"]),
    (Answer::Refused(38), &["10000000daffffffe8e7e6e5e4e3e2e1"]),
    (Answer::Refused(116), &["100000008cffffffe8e7e6e5e4e3e2e1"]),
    (Answer::Done, &["1000000000000000e8e7e6e5e4e3e2e1"]),
    (
        Answer::Entry(ENTRY),
        &[
            "9000000000000000e8e7e6e5e4e3e2e1c8c7c6c5c4c3c2c10000000000000000030000000000000004000000",
            "0000000000000000000000000807060504030201181716151413121128272625242322213837363534333231",
            "58575655545352517877767574737271444342416463626184838281a481000001000000a4a3a2a1b4b3b2b1",
            "000000000010000000000000",
        ],
    ),
    (
        Answer::NoEntry(5),
        &[
            "9000000000000000e8e7e6e5e4e3e2e100000000000000000000000000000000050000000000000000000000",
            "0000000000000000000000000000000000000000000000000000000000000000000000000000000000000000",
            "0000000000000000000000000000000000000000000000000000000000000000000000000000000000000000",
            "000000000000000000000000",
        ],
    ),
    (
        Answer::Attributes(AttrOut {
            attr_valid: 6,
            attr: ATTR,
        }),
        &[
            "7800000000000000e8e7e6e5e4e3e2e106000000000000000000000000000000080706050403020118171615",
            "1413121128272625242322213837363534333231585756555453525178777675747372714443424164636261",
            "84838281a481000001000000a4a3a2a1b4b3b2b1000000000010000000000000",
        ],
    ),
    (
        Answer::Opened(OPEN),
        &["2000000000000000e8e7e6e5e4e3e2e1d8d7d6d5d4d3d2d10a00000000000000"],
    ),
    (
        Answer::Created(ENTRY, OPEN),
        &[
            "a000000000000000e8e7e6e5e4e3e2e1c8c7c6c5c4c3c2c10000000000000000030000000000000004000000",
            "0000000000000000000000000807060504030201181716151413121128272625242322213837363534333231",
            "58575655545352517877767574737271444342416463626184838281a481000001000000a4a3a2a1b4b3b2b1",
            "000000000010000000000000d8d7d6d5d4d3d2d10a00000000000000",
        ],
    ),
    (
        Answer::Bytes(b"/there"),
        &["1600000000000000e8e7e6e5e4e3e2e12f7468657265"],
    ),
    (Answer::Bytes(b""), &["1000000000000000e8e7e6e5e4e3e2e1"]),
    (
        Answer::Written(0x01020304),
        &["1800000000000000e8e7e6e5e4e3e2e10403020100000000"],
    ),
    (
        Answer::StatFs(SPACE),
        &[
            "6000000000000000e8e7e6e5e4e3e2e101000000000000000200000000000000030000000000000004000000",
            "0000000005000000000000000600000007000000080000000000000000000000000000000000000000000000",
            "0000000000000000",
        ],
    ),
    (
        Answer::Started(START),
        &[
            "5000000000000000e8e7e6e5e4e3e2e1070000001f000000000002002100400010000c000000100001000000",
            "000100000000000000000000000000000000000000000000000000000000000000000000",
        ],
    ),
];

// A row, and its bytes in hexadecimal digits.
const ROWS: &[(Dirent<'static>, &[&str])] = &[
    (
        Dirent {
            ino: 7,
            off: 72623859790382856,
            kind: 8,
            name: b"a",
        },
        &["0700000000000000080706050403020101000000080000006100000000000000"],
    ),
    (
        Dirent {
            ino: 7,
            off: 1,
            kind: 4,
            name: b"12345678",
        },
        &["0700000000000000010000000000000008000000040000003132333435363738"],
    ),
    (
        Dirent {
            ino: 18446744073709551615,
            off: 2,
            kind: 10,
            name: b"123456789",
        },
        &["ffffffffffffffff0200000000000000090000000a00000031323334353637383900000000000000"],
    ),
    (
        Dirent {
            ino: 1,
            off: 3,
            kind: 4,
            name: b".",
        },
        &["0100000000000000030000000000000001000000040000002e00000000000000"],
    ),
    (
        Dirent {
            ino: 9,
            off: 4,
            kind: 8,
            name: &[b'n'; 255],
        },
        &[
            "09000000000000000400000000000000ff000000080000006e6e6e6e6e6e6e6e6e6e6e6e6e6e6e6e6e6e6e6e",
            "6e6e6e6e6e6e6e6e6e6e6e6e6e6e6e6e6e6e6e6e6e6e6e6e6e6e6e6e6e6e6e6e6e6e6e6e6e6e6e6e6e6e6e6e",
            "6e6e6e6e6e6e6e6e6e6e6e6e6e6e6e6e6e6e6e6e6e6e6e6e6e6e6e6e6e6e6e6e6e6e6e6e6e6e6e6e6e6e6e6e",
            "6e6e6e6e6e6e6e6e6e6e6e6e6e6e6e6e6e6e6e6e6e6e6e6e6e6e6e6e6e6e6e6e6e6e6e6e6e6e6e6e6e6e6e6e",
            "6e6e6e6e6e6e6e6e6e6e6e6e6e6e6e6e6e6e6e6e6e6e6e6e6e6e6e6e6e6e6e6e6e6e6e6e6e6e6e6e6e6e6e6e",
            "6e6e6e6e6e6e6e6e6e6e6e6e6e6e6e6e6e6e6e6e6e6e6e6e6e6e6e6e6e6e6e6e6e6e6e6e6e6e6e6e6e6e6e6e",
            "6e6e6e6e6e6e6e6e6e6e6e6e6e6e6e00",
        ],
    ),
];

// The entry of a row, before it.
pub(crate) const ENTRY_DIGITS: &[&str] = &[
    "c8c7c6c5c4c3c2c1000000000000000003000000000000000400000000000000000000000000000008070605",
    "0403020118171615141312112827262524232221383736353433323158575655545352517877767574737271",
    "444342416463626184838281a481000001000000a4a3a2a1b4b3b2b1000000000010000000000000",
];

pub(crate) fn decoded(rt: &(impl AllocGlobal + Abort), pieces: &[&str]) -> Vec<u8> {
    let mut bytes = Vec::new(rt.alloc());
    for piece in pieces {
        let more = hex::decode(rt.alloc(), *piece).expect(rt, "digits");
        bytes.extend_from_slice(&more).expect(rt, "memory");
    }
    bytes
}

fn is_brief(answer: &Answer<'_>) -> bool
    ensures { result ≡ true → IsBrief answer.now }
{
    match answer {
        Answer::Bytes(bytes) => bytes.len() < 1000,
        _ => true,
    }
}

fn is_behind(bytes: &[u8], front: &[u8], back: &[u8]) -> bool {
    match bytes.strip_prefix(front) {
        Some(rest) => rest == back,
        None => false,
    }
}

// Whether the answer is written as these bytes, after others.
fn is_written(rt: &impl Abort, out: &mut Vec<u8>, answer: &Answer<'_>, want: &[u8]) -> bool {
    assert!(rt; is_brief(answer));
    out.clear();
    out.extend_from_slice(b"before").expect(rt, "memory");
    put_answer(out, UNIQUE, answer).expect(rt, "memory");
    is_behind(out.as_slice(), b"before", want) && answer_len(answer) == want.len()
}

#[test]
fn answers_are_written(rt: HostRuntime) {
    let mut out = Vec::new(rt.alloc());
    for (index, (answer, digits)) in ANSWERS.iter().enumerate() {
        let want = decoded(&rt, digits);
        assert!(rt; is_written(&rt, &mut out, answer, &want), "row {index}");
    }
}

// Appends a row within the size, and says whether it fits.
fn put(rt: &impl Abort, out: &mut Vec<u8>, size: usize, row: &Dirent<'_>) -> bool {
    assert!(rt; row.name.len() < 256);
    put_dirent(out, size, row).expect(rt, "memory")
}

// Appends a row with its entry within the size, and says whether it fits.
fn put_plus(rt: &impl Abort, out: &mut Vec<u8>, size: usize, row: &Dirent<'_>) -> bool {
    assert!(rt; row.name.len() < 256);
    put_direntplus(out, size, &ENTRY, row).expect(rt, "memory")
}

// Whether the row is written as these bytes, if they may be just as many.
fn is_row(rt: &impl Abort, out: &mut Vec<u8>, row: &Dirent<'_>, want: &[u8]) -> bool {
    assert!(rt; row.name.len() < 256);
    out.clear();
    put(rt, out, want.len(), row) && out.as_slice() == want && row_len(row) == want.len()
}

// Whether the row is written as these bytes after its entry.
fn is_row_with_entry(
    rt: &impl Abort,
    out: &mut Vec<u8>,
    row: &Dirent<'_>,
    entry: &[u8],
    want: &[u8],
) -> bool {
    assert!(rt; want.len() < 1000);
    out.clear();
    put_plus(rt, out, 128 + want.len(), row)
        && is_behind(out.as_slice(), entry, want)
        && entry_len(&ENTRY) == 128
}

// Whether the row is written as these digits, alone and after its entry.
fn is_right(
    rt: &(impl AllocGlobal + Abort),
    out: &mut Vec<u8>,
    entry: &[u8],
    row: &Dirent<'_>,
    digits: &[&str],
) -> bool {
    let want = decoded(rt, digits);
    is_row(rt, out, row, &want) && is_row_with_entry(rt, out, row, entry, &want)
}

#[test]
fn rows_are_written(rt: HostRuntime) {
    let mut out = Vec::new(rt.alloc());
    let entry = decoded(&rt, ENTRY_DIGITS);
    for (index, (row, digits)) in ROWS.iter().enumerate() {
        assert!(rt; is_right(&rt, &mut out, &entry, row, digits), "row {index}");
    }
}

// Whether rows of 32 bytes fit twice into 64 bytes.
fn fit_twice(rt: &impl Abort, out: &mut Vec<u8>, row: &Dirent<'_>, want: &[u8]) -> bool {
    put(rt, out, 64, row)
        && !put(rt, out, 63, row)
        && out.as_slice() == want
        && put(rt, out, 64, row)
        && out.len() == 64
        && !put(rt, out, 65, row)
        && out.len() == 64
}

// Whether one with its entry fits after them into 224 bytes, and not into less.
fn fits_behind(rt: &impl Abort, out: &mut Vec<u8>, row: &Dirent<'_>) -> bool {
    !put_plus(rt, out, 223, row)
        && out.len() == 64
        && put_plus(rt, out, 224, row)
        && out.len() == 224
}

// Rows are written while they stay within the size that was asked for.
#[test]
fn rows_stay_within_the_size(rt: HostRuntime) {
    let (row, digits) = &ROWS[0];
    let mut out = Vec::new(rt.alloc());
    assert!(rt; fit_twice(&rt, &mut out, row, &decoded(&rt, digits)));
    assert!(rt; fits_behind(&rt, &mut out, row));
}
