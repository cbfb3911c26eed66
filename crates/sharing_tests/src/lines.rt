//! The lines of requests, each in its one spelling. No line spells a patch.

use eden_model::{Bytes, Name, Path, Request};
use itoa::Buffer;
use std::alloc::Global;
use std::process::Abort;

/// The digits of escapes and of data.
const UPPER: [u8; 16] = *b"0123456789ABCDEF";

const LOWER: [u8; 16] = *b"0123456789abcdef";

/// A line that is put together.
#[derive(Drop)]
struct Line {
    text: Vec<u8>,
}

fn digits(of: &[u8; 16], byte: u8) -> [u8; 2] {
    [of[(byte / 16) as usize], of[(byte % 16) as usize]]
}

impl Line {
    fn put(&mut self, rt: &impl Abort, bytes: &[u8]) {
        self.text.extend_from_slice(bytes).expect(rt, "memory");
    }

    fn number(&mut self, rt: &impl Abort, number: u64) {
        self.put(rt, b" ");
        self.put(rt, Buffer::new().format(number).as_bytes());
    }

    fn name(&mut self, rt: &impl Abort, name: &Name) {
        for byte in name.as_slice() {
            if byte.is_ascii_alphanumeric() || *byte == b'.' || *byte == b'_' {
                self.put(rt, &[*byte]);
            } else {
                self.put(rt, b"%");
                self.put(rt, &digits(&UPPER, *byte));
            }
        }
    }

    fn path(&mut self, rt: &impl Abort, path: &Path) {
        self.put(rt, b" ");
        if path.is_root() {
            self.put(rt, b"/");
        }
        for name in path.as_slice() {
            self.put(rt, b"/");
            self.name(rt, name);
        }
    }

    fn after(&mut self, rt: &impl Abort, name: &Option<Name>) {
        self.put(rt, b" ");
        match name {
            None => self.put(rt, b"-"),
            Some(name) => self.name(rt, name),
        }
    }

    fn data(&mut self, rt: &impl Abort, bytes: &Bytes) {
        self.put(rt, b" ");
        if bytes.as_slice().is_empty() {
            self.put(rt, b"-");
        }
        for byte in bytes.as_slice() {
            self.put(rt, &digits(&LOWER, *byte));
        }
    }
}

/// The word of a request; a patch has none.
fn word(request: &Request) -> &'static [u8] {
    match request {
        Request::Kind(_) => b"kind",
        Request::Stat(_) => b"stat",
        Request::Read(_, _, _) => b"read",
        Request::ReadLink(_) => b"readlink",
        Request::List(_, _, _) => b"list",
        Request::Write(_, _, _) => b"write",
        Request::Patch(_, _, _) => b"",
        Request::Truncate(_, _) => b"truncate",
        Request::Create(_) => b"create",
        Request::SetExec(_, _) => b"setexec",
        Request::Mkdir(_) => b"mkdir",
        Request::Symlink(_, _) => b"symlink",
        Request::Unlink(_) => b"unlink",
        Request::Rmdir(_) => b"rmdir",
        Request::Rename(_, _) => b"rename",
    }
}

fn path(request: &Request) -> &Path {
    match request {
        Request::Kind(at) | Request::Stat(at) | Request::ReadLink(at) => at,
        Request::Read(at, _, _) | Request::List(at, _, _) | Request::Write(at, _, _) => at,
        Request::Patch(at, _, _) => at,
        Request::Truncate(at, _) | Request::SetExec(at, _) | Request::Symlink(at, _) => at,
        Request::Create(at) | Request::Mkdir(at) | Request::Unlink(at) => at,
        Request::Rmdir(at) | Request::Rename(at, _) => at,
    }
}

/// What stands after the path.
fn put_rest(rt: &impl Abort, line: &mut Line, request: &Request) {
    match request {
        Request::Read(_, offset, length) => {
            line.number(rt, *offset);
            line.number(rt, *length);
        }
        Request::List(_, after, limit) => {
            line.after(rt, after);
            line.number(rt, *limit);
        }
        Request::Write(_, offset, bytes) => {
            line.number(rt, *offset);
            line.data(rt, bytes);
        }
        Request::Truncate(_, size) => line.number(rt, *size),
        Request::SetExec(_, exec) => line.number(rt, u64::from(*exec)),
        Request::Symlink(_, target) => line.data(rt, target),
        Request::Rename(_, to) => line.path(rt, to),
        _ => {}
    }
}

/// The line of a request, with its line feed.
pub(crate) fn line_of(rt: &impl Abort, alloc: Global, request: &Request) -> Vec<u8> {
    let mut line = Line {
        text: Vec::new(alloc),
    };
    line.put(rt, word(request));
    line.path(rt, path(request));
    put_rest(rt, &mut line, request);
    line.put(rt, b"\n");
    line.text
}
