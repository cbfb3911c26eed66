//! What is told of each call.
use eden_model::{Id, Reply};
use eden_wire::{Scratch, write_reply};
use itoa::Buffer;
use std::io::{Stdout, Write};

/// Tells of a call by writes that take no memory: its name before it begins, and then what it answered. What can't be
/// written is missing.
#[derive(Drop)]
pub struct Teller {
    out: Stdout,
    scratch: Scratch,
}

impl Teller {
    pub fn new(out: Stdout, scratch: Scratch) -> Teller {
        Teller { out, scratch }
    }

    fn put(&mut self, text: &[u8]) {
        let _ = self.out.write_all(text);
    }

    fn put_number(&mut self, number: u64) {
        let mut buffer = Buffer::new();
        self.put(buffer.format(number).as_bytes());
    }

    /// The call of that name begins.
    pub fn begin(&mut self, name: &str) {
        self.put(name.as_bytes());
        self.put(b": ");
    }

    /// .. of that pass.
    pub fn begin_of(&mut self, name: &str, pass: u32) {
        self.put(name.as_bytes());
        self.put(b" ");
        self.put_number(u64::from(pass));
        self.put(b": ");
    }

    /// It answered so.
    pub fn end(&mut self, word: &str) {
        self.put(word.as_bytes());
        self.put(b"\n");
    }

    /// It wants memory, or succeeded.
    pub fn end_want(&mut self, is_want: bool) {
        self.end(if is_want { "Memory" } else { "ok" });
    }

    /// Calls that take no memory answered what they must, or another thing.
    pub fn end_right(&mut self, is_right: bool) {
        self.end(if is_right { "ok" } else { "another" });
    }

    pub fn end_number(&mut self, number: u64) {
        self.put_number(number);
        self.put(b"\n");
    }

    /// It waits for that object, or handed it out.
    pub fn end_id(&mut self, id: Id) {
        let mut digits = [0; 40];
        if hex::encode_to_slice(id.bytes, &mut digits).is_ok() {
            self.put(&digits);
        }
        self.put(b"\n");
    }

    /// It finished a request as the entry of that number.
    pub fn end_reply(&mut self, number: u64, reply: &Reply) {
        self.put_number(number);
        self.put(b" ");
        let _ = write_reply(&mut self.out, &mut self.scratch, reply);
    }
}
