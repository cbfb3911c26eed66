//! What zlib wrote is read.
use crate::streams::{OF_NOTHING, OF_TEXT, OF_ZEROS, TEXT};
use eden_inflate::{Decoder, Refusal};
use std::alloc::Global;
use std::process::Abort;

pub(crate) fn bytes_of(rt: &(impl AllocGlobal + Abort), digits: &str) -> Vec<u8> {
    let bytes = hex::decode(rt.alloc(), digits);
    assert!(rt; bytes.is_ok());
    bytes.unwrap_or(Vec::new(rt.alloc()))
}

/// A decoder and its output, which read one stream after another.
#[derive(Drop)]
pub(crate) struct Reader {
    decoder: Decoder,
    output: Vec<u8>,
    alloc: Global,
}

impl Reader {
    pub(crate) fn new(alloc: Global) -> Reader {
        Reader {
            decoder: Decoder::new(),
            output: Vec::new(alloc),
            alloc,
        }
    }

    /// What comes of a stream that is to give this many bytes.
    pub(crate) fn outcome(&mut self, stream: &[u8], count: usize) -> Result<usize, Refusal> {
        self.decoder
            .inflate(self.alloc, stream, count, &mut self.output)
    }

    /// Whether a stream that is to give this many bytes comes to that, with these bytes given.
    pub(crate) fn gives(
        &mut self,
        stream: &[u8],
        count: usize,
        want: Result<usize, Refusal>,
        bytes: &[u8],
    ) -> bool {
        self.outcome(stream, count) == want && self.output.as_slice() == bytes
    }

    /// Whether what was given begins the text.
    pub(crate) fn begins_text(&self) -> bool {
        TEXT.starts_with(self.output.as_slice())
    }

    // Whether this many bytes of the text are given, or all if it has no more.
    fn gives_front(&mut self, stream: &[u8], count: usize) -> bool {
        let outcome = self
            .decoder
            .inflate_front(self.alloc, stream, count, &mut self.output);
        outcome.is_ok() && self.output.as_slice() == &TEXT[..count.min(TEXT.len())]
    }
}

// Whether the stream is read as the text, though these bytes follow, which are no part of it.
fn is_text(
    rt: &(impl AllocGlobal + Abort),
    reader: &mut Reader,
    digits: &str,
    behind: &[u8],
) -> bool {
    let mut stream = bytes_of(rt, digits);
    let length = stream.len();
    stream.extend_from_slice(behind).expect(rt, "memory");
    reader.gives(&stream, TEXT.len(), Ok(length), TEXT)
}

#[test]
fn streams_of_every_kind_are_read(rt: HostRuntime) {
    let mut reader = Reader::new(rt.alloc());
    for (name, digits) in OF_TEXT {
        assert!(rt; is_text(&rt, &mut reader, digits, b""), "{name}");
        assert!(rt;
            is_text(&rt, &mut reader, digits, b"more"),
            "{name}, with more"
        );
    }
}

// Whether a stream that is to give a byte less, or a byte more, is refused for that.
fn has_one_size(rt: &(impl AllocGlobal + Abort), reader: &mut Reader, digits: &str) -> bool {
    let stream = bytes_of(rt, digits);
    let less = TEXT.len() - 1;
    reader.gives(&stream, less, Err(Refusal::TooLong), &TEXT[..less])
        && reader.gives(&stream, TEXT.len() + 1, Err(Refusal::TooShort), TEXT)
}

#[test]
fn other_sizes_are_refused(rt: HostRuntime) {
    let mut reader = Reader::new(rt.alloc());
    for (name, digits) in OF_TEXT {
        assert!(rt; has_one_size(&rt, &mut reader, digits), "{name}");
    }
}

// Whether each front of the text is read, and all of it if more is asked.
fn gives_fronts(rt: &(impl AllocGlobal + Abort), reader: &mut Reader, digits: &str) -> bool {
    let stream = bytes_of(rt, digits);
    (0..TEXT.len() + 2).all(|count| reader.gives_front(&stream, count))
}

#[test]
fn fronts_of_every_length_are_read(rt: HostRuntime) {
    let mut reader = Reader::new(rt.alloc());
    for (name, digits) in OF_TEXT {
        assert!(rt; gives_fronts(&rt, &mut reader, digits), "{name}");
    }
}

#[test]
fn long_matches_are_read(rt: HostRuntime) {
    let mut reader = Reader::new(rt.alloc());
    let zeros = [0; 1000].repeat(rt.alloc(), 70).expect(&rt, "memory");
    let stream = bytes_of(&rt, OF_ZEROS);
    let less = zeros.len() - 1;
    assert!(rt; reader.gives(&stream, zeros.len(), Ok(stream.len()), &zeros));
    assert!(rt; reader.gives(&stream, less, Err(Refusal::TooLong), &zeros[..less]));
}

#[test]
fn nothing_is_read(rt: HostRuntime) {
    let stream = bytes_of(&rt, OF_NOTHING);
    assert!(rt; Reader::new(rt.alloc()).gives(&stream, 0, Ok(stream.len()), &[]));
}

#[test]
fn room_is_taken_as_bytes_come(rt: HostRuntime) {
    let mut reader = Reader::new(rt.alloc());
    let stream = bytes_of(&rt, OF_NOTHING);
    assert!(rt; reader.outcome(&stream, 1 << 40) == Err(Refusal::TooShort));
    assert!(rt; reader.output.capacity() <= 65_536);
}
