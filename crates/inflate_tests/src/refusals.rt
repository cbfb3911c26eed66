//! What zlib refuses is refused, for the same reason.
use crate::inflating::{Reader, bytes_of};
use crate::streams::{CHANGED, OF_TEXT, TEXT};
use eden_inflate::Refusal;
use std::process::Abort;

// What comes of that stream of the text, of which a byte has these bits the other way round.
fn outcome_of_changed(
    rt: &(impl AllocGlobal + Abort),
    reader: &mut Reader,
    which: usize,
    at: usize,
    bits: u8,
) -> Result<usize, Refusal> {
    let (_, digits) = OF_TEXT[which % OF_TEXT.len()];
    let mut stream = bytes_of(rt, digits);
    if let Some(byte) = stream.get_mut(at) {
        *byte ^= bits;
    }
    reader.outcome(&stream, TEXT.len())
}

#[test]
fn changed_streams_are_refused(rt: HostRuntime) {
    let mut reader = Reader::new(rt.alloc());
    for (which, at, bits, refusal) in CHANGED {
        let outcome = outcome_of_changed(&rt, &mut reader, *which, *at, *bits);
        assert!(rt; outcome == Err(*refusal), "stream {which}, byte {at}");
    }
}

// Whether the stream is refused as truncated wherever it ends, with what came before given.
fn is_refused_cut(rt: &(impl AllocGlobal + Abort), reader: &mut Reader, digits: &str) -> bool {
    let stream = bytes_of(rt, digits);
    (0..stream.len()).all(|end| {
        reader.outcome(&stream[..end], TEXT.len()) == Err(Refusal::Truncated)
            && reader.begins_text()
    })
}

// If a stream ends before its output is whole, zlib says so at each place.
#[test]
fn cut_streams_are_refused(rt: HostRuntime) {
    let mut reader = Reader::new(rt.alloc());
    for (name, digits) in OF_TEXT {
        assert!(rt; is_refused_cut(&rt, &mut reader, digits), "{name}");
    }
}
