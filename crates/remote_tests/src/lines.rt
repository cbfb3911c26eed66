//! What a server answers.
use crate::mutations::{ROUNDS, mutated};
use eden_model::Outside;
use eden_remote::{answer_objects, ask};
use eden_source::{FolderSource, MemorySource, Source};
use std::alloc::Global;
use std::path::PathBuf;
use std::process::Abort;
use std::{fs, io};
use test_samples::{EMPTY_BLOB, Sample, VERSION_1, empty_folder};

/// The line that asks for `VERSION_1`, and its answer.
pub(crate) const ASKS: &[u8] = b"get 83baae61804e65cc73a7201a7252750c76066a30\n";

pub(crate) const ANSWER: &[u8] = b"object 18\nblob 10\0version 1\n";

// What a client says, and is answered.
const SAID: &[(&[u8], &[u8])] = &[
    (b"", b""),
    (ASKS, ANSWER),
    (
        b"get 83baae61804e65cc73a7201a7252750c76066a31\n",
        b"missing\n",
    ),
    (b"get x\n", b""),
    (b"get 83BAAE61804E65CC73A7201A7252750C76066A30\n", b""),
    (b"get 83baae61804e65cc73a7201a7252750c76066a300\n", b""),
    (b"get 83baae61804e65cc73a7201a7252750c76066a30", b""),
    (b"get 83baae61804e65cc73a7201a7252750c76066a30 \n", b""),
    (b"get 83baae61804e65cc73a7201a7252750c76066a30\r\n", b""),
    (b"GET 83baae61804e65cc73a7201a7252750c76066a30\n", b""),
    (b"get  3baae61804e65cc73a7201a7252750c76066a30\n", b""),
    (b"\nget 83baae61804e65cc73a7201a7252750c76066a30\n", b""),
];

fn insert(rt: &(impl AllocGlobal + Abort), source: &mut MemorySource<Outside>, sample: &Sample) {
    let framed = Vec::from_slice(rt.alloc(), sample.framed).expect(rt, "memory");
    source.insert(sample.id, framed).expect(rt, "memory");
}

/// The sample objects in memory.
pub(crate) fn samples(rt: &(impl AllocGlobal + Abort)) -> MemorySource<Outside> {
    let mut source = MemorySource::new(rt.alloc());
    insert(rt, &mut source, &VERSION_1);
    insert(rt, &mut source, &EMPTY_BLOB);
    source
}

// Whether that is answered to what a client says.
fn answers<S: Source<Outside>>(alloc: Global, source: &mut S, said: &[u8], want: &[u8]) -> bool {
    let mut reader = said;
    let mut written = Vec::new(alloc);
    let ended = answer_objects(alloc, &mut reader, &mut written, source);
    matches!(ended, Ok(())) && written.as_slice() == want
}

fn check_said<S: Source<Outside>>(
    rt: &(impl AllocGlobal + Abort),
    source: &mut S,
    said: &[u8],
    want: &[u8],
) {
    assert!(rt; answers(rt.alloc(), source, said, want), "to {said:?}");
}

#[test]
fn lines_are_answered(rt: HostRuntime) {
    let mut source = samples(&rt);
    for (said, want) in SAID {
        check_said(&rt, &mut source, said, want);
    }
}

#[test]
fn lines_are_answered_in_order(rt: HostRuntime) {
    let said = [ASKS, ASKS, b"get x\n", ASKS].concat(rt.alloc());
    let want = [ANSWER, ANSWER].concat(rt.alloc());
    check_said(
        &rt,
        &mut samples(&rt),
        &said.expect(&rt, "memory"),
        &want.expect(&rt, "memory"),
    );
}

// What is answered if an object has these framed bytes.
fn answer_of(rt: &(impl AllocGlobal + Abort), framed: &[u8]) -> Vec<u8> {
    let head = format!(in rt.alloc(); "object {}\n", framed.len()).expect(rt, "memory");
    [head.as_bytes(), framed]
        .concat(rt.alloc())
        .expect(rt, "memory")
}

fn check_length(
    rt: &(impl AllocGlobal + Abort),
    source: &mut MemorySource<Outside>,
    length: usize,
) {
    let framed = [7u8].repeat(rt.alloc(), length).expect(rt, "memory");
    let want = answer_of(rt, &framed);
    source.insert(VERSION_1.id, framed).expect(rt, "memory");
    check_said(rt, source, ASKS, &want);
}

#[test]
fn long_objects_are_answered(rt: HostRuntime) {
    let mut source = MemorySource::<Outside>::new(rt.alloc());
    for length in &[4_067, 4_068, 4_069, 100_000] {
        check_length(&rt, &mut source, *length);
    }
}

// A directory of objects in which a file has the name of a directory.
fn faulty_folder(rt: &HostRuntime) -> io::Result<PathBuf> {
    let folder = empty_folder(rt, "remote")?;
    fs::write(rt, folder.join(rt.alloc(), "83")?, b"")?;
    Ok(folder)
}

const ASKS_ELSEWHERE: &[u8] = b"get 84baae61804e65cc73a7201a7252750c76066a30\n";

#[test]
fn faults_of_a_source_are_answered(rt: HostRuntime) {
    let folder = faulty_folder(&rt).expect(&rt, "a folder");
    let mut source = FolderSource::new(&rt, folder);
    check_said(&rt, &mut source, ASKS, b"fault\n");
    check_said(&rt, &mut source, ASKS_ELSEWHERE, b"missing\n");
}

// Whether the line is said that asks for `VERSION_1`.
fn is_said(alloc: Global) -> bool {
    let mut said = Vec::new(alloc);
    matches!(ask(&mut said, VERSION_1.id), Ok(())) && said.as_slice() == ASKS
}

#[test]
fn lines_that_ask_are_said(rt: HostRuntime) {
    assert!(rt; is_said(rt.alloc()));
}

// Whether the text is a line that asks, read as a whole.
fn asks(text: &[u8]) -> bool {
    text.len() == 45
        && text.starts_with(b"get ")
        && text.ends_with(b"\n")
        && text[4..44].iter().all(|b| b"0123456789abcdef".contains(b))
}

// What is answered to what a client says of at most one line.
fn second_answer(said: &[u8]) -> &'static [u8] {
    let front = &said[..said.len().min(ASKS.len())];
    if front == ASKS {
        ANSWER
    } else if asks(front) {
        b"missing\n"
    } else {
        b""
    }
}

#[test]
fn mutated_lines_are_answered(rt: HostRuntime) {
    let mut source = samples(&rt);
    let mut state = 2;
    for _ in 0..ROUNDS {
        let said = mutated(&rt, ASKS, &mut state);
        check_said(&rt, &mut source, &said, second_answer(&said));
    }
}
