//! Readers and writers that fail.
use crate::answers::is_heard;
use crate::lines::{ANSWER, ASKS, samples};
use eden_remote::{AnswerFault, Refusal, answer_objects, read_answer};
use std::alloc::Global;
use std::io::{self, ErrorKind, Read, Write};
use std::process::Abort;

// Gives a byte a call. Of this many calls every second one is interrupted, and the last passes.
#[derive(Drop)]
struct Trickle<'a> {
    left: &'a [u8],
    calls: usize,
}

fn next(calls: &mut usize) -> io::Result<()> {
    if *calls == 0 {
        return Err(io::Error::from(ErrorKind::WouldBlock));
    }
    *calls -= 1;
    if *calls % 2 == 1 {
        return Err(io::Error::from(ErrorKind::Interrupted));
    }
    Ok(())
}

impl Read for Trickle<'_> {
    fn read(&mut self, buf: &mut [u8]) -> io::Result<usize> {
        next(&mut self.calls)?;
        let n = buf.len().min(1);
        self.left.read(&mut buf[..n])
    }
}

// Takes three bytes a call, of calls as above.
#[derive(Drop)]
struct Narrow {
    got: Vec<u8>,
    calls: usize,
}

impl Write for Narrow {
    fn write(&mut self, buf: &[u8]) -> io::Result<usize> {
        next(&mut self.calls)?;
        let n = buf.len().min(3);
        self.got.extend_from_slice(&buf[..n])?;
        Ok(n)
    }

    fn flush(&mut self) -> io::Result<()> {
        Ok(())
    }
}

// How it ends, and what came.
#[derive(Drop)]
struct Outcome {
    ended: Result<(), AnswerFault>,
    got: Vec<u8>,
}

// Two lines are answered, with this many calls of each kind.
fn served(rt: &(impl AllocGlobal + Abort), reads: usize, writes: usize) -> Outcome {
    let said = [ASKS, ASKS].concat(rt.alloc()).expect(rt, "memory");
    let mut reader = Trickle {
        left: &said,
        calls: reads,
    };
    let mut writer = Narrow {
        got: Vec::new(rt.alloc()),
        calls: writes,
    };
    let ended = answer_objects(rt.alloc(), &mut reader, &mut writer, &mut samples(rt));
    let Narrow { got, .. } = writer;
    Outcome { ended, got }
}

// Whether this many reads end it after this many whole answers.
fn ends_after(rt: &(impl AllocGlobal + Abort), reads: usize, answers: usize) -> bool {
    let Outcome { ended, got } = served(rt, reads, 1_000);
    ended == Err(AnswerFault::Read)
        && got.len() % ANSWER.len() == 0
        && got.len() / ANSWER.len() == answers
}

fn is_served(rt: &(impl AllocGlobal + Abort), reads: usize) -> bool {
    served(rt, reads, 1_000).ended == Ok(())
}

#[test]
fn failed_reads_end_it_after_the_answers(rt: HostRuntime) {
    for reads in 0..181 {
        assert!(rt; ends_after(&rt, reads, (reads + 1) / 90), "after {reads}");
    }
    assert!(rt; is_served(&rt, 181));
}

// Whether this many writes end it in an answer.
fn ends_in(rt: &(impl AllocGlobal + Abort), writes: usize, whole: &[u8]) -> bool {
    let Outcome { ended, got } = served(rt, 1_000, writes);
    ended == Err(AnswerFault::Write) && whole.starts_with(&got) && got.len() < whole.len()
}

fn gives(rt: &(impl AllocGlobal + Abort), writes: usize, whole: &[u8]) -> bool {
    served(rt, 1_000, writes).got.as_slice() == whole
}

#[test]
fn failed_writes_end_it_in_an_answer(rt: HostRuntime) {
    let whole = [ANSWER, ANSWER].concat(rt.alloc()).expect(&rt, "memory");
    for writes in 0..39 {
        assert!(rt; ends_in(&rt, writes, &whole), "after {writes}");
    }
    assert!(rt; gives(&rt, 39, &whole));
}

// Whether an answer isn't heard after this many reads.
fn fails_after(alloc: Global, reads: usize) -> bool {
    let mut reader = Trickle {
        left: ANSWER,
        calls: reads,
    };
    is_heard(&read_answer(alloc, &mut reader), Err(Refusal::Failed))
}

#[test]
fn failed_reads_end_an_answer(rt: HostRuntime) {
    for reads in 0..55 {
        assert!(rt; fails_after(rt.alloc(), reads), "after {reads}");
    }
}
