//! What a client hears.
use crate::mutations::{ROUNDS, mutated};
use eden_remote::{Refusal, read_answer};
use std::alloc::Global;
use std::process::Abort;
use std::str;

// What a server says, what is heard, and how many bytes are left unread.
const ANSWERS: &[(&[u8], Result<&[u8], Refusal>, usize)] = &[
    (b"object 5\nabcde", Ok(b"abcde"), 0),
    (b"object 5\nabcdefault\n", Ok(b"abcde"), 6),
    (b"object 0\nmissing\n", Ok(b""), 8),
    (b"missing\nobject 0\n", Err(Refusal::Missing), 9),
    (b"fault\n", Err(Refusal::Fault), 0),
    (b"object 1073741841\nabc", Err(Refusal::TooLarge), 3),
    (b"object 18446744073709551616\n", Err(Refusal::TooLarge), 0),
    (
        b"object 999999999999999999999999\n",
        Err(Refusal::TooLarge),
        0,
    ),
    (
        b"object 9999999999999999999999999\n",
        Err(Refusal::NoAnswer),
        1,
    ),
    (b"object 05\nabcde", Err(Refusal::NoAnswer), 5),
    (b"object 00\n", Err(Refusal::NoAnswer), 0),
    (b"object \n", Err(Refusal::NoAnswer), 0),
    (b"object\n", Err(Refusal::NoAnswer), 0),
    (b"object +5\nabcde", Err(Refusal::NoAnswer), 5),
    (b"object 5 \nabcde", Err(Refusal::NoAnswer), 5),
    (b"Missing\n", Err(Refusal::NoAnswer), 0),
    (b"missing\r\n", Err(Refusal::NoAnswer), 0),
    (b"\nmissing\n", Err(Refusal::NoAnswer), 8),
    (
        b"aaaaaaaaaaaaaaaaaaaaaaaaaaaaaaa\n",
        Err(Refusal::NoAnswer),
        0,
    ),
    (
        b"aaaaaaaaaaaaaaaaaaaaaaaaaaaaaaaaaa",
        Err(Refusal::NoAnswer),
        2,
    ),
    (b"", Err(Refusal::Ended), 0),
    (b"missing", Err(Refusal::Ended), 0),
    (b"anything", Err(Refusal::Ended), 0),
    (b"object 5\n", Err(Refusal::Ended), 0),
    (b"object 5\nabcd", Err(Refusal::Ended), 0),
    (b"object 1073741840\nabcd", Err(Refusal::Ended), 0),
];

pub(crate) fn is_heard(heard: &Result<Vec<u8>, Refusal>, want: Result<&[u8], Refusal>) -> bool {
    match (heard, want) {
        (Ok(bytes), Ok(want)) => bytes.as_slice() == want,
        (Err(refusal), Err(want)) => *refusal == want,
        _ => false,
    }
}

// Whether that is heard, and this many bytes are left unread.
fn hears(alloc: Global, said: &[u8], want: Result<&[u8], Refusal>, left: usize) -> bool {
    let mut reader = said;
    is_heard(&read_answer(alloc, &mut reader), want) && reader.len() == left
}

#[test]
fn answers_are_heard(rt: HostRuntime) {
    for (said, want, left) in ANSWERS {
        assert!(rt; hears(rt.alloc(), said, *want, *left), "of {said:?}");
    }
}

// What the text of a number is worth, if it has no leading zeros.
fn number(digits: &[u8]) -> Option<usize> {
    let text = str::from_utf8(digits).ok()?;
    let number = text.parse::<usize>().ok()?;
    let canonical = digits.iter().all(|b| b.is_ascii_digit())
        && (!digits.starts_with(b"0") || digits.len() == 1);
    canonical.then_some(number)
}

// The answer that the bytes begin with, read as a whole.
fn second_reading(said: &[u8]) -> Result<&[u8], Refusal> {
    let Some(end) = said.iter().take(32).position(|b| *b == b'\n') else {
        return Err(if said.len() < 32 {
            Refusal::Ended
        } else {
            Refusal::NoAnswer
        });
    };
    match &said[..end] {
        b"missing" => Err(Refusal::Missing),
        b"fault" => Err(Refusal::Fault),
        line => object(line, &said[end + 1..]),
    }
}

fn object<'a>(line: &[u8], rest: &'a [u8]) -> Result<&'a [u8], Refusal> {
    let digits = line.strip_prefix(b"object ").ok_or(Refusal::NoAnswer)?;
    let number = number(digits).ok_or(Refusal::NoAnswer)?;
    if number > 1_073_741_840 {
        return Err(Refusal::TooLarge);
    }
    rest.get(..number).ok_or(Refusal::Ended)
}

const BASES: &[&[u8]] = &[
    b"object 12\nblob 5\0hello",
    b"object 1073741840\nblob",
    b"missing\n",
    b"fault\n",
];

// Whether a text is heard as the second reading has it.
fn is_read_twice(alloc: Global, said: &[u8]) -> bool {
    let mut reader = said;
    is_heard(&read_answer(alloc, &mut reader), second_reading(said))
}

// .. after one small change.
fn check_mutated(rt: &(impl AllocGlobal + Abort), base: &[u8], state: &mut u64) {
    let said = mutated(rt, base, state);
    assert!(rt; is_read_twice(rt.alloc(), &said), "of {said:?}");
}

#[test]
fn mutated_answers_are_heard(rt: HostRuntime) {
    let mut state = 1;
    for _ in 0..ROUNDS / 4 {
        for base in BASES {
            check_mutated(&rt, base, &mut state);
        }
    }
}
