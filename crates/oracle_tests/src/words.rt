//! What the errors and faults of `eden_model` say.
use eden_model::{CallFault, Cause, Errno, Fault, Id, StartFault};
use std::alloc::{AllocFailed, Global};
use std::fmt::Display;
use std::process::Abort;
use std::test::*;

/// A vector of one byte, or what want of memory is to the caller.
fn one_byte<E: From<AllocFailed<u8>>>(alloc: Global) -> Result<Vec<u8>, E> {
    let mut bytes = Vec::new(alloc);
    bytes.push(1)?;
    Ok(bytes)
}

const FOREIGN: CallFault = CallFault::Foreign {
    floor: 9,
    length: 4,
};

const LOST: Fault = Fault::Fetch(Id { bytes: [7; 20] }, Cause::Missing);

const FULL: CallFault = CallFault::Start(StartFault::HistoryFull(3));

/// Whether that is what the value says.
fn says<T: Display>(rt: &impl Abort, alloc: Global, value: &T, want: &str) -> bool {
    let text = format!(in alloc; "{value}").expect(rt, "memory");
    text.as_str() == want
}

#[test]
fn refusals_are_told_in_words(rt: HostRuntime) {
    let alloc = rt.alloc();
    assert!(rt; says(&rt, alloc, &Errno::ENOTEMPTY, "directory not empty"));
    assert!(rt;
        says(
            &rt,
            alloc,
            &LOST,
            "an object could not be had: no such object"
        )
    );
}

#[test]
fn faults_of_calls_are_told_in_words(rt: HostRuntime) {
    let alloc = rt.alloc();
    assert!(rt; says(&rt, alloc, &FULL, "the history is full at 3 entries"));
    assert!(rt; says(&rt, alloc, &FOREIGN, "entry 9 is awaited of a history of 4"));
}

#[test]
fn want_of_memory_is_a_fault_and_a_cause(rt: HostRuntime) {
    let byte = one_byte::<Fault>(rt.alloc()).expect(&rt, "memory");
    assert!(rt; byte.len() == 1);
    let byte = one_byte::<Cause>(rt.alloc()).expect(&rt, "memory");
    assert!(rt; byte.len() == 1);
}
