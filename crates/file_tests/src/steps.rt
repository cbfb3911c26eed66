//! Steps over files in a directory, each of which has to be so: tests are tables of them, and one body goes through
//! them.
use crate::folders::has;
use crate::kinds::{Answer, Call, gives, reads};
use eden_model::Outside;
use eden_overlay::Files;
use std::alloc::{AllocError, Global};
use std::path::PathBuf;
use std::process::Abort;

/// What is asked of files in a directory, and what has to be so.
#[derive(Clone, Copy)]
pub enum Step<'a> {
    Gives(Call<'a>, Answer<'a>),
    /// This many calls have failed.
    HasFailed(u64),
    /// Whether the directory has that name.
    Has(&'a str, bool),
    /// The file of that number becomes this many bytes 7.
    Fills(u64, usize),
    /// It becomes those bytes, and after them this many bytes 7.
    FillsBehind(u64, &'a [u8], usize),
    /// It has this many bytes 7.
    IsFilled(u64, usize),
}

/// This many bytes 7, of which no proof has to know.
pub fn of_length(alloc: Global, count: usize) -> Result<Vec<u8>, AllocError> {
    [7; 1].repeat(alloc, count)
}

/// Whether the file becomes this many bytes 7.
pub fn fills<F: Files<Outside>>(files: &mut F, alloc: Global, number: u64, count: usize) -> bool {
    match of_length(alloc, count) {
        Ok(bytes) => files.replace(alloc, number, &bytes) == Ok(()),
        Err(_) => false,
    }
}

fn fills_behind<F: Files<Outside>>(
    files: &mut F,
    alloc: Global,
    number: u64,
    front: &[u8],
    count: usize,
) -> bool {
    match of_length(alloc, count) {
        Ok(bytes) => files.replace_joined(alloc, number, front, &bytes) == Ok(()),
        Err(_) => false,
    }
}

/// Whether the file has this many bytes 7.
pub fn is_filled<F: Files<Outside>>(
    files: &mut F,
    alloc: Global,
    number: u64,
    count: usize,
) -> bool {
    match of_length(alloc, count) {
        Ok(want) => reads(files, alloc, number, &want),
        Err(_) => false,
    }
}

fn is_so<F: Files<Outside>>(rt: &HostRuntime, folder: &PathBuf, files: &mut F, step: Step) -> bool {
    match step {
        Step::Gives(call, want) => gives(files, rt.alloc(), call, want),
        Step::HasFailed(count) => files.failures() == count,
        Step::Has(name, want) => has(rt, folder, name) == Some(want),
        Step::Fills(number, count) => fills(files, rt.alloc(), number, count),
        Step::FillsBehind(number, front, count) => {
            fills_behind(files, rt.alloc(), number, front, count)
        }
        Step::IsFilled(number, count) => is_filled(files, rt.alloc(), number, count),
    }
}

/// Each of those steps is so, taken one after another.
pub fn follow<F: Files<Outside>>(
    rt: &impl Abort,
    system: &HostRuntime,
    folder: &PathBuf,
    files: &mut F,
    steps: &[Step],
) {
    for (number, step) in steps.iter().enumerate() {
        assert!(rt; is_so(system, folder, files, *step), "step {number}");
    }
}

/// The same with files that are let go then. As after a kill, nothing closes them.
pub fn follow_with<F: Files<Outside>>(
    rt: &impl Abort,
    system: &HostRuntime,
    folder: &PathBuf,
    files: F,
    steps: &[Step],
) {
    let mut files = files;
    follow(rt, system, folder, &mut files, steps);
}
