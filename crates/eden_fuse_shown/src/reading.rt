// How the bytes of a file are read, part after part.
ghost use Rattle.std.specs.Prelude.{◌≡◌, ◌≤◌, ◌++◌, IfOk, OnOk};
ghost use Rattle.std.specs.Option.{option_map};
ghost use Rattle.eden_model.specs.Limits.{most_file};
ghost use Rattle.eden_fuse_shown.specs.Reading.{AsksPart, Gathers, bytes_in, reading};

use crate::mount::{Mount, Unheard};
use crate::running::run;
use eden_fuse_meaning::{Outcome, Step, Then};
use eden_model::{Bytes, MAX_DATA, Path, Request};
use std::alloc::{AllocError, Global};

// What is asked for one part.
fn reading(alloc: Global, path: &Path, from: u64, count: u64) -> Result<Step, AllocError>
    ensures { IfOk result (λ step. step ≡ reading path.now from count) }
{
    let path = path.copy(alloc)?;
    Ok(Step::Ask(Request::Read(path, from, count), Then::Give))
}

// The bytes that were read, if they were.
fn bytes_in(end: Result<Outcome, Unheard>) -> Option<Bytes>
    ensures { result ≡ bytes_in end }
{
    match end {
        Ok(Outcome::Bytes(bytes)) => Some(bytes),
        _ => None,
    }
}

// Asks for one part.
fn part<M: Mount>(alloc: Global, mount: &mut M, path: &Path, from: u64, count: u64) -> Option<Bytes>
    ensures { AsksPart M.answers path.now from count mount.old result mount.new }
{
    let Ok(step) = reading(alloc, path, from, count) else {
        return None;
    };
    bytes_in(run(alloc, mount, step))
}

// Bytes behind those that were read. The only error is want of memory.
fn append(bytes: &mut Vec<u8>, part: &Bytes) -> Result<(), AllocError>
    ensures { OnOk result (bytes.new.items ≡ bytes.old.items ++ part.now) }
{
    bytes.extend_from_slice(part.as_slice())
}

/// So many bytes of the file at a path, from there on; fewer where it ends before. None if a part couldn't be read, and
/// for want of memory.
pub(crate) fn gather<M: Mount>(
    alloc: Global,
    mount: &mut M,
    path: &Path,
    from: u64,
    count: u64,
) -> Option<Vec<u8>>
    requires from { from ≤ most_file }
    requires count { count ≤ most_file }
    ensures { Gathers M.answers path.now from count mount.old (option_map (λ v. v.items) result) mount.new }
{
    let Ok(mut bytes) = Vec::with_capacity(alloc, count as usize) else {
        return None;
    };
    let mut done = 0;
    'parts: while done < count {
        let more = MAX_DATA.min(count - done);
        let part = part(alloc, mount, path, from + done, more)?;
        let Ok(()) = append(&mut bytes, &part) else {
            return None;
        };
        done += more;
    }
    Some(bytes)
}
