ghost use Rattle.std.specs.Prelude.{◌≡◌, ◌≢◌, ◌≤◌, Err, IfOk, IfErr, length};
ghost use Rattle.std.specs.Path.{path_buf_bytes};
ghost use Rattle.eden_model.specs.Failures.{one_more};
ghost use Rattle.eden_object.specs.Frames.{longest_framed};
ghost use Rattle.eden_source.specs.Fetching.{IsSourceCause};
ghost use Rattle.eden_source.specs.InFolder.{object_path, of_folder};

use crate::source::Source;
use eden_model::{Cause, Id, Outside};
use eden_object::FRAMED_LIMIT;
use eden_plain_files::{FolderFault, Links, read_file};
use std::alloc::{AllocError, Global};
use std::marker::Model;
use std::path::PathBuf;
use std::rt::Files;

/// The longest framed object, in bytes: the longest body and its header.
pub const LONGEST_FRAMED: u64 = FRAMED_LIMIT as u64;

/// Framed, uncompressed objects as files: below the folder the file `xx/` and 38 lower-case hexadecimal digits, the
/// digits of the id. A link there stands for the file that it leads to.
///
/// Contracts see the folder's path and the count of failures.
#[derive(Drop)]
pub struct FolderSource<R> {
    files: R,
    folder: PathBuf,
    failures: u64,
}

impl<R> Model for FolderSource<R> {
    ghost use Rattle.std.specs.Path.{path_buf_bytes};
    ghost use Rattle.eden_plain_files.specs.Folders.{Folder};

    ghost Value = { Folder };

    ghost view = { λ s. record { path = path_buf_bytes s.folder; failures = s.failures } };
}

impl<R> FolderSource<R> {
    /// The objects below that folder, which need not be there. Nothing has failed yet.
    pub fn new(files: R, folder: PathBuf) -> Self
        ensures { result ≡ record { path = path_buf_bytes folder; failures = 0 } }
    {
        FolderSource {
            files,
            folder,
            failures: 0,
        }
    }
}

impl<R: Files> Source<Outside> for FolderSource<R> {
    ghost use Rattle.eden_source.specs.InFolder.{FetchedFromFolder};

    ghost fetched = { FetchedFromFolder };

    ghost failures = { λ s. s.failures };

    fn failures(&self) -> u64 {
        self.failures
    }

    fn fetch(&mut self, alloc: Global, id: Id) -> Result<Vec<u8>, Cause> {
        let answer = read_object(&self.files, alloc, &self.folder, id);
        self.failures = count(self.failures, &answer);
        answer
    }
}

// The count of failures after that answer.
fn count(failures: u64, answer: &Result<Vec<u8>, Cause>) -> u64
    ensures failed { answer.now ≡ Err Cause.Device → result ≡ one_more failures }
    ensures passed { answer.now ≢ Err Cause.Device → result ≡ failures }
{
    match answer {
        Err(Cause::Device) => failures.saturating_add(1),
        _ => failures,
    }
}

fn read_object<R: Files>(
    files: &R,
    alloc: Global,
    folder: &PathBuf,
    id: Id,
) -> Result<Vec<u8>, Cause>
    ensures bound { LONGEST_FRAMED ≡ longest_framed }
    ensures bounded { IfOk result (λ v. length v.items ≤ longest_framed) }
    ensures causes { IfErr result IsSourceCause }
{
    let path = path_of(alloc, folder, id).map_err(|_| Cause::Memory)?;
    read_file(files, alloc, path.as_str(), Links::Followed, LONGEST_FRAMED).map_err(cause_of)
}

// Where the object's file lies.
fn path_of(alloc: Global, folder: &PathBuf, id: Id) -> Result<PathBuf, AllocError>
    ensures { IfOk result (λ p. path_buf_bytes p ≡ object_path (path_buf_bytes folder.now) id) }
{
    let directory = hex::encode(alloc, &id.bytes[..1])?;
    let file = hex::encode(alloc, &id.bytes[1..])?;
    let mut path = folder.join(alloc, directory.as_str())?;
    path.push(file.as_str())?;
    Ok(path)
}

// Why the source has no bytes.
fn cause_of(fault: FolderFault) -> Cause
    ensures { result ≡ of_folder fault }
{
    match fault {
        FolderFault::Missing => Cause::Missing,
        FolderFault::NotPlain | FolderFault::Blocked(_) | FolderFault::Device => Cause::Device,
        FolderFault::TooLong => Cause::TooLarge,
        FolderFault::Memory => Cause::Memory,
    }
}
