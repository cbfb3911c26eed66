ghost use Rattle.std.specs.Prelude.{◌≡◌, ◌≢◌, ◌≤◌, length, Err, IfOk, IfErr};
ghost use Rattle.std.specs.Path.{path_buf_bytes};
ghost use Rattle.eden_model.specs.declared.fault.Cause.TheVariants as cause;
ghost use Rattle.eden_model.specs.Failures.{one_more};
ghost use Rattle.eden_object.specs.Frames.{longest_framed};
ghost use Rattle.eden_source.specs.Fetching.{IsSourceCause};
ghost use Rattle.eden_git.specs.Framing.{IsFramedObject};

use crate::loose::read_loose;
use eden_inflate::Decoder;
use eden_model::{Cause, Id, Outside};
use eden_source::{FolderSource, Source};
use std::alloc::{AllocError, Global};
use std::marker::Model;
use std::path::PathBuf;
use std::rt::Files;

/// The loose objects of a Git repository: below its directory of objects the file `xx/` and 38 lower-case hexadecimal
/// digits, the digits of the id, with the framed object as a zlib stream. A link there stands for the file that it
/// leads to. What is packed isn't seen.
///
/// Contracts see the directory's path and the count of failures. A file that holds no object is a failure too.
#[derive(Drop)]
pub struct LooseSource<R> {
    streams: FolderSource<R>,
    decoder: Box<Decoder>,
    failures: u64,
}

impl<R> Model for LooseSource<R> {
    ghost use Rattle.eden_plain_files.specs.Folders.{Folder};

    ghost Value = { Folder };

    ghost view = { λ s. record { path = s.streams.path; failures = s.failures } };
}

impl<R: Drop> LooseSource<R> {
    /// The objects below that directory, which need not be there. Nothing has failed yet. The only error is want of
    /// memory, for 16 KiB of tables.
    pub fn new(alloc: Global, files: R, folder: PathBuf) -> Result<Self, AllocError>
        ensures { IfOk result (λ s. s ≡ record { path = path_buf_bytes folder; failures = 0 }) }
    {
        let decoder = Box::new(alloc, Decoder::new())?;
        Ok(LooseSource {
            streams: FolderSource::new(files, folder),
            decoder,
            failures: 0,
        })
    }
}

impl<R: Files> LooseSource<R> {
    fn read(&mut self, alloc: Global, id: Id) -> Result<Vec<u8>, Cause>
        ensures path { self.new.path ≡ self.old.path }
        ensures failures { self.new.failures ≡ self.old.failures }
        ensures framed { IfOk result (λ v. IsFramedObject v.items) }
        ensures bounded { IfOk result (λ v. length v.items ≤ longest_framed) }
        ensures causes { IfErr result IsSourceCause }
    {
        let stream = self.streams.fetch(alloc, id)?;
        read_loose(&mut self.decoder, alloc, &stream)
    }
}

impl<R: Files> Source<Outside> for LooseSource<R> {
    ghost use Rattle.eden_git.specs.InFolder.{FetchedFromGit};

    ghost fetched = { FetchedFromGit };

    ghost failures = { λ s. s.failures };

    fn failures(&self) -> u64 {
        self.failures
    }

    fn fetch(&mut self, alloc: Global, id: Id) -> Result<Vec<u8>, Cause> {
        let answer = self.read(alloc, id);
        if answer == Err(Cause::Device) {
            self.failures = self.failures.saturating_add(1);
        }
        answer
    }
}
