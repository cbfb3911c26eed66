//! Objects of a snapshot that go into a directory.
use crate::path_text::path_text;
use eden_model::{Name, Outside};
use eden_object_writer::{ImportFault, Store};
use eden_overlay::{FilesFault, count_failures};
use eden_snapshot::{LeftOut, Sink};
use std::alloc::Global;
use std::rt::Files;

/// A directory of objects, which is made with the first of them. What is left out is printed on standard error.
#[derive(Drop)]
pub struct FolderSink<R> {
    store: Store<R>,
    rt: R,
    failures: u64,
}

impl<R> FolderSink<R> {
    /// The objects in that store. Nothing has failed yet.
    pub fn new(rt: R, store: Store<R>) -> Self {
        FolderSink {
            store,
            rt,
            failures: 0,
        }
    }
}

impl<R: Files + Eprint> Sink<Outside> for FolderSink<R> {
    ghost use Rattle.std.specs.Prelude.{[]};

    ghost filled = { λ _. record { kept = []; told = [] } };

    ghost failures = { λ s. s.failures };

    fn put(&mut self, alloc: Global, framed: &[u8]) -> Result<(), FilesFault> {
        let answer = match self.store.put(alloc, framed) {
            Ok(_) => Ok(()),
            Err(ImportFault::Memory) => Err(FilesFault::Memory),
            Err(_) => Err(FilesFault::Device),
        };
        self.failures = count_failures(self.failures, &answer);
        answer
    }

    /// If standard error can't be written, nothing is printed.
    fn leave_out(&mut self, alloc: Global, path: &[Name], why: LeftOut) -> Result<(), FilesFault> {
        let path = path_text(alloc, path)?;
        let _ = match why {
            LeftOut::Empty => eprintln!(self.rt; "mountd: left out {path}, an empty directory"),
            LeftOut::Submodule => {
                eprintln!(self.rt;
                    "mountd: left out {path}, a submodule that the commit has elsewhere"
                )
            }
        };
        Ok(())
    }
}
