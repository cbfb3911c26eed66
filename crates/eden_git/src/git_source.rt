ghost use Rattle.std.specs.Prelude.{◌≡◌, ◌≢◌, ◌≤◌, length, Err, IfOk, IfErr};
ghost use Rattle.std.specs.Path.{path_buf_bytes};
ghost use Rattle.eden_model.specs.declared.fault.Cause.TheVariants as cause;
ghost use Rattle.eden_model.specs.Failures.{one_more};
ghost use Rattle.eden_object.specs.Frames.{longest_framed};
ghost use Rattle.eden_source.specs.Fetching.{IsSourceCause};
ghost use Rattle.eden_git.specs.Framing.{IsFramedObject};

use crate::bases::Bases;
use crate::fault::GitFault;
use crate::framing::frame;
use crate::pack::Tools;
use crate::repository::objects_directory;
use crate::store::{Store, find, open_stores};
use eden_inflate::Decoder;
use eden_model::{Cause, Id, Outside};
use eden_object::Word;
use eden_source::Source;
use std::alloc::{Alloc, Global};
use std::marker::Model;
use std::path::PathBuf;
use std::rt::Files;

/// The empty tree, which Git knows without storing it.
const EMPTY_TREE: Id = Id {
    bytes: [
        0x4b, 0x82, 0x5d, 0xc6, 0x42, 0xcb, 0x6e, 0xb9, 0xa0, 0x60, 0xe5, 0x4b, 0xf8, 0xd6, 0x92,
        0x88, 0xfb, 0xee, 0x49, 0x04,
    ],
};

/// The objects of a Git repository: packed ones, loose ones, and those of the directories that it names as alternates.
///
/// If an object is in none of the packs that were seen and isn't loose, the directories of packs are listed again,
/// since Git packs objects while others read. So they are if something that might have it can't be read, and each pack
/// that couldn't be opened is tried again then. As long as one can't, an object that is found nowhere is `Device` and
/// not `Missing`. The empty tree is answered even where it is stored nowhere.
///
/// Contracts see the repository's path and the count of failures.
#[derive(Drop)]
pub struct GitSource<R: Files> {
    files: R,
    repository: PathBuf,
    stores: Vec<Store<R>>,
    tools: Tools,
    packs: u64,
    failures: u64,
}

impl<R: Files> Model for GitSource<R> {
    ghost use Rattle.std.specs.Path.{path_buf_bytes};
    ghost use Rattle.eden_plain_files.specs.Folders.{Folder};

    ghost Value = { Folder };

    ghost view = { λ s. record { path = path_buf_bytes s.repository; failures = s.failures } };
}

impl<R: Files + Alloc + Clone + Drop> GitSource<R> {
    /// The objects of that repository: of a working directory with a `.git`, which may be a file that leads to another
    /// place, of a `.git` itself, or of a bare repository. Nothing has failed yet.
    ///
    /// `Missing`, where no repository is there; `Format`, where its ids aren't SHA-1 or its format is newer than
    /// version 1; `Device`, where it can't be read; `Memory`.
    pub fn open(alloc: Global, files: R, repository: PathBuf) -> Result<Self, GitFault>
        ensures { IfOk result (λ s. s ≡ record { path = path_buf_bytes repository; failures = 0 }) }
    {
        let objects = objects_directory(&files, alloc, &repository)?;
        let mut packs = 0;
        let stores = open_stores(&files, alloc, objects, &mut packs)?;
        let tools = Tools {
            alloc,
            decoder: Box::new(alloc, Decoder::new()).map_err(|_| GitFault::Memory)?,
            bases: Bases::new(alloc),
        };
        Ok(GitSource {
            files,
            repository,
            stores,
            tools,
            packs,
            failures: 0,
        })
    }

    fn read(&mut self, id: Id) -> Result<Vec<u8>, Cause>
        ensures path { self.new.path ≡ self.old.path }
        ensures failures { self.new.failures ≡ self.old.failures }
        ensures framed { IfOk result (λ v. IsFramedObject v.items) }
        ensures bounded { IfOk result (λ v. length v.items ≤ longest_framed) }
        ensures causes { IfErr result IsSourceCause }
    {
        let answer = self.read_stored(id);
        if answer == Err(Cause::Missing) && id == EMPTY_TREE {
            return frame(self.tools.alloc, Word::Tree, b"");
        }
        answer
    }

    // The object of that id, where one of the directories has it.
    fn read_stored(&mut self, id: Id) -> Result<Vec<u8>, Cause>
        ensures path { self.new.path ≡ self.old.path }
        ensures failures { self.new.failures ≡ self.old.failures }
        ensures framed { IfOk result (λ v. IsFramedObject v.items) }
        ensures bounded { IfOk result (λ v. length v.items ≤ longest_framed) }
        ensures causes { IfErr result IsSourceCause }
    {
        find(
            &self.files,
            &mut self.stores,
            &mut self.tools,
            id,
            &mut self.packs,
        )
    }
}

impl<R: Files + Alloc + Clone + Drop> Source<Outside> for GitSource<R> {
    ghost use Rattle.eden_git.specs.InFolder.{FetchedFromGit};

    ghost fetched = { FetchedFromGit };

    ghost failures = { λ s. s.failures };

    fn failures(&self) -> u64 {
        self.failures
    }

    fn fetch(&mut self, _alloc: Global, id: Id) -> Result<Vec<u8>, Cause> {
        let answer = self.read(id);
        if answer == Err(Cause::Device) {
            self.failures = self.failures.saturating_add(1);
        }
        answer
    }
}
