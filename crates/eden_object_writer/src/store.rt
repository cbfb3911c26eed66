ghost use Rattle.std.specs.Prelude.{◌≡◌, ◌++◌, IfOk};
ghost use Rattle.std.specs.Path.{path_buf_bytes};
ghost use Rattle.sha1.specs.Sha1.{sha1};
ghost use Rattle.hex.specs.Hex.{encode_lower};

use crate::fault::ImportFault;
use eden_object::{Id, id_of};
use eden_plain_files::{Durability, replace_file};
use std::alloc::{AllocError, Global};
use std::fs;
use std::io::ErrorKind;
use std::path::PathBuf;
use std::rt::Files;

/// After how many objects their number is told anew.
const STEP: u64 = 1_000;

/// Whether it is told how far an import has come.
#[derive(Clone, Copy, Debug, PartialEq, Eq)]
pub enum Progress {
    /// Nothing is told.
    Quiet,
    /// One line on standard error says how many objects there are, and changes as they grow.
    Told,
}

/// A folder of objects that is being filled: the framed object of an id is the file `xx/` and 38 lower-case hexadecimal
/// digits, the digits of the id.
#[derive(Drop)]
pub struct Store<R> {
    rt: R,
    folder: PathBuf,
    progress: Progress,
    count: u64,
}

impl<R: Files + Eprint> Store<R> {
    /// The objects below that folder, which is made with the first of them.
    pub fn new(rt: R, folder: PathBuf, progress: Progress) -> Self {
        Store {
            rt,
            folder,
            progress,
            count: 0,
        }
    }

    pub(crate) fn files(&self) -> &R {
        &self.rt
    }

    /// Stores the framed object under its id. What has that id's place already is left as it is.
    ///
    /// `Device` and `Memory`: the object's place is then empty, or what it was.
    pub fn put(&mut self, alloc: Global, framed: &[u8]) -> Result<Id, ImportFault>
        ensures { IfOk result (λ id. id.bytes ≡ sha1 framed.now) }
    {
        let id = id_of(framed);
        let folder = self.folder_of(alloc, id)?;
        let path = folder.join(alloc, hex::encode(alloc, &id.bytes[1..])?.as_str())?;
        if !self.is_there(&path)? {
            fs::create_dir_all(&self.rt, folder.as_path())?;
            replace_file(
                &self.rt,
                alloc,
                path.as_str(),
                &[framed],
                Durability::Written,
            )?;
        }
        self.tell_one();
        Ok(id)
    }

    // The folder of the objects whose ids begin as this one.
    fn folder_of(&self, alloc: Global, id: Id) -> Result<PathBuf, AllocError> {
        let front = hex::encode(alloc, &id.bytes[..1])?;
        self.folder.join(alloc, front.as_str())
    }

    fn is_there(&self, path: &PathBuf) -> Result<bool, ImportFault> {
        match fs::symlink_metadata(&self.rt, path.as_path()) {
            Ok(_) => Ok(true),
            Err(error) if error.kind() == ErrorKind::NotFound => Ok(false),
            Err(error) => Err(ImportFault::from(error)),
        }
    }

    fn tell_one(&mut self) {
        self.count = self.count.saturating_add(1);
        if self.progress == Progress::Told && self.count % STEP == 0 {
            let _ = eprint!(self.rt; "\r{} objects", self.count);
        }
    }

    /// Ends the line that tells how far the import has come.
    pub(crate) fn tell_end(&self) {
        if self.progress == Progress::Told {
            let _ = eprintln!(self.rt; "\r{} objects", self.count);
        }
    }
}
