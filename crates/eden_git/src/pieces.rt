// A file that is read in pieces where it lies.
ghost use Rattle.std.specs.Prelude.{◌≡◌, ◌≤◌, length, IfOk, IfErr};
ghost use Rattle.eden_pack_format.specs.Causes.{IsReadingCause};

use eden_model::Cause;
use eden_plain_files::FolderFault;
use std::alloc::Global;
use std::fs::{self, File, OpenFile};
use std::io::{self, ErrorKind, Read, Seek, SeekFrom};
use std::rt::Files;

/// An open file, and how many bytes it had when it was opened.
#[derive(Drop)]
pub(crate) struct Pieces<F> {
    file: F,
    len: u64,
}

/// Opens the plain file at the path. What is none is looked at and not opened. It is opened for reading alone, since
/// Git lets nobody write to its packs, so a pipe that comes after the look is waited for.
///
/// `Missing`, where nothing has that name; `NotPlain`, `Device` and `Memory`.
pub(crate) fn open_pieces<R: Files>(files: &R, path: &str) -> Result<Pieces<R::File>, FolderFault> {
    let found = fs::metadata(files, path).map_err(not_found)?;
    if !found.is_file() {
        return Err(FolderFault::NotPlain);
    }
    let file = File::open(files, path).map_err(not_found)?;
    let opened = file.metadata()?;
    if !opened.is_file() {
        return Err(FolderFault::NotPlain);
    }
    let len = opened.len();
    Ok(Pieces { file, len })
}

// Why the file isn't opened.
fn not_found(error: io::Error) -> FolderFault {
    match error.kind() {
        ErrorKind::NotFound => FolderFault::Missing,
        _ => FolderFault::from(error),
    }
}

impl<F: Read + Seek> Pieces<F> {
    pub(crate) fn len(&self) -> u64 {
        self.len
    }

    /// Fills `bytes` with those from there on. `Device`, where the file ends before.
    pub(crate) fn read(&mut self, at: u64, bytes: &mut [u8]) -> Result<(), Cause>
        ensures causes { IfErr result IsReadingCause }
    {
        self.file
            .seek(SeekFrom::Start(at))
            .map_err(|_| Cause::Device)?;
        self.file.read_exact(bytes).map_err(|_| Cause::Device)
    }

    /// The bytes from there on: so many, or all that the file has.
    pub(crate) fn read_some(&mut self, alloc: Global, at: u64, most: u64) -> Result<Vec<u8>, Cause>
        ensures bounded { IfOk result (λ v. length v.items ≤ most) }
        ensures causes { IfErr result IsReadingCause }
    {
        let count = self.len.saturating_sub(at).min(most);
        let mut bytes = Vec::new(alloc);
        bytes.resize(count as usize, 0)?;
        self.read(at, bytes.as_mut_slice())?;
        Ok(bytes)
    }
}
