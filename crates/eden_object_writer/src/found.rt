ghost use Rattle.std.specs.Prelude.{◌≡◌, ◌≢◌, ◌⊎◌, Ok, Err, None, IfOk, IfErr, IsErrAnd};
ghost use Rattle.std.specs.Fs.{IsDir, IsFile};
ghost use Rattle.std.specs.IoError.{error_kind};
ghost use Rattle.eden_model.specs.Names.{name_refusal};
ghost use Rattle.eden_object_writer.specs.declared.fault.ImportFault.TheVariants as fault;

use crate::fault::ImportFault;
use eden_object::Name;
use eden_plain_files::entry_in;
use std::alloc::{Alloc, AllocError, Allocator, Global};
use std::fs::{self, DirEntry, FileType};
use std::io::{self, ErrorKind};
use std::path::PathBuf;
use std::rt;

/// What an entry of a folder is.
#[derive(Clone, Copy, Debug, PartialEq, Eq)]
pub(crate) enum Kind {
    File,
    Folder,
}

/// What lies in a folder under a name.
#[derive(Debug, Drop)]
pub(crate) struct Found {
    pub(crate) name: String,
    pub(crate) kind: Kind,
}

/// What lies in the folder, in the order in which the system tells it.
///
/// `Kind`, `Name`, `Device` and `Memory`.
pub(crate) fn list<R: rt::Files + Alloc + Clone + Drop>(
    files: &R,
    alloc: Global,
    folder: &PathBuf,
) -> Result<Vec<Found>, ImportFault> {
    let mut all = Vec::new(alloc);
    for item in fs::read_dir(files, folder.as_path())? {
        all.push(look_at(alloc, item)?)?;
    }
    Ok(all)
}

fn look_at<R: rt::Files + Drop, A: Allocator>(
    alloc: Global,
    item: io::Result<DirEntry<R, A>>,
) -> Result<Found, ImportFault>
    ensures no_text { IsErrAnd item (λ e. error_kind e ≡ ErrorKind.InvalidFilename) → result ≡ Err fault.Name }
{
    let entry = entry_in(item)?.ok_or(ImportFault::Name)?;
    let kind = kind_of(&entry.file_type()?)?;
    let name = String::from_str(alloc, entry.file_name())?;
    Ok(Found { name, kind })
}

fn kind_of(kind: &FileType) -> Result<Kind, ImportFault>
    ensures file { IsFile kind.now → result ≡ Ok Kind.File }
    ensures folder { IsDir kind.now → result ≡ Ok Kind.Folder }
    ensures other { ¬ IsFile kind.now → ¬ IsDir kind.now → result ≡ Err fault.Kind }
{
    if kind.is_file() {
        Ok(Kind::File)
    } else if kind.is_dir() {
        Ok(Kind::Folder)
    } else {
        Err(ImportFault::Kind)
    }
}

/// The name of an entry. `Name`, where the text is none; `Memory`.
pub(crate) fn entry_name(alloc: Global, text: &str) -> Result<Name, ImportFault>
    ensures named { IfOk result (λ name. name ≡ text.now) }
    ensures odd { result ≡ Err fault.Name → name_refusal text.now ≢ None }
    ensures faults { IfErr result (λ f. (f ≡ fault.Name) ⊎ (f ≡ fault.Memory)) }
{
    let bytes = Vec::from_slice(alloc, text.as_bytes())?;
    Name::new(bytes).map_err(|_| ImportFault::Name)
}
