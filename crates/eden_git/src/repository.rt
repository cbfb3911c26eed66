// Where a repository keeps its objects (gitrepository-layout(5)).
ghost use Rattle.std.specs.Prelude.{◌≡◌, IfErr};
ghost use Rattle.eden_git.specs.declared.fault.GitFault.TheVariants as fault;

use crate::config::is_format_known;
use crate::fault::GitFault;
use eden_plain_files::{FolderFault, Links, read_file};
use std::alloc::Global;
use std::io::ErrorKind;
use std::path::PathBuf;
use std::rt::Files;
use std::{fs, str};

/// No file that says where a repository lies is longer, nor one that says how it is kept.
const LONGEST: u64 = 1 << 20;

/// The directory of objects of the repository: of a working directory, of its `.git`, or of a bare one.
///
/// `Missing`, where there is none; `Format`, where the repository's ids aren't SHA-1 or its format is too new; `Device`
/// and `Memory`, where those failed.
pub(crate) fn objects_directory<R: Files>(
    files: &R,
    alloc: Global,
    repository: &PathBuf,
) -> Result<PathBuf, GitFault> {
    let own = git_directory(files, alloc, repository)?;
    let common = common_directory(files, alloc, own)?;
    require_known_format(files, alloc, &common)?;
    let objects = common.join(alloc, "objects")?;
    match fs::metadata(files, objects.as_str()) {
        Ok(found) if found.is_dir() => Ok(objects),
        Ok(_) => Err(GitFault::Missing),
        Err(error) if error.kind() == ErrorKind::NotFound => Err(GitFault::Missing),
        Err(error) => Err(GitFault::from(FolderFault::from(error))),
    }
}

// The directory `.git`, the one that the file `.git` names, or the repository's own.
fn git_directory<R: Files>(
    files: &R,
    alloc: Global,
    repository: &PathBuf,
) -> Result<PathBuf, GitFault> {
    let inner = repository.join(alloc, ".git")?;
    match read_file(files, alloc, inner.as_str(), Links::Followed, LONGEST) {
        Ok(text) => {
            let named = text.strip_prefix(b"gitdir:").ok_or(GitFault::Missing)?;
            joined(alloc, repository, named)
        }
        Err(FolderFault::NotPlain) => Ok(inner),
        Err(FolderFault::Missing) => Ok(repository.clone()?),
        Err(fault) => Err(GitFault::from(fault)),
    }
}

// A working directory of its own has its objects in the one that it names.
fn common_directory<R: Files>(files: &R, alloc: Global, own: PathBuf) -> Result<PathBuf, GitFault> {
    let path = own.join(alloc, "commondir")?;
    match read_file(files, alloc, path.as_str(), Links::Followed, LONGEST) {
        Ok(text) => joined(alloc, &own, &text),
        Err(FolderFault::Missing) => Ok(own),
        Err(fault) => Err(GitFault::from(fault)),
    }
}

// The path that a line of text names, seen from there.
fn joined(alloc: Global, from: &PathBuf, line: &[u8]) -> Result<PathBuf, GitFault> {
    let name = str::from_utf8(line.trim_ascii()).map_err(|_| GitFault::Missing)?;
    Ok(from.join(alloc, name)?)
}

fn require_known_format<R: Files>(
    files: &R,
    alloc: Global,
    common: &PathBuf,
) -> Result<(), GitFault> {
    let path = common.join(alloc, "config")?;
    match read_file(files, alloc, path.as_str(), Links::Followed, LONGEST) {
        Ok(config) if is_format_known(&config) => Ok(()),
        Ok(_) => Err(GitFault::Format),
        Err(FolderFault::Missing) => Ok(()),
        Err(fault) => Err(GitFault::from(fault)),
    }
}
