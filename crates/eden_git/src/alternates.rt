// Other directories of objects that a repository looks into (gitrepository-layout(5), `objects/info/alternates`).
use crate::fault::GitFault;
use eden_plain_files::{FolderFault, Links, read_file};
use std::alloc::Global;
use std::path::PathBuf;
use std::rt::Files;
use std::str;

/// How far alternates of alternates lead, which is Git's bound, and how many directories there are at most.
const DEEPEST: usize = 5;

const MOST: usize = 256;

/// The longest file of alternates.
const LONGEST: u64 = 1 << 20;

/// The repository's directory of objects, and those that it names, directly or by one of them.
pub(crate) fn directories<R: Files>(
    files: &R,
    alloc: Global,
    objects: PathBuf,
) -> Result<Vec<PathBuf>, GitFault> {
    let mut all = Vec::new(alloc);
    all.push(objects).map_err(|_| GitFault::Memory)?;
    let mut begin = 0;
    for _ in 0..=DEEPEST {
        let end = all.len();
        for index in begin..end {
            add_named_by(files, alloc, index, &mut all)?;
        }
        begin = end;
    }
    Ok(all)
}

// Adds the directories that the one of that number names.
fn add_named_by<R: Files>(
    files: &R,
    alloc: Global,
    index: usize,
    all: &mut Vec<PathBuf>,
) -> Result<(), GitFault> {
    let Some(here) = all.get(index) else {
        return Ok(());
    };
    let here = here.clone()?;
    let path = here.join(alloc, "info/alternates")?;
    match read_file(files, alloc, path.as_str(), Links::Followed, LONGEST) {
        Ok(text) => add_lines(alloc, &here, &text, all),
        Err(FolderFault::Missing) => Ok(()),
        Err(fault) => Err(GitFault::from(fault)),
    }
}

// Each line names a directory, seen from the one that has the file; one that begins with `#` says nothing.
fn add_lines(
    alloc: Global,
    here: &PathBuf,
    text: &[u8],
    all: &mut Vec<PathBuf>,
) -> Result<(), GitFault> {
    for line in text.split(|byte| *byte == b'\n') {
        let Ok(name) = str::from_utf8(line) else {
            continue;
        };
        if !name.is_empty() && !name.starts_with("#") {
            add(all, here.join(alloc, name)?)?;
        }
    }
    Ok(())
}

// Adds the directory, unless it is there already, or there are too many.
fn add(all: &mut Vec<PathBuf>, directory: PathBuf) -> Result<(), GitFault> {
    let is_there = all.iter().any(|other| other.as_str() == directory.as_str());
    if !is_there && all.len() < MOST {
        all.push(directory).map_err(|_| GitFault::Memory)?;
    }
    Ok(())
}
