use crate::fault::{FolderFault, not_found};
use crate::read::{Links, open_plain};
use std::fs::{File, OpenFile};
use std::rt;

/// Waits until the disk has the bytes of the plain file at the path (`fdatasync`). False where it may never get them:
/// no later call can tell that, since a system tells a lost write once.
///
/// `Missing`, where there is nothing; `NotPlain`, where there is no plain file; `Device` and `Memory`, where the file
/// couldn't be opened.
pub fn sync_file<R: rt::Files>(files: &R, path: &str) -> Result<bool, FolderFault> {
    let file = open_plain(files, path, Links::Refused)?;
    Ok(file.sync_data().is_ok())
}

/// Waits until the disk has the names of the folder at the path: which files it has, and which it has no more
/// (`fsync`). False where it may never get them, as for `sync_file`.
///
/// `Missing`, where there is nothing; `Device` and `Memory`, where the folder couldn't be opened.
pub fn sync_names<R: rt::Files>(files: &R, path: &str) -> Result<bool, FolderFault> {
    let folder = File::open(files, path).map_err(not_found)?;
    Ok(folder.sync_all().is_ok())
}
