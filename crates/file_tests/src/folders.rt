//! Directories that tests work in, made by tables of what is to be in them.
use std::os::unix::fs::symlink;
use std::path::PathBuf;
use std::{fs, io};
use test_samples::empty_folder;

/// What is made under a name.
#[derive(Clone, Copy)]
pub enum Made {
    File(&'static [u8]),
    /// A file of that length.
    Long(u64),
    Folder,
    /// A link to that target.
    Link(&'static str),
}

/// Makes that under the name.
pub fn make(rt: &HostRuntime, folder: &PathBuf, name: &str, made: Made) -> io::Result<()> {
    let path = folder.join(rt.alloc(), name)?;
    make_at(rt, &path, made)
}

fn make_at(rt: &HostRuntime, path: &PathBuf, made: Made) -> io::Result<()> {
    match made {
        Made::File(bytes) => fs::write(rt, path.as_path(), bytes),
        Made::Long(len) => make_long(rt, path.as_str(), len),
        Made::Folder => fs::create_dir(rt, path.as_path()),
        Made::Link(target) => symlink(rt, target, path.as_path()),
    }
}

fn make_long(rt: &HostRuntime, path: &str, len: u64) -> io::Result<()> {
    fs::File::create(rt, path)?.set_len(len)
}

fn make_all(rt: &HostRuntime, folder: &PathBuf, table: &[(&str, Made)]) -> io::Result<()> {
    for (name, made) in table {
        make(rt, folder, name, *made)?;
    }
    Ok(())
}

/// A directory of that name, which was empty, with all that the table has.
pub fn folder_of(rt: &HostRuntime, name: &str, table: &[(&str, Made)]) -> io::Result<PathBuf> {
    let folder = empty_folder(rt, name)?;
    make_all(rt, &folder, table)?;
    Ok(folder)
}

/// Removes the directory and all that is in it.
pub fn remove(rt: &HostRuntime, folder: PathBuf) -> io::Result<()> {
    fs::remove_dir_all(rt, folder.as_path())
}

/// Changes the last byte of that file.
pub fn damage(rt: &HostRuntime, folder: &PathBuf, name: &str) -> io::Result<()> {
    let path = folder.join(rt.alloc(), name)?;
    let mut bytes = fs::read(rt, path.as_path())?;
    if let Some(last) = bytes.last_mut() {
        *last ^= 1;
    }
    fs::write(rt, path.as_path(), bytes.as_slice())
}

/// Whether something in the directory has the name; None if that isn't known.
pub fn has(rt: &HostRuntime, folder: &PathBuf, name: &str) -> Option<bool> {
    let path = folder.join(rt.alloc(), name).ok()?;
    fs::exists(rt, path.as_path()).ok()
}
