ghost use Rattle.std.specs.Prelude.{◌≡◌, ◌++◌, IfOk, codes, string_bytes};

use crate::fault::{FolderFault, not_stored};
use std::alloc::{AllocError, Global};
use std::fs::{self, File, OpenFile};
use std::io::{self, ErrorKind, Write};
use std::rt;

/// Whether a file's bytes are on the disk before it takes its name.
#[derive(Clone, Copy, Debug, PartialEq, Eq)]
pub enum Durability {
    /// They may come there later, so that a loss of power may leave the name without them. `sync_file` waits for them.
    Written,
    /// They are: a loss of power leaves what the name had before, or them. Which of both, `sync_names` decides.
    Synced,
}

/// Makes the bytes of the pieces, one behind the other, the whole of the file at the path, in place of any that is
/// there: they are written to `PATH.new`, which then takes the path's name.
///
/// `PATH.new` is always a new file: one that is there, as a kill left it, is removed first, or a link or a pipe, and
/// nothing is written to what it was. `Blocked` says what keeps the device from storing; `Device` comes too where a
/// folder is in the way. After an error the file at the path is what it was, and `PATH.new` is removed, as far as that
/// can be: on a full disk it would keep what room there is.
pub fn replace_file<R: rt::Files>(
    files: &R,
    alloc: Global,
    path: &str,
    pieces: &[&[u8]],
    durability: Durability,
) -> Result<(), FolderFault> {
    let beside = beside(alloc, path)?;
    let new = create_new(files, beside.as_str()).map_err(not_stored)?;
    let answer = match fill(new, pieces, durability) {
        Ok(()) => fs::rename(files, beside.as_str(), path),
        failed => failed,
    };
    if answer.is_err() {
        // What failed is told, whatever comes of this.
        let _ = fs::remove_file(files, beside.as_str());
    }
    answer.map_err(not_stored)
}

// Writes the pieces to the new file, and closes it.
fn fill<F: Write + OpenFile + Drop>(
    mut file: F,
    pieces: &[&[u8]],
    durability: Durability,
) -> io::Result<()> {
    for piece in pieces {
        file.write_all(piece)?;
    }
    if durability == Durability::Synced {
        file.sync_data()?;
    }
    Ok(())
}

/// Removes the file at the path; Ok too where there is none.
pub fn remove_file<R: rt::Files>(files: &R, path: &str) -> Result<(), FolderFault> {
    match fs::remove_file(files, path) {
        Err(error) if error.kind() != ErrorKind::NotFound => Err(FolderFault::from(error)),
        _ => Ok(()),
    }
}

// Where a file is written before it takes its place.
fn beside(alloc: Global, path: &str) -> Result<String, AllocError>
    ensures { IfOk result (λ s. string_bytes s ≡ path.now ++ codes ".new") }
{
    let mut beside = String::from_str(alloc, path)?;
    beside.push_str(".new")?;
    Ok(beside)
}

// Opens a file that wasn't there. Whatever has the name is taken out of the way, and never opened.
fn create_new<R: rt::Files>(files: &R, path: &str) -> io::Result<R::File> {
    match File::create_new(files, path) {
        Err(error) if error.kind() == ErrorKind::AlreadyExists => {
            fs::remove_file(files, path)?;
            File::create_new(files, path)
        }
        opened => opened,
    }
}
