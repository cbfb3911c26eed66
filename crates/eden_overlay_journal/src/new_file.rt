// What a file is to have, and where it is put.
ghost use Rattle.std.specs.Prelude.{◌≡◌, ◌++◌, Some, IfOk, OnOk, OnErr};
ghost use Rattle.eden_overlay.specs.Files.{with_file};
ghost use Rattle.eden_overlay_journal.specs.Changes.{noted};
ghost use Rattle.eden_overlay_journal.specs.New.{bytes_as};

use crate::journal::Journal;
use eden_model::World;
use eden_overlay::{Files, FilesFault};
use eden_overlay_format::Identifier;
use std::alloc::{AllocError, Global};

/// The longest file that is noted in a journal, in bytes. A longer one goes to the files at once.
pub const LONGEST_RECORD: usize = 128 << 10;

/// The longest body of a directory that is noted, in bytes: mostly what changed of it is written alone.
pub const LONGEST_DIRECTORY: usize = 4 << 20;

/// What a file is to have.
#[derive(Clone, Copy)]
pub(crate) enum NewFile<'a> {
    /// These bytes.
    Bytes(&'a [u8]),
    /// The bytes of both, one behind the other.
    Joined(&'a [u8], &'a [u8]),
    /// That body of a directory, behind its header.
    Directory(&'a [u8]),
}

impl NewFile<'_> {
    // Whether it is short enough for a journal.
    pub(crate) fn is_short(&self) -> bool {
        match self {
            NewFile::Bytes(bytes) => bytes.len() <= LONGEST_RECORD,
            NewFile::Joined(front, behind) => {
                front.len().saturating_add(behind.len()) <= LONGEST_RECORD
            }
            NewFile::Directory(body) => body.len() <= LONGEST_DIRECTORY,
        }
    }
}

// Notes that the file of that number has that.
pub(crate) fn note<W: World, J: Journal<W>>(
    alloc: Global,
    journal: &mut J,
    number: u64,
    new: NewFile<'_>,
) -> Result<(), FilesFault>
    ensures ok { W.honest → OnOk result
        (J.changes journal.new ≡ noted (J.changes journal.old) number (Some (Some (bytes_as new.entry)))) }
    ensures err { W.honest → OnErr result (J.changes journal.new ≡ J.changes journal.old) }
{
    match new {
        NewFile::Bytes(bytes) => journal.store(alloc, number, bytes),
        NewFile::Joined(front, behind) => {
            let bytes = joined(alloc, front, behind)?;
            journal.store(alloc, number, &bytes)
        }
        NewFile::Directory(body) => journal.store_directory(alloc, number, body),
    }
}

// Stores that as the file of that number.
pub(crate) fn store<W: World, F: Files<W>>(
    alloc: Global,
    files: &mut F,
    number: u64,
    new: NewFile<'_>,
) -> Result<(), FilesFault>
    ensures ok { W.honest
        → OnOk result (F.stored files.new ≡ with_file (F.stored files.old) number (Some (bytes_as new.entry))) }
    ensures err { W.honest → OnErr result (F.stored files.new ≡ F.stored files.old) }
{
    match new {
        NewFile::Bytes(bytes) => files.replace(alloc, number, bytes),
        NewFile::Joined(front, behind) => files.replace_joined(alloc, number, front, behind),
        NewFile::Directory(body) => {
            files.replace_body(alloc, number, Identifier::Directory, body)
        }
    }
}

// The bytes of both.
fn joined(alloc: Global, front: &[u8], behind: &[u8]) -> Result<Vec<u8>, AllocError>
    ensures { IfOk result (λ v. v.items ≡ front.now ++ behind.now) }
{
    let mut bytes = Vec::from_slice(alloc, front)?;
    bytes.extend_from_slice(behind)?;
    Ok(bytes)
}
