// The mark that a run leaves beside the state: which files the disk may lack.
//
// It is the file `unsynced`, a content's stored file. Its body has what tells the state's file from any other, and then
// the numbers, 8 bytes each. So it counts beside the very state with which it was left: a copy of the folder has
// another one, and so has a folder that a program closed since which leaves no marks.
use crate::files::FilesFault;
use crate::names::{file_path, path_of};
use crate::overlay::STATE_NUMBER;
use eden_overlay_format::{Identifier, decode_file, header_of};
use eden_plain_files::{Durability, FolderFault, Links, read_file, remove_file, replace_file};
use std::alloc::Global;
use std::os::unix::fs::MetadataExt;
use std::path::PathBuf;
use std::{fs, rt};

const NAME: &str = "unsynced";

/// The longest mark that is read, in bytes.
const LONGEST: u64 = 4 << 20;

/// The length of a number, in bytes.
const NUMBER_LEN: usize = 8;

/// What tells a state's file from any other: the system's number for it, and when it was changed last, in seconds and
/// nanoseconds.
#[derive(Clone, Copy, PartialEq, Eq)]
pub(crate) struct StateFile {
    number: u64,
    seconds: i64,
    nanoseconds: i64,
}

/// The length of what a mark says of it, in bytes.
const STATE_LEN: usize = 3 * NUMBER_LEN;

impl StateFile {
    fn bytes(&self) -> [u8; STATE_LEN] {
        let mut bytes = [0; STATE_LEN];
        bytes[..8].copy_from_slice(&self.number.to_be_bytes());
        bytes[8..16].copy_from_slice(&self.seconds.to_be_bytes());
        bytes[16..].copy_from_slice(&self.nanoseconds.to_be_bytes());
        bytes
    }
}

/// The state's file of that folder, if there is one, and the system tells it from others.
pub(crate) fn state_file<R: rt::Files>(
    files: &R,
    folder: &PathBuf,
) -> Result<Option<StateFile>, FilesFault> {
    let path = file_path(folder, STATE_NUMBER)?;
    match fs::symlink_metadata(files, path.as_str()) {
        Ok(found) if found.is_file() && found.ino() != 0 => Ok(Some(StateFile {
            number: found.ino(),
            seconds: found.ctime(),
            nanoseconds: found.ctime_nsec(),
        })),
        _ => Ok(None),
    }
}

/// Leaves a mark with these numbers beside the state that is stored there.
pub(crate) fn write<R: rt::Files>(
    files: &R,
    alloc: Global,
    folder: &PathBuf,
    numbers: &[u64],
) -> Result<(), FilesFault> {
    let Some(state) = state_file(files, folder)? else {
        return Ok(());
    };
    let mut body = Vec::new(alloc);
    body.extend_from_slice(&state.bytes())?;
    for number in numbers {
        body.extend_from_slice(&number.to_be_bytes())?;
    }
    let header = header_of(Identifier::File, &body);
    let path = path_of(folder, NAME)?;
    let pieces = [header.as_slice(), body.as_slice()];
    replace_file(files, alloc, path.as_str(), &pieces, Durability::Written)?;
    Ok(())
}

/// Takes away any mark. What isn't a plain file is none, and stays.
pub(crate) fn remove<R: rt::Files>(files: &R, folder: &PathBuf) -> Result<(), FilesFault> {
    let path = path_of(folder, NAME)?;
    match fs::symlink_metadata(files, path.as_str()).map_err(FolderFault::from) {
        Ok(found) if !found.is_file() => {}
        _ => remove_file(files, path.as_str())?,
    }
    Ok(())
}

/// The numbers of the mark that was left beside that state; None where there is none.
pub(crate) fn read<R: rt::Files>(
    files: &R,
    alloc: Global,
    folder: &PathBuf,
    state: StateFile,
) -> Result<Option<Vec<u64>>, FilesFault> {
    let path = path_of(folder, NAME)?;
    match read_file(files, alloc, path.as_str(), Links::Refused, LONGEST) {
        Ok(mark) => numbers_in(alloc, &mark, state),
        Err(FolderFault::Memory) => Err(FilesFault::Memory),
        Err(_) => Ok(None),
    }
}

// The numbers that the mark's bytes say, if they are those of a mark beside that state.
fn numbers_in(
    alloc: Global,
    mark: &[u8],
    state: StateFile,
) -> Result<Option<Vec<u64>>, FilesFault> {
    let Ok(body) = decode_file(mark) else {
        return Ok(None);
    };
    match body.split_first_chunk::<STATE_LEN>() {
        Some((of, rest)) if *of == state.bytes() => {
            let mut numbers = Vec::with_capacity(alloc, rest.len() / NUMBER_LEN)?;
            let (chunks, _) = rest.as_chunks::<NUMBER_LEN>();
            for digits in chunks {
                numbers.push(u64::from_be_bytes(*digits))?;
            }
            Ok(Some(numbers))
        }
        _ => Ok(None),
    }
}
