// What of a folder the disk may not have yet.
use crate::files::FilesFault;
use crate::mark::{self, StateFile};
use crate::names::{file_path, rising};
use eden_plain_files::{Durability, FolderFault, sync_file, sync_names};
use std::alloc::Global;
use std::collections::BTreeSet;
use std::path::PathBuf;
use std::rt;

/// So many files of a run are kept in mind. With more, any file may lack its bytes.
const MOST_KEPT: usize = 1 << 17;

/// Which files may lack their bytes from before this run.
#[derive(Clone, Copy)]
enum Earlier {
    /// Any.
    Any,
    /// Those that the mark beside that state names.
    Marked(StateFile),
    /// None.
    None,
}

/// What was done in a folder since the disk last had all of it.
#[derive(Drop)]
pub(crate) struct Unsynced {
    earlier: Earlier,
    /// Whether this run took away the mark that earlier ones left.
    is_unmarked: bool,
    /// The files that this run stored before somebody asked for the disk.
    stored: Option<BTreeSet<u64>>,
    /// Whether a name came or went.
    has_names: bool,
    /// Whether the disk may never get something.
    is_lost: bool,
    /// Whether somebody asked for the disk.
    is_promised: bool,
}

impl Unsynced {
    /// Nothing is known of what earlier runs stored.
    pub(crate) fn anything() -> Unsynced {
        Unsynced {
            earlier: Earlier::Any,
            is_unmarked: false,
            stored: None,
            has_names: true,
            is_lost: false,
            is_promised: false,
        }
    }

    /// Whether a mark may count that says nothing of what this run stores, and mustn't: the state beside which it was
    /// left is still there.
    pub(crate) fn has_old_mark(&self) -> bool {
        !self.is_promised && !self.is_unmarked && matches!(self.earlier, Earlier::Any)
    }

    /// There is no mark any more.
    pub(crate) fn unmarks(&mut self) {
        self.is_unmarked = true;
    }

    /// The file of that number is being stored. Once somebody asked for the disk it has its bytes there before its
    /// name: it may be a directory's, whose other entries were waited for.
    pub(crate) fn replaces(&mut self, alloc: Global, number: u64) -> Durability {
        self.has_names = true;
        if self.is_promised {
            return Durability::Synced;
        }
        if !self.keeps(alloc, number) {
            self.stored = None;
            self.earlier = Earlier::Any;
        }
        Durability::Written
    }

    // Whether the number is kept in mind from now on.
    fn keeps(&mut self, alloc: Global, number: u64) -> bool {
        let stored = self.stored.get_or_insert_with(|| BTreeSet::new(alloc));
        stored.len() < MOST_KEPT && stored.insert(number).is_ok()
    }

    /// A file is being removed.
    pub(crate) fn removes(&mut self) {
        self.has_names = true;
    }

    /// That state is being removed, beside which the last run may have left a mark.
    pub(crate) fn opens(&mut self, state: StateFile) {
        if let Earlier::Any = self.earlier {
            self.earlier = Earlier::Marked(state);
        }
    }

    /// There was no file yet.
    pub(crate) fn begins(&mut self) {
        self.earlier = Earlier::None;
    }

    /// From now on stores wait for the disk.
    pub(crate) fn promise(&mut self) {
        self.is_promised = true;
    }
}

/// The numbers of the files that may lack their bytes, rising; None where any may.
pub(crate) fn lacking<R: rt::Files>(
    files: &R,
    alloc: Global,
    folder: &PathBuf,
    unsynced: &Unsynced,
) -> Result<Option<Vec<u64>>, FilesFault> {
    let mut numbers = BTreeSet::new(alloc);
    match unsynced.earlier {
        Earlier::Any => return Ok(None),
        Earlier::Marked(state) => match mark::read(files, alloc, folder, state)? {
            Some(marked) => {
                for number in marked.iter() {
                    numbers.insert(*number)?;
                }
            }
            None => return Ok(None),
        },
        Earlier::None => {}
    }
    if let Some(stored) = &unsynced.stored {
        for number in stored.iter() {
            numbers.insert(*number)?;
        }
    }
    Ok(Some(rising(alloc, &numbers)?))
}

/// The numbers for a mark, by which the next run knows what the disk may lack; None where that can't be told.
pub(crate) fn to_mark<R: rt::Files>(
    files: &R,
    alloc: Global,
    folder: &PathBuf,
    unsynced: &Unsynced,
) -> Option<Vec<u64>> {
    if unsynced.is_lost {
        return None;
    }
    match lacking(files, alloc, folder, unsynced) {
        Ok(numbers) => numbers,
        Err(_) => None,
    }
}

/// Waits until the disk has the files of these numbers, as far as there are such files, and all names of the folder
/// where they changed. What the disk may never get stays lost, so that no later call says that it has all.
pub(crate) fn sync_all<R: rt::Files>(
    files: &R,
    folder: &PathBuf,
    numbers: &[u64],
    unsynced: &mut Unsynced,
) -> Result<(), FilesFault> {
    let has_all = !unsynced.is_lost
        && has_files(files, folder, numbers)?
        && (!unsynced.has_names || sync_names(files, folder.as_str())?);
    if has_all {
        unsynced.earlier = Earlier::None;
        unsynced.stored = None;
        unsynced.has_names = false;
        Ok(())
    } else {
        unsynced.is_lost = true;
        Err(FilesFault::Device)
    }
}

// Waits for these files, one after another. False where the disk may never get one of them.
fn has_files<R: rt::Files>(
    files: &R,
    folder: &PathBuf,
    numbers: &[u64],
) -> Result<bool, FilesFault> {
    for number in numbers {
        if !has_file(files, folder, *number)? {
            return Ok(false);
        }
    }
    Ok(true)
}

// Where no plain file has that number there is nothing to wait for.
fn has_file<R: rt::Files>(files: &R, folder: &PathBuf, number: u64) -> Result<bool, FilesFault> {
    let path = file_path(folder, number)?;
    match sync_file(files, path.as_str()) {
        Ok(has) => Ok(has),
        Err(FolderFault::Missing | FolderFault::NotPlain) => Ok(true),
        Err(fault) => Err(FilesFault::from(fault)),
    }
}
