// A journal's file: records are written behind each other, and read where they lie.
use eden_model::Obstacle;
use eden_plain_files::{FolderFault, not_stored, remove_file, sync_names};
use std::fs::{self, OpenFile, OpenOptions};
use std::io::{self, ErrorKind, Read, Seek, SeekFrom, Write};
use std::path::PathBuf;
use std::rt::Files;

/// How much of a file the disk is known to have.
#[derive(Clone, Copy, PartialEq, Eq)]
enum Synced {
    /// Perhaps not even its name.
    Nothing,
    /// Its name, and what it had once.
    Name,
    /// All of it.
    All,
    /// It may never get what was written, since it failed once.
    Lost,
}

/// So many bytes stay allocated behind the records, for those that make room on a full disk.
const RESERVE: u64 = 64 << 10;

/// So many zeros are written at a time: what a disk gives at once.
const ZEROS_LEN: usize = 4 << 10;

/// Where a record finds its room.
#[derive(Clone, Copy, PartialEq, Eq)]
pub(crate) enum Room {
    /// On the disk: the reserve is still there behind it.
    Disk,
    /// In the reserve, where the disk has none.
    Reserve,
}

/// The file, where there is one.
#[derive(Drop)]
pub(crate) struct Log<R: Files> {
    files: R,
    path: PathBuf,
    file: Option<R::File>,
    /// How many bytes the whole records have.
    end: u64,
    /// Up to where the file was written: behind the records stand zeros, unless a write failed half way.
    allocated: u64,
    /// Whether something may lie behind them.
    is_torn: bool,
    /// What the disk is known to have.
    synced: Synced,
    /// What kept the last record from being written, where the system said so.
    obstacle: Option<Obstacle>,
}

impl<R: Files + Drop> Log<R> {
    /// The file at the path as it was left, of which nothing is known to be whole yet.
    pub(crate) fn open(files: R, path: PathBuf) -> Result<Self, FolderFault> {
        let file = left_open(&files, &path)?;
        Ok(Log {
            files,
            path,
            file,
            end: 0,
            allocated: 0,
            is_torn: true,
            synced: Synced::Nothing,
            obstacle: None,
        })
    }

    /// The system in which it lies.
    pub(crate) fn files(&self) -> &R {
        &self.files
    }

    pub(crate) fn end(&self) -> u64 {
        self.end
    }

    /// What kept the last record from being written; None where it was, or the system didn't say.
    pub(crate) fn obstacle(&self) -> Option<Obstacle> {
        self.obstacle
    }

    /// How many bytes lie behind those that are known to be whole.
    pub(crate) fn left(&self) -> Result<u64, FolderFault> {
        match &self.file {
            None => Ok(0),
            Some(file) => Ok(file.metadata()?.len().saturating_sub(self.end)),
        }
    }

    /// So many bytes more are whole.
    pub(crate) fn go_on(&mut self, len: u64) {
        self.end = self.end.saturating_add(len);
    }

    /// Writes the record behind the others, over the zeros there. What a failure left is cut off first.
    pub(crate) fn append(&mut self, record: &[u8], room: Room) -> Result<(), FolderFault> {
        match self.write_behind(record, room) {
            Ok(()) => {
                self.obstacle = None;
                Ok(())
            }
            Err(error) => {
                let fault = not_stored(error);
                self.obstacle = fault.obstacle();
                Err(fault)
            }
        }
    }

    fn write_behind(&mut self, record: &[u8], room: Room) -> io::Result<()> {
        self.begin()?;
        self.make_room(record.len() as u64, room)?;
        let Some(file) = &mut self.file else {
            return Err(io::Error::from(ErrorKind::NotFound));
        };
        self.is_torn = true;
        if self.synced == Synced::All {
            self.synced = Synced::Name;
        }
        write_at(file, self.end, record)?;
        self.is_torn = false;
        self.end = self.end.saturating_add(record.len() as u64);
        Ok(())
    }

    // Makes the file where there is none, and cuts off what isn't known to be zeros.
    fn begin(&mut self) -> io::Result<()> {
        if self.file.is_none() {
            self.file = Some(made(&self.files, &self.path)?);
            self.synced = Synced::Nothing;
        }
        if self.is_torn {
            if let Some(file) = &self.file {
                file.set_len(self.end)?;
            }
            self.allocated = self.end;
            self.is_torn = false;
        }
        Ok(())
    }

    // Has that many bytes allocated behind the records, and the reserve behind them: more of it than is owed, so that
    // this is seldom done. On a disk without that room, as much as is owed.
    fn make_room(&mut self, len: u64, room: Room) -> io::Result<()> {
        let behind = self.end.saturating_add(len);
        if behind.saturating_add(RESERVE) <= self.allocated
            || self.allocate(behind.saturating_add(2 * RESERVE)).is_ok()
        {
            return Ok(());
        }
        match room {
            Room::Disk => self.allocate(behind.saturating_add(RESERVE)),
            Room::Reserve => self.allocate(behind),
        }
    }

    // Writes zeros up to there or a little farther. After an error the file is no longer than it was.
    fn allocate(&mut self, to: u64) -> io::Result<()> {
        if to <= self.allocated {
            return Ok(());
        }
        let count = (to - self.allocated).div_ceil(ZEROS_LEN as u64);
        let Some(file) = &mut self.file else {
            return Err(io::Error::from(ErrorKind::NotFound));
        };
        match write_zeros(file, self.allocated, count) {
            Ok(()) => {
                let len = count.saturating_mul(ZEROS_LEN as u64);
                self.allocated = self.allocated.saturating_add(len);
                Ok(())
            }
            Err(error) => {
                // Zeros that stay there end the records too, and are more room than was asked for.
                let _ = file.set_len(self.allocated);
                Err(error)
            }
        }
    }

    /// How much of the file is allocated behind the records.
    pub(crate) fn reserve(&self) -> u64 {
        if self.is_torn {
            0
        } else {
            self.allocated.saturating_sub(self.end)
        }
    }

    /// Whether some of the reserve is used up, which the disk had no room to keep.
    pub(crate) fn is_short(&self) -> bool {
        self.file.is_some() && self.reserve() < RESERVE
    }

    /// Whether what lies behind the records was left by another run, or by a write that failed.
    pub(crate) fn is_left(&self) -> bool {
        self.is_torn
    }

    /// Gives the reserve to the disk, and what else lies behind the records. Where that fails it stays.
    pub(crate) fn give_reserve(&mut self) {
        if let Some(file) = &self.file {
            if file.set_len(self.end).is_ok() {
                self.allocated = self.end;
                self.is_torn = false;
            }
        }
    }

    /// Fills `bytes` with those that lie there.
    pub(crate) fn read(&mut self, at: u64, bytes: &mut [u8]) -> Result<(), FolderFault> {
        match &mut self.file {
            None => Err(FolderFault::Device),
            Some(file) => read_at(file, at, bytes),
        }
    }

    /// Waits until the disk has what was written, and the name of the file in that folder.
    pub(crate) fn settle(&mut self, folder: &PathBuf) -> Result<(), FolderFault> {
        let Some(file) = &self.file else {
            return Ok(());
        };
        if self.synced == Synced::All {
            return Ok(());
        }
        let has_all = self.synced != Synced::Lost
            && file.sync_data().is_ok()
            && (self.synced == Synced::Name || sync_names(&self.files, folder.as_str())?);
        if has_all {
            self.synced = Synced::All;
            Ok(())
        } else {
            self.synced = Synced::Lost;
            Err(FolderFault::Device)
        }
    }

    /// Removes the file.
    pub(crate) fn remove(&mut self) -> Result<(), FolderFault> {
        if self.file.is_some() {
            remove_file(&self.files, self.path.as_str())?;
            self.file = None;
            self.end = 0;
            self.allocated = 0;
        }
        Ok(())
    }
}

fn read_at<F: Read + Seek>(file: &mut F, at: u64, bytes: &mut [u8]) -> Result<(), FolderFault> {
    file.seek(SeekFrom::Start(at))?;
    file.read_exact(bytes)?;
    Ok(())
}

fn write_at<F: Write + Seek>(file: &mut F, at: u64, bytes: &[u8]) -> io::Result<()> {
    file.seek(SeekFrom::Start(at))?;
    file.write_all(bytes)?;
    Ok(())
}

// Writes zeros there, so many times `ZEROS_LEN` of them.
fn write_zeros<F: Write + Seek>(file: &mut F, at: u64, count: u64) -> io::Result<()> {
    let zeros = [0; ZEROS_LEN];
    file.seek(SeekFrom::Start(at))?;
    for _ in 0..count {
        file.write_all(&zeros)?;
    }
    Ok(())
}

// A new file at the path, where there is nothing.
fn made<R: Files>(files: &R, path: &PathBuf) -> io::Result<R::File> {
    OpenOptions::new()
        .read(true)
        .write(true)
        .create_new(true)
        .open(files, path.as_path())
}

// The plain file at the path, if something is there. What is none is looked at and not opened.
pub(crate) fn left_open<R: Files>(
    files: &R,
    path: &PathBuf,
) -> Result<Option<R::File>, FolderFault> {
    match fs::symlink_metadata(files, path.as_path()) {
        Err(error) if error.kind() == ErrorKind::NotFound => Ok(None),
        Err(error) => Err(FolderFault::from(error)),
        Ok(found) if found.is_file() => {
            // Opening for reading and writing doesn't wait, should there be a pipe by now.
            let file = OpenOptions::new()
                .read(true)
                .write(true)
                .open(files, path.as_path())?;
            Ok(Some(file))
        }
        Ok(_) => Err(FolderFault::NotPlain),
    }
}
