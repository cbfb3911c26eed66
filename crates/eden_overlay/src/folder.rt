ghost use Rattle.std.specs.Prelude.{◌≡◌, ◌≤◌, Err, IfOk, IfErr, IfSome, length};
ghost use Rattle.std.specs.Ordering.{nat_cmp};
ghost use Rattle.std.specs.List.Sorted.{IsStrictlySortedBy};
ghost use Rattle.std.specs.Path.{path_buf_bytes};
ghost use Rattle.eden_model.specs.Failures.{Counted};
ghost use Rattle.eden_overlay.specs.InFolder.{longest_stored, of_folder};
ghost use Rattle.eden_overlay.specs.declared.files.FilesFault.TheVariants as fault;

use crate::files::{Files, FilesFault, count_failures};
use crate::mark;
use crate::names::{Sought, file_path, number_sought, rising, unfinished_path};
use crate::overlay::STATE_NUMBER;
use crate::tidy::Removed;
use crate::unsynced::{Unsynced, lacking, sync_all, to_mark};
use eden_model::{Obstacle, Outside};
use eden_overlay_format::{CONTENT_MOST, HEADER_LEN, Head};
use eden_plain_files::{
    FolderFault, Links, entry_in, read_file, read_front, read_part, remove_file, replace_file,
};
use std::alloc::{Alloc, Allocator, Global};
use std::collections::BTreeSet;
use std::fs::{self, DirEntry};
use std::marker::Model;
use std::path::PathBuf;
use std::{io, rt};

/// The longest file that is read, in bytes: the longest content and its header.
pub const LONGEST_FILE: u64 = (CONTENT_MOST + HEADER_LEN) as u64;

/// Files in a folder, each named by its number in decimal digits. Other names there are passed over.
///
/// Contracts see the folder's path and the count of failures.
#[derive(Drop)]
pub struct FolderFiles<R> {
    files: R,
    folder: PathBuf,
    failures: u64,
    /// What kept the last file from being stored, where the system said so.
    obstacle: Option<Obstacle>,
    unsynced: Unsynced,
}

impl<R> Model for FolderFiles<R> {
    ghost use Rattle.std.specs.Path.{path_buf_bytes};
    ghost use Rattle.eden_plain_files.specs.Folders.{Folder};

    ghost Value = { Folder };

    ghost view = { λ s. record { path = path_buf_bytes s.folder; failures = s.failures } };
}

impl<R> FolderFiles<R> {
    /// The files in that folder, which has to be there before one can be stored or listed. Nothing has failed yet.
    pub fn new(files: R, folder: PathBuf) -> Self
        ensures { result ≡ record { path = path_buf_bytes folder; failures = 0 } }
    {
        FolderFiles {
            files,
            folder,
            failures: 0,
            obstacle: None,
            unsynced: Unsynced::anything(),
        }
    }
}

impl<R: rt::Files + Alloc + Clone + Drop> FolderFiles<R> {
    /// Removes what interrupted stores left: the plain files whose names are a number and `.new`. What else has such a
    /// name is passed over. Nobody may store in the folder meanwhile.
    ///
    /// After an error what was removed by then stays so.
    pub fn remove_unfinished(&mut self, alloc: Global) -> Result<Removed, FilesFault>
        ensures counted { Counted (result ≡ Err fault.Device) self.old.failures self.new.failures }
        ensures path { self.new.path ≡ self.old.path }
    {
        let answer = remove_all_unfinished(&self.files, alloc, &self.folder);
        self.failures = count_failures(self.failures, &answer);
        answer
    }
}

impl<R: rt::Files> FolderFiles<R> {
    // Stores the pieces, one behind the other, as the whole file of that number.
    fn store(&mut self, alloc: Global, number: u64, pieces: &[&[u8]]) -> Result<(), FilesFault>
        ensures counted { Counted (result ≡ Err fault.Device) self.old.failures self.new.failures }
        ensures path { self.new.path ≡ self.old.path }
    {
        let (files, folder, unsynced) = (&self.files, &self.folder, &mut self.unsynced);
        self.obstacle = None;
        let obstacle = &mut self.obstacle;
        let answer = if number == STATE_NUMBER {
            store_state(files, alloc, folder, pieces, unsynced, obstacle)
        } else {
            store_number(files, alloc, folder, number, pieces, unsynced, obstacle)
        };
        self.failures = count_failures(self.failures, &answer);
        answer
    }
}

impl<R: rt::Files + Alloc + Clone + Drop> Files<Outside> for FolderFiles<R> {
    ghost use Rattle.std.specs.Prelude.{None};

    // What a folder has is not known, and this World promises nothing of it.
    ghost stored = { λ _ _. None };

    ghost failures = { λ s. s.failures };

    fn failures(&self) -> u64 {
        self.failures
    }

    fn obstacle(&self) -> Option<Obstacle> {
        self.obstacle
    }

    /// `Device` too where the name isn't a plain file's, or the file is over 2^30 + 64 bytes.
    fn read(&mut self, alloc: Global, number: u64) -> Result<Option<Vec<u8>>, FilesFault>
        ensures counted { Counted (result ≡ Err fault.Device) self.old.failures self.new.failures }
        ensures path { self.new.path ≡ self.old.path }
        ensures bounded { IfOk result (λ o. IfSome o (λ v. length v.items ≤ longest_stored)) }
    {
        let answer = read_number(&self.files, alloc, &self.folder, number);
        self.failures = count_failures(self.failures, &answer);
        answer
    }

    /// `Device` too where the name isn't a plain file's, or the file is over 2^30 + 64 bytes.
    fn head(&mut self, number: u64) -> Result<Option<Head>, FilesFault>
        ensures fault { IfErr result (λ f. f ≡ fault.Device) }
        ensures counted { Counted (result ≡ Err fault.Device) self.old.failures self.new.failures }
        ensures path { self.new.path ≡ self.old.path }
        ensures bounded { IfOk result (λ o. IfSome o (λ head. head.len ≤ longest_stored)) }
    {
        let answer = head_number(&self.files, &self.folder, number);
        self.failures = count_failures(self.failures, &answer);
        answer
    }

    /// `Device` too where the name isn't a plain file's, or the file is over 2^30 + 64 bytes.
    fn read_part(
        &mut self,
        alloc: Global,
        number: u64,
        from: u64,
        most: u64,
    ) -> Result<Option<Vec<u8>>, FilesFault>
        ensures counted { Counted (result ≡ Err fault.Device) self.old.failures self.new.failures }
        ensures path { self.new.path ≡ self.old.path }
        ensures bounded { IfOk result (λ o. IfSome o (λ v. length v.items ≤ most)) }
    {
        let answer = part_number(&self.files, alloc, &self.folder, number, from, most);
        self.failures = count_failures(self.failures, &answer);
        answer
    }

    /// Writes `NUMBER.new` whole, and then renames it. Once `sync` was called it waits in between until the disk has
    /// the bytes: so a loss of power leaves what was there or what is stored now, and no name without its bytes.
    fn replace(&mut self, alloc: Global, number: u64, bytes: &[u8]) -> Result<(), FilesFault>
        ensures counted { Counted (result ≡ Err fault.Device) self.old.failures self.new.failures }
        ensures path { self.new.path ≡ self.old.path }
    {
        self.store(alloc, number, &[bytes])
    }

    fn replace_joined(
        &mut self,
        alloc: Global,
        number: u64,
        front: &[u8],
        behind: &[u8],
    ) -> Result<(), FilesFault>
        ensures counted { Counted (result ≡ Err fault.Device) self.old.failures self.new.failures }
        ensures path { self.new.path ≡ self.old.path }
    {
        self.store(alloc, number, &[front, behind])
    }

    /// Which state it was is kept in mind: the mark that the last run left counts beside that one alone.
    fn remove(&mut self, number: u64) -> Result<(), FilesFault>
        ensures fault { IfErr result (λ f. f ≡ fault.Device) }
        ensures counted { Counted (result ≡ Err fault.Device) self.old.failures self.new.failures }
        ensures path { self.new.path ≡ self.old.path }
    {
        self.unsynced.removes();
        if number == STATE_NUMBER {
            if let Ok(Some(state)) = mark::state_file(&self.files, &self.folder) {
                self.unsynced.opens(state);
            }
        }
        let answer = remove_number(&self.files, &self.folder, number);
        self.failures = count_failures(self.failures, &answer);
        answer
    }

    /// Waits for the names that came or went, and the first time for the files that may lack their bytes: those that
    /// this run stored, and of earlier runs those that the mark beside the last state names, or all where there was
    /// none. The files that are stored from then on have their bytes on the disk. From a failure of the disk on it is
    /// `Device`: whether the disk has what was stored before isn't known any more.
    fn sync(&mut self, alloc: Global) -> Result<(), FilesFault>
        ensures counted { Counted (result ≡ Err fault.Device) self.old.failures self.new.failures }
        ensures path { self.new.path ≡ self.old.path }
    {
        let answer = sync_folder(&self.files, alloc, &self.folder, &mut self.unsynced);
        self.failures = count_failures(self.failures, &answer);
        answer
    }

    fn list(&mut self, alloc: Global) -> Result<Vec<u64>, FilesFault>
        ensures counted { Counted (result ≡ Err fault.Device) self.old.failures self.new.failures }
        ensures path { self.new.path ≡ self.old.path }
        ensures rising { IfOk result (λ v. IsStrictlySortedBy nat_cmp v.items) }
    {
        let answer = list_folder(&self.files, alloc, &self.folder, Sought::Files);
        if let Ok(numbers) = &answer {
            if numbers.is_empty() {
                self.unsynced.begins();
            }
        }
        self.failures = count_failures(self.failures, &answer);
        answer
    }
}

impl From<FolderFault> for FilesFault {
    ghost from_gives = { λ e f. f ≡ of_folder e };

    fn from(e: FolderFault) -> FilesFault {
        match e {
            FolderFault::Memory => FilesFault::Memory,
            _ => FilesFault::Device,
        }
    }
}

fn read_number<R: rt::Files>(
    files: &R,
    alloc: Global,
    folder: &PathBuf,
    number: u64,
) -> Result<Option<Vec<u8>>, FilesFault>
    ensures bound { LONGEST_FILE ≡ longest_stored }
    ensures bounded { IfOk result (λ o. IfSome o (λ v. length v.items ≤ longest_stored)) }
{
    let path = file_path(folder, number)?;
    match read_file(files, alloc, path.as_str(), Links::Refused, LONGEST_FILE) {
        Ok(bytes) => Ok(Some(bytes)),
        Err(FolderFault::Missing) => Ok(None),
        Err(fault) => Err(FilesFault::from(fault)),
    }
}

// No memory of the program's own is taken: whatever the system refuses it for is the device's failure.
fn head_number<R: rt::Files>(
    files: &R,
    folder: &PathBuf,
    number: u64,
) -> Result<Option<Head>, FilesFault>
    ensures fault { IfErr result (λ f. f ≡ fault.Device) }
    ensures bounded { IfOk result (λ o. IfSome o (λ head. head.len ≤ longest_stored)) }
{
    let path = file_path(folder, number)?;
    match read_front(files, path.as_str(), Links::Refused, LONGEST_FILE) {
        Ok(front) => {
            let first = front.0;
            Ok(Some(Head {
                first,
                len: front.1,
            }))
        }
        Err(FolderFault::Missing) => Ok(None),
        Err(_) => Err(FilesFault::Device),
    }
}

fn part_number<R: rt::Files>(
    files: &R,
    alloc: Global,
    folder: &PathBuf,
    number: u64,
    from: u64,
    most: u64,
) -> Result<Option<Vec<u8>>, FilesFault>
    ensures { IfOk result (λ o. IfSome o (λ v. length v.items ≤ most)) }
{
    let path = file_path(folder, number)?;
    let (path, links) = (path.as_str(), Links::Refused);
    match read_part(files, alloc, path, links, LONGEST_FILE, from, most) {
        Ok(bytes) => Ok(Some(bytes)),
        Err(FolderFault::Missing) => Ok(None),
        Err(fault) => Err(FilesFault::from(fault)),
    }
}

// A mark that an earlier run left goes first, if it would count beside what is stored now and say nothing of it.
fn store_number<R: rt::Files>(
    files: &R,
    alloc: Global,
    folder: &PathBuf,
    number: u64,
    pieces: &[&[u8]],
    unsynced: &mut Unsynced,
    obstacle: &mut Option<Obstacle>,
) -> Result<(), FilesFault> {
    if unsynced.has_old_mark() {
        mark::remove(files, folder)?;
        unsynced.unmarks();
    }
    put_number(files, alloc, folder, number, pieces, unsynced, obstacle)
}

// Stores the state, and a mark beside it of what the disk may lack. The one of before goes first, since a file system
// may tell two states as one. Without a mark the next run waits for all files.
fn store_state<R: rt::Files>(
    files: &R,
    alloc: Global,
    folder: &PathBuf,
    pieces: &[&[u8]],
    unsynced: &mut Unsynced,
    obstacle: &mut Option<Obstacle>,
) -> Result<(), FilesFault> {
    let told = to_mark(files, alloc, folder, unsynced);
    mark::remove(files, folder)?;
    unsynced.unmarks();
    put_number(
        files,
        alloc,
        folder,
        STATE_NUMBER,
        pieces,
        unsynced,
        obstacle,
    )?;
    if let Some(numbers) = told {
        let _ = mark::write(files, alloc, folder, &numbers);
    }
    Ok(())
}

// Stores the file, or tells what keeps the device from that.
fn put_number<R: rt::Files>(
    files: &R,
    alloc: Global,
    folder: &PathBuf,
    number: u64,
    pieces: &[&[u8]],
    unsynced: &mut Unsynced,
    obstacle: &mut Option<Obstacle>,
) -> Result<(), FilesFault> {
    let durability = unsynced.replaces(alloc, number);
    let path = file_path(folder, number)?;
    match replace_file(files, alloc, path.as_str(), pieces, durability) {
        Ok(()) => Ok(()),
        Err(fault) => {
            *obstacle = fault.obstacle();
            Err(FilesFault::from(fault))
        }
    }
}

// No memory of the program's own is taken: whatever the system refuses it for is the device's failure.
fn remove_number<R: rt::Files>(files: &R, folder: &PathBuf, number: u64) -> Result<(), FilesFault>
    ensures { IfErr result (λ f. f ≡ fault.Device) }
{
    let path = file_path(folder, number)?;
    match remove_file(files, path.as_str()) {
        Ok(()) => Ok(()),
        Err(_) => Err(FilesFault::Device),
    }
}

// The number that the entry's name stands for, if it does. A name that isn't UTF-8 is no number's.
fn number_in<R: rt::Files + Drop, A: Allocator>(
    item: io::Result<DirEntry<R, A>>,
    sought: Sought,
) -> Result<Option<u64>, FilesFault> {
    match entry_in(item)? {
        Some(entry) => Ok(number_sought(entry.file_name(), sought)),
        None => Ok(None),
    }
}

fn list_folder<R: rt::Files + Alloc + Clone + Drop>(
    files: &R,
    alloc: Global,
    folder: &PathBuf,
    sought: Sought,
) -> Result<Vec<u64>, FilesFault>
    ensures { IfOk result (λ v. IsStrictlySortedBy nat_cmp v.items) }
{
    let mut numbers = BTreeSet::new(alloc);
    for item in fs::read_dir(files, folder.as_path()).map_err(FolderFault::from)? {
        if let Some(number) = number_in(item, sought)? {
            numbers.insert(number)?;
        }
    }
    Ok(rising(alloc, &numbers)?)
}

fn sync_folder<R: rt::Files + Alloc + Clone + Drop>(
    files: &R,
    alloc: Global,
    folder: &PathBuf,
    unsynced: &mut Unsynced,
) -> Result<(), FilesFault> {
    unsynced.promise();
    let numbers = match lacking(files, alloc, folder, unsynced)? {
        Some(numbers) => numbers,
        None => list_folder(files, alloc, folder, Sought::Files)?,
    };
    sync_all(files, folder, &numbers, unsynced)
}

fn remove_all_unfinished<R: rt::Files + Alloc + Clone + Drop>(
    files: &R,
    alloc: Global,
    folder: &PathBuf,
) -> Result<Removed, FilesFault> {
    let mut removed = Removed::nothing();
    for number in list_folder(files, alloc, folder, Sought::Unfinished)? {
        removed = removed.and(remove_one_unfinished(files, folder, number)?);
    }
    Ok(removed)
}

// Removes what an interrupted store of the file of that number left, if that is a plain file.
fn remove_one_unfinished<R: rt::Files>(
    files: &R,
    folder: &PathBuf,
    number: u64,
) -> Result<Removed, FilesFault> {
    let path = unfinished_path(folder, number)?;
    match fs::symlink_metadata(files, path.as_str()).map_err(FolderFault::from) {
        Ok(found) if found.is_file() => {
            remove_file(files, path.as_str())?;
            Ok(Removed {
                files: 1,
                bytes: found.len(),
            })
        }
        Ok(_) | Err(FolderFault::Missing) => Ok(Removed::nothing()),
        Err(fault) => Err(FilesFault::from(fault)),
    }
}
