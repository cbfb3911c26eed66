ghost use Rattle.std.specs.Prelude.{◌≤◌, ◌^◌};

use crate::bodies::Bodies;
use crate::change::{Change, PARTS_LEN};
use crate::dates::{date, now};
use crate::journal::Journal;
use crate::log::{Log, Room};
use crate::new_file::{LONGEST_DIRECTORY, LONGEST_RECORD};
use crate::part::PART_LEN;
use crate::record::{FRONT_LEN, Fields, Note, fields_in, is_whole, short_record, write_record};
use eden_model::{Obstacle, Outside};
use eden_overlay::{FilesFault, STATE_NUMBER};
use eden_overlay_format::{HEADER_LEN, Head, Identifier, header_of};
use eden_plain_files::{FolderFault, sync_names};
use itoa::Buffer;
use std::alloc::{AllocError, Global};
use std::collections::BTreeMap;
use std::fs;
use std::path::PathBuf;
use std::rt::{Clock, Files};

/// A journal with more bytes is full, and one that could not be emptied once it has so many more.
const FULL: u64 = 16 << 20;

/// So many records tell a body at most: the first all of it, and each later one what has changed.
const MOST_RECORDS: u16 = 256;

/// A body that is shorter is noted whole, in bytes.
const LEAST_CHANGED: usize = 1 << 10;

/// The length of the body of a directory without entries.
const EMPTY_LEN: usize = 4;

/// A disk gives a numbered file its room in blocks of this length.
const BLOCK_LEN: u64 = 4 << 10;

/// What the record of a file tells.
#[derive(Clone, Copy)]
enum Told {
    /// Its bytes.
    File,
    /// The body of a directory, which is that long; so many records tell it.
    Body { len: usize, records: u16 },
}

/// The record of a file that is stored.
#[derive(Clone, Copy)]
struct Piece {
    /// Where it begins in the journal.
    at: u64,
    /// How many bytes stand behind its fields.
    len: usize,
    /// When it was noted.
    when: u64,
    told: Told,
}

impl Piece {
    // How much room its numbered file will take, with the header that a directory's has before its body.
    fn poured_len(&self) -> u64 {
        let len = match self.told {
            Told::File => self.len,
            Told::Body { len, .. } => len,
        };
        blocks_of((len as u64).saturating_add(HEADER_LEN as u64))
    }
}

/// When a file's turn comes as the journal is emptied.
#[derive(Clone, Copy, PartialEq, Eq)]
enum Turn {
    Removed,
    Shorter,
    Other,
}

/// A journal that is the file `journal` in an overlay's folder. It is made when something is noted first, and removed
/// when it is emptied.
#[derive(Drop)]
pub struct FolderJournal<R: Files> {
    log: Log<R>,
    folder: PathBuf,
    alloc: Global,
    /// What is said of each number; without a piece that it was removed.
    pieces: BTreeMap<u64, Option<Piece>>,
    /// The bodies that were noted last.
    bodies: Bodies,
    /// For the next record.
    room: Vec<u8>,
    /// For a body between two, and what stands before a record's new rows.
    spare: Vec<u8>,
    /// With more bytes it is full.
    full_at: u64,
}

impl<R: Files + Clock + Drop> FolderJournal<R> {
    /// The journal in that folder as it was left, up to the first record that isn't whole; a folder without one has
    /// one that says nothing.
    ///
    /// `Device` too where what has its name is no plain file.
    pub fn open(files: R, alloc: Global, folder: &PathBuf) -> Result<Self, FilesFault> {
        let path = folder.join(alloc, "journal")?;
        let mut journal = FolderJournal {
            log: Log::open(files, path)?,
            folder: folder.clone()?,
            alloc,
            pieces: BTreeMap::new(alloc),
            bodies: Bodies::new(alloc),
            room: Vec::new(alloc),
            spare: Vec::new(alloc),
            full_at: FULL,
        };
        for _ in 0..u64::MAX {
            if !journal.take_record()? {
                break;
            }
        }
        Ok(journal)
    }

    // Whether there was one more whole record.
    fn take_record(&mut self) -> Result<bool, FilesFault> {
        let left = self.log.left()?;
        if left < FRONT_LEN as u64 {
            return Ok(false);
        }
        let mut front = [0; FRONT_LEN];
        let start = self.log.end();
        self.log.read(start, &mut front)?;
        match fields_in(&front) {
            Some(fields) if fields.len <= left - FRONT_LEN as u64 => {
                self.take_whole(&front, fields)
            }
            _ => Ok(false),
        }
    }

    // Whether the record with these fields is whole, which is learned then.
    fn take_whole(&mut self, front: &[u8; FRONT_LEN], fields: Fields) -> Result<bool, FilesFault> {
        if fields.number == STATE_NUMBER || fields.len > most_behind(fields.note) {
            return Ok(false);
        }
        let at = self.log.end();
        self.room.clear();
        self.room.extend_from_slice(front)?;
        self.room.resize(FRONT_LEN + fields.len as usize, 0)?;
        let start = at.saturating_add(FRONT_LEN as u64);
        self.log.read(start, &mut self.room[FRONT_LEN..])?;
        if !is_whole(&self.room) {
            return Ok(false);
        }
        match self.said_by(fields, at) {
            None => Ok(false),
            Some(said) => {
                self.learn(fields.number, said)?;
                self.log.go_on(FRONT_LEN as u64 + fields.len);
                Ok(true)
            }
        }
    }

    // What the record with these fields says of its file; it begins there and lies in the room. None where it is a part
    // that doesn't fit what was said before.
    fn said_by(&self, fields: Fields, at: u64) -> Option<Option<Option<Piece>>> {
        let told = match fields.note {
            Note::Removed => return Some(Some(None)),
            Note::Elsewhere => return Some(None),
            Note::Stored => Told::File,
            Note::Directory => Told::Body {
                len: fields.len as usize,
                records: 1,
            },
            Note::Part | Note::Parts => self.told_by_change(fields)?,
        };
        Some(Some(Some(Piece {
            at,
            len: fields.len as usize,
            when: fields.when,
            told,
        })))
    }

    // The body that the change in the room tells, of a record with these fields.
    fn told_by_change(&self, fields: Fields) -> Option<Told> {
        let (_, behind) = self.room.split_first_chunk::<FRONT_LEN>()?;
        let change = Change::read(fields.note, behind)?;
        let Piece { at, told, .. } = self.pieces.get(&fields.number).copied()??;
        match told {
            Told::Body { len, records } if records < MOST_RECORDS && at == change.before() => {
                let len = change.len_of(len)?;
                (len <= LONGEST_DIRECTORY).then_some(Told::Body {
                    len,
                    records: records + 1,
                })
            }
            _ => None,
        }
    }

    // Says that of the number.
    fn learn(&mut self, number: u64, said: Option<Option<Piece>>) -> Result<(), FilesFault> {
        match said {
            Some(piece) => {
                self.pieces.insert(number, piece)?;
            }
            None => {
                self.pieces.remove(&number);
            }
        }
        Ok(())
    }

    // Says of the number what was said before, which takes no memory.
    fn put_back(&mut self, number: u64, before: Option<Option<Piece>>) {
        match before {
            None => {
                self.pieces.remove(&number);
            }
            Some(piece) => {
                let _ = self.pieces.insert(number, piece);
            }
        }
    }

    // Gives the numbered file the time of its change.
    fn date_file(&self, number: u64, when: u64) -> Result<(), FolderFault> {
        let mut name = Buffer::new();
        let path = self.folder.join(self.alloc, name.format(number))?;
        date(self.log.files(), &path, when)
    }

    // The bytes of the file of that number, which the record tells.
    fn bytes_of(
        &mut self,
        alloc: Global,
        number: u64,
        piece: Piece,
    ) -> Result<Vec<u8>, FilesFault> {
        let mut bytes = Vec::new(alloc);
        match piece.told {
            Told::File => {
                bytes.resize(piece.len, 0)?;
                let start = piece.at.saturating_add(FRONT_LEN as u64);
                self.log.read(start, bytes.as_mut_slice())?;
            }
            Told::Body { records, .. } => {
                let body = self.body_of(alloc, number, piece.at, records)?;
                bytes.extend_from_slice(&header_of(Identifier::Directory, &body))?;
                bytes.extend_from_slice(&body)?;
            }
        }
        Ok(bytes)
    }

    // The body that so many records tell, of which the last begins there.
    fn body_of(
        &mut self,
        alloc: Global,
        number: u64,
        at: u64,
        records: u16,
    ) -> Result<Vec<u8>, FilesFault> {
        if let Some(body) = self.bodies.get(number) {
            return Ok(Vec::from_slice(alloc, body)?);
        }
        let (mut changes, mut first) = (Vec::new(alloc), at);
        for _ in 1..records {
            changes.push(first)?;
            first = self.before_change(first)?;
        }
        let (mut body, mut next) = (Vec::new(alloc), Vec::new(alloc));
        if read_behind(&mut self.log, first, &mut body)? != Note::Directory {
            return Err(FilesFault::Device);
        }
        for _ in 1..records {
            let Some(at) = changes.pop() else {
                break;
            };
            let note = read_behind(&mut self.log, at, &mut self.room)?;
            let change = Change::read(note, &self.room).ok_or(FilesFault::Device)?;
            if !change.make(&mut body, &mut next)? {
                return Err(FilesFault::Device);
            }
        }
        Ok(body)
    }

    // Where the record begins that told the body before the change there.
    fn before_change(&mut self, at: u64) -> Result<u64, FilesFault> {
        let note = read_behind(&mut self.log, at, &mut self.room)?;
        match Change::read(note, &self.room) {
            Some(change) => Ok(change.before()),
            None => Err(FilesFault::Device),
        }
    }

    fn head_of(&mut self, number: u64, piece: Piece) -> Result<Head, FilesFault> {
        let mut first = [0; HEADER_LEN];
        match piece.told {
            Told::File => {
                if piece.len >= HEADER_LEN {
                    let start = piece.at.saturating_add(FRONT_LEN as u64);
                    self.log.read(start, &mut first)?;
                }
                Ok(Head {
                    first,
                    len: piece.len as u64,
                })
            }
            Told::Body { records, .. } => {
                let body = self.body_of(self.alloc, number, piece.at, records)?;
                Ok(Head {
                    first: header_of(Identifier::Directory, &body),
                    len: HEADER_LEN as u64 + body.len() as u64,
                })
            }
        }
    }

    // Writes the record of that body into the room: what has changed in it, where that is little. What it tells then.
    fn write_body(&mut self, number: u64, when: u64, body: &[u8]) -> Result<Told, FilesFault> {
        let len = body.len();
        if let Some((change, records)) = self.change_for(number, body)? {
            change.write_record(&mut self.room, &mut self.spare, number, when)?;
            return Ok(Told::Body { len, records });
        }
        write_record(&mut self.room, Note::Directory, number, when, &[], body)?;
        Ok(Told::Body { len, records: 1 })
    }

    // What has changed in the body of that number, if it is kept as it was noted and little has; and how many records
    // tell it with that.
    fn change_for<'a>(
        &mut self,
        number: u64,
        body: &'a [u8],
    ) -> Result<Option<(Change<'a>, u16)>, AllocError> {
        let Some(Some(Piece { at, told, .. })) = self.pieces.get(&number).copied() else {
            return Ok(None);
        };
        let (Some(old), Told::Body { records, .. }) = (self.bodies.get(number), told) else {
            return Ok(None);
        };
        if records >= MOST_RECORDS || body.len() < LEAST_CHANGED {
            return Ok(None);
        }
        match Change::between(at, old, body, &mut self.spare)? {
            Some(change) => Ok(Some((change, records + 1))),
            None => Ok(None),
        }
    }

    // Where the record of that body finds its room. On a full disk a new directory's is refused, before the one that is
    // to name it is told; any other may be told for a removal.
    fn room_for(&self, number: u64, body: &[u8]) -> Room {
        if body.len() <= EMPTY_LEN && !self.pieces.contains_key(&number) && !self.has_file(number) {
            Room::Disk
        } else {
            Room::Reserve
        }
    }

    // How many bytes the numbered file has; none where there is none, or that can't be known.
    fn file_len(&self, number: u64) -> Option<u64> {
        let mut name = Buffer::new();
        let path = self.folder.join(self.alloc, name.format(number)).ok()?;
        let found = fs::symlink_metadata(self.log.files(), path.as_path()).ok()?;
        Some(found.len())
    }

    // Whether there is a numbered file; no where that can't be known.
    fn has_file(&self, number: u64) -> bool {
        self.file_len(number).is_some()
    }

    // How much room the numbered file takes.
    fn numbered_room(&self, number: u64) -> u64 {
        self.file_len(number).map_or(0, blocks_of)
    }

    // How much room the files that it says are there take, as numbered files, with a block for their names.
    fn all_poured_len(&self) -> u64 {
        let mut all = BLOCK_LEN;
        for (_, piece) in self.pieces.iter() {
            if let Some(piece) = piece {
                all = all.saturating_add(piece.poured_len());
            }
        }
        all
    }

    // Whether all that it says finds room in the reserve.
    fn fits_in_reserve(&self) -> bool {
        let reserve = self.log.reserve();
        reserve > 0 && self.all_poured_len() <= reserve
    }

    // Whether it finds room there on a full disk if its files are stored in that order: each that is stored or removed
    // gives back what its numbered file took.
    fn fits_in_turn(&self, numbers: &[u64]) -> bool {
        if !self.log.is_short() {
            return false;
        }
        let mut free = self.log.reserve().saturating_sub(BLOCK_LEN);
        for number in numbers {
            if let Some(Some(piece)) = self.pieces.get(number) {
                match free.checked_sub(piece.poured_len()) {
                    Some(rest) => free = rest,
                    None => return false,
                }
            }
            free = free.saturating_add(self.numbered_room(*number));
        }
        true
    }

    // When a file's turn comes as the journal is emptied. What was removed comes first, and then what was made shorter,
    // since both make room on the disk; that is looked for on a disk without room alone.
    fn turn_of(&self, number: u64, piece: Option<Piece>) -> Turn {
        match piece {
            None => Turn::Removed,
            Some(piece) => {
                if self.log.is_short() && piece.poured_len() < self.numbered_room(number) {
                    Turn::Shorter
                } else {
                    Turn::Other
                }
            }
        }
    }

    // All numbers in that order: each stands in it once, whatever a look at the disk answers.
    fn in_turn(&self, alloc: Global) -> Result<Vec<u64>, AllocError> {
        let mut numbers = Vec::with_capacity(alloc, self.pieces.len())?;
        let (mut shorter, mut others) = (Vec::new(alloc), Vec::new(alloc));
        for (number, piece) in self.pieces.iter() {
            match self.turn_of(*number, *piece) {
                Turn::Removed => numbers.push(*number)?,
                Turn::Shorter => shorter.push(*number)?,
                Turn::Other => others.push(*number)?,
            }
        }
        numbers.extend_from_slice(&shorter)?;
        numbers.extend_from_slice(&others)?;
        Ok(numbers)
    }

    // How much room the file takes as it was said last, or else its numbered file.
    fn room_of(&self, number: u64) -> u64 {
        match self.pieces.get(&number) {
            Some(Some(piece)) => piece.poured_len(),
            Some(None) => 0,
            None => self.numbered_room(number),
        }
    }

    // Notes the record in the room, which tells that of a file. On a full disk a record of less than a block finds its
    // room in the reserve, as a removal's does, if the file takes more as it is.
    fn put_file_record(&mut self, number: u64, when: u64) -> Result<(), FilesFault> {
        match self.put_record(number, when, Told::File, Room::Disk) {
            Ok(()) => Ok(()),
            Err(fault) => {
                let len = self.room.len() as u64;
                if len <= BLOCK_LEN && blocks_of(len) < self.room_of(number) {
                    self.put_record(number, when, Told::File, Room::Reserve)
                } else {
                    Err(fault)
                }
            }
        }
    }

    // Notes the record in the room, which tells that of the file.
    fn put_record(
        &mut self,
        number: u64,
        when: u64,
        told: Told,
        room: Room,
    ) -> Result<(), FilesFault> {
        let piece = Piece {
            at: self.log.end(),
            len: self.room.len().saturating_sub(FRONT_LEN),
            when,
            told,
        };
        // The room in memory comes first: a record that is written can't be taken back.
        let before = self.pieces.insert(number, Some(piece))?;
        match self.log.append(&self.room, room) {
            Ok(()) => Ok(()),
            Err(fault) => {
                self.put_back(number, before);
                Err(FilesFault::from(fault))
            }
        }
    }
}

// How much room so many bytes take on a disk.
fn blocks_of(len: u64) -> u64 {
    len.div_ceil(BLOCK_LEN).saturating_mul(BLOCK_LEN)
}

// How many bytes stand behind the fields of such a record at most.
fn most_behind(note: Note) -> u64
    ensures { result ≤ 2 ^ 23 }
{
    match note {
        Note::Stored => LONGEST_RECORD as u64,
        Note::Directory => LONGEST_DIRECTORY as u64,
        Note::Part => (PART_LEN + LONGEST_DIRECTORY) as u64,
        Note::Parts => (PARTS_LEN + LONGEST_DIRECTORY) as u64,
        Note::Removed | Note::Elsewhere => 0,
    }
}

// Reads what stands behind the fields of the record that begins there into that room, whose bytes go, and tells which
// record it is. It is still whole: a header that is made of what it tells hides what the disk has changed.
fn read_behind<R: Files + Drop>(
    log: &mut Log<R>,
    at: u64,
    room: &mut Vec<u8>,
) -> Result<Note, FilesFault> {
    let mut front = [0; FRONT_LEN];
    log.read(at, &mut front)?;
    let Some(Fields { note, len, .. }) = fields_in(&front) else {
        return Err(FilesFault::Device);
    };
    if len > most_behind(note) {
        return Err(FilesFault::Device);
    }
    room.clear();
    room.resize(FRONT_LEN + len as usize, 0)?;
    log.read(at, room.as_mut_slice())?;
    if !is_whole(room) {
        return Err(FilesFault::Device);
    }
    room.rotate_left(FRONT_LEN);
    room.truncate(room.len() - FRONT_LEN);
    Ok(note)
}

impl<R: Files + Clock + Drop> Journal<Outside> for FolderJournal<R> {
    ghost use Rattle.std.specs.Prelude.{None};

    // What a file has is not known, and this World promises nothing of it.
    ghost changes = { λ _ _. None };

    /// On a full disk as soon as what it says finds room in the rest of the reserve: that makes all its own free.
    fn is_full(&self) -> bool {
        self.log.end() > self.full_at || self.log.is_short() && self.fits_in_reserve()
    }

    fn obstacle(&self) -> Option<Obstacle> {
        self.log.obstacle()
    }

    fn put_off(&mut self) {
        self.full_at = self.log.end().saturating_add(FULL);
    }

    fn read(&mut self, alloc: Global, number: u64) -> Result<Option<Option<Vec<u8>>>, FilesFault> {
        match self.pieces.get(&number).copied() {
            None => Ok(None),
            Some(None) => Ok(Some(None)),
            Some(Some(piece)) => Ok(Some(Some(self.bytes_of(alloc, number, piece)?))),
        }
    }

    /// Whatever the system refuses is the device's failure.
    fn head(&mut self, number: u64) -> Result<Option<Option<Head>>, FilesFault> {
        match self.pieces.get(&number).copied() {
            None => Ok(None),
            Some(None) => Ok(Some(None)),
            Some(Some(piece)) => match self.head_of(number, piece) {
                Ok(head) => Ok(Some(Some(head))),
                Err(_) => Err(FilesFault::Device),
            },
        }
    }

    /// The record is written at once, header and bytes together. It doesn't wait for the disk: `settle` does.
    fn store(&mut self, alloc: Global, number: u64, bytes: &[u8]) -> Result<(), FilesFault> {
        let when = now(self.log.files());
        write_record(&mut self.room, Note::Stored, number, when, &[], bytes)?;
        self.put_file_record(number, when)?;
        self.bodies.forget(number);
        Ok(())
    }

    /// What has changed in the body is written alone, where the body before it is known and most of it stays.
    fn store_directory(
        &mut self,
        alloc: Global,
        number: u64,
        body: &[u8],
    ) -> Result<(), FilesFault> {
        let when = now(self.log.files());
        let told = self.write_body(number, when, body)?;
        let room = self.room_for(number, body);
        self.put_record(number, when, told, room)?;
        if body.len() >= LEAST_CHANGED {
            self.bodies.keep(alloc, number, body);
        } else {
            self.bodies.forget(number);
        }
        Ok(())
    }

    fn remove(&mut self, number: u64) -> Result<bool, FilesFault> {
        self.bodies.forget(number);
        match self.pieces.insert(number, None) {
            Ok(before) => {
                let record = short_record(Note::Removed, number);
                match self.log.append(&record, Room::Reserve) {
                    Ok(()) => Ok(true),
                    Err(_) => {
                        self.put_back(number, before);
                        Err(FilesFault::Device)
                    }
                }
            }
            Err(_) => Ok(false),
        }
    }

    fn pass(&mut self, number: u64) -> Result<(), FilesFault> {
        if self.pieces.contains_key(&number) {
            let record = short_record(Note::Elsewhere, number);
            if self.log.append(&record, Room::Reserve).is_err() {
                return Err(FilesFault::Device);
            }
            self.pieces.remove(&number);
            self.bodies.forget(number);
        }
        Ok(())
    }

    /// From a failure of the disk on it fails until the journal is emptied: whether the disk has what was written
    /// before isn't known any more.
    fn settle(&mut self) -> Result<(), FilesFault> {
        match self.log.settle(&self.folder) {
            Ok(()) => Ok(()),
            Err(_) => Err(FilesFault::Device),
        }
    }

    fn settle_names(&mut self) -> Result<(), FilesFault> {
        match sync_names(self.log.files(), self.folder.as_str()) {
            Ok(true) => Ok(()),
            _ => Err(FilesFault::Device),
        }
    }

    /// A time that can't be set, or wasn't told, is that of the storing.
    fn date(&mut self, number: u64) {
        if let Some(Some(piece)) = self.pieces.get(&number).copied() {
            // The file has what it is to have, whatever its time is.
            let _ = self.date_file(number, piece.when);
        }
    }

    /// Whoever asks is about to store these files. The reserve is given to the disk where they find room in it, all
    /// together or one after another: with that they are stored on a full disk too. So is what another run left, which
    /// nothing is written over any more.
    fn numbers(&mut self, alloc: Global) -> Result<Vec<u64>, FilesFault> {
        let numbers = self.in_turn(alloc)?;
        if self.log.is_left() || self.fits_in_reserve() || self.fits_in_turn(&numbers) {
            self.log.give_reserve();
        }
        Ok(numbers)
    }

    fn empty(&mut self) -> Result<(), FilesFault> {
        self.log.remove()?;
        self.pieces = BTreeMap::new(self.alloc);
        self.bodies.clear();
        self.full_at = FULL;
        Ok(())
    }
}
