// A multi-pack index (gitformat-pack(5), "multi-pack-index (MIDX) files have the following format"): the names of many
// packs, and of each object in them the pack in which it is, and where it begins there.
ghost use Rattle.std.specs.Prelude.{◌≡◌, ◌≤◌, ◌<◌, length, IfOk, IfErr};
ghost use Rattle.eden_pack_format.specs.Causes.{IsReadingCause};

use crate::ids::Ids;
use crate::pieces::Pieces;
use eden_model::{Cause, Id};
use eden_pack_format::{Chunk, FanOut, Place, find_chunk, read_multi_front, read_multi_place};
use std::alloc::Global;
use std::io::{Read, Seek};

/// How many bytes the front has, and at most the table of chunks behind it.
const FRONT: usize = 12;

const TABLE_MOST: usize = 12 * 256;

/// The most bytes that the packs' names may have.
const NAMES_MOST: u64 = 2 << 20;

#[derive(Drop)]
pub(crate) struct MultiIndex<F> {
    pieces: Pieces<F>,
    /// How many packs it is of, and where their names lie.
    packs: u32,
    names: Chunk,
    ids: Ids,
    /// Where the places begin.
    places: u64,
    /// Where the places past 2^31 lie, if there are any.
    long_places: Option<Chunk>,
}

/// Where an object lies: in the pack of that number, and where it begins there.
#[derive(Clone, Copy)]
pub(crate) struct Found {
    pub(crate) pack: u32,
    pub(crate) at: u64,
}

impl<F: Read + Seek + Drop> MultiIndex<F> {
    /// `Device`, where the file is no multi-pack index of version 1 with ids that are SHA-1, or goes on from others. Of
    /// what it has the table of chunks and the counts are read.
    pub(crate) fn open(mut pieces: Pieces<F>) -> Result<Self, Cause>
        ensures causes { IfErr result IsReadingCause }
    {
        let mut front = [0; FRONT];
        pieces.read(0, &mut front)?;
        let front = read_multi_front(&front).ok_or(Cause::Device)?;
        let mut table = [0; TABLE_MOST];
        let table = &mut table[..12 * front.chunks as usize + 12];
        pieces.read(FRONT as u64, table)?;
        let counts_at = begin_of(pieces.len(), table, *b"OIDF", 1024)?;
        let mut counts = [0; 1024];
        pieces.read(counts_at, &mut counts)?;
        let fan_out = FanOut::read(&counts).ok_or(Cause::Device)?;
        let count = fan_out.all() as u64;
        let ids = begin_of(pieces.len(), table, *b"OIDL", 20 * count)?;
        let places = begin_of(pieces.len(), table, *b"OOFF", 8 * count)?;
        Ok(MultiIndex {
            packs: front.packs,
            names: find_chunk(table, *b"PNAM").ok_or(Cause::Device)?,
            ids: Ids::new(ids, fan_out),
            places,
            long_places: find_chunk(table, *b"LOFF"),
            pieces,
        })
    }

    /// How many packs it is of.
    pub(crate) fn packs(&self) -> u32 {
        self.packs
    }

    /// The names of the packs' own indexes, each before a NUL.
    pub(crate) fn names(&mut self, alloc: Global) -> Result<Vec<u8>, Cause>
        ensures causes { IfErr result IsReadingCause }
    {
        let size = self.names.end.saturating_sub(self.names.begin);
        if size > NAMES_MOST {
            return Err(Cause::Device);
        }
        self.pieces.read_some(alloc, self.names.begin, size)
    }

    /// Where the object of that id lies, if it is in one of the packs.
    pub(crate) fn find(&mut self, id: Id) -> Result<Option<Found>, Cause>
        ensures causes { IfErr result IsReadingCause }
    {
        match self.ids.number_of(&mut self.pieces, id)? {
            Some(number) => Ok(Some(self.found(number)?)),
            None => Ok(None),
        }
    }

    // Where the object of that number lies.
    fn found(&mut self, number: u32) -> Result<Found, Cause>
        ensures causes { IfErr result IsReadingCause }
    {
        let mut row = [0; 8];
        self.pieces
            .read(self.places.saturating_add(8 * number as u64), &mut row)?;
        let told = read_multi_place(&row, self.long_places.is_some());
        let at = match told.place {
            Place::At(at) => at,
            Place::Long(row) => self.long_place(row)?,
        };
        Ok(Found {
            pack: told.pack,
            at,
        })
    }

    fn long_place(&mut self, row: u32) -> Result<u64, Cause>
        ensures causes { IfErr result IsReadingCause }
    {
        let table = self.long_places.ok_or(Cause::Device)?;
        let at = table.begin.saturating_add(8 * row as u64);
        if at.saturating_add(8) > table.end {
            return Err(Cause::Device);
        }
        let mut long = [0; 8];
        self.pieces.read(at, &mut long)?;
        Ok(u64::from_be_bytes(long))
    }
}

// Where the chunk of that name begins, which is to lie in the file and to have so many bytes.
fn begin_of(len: u64, table: &[u8], name: [u8; 4], size: u64) -> Result<u64, Cause>
    ensures causes { IfErr result IsReadingCause }
{
    match find_chunk(table, name) {
        Some(chunk) if chunk.end <= len && chunk.begin.saturating_add(size) == chunk.end => {
            Ok(chunk.begin)
        }
        _ => Err(Cause::Device),
    }
}
