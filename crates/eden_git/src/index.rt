// The index of a pack (gitformat-pack(5), "Version 2 pack-*.idx files"): how many ids there are up to each first byte,
// the ids in order, their checksums, their places in the pack, and the places past 2^31.
ghost use Rattle.std.specs.Prelude.{◌≡◌, ◌≤◌, ◌<◌, IfErr};
ghost use Rattle.eden_pack_format.specs.Causes.{IsReadingCause};

use crate::ids::Ids;
use crate::pieces::Pieces;
use eden_model::{Cause, Id};
use eden_pack_format::{FanOut, Place, is_index, place_of};
use std::io::{Read, Seek};

/// Where the counts begin: behind the magic number and the version.
const COUNTS: u64 = 8;

/// Where the ids begin: behind 256 counts.
const IDS: u64 = COUNTS + 4 * 256;

/// What each object has beside a place past 2^31: an id, a checksum and a place.
const EACH: u64 = 20 + 4 + 4;

#[derive(Drop)]
pub(crate) struct Index<F> {
    pieces: Pieces<F>,
    ids: Ids,
}

impl<F: Read + Seek + Drop> Index<F> {
    /// `Device`, where the file is no index of version 2. Of what it has only the counts are read.
    pub(crate) fn open(mut pieces: Pieces<F>) -> Result<Self, Cause>
        ensures causes { IfErr result IsReadingCause }
    {
        let mut front = [0; 8];
        pieces.read(0, &mut front)?;
        if !is_index(&front) {
            return Err(Cause::Device);
        }
        let mut counts = [0; 1024];
        pieces.read(COUNTS, &mut counts)?;
        let fan_out = FanOut::read(&counts).ok_or(Cause::Device)?;
        if pieces.len() < IDS + EACH * fan_out.all() as u64 {
            return Err(Cause::Device);
        }
        let ids = Ids::new(IDS, fan_out);
        Ok(Index { pieces, ids })
    }

    /// Where the object of that id begins in the pack, if it is in there.
    pub(crate) fn find(&mut self, id: Id) -> Result<Option<u64>, Cause>
        ensures causes { IfErr result IsReadingCause }
    {
        match self.ids.number_of(&mut self.pieces, id)? {
            Some(number) => Ok(Some(self.begin_of(number)?)),
            None => Ok(None),
        }
    }

    // Where the object of that number begins.
    fn begin_of(&mut self, number: u32) -> Result<u64, Cause>
        ensures causes { IfErr result IsReadingCause }
    {
        let count = self.ids.count();
        let mut short = [0; 4];
        self.pieces.read(places(count).saturating_add(4 * number as u64), &mut short)?;
        match place_of(u32::from_be_bytes(short), true) {
            Place::At(at) => Ok(at),
            Place::Long(row) => {
                let mut long = [0; 8];
                self.pieces.read(long_places(count).saturating_add(8 * row as u64), &mut long)?;
                Ok(u64::from_be_bytes(long))
            }
        }
    }
}

// Where the places of so many objects begin: behind their ids and checksums.
fn places(count: u64) -> u64 {
    IDS.saturating_add(count.saturating_mul(20 + 4))
}

// Where the places past 2^31 begin.
fn long_places(count: u64) -> u64 {
    IDS.saturating_add(count.saturating_mul(EACH))
}
