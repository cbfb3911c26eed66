// The ids of an index, in order, where they lie in its file.
ghost use Rattle.std.specs.Prelude.{◌≡◌, ◌≤◌, ◌<◌, IfErr};
ghost use Rattle.eden_pack_format.specs.Causes.{IsReadingCause};

use crate::pieces::Pieces;
use eden_model::{Cause, Id};
use eden_pack_format::{FanOut, number_of};
use std::cmp::Ordering;
use std::io::{Read, Seek};

/// So many ids are read at once, and so many bytes they have.
const BLOCK: u32 = 204;

const BLOCK_BYTES: usize = 4080;

#[derive(Drop)]
pub(crate) struct Ids {
    /// Where the first of them begins.
    at: u64,
    fan_out: FanOut,
}

impl Ids {
    pub(crate) fn new(at: u64, fan_out: FanOut) -> Self {
        Ids { at, fan_out }
    }

    /// How many there are.
    pub(crate) fn count(&self) -> u64 {
        self.fan_out.all() as u64
    }

    /// The number of that id, if it is one of them.
    pub(crate) fn number_of<F: Read + Seek>(
        &self,
        pieces: &mut Pieces<F>,
        id: Id,
    ) -> Result<Option<u32>, Cause>
        ensures causes { IfErr result IsReadingCause }
    {
        let (low, high) = self.narrowed(pieces, id)?;
        let count = high.saturating_sub(low).min(BLOCK) as usize;
        let mut block = [0; BLOCK_BYTES];
        pieces.read(self.place_of(low), &mut block[..20 * count])?;
        match number_of(&block[..20 * count], id) {
            Some(number) => Ok(Some(low.saturating_add(number as u32))),
            None => Ok(None),
        }
    }

    // Between which numbers the id is, if it is one of them: as few as are read at once.
    fn narrowed<F: Read + Seek>(&self, pieces: &mut Pieces<F>, id: Id) -> Result<(u32, u32), Cause>
        ensures causes { IfErr result IsReadingCause }
    {
        let (mut low, mut high) = self.fan_out.range(id.bytes[0]);
        let mut here = [0; 20];
        for _ in 0..32 {
            if high.saturating_sub(low) <= BLOCK {
                break;
            }
            let middle = low + (high - low) / 2;
            pieces.read(self.place_of(middle), &mut here)?;
            match here.cmp(&id.bytes) {
                Ordering::Greater => high = middle,
                _ => low = middle,
            }
        }
        Ok((low, high))
    }

    fn place_of(&self, number: u32) -> u64 {
        self.at.saturating_add(20 * number as u64)
    }
}
