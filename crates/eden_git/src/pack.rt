// A pack: the entries that lie in it.
ghost use Rattle.std.specs.Prelude.{◌≡◌, ◌≤◌, length, IfOk, IfErr};
ghost use Rattle.eden_pack_format.specs.Causes.{IsReadingCause};

use crate::bases::{Base, Bases};
use crate::index::Index;
use crate::loose::cause_of;
use crate::pieces::Pieces;
use eden_inflate::{Decoder, Refusal};
use eden_model::{Cause, Id};
use eden_object::{BODY_LIMIT, Word};
use eden_pack_format::{EntryKind, apply, read_entry_head};
use std::alloc::Global;
use std::io::{Read, Seek};

/// No entry has more bytes before its stream.
const HEAD_MOST: u64 = 40;

/// The most bytes of a stream that are read first.
const FIRST_MOST: u64 = 1 << 20;

/// What reading needs beside the files.
#[derive(Drop)]
pub(crate) struct Tools {
    pub(crate) alloc: Global,
    pub(crate) decoder: Box<Decoder>,
    pub(crate) bases: Bases,
}

/// A zlib stream in a pack: where it begins, and how many bytes it is to give.
#[derive(Clone, Copy)]
pub(crate) struct Stream {
    at: u64,
    size: usize,
}

#[derive(Drop)]
pub(crate) struct Pack<F> {
    /// By which its bases are known among those of other packs.
    number: u64,
    /// Its own index, if it has one.
    index: Option<Index<F>>,
    /// Whether a multi-pack index says what is in it.
    is_in_multi: bool,
    pieces: Pieces<F>,
}

impl<F: Read + Seek + Drop> Pack<F> {
    /// `Device`, where the file is no pack of version 2 or 3.
    pub(crate) fn open(
        number: u64,
        index: Option<Index<F>>,
        mut pieces: Pieces<F>,
    ) -> Result<Self, Cause>
        ensures causes { IfErr result IsReadingCause }
    {
        let mut head = [0; 8];
        pieces.read(0, &mut head)?;
        if head != *b"PACK\0\0\0\x02" && head != *b"PACK\0\0\0\x03" {
            return Err(Cause::Device);
        }
        Ok(Pack {
            number,
            index,
            is_in_multi: false,
            pieces,
        })
    }

    pub(crate) fn number(&self) -> u64 {
        self.number
    }

    pub(crate) fn is_in_multi(&self) -> bool {
        self.is_in_multi
    }

    pub(crate) fn set_in_multi(&mut self, is_in_multi: bool) {
        self.is_in_multi = is_in_multi;
    }

    /// Where the object of that id begins, by the pack's own index, if it has one and the object is in there.
    pub(crate) fn find(&mut self, id: Id) -> Result<Option<u64>, Cause>
        ensures causes { IfErr result IsReadingCause }
    {
        match &mut self.index {
            Some(index) => index.find(id),
            None => Ok(None),
        }
    }

    /// The object that stands whole there.
    pub(crate) fn whole_at(
        &mut self,
        tools: &mut Tools,
        at: u64,
        word: Word,
        stream: Stream,
    ) -> Result<Base, Cause>
        ensures causes { IfErr result IsReadingCause }
    {
        let body = self.inflated(tools, stream)?;
        Ok(Base {
            pack: self.number,
            at,
            word,
            body,
            is_base: false,
        })
    }

    /// What the delta there makes of the base.
    pub(crate) fn next_of(
        &mut self,
        tools: &mut Tools,
        base: &Base,
        at: u64,
        delta: Stream,
    ) -> Result<Base, Cause>
        ensures causes { IfErr result IsReadingCause }
    {
        let delta = self.inflated(tools, delta)?;
        let body = apply(tools.alloc, &base.body, &delta)?;
        Ok(Base {
            pack: self.number,
            at,
            word: base.word,
            body,
            is_base: false,
        })
    }

    /// What stands before the stream of the entry there, and the stream.
    pub(crate) fn entry_at(&mut self, alloc: Global, at: u64) -> Result<(EntryKind, Stream), Cause>
        ensures causes { IfErr result IsReadingCause }
    {
        let bytes = self.pieces.read_some(alloc, at, HEAD_MOST)?;
        let head = read_entry_head(&bytes).ok_or(Cause::Device)?;
        if head.size > BODY_LIMIT as u64 {
            return Err(Cause::TooLarge);
        }
        let read = bytes.len().saturating_sub(head.stream.len());
        let stream = Stream {
            at: at.saturating_add(read as u64),
            size: head.size as usize,
        };
        Ok((head.kind, stream))
    }

    // What the stream gives. A first piece of it is read, and a longer one where that ends too soon: at first no more
    // than what it gives and a little, which is enough for any stream that zlib wrote, at last four times as much.
    fn inflated(&mut self, tools: &mut Tools, stream: Stream) -> Result<Vec<u8>, Cause>
        ensures causes { IfErr result IsReadingCause }
    {
        let mut bytes = Vec::new(tools.alloc);
        let size = stream.size as u64;
        let enough = size.saturating_add(size / 64).saturating_add(64);
        let last = enough.saturating_mul(4);
        let mut most = enough.min(FIRST_MOST);
        for _ in 0..16 {
            let piece = self.pieces.read_some(tools.alloc, stream.at, most)?;
            match tools
                .decoder
                .inflate(tools.alloc, &piece, stream.size, &mut bytes)
            {
                Ok(_) => return Ok(bytes),
                Err(Refusal::Truncated) if piece.len() as u64 == most && most < last => {
                    most = longer(most, enough, last);
                }
                Err(refusal) => return Err(cause_of(refusal)),
            }
        }
        Err(Cause::Device)
    }
}

// How many bytes are read after so many were too few.
fn longer(most: u64, enough: u64, last: u64) -> u64 {
    if most < enough {
        most.saturating_mul(4).min(enough)
    } else {
        last
    }
}
