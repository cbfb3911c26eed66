// What has changed in a directory's body, as one record tells it: in one place, or in two, as a rename does.
ghost use Rattle.std.specs.Prelude.{◌≡◌, ◌≤◌, IfOk, IfSome, OnOk, length, true};
ghost use Rattle.eden_overlay_journal.specs.Records.{
  LengthensBy,
  before_of,
  change_bytes,
  made_by,
  note_of,
  record_of,
  with_change,
};

use crate::part::{COUNT_LEN, PART_LEN, Part, same_front};
use crate::record::{Note, number_at, write_record};
use std::alloc::AllocError;
use std::mem;

/// What stands between is looked at for two places if it has more bytes.
const FEW: usize = 512;

/// No row has more bytes: codes, a number, an id, and a name of 255 bytes behind its length.
const LONGEST_ROW: usize = 286;

/// So many equal bytes tell that rows go on behind one that went, or came.
const SAMPLE: usize = 24;

/// The length of what tells how many bytes the first of two parts has.
const LENGTH_LEN: usize = 8;

/// What stands before the new rows where two parts are told, but for those of the first.
pub(crate) const PARTS_LEN: usize = LENGTH_LEN + 2 * PART_LEN;

/// What has changed in a body.
#[derive(Clone, Copy)]
pub(crate) enum Change<'a> {
    One(Part<'a>),
    /// The second one is of the body that the first one makes.
    Two(Part<'a>, Part<'a>),
}

impl<'a> Change<'a> {
    // What makes the new body of the old one, which that record told, if little has changed. The room's bytes go.
    pub(crate) fn between(
        before: u64,
        old: &[u8],
        new: &'a [u8],
        room: &mut Vec<u8>,
    ) -> Result<Option<Change<'a>>, AllocError>
        ensures made { IfOk result (λ o. IfSome o (λ change. with_change change old.now ≡ new.now)) }
        ensures before { IfOk result (λ o. IfSome o (λ change. before_of change ≡ before)) }
    {
        let Some(part) = Part::between(before, old, new) else {
            return Ok(None);
        };
        if part.middle.len() > FEW {
            if let Some(two) = two_between(before, old, new, room)? {
                return Ok(Some(two));
            }
        }
        Ok((part.middle.len() < new.len() / 2).then_some(Change::One(part)))
    }

    // What such a record tells by the bytes behind its fields.
    pub(crate) fn read(note: Note, bytes: &'a [u8]) -> Option<Change<'a>>
        ensures note { IfSome result (λ change. note_of change ≡ note) }
        ensures bytes { IfSome result (λ change. bytes.now ≡ change_bytes change) }
    {
        match note {
            Note::Part => Some(Change::One(Part::read(bytes)?)),
            Note::Parts => {
                let (told, parts) = bytes.split_first_chunk::<LENGTH_LEN>()?;
                let len = number_at(told, 0);
                if len > parts.len() as u64 {
                    return None;
                }
                let (first, second) = parts.split_at(len as usize);
                Some(Change::Two(Part::read(first)?, Part::read(second)?))
            }
            _ => None,
        }
    }

    // Where the record begins that told the body before.
    pub(crate) fn before(&self) -> u64
        ensures { result ≡ before_of self.now }
    {
        match self {
            Change::One(part) => part.before,
            Change::Two(first, _) => first.before,
        }
    }

    // How long the body is that it makes of one of that length; None where that hasn't what is to stay.
    pub(crate) fn len_of(&self, len: usize) -> Option<usize>
        ensures { IfSome result (LengthensBy self.now len) }
    {
        match self {
            Change::One(part) => part.len_of(len),
            Change::Two(first, second) => second.len_of(first.len_of(len)?),
        }
    }

    // Makes the body of what is there, by way of that room; false where it hasn't what is to stay.
    pub(crate) fn make(&self, body: &mut Vec<u8>, room: &mut Vec<u8>) -> Result<bool, AllocError>
        ensures { IfOk result (λ b. b ≡ true → body.new.items ≡ with_change self.now body.old.items) }
    {
        match self {
            Change::One(part) => make_by(*part, body, room),
            Change::Two(first, second) => {
                Ok(make_by(*first, body, room)? && make_by(*second, body, room)?)
            }
        }
    }

    // Writes the record of it into the room, by way of another one, whose bytes go.
    pub(crate) fn write_record(
        &self,
        room: &mut Vec<u8>,
        front: &mut Vec<u8>,
        number: u64,
        when: u64,
    ) -> Result<(), AllocError>
        ensures { OnOk result (room.new.items ≡ record_of (note_of self.now) number when (change_bytes self.now)) }
    {
        front.clear();
        match self {
            Change::One(part) => {
                front.extend_from_slice(&part.front_bytes())?;
                write_record(room, Note::Part, number, when, front, part.middle)
            }
            Change::Two(first, second) => {
                let len = PART_LEN.saturating_add(first.middle.len());
                front.extend_from_slice(&(len as u64).to_be_bytes())?;
                front.extend_from_slice(&first.front_bytes())?;
                front.extend_from_slice(first.middle)?;
                front.extend_from_slice(&second.front_bytes())?;
                write_record(room, Note::Parts, number, when, front, second.middle)
            }
        }
    }
}

fn make_by(part: Part<'_>, body: &mut Vec<u8>, room: &mut Vec<u8>) -> Result<bool, AllocError>
    ensures { IfOk result (λ b. b ≡ true → body.new.items ≡ made_by part.entry body.old.items) }
{
    let fits = part.write(body, room)?;
    if fits {
        mem::swap(body, room);
    }
    Ok(fits)
}

// What makes the new body of the old one in two places, if little is new in them.
fn two_between<'a>(
    before: u64,
    old: &[u8],
    new: &'a [u8],
    room: &mut Vec<u8>,
) -> Result<Option<Change<'a>>, AllocError>
    ensures made { IfOk result (λ o. IfSome o (λ change. with_change change old.now ≡ new.now)) }
    ensures before { IfOk result (λ o. IfSome o (λ change. before_of change ≡ before)) }
{
    let Some(first) = first_between(before, old, new) else {
        return Ok(None);
    };
    if !first.write(old, room)? {
        return Ok(None);
    }
    match Part::between(before, room, new) {
        Some(second) if second.middle.len() <= FEW => Ok(Some(Change::Two(first, second))),
        _ => Ok(None),
    }
}

// The first place in which the bodies differ, if a row went there or came there, and the same rows stand behind.
fn first_between<'a>(before: u64, old: &[u8], new: &'a [u8]) -> Option<Part<'a>>
    ensures { IfSome result (λ part. part.before ≡ before) }
{
    let (_, old_rows) = old.split_first_chunk::<COUNT_LEN>()?;
    let (count, rows) = new.split_first_chunk::<COUNT_LEN>()?;
    let front = same_front(old_rows, rows);
    let (_, old_rest) = old_rows.split_at(front);
    let (_, rest) = rows.split_at(front);
    let (gone, come) = match rows_before(old_rest, rest) {
        Some(gone) => (gone, 0),
        None => (0, rows_before(rest, old_rest)?),
    };
    let (middle, _) = rest.split_at(come);
    Some(Part {
        before,
        front: front as u64,
        back: (old_rest.len() - gone) as u64,
        count: *count,
        middle,
    })
}

// How many bytes stand before what others begin with, if those are a row's.
fn rows_before(bytes: &[u8], others: &[u8]) -> Option<usize>
    ensures { IfSome result (λ len. len ≤ length bytes.now) }
{
    let sample = others.get(..SAMPLE)?;
    for len in 1..=LONGEST_ROW {
        if bytes.get(len..len + SAMPLE)? == sample {
            return Some(len);
        }
    }
    None
}
