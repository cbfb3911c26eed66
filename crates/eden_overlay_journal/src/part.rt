// What has changed in a directory's body since it was noted.
ghost use Rattle.std.specs.Prelude.{◌≡◌, ◌≤◌, ◌<◌, ◌+◌, ◌-◌, ◌*◌, ◌^◌, ◌++◌, ◌⊎◌, ◌↔◌, IfNone, IfOk, IfSome};
ghost use Rattle.std.specs.Prelude.{IsTrue, drop, length, take, true};
ghost use Rattle.std.specs.Int.{w64, to_be_bytes};
ghost use Rattle.eden_overlay_journal.specs.Records.{part_front, with_part};

use crate::record::number_at;
use std::alloc::{AllocError, Global};

/// The length of the count before a body's rows, in bytes.
pub(crate) const COUNT_LEN: usize = 4;

/// The length of what stands before the new rows of a part, in bytes.
pub(crate) const PART_LEN: usize = 24 + COUNT_LEN;

/// So many bytes are compared at once.
const BLOCK: usize = 1024;

/// What has changed in a body.
#[derive(Clone, Copy)]
pub(crate) struct Part<'a> {
    /// Where the record begins that told the body before.
    pub(crate) before: u64,
    /// How many bytes stay behind the count.
    pub(crate) front: u64,
    /// How many bytes stay at the end.
    pub(crate) back: u64,
    /// The count of the rows now.
    pub(crate) count: [u8; COUNT_LEN],
    /// What stands between those that stay.
    pub(crate) middle: &'a [u8],
}

impl<'a> Part<'a> {
    // What makes the new body of the old one, which that record told; None where one of them has no count.
    pub(crate) fn between(before: u64, old: &[u8], new: &'a [u8]) -> Option<Part<'a>>
        ensures short { IfNone result ((length old.now < 4) ⊎ (length new.now < 4)) }
        ensures before { IfSome result (λ part. part.before ≡ before) }
        ensures fits { IfSome result (λ part. 4 + part.front + part.back ≤ length old.now) }
        ensures made { IfSome result (λ part. with_part old.now part.front part.back part.count part.middle.now
            ≡ new.now) }
    {
        let (_, old_rows) = old.split_first_chunk::<COUNT_LEN>()?;
        let (count, rows) = new.split_first_chunk::<COUNT_LEN>()?;
        let front = same_front(old_rows, rows);
        let (_, old_rest) = old_rows.split_at(front);
        let (_, rest) = rows.split_at(front);
        let back = same_back(old_rest, rest);
        let (middle, _) = rest.split_at(rest.len() - back);
        Some(Part {
            before,
            front: front as u64,
            back: back as u64,
            count: *count,
            middle,
        })
    }

    // The part that the bytes behind a record's fields tell.
    pub(crate) fn read(bytes: &'a [u8]) -> Option<Part<'a>>
        ensures short { IfNone result (length bytes.now < 28) }
        ensures told { IfSome result (λ part. bytes.now
            ≡ part_front part.before part.front part.back part.count ++ part.middle.now) }
    {
        let (front, middle) = bytes.split_first_chunk::<PART_LEN>()?;
        let mut count = [0; COUNT_LEN];
        count.copy_from_slice(&front[24..]);
        Some(Part {
            before: number_at(front, 0),
            front: number_at(front, 8),
            back: number_at(front, 16),
            count,
            middle,
        })
    }

    // What stands before the new rows.
    #[tactic(auto, unfolding(crate::specs::Records::part_front))]
    pub(crate) fn front_bytes(&self) -> [u8; PART_LEN]
        ensures { result ≡ part_front self.now.before self.now.front self.now.back self.now.count }
    {
        let mut bytes = [0; PART_LEN];
        bytes[..8].copy_from_slice(&self.before.to_be_bytes());
        bytes[8..16].copy_from_slice(&self.front.to_be_bytes());
        bytes[16..24].copy_from_slice(&self.back.to_be_bytes());
        bytes[24..].copy_from_slice(&self.count);
        bytes
    }

    // How long the body is that it makes of one of that length; None where that hasn't what is to stay.
    pub(crate) fn len_of(&self, len: usize) -> Option<usize>
        ensures stays { IfSome result (λ _. 4 + self.now.front + self.now.back ≤ len) }
        ensures len { IfSome result (λ made. made
            ≡ 4 + self.now.front + self.now.back + length self.now.middle.now) }
        ensures short { len < 2 ^ 63 → IfNone result (len < 4 + self.now.front + self.now.back) }
    {
        let stays = self
            .front
            .checked_add(self.back)?
            .checked_add(COUNT_LEN as u64)?;
        if stays > len as u64 {
            return None;
        }
        (stays as usize).checked_add(self.middle.len())
    }

    // The body that it makes of that one, in that room, whose bytes go; false where that hasn't what is to stay.
    pub(crate) fn write(&self, body: &[u8], room: &mut Vec<u8>) -> Result<bool, AllocError>
        ensures made { IfOk result (λ b. b ≡ true → room.new.items
            ≡ with_part body.now self.now.front self.now.back self.now.count self.now.middle.now) }
        ensures fits { IfOk result (λ b. IsTrue b ↔ 4 + self.now.front + self.now.back ≤ length body.now) }
    {
        let Some(len) = self.len_of(body.len()) else {
            return Ok(false);
        };
        room.clear();
        room.reserve(len)?;
        room.extend_from_slice(&self.count)?;
        room.extend_from_slice(&body[COUNT_LEN..COUNT_LEN + self.front as usize])?;
        room.extend_from_slice(self.middle)?;
        room.extend_from_slice(&body[body.len() - self.back as usize..])?;
        Ok(true)
    }
}

// How many bytes both begin with alike.
pub(crate) fn same_front(a: &[u8], b: &[u8]) -> usize
    ensures a { result ≤ length a.now }
    ensures b { result ≤ length b.now }
    ensures same { take result a.now ≡ take result b.now }
{
    let most = a.len().min(b.len());
    let from = equal_blocks(a, b, most / BLOCK) * BLOCK;
    for at in from..most {
        if a[at] != b[at] {
            return at;
        }
    }
    most
}

// With how many equal blocks both begin, of so many.
fn equal_blocks(a: &[u8], b: &[u8], blocks: usize) -> usize
    requires a { blocks * 1024 ≤ length a.now }
    requires b { blocks * 1024 ≤ length b.now }
    ensures most { result ≤ blocks }
    ensures same { take (result * 1024) a.now ≡ take (result * 1024) b.now }
{
    for block in 0..blocks {
        let (from, to) = (block * BLOCK, block * BLOCK + BLOCK);
        if a[from..to] != b[from..to] {
            return block;
        }
    }
    blocks
}

// How many bytes both end with alike.
fn same_back(a: &[u8], b: &[u8]) -> usize
    ensures a { result ≤ length a.now }
    ensures b { result ≤ length b.now }
    ensures same { drop (length a.now - result) a.now ≡ drop (length b.now - result) b.now }
{
    let most = a.len().min(b.len());
    let from = equal_last_blocks(a, b, most / BLOCK) * BLOCK;
    for at in from..most {
        if a[a.len() - 1 - at] != b[b.len() - 1 - at] {
            return at;
        }
    }
    most
}

// With how many equal blocks both end, of so many.
fn equal_last_blocks(a: &[u8], b: &[u8], blocks: usize) -> usize
    requires a { blocks * 1024 ≤ length a.now }
    requires b { blocks * 1024 ≤ length b.now }
    ensures most { result ≤ blocks }
    ensures same { drop (length a.now - result * 1024) a.now ≡ drop (length b.now - result * 1024) b.now }
{
    for block in 0..blocks {
        let (from, to) = (block * BLOCK + BLOCK, block * BLOCK);
        if a[a.len() - from..a.len() - to] != b[b.len() - from..b.len() - to] {
            return block;
        }
    }
    blocks
}
