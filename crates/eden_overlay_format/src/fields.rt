//! The fields of a body, each with the bytes behind it. What can't be read is `BadBody`.

ghost use Rattle.std.specs.Int.{w32, w64};
ghost use Rattle.eden_overlay_format.specs.Reading.{Reaches, Gives, byte_at, bytes_at, number_at, kind_at};
ghost use Rattle.eden_overlay_format.specs.Reading.{entry_number_at, origin_at, name_at, stored_row_at};

use crate::refusal::{DecodeFault, Refusal};
use crate::stored_entry::StoredEntry;
use eden_model::{Id, Kind, NUMBER_END, Name, Origin};
use std::alloc::Global;

/// The least number of an inode below the root.
const NUMBER_LEAST: u64 = 2;

/// The next byte.
fn byte_of(bytes: &[u8]) -> Result<(u8, &[u8]), Refusal>
    ensures { Reaches (λ x. (x.0, x.1.now)) result (byte_at bytes.now) }
{
    match bytes {
        [] => Err(Refusal::BadBody),
        [byte, rest @ ..] => Ok((*byte, rest)),
    }
}

/// The next `N` bytes.
pub(crate) fn array_of<const N: usize>(bytes: &[u8]) -> Result<([u8; N], &[u8]), Refusal>
    ensures { Reaches (λ x. (x.0, x.1.now)) result (bytes_at N bytes.now) }
{
    match bytes.split_first_chunk::<N>() {
        None => Err(Refusal::BadBody),
        Some((front, rest)) => Ok((*front, rest)),
    }
}

pub(crate) fn u32_of(bytes: &[u8]) -> Result<(u32, &[u8]), Refusal>
    ensures { Reaches (λ x. (x.0, x.1.now)) result (number_at w32 bytes.now) }
{
    let (digits, rest) = array_of::<4>(bytes)?;
    Ok((u32::from_be_bytes(digits), rest))
}

pub(crate) fn u64_of(bytes: &[u8]) -> Result<(u64, &[u8]), Refusal>
    ensures { Reaches (λ x. (x.0, x.1.now)) result (number_at w64 bytes.now) }
{
    let (digits, rest) = array_of::<8>(bytes)?;
    Ok((u64::from_be_bytes(digits), rest))
}

/// A kind, by its code.
#[tactic(auto, unfolding(crate::specs::Reading::kind_at))]
pub(crate) fn kind_of(bytes: &[u8]) -> Result<(Kind, &[u8]), Refusal>
    ensures { Reaches (λ x. (x.0, x.1.now)) result (kind_at bytes.now) }
{
    let (code, rest) = byte_of(bytes)?;
    match code {
        0 => Ok((Kind::File, rest)),
        1 => Ok((Kind::Exec, rest)),
        2 => Ok((Kind::Link, rest)),
        3 => Ok((Kind::Dir, rest)),
        _ => Err(Refusal::BadBody),
    }
}

/// An inode's number.
#[tactic(auto, unfolding(crate::specs::Reading::entry_number_at))]
pub(crate) fn entry_number_of(bytes: &[u8]) -> Result<(u64, &[u8]), Refusal>
    ensures { Reaches (λ x. (x.0, x.1.now)) result (entry_number_at bytes.now) }
{
    let (number, rest) = u64_of(bytes)?;
    if number < NUMBER_LEAST {
        return Err(Refusal::BadBody);
    }
    if number >= NUMBER_END {
        return Err(Refusal::BadBody);
    }
    Ok((number, rest))
}

/// The origin of that code, and an object's id.
#[tactic(auto, unfolding(crate::specs::Reading::origin_at))]
fn origin_of(code: u8, kind: Kind, bytes: &[u8]) -> Result<(Origin, &[u8]), Refusal>
    ensures { Reaches (λ x. (x.0, x.1.now)) result (origin_at code kind bytes.now) }
{
    match (code, kind) {
        (0, _) => {
            let (id, rest) = array_of::<20>(bytes)?;
            Ok((Origin::Object(Id { bytes: id }), rest))
        }
        (1, _) => Ok((Origin::Own, bytes)),
        (2, Kind::Dir) => Ok((Origin::Empty, bytes)),
        _ => Err(Refusal::BadBody),
    }
}

/// A name behind its length.
#[tactic(auto, unfolding(crate::specs::Reading::name_at))]
fn name_of(alloc: Global, bytes: &[u8]) -> Result<(Name, &[u8]), DecodeFault>
    ensures { Gives (λ x. (x.0, x.1.now)) result (name_at bytes.now) }
{
    let (len, rest) = byte_of(bytes)?;
    let len = usize::from(len);
    if rest.len() < len {
        return Err(DecodeFault::Refused(Refusal::BadBody));
    }
    let (text, rest) = rest.split_at(len);
    match Name::new(Vec::from_slice(alloc, text)?) {
        Ok(name) => Ok((name, rest)),
        Err(_) => Err(DecodeFault::Refused(Refusal::BadBody)),
    }
}

/// A row of a directory.
#[tactic(auto, unfolding(crate::specs::Reading::stored_row_at))]
pub(crate) fn row_of(alloc: Global, bytes: &[u8]) -> Result<(StoredEntry, &[u8]), DecodeFault>
    ensures { Gives (λ x. (x.0, x.1.now)) result (stored_row_at bytes.now) }
{
    let (kind, rest) = kind_of(bytes)?;
    let (code, rest) = byte_of(rest)?;
    let (number, rest) = entry_number_of(rest)?;
    let (origin, rest) = origin_of(code, kind, rest)?;
    let (name, rest) = name_of(alloc, rest)?;
    Ok((
        StoredEntry {
            name,
            kind,
            origin,
            number,
        },
        rest,
    ))
}
