// Numbers as entries and deltas write them (gitformat-pack(5), "Size encoding" and "Offset encoding").
ghost use Rattle.std.specs.Prelude.{◌≡◌, ◌≤◌, ◌<◌, ◌^◌, length, None, Some, MatchOption, IfSome};
ghost use Rattle.eden_pack_format.specs.Numbers as spec;

/// The size that the bytes begin with, and what is behind it. It has at most eight groups of seven bits.
pub(crate) fn read_size(bytes: &[u8]) -> Option<(u64, &[u8])>
    ensures read { MatchOption result (spec.size bytes.now ≡ None)
        (λ r. spec.size bytes.now ≡ Some (r.0, r.1.now)) }
    ensures bounded { IfSome result (λ r. r.0 < 2 ^ 56) }
    ensures shorter { IfSome result (λ r. length r.1.now < length bytes.now) }
{
    let mut number: u64 = 0;
    let mut worth: u64 = 1;
    let mut rest = bytes;
    for done in 0..8u32 {
        let (byte, after) = rest.split_first()?;
        if *byte < 128 {
            return Some((number + worth * *byte as u64, after));
        }
        number += worth * (*byte as u64 % 128);
        worth *= 128;
        rest = after;
    }
    None
}

/// How far back a base begins, as the bytes begin with it, and what is behind it. It has at most eight groups.
pub(crate) fn read_back(bytes: &[u8]) -> Option<(u64, &[u8])>
    ensures read { MatchOption result (spec.back_by bytes.now ≡ None)
        (λ r. spec.back_by bytes.now ≡ Some (r.0, r.1.now)) }
    ensures shorter { IfSome result (λ r. length r.1.now < length bytes.now) }
{
    let mut number: u64 = 0;
    let mut rest = bytes;
    for done in 0..8u32 {
        let (byte, after) = rest.split_first()?;
        if *byte < 128 {
            return Some((128 * number + *byte as u64, after));
        }
        number = 128 * number + *byte as u64 % 128 + 1;
        rest = after;
    }
    None
}

// The first byte, if it is there by what an instruction says, or 0; and what is behind it.
fn byte_if(is_there: bool, bytes: &[u8]) -> Option<(u8, &[u8])>
    ensures read { MatchOption result (spec.byte_if is_there bytes.now ≡ None)
        (λ r. spec.byte_if is_there bytes.now ≡ Some (r.0, r.1.now)) }
    ensures bounded { IfSome result (λ r. length r.1.now ≤ length bytes.now) }
{
    if !is_there {
        return Some((0, bytes));
    }
    let (first, rest) = bytes.split_first()?;
    Some((*first, rest))
}

/// The number of four bytes, the lowest first, of which those are there that the flags' bits say, and what is behind
/// it.
#[tactic(auto, unfolding(crate::specs::Numbers::offset))]
pub(crate) fn read_offset(flags: u8, bytes: &[u8]) -> Option<(usize, &[u8])>
    ensures read { MatchOption result (spec.offset flags bytes.now ≡ None)
        (λ r. spec.offset flags bytes.now ≡ Some (r.0, r.1.now)) }
    ensures bounded { IfSome result (λ r. r.0 < 2 ^ 32) }
    ensures shorter { IfSome result (λ r. length r.1.now ≤ length bytes.now) }
{
    let (low, rest) = read_length(flags, bytes)?;
    let (high, rest) = byte_if(flags / 8 % 2 == 1, rest)?;
    Some((low + 16777216 * high as usize, rest))
}

/// The same of three bytes.
#[tactic(auto, unfolding(crate::specs::Numbers::length_of))]
pub(crate) fn read_length(flags: u8, bytes: &[u8]) -> Option<(usize, &[u8])>
    ensures read { MatchOption result (spec.length_of flags bytes.now ≡ None)
        (λ r. spec.length_of flags bytes.now ≡ Some (r.0, r.1.now)) }
    ensures bounded { IfSome result (λ r. r.0 < 2 ^ 24) }
    ensures shorter { IfSome result (λ r. length r.1.now ≤ length bytes.now) }
{
    let (low, rest) = byte_if(flags % 2 == 1, bytes)?;
    let (middle, rest) = byte_if(flags / 2 % 2 == 1, rest)?;
    let (high, rest) = byte_if(flags / 4 % 2 == 1, rest)?;
    let number = low as usize + 256 * middle as usize + 65536 * high as usize;
    Some((number, rest))
}
