// Deltas (gitformat-pack(5), "Deltified representation"): the sizes of the base and of the target, and instructions.
ghost use Rattle.std.specs.Prelude.{◌≡◌, ◌≢◌, ◌≤◌, ◌<◌, ◌^◌, List, ℕ};
ghost use Rattle.std.specs.Prelude.{length, None, Some, Err, MatchOption, IfSome, IfOk, IfErr};
ghost use Rattle.eden_model.specs.declared.fault.Cause.TheVariants as cause;
ghost use Rattle.eden_object.specs.Frames.{most_body};
ghost use Rattle.eden_pack_format.specs.Deltas as spec;
ghost use Rattle.eden_pack_format.specs.Deltas.{IsDelta};
ghost use Rattle.eden_pack_format.specs.Causes.{IsReadingCause};

use crate::number::{read_length, read_offset, read_size};
use eden_model::Cause;
use eden_object::BODY_LIMIT;
use std::alloc::Global;

/// The most bytes that a body may have.
const BODY_MOST: u64 = BODY_LIMIT as u64;

/// What a copy's size of 0 stands for.
const WHOLE_COPY: usize = 65536;

/// What the delta makes of the base.
///
/// `Device`, where it is no delta of it; `TooLarge`, where it says that it makes more bytes than a body may have;
/// `Memory`, where they find none.
pub fn apply(alloc: Global, base: &[u8], delta: &[u8]) -> Result<Vec<u8>, Cause>
    ensures made { IfOk result (λ target. IsDelta base.now delta.now target.items) }
    ensures short { IfOk result (λ target. length target.items ≤ most_body) }
    ensures bad { result ≡ Err cause.Device → (target : List ℕ) → IsDelta base.now delta.now target → ⊥ }
    ensures large { result ≡ Err cause.TooLarge
        → (target : List ℕ) → IsDelta base.now delta.now target → most_body < length target }
    ensures causes { IfErr result IsReadingCause }
{
    let Some((base_size, behind)) = read_size(delta) else {
        return Err(Cause::Device);
    };
    let Some((size, instructions)) = read_size(behind) else {
        return Err(Cause::Device);
    };
    if base_size != base.len() as u64 {
        return Err(Cause::Device);
    }
    if size > BODY_MOST {
        return Err(Cause::TooLarge);
    }
    follow(alloc, base, instructions, size as usize)
}

// What the instructions make of the base, which is to be so many bytes.
fn follow(alloc: Global, base: &[u8], instructions: &[u8], size: usize) -> Result<Vec<u8>, Cause>
    ensures made { IfOk result (λ target. spec.Makes base.now instructions.now target.items) }
    ensures whole { IfOk result (λ target. length target.items ≡ size) }
    ensures bad { result ≡ Err cause.Device
        → (target : List ℕ) → spec.Makes base.now instructions.now target → length target ≡ size → ⊥ }
    ensures small { result ≢ Err cause.TooLarge }
    ensures causes { IfErr result IsReadingCause }
{
    let mut target = Vec::new(alloc);
    let mut rest = instructions;
    while !rest.is_empty() {
        let Some((piece, next)) = read_instruction(base, rest) else {
            return Err(Cause::Device);
        };
        if piece.len() > size - target.len() {
            return Err(Cause::Device);
        }
        target.extend_from_slice(piece)?;
        rest = next;
    }
    if target.len() == size {
        Ok(target)
    } else {
        Err(Cause::Device)
    }
}

// What the first instruction adds to the target, and what is behind it.
#[tactic(auto, unfolding(crate::specs::Deltas::instruction))]
fn read_instruction<'a>(base: &'a [u8], text: &'a [u8]) -> Option<(&'a [u8], &'a [u8])>
    ensures read { MatchOption result (spec.instruction base.now text.now ≡ None)
        (λ r. spec.instruction base.now text.now ≡ Some (r.0.now, r.1.now)) }
    ensures shorter { IfSome result (λ r. length r.1.now < length text.now) }
{
    let (code, after) = text.split_first()?;
    if *code == 0 {
        None
    } else if *code < 128 {
        read_added(*code as usize, after)
    } else {
        read_copy(base, *code, after)
    }
}

// So many new bytes, and what is behind them.
#[tactic(auto, unfolding(crate::specs::Deltas::added))]
fn read_added(count: usize, text: &[u8]) -> Option<(&[u8], &[u8])>
    ensures read { MatchOption result (spec.added count text.now ≡ None)
        (λ r. spec.added count text.now ≡ Some (r.0.now, r.1.now)) }
    ensures shorter { IfSome result (λ r. length r.1.now ≤ length text.now) }
{
    if count <= text.len() {
        Some(text.split_at(count))
    } else {
        None
    }
}

// So many bytes of the base from an offset on.
#[tactic(auto, unfolding(crate::specs::Deltas::piece_of))]
fn piece_of(base: &[u8], offset: usize, size: usize) -> Option<&[u8]>
    requires offset { offset < 2 ^ 32 }
    requires size { size < 2 ^ 24 }
    ensures { MatchOption result (spec.piece_of base.now offset size ≡ None)
        (λ piece. spec.piece_of base.now offset size ≡ Some piece.now) }
{
    if offset + size <= base.len() {
        let (piece, _) = base[offset..].split_at(size);
        Some(piece)
    } else {
        None
    }
}

// The piece of the base that an instruction copies, and what is behind the instruction.
#[tactic(auto, unfolding(crate::specs::Deltas::copied))]
fn read_copy<'a>(base: &'a [u8], code: u8, text: &'a [u8]) -> Option<(&'a [u8], &'a [u8])>
    ensures read { MatchOption result (spec.copied base.now code text.now ≡ None)
        (λ r. spec.copied base.now code text.now ≡ Some (r.0.now, r.1.now)) }
    ensures shorter { IfSome result (λ r. length r.1.now ≤ length text.now) }
{
    let (offset, after) = read_offset(code, text)?;
    let (size, after) = read_length(code / 16, after)?;
    let piece = piece_of(base, offset, size_copied(size))?;
    Some((piece, after))
}

fn size_copied(size: usize) -> usize
    requires { size < 2 ^ 24 }
    ensures same { result ≡ spec.size_copied size }
    ensures bounded { result < 2 ^ 24 }
{
    if size == 0 { WHOLE_COPY } else { size }
}
