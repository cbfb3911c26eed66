//! The content of a file or a link.

ghost use Rattle.std.specs.Prelude.{◌≡◌, ◌≤◌, ◌<◌, ◌+◌, ◌++◌, Some, IfOk, IfErr, OnErr, length, replicate};
ghost use Rattle.std.specs.Prelude.{vec_capacity};
ghost use Rattle.eden_overlay_format.specs.Stored.{Refuses, stored_as};
ghost use Rattle.eden_overlay_format.specs.Content.{content_length, content_most, IsFile};
ghost use Rattle.eden_overlay_format.specs.Values.{content_in};
ghost use Rattle.eden_overlay_format.specs.declared.header.Identifier.TheVariants as identifier;

use crate::header::{HEADER_LEN, Head, Identifier, body_of, check_head, seal, start};
use crate::refusal::Refusal;
use crate::spliced::Spliced;
use eden_model::MAX_FILE;
use std::alloc::{AllocError, Global};

/// The longest content of a file or a link, in bytes.
pub const CONTENT_MOST: usize = MAX_FILE as usize;

/// The stored file of a content of at most `CONTENT_MOST` bytes. The only error is want of memory.
pub fn encode_file(alloc: Global, content: &[u8]) -> Result<Vec<u8>, AllocError>
    requires { length content.now ≤ content_most }
    ensures bytes { IfOk result (λ v. v.items ≡ stored_as identifier.File content.now) }
    ensures read_again { IfOk result (λ v. IsFile v.items content.now) }
{
    let mut out = encode_unsealed_in(Vec::new(alloc), Spliced::whole(content))?;
    seal(Identifier::File, &mut out);
    Ok(out)
}

/// A content of at most `CONTENT_MOST` bytes behind room for the header of its stored file, in that room, whose bytes
/// go. The only error is want of memory, where the room is too small.
pub fn encode_unsealed_in(room: Vec<u8>, content: Spliced<'_>) -> Result<Vec<u8>, AllocError>
    requires { length content ≤ content_most }
    ensures bytes { IfOk result (λ v. v.items ≡ replicate 64 0 ++ content.entry) }
    ensures full { OnErr result (vec_capacity room < 64 + length content.entry) }
{
    let mut out = start(room, content.len())?;
    content.append_to(&mut out)?;
    Ok(out)
}

/// The content that the bytes store, lent out of them, or the first refusal.
#[tactic(auto, unfolding(crate::specs::Values::content_in))]
pub fn decode_file(bytes: &[u8]) -> Result<&[u8], Refusal>
    ensures found { IfOk result (λ content. content_in bytes.now ≡ Some content.now) }
    ensures refused { IfErr result (Refuses identifier.File content_in bytes.now) }
{
    let content = body_of(Identifier::File, bytes)?;
    if content.len() > CONTENT_MOST {
        return Err(Refusal::BadBody);
    }
    Ok(content)
}

/// The length of the content that a file with that head stores, or the first refusal. The body is neither read nor
/// needed: whether it has the digest that its header says is for `decode_file` to tell.
#[tactic(auto, unfolding(crate::specs::Content::content_length))]
pub fn content_len(head: &Head) -> Result<u64, Refusal>
    ensures { result ≡ content_length head.now.first head.now.len }
{
    check_head(Identifier::File, &head.first, head.len)?;
    let len = head.len - HEADER_LEN as u64;
    if len > CONTENT_MOST as u64 {
        return Err(Refusal::BadBody);
    }
    Ok(len)
}
