//! The header of 64 bytes that each stored file begins with.

ghost use Rattle.std.specs.Prelude.{◌≡◌, ◌≤◌, ◌<◌, ◌+◌, Some, None, length, drop, replicate, IfOk, OnErr, MatchResult};
ghost use Rattle.std.specs.Vec.{vec_capacity};
ghost use Rattle.eden_overlay_format.specs.Stored.{body_in, digest_refusal, head_refusal, header, header_refusal};
ghost use Rattle.eden_overlay_format.specs.Stored.{identifier_bytes, stored_as, version_refusal};

use crate::refusal::Refusal;
use sha1::Sha1;
use std::alloc::AllocError;

/// The length of the header that each stored file begins with, in bytes.
pub const HEADER_LEN: usize = 64;

/// The version that is written: its header tells the body's length and SHA-1.
const VERSION: u32 = 2;

/// The version that was written before, whose header tells nothing of the body.
const OLD_VERSION: u32 = 1;

/// What a stored file holds, as its first four bytes say it.
#[derive(Clone, Copy, Debug, PartialEq, Eq)]
pub enum Identifier {
    /// `OVFL`: the content of a file or a link, or the state.
    File,
    /// `OVDR`: the entries of a directory.
    Directory,
    /// `OVDN`: the numbers of a directory that stands on a tree object.
    Numbers,
}

impl Identifier {
    /// The four bytes.
    pub fn bytes(self) -> [u8; 4]
        ensures { result ≡ identifier_bytes self }
    {
        match self {
            Identifier::File => *b"OVFL",
            Identifier::Directory => *b"OVDR",
            Identifier::Numbers => *b"OVDN",
        }
    }
}

/// The first 64 bytes of a stored file, and its length in bytes. Those of a file that is shorter are any bytes.
#[derive(Clone, Copy, Debug, PartialEq, Eq)]
pub struct Head {
    pub first: [u8; HEADER_LEN],
    pub len: u64,
}

/// Whether the version is one that is read; in version 2 the file has the length that its header says.
fn check_version(first: &[u8], len: u64) -> Result<(), Refusal>
    requires first { 64 ≤ length first.now }
    requires len { 64 ≤ len }
    ensures { MatchResult result (λ _. version_refusal first.now len ≡ None)
        (λ e. version_refusal first.now len ≡ Some e) }
{
    if &first[4..8] == VERSION.to_be_bytes().as_slice() {
        if &first[8..16] != (len - HEADER_LEN as u64).to_be_bytes().as_slice() {
            return Err(Refusal::BadLength);
        }
        return Ok(());
    }
    if &first[4..8] != OLD_VERSION.to_be_bytes().as_slice() {
        return Err(Refusal::BadVersion);
    }
    Ok(())
}

/// Whether a file of that length and identifier begins so. Its body isn't looked at.
#[tactic(auto, unfolding(crate::specs::Stored::head_refusal))]
pub(crate) fn check_head(identifier: Identifier, first: &[u8], len: u64) -> Result<(), Refusal>
    requires { 64 ≤ len → 64 ≤ length first.now }
    ensures refusal { MatchResult result (λ _. head_refusal identifier first.now len ≡ None)
        (λ e. head_refusal identifier first.now len ≡ Some e) }
    ensures long { IfOk result (λ _. 64 ≤ len) }
{
    if len < HEADER_LEN as u64 {
        return Err(Refusal::Short);
    }
    if &first[..4] != identifier.bytes().as_slice() {
        return Err(Refusal::BadIdentifier);
    }
    check_version(first, len)
}

/// Whether the body has the digest that a header of version 2 says.
#[tactic(auto, unfolding(crate::specs::Stored::digest_refusal))]
fn check_digest(bytes: &[u8]) -> Result<(), Refusal>
    requires { 64 ≤ length bytes.now }
    ensures { MatchResult result (λ _. digest_refusal bytes.now ≡ None)
        (λ e. digest_refusal bytes.now ≡ Some e) }
{
    let (_, body) = bytes.split_at(HEADER_LEN);
    if &bytes[4..8] == VERSION.to_be_bytes().as_slice() {
        if &bytes[16..36] != Sha1::digest(body).as_slice() {
            return Err(Refusal::BadDigest);
        }
    }
    Ok(())
}

/// The body of a stored file with that identifier, or what is wrong with its header.
#[tactic(auto, unfolding(crate::specs::Stored::body_in, crate::specs::Stored::header_refusal))]
pub(crate) fn body_of(identifier: Identifier, bytes: &[u8]) -> Result<&[u8], Refusal>
    ensures { MatchResult result (λ body. body_in identifier bytes.now ≡ Some body.now)
        (λ e. header_refusal identifier bytes.now ≡ Some e) }
{
    check_head(identifier, bytes, bytes.len() as u64)?;
    check_digest(bytes)?;
    let (_, body) = bytes.split_at(HEADER_LEN);
    Ok(body)
}

/// A new file in that room, whose bytes go: room for its header, and behind it for a body of that many bytes. The only
/// error is want of memory, which comes only where the room is too small.
pub(crate) fn start(room: Vec<u8>, body_len: usize) -> Result<Vec<u8>, AllocError>
    ensures items { IfOk result (λ v. v.items ≡ replicate 64 0) }
    ensures room { IfOk result (λ v. vec_capacity room ≤ vec_capacity v) }
    ensures full { OnErr result (vec_capacity room < 64 + body_len) }
{
    let mut out = room;
    out.clear();
    out.reserve_exact(HEADER_LEN.saturating_add(body_len))?;
    out.extend_from_slice(&[0; HEADER_LEN])?;
    Ok(out)
}

/// The header of the stored file with that body, which stands before it there.
#[tactic(auto, unfolding(crate::specs::Stored::header))]
pub fn header_of(identifier: Identifier, body: &[u8]) -> [u8; HEADER_LEN]
    ensures { result ≡ header identifier body.now }
{
    let mut header = [0; HEADER_LEN];
    header[..4].copy_from_slice(&identifier.bytes());
    header[4..8].copy_from_slice(&VERSION.to_be_bytes());
    header[8..16].copy_from_slice(&(body.len() as u64).to_be_bytes());
    header[16..36].copy_from_slice(&Sha1::digest(body));
    header
}

/// Writes the header into its room, once the body stands behind it.
pub(crate) fn seal(identifier: Identifier, file: &mut Vec<u8>)
    requires { 64 ≤ length file.old.items }
    ensures { file.new.items ≡ stored_as identifier (drop 64 file.old.items) }
{
    let (head, body) = file.as_mut_slice().split_at_mut(HEADER_LEN);
    head.copy_from_slice(&header_of(identifier, body));
}
