// Framed objects: the digest, the header and the body.
ghost use Rattle.std.specs.Prelude.{◌≡◌, ◌≢◌, ◌<◌, ◌≤◌, ◌↔◌, ℕ, List, length, MatchOption, IfSome, IfNone, IsTrue};
ghost use Rattle.std.specs.Prelude.{decimal};
ghost use Rattle.sha1.specs.Sha1.{sha1};
ghost use Rattle.eden_object.specs.declared.word.Word.{Word};
ghost use Rattle.eden_object.specs.declared.word.Word.TheVariants as word;
ghost use Rattle.eden_object.specs.Frames as spec;
ghost use Rattle.eden_object.specs.Frames.{frame, most_body, word_text};

use crate::split::split_at_byte;
use crate::word::Word;
use eden_model::{Id, MAX_FILE, ObjKind};
use itoa::Buffer;
use sha1::Sha1;

/// The most bytes that a body may have.
pub const BODY_LIMIT: usize = MAX_FILE as usize;

/// The id of framed bytes: their SHA-1 (FIPS 180-4).
pub fn id_of(framed: &[u8]) -> Id
    ensures { result.bytes ≡ sha1 framed.now }
{
    Id {
        bytes: Sha1::digest(framed),
    }
}

fn read_word(text: &[u8]) -> Option<Word>
    ensures { MatchOption result ((w : Word) → text.now ≢ word_text w) (λ w. text.now ≡ word_text w) }
{
    if text == b"blob".as_slice() {
        Some(Word::Blob)
    } else if text == b"tree".as_slice() {
        Some(Word::Tree)
    } else if text == b"commit".as_slice() {
        Some(Word::Commit)
    } else if text == b"tag".as_slice() {
        Some(Word::Tag)
    } else {
        None
    }
}

/// The word of the objects of a kind.
pub(crate) fn word_of(kind: ObjKind) -> Word
    ensures { result ≡ spec.word_of kind }
{
    match kind {
        ObjKind::Blob => Word::Blob,
        ObjKind::Tree => Word::Tree,
    }
}

/// Whether the text is the number's, in decimal and without leading zeros.
fn spells(text: &[u8], number: usize) -> bool
    ensures { IsTrue result ↔ (text.now ≡ decimal number) }
{
    text == Buffer::new().format(number).as_bytes()
}

/// The word and the body of framed bytes.
pub(crate) fn read_frame(framed: &[u8]) -> Option<(Word, &[u8])>
    ensures { MatchOption result ((w : Word) (body : List ℕ) → framed.now ≢ frame w body)
        (λ r. framed.now ≡ frame r.0 r.1.now) }
{
    let (text, rest) = split_at_byte(framed, b' ')?;
    let (length, body) = split_at_byte(rest, 0)?;
    let word = read_word(text)?;
    if spells(length, body.len()) {
        Some((word, body))
    } else {
        None
    }
}

/// The content of a framed blob, where it lies: `None` where the bytes are no framed blob, or where its content is over
/// 2^30 bytes.
pub fn decode_blob(framed: &[u8]) -> Option<&[u8]>
    ensures found { IfSome result (λ content. framed.now ≡ frame word.Blob content.now) }
    ensures short { IfSome result (λ content. length content.now ≤ most_body) }
    ensures none { IfNone result
        ((content : List ℕ) → framed.now ≡ frame word.Blob content → most_body < length content) }
{
    let (word, content) = read_frame(framed)?;
    if word == Word::Blob && content.len() <= BODY_LIMIT {
        Some(content)
    } else {
        None
    }
}
