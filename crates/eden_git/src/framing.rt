// The header of a framed object.
ghost use Rattle.std.specs.Prelude.{◌≡◌, ◌≤◌, ◌++◌, length, OnOk, IfOk, IfErr};
ghost use Rattle.eden_object.specs.Frames.{longest_framed, most_body, word_text};
ghost use Rattle.eden_git.specs.Framing as spec;
ghost use Rattle.eden_git.specs.Framing.{IsFramedObject};
ghost use Rattle.eden_pack_format.specs.Causes.{IsReadingCause};

use eden_model::Cause;
use eden_object::{BODY_LIMIT, Word};
use eden_source::LONGEST_FRAMED;
use itoa::Buffer;
use std::alloc::{AllocError, Global};
use std::str;

/// No header is longer.
const HEADER_MOST: usize = 32;

const WORDS: [Word; 4] = [Word::Blob, Word::Tree, Word::Commit, Word::Tag];

pub(crate) fn text_of(word: Word) -> &'static [u8]
    ensures { result.now ≡ word_text word }
{
    match word {
        Word::Blob => b"blob",
        Word::Tree => b"tree",
        Word::Commit => b"commit",
        Word::Tag => b"tag",
    }
}

/// Appends the header of an object of that word, whose body has so many bytes.
pub(crate) fn push_header(framed: &mut Vec<u8>, word: Word, size: usize) -> Result<(), AllocError>
    ensures { OnOk result (framed.new.items ≡ framed.old.items ++ spec.header word size) }
{
    framed.extend_from_slice(text_of(word))?;
    framed.push(b' ')?;
    framed.extend_from_slice(Buffer::new().format(size).as_bytes())?;
    framed.push(0)?;
    Ok(())
}

/// The framed object of that word and body. `TooLarge`, where a source may not give so much; `Memory`.
pub(crate) fn frame(alloc: Global, word: Word, body: &[u8]) -> Result<Vec<u8>, Cause>
    ensures framed { IfOk result (λ v. IsFramedObject v.items) }
    ensures bounded { IfOk result (λ v. length v.items ≤ longest_framed) }
    ensures causes { IfErr result IsReadingCause }
{
    if body.len() > BODY_LIMIT {
        return Err(Cause::TooLarge);
    }
    let mut framed = Vec::with_capacity(alloc, body.len() + HEADER_MOST)?;
    push_header(&mut framed, word, body.len())?;
    framed.extend_from_slice(body)?;
    if framed.len() as u64 > LONGEST_FRAMED {
        return Err(Cause::TooLarge);
    }
    Ok(framed)
}

/// What an object's first bytes say of its word and its body's size, within the limit. The number is read leniently.
pub(crate) fn read_header(front: &[u8]) -> Result<(Word, usize), Cause>
    ensures short { IfOk result (λ head. head.1 ≤ most_body) }
    ensures causes { IfErr result IsReadingCause }
{
    let word = WORDS
        .into_iter()
        .find(|word| front.starts_with(text_of(*word)))
        .ok_or(Cause::Device)?;
    let size = read_size(&front[text_of(word).len()..]).ok_or(Cause::Device)?;
    if size > BODY_LIMIT {
        return Err(Cause::TooLarge);
    }
    Ok((word, size))
}

// The number behind the space and before the NUL.
fn read_size(text: &[u8]) -> Option<usize> {
    let number = text.strip_prefix(b" ")?;
    let end = number.iter().position(|byte| *byte == 0)?;
    str::from_utf8(&number[..end]).ok()?.parse::<usize>().ok()
}
