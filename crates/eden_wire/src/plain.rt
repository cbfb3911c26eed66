ghost use Rattle.std.specs.Prelude.{◌≡◌, ◌≤◌, ◌++◌, ◌∷◌, [], length, take, decimal, Some};
ghost use Rattle.std.specs.Option.{IfSome};
ghost use Rattle.eden_model.specs.Bytes.{space_byte};
ghost use Rattle.eden_wire.specs.Fields.Field.{of_path, of_number, of_bit, of_data, of_after};
ghost use Rattle.eden_wire.specs.Requests.{spelling};
ghost use Rattle.eden_wire.specs.Words.{request_word_text};
ghost use Rattle.eden_wire.specs.Fronts.{NameFirst, FieldFirst, Completes};
ghost use Rattle.eden_wire.specs.Lines.{IsReadAs};
ghost use Rattle.eden_wire.specs.declared.request.Item.TheVariants.{Asks};

use crate::escape::plain_len;
use crate::field::{is_data, read_bit, read_data};
use crate::name_text::{read_name, scan_name};
use crate::word::Word;
use eden_model::{Bytes, MAX_NAME, MAX_NAMES, MAX_PATH, Name, Path, Request};
use std::alloc::Global;

// Most paths have no more names: room for this many is made at once.
const FEW: usize = 4;

// The text after the word at its beginning, if it is that word.
#[inline(always)]
fn behind_word(line: &[u8], word: Word) -> Option<(Word, &[u8])>
    ensures { IfSome result (λ x. line.now ≡ request_word_text x.0 ++ x.1.now) }
{
    let text = word.text();
    if !line.starts_with(text) {
        return None;
    }
    Some((word, line.split_at(text.len()).1))
}

// The word that the line begins with, and the text after it. Few bytes tell which word it may be.
#[inline(always)]
fn front_word(line: &[u8]) -> Option<(Word, &[u8])>
    ensures { IfSome result (λ x. line.now ≡ request_word_text x.0 ++ x.1.now) }
{
    if line.len() < 5 {
        return None;
    }
    match line[0] {
        b'k' => behind_word(line, Word::Kind),
        b'l' => behind_word(line, Word::List),
        b'w' => behind_word(line, Word::Write),
        b't' => behind_word(line, Word::Truncate),
        b'c' => behind_word(line, Word::Create),
        b'm' => behind_word(line, Word::Mkdir),
        b'u' => behind_word(line, Word::Unlink),
        b's' if line[1] == b't' => behind_word(line, Word::Stat),
        b's' if line[1] == b'e' => behind_word(line, Word::SetExec),
        b's' => behind_word(line, Word::Symlink),
        b'r' if line[4] == b' ' => behind_word(line, Word::Read),
        b'r' if line[1] == b'm' => behind_word(line, Word::Rmdir),
        b'r' if line[2] == b'n' => behind_word(line, Word::Rename),
        b'r' => behind_word(line, Word::ReadLink),
        _ => None,
    }
}

#[inline(always)]
fn behind_space(text: &[u8]) -> Option<&[u8]>
    ensures { IfSome result (λ inside. text.now ≡ space_byte ∷ inside.now) }
{
    match text {
        [b' ', inside @ ..] => Some(inside),
        _ => None,
    }
}

// How many bytes stand before the first slash or space, or in all.
fn name_end(text: &[u8]) -> usize
    ensures { result ≤ length text.now }
{
    for i in 0..text.len() {
        if text[i] == b'/' || text[i] == b' ' {
            return i;
        }
    }
    text.len()
}

// The name at the front, of which some bytes are escaped, and the text after it.
#[inline(never)]
fn front_escaped(alloc: Global, text: &[u8]) -> Option<(Name, &[u8])>
    ensures { IfSome result (λ x. NameFirst x.0 text.now x.1.now) }
{
    let (part, rest) = text.split_at(name_end(text));
    let scanned = scan_name(part)?;
    if scanned.refusal.is_some() {
        return None;
    }
    let Ok(name) = read_name(alloc, part) else {
        return None;
    };
    Some((name, rest))
}

// The name at the front, most often of bytes that stand for themselves, and the text after it.
#[inline(always)]
fn front_name(alloc: Global, text: &[u8]) -> Option<(Name, &[u8])>
    ensures { IfSome result (λ x. NameFirst x.0 text.now x.1.now) }
{
    let len = plain_len(text);
    if len > MAX_NAME {
        return None;
    }
    if len == 0 {
        return front_escaped(alloc, text);
    }
    // `.` and `..` are no names; nor is another short text taken for one here that begins so.
    if len < 3 && text[0] == b'.' {
        return None;
    }
    let (part, rest) = text.split_at(len);
    if !rest.is_empty() && rest[0] != b'/' && rest[0] != b' ' {
        return front_escaped(alloc, text);
    }
    let Ok(name) = Name::from_judged(alloc, part) else {
        return None;
    };
    Some((name, rest))
}

// The names at the front, each after a slash, and the text after them.
#[inline(always)]
fn front_names(alloc: Global, text: &[u8]) -> Option<(Path, &[u8])>
    ensures { IfSome result (λ x. FieldFirst (of_path x.0) (space_byte ∷ text.now) x.1.now) }
{
    let Ok(mut names) = Vec::with_capacity(alloc, FEW) else {
        return None;
    };
    let mut rest = text;
    'parts: while !rest.is_empty() && rest[0] == b'/' {
        let (name, more) = front_name(alloc, &rest[1..])?;
        let Ok(()) = names.push(name) else {
            return None;
        };
        rest = more;
    }
    if names.is_empty() || names.len() > MAX_NAMES || text.len() - rest.len() > MAX_PATH {
        return None;
    }
    Some((Path::from_judged(names), rest))
}

// The path after a space at the front, and the text after it.
fn front_path(alloc: Global, text: &[u8]) -> Option<(Path, &[u8])>
    ensures { IfSome result (λ x. FieldFirst (of_path x.0) text.now x.1.now) }
{
    let inside = behind_space(text)?;
    match inside {
        [b'/'] => Some((Path::from_judged(Vec::new(alloc)), &inside[1..])),
        [b'/', b' ', ..] => Some((Path::from_judged(Vec::new(alloc)), &inside[1..])),
        _ => front_names(alloc, inside),
    }
}

// The number that the digits at the front spell, and how many they are.
#[inline(always)]
fn leading_number(text: &[u8]) -> Option<(u64, usize)>
    ensures within { IfSome result (λ x. x.1 ≤ length text.now) }
    ensures spelled { IfSome result (λ x. take x.1 text.now ≡ decimal x.0) }
{
    let mut n: u64 = 0;
    let mut len = 0;
    'digits: while len < text.len() && text[len].is_ascii_digit() {
        n = n.checked_mul(10)?.checked_add(u64::from(text[len] - b'0'))?;
        len += 1;
    }
    if len == 0 {
        return None;
    }
    if len > 1 && text[0] == b'0' {
        return None;
    }
    Some((n, len))
}

// The number after a space at the front, and the text after it.
#[inline(always)]
fn front_number(text: &[u8]) -> Option<(u64, &[u8])>
    ensures { IfSome result (λ x. FieldFirst (of_number x.0) text.now x.1.now) }
{
    let inside = behind_space(text)?;
    let (n, len) = leading_number(inside)?;
    Some((n, inside.split_at(len).1))
}

// The number after a space, which is the whole text.
#[inline(always)]
fn last_number(text: &[u8]) -> Option<u64>
    ensures { IfSome result (λ n. FieldFirst (of_number n) text.now []) }
{
    let (n, rest) = front_number(text)?;
    if rest.is_empty() { Some(n) } else { None }
}

// The name after a space at the front, or none for `-`, and the text after it.
#[inline(always)]
fn front_after(alloc: Global, text: &[u8]) -> Option<(Option<Name>, &[u8])>
    ensures { IfSome result (λ x. FieldFirst (of_after x.0) text.now x.1.now) }
{
    let inside = behind_space(text)?;
    match inside {
        [b'-', rest @ ..] => Some((None, rest)),
        _ => {
            let (name, rest) = front_name(alloc, inside)?;
            Some((Some(name), rest))
        }
    }
}

// The bit after a space, which is the whole text.
fn last_bit(text: &[u8]) -> Option<bool>
    ensures { IfSome result (λ b. FieldFirst (of_bit b) text.now []) }
{
    read_bit(behind_space(text)?)
}

// The bytes after a space, which are the whole text.
fn last_data(alloc: Global, text: &[u8]) -> Option<Bytes>
    ensures { IfSome result (λ bytes. FieldFirst (of_data bytes) text.now []) }
{
    let inside = behind_space(text)?;
    if !is_data(inside) {
        return None;
    }
    match read_data(alloc, inside) {
        Ok(bytes) => Some(bytes),
        Err(_) => None,
    }
}

// The path after a space, which is the whole text.
fn last_path(alloc: Global, text: &[u8]) -> Option<Path>
    ensures { IfSome result (λ path. FieldFirst (of_path path) text.now []) }
{
    let (path, rest) = front_path(alloc, text)?;
    if rest.is_empty() { Some(path) } else { None }
}

// The request of a word after which only a path comes.
#[inline(always)]
fn of_path_alone(word: Word, path: Path) -> Option<Request>
    ensures { IfSome result (λ q. spelling q ≡ Some (request_word_text word, of_path path ∷ [])) }
{
    match word {
        Word::Kind => Some(Request::Kind(path)),
        Word::Stat => Some(Request::Stat(path)),
        Word::ReadLink => Some(Request::ReadLink(path)),
        Word::Create => Some(Request::Create(path)),
        Word::Mkdir => Some(Request::Mkdir(path)),
        Word::Unlink => Some(Request::Unlink(path)),
        Word::Rmdir => Some(Request::Rmdir(path)),
        _ => None,
    }
}

// The request of a word, the path after it, and the fields that the text after these spells.
#[inline(always)]
fn complete(alloc: Global, word: Word, path: Path, text: &[u8]) -> Option<Request>
    ensures { IfSome result (Completes word path text.now) }
{
    if text.is_empty() {
        return of_path_alone(word, path);
    }
    match word {
        Word::Read => {
            let (offset, more) = front_number(text)?;
            Some(Request::Read(path, offset, last_number(more)?))
        }
        Word::List => {
            let (after, more) = front_after(alloc, text)?;
            Some(Request::List(path, after, last_number(more)?))
        }
        Word::Write => {
            let (offset, more) = front_number(text)?;
            Some(Request::Write(path, offset, last_data(alloc, more)?))
        }
        Word::Truncate => Some(Request::Truncate(path, last_number(text)?)),
        Word::SetExec => Some(Request::SetExec(path, last_bit(text)?)),
        Word::Symlink => Some(Request::Symlink(path, last_data(alloc, text)?)),
        Word::Rename => Some(Request::Rename(path, last_path(alloc, text)?)),
        _ => None,
    }
}

/// The request that the line is, read in one pass. None says nothing: a line with a refusal, one that is no request or
/// one for which there is no memory is left to `read_request`'s two passes.
pub(crate) fn read_plain(alloc: Global, line: &[u8]) -> Option<Request>
    ensures { IfSome result (λ q. IsReadAs line.now (Asks q)) }
{
    let (word, text) = front_word(line)?;
    let (path, more) = front_path(alloc, text)?;
    complete(alloc, word, path, more)
}
