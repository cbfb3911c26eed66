ghost use Rattle.std.specs.Prelude.{◌≡◌, take, true, IsTrue, MatchOption, IfOk};
ghost use Rattle.std.specs.List.{AllByRecursion, list_all};
ghost use Rattle.eden_model.specs.Bytes.{slash_byte};
ghost use Rattle.eden_wire.specs.Names.{is_plain, IsComponent};
ghost use Rattle.eden_wire.specs.Splits.{BeginsWith, IsFirstPart, IsPart};
ghost use Rattle.eden_wire.specs.Scans.{too_long_by, ScansPath, SpellsPath, SpellsNoPath};
ghost use Rattle.eden_wire.specs.Sorts.{path_text};

use crate::escape::plain_len;
use crate::name_text::{read_component, scan_component};
use crate::split::part_len;
use eden_model::{Errno, MAX_NAMES, MAX_PATH, Path};
use std::alloc::{AllocError, Global};

// Most paths have no more names: room for so many is made at once.
const FEW: usize = 4;

// How many bytes stand before the first slash, or in all, and whether all of these stand for themselves. A slash
// doesn't stand for itself, so that most components are looked through once.
fn component_len(bytes: &[u8]) -> (usize, bool)
    ensures part { IsFirstPart bytes.now slash_byte result.0 }
    ensures plain { IsTrue result.1 → list_all is_plain (take result.0 bytes.now) ≡ true }
{
    let plain = plain_len(bytes);
    if plain == bytes.len() {
        return (plain, true);
    }
    if bytes[plain] == b'/' {
        return (plain, true);
    }
    (part_len(bytes, b'/'), false)
}

// The component behind the slash at the beginning, the text from the next slash, and whether all bytes of the component
// stand for themselves.
fn next_component(text: &[u8]) -> (&[u8], &[u8], bool)
    requires { BeginsWith slash_byte text.now }
    ensures part { IsPart slash_byte text.now result.0.now result.1.now }
    ensures plain { IsTrue result.2 → list_all is_plain result.0.now ≡ true }
{
    let inside = &text[1..];
    let (len, plain) = component_len(inside);
    let (part, more) = inside.split_at(len);
    (part, more, plain)
}

fn too_long_by(first: Option<Errno>, names: usize, bytes: usize) -> Option<Errno>
    ensures { result ≡ too_long_by first names bytes }
{
    match first {
        Some(errno) => Some(errno),
        None if names > MAX_NAMES || bytes > MAX_PATH => Some(Errno::ENAMETOOLONG),
        None => None,
    }
}

/// Looks through the text of a path, and says why it is refused; none where the text spells no path.
///
/// The components' refusals come first, from the left, and then the path's own.
pub(crate) fn scan_path(text: &[u8]) -> Option<Option<Errno>>
    ensures { MatchOption result (SpellsNoPath text.now) (ScansPath text.now) }
{
    if text == b"/".as_slice() {
        return Some(None);
    }
    if text.is_empty() || text[0] != b'/' {
        return None;
    }
    let mut refusal = None;
    let mut names = 0;
    let mut bytes = 0;
    let mut rest = text;
    'parts: while !rest.is_empty() {
        let (part, more, plain) = next_component(rest);
        let name = scan_component(part, plain)?;
        refusal = refusal.or(name.refusal);
        names += 1;
        bytes += name.len + 1;
        rest = more;
    }
    Some(too_long_by(refusal, names, bytes))
}

/// The path that the text spells. The only error is want of memory.
pub(crate) fn read_path(alloc: Global, text: &[u8]) -> Result<Path, AllocError>
    requires { SpellsPath text.now }
    ensures { IfOk result (λ p. AllByRecursion IsComponent p × (text.now ≡ path_text p)) }
{
    if text == b"/".as_slice() {
        return Ok(Path::new(Vec::new(alloc)).unwrap());
    }
    let mut names = Vec::with_capacity(alloc, FEW)?;
    let mut rest = text;
    'parts: while !rest.is_empty() {
        let (part, more, plain) = next_component(rest);
        names.push(read_component(alloc, part, plain)?)?;
        rest = more;
    }
    Ok(Path::from_judged(names))
}
