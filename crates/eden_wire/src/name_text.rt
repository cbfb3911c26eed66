ghost use Rattle.std.specs.Prelude.{◌≡◌, ◌||◌, ◌==◌, ℕ, List, true, IsTrue, MatchOption, IfOk};
ghost use Rattle.std.specs.List.{list_all};
ghost use Rattle.eden_model.specs.Bytes.{nul_byte, slash_byte};
ghost use Rattle.eden_wire.specs.Names.{is_plain, name_text, AreBytes, IsComponent, SpellsName};
ghost use Rattle.eden_wire.specs.Scans.{is_dots, refusal_by, ScansName, SpellsNoName, ScansAfter, SpellsAfter};
ghost use Rattle.eden_wire.specs.Scans.{SpellsNoAfter};
ghost use Rattle.eden_wire.specs.Sorts.{IsAfter, after_text};

use crate::escape::{first_byte, plain_len};
use eden_model::{Errno, MAX_NAME, Name};
use percent_encoding::percent_decode;
use std::alloc::{AllocError, Global};

/// What is known of a component by its text alone, so that a refusal needs no memory.
#[derive(Clone, Copy)]
pub(crate) struct ScannedName {
    /// How many bytes the component has.
    pub(crate) len: usize,
    /// Why it is no name.
    pub(crate) refusal: Option<Errno>,
}

fn is_barred(before: bool, b: u8) -> bool
    ensures { result ≡ ((before || b == slash_byte) || b == nul_byte) }
{
    before || b == b'/' || b == 0
}

fn is_no_name(barred: bool, text: &[u8]) -> bool
    ensures { result ≡ (barred || is_dots text.now) }
{
    barred || text == b".".as_slice() || text == b"..".as_slice()
}

fn refusal_by(no_name: bool, len: usize) -> Option<Errno>
    ensures { result ≡ refusal_by no_name len }
{
    if no_name {
        Some(Errno::EINVAL)
    } else if len > MAX_NAME {
        Some(Errno::ENAMETOOLONG)
    } else {
        None
    }
}

/// Looks through the text of a component: none where it isn't the spelling of at least one byte.
pub(crate) fn scan_name(text: &[u8]) -> Option<ScannedName>
    ensures { MatchOption result (SpellsNoName text.now) (λ s. ScansName text.now s.len s.refusal) }
{
    if text.is_empty() {
        return None;
    }
    let mut len = plain_len(text);
    let mut barred = false;
    let mut rest = &text[len..];
    'bytes: while !rest.is_empty() {
        let (b, more) = first_byte(rest)?;
        barred = is_barred(barred, b);
        len += 1;
        rest = more;
    }
    let refusal = refusal_by(is_no_name(barred, text), len);
    Some(ScannedName { len, refusal })
}

/// What `scan_name` says, by a shorter way where it is known that all bytes stand for themselves.
pub(crate) fn scan_component(text: &[u8], plain: bool) -> Option<ScannedName>
    requires { IsTrue plain → list_all is_plain text.now ≡ true }
    ensures { MatchOption result (SpellsNoName text.now) (λ s. ScansName text.now s.len s.refusal) }
{
    if !plain {
        return scan_name(text);
    }
    if text.is_empty() {
        return None;
    }
    let len = text.len();
    let refusal = refusal_by(is_no_name(false, text), len);
    Some(ScannedName { len, refusal })
}

// The bytes that the text spells. The only error is want of memory.
fn spelled(alloc: Global, text: &[u8]) -> Result<Vec<u8>, AllocError>
    ensures { IfOk result (λ v. (name : List ℕ) → AreBytes name → text.now ≡ name_text name → v.items ≡ name) }
{
    let mut bytes = Vec::new(alloc);
    percent_decode(text).append_to(&mut bytes)?;
    Ok(bytes)
}

/// The name that the text spells, of which it may be known that all bytes stand for themselves. The only error is want
/// of memory.
pub(crate) fn read_component(alloc: Global, text: &[u8], plain: bool) -> Result<Name, AllocError>
    requires named { SpellsName text.now }
    requires plain { IsTrue plain → list_all is_plain text.now ≡ true }
    ensures { IfOk result (λ n. IsComponent n × (text.now ≡ name_text n)) }
{
    if plain {
        return Name::from_judged(alloc, text);
    }
    Ok(Name::new(spelled(alloc, text)?).unwrap())
}

/// The name that the text spells. The only error is want of memory.
pub(crate) fn read_name(alloc: Global, text: &[u8]) -> Result<Name, AllocError>
    requires { SpellsName text.now }
    ensures { IfOk result (λ n. IsComponent n × (text.now ≡ name_text n)) }
{
    read_component(alloc, text, plain_len(text) == text.len())
}

/// Looks through the field AFTER, and says why it is refused; none where it is neither `-` nor the text of a component.
pub(crate) fn scan_after(text: &[u8]) -> Option<Option<Errno>>
    ensures { MatchOption result (SpellsNoAfter text.now) (ScansAfter text.now) }
{
    if text == b"-".as_slice() {
        return Some(None);
    }
    let name = scan_name(text)?;
    Some(name.refusal)
}

/// The name that the field AFTER spells, or none for `-`. The only error is want of memory.
pub(crate) fn read_after(alloc: Global, text: &[u8]) -> Result<Option<Name>, AllocError>
    requires { SpellsAfter text.now }
    ensures { IfOk result (λ after. IsAfter after × (text.now ≡ after_text after)) }
{
    if text == b"-".as_slice() {
        return Ok(None);
    }
    Ok(Some(read_name(alloc, text)?))
}
