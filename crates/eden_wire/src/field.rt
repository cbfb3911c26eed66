ghost use Rattle.std.specs.Prelude.{◌≡◌, ◌<◌, ◌^◌, ◌≢◌, ℕ, Bool, List, length, decimal, MatchOption, MatchBool, IfOk};
ghost use Rattle.eden_wire.specs.Names.{AreBytes};
ghost use Rattle.eden_wire.specs.Fields.Field.{of_path, of_number, of_bit, of_data, of_after};
ghost use Rattle.eden_wire.specs.declared.word.Sort.TheVariants as sort;
ghost use Rattle.eden_wire.specs.Scans.{SpellsNo, Scans, SpellNoFields, ScansFields, SpellsData, NextIs, LastIs, Takes};
ghost use Rattle.eden_wire.specs.Sorts.{bit_text, hex_text};

use crate::hex_text::{are_digits, decode};
use crate::name_text::{read_after, scan_after};
use crate::number::read_number;
use crate::path_text::{read_path, scan_path};
use crate::split::{behind, next_part};
use crate::word::Sort;
use eden_model::{Bytes, Errno, Name, Path};
use std::alloc::{AllocError, Global};

/// The bit that the text spells.
pub(crate) fn read_bit(text: &[u8]) -> Option<bool>
    ensures { MatchOption result ((b : Bool) → text.now ≢ bit_text b) (λ b. text.now ≡ bit_text b) }
{
    match text {
        b"0" => Some(false),
        b"1" => Some(true),
        _ => None,
    }
}

/// Whether the text is `-`, or two lower-case digits a byte for at least one byte.
pub(crate) fn is_data(text: &[u8]) -> bool
    ensures { MatchBool result (SpellsData text.now) ((bytes : List ℕ) → AreBytes bytes → text.now ≢ hex_text bytes) }
{
    if text == b"-".as_slice() {
        return true;
    }
    if text.is_empty() || text.len() % 2 != 0 {
        return false;
    }
    are_digits(text)
}

/// The bytes that the text spells. The only error is want of memory.
pub(crate) fn read_data(alloc: Global, text: &[u8]) -> Result<Bytes, AllocError>
    requires { SpellsData text.now }
    ensures { IfOk result (λ bytes. AreBytes bytes × (text.now ≡ hex_text bytes)) }
{
    if text == b"-".as_slice() {
        return Ok(Bytes::new(Vec::new(alloc)));
    }
    let mut bytes = Vec::from_elem(alloc, 0, text.len() / 2)?;
    decode(text, bytes.as_mut_slice());
    Ok(Bytes::new(bytes))
}

/// Looks through the text of a field, and says why it is refused; none where it spells no field of that sort.
fn scan_field(sort: Sort, text: &[u8]) -> Option<Option<Errno>>
    ensures { MatchOption result (SpellsNo sort text.now) (Scans sort text.now) }
{
    match sort {
        Sort::Path => scan_path(text),
        Sort::After => scan_after(text),
        Sort::Number => match read_number(text) {
            Some(_) => Some(None),
            None => None,
        },
        Sort::Bit => match read_bit(text) {
            Some(_) => Some(None),
            None => None,
        },
        Sort::Data => { if is_data(text) { Some(None) } else { None } }
    }
}

/// Looks through the text of the fields behind a word, and says why they are refused, with the first reason from the
/// left; none where the text does not spell fields of these sorts.
pub(crate) fn scan_fields(sorts: &[Sort], text: &[u8]) -> Option<Option<Errno>>
    ensures { MatchOption result (SpellNoFields sorts.now text.now) (ScansFields sorts.now text.now) }
{
    match sorts {
        [] if text.is_empty() => Some(None),
        [sort] if text.starts_with(b" ") => scan_field(*sort, &text[1..]),
        [sort, later @ ..] if text.starts_with(b" ") => {
            let (field, more) = next_part(text, b' ');
            let refusal = scan_field(*sort, field)?;
            Some(refusal.or(scan_fields(later, more)?))
        }
        _ => None,
    }
}

/// The text of the fields that are not yet read into memory, each behind a space. None is refused.
#[derive(Drop)]
pub(crate) struct Fields<'a> {
    rest: &'a [u8],
}

impl<'a> Fields<'a> {
    pub(crate) fn new(rest: &'a [u8]) -> Fields<'a>
        ensures { result.rest.now ≡ rest.now }
    {
        Fields { rest }
    }

    /// The next field, a path. The only error is want of memory.
    pub(crate) fn path(&mut self, alloc: Global) -> Result<Path, AllocError>
        requires { NextIs sort.Path self.old.rest.now }
        ensures { IfOk result (λ path. Takes (of_path path) self.old.rest.now self.new.rest.now) }
    {
        let (text, more) = next_part(self.rest, b' ');
        self.rest = more;
        read_path(alloc, text)
    }

    /// The only field, a path, in which no space is looked for. The only error is want of memory.
    pub(crate) fn only_path(&mut self, alloc: Global) -> Result<Path, AllocError>
        requires { LastIs sort.Path self.old.rest.now }
        ensures { IfOk result (λ path. Takes (of_path path) self.old.rest.now self.new.rest.now) }
    {
        let text = behind(self.rest, b' ');
        self.rest = &self.rest[..0];
        read_path(alloc, text)
    }

    /// The next field, a number.
    pub(crate) fn number(&mut self) -> u64
        requires { NextIs sort.Number self.old.rest.now }
        ensures { Takes (of_number result) self.old.rest.now self.new.rest.now }
    {
        let (text, more) = next_part(self.rest, b' ');
        self.rest = more;
        read_number(text).unwrap()
    }

    /// The next field, `0` or `1`.
    pub(crate) fn bit(&mut self) -> bool
        requires { NextIs sort.Bit self.old.rest.now }
        ensures { Takes (of_bit result) self.old.rest.now self.new.rest.now }
    {
        let (text, more) = next_part(self.rest, b' ');
        self.rest = more;
        read_bit(text).unwrap()
    }

    /// The last field, bytes, in which no space is looked for. The only error is want of memory.
    pub(crate) fn data(&mut self, alloc: Global) -> Result<Bytes, AllocError>
        requires { LastIs sort.Data self.old.rest.now }
        ensures { IfOk result (λ bytes. Takes (of_data bytes) self.old.rest.now self.new.rest.now) }
    {
        let text = behind(self.rest, b' ');
        self.rest = &self.rest[..0];
        read_data(alloc, text)
    }

    /// The next field, a name or none. The only error is want of memory.
    pub(crate) fn after(&mut self, alloc: Global) -> Result<Option<Name>, AllocError>
        requires { NextIs sort.After self.old.rest.now }
        ensures { IfOk result (λ after. Takes (of_after after) self.old.rest.now self.new.rest.now) }
    {
        let (text, more) = next_part(self.rest, b' ');
        self.rest = more;
        read_after(alloc, text)
    }
}
