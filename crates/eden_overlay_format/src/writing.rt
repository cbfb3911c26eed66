//! The fields of a body, put behind what is written already.

ghost use Rattle.std.specs.Prelude.{◌≡◌, ◌++◌, ◌∷◌, [], length, OnOk};
ghost use Rattle.std.specs.Int.{w64, to_be_bytes};
ghost use Rattle.eden_overlay_format.specs.Directory.{kind_code, origin_code, origin_bytes, row};

use eden_model::{Id, Kind, Name, Origin};
use std::alloc::AllocError;

/// The length of a row's codes and number, in bytes.
const CODES_LEN: usize = 10;

pub(crate) fn put_id(out: &mut Vec<u8>, id: Id) -> Result<(), AllocError>
    ensures ok { OnOk result (out.new.items ≡ out.old.items ++ id.bytes) }
    ensures len { length id.bytes ≡ 20 }
{
    out.extend_from_slice(&id.bytes)
}

fn code_of_kind(kind: Kind) -> u8
    ensures { result ≡ kind_code kind }
{
    match kind {
        Kind::File => 0,
        Kind::Exec => 1,
        Kind::Link => 2,
        Kind::Dir => 3,
    }
}

fn code_of_origin(origin: Origin) -> u8
    ensures { result ≡ origin_code origin }
{
    match origin {
        Origin::Object(_) => 0,
        Origin::Own => 1,
        Origin::Empty => 2,
    }
}

/// What stands before an object's id or the name's length: the codes and the number.
fn codes_of(kind: Kind, origin: Origin, number: u64) -> [u8; CODES_LEN]
    ensures { result ≡ (kind_code kind ∷ origin_code origin ∷ []) ++ to_be_bytes w64 number }
{
    let mut codes = [0; CODES_LEN];
    codes[0] = code_of_kind(kind);
    codes[1] = code_of_origin(origin);
    codes[2..].copy_from_slice(&number.to_be_bytes());
    codes
}

/// All that stands before the name where the origin is an object.
fn object_front(codes: [u8; CODES_LEN], id: Id, name_len: u8) -> [u8; CODES_LEN + 21]
    ensures { result ≡ codes ++ id.bytes ++ (name_len ∷ []) }
{
    let mut front = [name_len; CODES_LEN + 21];
    let (before, behind) = front.split_at_mut(CODES_LEN);
    before.copy_from_slice(&codes);
    let (middle, _) = behind.split_at_mut(20);
    middle.copy_from_slice(&id.bytes);
    front
}

/// All that stands before the name where there is no id.
fn plain_front(codes: [u8; CODES_LEN], name_len: u8) -> [u8; CODES_LEN + 1]
    ensures { result ≡ codes ++ (name_len ∷ []) }
{
    let mut front = [name_len; CODES_LEN + 1];
    front[..CODES_LEN].copy_from_slice(&codes);
    front
}

/// What stands before the name.
fn put_front(
    out: &mut Vec<u8>,
    kind: Kind,
    origin: Origin,
    number: u64,
    name_len: u8,
) -> Result<(), AllocError>
    ensures { OnOk result (out.new.items ≡ out.old.items ++ ((kind_code kind ∷ origin_code origin ∷ [])
        ++ to_be_bytes w64 number ++ origin_bytes origin ++ (name_len ∷ []))) }
{
    let codes = codes_of(kind, origin, number);
    match origin {
        Origin::Object(id) => out.extend_from_slice(&object_front(codes, id, name_len)),
        Origin::Own | Origin::Empty => out.extend_from_slice(&plain_front(codes, name_len)),
    }
}

/// A row of a directory.
pub(crate) fn put_row(
    out: &mut Vec<u8>,
    name: &Name,
    kind: Kind,
    origin: Origin,
    number: u64,
) -> Result<(), AllocError>
    ensures { OnOk result (out.new.items ≡
        out.old.items ++ row (record { name = name.now; kind = kind; origin = origin; number = number })) }
{
    put_front(out, kind, origin, number, name.len() as u8)?;
    out.extend_from_slice(name.as_slice())
}
