// An object's id as text.
ghost use Rattle.std.specs.Prelude.{◌≡◌, ◌↔◌, IfSome, IsSome};
ghost use Rattle.hex.specs.Hex.{encode_lower};
ghost use Rattle.eden_model.specs.Bytes.{is_lower_hex_digit};
ghost use Rattle.eden_object.specs.IdText.{IsIdText};

use eden_model::Id;
use hex::FromHex;

/// The id that is written as 40 lower-case hexadecimal digits; `None` for every other text.
pub fn parse_id(text: &str) -> Option<Id>
    ensures found { IsSome result ↔ IsIdText text.now }
    ensures value { IfSome result (λ id. encode_lower id.bytes ≡ text.now) }
{
    // `from_hex` takes upper-case digits too.
    if !text
        .as_bytes()
        .iter()
        .all(|&digit| is_lower_hex_digit(digit))
    {
        return None;
    }
    let bytes = <[u8; 20] as FromHex>::from_hex(text).ok()?;
    Some(Id { bytes })
}

fn is_lower_hex_digit(digit: u8) -> bool
    ensures { result ≡ is_lower_hex_digit digit }
{
    matches!(digit, b'0'..=b'9' | b'a'..=b'f')
}
