// The lines that a client sends.
ghost use Rattle.std.specs.Prelude.{◌≡◌, ◌≢◌, ◌↔◌, ◌≤◌, ℕ, List, length, IsTrue, MatchOption};
ghost use Rattle.hex.specs.Hex.{encode_lower};
ghost use Rattle.eden_object.specs.IdText.{IsIdText};
ghost use Rattle.eden_remote.specs.Protocol.{get_line, IsOneLine};
ghost use Rattle.eden_remote.specs.Serving.{Judged};

use eden_model::Id;
use eden_object::parse_id;
use std::str;

/// How long a line that asks is, in bytes, its line feed among them.
pub(crate) const LINE: usize = 45;

/// What the bytes of a line that isn't answered yet are.
pub(crate) enum Line {
    /// It may become one that asks.
    Part,
    /// It asks for the object.
    Asks(Id),
    /// It asks for nothing.
    Other,
}

/// The line that asks for the object.
pub(crate) fn get_line(id: Id) -> [u8; LINE]
    ensures { result ≡ get_line (encode_lower id.bytes) }
{
    let mut line = *b"get 0000000000000000000000000000000000000000\n";
    hex::encode_to_slice(id.bytes, &mut line[4..44]).unwrap();
    line
}

// The object that the line asks for.
fn asked(line: &[u8]) -> Option<Id>
    requires { length line.now ≡ LINE }
    ensures { MatchOption result
        ((digits : List ℕ) → IsIdText digits → line.now ≢ get_line digits)
        (λ id. line.now ≡ get_line (encode_lower id.bytes)) }
{
    let Ok(digits) = str::from_utf8(&line[4..44]) else {
        return None;
    };
    let id = parse_id(digits)?;
    if get_line(id).as_slice() == line {
        Some(id)
    } else {
        None
    }
}

fn is_one_line(bytes: &[u8]) -> bool
    ensures { IsTrue result ↔ IsOneLine bytes.now }
{
    bytes.iter().all(|byte| *byte != b'\n')
}

/// What the bytes are, of which there are no more than of a line that asks.
pub(crate) fn judge(bytes: &[u8]) -> Line
    requires { length bytes.now ≤ LINE }
    ensures { Judged bytes.now result }
{
    if bytes.len() < LINE {
        if is_one_line(bytes) {
            Line::Part
        } else {
            Line::Other
        }
    } else if let Some(id) = asked(bytes) {
        Line::Asks(id)
    } else {
        Line::Other
    }
}
