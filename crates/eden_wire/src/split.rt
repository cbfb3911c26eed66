ghost use Rattle.std.specs.Prelude.{◌≡◌, ◌∷◌, length};
ghost use Rattle.eden_wire.specs.Splits.{BeginsWith, IsFirstPart, IsPart};

use memchr::memchr;

// So many bytes are looked at one by one, which takes less than a call where a part is short.
const NEAR: usize = 16;

/// How many bytes stand before the first such byte, or in all.
pub(crate) fn part_len(bytes: &[u8], mark: u8) -> usize
    ensures { IsFirstPart bytes.now mark result }
{
    'near: for i in 0..bytes.len().min(NEAR) {
        if bytes[i] == mark {
            return i;
        }
    }
    if bytes.len() <= NEAR {
        return bytes.len();
    }
    match memchr(mark, &bytes[NEAR..]) {
        Some(at) => NEAR + at,
        None => bytes.len(),
    }
}

/// The text behind the mark at its beginning.
pub(crate) fn behind(text: &[u8], mark: u8) -> &[u8]
    requires { BeginsWith mark text.now }
    ensures { text.now ≡ mark ∷ result.now }
{
    &text[1..]
}

/// The text between the mark at its beginning and the next such mark, and the text from there.
pub(crate) fn next_part(text: &[u8], mark: u8) -> (&[u8], &[u8])
    requires { BeginsWith mark text.now }
    ensures { IsPart mark text.now result.0.now result.1.now }
{
    let inside = &text[1..];
    inside.split_at(part_len(inside, mark))
}
