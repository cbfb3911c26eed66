ghost use Rattle.std.specs.Prelude.{◌≡◌, ◌≤◌, ◌<◌, ◌++◌, ◌&&◌, List, [], ◌∷◌, ℕ, length, take};
ghost use Rattle.std.specs.Prelude.{true, if◌then◌else◌, IsTrue, MatchOption};
ghost use Rattle.std.specs.List.{list_all};
ghost use Rattle.eden_model.specs.Bytes.{percent_sign};
ghost use Rattle.eden_wire.specs.Names.{is_plain, upper_digit, byte_text};

/// 1 for each byte that stands for itself in a name: a letter, a digit, `.` or `_`. A row has 32 bytes. One look-up
/// takes less than the comparisons with the ends of five ranges.
static PLAIN: [u8; 256] = [
    0, 0, 0, 0, 0, 0, 0, 0, 0, 0, 0, 0, 0, 0, 0, 0, 0, 0, 0, 0, 0, 0, 0, 0, 0, 0, 0, 0, 0, 0, 0, 0,
    0, 0, 0, 0, 0, 0, 0, 0, 0, 0, 0, 0, 0, 0, 1, 0, 1, 1, 1, 1, 1, 1, 1, 1, 1, 1, 0, 0, 0, 0, 0, 0,
    0, 1, 1, 1, 1, 1, 1, 1, 1, 1, 1, 1, 1, 1, 1, 1, 1, 1, 1, 1, 1, 1, 1, 1, 1, 1, 1, 0, 0, 0, 0, 1,
    0, 1, 1, 1, 1, 1, 1, 1, 1, 1, 1, 1, 1, 1, 1, 1, 1, 1, 1, 1, 1, 1, 1, 1, 1, 1, 1, 0, 0, 0, 0, 0,
    0, 0, 0, 0, 0, 0, 0, 0, 0, 0, 0, 0, 0, 0, 0, 0, 0, 0, 0, 0, 0, 0, 0, 0, 0, 0, 0, 0, 0, 0, 0, 0,
    0, 0, 0, 0, 0, 0, 0, 0, 0, 0, 0, 0, 0, 0, 0, 0, 0, 0, 0, 0, 0, 0, 0, 0, 0, 0, 0, 0, 0, 0, 0, 0,
    0, 0, 0, 0, 0, 0, 0, 0, 0, 0, 0, 0, 0, 0, 0, 0, 0, 0, 0, 0, 0, 0, 0, 0, 0, 0, 0, 0, 0, 0, 0, 0,
    0, 0, 0, 0, 0, 0, 0, 0, 0, 0, 0, 0, 0, 0, 0, 0, 0, 0, 0, 0, 0, 0, 0, 0, 0, 0, 0, 0, 0, 0, 0, 0,
];

/// 1 if a byte of a name stands for itself, or else 0.
#[inline(always)]
fn plain_value(b: u8) -> u8
    ensures value { result ≡ (if is_plain b then 1 else 0) }
    ensures small { result ≤ 1 }
{
    PLAIN[usize::from(b)]
}

/// Whether a byte of a name stands for itself.
#[inline(always)]
fn is_plain(b: u8) -> bool
    ensures { result ≡ is_plain b }
{
    plain_value(b) == 1
}

/// Whether each of four bytes of a name stands for itself, by one test.
#[inline(always)]
fn are_plain(a: u8, b: u8, c: u8, d: u8) -> bool
    ensures { result ≡ (is_plain a && is_plain b && is_plain c && is_plain d) }
{
    plain_value(a) + plain_value(b) + plain_value(c) + plain_value(d) == 4
}

/// How many bytes at the front stand for themselves.
pub(crate) fn plain_len(text: &[u8]) -> usize
    ensures within { result ≤ length text.now }
    ensures plain { list_all is_plain (take result text.now) ≡ true }
{
    'bytes: for i in 0..text.len() {
        if !is_plain(text[i]) {
            return i;
        }
    }
    text.len()
}

/// Whether all bytes stand for themselves.
pub(crate) fn are_all_plain(text: &[u8]) -> bool
    ensures { IsTrue result → list_all is_plain text.now ≡ true }
{
    let mut fours = 0;
    'fours: while text.len() - fours >= 4
        && are_plain(
            text[fours],
            text[fours + 1],
            text[fours + 2],
            text[fours + 3],
        )
    {
        fours += 4;
    }
    'bytes: for i in fours..text.len() {
        if !is_plain(text[i]) {
            return false;
        }
    }
    true
}

/// The digit's number, if it is one in upper case.
fn digit(c: u8) -> Option<u8>
    ensures { MatchOption result ((d : ℕ) → d < 16 → c ≡ upper_digit d → ⊥) (λ d. (d < 16) × (c ≡ upper_digit d)) }
{
    match c {
        b'0'..=b'9' => Some(c - b'0'),
        b'A'..=b'F' => Some(c - 55),
        _ => None,
    }
}

/// The byte that `%` and two digits spell, if it doesn't stand for itself.
fn escaped(high: u8, low: u8) -> Option<u8>
    ensures { MatchOption result ((b : ℕ) → b < 256 → percent_sign ∷ high ∷ low ∷ [] ≡ byte_text b → ⊥)
        (λ b. (percent_sign ∷ high ∷ low ∷ [] ≡ byte_text b) × (b < 256)) }
{
    let b = 16 * digit(high)? + digit(low)?;
    if is_plain(b) { None } else { Some(b) }
}

/// The byte that the front of the text spells, and the text after it.
pub(crate) fn first_byte(text: &[u8]) -> Option<(u8, &[u8])>
    ensures { MatchOption result ((b : ℕ) (rest : List ℕ) → b < 256 → text.now ≡ byte_text b ++ rest → ⊥)
        (λ x. (text.now ≡ byte_text x.0 ++ x.1.now) × (x.0 < 256)) }
{
    let (first, rest) = text.split_first()?;
    if is_plain(*first) {
        return Some((*first, rest));
    }
    match rest {
        [high, low, more @ ..] if *first == b'%' => Some((escaped(*high, *low)?, more)),
        _ => None,
    }
}
