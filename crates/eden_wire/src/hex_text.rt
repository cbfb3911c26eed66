ghost use Rattle.std.specs.Prelude.{◌≡◌, ◌<◌, ◌*◌, ℕ, List, length};
ghost use Rattle.std.specs.List.{list_all};
ghost use Rattle.hex.specs.Hex.{encode_lower};
ghost use Rattle.eden_wire.specs.Names.{AreBytes};
ghost use Rattle.eden_wire.specs.Digits.{digits_of};
ghost use Rattle.eden_model.specs.Bytes.{is_lower_hex_digit};

// Both digits of a byte are computed at once, without a branch, so that LLVM makes vector code of the loops.
fn digits(byte: u8) -> u16
    ensures { result ≡ digits_of byte }
{
    let b = u16::from(byte);
    let values = (b << 12 | b) >> 4;
    let letters = (values + 0x0606) >> 4 & 0x0101;
    values + 0x3030 + 39 * letters
}

/// Writes two lower-case digits for each byte.
#[inline(never)]
pub(crate) fn encode(bytes: &[u8], text: &mut [u8])
    requires { length text.old ≡ 2 * length bytes.now }
    ensures { text.new ≡ encode_lower bytes.now }
{
    'bytes: for i in 0..bytes.len() {
        let pair = digits(bytes[i]);
        text[2 * i] = (pair & 0xff) as u8;
        text[2 * i + 1] = (pair >> 8) as u8;
    }
}

// The byte of two digits, of which the first is the low half.
fn byte_of(pair: u16) -> u8
    ensures { (b : ℕ) → b < 256 → pair ≡ digits_of b → result ≡ b }
{
    let values = (pair & 0x0f0f) + 9 * (pair >> 6 & 0x0101);
    ((values << 4 | values >> 8) & 0xff) as u8
}

/// Reads the bytes that the text spells, if it spells so many.
#[inline(never)]
pub(crate) fn decode(text: &[u8], bytes: &mut [u8])
    requires { length text.now ≡ 2 * length bytes.old }
    ensures { (spelled : List ℕ) → AreBytes spelled → text.now ≡ encode_lower spelled → bytes.new ≡ spelled }
{
    'pairs: for i in 0..bytes.len() {
        bytes[i] = byte_of(u16::from(text[2 * i]) + 256 * u16::from(text[2 * i + 1]));
    }
}

fn is_lower_digit(b: u8) -> bool
    ensures { result ≡ is_lower_hex_digit b }
{
    matches!(b, b'0'..=b'9' | b'a'..=b'f')
}

/// Whether all are lower-case digits.
#[inline(never)]
pub(crate) fn are_digits(text: &[u8]) -> bool
    ensures { result ≡ list_all is_lower_hex_digit text.now }
{
    let mut good = true;
    'digits: for b in text {
        good = good & is_lower_digit(*b);
    }
    good
}
