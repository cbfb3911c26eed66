// Numbers of any size, in decimal.
ghost use Rattle.std.specs.Prelude.{◌≡◌, ◌+◌, min, MatchOption};
ghost use Rattle.std.specs.Str.Parse.{digits_value};
ghost use Rattle.eden_remote.specs.Protocol.{IsNumberText};
ghost use Rattle.eden_object.specs.Frames.{longest_framed};

use eden_source::LONGEST_FRAMED;

/// The number that the digits spell without leading zeros; one over the longest object stands for all that are longer.
pub(crate) fn read_length(digits: &[u8]) -> Option<u64>
    ensures { MatchOption result
        (¬ IsNumberText digits.now)
        (λ n. IsNumberText digits.now × (n ≡ min (digits_value 10 digits.now) (longest_framed + 1))) }
{
    if digits.is_empty() || (digits[0] == b'0' && digits.len() > 1) {
        return None;
    }
    let mut length: u64 = 0;
    'digits: for digit in digits {
        if !digit.is_ascii_digit() {
            return None;
        }
        length = (length * 10 + u64::from(*digit - b'0')).min(LONGEST_FRAMED + 1);
    }
    Some(length)
}
