ghost use Rattle.std.specs.Prelude.{◌≡◌, ◌^◌, ◌<◌, decimal, MatchOption, ℕ};

/// The number below 2^64 that is spelled so, with no leading zero.
pub fn read_number(text: &[u8]) -> Option<u64>
    ensures { MatchOption result ((n : ℕ) → n < 2 ^ 64 → text.now ≡ decimal n → ⊥) (λ n. text.now ≡ decimal n) }
{
    if text.is_empty() || (text[0] == b'0' && text.len() > 1) {
        return None;
    }
    let mut n: u64 = 0;
    'digits: for b in text {
        if !b.is_ascii_digit() {
            return None;
        }
        n = n.checked_mul(10)?.checked_add(u64::from(*b - b'0'))?;
    }
    Some(n)
}
