// Cutting bytes at a separator.
ghost use Rattle.std.specs.Prelude.{◌≡◌, ◌≢◌, ◌∷◌, ◌++◌, MatchOption};
ghost use Rattle.std.specs.List.{AllByRecursion};

/// What stands before the first such byte, and what behind it.
pub(crate) fn split_at_byte(bytes: &[u8], separator: u8) -> Option<(&[u8], &[u8])>
    ensures { MatchOption result (AllByRecursion (λ b. b ≢ separator) bytes.now)
        (λ r. AllByRecursion (λ b. b ≢ separator) r.0.now × (bytes.now ≡ r.0.now ++ separator ∷ r.1.now)) }
{
    for (i, b) in bytes.iter().enumerate() {
        if *b == separator {
            return Some((&bytes[..i], &bytes[i + 1..]));
        }
    }
    None
}
