ghost use Rattle.std.specs.Prelude.{◌≡◌, IfOk};
ghost use Rattle.eden_overlay.specs.Files.{part};

use std::alloc::{AllocError, Global};

/// A copy of the bytes from a place on, at most so many: none where they end before. The only error is want of memory.
pub fn part_of(alloc: Global, bytes: &[u8], from: u64, most: u64) -> Result<Vec<u8>, AllocError>
    ensures { IfOk result (λ v. v.items ≡ part from most bytes.now) }
{
    let from = (bytes.len() as u64).min(from) as usize;
    let rest = &bytes[from..];
    let to = (rest.len() as u64).min(most) as usize;
    Vec::from_slice(alloc, &rest[..to])
}
