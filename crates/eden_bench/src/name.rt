use eden_model::{Name, Path};
use std::alloc::{AllocError, Global};

/// The name of that number: names are in byte order if their numbers are, up to ten digits. None if the text is no
/// name.
pub fn name(alloc: Global, number: u64) -> Result<Option<Name>, AllocError> {
    let text = format!(in alloc; "file{number:010}")?;
    Ok(Name::new(text.into_bytes()).ok())
}

/// The number that comes at a turn, if each turn goes so far through the numbers below the count.
pub fn turned(turn: u32, stride: u64, count: u32) -> u64 {
    let way = u64::from(turn).wrapping_mul(stride);
    way.checked_rem(u64::from(count)).unwrap_or(0)
}

/// This many names, of the numbers below the count in their turns.
pub fn names(alloc: Global, turns: u32, stride: u64, count: u32) -> Result<Vec<Name>, AllocError> {
    let mut names = Vec::new(alloc);
    for turn in 0..turns {
        if let Some(name) = name(alloc, turned(turn, stride, count))? {
            names.push(name)?;
        }
    }
    Ok(names)
}

/// This many times the first name.
pub fn chain(alloc: Global, depth: u32) -> Result<Vec<Name>, AllocError> {
    names(alloc, depth, 0, 1)
}

/// The path of this many first names. None if it is none.
pub fn deep(alloc: Global, depth: u32) -> Result<Option<Path>, AllocError> {
    Ok(Path::new(chain(alloc, depth)?).ok())
}
