use crate::unmade::Unmade;
use eden_model::{Bytes, Name, Path};
use std::alloc::{AllocError, Global};

/// A path as the places of its names among the four that there are.
pub type Places = Vec<u8>;

/// The name at a place; there are four.
pub fn name_at(place: u8) -> &'static [u8] {
    match place % 4 {
        0 => b"bak",
        1 => b"new.txt",
        2 => b"sub",
        _ => b"test.txt",
    }
}

/// A place of a name, by a random word.
pub(crate) fn some_place(word: u32) -> u8 {
    (word % 4) as u8
}

/// The name of those bytes.
pub fn name(alloc: Global, bytes: &[u8]) -> Result<Name, Unmade> {
    Ok(Name::new(bytes.to_vec(alloc)?)?)
}

/// The places that continue with one more.
pub(crate) fn below(alloc: Global, places: &[u8], place: u8) -> Result<Places, AllocError> {
    let mut below = places.to_vec(alloc)?;
    below.push(place)?;
    Ok(below)
}

/// The path of those names.
pub fn path(alloc: Global, parts: &[&[u8]]) -> Result<Path, Unmade> {
    let mut names = Vec::new(alloc);
    for bytes in parts {
        names.push(name(alloc, bytes)?)?;
    }
    Ok(Path::new(names)?)
}

/// The path of those places.
pub fn path_of(alloc: Global, places: &[u8]) -> Result<Path, Unmade> {
    let mut parts = Vec::new(alloc);
    for place in places {
        parts.push(name_at(*place))?;
    }
    path(alloc, parts.as_slice())
}

/// Those bytes, as a request or a node has them.
pub fn bytes(alloc: Global, bytes: &[u8]) -> Result<Bytes, AllocError> {
    Ok(Bytes::new(bytes.to_vec(alloc)?))
}
