//! Names and paths, of bytes that are some; a test ends if they are none.

use eden_model::{Name, Path};
use std::alloc::Global;
use std::process::Abort;

/// The name of those bytes.
pub(crate) fn name(rt: &impl Abort, alloc: Global, bytes: &[u8]) -> Name {
    test_random::name(alloc, bytes).expect(rt, "a name")
}

/// The path of those names.
pub(crate) fn path(rt: &impl Abort, alloc: Global, parts: &[&[u8]]) -> Path {
    test_random::path(alloc, parts).expect(rt, "a path")
}
