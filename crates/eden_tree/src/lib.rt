//! Recursive directories under any allocator: a map from names to entries, whose entries may hold a loaded directory.
//!
//! A directory is kept as one vector in byte order of names, and each look-up is a binary search. Contracts see its
//! stamp, its mark and its rows, and whole paths of them (`specs/`); no clause names the vector. `Dir::insert` is the
//! one call that takes memory. To change a directory far below, a caller goes down by `get_mut` or `at_mut` and the
//! entry's `child`; `directory_laws` says what the calls' equations mean path by path. Nothing here loads or stores.
#![tactic(auto)]

mod change;
mod dir;
mod laws;
mod search;

pub use change::Change;
pub use dir::{Dir, Entry};
pub use laws::directory_laws;
