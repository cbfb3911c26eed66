//! Where framed objects come from: memory, or a folder of files.
//!
//! A `Source` is asked for an object by its id and answers bytes, or why it has none. What it gives is believed only
//! where the World is honest; the bytes are checked by whoever asked. A folder of files is nobody's proof of honesty,
//! so `FolderSource` serves the World `Outside` alone, and promises there what it counts and which errors it gives.
#![tactic(auto)]

mod folder;
mod memory;
mod source;

pub use folder::{FolderSource, LONGEST_FRAMED};
pub use memory::MemorySource;
pub use source::Source;
