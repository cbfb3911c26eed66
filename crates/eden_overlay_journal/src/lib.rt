//! A journal before an overlay's files, so that each of them is replaced once for many changes.
//!
//! `Journaled` is files with a journal over them: what the journal says of a number is how its file is seen. A change
//! is noted in the journal before the call answers, and goes into the files later, with all others, when the journal
//! is full, when the state is stored, or when the files are listed. For every World that is honest it keeps what
//! `Files` promises. `taken_in` is how an opening begins: what a journal says that was left goes into the files.
//!
//! `MemoryJournal` keeps the promises of `Journal` for every World. `FolderJournal` is one file in an overlay's folder;
//! what such a file holds is nobody's proof, so it serves the World `Outside` alone, and that it reads what it wrote,
//! and drops a record that was cut, is shown by tests.
#![tactic(auto)]

mod bodies;
mod change;
mod dates;
mod folder;
mod journal;
mod journaled;
mod log;
mod memory;
mod new_file;
mod part;
mod pouring;
mod record;
mod seen;

pub use folder::FolderJournal;
pub use journal::Journal;
pub use journaled::{Journaled, taken_in};
pub use memory::MemoryJournal;
pub use new_file::{LONGEST_DIRECTORY, LONGEST_RECORD};
