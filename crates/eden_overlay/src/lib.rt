//! The stored files of a mount, and that no name in them dangles.
//!
//! `Files` says what storing, reading, removing and listing files by their numbers promise: what is stored is known
//! where the World is honest, and a failure of the device is told from want of memory by a count. `MemoryFiles` keeps
//! the promises for every World; a folder is nobody's proof of honesty, so `FolderFiles` serves the World `Outside`
//! alone. `FailingFiles` and `StopFiles` are for tests: files behind a gate, which fail where they were told to.
//!
//! An `Overlay` stores contents, directories and the state in such files, and gets them again. Whoever stores or
//! removes a file shows first that the overlay stays sound: each entry of a live directory whose contents are its own
//! has its file, and no number is named twice. `overlay_laws` has what such a caller needs. A value that is got
//! is what the file as it stands holds, and otherwise the fault says why there is none.
//!
//! `Overlay::rescan` is for files whose state was lost: one pass over the live directories finds the next number, or
//! why the files aren't sound.
//!
//! Strays, files that no live directory names as its own, may be left behind. Those of them that no directory names
//! which counts, be it a live one or one whose saved numbers are still to be had, are orphans: `Overlay::orphans` finds
//! them, and `Overlay::remove_orphans` removes them, so that the same is shown.
#![tactic(auto)]

mod content;
mod entries;
mod fault;
mod files;
mod folder;
mod gate;
mod laws;
mod mark;
mod memory;
mod names;
mod overlay;
mod part;
mod recent;
mod recent_bodies;
mod rescan;
mod room;
mod tidy;
mod unsynced;

pub use content::Content;
pub use entries::entries_of;
pub use fault::GetFault;
pub use files::{Files, FilesFault, count_failures};
pub use folder::{FolderFiles, LONGEST_FILE};
pub use gate::{Allowance, FailingFiles, Gate, GatedFiles, OneCall, StopFiles};
pub use laws::overlay_laws;
pub use memory::MemoryFiles;
pub use overlay::{Overlay, ROOT_NUMBER, STATE_NUMBER};
pub use part::part_of;
pub use rescan::RescanFault;
pub use tidy::Removed;
